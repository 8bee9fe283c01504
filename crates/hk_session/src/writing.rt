//! Writing replies.

ghost use Rattle.std.specs.Prelude.{◌≡◌, ◌≢◌, ◌<◌, true, false, Some};
ghost use Rattle.hk_session_parts.specs.declared.ended.Ended.TheVariants as ends;
ghost use Rattle.hk_session_parts.specs.Serving.{CutsOff, WritesBy, Wrote};

use hk_session_parts::{Counted, Ended};
use std::io::Write;

/// Writes all of the text, or answers false: a front of it was written and not all, and then a write failed.
fn write_text<W: Write>(writer: &mut Counted<W>, text: &[u8]) -> bool
    requires { writer.old.faults ≡ 0 }
    ensures all { result ≡ true → Wrote W.contents writer.old writer.new text.now × (writer.new.faults ≡ 0) }
    ensures part { result ≡ false → CutsOff W.contents writer.old writer.new text.now × (0 < writer.new.faults) }
{
    let mut done = 0;
    while done < text.len() {
        match writer.write(&text[done..]) {
            Ok(count) => {
                if count == 0 {
                    return false;
                }
                done += count;
            }
            Err(_e) => return false,
        }
    }
    true
}

/// Writes what is there, and then nothing is; or a front of it was written and not all, and a write failed.
pub(crate) fn write_out<W: Write>(held: &mut Vec<u8>, writer: &mut Counted<W>) -> Option<Ended>
    requires { writer.old.faults ≡ 0 }
    ensures reads { result ≢ Some ends.ReadFault }
    ensures writes { WritesBy W.contents writer.old writer.new held.old.items held.new.items result }
    ensures quiet { result ≢ Some ends.WriteFault → writer.new.faults ≡ 0 }
    ensures fault { result ≡ Some ends.WriteFault → 0 < writer.new.faults }
{
    if !write_text(writer, held) {
        return Some(Ended::WriteFault);
    }
    held.clear();
    None
}
