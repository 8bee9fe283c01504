//! Frames of either version written in version 2.

ghost use Rattle.hk_codec.specs.Frames.{Rewrites};
ghost use Rattle.hk_codec.specs.Rewriting.{HasRewritten};

use crate::encoding::put_frame;
use crate::reading::ItemFormat;
use hk_frames::{ReadError, next_frame};
use hk_log::Spare;
use hk_types::{FormFault, Refusal};
use std::alloc::Global;

/// Adds the encodings in version 2 of the items that the bytes encode, at the end. Bytes that are not complete frames
/// are refused with the fault that one `feed` of them and `finish` meet first, which is `Truncated` where they end
/// inside a frame; or `Memory` is answered. On a refusal the output is as before. Cost: O(n), n bytes: one pass over
/// them, and no more than one item is in memory at a time; the output grows as it is written.
pub fn rewrite(alloc: Global, bytes: &[u8], out: &mut Vec<u8>) -> Result<(), Refusal>
    ensures { Rewrites bytes.now out.old.items out.new.items result }
{
    let start = out.len();
    let rewritten = rewrite_frames(alloc, bytes, out);
    if rewritten.is_err() {
        out.truncate(start);
    }
    rewritten
}

/// The same, but where it is refused frames may have been added.
fn rewrite_frames(alloc: Global, bytes: &[u8], out: &mut Vec<u8>) -> Result<(), Refusal>
    ensures { HasRewritten bytes.now out.old.items out.new.items result }
{
    let mut used = 0;
    let mut spare = Spare::default();
    'frames: loop {
        match next_frame::<ItemFormat>(alloc, &bytes[used..], &mut spare) {
            Ok(Some((item, len))) => {
                put_frame(out, &item)?;
                used += len;
            }
            Ok(None) => {
                if used < bytes.len() {
                    return Err(Refusal::Form(FormFault::Truncated));
                }
                return Ok(());
            }
            Err(ReadError::Fault(fault)) => return Err(Refusal::Form(fault)),
            Err(ReadError::Memory) => return Err(Refusal::Memory),
        }
    }
}
