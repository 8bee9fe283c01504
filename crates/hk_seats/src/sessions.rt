//! Sessions over a host of a seat, and how they ended.

ghost use Rattle.std.specs.Prelude.{◌≡◌, true, length, is_some, IfSome};
ghost use mathlib.Core.List.{IsPrefix};
ghost use Rattle.hk_seats.specs.Serving.{ServesHost};

use hk_link_state::NodeSide;
use hk_session::serve;
use hk_session_parts::{Counted, Ended};
use std::alloc::Global;
use std::io::{Read, Write};

/// Runs one session in version 1 over a host, as `serve`, and returns how it ended, with the host. Cost: that of the session.
pub fn serve_plain<H: NodeSide + Drop, I: Read + Drop, O: Write + Drop>(
    alloc: Global,
    host: H,
    reader: &mut Counted<I>,
    writer: &mut Counted<O>,
) -> (Ended, H)
    requires reader { reader.old.faults ≡ 0 }
    requires writer { writer.old.faults ≡ 0 }
    requires ready { H.ready host }
    ensures seen { IsPrefix (H.side.list host) (H.side.list result.1) }
    // The bytes read, and what was done and written for them.
    ensures transcript { ServesHost H.may host
        I.remaining reader.old reader.new O.contents writer.old writer.new result }
{
    H::laws();
    let mut served = host;
    let ended = serve::<1, _, _, _>(alloc, reader, writer, &mut served);
    (ended, served)
}

/// All ends, of so many sessions; none where one of them is missing. Cost: O(1).
pub fn all_ends(ends: Vec<Ended>, count: usize) -> Option<Vec<Ended>>
    ensures all { IfSome result (λ all. all.items ≡ ends.items) }
    ensures whole { IfSome result (λ all. length all.items ≡ count) }
    ensures some { length ends.items ≡ count → is_some result ≡ true }
{
    if ends.len() == count {
        return Some(ends);
    }
    None
}
