//! One session in both versions over a host of a seat.

ghost use Rattle.std.specs.Prelude.{◌≡◌};
ghost use mathlib.Core.List.{IsPrefix};
ghost use Rattle.hk_host.specs.Serving.{Runs};

use hk_link::PartsHost;
use hk_link_state::{LinkState, NodeSide};
use hk_session::serve_waiting;
use hk_session_parts::{Counted, Ended, Waiter};
use std::alloc::Global;
use std::io::{Read, Write};

/// Runs the session of a connection in both versions, as `serve` over a `PartsHost`. However it ends, the release of each pin
/// that the connection has then is asked for, and of no other, as `PartsHost::end` does. Returns how it ended, the host for
/// version 1, and the state with which the next connection of the slot begins: with just those of the connection's pins that
/// the node handed back. Before an Await is answered the waiter waits for it. Cost: that of the session and of the releases.
pub fn serve_parts<'a, H: NodeSide + Drop, I: Read + Drop, O: Write + Drop, W: Waiter>(
    alloc: Global,
    link: PartsHost<'a, H>,
    waiter: &mut W,
    reader: &mut Counted<I>,
    writer: &mut Counted<O>,
) -> (Ended, H, LinkState<'a>)
    requires reader { reader.old.faults ≡ 0 }
    requires writer { writer.old.faults ≡ 0 }
    requires ready { H.ready link.inner }
    ensures seen { IsPrefix (H.side.list link.entry.inner) (H.side.list result.1) }
    // The bytes read, and what was done and written for them; then the connection's pins were released.
    ensures transcript { Runs H.may H.side link.entry
        I.remaining reader.old reader.new O.contents writer.old writer.new result }
{
    let mut served = link;
    let ended = serve_waiting::<2, _, _, _, _>(alloc, reader, writer, &mut served, waiter);
    let (inner, left) = served.end();
    (ended, inner, left)
}
