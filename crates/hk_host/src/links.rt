//! Connections over TCP.

ghost use Rattle.std.specs.Prelude.{◌≡◌, length, IfOk};

use crate::fault::NetFault;
use crate::node_host::NodeHost;
use crate::sessions::serve_parts;
use hk_budgets::PartsBudget;
use hk_link::PartsHost;
use hk_link_state::{LinkState, NodeSide};
use hk_node::{Node, NodeName, ReaderSeat};
use hk_seats::{all_ends, serve_plain};
use hk_session_parts::{AtOnce, Counted, Ended};
use std::alloc::{AllocError, Global};
use std::io::Read;
use std::net::{Shutdown, TcpListener, TcpStream};
use std::sync::Wait;
use std::thread;
use std::thread::{JoinHandle, Scope, Threads};
use std::time::Duration;

/// How many pieces of what a peer still sends are read once its session has ended.
const LAST_PIECES: u32 = 100;

/// How many milliseconds the first of them is waited for.
const FIRST_WAIT: u64 = 250;

/// How many milliseconds each next one is waited for. The system may wait for a few more.
const NEXT_WAIT: u64 = 10;

/// Lets the peer read the last reply. A connection that is closed over bytes that nobody read is cut off, and the peer
/// could lose what was written; so what it still sends is read and dropped, for less than two seconds whatever it sends.
fn drain(stream: &TcpStream) {
    if stream.shutdown(Shutdown::Write).is_err() {
        return;
    }
    let mut piece = [0u8; 16_384];
    let mut wait = FIRST_WAIT;
    for _ in 0..LAST_PIECES {
        if stream
            .set_read_timeout(Some(Duration::from_millis(wait)))
            .is_err()
        {
            return;
        }
        match (&mut &*stream).read(&mut piece) {
            Ok(0) | Err(_) => return,
            Ok(_) => wait = NEXT_WAIT,
        }
    }
}

/// Runs the session of a connection over a host: with a budget in both versions, else in version 1.
fn serve_over<H: NodeSide + Drop>(
    alloc: Global,
    budget: Option<&PartsBudget>,
    host: H,
    stream: &TcpStream,
) -> Ended
    requires { H.ready host }
{
    let mut reader = Counted::new(stream);
    let mut writer = Counted::new(stream);
    match budget {
        Some(budget) => {
            let link = PartsHost::new(host, LinkState::new(alloc, budget, None));
            let (ended, _host, _left) = serve_parts(
                alloc,
                link,
                &mut AtOnce,
                &mut reader,
                &mut writer,
            );
            ended
        }
        None => {
            let (ended, _host) = serve_plain(alloc, host, &mut reader, &mut writer);
            ended
        }
    }
}

/// Runs the session of a connection to its end.
fn serve_link<'a, J: NodeName, N: Wait + Drop, R: Threads + Wait + Sync>(
    rt: &'a R,
    alloc: Global,
    node: &'a Node<J, N>,
    budget: Option<&PartsBudget>,
    seat: ReaderSeat<J>,
    stream: TcpStream,
) -> Ended {
    // A reply is sent at once; where the system doesn't allow that, replies come later.
    let _at_once = stream.set_nodelay(true);
    let ended = serve_over(alloc, budget, NodeHost::new(rt, alloc, node, seat), &stream);
    drain(&stream);
    ended
}

/// The thread of a connection, or none where it could not be started.
type LinkThread = Option<JoinHandle<Ended>>;

/// Accepts a connection for each seat, and starts its thread. Returns why not all were accepted.
fn start_links<
    's,
    E,
    J: NodeName + Send + Sync,
    N: Wait + Drop + Send + Sync,
    R: Threads + Wait + Sync,
>(
    scope: &Scope<'s, E>,
    rt: &'s R,
    alloc: Global,
    listener: &TcpListener,
    node: &'s Node<J, N>,
    budget: Option<&'s PartsBudget>,
    seats: Vec<ReaderSeat<J>>,
    links: &mut Vec<LinkThread>,
) -> Option<NetFault> {
    for seat in seats {
        let Ok((stream, _address)) = listener.accept() else {
            return Some(NetFault::Socket);
        };
        let link = scope
            .spawn(move || serve_link(rt, alloc, node, budget, seat, stream))
            .ok();
        if links.push(link).is_err() {
            return Some(NetFault::Memory);
        }
    }
    None
}

/// Room for so many ends and threads.
fn rooms_of(alloc: Global, count: usize) -> Result<(Vec<Ended>, Vec<LinkThread>), AllocError> {
    let ends = Vec::with_capacity(alloc, count)?;
    let links = Vec::with_capacity(alloc, count)?;
    Ok((ends, links))
}

/// Waits for each thread, and adds how its connection ended. Returns false where memory ran out for that.
fn join_all<R: Threads>(rt: &R, links: Vec<LinkThread>, ends: &mut Vec<Ended>) -> bool {
    let mut are_added = true;
    for link in links {
        let ended = match link {
            Some(handle) => handle.join(rt),
            None => Ended::Memory,
        };
        are_added = ends.push(ended).is_ok() && are_added;
    }
    are_added
}

/// Accepts as many connections as there are seats, and runs the session of each, over a `NodeHost`, in a thread of its
/// own, with one of the seats. Returns how each ended, in the order in which they were accepted, once all have ended.
///
/// With a budget each connection is answered in both versions (`PartsHost`), and the release of each of its pins is asked for
/// when it ends; a pin whose release is refused then (`Damaged`, `NodeFull` or `Memory`) stays active. All connections
/// together keep at most as many bytes as the budget has. Without one it is answered in version 1, and a request of version 2
/// ends it with `BadVersion`.
///
/// A connection whose thread can't be started ends with `Memory`. `NetFault::Memory` comes where the list of ends
/// can't be made, which is tested before the first accept; `NetFault::Socket` where an accept failed, after the
/// connections that were accepted so far have run to their end. Cost: that of the sessions.
pub fn serve_links<
    J: NodeName + Send + Sync,
    N: Wait + Drop + Send + Sync,
    R: Threads + Wait + Sync,
>(
    rt: &R,
    alloc: Global,
    listener: &TcpListener,
    node: &Node<J, N>,
    budget: Option<&PartsBudget>,
    seats: Vec<ReaderSeat<J>>,
) -> Result<Vec<Ended>, NetFault>
    ensures { IfOk result (λ ends. length ends.items ≡ length seats.items) }
{
    let count = seats.len();
    let (mut ends, mut links) = rooms_of(alloc, count)?;
    thread::scope(
        thread::scope_env(),
        rt,
        |scope| -> Result<Vec<Ended>, NetFault>
            ensures { IfOk result (λ ends. length ends.items ≡ count) }
        {
            let fault = start_links(scope, rt, alloc, listener, node, budget, seats, &mut links);
            if !join_all(rt, links, &mut ends) {
                return Err(NetFault::Memory);
            }
            if let Some(fault) = fault {
                return Err(fault);
            }
            // All are there: each seat had a connection, and each connection an end.
            all_ends(ends, count).ok_or(NetFault::Memory)
        },
    )
}
