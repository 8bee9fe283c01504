//! The command `serve`.

ghost use Rattle.std.specs.Prelude.{◌≡◌, ◌≤◌, IfOk};

use crate::listening::port_of;
use crate::notice::Notice;
use hk_budgets::PartsBudget;
use hk_cli_calls::IS_PROVED;
use hk_cli_commands::Output;
use hk_cli_input::Stop;
use hk_cli_reasons::Place;
use hk_host::{NetFault, serve_links};
use hk_node::{NewList, Node, NodeName, ReaderSeat, start};
use hk_session_parts::Ended;
use hk_types::{Config, Links, Refusal};
use std::alloc::{AllocError, Global};
use std::io::Write;
use std::marker::Brand;
use std::net::{Ipv4Addr, Net, TcpListener, TcpStream};
use std::sync::Wait;
use std::thread::Threads;

/// Why the command stops where serving did.
pub(crate) fn stop_of(fault: NetFault) -> Stop {
    match fault {
        NetFault::Memory => Stop::Refused(Refusal::Memory),
        NetFault::Socket => Stop::NetFault,
    }
}

/// The budget of so many bytes that connections share, where a number of bytes is given.
pub(crate) fn budget_of(
    alloc: Global,
    parts_bytes: Option<u64>,
) -> Result<Option<PartsBudget>, AllocError> {
    match parts_bytes {
        Some(most) => Ok(Some(PartsBudget::new(alloc, most)?)),
        None => Ok(None),
    }
}

/// The line for a program that was built without proofs.
pub(crate) const UNPROVED: &str =
    "unproved: this program was built without one proof, to be looked at; make builds the proved one\n";

/// Prints a line where the program was built without proofs.
pub(crate) fn tell_unproved<W: Write, E: Write>(output: &mut Output<'_, W, E>) {
    if !IS_PROVED {
        output.note(UNPROVED);
    }
}

/// Listens to a port of an address.
pub(crate) fn listener_of<R: Net<Listener = TcpListener, Stream = TcpStream>, W: Write, E: Write>(
    rt: &R,
    address: Ipv4Addr,
    port: u16,
    output: &mut Output<'_, W, E>,
) -> Result<TcpListener, Stop> {
    match TcpListener::bind(rt, (address, port)) {
        Ok(listener) => Ok(listener),
        Err(error) => Err(output.listen_fault(port, &error)),
    }
}

/// Prints how each connection ended, and returns the status.
fn print_ends<W: Write, E: Write>(ends: &[Ended], output: &mut Output<'_, W, E>) -> Result<u8, Stop>
    ensures { IfOk result (λ status. status ≤ 1) }
{
    let mut link = 0u64;
    for ended in ends {
        link = link.saturating_add(1);
        let number = ended.number();
        output.tell_known(Place::Link(link), "ended", number);
        output.print(&Notice::Ended(number))?;
    }
    output.flush()?;
    let all_clean = ends.iter().all(|ended| matches!(ended, Ended::Clean));
    Ok(u8::from(!all_clean))
}

/// Serves connections to a node at a listener, and returns how each ended.
fn served<J: NodeName + Send + Sync, R>(
    rt: &R,
    alloc: Global,
    listener: &TcpListener,
    node: &Node<J, &R>,
    parts_bytes: Option<u64>,
    seats: Vec<ReaderSeat<J>>,
) -> Result<Vec<Ended>, Stop>
where
    R: Net<Listener = TcpListener, Stream = TcpStream> + Threads + Wait + Sync,
{
    let budget = budget_of(alloc, parts_bytes)?;
    serve_links(rt, alloc, listener, node, budget.as_ref(), seats).map_err(stop_of)
}

/// Prints that connections can be opened.
fn tell_listening<W: Write, E: Write>(
    listener: &TcpListener,
    port: u16,
    output: &mut Output<'_, W, E>,
) -> Result<(), Stop> {
    output.print(&Notice::Listening(port_of(listener, port)))?;
    output.flush()
}

/// Serves connections at a listener to a new node of this list.
fn serve_at<
    J: NodeName + Send + Sync,
    R: Net<Listener = TcpListener, Stream = TcpStream> + Threads + Wait + Sync,
    W: Write,
    E: Write,
>(
    rt: &R,
    alloc: Global,
    listener: &TcpListener,
    port: u16,
    list: NewList,
    links: Links,
    parts_bytes: Option<u64>,
    output: &mut Output<'_, W, E>,
) -> Result<Vec<Ended>, Stop>
    requires { list ≡ (J.book, J.kind) }
{
    let (node, seats) = start::<J, &R>(rt, alloc, list, links.count())?;
    tell_listening(listener, port, output)?;
    served(rt, alloc, listener, &node, parts_bytes, seats)
}

/// Serves the connections to a new node of this list.
fn serve_list<
    J: NodeName + Send + Sync,
    R: Net<Listener = TcpListener, Stream = TcpStream> + Threads + Wait + Sync,
    W: Write,
    E: Write,
>(
    rt: &R,
    alloc: Global,
    port: u16,
    list: NewList,
    links: Links,
    parts_bytes: Option<u64>,
    output: &mut Output<'_, W, E>,
) -> Result<u8, Stop>
    requires { list ≡ (J.book, J.kind) }
    ensures { IfOk result (λ status. status ≤ 1) }
{
    let listener = listener_of(rt, Ipv4Addr::LOCALHOST, port, output)?;
    let ends = serve_at::<J, R, W, E>(
        rt,
        alloc,
        &listener,
        port,
        list,
        links,
        parts_bytes,
        output,
    )?;
    print_ends(&ends, output)
}

/// Starts a node of a log, and serves connections to it on a port of 127.0.0.1, until so many were opened and all have
/// ended. Prints `listening` and the port once connections can be opened, and at the end a line for each connection in
/// the order in which they were accepted: `ended` and its number, which is 0, the fault's of a request, 90, 91 or 92. A
/// guarded node refuses with 23 what conflicts with it, changes nothing, and never fails (`NewList::guarded`). Messages
/// of version 1 are answered, and where a number of bytes is given those of version 2 too: the connections keep at most
/// so many bytes for them, all together.
///
/// The status is 0, or 1 where a number above 0 or one of these lines was printed:
///
/// - `refused 93` where the port can't be listened to, as one in use, or no further connection can be accepted;
/// - `refused 90` where memory ran out for the node or the list of connections;
/// - no line where a write failed or took no bytes: the status alone shows it.
///
/// Each number above 0 and each such line is explained in words on `errors`. Cost: that of `start`, and of
/// `serve_links`.
pub fn run_serve<
    R: Net<Listener = TcpListener, Stream = TcpStream> + Threads + Wait + Sync,
    W: Write,
    E: Write,
>(
    rt: &R,
    alloc: Global,
    port: u16,
    config: Config,
    links: Links,
    is_guarded: bool,
    parts_bytes: Option<u64>,
    writer: &mut W,
    errors: &mut E,
) -> u8
    ensures { result ≤ 1 }
{
    let mut output = Output::new(alloc, writer, errors);
    tell_unproved(&mut output);
    let list = NewList::of(config, is_guarded);
    match serve_list::<Brand, R, W, E>(rt, alloc, port, list, links, parts_bytes, &mut output) {
        Ok(status) => status,
        Err(stop) => output.stop(stop),
    }
}
