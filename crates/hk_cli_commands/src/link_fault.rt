//! What a connection to a node fails by.

use hk_cli_calls::NodePlace;
use hk_cli_input::{LinkFault, Peer};
use hk_cli_reasons::{Place, put_place};
use std::alloc::AllocError;
use std::io;
use std::io::ErrorKind;

/// Whether no connection to a place can be opened since nobody listens there, or a socket's file isn't there.
pub fn is_nobody(place: NodePlace<'_>, error: &io::Error) -> bool {
    match error.kind() {
        ErrorKind::ConnectionRefused => true,
        ErrorKind::NotFound => matches!(place, NodePlace::Path(_)),
        _other => false,
    }
}

/// The end of the line where nobody listens.
const NOBODY: &str =
    ": nobody listens there; 'hkrep node' starts a node, and --node or HKREP_NODE names another\n";

/// Adds a place as a person writes it.
pub(crate) fn put_node(place: NodePlace<'_>, out: &mut String) -> Result<(), AllocError> {
    match place {
        NodePlace::Port(port) => write!(out, "127.0.0.1:{port}"),
        NodePlace::Address(address) => out.push_str(address),
        NodePlace::Path(path) => write!(out, "unix:{path}"),
    }
}

/// Adds why no connection to a place can be opened.
pub(crate) fn put_unconnected(
    place: NodePlace<'_>,
    error: &io::Error,
    out: &mut String,
) -> Result<(), AllocError> {
    out.push_str("refused 93: can't connect to ")?;
    put_node(place, out)?;
    if is_nobody(place, error) {
        return out.push_str(NOBODY);
    }
    writeln!(out, ": {error}; see that a node listens there")
}

/// What is said of who answered in the place of a node.
fn words_of(peer: Peer) -> &'static str {
    match peer {
        Peer::Http => "it speaks HTTP; give the port of a node, with no proxy before it",
        Peer::Tls => {
            "it speaks TLS, which this program doesn't; connect by way of stunnel (docs/OPERATING.md)"
        }
        Peer::Other => "its bytes are no frame; give the port of a node",
    }
}

/// Adds a log's number, or that it isn't known.
fn put_log(log: Option<u64>, out: &mut String) -> Result<(), AllocError> {
    match log {
        Some(log) => write!(out, "log {log}"),
        None => out.push_str("another log"),
    }
}

/// Adds which logs two nodes have, or what was sent and the node that got it.
fn put_logs(
    sent: Option<u64>,
    own: Option<u64>,
    node: &str,
    source: &str,
    out: &mut String,
) -> Result<(), AllocError> {
    if source.is_empty() {
        out.push_str("what was sent")?;
    } else {
        out.push_str(source)?;
    }
    out.push_str(" has ")?;
    put_log(sent, out)?;
    write!(out, " and {node} has ")?;
    put_log(own, out)?;
    out.push_str("; a node takes one log alone\n")
}

/// The address of the node that a request went to.
fn address_of<'x>(place: Place, node: &'x str, source: &'x str) -> &'x str {
    match place {
        Place::Source(_request) => source,
        _other => node,
    }
}

/// Adds the line of a fault at a request: the addresses are those of the node, and of the one that is copied from, or nothing.
pub(crate) fn put_fault(
    fault: &LinkFault,
    place: Place,
    node: &str,
    source: &str,
    out: &mut String,
) -> Result<(), AllocError> {
    put_place(place, out)?;
    let address = address_of(place, node, source);
    match fault {
        LinkFault::Cut => out.push_str(
            "refused 1: the connection was cut before the reply; see whether the node still runs\n",
        ),
        LinkFault::Late(seconds) => writeln!(
            out,
            "refused 91: {address} listens, and sent no reply for {seconds} s; its connections may all be taken, or it is stopped: see its lines, or give --reply-seconds more"
        ),
        LinkFault::Slow(rate) => writeln!(
            out,
            "refused 91: {address} sends fewer than {rate} bytes a second, for half a minute; name another node, or give --read-rate less"
        ),
        LinkFault::NoNode(peer, why) => {
            let number = why.number();
            let words = words_of(*peer);
            writeln!(out, "refused {number}: {address} is no node: {words}")
        }
        LinkFault::OtherLog { sent, own } => {
            out.push_str("refused 20: ")?;
            put_logs(*sent, *own, node, source, out)
        }
    }
}
