//! What changes a node: `pull` and `prune`; and what another node has, as the requests that give it to one.

use crate::link::{Link, unasked};
use crate::order::Terminal;
use crate::parts::{Parts, hand_parts, is_too_long, taking};
use crate::read::{front_at, send_parts, send_request};
use crate::stream::opened;
use hk_cli_calls::{Limits, NodeCall, NodePlace};
use hk_cli_commands::Output;
use hk_cli_input::Stop;
use hk_cli_reasons::{Origin, RequestContext};
use hk_log::Version;
use hk_messages::{LaterReply, LaterRequest, Request};
use hk_types::{Refusal, Time, VersionKey};
use std::alloc::Global;
use std::io::Write;
use std::net::{Net, TcpListener, TcpStream};
use std::rt::Clock;

/// Sends a request, and prints its reply.
fn tell<W: Write, E: Write>(
    link: &mut Link,
    request: Request,
    output: &mut Output<'_, W, E>,
) -> Result<(), Stop> {
    let reply = link.given(request)?;
    output.print(&reply)
}

/// Has the node drop the versions that no read at a time or later needs, and prints its number.
pub(crate) fn prune<W: Write, E: Write>(
    link: &mut Link,
    horizon: Time,
    output: &mut Output<'_, W, E>,
) -> Result<(), Stop> {
    tell(link, Request::Prune { horizon }, output)
}

/// Whether a delta was refused for its base alone, so that a full snapshot may serve in its place.
fn is_of_base(why: &Refusal) -> bool {
    matches!(
        why,
        Refusal::TooOld { .. } | Refusal::NotYet { .. } | Refusal::AheadOfMark { .. }
    )
}

/// What a node returns.
#[derive(Drop)]
enum Handed {
    /// A fragment, as the request that passes it on.
    Frame(Request),
    /// A fragment since a time that isn't to be had in one message, as the request from there was refused so.
    Long(Time, Refusal, Origin),
}

/// Whether a fragment was refused as one message, and may be had in chunks: a message, or the node, has no room for all of it at once.
pub(crate) fn is_for_chunks(why: &Refusal) -> bool {
    is_too_long(why) || matches!(why, Refusal::Memory)
}

/// A full snapshot that was refused since there is no room for it at once; any other refusal stops the command.
fn long_whole(why: Refusal, origin: Origin) -> Result<Handed, Stop> {
    if is_for_chunks(&why) {
        return Ok(Handed::Long(Time::zero(), why, origin));
    }
    Err(Stop::RefusedAt(why, origin))
}

/// The full snapshot of a node that refused a delta for its base; any other refusal stops the command.
fn whole_after(from: &mut Link, base: Time, why: Refusal) -> Result<Handed, Stop> {
    if !is_of_base(&why) {
        let origin = from.origin(RequestContext::At(base));
        return Err(Stop::RefusedAt(why, origin));
    }
    let whole = from.fragment(Request::Full)?;
    match whole {
        Ok(whole) => Ok(Handed::Frame(Request::MergeThis(whole))),
        Err(why) => long_whole(why, from.origin(RequestContext::Nothing)),
    }
}

/// What a node returns that refused a delta: the same in chunks where there is no room for it at once, or its full snapshot.
fn without_delta(from: &mut Link, base: Time, why: Refusal) -> Result<Handed, Stop> {
    if is_for_chunks(&why) {
        let origin = from.origin(RequestContext::At(base));
        return Ok(Handed::Long(base, why, origin));
    }
    whole_after(from, base, why)
}

/// What a node has applied since a time, or its full snapshot where it can't cut a delta there.
fn handed_on(from: &mut Link, base: Time) -> Result<Handed, Stop> {
    let delta = from.fragment(Request::Delta { base })?;
    match delta {
        Ok(delta) => Ok(Handed::Frame(Request::JoinThis(delta))),
        Err(why) => without_delta(from, base, why),
    }
}

/// Chunks on their way to a node.
#[derive(Drop)]
struct Adder<'k> {
    link: &'k mut Link,
}

impl Parts for Adder<'_> {
    /// Has the node keep the facts until the head is there.
    fn take(&mut self, facts: Vec<(VersionKey, Version)>) -> Result<(), Stop> {
        match self.link.granted_later(LaterRequest::AddPart(facts))? {
            LaterReply::Added { .. } => Ok(()),
            _none => Err(unasked()),
        }
    }
}

/// Adds to a node the chunks of what another has applied since a time, and returns the request by which it joins them.
fn add_parts(own: &mut Link, other: &mut Link, base: Time) -> Result<LaterRequest, Stop> {
    let mut adder = Adder { link: own };
    let head = hand_parts(other, base, &mut adder)?;
    Ok(taking(head))
}

/// Has a node join the chunks that were added, and prints its number.
fn join_parts<W: Write, E: Write>(
    own: &mut Link,
    request: LaterRequest,
    output: &mut Output<'_, W, E>,
) -> Result<(), Stop> {
    let reply = own.granted_later(request)?;
    output.print(&reply)
}

/// Copies to a node in chunks what another has applied since a time, or its full snapshot since 0, and prints the
/// node's number. Where one of them doesn't read requests of chunks, it stops for what was refused before.
fn pull_parts<W: Write, E: Write>(
    own: &mut Link,
    other: &mut Link,
    base: Time,
    long: (Refusal, Origin),
    output: &mut Output<'_, W, E>,
) -> Result<(), Stop> {
    if !own.reads_later()? || !other.reads_later()? {
        return Err(Stop::RefusedAt(long.0, long.1));
    }
    let request = add_parts(own, other, base)?;
    join_parts(own, request, output)
}

/// Copies to the node what the call's source has applied since the node's resolved time, and prints its number.
pub(crate) fn pull<R: Net<Listener = TcpListener, Stream = TcpStream> + Clock, W: Write, E: Write>(
    rt: &R,
    own: &mut Link,
    call: &NodeCall<'_>,
    terminal: Terminal,
    output: &mut Output<'_, W, E>,
) -> Result<(), Stop> {
    let source = call.source.unwrap_or(call.place);
    output.copy_from(source)?;
    let stream = opened(rt, source, call.limits, output)?;
    let mut other = Link::new(own.alloc(), stream, call.limits, terminal.errors, true)?;
    pull_handed(own, &mut other, output)
}

/// The same over a connection to the source.
fn pull_handed<W: Write, E: Write>(
    own: &mut Link,
    other: &mut Link,
    output: &mut Output<'_, W, E>,
) -> Result<(), Stop> {
    let front = front_at(own)?;
    match handed_on(other, front.readable)? {
        Handed::Frame(request) => tell(own, request, output),
        Handed::Long(base, why, origin) => pull_parts(own, other, base, (why, origin), output),
    }
}

/// Writes what the node at a place has applied since a time, or its full snapshot where it refuses a delta for that time: as the request
/// that gives it to a node, or in chunks where a message has no room for it. What stops it is as in `run_order`; what was written then is
/// a part. Cost: O(n), n bytes of what is written.
pub fn fetch_from<R: Net<Listener = TcpListener, Stream = TcpStream> + Clock, W: Write, E: Write>(
    rt: &R,
    alloc: Global,
    place: NodePlace<'_>,
    limits: Limits,
    base: Time,
    output: &mut Output<'_, W, E>,
) -> Result<(), Stop> {
    output.copy_from(place)?;
    let stream = opened(rt, place, limits, output)?;
    let mut other = Link::new(alloc, stream, limits, None, true)?;
    send_handed(&mut other, base, output)
}

/// The same over a connection to that node.
fn send_handed<W: Write, E: Write>(
    other: &mut Link,
    base: Time,
    output: &mut Output<'_, W, E>,
) -> Result<(), Stop> {
    match handed_on(other, base)? {
        Handed::Frame(request) => send_request(other.alloc(), request, output),
        Handed::Long(base, why, origin) => send_long(other, base, (why, origin), output),
    }
}

/// Writes in chunks what a node has applied since a time, where it reads requests of chunks.
fn send_long<W: Write, E: Write>(
    other: &mut Link,
    base: Time,
    long: (Refusal, Origin),
    output: &mut Output<'_, W, E>,
) -> Result<(), Stop> {
    if !other.reads_later()? {
        return Err(Stop::RefusedAt(long.0, long.1));
    }
    send_parts(other, base, output)
}
