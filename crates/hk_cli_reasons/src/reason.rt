//! Why something was refused, in a line.

use crate::known::known_of;
use hk_types::{Refusal, StreamNo, Time};
use std::alloc::AllocError;

/// Where in its input a command was refused; each is counted from 1.
#[derive(Clone, Copy)]
pub enum Place {
    /// The input has no positions, or none of them is to blame.
    Whole,
    /// An item frame.
    Frame(u64),
    /// A line of a script.
    Line(u64),
    /// A request.
    Request(u64),
    /// A request to the node that is copied from.
    Source(u64),
    /// A connection, in the order in which they were accepted.
    Link(u64),
}

/// What was asked for.
#[derive(Clone, Copy)]
pub enum RequestContext {
    /// Nothing that the refusal does not name itself.
    Nothing,
    /// Something at a time.
    At(Time),
    /// That an item of a log and a stream is applied.
    Item { log: u64, stream: StreamNo },
    /// That requests are read as items.
    RequestsAsItems,
    /// That items are read as requests.
    ItemsAsRequests,
}

/// What to do with requests that were read as items.
const LOAD_INSTEAD: &str =
    "this is what 'hkrep save' writes, or other requests: give it to 'hkrep load', or to 'hkrep push'";

/// What to do with items that were read as requests.
const FEED_INSTEAD: &str = "these are items: give them to 'hkrep feed'";

/// Where a refusal came from.
#[derive(Clone, Copy)]
pub struct Origin {
    pub place: Place,
    pub asked: RequestContext,
}

/// Adds where a command was refused, and a colon. The only error is out of memory. Cost: O(1).
pub fn put_place(place: Place, out: &mut String) -> Result<(), AllocError> {
    match place {
        Place::Whole => Ok(()),
        Place::Frame(number) => write!(out, "frame {number}: "),
        Place::Line(number) => write!(out, "line {number}: "),
        Place::Request(number) => write!(out, "request {number}: "),
        Place::Source(number) => write!(out, "request {number} to the source: "),
        Place::Link(number) => write!(out, "link {number}: "),
    }
}

/// Whether a refusal is of the time that was asked for.
fn is_of_time(refusal: &Refusal) -> bool {
    matches!(
        refusal,
        Refusal::AheadOfMark { .. } | Refusal::TooOld { .. } | Refusal::NotYet { .. }
    )
}

fn put_asked(asked: RequestContext, refusal: &Refusal, out: &mut String) -> Result<(), AllocError> {
    match asked {
        RequestContext::At(time) if is_of_time(refusal) => write!(out, "time {time} is "),
        RequestContext::Item { log, stream } => write!(out, "item of log {log}, stream {stream}: "),
        _nothing => Ok(()),
    }
}

/// What to do where a time can't be read yet: to who asks a node that runs, and to who feeds.
fn put_not_yet(place: Place, readable: Time, out: &mut String) -> Result<(), AllocError> {
    match place {
        Place::Request(_) => {
            write!(
                out,
                "the node can be read up to {readable}: ask there, or wait with --wait"
            )
        }
        _fed => write!(out, "feed the marks of all streams, or ask at {readable}"),
    }
}

/// What to do, with the numbers that the refusal names.
fn put_own_advice(place: Place, refusal: &Refusal, out: &mut String) -> Result<(), AllocError> {
    match refusal {
        Refusal::Gap { readable, .. } => {
            write!(out, "ask for a delta since {readable}, or for a snapshot")
        }
        Refusal::AheadOfMark { readable } => write!(out, "prune to {readable} at most"),
        Refusal::TooOld { horizon } => write!(out, "ask at {horizon} or later"),
        Refusal::NotYet { readable } => put_not_yet(place, *readable, out),
        Refusal::Held { reader, .. } => {
            write!(out, "wait until reader {reader} releases its pin")
        }
        other => match known_of(other.number()) {
            Some(known) => out.push_str(known.advice),
            None => Ok(()),
        },
    }
}

/// What to do.
fn put_advice(origin: Origin, refusal: &Refusal, out: &mut String) -> Result<(), AllocError> {
    match origin.asked {
        RequestContext::RequestsAsItems => out.push_str(LOAD_INSTEAD),
        RequestContext::ItemsAsRequests => out.push_str(FEED_INSTEAD),
        _other => put_own_advice(origin.place, refusal, out),
    }
}

/// Adds a line that says why something was refused: where, the number, what was refused, and what to do. The only
/// error is out of memory; then the text may end with a part of the line. Cost: O(1).
pub fn put_reason(origin: Origin, refusal: &Refusal, out: &mut String) -> Result<(), AllocError> {
    let number = refusal.number();
    put_place(origin.place, out)?;
    write!(out, "refused {number}: ")?;
    put_asked(origin.asked, refusal, out)?;
    write!(out, "{refusal}; ")?;
    put_advice(origin, refusal, out)?;
    out.push('\n')
}

/// Adds a line that says what a number means, behind what happened with it: `refused` or `ended`. A number that no
/// refusal has adds nothing. The only error is out of memory; then the text may end with a part of the line. Cost: O(1).
pub fn put_known(place: Place, what: &str, number: u8, out: &mut String) -> Result<(), AllocError> {
    let Some(known) = known_of(number) else {
        return Ok(());
    };
    let meaning = known.meaning;
    let advice = known.advice;
    put_place(place, out)?;
    writeln!(out, "{what} {number}: {meaning}; {advice}")
}
