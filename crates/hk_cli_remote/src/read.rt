//! What reads a node: `ask`, `front` and `status`; and fragments as requests.

use crate::link::{Link, front_of, unasked};
use crate::parts::{Parts, hand_parts, taking};
use hk_cli_commands::{Output, put_status};
use hk_cli_input::Stop;
use hk_encodings::encode_request;
use hk_fragment::Fragment;
use hk_log::Version;
use hk_messages::{LaterReply, LaterRequest, Reply, Request};
use hk_model::{Answer, Front, Query};
use hk_types::{FormFault, Refusal, Time, VersionKey};
use std::alloc::Global;
use std::io::Write;

/// The most requests that one command lets wait.
const MOST_WAITS: u64 = 4_294_967_296;

/// The line where a node that is to let a request wait knows none that can.
const ONE_VERSION: &str =
    "the node answers messages of version 1 alone, and --wait needs version 2: start it by 'hkrep node', or with --messages 2\n";

/// The node's range of readable times.
pub(crate) fn front_at(link: &mut Link) -> Result<Front, Stop> {
    let reply = link.given(Request::Front)?;
    front_of(reply)
}

/// The fragment that a request asks for.
pub(crate) fn fragment_at(link: &mut Link, request: Request) -> Result<Fragment, Stop> {
    match link.given(request)? {
        Reply::Fragment(fragment) => Ok(fragment),
        _none => Err(unasked()),
    }
}

/// The answer that a reply gives.
fn answer_of(reply: Reply) -> Result<Answer, Stop> {
    match reply {
        Reply::Answer(answer) => Ok(answer),
        _none => Err(unasked()),
    }
}

/// The node's answer to a query at a time, or at its resolved time.
pub(crate) fn answer_at(link: &mut Link, time: Option<Time>, query: Query) -> Result<Answer, Stop> {
    let t = match time {
        Some(time) => time,
        None => front_at(link)?.readable,
    };
    let reply = link.given(Request::Ask { t, query })?;
    answer_of(reply)
}

/// The node's range of readable times, as it replies to a request that it lets wait until a time can be read.
fn front_after(link: &mut Link, t: Time) -> Result<Front, Stop> {
    let milliseconds = link.most_wait();
    match link.granted_later(LaterRequest::Await { t, milliseconds })? {
        LaterReply::Ready { horizon, readable } => Ok(Front { horizon, readable }),
        _other => Err(unasked()),
    }
}

/// The node's range of readable times, once a time can be read.
fn front_once(link: &mut Link, time: Time) -> Result<Front, Stop> {
    for _ in 0..MOST_WAITS {
        let front = front_after(link, time)?;
        if front.readable >= time {
            return Ok(front);
        }
    }
    Err(Stop::ReadFault)
}

/// Says where a node answers messages of version 1 alone, if a wait was stopped by that.
fn tell_version<W: Write, E: Write>(stop: &Stop, output: &mut Output<'_, W, E>) {
    if matches!(
        stop,
        Stop::RefusedAt(Refusal::Form(FormFault::BadVersion), _)
    ) {
        output.note(ONE_VERSION);
    }
}

/// The same, at once where no time is given. Where a node answers messages of version 1 alone a line of its own says that.
fn front_from<W: Write, E: Write>(
    link: &mut Link,
    wait: Option<Time>,
    output: &mut Output<'_, W, E>,
) -> Result<Front, Stop> {
    let Some(time) = wait else {
        return front_at(link);
    };
    match front_once(link, time) {
        Ok(front) => Ok(front),
        Err(stop) => {
            tell_version(&stop, output);
            Err(stop)
        }
    }
}

/// Prints the node's range of readable times, once a time can be read where one is given.
pub(crate) fn tell_front<W: Write, E: Write>(
    link: &mut Link,
    wait: Option<Time>,
    output: &mut Output<'_, W, E>,
) -> Result<(), Stop> {
    let front = front_from(link, wait, output)?;
    output.show_front(front)
}

/// Waits until a time can be read, where the order waits.
fn await_time<W: Write, E: Write>(
    link: &mut Link,
    time: &Option<Time>,
    waits: bool,
    output: &mut Output<'_, W, E>,
) -> Result<(), Stop> {
    if !waits {
        return Ok(());
    }
    match front_from(link, *time, output) {
        Ok(_front) => Ok(()),
        Err(stop) => Err(stop),
    }
}

/// Prints the node's answer to a query at a time, once that can be read where the order waits, or at its resolved time.
pub(crate) fn tell_answer<W: Write, E: Write>(
    link: &mut Link,
    time: Option<Time>,
    waits: bool,
    query: Query,
    output: &mut Output<'_, W, E>,
) -> Result<(), Stop> {
    await_time(link, &time, waits, output)?;
    let answer = answer_at(link, time, query)?;
    output.show(&answer)
}

/// A delta since the node's resolved time.
fn delta_now(link: &mut Link) -> Result<Fragment, Stop> {
    let base = front_at(link)?.readable;
    fragment_at(link, Request::Delta { base })
}

/// Prints how far each stream of the node is, by a delta since its resolved time.
pub(crate) fn tell_status<W: Write, E: Write>(
    link: &mut Link,
    output: &mut Output<'_, W, E>,
) -> Result<(), Stop> {
    let fragment = delta_now(link)?;
    let got = fragment.got();
    let (horizon, readable) = (fragment.horizon(), got.readable());
    put_status(got, Front { horizon, readable }, output)
}

/// Writes a request.
pub(crate) fn send_request<W: Write, E: Write>(
    alloc: Global,
    request: Request,
    output: &mut Output<'_, W, E>,
) -> Result<(), Stop> {
    let mut frame = Vec::new(alloc);
    encode_request(&request, &mut frame)?;
    output.send(&frame)
}

/// Chunks on their way to an output, as the requests that give them to a node.
#[derive(Drop)]
struct Writer<'o, 'p, W: Write, E: Write> {
    output: &'o mut Output<'p, W, E>,
    frame: Vec<u8>,
}

impl<'o, 'p, W: Write, E: Write> Writer<'o, 'p, W, E> {
    fn new(alloc: Global, output: &'o mut Output<'p, W, E>) -> Writer<'o, 'p, W, E> {
        Writer {
            output,
            frame: Vec::new(alloc),
        }
    }

    /// Writes a request.
    fn send(&mut self, request: Request) -> Result<(), Stop> {
        self.frame.clear();
        encode_request(&request, &mut self.frame)?;
        self.output.send(&self.frame)
    }
}

impl<W: Write, E: Write> Parts for Writer<'_, '_, W, E> {
    fn take(&mut self, facts: Vec<(VersionKey, Version)>) -> Result<(), Stop> {
        self.send(Request::Later(LaterRequest::AddPart(facts)))
    }
}

/// Writes the requests that give the chunks of what a node has applied since a time to another, those of its full snapshot since 0.
pub(crate) fn send_parts<W: Write, E: Write>(
    link: &mut Link,
    base: Time,
    output: &mut Output<'_, W, E>,
) -> Result<(), Stop> {
    let mut writer = Writer::new(link.alloc(), output);
    let head = hand_parts(link, base, &mut writer)?;
    writer.send(Request::Later(taking(head)))
}
