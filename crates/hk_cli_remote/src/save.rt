//! `save`: a full snapshot of a node, and its checksum.

use crate::link::Link;
use crate::parts::{Parts, hand_parts, is_too_long, taking};
use crate::read::fragment_at;
use hk_cli_calls::OutputForm;
use hk_cli_commands::Output;
use hk_cli_input::{Checksum, Stop, sum_frame};
use hk_cli_json::FragmentSummary;
use hk_cli_reasons::RequestContext;
use hk_encodings::encode_request;
use hk_fragment::Fragment;
use hk_log::Version;
use hk_messages::{LaterRequest, Request};
use hk_types::{Refusal, Time, VersionKey};
use std::alloc::Global;
use std::io::Write;

/// Prints a full snapshot in JSON: its head, and a line of each version.
fn print_whole<W: Write, E: Write>(
    whole: &Fragment,
    output: &mut Output<'_, W, E>,
) -> Result<(), Stop> {
    output.print_json(&FragmentSummary(whole))?;
    for fact in whole.facts() {
        output.print_json(fact)?;
    }
    Ok(())
}

/// The requests that give a fragment to a node, on their way to an output, and their checksum.
#[derive(Drop)]
struct Saving<'o, 'p, W: Write, E: Write> {
    output: &'o mut Output<'p, W, E>,
    is_plain: bool,
    frame: Vec<u8>,
    checksum: Checksum,
}

impl<'o, 'p, W: Write, E: Write> Saving<'o, 'p, W, E> {
    fn new(
        alloc: Global,
        is_plain: bool,
        output: &'o mut Output<'p, W, E>,
    ) -> Saving<'o, 'p, W, E> {
        Saving {
            output,
            is_plain,
            frame: Vec::new(alloc),
            checksum: Checksum::new(),
        }
    }

    /// Makes the frame of a request, which goes next.
    fn make(&mut self, request: &Request) -> Result<(), Stop> {
        self.frame.clear();
        encode_request(request, &mut self.frame)?;
        if !self.is_plain {
            self.checksum.add(&self.frame);
        }
        Ok(())
    }

    /// Puts the checksum of all frames behind the one that goes next, unless it is to be plain.
    fn add_sum(&mut self) -> Result<(), Stop> {
        if !self.is_plain {
            let sum = self.checksum.take();
            self.frame.extend_from_slice(&sum_frame(&sum))?;
        }
        Ok(())
    }

    /// Writes a request.
    fn send(&mut self, request: Request) -> Result<(), Stop> {
        self.make(&request)?;
        self.output.send(&self.frame)
    }

    /// Writes the last request of the fragment, and the checksum with it.
    fn send_last(&mut self, request: Request) -> Result<(), Stop> {
        self.make(&request)?;
        self.add_sum()?;
        self.output.send(&self.frame)
    }
}

impl<W: Write, E: Write> Parts for Saving<'_, '_, W, E> {
    fn take(&mut self, facts: Vec<(VersionKey, Version)>) -> Result<(), Stop> {
        self.send(Request::Later(LaterRequest::AddPart(facts)))
    }
}

/// Writes a full snapshot in chunks that was refused, where a message has no room for it and the node reads requests of
/// chunks. Else it stops for what was refused.
fn send_refused<W: Write, E: Write>(
    link: &mut Link,
    why: Refusal,
    saving: &mut Saving<'_, '_, W, E>,
) -> Result<(), Stop> {
    let origin = link.origin(RequestContext::Nothing);
    if !is_too_long(&why) || !link.reads_later()? {
        return Err(Stop::RefusedAt(why, origin));
    }
    let head = hand_parts(link, Time::zero(), saving)?;
    saving.send_last(Request::Later(taking(head)))
}

/// Writes the node's full snapshot as the request that gives it to a node, or in chunks where a message has no room for it, and behind
/// it its checksum, unless it is to be plain.
fn save_frames<W: Write, E: Write>(
    link: &mut Link,
    is_plain: bool,
    output: &mut Output<'_, W, E>,
) -> Result<(), Stop> {
    let mut saving = Saving::new(link.alloc(), is_plain, output);
    let whole = link.fragment(Request::Full)?;
    match whole {
        Ok(whole) => saving.send_last(Request::MergeThis(whole)),
        Err(why) => send_refused(link, why, &mut saving),
    }
}

/// Prints the node's full snapshot in JSON.
fn save_lines<W: Write, E: Write>(
    link: &mut Link,
    output: &mut Output<'_, W, E>,
) -> Result<(), Stop> {
    let whole = fragment_at(link, Request::Full)?;
    print_whole(&whole, output)
}

/// Writes the node's full snapshot.
pub(crate) fn save<W: Write, E: Write>(
    link: &mut Link,
    form: OutputForm,
    is_plain: bool,
    output: &mut Output<'_, W, E>,
) -> Result<(), Stop> {
    match form {
        OutputForm::Json => save_lines(link, output),
        OutputForm::Lines | OutputForm::Bytes => save_frames(link, is_plain, output),
    }
}
