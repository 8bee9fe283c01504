//! How far each stream of a replica is.

ghost use Rattle.std.specs.Prelude.{◌≡◌, ◌≤◌, ◌++◌, ℕ, nat_le, length, Some, OnOk};
ghost use Rattle.hk_model.specs.Replica.Streams.{covers, stream_at};
ghost use Rattle.std.specs.FinMap as finmap;
ghost use Rattle.std.specs.FinSet as set;
ghost use Rattle.std.specs.String.{string_bytes};
ghost use Rattle.hk_marks.specs.Steps.{extra_numbers};
ghost use Rattle.hk_cli_commands.specs.Statuses as spec;

use crate::output::Output;
use hk_cli_calls::OutputForm;
use hk_cli_input::Stop;
use hk_cli_json::{InJson, StreamLine};
use hk_cli_lines::Printed;
use hk_marks::Got;
use hk_model::Front;
use hk_types::{Refusal, StreamNo, Time};
use std::alloc::{AllocError, Global};
use std::io::Write;

/// What a stream does to the resolved time.
#[derive(Clone, Copy)]
pub enum Standing {
    /// It is closed up to a time above the mark, or all streams are closed up to the mark.
    Open,
    /// It is closed up to the resolved time, another stream is closed further, and so it holds the resolved time back.
    Holds,
    /// It is retired, and holds nothing back.
    Retired,
}

/// How far a stream is.
#[derive(Clone, Copy)]
pub struct StreamStatus {
    /// The stream's number.
    pub stream: StreamNo,
    /// The number up to which all its entries are applied.
    pub prefix: u64,
    /// How many entries above the prefix are applied.
    pub extra: u64,
    /// The time up to which it is closed.
    pub closed: Time,
    /// How many marks wait for entries.
    pub waiting: u64,
    /// What it does to the resolved time.
    pub standing: Standing,
}

/// Whether all streams are closed up to a time and no further.
fn are_closed_at(got: &Got, time: Time) -> bool
    ensures { result ≡ spec.are_closed_at time got.now }
{
    for index in 0..got.streams() {
        let Ok(stream) = StreamNo::new(index + 1) else {
            return false;
        };
        if got.closed(stream) != time {
            return false;
        }
    }
    true
}

/// What a stream does to the resolved time.
fn standing_of(got: &Got, stream: StreamNo) -> Standing
    requires { stream ≤ length got.now }
    ensures { result ≡ spec.standing_of (stream_at got.now stream).closed got.now }
{
    let closed = got.closed(stream);
    if got.retired(stream) {
        return Standing::Retired;
    }
    if closed == got.readable() && !are_closed_at(got, closed) {
        return Standing::Holds;
    }
    Standing::Open
}

/// How far a stream is. It takes no memory. Cost: O(s), s streams.
pub fn stream_status(got: &Got, stream: StreamNo) -> StreamStatus
    requires { stream ≤ length got.now }
    ensures stream { result.stream ≡ stream }
    ensures prefix { (n : ℕ) → covers (stream_at got.now stream).taken n ≡ nat_le n result.prefix }
    ensures extra { result.extra ≡ set.len (extra_numbers (stream_at got.now stream)) }
    ensures closed { result.closed ≡ (stream_at got.now stream).closed }
    ensures waiting { result.waiting ≡ finmap.len (stream_at got.now stream).waiting }
    ensures standing { result.standing ≡ spec.standing_of (stream_at got.now stream).closed got.now }
    ensures whole { result ≡ spec.status_of got.now stream }
{
    StreamStatus {
        stream,
        prefix: got.prefix(stream),
        extra: got.extra_count(stream),
        closed: got.closed(stream),
        waiting: got.waiting_count(stream),
        standing: standing_of(got, stream),
    }
}

fn put_taken(status: &StreamStatus, out: &mut String) -> Result<(), AllocError>
    ensures { OnOk result (string_bytes out.new ≡ string_bytes out.old ++ spec.taken_part status.now) }
{
    let stream = status.stream;
    let prefix = status.prefix;
    let extra = status.extra;
    write!(out, "stream {stream} prefix {prefix} extra {extra}")
}

fn put_closed(status: &StreamStatus, out: &mut String) -> Result<(), AllocError>
    ensures { OnOk result (string_bytes out.new ≡ string_bytes out.old ++ spec.closed_part status.now) }
{
    let closed = status.closed;
    let waiting = status.waiting;
    write!(out, " closed {closed} waiting {waiting}")
}

fn put_standing(standing: Standing, out: &mut String) -> Result<(), AllocError>
    ensures { OnOk result (string_bytes out.new ≡ string_bytes out.old ++ spec.standing_part standing) }
{
    match standing {
        Standing::Open => writeln!(out, " open"),
        Standing::Holds => writeln!(out, " holds"),
        Standing::Retired => writeln!(out, " retired"),
    }
}

#[tactic(auto, using(std::proofs::Common::append_assoc))]
fn put_stream(status: &StreamStatus, out: &mut String) -> Result<(), AllocError>
    ensures { OnOk result (string_bytes out.new ≡ string_bytes out.old ++ spec.status_line status.now) }
{
    put_taken(status, out)?;
    put_closed(status, out)?;
    put_standing(status.standing, out)
}

impl Printed for StreamStatus {
    ghost text = { spec.status_line };

    fn put_lines(&self, _alloc: Global, out: &mut String) -> Result<(), AllocError> {
        put_stream(self, out)
    }
}

fn word_of(standing: Standing) -> &'static str
    ensures { result.now ≡ spec.word_of standing }
{
    match standing {
        Standing::Open => "open",
        Standing::Holds => "holds",
        Standing::Retired => "retired",
    }
}

impl InJson for StreamStatus {
    ghost json = { λ status. Some (spec.status_json status) };

    fn json_to(&self, alloc: Global, out: &mut String) -> Result<(), AllocError> {
        let line = StreamLine {
            stream: self.stream,
            prefix: self.prefix,
            extra: self.extra,
            closed: self.closed,
            waiting: self.waiting,
            standing: word_of(self.standing),
        };
        line.json_to(alloc, out)
    }
}

/// Adds the line of a stream in a form, all of it or nothing; it is made in `next`.
fn put_whole(
    alloc: Global,
    form: OutputForm,
    status: &StreamStatus,
    next: &mut String,
    lines: &mut String,
) -> Result<(), AllocError>
    ensures { OnOk result (string_bytes lines.new ≡ string_bytes lines.old ++ spec.line_in form status.now) }
{
    next.clear();
    match form {
        OutputForm::Json => status.json_to(alloc, next)?,
        OutputForm::Lines | OutputForm::Bytes => status.print_to(alloc, next)?,
    }
    lines.push_str(next)
}

/// Adds the lines of the streams in a form, in their order, as `put_whole` does. The only error is out of memory; then the
/// lines of the first streams were added.
#[tactic(auto, using(std::proofs::Common::append_assoc))]
pub(crate) fn put_streams(
    alloc: Global,
    form: OutputForm,
    got: &Got,
    next: &mut String,
    lines: &mut String,
) -> Result<(), Refusal>
    ensures { OnOk result (string_bytes lines.new ≡ string_bytes lines.old ++ spec.all_lines form got.now) }
{
    for index in 0..got.streams() {
        let stream = StreamNo::new(index + 1)?;
        put_whole(alloc, form, &stream_status(got, stream), next, lines)?;
    }
    Ok(())
}

/// Adds a line of each stream, how far it is, and then one with the range of readable times. Cost: O(s²), s streams.
pub fn put_status<W: Write, E: Write>(
    got: &Got,
    front: Front,
    output: &mut Output<'_, W, E>,
) -> Result<(), Stop> {
    output.show_streams(got)?;
    output.show_front(front)
}
