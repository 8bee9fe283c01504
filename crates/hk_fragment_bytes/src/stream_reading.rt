//! What a fragment has before its facts, read from the front of bytes: its start, and the states of its streams.

ghost use Rattle.std.specs.Prelude.{◌≡◌, ◌≤◌, ◌^◌, ◌<◌, ◌-◌, ◌==◌, ◌||◌, nat_le, None, Ok, true, length, map, replicate, slice_set, OnOk, IfOk, IfErr};
ghost use Rattle.hk_frames.specs.Fields.{GivesValue, GivesOrRunsOut, Fails};
ghost use Rattle.hk_model.specs.Replica.Streams.{stream_at, unknown};
ghost use Rattle.hk_model.specs.Replica.Content.{least_closed};
ghost use Rattle.hk_fragment_bytes.specs.Fragments as spec;
ghost use Rattle.hk_fragment_bytes.specs.FragmentSteps as steps;

use hk_answers::numbers::read_time;
use hk_frames::{Cursor, ReadError};
use hk_marks::Got;
use hk_types::{Config, FormFault, LAST_TIME, StreamNo, Time};
use std::alloc::Global;

/// What a fragment begins with: the log, the number of its streams, the base and the horizon.
#[derive(Clone, Copy)]
pub struct Start {
    pub config: Config,
    pub base: Time,
    pub horizon: Time,
}

/// Reads the base and the horizon.
#[tactic(auto, unfolding(crate::specs::Fragments::bounds_at))]
fn read_bounds(cursor: &mut Cursor) -> Result<(Time, Time), FormFault>
    ensures read { GivesValue (λ x. (x, cursor.new)) result (spec.bounds_at cursor.old) }
    ensures above { IfOk result (λ x. ((x.0 == 0) || nat_le x.1 x.0) ≡ true) }
{
    let base = read_time(cursor)?;
    let horizon = read_time(cursor)?;
    if base.number() != 0 && base.number() < horizon.number() {
        return Err(FormFault::BadNumber);
    }
    Ok((base, horizon))
}

/// Reads the log, the number of its streams, the base and the horizon. A number of streams outside 1 to 64 is
/// `BadStream`, a time above 2^62 and a base that is neither 0 nor at least the horizon `BadNumber`.
#[tactic(auto, unfolding(hk_answers::specs::Readers::stream_count_at))]
pub fn read_fragment_head(cursor: &mut Cursor) -> Result<Start, FormFault>
    ensures read { GivesValue (λ x. (steps.head_seen x, cursor.new)) result
        (spec.fragment_head_at cursor.old) }
    ensures above { IfOk result (λ x. ((x.base == 0) || nat_le x.horizon x.base) ≡ true) }
{
    let log = cursor.u64()?;
    let streams = cursor.u16()?;
    let config = Config::new(log, streams)?;
    let (base, horizon) = read_bounds(cursor)?;
    Ok(Start {
        config,
        base,
        horizon,
    })
}

/// Whether a number comes after the one before it, where there is one.
fn number_follows(before: Option<u64>, number: u64) -> bool
    ensures { result ≡ spec.number_follows before number }
{
    match before {
        None => true,
        Some(last) => last < number,
    }
}

/// Reads a number that is applied above the prefix, after the one before it.
#[tactic(auto, unfolding(crate::specs::Fragments::extra_at))]
fn read_extra(cursor: &mut Cursor, prefix: u64, before: Option<u64>) -> Result<u64, FormFault>
    requires { prefix ≤ 2 ^ 62 }
    ensures read { GivesValue (λ x. (x, cursor.new)) result (spec.extra_at prefix before cursor.old) }
    ensures fits { IfOk result (λ number. spec.ExtraFits prefix before number) }
{
    let number = cursor.u64()?;
    if !number_follows(before, number) {
        return Err(FormFault::BadOrder);
    }
    if number <= prefix + 1 || number > LAST_TIME {
        return Err(FormFault::BadNumber);
    }
    Ok(number)
}

/// Reads so many applied numbers into a stream of which the prefix and the closed time are known.
fn read_extras(
    cursor: &mut Cursor,
    got: &mut Got,
    s: StreamNo,
    prefix: u64,
    count: u32,
) -> Result<(), ReadError>
    requires least { 1 ≤ s }
    requires known { s ≤ length got.old }
    requires most { prefix ≤ 2 ^ 62 }
    requires starts { stream_at got.old s ≡ steps.stream_without_marks prefix (stream_at got.old s).closed }
    ensures ok { OnOk result (steps.TakesExtra prefix count (stream_at got.old s).closed cursor.old cursor.new (stream_at got.new s)) }
    ensures only { OnOk result (got.new ≡ slice_set got.old (s - 1) (stream_at got.new s)) }
    ensures err { IfErr result (λ e. Fails e (steps.extras_at prefix count None cursor.old)) }
{
    let mut before = None;
    for _ in 0..count {
        let number = read_extra(cursor, prefix, before)?;
        if got.add_number(s, number).is_err() {
            return Err(ReadError::Memory);
        }
        before = Some(number);
    }
    Ok(())
}

/// Reads the count of a waiting mark, after the one before it.
fn read_waiting_count(
    cursor: &mut Cursor,
    prefix: u64,
    before: Option<u64>,
) -> Result<u64, FormFault>
    ensures read { GivesValue (λ x. (x, cursor.new)) result (spec.waiting_count_at prefix before cursor.old) }
    ensures follows { IfOk result (λ count. spec.number_follows before count ≡ true) }
    ensures above { IfOk result (λ count. prefix < count) }
{
    let count = cursor.u64()?;
    if !number_follows(before, count) {
        return Err(FormFault::BadOrder);
    }
    if count <= prefix {
        return Err(FormFault::BadNumber);
    }
    Ok(count)
}

/// Reads a waiting mark, after the one before it.
#[tactic(auto, unfolding(crate::specs::Fragments::waiting_at))]
fn read_waiting(
    cursor: &mut Cursor,
    prefix: u64,
    before: Option<u64>,
) -> Result<(u64, Time), FormFault>
    ensures read { GivesValue (λ x. (x, cursor.new)) result (spec.waiting_at prefix before cursor.old) }
    ensures fits { IfOk result (λ mark. spec.WaitingFits prefix before mark) }
{
    let count = read_waiting_count(cursor, prefix, before)?;
    let upto = read_time(cursor)?;
    if upto.number() < count {
        return Err(FormFault::BadNumber);
    }
    Ok((count, upto))
}

/// Reads so many waiting marks into a stream in which none waits.
fn read_waits(
    cursor: &mut Cursor,
    got: &mut Got,
    s: StreamNo,
    prefix: u64,
    count: u32,
) -> Result<(), ReadError>
    requires least { 1 ≤ s }
    requires known { s ≤ length got.old }
    requires starts { steps.IsReady prefix (stream_at got.old s) }
    ensures ok { OnOk result (steps.TakesWaits prefix count (stream_at got.old s) cursor.old cursor.new (stream_at got.new s)) }
    ensures only { OnOk result (got.new ≡ slice_set got.old (s - 1) (stream_at got.new s)) }
    ensures err { IfErr result (λ e. Fails e (steps.waits_at prefix count None cursor.old)) }
{
    let mut before = None;
    for _ in 0..count {
        let (number, upto) = read_waiting(cursor, prefix, before)?;
        if got.add_mark(s, number, upto).is_err() {
            return Err(ReadError::Memory);
        }
        before = Some(number);
    }
    Ok(())
}

/// Reads the state of a stream of which nothing is known yet.
#[tactic(auto, unfolding(crate::specs::Fragments::stream_at))]
fn read_stream(cursor: &mut Cursor, got: &mut Got, s: StreamNo) -> Result<(), ReadError>
    requires least { 1 ≤ s }
    requires known { s ≤ length got.old }
    requires starts { stream_at got.old s ≡ unknown }
    ensures ok { OnOk result (spec.stream_at cursor.old ≡ Ok (spec.wire_stream_of (stream_at got.new s), cursor.new)) }
    ensures err { IfErr result (λ e. Fails e (spec.stream_at cursor.old)) }
    ensures only { OnOk result (got.new ≡ slice_set got.old (s - 1) (stream_at got.new s)) }
{
    let prefix = read_time(cursor)?.number();
    let closed = read_time(cursor)?;
    if got.raise(s, prefix, closed).is_err() {
        return Err(ReadError::Memory);
    }
    let count = cursor.u32()?;
    read_extras(cursor, got, s, prefix, count)?;
    let count = cursor.u32()?;
    read_waits(cursor, got, s, prefix, count)
}

/// Reads the states of so many streams of which nothing is known yet.
fn read_streams(cursor: &mut Cursor, got: &mut Got, count: u16) -> Result<(), ReadError>
    requires all { count ≡ length got.old }
    requires most { count ≤ 64 }
    requires starts { got.old ≡ replicate (length got.old) unknown }
    ensures ok { OnOk result (steps.streams_at count None cursor.old ≡ Ok (map spec.wire_stream_of got.new, cursor.new)) }
    ensures err { IfErr result (λ e. Fails e (steps.streams_at count None cursor.old)) }
    ensures all { OnOk result (length got.new ≡ length got.old) }
{
    for index in 0..count {
        let s = StreamNo::new(index + 1)?;
        read_stream(cursor, got, s)?;
    }
    Ok(())
}

/// Reads the streams of a log, none of them closed below the horizon. Numbers or marks that don't rise are `BadOrder`,
/// and those outside their range, or a horizon above the least closed time, `BadNumber`.
#[tactic(auto, unfolding(crate::specs::Fragments::streams_at))]
pub fn read_got(
    alloc: Global,
    cursor: &mut Cursor,
    config: Config,
    horizon: Time,
) -> Result<Got, ReadError>
    ensures read { GivesOrRunsOut (λ x. (map spec.wire_stream_of x, cursor.new)) result
        (spec.streams_at horizon config.streams cursor.old) }
    ensures all { IfOk result (λ x. length x ≡ config.streams) }
    ensures reach { IfOk result (λ x. horizon ≤ least_closed x) }
{
    let Ok(mut got) = Got::new(alloc, config) else {
        return Err(ReadError::Memory);
    };
    read_streams(cursor, &mut got, config.streams())?;
    if got.readable().number() < horizon.number() {
        return Err(ReadError::Fault(FormFault::BadNumber));
    }
    Ok(got)
}
