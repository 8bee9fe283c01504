//! Pages of rows, and the reports of streams.

ghost use Rattle.std.specs.Prelude.{◌≡◌, ◌≤◌, ◌*◌, ◌^◌, ◌<◌, ◌++◌, None, true, All, length, take, OnOk, OnErr};
ghost use Rattle.std.specs.List.{flat_map};
ghost use Rattle.hk_frames.specs.Fields.{GivesValue, GivesOrRunsOut};
ghost use Rattle.hk_model.specs.Replica.Pages.{page_seen};
ghost use Rattle.hk_model.specs.Replica.StreamsTold.{streams_seen};
ghost use Rattle.hk_answers.specs.Readers.{DiedFits, stream_count_at};
ghost use Rattle.hk_answers.specs.Pieces.{page_front};
ghost use Rattle.hk_answers.specs.Told as spec;

use crate::answer::{keys_rise, put_rows, read_rows, rows_len};
use crate::field_len::{number_len, time_len};
use crate::numbers::{is_ops, read_front, read_ops, read_time};
use hk_frames::{Cursor, ReadError, put_u16, put_u32, put_u64};
use hk_model::{Page, StreamTold, StreamsTold};
use hk_types::{FormFault, Time};
use std::alloc::{AllocError, Global};

/// The bytes of the report of a stream.
const TOLD_BYTES: usize = 32;

// ---- reading

/// Reads a yes or a no.
#[tactic(auto, unfolding(crate::specs::Told::flag_at, crate::specs::Told::flag_of))]
fn read_flag(cursor: &mut Cursor) -> Result<bool, FormFault>
    ensures { GivesValue (λ x. (x, cursor.new)) result (spec.flag_at cursor.old) }
{
    match cursor.u8()? {
        0 => Ok(false),
        1 => Ok(true),
        _ => Err(FormFault::BadNumber),
    }
}

/// Reads a page.
#[tactic(auto, unfolding(crate::specs::Told::page_at))]
pub fn read_page(alloc: Global, cursor: &mut Cursor) -> Result<Page, ReadError>
    ensures { GivesOrRunsOut (λ x. (page_seen x, cursor.new)) result (spec.page_at cursor.old) }
{
    let more = read_flag(cursor)?;
    let rows = read_rows(alloc, cursor)?;
    Ok(Page { rows, more })
}

/// Reads the report of a stream.
#[tactic(auto, unfolding(crate::specs::Told::told_at))]
fn read_told(cursor: &mut Cursor) -> Result<StreamTold, ReadError>
    ensures { GivesOrRunsOut (λ x. (x, cursor.new)) result (spec.told_at cursor.old) }
{
    let prefix = cursor.u64()?;
    let closed = read_time(cursor)?;
    let extra = cursor.u64()?;
    let waiting = cursor.u64()?;
    Ok(StreamTold {
        prefix,
        closed,
        extra,
        waiting,
    })
}

/// Reads a number of streams.
#[tactic(auto, unfolding(crate::specs::Readers::stream_count_at))]
fn read_count(cursor: &mut Cursor) -> Result<u16, FormFault>
    ensures { GivesValue (λ x. (x, cursor.new)) result (stream_count_at cursor.old) }
{
    let count = cursor.u16()?;
    if count < 1 || 64 < count {
        return Err(FormFault::BadStream);
    }
    Ok(count)
}

/// Reads the reports of so many streams. No more is reserved for them than the bytes that are left can encode.
fn read_many(alloc: Global, cursor: &mut Cursor, count: u16) -> Result<Vec<StreamTold>, ReadError>
    ensures { GivesOrRunsOut (λ x. (x.items, cursor.new)) result (spec.told_list_at count None cursor.old) }
{
    let room = (count as usize).min(cursor.len() / TOLD_BYTES);
    let mut streams = Vec::with_capacity(alloc, room)?;
    for _ in 0..count {
        let told = read_told(cursor)?;
        streams.push(told)?;
    }
    Ok(streams)
}

/// Reads the streams behind their number.
#[tactic(auto, unfolding(crate::specs::Told::told_streams_at))]
fn read_told_streams(alloc: Global, cursor: &mut Cursor) -> Result<Vec<StreamTold>, ReadError>
    ensures { GivesOrRunsOut (λ x. (x.items, cursor.new)) result (spec.told_streams_at cursor.old) }
{
    let count = read_count(cursor)?;
    read_many(alloc, cursor, count)
}

/// Reads the time of an active pin, or that there is none.
#[tactic(auto, unfolding(crate::specs::Told::hold_at, crate::specs::Told::hold_of))]
fn read_hold(cursor: &mut Cursor) -> Result<Option<Time>, FormFault>
    ensures { GivesValue (λ x. (x, cursor.new)) result (spec.hold_at cursor.old) }
{
    match cursor.u8()? {
        0 => Ok(None),
        1 => {
            let time = read_time(cursor)?;
            Ok(Some(time))
        }
        _ => Err(FormFault::BadNumber),
    }
}

/// Reads the report of streams.
#[tactic(auto, unfolding(crate::specs::Told::streams_at))]
pub fn read_streams_told(alloc: Global, cursor: &mut Cursor) -> Result<StreamsTold, ReadError>
    ensures { GivesOrRunsOut (λ x. (streams_seen x, cursor.new)) result (spec.streams_at cursor.old) }
{
    let log = cursor.u64()?;
    let front = read_front(cursor)?;
    let damaged = read_flag(cursor)?;
    let operations = read_ops(cursor)?;
    let least_hold = read_hold(cursor)?;
    let streams = read_told_streams(alloc, cursor)?;
    Ok(StreamsTold {
        log,
        horizon: front.horizon,
        readable: front.readable,
        damaged,
        operations,
        least_hold,
        streams,
    })
}

// ---- rules and lengths

/// Whether the rows of a page can be counted and their keys rise strictly.
pub fn keeps_page_rules(page: &Page) -> bool
    ensures { result ≡ spec.page_keeps_rules (page_seen page.now) }
{
    page.rows.len() < 4_294_967_296 && keys_rise(&page.rows)
}

/// Whether the report of streams keeps its rules.
pub fn keeps_streams_rules(told: &StreamsTold) -> bool
    ensures { result ≡ spec.streams_keep_rules (streams_seen told.now) }
{
    let count = told.streams.len();
    told.horizon.number() <= told.readable.number()
        && is_ops(told.operations)
        && 1 <= count
        && count <= 64
}

/// How many bytes a page that keeps its rules has.
#[tactic(auto, using(crate::proofs::ToldLengths::page_text_len))]
pub fn page_len(page: &Page) -> u64
    requires { spec.page_keeps_rules (page_seen page.now) ≡ true }
    ensures len { result ≡ length (spec.page_text (page_seen page.now)) }
    ensures bound { result ≤ 2 ^ 45 }
    ensures fits { spec.PageFits (page_seen page.now) }
{
    5 + rows_len(&page.rows)
}

/// How many bytes the time of a pin has, where one is active.
#[tactic(auto, using(hk_codec::proofs::Lengths::len64))]
fn hold_len(hold: Option<Time>) -> u64
    ensures len { result ≡ length (spec.hold_fields hold) }
    ensures bound { result ≤ 8 }
    ensures fits { DiedFits hold }
{
    match hold {
        None => 0,
        Some(time) => time_len(time),
    }
}

/// How many bytes the report of a stream has.
#[tactic(auto, using(crate::proofs::ToldLengths::told_text_len))]
fn told_len(told: &StreamTold) -> u64
    ensures len { result ≡ length (spec.told_text told.now) }
    ensures bound { result ≤ 32 }
    ensures fits { spec.ToldFits told.now }
{
    number_len(told.prefix)
        + time_len(told.closed)
        + number_len(told.extra)
        + number_len(told.waiting)
}

/// How many bytes the reports of the streams have, without their number.
fn told_streams_len(streams: &[StreamTold]) -> u64
    requires { length streams.now ≤ 64 }
    ensures len { result ≡ length (flat_map spec.told_text streams.now) }
    ensures bound { result ≤ 32 * length streams.now }
    ensures fits { All spec.ToldFits streams.now }
{
    let mut total = 0;
    for told in streams {
        total += told_len(told);
    }
    total
}

/// How many bytes the report of streams has, where it keeps its rules.
#[tactic(auto, using(crate::proofs::ToldLengths::streams_text_len))]
pub fn streams_told_len(told: &StreamsTold) -> u64
    requires { spec.streams_keep_rules (streams_seen told.now) ≡ true }
    ensures len { result ≡ length (spec.streams_text (streams_seen told.now)) }
    ensures bound { result ≤ 2 ^ 12 }
    ensures fits { spec.StreamsFit (streams_seen told.now) }
{
    let front = time_len(told.horizon) + time_len(told.readable);
    let hold = hold_len(told.least_hold);
    let log = number_len(told.log) + number_len(told.operations);
    4 + log + front + hold + told_streams_len(&told.streams)
}

// ---- writing

/// Adds a yes or a no.
fn put_flag(out: &mut Vec<u8>, yes: bool) -> Result<(), AllocError>
    ensures ok { OnOk result (out.new.items ≡ out.old.items ++ spec.flag_text yes) }
    ensures kept { OnErr result (take (length out.old.items) out.new.items ≡ out.old.items) }
{
    out.push(u8::from(yes))?;
    Ok(())
}

/// Adds what a page's bytes have before its rows: whether more follow, and how many rows there are.
#[tactic(auto, using(hk_frames::proofs::Put::all))]
pub fn put_page_front(out: &mut Vec<u8>, page: &Page) -> Result<(), AllocError>
    requires { spec.page_keeps_rules (page_seen page.now) ≡ true }
    ensures ok { OnOk result (out.new.items ≡ out.old.items ++ page_front (page_seen page.now)) }
    ensures kept { OnErr result (take (length out.old.items) out.new.items ≡ out.old.items) }
{
    put_flag(out, page.more)?;
    put_u32(out, page.rows.len() as u32)
}

/// Adds a page's bytes.
#[tactic(auto, using(hk_frames::proofs::Put::all))]
pub fn put_page(out: &mut Vec<u8>, page: &Page) -> Result<(), AllocError>
    requires { spec.page_keeps_rules (page_seen page.now) ≡ true }
    ensures ok { OnOk result (out.new.items ≡ out.old.items ++ spec.page_text (page_seen page.now)) }
    ensures kept { OnErr result (take (length out.old.items) out.new.items ≡ out.old.items) }
{
    put_page_front(out, page)?;
    put_rows(out, &page.rows)
}

/// Adds the report of a stream.
#[tactic(auto, using(hk_frames::proofs::Put::all), unfolding(crate::specs::Told::told_text))]
fn put_told(out: &mut Vec<u8>, told: StreamTold) -> Result<(), AllocError>
    ensures ok { OnOk result (out.new.items ≡ out.old.items ++ spec.told_text told) }
    ensures kept { OnErr result (take (length out.old.items) out.new.items ≡ out.old.items) }
{
    put_u64(out, told.prefix)?;
    put_u64(out, told.closed.number())?;
    put_u64(out, told.extra)?;
    put_u64(out, told.waiting)
}

/// Adds the reports of the streams behind their number.
#[tactic(auto, using(hk_frames::proofs::Put::all))]
fn put_told_streams(out: &mut Vec<u8>, streams: &[StreamTold]) -> Result<(), AllocError>
    requires { length streams.now ≤ 64 }
    ensures ok { OnOk result (out.new.items ≡ out.old.items ++ spec.told_streams_text streams.now) }
    ensures kept { OnErr result (take (length out.old.items) out.new.items ≡ out.old.items) }
{
    put_u16(out, streams.len() as u16)?;
    for told in streams {
        put_told(out, *told)?;
    }
    Ok(())
}

/// Adds the time of an active pin, or that there is none.
#[tactic(auto, using(hk_frames::proofs::Put::all))]
fn put_hold(out: &mut Vec<u8>, hold: Option<Time>) -> Result<(), AllocError>
    ensures ok { OnOk result (out.new.items ≡ out.old.items ++ spec.hold_text hold) }
    ensures kept { OnErr result (take (length out.old.items) out.new.items ≡ out.old.items) }
{
    match hold {
        None => {
            out.push(0)?;
            Ok(())
        }
        Some(time) => {
            out.push(1)?;
            put_u64(out, time.number())
        }
    }
}

/// Adds the report of streams.
#[tactic(auto, using(hk_frames::proofs::Put::all), unfolding(crate::specs::Told::streams_text))]
pub fn put_streams_told(out: &mut Vec<u8>, told: &StreamsTold) -> Result<(), AllocError>
    requires { spec.streams_keep_rules (streams_seen told.now) ≡ true }
    ensures ok { OnOk result (out.new.items ≡ out.old.items ++ spec.streams_text (streams_seen told.now)) }
    ensures kept { OnErr result (take (length out.old.items) out.new.items ≡ out.old.items) }
{
    put_u64(out, told.log)?;
    put_u64(out, told.horizon.number())?;
    put_u64(out, told.readable.number())?;
    put_flag(out, told.damaged)?;
    put_u64(out, told.operations)?;
    put_hold(out, told.least_hold)?;
    put_told_streams(out, &told.streams)
}
