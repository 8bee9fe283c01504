//! Answers as bytes.

ghost use Rattle.std.specs.Prelude.{◌≡◌, ◌≤◌, ◌<◌, ◌*◌, ◌^◌, ◌+◌, ◌++◌, None, true, All, length, take, OnOk, OnErr, IfOk};
ghost use Rattle.std.specs.List.{flat_map};
ghost use Rattle.hk_frames.specs.Fields.{GivesValue, GivesOrRunsOut};
ghost use Rattle.hk_model.specs.Replica.Answers.{answer_seen};
ghost use Rattle.hk_answers.specs.Answers as spec;
ghost use Rattle.hk_answers.specs.Pieces.{AddsFrom, AddsRows, answer_front, rows_of};

use crate::field_len::{key_len, number_len, tag_len};
use hk_frames::{Cursor, ReadError, put_body, put_u32, put_u64};
use hk_model::Answer;
use hk_types::{FormFault, Key, Row, Tag};
use std::alloc::{AllocError, Global};

/// The kind bytes.
const ONE: u8 = 1;

const ROWS: u8 = 2;

const NUMBER: u8 = 3;

/// The bytes of a key and a row with an empty body: key, tag, length of the body.
const LEAST_KEYED_BYTES: usize = 14;

/// Reads a row.
#[tactic(auto, unfolding(crate::specs::Answers::row_at))]
pub fn read_row(alloc: Global, cursor: &mut Cursor) -> Result<Row, ReadError>
    ensures { GivesOrRunsOut (λ x. (x, cursor.new)) result (spec.row_at cursor.old) }
{
    let tag = Tag::new(cursor.u32()?);
    cursor.row(alloc, tag)
}

/// Whether a key comes after the one before it, where there is one.
fn key_follows(before: Option<Key>, key: Key) -> bool
    ensures { result ≡ spec.key_follows before key }
{
    match before {
        None => true,
        Some(last) => last.number() < key.number(),
    }
}

/// Reads a key after the one before it.
fn read_key(cursor: &mut Cursor, before: Option<Key>) -> Result<Key, FormFault>
    ensures { GivesValue (λ x. (x, cursor.new)) result (spec.key_at before cursor.old) }
{
    let key = Key::new(cursor.u64()?);
    if !key_follows(before, key) {
        return Err(FormFault::BadOrder);
    }
    Ok(key)
}

/// Reads a key after the one before it, and its row.
#[tactic(auto, unfolding(crate::specs::Answers::keyed_at))]
fn read_keyed(
    alloc: Global,
    cursor: &mut Cursor,
    before: Option<Key>,
) -> Result<(Key, Row), ReadError>
    ensures { GivesOrRunsOut (λ x. (x, cursor.new)) result (spec.keyed_at before cursor.old) }
{
    let key = read_key(cursor, before)?;
    let row = read_row(alloc, cursor)?;
    Ok((key, row))
}

/// Reads so many rows. No more is reserved for them than the bytes that are left can encode.
fn read_many(alloc: Global, cursor: &mut Cursor, count: u32) -> Result<Vec<(Key, Row)>, ReadError>
    ensures { GivesOrRunsOut (λ x. (x.items, cursor.new)) result (spec.keyed_rows_at count None cursor.old) }
{
    let room = (count as usize).min(cursor.len() / LEAST_KEYED_BYTES);
    let mut rows = Vec::with_capacity(alloc, room)?;
    let mut before = None;
    for _ in 0..count {
        let row = read_keyed(alloc, cursor, before)?;
        before = Some(row.0);
        rows.push(row)?;
    }
    Ok(rows)
}

/// Reads the rows behind their count. A key that isn't above the one before it is `BadOrder`.
#[tactic(auto, unfolding(crate::specs::Answers::rows_at))]
pub(crate) fn read_rows(alloc: Global, cursor: &mut Cursor) -> Result<Vec<(Key, Row)>, ReadError>
    ensures { GivesOrRunsOut (λ x. (x.items, cursor.new)) result (spec.rows_at cursor.old) }
{
    let count = cursor.u32()?;
    read_many(alloc, cursor, count)
}

/// Reads what follows the byte that shows whether there is a row.
#[tactic(auto, unfolding(crate::specs::Answers::present_of))]
fn read_present(alloc: Global, cursor: &mut Cursor, present: u8) -> Result<Option<Row>, ReadError>
    ensures { GivesOrRunsOut (λ x. (x, cursor.new)) result (spec.present_of present cursor.old) }
{
    match present {
        0 => Ok(None),
        1 => {
            let row = read_row(alloc, cursor)?;
            Ok(Some(row))
        }
        _ => Err(ReadError::Fault(FormFault::BadNumber)),
    }
}

/// Reads the answer of a kind.
#[tactic(auto, unfolding(crate::specs::Answers::answer_of))]
fn read_of(alloc: Global, cursor: &mut Cursor, kind: u8) -> Result<Answer, ReadError>
    ensures { GivesOrRunsOut (λ x. (answer_seen x, cursor.new)) result (spec.answer_of kind cursor.old) }
{
    match kind {
        ONE => {
            let present = cursor.u8()?;
            let row = read_present(alloc, cursor, present)?;
            Ok(Answer::One(row))
        }
        ROWS => {
            let rows = read_rows(alloc, cursor)?;
            Ok(Answer::Rows(rows))
        }
        NUMBER => {
            let n = cursor.u64()?;
            Ok(Answer::Number(n))
        }
        _ => Err(ReadError::Fault(FormFault::BadNumber)),
    }
}

/// Reads an answer. A kind that has no meaning is `BadNumber`.
#[tactic(auto, unfolding(crate::specs::Answers::answer_at))]
pub fn read_answer(alloc: Global, cursor: &mut Cursor) -> Result<Answer, ReadError>
    ensures { GivesOrRunsOut (λ x. (answer_seen x, cursor.new)) result (spec.answer_at cursor.old) }
{
    let kind = cursor.u8()?;
    read_of(alloc, cursor, kind)
}

/// Whether the keys rise strictly.
pub(crate) fn keys_rise(rows: &[(Key, Row)]) -> bool
    ensures { result ≡ spec.keys_rise None rows.now }
{
    let mut before = None;
    for (key, _row) in rows {
        if !key_follows(before, *key) {
            return false;
        }
        before = Some(*key);
    }
    true
}

/// Whether an answer keeps its rules: its rows can be counted, and their keys rise strictly.
pub fn keeps_answer_rules(answer: &Answer) -> bool
    ensures { result ≡ spec.answer_keeps_rules (answer_seen answer.now) }
{
    match answer {
        Answer::One(_row) => true,
        Answer::Rows(rows) => rows.len() < 4_294_967_296 && keys_rise(rows),
        Answer::Number(_n) => true,
    }
}

/// How many bytes a row has.
pub fn row_len(row: &Row) -> u64
    ensures len { result ≡ 6 + length row.now.body }
    ensures fits { spec.RowFits row.now }
{
    tag_len(row.tag()) + 2 + row.body().len() as u64
}

/// How many bytes a key and its row have.
fn keyed_len(keyed: &(Key, Row)) -> u64
    ensures len { result ≡ 14 + length keyed.now.1.body }
    ensures fits { spec.KeyedFits keyed.now }
{
    key_len(keyed.0) + row_len(&keyed.1)
}

/// How many bytes the rows have, without their count.
pub(crate) fn rows_len(rows: &[(Key, Row)]) -> u64
    requires { length rows.now < 2 ^ 32 }
    ensures len { result ≡ length (flat_map spec.keyed_text rows.now) }
    ensures bound { result ≤ 4110 * length rows.now }
    ensures fits { All spec.KeyedFits rows.now }
{
    let mut total = 0;
    for row in rows {
        total += keyed_len(row);
    }
    total
}

/// How many bytes an answer that keeps its rules has.
#[tactic(auto, using(crate::proofs::Lengths::answer_lengths))]
pub fn answer_len(answer: &Answer) -> u64
    requires { spec.answer_keeps_rules (answer_seen answer.now) ≡ true }
    ensures len { result ≡ length (spec.answer_text (answer_seen answer.now)) }
    ensures bound { result ≤ 2 ^ 60 }
    ensures fits { spec.AnswerFits (answer_seen answer.now) }
{
    match answer {
        Answer::One(None) => 2,
        Answer::One(Some(row)) => 2 + row_len(row),
        Answer::Rows(rows) => 5 + rows_len(rows),
        Answer::Number(n) => 1 + number_len(*n),
    }
}

/// Adds a row's bytes.
#[tactic(auto, using(hk_frames::proofs::Put::all), unfolding(crate::specs::Answers::row_text))]
pub fn put_row(out: &mut Vec<u8>, row: &Row) -> Result<(), AllocError>
    ensures ok { OnOk result (out.new.items ≡ out.old.items ++ spec.row_text row.now) }
    ensures kept { OnErr result (take (length out.old.items) out.new.items ≡ out.old.items) }
{
    put_u32(out, row.tag().number())?;
    put_body(out, row.body())
}

#[tactic(auto, using(hk_frames::proofs::Put::all), unfolding(crate::specs::Answers::keyed_text))]
fn put_keyed(out: &mut Vec<u8>, key: Key, row: &Row) -> Result<(), AllocError>
    ensures ok { OnOk result (out.new.items ≡ out.old.items ++ spec.keyed_text (key, row.now)) }
    ensures kept { OnErr result (take (length out.old.items) out.new.items ≡ out.old.items) }
{
    put_u64(out, key.number())?;
    put_row(out, row)
}

/// Adds rows from the one of this number on: all that are left, or as many as have more than so many bytes. Returns the
/// number of the next row, which is how many rows there are where none is left. Cost: O(n), n bytes added.
#[tactic(auto, using(hk_frames::proofs::Put::all))]
pub fn put_rows_from(
    out: &mut Vec<u8>,
    rows: &[(Key, Row)],
    from: usize,
    most: usize,
) -> Result<usize, AllocError>
    requires { from ≤ length rows.now }
    ensures ok { IfOk result (λ to.
        AddsFrom spec.keyed_text rows.now from most to out.old.items out.new.items) }
    ensures kept { OnErr result (take (length out.old.items) out.new.items ≡ out.old.items) }
{
    let start = out.len();
    let mut to = from;
    while to < rows.len() {
        if out.len() - start > most {
            return Ok(to);
        }
        let row = &rows[to];
        put_keyed(out, row.0, &row.1)?;
        to += 1;
    }
    Ok(to)
}

/// Adds all rows, without their count.
pub(crate) fn put_rows(out: &mut Vec<u8>, rows: &[(Key, Row)]) -> Result<(), AllocError>
    ensures ok { OnOk result (out.new.items ≡ out.old.items ++ flat_map spec.keyed_text rows.now) }
    ensures kept { OnErr result (take (length out.old.items) out.new.items ≡ out.old.items) }
{
    let _next = put_rows_from(out, rows, 0, usize::MAX)?;
    let _bound = out.len();
    Ok(())
}

/// How many rows an answer has: 0 where it is none of rows.
pub fn row_count(answer: &Answer) -> usize
    ensures { result ≡ length (rows_of (answer_seen answer.now)) }
{
    match answer {
        Answer::Rows(rows) => rows.len(),
        Answer::One(_) | Answer::Number(_) => 0,
    }
}

/// Adds what an answer's bytes have before its rows: the kind, and how many rows there are; all of an answer that is none of
/// rows.
#[tactic(auto, using(hk_frames::proofs::Put::all), unfolding(crate::specs::Answers::answer_text, crate::specs::Pieces::answer_front))]
pub fn put_answer_front(out: &mut Vec<u8>, answer: &Answer) -> Result<(), AllocError>
    requires { spec.answer_keeps_rules (answer_seen answer.now) ≡ true }
    ensures ok { OnOk result (out.new.items ≡ out.old.items ++ answer_front (answer_seen answer.now)) }
    ensures kept { OnErr result (take (length out.old.items) out.new.items ≡ out.old.items) }
{
    match answer {
        Answer::One(None) => {
            out.push(ONE)?;
            out.push(0)?;
            Ok(())
        }
        Answer::One(Some(row)) => {
            out.push(ONE)?;
            out.push(1)?;
            put_row(out, row)
        }
        Answer::Rows(rows) => {
            out.push(ROWS)?;
            put_u32(out, rows.len() as u32)
        }
        Answer::Number(n) => {
            out.push(NUMBER)?;
            put_u64(out, *n)
        }
    }
}

/// Adds the rows of an answer from the one of this number on: all that are left, or as many as have more than so many bytes.
/// Returns the number of the next row, which is how many rows there are where none is left. Cost: O(n), n bytes added.
pub fn put_answer_rows(
    out: &mut Vec<u8>,
    answer: &Answer,
    from: usize,
    most: usize,
) -> Result<usize, AllocError>
    requires { from ≤ length (rows_of (answer_seen answer.now)) }
    ensures ok { IfOk result (λ to. AddsRows answer.now from most to
        out.old.items out.new.items) }
    ensures kept { OnErr result (take (length out.old.items) out.new.items ≡ out.old.items) }
{
    match answer {
        Answer::Rows(rows) => put_rows_from(out, rows, from, most),
        Answer::One(_) | Answer::Number(_) => Ok(from),
    }
}

/// Adds an answer's bytes.
#[tactic(auto, using(hk_frames::proofs::Put::all))]
pub fn put_answer(out: &mut Vec<u8>, answer: &Answer) -> Result<(), AllocError>
    requires { spec.answer_keeps_rules (answer_seen answer.now) ≡ true }
    ensures ok { OnOk result (out.new.items ≡ out.old.items ++ spec.answer_text (answer_seen answer.now)) }
    ensures kept { OnErr result (take (length out.old.items) out.new.items ≡ out.old.items) }
{
    put_answer_front(out, answer)?;
    let _next = put_answer_rows(out, answer, 0, usize::MAX)?;
    let _bound = out.len();
    Ok(())
}
