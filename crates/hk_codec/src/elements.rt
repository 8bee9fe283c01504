//! What ends and rows have in common: the elements of an entry's lists, which version 2 writes in groups.

ghost use Rattle.hk_frames.specs.Fields.{GivesValue};
ghost use Rattle.hk_codec.specs.Reading.{keyed_end_at};

use hk_frames::{Cursor, ReadError};
use hk_log::is_after;
use hk_types::{FormFault, Key, Row, Table, Tag, Time, VersionKey};
use std::alloc::{AllocError, Global};

/// The place before, where there is one.
pub(crate) type Before = Option<(Table, Key)>;

/// A kind of element. Each has a place, its table and key; the table comes before a group of them.
pub(crate) trait Elements {
    ghost use Rattle.std.specs.Prelude.{◌≡◌, ◌≤◌, ◌++◌, ℕ, List, Option, Result, length, take, OnOk, OnErr};
    ghost use Rattle.hk_types.specs.declared.faults.FormFault.{FormFault};
    ghost use Rattle.hk_frames.specs.Fields.{GivesValue, GivesOrRunsOut};
    ghost use Rattle.hk_codec.specs.Kept.{Reader, place_read};

    /// An element.
    type Value: Drop;

    /// Its place.
    ghost place: { Self.Value → ℕ × ℕ };

    /// The bytes of an element beside its table.
    ghost text: { Self.Value → List ℕ };

    /// What an element is whose parts fit their fields.
    ghost Fits: { Self.Value → Type 0 };

    /// What the bytes encode, in an entry of this time, of an element of this table after the place before it.
    ghost read: { Reader Self.Value };

    /// The table and the key.
    fn place_of(element: &Self::Value) -> (Table, Key)
        ensures { result ≡ place element.now };

    /// How many bytes an element has beside its table.
    fn len_of(element: &Self::Value) -> u32
        ensures len { result ≡ length (text element.now) }
        ensures most { result ≤ 4110 }
        ensures fits { Fits element.now };

    /// Adds an element without its table.
    fn put(out: &mut Vec<u8>, element: &Self::Value) -> Result<(), AllocError>
        ensures ok { OnOk result (out.new.items ≡ out.old.items ++ text element.now) }
        ensures kept { OnErr result (take (length out.old.items) out.new.items ≡ out.old.items) };

    /// Reads an element of a table.
    fn read_one(
        alloc: Global,
        cursor: &mut Cursor,
        time: Time,
        table: Table,
        before: Before,
    ) -> Result<Self::Value, ReadError>
        ensures { GivesOrRunsOut (λ x. (x, cursor.new)) result (read time table before cursor.old) };

    /// Passes over an element of a table, which is tested as where it is read, and returns its place. It allocates nothing.
    fn pass_one(
        cursor: &mut Cursor,
        time: Time,
        table: Table,
        before: Before,
    ) -> Result<(Table, Key), FormFault>
        ensures { GivesValue (λ p. (p, cursor.new)) result (place_read place read time table before cursor.old) };
}

/// Reads an end of a table.
#[inline(always)]
#[tactic(auto, unfolding(crate::specs::Reading::keyed_end_at))]
fn read_end(
    cursor: &mut Cursor,
    time: Time,
    table: Table,
    before: Before,
) -> Result<VersionKey, FormFault>
    ensures { GivesValue (λ x. (x, cursor.new)) result (keyed_end_at time table before cursor.old) }
{
    let key = Key::new(cursor.u64()?);
    let born = cursor.u64()?;
    if !is_after(before, table, key) {
        return Err(FormFault::BadOrder);
    }
    if born < 1 || born >= time.number() {
        return Err(FormFault::BadNumber);
    }
    let born = Time::new(born)?;
    Ok(VersionKey { table, key, born })
}

/// The ends of an entry: the versions that it ended.
pub(crate) struct Ends;

impl Elements for Ends {
    ghost use Rattle.hk_log.specs.Items.{end_place};
    ghost use Rattle.hk_codec.specs.Encoding.{keyed_end_text, EndFits};
    ghost use Rattle.hk_codec.specs.Reading.{keyed_end_at};

    type Value = VersionKey;

    ghost place = { end_place };

    ghost text = { keyed_end_text };

    ghost Fits = { EndFits };

    ghost read = { keyed_end_at };

    fn place_of(end: &VersionKey) -> (Table, Key) {
        (end.table, end.key)
    }

    // The numbers are read for the bounds that their types state.
    #[tactic(auto, using(crate::proofs::Lengths::keyed_end_len))]
    fn len_of(end: &VersionKey) -> u32 {
        let _in_range = end.table.number();
        let _in_range = end.key.number();
        16
    }

    #[tactic(auto, using(hk_frames::proofs::Put::all), unfolding(crate::specs::Encoding::keyed_end_text, hk_frames::specs::Fields::number))]
    fn put(out: &mut Vec<u8>, end: &VersionKey) -> Result<(), AllocError> {
        let key = end.key.number().to_be_bytes();
        let born = end.born.number().to_be_bytes();
        out.extend_from_slice(&[
            key[0], key[1], key[2], key[3], key[4], key[5], key[6], key[7], born[0], born[1],
            born[2], born[3], born[4], born[5], born[6], born[7],
        ])
    }

    #[inline(always)]
    fn read_one(
        _alloc: Global,
        cursor: &mut Cursor,
        time: Time,
        table: Table,
        before: Before,
    ) -> Result<VersionKey, ReadError> {
        Ok(read_end(cursor, time, table, before)?)
    }

    #[inline(always)]
    fn pass_one(
        cursor: &mut Cursor,
        time: Time,
        table: Table,
        before: Before,
    ) -> Result<(Table, Key), FormFault> {
        let end = read_end(cursor, time, table, before)?;
        Ok((end.table, end.key))
    }
}

/// The rows of an entry: those that it put in.
pub(crate) struct Rows;

impl Elements for Rows {
    ghost use Rattle.hk_log.specs.Items.{row_place};
    ghost use Rattle.hk_codec.specs.Encoding.{keyed_row_text, RowFits};
    ghost use Rattle.hk_codec.specs.Reading.{keyed_row_at};

    type Value = (Table, Key, Row);

    ghost place = { row_place };

    ghost text = { keyed_row_text };

    ghost Fits = { RowFits };

    ghost read = { λ time. keyed_row_at };

    fn place_of(row: &(Table, Key, Row)) -> (Table, Key) {
        (row.0, row.1)
    }

    // The numbers are read for the bounds that their types state.
    #[tactic(auto, using(crate::proofs::Lengths::keyed_row_len))]
    fn len_of(row: &(Table, Key, Row)) -> u32 {
        let _in_range = row.0.number();
        let _in_range = row.1.number();
        let _in_range = row.2.tag().number();
        14 + row.2.body().len() as u32
    }

    #[tactic(auto, using(hk_frames::proofs::Put::all), unfolding(crate::specs::Encoding::keyed_row_text, hk_frames::specs::Fields::number))]
    fn put(out: &mut Vec<u8>, row: &(Table, Key, Row)) -> Result<(), AllocError> {
        let key = row.1.number().to_be_bytes();
        let tag = row.2.tag().number().to_be_bytes();
        let body = row.2.body();
        let len = (body.len() as u16).to_be_bytes();
        out.extend_from_slice(&[
            key[0], key[1], key[2], key[3], key[4], key[5], key[6], key[7], tag[0], tag[1], tag[2],
            tag[3], len[0], len[1],
        ])?;
        out.extend_from_slice(body)
    }

    #[inline(always)]
    #[tactic(auto, unfolding(crate::specs::Reading::keyed_row_at))]
    fn read_one(
        alloc: Global,
        cursor: &mut Cursor,
        _time: Time,
        table: Table,
        before: Before,
    ) -> Result<(Table, Key, Row), ReadError> {
        let key = Key::new(cursor.u64()?);
        if !is_after(before, table, key) {
            return Err(ReadError::Fault(FormFault::BadOrder));
        }
        let tag = Tag::new(cursor.u32()?);
        let row = cursor.row(alloc, tag)?;
        Ok((table, key, row))
    }

    #[inline(always)]
    #[tactic(auto, unfolding(crate::specs::Reading::keyed_row_at))]
    fn pass_one(
        cursor: &mut Cursor,
        _time: Time,
        table: Table,
        before: Before,
    ) -> Result<(Table, Key), FormFault> {
        let key = Key::new(cursor.u64()?);
        if !is_after(before, table, key) {
            return Err(FormFault::BadOrder);
        }
        let _tag = cursor.u32()?;
        let _body = cursor.body()?;
        Ok((table, key))
    }
}
