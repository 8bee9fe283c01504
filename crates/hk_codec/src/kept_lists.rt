//! Reading a list, one by one or in groups of one table.

ghost use Rattle.std.specs.Prelude.{◌≡◌};
ghost use Rattle.hk_frames.specs.Fields.{GivesOrRunsOut};
ghost use Rattle.hk_codec.specs.Lists as spec;
ghost use Rattle.hk_codec.specs.Kept.{Leaves, steps_at, tabled_at, kept_group_at, kept_list_at};

use crate::elements::Before;
use crate::kept::Keeps;
use hk_frames::{Cursor, ReadError};
use hk_log::MOST_WRITES;
use hk_types::{FormFault, Table, Time};
use std::alloc::Global;

/// The version byte of frames that name the table of each end and row.
pub(crate) const VERSION_1: u8 = 1;

/// The bytes of an element's table.
const TABLE_BYTES: usize = 2;

/// Whether a table is above that of the place before it.
fn is_above(before: Before, table: Table) -> bool
    ensures { result ≡ spec.is_above before table }
{
    match before {
        None => true,
        Some((last, _key)) => last < table,
    }
}

/// Reads the next element behind its table.
#[tactic(auto, unfolding(crate::specs::Kept::tabled_at))]
fn read_tabled<K: Keeps>(
    alloc: Global,
    cursor: &mut Cursor,
    time: Time,
    kept: &mut K,
) -> Result<(), ReadError>
    ensures { Leaves (tabled_at K.kept time kept.old cursor.old) kept.new cursor.new result }
{
    let table = Table::new(cursor.u16()?);
    kept.read_next(alloc, cursor, time, table)
}

/// Reads so many elements, each behind its table.
fn read_one_by_one<K: Keeps>(
    alloc: Global,
    cursor: &mut Cursor,
    time: Time,
    count: u16,
    kept: &mut K,
) -> Result<(), ReadError>
    ensures { Leaves (steps_at (tabled_at K.kept time) count kept.old cursor.old) kept.new cursor.new result }
{
    let tables = count as usize * TABLE_BYTES;
    kept.make_room(count as usize, 1, cursor.len().saturating_sub(tables))?;
    for _ in 0..count {
        read_tabled(alloc, cursor, time, kept)?;
    }
    Ok(())
}

/// Reads so many elements of a table.
fn read_elements<K: Keeps>(
    alloc: Global,
    cursor: &mut Cursor,
    time: Time,
    table: Table,
    count: u16,
    kept: &mut K,
) -> Result<(), ReadError>
    ensures { Leaves (steps_at (K.kept.next time table) count kept.old cursor.old) kept.new cursor.new result }
{
    for _ in 0..count {
        kept.read_next(alloc, cursor, time, table)?;
    }
    Ok(())
}

/// Reads the first of so many groups.
#[tactic(auto, unfolding(crate::specs::Kept::kept_group_at))]
fn read_group<K: Keeps>(
    alloc: Global,
    cursor: &mut Cursor,
    time: Time,
    groups: u16,
    kept: &mut K,
) -> Result<(), ReadError>
    ensures { Leaves (kept_group_at K.kept time kept.old cursor.old) kept.new cursor.new result }
{
    let table = Table::new(cursor.u16()?);
    if !is_above(kept.last(), table) {
        return Err(ReadError::Fault(FormFault::BadOrder));
    }
    let count = cursor.u16()?;
    if count < 1 || kept.count().saturating_add(count as usize) > MOST_WRITES {
        return Err(ReadError::Fault(FormFault::BadCount));
    }
    kept.make_room(count as usize, groups as usize, cursor.len())?;
    read_elements(alloc, cursor, time, table, count, kept)
}

/// Reads so many groups. Room is made for all at the first, where none of them has more elements than it.
fn read_groups<K: Keeps>(
    alloc: Global,
    cursor: &mut Cursor,
    time: Time,
    groups: u16,
    kept: &mut K,
) -> Result<(), ReadError>
    ensures { Leaves (steps_at (kept_group_at K.kept time) groups kept.old cursor.old) kept.new cursor.new result }
{
    for passed in 0..groups {
        read_group(alloc, cursor, time, groups - passed, kept)?;
    }
    Ok(())
}

/// Reads a list as the version has it. It may be none where there are others. No more room is made for it than the bytes
/// that are left can encode.
#[tactic(auto, unfolding(crate::specs::Kept::kept_list_at))]
pub(crate) fn read_list<K: Keeps>(
    alloc: Global,
    cursor: &mut Cursor,
    version: u8,
    time: Time,
    others: usize,
    room: K::Room,
) -> Result<K, ReadError>
    ensures { GivesOrRunsOut (λ k. (k, cursor.new)) result (kept_list_at K.kept version time others cursor.old) }
{
    let count = cursor.u16()?;
    if count as usize > MOST_WRITES || (others == 0 && count == 0) {
        return Err(ReadError::Fault(FormFault::BadCount));
    }
    let mut kept = K::none(room);
    if version == VERSION_1 {
        read_one_by_one(alloc, cursor, time, count, &mut kept)?;
    } else {
        read_groups(alloc, cursor, time, count, &mut kept)?;
    }
    Ok(kept)
}
