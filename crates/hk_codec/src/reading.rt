//! The rest of an item's frame.

ghost use Rattle.std.specs.Prelude.{◌≡◌, ◌⊎◌};
ghost use Rattle.hk_frames.specs.Fields.{IsBytes, GivesValue, GivesOrRunsOut, mapped};
ghost use Rattle.hk_codec.specs.Reading as spec;
ghost use Rattle.hk_codec.specs.Outlines.{entry_outline_behind, outline_behind};

use crate::elements::{Ends, Rows};
use crate::kept::{All, Keeps, Passed};
use crate::kept_lists::{VERSION_1, read_list};
use crate::outline::{EntryOutline, ItemOutline};
use hk_frames::{Cursor, Format, ReadError};
use hk_log::{Entry, Item, Mark, Spare};
use hk_types::{FormFault, Key, Row, StreamNo, Table, Time, VersionKey};
use std::alloc::Global;

/// The version byte of frames with their ends and rows in groups of one table.
pub(crate) const VERSION_2: u8 = 2;

/// The kind byte of an entry.
pub(crate) const ENTRY_KIND: u8 = 1;

/// The kind byte of a mark.
pub(crate) const MARK_KIND: u8 = 2;

/// Reads the number and the time of an entry.
#[tactic(auto, unfolding(crate::specs::Reading::moment_at))]
fn read_moment(cursor: &mut Cursor) -> Result<(u64, Time), FormFault>
    ensures { GivesValue (λ x. (x, cursor.new)) result (spec.moment_at cursor.old) }
{
    let number = cursor.u64()?;
    let time = cursor.u64()?;
    if number < 1 || time < number {
        return Err(FormFault::BadNumber);
    }
    let time = Time::new(time)?;
    Ok((number, time))
}

/// Reads the ends as the version has them.
#[tactic(auto, using(crate::proofs::KeptLists::all_ends))]
fn read_ends(
    alloc: Global,
    cursor: &mut Cursor,
    version: u8,
    time: Time,
    room: Vec<VersionKey>,
) -> Result<Vec<VersionKey>, ReadError>
    ensures { GivesOrRunsOut (λ x. (x.items, cursor.new)) result (spec.ends_of_version version time cursor.old) }
{
    let kept: All<Ends> = read_list(alloc, cursor, version, time, 1, room)?;
    Ok(kept.elements)
}

/// Reads the rows as the version has them, of an entry with so many ends.
#[tactic(auto, using(crate::proofs::KeptLists::all_rows))]
fn read_rows(
    alloc: Global,
    cursor: &mut Cursor,
    version: u8,
    time: Time,
    ends: usize,
    room: Vec<(Table, Key, Row)>,
) -> Result<Vec<(Table, Key, Row)>, ReadError>
    ensures { GivesOrRunsOut (λ x. (x.items, cursor.new)) result (spec.rows_of_version version ends cursor.old) }
{
    let kept: All<Rows> = read_list(alloc, cursor, version, time, ends, room)?;
    Ok(kept.elements)
}

#[tactic(auto, unfolding(crate::specs::Reading::mark_at))]
fn read_mark(cursor: &mut Cursor, log: u64, stream: StreamNo) -> Result<Mark, FormFault>
    ensures { GivesValue (λ x. (x, cursor.new)) result (spec.mark_at log stream cursor.old) }
{
    let n = cursor.u64()?;
    let m = Time::new(cursor.u64()?)?;
    Mark::new(log, stream, n, m)
}

/// What the first bytes of a rest encode.
#[derive(Clone, Copy)]
pub(crate) struct FrameHead {
    version: u8,
    kind: u8,
    log: u64,
    stream: StreamNo,
}

#[tactic(auto, unfolding(crate::specs::Reading::head_at))]
pub(crate) fn read_head(cursor: &mut Cursor) -> Result<FrameHead, FormFault>
    ensures { GivesValue (λ x. (spec.head_seen x, cursor.new)) result (spec.head_at cursor.old) }
{
    let version = cursor.u8()?;
    if version != VERSION_1 && version != VERSION_2 {
        return Err(FormFault::BadVersion);
    }
    let kind = cursor.u8()?;
    if kind != ENTRY_KIND && kind != MARK_KIND {
        return Err(FormFault::BadKind);
    }
    let log = cursor.u64()?;
    let stream = StreamNo::new(cursor.u16()?)?;
    Ok(FrameHead {
        version,
        kind,
        log,
        stream,
    })
}

#[tactic(auto, unfolding(crate::specs::Reading::entry_at))]
fn read_entry(
    alloc: Global,
    cursor: &mut Cursor,
    head: FrameHead,
    spare: &mut Spare,
) -> Result<Entry, ReadError>
    requires bytes { IsBytes cursor.old }
    requires version { (head.version ≡ 1) ⊎ (head.version ≡ 2) }
    ensures { GivesOrRunsOut (λ x. (x, cursor.new)) result (spec.entry_behind (spec.head_seen head) cursor.old) }
{
    let (number, time) = read_moment(cursor)?;
    let (ends_room, rows_room) = spare.take(alloc);
    let ends = read_ends(alloc, cursor, head.version, time, ends_room)?;
    let rows = read_rows(alloc, cursor, head.version, time, ends.len(), rows_room)?;
    let _in_range = head.stream.number();
    Ok(Entry::of_parts(head.log, head.stream, number, time, ends, rows))
}

/// Reads what follows the head.
#[tactic(auto, unfolding(crate::specs::Reading::kind_at))]
fn read_kind(
    alloc: Global,
    cursor: &mut Cursor,
    head: FrameHead,
    spare: &mut Spare,
) -> Result<Item, ReadError>
    requires bytes { IsBytes cursor.old }
    requires version { (head.version ≡ 1) ⊎ (head.version ≡ 2) }
    ensures { GivesOrRunsOut (λ x. (x, cursor.new)) result (spec.kind_at (spec.head_seen head) cursor.old) }
{
    if head.kind == ENTRY_KIND {
        let entry = read_entry(alloc, cursor, head, spare)?;
        return Ok(Item::Commit(entry));
    }
    let mark = read_mark(cursor, head.log, head.stream)?;
    Ok(Item::Closed(mark))
}

/// The item that is all of the rest. In the order of the bytes: a field that does not fit is a wrong
/// length, a version that is neither 1 nor 2, an unknown kind, a stream outside 1 to 64, and then what `Entry::new` and
/// `Mark::new` ask; bytes behind the last field are a wrong length.
#[tactic(auto, unfolding(crate::specs::Reading::item_at))]
pub(crate) fn read_item(alloc: Global, rest: &[u8], spare: &mut Spare) -> Result<Item, ReadError>
    ensures { GivesOrRunsOut (λ x. x) result (mapped (λ w. w.item) (spec.item_at rest.now)) }
{
    let mut cursor = Cursor::new(rest);
    let head = read_head(&mut cursor)?;
    let item = read_kind(alloc, &mut cursor, head, spare)?;
    if !cursor.is_empty() {
        return Err(ReadError::Fault(FormFault::WrongLength));
    }
    Ok(item)
}

/// Passes over what follows the head of an entry.
fn pass_entry(
    alloc: Global,
    cursor: &mut Cursor,
    head: FrameHead,
) -> Result<EntryOutline, ReadError>
    ensures { GivesOrRunsOut (λ x. (x, cursor.new)) result (entry_outline_behind (spec.head_seen head) cursor.old) }
{
    let (number, time) = read_moment(cursor)?;
    let passed: Passed<Ends> = read_list(alloc, cursor, head.version, time, 1, ())?;
    let ends = passed.count();
    let others: Passed<Rows> = read_list(alloc, cursor, head.version, time, ends, ())?;
    Ok(EntryOutline {
        log: head.log,
        stream: head.stream,
        number,
        time,
        ends,
        rows: others.count(),
    })
}

/// Passes over what follows the head.
#[tactic(auto, unfolding(crate::specs::Reading::kind_at))]
pub(crate) fn pass_kind(
    alloc: Global,
    cursor: &mut Cursor,
    head: FrameHead,
) -> Result<ItemOutline, ReadError>
    ensures { GivesOrRunsOut (λ x. (x, cursor.new)) result (outline_behind (spec.head_seen head) cursor.old) }
{
    if head.kind == ENTRY_KIND {
        let entry = pass_entry(alloc, cursor, head)?;
        return Ok(ItemOutline::Commit(entry));
    }
    let mark = read_mark(cursor, head.log, head.stream)?;
    Ok(ItemOutline::Closed(mark))
}

/// The format of items. The least rest is a mark's. The greatest is that in version 2 of an entry with 1,024 ends and
/// 1,024 rows of full bodies, each in a table of its own.
#[derive(Debug, Drop)]
pub struct ItemFormat;

impl Format for ItemFormat {
    ghost use Rattle.hk_codec.specs.Frames.{item_format, Adds};

    type Value = Item;

    type Spare = Spare;

    ghost LEAST_BYTES = { 28 };

    ghost MOST_BYTES = { 4233248 };

    ghost format = { item_format };

    ghost Adds = { Adds };

    const LEAST_BYTES: usize = 28;

    const MOST_BYTES: usize = 4_233_248;

    fn read_rest(alloc: Global, rest: &[u8], spare: &mut Spare) -> Result<Item, ReadError> {
        read_item(alloc, rest, spare)
    }

    fn laws() {}
}
