//! Outlines of items, which are read where a frame stands.

ghost use Rattle.std.specs.Prelude.{◌≡◌};
ghost use Rattle.hk_codec.specs.Outlines.{item_outline};

use crate::reading::{pass_kind, read_head};
use hk_frames::{Cursor, Format, ReadError};
use hk_log::{Item, Mark};
use hk_types::{FormFault, StreamNo, Time};
use std::alloc::Global;

/// An entry without what it writes.
#[derive(Clone, Copy, Debug, PartialEq, Eq, Drop)]
pub struct EntryOutline {
    /// The log.
    pub log: u64,
    /// The stream.
    pub stream: StreamNo,
    /// Its number in the stream.
    pub number: u64,
    /// Its time.
    pub time: Time,
    /// How many versions it ends.
    pub ends: usize,
    /// How many rows it puts in.
    pub rows: usize,
}

/// An item, of an entry its outline.
#[derive(Clone, Copy, Debug, PartialEq, Eq, Drop)]
pub enum ItemOutline {
    /// An entry.
    Commit(EntryOutline),
    /// A mark.
    Closed(Mark),
}

/// The outline of an item. Cost: O(1).
pub fn outline_of(item: &Item) -> ItemOutline
    ensures { result ≡ item_outline item.now }
{
    match item {
        Item::Commit(entry) => ItemOutline::Commit(EntryOutline {
            log: entry.log(),
            stream: entry.stream(),
            number: entry.number(),
            time: entry.time(),
            ends: entry.ends().len(),
            rows: entry.rows().len(),
        }),
        Item::Closed(mark) => ItemOutline::Closed(*mark),
    }
}

/// The format of items that are read as their outlines, each where its frame stands: nothing is copied or allocated. It
/// refuses what `ItemFormat` refuses, by the same fault.
#[derive(Debug, Drop)]
pub struct OutlineFormat;

impl Format for OutlineFormat {
    ghost use Rattle.hk_codec.specs.Outlines.{outline_format, AddsOutlines};

    type Value = ItemOutline;

    type Spare = ();

    ghost LEAST_BYTES = { 28 };

    ghost MOST_BYTES = { 4233248 };

    ghost format = { outline_format };

    ghost Adds = { AddsOutlines };

    const LEAST_BYTES: usize = 28;

    const MOST_BYTES: usize = 4_233_248;

    #[tactic(auto, unfolding(crate::specs::Reading::item_at))]
    fn read_rest(alloc: Global, rest: &[u8], _spare: &mut ()) -> Result<ItemOutline, ReadError> {
        let mut cursor = Cursor::new(rest);
        let head = read_head(&mut cursor)?;
        let outline = pass_kind(alloc, &mut cursor, head)?;
        if cursor.is_empty() {
            return Ok(outline);
        }
        Err(ReadError::Fault(FormFault::WrongLength))
    }

    fn laws() {}
}
