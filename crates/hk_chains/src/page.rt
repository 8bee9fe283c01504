//! A page of the rows of a table between two keys.

ghost use Rattle.std.specs.Prelude.{◌≡◌, ◌+◌, ◌∷◌, [], length, false, IfOk};
ghost use Rattle.std.specs.Bool.{OnTrue, OnFalse};
ghost use Rattle.std.specs.Ordering.{is_gt};
ghost use Rattle.std.specs.FinMap as finmap;
ghost use Rattle.hk_model.specs.History.Rows.{row_key_cmp};
ghost use Rattle.hk_facts.specs.Chains.{row_at};
ghost use Rattle.hk_slots.specs.SlotMaps.{map_of};
ghost use Rattle.hk_chains.specs.Paging.{Takes, IsFull, IsPageWithin, Spends};
ghost use Rattle.hk_chains.specs.Paging as paging;
ghost use Rattle.hk_chains.specs.Reads.{keyed_if, rows_from_to, rows_ranged};

use crate::chains::Chains;
use hk_facts::Chain;
use hk_index::RowKey;
use hk_model::Page;
use hk_slots::SlotMap;
use hk_types::{Key, Row, Table, Time};
use std::alloc::{AllocError, Global};

/// How many bytes of a page a row has beside its body: its key, its tag and the length of its body.
const ROW_HEAD_BYTES: u64 = 14;

/// How many bytes of a page a row has.
fn size_of_row(row: &Row) -> u64
    ensures { result ≡ 14 + length row.now.body }
{
    ROW_HEAD_BYTES + row.body().len() as u64
}

/// Whether a page with so many rows has room for one of this size.
fn has_room(count: usize, most: u32, room: u64, size: u64) -> bool
    ensures { result ≡ paging.has_room count most room size }
{
    count < most as usize && (count == 0 || size <= room)
}

/// A page that is filled from its first row on.
#[derive(Drop)]
struct PageBuilder {
    /// The rows that it has, with their keys.
    rows: Vec<(Key, Row)>,
    /// How many it may have.
    most: u32,
    /// How many bytes there are for more.
    room: u64,
}

/// Adds a copy of a row with its key, where the page has room for it. Answers whether it has.
fn put_row(alloc: Global, page: &mut PageBuilder, key: Key, row: &Row) -> Result<bool, AllocError>
    ensures taken { IfOk result (λ has. OnTrue has (Takes page.old page.new ((key, row.now) ∷ []))) }
    ensures full { IfOk result (λ has. OnFalse has (IsFull page.old page.new ((key, row.now) ∷ []))) }
{
    let size = size_of_row(row);
    if !has_room(page.rows.len(), page.most, page.room, size) {
        return Ok(false);
    }
    page.rows.push((key, row.copy(alloc)?))?;
    page.room = page.room.saturating_sub(size);
    Ok(true)
}

/// Adds a copy of the row that a chain has at a time, where it has one and the page has room for it. Answers whether
/// nothing was left out.
fn put_row_at(
    alloc: Global,
    page: &mut PageBuilder,
    key: Key,
    chain: &Chain,
    time: Time,
) -> Result<bool, AllocError>
    ensures taken { IfOk result (λ has. OnTrue has
        (Takes page.old page.new (keyed_if key (row_at chain.now time)))) }
    ensures full { IfOk result (λ has. OnFalse has
        (IsFull page.old page.new (keyed_if key (row_at chain.now time)))) }
{
    match chain.at(time) {
        Some(row) => put_row(alloc, page, key, row),
        None => Ok(true),
    }
}

/// Takes one look of those that are left, where they are counted. Answers whether there was one.
fn spend(looks: &mut Option<u64>) -> bool
    ensures { Spends looks.old looks.new result }
{
    match looks {
        None => true,
        Some(left) => match left.checked_sub(1) {
            Some(fewer) => {
                *left = fewer;
                true
            }
            None => false,
        },
    }
}

/// Fills a page with the rows that the chains from a first to a last row have at a time, or gives up where it would look at more
/// chains than so many.
fn page_in_range(
    chains: &SlotMap<RowKey, Chain>,
    first: RowKey,
    last: RowKey,
    time: Time,
    alloc: Global,
    most: u32,
    room: u64,
    looks: Option<u64>,
) -> Result<Option<Page>, AllocError>
    requires { is_gt (row_key_cmp first last) ≡ false }
    ensures { IsPageWithin looks most room
        (rows_from_to time first last (finmap.entries (map_of row_key_cmp chains.now))) result }
{
    let mut page = PageBuilder {
        rows: Vec::new(alloc),
        most,
        room,
    };
    let mut left = looks;
    for (row, chain) in chains.range(first..=last) {
        if !spend(&mut left) {
            return Ok(None);
        }
        if !put_row_at(alloc, &mut page, row.key, chain, time)? {
            return Ok(Some(Page {
                rows: page.rows,
                more: true,
            }));
        }
    }
    Ok(Some(Page {
        rows: page.rows,
        more: false,
    }))
}

impl Chains {
    /// The first page of the rows of a table with keys from `low` to `high`, both inside, that show at a time, by
    /// rising key: copies of at most `most` of them, of at most `room` bytes with 14 for each row beside its body, but
    /// of the first one whatever its size; and whether more follow. Where `low` is above `high` there are none. Where it would
    /// look at more keys than `looks`, if that is a number, it gives up: `None`. The only error is out of memory. Cost:
    /// O(log n + k · log n + b), n facts, k keys of which anything is known from low up to the first row that is left out, and
    /// at most `looks` of them, b bytes of the bodies that are copied.
    pub fn page(
        &self,
        alloc: Global,
        table: Table,
        low: Key,
        high: Key,
        time: Time,
        most: u32,
        room: u64,
        looks: Option<u64>,
    ) -> Result<Option<Page>, AllocError>
        ensures { IsPageWithin looks most room (rows_ranged self.now time table low high) result }
    {
        if high < low {
            return Ok(Some(Page {
                rows: Vec::new(alloc),
                more: false,
            }));
        }
        let first = RowKey::new(table, low);
        let last = RowKey::new(table, high);
        page_in_range(&self.chains, first, last, time, alloc, most, room, looks)
    }
}
