//! What a node says of how much it holds, beside a count of its full snapshot, and answers that have no room.

use super::playing::{Does, Tells, day};
use super::*;
use crate::tests::values::{row, stream, version};
use hk_log::Entry;
use hk_node::NodeSizes;
use hk_types::{Row, VersionKey};

/// Rows, ends and bytes of the facts of a full snapshot.
fn counted(whole: &Fragment) -> (u64, u64, u64) {
    let mut sizes = (0u64, 0u64, 0u64);
    for (_version, known) in whole.facts() {
        if let Some(row) = known.row() {
            sizes.0 = sizes.0.saturating_add(1);
            sizes.2 = sizes.2.saturating_add(row.body().len() as u64);
        }
        if known.died().is_some() {
            sizes.1 = sizes.1.saturating_add(1);
        }
    }
    sizes
}

/// Whether a node says of itself what a count of its snapshot says.
pub(super) fn agrees(sizes: &NodeSizes, whole: &Fragment) -> bool {
    (sizes.rows, sizes.ends, sizes.bytes) == counted(whole)
}

/// The ends of the versions that the entry before this one put of the keys up to a bound. The first entry ends none.
fn ends_of(alloc: Global, number: u64, bound: u64) -> Result<Vec<VersionKey>, Fail> {
    let table = Table::new(3);
    let last = if number > 1 { bound } else { 0 };
    let mut ends = Vec::new(alloc);
    for key in 1..=last {
        let before = version(key, number.saturating_sub(1))?;
        ends.push(VersionKey { table, ..before })?;
    }
    Ok(ends)
}

/// So many rows of table 3, with bodies of 0 to 6 bytes.
fn rows_of(alloc: Global, count: u64) -> Result<Vec<(Table, Key, Row)>, Fail> {
    let body = [7u8; 6];
    let mut rows = Vec::new(alloc);
    for key in 1..=count {
        let length = (key % 7) as usize;
        let row = row(alloc, &body[..length.min(6)])?;
        rows.push((Table::new(3), Key::new(key), row))?;
    }
    Ok(rows)
}

/// An entry that puts so many rows of table 3 at its time, and ends those that the entry before it put of the keys up to a bound.
fn wide(alloc: Global, number: u64, count: u64, ended: u64) -> Result<Item, Fail> {
    let (stream, at) = (stream(1)?, time(number)?);
    let ends = ends_of(alloc, number, ended)?;
    let rows = rows_of(alloc, count)?;
    Ok(Item::Commit(Entry::new(7, stream, number, at, ends, rows)?))
}

/// The fragment of one such entry and of the mark of it.
pub(super) fn wide_fragment(
    alloc: Global,
    number: u64,
    count: u64,
    ended: u64,
) -> Result<Fragment, Fail> {
    let config = config()?;
    let close = mark(1, number, number)?;
    let entry = wide(alloc, number, count, ended)?;
    Ok(fragment_of(alloc, config, &[entry, close])?)
}

/// Six entries, the last of them twice, one that ends little, and prunes that drop many versions and few. An entry has 50
/// rows, and all of the entry before it are ended but for 48 of the sixth.
static SIZES: [(Does, Tells); 24] = [
    (Does::Sizes, (0, 1, 0)),
    (Does::Wide(1, 50, 50), (0, 2, 0)),
    (Does::Sizes, (0, 1, 50)),
    (Does::Wide(2, 50, 50), (0, 3, 0)),
    (Does::Sizes, (0, 1, 100)),
    (Does::Wide(3, 50, 50), (0, 4, 0)),
    (Does::Sizes, (0, 1, 150)),
    (Does::Wide(4, 50, 50), (0, 5, 0)),
    (Does::Sizes, (0, 1, 200)),
    (Does::Wide(5, 50, 50), (0, 6, 0)),
    (Does::Sizes, (0, 1, 250)),
    (Does::Wide(6, 50, 50), (0, 7, 0)),
    (Does::Sizes, (0, 1, 300)),
    (Does::Wide(6, 50, 50), (0, 8, 0)),
    (Does::Sizes, (0, 1, 300)),
    (Does::Wide(7, 50, 2), (0, 9, 0)),
    (Does::Sizes, (0, 1, 350)),
    (Does::Prune(3), (0, 10, 3)),
    (Does::Sizes, (0, 1, 250)),
    (Does::Prune(6), (0, 11, 6)),
    (Does::Sizes, (0, 1, 100)),
    (Does::Prune(7), (0, 12, 7)),
    (Does::Sizes, (0, 1, 98)),
    (Does::Publish, (0, 12, 12)),
];

#[test]
fn a_node_counts_what_it_holds(rt: HostRuntime) -> Result<(), Fail> {
    day(&rt, rt.alloc(), false, &SIZES)
}

/// Of 400 rows four are replaced. A page, a delta, a get and a range of few rows have room where a full snapshot and a range of
/// many have none; fewer bytes leave room for the front and the streams.
static ROOMS: [(Does, Tells); 16] = [
    (Does::Wide(1, 400, 0), (0, 2, 0)),
    (Does::Wide(2, 4, 4), (0, 3, 0)),
    (Does::Whole, (0, 404, 0)),
    (Does::Range(400), (0, 400, 0)),
    (Does::Keep(4_000), (0, 0, 0)),
    (Does::Whole, (90, 0, 0)),
    (Does::Range(400), (90, 0, 0)),
    (Does::LatestRange(400), (90, 0, 0)),
    (Does::Range(2), (0, 2, 0)),
    (Does::Get(1, 2), (0, 0, 0)),
    (Does::Delta(1), (0, 8, 0)),
    (Does::WidePage(1_000), (0, 400, 0)),
    (Does::Keep(100), (0, 0, 0)),
    (Does::Delta(1), (90, 0, 0)),
    (Does::Streams, (0, 3, 2)),
    (Does::Front, (0, 0, 2)),
];

#[test]
fn an_answer_without_room_is_refused(rt: HostRuntime) -> Result<(), Fail> {
    day(&rt, rt.alloc(), false, &ROOMS)
}
