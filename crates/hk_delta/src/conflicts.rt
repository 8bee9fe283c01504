//! Whether items conflict with each other, fact by fact, which takes no memory.

ghost use Rattle.std.specs.Prelude.{◌≡◌};
ghost use Rattle.std.specs.List.{list_any};
ghost use Rattle.hk_model.specs.History.Facts.{inserted_version};
ghost use Rattle.hk_delta.specs.Gathers.{conflicts_in_end, conflicts_in_row, ends_conflict, have_conflict, inserted_rows, rows_conflict, stated_ends};

use hk_log::{Entry, Item};
use hk_types::{Row, Time, VersionKey};

/// Whether an entry inserts another row of a version.
fn entry_inserts_another(entry: &Entry, version: VersionKey, row: &Row) -> bool
    ensures { result ≡ list_any (λ p. rows_conflict (version, row.now) (inserted_version entry.now.time p)) entry.now.rows }
{
    let born = entry.time();
    entry.rows().iter().any(|(table, key, other)| {
        let table = *table;
        let key = *key;
        version == VersionKey { table, key, born } && row != other
    })
}

/// Whether an item inserts another row of a version.
fn inserts_another(item: &Item, version: VersionKey, row: &Row) -> bool
    ensures { result ≡ list_any (rows_conflict (version, row.now)) (inserted_rows item.now) }
{
    match item {
        Item::Commit(entry) => entry_inserts_another(entry, version, row),
        Item::Closed(_) => false,
    }
}

/// Whether one of the items inserts another row of a version.
fn is_row_conflicting(items: &[Item], version: VersionKey, row: &Row) -> bool
    ensures { result ≡ conflicts_in_row items.now (version, row.now) }
{
    items.iter().any(|item| inserts_another(item, version, row))
}

/// Whether one of the items inserts another row of a version that an entry inserts.
fn are_entry_rows_conflicting(items: &[Item], entry: &Entry) -> bool
    ensures { result ≡ list_any (λ p. conflicts_in_row items.now (inserted_version entry.now.time p)) entry.now.rows }
{
    let born = entry.time();
    entry.rows().iter().any(|(table, key, row)| {
        let table = *table;
        let key = *key;
        is_row_conflicting(items, VersionKey { table, key, born }, row)
    })
}

/// Whether one of the items inserts another row of a version that an item inserts.
fn are_rows_conflicting(items: &[Item], item: &Item) -> bool
    ensures { result ≡ list_any (conflicts_in_row items.now) (inserted_rows item.now) }
{
    match item {
        Item::Commit(entry) => are_entry_rows_conflicting(items, entry),
        Item::Closed(_) => false,
    }
}

/// Whether an entry ends a version at another time.
fn entry_ends_conflict(entry: &Entry, version: VersionKey, died: Time) -> bool
    ensures { result ≡ list_any (λ v. ends_conflict (version, died) (v, entry.now.time)) entry.now.ends }
{
    let time = entry.time();
    entry
        .ends()
        .iter()
        .any(|other| version == *other && died != time)
}

/// Whether an item ends a version at another time.
fn ends_at_another_time(item: &Item, version: VersionKey, died: Time) -> bool
    ensures { result ≡ list_any (ends_conflict (version, died)) (stated_ends item.now) }
{
    match item {
        Item::Commit(entry) => entry_ends_conflict(entry, version, died),
        Item::Closed(_) => false,
    }
}

/// Whether one of the items ends a version at another time.
fn is_end_conflicting(items: &[Item], version: VersionKey, died: Time) -> bool
    ensures { result ≡ conflicts_in_end items.now (version, died) }
{
    items
        .iter()
        .any(|item| ends_at_another_time(item, version, died))
}

/// Whether one of the items ends a version at another time than an entry does.
fn are_entry_ends_conflicting(items: &[Item], entry: &Entry) -> bool
    ensures { result ≡ list_any (λ v. conflicts_in_end items.now (v, entry.now.time)) entry.now.ends }
{
    let died = entry.time();
    entry
        .ends()
        .iter()
        .any(|version| is_end_conflicting(items, *version, died))
}

/// Whether one of the items ends a version at another time than an item does.
fn are_ends_conflicting(items: &[Item], item: &Item) -> bool
    ensures { result ≡ list_any (conflicts_in_end items.now) (stated_ends item.now) }
{
    match item {
        Item::Commit(entry) => are_entry_ends_conflicting(items, entry),
        Item::Closed(_) => false,
    }
}

/// Whether one of the items inserts another row of a version that one of them inserts.
fn conflict_in_rows(items: &[Item]) -> bool
    ensures { result ≡ list_any (λ item. list_any (conflicts_in_row items.now) (inserted_rows item)) items.now }
{
    items.iter().any(|item| are_rows_conflicting(items, item))
}

/// Whether one of the items ends a version at another time than one of them does.
fn conflict_in_ends(items: &[Item]) -> bool
    ensures { result ≡ list_any (λ item. list_any (conflicts_in_end items.now) (stated_ends item)) items.now }
{
    items.iter().any(|item| are_ends_conflicting(items, item))
}

/// Whether two of the items have different rows or different ends of a version. It takes no memory. Cost: O(n²), n
/// rows and ends of the items.
pub(crate) fn conflict(items: &[Item]) -> bool
    ensures { result ≡ have_conflict items.now }
{
    conflict_in_rows(items) || conflict_in_ends(items)
}
