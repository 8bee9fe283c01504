//! What a change begins with, for who reads that it was refused.

use hk_log::{Entry, Item};
use hk_messages::Request;
use hk_types::{Key, Table, Time};

/// The first version that a change names: of its first entry the first row, or where it has none the first end, and the entry's time.
#[derive(Clone, Copy, Debug, PartialEq, Eq)]
pub struct Subject {
    /// The table of the row.
    pub table: Table,
    /// The key of the row.
    pub key: Key,
    /// The time of the entry.
    pub time: Time,
}

/// That of an entry.
fn subject_of_entry(entry: &Entry) -> Option<Subject> {
    let time = entry.time();
    if let Some((table, key, _row)) = entry.rows().first() {
        return Some(Subject {
            table: *table,
            key: *key,
            time,
        });
    }
    let end = entry.ends().first()?;
    Some(Subject {
        table: end.table,
        key: end.key,
        time,
    })
}

/// That of the first entry of a list.
fn subject_of_items(items: &[Item]) -> Option<Subject> {
    for item in items {
        if let Item::Commit(entry) = item {
            return subject_of_entry(entry);
        }
    }
    None
}

/// That of the change that a request asks for, where it gives items. Cost: O(m), m marks before the first entry.
pub(crate) fn subject_of(request: &Request) -> Option<Subject> {
    match request {
        Request::Items(items) | Request::Feed(items) => subject_of_items(items),
        _other => None,
    }
}
