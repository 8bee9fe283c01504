//! Entries whose number is already applied, compared with the rows and ends that are known.

ghost use Rattle.std.specs.Prelude.{◌≡◌, ◌&&◌, Some, not};
ghost use Rattle.std.specs.List.{list_any};
ghost use Rattle.hk_model.specs.Replica.Past.{same_shown};
ghost use Rattle.hk_delta.specs.Repeats as spec;

use hk_log::{Entry, Item};
use hk_store::Facts;
use hk_types::{Row, Time, VersionKey};

/// Whether items are compared, and one of them is an entry of a time above this that differs from the facts of the two
/// maps together: a row or an end of it is lacking there, or another is there. It takes no memory.
pub(crate) fn some_stand_otherwise(
    compared: bool,
    own: &Facts,
    news: &Facts,
    horizon: Time,
    items: &[Item],
) -> bool
    ensures { result ≡ (compared
        && list_any (spec.stands_otherwise_in own.now news.now horizon) items.now) }
{
    compared && one_stands_otherwise(own, news, horizon, items)
}

fn one_stands_otherwise(own: &Facts, news: &Facts, horizon: Time, items: &[Item]) -> bool
    ensures { result ≡ list_any (spec.stands_otherwise_in own.now news.now horizon) items.now }
{
    items
        .iter()
        .any(|item| stands_otherwise(own, news, horizon, item))
}

fn stands_otherwise(own: &Facts, news: &Facts, horizon: Time, item: &Item) -> bool
    ensures { result ≡ spec.stands_otherwise_in own.now news.now horizon item.now }
{
    match item {
        Item::Commit(entry) => {
            horizon < entry.time()
                && (lacks_some_row(own, news, entry) || lacks_some_end(own, news, entry))
        }
        Item::Closed(_) => false,
    }
}

fn lacks_some_row(own: &Facts, news: &Facts, entry: &Entry) -> bool
    ensures { result ≡ list_any (spec.lacks_row (spec.row_in own.now news.now) entry.now.time) entry.now.rows }
{
    let born = entry.time();
    entry.rows().iter().any(|(table, key, row)| {
        let table = *table;
        let key = *key;
        lacks_row(own, news, &VersionKey { table, key, born }, row)
    })
}

/// Whether neither has this row of a version, or the first that has one has another.
fn lacks_row(own: &Facts, news: &Facts, version: &VersionKey, row: &Row) -> bool
    ensures { result ≡ not (same_shown (spec.row_in own.now news.now version.now) (Some row.now)) }
{
    match own.row_at(version) {
        Some(there) => *there != *row,
        None => match news.row_at(version) {
            Some(there) => *there != *row,
            None => true,
        },
    }
}

fn lacks_some_end(own: &Facts, news: &Facts, entry: &Entry) -> bool
    ensures { result ≡ list_any (spec.lacks_end (spec.end_in own.now news.now) entry.now.time) entry.now.ends }
{
    let died = entry.time();
    entry
        .ends()
        .iter()
        .any(|version| lacks_end(own, news, version, died))
}

/// Whether neither has this end of a version, or the first that has one has another.
fn lacks_end(own: &Facts, news: &Facts, version: &VersionKey, died: Time) -> bool
    ensures { result ≡ not (spec.is_end (spec.end_in own.now news.now version.now) died) }
{
    match own.end_at(version) {
        Some(there) => there != died,
        None => match news.end_at(version) {
            Some(there) => there != died,
            None => true,
        },
    }
}
