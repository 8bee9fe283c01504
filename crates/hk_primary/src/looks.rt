//! What a commit looks up.

ghost use Rattle.std.specs.Prelude.{◌≡◌, unwrap_or};
ghost use Rattle.hk_model.specs.History.Commits.{first_absent, last_written};
ghost use Rattle.hk_model.specs.History.Histories.{commits, tables_of};
ghost use Rattle.hk_primary.specs.Looks.{IsLatest, conflict_of, removes_none, put_time_of_row};
ghost use Rattle.hk_primary.specs.Txns.{writes_in};

use crate::primary::Primary;
use crate::txn::Txn;
use hk_index::RowKey;
use hk_log::Version;
use hk_model::WriteOp;
use hk_store::Facts;
use hk_types::Time;

/// Of the versions of a row that were born up to a time, the one born last: its birth, and its end if it has
/// one.
fn latest(facts: &Facts, upto: Time, key: RowKey) -> Option<(Time, Option<Time>)>
    ensures { IsLatest facts.now upto key result }
{
    let chain = facts.chain(key.table, key.key)?;
    match chain.latest(upto) {
        Some(version) => Some(span(version)),
        None => None,
    }
}

/// The birth of a version, and its end if it has one.
fn span(version: (Time, &Version)) -> (Time, Option<Time>)
    ensures { result ≡ (version.entry.0, version.entry.1.now.died) }
{
    (version.0, version.1.died())
}

/// When a version was last written: at its end, or else at its birth.
fn written(span: (Time, Option<Time>)) -> Time
    ensures { result ≡ unwrap_or span.1 span.0 }
{
    span.1.unwrap_or(span.0)
}

impl Primary {
    /// The time of the last commit that wrote a row, 0 where none did. It takes no memory. Cost: O(log n),
    /// n versions.
    pub(crate) fn written_at(&self, key: RowKey) -> Time
        ensures { result ≡ last_written (commits self.now.history) key }
    {
        match latest(&self.facts, self.newest, key) {
            Some(span) => written(span),
            None => Time::zero(),
        }
    }

    /// The time of the commit that put the row that is there now, if one is there. It takes no memory. Cost:
    /// O(log n), n versions.
    pub(crate) fn put_at(&self, key: RowKey) -> Option<Time>
        ensures { result ≡ put_time_of_row (commits self.now.history) key }
    {
        let (born, died) = latest(&self.facts, self.newest, key)?;
        if died.is_some() {
            return None;
        }
        Some(born)
    }

    /// The first key that a transaction writes and that a later commit than its read time wrote, with the time
    /// of the last such commit.
    pub(crate) fn first_conflict(&self, txn: &Txn) -> Option<(RowKey, Time)>
        ensures { result ≡ conflict_of (commits self.now.history) txn.now }
    {
        let read_at = txn.read_at();
        for write in txn.writes() {
            let key = RowKey::of(write);
            let at = self.written_at(key);
            if read_at < at {
                return Some((key, at));
            }
        }
        None
    }

    /// The first key that a transaction removes and that has no row.
    pub(crate) fn first_absent(&self, txn: &Txn) -> Option<RowKey>
        ensures { result ≡ first_absent (tables_of (commits self.now.history)) (writes_in txn.now) }
    {
        for write in txn.writes() {
            if self.is_absent(write) {
                return Some(RowKey::of(write));
            }
        }
        None
    }

    /// Whether a write removes a row that is not there.
    fn is_absent(&self, write: &WriteOp) -> bool
        ensures { result ≡ removes_none (tables_of (commits self.now.history)) write.now }
    {
        match write {
            WriteOp::Put { .. } => false,
            WriteOp::Remove { table, key } => self.put_at(RowKey::new(*table, *key)).is_none(),
        }
    }
}
