//! The entries of transactions.

ghost use Rattle.std.specs.Prelude.{◌≡◌, ◌++◌, ◌∷◌, [], IfOk, OnOk};
ghost use Rattle.std.specs.List.{filter_map};
ghost use Rattle.hk_model.specs.History.Histories.{Follows, commits, put_row, written_key};
ghost use Rattle.hk_primary.specs.Calls.{next_entry};
ghost use Rattle.hk_primary.specs.Looks.{ended_by_all, put_time_of_row, version_born};
ghost use Rattle.hk_primary.specs.Txns.{committed_at, writes_in};

use crate::primary::Primary;
use crate::txn::Txn;
use hk_index::RowKey;
use hk_log::Entry;
use hk_model::WriteOp;
use hk_types::{Key, Row, StreamNo, Table, Time, VersionKey};
use std::alloc::{AllocError, Global};

/// Adds the version of a row that was born then, if any was.
fn push_end(ends: &mut Vec<VersionKey>, key: RowKey, born: Option<Time>) -> Result<(), AllocError>
    ensures { OnOk result (ends.new.items ≡ ends.old.items ++ version_born key born) }
{
    if let Some(born) = born {
        ends.push(VersionKey {
            table: key.table,
            key: key.key,
            born,
        })?;
    }
    Ok(())
}

/// Adds a copy of the row that a write puts in, if it puts one in.
fn push_row(
    alloc: Global,
    rows: &mut Vec<(Table, Key, Row)>,
    write: &WriteOp,
) -> Result<(), AllocError>
    ensures { OnOk result (rows.new.items ≡ rows.old.items ++ filter_map put_row (write.now ∷ [])) }
{
    if let WriteOp::Put { table, key, row } = write {
        rows.push((*table, *key, row.copy(alloc)?))?;
    }
    Ok(())
}

/// Copies of the rows that a transaction puts in.
fn rows_of(alloc: Global, txn: &Txn) -> Result<Vec<(Table, Key, Row)>, AllocError>
    ensures { IfOk result (λ rows. rows.items ≡ filter_map put_row (writes_in txn.now)) }
{
    let mut rows = Vec::new(alloc);
    for write in txn.writes() {
        push_row(alloc, &mut rows, write)?;
    }
    Ok(rows)
}

impl Primary {
    /// The versions that a transaction ends.
    fn ends_of(&self, txn: &Txn) -> Result<Vec<VersionKey>, AllocError>
        ensures { IfOk result (λ ends. ends.items ≡ ended_by_all (commits self.now.history) (writes_in txn.now)) }
    {
        let mut ends = Vec::new(self.alloc);
        for write in txn.writes() {
            push_end(&mut ends, RowKey::of(write), self.ended_at(write))?;
        }
        Ok(ends)
    }

    /// When the row that a write ends was put in, if it ends one.
    fn ended_at(&self, write: &WriteOp) -> Option<Time>
        ensures { result ≡ put_time_of_row (commits self.now.history) (written_key write.now) }
    {
        self.put_at(RowKey::of(write))
    }

    /// The entry of a transaction that may follow.
    pub(crate) fn entry_of(
        &self,
        txn: &Txn,
        stream: StreamNo,
        time: Time,
    ) -> Result<Entry, AllocError>
        requires { Follows self.now.config (commits self.now.history) (committed_at txn.now stream time) }
        ensures { IfOk result (λ entry. entry ≡ next_entry self.now (committed_at txn.now stream time)) }
    {
        let ends = self.ends_of(txn)?;
        let rows = rows_of(self.alloc, txn)?;
        let number = self.count_of(stream) + 1;
        Ok(Entry::of_parts(self.config.log(), stream, number, time, ends, rows))
    }
}
