//! Transactions.

ghost use Rattle.std.specs.Prelude.{◌≡◌, ◌≤◌, ◌==◌, OnOk, OnErr, IfErr, None};
ghost use Rattle.std.specs.FinMap as finmap;
ghost use Rattle.hk_model.specs.declared.write_op.WriteOp.TheVariants.{Put, Remove};
ghost use Rattle.hk_primary.specs.Txns.{AreWrites, IsRefusal, no_writes, with_write, write_refused};

use hk_index::RowKey;
use hk_log::MOST_WRITES;
use hk_model::WriteOp;
use hk_types::{Key, Refusal, Row, Table, Time};
use std::alloc::Global;
use std::collections::BTreeMap;
use std::collections::btree_map::Values;
use std::marker::Model;

/// A transaction that is being built: the time at which it reads, and its writes, at most `MOST_WRITES` and
/// at most one of a key. What it writes is seen by nobody until a primary commits it.
#[derive(Drop)]
pub struct Txn {
    read_at: Time,
    writes: BTreeMap<RowKey, WriteOp>,
}

impl Model for Txn {
    ghost use Rattle.std.specs.FinMap as finmap;
    ghost use Rattle.hk_model.specs.History.Rows.{row_key_cmp};
    ghost use Rattle.hk_primary.specs.Txns.{AreWrites, TxnValue, txn_code};

    ghost Value = { TxnValue };

    ghost coded = { txn_code };

    ghost view = { λ a. record { read_at = a.read_at; writes = finmap.from_entries a.writes.entries } };

    ghost invariant = { λ a. AreWrites (finmap.from_entries a.writes.entries) };
}

impl Txn {
    /// A transaction with no writes that reads at a time. It takes no memory; its writes grow by `alloc`.
    pub fn at(alloc: Global, read_at: Time) -> Txn
        ensures { result ≡ no_writes read_at }
    {
        Txn {
            read_at,
            writes: BTreeMap::new(alloc),
        }
    }

    /// The time at which it reads.
    pub fn read_at(&self) -> Time
        ensures value { result ≡ self.now.read_at }
        ensures lawful { AreWrites self.now.writes }
    {
        self.read_at
    }

    /// The writes, by rising table and key.
    pub fn writes(&self) -> Values<'_, RowKey, WriteOp>
        ensures value { result ≡ finmap.values self.now.writes }
        ensures lawful { AreWrites self.now.writes }
    {
        self.writes.values()
    }

    /// The number of writes, at most `MOST_WRITES`.
    pub fn len(&self) -> usize
        ensures value { result ≡ finmap.len self.now.writes }
        ensures bound { result ≤ 1024 }
    {
        self.writes.len()
    }

    /// Whether there are no writes.
    pub fn is_empty(&self) -> bool
        ensures { result ≡ (finmap.len self.now.writes == 0) }
    {
        self.len() == 0
    }

    /// Why another write of a key is refused, if it is.
    fn refusal(&self, key: RowKey) -> Option<Refusal>
        ensures { result ≡ write_refused self.now key }
    {
        if self.writes.contains_key(&key) {
            return Some(Refusal::TwiceWritten);
        }
        if self.writes.len() >= MOST_WRITES {
            return Some(Refusal::TooManyWrites);
        }
        None
    }

    /// Puts a row at a key, in place of the one that is there, if one is.
    ///
    /// A key that the transaction wrote already is refused `TwiceWritten`, one more than `MOST_WRITES` writes
    /// `TooManyWrites`, and then comes `Memory` where a growth was refused. A refusal hands the row back and
    /// changes nothing. Cost: O(log w), w writes.
    pub fn put(&mut self, table: Table, key: Key, row: Row) -> Result<(), (Row, Refusal)>
        ensures done { OnOk result (self.new ≡ with_write self.old (Put table key row)) }
        ensures accepted { OnOk result (write_refused self.old (record { table = table; key = key }) ≡ None) }
        ensures refused { IfErr result
            (λ e. IsRefusal (write_refused self.old (record { table = table; key = key })) e.1) }
        ensures kept { OnErr result (self.new ≡ self.old) }
        ensures back { IfErr result (λ e. e.0 ≡ row) }
    {
        let place = RowKey::new(table, key);
        if let Some(why) = self.refusal(place) {
            return Err((row, why));
        }
        match self.writes.insert(place, WriteOp::Put { table, key, row }) {
            Ok(_) => Ok(()),
            Err(failed) => match failed.value.1 {
                WriteOp::Put { row, .. } => Err((row, Refusal::Memory)),
                WriteOp::Remove { .. } => unreachable!(),
            },
        }
    }

    /// Removes the row at a key, which must be there when the transaction commits.
    ///
    /// It is refused as `put` is, and a refusal changes nothing. Cost: that of `put`.
    pub fn remove(&mut self, table: Table, key: Key) -> Result<(), Refusal>
        ensures done { OnOk result (self.new ≡ with_write self.old (Remove table key)) }
        ensures accepted { OnOk result (write_refused self.old (record { table = table; key = key }) ≡ None) }
        ensures refused { IfErr result
            (λ e. IsRefusal (write_refused self.old (record { table = table; key = key })) e) }
        ensures kept { OnErr result (self.new ≡ self.old) }
    {
        let place = RowKey::new(table, key);
        if let Some(why) = self.refusal(place) {
            return Err(why);
        }
        self.writes.insert(place, WriteOp::Remove { table, key })?;
        Ok(())
    }
}
