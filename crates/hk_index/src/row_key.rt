//! The names of rows.

ghost use Rattle.std.specs.Prelude.{◌≡◌};
ghost use Rattle.hk_model.specs.History.Histories.{written_key};
ghost use Rattle.hk_model.specs.History.Rows.{row_key_of};
ghost use Rattle.hk_model.proofs.Replica.Maps.{row_key_same};

use hk_model::WriteOp;
use hk_slots::Key as SlotKey;
use hk_types::{Key, Table, VersionKey};
use std::marker::Model;

/// An odd number that separates the hashes of the tables.
const TABLE_FACTOR: u64 = 0xD6E8_FEB8_6659_FD93;

/// 2^64 over the golden ratio: rising keys get hashes that are far apart.
const KEY_FACTOR: u64 = 0x9E37_79B9_7F4A_7C15;

/// A table and a key in it. Row keys are ordered by these fields.
#[derive(Clone, Copy, Debug, PartialEq, Eq, PartialOrd, Ord)]
pub struct RowKey {
    /// The table.
    pub table: Table,
    /// The key in the table.
    pub key: Key,
}

impl Model for RowKey {
    ghost use Rattle.hk_model.specs.History.Rows as rows;

    ghost Value = { rows.RowKey };

    ghost view = { λ a. record { table = a.table; key = a.key } };

    ghost inverse = { λ k. record { table = k.table; key = k.key } };
}

impl RowKey {
    /// The row key of a table and a key.
    pub fn new(table: Table, key: Key) -> RowKey
        ensures { result ≡ record { table = table; key = key } }
    {
        RowKey { table, key }
    }

    /// The row that a write is of.
    pub fn of(write: &WriteOp) -> RowKey
        ensures { result ≡ written_key write.now }
    {
        RowKey::new(write.table(), write.key())
    }

    /// The row that a version is of.
    pub fn of_version(version: &VersionKey) -> RowKey
        ensures { result ≡ row_key_of version.now }
    {
        RowKey::new(version.table, version.key)
    }
}

impl SlotKey for RowKey {
    fn hash(&self) -> u64 {
        let mixed = self.key.number() ^ (self.table.number() as u64).wrapping_mul(TABLE_FACTOR);
        (mixed ^ (mixed >> 32)).wrapping_mul(KEY_FACTOR)
    }

    ghost same = { row_key_same };

    ghost copies = { λ x y e. e };
}
