//! Writes.

ghost use Rattle.std.specs.Prelude.{◌≡◌, IfOk};
ghost use Rattle.hk_model.specs.History.Histories.{written_key};

use hk_types::{Key, Row, Table};
use std::alloc::{AllocError, Global};

/// A write of a transaction.
#[derive(Debug, PartialEq, Eq, Drop)]
pub enum WriteOp {
    /// Puts a row at a key, in place of the one that is there, if one is.
    Put { table: Table, key: Key, row: Row },
    /// Removes the row at a key.
    Remove { table: Table, key: Key },
}

impl WriteOp {
    /// The table that is written.
    pub fn table(&self) -> Table
        ensures { result ≡ (written_key self.now).table }
    {
        match self {
            WriteOp::Put { table, .. } => *table,
            WriteOp::Remove { table, .. } => *table,
        }
    }

    /// The key that is written.
    pub fn key(&self) -> Key
        ensures { result ≡ (written_key self.now).key }
    {
        match self {
            WriteOp::Put { key, .. } => *key,
            WriteOp::Remove { key, .. } => *key,
        }
    }

    /// The same write again. The only error is out of memory. Cost: O(n), n bytes of the body.
    pub fn copy(&self, alloc: Global) -> Result<WriteOp, AllocError>
        ensures { IfOk result (λ write. write ≡ self.now) }
    {
        match self {
            WriteOp::Put { table, key, row } => Ok(WriteOp::Put {
                table: *table,
                key: *key,
                row: row.copy(alloc)?,
            }),
            WriteOp::Remove { table, key } => Ok(WriteOp::Remove {
                table: *table,
                key: *key,
            }),
        }
    }
}
