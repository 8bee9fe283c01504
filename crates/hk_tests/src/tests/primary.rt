//! A primary of log 7 with two streams, and a run of a world. What transactions, primaries and worlds return is shown
//! by scripts (examples/world, tests/scripts); here are the calls that no script makes.

mod committing;
mod sharing;
mod worlds;

use crate::tests::values::row;
use hk_primary::Txn;
use hk_types::{Key, Refusal, Table, Time};
use std::alloc::Global;

/// A transaction that reads at the start, and puts a row of one byte at a key of table 1.
fn transaction(alloc: Global, key: u64, byte: u8) -> Result<Txn, Refusal> {
    let mut txn = Txn::at(alloc, Time::zero());
    match txn.put(Table::new(1), Key::new(key), row(alloc, &[byte])?) {
        Ok(()) => Ok(txn),
        Err((_row, why)) => Err(why),
    }
}
