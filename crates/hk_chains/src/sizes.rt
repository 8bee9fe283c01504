//! How many bytes rows would take in an answer, before anything of it is made.

ghost use Rattle.std.specs.Prelude.{◌≡◌, false};
ghost use Rattle.std.specs.Option.{option_copied};
ghost use Rattle.std.specs.Ordering.{is_gt};
ghost use Rattle.std.specs.FinMap as finmap;
ghost use Rattle.hk_model.specs.History.Rows.{row_key_cmp};
ghost use Rattle.hk_slots.specs.SlotMaps.{map_of};
ghost use Rattle.hk_chains.specs.Reads.{rows_from_to, rows_ranged};
ghost use Rattle.hk_chains.specs.Sizes.{answer_size, size_if};

use crate::chains::Chains;
use hk_facts::Chain;
use hk_index::RowKey;
use hk_slots::SlotMap;
use hk_types::{Key, Row, Table, Time};

/// How many bytes a row has in a message beside its body, at most.
pub const BESIDE_ROW: u64 = 14;

/// How many bytes a row of an answer counts for its place in memory.
const PLACE: u64 = 64;

/// How many bytes a row has in a message, at most.
pub fn row_bytes(row: Option<&Row>) -> u64 {
    match row {
        Some(row) => BESIDE_ROW.saturating_add(row.body().len() as u64),
        None => 0,
    }
}

/// How many bytes a row takes in an answer, at most: none where there is no row.
pub fn answer_bytes(row: Option<&Row>) -> u64
    ensures { result ≡ size_if (option_copied row.entry) }
{
    match row {
        Some(row) => BESIDE_ROW + PLACE + row.body().len() as u64,
        None => 0,
    }
}

/// How many bytes the rows that the chains from a first to a last row have at a time take in an answer.
fn bytes_in_range(chains: &SlotMap<RowKey, Chain>, first: RowKey, last: RowKey, time: Time) -> u64
    requires { is_gt (row_key_cmp first last) ≡ false }
    ensures { result ≡ answer_size (rows_from_to time first last (finmap.entries (map_of row_key_cmp chains.now))) }
{
    let mut bytes = 0u64;
    for (_row, chain) in chains.range(first..=last) {
        bytes = bytes.saturating_add(answer_bytes(chain.at(time)));
    }
    bytes
}

impl Chains {
    /// How many bytes the rows of a table with keys from `low` to `high` that are visible at a time take in an answer, or the greatest
    /// number where that is no more. Cost: O(log n + k · log n), k keys from low to high, n facts.
    pub fn bytes_between(&self, table: Table, low: Key, high: Key, time: Time) -> u64
        ensures { result ≡ answer_size (rows_ranged self.now time table low high) }
    {
        if high < low {
            return 0;
        }
        let first = RowKey::new(table, low);
        let last = RowKey::new(table, high);
        bytes_in_range(&self.chains, first, last, time)
    }
}
