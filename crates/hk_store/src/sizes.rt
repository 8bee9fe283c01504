//! How many bytes an answer would take, before anything of it is made.

ghost use Rattle.std.specs.Prelude.{◌≡◌};
ghost use Rattle.hk_chains.specs.Reads.{rows_ranged};
ghost use Rattle.hk_chains.specs.Sizes.{answer_size};

use crate::facts::Facts;
use hk_chains::{BESIDE_ROW, answer_bytes, row_bytes};
use hk_types::{Key, Refusal, Table, Tag, Time};
use std::alloc::Global;

/// How many bytes a version counts beside its row and its end: 19 of a message, and 128 for its place in memory; and how many its end.
const BESIDE_VERSION: u64 = 147;

const END: u64 = 8;

impl Facts {
    /// How many bytes all that is held takes as a fragment: those of a message, and 128 more for each row and end, at most. It
    /// promises nothing. Cost: O(1).
    pub fn bytes_of_all(&self) -> u64 {
        let rows = self.tally.rows.saturating_mul(BESIDE_VERSION + BESIDE_ROW);
        let ends = self.tally.ends.saturating_mul(BESIDE_VERSION + END);
        rows.saturating_add(ends).saturating_add(self.tally.bytes)
    }

    /// How many bytes what is stated above a time takes as a fragment, at most. It promises nothing. The only refusal is `Memory`. Cost:
    /// O((1 + r) · log n), r keys of which anything is stated above the time, and their versions, n facts.
    pub fn bytes_above(&self, alloc: Global, base: Time) -> Result<u64, Refusal> {
        let mut bytes = 0u64;
        for (version, known) in self.stated_above(alloc, base)? {
            let row = if base < version.born {
                row_bytes(known.row())
            } else {
                0
            };
            bytes = bytes
                .saturating_add(BESIDE_VERSION + END)
                .saturating_add(row);
        }
        Ok(bytes)
    }

    /// How many bytes the rows of a table with keys from `low` to `high` that are visible at a time take in an answer, or the greatest
    /// number where that is no more. Cost: O(log n + k · log n), k keys from low to high, n facts.
    pub fn bytes_between(&self, table: Table, low: Key, high: Key, time: Time) -> u64
        ensures { result ≡ answer_size (rows_ranged self.now time table low high) }
    {
        self.chains.bytes_between(table, low, high, time)
    }

    /// How many bytes the rows of a table with a tag that are visible at a time take in an answer, at most. It promises nothing. The only
    /// refusal is `Memory`. Cost: O(k · log n), k keys that have or had a row with the tag, n facts.
    pub fn bytes_tagged(
        &self,
        alloc: Global,
        table: Table,
        tag: Tag,
        time: Time,
    ) -> Result<u64, Refusal> {
        let keys = self.tags.keys(alloc, table, tag)?;
        let mut bytes = 0u64;
        for key in keys.iter() {
            bytes = bytes.saturating_add(answer_bytes(self.shown_at(table, *key, time)));
        }
        Ok(bytes)
    }
}
