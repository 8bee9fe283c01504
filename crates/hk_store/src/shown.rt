//! The rows that show at a time, all or page by page.

ghost use Rattle.std.specs.Prelude.{◌≡◌, ◌==◌, ◌&&◌, nat_le, IfOk, IfErr};
ghost use Rattle.std.specs.Option.{option_copied};
ghost use Rattle.std.specs.FinMap as finmap;
ghost use Rattle.hk_types.specs.declared.faults.Refusal.TheVariants.{Memory};
ghost use Rattle.hk_model.specs.Replica.Answers.{visible, rows_where};
ghost use Rattle.hk_chains.specs.Paging.{IsPageWithin};
ghost use Rattle.hk_chains.specs.Reads.{with_facts, rows_ranged};

use crate::facts::Facts;
use hk_model::Page;
use hk_types::{Key, Refusal, Row, Table, Time};
use std::alloc::Global;

impl Facts {
    /// The row at a key of a table at a time. It takes no memory. Cost: O(log n), n facts.
    pub fn shown_at(&self, table: Table, key: Key, time: Time) -> Option<&Row>
        ensures { option_copied result
            ≡ finmap.get (visible (with_facts self.now) time) (record { table = table; key = key }) }
    {
        match self.chain(table, key) {
            Some(chain) => chain.at(time),
            None => None,
        }
    }

    /// Copies of the rows of a table with keys from `low` to `high`, both inside, that are visible at a time, by
    /// rising key. Where `low` is above `high` there are none. The only refusal is `Memory`. Cost:
    /// O(log n + k · log n + b), n facts, k keys from low to high of which anything is known, b bytes of the bodies
    /// that are copied.
    pub fn rows_between(
        &self,
        alloc: Global,
        table: Table,
        low: Key,
        high: Key,
        time: Time,
    ) -> Result<Vec<(Key, Row)>, Refusal>
        ensures ok { IfOk result (λ rows. rows.items ≡ rows_ranged self.now time table low high) }
        ensures err { IfErr result (λ why. why ≡ Memory) }
    {
        let rows = self.chains.rows_between(alloc, table, low, high, time)?;
        Ok(rows)
    }

    /// The page of `Chains::page`, or none where that gives up. The only refusal is `Memory`. Cost: as that.
    pub fn page(
        &self,
        alloc: Global,
        time: Time,
        table: Table,
        low: Key,
        high: Key,
        looks: Option<u64>,
        most: u32,
        room: u64,
    ) -> Result<Option<Page>, Refusal>
        ensures ok { IsPageWithin looks most room (rows_ranged self.now time table low high) result }
        ensures err { IfErr result (λ why. why ≡ Memory) }
    {
        let page = self
            .chains
            .page(alloc, table, low, high, time, most, room, looks)?;
        Ok(page)
    }
}
