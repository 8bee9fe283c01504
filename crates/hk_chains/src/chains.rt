//! The facts of a replica, as chains of versions by row.

ghost use Rattle.std.specs.Prelude.{◌≡◌, ◌==◌, ◌&&◌, nat_le, filter, length, is_some, not, ◌⊎◌, ◌↔◌, ◌<◌, IsTrue, OnOk, OnErr, IfErr, IfOk, IfSome, IfNone, Ok, Err, Some, None, ℕ};
ghost use Rattle.std.specs.Bool.{OnTrue, OnFalse};
ghost use Rattle.std.specs.Option.{option_copied};
ghost use Rattle.std.specs.FinMap as finmap;
ghost use Rattle.std.specs.List.{take_while};
ghost use Rattle.std.specs.Ordering.{is_le};
ghost use Rattle.hk_types.specs.declared.faults.Refusal.TheVariants.{Memory};
ghost use Rattle.hk_types.specs.declared.version_key.VersionKey.{VersionKey};
ghost use Rattle.hk_model.specs.History.Rows.{row_key_cmp};
ghost use Rattle.hk_model.specs.Replica.Answers.{visible, rows_where};
ghost use Rattle.hk_facts.specs.Chains.{row_at};
ghost use Rattle.hk_slots.specs.SlotMaps.{map_of};
ghost use Rattle.hk_chains.specs.Reads.{with_facts, count_rows, rows_ranged};
ghost use Rattle.hk_chains.specs.Facts.{KeepsFilled, LosesEmpty, IsChainAt, IsUnknown, no_facts, known_at, facts_put, facts_without};
ghost use Rattle.hk_chains.specs.Indexed.{IsNew, RefusesUnknown};

use crate::ranges::rows_in_range;
use hk_facts::{Chain, Fact, Part};
use hk_index::RowKey;
use hk_slots::SlotMap;
use hk_types::{Key, Refusal, Row, Table, Time, VersionKey};
use std::alloc::{AllocError, Global};
use std::marker::Model;

/// The rows and the ends of all versions: for each row the chain of its versions. No chain is empty, and of
/// each version something is known.
#[derive(Drop)]
pub struct Chains {
    pub(crate) chains: SlotMap<RowKey, Chain>,
    alloc: Global,
}

impl Model for Chains {
    ghost use Rattle.hk_model.specs.History.Rows.{row_key_cmp};
    ghost use Rattle.hk_slots.specs.SlotMaps.{map_of};
    ghost use Rattle.hk_chains.specs.Facts.{FactsValue, facts_code, facts_of, AreStored};

    ghost Value = { FactsValue };

    ghost coded = { facts_code };

    ghost view = { λ a. facts_of (map_of row_key_cmp a.chains) };

    ghost invariant = { λ a. AreStored (map_of row_key_cmp a.chains) };
}

/// How much is removed with a part of a version: rows, the bytes of their bodies, and ends.
#[derive(Drop)]
pub struct Lost {
    pub rows: u64,
    pub bytes: u64,
    pub ends: u64,
}

impl Chains {
    /// No facts. It takes no memory.
    pub fn new(alloc: Global) -> Chains
        ensures { result ≡ no_facts }
    {
        Chains {
            chains: SlotMap::new(alloc),
            alloc,
        }
    }

    /// The allocator that the facts grow by.
    pub fn allocator(&self) -> Global {
        self.alloc
    }

    /// The chain of a key of a table. Cost: O(log k), k keys of all tables.
    pub fn chain(&self, table: Table, key: Key) -> Option<&Chain>
        ensures some { IfSome result (λ chain. IsChainAt self.now table key chain.now) }
        ensures none { IfNone result (IsUnknown self.now table key) }
        ensures filled { IfSome result (λ chain. 0 < finmap.len chain.now) }
    {
        self.chains.get(RowKey::new(table, key))
    }

    /// The row of a version, where it is known. Cost: O(log n), n facts.
    pub fn row_at(&self, version: &VersionKey) -> Option<&Row>
        ensures { option_copied result ≡ finmap.get self.now.rows version.now }
    {
        let chain = self.chain(version.table, version.key)?;
        let known = chain.version(version.born)?;
        known.row()
    }

    /// The end of a version, where it is known. Cost: O(log n), n facts.
    pub fn end_at(&self, version: &VersionKey) -> Option<Time>
        ensures { result ≡ finmap.get self.now.ends version.now }
    {
        let chain = self.chain(version.table, version.key)?;
        let known = chain.version(version.born)?;
        known.died()
    }

    /// Whether anything is known of a version. Cost: O(log n), n facts.
    pub fn knows(&self, version: &VersionKey) -> bool
        ensures { result ≡ is_some (known_at self.now version.now) }
    {
        match self.chain(version.table, version.key) {
            Some(chain) => chain.version(version.born).is_some(),
            None => false,
        }
    }

    /// Adds a fact of a version, and returns whether nothing like it was known. One that is known already changes
    /// nothing, and one that differs from what is known is a conflict. `Memory` comes only where nothing is known of the
    /// version. A refusal changes nothing. Cost: O(log n + b), n facts, b bytes of a body that is compared.
    #[inline(always)]
    pub fn put(&mut self, version: &VersionKey, fact: Fact) -> Result<bool, Refusal>
        ensures ok { OnOk result (facts_put self.old version.now fact ≡ Ok self.new) }
        ensures new { IfOk result (λ is. OnTrue is (IsNew self.old version.now fact)) }
        ensures known { IfOk result (λ is. OnFalse is (self.new ≡ self.old)) }
        ensures err { IfErr result (λ why. RefusesUnknown self.old version.now fact why) }
        ensures kept { OnErr result (self.new ≡ self.old) }
    {
        let row = RowKey::of_version(version);
        let chain = self.chains.get_or_insert(row, Chain::new(self.alloc))?;
        match chain.put(version.born, fact) {
            Ok(is_new) => Ok(is_new),
            Err(why) => {
                remove_if_empty(&mut self.chains, row);
                Err(why)
            }
        }
    }

    /// Removes a part of a version, its row or its end or both, where it is known, and returns how much was removed, which
    /// promises nothing. Cost: O(log n), n facts.
    pub fn forget(&mut self, version: &VersionKey, part: Part) -> Lost
        ensures { self.new ≡ facts_without self.old version.now part }
    {
        let row = RowKey::of_version(version);
        let Some(chain) = self.chains.get_mut(row) else {
            return Lost {
                rows: 0,
                bytes: 0,
                ends: 0,
            };
        };
        let lost = lost_of(chain, version.born, part);
        chain.forget(version.born, part);
        if !chain.is_empty() {
            return lost;
        }
        self.chains.remove(row);
        lost
    }

    /// How many rows of a table are visible at a time. It takes no memory. Cost: O(log n + k · log n), n facts, k
    /// keys of the table.
    pub fn count_at(&self, table: Table, time: Time) -> usize
        ensures { result ≡ length (rows_where
            (λ k row. k.table == table) (visible (with_facts self.now) time)) }
    {
        count_from(&self.chains, RowKey::new(table, Key::new(0)), time)
    }

    /// Copies of the rows of a table with keys from `low` to `high`, both inside, that are visible at a time, by
    /// rising key. Where `low` is above `high` there are none. The only error is out of memory. Cost:
    /// O(log n + k · log n + b), n facts, k keys from low to high of which anything is known, b bytes of the bodies
    /// that are copied.
    pub fn rows_between(
        &self,
        alloc: Global,
        table: Table,
        low: Key,
        high: Key,
        time: Time,
    ) -> Result<Vec<(Key, Row)>, AllocError>
        ensures { IfOk result (λ rows. rows.items ≡ rows_ranged self.now time table low high) }
    {
        if high < low {
            return Ok(Vec::new(alloc));
        }
        let first = RowKey::new(table, low);
        let last = RowKey::new(table, high);
        rows_in_range(alloc, &self.chains, first, last, time)
    }

    /// The same facts again. The only error is out of memory. Cost: O(n + b), n facts, b bytes of bodies, all copied;
    /// in a chain of more than 32 versions O(log v) for each of the v.
    pub fn copy(&self, alloc: Global) -> Result<Chains, AllocError>
        ensures { IfOk result (λ facts. facts ≡ self.now) }
    {
        let chains = self.chains.copy()?;
        Ok(Chains { chains, alloc })
    }
}

/// Removes a row's chain where it is empty.
fn remove_if_empty(chains: &mut SlotMap<RowKey, Chain>, row: RowKey)
    ensures kept { KeepsFilled (map_of row_key_cmp chains.old) row (map_of row_key_cmp chains.new) }
    ensures gone { LosesEmpty (map_of row_key_cmp chains.old) row (map_of row_key_cmp chains.new) }
{
    let Some(chain) = chains.get(row) else {
        return;
    };
    if chain.is_empty() {
        chains.remove(row);
    }
}

/// How much is removed with a part of the version that was born then.
fn lost_of(chain: &Chain, born: Time, part: Part) -> Lost {
    let known = chain.version(born);
    let row = known.and_then(|version| version.row());
    let row = if part == Part::End { None } else { row };
    let end = known.and_then(|version| version.died());
    Lost {
        rows: row.is_some() as u64,
        bytes: row.map_or(0, |row| row.body().len() as u64),
        ends: (end.is_some() && part != Part::Row) as u64,
    }
}

/// How many chains of a table have a row at a time, of those from a row on.
fn count_from(chains: &SlotMap<RowKey, Chain>, first: RowKey, time: Time) -> usize
    ensures { result ≡ count_rows first time (finmap.entries (map_of row_key_cmp chains.now)) }
{
    chains
        .range(first..)
        .take_while(|(row, _chain)| row.table == first.table)
        .filter(|(_row, chain)| chain.at(time).is_some())
        .count()
}
