//! Reading a state at a time.

ghost use Rattle.std.specs.Prelude.{◌≡◌, ◌<◌, IfSome, IfNone, ◌==◌, length};
ghost use Rattle.std.specs.FinMap as finmap;
ghost use Rattle.hk_model.specs.Replica.Answers.{visible, rows_where};
ghost use Rattle.hk_store.specs.Facts.{IsChainAt, IsUnknown};
ghost use Rattle.hk_store.specs.Indexed.{AreKeyed, AreTagged};
ghost use Rattle.hk_store.specs.Reads.{facts_of_content};

use crate::replica::ReplicaState;
use hk_chains::{KeyIndex, TagIndex};
use hk_facts::Chain;
use hk_store::Facts;
use hk_types::{Key, Table, Time};

impl ReplicaState {
    /// The rows and the ends of all versions.
    pub fn facts(&self) -> &Facts
        ensures rows { result.now.rows ≡ self.now.rows }
        ensures ends { result.now.ends ≡ self.now.ends }
    {
        &self.facts
    }

    /// The chain of a key of a table: what is known of each of its versions, of which there is at least one.
    /// `None` where nothing is known of the key. It takes no memory. Cost: O(log k), k keys
    /// of all tables.
    pub fn chain(&self, table: Table, key: Key) -> Option<&Chain>
        ensures some { IfSome result (λ chain. IsChainAt (facts_of_content self.now) table key chain.now) }
        ensures none { IfNone result (IsUnknown (facts_of_content self.now) table key) }
        ensures filled { IfSome result (λ chain. 0 < finmap.len chain.now) }
    {
        self.facts.chain(table, key)
    }

    /// The versions whose row is known, by tag.
    pub fn tags(&self) -> TagIndex<'_>
        ensures { AreTagged (facts_of_content self.now) result }
    {
        self.facts.tags()
    }

    /// The versions of which a row or an end is known, by table and key.
    pub fn keys(&self) -> KeyIndex<'_>
        ensures { AreKeyed (facts_of_content self.now) result }
    {
        self.facts.keys()
    }

    /// How many rows of a table are visible at a time. It takes no memory. Cost: O(log n + k · log n), n facts, k
    /// keys of the table.
    pub fn count_at(&self, table: Table, time: Time) -> u64
        ensures { result ≡ length (rows_where (λ k row. k.table == table) (visible self.now time)) }
    {
        self.facts.count_at(table, time)
    }
}
