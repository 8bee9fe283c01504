//! The facts of a replica, with the indexes of their versions.

ghost use Rattle.std.specs.Prelude.{◌≡◌, ◌==◌, ◌++◌, ◌∷◌, [], length, true, is_some, ◌⊎◌, ◌<◌, OnOk, OnErr, IfErr, IfOk, IfSome, IfNone, Ok, Err, Some, None, ℕ};
ghost use Rattle.std.specs.Bool.{OnTrue, OnFalse};
ghost use Rattle.std.specs.Option.{option_copied};
ghost use Rattle.std.specs.FinMap as finmap;
ghost use Rattle.std.specs.FinSet as set;
ghost use Rattle.hk_types.specs.declared.faults.Refusal.TheVariants.{Memory};
ghost use Rattle.hk_types.specs.declared.version_key.VersionKey.{VersionKey};
ghost use Rattle.hk_facts.specs.declared.fact.Fact.TheVariants.{Row as RowFact, End as EndFact};
ghost use Rattle.hk_model.specs.Replica.Answers.{visible, rows_where};
ghost use Rattle.hk_chains.specs.Reads.{with_facts};
ghost use Rattle.hk_chains.specs.Facts.{IsChainAt, IsUnknown, no_facts, known_at, facts_put, facts_without};
ghost use Rattle.hk_store.specs.Undos.{rolled_back};
ghost use Rattle.hk_index.specs.Tags.{StillListed, is_listed};
ghost use Rattle.hk_chains.specs.Indexed.{AreTagged, AreKeyed, IsNew, RefusesNew, birth_of};

use crate::undo::Undo;
use hk_chains::{Chains, KeyIndex, TagIndex, Tally, keys_by_tag, rows_by_time};
use hk_facts::{Chain, Fact, Part};
use hk_index::{RowKey, TagKeys, TimedRows};
use hk_types::{Key, Refusal, Row, Table, Tag, Time, VersionKey};
use std::alloc::Global;
use std::marker::Model;

/// The rows and the ends of all versions, with lists of the keys that have a row with a tag, and of the keys of which anything is
/// stated at a time: those of which a version is known to be born then, or to end then, and others besides.
pub struct Facts {
    pub(crate) chains: Chains,
    pub(crate) tags: TagKeys,
    pub(crate) stated: TimedRows,
    /// No end before this time is known.
    pub(crate) first_end: u64,
    /// A list for the next undo, with nothing in it that counts.
    pub(crate) spare: Undo,
    /// How much is held.
    pub(crate) tally: Tally,
}

// Written out, so that a crate above which drops one sees one call, and not all that it holds.
impl Drop for Facts {
    fn drop(self) {
        let Facts {
            chains,
            tags,
            stated,
            first_end: _,
            spare,
            tally: _,
        } = self;
        drop(chains);
        drop(tags);
        drop(stated);
        drop(spare);
    }
}

impl Model for Facts {
    ghost use Rattle.hk_chains.specs.Facts.{FactsValue, facts_code};
    ghost use Rattle.hk_chains.specs.Indexed.{AreIndexed};

    ghost Value = { FactsValue };

    ghost coded = { facts_code };

    ghost view = { λ a. a.chains };

    ghost invariant = { λ a. AreIndexed a.chains a.tags a.stated a.first_end };
}

impl Facts {
    /// No facts. It takes no memory.
    pub fn new(alloc: Global) -> Facts
        ensures { result ≡ no_facts }
    {
        Facts {
            chains: Chains::new(alloc),
            tags: TagKeys::new(alloc),
            stated: TimedRows::new(alloc),
            first_end: u64::MAX,
            spare: Undo::new(alloc),
            tally: Tally::none(),
        }
    }

    /// How much is held. Cost: O(1).
    pub fn tally(&self) -> Tally {
        self.tally
    }

    /// The allocator that the facts grow by.
    pub(crate) fn allocator(&self) -> Global {
        self.chains.allocator()
    }

    /// The versions whose row is known, by tag.
    pub fn tags(&self) -> TagIndex<'_>
        ensures { AreTagged self.now result }
    {
        TagIndex::of(&self.chains, &self.tags)
    }

    /// The versions of which a row or an end is known, by table and key.
    pub fn keys(&self) -> KeyIndex<'_>
        ensures { AreKeyed self.now result }
    {
        KeyIndex::of(&self.chains)
    }

    /// The chain of a key of a table. Cost: O(log k), k keys of all tables.
    pub fn chain(&self, table: Table, key: Key) -> Option<&Chain>
        ensures some { IfSome result (λ chain. IsChainAt self.now table key chain.now) }
        ensures none { IfNone result (IsUnknown self.now table key) }
        ensures filled { IfSome result (λ chain. 0 < finmap.len chain.now) }
    {
        self.chains.chain(table, key)
    }

    /// The row of a version, where it is known. Cost: O(log n), n facts.
    pub fn row_at(&self, version: &VersionKey) -> Option<&Row>
        ensures { option_copied result ≡ finmap.get self.now.rows version.now }
    {
        self.chains.row_at(version)
    }

    /// The end of a version, where it is known. Cost: O(log n), n facts.
    pub fn end_at(&self, version: &VersionKey) -> Option<Time>
        ensures { result ≡ finmap.get self.now.ends version.now }
    {
        self.chains.end_at(version)
    }

    /// Whether anything is known of a version. Cost: O(log n), n facts.
    pub fn knows(&self, version: &VersionKey) -> bool
        ensures { result ≡ is_some (known_at self.now version.now) }
    {
        self.chains.knows(version)
    }

    /// How many rows of a table are visible at a time. It takes no memory. Cost: O(log n + k · log n), n facts, k
    /// keys of the table.
    pub fn count_at(&self, table: Table, time: Time) -> u64
        ensures { result ≡ length (rows_where
            (λ k row. k.table == table) (visible (with_facts self.now) time)) }
    {
        self.chains.count_at(table, time) as u64
    }

    /// Adds a fact of a version, and returns whether nothing like it was known; then it is noted for being taken back. One
    /// that is known already changes nothing, and one that differs from what is known is refused `Conflict`. `Memory` comes
    /// only where nothing like it is known of the version. A refusal changes nothing. Cost: O(log n + b), n facts, b bytes
    /// of a body that is compared: one that is new is moved.
    #[inline(always)]
    pub fn put(
        &mut self,
        undo: &mut Undo,
        version: &VersionKey,
        fact: Fact,
    ) -> Result<bool, Refusal>
        ensures ok { OnOk result (facts_put self.old version.now fact ≡ Ok self.new) }
        ensures new { IfOk result (λ is. OnTrue is (IsNew self.old version.now fact)) }
        ensures known { IfOk result (λ is. OnFalse is (self.new ≡ self.old)) }
        ensures err { IfErr result (λ why. RefusesNew self.old version.now fact why) }
        ensures kept { OnErr result (self.new ≡ self.old) }
        ensures back { rolled_back undo.new self.new ≡ rolled_back undo.old self.old }
    {
        match fact {
            Fact::Row(row) => self.put_row(undo, version, row),
            Fact::End(died) => self.put_end(undo, version, died),
        }
    }

    #[inline(always)]
    fn put_row(&mut self, undo: &mut Undo, version: &VersionKey, row: Row) -> Result<bool, Refusal>
        ensures ok { OnOk result (facts_put self.old version.now (RowFact row) ≡ Ok self.new) }
        ensures new { IfOk result (λ is. OnTrue is (IsNew self.old version.now (RowFact row))) }
        ensures known { IfOk result (λ is. OnFalse is (self.new ≡ self.old)) }
        ensures err { IfErr result (λ why. RefusesNew self.old version.now (RowFact row) why) }
        ensures kept { OnErr result (self.new ≡ self.old) }
        ensures back { rolled_back undo.new self.new ≡ rolled_back undo.old self.old }
    {
        let (tag, bytes) = (row.tag(), row.body().len());
        if !self.chains.put(version, Fact::Row(row))? {
            return Ok(false);
        }
        if let Err(why) = list_row(&mut self.tags, &mut self.stated, version, tag) {
            self.chains.forget(version, Part::Row);
            return Err(why);
        }
        self.tally.add_row(bytes);
        self.note(undo, version, Part::Row)
    }

    #[inline(always)]
    fn put_end(
        &mut self,
        undo: &mut Undo,
        version: &VersionKey,
        died: Time,
    ) -> Result<bool, Refusal>
        ensures ok { OnOk result (facts_put self.old version.now (EndFact died) ≡ Ok self.new) }
        ensures new { IfOk result (λ is. OnTrue is (IsNew self.old version.now (EndFact died))) }
        ensures known { IfOk result (λ is. OnFalse is (self.new ≡ self.old)) }
        ensures err { IfErr result (λ why. RefusesNew self.old version.now (EndFact died) why) }
        ensures kept { OnErr result (self.new ≡ self.old) }
        ensures back { rolled_back undo.new self.new ≡ rolled_back undo.old self.old }
    {
        if !self.chains.put(version, Fact::End(died))? {
            return Ok(false);
        }
        if let Err(why) = self.stated.add(died, RowKey::of_version(version)) {
            self.chains.forget(version, Part::End);
            return Err(why);
        }
        self.first_end = self.first_end.min(died.number());
        self.tally.add_end();
        self.note(undo, version, Part::End)
    }

    /// Notes what was added, or removes it where memory for the note was refused.
    #[inline(always)]
    fn note(&mut self, undo: &mut Undo, version: &VersionKey, part: Part) -> Result<bool, Refusal>
        ensures told { IfOk result (λ is. is ≡ true) }
        ensures noted { OnOk result (undo.new ≡ undo.old ++ (version.now, part) ∷ []) }
        ensures stays { OnOk result (self.new ≡ self.old) }
        ensures err { IfErr result (λ why. why ≡ Memory) }
        ensures same { OnErr result (undo.new ≡ undo.old) }
        ensures back { OnErr result (self.new ≡ facts_without self.old version.now part) }
    {
        if undo.note(version, part).is_err() {
            self.forget(version, part);
            return Err(Refusal::Memory);
        }
        Ok(true)
    }

    /// Removes a part of a version, its row or its end or both, where it is known. Cost: O(log n), amortized, n facts.
    pub fn forget(&mut self, version: &VersionKey, part: Part)
        ensures { self.new ≡ facts_without self.old version.now part }
    {
        let lost = self.chains.forget(version, part);
        self.tally.lose(&lost);
        self.tags.note_gone(lost.rows);
        self.stated.note_gone(lost.rows.saturating_add(lost.ends));
        self.tidy_tags();
        self.tidy_stated();
    }

    /// Notes that no end up to a time is known, so that none is looked for there. Cost: O(1).
    pub fn note_ends_above(&mut self, time: Time)
        requires { (v : VersionKey) (died : ℕ) → finmap.get self.old.ends v ≡ Some died → time < died }
        ensures { self.new ≡ self.old }
    {
        self.first_end = self.first_end.max(time.number() + 1);
    }

    /// Lists the keys by tag anew, where many are listed in vain and there is memory for it.
    pub(crate) fn tidy_tags(&mut self)
        ensures { self.new ≡ self.old }
    {
        if !self.tags.is_worn() {
            return;
        }
        if let Ok(tags) = keys_by_tag(self.chains.allocator(), &self.chains) {
            self.tags = tags;
        }
    }

    /// Lists them anew by time, where many are listed in vain and there is memory for it.
    pub(crate) fn tidy_stated(&mut self)
        ensures { self.new ≡ self.old }
    {
        if !self.stated.is_worn() {
            return;
        }
        if let Ok(stated) = rows_by_time(self.chains.allocator(), &self.chains) {
            self.stated = stated;
        }
    }
}

/// Lists a version's key by its tag, and by the time of its birth.
#[inline(always)]
fn list_row(
    tags: &mut TagKeys,
    stated: &mut TimedRows,
    version: &VersionKey,
    tag: Tag,
) -> Result<(), Refusal>
    ensures listed { OnOk result (is_listed tags.new version.now.table tag version.now.key ≡ true) }
    ensures kept { StillListed tags.old tags.new }
    ensures stated { OnOk result (stated.new ≡ set.insert stated.old (birth_of version.now)) }
    ensures err { IfErr result (λ why. why ≡ Memory) }
    ensures unstated { OnErr result (stated.new ≡ stated.old) }
{
    tags.add(version.table, tag, version.key)?;
    stated.add(version.born, RowKey::of_version(version))
}
