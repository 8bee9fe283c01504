//! Facts that go, and others that come.

ghost use Rattle.std.specs.Prelude.{◌≡◌, ◌||◌, OnOk, OnErr, IfOk, IfErr};
ghost use Rattle.std.specs.List.{list_any};
ghost use Rattle.std.specs.FinMap as finmap;
ghost use Rattle.std.specs.FinSet as set;
ghost use Rattle.hk_types.specs.declared.faults.Refusal.TheVariants.{Memory};
ghost use Rattle.hk_model.specs.Replica.Maps.{union};
ghost use Rattle.hk_store.specs.Changes.{with_listed, facts_after_replace, meets, with_rows, with_ends};
ghost use Rattle.hk_chains.specs.Facts.{FactsValue};
ghost use Rattle.hk_store.specs.Undos.{rolled_back};

use crate::facts::Facts;
use crate::undo::Undo;
use hk_facts::Fact;
use hk_index::VersionSet;
use hk_types::{Refusal, Row, Time, VersionKey};
use std::alloc::Global;

/// Whether a row or an end is of one of these versions. The only refusal is `Memory`. Cost: O(c · log c),
/// c versions, rows and ends.
pub fn meets(
    alloc: Global,
    versions: &[VersionKey],
    rows: &[(VersionKey, Row)],
    ends: &[(VersionKey, Time)],
) -> Result<bool, Refusal>
    ensures ok { IfOk result (λ met. met ≡ meets versions.now rows.now ends.now) }
    ensures err { IfErr result (λ why. why ≡ Memory) }
{
    let among = VersionSet::of(alloc, versions)?;
    Ok(has_any_of(&among, rows, ends))
}

fn has_any_of(among: &VersionSet, rows: &[(VersionKey, Row)], ends: &[(VersionKey, Time)]) -> bool
    ensures { result ≡ (list_any (λ r. set.contains among.now r.0) rows.now || list_any (λ e. set.contains among.now e.0) ends.now) }
{
    has_row_of(among, rows) || has_end_of(among, ends)
}

fn has_row_of(among: &VersionSet, rows: &[(VersionKey, Row)]) -> bool
    ensures { result ≡ list_any (λ r. set.contains among.now r.0) rows.now }
{
    rows.iter().any(|(version, _row)| among.has(*version))
}

fn has_end_of(among: &VersionSet, ends: &[(VersionKey, Time)]) -> bool
    ensures { result ≡ list_any (λ e. set.contains among.now e.0) ends.now }
{
    ends.iter().any(|(version, _died)| among.has(*version))
}

impl Facts {
    /// A copy without some versions, and then with these rows and ends, where none are known. The only
    /// refusal is `Memory`. Cost: O((n + c) · log (n + c) + b), n facts, c versions, rows and ends,
    /// b bytes of bodies, which are copied.
    pub fn replaced(
        &self,
        drops: &[VersionKey],
        rows: Vec<(VersionKey, Row)>,
        ends: &[(VersionKey, Time)],
    ) -> Result<Facts, Refusal>
        ensures ok { IfOk result (λ facts.
            facts ≡ facts_after_replace self.now drops.now rows.items ends.now) }
        ensures err { IfErr result (λ why. why ≡ Memory) }
    {
        let mut facts = self.copy(self.allocator())?;
        facts.drop_all(drops);
        let mut undo = Undo::new(self.allocator());
        facts.add_listed(&mut undo, rows, ends)?;
        Ok(facts)
    }

    /// Adds rows and ends where none are known, each that is new noted. The only refusal is
    /// `Memory`. Cost: O(c · log n), c rows and ends, n facts and these.
    pub fn add_listed(
        &mut self,
        undo: &mut Undo,
        rows: Vec<(VersionKey, Row)>,
        ends: &[(VersionKey, Time)],
    ) -> Result<(), Refusal>
        ensures ok { OnOk result (self.new ≡ with_listed self.old rows.items ends.now) }
        ensures err { IfErr result (λ why. why ≡ Memory) }
        ensures back { rolled_back undo.new self.new ≡ rolled_back undo.old self.old }
    {
        self.add_all_rows(undo, rows)?;
        self.add_all_ends(undo, ends)
    }

    fn add_all_rows(&mut self, undo: &mut Undo, rows: Vec<(VersionKey, Row)>) -> Result<(), Refusal>
        ensures ok { OnOk result (self.new ≡ with_rows self.old (finmap.from_entries rows.items)) }
        ensures err { IfErr result (λ why. why ≡ Memory) }
        ensures back { rolled_back undo.new self.new ≡ rolled_back undo.old self.old }
    {
        for (version, row) in rows {
            self.add(undo, &version, Fact::Row(row))?;
        }
        Ok(())
    }

    fn add_all_ends(&mut self, undo: &mut Undo, ends: &[(VersionKey, Time)]) -> Result<(), Refusal>
        ensures ok { OnOk result (self.new ≡ with_ends self.old (finmap.from_entries ends.now)) }
        ensures err { IfErr result (λ why. why ≡ Memory) }
        ensures back { rolled_back undo.new self.new ≡ rolled_back undo.old self.old }
    {
        for (version, died) in ends {
            self.add(undo, version, Fact::End(*died))?;
        }
        Ok(())
    }
}
