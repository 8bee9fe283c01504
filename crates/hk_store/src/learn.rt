//! What other replicas send, added in one pass.

ghost use Rattle.std.specs.Prelude.{◌≡◌, ◌||◌, nat_lt, false, IfErr, OnOk};
ghost use Rattle.hk_types.specs.declared.faults.Refusal.TheVariants.{Memory};
ghost use Rattle.hk_store.specs.Undos.{rolled_back};
ghost use Rattle.hk_store.specs.Learning.{IsTold, Learns, LearnsEnd, LearnsRow, LearnsVersion};
ghost use Rattle.hk_store.specs.Learning.{RefusesEnd, RefusesRow, RefusesTold, RefusesVersion};
ghost use Rattle.hk_store.specs.Learning.{end_conflicts, facts_conflict, facts_told, row_conflicts, told_by};
ghost use Rattle.hk_chains.specs.Versions.{AreVersions, value_conflicts_at};

use crate::facts::Facts;
use crate::undo::Undo;
use hk_facts::Fact;
use hk_log::Version;
use hk_types::{Refusal, Time, VersionKey};

/// What is sent to a replica.
#[derive(Clone, Copy)]
pub enum LearnSource<'a> {
    /// Versions by rising version key, each with its row or end or both.
    Listed(&'a [(VersionKey, Version)]),
    /// All that another replica holds.
    Held(&'a Facts),
}

/// What comes of all that is sent.
#[derive(Clone, Copy)]
pub struct LearnScope {
    /// Whether rows born at the `horizon` or before come too.
    pub old: bool,
    /// The oldest readable time: ends up to it don't come.
    pub horizon: Time,
}

impl LearnScope {
    /// Whether the row of a version comes.
    #[inline(always)]
    fn has_row(&self, version: &VersionKey) -> bool
        ensures { result ≡ (nat_lt self.now.horizon version.now.born || self.now.old) }
    {
        self.horizon < version.born || self.old
    }
}

impl Facts {
    /// Adds what comes of all that is sent, where nothing like it is known, each that is new noted. What
    /// has another row, or another end, of a version than is known is refused `Conflict`, also where it would not come,
    /// and `Memory` comes where a growth was refused. What was added until then is kept, and is noted.
    ///
    /// Cost: O(c · log n + b), c versions that are sent, n facts and these, b bytes of bodies compared or copied.
    pub fn learn(
        &mut self,
        undo: &mut Undo,
        told: &LearnSource,
        coming: &LearnScope,
    ) -> Result<(), Refusal>
        requires told { IsTold told.now }
        ensures ok { OnOk result (Learns self.old self.new coming.now (facts_told told.now)) }
        ensures agrees { OnOk result (facts_conflict self.old (facts_told told.now) ≡ false) }
        ensures err { IfErr result (λ why. RefusesTold self.old (facts_told told.now) why) }
        ensures back { rolled_back undo.new self.new ≡ rolled_back undo.old self.old }
    {
        match told {
            LearnSource::Listed(versions) => self.learn_listed(undo, versions, coming),
            LearnSource::Held(facts) => self.learn_held(undo, facts, coming),
        }
    }

    fn learn_listed(
        &mut self,
        undo: &mut Undo,
        told: &[(VersionKey, Version)],
        coming: &LearnScope,
    ) -> Result<(), Refusal>
        requires told { AreVersions (told_by told.now) told.now }
        ensures ok { OnOk result (Learns self.old self.new coming.now (told_by told.now)) }
        ensures agrees { OnOk result (facts_conflict self.old (told_by told.now) ≡ false) }
        ensures err { IfErr result (λ why. RefusesTold self.old (told_by told.now) why) }
        ensures back { rolled_back undo.new self.new ≡ rolled_back undo.old self.old }
    {
        for (version, known) in told {
            self.learn_version(undo, coming, version, known)?;
        }
        Ok(())
    }

    fn learn_held(
        &mut self,
        undo: &mut Undo,
        told: &Facts,
        coming: &LearnScope,
    ) -> Result<(), Refusal>
        ensures ok { OnOk result (Learns self.old self.new coming.now told.now) }
        ensures agrees { OnOk result (facts_conflict self.old told.now ≡ false) }
        ensures err { IfErr result (λ why. RefusesTold self.old told.now why) }
        ensures back { rolled_back undo.new self.new ≡ rolled_back undo.old self.old }
    {
        for (version, known) in told.walk() {
            self.learn_version(undo, coming, &version, known)?;
        }
        Ok(())
    }

    /// Adds what comes of a version, where nothing like it is known.
    #[inline(always)]
    fn learn_version(
        &mut self,
        undo: &mut Undo,
        coming: &LearnScope,
        version: &VersionKey,
        told: &Version,
    ) -> Result<(), Refusal>
        ensures ok { OnOk result (LearnsVersion self.old self.new coming.now version.now told.now) }
        ensures agrees { OnOk result (value_conflicts_at self.old version.now told.now ≡ false) }
        ensures err { IfErr result (λ why. RefusesVersion self.old version.now told.now why) }
        ensures back { rolled_back undo.new self.new ≡ rolled_back undo.old self.old }
    {
        self.learn_row(undo, coming, version, told)?;
        self.learn_end(undo, coming, version, told)
    }

    /// Adds the row of a version, where it comes and none is known, and else compares it.
    #[inline(always)]
    fn learn_row(
        &mut self,
        undo: &mut Undo,
        coming: &LearnScope,
        version: &VersionKey,
        told: &Version,
    ) -> Result<(), Refusal>
        ensures ok { OnOk result (LearnsRow self.old self.new coming.now version.now told.now) }
        ensures agrees { OnOk result (row_conflicts self.old version.now told.now ≡ false) }
        ensures err { IfErr result (λ why. RefusesRow self.old version.now told.now why) }
        ensures back { rolled_back undo.new self.new ≡ rolled_back undo.old self.old }
    {
        let Some(row) = told.row() else {
            return Ok(());
        };
        if coming.has_row(version) {
            let copied = row.copy(self.allocator())?;
            self.put(undo, version, Fact::Row(copied))?;
            return Ok(());
        }
        if self.has_conflicting_row(version, row) {
            return Err(Refusal::Conflict);
        }
        Ok(())
    }

    /// Adds the end of a version, where it comes and none is known, and else compares it.
    #[inline(always)]
    fn learn_end(
        &mut self,
        undo: &mut Undo,
        coming: &LearnScope,
        version: &VersionKey,
        told: &Version,
    ) -> Result<(), Refusal>
        ensures ok { OnOk result (LearnsEnd self.old self.new coming.now version.now told.now) }
        ensures agrees { OnOk result (end_conflicts self.old version.now told.now ≡ false) }
        ensures err { IfErr result (λ why. RefusesEnd self.old version.now told.now why) }
        ensures back { rolled_back undo.new self.new ≡ rolled_back undo.old self.old }
    {
        let Some(died) = told.died() else {
            return Ok(());
        };
        if coming.horizon < died {
            self.put(undo, version, Fact::End(died))?;
            return Ok(());
        }
        if self.has_conflicting_end(version, died) {
            return Err(Refusal::Conflict);
        }
        Ok(())
    }
}
