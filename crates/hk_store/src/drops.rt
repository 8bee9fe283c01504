//! Versions that are dropped.

ghost use Rattle.std.specs.Prelude.{◌≡◌, OnOk, OnErr, IfErr};
ghost use Rattle.hk_types.specs.declared.faults.Refusal.TheVariants.{Memory};
ghost use Rattle.hk_chains.specs.Drops.{pruned_facts, without_all};

use crate::facts::Facts;
use hk_facts::Part;
use hk_types::{Refusal, Time, VersionKey};

/// The chains are swept where more than one in so many of the rows that are held is looked at.
const FEW: usize = 8;

impl Facts {
    /// Drops all that is known of these versions. It cannot fail. Cost: O(d · log n), d versions dropped,
    /// n facts.
    pub fn drop_all(&mut self, versions: &[VersionKey])
        ensures { self.new ≡ without_all self.old versions.now }
    {
        for version in versions {
            self.forget(version, Part::Whole);
        }
    }

    /// Drops each version whose end is known and at most `until`. The only refusal is `Memory`, and it changes nothing.
    /// Cost: O((1 + r) · log n), n facts, r keys of which anything is stated from the first end that is known up to `until`, and
    /// their versions. Where those keys are many the chains are gone over as they are in memory.
    pub fn drop_until(&mut self, until: Time) -> Result<(), Refusal>
        ensures ok { OnOk result (self.new ≡ pruned_facts self.old until) }
        ensures err { IfErr result (λ why. why ≡ Memory) }
        ensures kept { OnErr result (self.new ≡ self.old) }
    {
        let rows = self.stated.rows(self.allocator(), &self.ends_until(until))?;
        let held = self.tally;
        let many = rows.len() > self.chains.bound() / FEW;
        self.chains.drop_ended(&mut self.tally, &rows, until, many);
        self.note_ends_above(until);
        let gone = held.rows.saturating_sub(self.tally.rows);
        self.tags.note_gone(gone);
        self.stated.note_gone(gone);
        self.tidy_tags();
        self.tidy_stated();
        Ok(())
    }
}
