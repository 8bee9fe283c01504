//! Versions by the times of their rows and ends.

ghost use Rattle.std.specs.Prelude.{◌≡◌, map, ℕ, nat_le, nat_lt, IfOk, IfErr};
ghost use Rattle.std.specs.FinSet as set;
ghost use Rattle.std.specs.List.{IsDistinct};
ghost use Rattle.std.specs.List.Sorted.{IsNonDecreasingBy};
ghost use Rattle.std.specs.Ordering.{eq_by_cmp};
ghost use Rattle.hk_types.specs.declared.faults.Refusal.TheVariants.{Memory};
ghost use Rattle.hk_types.specs.declared.version_key.VersionKey.{VersionKey};
ghost use Rattle.hk_model.specs.History.Rows.{version_key_cmp};
ghost use Rattle.hk_model.specs.Replica.Content.{ended_by};
ghost use Rattle.hk_index.specs.Timed.{is_in_span};
ghost use Rattle.hk_chains.specs.Drops.{is_among};
ghost use Rattle.hk_chains.specs.Indexed.{died_at, is_stated, passes_at};
ghost use Rattle.hk_chains.specs.Stated.{sought_at};
ghost use Rattle.hk_chains.specs.Versions.{AreVersionsOf, borrowed};

use crate::facts::Facts;
use hk_chains::{Sought, sought_of};
use hk_index::{Span, VersionSet};
use hk_log::Version;
use hk_types::{Refusal, Time, VersionKey};
use std::alloc::{AllocError, Global};

impl Facts {
    /// The span from the first end that is known up to a time.
    pub(crate) fn ends_until(&self, until: Time) -> Span
        ensures { (v : VersionKey) → ended_by self.now.ends until v ≡ passes_at (is_in_span result) (died_at self.now v) }
    {
        Span {
            from: self.first_end,
            until: Some(until.number()),
        }
    }

    /// The versions whose end is known and at most `until`, each once, in the order of their births, in which their rows are in
    /// memory. The only refusal is `Memory`. Cost: O((1 + r) · log n), n facts, r keys of which anything is stated from the first end
    /// that is known up to `until`, and their versions.
    pub fn ended(&self, alloc: Global, until: Time) -> Result<Vec<VersionKey>, Refusal>
        ensures ok { IfOk result (λ versions. (q : VersionKey) → is_among versions.items q
            ≡ ended_by self.now.ends until q) }
        ensures rising { IfOk result (λ versions. IsNonDecreasingBy (λ v. v.born) versions.items) }
        ensures once { IfOk result (λ versions. IsDistinct (eq_by_cmp version_key_cmp) versions.items) }
        ensures err { IfErr result (λ why. why ≡ Memory) }
    {
        let sought = Sought {
            span: self.ends_until(until),
            births: false,
        };
        let found = self.sought(alloc, &sought)?;
        let mut versions = names(alloc, &found)?;
        versions.sort_unstable_by_key(|version| version.born);
        Ok(versions)
    }

    /// The versions that have a row born up to a time, or an end up to it. The only refusal is `Memory`. Cost:
    /// O((1 + r) · log n), n facts, r keys of which anything is stated up to the time, and their versions.
    pub fn stated_until(&self, alloc: Global, until: Time) -> Result<VersionSet, Refusal>
        ensures ok { IfOk result (λ versions. (q : VersionKey) → set.contains versions q
            ≡ is_stated self.now (λ t. nat_le t until) q) }
        ensures err { IfErr result (λ why. why ≡ Memory) }
    {
        let sought = Sought {
            span: Span {
                from: 0,
                until: Some(until.number()),
            },
            births: true,
        };
        let found = self.sought(alloc, &sought)?;
        let versions = names(alloc, &found)?;
        VersionSet::of(alloc, &versions)
    }

    /// The versions that have a row born above a time, or an end above it, with what is known of them, in rising order. The only
    /// refusal is `Memory`. Cost: O((1 + r) · log n), n facts, r keys of which anything is stated above the time, and their versions.
    pub fn stated_above(
        &self,
        alloc: Global,
        base: Time,
    ) -> Result<Vec<(VersionKey, &Version)>, Refusal>
        ensures ok { IfOk result (λ versions.
            AreVersionsOf self.now (is_stated self.now (λ t. nat_lt base t)) (map borrowed versions.items)) }
        ensures err { IfErr result (λ why. why ≡ Memory) }
    {
        let sought = Sought {
            span: above(base),
            births: true,
        };
        self.sought(alloc, &sought)
    }

    /// A time from which on so many rows and ends are known, those left out that came late, or 0 where there are fewer. It promises
    /// nothing. Cost: O(1).
    pub fn time_back(&self, many: u64) -> Time {
        Time::new(self.stated.time_back(many as usize)).unwrap_or(Time::zero())
    }

    /// The versions that are looked for, with what is known of them, in rising order.
    fn sought(&self, alloc: Global, sought: &Sought) -> Result<Vec<(VersionKey, &Version)>, Refusal>
        ensures ok { IfOk result (λ found.
            AreVersionsOf self.now (sought_at self.now sought.now) (map borrowed found.items)) }
        ensures err { IfErr result (λ why. why ≡ Memory) }
    {
        let rows = self.stated.rows(alloc, &sought.span)?;
        let found = sought_of(alloc, &self.chains, &rows, sought)?;
        Ok(found)
    }
}

/// The span above a time.
fn above(base: Time) -> Span
    ensures { (t : ℕ) → is_in_span result t ≡ nat_lt base t }
{
    Span {
        from: base.number() + 1,
        until: None,
    }
}

/// The versions of a list, without what is known of them.
fn names(alloc: Global, found: &[(VersionKey, &Version)]) -> Result<Vec<VersionKey>, AllocError>
    ensures { IfOk result (λ versions. versions.items ≡ map (λ e. e.0) found.now) }
{
    found
        .iter()
        .map(|(version, _known)| *version)
        .collect(alloc)
}
