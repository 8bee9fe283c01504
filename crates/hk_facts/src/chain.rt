//! Chains.

ghost use Rattle.std.specs.Prelude.{◌≡◌, ◌⊎◌, ◌↔◌, IsTrue, OnOk, OnErr, IfErr, IfOk, Ok, Err, Some, None};
ghost use Rattle.std.specs.Option.{option_copied, option_map};
ghost use Rattle.std.specs.FinMap as finmap;
ghost use Rattle.hk_types.specs.declared.faults.Refusal.TheVariants.{Memory};
ghost use Rattle.hk_facts.specs.declared.fact.Fact.TheVariants.{Row as RowFact, End as EndFact};
ghost use Rattle.hk_facts.specs.Chains.{chain_put, chain_forget, chain_until, is_new_to, latest_at, row_at, is_after, FirstBorn, RefusesPut};
ghost use Rattle.hk_facts.specs.Turns.{AreOver};

use crate::chain_form::ChainForm;
use crate::fact::{Fact, Part};
use crate::versions::ended_by;
use hk_log::Version;
use hk_types::{Refusal, Row, Time};
use std::alloc::{AllocError, Global};
use std::marker::Model;

/// What is known of the versions of one key, by the time at which each was born. One version alone is kept in the
/// chain itself, a few are kept in a sorted list, and more than that in ordered maps.
///
/// An example, with the form and the versions after each call:
///
///     new()            One     none
///     put_row(3, A)    One     3: A
///     put_row(7, B)    Few     3: A              7: B
///     put_end(3, 7)    Few     3: A, ends at 7   7: B
///     put_end(9, 12)   Few     3: A, ends at 7   7: B     9: no row, ends at 12
///     drop_until(7)    Few     7: B              9: no row, ends at 12
///
/// Before the drop `at(5)` is A, and `at(7)` is B. `at(10)` is B too, since the row of the version born at 9 has not
/// come. The list has at most 32 versions: a new one beside these turns the chain into `Many`.
pub struct Chain {
    form: ChainForm,
    alloc: Global,
}

// Written out, so that a chain with no version that is let go costs nothing.
impl Drop for Chain {
    #[inline(always)]
    fn drop(self) {
        let Chain { form, alloc: _ } = self;
        drop(form);
    }
}

impl Model for Chain {
    ghost use Rattle.std.specs.Ordering.{nat_cmp};
    ghost use Rattle.std.specs.Coded.{coded_ℕ};
    ghost use Rattle.std.specs.FinMap as finmap;
    ghost use Rattle.hk_log.specs.Versions.{version_code};
    ghost use Rattle.hk_facts.specs.Chains.{ChainValue};
    ghost use Rattle.hk_facts.specs.Forms.{stored};

    ghost Value = { ChainValue };

    ghost coded = { finmap.code coded_ℕ version_code };

    ghost view = { λ a. stored a.form };
}

/// A clone is the same chain again, as `copy` makes it.
impl Clone for Chain {
    ghost use Rattle.std.specs.Prelude.{◌≡◌};

    ghost is_clone = { λ x y. y ≡ x };

    fn clone(&self) -> Result<Chain, AllocError> {
        let chain = self.copy(self.alloc)?;
        Ok(chain)
    }
}

impl Chain {
    /// A chain with no version. It takes no memory.
    pub fn new(alloc: Global) -> Chain
        ensures { result ≡ finmap.empty }
    {
        Chain {
            form: ChainForm::One(None),
            alloc,
        }
    }

    /// Adds a fact on the version that was born then, and returns whether nothing like it was known. One that is known
    /// already changes nothing, and one that differs from what is known is a conflict. `Memory` comes only where nothing
    /// is known of the version. A refusal changes nothing. Cost: O(log n + b), n versions, b bytes of a body that is
    /// compared; once in its life a chain of 32 versions copies their bodies, when it goes over into maps.
    #[inline(always)]
    pub fn put(&mut self, born: Time, fact: Fact) -> Result<bool, Refusal>
        ensures ok { OnOk result (chain_put self.old born fact ≡ Ok self.new) }
        ensures new { IfOk result (λ is. is ≡ is_new_to self.old born fact) }
        ensures err { IfErr result (λ why. RefusesPut self.old born fact why) }
        ensures kept { OnErr result (self.new ≡ self.old) }
    {
        self.form.put(self.alloc, born, fact)
    }

    /// Adds a row, as `put` does. Cost: that of `put`.
    pub fn put_row(&mut self, born: Time, row: Row) -> Result<(), Refusal>
        ensures ok { OnOk result (chain_put self.old born (RowFact row) ≡ Ok self.new) }
        ensures err { IfErr result (λ why. RefusesPut self.old born (RowFact row) why) }
        ensures kept { OnErr result (self.new ≡ self.old) }
    {
        self.put(born, Fact::Row(row))?;
        Ok(())
    }

    /// Adds an end, as `put` does. Cost: that of `put`.
    pub fn put_end(&mut self, born: Time, died: Time) -> Result<(), Refusal>
        ensures ok { OnOk result (chain_put self.old born (EndFact died) ≡ Ok self.new) }
        ensures err { IfErr result (λ why. RefusesPut self.old born (EndFact died) why) }
        ensures kept { OnErr result (self.new ≡ self.old) }
    {
        self.put(born, Fact::End(died))?;
        Ok(())
    }

    /// Removes a part of a version, its row or its end or both. A version of which nothing else is known is dropped.
    /// Cost: O(log n), n versions.
    pub fn forget(&mut self, born: Time, part: Part)
        ensures { self.new ≡ chain_forget self.old born part }
    {
        self.form.forget(born, part);
    }

    /// Drops what is known of a version. Cost: O(log n), n versions.
    pub fn remove(&mut self, born: Time)
        ensures { self.new ≡ finmap.remove self.old born }
    {
        self.forget(born, Part::Whole);
    }

    /// Drops each version whose end is known and at most `until`, and nothing else.
    /// Cost: O(n + d · log n), n versions, d of them dropped.
    pub fn drop_until(&mut self, until: Time)
        ensures { self.new ≡ chain_until self.old until }
    {
        self.form.drop_until(until);
    }

    /// Of the versions that have a row and were born at a time or before, the one born last, with the time of its
    /// birth. It takes no memory. Cost: O(log n), n versions. In a list, of at most 32 versions, those with no row
    /// are stepped over; in maps those of which only the end is known are kept apart, and stepped over are alone
    /// versions whose row was removed, and, after memory was refused to the row of a version whose end had come
    /// first, those whose end came first.
    pub fn latest(&self, time: Time) -> Option<(Time, &Version)>
        ensures { option_map (λ p. (p.0, p.1.now)) result ≡ latest_at self.now time }
    {
        self.form.latest(time)
    }

    /// The row at a time: that of the latest version with a row, unless its end is known and at most that
    /// time. It takes no memory. Cost: that of `latest`.
    pub fn at(&self, time: Time) -> Option<&Row>
        ensures { option_copied result ≡ row_at self.now time }
    {
        match self.latest(time) {
            Some((_born, version)) if !ended_by(version, time) => version.row(),
            _ => None,
        }
    }

    /// What is known of the version that was born then. Cost: O(log n), n versions.
    #[inline(always)]
    pub fn version(&self, born: Time) -> Option<&Version>
        ensures { option_copied result ≡ finmap.get self.now born }
    {
        self.form.version(born)
    }

    /// The version born first, or the one born next after a time, with the time of its birth. It takes no
    /// memory. Cost: O(log n), n versions.
    pub fn next(&self, after: Option<Time>) -> Option<(Time, &Version)>
        ensures { FirstBorn self.now (is_after after) (option_map (λ p. (p.0, p.1.now)) result) }
    {
        self.form.next(&after)
    }

    /// A time up to which all versions are over before another: each was born before that, and has no end from it on.
    /// What was born or ended from that on is then found by `next` behind it, with no look at the others. None where no
    /// such time is known: in a list, of at most 32 versions; where fewer than two versions were born before; and once a
    /// version ended after the birth of a later one, which none does in a history. It takes no memory.
    /// Cost: O(log n), n versions.
    pub fn over_before(&self, time: Time) -> Option<Time>
        ensures { AreOver self.now time result }
    {
        self.form.over_before(time)
    }

    pub fn is_empty(&self) -> bool
        ensures { IsTrue result ↔ (self.now ≡ finmap.empty) }
    {
        self.form.is_empty()
    }

    /// The same chain again. The only error is out of memory. Cost: O(n · log n + b), n versions, b bytes
    /// of bodies, all copied.
    pub fn copy(&self, alloc: Global) -> Result<Chain, AllocError>
        ensures { IfOk result (λ chain. chain ≡ self.now) }
    {
        let form = self.form.copy(alloc)?;
        Ok(Chain { form, alloc })
    }
}
