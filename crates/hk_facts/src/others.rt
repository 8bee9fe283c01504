//! The versions of a chain beside its first one.

ghost use Rattle.std.specs.Prelude.{◌≡◌, ◌⊎◌, ◌↔◌, IsTrue, OnOk, OnErr, IfErr, IfOk, Ok, Err, Some, None};
ghost use Rattle.std.specs.Option.{option_copied, option_map};
ghost use Rattle.std.specs.FinMap as finmap;
ghost use Rattle.hk_types.specs.declared.faults.Refusal.TheVariants.{Memory};
ghost use Rattle.hk_facts.specs.declared.fact.Fact.TheVariants.{Row as RowFact, End as EndFact};
ghost use Rattle.hk_facts.specs.Chains.{chain_put, chain_forget, chain_until, is_new_to, latest_at, is_after, FirstBorn, LastBefore, RefusesPut};
ghost use Rattle.hk_facts.specs.Listed.{listed, AreByBirth};
ghost use Rattle.hk_facts.specs.Parted.{both, AreApart, NoRows, lone_end};

use crate::fact::{Fact, Part};
use crate::order::{is_earlier, is_later};
use crate::versions::Versions;
use hk_log::Version;
use hk_types::{Refusal, Row, Time};
use std::alloc::{AllocError, Global};
use std::marker::Model;

/// What is known of versions, by the time at which each was born. Those of which only the end is known are kept
/// apart, so that none of them is stepped over on the way to the latest row. Where there was no memory to move one of
/// them when its row came, it has its row there, and `mixed` is true.
#[derive(Drop)]
pub(crate) struct Others {
    rows: Versions,
    ends: Versions,
    mixed: bool,
}

impl Model for Others {
    ghost use Rattle.std.specs.Coded.{coded_ℕ};
    ghost use Rattle.std.specs.FinMap as finmap;
    ghost use Rattle.hk_log.specs.Versions.{version_code};
    ghost use Rattle.hk_facts.specs.Chains.{ChainValue};
    ghost use Rattle.hk_facts.specs.Parted.{both, IsParted};

    ghost Value = { ChainValue };

    ghost coded = { finmap.code coded_ℕ version_code };

    ghost view = { λ a. both a.rows a.ends };

    ghost invariant = { λ a. IsParted a.rows a.ends a.mixed };
}

impl Others {
    /// The versions of a list, copied. The only error is out of memory. Cost: O(n · log n + b), n versions, b bytes
    /// of bodies.
    pub(crate) fn of_list(alloc: Global, list: &[(Time, Version)]) -> Result<Others, AllocError>
        requires { AreByBirth list.now }
        ensures { IfOk result (λ others. others ≡ listed list.now) }
    {
        let rows = Versions::of_list(alloc, list, true)?;
        let ends = Versions::of_list(alloc, list, false)?;
        Ok(Others {
            rows,
            ends,
            mixed: false,
        })
    }

    /// Adds a fact on the version that was born then, and returns whether nothing like it was known. One that is known
    /// already changes nothing, and one that differs from what is known is a conflict. `Memory` comes only where nothing
    /// is known of the version. A refusal changes nothing. Cost: O(log n + b), n versions, b bytes of a body that is
    /// compared.
    pub(crate) fn put(&mut self, born: Time, fact: Fact) -> Result<bool, Refusal>
        ensures ok { OnOk result (chain_put self.old born fact ≡ Ok self.new) }
        ensures new { IfOk result (λ is. is ≡ is_new_to self.old born fact) }
        ensures err { IfErr result (λ why. RefusesPut self.old born fact why) }
        ensures kept { OnErr result (self.new ≡ self.old) }
    {
        match fact {
            Fact::Row(row) => self.put_row(born, row),
            Fact::End(died) => self.put_end(born, died),
        }
    }

    fn put_row(&mut self, born: Time, row: Row) -> Result<bool, Refusal>
        ensures ok { OnOk result (chain_put self.old born (RowFact row) ≡ Ok self.new) }
        ensures new { IfOk result (λ is. is ≡ is_new_to self.old born (RowFact row)) }
        ensures err { IfErr result (λ why. RefusesPut self.old born (RowFact row) why) }
        ensures kept { OnErr result (self.new ≡ self.old) }
    {
        make_way(&mut self.rows, &mut self.ends, born);
        if self.ends.version(born).is_none() {
            return self.rows.put(born, Fact::Row(row));
        }
        self.mixed = true;
        self.ends.put(born, Fact::Row(row))
    }

    fn put_end(&mut self, born: Time, died: Time) -> Result<bool, Refusal>
        ensures ok { OnOk result (chain_put self.old born (EndFact died) ≡ Ok self.new) }
        ensures new { IfOk result (λ is. is ≡ is_new_to self.old born (EndFact died)) }
        ensures err { IfErr result (λ why. RefusesPut self.old born (EndFact died) why) }
        ensures kept { OnErr result (self.new ≡ self.old) }
    {
        if self.rows.version(born).is_some() {
            return self.rows.put(born, Fact::End(died));
        }
        self.ends.put(born, Fact::End(died))
    }

    /// Removes a part of a version, its row or its end or both. A version of which nothing else is known is dropped.
    /// Cost: O(log n), n versions.
    pub(crate) fn forget(&mut self, born: Time, part: Part)
        ensures { self.new ≡ chain_forget self.old born part }
    {
        if self.rows.version(born).is_some() {
            self.rows.forget(born, part);
            return;
        }
        self.ends.forget(born, part);
    }

    /// Drops each version whose end is known and at most `until`, and nothing else.
    /// Cost: O(n + d · log n), n versions, d of them dropped.
    pub(crate) fn drop_until(&mut self, until: Time)
        ensures { self.new ≡ chain_until self.old until }
    {
        self.rows.drop_until(until);
        self.ends.drop_until(until);
    }

    /// Of the versions that have a row and were born at a time or before, the one born last, with the time of its
    /// birth. It takes no memory. Cost: O(log n), n versions. Stepped over are alone versions whose row was removed,
    /// and, where this is mixed, those whose end came before their row.
    pub(crate) fn latest(&self, time: Time) -> Option<(Time, &Version)>
        ensures { option_map (λ p. (p.0, p.1.now)) result ≡ latest_at self.now time }
    {
        if !self.mixed {
            return self.rows.latest(time);
        }
        let row = self.rows.latest(time);
        let end = self.ends.latest(time);
        if is_later(&row, &end) { row } else { end }
    }

    /// What is known of the version that was born then. Cost: O(log n), n versions.
    pub(crate) fn version(&self, born: Time) -> Option<&Version>
        ensures { option_copied result ≡ finmap.get self.now born }
    {
        match self.rows.version(born) {
            Some(version) => Some(version),
            None => self.ends.version(born),
        }
    }

    /// The version born first, or the one born next after a time, with the time of its birth. It takes no
    /// memory. Cost: O(log n), n versions.
    pub(crate) fn next(&self, after: &Option<Time>) -> Option<(Time, &Version)>
        ensures { FirstBorn self.now (is_after after.now) (option_map (λ p. (p.0, p.1.now)) result) }
    {
        let row = self.rows.next(after);
        let end = self.ends.next(after);
        if is_earlier(&row, &end) { row } else { end }
    }

    /// The version born last before a time, with the time of its birth. It takes no memory. Cost: O(log n), n versions.
    pub(crate) fn last_before(&self, time: Time) -> Option<(Time, &Version)>
        ensures { LastBefore self.now time (option_map (λ p. (p.0, p.1.now)) result) }
    {
        let row = self.rows.last_before(time);
        let end = self.ends.last_before(time);
        if is_later(&row, &end) { row } else { end }
    }

    pub(crate) fn is_empty(&self) -> bool
        ensures { IsTrue result ↔ (self.now ≡ finmap.empty) }
    {
        self.rows.is_empty() && self.ends.is_empty()
    }

    /// The same versions again. The only error is out of memory. Cost: O(n · log n + b), n versions, b bytes
    /// of bodies, all copied.
    pub(crate) fn copy(&self, alloc: Global) -> Result<Others, AllocError>
        ensures { IfOk result (λ others. others ≡ self.now) }
    {
        let rows = self.rows.copy(alloc)?;
        let ends = self.ends.copy(alloc)?;
        Ok(Others {
            rows,
            ends,
            mixed: self.mixed,
        })
    }
}

/// Moves the version that was born then to those with a row, where only its end is known and there is memory.
fn make_way(rows: &mut Versions, ends: &mut Versions, born: Time)
    requires { AreApart rows.old ends.old }
    ensures same { both rows.new ends.new ≡ both rows.old ends.old }
    ensures apart { AreApart rows.new ends.new }
    ensures bare { NoRows ends.old → NoRows ends.new }
{
    let Some(died) = end_alone(ends, born) else {
        return;
    };
    if rows.put(born, Fact::End(died)).is_ok() {
        ends.forget(born, Part::Whole);
    }
}

/// The end of the version that was born then, where no row of it is known.
fn end_alone(ends: &Versions, born: Time) -> Option<Time>
    ensures { result ≡ lone_end (finmap.get ends.now born) }
{
    match ends.version(born) {
        Some(version) if version.row().is_none() => version.died(),
        _ => None,
    }
}
