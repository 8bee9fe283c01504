//! Versions by the time of their birth.

ghost use Rattle.std.specs.Prelude.{◌≡◌, ◌⊎◌, ◌↔◌, IsTrue, OnOk, OnErr, IfErr, IfOk, Ok, Err, Some, None};
ghost use Rattle.std.specs.Option.{option_copied, option_map};
ghost use Rattle.std.specs.Ordering.{nat_cmp};
ghost use Rattle.std.specs.BTreeMap.{Updates};
ghost use Rattle.std.specs.FinMap as finmap;
ghost use Rattle.hk_types.specs.declared.faults.Refusal.TheVariants.{Memory};
ghost use Rattle.hk_model.specs.Replica.Content.{at_most};
ghost use Rattle.hk_facts.specs.Listed.{AreByBirth, IsPartOf};
ghost use Rattle.hk_facts.specs.Chains.{chain_put, chain_forget, chain_until, is_new_to, latest_at, is_after, FirstBorn, LastBefore, RefusesPut};

use crate::fact::{Fact, Part, join, take_back, version_of};
use hk_log::Version;
use hk_types::{Refusal, Time};
use std::alloc::{AllocError, Global};
use std::collections::BTreeMap;
use std::marker::Model;
use std::ops::Bound::{Excluded, Unbounded};

/// What is known of versions, by the time at which each was born, in an ordered map.
#[derive(Drop)]
pub(crate) struct Versions {
    versions: BTreeMap<Time, Version>,
}

impl Model for Versions {
    ghost use Rattle.std.specs.Ordering.{nat_cmp};
    ghost use Rattle.std.specs.Coded.{coded_ℕ};
    ghost use Rattle.std.specs.FinMap as finmap;
    ghost use Rattle.hk_log.specs.Versions.{version_code};
    ghost use Rattle.hk_facts.specs.Chains.{ChainValue};

    ghost Value = { ChainValue };

    ghost coded = { finmap.code coded_ℕ version_code };

    ghost view = { λ a. finmap.from_entries a.versions.entries };
}

impl Versions {
    /// Those versions of a list that have a row, or those that have none, copied. The only error is out of memory.
    /// Cost: O(n · log n + b), n versions, b bytes of bodies.
    pub(crate) fn of_list(
        alloc: Global,
        list: &[(Time, Version)],
        with_row: bool,
    ) -> Result<Versions, AllocError>
        requires { AreByBirth list.now }
        ensures { IfOk result (IsPartOf with_row list.now) }
    {
        let mut versions = BTreeMap::new(alloc);
        for (born, version) in list {
            if version.row().is_some() != with_row {
                continue;
            }
            insert(&mut versions, *born, version.copy(alloc)?)?;
        }
        Ok(Versions { versions })
    }

    /// Adds a fact on the version that was born then, and returns whether nothing like it was known. One that is known
    /// already changes nothing, and one that differs from what is known is a conflict. `Memory` comes only where nothing
    /// is known of the version. A refusal changes nothing. Cost: O(log n + b), n versions, b bytes of a body that is
    /// compared.
    pub(crate) fn put(&mut self, born: Time, fact: Fact) -> Result<bool, Refusal>
        ensures ok { OnOk result (chain_put self.old born fact ≡ Ok self.new) }
        ensures new { IfOk result (λ is. is ≡ is_new_to self.old born fact) }
        ensures err { IfErr result (λ why. RefusesPut self.old born fact why) }
        ensures kept { OnErr result (self.new ≡ self.old) }
    {
        if let Some(version) = self.versions.get_mut(&born) {
            return join(version, fact);
        }
        insert(&mut self.versions, born, version_of(fact))?;
        Ok(true)
    }

    /// Removes a part of a version, its row or its end or both. A version of which nothing else is known is dropped.
    /// Cost: O(log n), n versions.
    pub(crate) fn forget(&mut self, born: Time, part: Part)
        ensures { self.new ≡ chain_forget self.old born part }
    {
        let Some(version) = self.versions.get_mut(&born) else {
            return;
        };
        if take_back(version, part) {
            return;
        }
        self.versions.remove(&born);
    }

    /// Drops each version whose end is known and at most `until`, and nothing else.
    /// Cost: O(n + d · log n), n versions, d of them dropped.
    pub(crate) fn drop_until(&mut self, until: Time)
        ensures { self.new ≡ chain_until self.old until }
    {
        self.versions
            .retain(|_born, version| !ended_by(version, until));
    }

    /// Of the versions that have a row and were born at a time or before, the one born last, with the time
    /// of its birth. It takes no memory. Cost: O(log n + s), n versions, s of them without a row and
    /// stepped over.
    pub(crate) fn latest(&self, time: Time) -> Option<(Time, &Version)>
        ensures { option_map (λ p. (p.0, p.1.now)) result ≡ latest_at self.now time }
    {
        let mut earlier = self.versions.range(..=time);
        while let Some((born, version)) = earlier.next_back() {
            if let Some(_row) = version.row() {
                return Some((*born, version));
            }
        }
        None
    }

    /// What is known of the version that was born then. Cost: O(log n), n versions.
    pub(crate) fn version(&self, born: Time) -> Option<&Version>
        ensures { option_copied result ≡ finmap.get self.now born }
    {
        self.versions.get(&born)
    }

    /// The version born first, or the one born next after a time, with the time of its birth. It takes no
    /// memory. Cost: O(log n), n versions.
    pub(crate) fn next(&self, after: &Option<Time>) -> Option<(Time, &Version)>
        ensures { FirstBorn self.now (is_after after.now) (option_map (λ p. (p.0, p.1.now)) result) }
    {
        match after {
            Some(time) => self.after(*time),
            None => self.first(),
        }
    }

    fn first(&self) -> Option<(Time, &Version)>
        ensures { FirstBorn self.now (is_after None) (option_map (λ p. (p.0, p.1.now)) result) }
    {
        match self.versions.first_key_value() {
            Some((born, version)) => Some((*born, version)),
            None => None,
        }
    }

    fn after(&self, time: Time) -> Option<(Time, &Version)>
        ensures { FirstBorn self.now (is_after (Some time)) (option_map (λ p. (p.0, p.1.now)) result) }
    {
        let mut later = self.versions.range((Excluded(time), Unbounded));
        match later.next() {
            Some((born, version)) => Some((*born, version)),
            None => None,
        }
    }

    /// The version born last before a time, with the time of its birth. It takes no memory. Cost: O(log n), n versions.
    pub(crate) fn last_before(&self, time: Time) -> Option<(Time, &Version)>
        ensures { LastBefore self.now time (option_map (λ p. (p.0, p.1.now)) result) }
    {
        let mut earlier = self.versions.range(..time);
        match earlier.next_back() {
            Some((born, version)) => Some((*born, version)),
            None => None,
        }
    }

    pub(crate) fn is_empty(&self) -> bool
        ensures { IsTrue result ↔ (self.now ≡ finmap.empty) }
    {
        self.versions.is_empty()
    }

    /// The same versions again. The only error is out of memory. Cost: O(n · log n + b), n versions, b bytes
    /// of bodies, all copied.
    pub(crate) fn copy(&self, alloc: Global) -> Result<Versions, AllocError>
        ensures { IfOk result (λ versions. versions ≡ self.now) }
    {
        let mut versions = BTreeMap::new(alloc);
        for (born, version) in &self.versions {
            insert(&mut versions, *born, version.copy(alloc)?)?;
        }
        Ok(Versions { versions })
    }
}

fn insert(
    versions: &mut BTreeMap<Time, Version>,
    born: Time,
    version: Version,
) -> Result<(), AllocError>
    ensures ok { OnOk result (Updates nat_cmp versions.old versions.new born (Some version)) }
    ensures err { OnErr result (versions.new.entries ≡ versions.old.entries) }
{
    versions.insert(born, version)?;
    Ok(())
}

/// Whether the end of a version is known, and at most this time. It takes no memory.
pub fn ended_by(version: &Version, time: Time) -> bool
    ensures { result ≡ at_most time version.now.died }
{
    match version.died() {
        None => false,
        Some(died) => died <= time,
    }
}
