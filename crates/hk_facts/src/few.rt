//! The versions of a short chain.

ghost use Rattle.std.specs.Prelude.{◌≡◌, ◌⊎◌, ◌↔◌, ◌≤◌, ◌<◌, ◌+◌, nat_le, IsTrue, OnOk, OnErr, IfErr, IfOk, Ok, Err, Some, None, vec_len};
ghost use Rattle.std.specs.FinMap as finmap;
ghost use Rattle.std.specs.List.{insert};
ghost use Rattle.std.specs.Map.{keys_of};
ghost use Rattle.hk_types.specs.declared.faults.Refusal.TheVariants.{Memory};
ghost use Rattle.hk_facts.specs.Chains.{chain_put, chain_forget, chain_until, is_new_to, RefusesPut};
ghost use Rattle.hk_facts.specs.Listed.{listed, first_only, AreByBirth, StandsAt};

use crate::fact::{Fact, Part, join, take_back, version_of};
use crate::list::place_of;
use crate::versions::ended_by;
use hk_log::Version;
use hk_types::{Refusal, Time};
use std::alloc::{AllocError, Global};
use std::marker::Model;

/// The most versions that a list has.
const MOST: usize = 32;

/// What is known of versions, by the time at which each was born, in one sorted list.
#[derive(Drop)]
pub(crate) struct Few {
    versions: Vec<(Time, Version)>,
}

impl Model for Few {
    ghost use Rattle.std.specs.Prelude.{◌≤◌, vec_len};
    ghost use Rattle.std.specs.Coded.{coded_ℕ};
    ghost use Rattle.std.specs.FinMap as finmap;
    ghost use Rattle.hk_log.specs.Versions.{version_code};
    ghost use Rattle.hk_facts.specs.Chains.{ChainValue};
    ghost use Rattle.hk_facts.specs.Listed.{listed, AreByBirth};

    ghost Value = { ChainValue };

    ghost coded = { finmap.code coded_ℕ version_code };

    ghost view = { λ a. listed a.versions.items };

    ghost invariant = { λ a. AreByBirth a.versions.items × (vec_len a.versions ≤ 32) };
}

impl Few {
    /// The version that is there, if one is, which is moved. The only error is out of memory; then it is left where it was.
    pub(crate) fn of_first(
        alloc: Global,
        first: &mut Option<(Time, Version)>,
    ) -> Result<Few, AllocError>
        ensures ok { IfOk result (λ few. few ≡ first_only first.old) }
        ensures kept { OnErr result (first.new ≡ first.old) }
    {
        let mut versions = Vec::with_capacity(alloc, 2)?;
        if let Some(entry) = first.take() {
            if let Err(refused) = versions.push(entry) {
                *first = Some(refused.value);
                return Err(AllocError);
            }
        }
        Ok(Few { versions })
    }

    /// The versions in order.
    #[inline(always)]
    pub(crate) fn list(&self) -> &[(Time, Version)]
        ensures same { listed result.now ≡ self.now }
        ensures sorted { AreByBirth result.now }
    {
        &self.versions
    }

    /// Whether the list has as many versions as it is to have: 32.
    #[inline(always)]
    pub(crate) fn is_full(&self) -> bool
        ensures { result ≡ nat_le 32 (finmap.len self.now) }
    {
        self.versions.len() >= MOST
    }

    /// Adds a fact on the version that was born then, and returns whether nothing like it was known. One that is known
    /// already changes nothing, and one that differs from what is known is a conflict. `Memory` comes only where nothing
    /// is known of the version. A refusal changes nothing. Cost: O(n + b), n versions, b bytes of a body that is compared.
    #[inline(always)]
    pub(crate) fn put(&mut self, born: Time, fact: Fact) -> Result<bool, Refusal>
        requires { finmap.get self.old born ≡ None → finmap.len self.old < 32 }
        ensures ok { OnOk result (chain_put self.old born fact ≡ Ok self.new) }
        ensures new { IfOk result (λ is. is ≡ is_new_to self.old born fact) }
        ensures err { IfErr result (λ why. RefusesPut self.old born fact why) }
        ensures kept { OnErr result (self.new ≡ self.old) }
    {
        match place_of(&self.versions, born) {
            Ok(place) => join_at(&mut self.versions, place, born, fact),
            Err(place) => {
                insert_at(&mut self.versions, place, born, version_of(fact))?;
                Ok(true)
            }
        }
    }

    /// Removes a part of a version, its row or its end or both. A version of which nothing else is known is dropped.
    /// Cost: O(n), n versions.
    pub(crate) fn forget(&mut self, born: Time, part: Part)
        ensures { self.new ≡ chain_forget self.old born part }
    {
        let Ok(place) = place_of(&self.versions, born) else {
            return;
        };
        forget_at(&mut self.versions, place, born, part);
    }

    /// Drops each version whose end is known and at most `until`, and nothing else. Cost: O(n), n versions.
    pub(crate) fn drop_until(&mut self, until: Time)
        ensures { self.new ≡ chain_until self.old until }
    {
        self.versions.retain(|entry| !ended_by(&entry.1, until));
    }

    pub(crate) fn is_empty(&self) -> bool
        ensures { IsTrue result ↔ (self.now ≡ finmap.empty) }
    {
        self.versions.is_empty()
    }

    /// The same versions again. The only error is out of memory. Cost: O(n + b), n versions, b bytes of bodies,
    /// all copied.
    pub(crate) fn copy(&self, alloc: Global) -> Result<Few, AllocError>
        ensures { IfOk result (λ few. few ≡ self.now) }
    {
        let mut versions = Vec::with_capacity(alloc, self.versions.len())?;
        for (born, version) in &self.versions {
            versions.push((*born, version.copy(alloc)?))?;
        }
        Ok(Few { versions })
    }
}

/// Adds a fact to the version at a position.
#[inline(always)]
fn join_at(
    versions: &mut Vec<(Time, Version)>,
    place: usize,
    born: Time,
    fact: Fact,
) -> Result<bool, Refusal>
    requires sorted { AreByBirth versions.old.items }
    requires there { StandsAt versions.old.items born place }
    ensures ok { OnOk result (chain_put (listed versions.old.items) born fact ≡ Ok (listed versions.new.items)) }
    ensures new { IfOk result (λ is. is ≡ is_new_to (listed versions.old.items) born fact) }
    ensures err { IfErr result (λ why. chain_put (listed versions.old.items) born fact ≡ Err why) }
    ensures kept { OnErr result (listed versions.new.items ≡ listed versions.old.items) }
    ensures keys { keys_of versions.new.items ≡ keys_of versions.old.items }
    ensures many { vec_len versions.new ≡ vec_len versions.old }
{
    join(&mut versions[place].1, fact)
}

/// Removes a part of the version at a position. A version of which nothing else is known is dropped.
fn forget_at(versions: &mut Vec<(Time, Version)>, place: usize, born: Time, part: Part)
    requires sorted { AreByBirth versions.old.items }
    requires there { StandsAt versions.old.items born place }
    ensures same { listed versions.new.items ≡ chain_forget (listed versions.old.items) born part }
    ensures sorted { AreByBirth versions.new.items }
    ensures many { vec_len versions.new ≤ vec_len versions.old }
{
    if take_back(&mut versions[place].1, part) {
        return;
    }
    versions.remove(place);
}

/// Inserts a version at a position.
#[inline(always)]
fn insert_at(
    versions: &mut Vec<(Time, Version)>,
    place: usize,
    born: Time,
    version: Version,
) -> Result<(), AllocError>
    requires { place ≤ vec_len versions.old }
    ensures ok { OnOk result (versions.new.items ≡ insert versions.old.items place (born, version)) }
    ensures many { OnOk result (vec_len versions.new ≡ vec_len versions.old + 1) }
    ensures err { OnErr result (versions.new.items ≡ versions.old.items) }
{
    versions.insert(place, (born, version))?;
    Ok(())
}
