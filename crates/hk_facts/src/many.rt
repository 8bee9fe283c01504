//! The versions of a long chain, and whether they are in turn.

ghost use Rattle.std.specs.Prelude.{◌≡◌, OnOk, ◌<◌, OnOk, OnErr, IfErr, IfOk, IfSome, Ok};
ghost use Rattle.std.specs.Bool.{OnTrue};
ghost use Rattle.hk_facts.specs.Chains.{chain_put, chain_forget, chain_until, is_new_to, RefusesPut};
ghost use Rattle.hk_facts.specs.Listed.{listed, AreByBirth};
ghost use Rattle.std.specs.FinMap as finmap;
ghost use Rattle.hk_facts.specs.Turns.{AreBounded, AreInTurn, AreOver, BeginFrom, EndBy, FitsTurn, end_in, is_above};

use crate::bounds::Bounds;
use crate::fact::{Fact, Part};
use crate::list::{are_in_turn, bounds_of};
use crate::others::Others;
use hk_log::Version;
use hk_types::{Refusal, Time};
use std::alloc::{AllocError, Global};
use std::marker::Model;

/// What is known of versions, by the time at which each was born, and whether they are known to be in turn: each has
/// ended by the time that a later one is born. The versions of a history are. Where they are, those that are over before
/// a time are found by search, and need no look. Once one is not, nothing makes them so again.
#[derive(Drop)]
pub(crate) struct Many {
    versions: Others,
    in_turn: bool,
    bounds: Bounds,
}

impl Model for Many {
    ghost use Rattle.std.specs.Coded.{coded_ℕ};
    ghost use Rattle.std.specs.FinMap as finmap;
    ghost use Rattle.hk_log.specs.Versions.{version_code};
    ghost use Rattle.hk_facts.specs.Chains.{ChainValue};
    ghost use Rattle.hk_facts.specs.Turns.{IsKept};

    ghost Value = { ChainValue };

    ghost coded = { finmap.code coded_ℕ version_code };

    ghost view = { λ a. a.versions };

    ghost invariant = { λ a. IsKept a.versions a.in_turn a.bounds };
}

impl Many {
    /// The versions of a list, copied. The only error is out of memory. Cost: O(n · log n + b), n versions, b bytes
    /// of bodies.
    pub(crate) fn of_list(alloc: Global, list: &[(Time, Version)]) -> Result<Many, AllocError>
        requires { AreByBirth list.now }
        ensures { IfOk result (λ many. many ≡ listed list.now) }
    {
        let versions = Others::of_list(alloc, list)?;
        Ok(Many {
            versions,
            in_turn: are_in_turn(list),
            bounds: bounds_of(list),
        })
    }

    /// The versions, to be looked at.
    pub(crate) fn versions(&self) -> &Others
        ensures { result.now ≡ self.now }
    {
        &self.versions
    }

    /// Adds a fact on the version that was born then, and returns whether nothing like it was known, as `Others::put` does.
    /// Cost: O(log n + b), n versions, b bytes of a body that is compared.
    pub(crate) fn put(&mut self, born: Time, fact: Fact) -> Result<bool, Refusal>
        ensures ok { OnOk result (chain_put self.old born fact ≡ Ok self.new) }
        ensures new { IfOk result (λ is. is ≡ is_new_to self.old born fact) }
        ensures err { IfErr result (λ why. RefusesPut self.old born fact why) }
        ensures kept { OnErr result (self.new ≡ self.old) }
    {
        let in_turn = self.in_turn && fits_turn(&self.versions, &self.bounds, born, &fact);
        let bounds = self.bounds.with(born, end_in(&fact));
        let is_new = self.versions.put(born, fact)?;
        self.in_turn = in_turn;
        self.bounds = bounds;
        Ok(is_new)
    }

    /// Removes a part of a version, as `Others::forget` does. Cost: O(log n), n versions.
    pub(crate) fn forget(&mut self, born: Time, part: Part)
        ensures { self.new ≡ chain_forget self.old born part }
    {
        self.versions.forget(born, part);
    }

    /// Drops each version whose end is known and at most `until`, and nothing else.
    /// Cost: O(n + d · log n), n versions, d of them dropped.
    pub(crate) fn drop_until(&mut self, until: Time)
        ensures { self.new ≡ chain_until self.old until }
    {
        self.versions.drop_until(until);
    }

    /// A time up to which all versions are over before another, where one is known. It takes no memory. Cost: O(log n), n versions.
    pub(crate) fn over_before(&self, time: Time) -> Option<Time>
        ensures { AreOver self.now time result }
    {
        if !self.in_turn {
            return None;
        }
        match self.versions.last_before(time) {
            Some((last, _version)) => birth_before(&self.versions, last),
            None => None,
        }
    }

    /// The same versions again. The only error is out of memory. Cost: O(n · log n + b), n versions, b bytes
    /// of bodies, all copied.
    pub(crate) fn copy(&self, alloc: Global) -> Result<Many, AllocError>
        ensures { IfOk result (λ many. many ≡ self.now) }
    {
        let versions = self.versions.copy(alloc)?;
        Ok(Many {
            versions,
            in_turn: self.in_turn,
            bounds: self.bounds,
        })
    }
}

/// The end that a fact says.
#[inline(always)]
fn end_in(fact: &Fact) -> Option<Time>
    ensures { result ≡ end_in fact.now }
{
    match fact {
        Fact::Row(_row) => None,
        Fact::End(died) => Some(*died),
    }
}

/// Whether versions in turn are so with a fact on the version that was born then, too. Cost: O(log n), n versions, and O(1) where their
/// bounds say so.
#[inline(always)]
fn fits_turn(versions: &Others, bounds: &Bounds, born: Time, fact: &Fact) -> bool
    requires turn { AreInTurn versions.now }
    requires bounded { AreBounded (finmap.get versions.now) bounds.now }
    ensures { OnTrue result (FitsTurn versions.now born fact.now) }
{
    match fact {
        Fact::Row(_row) => all_end_by(versions, bounds, born),
        Fact::End(died) => all_end_by(versions, bounds, born)
            && all_begin_from(versions, bounds, born, *died),
    }
}

/// Whether no version that was born before a time ends after it.
#[inline(always)]
fn all_end_by(versions: &Others, bounds: &Bounds, time: Time) -> bool
    requires turn { AreInTurn versions.now }
    requires bounded { AreBounded (finmap.get versions.now) bounds.now }
    ensures { OnTrue result (EndBy versions.now time) }
{
    bounds.latest <= time || end_by(versions, time)
}

/// Whether no version that was born after a time was born before another.
#[inline(always)]
fn all_begin_from(versions: &Others, bounds: &Bounds, time: Time, from: Time) -> bool
    requires { AreBounded (finmap.get versions.now) bounds.now }
    ensures { OnTrue result (BeginFrom versions.now time from) }
{
    bounds.is_free(time, from) || begin_from(versions, time, from)
}

/// The same by a look at the versions: where one was born at the time, none ends after it.
fn end_by(versions: &Others, time: Time) -> bool
    requires { AreInTurn versions.now }
    ensures { OnTrue result (EndBy versions.now time) }
{
    versions.version(time).is_some()
        || match versions.last_before(time) {
            Some((_born, version)) => !ends_after(version, time),
            None => true,
        }
}

/// The time at which the last version was born that was born before another.
fn birth_before(versions: &Others, time: Time) -> Option<Time>
    ensures { IfSome result (λ born. born < time) }
{
    match versions.last_before(time) {
        Some((born, _version)) => Some(born),
        None => None,
    }
}

/// The same by a look at the versions.
fn begin_from(versions: &Others, time: Time, from: Time) -> bool
    ensures { OnTrue result (BeginFrom versions.now time from) }
{
    match versions.next(&Some(time)) {
        Some((born, _version)) => from <= born,
        None => true,
    }
}

/// Whether the end of a version is known, and after this time.
fn ends_after(version: &Version, time: Time) -> bool
    ensures { result ≡ is_above time version.now.died }
{
    match version.died() {
        None => false,
        Some(died) => time < died,
    }
}
