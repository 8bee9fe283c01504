//! A fragment.

ghost use Rattle.std.specs.Prelude.{◌≡◌, length, nat_lt, ◌&&◌, Some, None, All, IfOk, OnOk, OnErr, IfErr};
ghost use Rattle.std.specs.Option.{option_copied};
ghost use Rattle.hk_types.specs.declared.faults.Refusal.TheVariants.{Memory};
ghost use Rattle.hk_model.specs.Replica.Lawful.{IsLawfulFragment};
ghost use Rattle.hk_marks.specs.Seen.{IsNumbered};
ghost use Rattle.hk_store.specs.Facts.{known_at};
ghost use Rattle.hk_store.specs.Reads.{facts_of_content};
ghost use Rattle.hk_fragment.specs.Parts as spec;
ghost use Rattle.hk_fragment.specs.Merging.{IsFromZero, union_of};

use crate::merging::merged;
use hk_log::Version;
use hk_marks::Got;
use hk_types::{Config, FormFault, Refusal, Time, VersionKey};
use std::alloc::{AllocError, Global};
use std::marker::Model;
use std::mem;

/// What a replica of one log sends to another one whose resolved time is at least the base: rows that were born above
/// the base, ends above it, and all numbers and marks. A fragment of base 0 is a full snapshot.
///
/// `base` is 0 or at least `horizon`, `horizon` is at most the least closed time of the streams, versions are born at
/// 1 or later, and ends are above `base`, `horizon` and the birth of their version.
pub struct Fragment {
    config: Config,
    base: Time,
    horizon: Time,
    got: Got,
    facts: Vec<(VersionKey, Version)>,
}

// Written out, so that a crate above which drops one sees one call, and not all that it holds.
impl Drop for Fragment {
    fn drop(self) {
        let Fragment {
            config: _,
            base: _,
            horizon: _,
            got,
            facts,
        } = self;
        drop(got);
        drop(facts);
    }
}

impl Model for Fragment {
    ghost use Rattle.hk_model.specs.Replica.Fragments.{FragmentValue};
    ghost use Rattle.hk_model.specs.Replica.Codes.{fragment_code};
    ghost use Rattle.hk_fragment.specs.Parts.{fragment_seen, IsFragment};

    ghost Value = { FragmentValue };

    ghost coded = { fragment_code };

    ghost view = { λ a. fragment_seen a.config a.base a.horizon a.got a.facts.items };

    ghost invariant = { λ a. IsFragment a.config a.base a.horizon a.got a.facts.items };
}

/// Whether a version comes after the one before it, where there is one.
pub(crate) fn follows(before: Option<VersionKey>, version: VersionKey) -> bool
    ensures { result ≡ spec.follows before version }
{
    match before {
        None => true,
        Some(last) => last < version,
    }
}

/// Whether an end is allowed.
fn is_valid_end(base: Time, horizon: Time, born: Time, died: Option<Time>) -> bool
    ensures { result ≡ spec.is_valid_end base horizon born died }
{
    match died {
        None => true,
        Some(died) => base < died && horizon < died && born < died,
    }
}

/// Whether what is known of a version is allowed in a fragment with this `base` and this `horizon`.
fn stands(base: Time, horizon: Time, version: VersionKey, known: &Version) -> bool
    ensures { result ≡ spec.is_valid_fact base horizon (version, known.now) }
{
    let born = version.born;
    if known.row().is_some() && base >= born {
        return false;
    }
    born.number() > 0 && is_valid_end(base, horizon, born, known.died())
}

/// The first fault of these facts in a fragment with this `base` and this `horizon`, if they have one: `BadOrder` and
/// `BadNumber` as `Fragment::new` returns them for facts. Cost: O(n), n facts.
pub fn facts_fault(base: Time, horizon: Time, facts: &[(VersionKey, Version)]) -> Option<FormFault>
    ensures { result ≡ spec.facts_fault base horizon None facts.now }
{
    let mut before = None;
    for (version, known) in facts {
        if !follows(before, *version) {
            return Some(FormFault::BadOrder);
        }
        if !stands(base, horizon, *version, known) {
            return Some(FormFault::BadNumber);
        }
        before = Some(*version);
    }
    None
}

/// The same facts again. The only error is out of memory. Cost: O(n + b), n facts, b bytes of bodies that copies don't share.
pub fn copy_facts(
    alloc: Global,
    facts: &[(VersionKey, Version)],
) -> Result<Vec<(VersionKey, Version)>, AllocError>
    ensures { IfOk result (λ copied. copied.items ≡ facts.now) }
{
    let mut copied = Vec::with_capacity(alloc, facts.len())?;
    for (version, known) in facts {
        copied.push((*version, known.copy(alloc)?))?;
    }
    Ok(copied)
}

impl Fragment {
    /// The fragment of these fields, or the first of these faults, in the order that the fields have in the bytes of a fragment:
    ///
    /// - `BadNumber`: `base` is neither 0 nor at least `horizon`;
    /// - `BadNumber`: `horizon` is above the least closed time of the streams;
    /// - then for each fact in turn `BadOrder` where its version does not come after the one before it, and
    ///   `BadNumber` where the version is born at 0, or has a row and is not born above `base`, or has an end that is
    ///   not above `base`, `horizon` and its birth.
    ///
    /// The fields are moved in, and dropped with a fault. It takes no memory. Cost: O(s + n), s streams, n facts.
    pub fn new(
        config: Config,
        base: Time,
        horizon: Time,
        got: Got,
        facts: Vec<(VersionKey, Version)>,
    ) -> Result<Fragment, FormFault>
        requires { length got ≡ config.streams }
        ensures { result ≡ spec.checked_fragment config base horizon got facts.items }
    {
        if base != Time::zero() && base < horizon {
            return Err(FormFault::BadNumber);
        }
        if got.readable() < horizon {
            return Err(FormFault::BadNumber);
        }
        if let Some(fault) = facts_fault(base, horizon, &facts) {
            return Err(fault);
        }
        Ok(Fragment::of_parts(config, base, horizon, got, facts))
    }

    /// The fragment of fields that make one.
    pub fn of_parts(
        config: Config,
        base: Time,
        horizon: Time,
        got: Got,
        facts: Vec<(VersionKey, Version)>,
    ) -> Fragment
        requires many { length got ≡ config.streams }
        requires faultless { spec.fragment_fault base horizon got facts.items ≡ None }
        ensures { result ≡ spec.fragment_seen config base horizon got facts.items }
    {
        Fragment {
            config,
            base,
            horizon,
            got,
            facts,
        }
    }

    /// The id of the log, and how many streams it has.
    pub fn config(&self) -> Config
        ensures log { result.log ≡ self.now.content.log }
        ensures streams { result.streams ≡ length self.now.content.streams }
    {
        self.config
    }

    /// The least resolved time that a replica must have to join the fragment. 0 is a full snapshot.
    pub fn base(&self) -> Time
        ensures value { result ≡ self.now.base }
        ensures lawful { IsLawfulFragment self.now }
    {
        self.base
    }

    /// The oldest readable time of the replica that the fragment was cut from.
    pub fn horizon(&self) -> Time
        ensures value { result ≡ self.now.content.horizon }
        ensures lawful { IsLawfulFragment self.now }
    {
        self.horizon
    }

    /// The numbers and marks of the streams: numbers are 1 to 2^62, times at most 2^62, and a waiting mark's
    /// count is at most its time.
    pub fn got(&self) -> &Got
        ensures value { result.now ≡ self.now.content.streams }
        ensures numbered { All IsNumbered self.now.content.streams }
    {
        &self.got
    }

    /// The versions of which a row or an end is known, by rising version key.
    pub fn facts(&self) -> &[(VersionKey, Version)]
        ensures value { result.now ≡ spec.versions_listed self.now.content }
        ensures faultless { spec.facts_fault self.now.base self.now.content.horizon None result.now ≡ None }
        ensures lawful { IsLawfulFragment self.now }
    {
        &self.facts
    }

    /// What is known of a version. Cost: O(log n), n facts.
    pub fn version(&self, version: VersionKey) -> Option<&Version>
        ensures { option_copied result ≡ known_at (facts_of_content self.now.content) version }
    {
        match self.facts.binary_search_by_key(&version, |(key, _)| *key) {
            Ok(place) => Some(&self.facts[place].1),
            Err(_gap) => None,
        }
    }

    /// States a lower oldest readable time; one that isn't lower changes nothing. Where a delta, whose base is above 0, states less than
    /// the replica that it was cut from, a replica that joins it keeps what is readable in it from that time on, and the same follows as
    /// where it was cut from one that was pruned less: the law `lowered_law` of hk_model. It takes no memory. Cost: O(1).
    pub fn lower_horizon(&mut self, horizon: Time)
        ensures { self.new ≡ spec.lowered self.old horizon }
    {
        if horizon < self.horizon {
            self.horizon = horizon;
        }
    }

    /// Adds the facts, numbers and marks of another fragment with `base` 0 and `horizon` 0. The only refusal is
    /// `Memory`, and then nothing is changed. Cost: O(n + w · log w + b), n facts of both, w numbers and marks of
    /// both that wait for others, b bytes of the other one's bodies, which are copied.
    pub fn take_in(&mut self, other: &Fragment) -> Result<(), Refusal>
        requires own { IsFromZero self.old }
        requires coming { IsFromZero other.now }
        requires streams { length self.old.content.streams ≡ length other.now.content.streams }
        ensures ok { OnOk result (self.new ≡ union_of self.old other.now) }
        ensures err { IfErr result (λ why. why ≡ Memory) }
        ensures kept { OnErr result (self.new ≡ self.old) }
    {
        let alloc = *self.facts.allocator();
        let coming = copy_facts(alloc, &other.facts)?;
        let room = Vec::with_capacity(alloc, self.facts.len() + coming.len())?;
        self.got.join(&other.got)?;
        let own = mem::replace(&mut self.facts, Vec::new(alloc));
        self.facts = merged(own, coming, room);
        Ok(())
    }

    /// The same fragment again. The only refusal is `Memory`. Cost: O(n + w · log w + b), n facts, w extra numbers
    /// and waiting marks, b bytes of bodies, all copied.
    pub fn copy(&self, alloc: Global) -> Result<Fragment, Refusal>
        ensures ok { IfOk result (λ fragment. fragment ≡ self.now) }
        ensures err { IfErr result (λ why. why ≡ Memory) }
    {
        let got = self.got.copy(alloc)?;
        let facts = copy_facts(alloc, &self.facts)?;
        Ok(Fragment {
            config: self.config,
            base: self.base,
            horizon: self.horizon,
            got,
            facts,
        })
    }
}
