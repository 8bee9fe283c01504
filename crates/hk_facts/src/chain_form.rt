//! How a chain is stored.

ghost use Rattle.std.specs.Prelude.{◌≡◌, ◌⊎◌, ◌↔◌, IsTrue, OnOk, OnErr, IfErr, IfOk, Ok, Err, None, false};
ghost use Rattle.std.specs.Option.{option_copied, option_map};
ghost use Rattle.std.specs.FinMap as finmap;
ghost use Rattle.hk_types.specs.declared.faults.Refusal.TheVariants.{Memory};
ghost use Rattle.hk_facts.specs.Chains.{chain_put, chain_forget, chain_until, is_new_to, latest_at, is_after, FirstBorn, RefusesPut};
ghost use Rattle.hk_facts.specs.Listed.{listed, first_only, is_other, AreByBirth};
ghost use Rattle.hk_facts.specs.Forms.{stored};
ghost use Rattle.hk_facts.specs.Turns.{AreOver};

use crate::fact::{Fact, Part, join, take_back, version_of};
use crate::few::Few;
use crate::list::{latest_in, next_in, version_in};
use crate::many::Many;
use crate::versions::ended_by;
use hk_log::Version;
use hk_types::{Refusal, Time};
use std::alloc::{AllocError, Global};

/// At most one version in place, then a list, and above the size of a list maps.
pub(crate) enum ChainForm {
    One(Option<(Time, Version)>),
    Few(Few),
    Many(Box<Many>),
}

// Written out, so that letting a chain with no version go costs nothing where it is seen to have none.
impl Drop for ChainForm {
    #[inline(always)]
    fn drop(self) {
        match self {
            ChainForm::One(first) => drop(first),
            ChainForm::Few(few) => drop(few),
            ChainForm::Many(many) => drop(many),
        }
    }
}

impl ChainForm {
    /// Adds a fact on the version that was born then, and returns whether nothing like it was known. One that is known
    /// already changes nothing, and one that differs from what is known is a conflict. `Memory` comes only where nothing
    /// is known of the version. A refusal changes nothing. Cost: O(log n + b), n versions, b bytes of a body that is
    /// compared; the bodies of a list are copied once, when it goes over into maps.
    #[inline(always)]
    pub(crate) fn put(&mut self, alloc: Global, born: Time, fact: Fact) -> Result<bool, Refusal>
        ensures ok { OnOk result (chain_put (stored self.old) born fact ≡ Ok (stored self.new)) }
        ensures new { IfOk result (λ is. is ≡ is_new_to (stored self.old) born fact) }
        ensures err { IfErr result (λ why. RefusesPut (stored self.old) born fact why) }
        ensures kept { OnErr result (stored self.new ≡ stored self.old) }
    {
        match self {
            ChainForm::One(first) => {
                if !has_other(first, born) {
                    return put_first(first, born, fact);
                }
                let mut few = Few::of_first(alloc, first)?;
                let result = few.put(born, fact);
                *self = ChainForm::Few(few);
                result
            }
            ChainForm::Few(few) => {
                if !few.is_full() || version_in(few.list(), born).is_some() {
                    return few.put(born, fact);
                }
                let many = put_beyond(alloc, few, born, fact)?;
                *self = ChainForm::Many(many);
                Ok(true)
            }
            ChainForm::Many(many) => many.put(born, fact),
        }
    }

    /// Removes a part of a version, its row or its end or both. A version of which nothing else is known is dropped.
    /// Cost: O(log n), n versions.
    pub(crate) fn forget(&mut self, born: Time, part: Part)
        ensures { stored self.new ≡ chain_forget (stored self.old) born part }
    {
        match self {
            ChainForm::One(first) => forget_first(first, born, part),
            ChainForm::Few(few) => few.forget(born, part),
            ChainForm::Many(many) => many.forget(born, part),
        }
    }

    /// Drops each version whose end is known and at most `until`, and nothing else.
    /// Cost: O(n + d · log n), n versions, d of them dropped.
    pub(crate) fn drop_until(&mut self, until: Time)
        ensures { stored self.new ≡ chain_until (stored self.old) until }
    {
        match self {
            ChainForm::One(first) => drop_first(first, until),
            ChainForm::Few(few) => few.drop_until(until),
            ChainForm::Many(many) => many.drop_until(until),
        }
    }

    /// Of the versions that have a row and were born at a time or before, the one born last, with the time
    /// of its birth. It takes no memory. Cost: that of `Others::latest`, or that of `latest_in`.
    pub(crate) fn latest(&self, time: Time) -> Option<(Time, &Version)>
        ensures { option_map (λ p. (p.0, p.1.now)) result ≡ latest_at (stored self.now) time }
    {
        match self {
            ChainForm::One(first) => latest_in(only(first), time),
            ChainForm::Few(few) => latest_in(few.list(), time),
            ChainForm::Many(many) => many.versions().latest(time),
        }
    }

    /// What is known of the version that was born then. Cost: O(log n), n versions.
    #[inline(always)]
    pub(crate) fn version(&self, born: Time) -> Option<&Version>
        ensures { option_copied result ≡ finmap.get (stored self.now) born }
    {
        match self {
            ChainForm::One(first) => version_in(only(first), born),
            ChainForm::Few(few) => version_in(few.list(), born),
            ChainForm::Many(many) => many.versions().version(born),
        }
    }

    /// The version born first, or the one born next after a time, with the time of its birth. It takes no
    /// memory. Cost: O(log n), n versions.
    pub(crate) fn next(&self, after: &Option<Time>) -> Option<(Time, &Version)>
        ensures { FirstBorn (stored self.now) (is_after after.now) (option_map (λ p. (p.0, p.1.now)) result) }
    {
        match self {
            ChainForm::One(first) => next_in(only(first), after),
            ChainForm::Few(few) => next_in(few.list(), after),
            ChainForm::Many(many) => many.versions().next(after),
        }
    }

    /// A time up to which all versions are over before another, where one is known: it is sought among many versions alone. It takes no
    /// memory. Cost: that of `Many::over_before`.
    pub(crate) fn over_before(&self, time: Time) -> Option<Time>
        ensures { AreOver (stored self.now) time result }
    {
        match self {
            ChainForm::Many(many) => many.over_before(time),
            _ => None,
        }
    }

    pub(crate) fn is_empty(&self) -> bool
        ensures { IsTrue result ↔ (stored self.now ≡ finmap.empty) }
    {
        match self {
            ChainForm::One(first) => first.is_none(),
            ChainForm::Few(few) => few.is_empty(),
            ChainForm::Many(many) => many.versions().is_empty(),
        }
    }

    /// The same versions again. The only error is out of memory. Cost: O(n · log n + b), n versions, b bytes
    /// of bodies, all copied.
    pub(crate) fn copy(&self, alloc: Global) -> Result<ChainForm, AllocError>
        ensures { IfOk result (λ form. stored form ≡ stored self.now) }
    {
        match self {
            ChainForm::One(first) => Ok(ChainForm::One(copy_first(alloc, first)?)),
            ChainForm::Few(few) => Ok(ChainForm::Few(few.copy(alloc)?)),
            ChainForm::Many(many) => Ok(ChainForm::Many(boxed(alloc, many.copy(alloc)?)?)),
        }
    }
}

/// The version that there is, as a list.
#[inline(always)]
fn only(first: &Option<(Time, Version)>) -> &[(Time, Version)]
    ensures same { listed result.now ≡ first_only first.now }
    ensures sorted { AreByBirth result.now }
{
    first.as_slice()
}

/// Whether there is a version that was born at another time.
#[inline(always)]
fn has_other(first: &Option<(Time, Version)>, born: Time) -> bool
    ensures { result ≡ is_other first.now born }
{
    match first {
        Some((time, _version)) => *time != born,
        None => false,
    }
}

/// Adds a fact on the version that was born then, where there is no other.
#[inline(always)]
fn put_first(first: &mut Option<(Time, Version)>, born: Time, fact: Fact) -> Result<bool, Refusal>
    requires { is_other first.old born ≡ false }
    ensures ok { OnOk result (chain_put (first_only first.old) born fact ≡ Ok (first_only first.new)) }
    ensures new { IfOk result (λ is. is ≡ is_new_to (first_only first.old) born fact) }
    ensures err { IfErr result (λ why. chain_put (first_only first.old) born fact ≡ Err why) }
    ensures kept { OnErr result (first.new ≡ first.old) }
{
    match first {
        Some((_time, version)) => join(version, fact),
        None => {
            *first = Some((born, version_of(fact)));
            Ok(true)
        }
    }
}

/// The versions of a list in maps, with a fact on one that is not among them.
fn put_beyond(alloc: Global, few: &Few, born: Time, fact: Fact) -> Result<Box<Many>, Refusal>
    requires { finmap.get few.now born ≡ None }
    ensures ok { IfOk result (λ many. chain_put few.now born fact ≡ Ok many.value) }
    ensures err { IfErr result (λ why. (chain_put few.now born fact ≡ Err why) ⊎ (why ≡ Memory)) }
{
    let mut many = boxed(alloc, Many::of_list(alloc, few.list())?)?;
    many.put(born, fact)?;
    Ok(many)
}

/// Removes a part of a version, where it was born then.
fn forget_first(first: &mut Option<(Time, Version)>, born: Time, part: Part)
    ensures { first_only first.new ≡ chain_forget (first_only first.old) born part }
{
    let Some((time, version)) = first else {
        return;
    };
    if *time != born {
        return;
    }
    if take_back(version, part) {
        return;
    }
    *first = None;
}

/// Drops a version, where it ended by then.
fn drop_first(first: &mut Option<(Time, Version)>, until: Time)
    ensures { first_only first.new ≡ chain_until (first_only first.old) until }
{
    let Some((_time, version)) = first else {
        return;
    };
    if ended_by(version, until) {
        *first = None;
    }
}

fn copy_first(
    alloc: Global,
    first: &Option<(Time, Version)>,
) -> Result<Option<(Time, Version)>, AllocError>
    ensures { IfOk result (λ copied. copied ≡ first.now) }
{
    match first {
        Some((time, version)) => Ok(Some((*time, version.copy(alloc)?))),
        None => Ok(None),
    }
}

/// The same in a box. The only error is out of memory.
fn boxed(alloc: Global, many: Many) -> Result<Box<Many>, AllocError>
    ensures { IfOk result (λ b. b.value ≡ many) }
{
    match Box::new(alloc, many) {
        Ok(many) => Ok(many),
        Err(_refused) => Err(AllocError),
    }
}
