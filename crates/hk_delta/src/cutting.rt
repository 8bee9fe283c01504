//! Fragments of a state: a full snapshot, or what changed since a time.

ghost use Rattle.std.specs.Prelude.{◌≡◌, ◌⊎◌, ◌≤◌, ◌++◌, map, OnOk, IfOk, IfErr};
ghost use Rattle.hk_types.specs.declared.faults.Refusal.TheVariants.{Memory, TooOld as Old};
ghost use Rattle.hk_model.specs.Replica.Fragments.{cut};
ghost use Rattle.hk_store.specs.Reads.{facts_of_content};
ghost use Rattle.hk_store.specs.Versions.{borrowed};
ghost use Rattle.hk_delta.specs.Cuts as spec;
ghost use Rattle.hk_delta.specs.Cuts.{Cuts, CutsOf, IsAllLeft, IsLeftOf, all_left, known_left};

use crate::Fragment;
use hk_log::Version;
use hk_state::ReplicaState;
use hk_store::Facts;
use hk_types::{Refusal, Row, Time, VersionKey};
use std::alloc::{AllocError, Global};

/// A copy of the row of a version, where the version was born above a base.
fn row_above(
    alloc: Global,
    base: Time,
    version: &VersionKey,
    known: &Version,
) -> Result<Option<Row>, AllocError>
    ensures { IfOk result (λ row. row ≡ spec.row_above base version.now.born known.now.row) }
{
    match known.row() {
        Some(row) if base < version.born => Ok(Some(row.copy(alloc)?)),
        _ => Ok(None),
    }
}

/// The end of a version, where it is above a base.
fn end_above(base: Time, known: &Version) -> Option<Time>
    ensures { result ≡ spec.end_above base known.now.died }
{
    match known.died() {
        Some(died) if base < died => Some(died),
        _ => None,
    }
}

/// Adds what is left of a version above a base, where anything is.
fn push_left(
    alloc: Global,
    facts: &mut Vec<(VersionKey, Version)>,
    base: Time,
    version: &VersionKey,
    known: &Version,
) -> Result<(), AllocError>
    ensures { OnOk result (facts.new.items ≡ facts.old.items ++ known_left base version.now known.now) }
{
    let row = row_above(alloc, base, version, known)?;
    if let Some(left) = Version::new(row, end_above(base, known)) {
        facts.push((*version, left))?;
    }
    Ok(())
}

/// What is left of versions above a base.
fn left_of(
    alloc: Global,
    base: Time,
    versions: &[(VersionKey, &Version)],
) -> Result<Vec<(VersionKey, Version)>, AllocError>
    ensures { IfOk result (λ facts. facts.items ≡ all_left base (map borrowed versions.now)) }
{
    let mut facts = Vec::new(alloc);
    for (version, known) in versions {
        push_left(alloc, &mut facts, base, version, known)?;
    }
    Ok(facts)
}

/// What is left of all versions above a base, in one walk.
pub(crate) fn left_of_all(
    alloc: Global,
    base: Time,
    facts: &Facts,
) -> Result<Vec<(VersionKey, Version)>, AllocError>
    ensures { IfOk result (λ left. IsAllLeft facts.now base left.items) }
{
    let mut left = Vec::new(alloc);
    for (version, known) in facts.walk() {
        push_left(alloc, &mut left, base, &version, known)?;
    }
    Ok(left)
}

/// The fragment of a state with a base that is 0 or at least its oldest readable time, of what is left of its versions
/// above the base.
fn fragment_from(
    alloc: Global,
    state: &ReplicaState,
    base: Time,
    left: Vec<(VersionKey, Version)>,
) -> Result<Fragment, Refusal>
    requires base { (base ≡ 0) ⊎ (state.now.horizon ≤ base) }
    requires left { IsLeftOf (facts_of_content state.now) base left.items }
    ensures ok { IfOk result (λ fragment. fragment ≡ cut state.now base) }
    ensures err { IfErr result (λ why. why ≡ Memory) }
{
    let got = state.got().copy(alloc)?;
    Ok(Fragment::of_parts(state.config(), base, state.horizon(), got, left))
}

/// The full snapshot of a state: all that it holds, as a fragment of base 0.
///
/// The only refusal is `Memory`. Cost: O(n · log n + b), n versions, extra numbers and waiting marks held,
/// b bytes of bodies, all copied.
pub fn whole_of(alloc: Global, state: &ReplicaState) -> Result<Fragment, Refusal>
    ensures ok { IfOk result (λ fragment. fragment ≡ cut state.now 0) }
    ensures err { IfErr result (λ why. why ≡ Memory) }
    ensures represents { CutsOf state.now 0 result }
{
    let left = left_of_all(alloc, Time::zero(), state.facts())?;
    fragment_from(alloc, state, Time::zero(), left)
}

/// What a state holds and a replica may lack whose resolved time is at least the base: the rows that were born above
/// it, the ends above it, and all numbers and marks.
///
/// A base below the oldest readable time is refused `TooOld` with that time, and then `Memory` comes where a growth
/// was refused. Cost: O((1 + k) · log n + b), k versions with a row or an end above the base and extra numbers and
/// waiting marks held, n versions, b bytes of the bodies that are copied.
pub fn delta_since(alloc: Global, state: &ReplicaState, base: Time) -> Result<Fragment, Refusal>
    ensures gives { Cuts state.now base result }
    ensures represents { CutsOf state.now base result }
{
    let horizon = state.horizon();
    if base < horizon {
        return Err(Refusal::TooOld { horizon });
    }
    let versions = state.facts().stated_above(alloc, base)?;
    let left = left_of(alloc, base, &versions)?;
    fragment_from(alloc, state, base, left)
}
