//! What a join changes.

ghost use Rattle.std.specs.Prelude.{◌≡◌, ◌++◌, map, is_some, OnOk, IfOk, IfErr};
ghost use Rattle.std.specs.Option.{option_copied};
ghost use Rattle.std.specs.FinSet as set;
ghost use Rattle.hk_types.specs.declared.faults.Refusal.TheVariants.{Memory};
ghost use Rattle.hk_types.specs.declared.version_key.VersionKey.{VersionKey};
ghost use Rattle.hk_facts.specs.Facts.{died_of};
ghost use Rattle.hk_store.specs.Facts.{entry_if};
ghost use Rattle.hk_store.specs.Versions.{borrowed};
ghost use Rattle.hk_merge.specs.Growing.{AddsEnds, AddsRows, GainsDrops, GainsEnds, GainsRows};
ghost use Rattle.hk_merge.specs.Growing.{drop_of, drops_of, end_back_of, end_of_coming, ends_back_of, goes_of};
ghost use Rattle.hk_merge.specs.Growing.{row_back_of, row_of_coming, rows_back_of, stays_of};
ghost use Rattle.hk_merge.specs.Growing.{end_from, row_from};
ghost use Rattle.hk_merge.specs.Plans.{may_go};
ghost use Rattle.hk_merge.specs.Sent.{content_sent};

use crate::sent::{Sent, has_row};
use hk_facts::ended_by;
use hk_fragment::Fragment;
use hk_index::VersionSet;
use hk_log::Version;
use hk_state::{Change, ReplicaState};
use hk_store::Facts;
use hk_types::{Refusal, Row, Time, VersionKey};
use std::alloc::{AllocError, Global};

/// What becomes of the target's own facts where the oldest readable time rises.
#[derive(Clone, Copy)]
pub(crate) struct Retention<'a> {
    /// Whether a full snapshot is sent.
    pub(crate) whole: bool,
    /// The oldest readable time after the rise.
    pub(crate) horizon: Time,
    /// What is sent.
    pub(crate) sent: &'a Sent<'a>,
}

/// What becomes of what is sent.
#[derive(Clone, Copy)]
pub(crate) struct Admission {
    /// Whether rows born at the `horizon` or before come too.
    pub(crate) old: bool,
    /// The oldest readable time after the join.
    pub(crate) horizon: Time,
}

impl Retention<'_> {
    /// Whether a row of the target's own is kept.
    fn keeps_row(&self, version: &VersionKey, own: &Version) -> bool
        ensures { result ≡ stays_of self.now version.now own.now }
    {
        if self.horizon < version.born {
            return true;
        }
        if self.whole {
            self.sent.has_row(version)
        } else {
            !ended_by(own, self.horizon)
        }
    }

    /// Whether a row or an end of the target's own is dropped.
    fn goes(&self, version: &VersionKey, own: &Version) -> bool
        ensures { result ≡ goes_of self.now version.now own.now }
    {
        ended_by(own, self.horizon) || (own.row().is_some() && !self.keeps_row(version, own))
    }
}

/// Adds to a change what becomes of a version of the target's own.
fn leave_version(
    alloc: Global,
    change: &mut Change,
    leaving: &Retention,
    version: &VersionKey,
    own: &Version,
) -> Result<(), AllocError>
    ensures drops { OnOk result (GainsDrops change.old change.new (drop_of leaving.now version.now own.now)) }
    ensures rows { OnOk result (GainsRows change.old change.new (row_back_of leaving.now version.now own.now)) }
    ensures ends { OnOk result (GainsEnds change.old change.new (end_back_of leaving.now version.now own.now)) }
    ensures horizon { change.new.horizon ≡ change.old.horizon }
{
    if !leaving.goes(version, own) {
        return Ok(());
    }
    change.drops.push(*version)?;
    if leaving.keeps_row(version, own) {
        push_row(alloc, &mut change.rows, version, own)?;
    }
    if !ended_by(own, leaving.horizon) {
        push_end(&mut change.ends, version, own)?;
    }
    Ok(())
}

/// Adds a copy of the row that is known of a version, where one is.
fn push_row(
    alloc: Global,
    rows: &mut Vec<(VersionKey, Row)>,
    version: &VersionKey,
    known: &Version,
) -> Result<(), AllocError>
    ensures { OnOk result (rows.new.items ≡ rows.old.items ++ entry_if version.now known.now.row) }
{
    if let Some(row) = known.row() {
        rows.push((*version, row.copy(alloc)?))?;
    }
    Ok(())
}

/// Adds the end that is known of a version, where one is.
fn push_end(
    ends: &mut Vec<(VersionKey, Time)>,
    version: &VersionKey,
    known: &Version,
) -> Result<(), AllocError>
    ensures { OnOk result (ends.new.items ≡ ends.old.items ++ entry_if version.now known.now.died) }
{
    if let Some(died) = known.died() {
        ends.push((*version, died))?;
    }
    Ok(())
}

/// Adds to a change what becomes of the target's own versions.
pub(crate) fn leave(
    alloc: Global,
    change: &mut Change,
    leaving: &Retention,
    own: &[(VersionKey, &Version)],
) -> Result<(), AllocError>
    ensures drops { OnOk result (GainsDrops change.old change.new (drops_of leaving.now (map borrowed own.now))) }
    ensures rows { OnOk result (GainsRows change.old change.new (rows_back_of leaving.now (map borrowed own.now))) }
    ensures ends { OnOk result (GainsEnds change.old change.new (ends_back_of leaving.now (map borrowed own.now))) }
    ensures horizon { change.new.horizon ≡ change.old.horizon }
{
    for (version, known) in own {
        leave_version(alloc, change, leaving, version, known)?;
    }
    Ok(())
}

/// Adds to a change what the join adds of a version that is sent.
fn take_version(
    alloc: Global,
    change: &mut Change,
    coming: &Admission,
    own: &Facts,
    version: &VersionKey,
    sent: &Version,
) -> Result<(), AllocError>
    ensures rows { OnOk result (GainsRows change.old change.new (row_of_coming own.now coming.now version.now sent.now)) }
    ensures ends { OnOk result (GainsEnds change.old change.new (end_of_coming own.now coming.now version.now sent.now)) }
    ensures drops { change.new.drops.items ≡ change.old.drops.items }
    ensures horizon { change.new.horizon ≡ change.old.horizon }
{
    let held = own.version(version);
    if (coming.horizon < version.born || coming.old) && !has_row(held) {
        push_row(alloc, &mut change.rows, version, sent)?;
    }
    if !ended_by(sent, coming.horizon) && !has_end(held) {
        push_end(&mut change.ends, version, sent)?;
    }
    Ok(())
}

/// Whether an end is known.
fn has_end(held: Option<&Version>) -> bool
    ensures { result ≡ is_some (died_of (option_copied held.entry)) }
{
    match held {
        Some(known) => known.died().is_some(),
        None => false,
    }
}

/// Adds to a change what the join adds of a fragment that is sent.
fn take_part(
    alloc: Global,
    change: &mut Change,
    coming: &Admission,
    own: &Facts,
    fragment: &Fragment,
) -> Result<(), AllocError>
    ensures rows { OnOk result (AddsRows change.old change.new (row_from own.now coming.now fragment.now.content)) }
    ensures ends { OnOk result (AddsEnds change.old change.new (end_from own.now coming.now fragment.now.content)) }
    ensures drops { change.new.drops.items ≡ change.old.drops.items }
    ensures horizon { change.new.horizon ≡ change.old.horizon }
{
    let facts = fragment.facts();
    for (version, known) in facts {
        take_version(alloc, change, coming, own, version, known)?;
    }
    Ok(())
}

/// Adds to a change what the join adds of a state that is sent.
fn take_whole(
    alloc: Global,
    change: &mut Change,
    coming: &Admission,
    own: &Facts,
    state: &ReplicaState,
) -> Result<(), AllocError>
    ensures rows { OnOk result (AddsRows change.old change.new (row_from own.now coming.now state.now)) }
    ensures ends { OnOk result (AddsEnds change.old change.new (end_from own.now coming.now state.now)) }
    ensures drops { change.new.drops.items ≡ change.old.drops.items }
    ensures horizon { change.new.horizon ≡ change.old.horizon }
{
    for (version, known) in state.facts().walk() {
        take_version(alloc, change, coming, own, &version, known)?;
    }
    Ok(())
}

/// Adds to a change what the join adds of what is sent.
pub(crate) fn take(
    alloc: Global,
    change: &mut Change,
    coming: &Admission,
    own: &Facts,
    sent: &Sent,
) -> Result<(), AllocError>
    ensures rows { OnOk result (AddsRows change.old change.new (row_from own.now coming.now (content_sent sent.now))) }
    ensures ends { OnOk result (AddsEnds change.old change.new (end_from own.now coming.now (content_sent sent.now))) }
    ensures drops { change.new.drops.items ≡ change.old.drops.items }
    ensures horizon { change.new.horizon ≡ change.old.horizon }
{
    match sent {
        Sent::Part(fragment) => take_part(alloc, change, coming, own, fragment),
        Sent::Whole(state) => take_whole(alloc, change, coming, own, state),
    }
}

/// The versions of the target's own that may be dropped where the oldest readable time rises. The only refusal is
/// `Memory`. Cost: O(log n + k · log k), n facts, k versions returned.
pub(crate) fn may_go(
    alloc: Global,
    own: &Facts,
    whole: bool,
    horizon: Time,
) -> Result<VersionSet, Refusal>
    ensures ok { IfOk result (λ versions. (q : VersionKey) → set.contains versions q ≡ may_go whole horizon own.now q) }
    ensures err { IfErr result (λ why. why ≡ Memory) }
{
    if whole {
        return own.stated_until(alloc, horizon);
    }
    let ended = own.ended(alloc, horizon)?;
    VersionSet::of(alloc, &ended)
}
