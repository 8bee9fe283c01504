//! Whether a join touches the past.

ghost use Rattle.std.specs.Prelude.{◌≡◌, ◌==◌, ◌&&◌, nat_lt};
ghost use Rattle.std.specs.List.{list_any};
ghost use Rattle.hk_model.specs.Replica.Touches as spec;
ghost use Rattle.hk_merge.specs.Late as late;
ghost use Rattle.hk_merge.specs.Late.{AnyOf};
ghost use Rattle.hk_merge.specs.Sent.{fragment_sent};

use crate::join::{coming, later};
use crate::plan::{Admission, Retention};
use crate::sent::Sent;
use hk_facts::ended_by;
use hk_log::Version;
use hk_state::ReplicaState;
use hk_store::Facts;
use hk_types::{Time, VersionKey};

/// Whether joining what is sent touches the target's past, where some time that can be asked now stays readable. It does
/// so where it brings a row or an end that the target lacks, of a time up to the target's resolved time; or where it is a
/// full snapshot of a greater oldest readable time that lacks a row that had not ended by then, or has one that had; or
/// where the rows that are dropped as that time rises let an older one of their key show. With the items of one log no
/// join does. It is tested of what is of the same log and conflicts with nothing; a late row or end counts though it
/// would change no answer. It is never refused for want of memory.
///
/// Cost: O(s + c), s streams, c versions sent, and O(log n) for each of those with a row or an end of a time up to the
/// resolved time, n facts of both; where the oldest readable time rises that of `ReplicaState::prune_touches_past`, and
/// for a full snapshot O(n · log n).
pub fn join_touches_past(target: &ReplicaState, sent: &Sent) -> bool
    ensures { result ≡ spec.join_touches_past target.now (fragment_sent sent.now) }
{
    let horizon = later(target.horizon(), sent.horizon());
    horizon <= target.readable()
        && (brings_late(target, sent)
            || leaves_strays(target, sent)
            || target.prune_touches_past(horizon))
}

/// Whether a row or an end comes that the target lacks, of a time up to its resolved time.
fn brings_late(target: &ReplicaState, sent: &Sent) -> bool
    ensures { result ≡ spec.brings_late target.now (fragment_sent sent.now) }
{
    let coming = coming(sent, later(target.horizon(), sent.horizon()));
    let own = target.facts();
    let readable = target.readable();
    match sent {
        Sent::Part(fragment) => one_is_late(own, readable, &coming, fragment.facts()),
        Sent::Whole(state) => some_are_late(own, readable, &coming, state.facts()),
    }
}

/// Whether one of these versions comes late.
fn one_is_late(
    own: &Facts,
    readable: Time,
    coming: &Admission,
    sent: &[(VersionKey, Version)],
) -> bool
    ensures { result ≡ list_any (λ e. late.is_late own.now readable coming.now e.0 e.1) sent.now }
{
    sent.iter().any(|(version, known)| is_late(own, readable, coming, version, known))
}

/// Whether one of the versions of other facts comes late.
fn some_are_late(own: &Facts, readable: Time, coming: &Admission, sent: &Facts) -> bool
    ensures { AnyOf sent.now (λ e. late.is_late own.now readable coming.now e.0 e.1) result }
{
    for (version, known) in sent.walk() {
        if is_late(own, readable, coming, &version, known) {
            return true;
        }
    }
    false
}

/// Whether the row or the end of a version that is sent comes late.
fn is_late(
    own: &Facts,
    readable: Time,
    coming: &Admission,
    version: &VersionKey,
    sent: &Version,
) -> bool
    ensures { result ≡ late.is_late own.now readable coming.now version.now sent.now }
{
    is_row_late(own, readable, coming, version, sent)
        || is_end_late(own, readable, coming, version, sent)
}

fn is_row_late(
    own: &Facts,
    readable: Time,
    coming: &Admission,
    version: &VersionKey,
    sent: &Version,
) -> bool
    ensures { result ≡ late.late_row own.now readable coming.now version.now sent.now }
{
    version.born <= readable
        && sent.row().is_some()
        && own.row_at(version).is_none()
        && (coming.horizon < version.born || coming.old)
}

fn is_end_late(
    own: &Facts,
    readable: Time,
    coming: &Admission,
    version: &VersionKey,
    sent: &Version,
) -> bool
    ensures { result ≡ late.late_end own.now readable coming.now version.now sent.now }
{
    ended_by(sent, readable) && own.end_at(version).is_none() && !ended_by(sent, coming.horizon)
}

/// Whether what is sent is a full snapshot of a greater oldest readable time that leaves a row of the target's own
/// otherwise than a prune does.
fn leaves_strays(target: &ReplicaState, sent: &Sent) -> bool
    ensures { result ≡ spec.leaves_strays target.now (fragment_sent sent.now) }
{
    if !is_raising_whole(target, sent) {
        return false;
    }
    let horizon = sent.horizon();
    let leaving = Retention {
        whole: true,
        horizon,
        sent,
    };
    some_stray(&leaving, target.facts())
}

/// Whether a full snapshot is sent, of a greater oldest readable time than the target's.
fn is_raising_whole(target: &ReplicaState, sent: &Sent) -> bool
    ensures { result ≡ (nat_lt target.now.horizon (fragment_sent sent.now).content.horizon
        && ((fragment_sent sent.now).base == 0)) }
{
    target.horizon() < sent.horizon() && sent.base() == Time::zero()
}

/// Whether the join leaves some row of the target's own otherwise than a prune does.
fn some_stray(leaving: &Retention, own: &Facts) -> bool
    ensures { AnyOf own.now (λ e. late.strays leaving.now e.0 e.1) result }
{
    for (version, known) in own.walk() {
        if strays(leaving, &version, known) {
            return true;
        }
    }
    false
}

/// Whether the join leaves this row so.
fn strays(leaving: &Retention, version: &VersionKey, own: &Version) -> bool
    ensures { result ≡ late.strays leaving.now version.now own.now }
{
    version.born <= leaving.horizon
        && own.row().is_some()
        && ended_by(own, leaving.horizon) == leaving.sent.has_row(version)
}
