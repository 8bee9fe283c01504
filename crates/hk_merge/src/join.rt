//! Joining what is sent.

ghost use Rattle.std.specs.Prelude.{◌≡◌, max, length, IfOk, IfErr, OnOk, OnErr, false};
ghost use Rattle.hk_types.specs.declared.faults.Refusal.TheVariants.{Memory};
ghost use Rattle.hk_model.specs.Replica.Rules.{contents_conflict, content_after_join};
ghost use Rattle.hk_model.specs.Replica.Lawful.{IsLawful, IsLawfulFragment};
ghost use Rattle.hk_merge.specs.Sent.{fragment_sent};
ghost use Rattle.hk_merge.specs.Growing.{AddsDrops, AddsEnds, AddsRows, IsJoinOf, after_change, has_horizon};
ghost use Rattle.hk_merge.specs.Plans.{gone_at, rises, row_back_at, end_back_at};
ghost use Rattle.hk_merge.specs.Calls.{Joins, Merges, MergesOf, refusal_of};

use crate::plan::{Admission, Retention, leave, may_go, take};
use crate::refusals::wrong_log;
use crate::sent::Sent;
use hk_state::{Change, ReplicaState};
use hk_types::{Refusal, Time};

/// The later of two times.
pub(crate) fn later(a: Time, b: Time) -> Time
    ensures { result ≡ max a b }
{
    if a < b { b } else { a }
}

/// Joins what is sent into the target's state.
///
/// What is of another log is refused `ForeignLog`, with another number of streams `WrongStreams`. What leaves a gap,
/// since its base is above the target's resolved time, is refused `Gap` with these two times. What has another row or
/// another end of a version than the target is refused `Conflict`, also where memory ran out before that was met.
/// `Memory` comes last, where a growth was refused. A refusal changes nothing.
///
/// Cost: O((s + c + d) · log n + b), s streams, c versions sent, numbers and marks sent that wait for others and
/// those of the target's that they free, d versions of the target's own that are dropped since the oldest readable
/// time rises, n all these and all that the target holds, b bytes of bodies compared or copied.
pub fn join_sent(target: &mut ReplicaState, sent: &Sent) -> Result<(), Refusal>
    ensures { Joins target.old target.new (fragment_sent sent.now) result }
{
    if let Some(why) = wrong_log(target, sent.config()) {
        return Err(why);
    }
    let base = sent.base();
    let readable = target.readable();
    if readable < base {
        return Err(Refusal::Gap { base, readable });
    }
    join_fitting(target, sent)
}

/// Merges what a peer holds into the target's state: the join of the peer's full snapshot.
///
/// A peer of another log is refused `ForeignLog`, one with another number of streams `WrongStreams`. One that has
/// another row or another end of a version is refused `Conflict`, also where memory ran out before that was met.
/// `Memory` comes last, where a growth was refused. A refusal changes nothing.
///
/// Cost: O((s + c + d) · log n + b), s streams, c versions of the peer, its numbers and marks that wait for others
/// and those of the target's that they free, d versions of the target's own that are dropped since the oldest
/// readable time rises, n all these and all that the target holds, b bytes of bodies compared or copied. The target
/// is not copied.
pub fn merge(target: &mut ReplicaState, peer: &ReplicaState) -> Result<(), Refusal>
    ensures gives { Merges target.old target.new peer.now result }
    ensures represents { MergesOf target.old target.new peer.now result }
{
    let _lawful = peer.horizon();
    join_sent(target, &Sent::Whole(peer))
}

/// Why what is sent is not joined, where it is of the same log: it conflicts, or memory was refused.
fn refusal_of(target: &ReplicaState, sent: &Sent) -> Refusal
    ensures { result ≡ refusal_of target.now (fragment_sent sent.now) }
{
    if sent.conflicts_with(target.facts()) {
        return Refusal::Conflict;
    }
    Refusal::Memory
}

/// Joins what is sent, where it is of the same log and leaves no gap.
fn join_fitting(target: &mut ReplicaState, sent: &Sent) -> Result<(), Refusal>
    requires as_many { length (fragment_sent sent.now).content.streams ≡ length target.old.streams }
    ensures ok { OnOk result (target.new ≡ content_after_join target.old (fragment_sent sent.now)) }
    ensures agrees { OnOk result (contents_conflict target.old (fragment_sent sent.now).content ≡ false) }
    ensures err { IfErr result (λ why. why ≡ refusal_of target.old (fragment_sent sent.now)) }
    ensures kept { OnErr result (target.new ≡ target.old) }
{
    if target.horizon() < sent.horizon() {
        return join_rising(target, sent);
    }
    join_level(target, sent)
}

/// Joins what is sent, where it is of the same log and the oldest readable time does not change: in one pass, in which each
/// version is compared and added. Where that ends early, all is undone, and what is sent is compared with all that was there.
fn join_level(target: &mut ReplicaState, sent: &Sent) -> Result<(), Refusal>
    requires as_many { length (fragment_sent sent.now).content.streams ≡ length target.old.streams }
    requires level { rises target.old (fragment_sent sent.now) ≡ false }
    requires lawful { IsLawfulFragment (fragment_sent sent.now) }
    ensures ok { OnOk result (target.new ≡ content_after_join target.old (fragment_sent sent.now)) }
    ensures agrees { OnOk result (contents_conflict target.old (fragment_sent sent.now).content ≡ false) }
    ensures err { IfErr result (λ why. why ≡ refusal_of target.old (fragment_sent sent.now)) }
    ensures kept { OnErr result (target.new ≡ target.old) }
{
    let coming = coming(sent, target.horizon());
    match target.learn(&sent.told(), coming.old, sent.got()) {
        Ok(()) => Ok(()),
        Err(_) => Err(refusal_of(target, sent)),
    }
}

/// Joins what is sent, where it is of the same log and the oldest readable time rises.
fn join_rising(target: &mut ReplicaState, sent: &Sent) -> Result<(), Refusal>
    requires as_many { length (fragment_sent sent.now).content.streams ≡ length target.old.streams }
    ensures ok { OnOk result (target.new ≡ content_after_join target.old (fragment_sent sent.now)) }
    ensures agrees { OnOk result (contents_conflict target.old (fragment_sent sent.now).content ≡ false) }
    ensures err { IfErr result (λ why. why ≡ refusal_of target.old (fragment_sent sent.now)) }
    ensures kept { OnErr result (target.new ≡ target.old) }
{
    if sent.conflicts_with(target.facts()) {
        return Err(Refusal::Conflict);
    }
    join_agreed(target, sent)
}

/// Joins what is sent, where it is of the same log and conflicts with nothing.
///
/// The only refusal is `Memory`, and it changes nothing. Cost: that of `join_sent`.
fn join_agreed(target: &mut ReplicaState, sent: &Sent) -> Result<(), Refusal>
    requires as_many { length (fragment_sent sent.now).content.streams ≡ length target.old.streams }
    requires agree { contents_conflict target.old (fragment_sent sent.now).content ≡ false }
    ensures ok { OnOk result (target.new ≡ content_after_join target.old (fragment_sent sent.now)) }
    ensures err { IfErr result (λ why. why ≡ Memory) }
    ensures kept { OnErr result (target.new ≡ target.old) }
{
    let change = work_out(target, sent)?;
    target.apply(change, sent.got())
}

/// Adds to a change what becomes of the target's own versions, where the oldest readable time rises.
fn rise(change: &mut Change, target: &ReplicaState, sent: &Sent) -> Result<(), Refusal>
    ensures drops { OnOk result (AddsDrops change.old change.new (gone_at target.now (fragment_sent sent.now))) }
    ensures rows { OnOk result (AddsRows change.old change.new (row_back_at target.now (fragment_sent sent.now))) }
    ensures ends { OnOk result (AddsEnds change.old change.new (end_back_at target.now (fragment_sent sent.now))) }
    ensures horizon { change.new.horizon ≡ change.old.horizon }
    ensures err { IfErr result (λ why. why ≡ Memory) }
{
    let horizon = sent.horizon();
    if target.horizon() >= horizon {
        return Ok(());
    }
    let alloc = target.allocator();
    let leaving = Retention {
        whole: sent.base() == Time::zero(),
        horizon,
        sent,
    };
    let some = may_go(alloc, target.facts(), leaving.whole, leaving.horizon)?;
    let own = target.facts().versions_of(alloc, &some)?;
    leave(alloc, change, &leaving, &own)?;
    Ok(())
}

/// The change that joins what is sent into a target's state, where it is of the same log and conflicts with nothing.
fn work_out(target: &ReplicaState, sent: &Sent) -> Result<Change, Refusal>
    requires as_many { length (fragment_sent sent.now).content.streams ≡ length target.now.streams }
    requires agree { contents_conflict target.now (fragment_sent sent.now).content ≡ false }
    ensures ok { IfOk result (IsJoinOf target.now (fragment_sent sent.now)) }
    ensures lawful { IfOk result (λ change. IsLawful (after_change target.now (fragment_sent sent.now) change)) }
    ensures err { IfErr result (λ why. why ≡ Memory) }
{
    let alloc = target.allocator();
    let horizon = later(target.horizon(), sent.horizon());
    let mut change = Change {
        horizon,
        drops: Vec::new(alloc),
        rows: Vec::new(alloc),
        ends: Vec::new(alloc),
    };
    rise(&mut change, target, sent)?;
    let coming = coming(sent, horizon);
    take(alloc, &mut change, &coming, target.facts(), sent)?;
    Ok(change)
}

/// What becomes of the versions that are sent, at an oldest readable time.
pub(crate) fn coming(sent: &Sent, horizon: Time) -> Admission
    ensures old { result.old ≡ has_horizon (fragment_sent sent.now) horizon }
    ensures horizon { result.horizon ≡ horizon }
{
    Admission {
        old: sent.base() == Time::zero() && sent.horizon() == horizon,
        horizon,
    }
}
