//! How a change runs.

ghost use Rattle.std.specs.Prelude.{◌≡◌, ◌≤◌, [], None, Some, true, length, IfOk, IfErr};
ghost use Rattle.hk_types.specs.declared.faults.Refusal.TheVariants.{Unpublished};
ghost use Rattle.hk_model.specs.Replica.Fragments.{cut};
ghost use Rattle.hk_oplog.specs.declared.op.Op.TheVariants.{Hold as HoldAt, Join as JoinOf, Merge as MergeOf, Prune as PruneTo, Release};
ghost use Rattle.hk_node.specs.Changes.{all_of, AddsTo, Changes, CountedAs, HoldsAt, IsGiven, IsHandedBack, IsHandedOut, Prunes, Publishes, Refuses, ReleasesHold};
ghost use Rattle.hk_oplog.specs.Lists.{last_of};
ghost use Rattle.hk_oplog.specs.NewItems.{new_to};
ghost use Rattle.hk_oplog.specs.Replay.{is_legal, refusal_of, replay, IsListOf};

use crate::book::{NodeName, Prefix};
use crate::publisher::{Publisher, Receipt};
use hk_fragment::Fragment;
use hk_log::Item;
use hk_oplog::{Hold, Op};
use hk_state::ReplicaState;
use hk_types::{Refusal, Time};
use std::sync::Wait;

/// One change, at what lies under the writer's lock: every change of a node runs by this function.
///
/// What waits is published first; where that is refused, it is `Memory` and nothing changed: at no other time does
/// `Memory` come before the tests, and at most one operation waits. Then the operation is
/// tested after all others, and its refusal answered: in a guarded node also `Conflict`, where it conflicts with what the
/// node holds, or touches its past. Then it is added and published, as `add` does: `Memory`, `Unpublished`, and `Conflict` of a
/// node that is not guarded. Cost: that of the tests, of the operation, and of what waits.
pub fn change<J: NodeName, R: Wait + Drop>(
    publisher: &mut Publisher<J, R>,
    op: Op,
) -> Result<Receipt<J>, Refusal>
    ensures change { Changes publisher.old op result publisher.new }
    ensures few { length publisher.new.1 ≤ 1 }
    ensures before { IsListOf J.kind (all_of publisher.old) }
    ensures legal { IfOk result (λ list. is_legal list ≡ true) }
    ensures last { IfOk result (λ list. last_of list ≡ Some op) }
{
    let Ok(()) = publisher.publish() else {
        return Err(Refusal::Memory);
    };
    if let Some(why) = publisher.refusal(&op) {
        return Err(why);
    }
    add(publisher, op)
}

/// The join of the fragment that items were gathered to, at what lies under the writer's lock: it runs as `change`, and
/// returns how many of the items were new. Cost: that of `change`, and of a look at each item.
pub fn join_gathered<J: NodeName, R: Wait + Drop>(
    publisher: &mut Publisher<J, R>,
    fragment: Fragment,
    items: &[Item],
) -> Result<(u64, Receipt<J>), Refusal>
    ensures change { CountedAs (λ r. Changes publisher.old (JoinOf fragment) r publisher.new) result }
    ensures before { IsListOf J.kind (all_of publisher.old) }
    ensures legal { IfOk result (λ t. is_legal t.1 ≡ true) }
    ensures last { IfOk result (λ t. last_of t.1 ≡ Some (JoinOf fragment)) }
    ensures new { IfOk result (λ t. t.0 ≡ new_to t.1 items.now) }
{
    let Ok(()) = publisher.publish() else {
        return Err(Refusal::Memory);
    };
    let op = Op::Join(fragment);
    match publisher.refusal(&op) {
        Some(why) => Err(why),
        None => {
            let new = publisher.count_new(items);
            match add(publisher, op) {
                Ok(receipt) => Ok((new, receipt)),
                Err(why) => Err(why),
            }
        }
    }
}

/// Adds an operation that is not refused behind the published list, where nothing waits, and publishes it: `Memory` where
/// it could not be added; `Unpublished` with its number where it could not be published, and then it waits, and the next
/// publish shows it; `Conflict` where it met a conflict, by which the node fails for good: a guarded node refuses such an
/// operation before. Cost: that of the operation.
#[tactic(auto, using(hk_oplog::proofs::LegalLists::last_snoc))]
pub(crate) fn add<J: NodeName, R: Wait + Drop>(
    publisher: &mut Publisher<J, R>,
    op: Op,
) -> Result<Receipt<J>, Refusal>
    requires none { publisher.old.1 ≡ [] }
    requires legal { refusal_of (replay publisher.old.0) op ≡ None }
    ensures adds { AddsTo publisher.old.0 op result publisher.new }
    ensures few { length publisher.new.1 ≤ 1 }
    ensures legal { IfOk result (λ list. is_legal list ≡ true) }
    ensures last { IfOk result (λ list. last_of list ≡ Some op) }
{
    let Some(prefix) = publisher.extended(&op) else {
        return Err(Refusal::Memory);
    };
    let waits = unpublished(&prefix);
    publisher.put(op, prefix);
    let Ok(()) = publisher.publish() else {
        return Err(waits);
    };
    if publisher.published().body.is_damaged() {
        return Err(Refusal::Conflict);
    }
    Ok(publisher.receipt())
}

/// The refusal of a change that waits, with the number of its operation.
fn unpublished(prefix: &Prefix) -> Refusal
    ensures { result ≡ Unpublished (length prefix.now.1) }
{
    let ops = prefix.len();
    Refusal::Unpublished { ops }
}

/// A publish, at what lies under the writer's lock: what waits is published, and the receipt names the complete list.
/// The only refusal is `Memory`, where something waits, and it changes nothing. Cost: that of what waits.
pub fn publish_waiting<J: NodeName, R: Wait + Drop>(
    publisher: &mut Publisher<J, R>,
) -> Result<Receipt<J>, Refusal>
    ensures publish { Publishes publisher.old result publisher.new }
    ensures before { IsListOf J.kind (all_of publisher.old) }
    ensures legal { IfOk result (λ list. is_legal list ≡ true) }
{
    match publisher.publish() {
        Ok(()) => Ok(publisher.receipt()),
        Err(_) => Err(Refusal::Memory),
    }
}

/// A merge of a state, at what lies under the writer's lock, with the full snapshot of the state or the refusal of
/// memory for it: it runs as `change`, also where the snapshot could not be made. Cost: that of `change`.
pub fn merge_whole<J: NodeName, R: Wait + Drop>(
    publisher: &mut Publisher<J, R>,
    state: &ReplicaState,
    whole: Result<Fragment, Refusal>,
) -> Result<Receipt<J>, Refusal>
    requires whole { IfOk whole (λ fragment. fragment ≡ cut state.now 0) }
    ensures change { Changes publisher.old (MergeOf (cut state.now 0)) result publisher.new }
    ensures before { IsListOf J.kind (all_of publisher.old) }
    ensures legal { IfOk result (λ list. is_legal list ≡ true) }
    ensures last { IfOk result (λ list. last_of list ≡ Some (MergeOf (cut state.now 0))) }
{
    match whole {
        Ok(whole) => change(publisher, Op::Merge(whole)),
        Err(_) => Err(refusal_of_merge(publisher, state)),
    }
}

/// The refusal of a merge whose full snapshot could not be made.
fn refusal_of_merge<J: NodeName, R: Wait + Drop>(
    publisher: &mut Publisher<J, R>,
    state: &ReplicaState,
) -> Refusal
    ensures refuses { Refuses publisher.old (MergeOf (cut state.now 0)) result publisher.new }
    ensures before { IsListOf J.kind (all_of publisher.old) }
{
    let Ok(()) = publisher.publish() else {
        return Refusal::Memory;
    };
    match publisher.published().body.merge_refusal(state) {
        Some(why) => why,
        None => Refusal::Memory,
    }
}

/// A prune to a time, at what lies under the writer's lock: it runs as `change`, and returns the oldest readable time
/// after it. Cost: that of `change`.
pub fn prune_to<J: NodeName, R: Wait + Drop>(
    publisher: &mut Publisher<J, R>,
    time: Time,
) -> Result<(Time, Receipt<J>), Refusal>
    ensures change { Prunes publisher.old time result publisher.new }
    ensures before { IsListOf J.kind (all_of publisher.old) }
    ensures legal { IfOk result (λ t. is_legal t.1 ≡ true) }
    ensures last { IfOk result (λ t. last_of t.1 ≡ Some (PruneTo time)) }
    ensures horizon { IfOk result (λ t. t.0 ≡ (replay t.1).content.horizon) }
{
    let receipt = change(publisher, Op::Prune(time))?;
    let horizon = publisher.published().body.horizon();
    Ok((horizon, receipt))
}

/// A pin of a time, at what lies under the writer's lock: it runs as `change`. Its number is the count of the list's
/// pins, this one included. Cost: that of `change`.
pub fn hold_at<J: NodeName, R: Wait + Drop>(
    publisher: &mut Publisher<J, R>,
    time: Time,
) -> Result<(Hold, Receipt<J>), (Option<Hold>, Refusal)>
    ensures change { HoldsAt publisher.old time result publisher.new }
    ensures before { IsListOf J.kind (all_of publisher.old) }
    ensures legal { IfOk result (λ t. is_legal t.1 ≡ true) }
    ensures last { IfOk result (λ t. last_of t.1 ≡ Some (HoldAt time)) }
    ensures hold { IfOk result (λ t. IsGiven t.0 time t.1) }
    ensures waits { IfErr result (λ e. IsHandedOut (all_of publisher.new) time e.0 e.1) }
{
    match change(publisher, Op::Hold(time)) {
        Ok(receipt) => {
            let reader = publisher.hold_count();
            Ok((Hold { reader, at: time }, receipt))
        }
        Err(Refusal::Unpublished { ops }) => {
            let reader = publisher.hold_count() + 1;
            Err((
                Some(Hold { reader, at: time }),
                Refusal::Unpublished { ops },
            ))
        }
        Err(why) => Err((None, why)),
    }
}

/// Why a pin of a time is refused where its caller has no room to keep it, at what lies under the writer's lock: the test that
/// refuses it, once what waits is published, else `Memory`. No operation is added. Cost: that of the tests, and of what waits.
pub fn hold_refusal<J: NodeName, R: Wait + Drop>(
    publisher: &mut Publisher<J, R>,
    time: Time,
) -> Refusal
    ensures refuses { Refuses publisher.old (HoldAt time) result publisher.new }
    ensures none { IsHandedOut (all_of publisher.new) time None result }
    ensures before { IsListOf J.kind (all_of publisher.old) }
{
    let Ok(()) = publisher.publish() else {
        return Refusal::Memory;
    };
    match publisher.refusal(&Op::Hold(time)) {
        Some(why) => why,
        None => Refusal::Memory,
    }
}

/// A release of a pin, at what lies under the writer's lock: it runs as `change`. It hands the pin back on every
/// refusal but `Unpublished`. Cost: that of `change`.
pub fn release_hold<J: NodeName, R: Wait + Drop>(
    publisher: &mut Publisher<J, R>,
    hold: Hold,
) -> Result<Receipt<J>, (Option<Hold>, Refusal)>
    ensures change { ReleasesHold publisher.old hold result publisher.new }
    ensures before { IsListOf J.kind (all_of publisher.old) }
    ensures legal { IfOk result (λ list. is_legal list ≡ true) }
    ensures last { IfOk result (λ list. last_of list ≡ Some (Release hold.reader hold.at)) }
    ensures back { IfErr result (λ e. IsHandedBack hold e.0 e.1) }
{
    let op = Op::Release {
        reader: hold.reader,
        at: hold.at,
    };
    match change(publisher, op) {
        Ok(receipt) => Ok(receipt),
        Err(why) => Err(handed_back(hold, why)),
    }
}

/// The refusal of a pin's release, with the pin but where its release waits.
fn handed_back(hold: Hold, why: Refusal) -> (Option<Hold>, Refusal)
    ensures why { result.1 ≡ why }
    ensures back { IsHandedBack hold result.0 result.1 }
{
    match why {
        Refusal::Unpublished { ops } => (None, Refusal::Unpublished { ops }),
        why => (Some(hold), why),
    }
}
