//! The node: one writer under a lock, and readers that take no lock.

ghost use Rattle.std.specs.Prelude.{◌≡◌, ◌∷◌, [], ◌<◌, ◌≤◌, List, All, None, Some, true, length, IfOk, IfErr, vec_len};
ghost use Rattle.hk_types.specs.declared.faults.Refusal.TheVariants.{Memory};
ghost use Rattle.hk_node.specs.Changes.{ChangesSome, CountedAs, HoldsSome, IsGiven, IsHandedBack, IsRefusedHold, PrunesSome, PublishesSome, ReleasesSome};
ghost use Rattle.hk_node.specs.Guarded.{TakesSome};
ghost use Rattle.hk_model.specs.Replica.Fragments.{cut};
ghost use Rattle.hk_oplog.specs.declared.op.Op.TheVariants.{Start as StartOf, Join as JoinOf, Merge as MergeOf, Prune as PruneTo, Hold as HoldAt, Release};
ghost use Rattle.hk_oplog.specs.Lists.{last_of};
ghost use Rattle.hk_oplog.specs.NewItems.{new_to};
ghost use Rattle.hk_oplog.specs.Replay.{is_legal, replay};

use crate::book::{NewList, NodeName};
use crate::change::{
    change, hold_at, hold_refusal, join_gathered, merge_whole, prune_to, publish_waiting,
    release_hold,
};
use crate::guarding::take_agreed;
use crate::publisher::{Publisher, Receipt, copies_of};
use crate::seat::{ReaderSeat, seats_of};
use hk_delta::whole_of;
use hk_fragment::Fragment;
use hk_log::Item;
use hk_oplog::{Hold, Op};
use hk_state::ReplicaState;
use hk_types::{Refusal, Time};
use std::alloc::Global;
use std::sync::{Mutex, Wait};

/// Starts a node with so many reader slots, 1 to 64, and returns a seat for each. Its list has the start alone.
///
/// The list is a new one, which names the node, and fixes of which log it is and whether it is guarded: `J` is this
/// name with both, by which a receipt of another node is none of this one's. The only refusal is `Memory`. Cost:
/// O(s + p²), s streams, p slots.
pub fn start<J: NodeName, R: Wait + Drop>(
    rt: R,
    alloc: Global,
    list: NewList,
    places: usize,
) -> Result<(Node<J, R>, Vec<ReaderSeat<J>>), Refusal>
    requires name { list ≡ (J.book, J.kind) }
    requires places { (0 < places) × (places ≤ 64) }
    ensures places { IfOk result (λ t. vec_len t.1 ≡ places) }
    ensures seats { IfOk result (λ t. All (λ seat. seat ≡ StartOf list.1 ∷ []) t.1.items) }
    ensures err { IfErr result (λ why. why ≡ Memory) }
{
    let (kind, counter, prefix) = list.into_parts();
    let mut copies = copies_of(rt, alloc, kind.again(), &prefix, places)?;
    let seats = seats_of::<J>(&mut copies.writer, &prefix, alloc, places)?;
    let publisher = Publisher::new(copies, counter, kind);
    let node = Node {
        publisher: Mutex::new(publisher),
        alloc,
    };
    Ok((node, seats))
}

/// A running node: one replica's state, changed by one caller at a time under a lock, and read by seats that take no
/// lock. Each call waits for the lock, and a change waits for the readers that still read the older copy.
///
/// Each change first publishes what waits; where that is refused it answers `Memory` before every other test, and
/// nothing changed. Then its refusals come in the order in which the call lists them. `Unpublished` means that the
/// change is made as the operation with that number and waits: readers see it once a later change or `publish` could
/// publish it. At most one operation waits. After every other refusal the list of operations is as before, but after
/// `Conflict` of a node that is not guarded: that node has failed. It refuses `Damaged` all but `publish` and a
/// seat's `streams` from then on, and has to be rebuilt.
///
/// A guarded node (`NewList::guarded`) never fails, and its past is final: it refuses `Conflict` each change that conflicts
/// with what it holds or could change an answer at a time that it can be asked, and nothing changed. Of items that is what
/// an absorb would refuse so, an item that conflicts with the state, an item before it, or the closed time of its stream;
/// and an entry whose number is applied already, of a time above the oldest readable one, that differs from the rows and
/// ends that are known. Of a fragment or a state it is that two facts of one version differ, or that its join touches the
/// past; of a prune, that this does. A fragment whose `horizon` is above the resolved time, and a mark or a number beyond
/// what is true, are joined.
///
/// Cost: each call has its own, beside O(p), p reader slots. A change is made on one copy at once, and on the other
/// one by the next change, which pays for both, or before that by `settle`.
#[derive(Drop)]
pub struct Node<J: NodeName, R: Wait + Drop> {
    publisher: Mutex<Publisher<J, R>>,
    alloc: Global,
}

impl<J: NodeName, R: Wait + Drop> Node<J, R> {
    /// Joins a fragment.
    ///
    /// Refusals in order: `Damaged`; `ForeignLog`, `WrongStreams` and `Gap` as the join of a fragment into a state; `Held`
    /// with the pin of the least time, and of the least number there, that the oldest readable time would pass; in a guarded
    /// node `Conflict` where fragment and state conflict with each other, or the join touches the past, and nothing changed;
    /// `NodeFull`; `Memory`; `Unpublished`; in another node `Conflict` where they conflict, by which it fails for good. The
    /// fragment is dropped with a refusal: who would try again keeps a copy. Cost: that of joining a fragment into a state,
    /// and O(h), h active pins; in a guarded node also O(c · log n + b) for the test under the lock, c versions of the
    /// fragment, n facts of the state, b bytes of bodies compared, and where the oldest readable time rises that of
    /// `hk_merge::join_touches_past`.
    pub fn join<W: Wait>(&self, rt: &W, fragment: Fragment) -> Result<Receipt<J>, Refusal>
        ensures legal { IfOk result (λ list. is_legal list ≡ true) }
        ensures change { ChangesSome J.kind (JoinOf fragment) result }
        ensures last { IfOk result (λ list. last_of list ≡ Some (JoinOf fragment)) }
    {
        let mut publisher = self.publisher.lock(rt);
        change(&mut *publisher, Op::Join(fragment))
    }

    /// Joins the fragment that items were gathered to, with the refusals of `join`, and returns how many of the items were
    /// new to the node: entries whose number it did not have, and marks that close more than it had closed, each compared
    /// with what the node held before. Cost: that of `join`, and of a look at each item.
    pub fn join_gathered<W: Wait>(
        &self,
        rt: &W,
        fragment: Fragment,
        items: &[Item],
    ) -> Result<(u64, Receipt<J>), Refusal>
        ensures legal { IfOk result (λ t. is_legal t.1 ≡ true) }
        ensures change { CountedAs (ChangesSome J.kind (JoinOf fragment)) result }
        ensures last { IfOk result (λ t. last_of t.1 ≡ Some (JoinOf fragment)) }
        ensures new { IfOk result (λ t. t.0 ≡ new_to t.1 items.now) }
    {
        let mut publisher = self.publisher.lock(rt);
        join_gathered(&mut *publisher, fragment, items)
    }

    /// Applies items, all or nothing, and returns how many of them were new, as `join_gathered` does: the node holds then what
    /// absorbing them one after the other leaves, by one join of those that are new. They are tested before that join is added,
    /// in every node: it is failed after the call only where it was before, and `Conflict` changed nothing.
    ///
    /// Refusals in order: `Damaged`; the refusal of the first item that an absorb would refuse, as `ForeignLog`,
    /// `WrongStreams`, or `Conflict` with the state, with an item before it, or with the closed time of its stream; in a
    /// guarded node `Conflict` where an entry whose number is applied already, of a time above the oldest readable one,
    /// differs from the rows and ends that are known; `NodeFull`; `Memory`, which comes before the refusal of an item where
    /// memory ran out while the items were tested; `Unpublished`. Cost: that of `join` of what is new, and under the lock
    /// that of `hk_delta::agreed` and a look at each item.
    pub fn take<W: Wait>(&self, rt: &W, items: &[Item]) -> Result<(u64, Receipt<J>), Refusal>
        ensures legal { IfOk result (λ t. is_legal t.1 ≡ true) }
        ensures take { CountedAs (TakesSome J.kind items.now) result }
        ensures new { IfOk result (λ t. t.0 ≡ new_to t.1 items.now) }
    {
        let mut publisher = self.publisher.lock(rt);
        take_agreed(&mut *publisher, self.alloc, items)
    }

    /// Merges a state, as the join of its full snapshot, with the refusals of `join`. The snapshot is made before the
    /// lock is taken; where there is no memory for it, `Memory` comes after the tests all the same. Cost: that of the
    /// full snapshot of the state, and of `join`.
    pub fn merge<W: Wait>(&self, rt: &W, state: &ReplicaState) -> Result<Receipt<J>, Refusal>
        ensures legal { IfOk result (λ list. is_legal list ≡ true) }
        ensures change { ChangesSome J.kind (MergeOf (cut state.now 0)) result }
        ensures last { IfOk result (λ list. last_of list ≡ Some (MergeOf (cut state.now 0))) }
    {
        let whole = whole_of(self.alloc, state);
        let mut publisher = self.publisher.lock(rt);
        merge_whole(&mut *publisher, state, whole)
    }

    /// Prunes to a time, or to the least pinned time where that is lower, and returns the oldest readable time after it.
    /// Where the lower of the two is at most the oldest readable time, that time and what can be read do not change.
    ///
    /// Refusals in order: `Damaged`; `AheadOfMark` with the resolved time, where the time is above it; in a guarded node
    /// `Conflict` where a row that is dropped lets an older one show, which no prune of one log's items does;
    /// `NodeFull`; `Memory`; `Unpublished`, which has the operation's number and no time: once `publish` returned a
    /// receipt, the front of a seat to which it was applied has the oldest readable time. Cost: that of pruning a state,
    /// and O(h), h active pins.
    pub fn prune<W: Wait>(&self, rt: &W, time: Time) -> Result<(Time, Receipt<J>), Refusal>
        ensures legal { IfOk result (λ t. is_legal t.1 ≡ true) }
        ensures change { PrunesSome J.kind time result }
        ensures last { IfOk result (λ t. last_of t.1 ≡ Some (PruneTo time)) }
        ensures horizon { IfOk result (λ t. t.0 ≡ (replay t.1).content.horizon) }
    {
        let mut publisher = self.publisher.lock(rt);
        prune_to(&mut *publisher, time)
    }

    /// Pins a time: the oldest readable time does not pass it until the pin is released. A prune stops there, a join or
    /// merge of a greater `horizon` is refused.
    ///
    /// Refusals in order: `Damaged`; `TooOld` with the oldest readable time, where the time is below it; `NodeFull`;
    /// `Memory`; `Unpublished`, with the pin, which is active once its operation is published. Cost: O(1).
    pub fn hold<W: Wait>(
        &self,
        rt: &W,
        time: Time,
    ) -> Result<(Hold, Receipt<J>), (Option<Hold>, Refusal)>
        ensures legal { IfOk result (λ t. is_legal t.1 ≡ true) }
        ensures change { HoldsSome J.kind time result }
        ensures last { IfOk result (λ t. last_of t.1 ≡ Some (HoldAt time)) }
        ensures hold { IfOk result (λ t. IsGiven t.0 time t.1) }
    {
        let mut publisher = self.publisher.lock(rt);
        hold_at(&mut *publisher, time)
    }

    /// Why a time is not pinned for a caller that has no room to keep a pin: the refusals of `hold` in their order, else
    /// `Memory`. Nothing changes but that what waits is published. Cost: O(1).
    pub fn hold_refusal<W: Wait>(&self, rt: &W, time: Time) -> Refusal
        ensures { IsRefusedHold J.kind time None result }
    {
        let mut publisher = self.publisher.lock(rt);
        hold_refusal(&mut *publisher, time)
    }

    /// Releases a pin.
    ///
    /// Refusals in order: `Damaged`; `NoHold` where no pin of this number and time is active in this node;
    /// `NodeFull`; `Memory`; `Unpublished`. Each but the last hands the pin back. Cost: O(h), h active pins.
    pub fn release<W: Wait>(
        &self,
        rt: &W,
        hold: Hold,
    ) -> Result<Receipt<J>, (Option<Hold>, Refusal)>
        ensures legal { IfOk result (λ list. is_legal list ≡ true) }
        ensures change { ReleasesSome J.kind hold result }
        ensures last { IfOk result (λ list. last_of list ≡ Some (Release hold.reader hold.at)) }
        ensures back { IfErr result (λ e. IsHandedBack hold e.0 e.1) }
    {
        let mut publisher = self.publisher.lock(rt);
        release_hold(&mut *publisher, hold)
    }

    /// Publishes what waits, and returns a receipt of the list. The only refusal is `Memory`, which comes only where
    /// something waits, and then it still waits. It answers in a failed node too. Cost: that of the operation that waits.
    pub fn publish<W: Wait>(&self, rt: &W) -> Result<Receipt<J>, Refusal>
        ensures legal { IfOk result (λ list. is_legal list ≡ true) }
        ensures publish { PublishesSome J.kind result }
        ensures err { IfErr result (λ why. why ≡ Memory) }
    {
        let mut publisher = self.publisher.lock(rt);
        publish_waiting(&mut *publisher)
    }

    /// Has the older copy take the last change too, so that the next change pays for itself alone: for a caller that nobody
    /// waits for, after a change that took long. The list, what readers see and what a receipt says stay the same: proved of
    /// what lies under the lock, by `Publisher::settle`. That the next change is cheaper is only tested.
    ///
    /// Nothing is refused: where there is no memory, or an operation waits, nothing happens, and the next change pays as before.
    /// It waits for the lock, and for the readers that still read the older copy; a change waits for it as for another change.
    /// Cost: that of the operation that the older copy lacks.
    pub fn settle<W: Wait>(&self, rt: &W) {
        let mut publisher = self.publisher.lock(rt);
        publisher.settle();
    }
}
