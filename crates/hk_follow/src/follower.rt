//! The node's own half of following another.

ghost use Rattle.std.specs.Prelude.{◌≡◌, ◌<◌, ◌≤◌, Err, min, IfOk, IfErr};
ghost use Rattle.std.specs.Bool.{OnTrue};
ghost use mathlib.Core.List.{IsPrefix};
ghost use Rattle.hk_types.specs.declared.faults.Refusal.TheVariants.{Memory};
ghost use Rattle.hk_model.specs.Replica.StreamsTold.{streams_seen};
ghost use Rattle.hk_oplog.specs.declared.op.Op.TheVariants.{Join};
ghost use Rattle.hk_oplog.specs.Replay.{replay};
ghost use Rattle.hk_oplog.specs.Replies.{GivesOrMemory, node_delta, node_front, node_streams};
ghost use Rattle.hk_node.specs.Changes.{ChangesSome};
ghost use Rattle.hk_follow.specs.Following.{IsBase, IsFit, IsJoinRefused, IsKeptOut, IsMadeAt, IsTaken};

use hk_fragment::Fragment;
use hk_model::{Front, StreamsTold};
use hk_node::{Node, NodeName, ReaderSeat};
use hk_seats::learn;
use hk_types::{Refusal, Time};
use std::alloc::Global;
use std::marker::Model;
use std::sync::Wait;
use std::thread::Threads;

/// How many of the newest rows and ends that are held are compared with those of another giver.
const OVERLAP: u64 = 1_000;

/// What came of what another node gave.
#[derive(Clone, Copy, Debug, PartialEq, Eq)]
pub enum Taken {
    /// It is joined: the node's list has so many operations then.
    Joined(u64),
    /// It was a full snapshot that would have raised the oldest readable time from the first of these to the second, which must not be;
    /// nothing was changed.
    Kept(Time, Time),
}

/// A node that follows others, by a seat of its own. Contracts see it as the list of operations that the seat has seen or got a receipt
/// of.
#[derive(Drop)]
pub struct Follower<'a, J: NodeName, N: Wait + Drop, R: Threads + Wait + Sync> {
    rt: &'a R,
    alloc: Global,
    node: &'a Node<J, N>,
    seat: ReaderSeat<J>,
    /// Whether what others prune is pruned here as well.
    prunes: bool,
}

impl<'a, J: NodeName, N: Wait + Drop, R: Threads + Wait + Sync> Model for Follower<'a, J, N, R> {
    ghost use Rattle.std.specs.Prelude.{◌≡◌, true, List};
    ghost use Rattle.std.specs.Coded.{coded_list};
    ghost use Rattle.hk_oplog.specs.declared.op.Op.{Op};
    ghost use Rattle.hk_oplog.specs.contracts.op.Op as op;
    ghost use Rattle.hk_oplog.specs.Replay.{is_legal};

    ghost Value = { List Op };

    ghost coded = { coded_list op.the_row.coded };

    ghost view = { λ f. f.seat };

    ghost invariant = { λ f. is_legal f.seat ≡ true };
}

/// Whether a node that is so far must not be given this oldest readable time: a pin stands before it, or it is the node's own matter.
fn must_stay(prunes: bool, told: &StreamsTold, horizon: Time) -> bool
    ensures { OnTrue result (told.now.horizon < horizon) }
{
    if horizon <= told.horizon {
        return false;
    }
    match told.least_hold {
        Some(pinned) if pinned < horizon => true,
        _free => !prunes,
    }
}

/// What is joined of what another node gave; where nothing is, the own oldest readable time, and the one that it would become.
fn fitted(prunes: bool, told: &StreamsTold, given: Fragment) -> Result<Fragment, (Time, Time)>
    ensures fits { IfOk result (λ f. IsFit given f) }
    ensures kept { IfErr result (λ times. IsKeptOut given times.0 times.1) }
{
    let horizon = given.horizon();
    if !must_stay(prunes, told, horizon) {
        return Ok(given);
    }
    if given.base() == Time::zero() {
        return Err((told.horizon, horizon));
    }
    let mut fragment = given;
    fragment.lower_horizon(told.horizon);
    Ok(fragment)
}

/// A time since which a node with these marks asks: this one, but never below its oldest readable time, nor above its resolved time.
fn base_within(front: &Front, time: Time) -> Time
    ensures most { result ≤ front.now.readable }
    ensures least { min front.now.horizon front.now.readable ≤ result }
{
    let from = if time < front.horizon {
        front.horizon
    } else {
        time
    };
    if front.readable < from {
        front.readable
    } else {
        from
    }
}

impl<'a, J: NodeName, N: Wait + Drop, R: Threads + Wait + Sync> Follower<'a, J, N, R> {
    /// A node that follows others, by this seat of it. Where it doesn't prune what they do, its oldest readable time stays what it is
    /// whatever they give.
    pub fn new(
        rt: &'a R,
        alloc: Global,
        node: &'a Node<J, N>,
        seat: ReaderSeat<J>,
        prunes: bool,
    ) -> Follower<'a, J, N, R>
        ensures { result ≡ seat }
    {
        let _legal = seat.seen();
        Follower {
            rt,
            alloc,
            node,
            seat,
            prunes,
        }
    }

    /// The seat again, with all that it has seen or got a receipt of.
    pub fn into_seat(self) -> ReaderSeat<J>
        ensures { result ≡ self.entry }
    {
        self.seat
    }

    /// The node's range of readable times. Refusals and cost: those of `ReaderSeat::front`.
    pub fn front(&mut self) -> Result<Front, Refusal>
        ensures seen { IsPrefix self.old self.new }
        ensures front { GivesOrMemory (node_front (replay self.new)) result }
    {
        self.seat.front()
    }

    /// How far the node is, and each of its streams. The only refusal is `Memory`. Cost: that of `ReaderSeat::streams`.
    pub fn streams(&mut self) -> Result<StreamsTold, Refusal>
        ensures seen { IsPrefix self.old self.new }
        ensures streams { IfOk result (λ told. streams_seen told ≡ node_streams (replay self.new)) }
        ensures err { IfErr result (λ why. why ≡ Memory) }
    {
        self.seat.streams()
    }

    /// The time since which another node is asked: the own resolved time. Where the other one may be of another history, the time up to
    /// which the node was compared is given; then it is no later than that, and so early that 1,000 rows and ends which are held are
    /// compared (which no clause says), but never below the own oldest readable time. Refusals: those of `front`. Cost: O(s), s streams.
    pub fn base(&mut self, compared: Option<Time>) -> Result<Time, Refusal>
        ensures seen { IsPrefix self.old self.new }
        ensures base { IfOk result (λ time. IsBase (replay self.new) time) }
    {
        let Some(compared) = compared else {
            let front = self.seat.front()?;
            return Ok(base_within(&front, front.readable));
        };
        let back = self.seat.time_back(OVERLAP)?;
        let front = self.seat.front()?;
        Ok(base_within(&front, back.min(compared)))
    }

    /// Whether a full snapshot with this oldest readable time would be kept out. The only refusal is `Memory`. Cost: that of `streams`.
    pub fn keeps_out(&mut self, horizon: Time) -> Result<bool, Refusal>
        ensures seen { IsPrefix self.old self.new }
        ensures err { IfErr result (λ why. why ≡ Memory) }
    {
        let told = self.seat.streams()?;
        Ok(must_stay(self.prunes, &told, horizon))
    }

    /// Joins a fragment.
    fn join(&mut self, fragment: Fragment) -> Result<u64, Refusal>
        ensures seen { IsPrefix self.old self.new }
        ensures joined { IfOk result (λ count. IsMadeAt self.old self.new (Join fragment) count) }
        ensures refused { IfErr result (λ why. ChangesSome J.kind (Join fragment) (Err why)) }
    {
        match self.node.join(self.rt, fragment) {
            Ok(receipt) => learn(&mut self.seat, receipt),
            Err(why) => Err(why),
        }
    }

    /// Takes what another node gave: it is joined. Where that would raise the oldest readable time and must not, since a pin stands
    /// before the new one, or the node doesn't prune what others do, a delta is joined with the own oldest readable time, and a full
    /// snapshot is kept out.
    ///
    /// Refusals: `Memory`, and those of `Node::join`; a node that is guarded refuses `Conflict` what is of another history, as far as it
    /// shows in what was given. Then nothing is changed, but that with `Unpublished` the join is made and waits. Cost: that of the join.
    pub fn take(&mut self, given: Fragment) -> Result<Taken, Refusal>
        ensures seen { IsPrefix self.old self.new }
        ensures taken { IfOk result (λ taken. IsTaken self.old self.new given taken) }
        ensures refused { IfErr result (λ why. IsJoinRefused J.kind given why) }
    {
        let told = self.seat.streams()?;
        match fitted(self.prunes, &told, given) {
            Ok(fragment) => match self.join(fragment) {
                Ok(count) => Ok(Taken::Joined(count)),
                Err(why) => Err(why),
            },
            Err((own, theirs)) => Ok(Taken::Kept(own, theirs)),
        }
    }

    /// What the node has since a time. Refusals and cost: those of `ReaderSeat::delta_since`.
    pub fn delta_since(&mut self, base: Time) -> Result<Fragment, Refusal>
        ensures seen { IsPrefix self.old self.new }
        ensures delta { GivesOrMemory (node_delta (replay self.new) base) result }
    {
        self.seat.delta_since(base)
    }
}
