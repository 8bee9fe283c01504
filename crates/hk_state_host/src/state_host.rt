//! A host over the state of a replica.

ghost use Rattle.std.specs.Prelude.{◌≡◌, ◌<◌, ◌+◌, ◌^◌, Ok, true, nat_lt};
ghost use Rattle.hk_model.specs.Replica.Answers.{reply};
ghost use Rattle.hk_model.specs.Replica.Fragments.{cut};
ghost use Rattle.hk_model.specs.Replica.Rules.{join_result, prune_result};
ghost use Rattle.hk_state_host.specs.Steps.{since, fragment_reply, gathered, with_items, Counts, GivesAnswer, HandsOut, IsGiven, JoinsItems, MakesChange, PrunesTo, Step, Takes};

use hk_delta::{delta_since, join, join_items, whole_of};
use hk_fragment::Fragment;
use hk_log::Item;
use hk_merge::merge;
use hk_messages::{Reply, Request};
use hk_model::Query;
use hk_query::ask;
use hk_session_parts::Host;
use hk_state::{ReplicaState, front_of};
use hk_types::{FormFault, LAST_OP, Refusal, Time};
use std::alloc::Global;
use std::marker::Model;

/// A host over the state of a replica, with the number of its operations. Making it is the first one, and each
/// change that it accepts is another, also one that leaves the content as it was.
///
/// It applies items all or nothing, as their fragment would be joined; joins fragments; prunes; and returns what the
/// state holds. A change is refused `NodeFull` after operation 2^62, before any other test; else each request is refused
/// as the call on the state is, and `Memory` comes last: only where the request is not refused otherwise, or, of items,
/// where they make a fragment. A request of version 2 is refused `Form(BadKind)`. A front, a count and a row that is not
/// there take no memory. A refused request changes nothing. Cost: that of the calls.
#[derive(Drop)]
pub struct StateHost {
    alloc: Global,
    state: ReplicaState,
    ops: u64,
}

impl Model for StateHost {
    ghost use Rattle.hk_state_host.specs.Values.{HostValue, host_code};

    ghost Value = { HostValue };

    ghost coded = { host_code };

    ghost view = { λ h. record { content = h.state; ops = h.ops } };
}

impl StateHost {
    /// A host over this state, with one operation.
    pub fn new(alloc: Global, state: ReplicaState) -> StateHost
        ensures content { result.content ≡ state }
        ensures ops { result.ops ≡ 1 }
    {
        StateHost {
            alloc,
            state,
            ops: 1,
        }
    }

    /// The state.
    pub fn state(&self) -> &ReplicaState
        ensures { result.now ≡ self.now.content }
    {
        &self.state
    }

    /// The number of its operations.
    pub fn ops(&self) -> u64
        ensures { result ≡ self.now.ops }
    {
        self.ops
    }

    fn is_full(&self) -> bool
        ensures { result ≡ nat_lt (2 ^ 62) (self.now.ops + 1) }
    {
        self.ops >= LAST_OP
    }

    /// Counts a change that was accepted.
    fn settle(&mut self, outcome: Result<(), Refusal>) -> Reply
        requires { self.old.ops < 2 ^ 62 }
        ensures { Counts self.old self.new outcome result }
    {
        match outcome {
            Ok(()) => {
                self.ops += 1;
                Reply::Done { ops: self.ops }
            }
            Err(why) => Reply::Refused(why),
        }
    }

    fn join_items(&mut self, items: &[Item]) -> Result<(), Refusal>
        ensures ops { self.new ≡ record self.old { content = self.new.content } }
        ensures gives { JoinsItems self.old self.new items.now result }
    {
        join_items(&mut self.state, items)
    }

    /// Takes items as an Items request, without making one: all of them or none. `NodeFull` comes first, then the refusals of
    /// `join_items`, of which `Memory` is the last unless the items would conflict with what is held. A refusal changes
    /// nothing. Cost: that of `join_items`.
    pub fn take_items(&mut self, items: &[Item]) -> Reply
        ensures { MakesChange self.old (gathered self.old items.now)
            (with_items self.old items.now) result self.new }
    {
        if self.is_full() {
            return Reply::Refused(Refusal::NodeFull);
        }
        let outcome = self.join_items(items);
        self.settle(outcome)
    }

    fn join_this(&mut self, fragment: &Fragment) -> Reply
        ensures { Takes self.old (join_result self.old.content fragment.now) result self.new }
    {
        if self.is_full() {
            return Reply::Refused(Refusal::NodeFull);
        }
        let outcome = join(&mut self.state, fragment);
        self.settle(outcome)
    }

    /// Joins all that a peer's state holds, as a MergeThis of its full snapshot, without a copy of it: `NodeFull` comes first,
    /// then the refusals of `merge`, of which `Memory` is the last. A refusal changes nothing. Cost: that of `merge`.
    pub fn merge(&mut self, peer: &ReplicaState) -> Reply
        ensures { Takes self.old (join_result self.old.content (cut peer.now 0)) result self.new }
    {
        if self.is_full() {
            return Reply::Refused(Refusal::NodeFull);
        }
        let outcome = merge(&mut self.state, peer);
        self.settle(outcome)
    }

    fn prune(&mut self, horizon: Time) -> Reply
        ensures { PrunesTo self.old horizon result self.new }
    {
        if self.is_full() {
            return Reply::Refused(Refusal::NodeFull);
        }
        let outcome = self.state.prune(horizon);
        self.settle(outcome)
    }

    fn whole(&self) -> Reply
        ensures { IsGiven true self.now (fragment_reply (Ok (cut self.now.content 0)), self.now) result self.now }
    {
        match whole_of(self.alloc, &self.state) {
            Ok(fragment) => Reply::Fragment(fragment),
            Err(why) => Reply::Refused(why),
        }
    }

    fn delta(&self, base: Time) -> Reply
        ensures { HandsOut self.now (since self.now.content base) result }
    {
        match delta_since(self.alloc, &self.state, base) {
            Ok(fragment) => Reply::Fragment(fragment),
            Err(why) => Reply::Refused(why),
        }
    }

    fn ask(&self, time: Time, query: &Query) -> Reply
        ensures { GivesAnswer self.now (reply self.now.content time query.now) result }
    {
        match ask(self.alloc, &self.state, time, query) {
            Ok(answer) => Reply::Answer(answer),
            Err(why) => Reply::Refused(why),
        }
    }
}

impl Host for StateHost {
    ghost may = { Step };

    fn answer(&mut self, request: Request) -> Reply {
        match request {
            Request::Items(items) => self.take_items(&items),
            Request::Front => Reply::Front(front_of(&self.state)),
            Request::Delta { base } => self.delta(base),
            Request::Full => self.whole(),
            Request::Ask { t, query } => self.ask(t, &query),
            Request::JoinThis(fragment) | Request::MergeThis(fragment) => self.join_this(&fragment),
            Request::Prune { horizon } => self.prune(horizon),
            Request::Feed(_) | Request::Later(_) => Reply::Refused(Refusal::Form(
                FormFault::BadKind,
            )),
        }
    }
}
