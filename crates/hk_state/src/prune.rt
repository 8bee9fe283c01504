//! Pruning.

ghost use Rattle.std.specs.Prelude.{◌≡◌, ◌≤◌, false, nat_le, OnOk, IfOk, IsOk};
ghost use Rattle.hk_model.specs.Replica.Content.{readable};
ghost use Rattle.hk_model.specs.Replica.Touches.{prune_touches_past};
ghost use Rattle.hk_state.specs.Calls.{AnswersStay, Prunes, PrunesOf};

use crate::replica::ReplicaState;
use hk_model::Front;
use hk_types::{Refusal, Time};

impl ReplicaState {
    /// Whether a time may become the oldest readable one: it is at most the resolved time. It takes no memory. Cost:
    /// O(s), s streams.
    pub fn can_prune(&self, time: Time) -> bool
        ensures { result ≡ nat_le time (readable self.now) }
    {
        time <= self.readable()
    }

    /// Drops each version that ended at a time or before, and makes that time the oldest readable one.
    ///
    /// A time above the resolved time is refused `AheadOfMark` with the resolved time. One at most the oldest readable
    /// time is never refused, changes nothing and takes no memory. `Memory` comes where the list of what is dropped
    /// could not be made. A refusal changes nothing. Where the prune does not touch the past, as `prune_touches_past`
    /// tests it and as no prune of one log's items does, each answer at a time from there to the resolved time is as it
    /// was. Cost: O(s + (1 + d) · log n), s streams, n facts held, d versions that are dropped.
    pub fn prune(&mut self, time: Time) -> Result<(), Refusal>
        ensures gives { Prunes self.old self.new time result }
        ensures represents { PrunesOf self.old self.new time result }
        ensures below { time ≤ self.old.horizon → IsOk result }
        ensures stays { prune_touches_past self.old time ≡ false → AnswersStay self.old self.new }
    {
        let _lawful = self.horizon();
        self.raise_horizon(time)
    }

    fn raise_horizon(&mut self, time: Time) -> Result<(), Refusal>
        ensures gives { Prunes self.old self.new time result }
        ensures below { time ≤ self.old.horizon → IsOk result }
    {
        let readable = self.got.readable();
        if readable < time {
            return Err(Refusal::AheadOfMark { readable });
        }
        if time <= self.horizon {
            return Ok(());
        }
        self.facts.drop_until(time)?;
        self.horizon = time;
        Ok(())
    }
}

/// The range of times at which a state can be read. It takes no memory. Cost: O(s), s streams.
pub fn front_of(state: &ReplicaState) -> Front
    ensures horizon { result.horizon ≡ state.now.horizon }
    ensures readable { result.readable ≡ readable state.now }
{
    Front {
        horizon: state.horizon(),
        readable: state.readable(),
    }
}
