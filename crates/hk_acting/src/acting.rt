//! What one replica does and returns.

ghost use Rattle.std.specs.Prelude.{◌≡◌, ◌<◌, Result, IfOk, IfErr, OnErr, false};
ghost use Rattle.hk_types.specs.declared.faults.Refusal.TheVariants.{Memory};
ghost use Rattle.hk_model.specs.Replica.Answers.{reply};
ghost use Rattle.hk_model.specs.Replica.Content.{readable};
ghost use Rattle.hk_model.specs.World.Events.{told_seen};
ghost use Rattle.hk_model.specs.Replica.Rules as rules;
ghost use Rattle.hk_model.specs.World.Worlds.{outcome_of_batch, outcome_by, outcome_of_reply, outcome_of_take};
ghost use Rattle.hk_model.specs.World.Worlds.ToldValue.{Fronted};
ghost use Rattle.hk_acting.specs.Telling.{Gives, TellsRefusal, is_memory_outcome, is_first_outcome};

use hk_log::Item;
use hk_model::{Query, Told};
use hk_state::{ReplicaState, front_of};
use hk_types::{Config, Refusal, Time};
use std::alloc::Global;

/// The outcome of an event that is refused. `World::step` returns `Memory`.
pub fn refused(why: Refusal) -> Result<Told, Refusal>
    ensures { TellsRefusal why result }
{
    match why {
        Refusal::Memory => Err(Refusal::Memory),
        why => Ok(Told::Refused(why)),
    }
}

/// A replica absorbs an item.
pub fn absorb(state: &mut ReplicaState, item: &Item) -> Result<Told, Refusal>
    ensures { Gives (outcome_of_take state.old (rules.take_result state.old item.now))
        state.old state.new result }
{
    match state.absorb(item) {
        Ok(took) => Ok(Told::Took(took)),
        Err(why) => refused(why),
    }
}

/// A replica is pruned to a time. To at most its oldest readable time it takes no memory.
pub fn prune(state: &mut ReplicaState, horizon: Time) -> Result<Told, Refusal>
    ensures gives { Gives (outcome_by state.old (rules.prune_result state.old horizon))
        state.old state.new result }
    ensures above { OnErr result (state.old.horizon < horizon) }
{
    match state.prune(horizon) {
        Ok(()) => Ok(Told::Done),
        Err(why) => refused(why),
    }
}

/// A replica is asked at a time.
pub fn ask(alloc: Global, state: &ReplicaState, time: Time, query: &Query) -> Result<Told, Refusal>
    ensures ok { IfOk result (λ outcome.
        told_seen outcome ≡ outcome_of_reply (reply state.now time query.now)) }
    ensures heard { IfOk result (λ outcome. is_memory_outcome (told_seen outcome) ≡ false) }
    ensures err { IfErr result (λ why. why ≡ Memory) }
    ensures first { OnErr result
        (is_first_outcome (outcome_of_reply (reply state.now time query.now)) ≡ false) }
{
    match hk_query::ask(alloc, state, time, query) {
        Ok(answer) => Ok(Told::Answered(answer)),
        Err(why) => refused(why),
    }
}

/// A replica returns its range of readable times.
pub fn front(state: &ReplicaState) -> Told
    ensures outcome { told_seen result ≡ Fronted state.now.horizon (readable state.now) }
    ensures heard { is_memory_outcome (told_seen result) ≡ false }
{
    Told::Fronted(front_of(state))
}
