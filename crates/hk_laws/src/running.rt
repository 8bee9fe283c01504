//! Runs of a world.

ghost use Rattle.std.specs.Prelude.{◌≡◌, ◌≤◌, ◌<◌, ◌+◌, ◌++◌, ◌∷◌, [], IfOk, IfErr};
ghost use Rattle.std.specs.Vec.{vec_capacity, vec_len};
ghost use Rattle.hk_types.specs.declared.faults.Refusal.TheVariants.{Memory};
ghost use Rattle.hk_laws.specs.Runs.{RunsNew, TellsNew};

use crate::world::World;
use hk_model::{Event, Told};
use hk_types::{Config, Refusal};
use std::alloc::Global;

/// Adds an answer to a list that has room for it.
fn push_outcome(list: &mut Vec<Told>, outcome: Told)
    requires { vec_len list.old < vec_capacity list.old }
    ensures items { list.new.items ≡ list.old.items ++ outcome ∷ [] }
    ensures len { vec_len list.new ≡ vec_len list.old + 1 }
    ensures room { vec_capacity list.old ≤ vec_capacity list.new }
{
    let pushed = list.push(outcome);
    prove!(pushed.is_ok());
}

/// The outcomes of events, one after the other, in a new world with so many replicas, 1 to `MOST_REPLICAS`.
///
/// The only refusal is `Memory`, where the world or the list of answers could not be made. An event whose outcome is
/// `Memory` changes nothing, and the others have the outcomes that they would have without it; an event has this
/// outcome as in `World::step`: only where it may take memory, and nothing else is refused, or a transaction for what
/// it writes. Cost: that of the events.
pub fn run(
    alloc: Global,
    config: Config,
    replicas: u16,
    events: Vec<Event>,
) -> Result<Vec<Told>, Refusal>
    requires some { 1 ≤ replicas }
    requires few { replicas ≤ 16 }
    ensures ok { IfOk result (λ outcome. RunsNew config replicas events.items outcome.items) }
    ensures each { IfOk result (λ outcome. TellsNew config replicas events.items outcome.items) }
    ensures err { IfErr result (λ why. why ≡ Memory) }
{
    let mut outcome = Vec::with_capacity(alloc, events.len())?;
    let mut world = World::new(alloc, config, replicas)?;
    for event in events {
        push_outcome(&mut outcome, world.step(event));
    }
    Ok(outcome)
}
