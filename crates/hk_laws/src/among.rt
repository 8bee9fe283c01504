//! What happens to one replica of a list.

ghost use Rattle.std.specs.Prelude.{◌≡◌, ◌≢◌, ◌+◌, ◌<◌, length, true, Ok, OnErr};
ghost use Rattle.hk_model.specs.World.Events.{told_seen};
ghost use Rattle.hk_model.specs.Replica.Rules as rules;
ghost use Rattle.hk_model.specs.World.Worlds.EventValue.{Merge, Prune};
ghost use Rattle.hk_model.specs.World.Worlds.ToldValue.{Done};
ghost use Rattle.hk_laws.specs.Among.{AbsorbsAt, JoinsBatch, JoinsDelta, MergesAt, PrunesAt, RefusesDelta};
ghost use Rattle.hk_laws.specs.Calls.{horizons_of, takes_memory_at};

use crate::lists::{all_there, copies, numbered, place_of};
use hk_acting::refused;
use hk_delta::delta_since;
use hk_log::Item;
use hk_model::Told;
use hk_state::ReplicaState;
use hk_types::{Config, Refusal, Time};
use std::alloc::Global;

/// A replica absorbs an item.
pub(crate) fn absorb(
    replicas: &mut [ReplicaState],
    replica: u16,
    items: &[Item],
    item: u64,
) -> Result<Told, Refusal>
    ensures { AbsorbsAt replicas.old replicas.new replica items.now item result }
{
    let Some(place) = place_of(replicas, replica) else {
        return Ok(Told::Refused(Refusal::NoSuch));
    };
    let Some(item) = numbered(items, item) else {
        return Ok(Told::Refused(Refusal::NoSuch));
    };
    hk_acting::absorb(&mut replicas[place], item)
}

/// A replica is pruned to a time. To at most its oldest readable time it takes no memory.
pub(crate) fn prune(
    replicas: &mut [ReplicaState],
    replica: u16,
    horizon: Time,
) -> Result<Told, Refusal>
    ensures prunes { PrunesAt replicas.old replicas.new replica horizon result }
    ensures takes { OnErr result (takes_memory_at (horizons_of replicas.old) (Prune replica horizon) ≡ true) }
{
    let Some(place) = place_of(replicas, replica) else {
        return Ok(Told::Refused(Refusal::NoSuch));
    };
    hk_acting::prune(&mut replicas[place], horizon)
}

/// A replica joins the fragment of some items.
pub(crate) fn batch(
    alloc: Global,
    config: Config,
    replicas: &mut [ReplicaState],
    replica: u16,
    items: &[Item],
    numbers: &[u64],
) -> Result<Told, Refusal>
    ensures { JoinsBatch config replicas.old replicas.new replica items.now numbers.now result }
{
    let Some(place) = place_of(replicas, replica) else {
        return Ok(Told::Refused(Refusal::NoSuch));
    };
    if !all_there(items, numbers) {
        return Ok(Told::Refused(Refusal::NoSuch));
    }
    let items = match copies(alloc, items, numbers) {
        Ok(items) => items,
        Err(_lack) => return Err(Refusal::Memory),
    };
    hk_acting::batch(alloc, config, &mut replicas[place], &items)
}

/// Why what another replica has applied since a time is refused before it is cut, if it is: the time is below its
/// oldest readable time, or above the resolved time of the replica that is to join it.
fn delta_refusal(target: &ReplicaState, source: &ReplicaState, base: Time) -> Option<Refusal>
    ensures { RefusesDelta target.now source.now base result }
{
    let horizon = source.horizon();
    if base < horizon {
        return Some(Refusal::TooOld { horizon });
    }
    let readable = target.readable();
    let (own, sent) = (target.config(), source.config());
    if own.log() == sent.log() && own.streams() == sent.streams() && readable < base {
        return Some(Refusal::Gap { base, readable });
    }
    None
}

/// A replica joins what another has applied since a time.
pub(crate) fn delta(
    alloc: Global,
    replicas: &mut [ReplicaState],
    to: u16,
    from: u16,
    base: Time,
) -> Result<Told, Refusal>
    ensures { JoinsDelta replicas.old replicas.new to from base result }
{
    let Some(target) = place_of(replicas, to) else {
        return Ok(Told::Refused(Refusal::NoSuch));
    };
    let Some(source) = place_of(replicas, from) else {
        return Ok(Told::Refused(Refusal::NoSuch));
    };
    if let Some(why) = delta_refusal(&replicas[target], &replicas[source], base) {
        return Ok(Told::Refused(why));
    }
    match delta_since(alloc, &replicas[source], base) {
        Ok(fragment) => hk_acting::join(&mut replicas[target], &fragment),
        Err(why) => refused(why),
    }
}

/// A replica is merged into another one.
fn merge_apart(replicas: &mut [ReplicaState], to: usize, from: usize) -> Result<Told, Refusal>
    requires target { to < length replicas.old }
    requires source { from < length replicas.old }
    requires apart { to ≢ from }
    ensures { MergesAt replicas.old replicas.new (to + 1) (from + 1) result }
{
    if to < from {
        let (low, high) = replicas.split_at_mut(from);
        return hk_acting::merge(&mut low[to], &high[0]);
    }
    let (low, high) = replicas.split_at_mut(to);
    hk_acting::merge(&mut high[0], &low[from])
}

/// A replica is merged into another one. Merged into itself it does not change, and takes no memory.
pub(crate) fn merge(replicas: &mut [ReplicaState], to: u16, from: u16) -> Result<Told, Refusal>
    ensures merges { MergesAt replicas.old replicas.new to from result }
    ensures takes { OnErr result (takes_memory_at (horizons_of replicas.old) (Merge to from) ≡ true) }
{
    let Some(target) = place_of(replicas, to) else {
        return Ok(Told::Refused(Refusal::NoSuch));
    };
    let Some(source) = place_of(replicas, from) else {
        return Ok(Told::Refused(Refusal::NoSuch));
    };
    if target == source {
        return Ok(same(&replicas[target]));
    }
    merge_apart(replicas, target, source)
}

/// The outcome of a merge of a replica with itself, which leaves the replica as it is.
fn same(state: &ReplicaState) -> Told
    ensures outcome { told_seen result ≡ Done }
    ensures whole { rules.merge_result state.now state.now ≡ Ok state.now }
{
    let _lawful = state.horizon();
    Told::Done
}
