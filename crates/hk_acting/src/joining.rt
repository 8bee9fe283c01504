//! What one replica joins of others, and of several items at once.

ghost use Rattle.hk_model.specs.Replica.Rules as rules;
ghost use Rattle.hk_model.specs.World.Worlds.{outcome_of_batch, outcome_by};
ghost use Rattle.hk_acting.specs.Telling.{Gives};

use crate::acting::refused;
use hk_delta::fragment_of;
use hk_fragment::Fragment;
use hk_log::Item;
use hk_model::Told;
use hk_state::ReplicaState;
use hk_types::{Config, Refusal};
use std::alloc::Global;

/// A replica joins a fragment.
pub fn join(state: &mut ReplicaState, fragment: &Fragment) -> Result<Told, Refusal>
    ensures { Gives (outcome_by state.old (rules.join_result state.old fragment.now))
        state.old state.new result }
{
    match hk_delta::join(state, fragment) {
        Ok(()) => Ok(Told::Done),
        Err(why) => refused(why),
    }
}

/// A replica joins the fragment of some items.
pub fn batch(
    alloc: Global,
    config: Config,
    state: &mut ReplicaState,
    items: &[Item],
) -> Result<Told, Refusal>
    ensures { Gives (outcome_of_batch state.old (rules.gather_result config items.now))
        state.old state.new result }
{
    match fragment_of(alloc, config, items) {
        Ok(fragment) => join(state, &fragment),
        Err(why) => refused(why),
    }
}

/// A replica merges all that another one holds.
pub fn merge(state: &mut ReplicaState, peer: &ReplicaState) -> Result<Told, Refusal>
    ensures { Gives (outcome_by state.old (rules.merge_result state.old peer.now))
        state.old state.new result }
{
    match hk_merge::merge(state, peer) {
        Ok(()) => Ok(Told::Done),
        Err(why) => refused(why),
    }
}
