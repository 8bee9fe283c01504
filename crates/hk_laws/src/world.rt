//! A world of one primary and its replicas.

ghost use Rattle.std.specs.Prelude.{◌≡◌, ◌≤◌, length, replicate, IfOk, IfErr};
ghost use Rattle.hk_types.specs.declared.faults.Refusal.TheVariants.{Memory};
ghost use Rattle.hk_model.specs.History.Histories.{commits, last};
ghost use Rattle.hk_model.specs.Replica.Replicas.{empty_content};
ghost use Rattle.hk_model.specs.World.Worlds.{Agree, new_contents, new_items};

use hk_log::Item;
use hk_primary::Primary;
use hk_state::ReplicaState;
use hk_types::{Config, Refusal, Time};
use std::alloc::Global;
use std::marker::Model;

/// The most replicas of a world.
pub const MOST_REPLICAS: u16 = 16;

/// A primary and the replicas of its log. Contracts see the configuration of the log, the history of the
/// primary, the items that it emitted, and the content of each replica. Nothing else is kept.
#[derive(Drop)]
pub struct World {
    pub(crate) alloc: Global,
    pub(crate) primary: Primary,
    pub(crate) replicas: Vec<ReplicaState>,
}

impl Model for World {
    ghost use Rattle.std.specs.Prelude.{◌≡◌};
    ghost use Rattle.hk_laws.specs.Codes.{running_code};
    ghost use Rattle.hk_laws.specs.Running.{Running};

    ghost Value = { Running };

    ghost coded = { running_code };

    ghost view = { λ a. record { config = a.primary.config; world = record { history = a.primary.history; emitted = a.primary.items; replicas = a.replicas.items } } };

    ghost invariant = { λ a. a.primary.after ≡ 0 };
}

/// So many replicas that have applied nothing.
fn new_replicas(alloc: Global, config: Config, count: u16) -> Result<Vec<ReplicaState>, Refusal>
    ensures ok { IfOk result (λ replicas. replicas.items ≡ replicate count (empty_content config)) }
    ensures err { IfErr result (λ why. why ≡ Memory) }
{
    let mut replicas = Vec::with_capacity(alloc, usize::from(count))?;
    for _made in 0..count {
        replicas.push(ReplicaState::new(alloc, config)?)?;
    }
    Ok(replicas)
}

impl World {
    /// A world with no commits and with replicas that have applied nothing and represent no items. All of it grows by
    /// `alloc`. The only refusal is `Memory`. Cost: O(r · s), r replicas, s streams.
    pub fn new(alloc: Global, config: Config, replicas: u16) -> Result<World, Refusal>
        requires some { 1 ≤ replicas }
        requires few { replicas ≤ 16 }
        ensures ok { IfOk result
            (λ world. world ≡ record { config = config; world = new_contents config replicas }) }
        ensures represents { IfOk result (λ world. Agree config (new_items replicas) world.world) }
        ensures err { IfErr result (λ why. why ≡ Memory) }
    {
        let primary = Primary::new(alloc, config)?;
        let replicas = new_replicas(alloc, config, replicas)?;
        Ok(World {
            alloc,
            primary,
            replicas,
        })
    }

    /// The id of the log, and how many streams it has.
    pub fn config(&self) -> Config
        ensures { result ≡ self.now.config }
    {
        self.primary.config()
    }

    /// The time of the primary's last commit, else 0.
    pub fn last(&self) -> Time
        ensures { result ≡ last (commits self.now.world.history) }
    {
        self.primary.last()
    }

    /// How many items the primary emitted. They are numbered from 1.
    pub fn item_count(&self) -> u64
        ensures { result ≡ length self.now.world.emitted }
    {
        self.primary.item_count()
    }

    /// The items that the primary emitted, in their order.
    pub fn log(&self) -> &[Item]
        ensures { result.now ≡ self.now.world.emitted }
    {
        self.primary.log()
    }
}
