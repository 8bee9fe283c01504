//! Copies of a state.

ghost use Rattle.std.specs.Prelude.{◌≡◌, IfOk, IfErr};
ghost use Rattle.hk_types.specs.declared.faults.Refusal.TheVariants.{Memory};

use crate::replica::ReplicaState;
use hk_types::Refusal;
use std::alloc::Global;

impl ReplicaState {
    /// The same state again. The only refusal is `Memory`. Cost: O(n · log n + b), n facts, extra
    /// numbers and waiting marks held, b bytes of bodies, all copied.
    pub fn copy(&self, alloc: Global) -> Result<ReplicaState, Refusal>
        ensures ok { IfOk result (λ state. state ≡ self.now) }
        ensures err { IfErr result (λ why. why ≡ Memory) }
    {
        let facts = self.facts.copy(alloc)?;
        let got = self.got.copy(alloc)?;
        Ok(ReplicaState {
            config: self.config,
            horizon: self.horizon,
            facts,
            got,
            alloc,
        })
    }
}
