//! Copies of facts.

ghost use Rattle.std.specs.Prelude.{◌≡◌, IfOk, IfErr};
ghost use Rattle.hk_types.specs.declared.faults.Refusal.TheVariants.{Memory};

use crate::facts::Facts;
use crate::undo::Undo;
use hk_chains::keys_by_tag;
use hk_types::Refusal;
use std::alloc::Global;

impl Facts {
    /// The same facts again. The only refusal is `Memory`. Cost: O(n · log n + b), n facts, b bytes of
    /// bodies, all copied.
    pub fn copy(&self, alloc: Global) -> Result<Facts, Refusal>
        ensures ok { IfOk result (λ facts. facts ≡ self.now) }
        ensures err { IfErr result (λ why. why ≡ Memory) }
    {
        let chains = self.chains.copy(alloc)?;
        let tags = keys_by_tag(alloc, &chains)?;
        let stated = self.stated.copy(alloc)?;
        Ok(Facts {
            chains,
            tags,
            stated,
            first_end: self.first_end,
            spare: Undo::new(alloc),
            tally: self.tally,
        })
    }
}
