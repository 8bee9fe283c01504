//! Lists of keys.

ghost use Rattle.std.specs.Prelude.{◌≡◌, ◌∷◌, ◌++◌, [], ℕ, IfOk, IfErr, OnErr, OnOk};
ghost use Rattle.std.specs.Ordering.{nat_cmp};
ghost use Rattle.std.specs.List.Sorted.{IsStrictlySortedBy};
ghost use Rattle.hk_index.specs.Tags.{is_one_of};
ghost use Rattle.hk_types.specs.declared.faults.Refusal.TheVariants.{Memory};

use hk_types::{Key, Refusal};
use std::alloc::{AllocError, Global};
use std::marker::Model;

/// Keys in the order in which they came.
#[derive(Drop)]
pub(crate) struct KeyList {
    keys: Vec<Key>,
}

impl Model for KeyList {
    ghost use Rattle.std.specs.Prelude.{List, ℕ};
    ghost use Rattle.std.specs.Coded.{coded_list, coded_ℕ};

    ghost Value = { List ℕ };

    ghost coded = { coded_list coded_ℕ };

    ghost view = { λ a. a.keys.items };
}

impl KeyList {
    /// One key. The only error is out of memory.
    pub(crate) fn of(alloc: Global, key: Key) -> Result<KeyList, AllocError>
        ensures { IfOk result (λ list. list ≡ key ∷ []) }
    {
        let mut keys = Vec::new(alloc);
        keys.push(key)?;
        Ok(KeyList { keys })
    }

    /// Adds a key at the end. The only refusal is `Memory`, and it changes nothing.
    #[inline(always)]
    pub(crate) fn push(&mut self, key: Key) -> Result<(), Refusal>
        ensures ok { OnOk result (self.new ≡ self.old ++ key ∷ []) }
        ensures err { IfErr result (λ why. why ≡ Memory) }
        ensures kept { OnErr result (self.new ≡ self.old) }
    {
        self.keys.push(key)?;
        Ok(())
    }

    /// The keys in rising order, each once. The only error is out of memory. Cost: O(k · log k), k keys.
    pub(crate) fn rising(&self, alloc: Global) -> Result<Vec<Key>, AllocError>
        ensures rising { IfOk result (λ keys. IsStrictlySortedBy nat_cmp keys.items) }
        ensures same { IfOk result (λ keys. (key : ℕ) → is_one_of keys.items key ≡ is_one_of self.now key) }
    {
        let mut keys = Vec::from_slice(alloc, &self.keys)?;
        keys.sort_unstable();
        keys.dedup();
        Ok(keys)
    }
}
