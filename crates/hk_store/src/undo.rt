//! What was added to facts, so that it can be taken back.

ghost use Rattle.std.specs.Prelude.{◌≡◌, ◌++◌, ◌∷◌, [], OnOk, OnErr};
ghost use Rattle.hk_chains.specs.Facts.{facts_without};
ghost use Rattle.hk_store.specs.Undos.{rolled_back};

use crate::facts::Facts;
use hk_facts::Part;
use hk_types::VersionKey;
use std::alloc::{AllocError, Global};
use std::marker::Model;
use std::mem::replace;

/// The most notes for which a list is kept for the next undo.
const MOST_KEPT: usize = 1024;

/// The rows and ends that were added since it was made, in their order. `Facts::take_back` removes them again.
#[derive(Drop)]
pub struct Undo {
    parts: Vec<(VersionKey, Part)>,
}

impl Model for Undo {
    ghost use Rattle.std.specs.Prelude.{List};
    ghost use Rattle.hk_types.specs.declared.version_key.VersionKey.{VersionKey};
    ghost use Rattle.hk_facts.specs.declared.fact.Part.{Part};

    ghost Value = { List (VersionKey × Part) };

    ghost view = { λ a. a.parts.items };
}

impl Undo {
    /// Nothing was added. It takes no memory.
    pub fn new(alloc: Global) -> Undo
        ensures { result ≡ [] }
    {
        Undo {
            parts: Vec::new(alloc),
        }
    }

    /// Notes a part of a version that was added. The only error is out of memory; then nothing is noted.
    #[inline(always)]
    pub(crate) fn note(&mut self, version: &VersionKey, part: Part) -> Result<(), AllocError>
        ensures ok { OnOk result (self.new ≡ self.old ++ (version.now, part) ∷ []) }
        ensures err { OnErr result (self.new ≡ self.old) }
    {
        self.parts.push((*version, part))?;
        Ok(())
    }
}

impl Facts {
    /// An undo with nothing in it, which takes the list that `end_undo` kept. It takes no memory.
    #[inline(always)]
    pub fn begin_undo(&mut self) -> Undo
        ensures empty { result ≡ [] }
        ensures kept { self.new ≡ self.old }
    {
        let alloc = self.allocator();
        let mut undo = replace(&mut self.spare, Undo::new(alloc));
        undo.parts.clear();
        undo
    }

    /// Ends an undo: what it noted stays. Its list is kept for the next one, unless it is long.
    #[inline(always)]
    pub fn end_undo(&mut self, undo: Undo)
        ensures { self.new ≡ self.old }
    {
        if undo.parts.capacity() <= MOST_KEPT {
            self.spare = undo;
        }
    }

    /// Removes what was added, the last first. It cannot fail. Cost: O(u · log n), u rows and ends that were added, n facts.
    pub fn take_back(&mut self, undo: Undo)
        ensures { self.new ≡ rolled_back undo self.old }
    {
        let Undo { mut parts } = undo;
        while let Some((version, part)) = parts.pop() {
            self.forget(&version, part);
        }
    }
}
