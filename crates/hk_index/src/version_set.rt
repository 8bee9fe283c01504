//! Sets of versions.

ghost use Rattle.std.specs.Prelude.{◌≡◌, IfOk, IfErr};
ghost use Rattle.std.specs.FinSet as set;
ghost use Rattle.hk_types.specs.declared.faults.Refusal.TheVariants.{Memory};
ghost use Rattle.std.specs.BTreeSet as sorted;
ghost use Rattle.std.specs.Map.Iter.{ShowsInOrder, deref};
ghost use Rattle.hk_types.specs.declared.version_key.VersionKey.{VersionKey};
ghost use Rattle.hk_model.specs.History.Rows.{version_key_cmp};
ghost use Rattle.hk_index.specs.Listed.{Lists};

use hk_types::{Refusal, VersionKey};
use std::alloc::{AllocError, Global};
use std::collections::BTreeSet;
use std::collections::btree_set::Iter;
use std::marker::Model;

/// A set of version keys, in the order of table, key and born.
#[derive(Drop)]
pub struct VersionSet {
    versions: BTreeSet<VersionKey>,
}

impl Model for VersionSet {
    ghost use Rattle.std.specs.FinSet as set;
    ghost use Rattle.hk_model.specs.Replica.Codes.{version_key_code};
    ghost use Rattle.hk_model.specs.History.Rows.{version_key_cmp};

    ghost Value = { set.FinSet version_key_cmp };

    ghost coded = { set.code version_key_code };

    ghost view = { λ a. set.from_list a.versions.keys };
}

impl VersionSet {
    /// Whether a version is there. Cost: O(log n), n versions in the set.
    pub fn has(&self, version: VersionKey) -> bool
        ensures { result ≡ set.contains self.now version }
    {
        self.versions.contains(&version)
    }

    /// The versions one by one, in rising order. It takes no memory.
    pub fn iter(&self) -> Iter<'_, VersionKey>
        ensures lists { Lists result self.now }
        ensures runs { ShowsInOrder (deref {X = VersionKey}) }
    {
        self.versions.iter()
    }

    /// The set of these versions.
    ///
    /// The only refusal is `Memory`. Cost: O(n · log n), n versions of the list.
    pub fn of(alloc: Global, versions: &[VersionKey]) -> Result<VersionSet, Refusal>
        ensures ok { IfOk result (λ index. index ≡ set.from_list versions.now) }
        ensures err { IfErr result (λ why. why ≡ Memory) }
    {
        let versions = set_of(alloc, versions)?;
        Ok(VersionSet { versions })
    }
}

fn set_of(alloc: Global, versions: &[VersionKey]) -> Result<BTreeSet<VersionKey>, AllocError>
    ensures { IfOk result (λ set. sorted.IsFromIterResult version_key_cmp versions.now set) }
{
    versions.iter().copied().collect(alloc)
}
