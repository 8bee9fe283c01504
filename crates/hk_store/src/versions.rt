//! The versions of a state's facts, one by one.

ghost use Rattle.std.specs.Prelude.{◌≡◌, IfOk, map};
ghost use Rattle.std.specs.Option.{option_copied};
ghost use Rattle.std.specs.FinSet as set;
ghost use Rattle.hk_model.specs.Replica.Rules.{contents_conflict};
ghost use Rattle.hk_chains.specs.Facts.{known_at};
ghost use Rattle.hk_chains.specs.Reads.{with_facts};
ghost use Rattle.hk_chains.specs.Versions.{AreVersions, AreVersionsOf, borrowed, value_conflicts_at};

use crate::facts::Facts;
use hk_chains::{Walk, differs, push_borrowed};
use hk_index::VersionSet;
use hk_log::Version;
use hk_types::VersionKey;
use std::alloc::{AllocError, Global};

impl Facts {
    /// What is known of a version. Cost: O(log n), n facts.
    pub fn version(&self, version: &VersionKey) -> Option<&Version>
        ensures { option_copied result ≡ known_at self.now version.now }
    {
        let chain = self.chains.chain(version.table, version.key)?;
        chain.version(version.born)
    }

    /// A walk over all versions of which anything is known, in the order of table, key and born. It takes no memory.
    /// Cost: O(log n), n facts.
    pub fn walk(&self) -> Walk<'_>
        ensures { AreVersions self.now result }
    {
        self.chains.walk()
    }

    /// All versions of which anything is known, in rising order. The only error is out of memory.
    /// Cost: that of a walk over them.
    pub fn versions(&self, alloc: Global) -> Result<Vec<(VersionKey, &Version)>, AllocError>
        ensures { IfOk result (λ versions. AreVersions self.now (map borrowed versions.items)) }
    {
        self.chains.versions(alloc)
    }

    /// Those of a set's versions of which anything is known, in rising order. The only error is out of
    /// memory. Cost: O(k · log n), k versions of the set, n facts.
    pub fn versions_of(
        &self,
        alloc: Global,
        some: &VersionSet,
    ) -> Result<Vec<(VersionKey, &Version)>, AllocError>
        ensures { IfOk result (λ versions.
            AreVersionsOf self.now (set.contains some.now) (map borrowed versions.items)) }
    {
        let mut found = Vec::new(alloc);
        for version in some.iter() {
            if let Some(known) = self.version(version) {
                push_borrowed(&mut found, *version, known)?;
            }
        }
        Ok(found)
    }

    /// Whether a version has another row, or another end, than this. It takes no memory.
    /// Cost: O(log n + b), n facts, b bytes of a body that is compared.
    pub fn value_conflicts_at(&self, version: &VersionKey, known: &Version) -> bool
        ensures { result ≡ value_conflicts_at self.now version.now known.now }
    {
        match self.version(version) {
            Some(own) => differs(own, known),
            None => false,
        }
    }

    /// Whether some version has another row, or another end, here than there. It takes no memory.
    /// Cost: O(m · log n + b), m facts there, n facts of both, b bytes of bodies that are compared.
    pub fn conflicts_with(&self, other: &Facts) -> bool
        ensures { result ≡ contents_conflict (with_facts self.now) (with_facts other.now) }
    {
        for (version, known) in other.walk() {
            if self.value_conflicts_at(&version, known) {
                return true;
            }
        }
        false
    }
}
