//! The versions of chains, one by one.

ghost use Rattle.std.specs.Prelude.{◌≡◌, ◌==◌, ◌||◌, ◌∷◌, [], IfOk, OnOk, map};
ghost use Rattle.hk_types.specs.Values.{same_row};
ghost use Rattle.hk_model.specs.Replica.Maps.{values_conflict};
ghost use Rattle.hk_chains.specs.Versions.{AddsVersions, AreVersions, borrowed, versions_differ};

use crate::chains::Chains;
use hk_log::Version;
use hk_types::VersionKey;
use std::alloc::{AllocError, Global};

impl Chains {
    /// All versions of which anything is known, in rising order. The only error is out of memory.
    /// Cost: that of a walk over them.
    pub fn versions(&self, alloc: Global) -> Result<Vec<(VersionKey, &Version)>, AllocError>
        ensures { IfOk result (λ versions. AreVersions self.now (map borrowed versions.items)) }
    {
        self.walk().collect(alloc)
    }
}

/// Adds a version to a list, with what is borrowed of it. The only error is out of memory.
pub fn push_borrowed<'a>(
    found: &mut Vec<(VersionKey, &'a Version)>,
    version: VersionKey,
    known: &'a Version,
) -> Result<(), AllocError>
    ensures { OnOk result (AddsVersions found.old.items found.new.items ((version, known.now) ∷ [])) }
{
    match found.push((version, known)) {
        Ok(()) => Ok(()),
        Err(_refused) => Err(AllocError),
    }
}

/// Whether two versions have different rows, or different ends. It takes no memory. Cost: O(b), b bytes of a body.
pub fn differs(own: &Version, other: &Version) -> bool
    ensures { result ≡ versions_differ own.now other.now }
{
    rows_differ(own, other) || ends_differ(own, other)
}

fn rows_differ(own: &Version, other: &Version) -> bool
    ensures { result ≡ values_conflict same_row own.now.row other.now.row }
{
    match (own.row(), other.row()) {
        (Some(row), Some(another)) => *row != *another,
        _ => false,
    }
}

fn ends_differ(own: &Version, other: &Version) -> bool
    ensures { result ≡ values_conflict (λ a b. a == b) own.now.died other.now.died }
{
    match (own.died(), other.died()) {
        (Some(died), Some(another)) => died != another,
        _ => false,
    }
}
