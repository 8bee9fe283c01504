//! The versions by tag.

ghost use Rattle.std.specs.Prelude.{◌≡◌, ◌++◌, filter, IfOk, IfErr, OnOk};
ghost use Rattle.hk_types.specs.declared.faults.Refusal.TheVariants.{Memory};
ghost use Rattle.hk_index.specs.Listed.{Lists};
ghost use Rattle.hk_chains.specs.Indexed.{has_tag, with_tag, AllListed, AreTaggedOf};

use crate::chains::Chains;
use crate::key_index::KeyIndex;
use hk_index::{TagKeys, VersionSet};
use hk_types::{Key, Refusal, Table, Tag, VersionKey};
use std::alloc::{AllocError, Global};
use std::marker::Model;

/// The rows of all versions, found by tag: a view of what is held, which takes no memory.
#[derive(Drop)]
pub struct TagIndex<'a> {
    chains: &'a Chains,
    keys: &'a TagKeys,
}

impl<'a> Model for TagIndex<'a> {
    ghost use Rattle.std.specs.FinMap as finmap;
    ghost use Rattle.hk_types.specs.Values.{RowValue};
    ghost use Rattle.hk_model.specs.History.Rows.{version_key_cmp};
    ghost use Rattle.hk_model.specs.Replica.Codes.{version_key_code, row_code};
    ghost use Rattle.hk_chains.specs.Indexed.{AllListed};

    ghost Value = { finmap.FinMap version_key_cmp RowValue };

    ghost coded = { finmap.code version_key_code row_code };

    ghost view = { λ a. a.chains.now.rows };

    ghost invariant = { λ a. AllListed a.chains.now a.keys.now };
}

impl<'a> TagIndex<'a> {
    /// The view of what chains hold, by keys of which each that has a row with a tag is listed under it. It takes no memory.
    /// Cost: O(1).
    pub fn of(chains: &'a Chains, keys: &'a TagKeys) -> TagIndex<'a>
        requires { AllListed chains.now keys.now }
        ensures { result ≡ chains.now.rows }
    {
        TagIndex { chains, keys }
    }

    /// The versions of a table whose row has a tag, in rising order.
    ///
    /// The only refusal is `Memory`. Cost: O((k + v) · log n), k keys that have or had a row with the tag, v versions of
    /// theirs, n facts.
    pub fn list(&self, alloc: Global, table: Table, tag: Tag) -> Result<Vec<VersionKey>, Refusal>
        ensures ok { IfOk result (λ versions. Lists versions.items (with_tag self.now table tag)) }
        ensures err { IfErr result (λ why. why ≡ Memory) }
    {
        let keys = self.keys.keys(alloc, table, tag)?;
        let found = tagged_versions(alloc, self.chains, &keys, table, tag)?;
        let versions = VersionSet::of(alloc, &found)?;
        let versions = listed(alloc, &versions)?;
        Ok(versions)
    }
}

/// The versions of some keys of a table whose row has a tag.
fn tagged_versions(
    alloc: Global,
    chains: &Chains,
    keys: &[Key],
    table: Table,
    tag: Tag,
) -> Result<Vec<VersionKey>, Refusal>
    ensures ok { IfOk result (λ found. AreTaggedOf chains.now table tag keys.now found.items) }
    ensures err { IfErr result (λ why. why ≡ Memory) }
{
    let mut found = Vec::new(alloc);
    for key in keys {
        let versions = KeyIndex::of(chains).list(alloc, table, *key, *key)?;
        push_tagged(&mut found, chains, &versions, tag)?;
    }
    Ok(found)
}

/// Adds those of some versions whose row has a tag.
fn push_tagged(
    found: &mut Vec<VersionKey>,
    chains: &Chains,
    versions: &[VersionKey],
    tag: Tag,
) -> Result<(), AllocError>
    ensures { OnOk result (found.new.items ≡ found.old.items ++ filter (has_tag chains.now tag) versions.now) }
{
    for version in versions {
        if is_tagged(chains, version, tag) {
            found.push(*version)?;
        }
    }
    Ok(())
}

fn is_tagged(chains: &Chains, version: &VersionKey, tag: Tag) -> bool
    ensures { result ≡ has_tag chains.now tag version.now }
{
    match chains.row_at(version) {
        Some(row) => row.tag() == tag,
        None => false,
    }
}

fn listed(alloc: Global, versions: &VersionSet) -> Result<Vec<VersionKey>, AllocError>
    ensures { IfOk result (λ all. Lists all.items versions.now) }
{
    versions.iter().copied().collect(alloc)
}

/// The keys of all versions whose row is known, by tag. The only refusal is `Memory`. Cost: that of a walk over all versions, and
/// O(log k) for each, k keys of all tables.
pub fn keys_by_tag(alloc: Global, chains: &Chains) -> Result<TagKeys, Refusal>
    ensures ok { IfOk result (λ keys. AllListed chains.now keys) }
    ensures err { IfErr result (λ why. why ≡ Memory) }
{
    let mut keys = TagKeys::new(alloc);
    for (version, known) in chains.walk() {
        if let Some(row) = known.row() {
            keys.add(version.table, row.tag(), version.key)?;
        }
    }
    Ok(keys)
}
