//! The keys of the versions of which anything is known.

ghost use Rattle.std.specs.Prelude.{◌≡◌, IfOk, IfErr};
ghost use Rattle.std.specs.FinSet as set;
ghost use Rattle.hk_types.specs.declared.faults.Refusal.TheVariants.{Memory};
ghost use Rattle.hk_index.specs.Listed.{Lists, is_up_to, with_keys};
ghost use Rattle.hk_chains.specs.Indexed.{keys_of};

use crate::chains::Chains;
use hk_types::{Key, Refusal, Table, VersionKey};
use std::alloc::Global;
use std::marker::Model;

/// The set of the versions of which a row or an end is known, in the order of table, key and born: a view of
/// what is held, which takes no memory.
#[derive(Drop)]
pub struct KeyIndex<'a> {
    chains: &'a Chains,
}

impl<'a> Model for KeyIndex<'a> {
    ghost use Rattle.std.specs.FinSet as set;
    ghost use Rattle.hk_model.specs.Replica.Codes.{version_key_code};
    ghost use Rattle.hk_model.specs.History.Rows.{version_key_cmp};
    ghost use Rattle.hk_chains.specs.Indexed.{keys_of};

    ghost Value = { set.FinSet version_key_cmp };

    ghost coded = { set.code version_key_code };

    ghost view = { λ a. keys_of a.chains.now };
}

impl<'a> KeyIndex<'a> {
    /// The view of what chains hold. It takes no memory. Cost: O(1).
    pub fn of(chains: &'a Chains) -> KeyIndex<'a>
        ensures { result ≡ keys_of chains.now }
    {
        KeyIndex { chains }
    }

    /// Whether a version is there. Cost: O(log n), n versions in the set.
    pub fn has(&self, version: VersionKey) -> bool
        ensures { result ≡ set.contains self.now version }
    {
        self.chains.knows(&version)
    }

    /// The versions of a table with keys from `low` to `high`, both inside, in rising order. Where
    /// `low` is above `high` there are none.
    ///
    /// The only refusal is `Memory`. Cost: O(log n + k · log n), n versions in the set, k of them returned.
    pub fn list(
        &self,
        alloc: Global,
        table: Table,
        low: Key,
        high: Key,
    ) -> Result<Vec<VersionKey>, Refusal>
        ensures ok { IfOk result (λ versions. Lists versions.items (with_keys self.now table low high)) }
        ensures err { IfErr result (λ why. why ≡ Memory) }
    {
        list_up_to(alloc, self.chains, table, low, high)
    }

    /// All versions, in rising order.
    ///
    /// The only refusal is `Memory`. Cost: O(n · log n), n versions, all returned.
    pub fn all(&self, alloc: Global) -> Result<Vec<VersionKey>, Refusal>
        ensures ok { IfOk result (λ versions. Lists versions.items self.now) }
        ensures err { IfErr result (λ why. why ≡ Memory) }
    {
        list_all(alloc, self.chains)
    }
}

/// The versions of a table with keys from `low` to `high`, in rising order.
fn list_up_to(
    alloc: Global,
    chains: &Chains,
    table: Table,
    low: Key,
    high: Key,
) -> Result<Vec<VersionKey>, Refusal>
    ensures ok { IfOk result (λ versions. Lists versions.items (with_keys (keys_of chains.now) table low high)) }
    ensures err { IfErr result (λ why. why ≡ Memory) }
{
    let mut found = Vec::new(alloc);
    for (version, _known) in chains.walk_from(table, low) {
        if !is_up_to(&version, table, high) {
            return Ok(found);
        }
        found.push(version)?;
    }
    Ok(found)
}

/// All versions, in rising order.
fn list_all(alloc: Global, chains: &Chains) -> Result<Vec<VersionKey>, Refusal>
    ensures ok { IfOk result (λ versions. Lists versions.items (keys_of chains.now)) }
    ensures err { IfErr result (λ why. why ≡ Memory) }
{
    let mut found = Vec::new(alloc);
    for (version, _known) in chains.walk() {
        found.push(version)?;
    }
    Ok(found)
}

fn is_up_to(version: &VersionKey, table: Table, high: Key) -> bool
    ensures { result ≡ is_up_to table high version.now }
{
    version.table == table && version.key.number() <= high.number()
}
