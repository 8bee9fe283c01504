//! Facts that are joined to versions.

ghost use Rattle.std.specs.Prelude.{◌≡◌, ◌⊎◌, Some, Ok, false, true, IsTrue, IfOk, IfErr, OnOk};
ghost use Rattle.std.specs.FinMap.Entries.{is_sorted};
ghost use Rattle.hk_types.specs.declared.faults.Refusal.TheVariants.{Conflict as ConflictRefusal, Memory};
ghost use Rattle.hk_model.specs.History.Rows.{version_key_cmp};
ghost use Rattle.hk_store.specs.Versions.{AreVersions};
ghost use Rattle.hk_delta.specs.Versions.{IsNotBefore, contradict, joined_to, last_version, told};

use hk_facts::{Fact, join, version_of};
use hk_log::Version;
use hk_types::{Refusal, VersionKey};
use std::alloc::Global;

/// Adds a fact to the last version where it is on that one, and else after it. It is refused `Conflict` where it
/// differs from what is known of that one, and `Memory` where the list could not grow.
fn add(
    versions: &mut Vec<(VersionKey, Version)>,
    version: VersionKey,
    fact: Fact,
) -> Result<(), Refusal>
    requires rising { IsTrue (is_sorted version_key_cmp versions.old.items) }
    requires next { IsNotBefore (last_version versions.old.items) version }
    ensures ok { OnOk result (joined_to versions.old.items (version, fact) ≡ Ok versions.new.items) }
    ensures last { OnOk result (last_version versions.new.items ≡ Some version) }
    ensures err { IfErr result (λ why. (joined_to versions.old.items (version, fact) ≡ Err why) ⊎ (why ≡ Memory)) }
{
    if let Some(last) = versions.last_mut() {
        if last.0 == version {
            join(&mut last.1, fact)?;
            return Ok(());
        }
    }
    versions.push((version, version_of(fact)))?;
    Ok(())
}

/// What is known of each version by facts in whatever order, in rising order.
///
/// Two facts that give a version different rows or different ends are refused `Conflict`, and `Memory` comes where a
/// growth was refused: whichever is met first. Cost: O(n · log n + b), n facts, b bytes of the bodies of rows that came
/// more than once; O(n + b) where the versions of the facts rise. Bodies are moved.
pub(crate) fn versions_of(
    alloc: Global,
    mut facts: Vec<(VersionKey, Fact)>,
) -> Result<Vec<(VersionKey, Version)>, Refusal>
    ensures versions { IfOk result (λ versions. AreVersions (told facts.items) versions.items) }
    ensures agree { OnOk result (contradict facts.items ≡ false) }
    ensures err { IfErr result (λ why. (why ≡ Memory) ⊎ ((why ≡ ConflictRefusal) × (contradict facts.items ≡ true))) }
{
    facts.sort_unstable_by_key(|fact| fact.0);
    let mut versions = Vec::with_capacity(alloc, facts.len())?;
    for (version, fact) in facts {
        add(&mut versions, version, fact)?;
    }
    Ok(versions)
}
