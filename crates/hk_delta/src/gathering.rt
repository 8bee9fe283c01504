//! Fragments of items.

ghost use Rattle.std.specs.Prelude.{◌≡◌, ◌⊎◌, ◌∷◌, ◌++◌, [], All, None, IfOk, IfErr, OnOk, true, false};
ghost use Rattle.std.specs.List.{flat_map};
ghost use Rattle.hk_types.specs.declared.faults.Refusal.TheVariants.{Conflict as ConflictRefusal, Memory};
ghost use Rattle.hk_model.specs.Replica.Fragments.{part};
ghost use Rattle.hk_model.specs.Replica.Lawful.{IsItem};
ghost use Rattle.hk_model.specs.Replica.Rules as rules;
ghost use Rattle.hk_delta.specs.Gathers.{have_conflict, Gathers, GathersOf, row_fact, end_fact, item_facts};

use crate::Fragment;
use crate::conflicts::conflict;
use crate::versions::versions_of;
use hk_facts::Fact;
use hk_log::Item;
use hk_state::{note_items, wrong_log};
use hk_types::{Config, Key, Refusal, Row, Table, Time, VersionKey};
use std::alloc::{AllocError, Global};

/// Why the first of the items that is none of the log is none.
pub(crate) fn first_wrong_log(config: Config, items: &[Item]) -> Option<Refusal>
    ensures { result ≡ rules.first_wrong_log config items.now }
{
    for item in items {
        if let Some(why) = wrong_log(config, item) {
            return Some(why);
        }
    }
    None
}

/// Puts the rows of an entry of a time.
fn put_rows(
    alloc: Global,
    facts: &mut Vec<(VersionKey, Fact)>,
    rows: &[(Table, Key, Row)],
    time: Time,
) -> Result<(), AllocError>
    ensures { OnOk result (facts.new.items ≡ facts.old.items ++ flat_map (row_fact time) rows.now) }
{
    for (table, key, row) in rows {
        let version = VersionKey {
            table: *table,
            key: *key,
            born: time,
        };
        facts.push((version, Fact::Row(row.copy(alloc)?)))?;
    }
    Ok(())
}

/// Puts the ends of an entry of a time.
fn put_ends(
    facts: &mut Vec<(VersionKey, Fact)>,
    ends: &[VersionKey],
    time: Time,
) -> Result<(), AllocError>
    ensures { OnOk result (facts.new.items ≡ facts.old.items ++ flat_map (end_fact time) ends.now) }
{
    for version in ends {
        facts.push((*version, Fact::End(time)))?;
    }
    Ok(())
}

/// Puts all rows and ends of an item.
fn put_item(
    alloc: Global,
    facts: &mut Vec<(VersionKey, Fact)>,
    item: &Item,
) -> Result<(), AllocError>
    ensures { OnOk result (facts.new.items ≡ facts.old.items ++ item_facts item.now) }
{
    match item {
        Item::Commit(entry) => {
            put_rows(alloc, facts, entry.rows(), entry.time())?;
            put_ends(facts, entry.ends(), entry.time())
        }
        Item::Closed(_) => Ok(()),
    }
}

/// All rows and ends of items.
fn facts_of(alloc: Global, items: &[Item]) -> Result<Vec<(VersionKey, Fact)>, AllocError>
    ensures { IfOk result (λ facts. facts.items ≡ flat_map item_facts items.now) }
{
    let mut facts = Vec::new(alloc);
    for item in items {
        put_item(alloc, &mut facts, item)?;
    }
    Ok(facts)
}

/// The fragment of items of the log. It is refused `Conflict` only where two of them conflict with each other, and
/// else `Memory`.
pub(crate) fn gather(alloc: Global, config: Config, items: &[Item]) -> Result<Fragment, Refusal>
    requires { rules.first_wrong_log config items.now ≡ None }
    ensures ok { IfOk result (λ fragment. fragment ≡ part config items.now 0 0) }
    ensures agree { OnOk result (have_conflict items.now ≡ false) }
    ensures lawful { OnOk result (All IsItem items.now) }
    ensures err { IfErr result (λ why. (why ≡ Memory) ⊎ ((why ≡ ConflictRefusal) × (have_conflict items.now ≡ true))) }
{
    let got = note_items(alloc, config, items)?;
    let versions = versions_of(alloc, facts_of(alloc, items)?)?;
    let beginning = Time::zero();
    Ok(Fragment::of_parts(config, beginning, beginning, got, versions))
}

/// The fragment of items, with `base` 0 and `horizon` 0: all their rows and ends together, and all their numbers and marks.
///
/// The first item that is of another log is refused `ForeignLog`, or of a stream above the configured number
/// `WrongStreams`. Two items that have different rows or different ends of a version are refused `Conflict`, and then
/// `Memory` comes where a growth was refused. Cost: O(n · log n + b), n items, rows and ends, b bytes of bodies, all
/// copied once. Only where memory was refused, the items are compared with each other, which takes no memory: O(n²).
pub fn fragment_of(alloc: Global, config: Config, items: &[Item]) -> Result<Fragment, Refusal>
    ensures gives { Gathers config items.now result }
    ensures represents { GathersOf config items.now result }

    // The items of a fragment are such as their constructors let be.
    ensures lawful { OnOk result (All IsItem items.now) }
{
    if let Some(why) = first_wrong_log(config, items) {
        return Err(why);
    }
    match gather(alloc, config, items) {
        Ok(fragment) => Ok(fragment),
        Err(why) => Err(refusal_of(why, items)),
    }
}

/// `Conflict` comes before `Memory`. Where the conflict is known the items are not compared.
pub(crate) fn refusal_of(why: Refusal, items: &[Item]) -> Refusal
    ensures conflict { have_conflict items.now ≡ true → result ≡ ConflictRefusal }
    ensures other { have_conflict items.now ≡ false → result ≡ why }
{
    match why {
        Refusal::Conflict => Refusal::Conflict,
        _ if conflict(items) => Refusal::Conflict,
        _ => why,
    }
}
