//! Adding items, all of them or none.

ghost use Rattle.std.specs.Prelude.{◌≡◌, ◌∷◌, [], length, All, None, false, IfOk, IfErr, OnOk, OnErr};
ghost use Rattle.hk_types.specs.declared.faults.Refusal.TheVariants.{Memory};
ghost use Rattle.hk_model.specs.Replica.Items as items_spec;
ghost use Rattle.hk_model.specs.Replica.Lawful.{IsItem, IsLawful};
ghost use Rattle.hk_model.specs.Replica.Rules.{first_wrong_log, with_items};
ghost use Rattle.hk_model.specs.Replica.Streams.{all_together, streams_of};
ghost use Rattle.hk_state.specs.Items.{RefusesWhere, conflict_in_turn, facts_with, item_conflicts, log_of_content};
ghost use Rattle.hk_store.specs.Undos.{rolled_back};
ghost use Rattle.hk_store.specs.Reads.{facts_of_content};

use crate::replica::ReplicaState;
use hk_log::{Item, Spare};
use hk_marks::Got;
use hk_store::{Facts, Undo};
use hk_types::{Config, Refusal};
use std::alloc::Global;

/// Notes the number of an entry, or a mark. The only refusal is `Memory`, and it changes nothing. Cost: that of
/// `Got::add_number` or `Got::add_mark`.
pub fn note_item(got: &mut Got, config: Config, item: &Item) -> Result<(), Refusal>
    requires many { length got.old ≡ config.streams }
    requires fits { items_spec.wrong_log config.log config.streams item.now ≡ None }
    ensures ok { OnOk result (got.new ≡ all_together got.old (streams_of (length got.old) (item.now ∷ []))) }
    ensures lawful { IsItem item.now }
    ensures err { IfErr result (λ why. why ≡ Memory) }
    ensures kept { OnErr result (got.new ≡ got.old) }
{
    match item {
        Item::Commit(entry) => got.add_number(entry.stream(), entry.number()),
        Item::Closed(mark) => got.add_mark(mark.stream(), mark.n(), mark.m()),
    }
}

/// The numbers and marks that items bring to the streams. The only refusal is `Memory`. Cost: O(s + i · log i), s
/// streams, i items.
pub fn note_items(alloc: Global, config: Config, items: &[Item]) -> Result<Got, Refusal>
    requires { first_wrong_log config items.now ≡ None }
    ensures ok { IfOk result (λ got. got ≡ streams_of config.streams items.now) }
    ensures lawful { OnOk result (All IsItem items.now) }
    ensures err { IfErr result (λ why. why ≡ Memory) }
{
    let mut got = Got::new(alloc, config)?;
    for item in items {
        note_item(&mut got, config, item)?;
    }
    Ok(got)
}

/// Adds the numbers and marks of items, or none of them. One alone is added at once, more by a view of their own.
fn note_all(alloc: Global, got: &mut Got, config: Config, items: &[Item]) -> Result<(), Refusal>
    requires many { length got.old ≡ config.streams }
    requires fits { first_wrong_log config items.now ≡ None }
    ensures ok { OnOk result (got.new ≡ all_together got.old (streams_of (length got.old) items.now)) }
    ensures err { IfErr result (λ why. why ≡ Memory) }
    ensures kept { OnErr result (got.new ≡ got.old) }
{
    match items {
        [item] => note_item(got, config, item),
        _ => {
            let given = note_items(alloc, config, items)?;
            got.join(&given)
        }
    }
}

/// Adds the rows and ends of an item, each that is new noted: `Conflict` where it conflicts with what is
/// known.
fn put_item(alloc: Global, facts: &mut Facts, undo: &mut Undo, item: &Item) -> Result<(), Refusal>
    ensures ok { OnOk result (facts.new ≡ facts_with facts.old (item.now ∷ [])) }
    ensures agrees { OnOk result (item_conflicts facts.old item.now ≡ false) }
    ensures err { IfErr result (RefusesWhere (item_conflicts facts.old item.now)) }
    ensures back { rolled_back undo.new facts.new ≡ rolled_back undo.old facts.old }
{
    match item {
        Item::Commit(entry) => {
            let copied = entry.copy(alloc)?;
            facts.put_writes(undo, copied, &mut Spare::default())
        }
        Item::Closed(_) => Ok(()),
    }
}

/// Adds the rows and ends of items, one item after the other, each that is new noted.
fn put_items(
    alloc: Global,
    facts: &mut Facts,
    undo: &mut Undo,
    items: &[Item],
) -> Result<(), Refusal>
    ensures ok { OnOk result (facts.new ≡ facts_with facts.old items.now) }
    ensures agrees { OnOk result (conflict_in_turn facts.old items.now ≡ false) }
    ensures err { IfErr result (RefusesWhere (conflict_in_turn facts.old items.now)) }
    ensures back { rolled_back undo.new facts.new ≡ rolled_back undo.old facts.old }
{
    for item in items {
        put_item(alloc, facts, undo, item)?;
    }
    Ok(())
}

/// Adds the rows and ends of items, each that is new noted, and then their numbers and marks.
fn add_noted(
    alloc: Global,
    facts: &mut Facts,
    got: &mut Got,
    undo: &mut Undo,
    config: Config,
    items: &[Item],
) -> Result<(), Refusal>
    requires many { length got.old ≡ config.streams }
    requires fits { first_wrong_log config items.now ≡ None }
    ensures facts { OnOk result (facts.new ≡ facts_with facts.old items.now) }
    ensures agrees { OnOk result (conflict_in_turn facts.old items.now ≡ false) }
    ensures err { IfErr result (RefusesWhere (conflict_in_turn facts.old items.now)) }
    ensures got { OnOk result (got.new ≡ all_together got.old (streams_of (length got.old) items.now)) }
    ensures kept { OnErr result (got.new ≡ got.old) }
    ensures back { rolled_back undo.new facts.new ≡ rolled_back undo.old facts.old }
{
    put_items(alloc, facts, undo, items)?;
    note_all(alloc, got, config, items)
}

/// Adds items: all of them or none.
fn add_all(
    alloc: Global,
    facts: &mut Facts,
    got: &mut Got,
    config: Config,
    items: &[Item],
) -> Result<(), Refusal>
    requires many { length got.old ≡ config.streams }
    requires fits { first_wrong_log config items.now ≡ None }
    ensures facts { OnOk result (facts.new ≡ facts_with facts.old items.now) }
    ensures agrees { OnOk result (conflict_in_turn facts.old items.now ≡ false) }
    ensures err { IfErr result (RefusesWhere (conflict_in_turn facts.old items.now)) }
    ensures got { OnOk result (got.new ≡ all_together got.old (streams_of (length got.old) items.now)) }
    ensures same_facts { OnErr result (facts.new ≡ facts.old) }
    ensures same_got { OnErr result (got.new ≡ got.old) }
{
    let mut undo = facts.begin_undo();
    if let Err(why) = add_noted(alloc, facts, got, &mut undo, config, items) {
        facts.take_back(undo);
        return Err(why);
    }
    facts.end_undo(undo);
    Ok(())
}

impl ReplicaState {
    /// Adds the rows, ends, numbers and marks of items of the log, all of them or none, without a test of what is closed
    /// or was applied before. Their bodies are shared, where they were read from bytes.
    ///
    /// `Conflict` where an item has another row, or another end, of a version than is known or an item before it says;
    /// `Memory` where a growth was refused, even if an item after it conflicts. A refusal changes nothing.
    ///
    /// Cost: O((s + w + i + f) · log n + b), s streams, w writes of the i items, f extra numbers and marks that they free,
    /// n facts, extra numbers and waiting marks held and in the items, b bytes of bodies compared.
    pub fn add_items(&mut self, items: &[Item]) -> Result<(), Refusal>
        requires fits { first_wrong_log (log_of_content self.old) items.now ≡ None }
        requires lawful { IsLawful (with_items self.old items.now) }
        ensures ok { OnOk result (self.new ≡ with_items self.old items.now) }
        ensures agrees { OnOk result (conflict_in_turn (facts_of_content self.old) items.now ≡ false) }
        ensures err { IfErr result (RefusesWhere (conflict_in_turn (facts_of_content self.old) items.now)) }
        ensures kept { OnErr result (self.new ≡ self.old) }
    {
        add_all(
            self.alloc,
            &mut self.facts,
            &mut self.got,
            self.config,
            items,
        )?;
        Ok(())
    }
}
