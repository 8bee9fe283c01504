//! Applying a change.

ghost use Rattle.std.specs.Prelude.{◌≡◌, length, OnOk, OnErr, IfErr};
ghost use Rattle.hk_types.specs.declared.faults.Refusal.TheVariants.{Memory};
ghost use Rattle.hk_model.specs.Replica.Lawful.{IsLawful};
ghost use Rattle.hk_model.specs.Replica.Streams.{all_together};
ghost use Rattle.hk_state.specs.Changes.{content_after_change, facts_after_change};
ghost use Rattle.hk_store.specs.Changes.{with_listed};
ghost use Rattle.hk_store.specs.Undos.{rolled_back};

use crate::replica::ReplicaState;
use hk_marks::Got;
use hk_store::{Facts, Undo, meets};
use hk_types::{Refusal, Row, Time, VersionKey};
use std::alloc::Global;

/// What becomes of a state's facts and its oldest readable time: the versions that are dropped first, the rows and
/// ends that come then where none are known, and the oldest readable time after it.
#[derive(Drop)]
pub struct Change {
    /// The new oldest readable time.
    pub horizon: Time,
    /// The versions whose row and end go first.
    pub drops: Vec<VersionKey>,
    /// The rows that come.
    pub rows: Vec<(VersionKey, Row)>,
    /// The ends that come.
    pub ends: Vec<(VersionKey, Time)>,
}

/// Adds rows and ends where none are known, each that is new noted, and then joins the given numbers
/// and marks.
fn grow_noted(
    facts: &mut Facts,
    got: &mut Got,
    undo: &mut Undo,
    rows: Vec<(VersionKey, Row)>,
    ends: &[(VersionKey, Time)],
    given: &Got,
) -> Result<(), Refusal>
    requires { length got.old ≡ length given.now }
    ensures facts { OnOk result (facts.new ≡ with_listed facts.old rows.items ends.now) }
    ensures got { OnOk result (got.new ≡ all_together got.old given.now) }
    ensures err { IfErr result (λ why. why ≡ Memory) }
    ensures kept { OnErr result (got.new ≡ got.old) }
    ensures back { rolled_back undo.new facts.new ≡ rolled_back undo.old facts.old }
{
    facts.add_listed(undo, rows, ends)?;
    got.join(given)
}

/// Adds rows and ends where none are known, and joins the given numbers and marks: all of it or nothing.
fn grow(
    alloc: Global,
    facts: &mut Facts,
    got: &mut Got,
    rows: Vec<(VersionKey, Row)>,
    ends: &[(VersionKey, Time)],
    given: &Got,
) -> Result<(), Refusal>
    requires { length got.old ≡ length given.now }
    ensures facts { OnOk result (facts.new ≡ with_listed facts.old rows.items ends.now) }
    ensures got { OnOk result (got.new ≡ all_together got.old given.now) }
    ensures err { IfErr result (λ why. why ≡ Memory) }
    ensures same_facts { OnErr result (facts.new ≡ facts.old) }
    ensures same_got { OnErr result (got.new ≡ got.old) }
{
    let mut undo = Undo::new(alloc);
    if let Err(why) = grow_noted(facts, got, &mut undo, rows, ends, given) {
        facts.take_back(undo);
        return Err(why);
    }
    Ok(())
}

/// Makes a change of the facts on a copy of them, and joins the given numbers and marks: all of it or nothing.
fn grow_on_a_copy(
    facts: &mut Facts,
    got: &mut Got,
    change: Change,
    given: &Got,
) -> Result<(), Refusal>
    requires { length got.old ≡ length given.now }
    ensures facts { OnOk result (facts.new ≡ facts_after_change facts.old change) }
    ensures got { OnOk result (got.new ≡ all_together got.old given.now) }
    ensures err { IfErr result (λ why. why ≡ Memory) }
    ensures same_facts { OnErr result (facts.new ≡ facts.old) }
    ensures same_got { OnErr result (got.new ≡ got.old) }
{
    let Change {
        drops,
        rows,
        ends,
        ..
    } = change;
    let replaced = facts.replaced(&drops, rows, &ends)?;
    got.join(given)?;
    *facts = replaced;
    Ok(())
}

/// Makes a change of the facts, and joins the given numbers and marks: all of it or nothing.
fn take_change(
    alloc: Global,
    facts: &mut Facts,
    got: &mut Got,
    change: Change,
    given: &Got,
) -> Result<(), Refusal>
    requires { length got.old ≡ length given.now }
    ensures facts { OnOk result (facts.new ≡ facts_after_change facts.old change) }
    ensures got { OnOk result (got.new ≡ all_together got.old given.now) }
    ensures err { IfErr result (λ why. why ≡ Memory) }
    ensures same_facts { OnErr result (facts.new ≡ facts.old) }
    ensures same_got { OnErr result (got.new ≡ got.old) }
{
    if meets(alloc, &change.drops, &change.rows, &change.ends)? {
        return grow_on_a_copy(facts, got, change, given);
    }
    let Change {
        drops,
        rows,
        ends,
        ..
    } = change;
    grow(alloc, facts, got, rows, &ends, given)?;
    facts.drop_all(&drops);
    Ok(())
}

impl ReplicaState {
    /// The allocator that the state grows by.
    pub fn allocator(&self) -> Global {
        self.alloc
    }

    /// Applies a change, and joins the numbers and marks that are given: all of it or nothing.
    ///
    /// The only refusal is `Memory`, and it changes nothing. Cost: O((s + c + g) · log (n + c)), s streams,
    /// c drops, rows and ends, g numbers and marks given and those held that they free, n facts, extra numbers
    /// and waiting marks held. Where a version that is dropped has a row or an end added, as no log brings
    /// about that does not conflict with itself, the facts are copied: O((n + c) · log (n + c) + b), b bytes of
    /// bodies.
    pub fn apply(&mut self, change: Change, given: &Got) -> Result<(), Refusal>
        requires lawful { IsLawful (content_after_change self.old change given.now) }
        requires as_many { length given.now ≡ length self.old.streams }
        ensures ok { OnOk result (self.new ≡ content_after_change self.old change given.now) }
        ensures err { IfErr result (λ why. why ≡ Memory) }
        ensures kept { OnErr result (self.new ≡ self.old) }
    {
        let horizon = change.horizon;
        take_change(self.alloc, &mut self.facts, &mut self.got, change, given)?;
        self.facts.note_ends_above(horizon);
        self.horizon = horizon;
        Ok(())
    }
}
