//! Absorbing items.

ghost use Rattle.std.specs.Prelude.{◌≡◌, ◌≤◌, ◌∷◌, [], nat_le, length, None, false, OnOk, OnErr, IfOk, IfErr, IfSome, IfNone, if◌then◌else◌};
ghost use Rattle.std.specs.FinSet as set;
ghost use Rattle.hk_types.specs.declared.faults.Refusal.TheVariants.{Conflict, Memory};
ghost use Rattle.hk_log.specs.Items.{IsEntry};
ghost use Rattle.hk_log.specs.declared.item.Item.TheVariants.{Commit, Closed};
ghost use Rattle.hk_model.specs.declared.took.Took.TheVariants.{Taken};
ghost use Rattle.hk_model.specs.Replica.Items as spec;
ghost use Rattle.hk_model.specs.Replica.Streams.{all_together, stream_at, streams_of};
ghost use Rattle.hk_state.specs.Calls.{Absorbs, AbsorbsOf, AnswersStay};
ghost use Rattle.hk_store.specs.Facts.{with_entry, conflicts_with_entry};
ghost use Rattle.hk_store.specs.Undos.{rolled_back};
ghost use Rattle.hk_store.specs.Reads.{facts_of_content};

use crate::replica::ReplicaState;
use hk_log::{Entry, Item, Mark, Spare};
use hk_marks::Got;
use hk_model::Took;
use hk_store::{Facts, Undo};
use hk_types::{Config, Refusal};
use std::alloc::Global;

/// Why an item is none of the configuration's log, if it is none: `ForeignLog` for another log, and then
/// `WrongStreams` for a stream above the configured number. It takes no memory.
pub fn wrong_log(config: Config, item: &Item) -> Option<Refusal>
    ensures { result ≡ spec.wrong_log config.log config.streams item.now }
{
    let (log, stream) = match item {
        Item::Commit(entry) => (entry.log(), entry.stream()),
        Item::Closed(mark) => (mark.log(), mark.stream()),
    };
    if log != config.log() {
        return Some(Refusal::ForeignLog);
    }
    if stream.number() > config.streams() {
        return Some(Refusal::WrongStreams);
    }
    None
}

/// Adds an entry's rows, ends and number, each fact that is new noted, unless it conflicts with what
/// is known.
fn take_noted(
    facts: &mut Facts,
    got: &mut Got,
    undo: &mut Undo,
    entry: Entry,
    spare: &mut Spare,
) -> Result<(), Refusal>
    requires { entry.stream ≤ length got.old }
    ensures facts { OnOk result (facts.new ≡ with_entry facts.old entry) }
    ensures got { OnOk result (got.new ≡ all_together got.old (streams_of (length got.old) (Commit entry ∷ []))) }
    ensures agrees { OnOk result (conflicts_with_entry facts.old entry ≡ false) }
    ensures err { IfErr result (λ why. why ≡ (if conflicts_with_entry facts.old entry then Conflict else Memory)) }
    ensures kept { OnErr result (got.new ≡ got.old) }
    ensures back { rolled_back undo.new facts.new ≡ rolled_back undo.old facts.old }
{
    let stream = entry.stream();
    let number = entry.number();
    facts.put_writes(undo, entry, spare)?;
    got.add_number(stream, number)
}

/// Adds an entry's rows, ends and number, or nothing of it: `Conflict` where it conflicts with what is known, and
/// else `Memory`. Its bodies are moved, and its lists go to `spare`.
fn take_entry(
    facts: &mut Facts,
    got: &mut Got,
    entry: Entry,
    spare: &mut Spare,
) -> Result<Took, Refusal>
    requires { entry.stream ≤ length got.old }
    ensures told { IfOk result (λ took. took ≡ Taken) }
    ensures facts { OnOk result (facts.new ≡ with_entry facts.old entry) }
    ensures got { OnOk result (got.new ≡ all_together got.old (streams_of (length got.old) (Commit entry ∷ []))) }
    ensures agrees { OnOk result (conflicts_with_entry facts.old entry ≡ false) }
    ensures err { IfErr result (λ why. why ≡ (if conflicts_with_entry facts.old entry then Conflict else Memory)) }
    ensures same_facts { OnErr result (facts.new ≡ facts.old) }
    ensures same_got { OnErr result (got.new ≡ got.old) }
{
    let mut undo = facts.begin_undo();
    if let Err(why) = take_noted(facts, got, &mut undo, entry, spare) {
        facts.take_back(undo);
        return Err(why);
    }
    facts.end_undo(undo);
    Ok(Took::Taken)
}

/// Applies a mark that is new, or nothing of it.
fn take_mark(got: &mut Got, mark: &Mark) -> Result<Took, Refusal>
    requires { mark.now.stream ≤ length got.old }
    ensures told { IfOk result (λ took. took ≡ Taken) }
    ensures got { OnOk result (got.new ≡ all_together got.old (streams_of (length got.old) (Closed mark.now ∷ []))) }
    ensures err { IfErr result (λ why. why ≡ Memory) }
    ensures kept { OnErr result (got.new ≡ got.old) }
{
    got.add_mark(mark.stream(), mark.n(), mark.m())?;
    Ok(Took::Taken)
}

impl ReplicaState {
    /// Whether the number of an entry is applied.
    fn has_taken(&self, entry: &Entry) -> bool
        requires { spec.wrong_log self.now.log (length self.now.streams) (Commit entry.now) ≡ None }
        ensures value { result ≡ set.contains (stream_at self.now.streams entry.now.stream).taken entry.now.number }
        ensures lawful { IsEntry entry.now }
    {
        self.got.has(entry.stream(), entry.number())
    }

    /// Whether the time of an entry is at most the closed time of its stream.
    fn is_late(&self, entry: &Entry) -> bool
        requires { spec.wrong_log self.now.log (length self.now.streams) (Commit entry.now) ≡ None }
        ensures { result ≡ nat_le entry.now.time (stream_at self.now.streams entry.now.stream).closed }
    {
        entry.time() <= self.got.closed(entry.stream())
    }

    /// The outcome of an entry whose number is applied, or that is late. Such an entry changes nothing, and none of
    /// its rows and ends is looked at.
    fn outcome_at_once(&self, entry: &Entry) -> Option<Result<Took, Refusal>>
        requires { spec.wrong_log self.now.log (length self.now.streams) (Commit entry.now) ≡ None }
        ensures some { IfSome result (λ outcome. Absorbs self.now self.now (Commit entry.now) outcome) }
        ensures new { IfNone result (set.contains (stream_at self.now.streams entry.now.stream).taken entry.now.number ≡ false) }
        ensures timely { IfNone result (nat_le entry.now.time (stream_at self.now.streams entry.now.stream).closed ≡ false) }
        ensures lawful { IsEntry entry.now }
    {
        if self.has_taken(entry) {
            return Some(Ok(Took::Repeated));
        }
        if self.is_late(entry) {
            return Some(Err(Refusal::Conflict));
        }
        None
    }

    /// Why an entry is not applied for which memory was refused.
    fn refusal_without_memory(&self, entry: &Entry) -> Refusal
        ensures { result ≡ (if conflicts_with_entry (facts_of_content self.now) entry.now then Conflict else Memory) }
    {
        if self.facts.conflicts_with_entry(entry) {
            return Refusal::Conflict;
        }
        Refusal::Memory
    }

    /// Absorbs an entry of the log, which it copies.
    fn absorb_entry(&mut self, entry: &Entry) -> Result<Took, Refusal>
        requires { spec.wrong_log self.old.log (length self.old.streams) (Commit entry.now) ≡ None }
        ensures { Absorbs self.old self.new (Commit entry.now) result }
    {
        if let Some(outcome) = self.outcome_at_once(entry) {
            return outcome;
        }
        let Ok(copied) = entry.copy(self.alloc) else {
            return Err(self.refusal_without_memory(entry));
        };
        let mut spare = Spare::default();
        take_entry(&mut self.facts, &mut self.got, copied, &mut spare)
    }

    /// Absorbs an entry of the log, whose bodies it moves.
    fn absorb_own_entry(&mut self, entry: Entry, spare: &mut Spare) -> Result<Took, Refusal>
        requires { spec.wrong_log self.old.log (length self.old.streams) (Commit entry) ≡ None }
        ensures { Absorbs self.old self.new (Commit entry) result }
    {
        if let Some(outcome) = self.outcome_at_once(&entry) {
            return outcome;
        }
        take_entry(&mut self.facts, &mut self.got, entry, spare)
    }

    /// Absorbs a mark of the log.
    fn absorb_mark(&mut self, mark: &Mark) -> Result<Took, Refusal>
        requires { spec.wrong_log self.old.log (length self.old.streams) (Closed mark.now) ≡ None }
        ensures { Absorbs self.old self.new (Closed mark.now) result }
    {
        if self.got.adds_nothing(mark.stream(), mark.n(), mark.m()) {
            return Ok(Took::Repeated);
        }
        take_mark(&mut self.got, mark)
    }

    /// Absorbs an item.
    ///
    /// An item of another log is refused `ForeignLog`, one of a stream above the configured number `WrongStreams`. An entry
    /// whose number is applied is `Repeated` and takes no memory. An entry that has another row or another end of a version
    /// than is known, or whose time is at most the closed time of its stream, is refused `Conflict`. `Memory` comes last,
    /// where a growth was refused. A refusal changes nothing. `Repeated` is returned exactly where nothing changed. Whatever
    /// the item is, each answer at a time from the oldest readable time to the resolved time before the call is as it was.
    /// Cost: O((1 + w + f) · log n + b), w writes of the entry, f extra numbers and marks that it frees, n facts, extra
    /// numbers and waiting marks held, b bytes of bodies compared or copied.
    pub fn absorb(&mut self, item: &Item) -> Result<Took, Refusal>
        ensures gives { Absorbs self.old self.new item.now result }
        ensures represents { AbsorbsOf self.old self.new item.now result }
        ensures stays { AnswersStay self.old self.new }
    {
        if let Some(why) = wrong_log(self.config, item) {
            return Err(why);
        }
        match item {
            Item::Commit(entry) => self.absorb_entry(entry),
            Item::Closed(mark) => self.absorb_mark(mark),
        }
    }

    /// Absorbs an item as `absorb` does, and moves its bodies, so that none is copied. The lists of an entry that was
    /// taken are given to `spare`; an item that is refused or repeated is dropped. Cost: that of `absorb`, with b the bytes
    /// of bodies compared.
    pub fn absorb_owned(&mut self, item: Item, spare: &mut Spare) -> Result<Took, Refusal>
        ensures gives { Absorbs self.old self.new item result }
        ensures represents { AbsorbsOf self.old self.new item result }
        ensures stays { AnswersStay self.old self.new }
    {
        if let Some(why) = wrong_log(self.config, &item) {
            return Err(why);
        }
        match item {
            Item::Commit(entry) => self.absorb_own_entry(entry, spare),
            Item::Closed(mark) => self.absorb_mark(&mark),
        }
    }
}
