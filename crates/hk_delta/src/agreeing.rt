//! Items that agree with a state, as a fragment of what is new.

ghost use Rattle.std.specs.Prelude.{◌≡◌, ◌≤◌, ◌∷◌, [], length, Bool, None, Ok, IfSome, OnOk, IfErr};
ghost use Rattle.std.specs.Bool.{OnTrue};
ghost use Rattle.std.specs.List.{list_any};
ghost use Rattle.hk_types.specs.declared.faults.Refusal.TheVariants.{Memory};
ghost use Rattle.hk_model.specs.Replica.Items.{stream_no};
ghost use Rattle.hk_model.specs.Replica.Lawful.{IsItem};
ghost use Rattle.hk_model.specs.Replica.Rules.{contents_conflict};
ghost use Rattle.hk_state.specs.Items.{facts_with};
ghost use Rattle.hk_store.specs.Versions.{value_conflicts_at};
ghost use Rattle.hk_delta.specs.Agreeing as spec;
ghost use Rattle.hk_delta.specs.Agreeing.{Agrees, AreNew, IsNew, Learns, LearnsAll};
ghost use Rattle.hk_delta.specs.Repeats.{AgreesSo};

use crate::Fragment;
use crate::cutting::left_of_all;
use crate::gathering::gather;
use crate::repeats::some_stand_otherwise;
use hk_log::{Item, Version};
use hk_marks::Got;
use hk_state::{ReplicaState, note_item, wrong_log};
use hk_store::Facts;
use hk_types::{Refusal, Time, VersionKey};
use std::alloc::Global;

/// What is new to a state in items, with the numbers and marks of both together.
#[derive(Drop)]
pub struct News {
    /// The rows and ends of the new items.
    pub facts: Facts,
    /// The numbers and marks of the new items.
    pub got: Got,
    /// The numbers and marks of the state with those of the new items.
    pub all: Got,
}

/// Whether an item has nothing new for these streams.
fn tells_nothing(all: &Got, item: &Item) -> bool
    requires { stream_no item.now ≤ length all.now }
    ensures value { result ≡ spec.tells_nothing all.now item.now }
    ensures lawful { IsItem item.now }
{
    match item {
        Item::Commit(entry) => all.has(entry.stream(), entry.number()),
        Item::Closed(mark) => all.adds_nothing(mark.stream(), mark.n(), mark.m()),
    }
}

/// Whether an item has another row or another end of a version than the state or the news, or is an entry whose time
/// is at most the closed time of its stream.
fn contradicts(state: &ReplicaState, news: &News, item: &Item) -> bool
    requires { stream_no item.now ≤ length news.now.all }
    ensures { result ≡ spec.contradicts state.now news.now item.now }
{
    match item {
        Item::Commit(entry) => {
            state.facts().conflicts_with_entry(entry)
                || news.facts.conflicts_with_entry(entry)
                || entry.time() <= news.all.closed(entry.stream())
        }
        Item::Closed(_) => false,
    }
}

/// Adds the rows and ends of an item.
fn add_facts(facts: &mut Facts, item: &Item) -> Result<(), Refusal>
    ensures ok { OnOk result (facts.new ≡ facts_with facts.old (item.now ∷ [])) }
    ensures err { IfErr result (λ why. why ≡ Memory) }
{
    match item {
        Item::Commit(entry) => facts.add_entry(entry),
        Item::Closed(_) => Ok(()),
    }
}

/// Adds an item to the news, after it was tested as an absorb tests it.
fn learn(state: &ReplicaState, news: &mut News, item: &Item) -> Result<(), Refusal>
    requires got { length news.old.got ≡ length state.now.streams }
    requires all { length news.old.all ≡ length state.now.streams }
    ensures { Learns state.now news.old news.new item.now result }
{
    let config = state.config();
    if let Some(why) = wrong_log(config, item) {
        return Err(why);
    }
    if tells_nothing(&news.all, item) {
        return Ok(());
    }
    if contradicts(state, news, item) {
        return Err(Refusal::Conflict);
    }
    add_facts(&mut news.facts, item)?;
    note_item(&mut news.got, config, item)?;
    note_item(&mut news.all, config, item)?;
    Ok(())
}

/// Adds items to the news, one after the other, up to the first refusal.
fn learn_all(alloc: Global, state: &ReplicaState, items: &[Item]) -> Result<News, Refusal>
    ensures { LearnsAll state.now items.now result }
{
    let _lawful = state.horizon();
    let mut news = News {
        facts: Facts::new(alloc),
        got: Got::new(alloc, state.config())?,
        all: state.got().copy(alloc)?,
    };
    for item in items {
        if let Err(why) = learn(state, &mut news, item) {
            return Err(why);
        }
    }
    Ok(news)
}

/// Whether an item is an entry whose time is at most the closed time of its stream, or that has another row or another end of
/// a version than the state.
fn contradicts_state(state: &ReplicaState, all: &Got, item: &Item) -> bool
    requires { stream_no item.now ≤ length all.now }
    ensures { result ≡ spec.contradicts_content state.now all.now item.now }
{
    match item {
        Item::Commit(entry) => {
            entry.time() <= all.closed(entry.stream()) || state.facts().conflicts_with_entry(entry)
        }
        Item::Closed(_) => false,
    }
}

/// Adds an item to the numbers and marks where it is of the log, new to them and in conflict with nothing. Answers whether
/// it did; where memory is short it says no.
fn note_new(state: &ReplicaState, all: &mut Got, item: &Item) -> bool
    requires { length all.old ≡ length state.now.streams }
    ensures { OnTrue result (IsNew state.now all.old all.new item.now) }
{
    let config = state.config();
    if let Some(_why) = wrong_log(config, item) {
        return false;
    }
    if tells_nothing(all, item) {
        return false;
    }
    if contradicts_state(state, all, item) {
        return false;
    }
    if let Err(_why) = note_item(all, config, item) {
        return false;
    }
    true
}

/// Whether each of the items is new to a state with those before it, and conflicts with it nowhere; where memory is short it
/// says no. It makes no facts: whether the items conflict with each other is left open.
fn are_new(alloc: Global, state: &ReplicaState, items: &[Item]) -> bool
    ensures { OnTrue result (AreNew state.now items.now) }
{
    let _lawful = state.horizon();
    let Ok(mut all) = state.got().copy(alloc) else {
        return false;
    };
    for item in items {
        if !note_new(state, &mut all, item) {
            return false;
        }
    }
    true
}

/// The fragment of items that are all new to a state, gathered in one pass, as that of items of no state is. Nothing where one
/// of them isn't new, where one conflicts with the state or another, or where memory is short.
fn of_new(alloc: Global, state: &ReplicaState, items: &[Item]) -> Option<Fragment>
    ensures { (compared : Bool) → IfSome result (λ f. AgreesSo compared state.now items.now (Ok f)) }
{
    if !are_new(alloc, state, items) {
        return None;
    }
    match gather(alloc, state.config(), items) {
        Ok(fragment) => Some(fragment),
        Err(_why) => None,
    }
}

/// The fragment of those of the items that are new to a state, with `base` 0 and `horizon` 0. Joining it leaves what
/// absorbing the items one after the other leaves, and does not touch the state's past.
///
/// The first item that an absorb would refuse is refused as there: of another log `ForeignLog`, of a stream above the
/// configured number `WrongStreams`, and one that conflicts with the state or an item before it `Conflict`. `Memory`
/// comes where a growth was refused, also before an item that would be refused. The state is only read.
///
/// Cost: O(s + (e + i + w) · log n + b), s streams, e extra numbers and waiting marks of the state, i items, w their
/// writes, n all these and the facts of the state, b bytes of bodies compared, or copied twice. Where each item is new
/// and none conflicts, that of `fragment_of` and a look at the state for each write.
pub fn agreed(alloc: Global, state: &ReplicaState, items: &[Item]) -> Result<Fragment, Refusal>
    ensures { Agrees state.now items.now result }
{
    agreed_so(alloc, state, items, false)
}

/// The same, where `compared` so that no entry whose number is already applied passes as another: it is `Conflict` too
/// where, of an entry of a time above the state's oldest readable time, a row or an end is lacking in what absorbing
/// leaves, or differs from it; this comes after the refusals of all items. At or below the oldest readable time nothing
/// can be compared. Cost: that of `agreed`.
pub fn agreed_so(
    alloc: Global,
    state: &ReplicaState,
    items: &[Item],
    compared: bool,
) -> Result<Fragment, Refusal>
    ensures { AgreesSo compared state.now items.now result }
{
    if let Some(fragment) = of_new(alloc, state, items) {
        return Ok(fragment);
    }
    let News { facts, got, .. } = learn_all(alloc, state, items)?;
    if some_stand_otherwise(compared, state.facts(), &facts, state.horizon(), items) {
        return Err(Refusal::Conflict);
    }
    let left = left_of_all(alloc, Time::zero(), &facts)?;
    let beginning = Time::zero();
    let horizon = beginning;
    Ok(Fragment::of_parts(state.config(), beginning, horizon, got, left))
}

/// Whether there is another row, or another end, of one of these versions.
fn has_conflict(own: &Facts, facts: &[(VersionKey, Version)]) -> bool
    ensures { result ≡ list_any (λ e. value_conflicts_at own.now e.0 e.1) facts.now }
{
    facts
        .iter()
        .any(|(version, known)| own.value_conflicts_at(version, known))
}

/// Whether a fragment has another row or another end of a version than a state. It takes no memory. Cost:
/// O(c · log n + b), c versions of the fragment, n facts of the state, b bytes of bodies compared.
pub fn conflicts_with(state: &ReplicaState, fragment: &Fragment) -> bool
    ensures { result ≡ contents_conflict state.now fragment.now.content }
{
    has_conflict(state.facts(), fragment.facts())
}
