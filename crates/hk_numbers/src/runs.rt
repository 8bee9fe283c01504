//! Runs in an ordered tree: the first number of each, and its end, which is the number after its last.

ghost use Rattle.std.specs.Prelude.{◌≡◌, ◌≤◌, ◌<◌, ◌^◌, ◌+◌, OnOk, OnErr, IsSome};
ghost use Rattle.std.specs.Ordering.{nat_cmp};
ghost use Rattle.std.specs.BTreeMap as tree;
ghost use Rattle.hk_numbers.specs.Runs.{AreRuns, DontTouch, TouchOnlyAt, EndsUpTo, IsRunBefore, IsNextUpTo, IsFirstUpTo, SetsEnd, AddsSpan, TakesFrom, Unites, HasRoomAt, HasRoomFor, HasSome, KeepsRoom, SameNumbers, end_of};

use std::alloc::AllocError;
use std::collections::BTreeMap;
use std::ops::Bound::{Excluded, Unbounded};

/// The run that begins at a number or last before it.
pub(crate) fn run_before(runs: &BTreeMap<u64, u64>, number: u64) -> Option<(u64, u64)>
    ensures { IsRunBefore runs.now number result }
{
    match runs.range(..=number).next_back() {
        Some((first, end)) => Some((*first, *end)),
        None => None,
    }
}

/// The first run, where it begins no later than a bound.
fn first_up_to(runs: &BTreeMap<u64, u64>, bound: u64) -> Option<(u64, u64)>
    ensures { IsFirstUpTo runs.now bound result }
{
    let (first, end) = runs.first_key_value()?;
    if *first > bound {
        return None;
    }
    Some((*first, *end))
}

/// The run that begins next after a number, where it begins no later than a bound.
fn next_up_to(runs: &BTreeMap<u64, u64>, number: u64, bound: u64) -> Option<(u64, u64)>
    ensures { IsNextUpTo runs.now number bound result }
{
    let mut later = runs.range((Excluded(number), Unbounded));
    let (first, end) = later.next()?;
    if *first > bound {
        return None;
    }
    Some((*first, *end))
}

fn put(there: &mut u64, value: u64)
    ensures { there.new ≡ value }
{
    *there = value;
}

fn set_end(runs: &mut BTreeMap<u64, u64>, start: u64, end: u64)
    requires { IsSome (end_of runs.old start) }
    ensures sets { SetsEnd runs.old runs.new start end }
    ensures ordered { tree.IsOrdered nat_cmp runs.new }
{
    if let Some(there) = runs.get_mut(&start) {
        put(there, end);
    }
}

/// Takes the runs out that go on from a prefix. Answers how far they reach.
pub(crate) fn take(runs: &mut BTreeMap<u64, u64>, prefix: u64) -> u64
    requires runs { AreRuns runs.old }
    requires most { prefix ≤ 2 ^ 62 }
    ensures takes { TakesFrom runs.old runs.new prefix result }
    ensures runs { AreRuns runs.new }
    ensures apart { DontTouch runs.old → DontTouch runs.new }
{
    let mut next = prefix + 1;
    while let Some((first, end)) = first_up_to(runs, next) {
        runs.remove(&first);
        if end > next {
            next = end;
        }
    }
    next - 1
}

/// Lets the run that begins with `start` go on up to an end, and takes those into it that it reaches.
fn extend(runs: &mut BTreeMap<u64, u64>, start: u64, end: u64)
    requires runs { AreRuns runs.old }
    requires apart { TouchOnlyAt start runs.old }
    requires there { EndsUpTo runs.old start end }
    requires most { end ≤ 2 ^ 62 + 1 }
    ensures adds { AddsSpan runs.old runs.new start end }
    ensures room { KeepsRoom runs.old runs.new }
    ensures runs { AreRuns runs.new }
    ensures apart { DontTouch runs.new }
{
    let mut last = end;
    while let Some((next, its_end)) = next_up_to(runs, start, last) {
        runs.remove(&next);
        if its_end > last {
            last = its_end;
        }
    }
    set_end(runs, start, last);
}

/// Adds the numbers from the first on that are below the end.
pub(crate) fn add(runs: &mut BTreeMap<u64, u64>, first: u64, end: u64) -> Result<(), AllocError>
    requires runs { AreRuns runs.old }
    requires apart { DontTouch runs.old }
    requires some { first < end }
    requires most { end ≤ 2 ^ 62 + 1 }
    ensures ok { OnOk result (AddsSpan runs.old runs.new first end) }
    ensures runs { AreRuns runs.new }
    ensures apart { DontTouch runs.new }
    ensures err { OnErr result (runs.new.entries ≡ runs.old.entries) }
{
    if runs.is_empty() {
        runs.insert(first, end)?;
        return Ok(());
    }
    if let Some((start, its_end)) = run_before(runs, first) {
        if end <= its_end {
            return Ok(());
        }
        if first <= its_end {
            extend(runs, start, end);
            return Ok(());
        }
    }
    runs.insert(first, first + 1)?;
    extend(runs, first, end);
    Ok(())
}

/// Makes room for a run: an empty one where it begins, unless a run has that number or ends there. A run of no number needs none.
fn make_room_at(runs: &mut BTreeMap<u64, u64>, first: u64, end: u64) -> Result<(), AllocError>
    requires runs { AreRuns runs.old }
    requires apart { DontTouch runs.old }
    requires most { first ≤ 2 ^ 62 + 1 }
    ensures ok { OnOk result (first < end → HasRoomAt runs.new first) }
    ensures none { OnErr result (first < end) }
    ensures same { SameNumbers runs.old runs.new }
    ensures room { KeepsRoom runs.old runs.new }
    ensures runs { AreRuns runs.new }
    ensures apart { DontTouch runs.new }
{
    if end <= first {
        return Ok(());
    }
    if let Some((_start, its_end)) = run_before(runs, first) {
        if first <= its_end {
            return Ok(());
        }
    }
    runs.insert(first, first)?;
    Ok(())
}

/// Adds the numbers from the first on that are below the end, where there is room.
fn settle_run(runs: &mut BTreeMap<u64, u64>, first: u64, end: u64)
    requires runs { AreRuns runs.old }
    requires apart { DontTouch runs.old }
    requires room { first < end → HasRoomAt runs.old first }
    requires most { end ≤ 2 ^ 62 + 1 }
    ensures adds { AddsSpan runs.old runs.new first end }
    ensures room { KeepsRoom runs.old runs.new }
    ensures runs { AreRuns runs.new }
    ensures apart { DontTouch runs.new }
{
    if end <= first {
        return;
    }
    if let Some((start, its_end)) = run_before(runs, first) {
        if end > its_end {
            extend(runs, start, end);
        }
    }
}

/// Makes room for the runs of others, which changes no number.
pub(crate) fn make_room(
    runs: &mut BTreeMap<u64, u64>,
    others: &BTreeMap<u64, u64>,
) -> Result<(), AllocError>
    requires runs { AreRuns runs.old }
    requires apart { DontTouch runs.old }
    requires others { AreRuns others.now }
    ensures ok { OnOk result (HasRoomFor others.now runs.new) }
    ensures none { OnErr result (HasSome others.now) }
    ensures same { SameNumbers runs.old runs.new }
    ensures runs { AreRuns runs.new }
    ensures apart { DontTouch runs.new }
{
    for (first, end) in others {
        make_room_at(runs, *first, *end)?;
    }
    Ok(())
}

/// Adds the runs of others, where there is room for each.
pub(crate) fn settle(runs: &mut BTreeMap<u64, u64>, others: &BTreeMap<u64, u64>)
    requires runs { AreRuns runs.old }
    requires apart { DontTouch runs.old }
    requires others { AreRuns others.now }
    requires room { HasRoomFor others.now runs.old }
    ensures unites { Unites runs.old others.now runs.new }
    ensures runs { AreRuns runs.new }
    ensures apart { DontTouch runs.new }
{
    for (first, end) in others {
        settle_run(runs, *first, *end);
    }
}
