//! Versions in a list, by rising birth.

ghost use Rattle.std.specs.Prelude.{◌≡◌, ◌<◌, ◌≤◌, true, false, length, IfOk, IfErr, IfSome};
ghost use Rattle.std.specs.Bool.{OnTrue};
ghost use Rattle.std.specs.List.{AllWithin};
ghost use Rattle.std.specs.Option.{option_copied, option_map};
ghost use Rattle.std.specs.FinMap as finmap;
ghost use Rattle.hk_facts.specs.Chains.{latest_at, is_after, FirstBorn};
ghost use Rattle.hk_facts.specs.Listed.{listed, AreByBirth, StandsAt, FitsAt};
ghost use Rattle.hk_facts.specs.Turns.{AreBounded, AreInTurn};

use crate::bounds::Bounds;
use hk_log::Version;
use hk_types::Time;
use std::cmp::Ordering;

/// The position of the version that was born then, or the one that it would have. Cost: O(log n), and O(1) where it is the last.
#[inline(always)]
pub(crate) fn place_of(list: &[(Time, Version)], born: Time) -> Result<usize, usize>
    requires { AreByBirth list.now }
    ensures found { IfOk result (StandsAt list.now born) }
    ensures within { IfErr result (λ i. i ≤ length list.now) }
    ensures between { IfErr result (FitsAt list.now born) }
{
    let Some(last) = list.last() else {
        return Err(0);
    };
    match last.0.cmp(&born) {
        Ordering::Less => Err(list.len()),
        Ordering::Equal => Ok(list.len() - 1),
        Ordering::Greater => list.binary_search_by(|entry| entry.0.cmp(&born)),
    }
}

/// How many versions were born at a time or before; the others come after them. Cost: O(log n), and O(1) where all were.
pub(crate) fn count_until(list: &[(Time, Version)], time: Time) -> usize
    requires { AreByBirth list.now }
    ensures within { result ≤ length list.now }
    ensures front { AllWithin (λ e. e.0 ≤ time) list.now 0 result }
    ensures back { AllWithin (λ e. time < e.0) list.now result (length list.now) }
{
    match list.last() {
        Some(last) if time < last.0 => list.partition_point(|entry| entry.0 <= time),
        _ => list.len(),
    }
}

/// What is known of the version that was born then. Cost: O(log n).
#[inline(always)]
pub(crate) fn version_in(list: &[(Time, Version)], born: Time) -> Option<&Version>
    requires { AreByBirth list.now }
    ensures { option_copied result ≡ finmap.get (listed list.now) born }
{
    match place_of(list, born) {
        Ok(place) => Some(&list[place].1),
        Err(_place) => None,
    }
}

/// Of the versions that have a row and were born at a time or before, the one born last, with the time of its
/// birth. It takes no memory. Cost: O(n), n versions.
pub(crate) fn latest_in(list: &[(Time, Version)], time: Time) -> Option<(Time, &Version)>
    requires { AreByBirth list.now }
    ensures { option_map (λ p. (p.0, p.1.now)) result ≡ latest_at (listed list.now) time }
{
    let mut end = count_until(list, time);
    while end > 0 {
        end -= 1;
        let (born, version) = &list[end];
        if version.row().is_some() {
            return Some((*born, version));
        }
    }
    None
}

/// The version born first, or the one born next after a time, with the time of its birth. It takes no memory.
/// Cost: O(log n).
pub(crate) fn next_in<'a>(
    list: &'a [(Time, Version)],
    after: &Option<Time>,
) -> Option<(Time, &'a Version)>
    requires { AreByBirth list.now }
    ensures { FirstBorn (listed list.now) (is_after after.now) (option_map (λ p. (p.0, p.1.now)) result) }
{
    let first = count_before(list, after);
    if first == list.len() {
        return None;
    }
    let (born, version) = &list[first];
    Some((*born, version))
}

/// How many versions were not born after a time, if there is a time; the others come after them.
fn count_before(list: &[(Time, Version)], after: &Option<Time>) -> usize
    requires { AreByBirth list.now }
    ensures within { result ≤ length list.now }
    ensures front { AllWithin (λ e. is_after after.now e.0 ≡ false) list.now 0 result }
    ensures back { AllWithin (λ e. is_after after.now e.0 ≡ true) list.now result (length list.now) }
{
    match after {
        Some(time) => count_until(list, *time),
        None => 0,
    }
}

/// Whether the versions are in turn. Cost: O(n), n versions.
pub(crate) fn are_in_turn(list: &[(Time, Version)]) -> bool
    requires { AreByBirth list.now }
    ensures { OnTrue result (AreInTurn (listed list.now)) }
{
    let mut latest = Time::zero();
    for (born, version) in list {
        if *born < latest {
            return false;
        }
        latest = later_end(version, latest);
    }
    true
}

/// The end of a version, where it is known and after this time, else this time.
fn later_end(version: &Version, time: Time) -> Time
    ensures rises { time ≤ result }
    ensures ended { IfSome version.now.died (λ died. died ≤ result) }
{
    match version.died() {
        Some(died) if time < died => died,
        _ => time,
    }
}

/// The bounds of the versions. Cost: O(n), n versions.
pub(crate) fn bounds_of(list: &[(Time, Version)]) -> Bounds
    requires { AreByBirth list.now }
    ensures { AreBounded (finmap.get (listed list.now)) result }
{
    let mut bounds = Bounds::none();
    for (born, version) in list {
        bounds = bounds.with(*born, version.died());
    }
    bounds
}
