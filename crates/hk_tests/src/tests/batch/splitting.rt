//! The fragment of the items 1 to 6 in chunks: its facts have 34, 26 and 34 bytes.

use super::{is_whole, items, refuse};
use hk_delta::fragment_of;
use hk_fragment::{Assembly, Fragment};
use hk_log::Version;
use hk_types::{Config, FormFault, Refusal, VersionKey};
use hk_values::{Split, copy_by_parts};
use std::alloc::Global;
use std::test::Fail;

/// More than a fragment of three facts in chunks asks for.
const MOST_REQUESTS: usize = 40;

/// How many bytes a chunk has at most, and then of each chunk how many facts it has, and how many come after it.
static CUTS: [(u64, &[(usize, usize)]); 6] = [
    (0, &[(1, 2), (1, 1), (1, 0), (0, 0)]),
    (34, &[(1, 2), (1, 1), (1, 0), (0, 0)]),
    (59, &[(1, 2), (1, 1), (1, 0), (0, 0)]),
    (60, &[(2, 1), (1, 0), (0, 0)]),
    (93, &[(2, 1), (1, 0), (0, 0)]),
    (94, &[(3, 0), (0, 0)]),
];

fn whole(alloc: Global) -> Result<Fragment, Fail> {
    let items = items(alloc, &[6, 5, 4, 3, 2, 1])?;
    Ok(fragment_of(alloc, Config::new(7, 2)?, &items)?)
}

/// Whether the fragment is cut into these chunks.
fn is_cut(alloc: Global, most_bytes: u64, parts: &[(usize, usize)]) -> Result<bool, Fail> {
    let mut split = Split::new(whole(alloc)?);
    let mut is_cut = true;
    for wanted in parts {
        split.advance(most_bytes);
        is_cut = is_cut && (split.part().len(), split.left()) == *wanted;
    }
    Ok(is_cut)
}

#[test]
fn parts_are_as_long_as_they_may_be(rt: HostRuntime) -> Result<(), Fail> {
    for (most_bytes, parts) in &CUTS {
        assert!(rt; is_cut(rt.alloc(), *most_bytes, parts)?, "{most_bytes}");
    }
    Ok(())
}

/// A list of one fact.
fn part(
    alloc: Global,
    fact: &(VersionKey, Version),
) -> Result<Vec<(VersionKey, Version)>, Refusal> {
    let mut part = Vec::new(alloc);
    part.push((fact.0, fact.1.copy(alloc)?))?;
    Ok(part)
}

/// The fragment of the head of this one and of the chunks that came.
fn made(alloc: Global, came: Assembly, whole: &Fragment) -> Result<Fragment, Refusal> {
    let got = whole.got().copy(alloc)?;
    let count = whole.facts().len() as u64;
    let made = came.into_fragment(whole.config(), whole.base(), whole.horizon(), got, count)?;
    Ok(made)
}

/// A chunk of one fact comes, and comes again: whether it is refused then.
fn comes_once(
    alloc: Global,
    came: &mut Assembly,
    fact: &(VersionKey, Version),
) -> Result<bool, Refusal> {
    came.add(part(alloc, fact)?)?;
    let told = came.add(part(alloc, fact)?);
    Ok(matches!(told, Err(Refusal::Form(FormFault::BadOrder))))
}

/// Whether each chunk comes once, and the chunks that came.
fn each_once(alloc: Global, whole: &Fragment) -> Result<(bool, Assembly), Refusal> {
    let mut came = Assembly::new(alloc);
    let mut is_once = true;
    for fact in whole.facts() {
        is_once = comes_once(alloc, &mut came, fact)? && is_once;
    }
    Ok((is_once && came.count() == 3, came))
}

#[test]
fn a_refused_part_leaves_those_before_it(rt: HostRuntime) -> Result<(), Fail> {
    let whole = whole(rt.alloc())?;
    let (is_once, came) = each_once(rt.alloc(), &whole)?;
    assert!(rt; is_once);
    assert!(rt; is_whole(&made(rt.alloc(), came, &whole)?));
    Ok(())
}

/// The chunks of one fact each, without one of them.
fn without(alloc: Global, whole: &Fragment, missing: usize) -> Result<Assembly, Refusal> {
    let mut came = Assembly::new(alloc);
    for (index, fact) in whole.facts().iter().enumerate() {
        if index != missing {
            came.add(part(alloc, fact)?)?;
        }
    }
    Ok(came)
}

/// Whether that is reported.
fn is_missed(alloc: Global, whole: &Fragment, missing: usize) -> Result<bool, Refusal> {
    let came = without(alloc, whole, missing)?;
    let told = made(alloc, came, whole);
    Ok(matches!(told, Err(Refusal::Form(FormFault::BadCount))))
}

#[test]
fn a_part_that_is_missing_is_told(rt: HostRuntime) -> Result<(), Fail> {
    let whole = whole(rt.alloc())?;
    for missing in 0..whole.facts().len() {
        assert!(rt; is_missed(rt.alloc(), &whole, missing)?, "{missing}");
    }
    Ok(())
}

/// Whether the fragment comes through in chunks, or is refused 90 where that request for memory is refused.
fn comes_through(alloc: Global, most_bytes: u64, number: usize) -> Result<bool, Fail> {
    let whole = whole(alloc)?;
    refuse(alloc, number);
    let told = copy_by_parts(alloc, whole, most_bytes);
    refuse(alloc, 0);
    match told {
        Ok(again) => Ok(is_whole(&again)),
        Err(why) => Ok(number > 0 && why == Refusal::Memory),
    }
}

/// The same of each request.
fn comes_through_all(alloc: Global, most_bytes: u64) -> Result<bool, Fail> {
    let mut came = true;
    for number in 0..=MOST_REQUESTS {
        came = came && comes_through(alloc, most_bytes, number)?;
    }
    Ok(came)
}

#[test]
fn each_request_of_parts_refused(rt: HostRuntime) -> Result<(), Fail> {
    for (most_bytes, _parts) in &CUTS {
        assert!(rt; comes_through_all(rt.alloc(), *most_bytes)?);
    }
    Ok(())
}
