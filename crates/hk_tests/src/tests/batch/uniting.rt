//! Unions of two fragments, with each request for memory refused in turn.

ghost use Rattle.std.specs.Prelude.{◌≡◌, IsTrue, length};
ghost use Rattle.hk_fragment.specs.Merging.{IsFromZero};

use super::{Line, is_whole, items, knows, refuse};
use hk_delta::{Fragment, fragment_of, union};
use hk_types::{Config, Refusal, Time};
use std::alloc::Global;
use std::test::Fail;

/// More than a union makes over three versions.
const MOST_REQUESTS: usize = 40;

/// The versions of the items 1, 4 and 5.
const HALF: [Line; 2] = [(5, 1, 0x41, 0), (6, 2, 0, 4)];

/// The fragment of items.
fn half(alloc: Global, names: &[u8]) -> Result<Fragment, Fail> {
    let items = items(alloc, names)?;
    Ok(fragment_of(alloc, Config::new(7, 2)?, &items)?)
}

/// Whether two fragments can be united.
fn can_unite(into: &Fragment, other: &Fragment) -> bool
    ensures own { IsTrue result → IsFromZero into.now }
    ensures coming { IsTrue result → IsFromZero other.now }
    ensures log { IsTrue result → other.now.content.log ≡ into.now.content.log }
    ensures streams { IsTrue result → length into.now.content.streams ≡ length other.now.content.streams }
{
    let (own, coming) = (into.config(), other.config());
    into.base() == Time::zero()
        && into.horizon() == Time::zero()
        && other.base() == Time::zero()
        && other.horizon() == Time::zero()
        && own.log() == coming.log()
        && own.streams() == coming.streams()
}

/// A union of both halves where that request for memory is refused, and again where it was: whether each returned
/// what it should.
fn is_united(
    alloc: Global,
    into: &mut Fragment,
    other: &Fragment,
    number: usize,
) -> Result<bool, Refusal> {
    if !can_unite(into, other) {
        return Ok(false);
    }
    refuse(alloc, number);
    let told = union(into, other);
    refuse(alloc, 0);
    if let Err(why) = told {
        if why != Refusal::Memory || !knows(into, &HALF) {
            return Ok(false);
        }
        union(into, other)?;
    }
    Ok(is_whole(into))
}

/// The same of new halves.
fn are_united(alloc: Global, number: usize) -> Result<bool, Fail> {
    let mut into = half(alloc, &[1, 4, 5])?;
    let other = half(alloc, &[2, 3, 6])?;
    Ok(is_united(alloc, &mut into, &other, number)?)
}

#[test]
fn each_request_of_a_union_refused(rt: HostRuntime) -> Result<(), Fail> {
    for number in 1..=MOST_REQUESTS {
        assert!(rt; are_united(rt.alloc(), number)?, "request {number}");
    }
    Ok(())
}
