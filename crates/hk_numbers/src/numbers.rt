//! The calls on runs, with contracts that speak of the set of their numbers.

ghost use Rattle.std.specs.Prelude.{◌≡◌, ◌≤◌, ◌<◌, ◌^◌, ◌+◌, ℕ, true, false, nat_lt, OnOk, OnErr, IfOk, IsOk};
ghost use Rattle.std.specs.FinSet as set;
ghost use Rattle.std.specs.BTreeMap as tree;
ghost use Rattle.hk_numbers.specs.Runs.{numbers_seen, AreKept, HasRoomFor};

use crate::runs::{add, make_room, run_before, settle, take};
use std::alloc::{AllocError, Global};
use std::collections::BTreeMap;

/// Whether a number is in one of the runs. Cost: O(log r), r runs.
pub fn has(runs: &BTreeMap<u64, u64>, number: u64) -> bool
    requires { AreKept runs.now }
    ensures { result ≡ set.contains (numbers_seen runs.now) number }
{
    if runs.is_empty() {
        return false;
    }
    match run_before(runs, number) {
        Some((_first, end)) => number < end,
        None => false,
    }
}

/// Takes the numbers out that a prefix reaches, and those below. Answers how far it reaches: to the last number that follows
/// the prefix without a gap. It needs no memory. Cost: O((1 + f) · log r), r runs, f of them those that go.
pub fn take_from(runs: &mut BTreeMap<u64, u64>, prefix: u64) -> u64
    requires kept { AreKept runs.old }
    requires most { prefix ≤ 2 ^ 62 }
    ensures least { prefix ≤ result }
    ensures most { result ≤ 2 ^ 62 }
    ensures taken { (q : ℕ) → prefix < q → q ≤ result → set.contains (numbers_seen runs.old) q ≡ true }
    ensures next { set.contains (numbers_seen runs.old) (result + 1) ≡ false }
    ensures left { numbers_seen runs.new ≡ set.retain (numbers_seen runs.old) (λ q. nat_lt result q) }
    ensures kept { AreKept runs.new }
{
    take(runs, prefix)
}

/// Adds a number. The only refusal is want of memory, where it touches no run; then nothing is changed. Cost: O(log r), r runs.
pub fn insert(runs: &mut BTreeMap<u64, u64>, number: u64) -> Result<(), AllocError>
    requires kept { AreKept runs.old }
    requires most { number ≤ 2 ^ 62 }
    ensures ok { OnOk result (numbers_seen runs.new ≡ set.insert (numbers_seen runs.old) number) }
    ensures err { OnErr result (numbers_seen runs.new ≡ numbers_seen runs.old) }
    ensures kept { AreKept runs.new }
{
    add(runs, number, number + 1)
}

/// Makes room for the runs of others, which changes no number, refused or not. The only refusal is want of memory, and
/// where the others have no number there is none. Cost: O(s · log (r + s)), r and s runs.
pub fn make_room_for(
    runs: &mut BTreeMap<u64, u64>,
    others: &BTreeMap<u64, u64>,
) -> Result<(), AllocError>
    requires kept { AreKept runs.old }
    requires others { AreKept others.now }
    ensures ok { OnOk result (HasRoomFor others.now runs.new) }
    ensures none { numbers_seen others.now ≡ set.empty → IsOk result }
    ensures same { numbers_seen runs.new ≡ numbers_seen runs.old }
    ensures kept { AreKept runs.new }
{
    if others.is_empty() {
        return Ok(());
    }
    make_room(runs, others)
}

/// Adds the numbers of others, where there is room for their runs; so it can't fail. Cost: O(s · log (r + s)), r and s runs.
pub fn settle_all(runs: &mut BTreeMap<u64, u64>, others: &BTreeMap<u64, u64>)
    requires kept { AreKept runs.old }
    requires others { AreKept others.now }
    requires room { HasRoomFor others.now runs.old }
    ensures unites { numbers_seen runs.new ≡ set.union (numbers_seen runs.old) (numbers_seen others.now) }
    ensures kept { AreKept runs.new }
{
    if others.is_empty() {
        return;
    }
    settle(runs, others);
}

/// The same numbers again. The only refusal is want of memory. Cost: O(r · log r), r runs.
pub fn copy(alloc: Global, runs: &BTreeMap<u64, u64>) -> Result<BTreeMap<u64, u64>, AllocError>
    requires { AreKept runs.now }
    ensures same { IfOk result (λ copied. numbers_seen copied ≡ numbers_seen runs.now) }
    ensures kept { IfOk result (λ copied. AreKept copied) }
{
    let mut copied = BTreeMap::new(alloc);
    if runs.is_empty() {
        return Ok(copied);
    }
    make_room(&mut copied, runs)?;
    settle(&mut copied, runs);
    Ok(copied)
}
