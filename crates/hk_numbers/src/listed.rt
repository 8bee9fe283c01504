//! The numbers one by one.

ghost use Rattle.std.specs.Prelude.{◌≡◌, ◌<◌, ◌++◌, ℕ, [], length, IfSome, IfNone};
ghost use Rattle.std.specs.FinSet as set;
ghost use Rattle.std.specs.Iterator.{item_count};
ghost use Rattle.std.specs.Map.Iter.{ShowsInOrder, TakesFirst};
ghost use Rattle.std.specs.Ordering.{nat_cmp};
ghost use Rattle.std.specs.List.Sorted.{IsStrictlyIncreasing, IsStrictlySortedBy};
ghost use Rattle.hk_numbers.specs.Runs.{numbers_seen, AreKept};
ghost use Rattle.hk_numbers.specs.Listed.{between, listed};

use std::collections::{BTreeMap, btree_map};
use std::marker::Model;

/// The numbers of a set that are to come, in rising order.
#[derive(Drop)]
pub struct Listed<'a> {
    next: u64,
    end: u64,
    runs: btree_map::Iter<'a, u64, u64>,
}

impl<'a> Model for Listed<'a> {
    ghost use Rattle.std.specs.Prelude.{List, ℕ, ◌++◌};
    ghost use Rattle.std.specs.Coded.{coded_list, coded_ℕ};
    ghost use Rattle.hk_numbers.specs.Listed.{between, listed};

    ghost Value = { List ℕ };

    ghost coded = { coded_list coded_ℕ };

    ghost view = { λ a. between a.next a.end ++ listed a.runs };
}

/// The numbers of runs, in rising order.
pub fn numbers_of(runs: &BTreeMap<u64, u64>) -> Listed<'_>
    requires { AreKept runs.now }
    ensures value { set.from_list result ≡ numbers_seen runs.now }
    ensures rising { IsStrictlyIncreasing result }
    ensures runs { ShowsInOrder {A = ℕ} {X = ℕ} (λ x. x) }
{
    Listed {
        next: 0,
        end: 0,
        runs: runs.iter(),
    }
}

fn length_of(runs: &BTreeMap<u64, u64>) -> u64
    requires { AreKept runs.now }
    ensures value { result ≡ length (listed runs.now.entries) }
    ensures rising { IsStrictlySortedBy nat_cmp (listed runs.now.entries) }
{
    let mut count = 0;
    let each = runs.iter();
    for (first, end) in each {
        count += *end - *first;
    }
    count
}

/// How many numbers the runs have. Cost: O(r), r runs.
pub fn count(runs: &BTreeMap<u64, u64>) -> u64
    requires { AreKept runs.now }
    ensures { result ≡ set.len (numbers_seen runs.now) }
{
    length_of(runs)
}

/// The next run that is not empty.
fn next_run(runs: &mut btree_map::Iter<'_, u64, u64>) -> Option<(u64, u64)>
    ensures some { IfSome result (λ run. run.0 < run.1) }
    ensures first { IfSome result (λ run. listed runs.old ≡ between run.0 run.1 ++ listed runs.new) }
    ensures none { IfNone result (listed runs.old ≡ []) }
    ensures left { IfNone result (listed runs.new ≡ []) }
{
    while let Some((first, end)) = runs.next() {
        if first < end {
            return Some((*first, *end));
        }
    }
    None
}

impl<'a> Listed<'a> {
    fn take_first(&mut self) -> Option<u64>
        ensures { TakesFirst (λ x. x) self.old result self.new }
    {
        if self.next < self.end {
            let number = self.next;
            self.next = number + 1;
            return Some(number);
        }
        let Some((first, end)) = next_run(&mut self.runs) else {
            return None;
        };
        self.next = first + 1;
        self.end = end;
        Some(first)
    }
}

impl<'a> Iterator for Listed<'a> {
    type Item = u64;

    ghost next_gives = { TakesFirst (λ x. x) };

    ghost remaining = { item_count (λ s. s) };

    fn next(&mut self) -> Option<u64> {
        self.take_first()
    }
}
