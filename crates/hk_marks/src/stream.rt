//! What is known of one stream.

ghost use Rattle.std.specs.Prelude.{◌≡◌, ◌≤◌, ◌<◌, ◌^◌, ◌+◌, ℕ, true, max, is_some, IsSome, IfSome, IfNone, IfOk, IsOk, OnOk, OnErr};
ghost use Rattle.std.specs.Bool.{OnTrue, OnFalse};
ghost use Rattle.std.specs.List.Sorted.{IsStrictlyIncreasing};
ghost use Rattle.std.specs.Map.{keys_of};
ghost use Rattle.std.specs.Ordering.{nat_cmp};
ghost use Rattle.std.specs.FinMap as finmap;
ghost use Rattle.std.specs.BTreeMap as tree;
ghost use Rattle.std.specs.FinSet as set;
ghost use Rattle.std.specs.Map.Iter.{ShowsInOrder, deref_pair};
ghost use Rattle.hk_numbers.specs.Runs.{numbers_seen, AreKept};
ghost use Rattle.hk_model.specs.Replica.Streams.{covers, unknown, adds_nothing};
ghost use Rattle.hk_model.specs.Replica.Lawful.{IsLawfulStream};
ghost use Rattle.hk_marks.specs.Seen.{up_to, taken_seen, IsExtra, WaitsAbove};
ghost use Rattle.hk_marks.specs.Parts.{HasPrefix, Settles, AddsMark};
ghost use Rattle.hk_marks.specs.Steps.{with_number, with_mark, with_prefix, extra_numbers};
ghost use Rattle.hk_marks.specs.Told.{prefix_of, stream_told};

mod join;

use hk_model::StreamTold;
use hk_numbers::{Listed, copy, count, has, insert, numbers_of, take_from};
use hk_types::Time;
pub use join::join_streams;
use std::alloc::{AllocError, Global};
use std::collections::{BTreeMap, btree_map};
use std::marker::Model;

/// The numbers 1 to the prefix are applied, and the extra ones, which are above the next number and are kept as runs: the first
/// number of each, and its end, the number after its last. Each mark waits for more numbers than the prefix.
///
/// An example, with the fields after each call:
///
///     new                  prefix 0   extra {}       closed 0    waiting {}
///     add_number(1)        prefix 1   extra {}       closed 0    waiting {}
///     add_number(3)        prefix 1   extra {3: 4}   closed 0    waiting {}
///     add_number(4)        prefix 1   extra {3: 5}   closed 0    waiting {}
///     add_mark(4, 40)      prefix 1   extra {3: 5}   closed 0    waiting {4: 40}    entry 2 is missing
///     add_mark(1, 10)      prefix 1   extra {3: 5}   closed 10   waiting {4: 40}
///     add_number(2)        prefix 4   extra {}       closed 40   waiting {}
pub struct Stream {
    prefix: u64,
    extra: BTreeMap<u64, u64>,
    closed: Time,
    waiting: BTreeMap<u64, Time>,
}

// Written out, so that a crate above which drops one sees one call, and not all that it holds.
impl Drop for Stream {
    fn drop(self) {
        let Stream {
            prefix: _,
            extra,
            closed: _,
            waiting,
        } = self;
        drop(extra);
        drop(waiting);
    }
}

impl Model for Stream {
    ghost use Rattle.hk_model.specs.Replica.Streams.{StreamContent};
    ghost use Rattle.hk_model.specs.Replica.Codes.{stream_code};
    ghost use Rattle.hk_numbers.specs.Runs.{numbers_seen};
    ghost use Rattle.hk_marks.specs.Seen.{stream_seen, IsKept};

    ghost Value = { StreamContent };

    ghost coded = { stream_code };

    ghost view = { λ a. stream_seen a.prefix (numbers_seen a.extra) a.closed a.waiting };

    ghost invariant = { λ a. IsKept a.prefix a.extra a.waiting };
}

/// Moves the extra numbers that the prefix reaches into the prefix.
fn grow(prefix: &mut u64, extra: &mut BTreeMap<u64, u64>)
    requires kept { AreKept extra.old }
    requires least { (q : ℕ) → set.contains (numbers_seen extra.old) q ≡ true → 0 < q }
    requires most { (q : ℕ) → set.contains (numbers_seen extra.old) q ≡ true → q ≤ 2 ^ 62 }
    requires prefix_most { prefix.old ≤ 2 ^ 62 }
    ensures same { taken_seen prefix.new (numbers_seen extra.new) ≡ taken_seen prefix.old (numbers_seen extra.old) }
    ensures extras { IsExtra prefix.new (numbers_seen extra.new) }
    ensures kept { AreKept extra.new }
    ensures prefix_most { prefix.new ≤ 2 ^ 62 }
    ensures grows { prefix.old ≤ prefix.new }
{
    *prefix = take_from(extra, *prefix);
}

/// Adds the numbers 1 to `upto`.
fn take_up_to(prefix: &mut u64, extra: &mut BTreeMap<u64, u64>, upto: u64)
    requires kept { AreKept extra.old }
    requires extras { IsExtra prefix.old (numbers_seen extra.old) }
    requires prefix_most { prefix.old ≤ 2 ^ 62 }
    requires most { upto ≤ 2 ^ 62 }
    ensures taken { taken_seen prefix.new (numbers_seen extra.new)
        ≡ set.union (taken_seen prefix.old (numbers_seen extra.old)) (up_to upto) }
    ensures extras { IsExtra prefix.new (numbers_seen extra.new) }
    ensures kept { AreKept extra.new }
    ensures prefix_most { prefix.new ≤ 2 ^ 62 }
    ensures grows { prefix.old ≤ prefix.new }
{
    if upto > *prefix {
        *prefix = upto;
        grow(prefix, extra);
    }
}

/// A mark that the prefix covers, where one waits.
fn first_covered(prefix: u64, waiting: &BTreeMap<u64, Time>) -> Option<u64>
    ensures found { IfSome result (λ count. count ≤ prefix) }
    ensures waits { IfSome result (λ count. IsSome (tree.get nat_cmp waiting.now count)) }
    ensures none { IfNone result (WaitsAbove prefix waiting.now) }
{
    let (count, _) = waiting.first_key_value()?;
    if *count > prefix {
        return None;
    }
    Some(*count)
}

fn close_up_to(closed: &mut Time, upto: Time)
    ensures { closed.new ≡ max closed.old upto }
{
    if closed.number() < upto.number() {
        *closed = upto;
    }
}

/// Drops the marks that the prefix covers, and closes up to their times.
fn settle(prefix: u64, closed: &mut Time, waiting: &mut BTreeMap<u64, Time>)
    ensures settles { Settles prefix closed.old closed.new waiting.old waiting.new }
    ensures waits { WaitsAbove prefix waiting.new }
{
    while let Some(count) = first_covered(prefix, waiting) {
        if let Some(upto) = waiting.remove(&count) {
            close_up_to(closed, upto);
        }
    }
}

/// Raises the time of a waiting mark. Returns whether a mark of this count waits.
fn raise_waiting(waiting: &mut BTreeMap<u64, Time>, count: u64, upto: Time) -> bool
    ensures test { result ≡ is_some (tree.get nat_cmp waiting.old count) }
    ensures found { OnTrue result (AddsMark count upto waiting.old waiting.new) }
    ensures absent { OnFalse result (waiting.new.entries ≡ waiting.old.entries) }
{
    if let Some(there) = waiting.get_mut(&count) {
        close_up_to(there, upto);
        return true;
    }
    false
}

/// Lets a mark wait, the greatest time for each count.
fn wait(waiting: &mut BTreeMap<u64, Time>, count: u64, upto: Time) -> Result<(), AllocError>
    ensures ok { OnOk result (AddsMark count upto waiting.old waiting.new) }
    ensures err { OnErr result (waiting.new.entries ≡ waiting.old.entries) }
{
    if waiting.is_empty() || !raise_waiting(waiting, count, upto) {
        waiting.insert(count, upto)?;
    }
    Ok(())
}

impl Stream {
    /// A stream of which nothing is known.
    pub fn new(alloc: Global) -> Stream
        ensures { result ≡ unknown }
    {
        Stream {
            prefix: 0,
            extra: BTreeMap::new(alloc),
            closed: Time::zero(),
            waiting: BTreeMap::new(alloc),
        }
    }

    /// Adds an entry's number.
    pub fn add_number(&mut self, number: u64) -> Result<(), AllocError>
        requires least { 1 ≤ number }
        requires most { number ≤ 2 ^ 62 }
        ensures ok { OnOk result (self.new ≡ with_number self.old number) }
        ensures err { OnErr result (self.new ≡ self.old) }
        ensures follows { number ≤ prefix_of self.old + 1 → IsOk result }
    {
        if number <= self.prefix {
            return Ok(());
        }
        if number > self.prefix + 1 {
            insert(&mut self.extra, number)?;
            return Ok(());
        }
        self.prefix = number;
        grow(&mut self.prefix, &mut self.extra);
        settle(self.prefix, &mut self.closed, &mut self.waiting);
        Ok(())
    }

    /// Adds a mark: the entries with time at most `upto` are the first `count`.
    pub fn add_mark(&mut self, count: u64, upto: Time) -> Result<(), AllocError>
        ensures ok { OnOk result (self.new ≡ with_mark self.old count upto) }
        ensures err { OnErr result (self.new ≡ self.old) }
        ensures covered { covers self.old.taken count ≡ true → IsOk result }
    {
        if count <= self.prefix {
            close_up_to(&mut self.closed, upto);
            return Ok(());
        }
        wait(&mut self.waiting, count, upto)
    }

    /// Adds the numbers 1 to `prefix`, and closes at least up to `closed`.
    pub fn raise(&mut self, prefix: u64, closed: Time)
        requires { prefix ≤ 2 ^ 62 }
        ensures { self.new ≡ with_prefix self.old prefix closed }
    {
        take_up_to(&mut self.prefix, &mut self.extra, prefix);
        close_up_to(&mut self.closed, closed);
        settle(self.prefix, &mut self.closed, &mut self.waiting);
    }

    pub fn has(&self, number: u64) -> bool
        ensures { result ≡ set.contains self.now.taken number }
    {
        if number <= self.prefix {
            return number > 0;
        }
        has(&self.extra, number)
    }

    /// Whether the numbers 1 to `count` are all applied.
    pub fn covers(&self, count: u64) -> bool
        ensures { result ≡ covers self.now.taken count }
    {
        count <= self.prefix
    }

    /// The greatest number up to which all are applied.
    pub fn prefix(&self) -> u64
        ensures value { HasPrefix self.now.taken result }
        ensures most { result ≤ 2 ^ 62 }
        ensures greatest { result ≡ prefix_of self.now }
        ensures lawful { IsLawfulStream self.now }
    {
        self.prefix
    }

    pub fn closed(&self) -> Time
        ensures { result ≡ self.now.closed }
    {
        self.closed
    }

    /// Whether a mark has nothing new.
    pub fn adds_nothing(&self, count: u64, upto: Time) -> bool
        ensures { result ≡ adds_nothing self.now count upto }
    {
        if count <= self.prefix {
            return upto <= self.closed;
        }
        match self.waiting.get(&count) {
            Some(there) => upto <= *there,
            None => false,
        }
    }

    /// The applied numbers above the prefix, in rising order.
    pub fn extra_numbers(&self) -> Listed<'_>
        ensures value { set.from_list result ≡ extra_numbers self.now }
        ensures rising { IsStrictlyIncreasing result }
        ensures runs { ShowsInOrder {A = ℕ} {X = ℕ} (λ x. x) }
    {
        numbers_of(&self.extra)
    }

    /// The waiting marks, in rising order of their counts.
    pub fn waiting_marks(&self) -> btree_map::Iter<'_, u64, Time>
        ensures value { result ≡ finmap.entries self.now.waiting }
        ensures rising { IsStrictlyIncreasing (keys_of result) }
        ensures runs { ShowsInOrder (deref_pair {K = ℕ} {X = ℕ}) }
    {
        self.waiting.iter()
    }

    /// How many applied numbers are above the prefix.
    pub fn extra_count(&self) -> u64
        ensures { result ≡ set.len (extra_numbers self.now) }
    {
        count(&self.extra)
    }

    /// How many marks wait.
    pub fn waiting_count(&self) -> u64
        ensures { result ≡ finmap.len self.now.waiting }
    {
        self.waiting.len() as u64
    }

    /// How much is known of the stream.
    pub fn told(&self) -> StreamTold
        ensures { result ≡ stream_told self.now }
    {
        StreamTold {
            prefix: self.prefix(),
            closed: self.closed,
            extra: self.extra_count(),
            waiting: self.waiting_count(),
        }
    }

    /// The same again.
    pub fn copy(&self, alloc: Global) -> Result<Stream, AllocError>
        ensures { IfOk result (λ stream. stream ≡ self.now) }
    {
        Ok(Stream {
            prefix: self.prefix,
            extra: copy(alloc, &self.extra)?,
            closed: self.closed,
            waiting: copy_marks(&self.waiting, alloc)?,
        })
    }
}

fn copy_marks(marks: &BTreeMap<u64, Time>, alloc: Global) -> Result<BTreeMap<u64, Time>, AllocError>
    ensures { IfOk result (λ copied. (q : ℕ) → tree.get nat_cmp copied q ≡ tree.get nat_cmp marks.now q) }
{
    if marks.is_empty() {
        return Ok(BTreeMap::new(alloc));
    }
    marks
        .iter()
        .map(|(count, upto)| (*count, *upto))
        .collect(alloc)
}
