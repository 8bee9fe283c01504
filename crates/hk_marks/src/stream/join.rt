//! The join of two views of a stream, and of all streams of a log.
//!
//! Numbers that go on from the own ones without a gap, as those of a log that comes in order, need no run: they raise the prefix.
//!
//! All growth comes first, on the way into the streams: room for the other's runs of numbers, which changes no number and so need not
//! be taken back, and a mark of time 0 for each count that has to wait. What can't fail comes after it, on the way out. Where a growth
//! is refused, the way out takes the marks back.

ghost use Rattle.std.specs.Prelude.{◌≡◌, ◌<◌, ◌≤◌, ◌^◌, ℕ, ◌≢◌, [], ◌∷◌, true, false, length, max, None, is_some, All, IfSome, IfOk, IsOk, IsOkAnd, OnOk, OnErr};
ghost use Rattle.std.specs.Ordering.{nat_cmp};
ghost use Rattle.std.specs.BTreeMap as tree;
ghost use Rattle.std.specs.FinMap as finmap;
ghost use Rattle.std.specs.FinSet as set;
ghost use Rattle.hk_numbers.specs.Runs.{numbers_seen, AreKept, HasRoomFor};
ghost use Rattle.hk_model.specs.Replica.Streams.{all_together, together};
ghost use Rattle.hk_marks.specs.Seen.{taken_seen, waiting_seen, IsExtra};
ghost use Rattle.hk_marks.specs.Steps.{IsInOrder};
ghost use Rattle.hk_marks.specs.Parts.{AddsCounts, GoesOn, HasCounts, LacksNone, RaisesMarks, RemovesCounts, both_taken, has_number, lacking_counts, taken_beside};

use super::{Stream, close_up_to, grow, raise_waiting, settle};
use hk_numbers::{make_room_for, settle_all};
use hk_types::Time;
use std::alloc::{AllocError, Global};
use std::collections::BTreeMap;

/// Whether a prefix covers all of these marks.
fn all_covered(prefix: u64, marks: &BTreeMap<u64, Time>) -> bool
    ensures none { result ≡ true → LacksNone prefix (tree.keys marks.now) }
    ensures some { result ≡ false → 0 < length marks.now.entries }
{
    match marks.last_key_value() {
        Some((last, _upto)) => *last <= prefix,
        None => true,
    }
}

/// The counts of the other's waiting marks that have to wait here, and for which none waits yet.
fn missing_counts(
    alloc: Global,
    prefix: u64,
    waiting: &BTreeMap<u64, Time>,
    others: &BTreeMap<u64, Time>,
) -> Result<Vec<u64>, AllocError>
    ensures lacking { IfOk result (λ counts. counts.items ≡ lacking_counts prefix waiting.now (tree.keys others.now)) }
    ensures none { finmap.len (waiting_seen others.now) ≡ 0 → IsOkAnd result (λ counts. counts.items ≡ []) }
{
    if all_covered(prefix, others) {
        return Ok(Vec::new(alloc));
    }
    others
        .keys()
        .copied()
        .filter(|count| *count > prefix && !waiting.contains_key(count))
        .collect(alloc)
}

fn remove_counts(waiting: &mut BTreeMap<u64, Time>, counts: &[u64])
    ensures { RemovesCounts counts.now waiting.old waiting.new }
{
    for count in counts {
        waiting.remove(count);
    }
}

/// Inserts a mark of time 0 for each of these new counts, or none.
fn insert_counts(waiting: &mut BTreeMap<u64, Time>, counts: &[u64]) -> Result<(), AllocError>
    requires { (q : ℕ) → has_number counts.now q ≡ true → tree.get nat_cmp waiting.old q ≡ None }
    ensures ok { OnOk result (AddsCounts counts.now waiting.old waiting.new) }
    ensures err { OnErr result ((q : ℕ) → tree.get nat_cmp waiting.new q ≡ tree.get nat_cmp waiting.old q) }
    ensures none { OnErr result (counts.now ≢ []) }
{
    if counts.is_empty() {
        return Ok(());
    }
    for count in counts {
        if waiting.insert(*count, Time::zero()).is_err() {
            remove_counts(waiting, counts);
            return Err(AllocError);
        }
    }
    Ok(())
}

fn greater(a: u64, b: u64) -> u64
    ensures { result ≡ max a b }
{
    if a < b { b } else { a }
}

/// How far the numbers of one run at most go on from a prefix, where they leave no gap.
fn reach_of(prefix: u64, runs: &BTreeMap<u64, u64>) -> Option<u64>
    requires kept { AreKept runs.now }
    requires prefix_most { prefix ≤ 2 ^ 62 }
    ensures goes_on { IfSome result (λ reach. GoesOn prefix reach (numbers_seen runs.now)) }
    ensures least { IfSome result (λ reach. prefix ≤ reach) }
    ensures most { IfSome result (λ reach. reach ≤ 2 ^ 62) }
{
    let Some((first, end)) = runs.first_key_value() else {
        return Some(prefix);
    };
    if runs.len() > 1 || *first > prefix + 1 {
        return None;
    }
    Some(greater(prefix + 1, *end) - 1)
}

/// The numbers of another view beside those up to a prefix: where they go on without a gap, more up to one, and no extra ones.
fn numbers_beside<'a>(
    prefix: u64,
    upto: u64,
    others: &'a BTreeMap<u64, u64>,
    none: &'a BTreeMap<u64, u64>,
) -> (u64, &'a BTreeMap<u64, u64>)
    requires kept { AreKept others.now }
    requires prefix_most { prefix ≤ 2 ^ 62 }
    requires most { upto ≤ 2 ^ 62 }
    requires others { IsExtra upto (numbers_seen others.now) }
    requires none { none.now.entries ≡ [] }
    requires none_ordered { tree.IsOrdered nat_cmp none.now }
    ensures same { taken_beside prefix result.0 result.1.now ≡ taken_beside prefix upto others.now }
    ensures extras { IsExtra result.0 (numbers_seen result.1.now) }
    ensures kept { AreKept result.1.now }
    ensures most { result.0 ≤ 2 ^ 62 }
    ensures in_order { numbers_seen others.now ≡ set.empty → numbers_seen result.1.now ≡ set.empty }
{
    match reach_of(greater(prefix, upto), others) {
        Some(reach) => (reach, none),
        None => (upto, others),
    }
}

/// Adds the numbers 1 to `upto` and other extra ones, for whose runs there is room.
fn take_numbers(
    prefix: &mut u64,
    extra: &mut BTreeMap<u64, u64>,
    upto: u64,
    others: &BTreeMap<u64, u64>,
)
    requires kept { AreKept extra.old }
    requires others_kept { AreKept others.now }
    requires room { HasRoomFor others.now extra.old }
    requires extras { IsExtra prefix.old (numbers_seen extra.old) }
    requires prefix_most { prefix.old ≤ 2 ^ 62 }
    requires others { IsExtra upto (numbers_seen others.now) }
    requires most { upto ≤ 2 ^ 62 }
    ensures taken { taken_seen prefix.new (numbers_seen extra.new) ≡ both_taken prefix.old extra.old upto others.now }
    ensures extras { IsExtra prefix.new (numbers_seen extra.new) }
    ensures kept { AreKept extra.new }
    ensures prefix_most { prefix.new ≤ 2 ^ 62 }
    ensures grows { prefix.old ≤ prefix.new }
    ensures reaches { upto ≤ prefix.new }
{
    settle_all(extra, others);
    *prefix = greater(*prefix, upto);
    grow(prefix, extra);
}

/// Adds a mark that the prefix covers, or of whose count one waits already.
fn raise_one(
    prefix: u64,
    closed: &mut Time,
    waiting: &mut BTreeMap<u64, Time>,
    count: u64,
    upto: Time,
)
    requires { prefix < count → is_some (tree.get nat_cmp waiting.old count) ≡ true }
    ensures { RaisesMarks prefix closed.old closed.new waiting.old waiting.new ((count, upto) ∷ []) }
{
    if count <= prefix {
        close_up_to(closed, upto);
    } else {
        raise_waiting(waiting, count, upto);
    }
}

/// Adds marks that the prefix covers, or of whose count one waits already.
fn raise_marks(
    prefix: u64,
    closed: &mut Time,
    waiting: &mut BTreeMap<u64, Time>,
    marks: &BTreeMap<u64, Time>,
)
    requires { HasCounts prefix waiting.old marks.now }
    ensures settles { RaisesMarks prefix closed.old closed.new waiting.old waiting.new marks.now.entries }
    ensures rising { tree.IsOrdered nat_cmp marks.now }
{
    if marks.len() == 1 {
        if let Some((count, upto)) = marks.first_key_value() {
            raise_one(prefix, closed, waiting, *count, *upto);
        }
        return;
    }
    for (count, upto) in marks {
        if *count <= prefix {
            close_up_to(closed, *upto);
        } else {
            raise_waiting(waiting, *count, *upto);
        }
    }
}

impl Stream {
    /// Adds what another view of the stream has, and what other views of later streams have, one for each; or changes nothing
    /// in any.
    fn join_with(
        &mut self,
        alloc: Global,
        other: &Stream,
        later: &mut [Stream],
        others: &[Stream],
    ) -> Result<(), AllocError>
        requires { length later.old ≡ length others.now }
        ensures ok { OnOk result (self.new ≡ together self.old other.now) }
        ensures later_ok { OnOk result (later.new ≡ all_together later.old others.now) }
        ensures err { OnErr result (self.new ≡ self.old) }
        ensures later_err { OnErr result (later.new ≡ later.old) }
        ensures in_order { All IsInOrder (other.now ∷ others.now) → IsOk result }
    {
        let none = BTreeMap::new(alloc);
        let (upto, extra) = numbers_beside(self.prefix, other.prefix, &other.extra, &none);
        make_room_for(&mut self.extra, extra)?;
        let covered = greater(self.prefix, upto);
        let counts = missing_counts(alloc, covered, &self.waiting, &other.waiting)?;
        insert_counts(&mut self.waiting, &counts)?;
        if later.len() > 0 {
            let (next, last) = later.split_at_mut(1);
            if let Err(refused) = next[0].join_with(alloc, &others[0], last, &others[1..]) {
                remove_counts(&mut self.waiting, &counts);
                return Err(refused);
            }
        }
        take_numbers(&mut self.prefix, &mut self.extra, upto, extra);
        close_up_to(&mut self.closed, other.closed);
        raise_marks(
            self.prefix,
            &mut self.closed,
            &mut self.waiting,
            &other.waiting,
        );
        settle(self.prefix, &mut self.closed, &mut self.waiting);
        Ok(())
    }
}

/// Adds what other views of the streams have, one for each, or changes nothing.
pub fn join_streams(
    alloc: Global,
    streams: &mut [Stream],
    others: &[Stream],
) -> Result<(), AllocError>
    requires { length streams.old ≡ length others.now }
    ensures ok { OnOk result (streams.new ≡ all_together streams.old others.now) }
    ensures err { OnErr result (streams.new ≡ streams.old) }
    ensures in_order { All IsInOrder others.now → IsOk result }
{
    if streams.len() == 0 {
        return Ok(());
    }
    let (first, later) = streams.split_at_mut(1);
    first[0].join_with(alloc, &others[0], later, &others[1..])
}
