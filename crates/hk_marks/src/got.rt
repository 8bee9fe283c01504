//! What is known of all streams of a log.

ghost use Rattle.std.specs.Prelude.{◌≡◌, ◌≤◌, ◌<◌, ◌^◌, ◌+◌, ◌-◌, ◌==◌, ℕ, true, All, min, length, map, replicate, slice_set, IsOk, IfOk, OnOk, OnErr, IfErr};
ghost use Rattle.std.specs.FinMap as finmap;
ghost use Rattle.std.specs.FinSet as set;
ghost use Rattle.std.specs.List.Sorted.{IsStrictlyIncreasing};
ghost use Rattle.std.specs.Map.{keys_of};
ghost use Rattle.std.specs.Map.Iter.{ShowsInOrder, deref_pair};
ghost use Rattle.hk_types.specs.declared.faults.Refusal.TheVariants.{Memory};
ghost use Rattle.hk_model.specs.Replica.Content.{least_closed};
ghost use Rattle.hk_model.specs.Replica.Lawful.{IsLawfulStream};
ghost use Rattle.hk_model.specs.Replica.Streams.{all_together, covers, adds_nothing, stream_at, unknown};
ghost use Rattle.hk_marks.specs.Seen.{IsNumbered};
ghost use Rattle.hk_marks.specs.Parts.{HasPrefix};
ghost use Rattle.hk_marks.specs.Steps.{with_number, with_mark, with_prefix, extra_numbers, IsInOrder, TakesEntry, TakesMark};
ghost use Rattle.hk_marks.specs.Told.{prefix_of, stream_told};

use crate::stream::{Stream, join_streams};
use hk_model::StreamTold;
use hk_numbers::Listed;
use hk_types::{Config, LAST_TIME, Refusal, StreamNo, Time};
use std::alloc::Global;
use std::collections::btree_map;
use std::marker::Model;

/// What is known of each stream of a log: the entry numbers that were applied, the time up to which it is closed, and
/// the marks that wait for entries that are missing.
///
/// Numbers are kept as a prefix, 1 to some number, and the extra ones above it as runs of those that follow each other. So a
/// log that comes in order costs no memory, and one that comes out of order a tree node a gap.
/// A mark says that the first `n` entries of its stream are all those with time at most `m`. It
/// closes the stream up to `m` as soon as 1 to `n` are applied; until then it waits, and of several
/// for one `n` the one with the greatest `m`. Entries are numbered from 1 to 2^62, so number 0 never comes;
/// times are at most 2^62, and no mark waits whose `n` is above its `m`.
#[derive(Drop)]
pub struct Got {
    streams: Vec<Stream>,
}

impl Model for Got {
    ghost use Rattle.std.specs.Prelude.{List};
    ghost use Rattle.std.specs.Coded.{coded_list};
    ghost use Rattle.hk_model.specs.Replica.Streams.{StreamContent};
    ghost use Rattle.hk_model.specs.Replica.Codes.{stream_code};
    ghost use Rattle.hk_marks.specs.Seen.{AreStreams};

    ghost Value = { List StreamContent };

    ghost coded = { coded_list stream_code };

    ghost view = { λ a. a.streams.items };

    ghost invariant = { λ a. AreStreams a.streams.items };
}

fn place(s: StreamNo) -> usize
    ensures value { result ≡ s - 1 }
    ensures below { result < s }
{
    usize::from(s.number() - 1)
}

fn earlier(a: Time, b: Time) -> Time
    ensures { result ≡ min a b }
{
    if a.number() <= b.number() { a } else { b }
}

impl Got {
    /// Nothing is applied, and each stream is closed at time 0.
    ///
    /// The only refusal is `Memory`. Cost: O(s), s streams.
    pub fn new(alloc: Global, config: Config) -> Result<Got, Refusal>
        ensures ok { IfOk result (λ got. got ≡ replicate config.streams unknown) }
        ensures err { IfErr result (λ why. why ≡ Memory) }
    {
        let count = usize::from(config.streams());
        let mut streams = Vec::with_capacity(alloc, count)?;
        'streams: for _ in 0..count {
            streams.push(Stream::new(alloc))?;
        }
        Ok(Got { streams })
    }

    /// Adds an entry's number, 1 to 2^62. A number that is applied already changes nothing.
    ///
    /// The only refusal is `Memory`, where a number that doesn't follow the prefix finds no room;
    /// then nothing is changed. Cost: O((1 + f) · log n), n runs of extra numbers and waiting marks of the
    /// stream, f of them those that join the prefix and the marks that are freed.
    pub fn add_number(&mut self, s: StreamNo, number: u64) -> Result<(), Refusal>
        requires known { s ≤ length self.old }
        requires least { 1 ≤ number }
        requires most { number ≤ 2 ^ 62 }
        ensures ok { OnOk result (self.new
            ≡ slice_set self.old (s - 1) (with_number (stream_at self.old s) number)) }

        // The new value is that of applying an entry of this number.
        ensures entry { OnOk result (TakesEntry self.old s number self.new) }
        ensures err { IfErr result (λ why. why ≡ Memory) }
        ensures kept { OnErr result (self.new ≡ self.old) }

        // One that follows the prefix, or is in it, takes no memory.
        ensures follows { number ≤ prefix_of (stream_at self.old s) + 1 → IsOk result }
    {
        self.streams[place(s)].add_number(number)?;
        Ok(())
    }

    /// Adds the mark that the first `n` entries of the stream are those with time at most `m`.
    ///
    /// The only refusal is `Memory`, where a mark that has to wait finds no room; then nothing is
    /// changed. Cost: O(log n), n waiting marks of the stream.
    pub fn add_mark(&mut self, s: StreamNo, n: u64, m: Time) -> Result<(), Refusal>
        requires known { s ≤ length self.old }
        requires truthful { n ≤ m }
        ensures ok { OnOk result (self.new
            ≡ slice_set self.old (s - 1) (with_mark (stream_at self.old s) n m)) }

        // The new value is that of applying such a mark.
        ensures mark { OnOk result (TakesMark self.old s n m self.new) }
        ensures err { IfErr result (λ why. why ≡ Memory) }
        ensures kept { OnErr result (self.new ≡ self.old) }

        // One that need not wait takes no memory.
        ensures covered { covers (stream_at self.old s).taken n ≡ true → IsOk result }
    {
        self.streams[place(s)].add_mark(n, m)?;
        Ok(())
    }

    /// Adds the numbers 1 to `prefix`, which is at most 2^62, and closes the stream at least up to `closed`.
    ///
    /// It needs no memory and is never refused. Cost: O((1 + f) · log n), n runs of extra numbers and waiting marks of
    /// the stream, f of them those that join the prefix and the marks that are freed.
    pub fn raise(&mut self, s: StreamNo, prefix: u64, closed: Time) -> Result<(), Refusal>
        requires known { s ≤ length self.old }
        requires most { prefix ≤ 2 ^ 62 }
        ensures done { IsOk result }
        ensures value { self.new
            ≡ slice_set self.old (s - 1) (with_prefix (stream_at self.old s) prefix closed) }
    {
        self.streams[place(s)].raise(prefix, closed);
        Ok(())
    }

    /// Adds all that another view of the same number of streams has.
    ///
    /// The only refusal is `Memory`, where an extra number or a waiting mark finds no room; then nothing is changed in
    /// any stream. Where the other has none of either there is no refusal. Cost: O((s + c) · log n), s streams, n runs
    /// of extra numbers and waiting marks of both views, c of them those of the other view and those here that are
    /// freed.
    pub fn join(&mut self, other: &Got) -> Result<(), Refusal>
        requires { length self.old ≡ length other.now }
        ensures ok { OnOk result (self.new ≡ all_together self.old other.now) }
        ensures err { IfErr result (λ why. why ≡ Memory) }
        ensures kept { OnErr result (self.new ≡ self.old) }

        // A view in order, without extra numbers and waiting marks, takes no memory.
        ensures in_order { All IsInOrder other.now → IsOk result }
    {
        let alloc = *self.streams.allocator();
        join_streams(alloc, &mut self.streams, &other.streams)?;
        Ok(())
    }

    /// How many streams the log has, 1 to 64.
    pub fn streams(&self) -> u16
        ensures value { result ≡ length self.now }
        ensures least { 1 ≤ length self.now }
        ensures most { length self.now ≤ 64 }
        ensures lawful { All IsLawfulStream self.now }

        // Numbers are 1 to 2^62, times at most 2^62, and a waiting mark's count is at most its time.
        ensures numbered { All IsNumbered self.now }
    {
        self.streams.len() as u16
    }

    /// Whether an entry's number is applied. Cost: O(log n), n runs of extra numbers of the stream.
    pub fn has(&self, s: StreamNo, number: u64) -> bool
        requires { s ≤ length self.now }
        ensures { result ≡ set.contains (stream_at self.now s).taken number }
    {
        self.streams[place(s)].has(number)
    }

    /// Whether the numbers 1 to `count` are all applied.
    pub fn covers(&self, s: StreamNo, count: u64) -> bool
        requires { s ≤ length self.now }
        ensures { result ≡ covers (stream_at self.now s).taken count }
    {
        self.streams[place(s)].covers(count)
    }

    /// The greatest number up to which all are applied, at most 2^62.
    pub fn prefix(&self, s: StreamNo) -> u64
        requires { s ≤ length self.now }
        ensures value { HasPrefix (stream_at self.now s).taken result }
        ensures most { result ≤ 2 ^ 62 }
        ensures greatest { result ≡ prefix_of (stream_at self.now s) }
    {
        self.streams[place(s)].prefix()
    }

    /// Whether a mark has nothing new, so that adding it would change nothing. Cost: O(log n), n waiting marks of the stream.
    pub fn adds_nothing(&self, s: StreamNo, n: u64, m: Time) -> bool
        requires { s ≤ length self.now }
        ensures { result ≡ adds_nothing (stream_at self.now s) n m }
    {
        self.streams[place(s)].adds_nothing(n, m)
    }

    /// The time up to which the stream is closed: its entries with this time or less are all applied.
    pub fn closed(&self, s: StreamNo) -> Time
        requires { s ≤ length self.now }
        ensures { result ≡ (stream_at self.now s).closed }
    {
        self.streams[place(s)].closed()
    }

    /// Whether the stream is retired: it is closed up to the last time of all, so no entry of it can come that is not applied.
    pub fn retired(&self, s: StreamNo) -> bool
        requires { s ≤ length self.now }
        ensures { result ≡ ((stream_at self.now s).closed == 2 ^ 62) }
    {
        self.closed(s).number() == LAST_TIME
    }

    /// The least closed time over all streams. It needs no memory. Cost: O(s), s streams.
    pub fn readable(&self) -> Time
        ensures value { result ≡ least_closed self.now }
        ensures lawful { All IsLawfulStream self.now }
        ensures numbered { All IsNumbered self.now }
    {
        let mut least = self.streams[0].closed();
        for stream in &self.streams {
            least = earlier(least, stream.closed());
        }
        least
    }

    /// The applied numbers above the prefix, in rising order.
    pub fn extra_numbers(&self, s: StreamNo) -> Listed<'_>
        requires { s ≤ length self.now }
        ensures value { set.from_list result ≡ extra_numbers (stream_at self.now s) }
        ensures rising { IsStrictlyIncreasing result }
        ensures runs { ShowsInOrder {A = ℕ} {X = ℕ} (λ x. x) }
    {
        self.streams[place(s)].extra_numbers()
    }

    /// The waiting marks as `n` and `m`, in rising order of `n`.
    pub fn waiting_marks(&self, s: StreamNo) -> btree_map::Iter<'_, u64, Time>
        requires { s ≤ length self.now }
        ensures value { result ≡ finmap.entries (stream_at self.now s).waiting }
        ensures rising { IsStrictlyIncreasing (keys_of result) }
        ensures runs { ShowsInOrder (deref_pair {K = ℕ} {X = ℕ}) }
    {
        self.streams[place(s)].waiting_marks()
    }

    /// How many numbers above the prefix are applied. Cost: O(n), n runs of them.
    pub fn extra_count(&self, s: StreamNo) -> u64
        requires { s ≤ length self.now }
        ensures { result ≡ set.len (extra_numbers (stream_at self.now s)) }
    {
        self.streams[place(s)].extra_count()
    }

    /// How many marks wait. Cost: O(1).
    pub fn waiting_count(&self, s: StreamNo) -> u64
        requires { s ≤ length self.now }
        ensures { result ≡ finmap.len (stream_at self.now s).waiting }
    {
        self.streams[place(s)].waiting_count()
    }

    /// How much is known of each stream, by their numbers. The only refusal is `Memory`. Cost: O(s + n), s streams, n runs of extra numbers.
    pub fn told(&self, alloc: Global) -> Result<Vec<StreamTold>, Refusal>
        ensures ok { IfOk result (λ told. told.items ≡ map stream_told self.now) }
        ensures err { IfErr result (λ why. why ≡ Memory) }
    {
        let mut told = Vec::with_capacity(alloc, self.streams.len())?;
        for stream in &self.streams {
            told.push(stream.told())?;
        }
        Ok(told)
    }

    /// The same again. The only refusal is `Memory`. Cost: O(s + n · log n), s streams, n runs of extra numbers
    /// and waiting marks, all copied.
    pub fn copy(&self, alloc: Global) -> Result<Got, Refusal>
        ensures ok { IfOk result (λ got. got ≡ self.now) }
        ensures err { IfErr result (λ why. why ≡ Memory) }
    {
        let mut streams = Vec::with_capacity(alloc, self.streams.len())?;
        for stream in &self.streams {
            streams.push(stream.copy(alloc)?)?;
        }
        Ok(Got { streams })
    }
}
