//! Rows by time.

ghost use Rattle.std.specs.Prelude.{◌≡◌, ◌≤◌, ◌++◌, ◌∷◌, [], length, map, filter, true, IfOk, IfErr, IfSome, OnOk, OnErr};
ghost use Rattle.std.specs.Bool.{OnTrue};
ghost use Rattle.std.specs.FinSet as set;
ghost use Rattle.std.specs.List.Sorted.{IsNonDecreasingBy, IsStrictlySortedBy};
ghost use Rattle.hk_types.specs.declared.faults.Refusal.TheVariants.{Memory};
ghost use Rattle.hk_model.specs.History.Rows.{RowKey, row_key_cmp};
ghost use Rattle.hk_index.specs.Timed.{IsOrdered, ListsRows, StillThere, has_row, is_among, is_in, is_within, timed_cmp};

use crate::row_key::RowKey;
use crate::span::Span;
use crate::timed_row::TimedRow;
use hk_types::{Refusal, Time};
use std::alloc::{AllocError, Global};
use std::marker::Model;

/// How many late ones there are at least before all are put in order.
const FEW: usize = 64;

/// So many of the last are looked at for one that comes again: an entry that ends a version of a row it writes names the row twice.
const LAST: usize = 8;

/// Rows with times at which something is stated of them: each such row, and others besides, of which it was stated before. Nothing is
/// removed: who finds that most name nothing any more makes a new list.
///
/// Those that come in the order of time lengthen the part that is in order. The others, and what comes behind them, wait at the end until
/// they are a quarter of that part; then all are put in order. An example, with the times after each call:
///
///     add 10, 20, 30    in order 10 20 30       late
///     add 25            in order 10 20 30       late 25
///     add 40            in order 10 20 30       late 25 40
///
/// `rows` of the span from 20 to 30 finds 20 and 30 by search, and looks at all that are late.
#[derive(Drop)]
pub struct TimedRows {
    rows: Vec<TimedRow>,
    ordered: usize,
    gone: usize,
}

impl Model for TimedRows {
    ghost use Rattle.std.specs.FinSet as set;
    ghost use Rattle.hk_index.specs.Timed.{timed_cmp, timed_code, IsOrdered};

    ghost Value = { set.FinSet timed_cmp };

    ghost coded = { set.code timed_code };

    ghost view = { λ a. set.from_list a.rows.items };

    ghost invariant = { λ a. IsOrdered a.rows.items a.ordered };
}

impl TimedRows {
    /// No rows. It takes no memory.
    pub fn new(alloc: Global) -> TimedRows
        ensures { result ≡ set.empty }
    {
        TimedRows {
            rows: Vec::new(alloc),
            ordered: 0,
            gone: 0,
        }
    }

    /// Adds a row with a time. One that is there already changes nothing.
    ///
    /// The only refusal is `Memory`; then nothing is changed. Cost: O(1) in the order of time and O(log n) out of order, both amortized, n
    /// rows with times.
    #[inline(always)]
    pub fn add(&mut self, time: Time, row: RowKey) -> Result<(), Refusal>
        ensures ok { OnOk result (self.new ≡ set.insert self.old (record { time = time; row = row })) }
        ensures err { IfErr result (λ why. why ≡ Memory) }
        ensures kept { OnErr result (self.new ≡ self.old) }
    {
        let timed = TimedRow {
            time: time.number(),
            row,
        };
        if is_among_last(&self.rows, &timed) {
            return Ok(());
        }
        self.push(timed)?;
        self.settle();
        Ok(())
    }

    /// Adds a row with a time, where there is one. What is there stays.
    ///
    /// The only refusal is `Memory`; then nothing is changed. Cost: that of `add`.
    pub fn add_if(&mut self, time: Option<Time>, row: RowKey) -> Result<(), Refusal>
        ensures ok { OnOk result (IfSome time (λ t. has_row self.new t row ≡ true)) }
        ensures kept { StillThere self.old self.new }
        ensures err { IfErr result (λ why. why ≡ Memory) }
        ensures back { OnErr result (self.new ≡ self.old) }
    {
        match time {
            Some(time) => self.add(time, row),
            None => Ok(()),
        }
    }

    #[inline(always)]
    fn push(&mut self, timed: TimedRow) -> Result<(), AllocError>
        ensures ok { OnOk result (self.new ≡ set.insert self.old timed) }
        ensures kept { OnErr result (self.new ≡ self.old) }
    {
        let in_order = stays_ordered(&self.rows, self.ordered, &timed);
        self.rows.push(timed)?;
        if in_order {
            self.ordered = self.rows.len();
        }
        Ok(())
    }

    /// Puts all in order, each once, where many are late and there is memory for it.
    #[inline(always)]
    fn settle(&mut self)
        ensures { self.new ≡ self.old }
    {
        let late = self.rows.len().saturating_sub(self.ordered);
        if late > FEW && late > self.ordered / 4 {
            self.sort();
        }
    }

    /// Puts all in order, each once, where there is memory for it.
    fn sort(&mut self)
        ensures { self.new ≡ self.old }
    {
        if self.rows.sort().is_ok() {
            self.rows.dedup();
            self.ordered = self.rows.len();
        }
    }

    /// The rows that are there with a time of a span, and others besides, in rising order, each once.
    ///
    /// The only refusal is `Memory`. Cost: O(log n + l + k · log k), n rows with times, l of them late, which are at most a few or a quarter,
    /// k with a time of the span; O(1) where no time is of the span.
    pub fn rows(&self, alloc: Global, span: &Span) -> Result<Vec<RowKey>, Refusal>
        ensures ok { IfOk result (λ rows. ListsRows self.now span.now rows.items) }
        ensures err { IfErr result (λ why. why ≡ Memory) }
    {
        let mut found = Vec::new(alloc);
        if span.is_empty() {
            return Ok(found);
        }
        let (ordered, late) = self.rows.split_at(self.ordered);
        push_rows(&mut found, within(ordered, span), span)?;
        push_rows(&mut found, late, span)?;
        Ok(rising(found))
    }

    /// The same rows with times again.
    ///
    /// The only refusal is `Memory`. Cost: O(n), n rows with times, all copied.
    pub fn copy(&self, alloc: Global) -> Result<TimedRows, Refusal>
        ensures ok { IfOk result (λ copy. copy ≡ self.now) }
        ensures err { IfErr result (λ why. why ≡ Memory) }
    {
        let rows = Vec::from_slice(alloc, &self.rows)?;
        Ok(TimedRows {
            rows,
            ordered: self.ordered,
            gone: self.gone,
        })
    }

    /// The time that so many of those in the order of time have at least, or 0 where there are fewer. It promises nothing. Cost: O(1).
    pub fn time_back(&self, many: usize) -> u64 {
        let place = self.ordered.saturating_sub(many);
        match self.rows.get(place) {
            Some(timed) if many <= self.ordered => timed.time,
            _few => 0,
        }
    }

    /// Notes that so many name nothing any more. It promises nothing.
    pub fn note_gone(&mut self, many: u64)
        ensures { self.new ≡ self.old }
    {
        self.gone = self.gone.saturating_add(many as usize);
    }

    /// Whether more than half name nothing any more. It promises nothing.
    pub fn is_worn(&self) -> bool {
        self.gone > self.rows.len() / 2 + FEW
    }
}

/// Whether it is one of the last, which have its time.
#[inline(always)]
fn is_among_last(rows: &[TimedRow], timed: &TimedRow) -> bool
    ensures { OnTrue result (is_in rows.now timed.now ≡ true) }
{
    for back in 1..=LAST {
        let Some(last) = rows.get(rows.len().wrapping_sub(back)) else {
            return false;
        };
        if last.time != timed.time {
            return false;
        }
        if last.row == timed.row {
            return true;
        }
    }
    false
}

/// Whether all are in the order of time with this one behind them.
#[inline(always)]
fn stays_ordered(rows: &[TimedRow], ordered: usize, timed: &TimedRow) -> bool
    requires { IsOrdered rows.now ordered }
    ensures { OnTrue result (IsNonDecreasingBy (λ t. t.time) (rows.now ++ timed.now ∷ [])) }
{
    ordered == rows.len()
        && match rows.last() {
            Some(last) => last.time <= timed.time,
            None => true,
        }
}

/// The part of a list in the order of time that has all with a time of a span.
fn within<'a>(rows: &'a [TimedRow], span: &Span) -> &'a [TimedRow]
    requires { IsNonDecreasingBy (λ t. t.time) rows.now }
    ensures { (timed : TimedRow) → is_within span.now timed ≡ true → is_in rows.now timed ≡ true → is_in result.now timed ≡ true }
{
    let from = span.from;
    let start = rows.partition_point(|timed| timed.time < from);
    let rows = &rows[start..];
    match span.until {
        Some(until) => {
            let count = rows.partition_point(|timed| timed.time <= until);
            &rows[..count]
        }
        None => rows,
    }
}

/// Adds the rows of those with a time of a span.
fn push_rows(found: &mut Vec<RowKey>, rows: &[TimedRow], span: &Span) -> Result<(), AllocError>
    ensures { OnOk result (found.new.items ≡ found.old.items ++ map (λ t. t.row) (filter (is_within span.now) rows.now)) }
{
    for timed in rows {
        if span.has(timed.time) {
            found.push(timed.row)?;
        }
    }
    Ok(())
}

/// The rows in rising order, each once.
fn rising(mut rows: Vec<RowKey>) -> Vec<RowKey>
    ensures rising { IsStrictlySortedBy row_key_cmp result.items }
    ensures same { (row : RowKey) → is_among result.items row ≡ is_among rows.items row }
{
    rows.sort_unstable();
    rows.dedup();
    rows
}
