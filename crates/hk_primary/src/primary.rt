//! The primary.

ghost use Rattle.std.specs.Prelude.{◌≡◌, ◌⊎◌, false, ◌≤◌, ◌<◌, ◌-◌, ◌^◌, IfOk, IfErr, OnOk, OnErr, MatchResult, length, drop};
ghost use Rattle.std.specs.List.{list_all, range_with_len};
ghost use Rattle.hk_types.specs.declared.faults.Refusal.TheVariants.{Memory};
ghost use Rattle.hk_model.specs.History.Histories.{commits, entries_in, is_retired, last};
ghost use Rattle.hk_model.specs.World.Worlds.{mark_upto};
ghost use Rattle.hk_primary.specs.Calls.{NotMarked, last_mark_of, mark_of, readable_on, with_mark};
ghost use Rattle.hk_primary.specs.Log.{IsHonest, IsNextMark, no_commits};
ghost use Rattle.hk_primary.specs.Txns.{no_writes};

use crate::txn::Txn;
use hk_log::{Item, Mark};
use hk_store::Facts;
use hk_types::{Config, LAST_TIME, Refusal, StreamNo, Time};
use std::alloc::{AllocError, Global};
use std::marker::Model;

/// The primary of a log: the complete log, and the tables that its commits left. Contracts see its configuration, the
/// time that its clock starts after, the history that its log states, and the items of its log in the order in which
/// they were emitted.
#[derive(Drop)]
pub struct Primary {
    pub(crate) alloc: Global,
    pub(crate) config: Config,
    pub(crate) after: Time,
    pub(crate) newest: Time,
    pub(crate) log: Vec<Item>,
    pub(crate) facts: Facts,
    pub(crate) counts: Vec<u64>,
    pub(crate) retired: Vec<bool>,
}

impl Model for Primary {
    ghost use Rattle.hk_primary.specs.Log.{IsPrimary, PrimaryValue, history_of};

    ghost Value = { PrimaryValue };

    ghost view = { λ a. record { config = a.config; after = a.after; history = history_of a.log.items; items = a.log.items } };

    ghost invariant = { λ a. IsPrimary a.config a.newest a.log.items a.facts a.counts.items a.retired.items };
}

impl Primary {
    /// A primary with no commits, whose first commit has time 1. Its log and its tables grow by `alloc`. The
    /// only refusal is `Memory`. Cost: O(s), s streams.
    pub fn new(alloc: Global, config: Config) -> Result<Primary, Refusal>
        ensures ok { IfOk result (λ primary. primary ≡ no_commits config 0) }
        ensures err { IfErr result (λ why. why ≡ Memory) }
    {
        Primary::starting_after(alloc, config, Time::zero())
    }

    /// A primary with no commits, whose first commit has the time one above this one. The only refusal is
    /// `Memory`. Cost: O(s), s streams.
    pub fn starting_after(alloc: Global, config: Config, after: Time) -> Result<Primary, Refusal>
        ensures ok { IfOk result (λ primary. primary ≡ no_commits config after) }
        ensures err { IfErr result (λ why. why ≡ Memory) }
    {
        let counts = vec![in alloc; 0_u64; usize::from(config.streams())]?;
        let retired = vec![in alloc; false; usize::from(config.streams())]?;
        Ok(Primary {
            alloc,
            config,
            after,
            newest: Time::zero(),
            log: Vec::new(alloc),
            facts: Facts::new(alloc),
            counts,
            retired,
        })
    }

    /// The id of the log, and how many streams it has.
    pub fn config(&self) -> Config
        ensures { result ≡ self.now.config }
    {
        self.config
    }

    /// The time of the last commit, else 0. A retirement has no time.
    pub fn last(&self) -> Time
        ensures value { result ≡ last (commits self.now.history) }
        ensures honest { IsHonest self.now }
    {
        self.newest
    }

    /// A transaction with no writes that reads at the time of the last commit. It takes no memory.
    pub fn begin(&self) -> Txn
        ensures value { result ≡ no_writes (last (commits self.now.history)) }
        ensures honest { IsHonest self.now }
    {
        Txn::at(self.alloc, self.newest)
    }

    /// The greatest time that may be read: the time of the last commit, or `LAST_TIME` where all streams are
    /// retired, since no commit can come then. It takes no memory. Cost: O(s), s streams.
    pub fn readable(&self) -> Time
        ensures value { result ≡ readable_on self.now }
        ensures honest { IsHonest self.now }
    {
        let newest = self.newest;
        if self.is_over() { Time::last() } else { newest }
    }

    /// Whether all streams are retired.
    fn is_over(&self) -> bool
        ensures { result ≡ list_all (is_retired self.now.history) (range_with_len 1 self.now.config.streams) }
    {
        all_true(&self.retired)
    }

    /// How many entries a stream has.
    pub(crate) fn count_of(&self, stream: StreamNo) -> u64
        requires { stream ≤ self.now.config.streams }
        ensures value { result ≡ entries_in (commits self.now.history) stream }
        ensures bound { result ≤ last (commits self.now.history) }
        ensures fits { result < 2 ^ 63 }
    {
        self.counts[usize::from(stream.number()) - 1]
    }

    /// Whether a stream is retired. Ask only for streams up to the configured number.
    pub fn retired(&self, stream: StreamNo) -> bool
        requires { stream ≤ self.now.config.streams }
        ensures { result ≡ is_retired self.now.history stream }
    {
        self.retired[usize::from(stream.number()) - 1]
    }

    /// Emits the mark of a stream at the time of the last commit: it counts the entries of the stream. Where that
    /// time is `LAST_TIME`, the mark retires the stream, as `retire` does.
    ///
    /// A stream above the configured number is refused `NoStream`, a retired one `Retired`, and then `Memory` comes
    /// where a growth was refused. A refusal changes nothing. It adds one item to the log.
    pub fn mark(&mut self, stream: StreamNo) -> Result<Mark, Refusal>
        ensures told { IfOk result (λ mark. mark ≡ mark_of self.old stream) }
        ensures done { IfOk result (λ mark. self.new ≡ with_mark self.old mark) }
        ensures known { OnOk result (stream ≤ self.old.config.streams) }
        ensures open { OnOk result (is_retired self.old.history stream ≡ false) }
        ensures refused { IfErr result (λ why. NotMarked self.old stream why) }
        ensures kept { OnErr result (self.new ≡ self.old) }
        ensures honest { IsHonest self.old }
    {
        let newest = self.newest;
        self.close(stream, newest)
    }

    /// Retires a stream: it accepts no commit from then on, and its last mark, which is emitted, closes it up to
    /// `LAST_TIME`. So it holds no replica's resolved time back any more.
    ///
    /// A stream above the configured number is refused `NoStream`, one that is retired already `Retired`, and then
    /// `Memory` comes where a growth was refused. A refusal changes nothing. It adds one item to the log.
    pub fn retire(&mut self, stream: StreamNo) -> Result<Mark, Refusal>
        ensures told { IfOk result (λ mark. mark ≡ last_mark_of self.old stream) }
        ensures done { IfOk result (λ mark. self.new ≡ with_mark self.old mark) }
        ensures known { OnOk result (stream ≤ self.old.config.streams) }
        ensures open { OnOk result (is_retired self.old.history stream ≡ false) }
        ensures refused { IfErr result (λ why. NotMarked self.old stream why) }
        ensures kept { OnErr result (self.new ≡ self.old) }
        ensures honest { IsHonest self.old }
    {
        self.close(stream, Time::last())
    }

    /// Emits the mark of a stream at a time up to which it may be closed.
    fn close(&mut self, stream: StreamNo, upto: Time) -> Result<Mark, Refusal>
        requires { (upto ≡ last (commits self.old.history)) ⊎ (upto ≡ 2 ^ 62) }
        ensures honest { IsHonest self.old }
        ensures told { IfOk result (λ mark. mark ≡ mark_upto self.old.config self.old.history stream upto) }
        ensures done { IfOk result (λ mark. self.new ≡ with_mark self.old mark) }
        ensures known { OnOk result (stream ≤ self.old.config.streams) }
        ensures open { OnOk result (is_retired self.old.history stream ≡ false) }
        ensures refused { IfErr result (λ why. NotMarked self.old stream why) }
        ensures kept { OnErr result (self.new ≡ self.old) }
    {
        if stream.number() > self.config.streams() {
            return Err(Refusal::NoStream);
        }
        if self.retired(stream) {
            return Err(Refusal::Retired { stream });
        }
        let mark = self.mark_of(stream, upto);
        self.emit(mark)?;
        Ok(mark)
    }

    fn mark_of(&self, stream: StreamNo, upto: Time) -> Mark
        requires known { stream ≤ self.now.config.streams }
        requires late { last (commits self.now.history) ≤ upto }
        ensures { result ≡ mark_upto self.now.config self.now.history stream upto }
    {
        let count = self.count_of(stream);
        match Mark::new(self.config.log(), stream, count, upto) {
            Ok(mark) => mark,
            Err(_) => unreachable!(),
        }
    }

    fn emit(&mut self, mark: Mark) -> Result<(), AllocError>
        requires { IsNextMark self.old.config self.old.history mark }
        ensures ok { OnOk result (self.new ≡ with_mark self.old mark) }
        ensures kept { OnErr result (self.new ≡ self.old) }
    {
        self.log.push(Item::Closed(mark))?;
        let place = usize::from(mark.stream().number()) - 1;
        self.retired[place] = mark.m().number() == LAST_TIME;
        Ok(())
    }

    /// How many items were emitted.
    pub fn item_count(&self) -> u64
        ensures value { result ≡ length self.now.items }
        ensures honest { IsHonest self.now }
    {
        self.log.len() as u64
    }

    /// The items that were emitted, in that order. Each is an item of the primary's history.
    pub fn log(&self) -> &[Item]
        ensures value { result.now ≡ self.now.items }
        ensures honest { IsHonest self.now }
    {
        self.log.as_slice()
    }

    /// Copies of the items from a position on, in the order in which they were emitted. Positions are counted from 1,
    /// and 0 counts as 1; past the end there are none. The only refusal is `Memory`. Cost: O(n + b), n items, ends
    /// and rows returned, b bytes of bodies, all copied.
    pub fn items(&self, from: u64) -> Result<Vec<Item>, Refusal>
        ensures ok { IfOk result (λ items. items.items ≡ drop (from - 1) self.now.items) }
        ensures honest { IsHonest self.now }
        ensures err { IfErr result (λ why. why ≡ Memory) }
    {
        let copies = copied(self.alloc, items_from(&self.log, from))?;
        Ok(copies)
    }
}

fn all_true(flags: &[bool]) -> bool
    ensures { result ≡ list_all (λ flag. flag) flags.now }
{
    for flag in flags {
        if !*flag {
            return false;
        }
    }
    true
}

/// The items from a position on, counted from 1.
fn items_from(items: &[Item], from: u64) -> &[Item]
    ensures { result.now ≡ drop (from - 1) items.now }
{
    let count = items.len() as u64;
    if from <= 1 {
        return items;
    }
    if from > count {
        return &[];
    }
    &items[(from - 1) as usize..]
}

fn copied(alloc: Global, items: &[Item]) -> Result<Vec<Item>, AllocError>
    ensures { IfOk result (λ copies. copies.items ≡ items.now) }
{
    let mut copies = Vec::with_capacity(alloc, items.len())?;
    for item in items {
        copies.push(item.copy(alloc)?)?;
    }
    Ok(copies)
}
