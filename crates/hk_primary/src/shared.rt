//! A primary that threads share.

ghost use Rattle.std.specs.Prelude.{◌≡◌, ◌≤◌, ◌<◌, ◌+◌, ◌-◌, drop, length, IfErr, IfOk, OnOk, OnErr};
ghost use Rattle.hk_types.specs.declared.faults.Refusal.TheVariants.{Memory};
ghost use Rattle.hk_model.specs.Replica.Answers.{answer_seen};
ghost use Rattle.hk_model.specs.History.Histories.{commits, last};
ghost use Rattle.hk_primary.specs.Calls.{AtSome, IsAnswered, NotAnswered, NotMarked, Tells, items_of, last_mark_of, mark_of, readable_on, verdict_of};
ghost use Rattle.hk_primary.specs.Txns.{no_writes};

use crate::primary::Primary;
use crate::txn::Txn;
use hk_log::{Item, Mark};
use hk_model::{Answer, Query};
use hk_types::{Config, Refusal, StreamNo, Time};
use std::alloc::Global;
use std::marker::Brand;
use std::sync::ledger::{Blank, Book, Ledger, Share};
use std::sync::{Mutex, Wait};

/// Which shared primary it is: its configuration, the time that its clock starts after, and the ledger that its items
/// are counted in. It is known in the proofs alone: a function over it is called with `Brand`, and the caller states
/// there which values these are.
pub trait Naming: Ledger {
    ghost use Rattle.std.specs.Prelude.{ℕ};
    ghost use Rattle.hk_types.specs.Values.{ConfigValue};

    ghost config: { ConfigValue };

    ghost after: { ℕ };
}

impl Naming for Brand {
    ghost use Rattle.hk_primary.specs.Calls.{no_config};

    ghost config = { no_config };

    ghost after = { 0 };
}

/// What the lock keeps: the primary of that name, and how many items its log has.
#[derive(Drop)]
struct Held<K: Naming> {
    primary: Primary,
    emitted: Book<K>,
    ghost of_config: { primary.config ≡ K.config },
    ghost of_start: { primary.after ≡ K.after },
    ghost counted: { emitted.total ≡ length primary.items },
}

/// A primary under a lock, for threads that share it. Each call waits for the lock, and then makes the call of the
/// same name on the primary that it finds, which has the configuration and the clock of its name. So whenever the lock
/// is got, the log holds items of its own history alone and the tables are those that this history left: what every
/// `Primary` keeps. The contracts of two calls say nothing of what came between them, but how many items were emitted.
///
/// Items are counted in shares. Whoever makes a shared primary gets the share of all, and splits a share off for each
/// thread that emits. A call that emits an item adds one to the share that it is handed; a share never counts more
/// items than there are, and all shares merged count them all. Shares take no memory and no time.
#[derive(Drop)]
pub struct SharedPrimary<K: Naming> {
    held: Mutex<Held<K>>,
}

impl<K: Naming> SharedPrimary<K> {
    /// A shared primary with no commits, whose first commit has time 1. The only refusal is `Memory`. Cost: that
    /// of `Primary::new`.
    pub fn new(
        alloc: Global,
        config: Config,
        blank: Blank,
    ) -> Result<(SharedPrimary<K>, Share<K>), Refusal>
        requires name { blank.name ≡ K.name }
        requires parts { blank.parts ≡ K.parts }
        requires some { 0 < blank.parts }
        requires config { config ≡ K.config }
        requires after { K.after ≡ 0 }
        ensures whole { IfOk result (λ made. made.1.parts ≡ K.parts) }
        ensures none { IfOk result (λ made. made.1.amount ≡ 0) }
        ensures err { IfErr result (λ why. why ≡ Memory) }
    {
        Ok(SharedPrimary::<K>::of(Primary::new(alloc, config)?, blank))
    }

    /// A shared primary with no commits, whose first commit has the time one above this one. The only refusal
    /// is `Memory`. Cost: that of `Primary::new`.
    pub fn starting_after(
        alloc: Global,
        config: Config,
        after: Time,
        blank: Blank,
    ) -> Result<(SharedPrimary<K>, Share<K>), Refusal>
        requires name { blank.name ≡ K.name }
        requires parts { blank.parts ≡ K.parts }
        requires some { 0 < blank.parts }
        requires config { config ≡ K.config }
        requires after { after ≡ K.after }
        ensures whole { IfOk result (λ made. made.1.parts ≡ K.parts) }
        ensures none { IfOk result (λ made. made.1.amount ≡ 0) }
        ensures err { IfErr result (λ why. why ≡ Memory) }
    {
        Ok(SharedPrimary::<K>::of(Primary::starting_after(alloc, config, after)?, blank))
    }

    /// Shares a primary. The share counts the items that it has emitted already.
    pub fn of(primary: Primary, blank: Blank) -> (SharedPrimary<K>, Share<K>)
        requires name { blank.name ≡ K.name }
        requires parts { blank.parts ≡ K.parts }
        requires some { 0 < blank.parts }
        requires config { primary.config ≡ K.config }
        requires after { primary.after ≡ K.after }
        ensures whole { result.1.parts ≡ K.parts }
        ensures counted { result.1.amount ≡ length primary.items }
    {
        let (mut emitted, mut all) = blank.open::<K>();
        emitted.add(&mut all, primary.item_count());
        let held = Mutex::new(Held { primary, emitted });
        (SharedPrimary { held }, all)
    }

    /// The id of the log, and how many streams it has.
    pub fn config<R: Wait>(&self, rt: &R) -> Config
        ensures { result ≡ K.config }
    {
        self.held.lock(rt).primary.config()
    }

    /// The time of the last commit, else 0.
    pub fn last<R: Wait>(&self, rt: &R) -> Time
        ensures { AtSome K.config K.after 0 (λ p. result ≡ last (commits p.history)) }
    {
        self.held.lock(rt).primary.last()
    }

    /// The greatest time that may be read, as `Primary::readable` returns it.
    pub fn readable<R: Wait>(&self, rt: &R) -> Time
        ensures { AtSome K.config K.after 0 (λ p. result ≡ readable_on p) }
    {
        self.held.lock(rt).primary.readable()
    }

    /// A transaction with no writes that reads at the time of the last commit.
    pub fn begin<R: Wait>(&self, rt: &R) -> Txn
        ensures { AtSome K.config K.after 0 (λ p. result ≡ no_writes (last (commits p.history))) }
    {
        self.held.lock(rt).primary.begin()
    }

    /// Commits a transaction on a stream, as `Primary::commit` does. A commit that answers a time adds one to the
    /// share, and no other does. Cost: that of `Primary::commit`.
    pub fn commit<R: Wait>(
        &self,
        rt: &R,
        share: &mut Share<K>,
        txn: Txn,
        stream: StreamNo,
    ) -> Result<Option<Time>, (Txn, Refusal)>
        requires { 0 < share.old.parts }
        ensures told { AtSome K.config K.after share.old.amount
            (λ p. Tells (verdict_of p txn stream) result) }
        ensures back { IfErr result (λ e. e.0 ≡ txn) }
        ensures parts { share.new.parts ≡ share.old.parts }
        ensures counted { IfOk result (λ time. share.new.amount ≡ share.old.amount + items_of time) }
        ensures kept { OnErr result (share.new.amount ≡ share.old.amount) }
    {
        let mut held = self.held.lock(rt);
        let Held { primary, emitted } = &mut *held;
        let _lawful = primary.last();
        emitted.audit(share);
        let time = primary.commit(txn, stream)?;
        if time.is_some() {
            emitted.add(share, 1);
        }
        Ok(time)
    }

    /// Emits the mark of a stream, as `Primary::mark` does. It adds one to the share, and a refusal adds none.
    pub fn mark<R: Wait>(
        &self,
        rt: &R,
        share: &mut Share<K>,
        stream: StreamNo,
    ) -> Result<Mark, Refusal>
        requires { 0 < share.old.parts }
        ensures told { IfOk result
            (λ mark. AtSome K.config K.after share.old.amount
            (λ p. mark ≡ mark_of p stream)) }
        ensures known { OnOk result (stream ≤ K.config.streams) }
        ensures refused { IfErr result
            (λ why. AtSome K.config K.after share.old.amount (λ p. NotMarked p stream why)) }
        ensures parts { share.new.parts ≡ share.old.parts }
        ensures counted { OnOk result (share.new.amount ≡ share.old.amount + 1) }
        ensures kept { OnErr result (share.new.amount ≡ share.old.amount) }
    {
        let mut held = self.held.lock(rt);
        let Held { primary, emitted } = &mut *held;
        emitted.audit(share);
        let mark = primary.mark(stream)?;
        emitted.add(share, 1);
        Ok(mark)
    }

    /// Retires a stream, as `Primary::retire` does. It adds one to the share, and a refusal adds none.
    pub fn retire<R: Wait>(
        &self,
        rt: &R,
        share: &mut Share<K>,
        stream: StreamNo,
    ) -> Result<Mark, Refusal>
        requires { 0 < share.old.parts }
        ensures told { IfOk result
            (λ mark. AtSome K.config K.after share.old.amount
            (λ p. mark ≡ last_mark_of p stream)) }
        ensures known { OnOk result (stream ≤ K.config.streams) }
        ensures refused { IfErr result
            (λ why. AtSome K.config K.after share.old.amount (λ p. NotMarked p stream why)) }
        ensures parts { share.new.parts ≡ share.old.parts }
        ensures counted { OnOk result (share.new.amount ≡ share.old.amount + 1) }
        ensures kept { OnErr result (share.new.amount ≡ share.old.amount) }
    {
        let mut held = self.held.lock(rt);
        let Held { primary, emitted } = &mut *held;
        emitted.audit(share);
        let mark = primary.retire(stream)?;
        emitted.add(share, 1);
        Ok(mark)
    }

    /// How many items were emitted: no fewer than the share counts, and just as many where it is the share of all.
    pub fn item_count<R: Wait>(&self, rt: &R, share: &mut Share<K>) -> u64
        ensures told { AtSome K.config K.after share.old.amount (λ p. result ≡ length p.items) }
        ensures parts { share.new.parts ≡ share.old.parts }
        ensures amount { share.new.amount ≡ share.old.amount }
        ensures bound { share.old.amount ≤ result }
        ensures whole { share.old.parts ≡ K.parts → share.old.amount ≡ result }
    {
        let mut held = self.held.lock(rt);
        held.emitted.audit(share);
        held.primary.item_count()
    }

    /// Copies of the items from a position on, as `Primary::items` returns them: what one call returns are items of
    /// one history. The only refusal is `Memory`. Cost: that of `Primary::items`.
    pub fn items<R: Wait>(&self, rt: &R, from: u64) -> Result<Vec<Item>, Refusal>
        ensures ok { IfOk result
            (λ items. AtSome K.config K.after 0 (λ p. items.items ≡ drop (from - 1) p.items)) }
        ensures err { IfErr result (λ why. why ≡ Memory) }
    {
        self.held.lock(rt).primary.items(from)
    }

    /// Answers a query at a time, as `Primary::ask` does; a `Count` and a row that is not there take no memory. Cost: that of
    /// `Primary::ask`.
    pub fn ask<R: Wait>(&self, rt: &R, time: Time, query: &Query) -> Result<Answer, Refusal>
        ensures told { IfOk result (λ a. AtSome K.config K.after 0
            (λ p. IsAnswered p time query.now (answer_seen a))) }
        ensures refused { IfErr result (λ why. AtSome K.config K.after 0
            (λ p. NotAnswered p time query.now why)) }
    {
        let held = self.held.lock(rt);
        let readable = held.primary.readable();
        if readable < time {
            return Err(Refusal::NotYet { readable });
        }
        held.primary.ask(time, query)
    }
}
