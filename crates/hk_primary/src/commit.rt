//! Commits.

ghost use Rattle.std.specs.Prelude.{◌≡◌, IfErr, OnOk, OnErr};
ghost use Rattle.hk_types.specs.declared.faults.Refusal.TheVariants.{Memory};
ghost use Rattle.hk_model.specs.History.Histories.{MayCommit, commits};
ghost use Rattle.hk_primary.specs.Calls.{Tells, with_transaction, primary_after, verdict_of, verdict_time};
ghost use Rattle.hk_primary.specs.Log.{IsNext, with_entry};
ghost use Rattle.hk_primary.specs.Txns.{AreWrites, committed_at};
ghost use Rattle.hk_primary.specs.Verdicts.{clock};

use crate::primary::Primary;
use crate::txn::Txn;
use hk_log::{Entry, Item};
use hk_types::{Refusal, StreamNo, Time};

impl Primary {
    /// The time that the next commit comes after.
    fn clock(&self) -> Time
        ensures { result ≡ clock self.now.after (commits self.now.history) }
    {
        if self.after < self.newest {
            self.newest
        } else {
            self.after
        }
    }

    /// What a commit of a transaction on a stream returns, where memory suffices.
    fn judge(&self, txn: &Txn, stream: StreamNo) -> Result<Option<Time>, Refusal>
        ensures verdict { result ≡ verdict_time (verdict_of self.now txn.now stream) }
        ensures lawful { AreWrites txn.now.writes }
    {
        let read_at = txn.read_at();
        if stream.number() > self.config.streams() {
            return Err(Refusal::NoStream);
        }
        if self.retired(stream) {
            return Err(Refusal::Retired { stream });
        }
        if self.newest < read_at {
            return Err(Refusal::NotYet {
                readable: self.newest,
            });
        }
        if let Some((key, at)) = self.first_conflict(txn) {
            return Err(Refusal::WriteConflict {
                table: key.table,
                key: key.key,
                at,
            });
        }
        if let Some(key) = self.first_absent(txn) {
            return Err(Refusal::NoRow {
                table: key.table,
                key: key.key,
            });
        }
        if txn.is_empty() {
            return Ok(None);
        }
        match Time::new(self.clock().number() + 1) {
            Ok(time) => Ok(Some(time)),
            Err(_) => Err(Refusal::ClockFull),
        }
    }

    /// Emits an entry that may come next, and adds its rows and ends to the tables.
    fn add(&mut self, entry: Entry) -> Result<(), Refusal>
        requires { IsNext self.old.config self.old.history entry }
        ensures ok { OnOk result (self.new ≡ with_entry self.old entry) }
        ensures err { IfErr result (λ why. why ≡ Memory) }
        ensures kept { OnErr result (self.new ≡ self.old) }
    {
        self.log.reserve(1)?;
        self.facts.add_entry(&entry)?;
        let place = usize::from(entry.stream().number()) - 1;
        self.counts[place] += 1;
        self.newest = entry.time();
        let pushed = self.log.push(Item::Commit(entry));
        prove!(pushed.is_ok());
        Ok(())
    }

    /// Emits the entry of an accepted transaction.
    fn store(&mut self, txn: &Txn, stream: StreamNo, time: Time) -> Result<(), Refusal>
        requires { MayCommit self.old.config self.old.history (committed_at txn.now stream time) }
        ensures ok { OnOk result (self.new ≡ with_transaction self.old (committed_at txn.now stream time)) }
        ensures err { IfErr result (λ why. why ≡ Memory) }
        ensures kept { OnErr result (self.new ≡ self.old) }
    {
        let entry = self.entry_of(txn, stream, time)?;
        self.add(entry)
    }

    /// Commits a transaction on a stream. It answers the time of the commit, one above the last time, or `None`
    /// where the transaction writes nothing; then nothing is emitted.
    ///
    /// It is refused, in this order: `NoStream` where the stream is above the configured number; `Retired` where
    /// the stream is retired; `NotYet` with the time of the last commit, where the transaction reads above that;
    /// `WriteConflict` with the first written key, by table and key, that a commit later than the read time wrote,
    /// and the time of the last such commit, on whatever stream; `NoRow` with the first removed key that has no
    /// row; `ClockFull` where there is something to write and no time is left; `Memory` where a growth was
    /// refused. A refusal hands the transaction back and changes nothing. Cost: O((1 + w) · log n + b), w writes, n versions, b bytes
    /// of their bodies, which are copied.
    pub fn commit(&mut self, txn: Txn, stream: StreamNo) -> Result<Option<Time>, (Txn, Refusal)>
        ensures told { Tells (verdict_of self.old txn stream) result }
        ensures done { OnOk result (self.new ≡ primary_after self.old (verdict_of self.old txn stream)) }
        ensures kept { OnErr result (self.new ≡ self.old) }
        ensures back { IfErr result (λ e. e.0 ≡ txn) }
    {
        match self.judge(&txn, stream) {
            Err(why) => Err((txn, why)),
            Ok(None) => Ok(None),
            Ok(Some(time)) => match self.store(&txn, stream, time) {
                Ok(()) => Ok(Some(time)),
                Err(why) => Err((txn, why)),
            },
        }
    }
}
