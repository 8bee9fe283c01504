//! What each kind of event does to a world.

ghost use Rattle.std.specs.Prelude.{◌≡◌, IfOk, IfErr, OnErr, false};
ghost use Rattle.hk_types.specs.declared.faults.Refusal.TheVariants.{Memory};
ghost use Rattle.hk_model.specs.World.Events.{told_seen};
ghost use Rattle.hk_model.specs.World.Worlds.EventValue.{Commit, MarkOf, Retire, Absorb, Batch, Prune, Merge, Delta, Ask, FrontOf};
ghost use Rattle.hk_laws.specs.Running.{step_outcome};
ghost use Rattle.hk_acting.specs.Telling.{is_memory_outcome, is_first_outcome};
ghost use Rattle.hk_laws.specs.Calls.{Happens, Turns, asked_of, refusal_of_transaction};

use crate::among;
use crate::building::{misbuilt, transaction};
use crate::lists::numbered;
use crate::world::World;
use hk_acting::refused;
use hk_model::{Query, Told, WriteOp};
use hk_primary::Primary;
use hk_types::{Refusal, StreamNo, Time};

/// A primary is asked at a time.
fn ask_primary(primary: &Primary, time: Time, query: &Query) -> Result<Told, Refusal>
    ensures ok { IfOk result (λ outcome. told_seen outcome ≡ asked_of primary.now time query.now) }
    ensures heard { IfOk result (λ outcome. is_memory_outcome (told_seen outcome) ≡ false) }
    ensures err { IfErr result (λ why. why ≡ Memory) }
    ensures first { OnErr result (is_first_outcome (asked_of primary.now time query.now) ≡ false) }
{
    match primary.ask(time, query) {
        Ok(answer) => Ok(Told::Answered(answer)),
        Err(why) => refused(why),
    }
}

impl World {
    /// Why a transaction is refused whatever it writes, if it is. It takes no memory.
    fn commit_refusal(&self, stream: StreamNo, read_at: Time) -> Option<Refusal>
        ensures { result ≡ refusal_of_transaction self.now.config self.now.world.history stream read_at }
    {
        if stream.number() > self.primary.config().streams() {
            return Some(Refusal::NoStream);
        }
        if self.primary.retired(stream) {
            return Some(Refusal::Retired { stream });
        }
        let readable = self.primary.last();
        if readable < read_at {
            return Some(Refusal::NotYet { readable });
        }
        None
    }

    /// A transaction is built of its writes, in their order, and commits on a stream.
    fn build_and_commit(
        &mut self,
        stream: StreamNo,
        read_at: Time,
        writes: Vec<WriteOp>,
    ) -> Result<Told, Refusal>
        ensures { Turns self.old self.new (Commit stream read_at writes.items) result }
    {
        let txn = match transaction(self.alloc, read_at, writes) {
            Ok(txn) => txn,
            Err(why) => return refused(why),
        };
        match self.primary.commit(txn, stream) {
            Ok(time) => Ok(Told::Committed(time)),
            Err((_txn, why)) => refused(why),
        }
    }

    /// A transaction that read at a time commits its writes on a stream, in their order. Where it is refused
    /// whatever it writes, its writes alone are tested, and nothing grows.
    pub(crate) fn commit(
        &mut self,
        stream: StreamNo,
        read_at: Time,
        writes: Vec<WriteOp>,
    ) -> Result<Told, Refusal>
        ensures { Happens self.old self.new (Commit stream read_at writes.items) result }
    {
        if let Some(why) = self.commit_refusal(stream, read_at) {
            return Ok(Told::Refused(misbuilt(&writes).unwrap_or(why)));
        }
        self.build_and_commit(stream, read_at, writes)
    }

    /// The primary emits a mark of a stream.
    pub(crate) fn mark_of(&mut self, stream: StreamNo) -> Result<Told, Refusal>
        ensures { Happens self.old self.new (MarkOf stream) result }
    {
        match self.primary.mark(stream) {
            Ok(mark) => Ok(Told::Marked(mark)),
            Err(Refusal::Memory) => Err(Refusal::Memory),
            Err(why) => Ok(Told::Refused(why)),
        }
    }

    /// The primary retires a stream.
    pub(crate) fn retire(&mut self, stream: StreamNo) -> Result<Told, Refusal>
        ensures { Happens self.old self.new (Retire stream) result }
    {
        match self.primary.retire(stream) {
            Ok(mark) => Ok(Told::Marked(mark)),
            Err(Refusal::Memory) => Err(Refusal::Memory),
            Err(why) => Ok(Told::Refused(why)),
        }
    }

    /// A replica absorbs an item.
    pub(crate) fn absorb(&mut self, replica: u16, item: u64) -> Result<Told, Refusal>
        ensures { Happens self.old self.new (Absorb replica item) result }
    {
        among::absorb(&mut self.replicas, replica, self.primary.log(), item)
    }

    /// A replica is pruned to a time.
    pub(crate) fn prune(&mut self, replica: u16, horizon: Time) -> Result<Told, Refusal>
        ensures { Happens self.old self.new (Prune replica horizon) result }
    {
        among::prune(&mut self.replicas, replica, horizon)
    }

    /// A replica joins the fragment of some items.
    pub(crate) fn batch(&mut self, replica: u16, items: &[u64]) -> Result<Told, Refusal>
        ensures { Happens self.old self.new (Batch replica items.now) result }
    {
        let config = self.primary.config();
        let log = self.primary.log();
        among::batch(self.alloc, config, &mut self.replicas, replica, log, items)
    }

    /// A replica is merged into another one, or into itself, which leaves it as it is and takes no memory.
    pub(crate) fn merge(&mut self, to: u16, from: u16) -> Result<Told, Refusal>
        ensures { Happens self.old self.new (Merge to from) result }
    {
        among::merge(&mut self.replicas, to, from)
    }

    /// A replica joins what another has applied since a time.
    pub(crate) fn delta(&mut self, to: u16, from: u16, base: Time) -> Result<Told, Refusal>
        ensures { Happens self.old self.new (Delta to from base) result }
    {
        among::delta(self.alloc, &mut self.replicas, to, from, base)
    }

    /// The primary, which is replica 0, or a replica is asked at a time.
    pub(crate) fn ask(&self, replica: u16, time: Time, query: &Query) -> Result<Told, Refusal>
        ensures { Happens self.now self.now (Ask replica time query.now) result }
    {
        if replica == 0 {
            return ask_primary(&self.primary, time, query);
        }
        match numbered(&self.replicas, u64::from(replica)) {
            Some(state) => hk_acting::ask(self.alloc, state, time, query),
            None => Ok(Told::Refused(Refusal::NoSuch)),
        }
    }

    /// A replica returns its range of readable times.
    pub(crate) fn front_of(&self, replica: u16) -> Told
        ensures outcome { told_seen result ≡ (step_outcome self.now (FrontOf replica)).0 }
        ensures heard { is_memory_outcome (told_seen result) ≡ false }
    {
        match numbered(&self.replicas, u64::from(replica)) {
            Some(state) => hk_acting::front(state),
            None => Told::Refused(Refusal::NoSuch),
        }
    }
}
