//! One event of a world.

ghost use Rattle.hk_model.specs.World.Events.{event_seen, told_seen};
ghost use Rattle.hk_laws.specs.Calls.{Happens, Steps, StepsOf};

use crate::world::World;
use hk_model::{Event, Told};
use hk_types::Refusal;

impl World {
    fn act(&mut self, event: Event) -> Result<Told, Refusal>
        ensures { Happens self.old self.new (event_seen event) result }
    {
        match event {
            Event::Commit {
                stream,
                read_at,
                writes,
            } => self.commit(stream, read_at, writes),
            Event::MarkOf { stream } => self.mark_of(stream),
            Event::Retire { stream } => self.retire(stream),
            Event::Absorb { replica, item } => self.absorb(replica, item),
            Event::Batch { replica, items } => self.batch(replica, &items),
            Event::Prune { replica, horizon } => self.prune(replica, horizon),
            Event::Merge { to, from } => self.merge(to, from),
            Event::Delta { to, from, base } => self.delta(to, from, base),
            Event::Ask { replica, t, query } => self.ask(replica, t, &query),
            Event::FrontOf { replica } => Ok(self.front_of(replica)),
        }
    }

    fn tell(&mut self, event: Event) -> Told
        ensures { Steps self.old self.new (event_seen event) (told_seen result) }
    {
        match self.act(event) {
            Ok(outcome) => outcome,
            Err(why) => Told::Refused(why),
        }
    }

    /// Runs an event, and returns its outcome.
    ///
    /// A replica or an item that is not there is refused `NoSuch`, before any other test. Else the refusals and their
    /// reasons are those of the call that the event represents: of the transaction's `put`, `remove` and `commit` for
    /// a commit, `Primary::mark` for a mark, `ReplicaState::absorb` and `prune`, `fragment_of` and `join` for a
    /// batch, `merge`, `delta_since` and `join` for a delta, and `ask`. `Memory` comes where a growth was refused,
    /// and last: where the replicas represent items, only where nothing else is refused, or a transaction for what it
    /// writes. It never comes for an item that is repeated, a prune to at most the replica's oldest readable time, a
    /// merge of a replica with itself, a front, a count or a row that is not there. A refusal changes nothing. A merge
    /// of a replica with itself changes nothing. Cost: that of those calls; the items of a batch are copied, and no
    /// replica is. Where a commit is refused `NoStream` or `NotYet`: O(w²), w writes, up to 1,024.
    pub fn step(&mut self, event: Event) -> Told
        ensures gives { Steps self.old self.new (event_seen event) (told_seen result) }
        ensures represents { StepsOf self.old self.new (event_seen event) (told_seen result) }
    {
        self.tell(event)
    }
}
