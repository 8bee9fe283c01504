//! A script on its way: its world, and the transactions that are being written.

ghost use Rattle.std.specs.Prelude.{◌≤◌};
ghost use Rattle.hk_cli_commands.specs.Scripts as spec;

use crate::command::{Command, Opening, SLOTS};
use crate::flaw::Flaw;
use crate::words::Unread;
use hk_cli_lines::Printed;
use hk_laws::World;
use hk_log::Item;
use hk_model::{Event, Told};
use hk_primary::Txn;
use hk_types::{Key, Refusal, Row, StreamNo, Table, Time};
use std::alloc::{AllocError, Global};

/// What a command returns.
#[derive(Drop)]
pub(crate) enum Reply {
    /// A transaction that reads at a time began in a slot, which is counted from 1.
    Begun { slot: usize, at: Time },
    /// What the world, or a transaction, returned.
    Told(Told),
}

impl Reply {
    /// Its refusal.
    pub(crate) fn refusal(&self) -> Option<Refusal> {
        match self {
            Reply::Told(Told::Refused(refusal)) => Some(*refusal),
            _other => None,
        }
    }
}

impl Printed for Reply {
    ghost text = { λ reply. spec.reply_lines reply };

    fn put_lines(&self, alloc: Global, out: &mut String) -> Result<(), AllocError> {
        match self {
            Reply::Begun { slot, at } => writeln!(out, "begun {slot} at {at}"),
            Reply::Told(outcome) => outcome.put_lines(alloc, out),
        }
    }
}

/// The state of a script.
#[derive(Drop)]
pub(crate) struct Script {
    alloc: Global,
    world: World,
    slots: Vec<Option<Txn>>,
    is_refused: bool,
}

impl Script {
    /// The script behind its first line.
    pub(crate) fn new(alloc: Global, opening: Opening) -> Result<Script, Refusal>
        requires some { 1 ≤ opening.replicas }
        requires few { opening.replicas ≤ 16 }
    {
        let mut slots = Vec::with_capacity(alloc, SLOTS)?;
        for _ in 0..SLOTS {
            slots.push(None)?;
        }
        Ok(Script {
            alloc,
            world: World::new(alloc, opening.config, opening.replicas)?,
            slots,
            is_refused: false,
        })
    }

    /// Whether a command was refused.
    pub(crate) fn is_refused(&self) -> bool {
        self.is_refused
    }

    /// The items that the primary emitted, in their order.
    pub(crate) fn log(&self) -> &[Item] {
        self.world.log()
    }

    /// Does what a command says, unless it names an empty slot.
    pub(crate) fn make(&mut self, command: Command) -> Result<Reply, Unread> {
        match command {
            Command::Begin { slot } => self.begin(slot),
            Command::Put {
                slot,
                table,
                key,
                row,
            } => self.put(slot, table, key, row),
            Command::Remove { slot, table, key } => self.remove(slot, table, key),
            Command::Commit { slot, stream } => self.commit(slot, stream),
            Command::Event(event) => self.step(event),
        }
    }

    /// Something happens in the world.
    fn step(&mut self, event: Event) -> Result<Reply, Unread> {
        let outcome = self.world.step(event);
        Ok(self.told(outcome))
    }

    /// The reply with what was returned, noted where it is a refusal.
    fn told(&mut self, outcome: Told) -> Reply {
        self.is_refused = self.is_refused || matches!(outcome, Told::Refused(_));
        Reply::Told(outcome)
    }

    /// A transaction that reads at the last commit begins, in place of what the slot had.
    fn begin(&mut self, slot: usize) -> Result<Reply, Unread> {
        let at = self.world.last();
        let place = self
            .slots
            .get_mut(slot)
            .ok_or(Unread::Bad(Flaw::EmptySlot))?;
        *place = Some(Txn::at(self.alloc, at));
        Ok(Reply::Begun {
            slot: slot.saturating_add(1),
            at,
        })
    }

    /// The transaction of a slot.
    fn txn(&mut self, slot: usize) -> Result<&mut Txn, Unread> {
        match self.slots.get_mut(slot) {
            Some(Some(txn)) => Ok(txn),
            _ => Err(Unread::Bad(Flaw::EmptySlot)),
        }
    }

    fn put(&mut self, slot: usize, table: Table, key: Key, row: Row) -> Result<Reply, Unread> {
        let outcome = put_told(self.txn(slot)?, table, key, row);
        Ok(self.told(outcome))
    }

    fn remove(&mut self, slot: usize, table: Table, key: Key) -> Result<Reply, Unread> {
        let outcome = remove_told(self.txn(slot)?, table, key);
        Ok(self.told(outcome))
    }

    /// The transaction of a slot commits; the slot is empty after, unless it was refused.
    fn commit(&mut self, slot: usize, stream: StreamNo) -> Result<Reply, Unread> {
        let alloc = self.alloc;
        let event = commit_of(alloc, self.txn(slot)?, stream);
        let outcome = self.commit_told(event);
        if !matches!(outcome, Told::Refused(_)) {
            self.clear(slot);
        }
        Ok(self.told(outcome))
    }

    /// What a commit returns, where there was memory for it.
    fn commit_told(&mut self, event: Result<Event, AllocError>) -> Told {
        match event {
            Ok(event) => self.world.step(event),
            Err(_memory) => Told::Refused(Refusal::Memory),
        }
    }

    /// Empties a slot.
    fn clear(&mut self, slot: usize) {
        if let Some(place) = self.slots.get_mut(slot) {
            *place = None;
        }
    }
}

/// What a transaction returns that puts a row.
fn put_told(txn: &mut Txn, table: Table, key: Key, row: Row) -> Told {
    match txn.put(table, key, row) {
        Ok(()) => Told::Done,
        Err((_row, why)) => Told::Refused(why),
    }
}

/// What a transaction returns that removes a row.
fn remove_told(txn: &mut Txn, table: Table, key: Key) -> Told {
    match txn.remove(table, key) {
        Ok(()) => Told::Done,
        Err(why) => Told::Refused(why),
    }
}

/// The commit of what a transaction read and wrote.
fn commit_of(alloc: Global, txn: &Txn, stream: StreamNo) -> Result<Event, AllocError> {
    let mut writes = Vec::new(alloc);
    for write in txn.writes() {
        writes.push(write.copy(alloc)?)?;
    }
    Ok(Event::Commit {
        stream,
        read_at: txn.read_at(),
        writes,
    })
}
