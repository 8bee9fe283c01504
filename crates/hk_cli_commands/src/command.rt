//! The commands of a script.

ghost use Rattle.std.specs.Prelude.{◌≤◌, IfOk};

use crate::flaw::Flaw;
use crate::words::{Unread, Words};
use hk_cli_reasons::RequestContext;
use hk_model::{Event, Query};
use hk_types::{Config, Key, Row, StreamNo, Table, Time};
use std::alloc::Global;

/// The number of slots for transactions that are being written.
pub(crate) const SLOTS: usize = 16;

/// The most items of a batch.
const MOST_ITEMS: usize = 64;

/// The first line of a script: the log, and how many replicas there are.
#[derive(Clone, Copy)]
pub(crate) struct Opening {
    pub(crate) config: Config,
    pub(crate) replicas: u16,
}

/// A command; slots are counted from 0.
#[derive(Drop)]
pub(crate) enum Command {
    /// A transaction begins in a slot.
    Begin {
        slot: usize,
    },
    /// The transaction of a slot puts a row.
    Put {
        slot: usize,
        table: Table,
        key: Key,
        row: Row,
    },
    /// The transaction of a slot removes a row.
    Remove {
        slot: usize,
        table: Table,
        key: Key,
    },
    /// The transaction of a slot commits on a stream.
    Commit {
        slot: usize,
        stream: StreamNo,
    },
    /// Something happens in the world.
    Event(Event),
}

/// The first line of a script.
pub(crate) fn opening_of(line: &str) -> Result<Opening, Unread>
    ensures { IfOk result (λ opening. (1 ≤ opening.replicas) × (opening.replicas ≤ 16)) }
{
    let mut words = Words::new(line);
    if words.word()? != "world" {
        return Err(Unread::Bad(Flaw::NoWorld));
    }
    let config = config(&mut words)?;
    let replicas = words.within(1, 16)?;
    words.end()?;
    Ok(Opening {
        config,
        replicas: replicas as u16,
    })
}

/// The log, and how many streams it has.
fn config(words: &mut Words<'_>) -> Result<Config, Unread> {
    let log = words.number()?;
    let streams = words.within(1, 64)?;
    let config = Config::new(log, streams as u16);
    config.ok().ok_or(Unread::Bad(Flaw::NoWorld))
}

/// The time that a command asks for.
pub(crate) fn asked_of(command: &Command) -> RequestContext {
    match command {
        Command::Event(Event::Ask { t, .. }) => RequestContext::At(*t),
        Command::Event(Event::Prune { horizon, .. }) => RequestContext::At(*horizon),
        Command::Event(Event::Delta { base, .. }) => RequestContext::At(*base),
        _other => RequestContext::Nothing,
    }
}

/// The command of a line.
pub(crate) fn command_of(alloc: Global, line: &str) -> Result<Command, Unread> {
    let mut words = Words::new(line);
    let name = words.word()?;
    let command = command_named(alloc, name, &mut words)?;
    words.end()?;
    Ok(command)
}

/// The command of this name, with the words behind it. (Here and below each has a function of its own, since a proof of several
/// together takes minutes.)
fn command_named(alloc: Global, name: &str, words: &mut Words<'_>) -> Result<Command, Unread> {
    match name {
        "begin" => begin(words),
        "put" => put(alloc, words),
        "remove" => remove(words),
        "commit" => commit(words),
        name => Ok(Command::Event(event(alloc, name, words)?)),
    }
}

fn slot(words: &mut Words<'_>) -> Result<usize, Unread> {
    let number = words.within(1, SLOTS as u64)?;
    Ok(number as usize - 1)
}

fn begin(words: &mut Words<'_>) -> Result<Command, Unread> {
    Ok(Command::Begin { slot: slot(words)? })
}

fn remove(words: &mut Words<'_>) -> Result<Command, Unread> {
    Ok(Command::Remove {
        slot: slot(words)?,
        table: words.table()?,
        key: words.key()?,
    })
}

fn commit(words: &mut Words<'_>) -> Result<Command, Unread> {
    Ok(Command::Commit {
        slot: slot(words)?,
        stream: words.stream()?,
    })
}

fn put(alloc: Global, words: &mut Words<'_>) -> Result<Command, Unread> {
    Ok(Command::Put {
        slot: slot(words)?,
        table: words.table()?,
        key: words.key()?,
        row: words.row(alloc)?,
    })
}

fn mark(words: &mut Words<'_>) -> Result<Event, Unread> {
    Ok(Event::MarkOf {
        stream: words.stream()?,
    })
}

fn retire(words: &mut Words<'_>) -> Result<Event, Unread> {
    Ok(Event::Retire {
        stream: words.stream()?,
    })
}

fn absorb(words: &mut Words<'_>) -> Result<Event, Unread> {
    Ok(Event::Absorb {
        replica: words.small()?,
        item: words.number()?,
    })
}

fn batch(alloc: Global, words: &mut Words<'_>) -> Result<Event, Unread> {
    Ok(Event::Batch {
        replica: words.small()?,
        items: items(alloc, words)?,
    })
}

fn prune(words: &mut Words<'_>) -> Result<Event, Unread> {
    Ok(Event::Prune {
        replica: words.small()?,
        horizon: words.time()?,
    })
}

fn merge(words: &mut Words<'_>) -> Result<Event, Unread> {
    Ok(Event::Merge {
        to: words.small()?,
        from: words.small()?,
    })
}

fn delta(words: &mut Words<'_>) -> Result<Event, Unread> {
    Ok(Event::Delta {
        to: words.small()?,
        from: words.small()?,
        base: words.time()?,
    })
}

fn ask(words: &mut Words<'_>) -> Result<Event, Unread> {
    Ok(Event::Ask {
        replica: words.small()?,
        t: words.time()?,
        query: query(words)?,
    })
}

fn front(words: &mut Words<'_>) -> Result<Event, Unread> {
    Ok(Event::FrontOf {
        replica: words.small()?,
    })
}

/// What happens in the world by this name, with the words behind it.
fn event(alloc: Global, name: &str, words: &mut Words<'_>) -> Result<Event, Unread> {
    match name {
        "mark" => mark(words),
        "retire" => retire(words),
        "absorb" => absorb(words),
        "batch" => batch(alloc, words),
        "prune" => prune(words),
        "merge" => merge(words),
        "delta" => delta(words),
        "ask" => ask(words),
        "front" => front(words),
        _other => Err(Unread::Bad(Flaw::NoCommand)),
    }
}

/// The items of a batch: 1 to 64 numbers, up to the end of the line.
fn items(alloc: Global, words: &mut Words<'_>) -> Result<Vec<u64>, Unread> {
    let mut items = Vec::new(alloc);
    for _ in 0..MOST_ITEMS {
        items.push(words.number()?).map_err(|_full| Unread::Memory)?;
        if !words.has_more() {
            return Ok(items);
        }
    }
    Err(Unread::Bad(Flaw::TooMany))
}

/// The query of the words that are left.
pub(crate) fn query(words: &mut Words<'_>) -> Result<Query, Unread> {
    let name = words.word()?;
    query_named(name, words)
}

/// The query of this name, with the words behind it.
pub(crate) fn query_named(name: &str, words: &mut Words<'_>) -> Result<Query, Unread> {
    match name {
        "get" => get(words),
        "range" => range(words),
        "tag" => by_tag(words),
        "count" => count(words),
        _other => Err(words.no_query()),
    }
}

fn get(words: &mut Words<'_>) -> Result<Query, Unread> {
    Ok(Query::Get {
        table: words.table()?,
        key: words.key()?,
    })
}

fn range(words: &mut Words<'_>) -> Result<Query, Unread> {
    Ok(Query::Range {
        table: words.table()?,
        low: words.key()?,
        high: words.key()?,
    })
}

fn by_tag(words: &mut Words<'_>) -> Result<Query, Unread> {
    Ok(Query::ByTag {
        table: words.table()?,
        tag: words.tag()?,
    })
}

fn count(words: &mut Words<'_>) -> Result<Query, Unread> {
    Ok(Query::Count {
        table: words.table()?,
    })
}
