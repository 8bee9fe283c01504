//! The lines that a person asks a node with.

use crate::command::{query, query_named};
use crate::flaw::Flaw;
use crate::words::{Unread, Words};
use hk_model::Query;
use hk_types::Time;

/// What a line asks.
#[derive(Clone, Copy)]
pub enum Asking {
    /// The line is empty.
    Nothing,
    /// A query, at the resolved time where the caller names no time.
    Query { time: Option<Time>, query: Query },
    /// The range of readable times.
    Front,
    /// How far each stream is.
    Status,
    /// What the lines are.
    Help,
    /// To end.
    Quit,
}

impl Asking {
    /// The forms of the lines.
    pub const HELP: &'static str =
        "get TABLE KEY | range TABLE LOW HIGH | tag TABLE TAG | count TABLE: at the resolved time
QUERY --at TIME, or at TIME QUERY: the same at a time
front: the range of readable times
status: how far each stream is
help: this
quit: end
";
}

/// What follows `at`.
fn at_time(words: &mut Words<'_>) -> Result<Asking, Unread> {
    Ok(Asking::Query {
        time: Some(words.time()?),
        query: query(words)?,
    })
}

/// The time behind a query, where one is given.
fn time_behind(words: &mut Words<'_>) -> Result<Option<Time>, Unread> {
    match words.next() {
        None => Ok(None),
        Some("--at") => Ok(Some(words.time()?)),
        Some(_other) => Err(Unread::Bad(Flaw::TooMany)),
    }
}

/// A query of this name at the time behind it, or at the resolved time.
fn at_mark(name: &str, words: &mut Words<'_>) -> Result<Asking, Unread> {
    let query = query_named(name, words)?;
    let time = time_behind(words)?;
    Ok(Asking::Query { time, query })
}

/// What the words ask that begin with this one.
fn named(name: &str, words: &mut Words<'_>) -> Result<Asking, Unread> {
    match name {
        "at" => at_time(words),
        "front" => Ok(Asking::Front),
        "status" => Ok(Asking::Status),
        "help" => Ok(Asking::Help),
        "quit" | "exit" => Ok(Asking::Quit),
        name => at_mark(name, words),
    }
}

/// What a line asks, where it has one of the forms. Its words are parted by one space or more. Cost: O(n), n bytes of the
/// line.
pub fn asking_of(line: &str) -> Option<Asking> {
    let mut words = Words::loose(line);
    let Some(name) = words.next() else {
        return Some(Asking::Nothing);
    };
    let asking = named(name, &mut words).ok()?;
    words.end().ok()?;
    Some(asking)
}
