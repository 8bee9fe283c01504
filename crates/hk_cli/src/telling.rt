//! The lines on nodes that are followed: one each time that something changes with one of these.

use crate::head::{Grade, Heads, LineLog};
use crate::starting::{HERE, explain};
use hk_cli_calls::NodePlace;
use hk_cli_input::{LinkFault, Stop};
use hk_types::{Refusal, Time, VersionKey};
use log::log;
use std::alloc::{AllocError, Global};
use std::io::Write;
use std::net::SocketAddr;
use std::rt::Clock;

/// How it stands with a node that is followed.
#[derive(Clone, Copy, PartialEq, Eq)]
pub(crate) enum Standing {
    /// It wasn't asked yet.
    Unknown,
    /// It gives what it has.
    Up,
    /// It can't be asked.
    Away,
    /// It is of another log, or of another history of this one.
    Other,
    /// It has a full snapshot alone, which would end times that stay here.
    KeptOut,
    /// What it gives is refused.
    Refused,
}

/// What a node at a place is called in lines.
pub(crate) fn name_of(alloc: Global, place: NodePlace<'_>) -> Result<String, AllocError> {
    match place {
        NodePlace::Port(port) => format!(in alloc; "127.0.0.1:{port}"),
        NodePlace::Address(address) => String::from_str(alloc, address),
        NodePlace::Path(path) => format!(in alloc; "unix:{path}"),
    }
}

/// Adds in words why a node that is followed can't be asked any more. Where it refused something the words have no request: who follows
/// made none by hand.
pub(crate) fn put_stop(alloc: Global, stop: Stop, words: &mut Vec<u8>) {
    let line = match stop {
        Stop::RefusedAt(why, _origin) => {
            return explain(alloc, Stop::RefusedAt(why, HERE), words);
        }
        Stop::Link(LinkFault::Cut, _place) => {
            String::from_str(
                alloc,
                "refused 1: the connection was cut; see whether the node still runs",
            )
        }
        Stop::Link(LinkFault::Late(seconds), _place) => {
            format!(in alloc;
                "refused 91: no reply came for {seconds} s; see whether it is stopped, or its connections are all taken"
            )
        }
        Stop::Link(LinkFault::NoNode(_peer, why), _place) => {
            let number = why.number();
            format!(in alloc; "refused {number}: what answers there is no node")
        }
        other => return explain(alloc, other, words),
    };
    // Where there is no memory for the words, the line has none.
    if let Ok(line) = line {
        let _added = words.extend_from_slice(line.as_bytes());
    }
}

/// Prints how it stands with a node that is followed, each time that it changes.
#[derive(Drop)]
pub(crate) struct Told<'o, C: Clock, V: Write> {
    alloc: Global,
    log: LineLog<'o, C, V>,
    name: String,
    standing: Standing,
}

impl<'o, C: Clock, V: Write> Told<'o, C, V> {
    /// It stands so with the node at this place; lines go to a writer. Where memory runs out its lines have no name.
    pub(crate) fn new(
        alloc: Global,
        heads: &Heads<'o, C>,
        place: NodePlace<'_>,
        words: V,
        standing: Standing,
    ) -> Told<'o, C, V> {
        Told {
            alloc,
            log: heads.log_to(words),
            name: name_of(alloc, place).unwrap_or(String::new(alloc)),
            standing,
        }
    }

    /// What logs its lines again.
    pub(crate) fn into_log(self) -> LineLog<'o, C, V> {
        self.log
    }

    /// Notes how it stands, and prints that in words where it is new.
    fn note(&mut self, standing: Standing, grade: Grade, words: &str) {
        if self.standing == standing {
            return;
        }
        self.standing = standing;
        let nobody: Option<SocketAddr> = None;
        let (name, words) = (self.name.as_str(), words.trim_end());
        log!(self.log; grade.level(), peer = nobody, event = "follow", source = name; "follow {name}: {words}");
    }

    /// The node gives what it has.
    fn up(&mut self) {
        self.note(Standing::Up, Grade::Info, "up");
    }

    /// The node answers: where it was away it is up.
    pub(crate) fn answers(&mut self) {
        if matches!(self.standing, Standing::Unknown | Standing::Away) {
            self.up();
        }
    }

    /// The node gave something: where it was refused before it is up.
    pub(crate) fn gives(&mut self) {
        if !matches!(self.standing, Standing::Unknown | Standing::Away) {
            self.up();
        }
    }

    /// How it stands with it.
    pub(crate) fn standing(&self) -> Standing {
        self.standing
    }

    /// The node can't be asked, for this in words.
    pub(crate) fn away(&mut self, why: &[u8]) {
        if self.standing == Standing::Away {
            return;
        }
        let why = str::from_utf8(why).unwrap_or("");
        let Ok(words) = format!(in self.alloc; "away: {why}") else {
            return;
        };
        self.note(Standing::Away, Grade::Warn, &words);
    }

    /// What the node gives isn't taken, for this in words behind those.
    fn not_taken(&mut self, standing: Standing, what: &str, why: Refusal) {
        let mut reason = Vec::new(self.alloc);
        explain(self.alloc, Stop::RefusedAt(why, HERE), &mut reason);
        let reason = str::from_utf8(&reason).unwrap_or("");
        let Ok(words) = format!(in self.alloc; "{what}{reason}") else {
            return;
        };
        self.note(standing, Grade::Error, &words);
    }

    /// The node is of another log, or has another number of streams.
    pub(crate) fn other_log(&mut self, why: Refusal) {
        self.not_taken(Standing::Other, "another log: ", why);
    }

    /// The node is of another history of this log, which shows at this version, where it is known.
    pub(crate) fn other_history(&mut self, version: Option<VersionKey>) {
        let Some(version) = version else {
            return self.other_log(Refusal::Conflict);
        };
        let (table, key, born) = (version.table.number(), version.key, version.born);
        let Ok(words) = format!(in self.alloc;
            "another log: refused 23: table {table} key {key} at time {born} is another there; nothing of it is taken"
        ) else {
            return;
        };
        self.note(Standing::Other, Grade::Error, &words);
    }

    /// The node has a full snapshot alone, from this time on, where older ones stay here.
    pub(crate) fn kept_out(&mut self, own: Time, theirs: Time) {
        let Ok(words) = format!(in self.alloc;
            "kept out: it has times from {theirs} on alone, and those from {own} on are kept here"
        ) else {
            return;
        };
        self.note(Standing::KeptOut, Grade::Warn, &words);
    }

    /// What the node gives is refused.
    pub(crate) fn refused(&mut self, why: Refusal) {
        self.not_taken(Standing::Refused, "", why);
    }
}
