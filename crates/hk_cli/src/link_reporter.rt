//! What a long-running node reports of its connections.

use crate::event_words::{ended_words, known_words, more_words, refused_words, speech_word};
use crate::failures::Failures;
use crate::head::{Heads, LineLog};
use hk_budgets::{LineKind, LineLimit};
use hk_cli_calls::Level;
use hk_cli_reasons::Place;
use hk_host::{LinkEvent, Speech, Subject};
use hk_net::Watch;
use hk_session_parts::Ended;
use log::kv::display;
use log::{error, info, warn};
use std::alloc::Global;
use std::collections::HashMap;
use std::io::Write;
use std::net::SocketAddr;
use std::rt::Clock;

/// The door of what is of no connection.
const NO_DOOR: usize = usize::MAX;

/// The peer of a line that is of none.
const NOBODY: Option<SocketAddr> = None;

/// A connection's number, its door, and the address of its peer, where it has one.
#[derive(Clone, Copy)]
struct Peer {
    link: u64,
    door: usize,
    address: Option<SocketAddr>,
}

/// Prints what happens to the connections of a node, at most 10 lines of one kind and one door a second, and of the others how many they
/// were. Connections are counted from 1 as they open.
#[derive(Drop)]
pub(crate) struct LinkReporter<'o, V: Write, C: Clock> {
    alloc: Global,
    log: LineLog<'o, C, V>,
    clock: &'o C,
    /// The clock, in milliseconds.
    now: u64,
    level: Level,
    failures: Failures,
    limit: LineLimit,
    /// How many connections opened.
    count: u64,
    /// The number of the connection at each place, its door, and the address of its peer, where it has one.
    links: HashMap<usize, Peer>,
}

impl<'o, V: Write, C: Clock> LinkReporter<'o, V, C> {
    pub(crate) fn new(
        alloc: Global,
        heads: &Heads<'o, C>,
        words: V,
        level: Level,
    ) -> LinkReporter<'o, V, C> {
        LinkReporter {
            alloc,
            log: heads.log_to(words),
            clock: heads.clock(),
            now: 0,
            level,
            failures: Failures::none(),
            limit: LineLimit::new(alloc),
            count: 0,
            links: HashMap::new(alloc),
        }
    }

    /// The connection at a place; its number is 0 where memory ran out for it.
    fn peer(&self, place: usize) -> Peer {
        match self.links.get(&place) {
            Some(peer) => *peer,
            None => Peer {
                link: 0,
                door: NO_DOOR,
                address: None,
            },
        }
    }

    /// Counts a connection at a place of a door, from this address.
    fn count(&mut self, place: usize, door: usize, address: Option<SocketAddr>) {
        self.count = self.count.saturating_add(1);
        let link = self.count;
        // Where memory runs out its lines have no number.
        let _kept = self.links.insert(
            place,
            Peer {
                link,
                door,
                address,
            },
        );
    }

    /// Looks at the clock, which never goes back.
    fn look_at_clock(&mut self) {
        if let Ok(time) = self.clock.monotonic() {
            let now = u64::try_from(time.as_millis()).unwrap_or(0);
            self.now = self.now.max(now);
        }
    }

    /// Whether a line of this kind is printed; else it is counted.
    fn admits(&mut self, door: usize, event: &'static str, number: u8) -> bool {
        let kind = LineKind {
            door,
            event,
            number,
        };
        self.limit.admits(kind, self.now)
    }

    /// Prints that a connection opened, unless only faults are wanted.
    fn note_opened(&mut self, place: usize) {
        let Peer {
            link,
            door,
            address,
        } = self.peer(place);
        if self.level != Level::Faults && self.admits(door, "opened", 0) {
            info!(self.log; peer = address, event = "opened", link:% = link; "link {link}: opened");
        }
    }

    /// The same of one that ended well.
    fn note_ended(&mut self, place: usize) {
        let Peer {
            link,
            door,
            address,
        } = self.peer(place);
        if self.level != Level::Faults && self.admits(door, "ended", 0) {
            info!(self.log; peer = address, event = "ended", link:% = link, number = 0u8; "link {link}: ended 0");
        }
    }

    /// Prints that a change took effect, where each is wanted.
    fn note_change(&mut self, place: usize, ops: u64) {
        let Peer {
            link,
            door,
            address,
        } = self.peer(place);
        if self.level == Level::Changes && self.admits(door, "done", 0) {
            info!(self.log; peer = address, event = "done", link:% = link, operations:% = ops; "link {link}: done {ops}");
        }
    }

    /// Prints what failed of the node, in words.
    fn tell_node(&mut self, event: &'static str, what: &str, number: u8) {
        if let Ok(words) = known_words(self.alloc, Place::Whole, what, number) {
            error!(self.log; peer = NOBODY, event, number; "{words}");
        }
    }

    /// Prints that an accept failed, or counts it where one failed less than a second before.
    fn not_accepted(&mut self) {
        if self.failures.is_first(self.now) {
            self.tell_node("not_accepted", "not accepted", 93);
        }
    }

    /// Prints how many more accepts failed, where that is due.
    fn tell_failures(&mut self) {
        let more = self.failures.take_more(self.now);
        if more > 0 {
            error!(self.log; peer = NOBODY, event = "not_accepted", number = 93u8, more:% = more; "not accepted 93 ({more} more)");
        }
    }

    /// Prints how many more lines of a kind there were.
    fn tell_more(&mut self, kind: LineKind, more: u64) {
        let Ok(words) = more_words(self.alloc, kind, more) else {
            return;
        };
        let (of, number) = (kind.event, kind.number);
        let door = u64::try_from(kind.door)
            .ok()
            .filter(|_it| kind.door != NO_DOOR);
        if number == 0 {
            info!(self.log; peer = NOBODY, event = "more", of, number, door, more:% = more; "{words}");
        } else {
            warn!(self.log; peer = NOBODY, event = "more", of, number, door, more:% = more; "{words}");
        }
    }

    /// Prints of each kind how many more lines there were, where that is due.
    fn tell_due(&mut self) {
        self.tell_failures();
        for _ in 0..u64::MAX {
            let Some((kind, more)) = self.limit.take_more(self.now) else {
                return;
            };
            self.tell_more(kind, more);
        }
    }

    /// Prints that a change was refused, and what it begins with.
    fn tell_refused(&mut self, place: usize, number: u8, about: Option<Subject>) {
        let Peer {
            link,
            door,
            address,
        } = self.peer(place);
        if !self.admits(door, "refused", number) {
            return;
        }
        let (table, key, time) = match &about {
            Some(it) => (
                Some(it.table.number()),
                Some(display(it.key)),
                Some(display(it.time)),
            ),
            None => (None, None, None),
        };
        let Ok(words) = refused_words(self.alloc, link, number, about) else {
            return;
        };
        warn!(self.log; peer = address, event = "refused", link:% = link, number, table, key, at = time; "{words}");
    }

    /// Prints how a connection ended that didn't end well.
    fn tell_ended(&mut self, place: usize, number: u8, speech: Option<Speech>) {
        let Peer {
            link,
            door,
            address,
        } = self.peer(place);
        if !self.admits(door, "ended", number) {
            return;
        }
        if let Ok(words) = ended_words(self.alloc, link, number, speech) {
            let speaks = speech.map(speech_word);
            warn!(self.log; peer = address, event = "ended", link:% = link, number, speaks; "{words}");
        }
    }

    /// Prints how the connection at a place ended.
    fn ended(&mut self, place: usize, ended: Ended, speech: Option<Speech>) {
        let number = ended.number();
        if number == 0 {
            self.note_ended(place);
        } else {
            self.tell_ended(place, number, speech);
        }
        self.links.remove(&place);
    }
}

impl<V: Write, C: Clock> Watch for LinkReporter<'_, V, C> {
    fn told(&mut self, place: usize, event: LinkEvent) {
        self.look_at_clock();
        self.tell_due();
        match event {
            LinkEvent::Opened { door, address } => {
                self.count(place, door, address);
                self.note_opened(place);
            }
            LinkEvent::Refused { number, about } => self.tell_refused(place, number, about),
            LinkEvent::Changed(ops) => self.note_change(place, ops),
            LinkEvent::Ended { ended, speech } => self.ended(place, ended, speech),
            LinkEvent::NotAccepted => self.not_accepted(),
            LinkEvent::NotStarted => self.tell_node("not_started", "not started", 90),
        }
    }

    fn is_owing(&self) -> bool {
        self.failures.is_owing() || self.limit.is_owing()
    }

    fn tell_owed(&mut self) {
        self.look_at_clock();
        self.tell_due();
    }
}
