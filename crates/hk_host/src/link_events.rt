//! What happens to the connections of a long-running node, as events on their way to a watcher.

use crate::bell::Bell;
use crate::subject::Subject;
use crossbeam_channel::Sender;
use hk_session_parts::Ended;
use std::alloc::AllocError;
use std::net::SocketAddr;
use std::sync::Wait;
use std::sync::atomic::{AtomicBool, Ordering};

/// How many events may wait for the watcher; a connection whose event finds no room waits with it.
pub const EVENTS: usize = 1_024;

/// What a peer speaks that isn't the messages of a node.
#[derive(Clone, Copy, Debug, PartialEq, Eq)]
pub enum Speech {
    /// A request of HTTP.
    Http,
    /// The begin of a connection of TLS.
    Tls,
}

/// What happens to the connections of a long-running node.
#[derive(Clone, Copy, Debug, PartialEq, Eq)]
pub enum LinkEvent {
    /// A connection was opened at the door of this number, from this address where its socket has one.
    Opened {
        door: usize,
        address: Option<SocketAddr>,
    },
    /// A change that came over a connection was refused with this number.
    Refused {
        number: u8,
        /// What the change begins with, where it gives items.
        about: Option<Subject>,
    },
    /// A change that came over a connection took effect; the node's list of operations that ends with it has so many.
    Changed(u64),
    /// A connection ended so, and its slot is free for the next one.
    Ended {
        ended: Ended,
        /// What its first bytes are of, where they are of no message.
        speech: Option<Speech>,
    },
    /// A connection could not be accepted, as where no descriptor is left; it is tried again.
    NotAccepted,
    /// A thread could not be started, so that the node has one worker less, or accepts at one port less.
    NotStarted,
}

/// Reports the events of connections, of one at a time.
#[derive(Drop)]
pub struct Teller<'a> {
    place: usize,
    /// Whether changes that took effect are reported too.
    tells_changes: bool,
    events: Sender<(usize, LinkEvent)>,
    /// Who waits until a time is readable.
    bell: &'a Bell,
    /// Whether a change was asked for since that was asked last.
    has_changes: AtomicBool,
}

impl<'a> Teller<'a> {
    /// A further teller on the way of these events, at the first place.
    pub fn new(
        events: &Sender<(usize, LinkEvent)>,
        bell: &'a Bell,
    ) -> Result<Teller<'a>, AllocError> {
        let events = events.clone()?;
        Ok(Teller {
            place: 0,
            tells_changes: false,
            events,
            bell,
            has_changes: AtomicBool::new(false),
        })
    }

    /// Turns to the connection at a place, of which changes that take effect are reported too where that is wanted.
    pub fn turn_to(&mut self, place: usize, tells_changes: bool) {
        self.place = place;
        self.tells_changes = tells_changes;
    }

    /// Notes that a change was asked for, whatever came of it: it may have published one that waited.
    pub(crate) fn note_change(&self) {
        self.has_changes.store(true, Ordering::SeqCst);
    }

    /// Whether a change was asked for since this was asked last. Then a time may be readable for which somebody waits.
    pub fn take_change(&self) -> bool {
        self.has_changes.swap(false, Ordering::SeqCst)
    }

    /// What wakes those who wait until a time is readable.
    pub fn bell(&self) -> &Bell {
        self.bell
    }

    /// Reports an event. It waits where many are not received yet.
    pub fn tell<R: Wait>(&self, rt: &R, event: LinkEvent) {
        // Where nobody receives events any more the event is dropped.
        let _sent = self.events.send(rt, (self.place, event));
    }

    /// Reports that a change was refused with this number, and what it begins with.
    pub(crate) fn tell_refused<R: Wait>(&self, rt: &R, number: u8, about: Option<Subject>) {
        self.note_change();
        self.tell(rt, LinkEvent::Refused { number, about });
    }

    /// Reports that a change took effect, where that is wanted.
    pub fn tell_changed<R: Wait>(&self, rt: &R, ops: u64) {
        self.note_change();
        if self.tells_changes {
            self.tell(rt, LinkEvent::Changed(ops));
        }
    }
}
