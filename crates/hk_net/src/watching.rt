//! Who is notified of what happens to connections.

use crossbeam_channel::{Receiver, RecvTimeoutError};
use hk_host::LinkEvent;
use std::rt::Clock;
use std::sync::Wait;
use std::time::Duration;

/// How many seconds pass before a watcher that owes something is asked again.
const OWING_PAUSE: u64 = 1;

/// Receives what happens to connections, one event after the other.
pub trait Watch {
    /// Receives an event of the connection at a place; the first place is 0. A place is given again once its connection has ended.
    fn told(&mut self, place: usize, event: LinkEvent);

    /// Whether it has still to report events that it received.
    fn is_owing(&self) -> bool;

    /// Reports these, where that is due. Called a second after an event behind which it owes something, if none came.
    fn tell_owed(&mut self);
}

/// Waits a second for the next event of connections. Returns false where no teller is left.
fn hand_owing<R: Wait + Clock, T: Watch>(
    rt: &R,
    events: &Receiver<(usize, LinkEvent)>,
    watch: &mut T,
) -> bool {
    match events.recv_timeout(rt, Duration::from_secs(OWING_PAUSE)) {
        Ok((place, event)) => watch.told(place, event),
        Err(RecvTimeoutError::Timeout) => watch.tell_owed(),
        Err(RecvTimeoutError::Disconnected) => return false,
    }
    true
}

/// Waits for the next event of connections. Returns false where no teller is left.
fn hand_next<R: Wait, T: Watch>(
    rt: &R,
    events: &Receiver<(usize, LinkEvent)>,
    watch: &mut T,
) -> bool {
    match events.recv(rt) {
        Ok((place, event)) => {
            watch.told(place, event);
            true
        }
        Err(_all_ended) => false,
    }
}

/// Passes on what happens to connections, until no teller is left.
pub(crate) fn hand_on<R: Wait + Clock, T: Watch>(
    rt: &R,
    events: &Receiver<(usize, LinkEvent)>,
    watch: &mut T,
) {
    for _ in rt.forever() {
        let goes_on = if watch.is_owing() {
            hand_owing(rt, events, watch)
        } else {
            hand_next(rt, events, watch)
        };
        if !goes_on {
            return;
        }
    }
}
