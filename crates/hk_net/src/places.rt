//! How many connections of a door are served at once.

use std::alloc::Global;
use std::sync::{Condvar, Mutex, Wait};

/// The places that are free: those from `next` on up to the last, and those that were given back.
#[derive(Drop)]
struct Free {
    next: usize,
    back: Vec<usize>,
}

/// The places of a door's connections. Each has a number of its own among the places of all doors.
#[derive(Drop)]
pub(crate) struct Places {
    end: usize,
    free: Mutex<Free>,
    given_back: Condvar,
}

impl Places {
    /// So many places, from this number on.
    pub(crate) fn new(alloc: Global, first: usize, count: usize) -> Places {
        let free = Free {
            next: first,
            back: Vec::new(alloc),
        };
        Places {
            end: first.saturating_add(count),
            free: Mutex::new(free),
            given_back: Condvar::new(),
        }
    }

    /// A place that is free now, if one is.
    fn free_one(&self, free: &mut Free) -> Option<usize> {
        if let Some(place) = free.back.pop() {
            return Some(place);
        }
        if free.next >= self.end {
            return None;
        }
        let place = free.next;
        free.next = place.saturating_add(1);
        Some(place)
    }

    /// A free place, once there is one.
    pub(crate) fn take<R: Wait>(&self, rt: &R) -> usize {
        let mut free = self.free.lock(rt);
        for _ in rt.forever() {
            if let Some(place) = self.free_one(&mut free) {
                return place;
            }
            free = self.given_back.wait(rt, free);
        }
        unreachable!()
    }

    /// Gives a place back. Where memory runs out for that the door has one place less.
    pub(crate) fn give<R: Wait>(&self, rt: &R, place: usize) {
        let mut free = self.free.lock(rt);
        let _kept = free.back.push(place);
        drop(free);
        self.given_back.notify_one();
    }
}
