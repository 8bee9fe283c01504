//! Which connections of a worker wait for a time.

use std::alloc::{AllocError, Global};
use std::collections::BTreeSet;

/// What a connection waits for: that a number is readable, or that a moment has come, in milliseconds of the worker's clock.
#[derive(Clone, Copy)]
pub(crate) struct Awaited {
    pub(crate) number: u64,
    pub(crate) until: u64,
}

/// Which connections of a worker wait, in order of the number that each waits for, and in order of the moment up to which it waits.
#[derive(Drop)]
pub(crate) struct Waiting {
    by_number: BTreeSet<(u64, usize), Global>,
    by_moment: BTreeSet<(u64, usize), Global>,
}

impl Waiting {
    pub(crate) fn new(alloc: Global) -> Waiting {
        Waiting {
            by_number: BTreeSet::new(alloc),
            by_moment: BTreeSet::new(alloc),
        }
    }

    /// The connection at this place waits. Where memory runs out it doesn't.
    pub(crate) fn add(&mut self, place: usize, awaited: Awaited) -> Result<(), AllocError> {
        if self.by_number.insert((awaited.number, place)).is_err() {
            return Err(AllocError);
        }
        if self.by_moment.insert((awaited.until, place)).is_err() {
            self.by_number.remove(&(awaited.number, place));
            return Err(AllocError);
        }
        Ok(())
    }

    /// The connection at this place waits no longer.
    pub(crate) fn remove(&mut self, place: usize, awaited: Awaited) {
        self.by_number.remove(&(awaited.number, place));
        self.by_moment.remove(&(awaited.until, place));
    }

    /// The least number that is waited for.
    pub(crate) fn least_number(&self) -> Option<u64> {
        self.by_number.first().map(|it| it.0)
    }

    /// The next moment up to which one waits.
    pub(crate) fn next_moment(&self) -> Option<u64> {
        self.by_moment.first().map(|it| it.0)
    }

    /// Whether the number that a connection waits for is readable, or its moment has come.
    pub(crate) fn is_due(&self, readable: u64, now: u64) -> bool {
        self.least_number().is_some_and(|it| it <= readable)
            || self.next_moment().is_some_and(|it| it <= now)
    }

    /// Takes a connection out of one of the lists whose number is readable, or whose moment has come. It has to be removed.
    pub(crate) fn take_due(&mut self, readable: u64, now: u64) -> Option<usize> {
        if self.least_number().is_some_and(|it| it <= readable) {
            return self.by_number.pop_first().map(|it| it.1);
        }
        if self.next_moment().is_some_and(|it| it <= now) {
            return self.by_moment.pop_first().map(|it| it.1);
        }
        None
    }
}
