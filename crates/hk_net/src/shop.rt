//! What all threads of a node share.

use crate::arrivals::{Arrival, Inbox};
use crate::doors::{Door, Limits};
use crate::places::Places;
use hk_host::Bell;
use hk_meters::Meters;
use hk_node::NodeName;
use std::sync::Wait;
use std::sync::atomic::{AtomicU64, Ordering};

/// What all threads of a node share that has nothing of the node itself: who works, and what is counted.
#[derive(Drop)]
pub(crate) struct Staff<'d> {
    /// The places of each door's connections.
    pub(crate) places: Vec<Places>,
    /// How many workers there are: first those for short answers, then as many for long ones.
    pub(crate) workers: usize,
    /// What wakes each of them.
    pub(crate) bell: &'d Bell,
    pub(crate) limits: Limits,
    /// Where it is counted what connections do.
    pub(crate) meters: &'d Meters<'d>,
    /// Which workers have a thread, a bit for each.
    pub(crate) running: AtomicU64,
}

/// What all threads of a node share.
#[derive(Drop)]
pub(crate) struct Shop<'d, J: NodeName, N: Wait + Drop> {
    pub(crate) doors: Vec<Door<'d, J, N>>,
    /// What is left for each worker.
    pub(crate) inboxes: Vec<Inbox<Arrival<'d, J>>>,
    pub(crate) staff: Staff<'d>,
}

impl Staff<'_> {
    /// How many workers give short answers.
    pub(crate) fn short_workers(&self) -> usize {
        self.workers / 2
    }

    /// Whether this worker gives long answers.
    pub(crate) fn is_at_long_end(&self, worker: usize) -> bool {
        worker >= self.short_workers()
    }

    /// The bit of a worker.
    fn bit(worker: usize) -> u64 {
        u64::try_from(worker).map_or(
            0,
            |it| 1u64
                .checked_shl(u32::try_from(it).unwrap_or(64))
                .unwrap_or(0),
        )
    }

    /// Notes that a worker has its thread.
    pub(crate) fn note_running(&self, worker: usize) {
        self.running.fetch_or(Self::bit(worker), Ordering::SeqCst);
    }

    /// Whether a worker has its thread.
    fn is_running(&self, worker: usize) -> bool {
        self.running.load(Ordering::SeqCst) & Self::bit(worker) != 0
    }

    /// A worker with a thread for the connection at this place, of so many from this one on.
    fn worker_of(&self, first: usize, count: usize, place: usize) -> Option<usize> {
        for step in 0..count {
            let worker = first.saturating_add(place.saturating_add(step) % count);
            if self.is_running(worker) {
                return Some(worker);
            }
        }
        None
    }

    /// The worker for the short answers of a connection at this place.
    pub(crate) fn short_worker(&self, place: usize) -> Option<usize> {
        let short = self.short_workers();
        if short == 0 {
            return self.worker_of(0, self.workers, place);
        }
        self.worker_of(0, short, place)
    }

    /// The worker for the long answers of a connection at this place.
    pub(crate) fn long_worker(&self, place: usize) -> Option<usize> {
        let short = self.short_workers();
        self.worker_of(short, self.workers.saturating_sub(short), place)
    }

    /// Gives back the slot of a connection of a door.
    pub(crate) fn give_back<R: Wait>(&self, rt: &R, door: usize, place: usize) {
        self.meters.note_ended(door);
        if let Some(places) = self.places.get(door) {
            places.give(rt, place);
        }
    }
}
