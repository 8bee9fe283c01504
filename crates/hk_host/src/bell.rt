//! How far a node is known to be readable, and what wakes those who wait until it is further.

ghost use mathlib.Core.List.{IsPrefix};

use hk_node::{NodeName, ReaderSeat};
use hk_types::{Refusal, Time};
use mio::Waker;
use std::alloc::{AllocError, Global};
use std::sync::atomic::{AtomicU64, Ordering};

/// What is known to be readable once the node failed: there is nothing to wait for.
const ALL: u64 = u64::MAX;

/// What nobody waits for.
const NOTHING: u64 = u64::MAX;

/// A worker that may wait: the least time that a connection of it waits for, and what wakes it.
#[derive(Drop)]
struct Listener {
    awaited: AtomicU64,
    waker: Waker,
}

/// How far a node is known to be readable, and which of its workers have connections that wait until it is further. Nobody polls: a
/// worker sleeps until a change makes the least time readable that a connection of it waits for. That it is woken in time is shown by
/// tests.
#[derive(Drop)]
pub struct Bell {
    readable: AtomicU64,
    listeners: Vec<Listener>,
}

impl Bell {
    /// Nothing is known to be readable, and no connection waits. The first worker has the first of the wakers, and so on.
    pub fn new(alloc: Global, wakers: Vec<Waker>) -> Result<Bell, AllocError> {
        let mut listeners = Vec::with_capacity(alloc, wakers.len())?;
        for waker in wakers {
            let awaited = AtomicU64::new(NOTHING);
            listeners.push(Listener { awaited, waker })?;
        }
        Ok(Bell {
            readable: AtomicU64::new(0),
            listeners,
        })
    }

    /// Wakes each worker that has a connection which waits for a number up to this one.
    fn ring_up_to(&self, number: u64) {
        if self.readable.fetch_max(number, Ordering::SeqCst) >= number {
            return;
        }
        for listener in self.listeners.iter() {
            if listener.awaited.load(Ordering::SeqCst) <= number {
                // Where the system can't wake it the worker sees the change at its next event.
                let _woken = listener.waker.wake();
            }
        }
    }

    /// Wakes each worker that has a connection which waits for a time up to this one, which is readable. Cost: O(w) where that is
    /// new, w workers.
    pub fn ring(&self, readable: Time) {
        self.ring_up_to(readable.number());
    }

    /// Wakes all, and lets nobody wait any more: the node failed.
    pub fn ring_for_good(&self) {
        self.ring_up_to(ALL);
    }

    /// Looks at the node by a seat, and wakes who waits for a time that is readable there; all where the node failed. Where the seat
    /// can't look for want of memory nobody is woken. Cost: O(s) and that of `ring`, s streams.
    pub fn ring_marks<J: NodeName>(&self, seat: &mut ReaderSeat<J>)
        ensures { IsPrefix seat.old seat.new }
    {
        match seat.front() {
            Ok(front) => self.ring(front.readable),
            Err(Refusal::Damaged) => self.ring_for_good(),
            Err(_no_memory) => {}
        }
    }

    /// The number of the greatest time that is known to be readable, or 2^64 - 1 where the node failed.
    pub fn readable(&self) -> u64 {
        self.readable.load(Ordering::SeqCst)
    }

    /// Notes the least number that a connection of a worker waits for, or that none of it waits. The worker has to look at
    /// `readable` after that, since what became readable before didn't wake it.
    pub fn expect(&self, worker: usize, least: Option<u64>) {
        if let Some(listener) = self.listeners.get(worker) {
            listener
                .awaited
                .store(least.unwrap_or(NOTHING), Ordering::SeqCst);
        }
    }

    /// Wakes a worker.
    pub fn wake(&self, worker: usize) {
        if let Some(listener) = self.listeners.get(worker) {
            // It fails only where the system has no counter for it any more.
            let _woken = listener.waker.wake();
        }
    }
}
