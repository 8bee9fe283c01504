//! What is left for a worker by others.

use crate::client::Client;
use crate::sockets::Accepted;
use hk_node::NodeName;
use std::alloc::Global;
use std::mem;
use std::sync::{Mutex, Wait};

/// What is left for a worker.
#[derive(Drop)]
pub(crate) enum Arrival<'d, J: NodeName> {
    /// A connection that was accepted at a door, with its place.
    Opened {
        accepted: Accepted,
        door: usize,
        place: usize,
    },
    /// A client of another worker that asks for something long. What it has seen comes with it: it is shown no less here.
    Moved(Box<Client<'d, J>, Global>),
}

/// What is left for a worker.
#[derive(Drop)]
pub(crate) struct Inbox<A: Drop> {
    arrivals: Mutex<Vec<A>>,
}

impl<A: Drop> Inbox<A> {
    pub(crate) fn new(alloc: Global) -> Inbox<A> {
        Inbox {
            arrivals: Mutex::new(Vec::new(alloc)),
        }
    }

    /// Leaves something for the worker, who has to be woken then. Where memory runs out it comes back.
    pub(crate) fn leave<R: Wait>(&self, rt: &R, arrival: A) -> Result<(), A> {
        let mut arrivals = self.arrivals.lock(rt);
        match arrivals.push(arrival) {
            Ok(_kept) => Ok(()),
            Err(refused) => Err(refused.value),
        }
    }

    /// All that was left.
    pub(crate) fn take_all<R: Wait>(&self, rt: &R, alloc: Global) -> Vec<A> {
        let mut arrivals = self.arrivals.lock(rt);
        mem::replace(&mut *arrivals, Vec::new(alloc))
    }
}
