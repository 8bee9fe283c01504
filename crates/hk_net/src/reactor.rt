//! A worker's sockets and connections, and what it does with them beside their turns: nothing of it asks the node.

ghost use Rattle.std.specs.Prelude.{◌≡◌, IfSome};
ghost use mathlib.Core.List.{IsPrefix};
ghost use Rattle.hk_exchange.specs.Exchanges.{start, value_of};

use crate::client::Client;
use crate::link::Link;
use crate::serving::Tools;
use crate::shop::Staff;
use crate::sockets::Accepted;
use crate::turns::Moment;
use crate::worker::Worker;
use hk_doors::Passes;
use hk_host::{LinkEvent, Teller};
use hk_node::{NodeName, ReaderSeat};
use hk_session_parts::Ended;
use mio::{Events, Poll};
use std::alloc::Global;
use std::rt::Clock;
use std::sync::Wait;
use std::thread;
use std::time::Duration;

/// A change that takes so many milliseconds at a worker for long answers is one with which the node's second copy catches up.
const LONG_CHANGE: u64 = 20;

/// How many milliseconds pass before a wait that failed is tried again.
const WAIT_PAUSE: u64 = 100;

/// That a connection ended for want of memory.
pub(crate) fn without_memory() -> LinkEvent {
    LinkEvent::Ended {
        ended: Ended::Memory,
        speech: None,
    }
}

/// The sockets that a worker waits for, who is notified, and its connections.
#[derive(Drop)]
pub(crate) struct Reactor<'w, 'd, J: NodeName, R: Wait + Clock + 'w> {
    pub(crate) rt: &'w R,
    pub(crate) staff: &'w Staff<'d>,
    pub(crate) poll: Poll,
    pub(crate) teller: Teller<'w>,
    pub(crate) worker: Worker<'d, J>,
}

impl<'w, 'd, J: NodeName, R: Wait + Clock + 'w> Reactor<'w, 'd, J, R> {
    /// That of a worker that begins, with room for what the system says.
    pub(crate) fn begin(
        rt: &'w R,
        staff: &'w Staff<'d>,
        tools: Tools<'w>,
    ) -> (Reactor<'w, 'd, J, R>, Events) {
        let Tools {
            alloc,
            number,
            piece,
            poll,
            events,
            teller,
        } = tools;
        // One worker for long answers has the second copy take what the node took before it listened.
        let behind = if number == staff.short_workers() {
            Some(0)
        } else {
            None
        };
        let worker = Worker::new(alloc, number, piece, behind);
        let reactor = Reactor {
            rt,
            staff,
            poll,
            teller,
            worker,
        };
        (reactor, events)
    }

    /// Waits until something happens, or somebody has waited long enough.
    pub(crate) fn wait(&mut self, events: &mut Events) {
        let bell = self.staff.bell;
        let time_out = self.worker.time_out(bell.readable());
        if self.poll.poll(events, time_out).is_err() {
            thread::sleep(self.rt, Duration::from_millis(WAIT_PAUSE));
        }
    }

    /// Looks at the clock, which never goes back.
    pub(crate) fn look_at_clock(&mut self) {
        if let Ok(time) = self.rt.monotonic() {
            let now = u64::try_from(time.as_millis()).unwrap_or(0);
            self.worker.now = self.worker.now.max(now);
            self.staff.meters.note_time(self.worker.now / 1_000);
        }
    }

    /// What a connection knows as it has its turn, behind a door that lets these requests through.
    pub(crate) fn moment(&self, passes: Passes) -> Moment
        ensures { result.passes ≡ passes }
    {
        let bell = self.staff.bell;
        Moment {
            passes,
            is_at_long_end: self.staff.is_at_long_end(self.worker.number),
            counts_reads: self.staff.limits.read_seconds > 0,
            lets_go: !self.worker.has_freed,
            readable: bell.readable(),
            now: self.worker.now,
        }
    }

    /// Takes a connection off what waits for a time, for its turn. Returns false where it waits for a time: it is cut, or it has none.
    pub(crate) fn begin_turn(&mut self, token: usize, client: &mut Client<'d, J>) -> bool {
        self.look_at_clock();
        if client.link().pipe.is_cut {
            if let Some(awaited) = client.end_wait(self.worker.now) {
                self.worker.waiting.remove(token, awaited);
            }
        }
        client.link().pipe.awaited.is_none()
    }

    /// Wakes who waits for what a seat can read, where a change was asked for in a turn.
    pub(crate) fn ring(&self, seat: &mut ReaderSeat<J>)
        ensures { IsPrefix seat.old seat.new }
    {
        if self.teller.take_change() {
            self.teller.bell().ring_marks(seat);
        }
    }

    /// Notes a turn that began at this moment, of a connection of a door, and in which the node changed: where it took long, the node's
    /// second copy has to catch up.
    pub(crate) fn note_change(&mut self, moment: Moment, door: usize) {
        self.look_at_clock();
        let took = self.worker.now.saturating_sub(moment.now);
        let is_its_own = moment.is_at_long_end && !matches!(moment.passes, Passes::Readings);
        if is_its_own && took >= LONG_CHANGE {
            self.worker.behind = Some(door);
        }
    }

    /// Ends a connection: its socket is closed, and its slot is free.
    pub(crate) fn close(&mut self, token: usize, client: Box<Client<'d, J>, Global>) {
        let (ended, door, place) = (client.end(), client.link().door(), client.link().place());
        drop(client);
        self.worker.links.free(token);
        self.teller.tell(self.rt, ended);
        self.staff.give_back(self.rt, door, place);
    }

    /// Closes a connection that has no token, for want of memory.
    pub(crate) fn refuse(&mut self, door: usize, place: usize) {
        self.teller.turn_to(place, false);
        self.teller.tell(self.rt, without_memory());
        self.staff.give_back(self.rt, door, place);
    }

    /// A connection that was accepted, where it can be served.
    pub(crate) fn opened(
        &self,
        accepted: Accepted,
        door: usize,
        place: usize,
        passes: Passes,
    ) -> Option<Box<Client<'d, J>, Global>>
        ensures { IfSome result (λ client. value_of client.value.0 ≡ start) }
    {
        let (alloc, now, staff) = (self.worker.alloc, self.worker.now, self.staff);
        let socket = accepted.into_socket().ok()?;
        let link = Link::new(alloc, socket, door, place, passes, now, staff.meters);
        Box::new(alloc, Client::new(link)).ok()
    }

    /// Takes in a connection. Where there is no memory for it, it is closed.
    pub(crate) fn enter(&mut self, client: Box<Client<'d, J>, Global>) {
        let mut client = client;
        let Ok(token) = self.worker.links.new_token() else {
            self.refuse(client.link().door(), client.link().place());
            return;
        };
        client.register(self.poll.registry(), token);
        self.worker.put_listed(token, client);
    }
}
