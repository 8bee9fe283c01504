//! What a worker does with its seat: each connection that can go on has a turn over a host of it.

use crate::arrivals::{Arrival, Inbox};
use crate::client::Client;
use crate::reactor::Reactor;
use crate::shop::Shop;
use crate::sockets::Accepted;
use crate::turns::Turn;
use hk_host::Teller;
use hk_node::{NodeName, ReaderSeat};
use hk_seats::Way;
use mio::{Events, Poll};
use std::alloc::Global;
use std::rt::Clock;
use std::sync::Wait;
use std::thread::Threads;

/// For how many milliseconds connections that had a turn have further ones before the system is asked what happened to others.
const FURTHER_TURNS: u64 = 2;

/// Leaves a client for a worker. It comes back where that can't be done.
fn leave_moved<'d, J: NodeName, R: Wait>(
    rt: &R,
    inbox: Option<&Inbox<Arrival<'d, J>>>,
    client: Box<Client<'d, J>, Global>,
) -> Option<Box<Client<'d, J>, Global>> {
    let Some(inbox) = inbox else {
        return Some(client);
    };
    match inbox.leave(rt, Arrival::Moved(client)) {
        Err(Arrival::Moved(client)) => Some(client),
        Ok(()) | Err(Arrival::Opened { .. }) => None,
    }
}

/// A worker at its work: what all threads share, and its connections. Its seat goes through each call, and comes back.
#[derive(Drop)]
struct Serving<
    'w,
    'd,
    J: NodeName + 'w,
    N: Wait + Drop + 'w,
    R: Threads + Wait + Clock + Sync + 'w,
> {
    shop: &'w Shop<'d, J, N>,
    reactor: Reactor<'w, 'd, J, R>,
}

impl<'w, 'd, J: NodeName + 'w, N: Wait + Drop + 'w, R: Threads + Wait + Clock + Sync + 'w> Serving<
    'w,
    'd,
    J,
    N,
    R,
> {
    /// Leaves a client for a worker that gives long answers. Where that can't be done its connection ends.
    fn hand_over(&mut self, token: usize, client: Box<Client<'d, J>, Global>) {
        let mut client = client;
        let reactor = &self.reactor;
        if !client.lets_leave(reactor.worker.now, reactor.poll.registry()) {
            self.reactor.worker.cut(token, client);
            return;
        }
        let staff = &self.shop.staff;
        let worker = staff
            .long_worker(client.link().place())
            .unwrap_or(usize::MAX);
        let inbox = self.shop.inboxes.get(worker);
        match leave_moved(self.reactor.rt, inbox, client) {
            Some(client) => self.reactor.worker.cut(token, client),
            None => {
                self.reactor.worker.links.free(token);
                let bell = staff.bell;
                bell.wake(worker);
            }
        }
    }

    /// Does what a client wants after its turn.
    fn settle(&mut self, token: usize, turn: Turn, client: Box<Client<'d, J>, Global>) {
        match turn {
            Turn::Over => self.reactor.close(token, client),
            Turn::Moves => self.hand_over(token, client),
            stays => self.reactor.worker.settle(token, stays, client),
        }
    }

    /// The turn of the client under a token, unless it waits for a time, and the seat.
    fn turn_of(
        &mut self,
        token: usize,
        client: &mut Client<'d, J>,
        seat: ReaderSeat<J>,
    ) -> (Turn, ReaderSeat<J>) {
        let Some(door) = self.shop.doors.get(client.link().door()) else {
            return (Turn::Over, seat);
        };
        if !self.reactor.begin_turn(token, client) {
            return (Turn::Waits, seat);
        }
        let moment = self.reactor.moment(client.link().passes);
        self.reactor
            .teller
            .turn_to(client.link().place(), door.tells_changes);
        let seen = seat.seen();
        let Reactor {
            rt,
            teller,
            worker,
            ..
        } = &mut self.reactor;
        let way = door.way.again();
        let (turn, mut seat) = client.turn(*rt, way, teller, worker, moment, seat);
        self.reactor.ring(&mut seat);
        if seen < seat.seen() {
            self.reactor.note_change(moment, client.link().door());
        }
        (turn, seat)
    }

    /// Gives the client under a token its turn.
    fn serve(&mut self, token: usize, seat: ReaderSeat<J>) -> ReaderSeat<J> {
        let Some(mut client) = self.reactor.worker.links.take(token) else {
            return seat;
        };
        let (turn, seat) = self.turn_of(token, &mut client, seat);
        self.settle(token, turn, client);
        seat
    }

    /// Gives those that had a turn and have more to do a further one, in their order, until so many milliseconds are over.
    fn take_further_turns(&mut self, seat: ReaderSeat<J>) -> ReaderSeat<J> {
        let mut seat = seat;
        let until = self.reactor.worker.now.saturating_add(FURTHER_TURNS);
        for _ in 0..self.reactor.worker.links.count_again() {
            let Some(token) = self.reactor.worker.links.take_again() else {
                break;
            };
            seat = self.serve(token, seat);
            self.reactor.look_at_clock();
            if self.reactor.worker.now >= until {
                break;
            }
        }
        seat
    }

    /// Gives each connection to which something happened its turn, and some that have more to do a further one; and then writes their
    /// replies: a peer that has several connections is woken once. So who sends much at once holds up others by a request or some, and
    /// who asks for one thing after the other isn't held up by all of it.
    fn take_turns(&mut self, seat: ReaderSeat<J>) -> ReaderSeat<J> {
        let mut seat = seat;
        self.reactor.worker.has_freed = false;
        let count = self.reactor.worker.links.begin_round();
        for at in 0..count {
            if let Some(token) = self.reactor.worker.links.in_round(at) {
                seat = self.serve(token, seat);
            }
        }
        let seat = self.take_further_turns(seat);
        let staff = &self.shop.staff;
        self.reactor.worker.end_round(&staff.limits);
        let least = self.reactor.worker.waiting.least_number();
        let bell = staff.bell;
        bell.expect(self.reactor.worker.number, least);
        seat
    }

    /// Takes in a connection that was accepted. Where that fails it is closed.
    fn open(&mut self, accepted: Accepted, number: usize, place: usize) {
        let Some(door) = self.shop.doors.get(number) else {
            self.reactor.refuse(number, place);
            return;
        };
        let passes = door.way.passes();
        let Some(mut client) = self.reactor.opened(accepted, number, place, passes) else {
            self.reactor.refuse(number, place);
            return;
        };
        let may_release = matches!(door.way, Way::Open(_));
        let staff = &self.shop.staff;
        let meters = staff.meters;
        client.begin(
            self.reactor
                .worker
                .first_kept(may_release, door.budget, meters),
        );
        self.reactor.enter(client);
    }

    /// Takes in what another left.
    fn take_arrival(&mut self, arrival: Arrival<'d, J>) {
        match arrival {
            Arrival::Opened {
                accepted,
                door,
                place,
            } => self.open(accepted, door, place),
            Arrival::Moved(client) => self.reactor.enter(client),
        }
    }

    /// Takes in what others left.
    fn take_arrivals(&mut self) {
        let Some(inbox) = self.shop.inboxes.get(self.reactor.worker.number) else {
            return;
        };
        for arrival in inbox.take_all(self.reactor.rt, self.reactor.worker.alloc) {
            self.take_arrival(arrival);
        }
    }

    /// Has the node's second copy catch up with a change that took long, in a later round in which no connection has a turn: else the next
    /// change, whoever makes it, would pay for both copies.
    fn catch_up(&mut self) {
        if self.reactor.worker.links.has_listed() {
            return;
        }
        let Some(door) = self.reactor.worker.behind.take() else {
            return;
        };
        let Some(door) = self.shop.doors.get(door) else {
            return;
        };
        if let Way::Open(node) | Way::Feeding(node) = &door.way {
            node.settle(self.reactor.rt);
        }
    }

    /// One round: what the system said, what others left, who waited long enough, and the turns of those that can go on.
    fn round(&mut self, events: &Events, seat: ReaderSeat<J>) -> ReaderSeat<J> {
        self.reactor.look_at_clock();
        if self.reactor.worker.take_events(events) {
            self.take_arrivals();
        }
        let staff = &self.shop.staff;
        let bell = staff.bell;
        self.reactor.worker.wake_due(bell.readable());
        self.reactor.worker.look_at_limits(&staff.limits);
        self.catch_up();
        self.take_turns(seat)
    }
}

/// What a worker begins with: its number, a buffer for what it reads, its sockets, room for what the system says of them, and who is
/// notified.
#[derive(Drop)]
pub(crate) struct Tools<'w> {
    pub(crate) alloc: Global,
    pub(crate) number: usize,
    pub(crate) piece: Vec<u8>,
    pub(crate) poll: Poll,
    pub(crate) events: Events,
    pub(crate) teller: Teller<'w>,
}

/// Serves connections without an end, by a worker of this number.
pub(crate) fn serve_worker<'w, 'd, J: NodeName, N: Wait + Drop, R: Threads + Wait + Clock + Sync>(
    rt: &'w R,
    shop: &'w Shop<'d, J, N>,
    tools: Tools<'w>,
    seat: ReaderSeat<J>,
) {
    let (reactor, mut events) = Reactor::begin(rt, &shop.staff, tools);
    let mut serving = Serving { shop, reactor };
    let mut seat = seat;
    for _ in rt.forever() {
        serving.reactor.wait(&mut events);
        seat = serving.round(&events, seat);
    }
}
