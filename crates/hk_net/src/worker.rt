//! A worker's connections, which of them wait, and its clock.

ghost use Rattle.std.specs.Prelude.{◌≡◌};
ghost use Rattle.hk_net.specs.Connections.{Turned};

use crate::client::Client;
use crate::doors::Limits;
use crate::link::{Link, Readiness};
use crate::links::Links;
use crate::turns::{Moment, Turn};
use crate::waiting::{Awaited, Waiting};
use hk_budgets::PartsBudget;
use hk_link_state::{LinkState, NodeSide};
use hk_meters::Meters;
use hk_node::NodeName;
use hk_session_parts::Ended;
use mio::Events;
use std::alloc::Global;
use std::time::Duration;

/// The token of a worker's waker; connections have those from 0 on.
pub(crate) const WAKER: usize = usize::MAX;

/// How many bytes a read brings at most, behind the first 36 of a frame.
pub(crate) const PIECE: usize = 65_572;

/// How many milliseconds pass between two looks at the limits of time.
const LOOK_PAUSE: u64 = 100;

/// A worker's connections, which of them wait, and its buffers.
#[derive(Drop)]
pub(crate) struct Worker<'d, J: NodeName> {
    pub(crate) alloc: Global,
    pub(crate) number: usize,
    pub(crate) links: Links<Client<'d, J>>,
    pub(crate) waiting: Waiting,
    pub(crate) piece: Vec<u8>,
    pub(crate) out: Vec<u8>,
    /// Pins of connections that ended, whose release was refused: the next connections that may release pins have them.
    pub(crate) left: Vec<LinkState<'d>>,
    /// The clock, in milliseconds, and when the limits of time are looked at next, where something has one.
    pub(crate) now: u64,
    look: u64,
    pub(crate) is_timed: bool,
    /// Whether a connection with many pins ended in this round.
    pub(crate) has_freed: bool,
    /// The door of a change that took long, with which the node's second copy has yet to catch up.
    pub(crate) behind: Option<usize>,
}

impl<'d, J: NodeName> Worker<'d, J> {
    /// A worker without connections, with a buffer for what it reads, and the door of the node that has yet to catch up.
    pub(crate) fn new(
        alloc: Global,
        number: usize,
        piece: Vec<u8>,
        behind: Option<usize>,
    ) -> Worker<'d, J> {
        Worker {
            alloc,
            number,
            links: Links::new(alloc),
            waiting: Waiting::new(alloc),
            piece,
            out: Vec::new(alloc),
            left: Vec::new(alloc),
            now: 0,
            look: 0,
            is_timed: false,
            has_freed: false,
            behind,
        }
    }

    /// The turn of a connection over a host of its seat, which is returned.
    pub(crate) fn turn<H: NodeSide + Drop>(
        &mut self,
        moment: Moment,
        link: &mut Link<'d>,
        host: H,
    ) -> (Turn, H)
        requires { H.ready host }
        ensures turn { Turned H.side H.may moment host link.old result.1 link.new }
        ensures passes { link.new.passes ≡ link.old.passes }
    {
        // Nothing is ready between two turns: what one connection is told is never another's.
        self.out.clear();
        link.turn(moment, &mut self.piece, &mut self.out, host, &mut self.left)
    }

    /// What a connection keeps at first: pins that others left, where it may release them, else nothing.
    pub(crate) fn first_kept(
        &mut self,
        may_release: bool,
        budget: &'d PartsBudget,
        meters: &'d Meters<'d>,
    ) -> LinkState<'d> {
        let left = if may_release { self.left.pop() } else { None };
        match left {
            Some(kept) => kept,
            None => LinkState::new(self.alloc, budget, Some(meters)),
        }
    }

    /// For how long the worker sleeps, where nothing happens.
    pub(crate) fn time_out(&self, readable: u64) -> Option<Duration> {
        let is_due = self.waiting.is_due(readable, self.now);
        if is_due || self.behind.is_some() || self.links.has_listed() {
            return Some(Duration::from_millis(0));
        }
        let look = if self.is_timed { Some(self.look) } else { None };
        let next = match (look, self.waiting.next_moment()) {
            (Some(look), Some(moment)) => look.min(moment),
            (Some(look), None) => look,
            (None, Some(moment)) => moment,
            (None, None) => return None,
        };
        Some(Duration::from_millis(next.saturating_sub(self.now)))
    }

    /// Notes what the system said; returns whether somebody woke the worker.
    pub(crate) fn take_events(&mut self, events: &Events) -> bool {
        let mut is_woken = false;
        for event in events {
            let token = event.token().0;
            if token == WAKER {
                is_woken = true;
                continue;
            }
            let is_special = event.is_read_closed() || event.is_error() || event.is_priority();
            let told = Readiness {
                is_readable: event.is_readable() || is_special,
                is_writable: event.is_writable(),
                is_special,
                is_closed: event.is_read_closed(),
                is_broken: event.is_error() || event.is_write_closed(),
            };
            let Some(client) = self.links.get_mut(token) else {
                continue;
            };
            if client.note(told) {
                self.links.list(token);
            }
            if told.is_closed {
                self.end_wait(token);
            }
        }
        is_woken
    }

    /// Has a connection that waits for a time wait no longer.
    fn end_wait(&mut self, token: usize) {
        let Some(client) = self.links.get_mut(token) else {
            return;
        };
        if let Some(awaited) = client.end_wait(self.now) {
            self.waiting.remove(token, awaited);
            self.links.list(token);
        }
    }

    /// Gives a turn to each connection whose time is readable, or that waited for as long as it wanted.
    pub(crate) fn wake_due(&mut self, readable: u64) {
        for _ in 0..u64::MAX {
            let Some(token) = self.waiting.take_due(readable, self.now) else {
                return;
            };
            self.end_wait(token);
        }
    }

    /// Writes the replies of the connections that had their turn.
    pub(crate) fn end_round(&mut self, limits: &Limits) {
        for at in 0..self.links.round_len() {
            let Some(token) = self.links.in_round(at) else {
                continue;
            };
            let Some(client) = self.links.get_mut(token) else {
                continue;
            };
            let has_turn = client.end_round(self.now);
            self.is_timed = self.is_timed || client.link().is_timed(limits);
            let is_writing = client.link().pipe.is_writing();
            if has_turn {
                self.list_by(token, is_writing);
            }
        }
    }

    /// Ends the connections that did nothing for too long, once it is time to look at that again.
    pub(crate) fn look_at_limits(&mut self, limits: &Limits) {
        if !self.is_timed || self.now < self.look {
            return;
        }
        self.look = self.now.saturating_add(LOOK_PAUSE);
        let mut is_timed = false;
        for token in 0..self.links.len() {
            let Some(client) = self.links.get_mut(token) else {
                continue;
            };
            is_timed = is_timed || client.link().is_timed(limits);
            if let Some(ended) = client.link().over_time(self.now, limits) {
                client.cut(ended);
                self.links.list(token);
            }
        }
        self.is_timed = is_timed;
    }

    /// Puts a connection under its token, with a turn in the next round.
    pub(crate) fn put_listed(&mut self, token: usize, client: Box<Client<'d, J>, Global>) {
        self.links.put(token, client);
        self.links.list(token);
    }

    /// Gives the connection under a token a further turn: soon where it is about to write a reply, else after others.
    fn list_by(&mut self, token: usize, is_writing: bool) {
        if is_writing {
            self.links.list(token);
        } else {
            self.links.list_again(token);
        }
    }

    /// Puts a connection that stays under its token after its turn, as it wants.
    pub(crate) fn settle(&mut self, token: usize, turn: Turn, client: Box<Client<'d, J>, Global>) {
        if let Turn::Parks {
            number,
            milliseconds,
        } = turn
        {
            self.park(token, client, number, milliseconds);
            return;
        }
        self.has_freed = self.has_freed || turn == Turn::Freed;
        let is_writing = client.link().pipe.is_writing();
        self.links.put(token, client);
        if turn != Turn::Waits {
            self.list_by(token, is_writing);
        }
    }

    /// Ends a connection as it is, at its next turn.
    pub(crate) fn cut(&mut self, token: usize, client: Box<Client<'d, J>, Global>) {
        let mut client = client;
        client.cut(Ended::Memory);
        self.put_listed(token, client);
    }

    /// Has a connection wait until a number is readable, or so many milliseconds are over. Where memory runs out for that it is
    /// answered at once.
    pub(crate) fn park(
        &mut self,
        token: usize,
        client: Box<Client<'d, J>, Global>,
        number: u64,
        milliseconds: u32,
    ) {
        let mut client = client;
        // The clock's milliseconds are whole: one more, so that it waits no less.
        let until = self
            .now
            .saturating_add(u64::from(milliseconds))
            .saturating_add(1);
        let awaited = Awaited { number, until };
        if self.waiting.add(token, awaited).is_ok() {
            client.wait_for(Some(awaited));
            self.links.put(token, client);
        } else {
            client.wait_for(None);
            self.put_listed(token, client);
        }
    }
}
