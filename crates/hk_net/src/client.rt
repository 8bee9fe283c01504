//! A client of a worker: its connection, and what it has seen of the node.

ghost use Rattle.std.specs.Prelude.{◌≡◌, [], None};
ghost use mathlib.Core.List.{IsPrefix};
ghost use Rattle.hk_exchange.specs.Exchanges.{start, value_of};
ghost use Rattle.hk_net.specs.Connections.{IsNew, IsServed, Opens, Serves};

use crate::link::{Link, Readiness};
use crate::turns::{Moment, Turn};
use crate::waiting::Awaited;
use crate::worker::Worker;
use hk_host::{LinkEvent, NodeHost, Teller};
use hk_link_state::LinkState;
use hk_node::{NodeName, ReaderSeat};
use hk_seats::{Shown, Way};
use hk_session_parts::Ended;
use mio::Registry;
use std::marker::Model;
use std::mem;
use std::sync::Wait;
use std::thread::Threads;

/// A connection, and what its client has seen of the node, whichever worker gave it its turns.
#[derive(Drop)]
struct Peer<'d, J: NodeName> {
    link: Link<'d>,
    seen: Shown<J>,
}

impl<'d, J: NodeName> Peer<'d, J> {
    /// What its connection keeps from now on.
    fn begin(&mut self, kept: LinkState<'d>)
        ensures opens { IsNew self.old.link → Opens J.kind kept.entry self.new.link [] }
        ensures same { self.new.seen ≡ self.old.seen }
    {
        self.link.kept = Some(kept);
    }

    /// Has a seat apply what the client has seen, whichever worker showed it.
    fn show(&mut self, seat: &mut ReaderSeat<J>)
        ensures link { self.new.link ≡ self.old.link }
        ensures shown { IsPrefix self.old.seen seat.new }
        ensures grows { IsPrefix seat.old seat.new }
    {
        mem::replace(&mut self.seen, Shown::nothing()).show(seat);
    }

    /// Notes that the client has seen all that a seat has.
    fn note(&mut self, seat: &ReaderSeat<J>)
        ensures link { self.new.link ≡ self.old.link }
        ensures seen { self.new.seen ≡ seat.now }
    {
        self.seen = Shown::of(seat);
    }

    /// The turn of its connection, as `Client::turn`.
    fn turn<'a, N: Wait + Drop, R: Threads + Wait + Sync>(
        &mut self,
        rt: &'a R,
        way: Way<'a, J, N>,
        teller: &'a Teller<'a>,
        worker: &mut Worker<'d, J>,
        moment: Moment,
        seat: ReaderSeat<J>,
    ) -> (Turn, ReaderSeat<J>)
        ensures turn { Serves J.kind moment seat self.old.link self.old.seen self.new.link self.new.seen }
        ensures seen { self.new.seen ≡ result.1 }
        ensures passes { self.new.link.passes ≡ self.old.link.passes }
    {
        let mut seat = seat;
        self.show(&mut seat);
        let host = NodeHost::with_way(rt, worker.alloc, way, seat, Some(teller));
        let (turn, host) = worker.turn(moment, &mut self.link, host);
        let seat = host.into_seat();
        self.note(&seat);
        (turn, seat)
    }
}

/// A client of a worker. It goes with all that it has seen to another one. Wherever it is between two calls, its connection stands as
/// `HasStood` says: whatever a worker, a list or an inbox does with it. Contracts see it as what is between its socket and its host, which
/// requests its door lets through, and what it has seen.
#[derive(Drop)]
pub(crate) struct Client<'d, J: NodeName> {
    peer: Peer<'d, J>,
}

impl<'d, J: NodeName> Model for Client<'d, J> {
    ghost use Rattle.std.specs.Prelude.{List};
    ghost use Rattle.std.specs.Coded.{coded_list, coded×};
    ghost use Rattle.hk_doors.specs.declared.passes.Passes.{Passes};
    ghost use Rattle.hk_doors.specs.contracts.passes.Passes as passes;
    ghost use Rattle.hk_exchange.specs.declared.exchange.Exchange.{Exchange};
    ghost use Rattle.hk_exchange.specs.contracts.exchange.Exchange as exchange;
    ghost use Rattle.hk_oplog.specs.declared.op.Op.{Op};
    ghost use Rattle.hk_oplog.specs.contracts.op.Op as op;
    ghost use Rattle.hk_net.specs.Connections.{HasStood};

    ghost Value = { Exchange × (Passes × List Op) };

    ghost coded = { coded× exchange.the_row.coded (coded× passes.the_row.coded (coded_list op.the_row.coded)) };

    ghost view = { λ c. (c.peer.link.pipe.exchange, (c.peer.link.passes, c.peer.seen)) };

    ghost invariant = { λ c. ∥ HasStood J.kind c.peer.link c.peer.seen ∥₁ };
}

impl<'d, J: NodeName> Client<'d, J> {
    /// One whose connection was just accepted: it has seen nothing, and keeps nothing yet.
    pub(crate) fn new(link: Link<'d>) -> Client<'d, J>
        requires new { IsNew link }
        requires none { link.kept ≡ None }
        ensures { value_of result.0 ≡ start }
    {
        Client {
            peer: Peer {
                link,
                seen: Shown::nothing(),
            },
        }
    }

    /// What its connection keeps from now on, which was just accepted.
    pub(crate) fn begin(&mut self, kept: LinkState<'d>)
        requires { value_of self.old.0 ≡ start }
    {
        self.peer.begin(kept);
    }

    /// Its connection.
    pub(crate) fn link(&self) -> &Link<'d>
        ensures { result.now.passes ≡ self.now.1.0 }
    {
        &self.peer.link
    }

    /// That its connection ended, and how.
    pub(crate) fn end(&self) -> LinkEvent
        ensures { IsServed self.now.1.0 self.now.0 }
    {
        let pipe = &self.peer.link.pipe;
        LinkEvent::Ended {
            ended: pipe.end(),
            speech: pipe.speech,
        }
    }

    /// Notes what the system said of its socket, and returns whether it has a turn.
    pub(crate) fn note(&mut self, told: Readiness) -> bool {
        self.peer.link.pipe.note(told)
    }

    /// Has the system say under a token what happens to its socket. Where that can't be done it ends at its next turn.
    pub(crate) fn register(&mut self, registry: &Registry, token: usize) {
        self.peer.link.pipe.register(registry, token);
    }

    /// Ends it as it is, at its next turn.
    pub(crate) fn cut(&mut self, ended: Ended) {
        self.peer.link.pipe.cut(ended);
    }

    /// Has it wait for a time; or no longer, where it is `None`, so that its next request is answered.
    pub(crate) fn wait_for(&mut self, awaited: Option<Awaited>) {
        self.peer.link.pipe.wait_for(awaited);
    }

    /// Has it wait no longer, and returns what it waited for.
    pub(crate) fn end_wait(&mut self, now: u64) -> Option<Awaited> {
        self.peer.link.pipe.end_wait(now)
    }

    /// Writes what stands after the turns of a round. Returns whether it has a turn in the next one.
    pub(crate) fn end_round(&mut self, now: u64) -> bool {
        self.peer.link.end_round(now)
    }

    /// Writes its replies before it is handed to another worker, and has its socket's events come here no more. Returns whether it can be.
    pub(crate) fn lets_leave(&mut self, now: u64, registry: &Registry) -> bool {
        self.peer.link.end_round(now);
        self.peer.link.pipe.leave(registry)
    }

    /// Its turn over a host of a seat that may do so much, and the seat. That applies first what the client has seen, whichever worker
    /// showed it; and then the client has seen what the seat has.
    pub(crate) fn turn<'a, N: Wait + Drop, R: Threads + Wait + Sync>(
        &mut self,
        rt: &'a R,
        way: Way<'a, J, N>,
        teller: &'a Teller<'a>,
        worker: &mut Worker<'d, J>,
        moment: Moment,
        seat: ReaderSeat<J>,
    ) -> (Turn, ReaderSeat<J>)
        requires { moment.passes ≡ self.old.1.0 }
        ensures { self.new.1.1 ≡ result.1 }
    {
        self.peer.turn(rt, way, teller, worker, moment, seat)
    }
}
