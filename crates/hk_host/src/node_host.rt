//! A host over a seat of a running node.

ghost use Rattle.std.specs.Prelude.{◌≡◌, true};
ghost use Rattle.std.specs.Thread.{IsSync};
ghost use mathlib.Core.List.{IsPrefix};
ghost use Rattle.hk_doors.specs.declared.passes.Passes.TheVariants.{All};
ghost use Rattle.hk_oplog.specs.Replay.{is_legal};
ghost use Rattle.hk_seats.specs.Replying.{MayFeed, MayReply};
ghost use Rattle.hk_seats.specs.Ways.{way_passes};

use crate::holding::{hold_on, release_on, tell_changed, tell_refused};
use crate::link_events::Teller;
use crate::subject::{Subject, subject_of};
use hk_fragment::Fragment;
use hk_link_state::NodeSide;
use hk_messages::{LaterReply, Reply, Request};
use hk_model::{Answer, Front, Page, PageQuery, Query, StreamsTold};
use hk_node::{Node, NodeName, ReaderSeat};
use hk_oplog::{Hold, NodeSizes};
use hk_seats::{Way, answer_at, is_change, is_fed, no_kind, read_at};
use hk_session_parts::Host;
use hk_types::{FormFault, Refusal, Table, Time};
use std::alloc::Global;
use std::marker::Model;
use std::sync::Wait;
use std::thread::Threads;

/// A host over one seat of a running node, and over the node, which others share, where the connection may change it. Contracts see it as
/// which requests pass, and the list of operations that the seat has seen or got a receipt of.
///
/// By `Way::Reading` it has no node: Front, Delta, Full and Ask are answered by the seat, and take no lock; each other request is refused
/// with 4, as a kind that has no meaning here, and nothing changed. By `Way::Feeding` Items and Feed are answered too, and the others so
/// refused, pins and their release with them: no fragment comes in, and nothing is dropped. By `Way::Open` all are answered.
///
/// Items are applied all or nothing, as the join of the one fragment that they make. Lists of 4,096 items and more are
/// gathered by four workers side by side, shorter ones by the thread that answers. In a guarded node they are applied by
/// `Node::take`, as absorbed one after the other. A fragment is joined, and a full snapshot is joined in the same way. The
/// receipt of a change that took effect goes to the seat, so that the connection's later replies show the change, and the
/// reply is `Done` with the number of operations that ends with it; how far a prune reached is in the next front. Feed is
/// Items, answered `Fed`, which also has how many of the items were new to what the node held right before. A refused change
/// is answered as the node refuses it, and items that make no fragment as their gathering is: a guarded node refuses
/// `Conflict` what conflicts with it, changes nothing, and never fails, while another node fails by it for good.
/// `Unpublished` means that the change is made and waits. The other requests are answered by the seat, and take no lock.
/// Cost: that of the calls.
///
/// It can be asked where threads may share the runtime (`Host::ready`), as its bound `Sync` says that they
/// may.
#[derive(Drop)]
pub struct NodeHost<'a, J: NodeName, N: Wait + Drop, R: Threads + Wait + Sync> {
    rt: &'a R,
    alloc: Global,
    way: Way<'a, J, N>,
    seat: ReaderSeat<J>,
    /// Who receives reports of changes, if anyone does.
    teller: Option<&'a Teller<'a>>,
}

impl<'a, J: NodeName, N: Wait + Drop, R: Threads + Wait + Sync> Model for NodeHost<'a, J, N, R> {
    ghost use Rattle.std.specs.Prelude.{◌≡◌, true, List};
    ghost use Rattle.hk_doors.specs.declared.passes.Passes.{Passes};
    ghost use Rattle.hk_oplog.specs.declared.op.Op.{Op};
    ghost use Rattle.hk_oplog.specs.Replay.{is_legal};
    ghost use Rattle.hk_seats.specs.Ways.{way_passes};
    ghost use Rattle.std.specs.Coded.{coded_list, coded×};
    ghost use Rattle.hk_doors.specs.contracts.passes.Passes as passes;
    ghost use Rattle.hk_oplog.specs.contracts.op.Op as op;

    ghost Value = { Passes × List Op };

    ghost coded = { coded× passes.the_row.coded (coded_list op.the_row.coded) };

    ghost view = { λ h. (way_passes h.way, h.seat) };

    ghost invariant = { λ h. is_legal h.seat ≡ true };
}

impl<'a, J: NodeName, N: Wait + Drop, R: Threads + Wait + Sync> NodeHost<'a, J, N, R> {
    /// A host of a connection that may do so much, over a seat of the node; their types name the node, so that a seat of another is none
    /// of these. Each refused change is reported to the teller, and where it wants it each that takes effect.
    pub fn with_way(
        rt: &'a R,
        alloc: Global,
        way: Way<'a, J, N>,
        seat: ReaderSeat<J>,
        teller: Option<&'a Teller<'a>>,
    ) -> NodeHost<'a, J, N, R>
        ensures { result ≡ (way_passes way.entry, seat) }
    {
        let _legal = seat.seen();
        NodeHost {
            rt,
            alloc,
            way,
            seat,
            teller,
        }
    }

    /// A host of a connection that may do everything, of which nothing is reported.
    pub fn new(
        rt: &'a R,
        alloc: Global,
        node: &'a Node<J, N>,
        seat: ReaderSeat<J>,
    ) -> NodeHost<'a, J, N, R>
        ensures { result ≡ (All, seat) }
    {
        NodeHost::with_way(rt, alloc, Way::open(node), seat, None)
    }

    /// Returns the seat, with all that it has seen or got a receipt of.
    pub fn into_seat(self) -> ReaderSeat<J>
        ensures { result ≡ self.entry.1 }
    {
        self.seat
    }

    /// Reports that a change was refused, and what it begins with. Where that made the node fail nobody waits any more.
    fn tell_refused(&self, node: &Node<J, N>, why: &Refusal, about: Option<Subject>)
        ensures { is_legal self.now.1 ≡ true }
    {
        let is_guarded = self.seat.is_guarded();
        tell_refused(self.rt, self.teller, why, about);
        if let (Some(teller), Refusal::Conflict, false) = (self.teller, why, is_guarded) {
            if node.hold_refusal(self.rt, Time::zero()) == Refusal::Damaged {
                teller.bell().ring_for_good();
            }
        }
    }

    /// Reports what came of a change that begins so.
    fn tell(&self, node: &Node<J, N>, reply: &Reply, about: Option<Subject>)
        ensures { is_legal self.now.1 ≡ true }
    {
        let _legal = self.seat.seen();
        match reply {
            Reply::Done { ops } | Reply::Later(LaterReply::Fed { ops, .. }) => {
                tell_changed(self.rt, self.teller, *ops)
            }
            Reply::Refused(why) | Reply::Later(LaterReply::Refused(why)) => {
                self.tell_refused(node, why, about)
            }
            _ => {}
        }
    }

    /// Answers a request by the node, and reports what came of it where it asks for a change.
    fn answer_by(&mut self, node: &'a Node<J, N>, request: Request) -> Reply
        ensures passes { self.new.0 ≡ self.old.0 }
        ensures told { MayReply J.kind self.old.1 request result self.new.1 }
    {
        let is_told = is_change(&request);
        let about = subject_of(&request);
        let reply = answer_at(self.rt, self.alloc, node, &mut self.seat, request);
        if is_told {
            self.tell(node, &reply, about);
        }
        reply
    }

    /// Answers a request by the node, where it reads or brings items.
    fn feed_by(&mut self, node: &'a Node<J, N>, request: Request) -> Reply
        ensures passes { self.new.0 ≡ self.old.0 }
        ensures told { MayFeed J.kind self.old.1 request result self.new.1 }
    {
        if is_fed(&request) {
            return self.answer_by(node, request);
        }
        no_kind(&self.seat, request)
    }
}

impl<'a, J: NodeName, N: Wait + Drop, R: Threads + Wait + Sync> Host for NodeHost<'a, J, N, R> {
    ghost use Rattle.std.specs.Prelude.{◌≡◌};
    ghost use Rattle.hk_seats.specs.Ways.{MayAnswer};

    ghost may = { λ old request reply new. (new.0 ≡ old.0) × MayAnswer old.0 J.kind old.1 request reply new.1 };

    ghost ready = { λ _. IsSync R.row };

    fn answer(&mut self, request: Request) -> Reply {
        match self.way {
            Way::Open(node) => self.answer_by(node, request),
            Way::Feeding(node) => self.feed_by(node, request),
            Way::Reading => read_at(&mut self.seat, request),
        }
    }
}

impl<'a, J: NodeName, N: Wait + Drop, R: Threads + Wait + Sync> NodeSide for NodeHost<'a, J, N, R> {
    ghost use Rattle.std.specs.Prelude.{◌≡◌};
    ghost use Rattle.hk_host.specs.Pins.{HoldsBy, ReleasesBy};

    ghost side = { record {
      list = λ h. h.1;
      may_hold = λ old time result new. (new.0 ≡ old.0) × HoldsBy old.0 J.kind old.1 time result new.1;
      may_release = λ old hold result new. (new.0 ≡ old.0) × ReleasesBy old.0 J.kind old.1 hold result new.1;
    } };

    fn latest(&mut self, query: &Query) -> Result<(Time, Answer), Refusal> {
        self.seat.latest(query)
    }

    fn page(&mut self, of: PageQuery) -> Result<Page, Refusal> {
        self.seat.page(of)
    }

    fn page_within(&mut self, of: PageQuery, looks: u64) -> Result<Option<Page>, Refusal> {
        self.seat.page_within(of, looks)
    }

    fn marks(&mut self) -> Result<Front, Refusal> {
        self.seat.front()
    }

    fn streams(&mut self) -> Result<StreamsTold, Refusal> {
        self.seat.streams()
    }

    fn cut(&mut self, base: Time) -> Result<Fragment, Refusal> {
        if base.number() == 0 {
            self.seat.whole()
        } else {
            self.seat.delta_since(base)
        }
    }

    fn sizes(&mut self) -> Result<NodeSizes, Refusal> {
        self.seat.sizes()
    }

    fn tables(&mut self) -> Result<Vec<Table>, Refusal> {
        self.seat.tables()
    }

    fn tables_within(&mut self, most: u64) -> Result<Option<Vec<Table>>, Refusal> {
        self.seat.tables_within(most)
    }

    fn keep_within(&mut self, room: u64) {
        self.seat.keep_within(room);
    }

    fn hold(&mut self, time: Time) -> Result<Hold, (Option<Hold>, Refusal)> {
        match self.way {
            Way::Open(node) => hold_on(self.rt, node, &mut self.seat, self.teller, time),
            Way::Feeding(_) | Way::Reading => {
                let _legal = self.seat.seen();
                Err((None, Refusal::Form(FormFault::BadKind)))
            }
        }
    }

    fn hold_refusal(&mut self, time: Time) -> Refusal {
        let _legal = self.seat.seen();
        match self.way {
            Way::Open(node) => node.hold_refusal(self.rt, time),
            Way::Feeding(_) | Way::Reading => Refusal::Form(FormFault::BadKind),
        }
    }

    fn release(&mut self, hold: Hold) -> Result<u64, (Option<Hold>, Refusal)> {
        match self.way {
            Way::Open(node) => release_on(self.rt, node, &mut self.seat, self.teller, hold),
            Way::Feeding(_) | Way::Reading => {
                let _legal = self.seat.seen();
                Err((Some(hold), Refusal::Form(FormFault::BadKind)))
            }
        }
    }

    fn laws() {}
}
