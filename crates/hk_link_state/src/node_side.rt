//! What a host of a node offers beside version 1.

use hk_fragment::Fragment;
use hk_model::{Answer, Front, Page, PageQuery, Query, StreamsTold};
use hk_oplog::{Hold, NodeSizes};
use hk_session_parts::Host;
use hk_types::{Refusal, Table, Time};

/// What a host over a seat of a node offers beside the requests of version 1. Each call that reads is answered by the
/// seat, and takes no lock.
pub trait NodeSide: Host {
    ghost use Rattle.std.specs.Prelude.{◌≡◌, ℕ, true, List, Option, None, Result, Err, IfOk, IfErr, IfSome};
    ghost use mathlib.Core.List.{IsPrefix};
    ghost use Rattle.hk_types.specs.declared.faults.Refusal.{Refusal};
    ghost use Rattle.hk_types.specs.declared.faults.Refusal.TheVariants.{Memory};
    ghost use Rattle.hk_model.specs.Replica.Pages.{page_seen};
    ghost use Rattle.hk_model.specs.Replica.StreamsTold.{streams_seen};
    ghost use Rattle.hk_oplog.specs.declared.op.Op.{Op};
    ghost use Rattle.hk_oplog.specs.declared.op.Hold.{Hold};
    ghost use Rattle.hk_oplog.specs.Replay.{is_legal, replay};
    ghost use Rattle.hk_oplog.specs.Replies.{GivesOrMemory, GivesPageOrNone, GivesSeen, timed_seen, node_front, node_latest, page_asked, node_streams};
    ghost use Rattle.hk_link_state.specs.NodeNumbers.{AreSizesOf, AreTablesOf};
    ghost use Rattle.hk_link_state.specs.NodeSides.{GoesOn, Sided, cut_of};

    /// The list of operations that its seat has seen or got a receipt of, and which results pins and their releases may have.
    ghost side: { Sided Self };

    /// What the node answers to a query at its resolved time, with that time. Refusals and cost: as `ReaderSeat::latest`.
    fn latest(&mut self, query: &Query) -> Result<(Time, Answer), Refusal>
        ensures legal { is_legal (side.list self.new) ≡ true }
        ensures seen { IsPrefix (side.list self.old) (side.list self.new) }
        ensures latest { GivesSeen timed_seen (node_latest (replay (side.list self.new)) query.now) result }
        ensures ready { Self.ready self.old → Self.ready self.new };

    /// The first page of the rows of a range at a time. Refusals and cost: as `ReaderSeat::page`.
    fn page(&mut self, of: PageQuery) -> Result<Page, Refusal>
        ensures legal { is_legal (side.list self.new) ≡ true }
        ensures seen { IsPrefix (side.list self.old) (side.list self.new) }
        ensures page { GivesSeen page_seen (page_asked (replay (side.list self.new)) of) result }
        ensures ready { Self.ready self.old → Self.ready self.new };

    /// The same page where it takes at most so many looks at a key, else `None`. Refusals and cost: as `ReaderSeat::page_within`.
    fn page_within(&mut self, of: PageQuery, looks: u64) -> Result<Option<Page>, Refusal>
        ensures legal { is_legal (side.list self.new) ≡ true }
        ensures seen { IsPrefix (side.list self.old) (side.list self.new) }
        ensures page { GivesPageOrNone (replay (side.list self.new)) of.time of.table of.low of.high of.most result }
        ensures ready { Self.ready self.old → Self.ready self.new };

    /// The node's range of readable times. Refusals and cost: as `ReaderSeat::front`.
    fn marks(&mut self) -> Result<Front, Refusal>
        ensures legal { is_legal (side.list self.new) ≡ true }
        ensures seen { IsPrefix (side.list self.old) (side.list self.new) }
        ensures marks { GivesOrMemory (node_front (replay (side.list self.new))) result }
        ensures ready { Self.ready self.old → Self.ready self.new };

    /// How far the node is, and each of its streams. The only refusal is `Memory`. Cost: as `ReaderSeat::streams`.
    fn streams(&mut self) -> Result<StreamsTold, Refusal>
        ensures legal { is_legal (side.list self.new) ≡ true }
        ensures seen { IsPrefix (side.list self.old) (side.list self.new) }
        ensures streams { IfOk result (λ told. streams_seen told ≡ node_streams (replay (side.list self.new))) }
        ensures err { IfErr result (λ why. why ≡ Memory) }
        ensures ready { Self.ready self.old → Self.ready self.new };

    /// How much the node holds, and how far its list is. The only refusal is `Memory`. Cost: as `ReaderSeat::sizes`.
    fn sizes(&mut self) -> Result<NodeSizes, Refusal>
        ensures legal { is_legal (side.list self.new) ≡ true }
        ensures seen { IsPrefix (side.list self.old) (side.list self.new) }
        ensures sizes { IfOk result (λ sizes. AreSizesOf (replay (side.list self.new)) sizes) }
        ensures err { IfErr result (λ why. why ≡ Memory) }
        ensures ready { Self.ready self.old → Self.ready self.new };

    /// The tables of which the node holds anything. The only refusal is `Memory`. Cost: as `ReaderSeat::tables`.
    fn tables(&mut self) -> Result<Vec<Table>, Refusal>
        ensures legal { is_legal (side.list self.new) ≡ true }
        ensures seen { IsPrefix (side.list self.old) (side.list self.new) }
        ensures tables { IfOk result (λ tables. AreTablesOf (replay (side.list self.new)) tables.items) }
        ensures err { IfErr result (λ why. why ≡ Memory) }
        ensures ready { Self.ready self.old → Self.ready self.new };

    /// The same where there are no more than so many tables, else `None`. The only refusal is `Memory`. Cost: as
    /// `ReaderSeat::tables_within`.
    fn tables_within(&mut self, most: u64) -> Result<Option<Vec<Table>>, Refusal>
        ensures legal { is_legal (side.list self.new) ≡ true }
        ensures seen { IsPrefix (side.list self.old) (side.list self.new) }
        ensures tables { IfOk result (λ f. IfSome f (λ it. AreTablesOf (replay (side.list self.new)) it.items)) }
        ensures err { IfErr result (λ why. why ≡ Memory) }
        ensures ready { Self.ready self.old → Self.ready self.new };

    /// The node's full snapshot, where the base is 0, else what a replica may lack whose resolved time is at least the base.
    ///
    /// Refusals in order: `Damaged`; `TooOld` where the base is not 0 and below the oldest readable time; `Memory`.
    /// Cost: that of `ReaderSeat::whole` or `ReaderSeat::delta_since`.
    fn cut(&mut self, base: Time) -> Result<Fragment, Refusal>
        ensures legal { is_legal (side.list self.new) ≡ true }
        ensures seen { IsPrefix (side.list self.old) (side.list self.new) }
        ensures cut { GivesOrMemory (cut_of (replay (side.list self.new)) base) result }
        ensures ready { Self.ready self.old → Self.ready self.new };

    /// From now on an answer to a query, and what is cut, is refused `Memory` where it would take more bytes than so many, as
    /// `ReaderSeat::keep_within` has it.
    fn keep_within(&mut self, room: u64)
        ensures { self.new ≡ self.old };

    /// Pins a time. Refusals and cost: as `Node::hold`; a host that only reads refuses `Form(BadKind)`.
    fn hold(&mut self, time: Time) -> Result<Hold, (Option<Hold>, Refusal)>
        ensures held { side.may_hold self.old time result self.new }
        ensures legal { is_legal (side.list self.new) ≡ true }
        ensures seen { IsPrefix (side.list self.old) (side.list self.new) }
        ensures ready { Self.ready self.old → Self.ready self.new };

    /// Why a time is not pinned for a connection that has no room to keep a pin. Refusals and cost: as `Node::hold_refusal`;
    /// a host that only reads refuses `Form(BadKind)`.
    fn hold_refusal(&mut self, time: Time) -> Refusal
        ensures held { side.may_hold self.old time (Err (None, result)) self.new }
        ensures legal { is_legal (side.list self.new) ≡ true }
        ensures seen { IsPrefix (side.list self.old) (side.list self.new) }
        ensures ready { Self.ready self.old → Self.ready self.new };

    /// Releases a pin, and returns the number of operations. Refusals and cost: as `Node::release`; a host that only
    /// reads refuses `Form(BadKind)`, and hands the pin back.
    fn release(&mut self, hold: Hold) -> Result<u64, (Option<Hold>, Refusal)>
        ensures released { side.may_release self.old hold result self.new }
        ensures legal { is_legal (side.list self.new) ≡ true }
        ensures seen { IsPrefix (side.list self.old) (side.list self.new) }
        ensures ready { Self.ready self.old → Self.ready self.new };

    /// Does nothing: whatever it replies to a request of version 1, the list of its seat is a continuation of the one before.
    fn laws()
        ensures { GoesOn side Self.may };
}
