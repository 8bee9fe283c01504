//! What a connection keeps beside its seat.

ghost use Rattle.std.specs.Prelude.{◌≡◌, ◌<◌, ◌≤◌, ◌-◌, ◌++◌, ◌∷◌, [], true, false, Ok, IfErr, IfOk, MatchBool, OnErr, filter, is_some, length, nat_lt, take};
ghost use mathlib.Core.List.{IsPrefix};
ghost use Rattle.hk_types.specs.declared.faults.Refusal.TheVariants.{LinkFull};
ghost use Rattle.hk_fragment.specs.Heads.{of_facts};
ghost use Rattle.hk_messages.specs.LaterReplies.{reply_seen};
ghost use Rattle.hk_link_state.specs.LaterReplying.{AreLetGo, IsFault, IsPlaced, TellsCome, TellsFirst, TellsMore, most_holds};
ghost use Rattle.hk_link_state.specs.NodeNumbers.{sizes_metrics};
ghost use Rattle.hk_link_state.specs.LinkStates.{fresh_state, held_by, is_other_hold, part_room, with_place};

use crate::incoming_parts::IncomingParts;
use crate::link_holds::{hold_of, release_each, set_last};
use crate::node_side::NodeSide;
use crate::outgoing_transfer::OutgoingTransfer;
use crate::stats::all_metrics;
use hk_answers::Metric;
use hk_budgets::{MOST_PINS, PartsBudget, Room};
use hk_fragment::{Assembly, Fragment};
use hk_fragment_bytes::{FragmentHead, head_bytes};
use hk_log::Version;
use hk_messages::LaterReply;
use hk_meters::Meters;
use hk_oplog::{Hold, NodeSizes};
use hk_types::{FormFault, Refusal, Time, VersionKey};
use std::alloc::{AllocError, Global};
use std::marker::Model;
use std::mem::replace;

/// How many bytes a message has at most behind its length.
const MOST_MESSAGE: u64 = 268_435_456;

/// How many bytes the head of a fragment has at most that is sent in chunks: a fact has room beside it.
const MOST_HEAD: u64 = 268_431_256;

/// How many pins a connection has at most.
const MOST_HOLDS: usize = 1_024;

/// What a message has beside the facts and the head, and more.
const BESIDE: u64 = 64;

/// What a connection keeps beside its seat and its node: the fragment that it sends in chunks, the chunks that came, and its pins.
/// For what it sends, for what came and for each pin it reserves room of the node's budget, and returns the room when it drops them.
#[derive(Drop)]
pub struct LinkState<'a> {
    alloc: Global,
    budget: &'a PartsBudget,
    /// Where the node counts what its connections do, if it does.
    meters: Option<&'a Meters<'a>>,
    giving: Option<OutgoingTransfer<'a>>,
    came: IncomingParts<'a>,
    holds: Vec<Hold>,
    pins: Room<'a>,
    /// For what is between its socket and its session.
    buffers: Room<'a>,
}

impl<'a> Model for LinkState<'a> {
    ghost use Rattle.std.specs.Prelude.{◌≡◌, length};
    ghost use Rattle.hk_link_state.specs.LinkStates.{LinkStateValue, link_state_code};
    ghost use Rattle.hk_oplog.specs.contracts.op.Hold as hold;

    ghost Value = { LinkStateValue };

    ghost coded = { link_state_code hold.the_row.coded };

    ghost view = { λ l. record { most = l.budget.now; giving = l.giving; came = l.came; holds = l.holds.items; buffers = l.buffers } };

    ghost invariant = { λ l. l.pins ≡ length l.holds.items };
}

/// How many bytes a chunk of this fragment may have where so many are asked for, so that its head has room beside the last one;
/// none where the head is too long for a message.
fn room_of_part(fragment: &Fragment, most: u32) -> Option<u64>
    ensures { result ≡ part_room fragment.now most }
{
    let head = head_bytes(fragment)?;
    if head > MOST_HEAD {
        return None;
    }
    Some(u64::from(most).min(MOST_MESSAGE - BESIDE - head))
}

impl<'a> LinkState<'a> {
    /// Nothing is sent, nothing came, and there are no pins. What the connection asks, and what it is refused, is counted by these
    /// meters where there are some. It takes no memory.
    pub fn new(
        alloc: Global,
        budget: &'a PartsBudget,
        meters: Option<&'a Meters<'a>>,
    ) -> LinkState<'a>
        ensures { result ≡ fresh_state budget.now [] }
    {
        LinkState {
            alloc,
            budget,
            meters,
            giving: None,
            came: IncomingParts::new(alloc, budget),
            holds: Vec::new(alloc),
            pins: budget.no_pins(),
            buffers: budget.no_bytes(),
        }
    }

    /// Reserves room of the budget for so many bytes that are between the connection's socket and its session, of a frame that isn't
    /// complete and of replies that aren't written, in place of what was reserved for such bytes before. Returns false where the budget
    /// has no room for them, and reserves then what it had.
    pub fn keep_bytes(&mut self, bytes: u64) -> bool
        ensures same { self.new ≡ record self.old { buffers = self.new.buffers } }
        ensures room { result ≡ true → self.new.buffers ≡ bytes }
        ensures none { result ≡ false → self.new.buffers ≡ self.old.buffers }
        ensures less { bytes ≤ self.old.buffers → result ≡ true }
    {
        let had = self.buffers.count();
        if bytes > had {
            return self.buffers.grow(bytes - had);
        }
        self.buffers.shrink(had - bytes);
        true
    }

    /// Asks for the release of each pin, one after the other, and of no other, and keeps just those that are still active. What is
    /// sent and what came is dropped, and nothing is reserved for what is between socket and session.
    pub fn release_all<H: NodeSide>(self, inner: &mut H) -> LinkState<'a>
        ensures asked { AreLetGo H.side.may_release inner.old self.entry.holds inner.new result.holds }
        ensures seen { IsPrefix (H.side.list inner.old) (H.side.list inner.new) }
        ensures fresh { result ≡ fresh_state self.entry.most result.holds }
    {
        let LinkState {
            alloc,
            budget,
            meters,
            giving: _,
            came: _,
            holds,
            mut pins,
            buffers: _,
        } = self;
        let count = holds.len();
        let holds = release_each(inner, holds);
        pins.shrink((count - holds.len()) as u64);
        LinkState {
            alloc,
            budget,
            meters,
            giving: None,
            came: IncomingParts::new(alloc, budget),
            holds,
            pins,
            buffers: budget.no_bytes(),
        }
    }

    /// Counts a request of this kind, and its refusal where it was refused with a number.
    pub fn count(&self, kind: u8, refusal: Option<u8>) {
        let Some(meters) = self.meters else {
            return;
        };
        meters.note_request(kind);
        if let Some(number) = refusal {
            meters.note_refusal(number);
        }
    }

    /// The numbers of a node, with what is counted of its connections where that is done.
    pub fn metrics(&self, sizes: &NodeSizes) -> Result<Vec<Metric>, AllocError>
        ensures { IfOk result (λ metrics. IsPrefix (sizes_metrics sizes.now) metrics.items) }
    {
        all_metrics(self.alloc, sizes, self.meters)
    }

    /// Whether a fragment is sent in chunks, of which some are left. It takes no memory. Cost: O(1).
    pub fn is_giving(&self) -> bool
        ensures { result ≡ is_some self.now.giving }
    {
        self.giving.is_some()
    }

    /// Drops what is sent.
    pub(crate) fn stop_giving(&mut self)
        ensures { self.new ≡ record self.old { giving = None } }
    {
        self.giving = None;
    }

    /// Begins to send a fragment in place of what is sent, where there is room for it, and returns the first chunk. Where the head of
    /// the fragment is too long for a message, what was being sent goes on.
    pub(crate) fn begin(&mut self, fragment: Fragment, most: u32) -> LaterReply
        ensures told { TellsFirst self.old.most self.old.giving (Ok fragment) most (reply_seen result) self.new.giving }
        ensures same { self.new ≡ record self.old { giving = self.new.giving } }
    {
        let Some(room) = room_of_part(&fragment, most) else {
            return LaterReply::Refused(Refusal::Form(FormFault::TooLong));
        };
        // A connection keeps one copy.
        self.giving = None;
        let Some(giving) = OutgoingTransfer::begin(fragment, room, self.budget) else {
            return LaterReply::Refused(self.no_room());
        };
        match giving.told(self.alloc) {
            Ok(reply) => {
                self.giving = giving.next();
                reply
            }
            Err(why) => LaterReply::Refused(why),
        }
    }

    /// Returns the next chunk of what is sent.
    pub(crate) fn more(&mut self) -> LaterReply
        ensures told { TellsMore self.old.giving (reply_seen result) self.new.giving }
        ensures same { self.new ≡ record self.old { giving = self.new.giving } }
    {
        let Some(giving) = self.giving.take() else {
            return LaterReply::Refused(Refusal::NoPart);
        };
        match giving.told(self.alloc) {
            Ok(reply) => {
                self.giving = giving.next();
                reply
            }
            Err(why) => {
                self.giving = Some(giving);
                LaterReply::Refused(why)
            }
        }
    }

    /// Adds a chunk behind those that came before.
    pub fn add(&mut self, facts: Vec<(VersionKey, Version)>) -> LaterReply
        ensures told { TellsCome self.old.most self.old.came facts.items (reply_seen result) self.new.came }
        ensures same { self.new ≡ record self.old { came = self.new.came } }
    {
        self.came.add(facts, self.budget.most())
    }

    /// Takes out the chunks that came, with the room that is reserved for them.
    fn take_parts(&mut self) -> (Assembly, Room<'a>)
        ensures taken { result.0 ≡ self.old.came }
        ensures none { self.new ≡ record self.old { came = [] } }
    {
        replace(&mut self.came, IncomingParts::new(self.alloc, self.budget)).into_parts()
    }

    /// Takes out the chunks that came, and puts them together with this head: the fragment, with the room that is reserved for them, to
    /// be kept until it is joined; or the reply with the first fault.
    pub fn take_fragment(&mut self, head: FragmentHead) -> Result<(Fragment, Room<'a>), LaterReply>
        ensures made { IfOk result (λ made. of_facts head self.old.came ≡ Ok made.0) }
        ensures fault { IfErr result (λ reply. IsFault (of_facts head self.old.came) (reply_seen reply)) }
        ensures none { self.new ≡ record self.old { came = [] } }
    {
        let (came, room) = self.take_parts();
        match head.into_fragment(came) {
            Ok(fragment) => Ok((fragment, room)),
            Err(fault) => Err(LaterReply::Refused(Refusal::Form(fault))),
        }
    }

    /// The refusal of what would take more than all connections may keep.
    pub fn no_room(&self) -> Refusal
        ensures { result ≡ LinkFull self.now.most }
    {
        Refusal::LinkFull {
            most: self.budget.most(),
        }
    }

    /// About how many bytes the budget has left, and this connection reserved for what is between its socket and its session. It
    /// promises nothing.
    pub fn left(&self) -> u64 {
        self.buffers.left().saturating_add(self.buffers.count())
    }

    /// The same for a fragment that comes in place of the one that is sent.
    pub(crate) fn left_for_another(&self) -> u64 {
        let reserved = match &self.giving {
            Some(giving) => giving.reserved(),
            None => 0,
        };
        self.left().saturating_add(reserved)
    }

    /// The number of the pin that the connection made last of those that it has. Cost: O(1).
    pub fn last_pin(&self) -> Option<u64> {
        let hold = self.holds.last()?;
        Some(hold.reader)
    }

    /// How many pins the connection has. Cost: O(1).
    pub fn hold_count(&self) -> usize
        ensures { result ≡ length self.now.holds }
    {
        self.holds.len()
    }

    /// Makes an entry for a pin behind the others, with number 0, where all connections together may have one more, and returns
    /// whether they may.
    fn make_place(&mut self, time: Time) -> Result<bool, AllocError>
        ensures ok { IfOk result (λ made. MatchBool made (self.new ≡ with_place self.old time) (self.new ≡ self.old)) }
        ensures kept { OnErr result (self.new ≡ self.old) }
    {
        if !self.pins.grow(1) {
            return Ok(false);
        }
        let made = self.holds.push(Hold {
            reader: 0,
            at: time,
        });
        if made.is_err() {
            self.pins.shrink(1);
            return Err(AllocError);
        }
        Ok(true)
    }

    /// Makes an entry for a pin behind the others, with number 0, where this connection and all together may have one more, and returns
    /// none; or returns how many are the most. On no memory nothing changes.
    pub fn place_for(&mut self, time: Time) -> Result<Option<u64>, AllocError>
        ensures ok { IfOk result (λ full. IsPlaced self.old time full self.new) }
        ensures kept { OnErr result (self.new ≡ self.old) }
        ensures few { OnErr result (nat_lt (length self.old.holds) most_holds ≡ true) }
    {
        if self.hold_count() >= MOST_HOLDS {
            return Ok(Some(MOST_HOLDS as u64));
        }
        match self.make_place(time) {
            Ok(true) => Ok(None),
            Ok(false) => Ok(Some(MOST_PINS)),
            Err(why) => Err(why),
        }
    }

    /// Puts a pin into the last entry.
    pub fn fill_place(&mut self, hold: Hold)
        requires { 0 < length self.old.holds }
        ensures { self.new ≡ record self.old {
          holds = take (length self.old.holds - 1) self.old.holds ++ hold ∷ [];
        } }
    {
        set_last(&mut self.holds, hold);
    }

    /// Removes the last entry.
    pub fn free_place(&mut self)
        requires { 0 < length self.old.holds }
        ensures { self.new ≡ record self.old { holds = take (length self.old.holds - 1) self.old.holds } }
    {
        let _free = self.holds.pop();
        self.pins.shrink(1);
    }

    /// The pin of this number, if the connection has it.
    pub fn hold_of(&self, number: u64) -> Option<Hold>
        ensures { result ≡ held_by number self.now.holds }
    {
        hold_of(&self.holds, number)
    }

    /// Removes the pin of this number.
    pub fn forget(&mut self, number: u64)
        ensures { self.new ≡ record self.old { holds = filter (is_other_hold number) self.old.holds } }
    {
        let count = self.holds.len();
        self.holds.retain(|hold| !(hold.reader == number));
        self.pins.shrink((count - self.holds.len()) as u64);
    }
}
