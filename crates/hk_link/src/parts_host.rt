//! A host that speaks both versions, over a host of a node for version 1.

ghost use Rattle.std.specs.Prelude.{◌≡◌, ◌<◌, true, length, IfSome, IfNone};
ghost use mathlib.Core.List.{IsPrefix};
ghost use Rattle.hk_fragment.specs.Heads.{of_facts};
ghost use Rattle.hk_messages.specs.LaterReplies.{reply_seen};
ghost use Rattle.hk_oplog.specs.Replay.{is_legal};
ghost use Rattle.hk_link_state.specs.LaterReplying.{AreLetGo, AsksHoldInPlace, IfTold, IsFirstReply, IsFull, IsHeld, IsLaterReply, IsOrMemory, IsReleased, JoinsMade, KeepsOther, LetsGo, MayReplyBoth, TellsLatest, TellsNumbers, TellsSizes, TellsTables, change_seen, content_of, latest_reply, page_reply, ready_reply, streams_reply};
ghost use Rattle.hk_link_state.specs.LinkStates.{fresh_state, link_of};

use hk_encodings::kind_of;
use hk_fragment_bytes::FragmentHead;
use hk_link_state::{LinkState, NodeSide, give, is_limited};
use hk_messages::{LaterReply, LaterRequest, Reply, Request};
use hk_model::{Front, PageQuery, Query};
use hk_oplog::{Hold, NodeSizes};
use hk_session_parts::Host;
use hk_types::{FormFault, Refusal, Time};
use std::marker::Model;

/// At so many keys a worker looks for a short answer.
const FEW_LOOKS: u64 = 4_096;

/// A host for both versions over one for version 1, with what the connection keeps: what it sends in chunks, the chunks that came,
/// and its pins. Contracts see it as the state of a connection.
///
/// A request of version 1 goes to the inner host, and changes nothing else of the connection. A fragment is cut once,
/// when it is asked for, and its chunks are sent one after the other from what was cut then; a connection keeps one.
/// The chunks that came are dropped once a head is there, whether they make a fragment or not. For what it sends and
/// for what came it reserves room of the node's budget. Cost: that of the seat's and the node's calls, and a copy of
/// each chunk that is sent.
#[derive(Drop)]
pub struct PartsHost<'a, H: NodeSide + Drop> {
    inner: H,
    kept: LinkState<'a>,
}

impl<'a, H: NodeSide + Drop> Model for PartsHost<'a, H> {
    ghost use Rattle.hk_link_state.specs.LinkStates.{LinkValue, link_code, link_of};
    ghost use Rattle.hk_oplog.specs.contracts.op.Hold as hold;

    ghost Value = { LinkValue H };

    ghost coded = { link_code H.code hold.the_row.coded };

    ghost view = { λ h. link_of h.inner h.kept };
}

/// The reply of version 1 to a change, in version 2.
fn later_reply(answer: Reply) -> LaterReply
    ensures { reply_seen result ≡ change_seen answer }
{
    match answer {
        Reply::Done { ops } => LaterReply::Done { ops },
        Reply::Refused(why) => LaterReply::Refused(why),
        other => {
            drop(other);
            LaterReply::Refused(Refusal::Form(FormFault::BadKind))
        }
    }
}

/// Whether the answer to a query may have many rows.
fn is_long(query: &Query) -> bool {
    matches!(query, Query::Range { .. } | Query::ByTag { .. })
}

/// Whether the reply to a request of version 1 may be long.
fn may_be_long(request: &Request) -> bool {
    match request {
        Request::Delta { .. } | Request::Full => true,
        Request::Ask { query, .. } => is_long(query),
        _ => false,
    }
}

/// The number of the refusal that a reply is, if it is one.
fn refusal_of(reply: &Reply) -> Option<u8> {
    match reply {
        Reply::Refused(why) | Reply::Later(LaterReply::Refused(why)) => Some(why.number()),
        _ => None,
    }
}

impl<'a, H: NodeSide + Drop> PartsHost<'a, H> {
    /// A host for both versions over one for version 1, with what the connection keeps. It takes no memory.
    pub fn new(inner: H, kept: LinkState<'a>) -> PartsHost<'a, H>
        ensures { result ≡ link_of inner kept.entry }
    {
        PartsHost { inner, kept }
    }

    /// The inner host, and what the connection keeps: the opposite of `new`, so that one host can answer for many connections, each
    /// with its own state, one after the other. It changes nothing, releases no pin and takes no memory.
    pub fn into_parts(self) -> (H, LinkState<'a>)
        ensures { self.entry ≡ link_of result.0 result.1 }
    {
        (self.inner, self.kept)
    }

    /// Ends the connection: asks for the release of each of its pins, one after the other, and of no other. Returns the
    /// inner host, and the state with which the next connection begins: it has just those of the pins that are still active,
    /// since the node handed them back, and nothing else. What this one sent and what came is dropped, with the room that was
    /// reserved for it. It takes no memory beside that of the releases. Cost: that of the releases.
    pub fn end(self) -> (H, LinkState<'a>)
        ensures released { AreLetGo H.side.may_release self.entry.inner self.entry.holds
            result.0 result.1.holds }
        ensures fresh { result.1 ≡ fresh_state self.entry.most result.1.holds }
        ensures seen { IsPrefix (H.side.list self.entry.inner) (H.side.list result.0) }
    {
        let mut inner = self.inner;
        let left = self.kept.release_all(&mut inner);
        (inner, left)
    }

    /// The number of the pin that the connection made last of those that it has, if it has one: a Release of it is one of a pin of this
    /// connection. Cost: O(1).
    pub fn last_pin(&self) -> Option<u64> {
        self.kept.last_pin()
    }

    /// Has answers and cuts keep within so many bytes.
    fn keep_within(&mut self, room: u64)
        ensures { self.new ≡ self.old }
    {
        self.inner.keep_within(room);
    }

    fn streams(&mut self) -> LaterReply
        ensures legal { is_legal (H.side.list self.new.inner) ≡ true }
        ensures seen { IsPrefix (H.side.list self.old.inner) (H.side.list self.new.inner) }
        ensures same { KeepsOther self.old self.new }
        ensures told { IsOrMemory (streams_reply (content_of H.side self.new)) (reply_seen result) }
        ensures ready { H.ready self.old.inner → H.ready self.new.inner }
    {
        match self.inner.streams() {
            Ok(told) => LaterReply::Streams(told),
            Err(why) => LaterReply::Refused(why),
        }
    }

    /// The numbers of what the node holds and did, with what is counted of its connections where that is done.
    fn stats(&mut self) -> LaterReply
        ensures legal { is_legal (H.side.list self.new.inner) ≡ true }
        ensures seen { IsPrefix (H.side.list self.old.inner) (H.side.list self.new.inner) }
        ensures same { KeepsOther self.old self.new }
        ensures told { TellsNumbers (content_of H.side self.new) (reply_seen result) }
        ensures ready { H.ready self.old.inner → H.ready self.new.inner }
    {
        match self.inner.sizes() {
            Ok(sizes) => self.stats_of(&sizes),
            Err(why) => LaterReply::Refused(why),
        }
    }

    /// These numbers of what the node holds, with what is counted of its connections.
    fn stats_of(&self, sizes: &NodeSizes) -> LaterReply
        ensures { TellsSizes sizes.now (reply_seen result) }
    {
        match self.kept.metrics(sizes) {
            Ok(metrics) => LaterReply::Stats(metrics),
            Err(_memory) => LaterReply::Refused(Refusal::Memory),
        }
    }

    /// The tables of which the node holds anything.
    fn tables(&mut self) -> LaterReply
        ensures legal { is_legal (H.side.list self.new.inner) ≡ true }
        ensures seen { IsPrefix (H.side.list self.old.inner) (H.side.list self.new.inner) }
        ensures same { KeepsOther self.old self.new }
        ensures told { TellsTables (content_of H.side self.new) (reply_seen result) }
        ensures ready { H.ready self.old.inner → H.ready self.new.inner }
    {
        match self.inner.tables() {
            Ok(tables) => LaterReply::Tables(tables),
            Err(why) => LaterReply::Refused(why),
        }
    }

    /// The node's range of readable times. Whoever runs the session has waited by now.
    fn ready(&mut self) -> LaterReply
        ensures legal { is_legal (H.side.list self.new.inner) ≡ true }
        ensures seen { IsPrefix (H.side.list self.old.inner) (H.side.list self.new.inner) }
        ensures same { KeepsOther self.old self.new }
        ensures told { IsOrMemory (ready_reply (content_of H.side self.new)) (reply_seen result) }
        ensures ready { H.ready self.old.inner → H.ready self.new.inner }
    {
        match self.inner.marks() {
            Ok(Front { horizon, readable }) => LaterReply::Ready { horizon, readable },
            Err(why) => LaterReply::Refused(why),
        }
    }

    fn latest(&mut self, query: &Query) -> LaterReply
        ensures legal { is_legal (H.side.list self.new.inner) ≡ true }
        ensures seen { IsPrefix (H.side.list self.old.inner) (H.side.list self.new.inner) }
        ensures same { KeepsOther self.old self.new }
        ensures told { TellsLatest self.old.most (content_of H.side self.new) query.now (reply_seen result) }
        ensures ready { H.ready self.old.inner → H.ready self.new.inner }
    {
        let left = self.kept.left();
        self.keep_within(left);
        match self.inner.latest(query) {
            Ok((t, answer)) => LaterReply::Latest { t, answer },
            Err(Refusal::Memory) => self.refuse_latest(query),
            Err(why) => LaterReply::Refused(why),
        }
    }

    /// The refusal of an answer that was not made for want of memory: where that is for the budget's limit, so many bytes are the most.
    fn refuse_latest(&mut self, query: &Query) -> LaterReply
        ensures legal { is_legal (H.side.list self.new.inner) ≡ true }
        ensures seen { IsPrefix (H.side.list self.old.inner) (H.side.list self.new.inner) }
        ensures same { KeepsOther self.old self.new }
        ensures told { TellsLatest self.old.most (content_of H.side self.new) query.now (reply_seen result) }
        ensures ready { H.ready self.old.inner → H.ready self.new.inner }
    {
        let is_limited = is_limited(&mut self.inner, &self.kept);
        match self.inner.marks() {
            Ok(_whole) if is_limited => LaterReply::Refused(self.kept.no_room()),
            _ => LaterReply::Refused(Refusal::Memory),
        }
    }

    fn page(&mut self, of: PageQuery) -> LaterReply
        ensures legal { is_legal (H.side.list self.new.inner) ≡ true }
        ensures seen { IsPrefix (H.side.list self.old.inner) (H.side.list self.new.inner) }
        ensures same { KeepsOther self.old self.new }
        ensures told { IsOrMemory
            (page_reply (content_of H.side self.new) of) (reply_seen result) }
        ensures ready { H.ready self.old.inner → H.ready self.new.inner }
    {
        match self.inner.page(of) {
            Ok(page) => LaterReply::Page(page),
            Err(why) => LaterReply::Refused(why),
        }
    }

    /// Has the inner host join what the head and the chunks that came make.
    fn join(&mut self, head: FragmentHead) -> LaterReply
        requires ready { H.ready self.old.inner }
        ensures seen { IsPrefix (H.side.list self.old.inner) (H.side.list self.new.inner) }
        ensures told { JoinsMade H.may self.old.inner (of_facts head self.old.came) (reply_seen result) self.new.inner }
        ensures same { LetsGo self.old self.new }
        ensures ready { H.ready self.new.inner }
    {
        match self.kept.take_fragment(head) {
            // The room is returned once it is joined.
            Ok((fragment, _room)) => later_reply(self.answer_first(Request::JoinThis(fragment))),
            Err(told) => told,
        }
    }

    /// The refusal of a pin for which there is no room: the node's own comes first, and else so many are the most.
    fn refuse_hold(&mut self, time: Time, most: u64) -> LaterReply
        ensures seen { IsPrefix (H.side.list self.old.inner) (H.side.list self.new.inner) }
        ensures told { IsFull most H.side.may_hold self.old time (reply_seen result) self.new }
        ensures ready { H.ready self.old.inner → H.ready self.new.inner }
    {
        LaterReply::Refused(match self.inner.hold_refusal(time) {
            Refusal::Memory => Refusal::LinkFull { most },
            why => why,
        })
    }

    /// Pins a time, once there is room for the pin among those of all connections and in this connection's list.
    fn hold(&mut self, time: Time) -> LaterReply
        ensures seen { IsPrefix (H.side.list self.old.inner) (H.side.list self.new.inner) }
        ensures told { IsHeld H.side.may_hold self.old time (reply_seen result) self.new }
        ensures ready { H.ready self.old.inner → H.ready self.new.inner }
    {
        match self.kept.place_for(time) {
            Ok(None) => self.ask_hold(time),
            Ok(Some(most)) => self.refuse_hold(time, most),
            Err(_no_memory) => LaterReply::Refused(self.inner.hold_refusal(time)),
        }
    }

    /// Pins a time. The last entry in the connection's list is free for the pin.
    fn ask_hold(&mut self, time: Time) -> LaterReply
        requires { 0 < length self.old.holds }
        ensures seen { IsPrefix (H.side.list self.old.inner) (H.side.list self.new.inner) }
        ensures told { AsksHoldInPlace H.side.may_hold self.old time (reply_seen result) self.new }
        ensures ready { H.ready self.old.inner → H.ready self.new.inner }
    {
        match self.inner.hold(time) {
            Ok(hold) => {
                let reply = LaterReply::Held {
                    number: hold.reader,
                    t: hold.at,
                };
                self.kept.fill_place(hold);
                reply
            }
            Err((Some(hold), why)) => {
                self.kept.fill_place(hold);
                LaterReply::Refused(why)
            }
            Err((None, why)) => {
                self.kept.free_place();
                LaterReply::Refused(why)
            }
        }
    }

    /// Releases a pin of this connection.
    fn release(&mut self, number: u64) -> LaterReply
        ensures seen { IsPrefix (H.side.list self.old.inner) (H.side.list self.new.inner) }
        ensures told { IsReleased H.side.may_release self.old number (reply_seen result) self.new }
        ensures ready { H.ready self.old.inner → H.ready self.new.inner }
    {
        let Some(hold) = self.kept.hold_of(number) else {
            return LaterReply::Refused(Refusal::NoHold);
        };
        match self.inner.release(hold) {
            Ok(ops) => {
                self.kept.forget(number);
                LaterReply::Done { ops }
            }
            Err((Some(_stands), why)) => LaterReply::Refused(why),
            Err((None, why)) => {
                self.kept.forget(number);
                LaterReply::Refused(why)
            }
        }
    }

    /// Answers a request of version 1.
    fn answer_first(&mut self, request: Request) -> Reply
        requires ready { H.ready self.old.inner }
        ensures seen { IsPrefix (H.side.list self.old.inner) (H.side.list self.new.inner) }
        ensures told { IsFirstReply H.may self.old request result self.new }
        ensures ready { H.ready self.new.inner }
    {
        H::laws();
        if may_be_long(&request) {
            let left = self.kept.left();
            self.keep_within(left);
        }
        self.inner.answer(request)
    }

    /// Answers a request of version 2.
    fn answer_later(&mut self, request: LaterRequest) -> LaterReply
        requires ready { H.ready self.old.inner }
        ensures seen { IsPrefix (H.side.list self.old.inner) (H.side.list self.new.inner) }
        ensures told { IsLaterReply H.side H.may self.old request (reply_seen result) self.new }
        ensures ready { H.ready self.new.inner }
    {
        match request {
            LaterRequest::Streams => self.streams(),
            LaterRequest::AskLatest { query } => self.latest(&query),
            LaterRequest::Page(of) => self.page(of),
            LaterRequest::Await { .. } => self.ready(),
            LaterRequest::Stats => self.stats(),
            LaterRequest::Tables => self.tables(),
            LaterRequest::Whole { base, most_bytes } => {
                give(&mut self.inner, &mut self.kept, Some((base, most_bytes)))
            }
            LaterRequest::More => give(&mut self.inner, &mut self.kept, None),
            LaterRequest::AddPart(facts) => self.kept.add(facts),
            LaterRequest::JoinParts(head) | LaterRequest::MergeParts(head) => self.join(head),
            LaterRequest::Hold { t } => self.hold(t),
            LaterRequest::Release { number } => self.release(number),
        }
    }

    /// The same page where it takes few looks.
    fn page_briefly(&mut self, of: PageQuery) -> Option<LaterReply>
        ensures legal { is_legal (H.side.list self.new.inner) ≡ true }
        ensures seen { IsPrefix (H.side.list self.old.inner) (H.side.list self.new.inner) }
        ensures same { KeepsOther self.old self.new }
        ensures told { IfTold result
            (IsOrMemory (page_reply (content_of H.side self.new) of)) }
        ensures ready { H.ready self.old.inner → H.ready self.new.inner }
    {
        match self.inner.page_within(of, FEW_LOOKS) {
            Ok(Some(page)) => Some(LaterReply::Page(page)),
            Ok(None) => None,
            Err(why) => Some(LaterReply::Refused(why)),
        }
    }

    /// The tables where they are few.
    fn tables_briefly(&mut self) -> Option<LaterReply>
        ensures legal { is_legal (H.side.list self.new.inner) ≡ true }
        ensures seen { IsPrefix (H.side.list self.old.inner) (H.side.list self.new.inner) }
        ensures same { KeepsOther self.old self.new }
        ensures told { IfTold result (TellsTables (content_of H.side self.new)) }
        ensures ready { H.ready self.old.inner → H.ready self.new.inner }
    {
        match self.inner.tables_within(FEW_LOOKS) {
            Ok(Some(tables)) => Some(LaterReply::Tables(tables)),
            Ok(None) => None,
            Err(why) => Some(LaterReply::Refused(why)),
        }
    }

    /// The reply to a request of version 2 for a page or for the tables, where it takes few looks.
    fn later_briefly(&mut self, request: &LaterRequest) -> Option<LaterReply>
        ensures told { IfSome result
            (λ reply. IsLaterReply H.side H.may self.old request.now (reply_seen reply) self.new) }
        ensures kept { IfNone result (KeepsOther self.old self.new) }
        ensures seen { IsPrefix (H.side.list self.old.inner) (H.side.list self.new.inner) }
        ensures ready { H.ready self.old.inner → H.ready self.new.inner }
    {
        match request {
            LaterRequest::Page(of) => self.page_briefly(*of),
            LaterRequest::Tables => self.tables_briefly(),
            _ => None,
        }
    }

    /// The reply to a request for a page or for the tables, where it takes at most 4,096 looks at a key. `None` where it takes more,
    /// of which nothing is made, and for each other request: the connection is as before then, but for what its seat has seen. Cost:
    /// O(log n + k · log n + b), n facts, at most 4,096 keys k, b bytes of the bodies that are copied.
    pub fn answer_briefly(&mut self, request: &Request) -> Option<Reply>
        requires ready { H.ready self.old.inner }
        ensures told { IfSome result
            (λ reply. MayReplyBoth H.side H.may self.old request.now reply self.new) }
        ensures kept { IfNone result (KeepsOther self.old self.new) }
        ensures seen { IsPrefix (H.side.list self.old.inner) (H.side.list self.new.inner) }
        ensures ready { H.ready self.new.inner }
    {
        let Request::Later(later) = request else {
            return None;
        };
        let Some(told) = self.later_briefly(later) else {
            return None;
        };
        let reply = Reply::Later(told);
        self.kept.count(kind_of(request), refusal_of(&reply));
        Some(reply)
    }

    /// Answers a request of either version that no peer sent: it isn't counted.
    pub fn answer_uncounted(&mut self, request: Request) -> Reply
        requires ready { H.ready self.old.inner }
        ensures told { MayReplyBoth H.side H.may self.old request result self.new }
        ensures ready { H.ready self.new.inner }
    {
        match request {
            Request::Later(later) => Reply::Later(self.answer_later(later)),
            first => self.answer_first(first),
        }
    }
}

impl<'a, H: NodeSide + Drop> Host for PartsHost<'a, H> {
    ghost use Rattle.hk_link_state.specs.LaterReplying.{MayReplyBoth};

    ghost may = { MayReplyBoth H.side H.may };

    ghost ready = { λ h. H.ready h.inner };

    fn answer(&mut self, request: Request) -> Reply {
        let kind = kind_of(&request);
        let reply = self.answer_uncounted(request);
        self.kept.count(kind, refusal_of(&reply));
        reply
    }
}
