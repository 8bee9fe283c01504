//! What a seat replies to requests that change nothing.

ghost use Rattle.std.specs.Prelude.{◌≡◌, true};
ghost use mathlib.Core.List.{IsPrefix};
ghost use Rattle.hk_types.specs.declared.faults.FormFault.TheVariants.{BadKind};
ghost use Rattle.hk_types.specs.declared.faults.Refusal.TheVariants.{Form};
ghost use Rattle.hk_messages.specs.Replies.{Refused, reply_seen};
ghost use Rattle.hk_state_host.specs.Steps.{query_reply, fragment_reply};
ghost use Rattle.hk_oplog.specs.Replay.{is_legal, replay};
ghost use Rattle.hk_oplog.specs.Replies.{node_delta, node_front, node_reply, node_whole};
ghost use Rattle.hk_seats.specs.Replying.{IsOrOutOfMemory, MayOnlyRead, front_reply};

use hk_messages::{Reply, Request};
use hk_model::Query;
use hk_node::{NodeName, ReaderSeat};
use hk_types::{FormFault, Refusal, Time};

/// The reply to a request that has no meaning here, which is dropped. Cost: O(1).
pub fn no_kind<J: NodeName, C: Drop>(seat: &ReaderSeat<J>, _asked: C) -> Reply
    ensures legal { is_legal seat.now ≡ true }
    ensures told { reply_seen result ≡ Refused (Form BadKind) }
{
    let _legal = seat.seen();
    Reply::Refused(Refusal::Form(FormFault::BadKind))
}

fn front<J: NodeName>(seat: &mut ReaderSeat<J>) -> Reply
    ensures legal { is_legal seat.new ≡ true }
    ensures seen { IsPrefix seat.old seat.new }
    ensures told { IsOrOutOfMemory (front_reply (node_front (replay seat.new))) (reply_seen result) }
{
    match seat.front() {
        Ok(front) => Reply::Front(front),
        Err(why) => Reply::Refused(why),
    }
}

fn delta<J: NodeName>(seat: &mut ReaderSeat<J>, base: Time) -> Reply
    ensures legal { is_legal seat.new ≡ true }
    ensures seen { IsPrefix seat.old seat.new }
    ensures told { IsOrOutOfMemory (fragment_reply (node_delta (replay seat.new) base)) (reply_seen result) }
{
    match seat.delta_since(base) {
        Ok(fragment) => Reply::Fragment(fragment),
        Err(why) => Reply::Refused(why),
    }
}

fn whole<J: NodeName>(seat: &mut ReaderSeat<J>) -> Reply
    ensures legal { is_legal seat.new ≡ true }
    ensures seen { IsPrefix seat.old seat.new }
    ensures told { IsOrOutOfMemory (fragment_reply (node_whole (replay seat.new))) (reply_seen result) }
{
    match seat.whole() {
        Ok(fragment) => Reply::Fragment(fragment),
        Err(why) => Reply::Refused(why),
    }
}

fn ask<J: NodeName>(seat: &mut ReaderSeat<J>, time: Time, query: &Query) -> Reply
    ensures legal { is_legal seat.new ≡ true }
    ensures seen { IsPrefix seat.old seat.new }
    ensures told { IsOrOutOfMemory (query_reply (node_reply (replay seat.new) time query.now)) (reply_seen result) }
{
    match seat.ask(time, query) {
        Ok(answer) => Reply::Answer(answer),
        Err(why) => Reply::Refused(why),
    }
}

/// Answers a request by a seat alone. Front, Delta, Full and Ask are answered by the seat, and take no lock. Each other request is refused
/// with 4, as a kind that has no meaning here, and nothing changed. Cost: that of the seat's calls.
pub fn read_at<J: NodeName>(seat: &mut ReaderSeat<J>, request: Request) -> Reply
    ensures { MayOnlyRead seat.old request result seat.new }
{
    match request {
        Request::Front => front(seat),
        Request::Delta { base } => delta(seat, base),
        Request::Full => whole(seat),
        Request::Ask { t, query } => ask(seat, t, &query),
        other => no_kind(seat, other),
    }
}
