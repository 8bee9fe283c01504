//! What a seat replies to requests that change its node, and to all others.

ghost use Rattle.std.specs.Prelude.{◌≡◌, ◌<◌, true, length, take, IfOk, IfErr, OnOk, OnErr};
ghost use mathlib.Core.List.{IsPrefix};
ghost use Rattle.hk_model.specs.Replica.Rules.{gather_result};
ghost use Rattle.hk_delta.specs.Gathers.{Gathers};
ghost use Rattle.hk_types.specs.declared.faults.Refusal.TheVariants.{Unpublished};
ghost use Rattle.hk_messages.specs.Replies.{reply_seen};
ghost use Rattle.hk_oplog.specs.declared.op.Op.{Op};
ghost use Rattle.hk_oplog.specs.declared.op.Op.TheVariants.{Join, Prune as PruneTo};
ghost use Rattle.hk_node.specs.Changes.{ChangesSome};
ghost use Rattle.hk_node.specs.Guarded.{TakesSome};
ghost use Rattle.hk_oplog.specs.NewItems.{new_to};
ghost use Rattle.hk_oplog.specs.Replay.{is_legal};
ghost use Rattle.hk_seats.specs.Replying.{IsChangeReply, IsItemsReply, IsReplyToItems, IsTold, MayReply, fed_reply, items_reply};

use crate::reading::read_at;
use hk_batch::{OpenGate, build};
use hk_delta::fragment_of;
use hk_fragment::Fragment;
use hk_log::Item;
use hk_messages::{LaterReply, Reply, Request};
use hk_node::{Node, NodeName, ReaderSeat, Receipt};
use hk_types::{Config, Refusal, Time};
use std::alloc::Global;
use std::sync::Wait;
use std::thread::Threads;

/// How many items a list has at least that several workers gather.
const LONG_LIST: usize = 4_096;

/// How many workers gather a long list.
const WORKERS: usize = 4;

/// Applies the receipt of a change that was just made, and returns the number of its operations, more than the seat had
/// seen. A receipt of no more than that doesn't come; the change is reported then as one that waits to be shown. Cost: O(1).
pub fn learn<J: NodeName>(seat: &mut ReaderSeat<J>, receipt: Receipt<J>) -> Result<u64, Refusal>
    ensures legal { is_legal seat.new ≡ true }
    ensures seen { IsPrefix seat.old seat.new }
    ensures done { IfOk result (λ ops. ops ≡ length receipt) }
    ensures told { OnOk result (IsPrefix receipt seat.new) }
    ensures later { OnOk result (length seat.old < length receipt) }
    ensures waits { IfErr result (λ why. why ≡ Unpublished (length receipt)) }
    ensures kept { OnErr result (seat.new ≡ seat.old) }
{
    let ops = receipt.ops();
    if ops <= seat.seen() {
        return Err(Refusal::Unpublished { ops });
    }
    seat.learn(receipt);
    let _legal = seat.seen();
    Ok(ops)
}

/// The reply to a change that the node answered so.
fn reply_to<J: NodeName>(seat: &mut ReaderSeat<J>, answered: Result<Receipt<J>, Refusal>) -> Reply
    ensures legal { is_legal seat.new ≡ true }
    ensures seen { IsPrefix seat.old seat.new }
    ensures told { (o : Op) → ChangesSome J.kind o answered → IsChangeReply J.kind seat.old seat.new o (reply_seen result) }
{
    match answered {
        Ok(receipt) => match learn(seat, receipt) {
            Ok(ops) => Reply::Done { ops },
            Err(why) => Reply::Refused(why),
        },
        Err(why) => {
            let _legal = seat.seen();
            Reply::Refused(why)
        }
    }
}

/// A prune.
fn prune<J: NodeName, N: Wait + Drop, R: Wait>(
    rt: &R,
    node: &Node<J, N>,
    seat: &mut ReaderSeat<J>,
    horizon: Time,
) -> Reply
    ensures legal { is_legal seat.new ≡ true }
    ensures seen { IsPrefix seat.old seat.new }
    ensures told { IsChangeReply J.kind seat.old seat.new (PruneTo horizon) (reply_seen result) }
{
    match node.prune(rt, horizon) {
        Ok((_, receipt)) => reply_to(seat, Ok(receipt)),
        Err(why) => reply_to(seat, Err(why)),
    }
}

/// The one fragment that items make. A long list is gathered by several workers, which are waited for.
fn gather<R: Threads + Wait + Sync>(
    rt: &R,
    alloc: Global,
    config: Config,
    items: &[Item],
) -> Result<Fragment, Refusal>
    ensures { Gathers config items.now result }
{
    if items.len() < LONG_LIST {
        return fragment_of(alloc, config, items);
    }
    build(rt, alloc, config, items, WORKERS, &OpenGate)
}

/// A fragment that items made, to a node that is not guarded: it is joined. Returns the number of operations, and how many
/// of the items were new.
fn join_gathered<J: NodeName, N: Wait + Drop, R: Wait>(
    rt: &R,
    node: &Node<J, N>,
    seat: &mut ReaderSeat<J>,
    fragment: Fragment,
    items: &[Item],
) -> Result<(u64, u64), Refusal>
    ensures legal { is_legal seat.new ≡ true }
    ensures seen { IsPrefix seat.old seat.new }
    ensures told { IsChangeReply J.kind seat.old seat.new (Join fragment) (items_reply result) }
    ensures new { IfOk result (λ t. t.1 ≡ new_to (take t.0 seat.new) items.now) }
{
    match node.join_gathered(rt, fragment, items) {
        Ok((new, receipt)) => match learn(seat, receipt) {
            Ok(ops) => Ok((ops, new)),
            Err(why) => Err(why),
        },
        Err(why) => {
            let _legal = seat.seen();
            Err(why)
        }
    }
}

/// Items to a node that is not guarded: the fragment that they make is joined.
fn gather_and_join<J: NodeName, N: Wait + Drop, R: Threads + Wait + Sync>(
    rt: &R,
    alloc: Global,
    node: &Node<J, N>,
    seat: &mut ReaderSeat<J>,
    items: &[Item],
) -> Result<(u64, u64), Refusal>
    ensures legal { is_legal seat.new ≡ true }
    ensures seen { IsPrefix seat.old seat.new }
    ensures told { IsItemsReply J.kind seat.old seat.new (gather_result J.kind.config items.now) (items_reply result) }
    ensures new { IfOk result (λ t. t.1 ≡ new_to (take t.0 seat.new) items.now) }
{
    match gather(rt, alloc, seat.config(), items) {
        Ok(fragment) => join_gathered(rt, node, seat, fragment, items),
        Err(why) => {
            let _legal = seat.seen();
            Err(why)
        }
    }
}

/// Items to a guarded node: they are applied where each agrees with what it holds, and with those before it.
fn take<J: NodeName, N: Wait + Drop, R: Wait>(
    rt: &R,
    node: &Node<J, N>,
    seat: &mut ReaderSeat<J>,
    items: &[Item],
) -> Result<(u64, u64), Refusal>
    ensures legal { is_legal seat.new ≡ true }
    ensures seen { IsPrefix seat.old seat.new }
    ensures told { IsTold (TakesSome J.kind items.now) seat.old seat.new (items_reply result) }
    ensures new { IfOk result (λ t. t.1 ≡ new_to (take t.0 seat.new) items.now) }
{
    match node.take(rt, items) {
        Ok((new, receipt)) => match learn(seat, receipt) {
            Ok(ops) => Ok((ops, new)),
            Err(why) => Err(why),
        },
        Err(why) => {
            let _legal = seat.seen();
            Err(why)
        }
    }
}

fn take_items<J: NodeName, N: Wait + Drop, R: Threads + Wait + Sync>(
    rt: &R,
    alloc: Global,
    node: &Node<J, N>,
    seat: &mut ReaderSeat<J>,
    items: &[Item],
) -> Result<(u64, u64), Refusal>
    ensures legal { is_legal seat.new ≡ true }
    ensures seen { IsPrefix seat.old seat.new }
    ensures told { IsReplyToItems J.kind seat.old seat.new items.now (items_reply result) }
    ensures new { IfOk result (λ t. t.1 ≡ new_to (take t.0 seat.new) items.now) }
{
    if seat.is_guarded() {
        return take(rt, node, seat, items);
    }
    gather_and_join(rt, alloc, node, seat, items)
}

/// The reply to items that came to this.
fn items_told(taken: Result<(u64, u64), Refusal>) -> Reply
    ensures { reply_seen result ≡ items_reply taken }
{
    match taken {
        Ok((ops, _)) => Reply::Done { ops },
        Err(why) => Reply::Refused(why),
    }
}

/// The same, where the reply has how many of the items were new.
fn fed_told(taken: Result<(u64, u64), Refusal>) -> Reply
    ensures { reply_seen result ≡ fed_reply taken }
{
    match taken {
        Ok((ops, new)) => Reply::Later(LaterReply::Fed { ops, new }),
        Err(why) => Reply::Later(LaterReply::Refused(why)),
    }
}

/// Answers a request by a node and a seat of it.
///
/// Items are applied all or nothing, as the join of the one fragment that they make. Lists of 4,096 items and more are
/// gathered by four workers side by side, shorter ones by the thread that answers. In a guarded node they are applied by
/// `Node::take`, as absorbed one after the other. A fragment is joined, and a full snapshot is joined in the same way. The
/// receipt of a change that took effect goes to the seat, so that later replies show the change, and the
/// reply is `Done` with the number of operations that ends with it. Feed is Items, answered `Fed`, which also has how many of
/// the items were new to what the node held right before. A refused change is answered as the node refuses it, and items that
/// make no fragment as their gathering is. `Unpublished` means that the change is made and waits. The other requests are
/// answered by the seat, and take no lock. Cost: that of the calls.
pub fn answer_at<J: NodeName, N: Wait + Drop, R: Threads + Wait + Sync>(
    rt: &R,
    alloc: Global,
    node: &Node<J, N>,
    seat: &mut ReaderSeat<J>,
    request: Request,
) -> Reply
    ensures { MayReply J.kind seat.old request result seat.new }
{
    match request {
        Request::Items(items) => items_told(take_items(rt, alloc, node, seat, &items)),
        Request::Feed(items) => fed_told(take_items(rt, alloc, node, seat, &items)),
        Request::JoinThis(fragment) | Request::MergeThis(fragment) => {
            let answered = node.join(rt, fragment);
            reply_to(seat, answered)
        }
        Request::Prune { horizon } => prune(rt, node, seat, horizon),
        other => read_at(seat, other),
    }
}
