//! What a connection is sent in chunks of what its node holds.

ghost use Rattle.std.specs.Prelude.{◌≡◌, ◌==◌, ◌||◌, nat_le, true};
ghost use mathlib.Core.List.{IsPrefix};
ghost use Rattle.hk_messages.specs.LaterReplies.{reply_seen};
ghost use Rattle.hk_oplog.specs.Replay.{is_legal, replay};
ghost use Rattle.hk_link_state.specs.LaterReplying.{IsGiven, RefusesCut, TellsCut};
ghost use Rattle.hk_link_state.specs.LinkStates.{link_of};

use crate::link_state::LinkState;
use crate::node_side::NodeSide;
use hk_messages::LaterReply;
use hk_types::{Refusal, Time};

/// Whether a delta since a time, or for the time 0 the full snapshot, is cut by a node with this oldest readable time.
fn is_cut(base: Time, horizon: Time) -> bool
    ensures { result ≡ ((base == 0) || nat_le horizon base) }
{
    base.number() == 0 || horizon <= base
}

/// Whether the node holds more than the budget has left for this connection, so that a reply may be refused for that. Cost: that of
/// the host's `sizes`.
pub fn is_limited<H: NodeSide>(inner: &mut H, kept: &LinkState<'_>) -> bool
    ensures legal { is_legal (H.side.list inner.new) ≡ true }
    ensures seen { IsPrefix (H.side.list inner.old) (H.side.list inner.new) }
    ensures ready { H.ready inner.old → H.ready inner.new }
{
    let left = kept.left();
    match inner.sizes() {
        Ok(sizes) => sizes.weight > left,
        Err(_no_memory) => false,
    }
}

/// The refusal of what was not cut for want of memory: where that is for the budget's limit, so many bytes are the most.
fn refuse_cut<H: NodeSide>(inner: &mut H, kept: &LinkState<'_>, base: Time) -> LaterReply
    ensures legal { is_legal (H.side.list inner.new) ≡ true }
    ensures seen { IsPrefix (H.side.list inner.old) (H.side.list inner.new) }
    ensures told { RefusesCut kept.now.most (replay (H.side.list inner.new)) base (reply_seen result) }
    ensures ready { H.ready inner.old → H.ready inner.new }
{
    let is_limited = is_limited(inner, kept);
    match inner.marks() {
        Ok(front) if is_limited && is_cut(base, front.horizon) => {
            LaterReply::Refused(kept.no_room())
        }
        _ => LaterReply::Refused(Refusal::Memory),
    }
}

/// Cuts what the node holds, and returns the first chunk of it.
fn whole<H: NodeSide>(inner: &mut H, kept: &mut LinkState<'_>, base: Time, most: u32) -> LaterReply
    ensures legal { is_legal (H.side.list inner.new) ≡ true }
    ensures seen { IsPrefix (H.side.list inner.old) (H.side.list inner.new) }
    ensures told { TellsCut H.side kept.old inner.new base most (reply_seen result) kept.new.giving }
    ensures same { kept.new ≡ record kept.old { giving = kept.new.giving } }
    ensures ready { H.ready inner.old → H.ready inner.new }
{
    let left = kept.left_for_another();
    inner.keep_within(left);
    match inner.cut(base) {
        Ok(fragment) => kept.begin(fragment, most),
        Err(Refusal::Memory) => {
            kept.stop_giving();
            refuse_cut(inner, kept, base)
        }
        Err(why) => {
            kept.stop_giving();
            LaterReply::Refused(why)
        }
    }
}

/// The chunk that is sent now: where a cut is asked for, since this time and with at most so many bytes a chunk, the first chunk of what
/// the node holds now, which is sent from here on; else the next chunk of what is sent. Refusals: of a cut as the host's `cut`, `Form`
/// where its head is too long for a message, and `LinkFull` where there is no room for it; else `NoPart` where nothing is sent, and
/// `Memory`, with what is sent as before. Cost: that of the cut, and a copy of the chunk.
pub fn give<H: NodeSide>(
    inner: &mut H,
    kept: &mut LinkState<'_>,
    cut: Option<(Time, u32)>,
) -> LaterReply
    ensures seen { IsPrefix (H.side.list inner.old) (H.side.list inner.new) }
    ensures told { IsGiven H.side (link_of inner.old kept.old) cut
        (reply_seen result) (link_of inner.new kept.new) }
    ensures ready { H.ready inner.old → H.ready inner.new }
{
    match cut {
        None => kept.more(),
        Some((base, most)) => whole(inner, kept, base, most),
    }
}
