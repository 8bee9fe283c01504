//! What sessions have that share a host of a node.

ghost use Rattle.hk_link_state.specs.LaterReplying.{MayReplyBoth};
ghost use Rattle.hk_link_state.specs.LinkStates.{link_of};
ghost use Rattle.hk_link.specs.Sharing.{LinkGoesOn, MarksLaw, SeatGoesOn, Share, alone, link_list};

use hk_link_state::NodeSide;

/// Sessions that share hosts of a node, and whose requests are answered by turns, have each what a session has that has its
/// host alone, but that the host may go on before each request, so that its list begins with the one before:
///
/// - Whoever else takes turns, the requests of its own turns are answered, one each and in order (`each`). What it keeps
///   itself, as a connection does in version 2, is as its last turn left it.
/// - Wherever it stands, it stands there after its next call of `Session::take` too, before which the host went on (`stands`):
///   what it appended so far is the replies to the requests that were answered so far, and these with those that wait are what
///   it took so far. So what it wrote, where it ends, is the transcript of what it read.
/// - So it is too where it moves to another host whose seat knows at least what the one before knew, as by a receipt (`moved`).
/// - The lists that its replies are of only grow: that of each reply begins with those of all replies before it (`grown`). So
///   a change whose reply was Done is in each later reply.
///
/// `first` says so of sessions in version 1 over such a host, `both` of those in both versions, by `PartsHost`. A law: it does
/// nothing.
pub fn sharing_law<H: NodeSide>()
    ensures first { Share alone (SeatGoesOn H.side) (SeatGoesOn H.side) H.may H.side.list }
    ensures both { Share link_of (SeatGoesOn H.side) (LinkGoesOn H.side)
        (MayReplyBoth H.side H.may) (link_list H.side) }
{
    H::laws();
}

/// As a node's list grows, neither its oldest readable time nor its resolved time falls. So neither falls in the replies of a
/// session, whose lists only grow (`sharing_law`). A law: it does nothing.
pub fn marks_law()
    ensures { MarksLaw }
{}
