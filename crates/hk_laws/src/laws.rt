//! What is true of every history. These functions do nothing: their contracts are the laws. With the contracts of the
//! calls they are what a user of the calls may rely on.

ghost use Rattle.hk_model.specs.Laws.{
  DeliverLaw,
  DeliverReplies,
  DeliverRepresents,
  JoinLaw,
  MergeAssociates,
  MergeCommutes,
  MergeLaw,
  MergeRepeats,
  ReplyLaw,
  SameContents,
  SameReadable,
  WorldLaw,
};

/// One replica, end to end: deliveries of a history's items and prunings, in any order and with repeats, leave the
/// content of the items at the greatest accepted prune time, which represents them; and from that time, its oldest
/// readable one, to its resolved time it replies with the primary's rows.
pub fn deliver_law()
    ensures content_of { DeliverLaw }
    ensures represents { DeliverRepresents }
    ensures replies { DeliverReplies }
    ensures rows { ReplyLaw }
{}

/// What joins of fragments and merges of states leave represents both item sets at the greater `horizon`. So merge is
/// commutative, associative and idempotent there.
pub fn merge_law()
    ensures join { JoinLaw }
    ensures merge { MergeLaw }
    ensures commutes { MergeCommutes }
    ensures associates { MergeAssociates }
    ensures repeats { MergeRepeats }
{}

/// Replicas of the same set of items, in whatever order and however often these came, have the same resolved time and
/// return the same replies from the greater oldest readable time to there. With the same oldest readable time they
/// have the same content.
pub fn world_law()
    ensures content { SameContents }
    ensures readable { SameReadable }
    ensures replies { WorldLaw }
{}
