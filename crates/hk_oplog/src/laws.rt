//! What every node obeys.

ghost use Rattle.hk_oplog.specs.Carried.{CarryLaw};
ghost use Rattle.hk_oplog.specs.Final.{AgainLaw, FinalLaw};
ghost use Rattle.hk_oplog.specs.Guarded.{GuardLaw};
ghost use Rattle.hk_oplog.specs.Holds.{HoldLaw};

/// The oldest readable time never passes an active pin.
pub fn hold_law()
    ensures { HoldLaw }
{}

/// No legal list of a guarded node makes it fail.
pub fn guard_law()
    ensures { GuardLaw }
{}

/// Where every join and merge of a list carries a part of one history, the content represents the union of their items
/// at the greatest `horizon` joined, or reached by a prune, and the node has not failed.
pub fn carry_law()
    ensures { CarryLaw }
{}

/// The past is final: after a legal list of a guarded node and after each legal list that it goes on with, a query has the
/// same answer at each time from the oldest readable time of the longer to the resolved time of the shorter. The law
/// assumes nothing of what came.
pub fn final_law()
    ensures { FinalLaw }
{}

/// Who asks again gets the same: what a guarded node answered after a legal list, it answers after each legal list that this
/// goes on with, or refuses since the time is below the oldest readable one there.
pub fn again_law()
    ensures { AgainLaw }
{}
