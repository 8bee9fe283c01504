//! What a node that follows others comes to hold.

ghost use Rattle.hk_follow.specs.Following.{FollowLaw};

/// A node that joins what another one gave it carries what both carried: of one history, the items of both, at the greater of its own
/// oldest readable time and one that is at most the other's. So it is in any tree, ring, or mixture with a log, step by step.
pub fn follow_law()
    ensures { FollowLaw }
{}
