//! Joining a fragment into a state.

ghost use Rattle.hk_merge.specs.Calls.{Joins};
ghost use Rattle.hk_delta.specs.Joins.{JoinsOf};

use crate::Fragment;
use hk_merge::{Sent, join_sent};
use hk_state::ReplicaState;
use hk_types::Refusal;

/// Joins a fragment into a state.
///
/// A fragment of another log is refused `ForeignLog`, one with another number of streams `WrongStreams`, one whose
/// base is above the state's resolved time `Gap` with these two times, and one that has another row or another end of
/// a version than the state `Conflict`, also where memory ran out before that was met. `Memory` comes last, where a
/// growth was refused. A refusal changes nothing.
///
/// Cost: O((s + c + d) · log n + b), s streams, c versions of the fragment, its numbers and marks that wait for
/// others and those of the state's that they free, d versions of the state's own that are dropped since the oldest
/// readable time rises, n all these and all that the state holds, b bytes of bodies compared or copied.
pub fn join(target: &mut ReplicaState, fragment: &Fragment) -> Result<(), Refusal>
    ensures gives { Joins target.old target.new fragment.now result }
    ensures represents { JoinsOf target.old target.new fragment.now result }
{
    join_sent(target, &Sent::Part(fragment))
}
