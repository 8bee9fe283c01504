//! Joining items into a state.

ghost use Rattle.std.specs.Prelude.{All};
ghost use Rattle.std.specs.Bool.{OnTrue};
ghost use Rattle.hk_model.specs.Replica.Lawful.{IsItem};
ghost use Rattle.hk_delta.specs.Agreeing.{IsAbove};
ghost use Rattle.hk_delta.specs.Joins.{JoinsItems};

use crate::gathering::{first_wrong_log, fragment_of, refusal_of};
use crate::joining::join;
use hk_log::Item;
use hk_state::ReplicaState;
use hk_types::{Refusal, Time};

/// Whether an item is no entry of a time at most this.
fn is_above(time: Time, item: &Item) -> bool
    ensures above { OnTrue result (IsAbove time item.now) }
    ensures lawful { IsItem item.now }
{
    match item {
        Item::Commit(entry) => {
            let _in_range = entry.number();
            time < entry.time()
        }
        Item::Closed(mark) => {
            let _in_range = mark.n();
            true
        }
    }
}

/// Whether no item is an entry of a time at most this.
fn are_above(time: Time, items: &[Item]) -> bool
    ensures above { OnTrue result (All (IsAbove time) items.now) }
    ensures lawful { OnTrue result (All IsItem items.now) }
{
    for item in items {
        if !is_above(time, item) {
            return false;
        }
    }
    true
}

/// Joins items by way of their fragment.
fn join_gathered(target: &mut ReplicaState, items: &[Item]) -> Result<(), Refusal>
    ensures { JoinsItems target.old target.new items.now result }
{
    let fragment = fragment_of(target.allocator(), target.config(), items)?;
    join(target, &fragment)
}

/// Joins what items make into a state, all of them or none: what a join of their fragment leaves, without making it where
/// all entries are above the state's oldest readable time.
///
/// The first item that is of another log is refused `ForeignLog`, or of a stream above the configured number
/// `WrongStreams`. Two items that have different rows or different ends of a version are refused `Conflict`, then comes
/// `Memory` where a growth was refused, and so is an item that has another row or another end of a version than the state
/// refused `Conflict`. A refusal changes nothing.
///
/// Cost: O((s + w + i + f) · log n + b), s streams, w rows and ends of the i items, f extra numbers and marks that they
/// free, n all these and all that the state holds, b bytes of bodies compared; with entries that are not above, and where
/// items conflict, that of `fragment_of` and `join`. Only where memory was refused, the items are compared with each
/// other, which takes no memory: O(w²).
pub fn join_items(target: &mut ReplicaState, items: &[Item]) -> Result<(), Refusal>
    ensures { JoinsItems target.old target.new items.now result }
{
    if let Some(why) = first_wrong_log(target.config(), items) {
        return Err(why);
    }
    if !are_above(target.horizon(), items) {
        return join_gathered(target, items);
    }
    match target.add_items(items) {
        Ok(()) => Ok(()),
        Err(Refusal::Memory) => Err(refusal_of(Refusal::Memory, items)),
        Err(_) => join_gathered(target, items),
    }
}
