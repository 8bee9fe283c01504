//! How many items are new to a state.

ghost use Rattle.std.specs.Prelude.{◌≡◌};
ghost use Rattle.hk_oplog.specs.NewItems as spec;

use hk_log::Item;
use hk_state::{ReplicaState, wrong_log};

/// Whether an item of the state's log is new to it: an entry whose number is not applied, or a mark that closes more than is
/// closed. It takes no memory. Cost: O(log n), n extra numbers and waiting marks of the stream.
fn is_new(state: &ReplicaState, item: &Item) -> bool
    ensures { result ≡ spec.is_new state.now item.now }
{
    if wrong_log(state.config(), item).is_some() {
        return false;
    }
    match item {
        Item::Commit(entry) => !state.got().has(entry.stream(), entry.number()),
        Item::Closed(mark) => !state.got().adds_nothing(mark.stream(), mark.n(), mark.m()),
    }
}

/// How many of the items are new to a state, each compared with the state alone. It takes no memory. Cost: that of
/// `is_new` for each.
pub(crate) fn count_new(state: &ReplicaState, items: &[Item]) -> u64
    ensures { result ≡ spec.count_new state.now items.now }
{
    items.iter().filter(|item| is_new(state, item)).count() as u64
}
