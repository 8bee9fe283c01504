//! The pins of a connection.

ghost use Rattle.std.specs.Prelude.{◌≡◌, ◌<◌, ◌≤◌, ◌-◌, ◌++◌, ◌∷◌, [], take, vec_len};
ghost use mathlib.Core.List.{IsPrefix};
ghost use Rattle.hk_link_state.specs.LaterReplying.{AreLetGo, IsLetGo, next_place, placed};
ghost use Rattle.hk_link_state.specs.LinkStates.{held_by};

use crate::node_side::NodeSide;
use hk_oplog::Hold;

/// Replaces the last pin.
pub(crate) fn set_last(holds: &mut Vec<Hold>, hold: Hold)
    requires { 0 < vec_len holds.old }
    ensures { holds.new.items ≡ take (vec_len holds.old - 1) holds.old.items ++ hold ∷ [] }
{
    let last = holds.as_slice().len() - 1;
    holds[last] = hold;
}

/// The pin of this number, if there is one.
pub(crate) fn hold_of(holds: &[Hold], number: u64) -> Option<Hold>
    ensures { result ≡ held_by number holds.now }
{
    for hold in holds {
        if hold.reader == number {
            return Some(Hold {
                reader: hold.reader,
                at: hold.at,
            });
        }
    }
    None
}

/// The same pin, to ask for its release.
fn same_hold(hold: &Hold) -> Hold
    ensures { result ≡ hold.now }
{
    Hold {
        reader: hold.reader,
        at: hold.at,
    }
}

/// Asks for the release of a pin. Returns it where it is still active: one whose release waits to be published isn't.
fn release_one<H: NodeSide>(inner: &mut H, hold: Hold) -> Option<Hold>
    ensures asked { IsLetGo H.side.may_release inner.old hold inner.new result }
    ensures seen { IsPrefix (H.side.list inner.old) (H.side.list inner.new) }
{
    match inner.release(hold) {
        Ok(_ops) => None,
        Err((back, _why)) => back,
    }
}

/// Puts a pin that was handed back, if one was, at this position, and returns the position of the next one.
fn keep(holds: &mut Vec<Hold>, back: Option<Hold>, place: usize) -> usize
    requires { place < vec_len holds.old }
    ensures put { holds.new.items ≡ placed back holds.old.items place }
    ensures next { result ≡ next_place back place }
{
    match back {
        None => place,
        Some(hold) => {
            holds[place] = hold;
            place + 1
        }
    }
}

/// Asks for the release of each of these pins, one after the other, and returns those that are still active. It takes no memory.
pub(crate) fn release_each<H: NodeSide>(inner: &mut H, holds: Vec<Hold>) -> Vec<Hold>
    ensures asked { AreLetGo H.side.may_release inner.old holds.items inner.new result.items }
    ensures few { vec_len result ≤ vec_len holds }
    ensures seen { IsPrefix (H.side.list inner.old) (H.side.list inner.new) }
{
    let mut left = holds;
    let mut kept = 0;
    let mut index = 0;
    while index < left.len() {
        let hold = same_hold(&left[index]);
        let back = release_one(inner, hold);
        kept = keep(&mut left, back, kept);
        index += 1;
    }
    left.truncate(kept);
    left
}
