//! The elements of a list by their number, counted from 1.

ghost use Rattle.std.specs.Prelude.{◌≡◌, ◌++◌, ◌∷◌, [], is_some, IfOk, OnOk};
ghost use Rattle.std.specs.List.{filter_map, list_all};
ghost use Rattle.std.specs.Option.{option_copied};
ghost use Rattle.hk_model.specs.World.Worlds.{at_number};
ghost use Rattle.hk_laws.specs.Among.{IsPlace};

use hk_log::Item;
use hk_state::ReplicaState;
use std::alloc::{AllocError, Global};

/// The element with a number in a list.
pub(crate) fn numbered<X>(list: &[X], number: u64) -> Option<&X>
    ensures { option_copied result ≡ at_number list.now number }
{
    if number == 0 {
        return None;
    }
    list.get((number - 1) as usize)
}

/// The index of the replica with a number, counted from 0.
pub(crate) fn place_of(replicas: &[ReplicaState], number: u16) -> Option<usize>
    ensures { IsPlace replicas.now number result }
{
    let number = usize::from(number);
    if number == 0 {
        return None;
    }
    if replicas.len() < number {
        return None;
    }
    Some(number - 1)
}

/// Whether there is an item with each of these numbers.
pub(crate) fn all_there(items: &[Item], numbers: &[u64]) -> bool
    ensures { result ≡ list_all (λ n. is_some (at_number items.now n)) numbers.now }
{
    for number in numbers {
        if numbered(items, *number).is_none() {
            return false;
        }
    }
    true
}

/// Adds a copy of the item with a number, where there is one.
fn push_copy(
    alloc: Global,
    copies: &mut Vec<Item>,
    items: &[Item],
    number: u64,
) -> Result<(), AllocError>
    ensures { OnOk result (copies.new.items ≡ copies.old.items ++ filter_map (at_number items.now) (number ∷ [])) }
{
    if let Some(item) = numbered(items, number) {
        copies.push(item.copy(alloc)?)?;
    }
    Ok(())
}

/// Copies of the items under these numbers, where they are there.
pub(crate) fn copies(
    alloc: Global,
    items: &[Item],
    numbers: &[u64],
) -> Result<Vec<Item>, AllocError>
    ensures { IfOk result (λ copies. copies.items ≡ filter_map (at_number items.now) numbers.now) }
{
    let mut copies = Vec::with_capacity(alloc, numbers.len())?;
    for number in numbers {
        push_copy(alloc, &mut copies, items, *number)?;
    }
    Ok(copies)
}
