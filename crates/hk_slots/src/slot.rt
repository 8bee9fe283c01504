//! The slots of values.

ghost use Rattle.std.specs.Prelude.{◌≡◌, ◌<◌, ◌^◌, ◌↔◌, IfSome, IsSome};

use std::alloc::AllocError;
use std::marker::Model;

/// The slot of a value in a `SlotMap`: a number of 32 bits.
#[derive(Copy)]
pub struct Slot {
    number: u32,
}

impl Model for Slot {
    ghost use Rattle.std.specs.Prelude.{ℕ, ◌<◌, ◌^◌};

    ghost Value = { ℕ };

    ghost view = { λ a. a.number };

    ghost invariant = { λ a. a.number < 2 ^ 32 };

    ghost inverse = { λ n. record { number = n } };
}

impl Clone for Slot {
    ghost is_clone = { λ x y. y ≡ x };

    ghost is_infallible = { λ _. Unit {0} };

    fn clone(&self) -> Result<Slot, AllocError> {
        Ok(*self)
    }
}

impl Slot {
    /// The slot with this number.
    pub(crate) fn new(number: u32) -> Slot
        ensures { result ≡ number }
    {
        Slot { number }
    }

    /// The number of the slot.
    pub(crate) fn number(self) -> u32
        ensures { result ≡ self }
    {
        self.number
    }

    /// The index of the slot among all of them.
    pub(crate) fn index(self) -> usize
        ensures { result ≡ self }
    {
        self.number as usize
    }

    /// The slot at an index, where that is a number of 32 bits.
    pub(crate) fn at(index: usize) -> Option<Slot>
        ensures slot { IfSome result (λ slot. slot ≡ index) }
        ensures room { IsSome result ↔ (index < 2 ^ 32) }
    {
        if index > u32::MAX as usize {
            return None;
        }
        Some(Slot {
            number: index as u32,
        })
    }
}
