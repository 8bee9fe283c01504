//! Why a key gets no slot.

ghost use Rattle.std.specs.Prelude.{◌≡◌};

use hk_types::Refusal;
use std::alloc::{AllocError, AllocFailed};
use thiserror::Error;

/// Why a key that is not there gets no slot. A call that returns one changed nothing.
#[derive(Clone, Copy, Debug, PartialEq, Eq, Error)]
pub enum SlotError {
    /// All 2^32 slots are in use.
    #[error("all 2^32 slots are in use")]
    Full,
    /// Memory ran out.
    #[error("out of memory")]
    Memory,
}

impl From<AllocError> for SlotError {
    ghost use Rattle.hk_slots.specs.declared.slot_error.SlotError.TheVariants.{Memory};

    ghost from_gives = { λ _ e. e ≡ Memory };

    fn from(_e: AllocError) -> SlotError {
        SlotError::Memory
    }
}

impl<T: Drop> From<AllocFailed<T>> for SlotError {
    ghost use Rattle.hk_slots.specs.declared.slot_error.SlotError.TheVariants.{Memory};

    ghost from_gives = { λ _ e. e ≡ Memory };

    fn from(_e: AllocFailed<T>) -> SlotError {
        SlotError::Memory
    }
}

/// A replica refuses a key for which a map is full as one for which memory ran out.
impl From<SlotError> for Refusal {
    ghost use Rattle.hk_types.specs.declared.faults.Refusal.TheVariants.{Memory};

    ghost from_gives = { λ _ e. e ≡ Memory };

    fn from(_e: SlotError) -> Refusal {
        Refusal::Memory
    }
}
