//! An ordered map whose values do not move: each is in a numbered slot. Guesses at the slots are tried before the map.
#![tactic(auto)]

mod hints;
mod key;
mod range;
mod slot;
mod slot_error;
mod slot_map;

pub use key::Key;
pub use range::Range;
pub use slot::Slot;
pub use slot_error::SlotError;
pub use slot_map::SlotMap;
