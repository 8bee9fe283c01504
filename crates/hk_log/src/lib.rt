//! Entries, marks and items.
#![tactic(auto)]

mod entry;
mod item;
mod mark;
mod places;
mod spare;
mod version;

pub use entry::Entry;
pub use item::Item;
pub use mark::Mark;
pub use places::{MOST_WRITES, is_after};
pub use spare::{Spare, Writes};
pub use version::Version;
