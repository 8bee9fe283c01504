//! The chains of rows: the rows and the ends of versions as they are stored, walks over them, and what is read of them.
//!
//! `Chains` is the map of the chains. hk_store has the facts over it: the same with the lists that find versions by tag and by time,
//! changed together.
#![tactic(auto)]

mod ahead;
mod chains;
mod key_index;
mod page;
mod ranges;
mod sizes;
mod stated;
mod sweep;
mod tag_index;
mod tally;
mod versions;
mod walk;

pub use chains::{Chains, Lost};
pub use key_index::KeyIndex;
pub use sizes::{BESIDE_ROW, answer_bytes, row_bytes};
pub use stated::{Sought, rows_by_time, sought_of};
pub use tag_index::{TagIndex, keys_by_tag};
pub use tally::Tally;
pub use versions::{differs, push_borrowed};
pub use walk::Walk;
