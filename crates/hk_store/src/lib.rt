//! The facts that are held: the rows and the ends of versions.
#![tactic(auto)]

mod conflicts_with_entry;
mod copy;
mod drops;
mod facts;
mod learn;
mod replace;
mod shown;
mod sizes;
mod stated;
mod table_list;
mod tagged;
mod undo;
mod versions;
mod writes;

pub use facts::Facts;
pub use hk_chains::{KeyIndex, TagIndex, Tally, Walk, push_borrowed};
pub use hk_index::RowKey;
pub use learn::{LearnScope, LearnSource};
pub use replace::meets;
pub use undo::Undo;
