//! The versions of the rows of a table: for each key a chain of them, by the time at which they were born.
#![tactic(auto)]

mod bounds;
mod chain;
mod chain_form;
mod fact;
mod few;
mod list;
mod many;
mod order;
mod others;
mod versions;

pub use chain::Chain;
pub use fact::{Fact, Part, join, version_of};
pub use versions::ended_by;
