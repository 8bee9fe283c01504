//! What the connections of a node may make it keep, all together, and how many lines of one kind they may make it print in a second.
#![tactic(auto)]

mod line_limit;
mod parts_budget;

pub use line_limit::{LineKind, LineLimit, MOST_LINES, Window};
pub use parts_budget::{MOST_PINS, PartsBudget, Room, budget_law};
