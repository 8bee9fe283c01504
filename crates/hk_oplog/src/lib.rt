//! The list of a node's operations: what it makes, when it is legal, and what every such list obeys.
#![tactic(auto)]

mod body;
pub mod laws;
mod new_items;
mod op;
mod sizes;

pub use body::{Body, next_op};
pub use op::{Hold, NodeKind, Op};
pub use sizes::NodeSizes;
