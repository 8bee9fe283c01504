//! What one replica does at an event of a world, and its outcome.
#![tactic(auto)]

mod acting;
mod joining;

pub use acting::{absorb, ask, front, prune, refused};
pub use joining::{batch, join, merge};
