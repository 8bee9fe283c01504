//! What a replica holds.
#![tactic(auto)]

mod absorb;
mod apply;
mod copy;
mod items;
mod learn;
mod past;
mod prune;
mod reads;
mod replica;

pub use absorb::wrong_log;
pub use apply::Change;
pub use items::{note_item, note_items};
pub use prune::front_of;
pub use replica::ReplicaState;
