//! A world of one primary and its replicas, moved by events, and the laws of replicas of one log.
#![tactic(auto)]

mod among;
mod building;
mod events;
mod laws;
mod lists;
mod running;
mod step;
mod world;

pub use hk_model::{Event, Told};
pub use laws::{deliver_law, merge_law, world_law};
pub use running::run;
pub use world::{MOST_REPLICAS, World};
