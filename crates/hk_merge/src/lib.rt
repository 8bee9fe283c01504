//! Merging what another replica holds into a replica's state.
#![tactic(auto)]

mod join;
mod past;
mod plan;
mod refusals;
mod sent;

pub use join::{join_sent, merge};
pub use past::join_touches_past;
pub use refusals::wrong_log;
pub use sent::Sent;
