//! The host that answers both versions with what one connection over a running node keeps beside its seat.
//!
//! `PartsHost` answers over any host of a node (`NodeSide`): it sends a fragment in chunks and gathers the chunks that come, keeps the
//! connection's pins, and reserves room of the budget that all connections share, all by `LinkState` of hk_link_state. hk_host has the
//! hosts of a node, hk_net runs sessions of them over sockets.
#![tactic(auto)]

mod parts_host;
mod sharing;

pub use hk_budgets::{PartsBudget, budget_law};
pub use hk_link_state::{LinkState, NodeSide, given_law};
pub use hk_meters::Meters;
pub use parts_host::PartsHost;
pub use sharing::{marks_law, sharing_law};
