//! What one connection over a running node keeps beside its seat: what it sends and gathers in chunks, and its pins.
//!
//! `LinkState` reserves room of the budget that all connections share for all of it. `NodeSide` is what version 2 needs of a host of a
//! node, and `give` cuts what that holds and sends it chunk by chunk. hk_link has the host over it that answers both versions.
#![tactic(auto)]

mod giving;
mod incoming_parts;
mod link_holds;
mod link_state;
mod node_side;
mod outgoing_transfer;
mod stats;

pub use giving::{give, is_limited};
pub use link_state::LinkState;
pub use node_side::NodeSide;
pub use outgoing_transfer::given_law;
