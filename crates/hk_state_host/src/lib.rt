//! A host of sessions over the state of a replica.
#![tactic(auto)]

mod state_host;

pub use state_host::StateHost;
