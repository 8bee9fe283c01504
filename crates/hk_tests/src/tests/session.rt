//! Requests, and sessions over bytes in memory, which are written out.

mod hosts;
mod long_replies;
mod messages;
mod sessions;

use hk_session::StateHost;
use hk_state::ReplicaState;
use hk_types::Config;
use std::alloc::Global;
use std::test::Fail;

/// A host of log 7 with one stream that holds nothing.
fn new_host(alloc: Global) -> Result<StateHost, Fail> {
    let state = ReplicaState::new(alloc, Config::new(7, 1)?)?;
    Ok(StateHost::new(alloc, state))
}
