//! What answers the requests of one connection over a running node: a host over a seat of it, sessions over that, and what happens to
//! connections, as events.
//!
//! `NodeHost` answers over a seat, and over the shared node as far as the connection's `Way` allows; hk_link's `PartsHost` over it, in
//! both versions. `serve_links` runs a session of one for each seat of a node, in
//! a thread each; hk_net has the thousands of a long-running node.
#![tactic(auto)]

mod bell;
mod fault;
mod holding;
mod link_events;
mod links;
mod node_host;
mod sessions;
mod subject;

pub use bell::Bell;
pub use fault::NetFault;
pub use hk_seats::serve_plain;
pub use link_events::{EVENTS, LinkEvent, Speech, Teller};
pub use links::serve_links;
pub use node_host::NodeHost;
pub use sessions::serve_parts;
pub use subject::Subject;
