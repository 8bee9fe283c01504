//! Connections to one running node: thousands of them, served by a few threads; or as many as there are seats, each served in a thread
//! of its own, by hk_host.
//!
//! A worker is a thread with one seat of the node and all its connections, whose sockets never wait: it sleeps until some of them can be
//! read or written, a time that one waits for is readable, or a limit of time is over. What crosses threads and sockets is shown by tests.
#![tactic(auto)]

mod accepting;
mod arrivals;
mod client;
mod doors;
mod link;
mod links;
mod places;
mod reactor;
mod serving;
mod shop;
mod sockets;
mod speech;
mod staying;
mod turns;
mod waiting;
mod watching;
mod worker;

pub use doors::{Door, Limits};
pub use hk_host::{
    LinkEvent, NetFault, NodeHost, Speech, Subject, serve_links, serve_parts, serve_plain,
};
pub use hk_link::{LinkState, Meters, NodeSide, PartsBudget, PartsHost, given_law};
pub use staying::{bell_of, serve_forever};
pub use watching::Watch;
