//! A session: requests are read from a reader, and their replies written to a writer.
//!
//! `serve` is the session; `Session` is what it holds between two reads, for a caller that reads and writes itself. Who
//! answers is a `Host`; its `may` defines which replies it may return, and the session promises that what it writes is what
//! the host may answer to what was read. Its const parameter fixes which versions of requests it reads: 1 for version 1
//! alone, 2 for both. Before an `Await` is answered a `Waiter` waits, of which nothing is promised.
#![tactic(auto)]

mod serving;
mod writing;

pub use hk_session_parts::{AtOnce, Counted, Ended, Host, Step, Waiter};
pub use hk_state_host::StateHost;
pub use hk_turns::Session;
pub use serving::{serve, serve_bytes, serve_waiting};
