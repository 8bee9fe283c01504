//! What a seat of a running node replies to requests, and what a change at the node comes to on it: what the hosts of hk_host are made
//! of. Nothing here is reported to anyone, and nothing waits for a socket.
#![tactic(auto)]

mod changing;
mod kinds;
mod reading;
mod sessions;
mod shown;
mod way;

pub use changing::{answer_at, learn};
pub use kinds::{is_change, is_fed};
pub use reading::{no_kind, read_at};
pub use sessions::{all_ends, serve_plain};
pub use shown::Shown;
pub use way::Way;
