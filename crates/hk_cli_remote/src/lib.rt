//! What a running node is asked to do over a connection: a program's requests, a person's lines, and the commands `ask`,
//! `front`, `status`, `save`, `load`, `pull`, `prune` and `feed` of a port.
#![tactic(auto)]

mod change;
mod feed;
mod link;
mod numbers;
mod order;
mod pace;
mod parts;
mod progress;
mod push;
mod read;
mod reply_head;
mod save;
mod shell;
mod stream;
mod table;
mod upstream;

pub use change::fetch_from;
pub use link::refusal_of;
pub use order::{Terminal, run_order};
pub use upstream::{Delta, Upstream};
