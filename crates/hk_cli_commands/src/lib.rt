//! The commands that need no network, over any reader and writers: `at`, `ask`, `front`, `status`, `items`, `frames`,
//! `rewrite`, `world` and `explain`, with what prints lines and reports why a command stopped.
#![tactic(auto)]

mod ask;
mod asking;
mod command;
mod explain;
mod flaw;
mod items;
mod json;
mod link_fault;
mod output;
mod rewrite;
mod script;
mod status;
mod sum_fault;
mod words;
mod world;

pub use ask::{run_ask, run_at, run_front, run_status};
pub use asking::{Asking, asking_of};
pub use explain::run_explain;
pub use items::run_items;
pub use json::run_frames;
pub use link_fault::is_nobody;
pub use output::Output;
pub use rewrite::run_rewrite;
pub use status::{Standing, StreamStatus, put_status, stream_status};
pub use world::run_world;
