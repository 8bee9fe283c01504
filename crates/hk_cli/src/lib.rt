//! What the program's commands do, over any reader and writers, and the lines that they print.
#![tactic(auto)]

mod event_words;
mod failures;
mod following;
mod head;
mod link_reporter;
mod listening;
mod memory;
mod metering;
mod notice;
mod outcome;
mod serve;
mod starting;
mod stay;
mod telling;
mod texts;

pub use hk_cli_commands::{
    run_ask, run_at, run_explain, run_frames, run_front, run_items, run_rewrite, run_status,
    run_world,
};
pub use hk_cli_lines::{Printed, line_of};
pub use hk_cli_remote::{Terminal, run_order};
pub use serve::run_serve;
pub use stay::run_stay;
