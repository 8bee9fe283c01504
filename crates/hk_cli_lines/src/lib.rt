//! The lines that the program prints of values.
#![tactic(auto)]

mod later_reply;
mod line;
mod reply;

pub use hk_cli_fields::metric_word;
pub use line::{Printed, line_of};
