//! What the command line asks for, as plain values: read in one crate, done in others.
#![tactic(auto)]

mod call;
mod node;
mod serving;
mod version;

pub use call::{Alone, Call, Kept, OutputForm};
pub use node::{Bodies, Limits, NodeCall, NodePlace, Order};
pub use serving::{Level, MOST_FILES, MOST_SOURCES, OtherPort, PartsLimit, Start, Stay};
pub use version::{IS_PROVED, VERSION};
