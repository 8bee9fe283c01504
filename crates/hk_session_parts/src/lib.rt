//! What sessions are made of: who answers, what a step and an end of a session are, and devices that count their calls. Its
//! definitions say what a session says, and its lemmas what follows of that.
#![tactic(auto)]

mod counted;
mod ended;
mod host;
pub mod sending;
mod step;
pub mod taking;
mod waiter;

pub use counted::Counted;
pub use ended::Ended;
pub use host::Host;
pub use step::Step;
pub use waiter::{AtOnce, Waiter};
