//! Lines of what happens in a running node, over the toolchain's `log`: a record has a level, words, and pairs; a sink writes it as a line
//! of words or of JSON, with the time and the peer's address. How many lines of one kind there are in a second has a limit (hk_budgets).
#![tactic(auto)]

mod json;
mod moment;
mod sink;
mod wrapped;

pub use sink::{LineForm, LineSink};
pub use wrapped::WrappedWords;
