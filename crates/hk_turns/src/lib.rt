//! What a session holds between two reads, for a caller that reads and writes itself: `Session`.
#![tactic(auto)]

mod session;

pub use session::Session;
