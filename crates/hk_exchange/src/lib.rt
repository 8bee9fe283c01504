//! A connection's bytes: from those that its socket gave to those that it took.
#![tactic(auto)]

mod exchange;
mod laws;
mod passed;
mod rest;
mod unwritten;

pub use exchange::{Came, Exchange, How, LEAST_PIECE, LinkSession, Looked};
pub use laws::served_law;
pub use passed::Passed;
pub use rest::Rest;
pub use unwritten::{MOST_HELD, Unwritten};
