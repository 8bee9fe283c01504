//! Refusals in words: what each number means, what was refused, and what to do.
#![tactic(auto)]

mod known;
mod reason;

pub use known::{Known, LAST_NUMBER, known_of, number_named};
pub use reason::{Origin, Place, RequestContext, put_known, put_place, put_reason};
