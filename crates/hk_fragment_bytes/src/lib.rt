//! What fragments are as bytes: their encoding, their heads, and the reading of their streams and of one fact.
//!
//! hk_values, above, reads facts, fragments and chunks by these.
#![tactic(auto)]

pub mod fact_reading;
pub mod fragment_encoding;
pub mod fragment_head;
pub mod stream_reading;

pub use fragment_head::{FragmentHead, head_bytes};
