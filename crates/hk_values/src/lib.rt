//! Fragments from bytes, and chunks; and, from hk_fragment_bytes, their encoding and heads, from hk_answers the other values of messages.
//!
//! Each fragment has at most one encoding, by functions that are named as those of hk_answers.
#![tactic(auto)]

mod cutting;
pub mod fragment_reading;
mod laws;
pub mod part;
mod split;

pub use hk_answers::{
    Metric, answer, field_len, metric_names, metrics, numbers, query, refusal, told,
};
pub use hk_fragment_bytes::{FragmentHead, fragment_encoding, fragment_head, head_bytes};
pub use laws::{copy_by_parts, fragment_law, one_wire_fragment, parts_law, together_law};
pub use split::Split;
