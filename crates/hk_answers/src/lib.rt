//! Values as bytes, without fragments: queries, and what answers them: answers, refusals, pages, the reports of streams, and metrics.
//!
//! They are the fields of messages. Each value has at most one encoding: `put_..` adds it at the end of bytes, `.._len`
//! returns how long it is, and `read_..` reads it from the front of bytes and returns the first fault of those that have none.
#![tactic(auto)]

pub mod answer;
pub mod field_len;
pub mod metric_names;
pub mod metrics;
pub mod numbers;
pub mod query;
pub mod refusal;
pub mod told;

pub use metrics::Metric;
