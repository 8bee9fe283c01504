//! What the lines that the program prints are made of: fields, single lines, and those of a node's streams and numbers.
#![tactic(auto)]

mod fields;
mod metric;
mod streams;

pub use fields::{
    put_emitted, put_entry, put_fed, put_fields, put_front, put_held, put_mark, put_part, put_ready,
};
pub use metric::{metric_word, put_stats, put_tables};
pub use streams::put_streams;
