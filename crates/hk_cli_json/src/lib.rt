//! Items, answers and what else is printed, as lines of JSON, and items from lines of JSON.
//!
//! A number of 64 bits is a string of decimal digits, since many readers of JSON keep 53 bits of a number; smaller ones
//! are numbers. A body is a string of lower-case hexadecimal digits, two a byte. docs/FORMATS.md has the lines.
#![tactic(auto)]

mod answer;
mod field;
mod fragment;
mod item;
mod item_line;
mod line;
mod metric;
mod object;
mod reading;
mod refusal;
mod row;
mod status;

pub use fragment::FragmentSummary;
pub use line::{InJson, json_of};
pub use metric::{MetricLine, TableLine};
pub use reading::{BadItem, item_of};
pub use status::StreamLine;
