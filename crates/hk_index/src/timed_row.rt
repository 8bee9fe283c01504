//! What the rows by time are a list of.

use crate::row_key::RowKey;

/// A row with the number of a time. These are ordered by time, then by row.
#[derive(Clone, Copy, Debug, PartialEq, Eq, PartialOrd, Ord)]
pub struct TimedRow {
    pub time: u64,
    pub row: RowKey,
}
