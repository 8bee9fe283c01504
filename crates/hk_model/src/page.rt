use hk_types::{Key, Row, Table, Time};

/// How many bytes the rows of a page have at most, with 14 for each row beside its body: what a message has room for.
pub const PAGE_BYTES: u64 = 268_435_449;

/// A page of the rows of a range.
#[derive(Debug, PartialEq, Eq, Drop)]
pub struct Page {
    /// The rows with their keys, by rising key.
    pub rows: Vec<(Key, Row)>,
    /// Whether the range has more rows after these.
    pub more: bool,
}

/// Which page of rows is asked for: of those that are visible at a time.
#[derive(Clone, Copy, Debug, PartialEq, Eq)]
pub struct PageQuery {
    /// The time.
    pub time: Time,
    /// The table of the rows.
    pub table: Table,
    /// The least key that they may have.
    pub low: Key,
    /// The greatest key that they may have.
    pub high: Key,
    /// How many rows the page has at most.
    pub most: u32,
}
