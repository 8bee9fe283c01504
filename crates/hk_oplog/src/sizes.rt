//! How much a node holds.

use hk_chains::Tally;

/// How many bytes a version counts in a fragment beside its row and its end: 19 of a message, and 128 for its place in memory.
const BESIDE_VERSION: u64 = 147;

/// How many bytes a row has in a message beside its body, and how many an end.
const BESIDE_ROW: u64 = 6;

const END: u64 = 8;

/// How much a node holds, and how far its list is. Of what is held the numbers promise nothing; tests compare them with a count.
#[derive(Clone, Copy, Debug, PartialEq, Eq)]
pub struct NodeSizes {
    /// Rows of versions.
    pub rows: u64,
    /// Ends of versions.
    pub ends: u64,
    /// Bytes of the bodies of those rows.
    pub bytes: u64,
    /// How many bytes all of it takes as a fragment, at least: those of a message, and 128 more for each version.
    pub weight: u64,
    /// Operations of the node's list.
    pub operations: u64,
    /// Pins that are active.
    pub pins: u64,
    /// Whether it is guarded.
    pub guarded: bool,
    /// Whether it failed.
    pub damaged: bool,
}

/// How many bytes so much takes as a fragment, at least: just so many where each end is one of a version whose row is held.
pub(crate) fn weight_of(tally: &Tally) -> u64 {
    let versions = tally.rows.max(tally.ends);
    versions
        .saturating_mul(BESIDE_VERSION)
        .saturating_add(tally.rows.saturating_mul(BESIDE_ROW))
        .saturating_add(tally.bytes)
        .saturating_add(tally.ends.saturating_mul(END))
}
