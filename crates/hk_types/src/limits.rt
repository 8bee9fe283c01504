//! Limits that belong to no type.

/// The number of the last operation of a node, or of a session's state: 2^62.
pub const LAST_OP: u64 = 4_611_686_018_427_387_904;
