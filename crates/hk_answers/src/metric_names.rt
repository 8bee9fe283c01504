//! The names of metrics.

/// The rows of versions that the node holds.
pub const ROWS: u16 = 1;

/// The ends of versions that it holds.
pub const ENDS: u16 = 2;

/// The bytes of the bodies of those rows.
pub const BODY_BYTES: u16 = 3;

/// The operations that the node has had.
pub const OPERATIONS: u16 = 4;

/// 1 if feeders alone may change the node.
pub const GUARDED: u16 = 5;

/// 1 if the node met a conflict, so that it answers nothing else.
pub const FAILED: u16 = 6;

/// The pins that are active.
pub const PINS: u16 = 7;

/// The seconds since the node started.
pub const SECONDS: u16 = 8;

/// The bytes of a budget for what waits in memory. Label 0: of all doors, or of the feeders'; 1: of the readers'.
pub const BUDGET: u16 = 9;

/// The bytes of that budget that are reserved, by the same labels.
pub const RESERVED: u16 = 10;

/// The bytes of memory that the process has.
pub const MEMORY: u16 = 11;

/// The connections that are open. Label: the number of the door, from 0.
pub const OPEN: u16 = 12;

/// The connections that were opened so far. Label: the number of the door.
pub const OPENED: u16 = 13;

/// The most connections that were open at once. Label: the number of the door.
pub const MOST_OPEN: u16 = 14;

/// The bytes that were read from connections.
pub const BYTES_READ: u16 = 15;

/// The bytes that were written to connections.
pub const BYTES_WRITTEN: u16 = 16;

/// The requests. Label: the kind byte.
pub const REQUESTS: u16 = 17;

/// The refusals. Label: the number of the refusal.
pub const REFUSALS: u16 = 18;

/// The connections that couldn't be accepted.
pub const FAILED_ACCEPTS: u16 = 19;

/// The version of the program: 1,000,000 for each major one, 1,000 for each minor one, and 1 for each patch.
pub const PROGRAM: u16 = 20;

/// The keys of tables that the node holds a version of.
pub const KEYS: u16 = 21;

/// The bytes of address space that the process may take, where that has a limit.
pub const MEMORY_LIMIT: u16 = 22;
