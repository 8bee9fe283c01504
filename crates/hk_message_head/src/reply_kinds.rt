//! The kinds of replies.

/// A change took effect.
pub const DONE: u8 = 32;

/// How far a replica is.
pub const FRONT: u8 = 33;

/// A delta or a full snapshot.
pub const FRAGMENT: u8 = 34;

/// The answer to a query.
pub const ANSWER: u8 = 35;

/// Why nothing happened.
pub const REFUSED: u8 = 36;

/// The same of version 2.
pub const LATER_DONE: u8 = 64;

/// How far a node and its streams are.
pub const STREAMS: u8 = 65;

/// The answer to a query at the resolved time.
pub const LATEST: u8 = 66;

/// Rows of a range.
pub const PAGE: u8 = 67;

/// A chunk.
pub const PART: u8 = 68;

/// The last chunk.
pub const LAST_PART: u8 = 69;

/// How much of the chunks is there.
pub const ADDED: u8 = 70;

/// A pin.
pub const HELD: u8 = 71;

/// Why nothing happened.
pub const LATER_REFUSED: u8 = 72;

/// Items took effect.
pub const FED: u8 = 73;

/// A wait is over.
pub const READY: u8 = 74;

/// Numbers of a node.
pub const STATS: u8 = 75;

/// The tables of a node.
pub const TABLES: u8 = 76;

/// The name of the replies of a kind, as in docs/FORMATS.md; `None` where there are none. Cost: O(1).
pub fn reply_name(kind: u8) -> Option<&'static str> {
    Some(match kind {
        DONE | LATER_DONE => "Done",
        FRONT => "Front",
        FRAGMENT => "Fragment",
        ANSWER => "Answer",
        REFUSED | LATER_REFUSED => "Refused",
        STREAMS => "Streams",
        LATEST => "Latest",
        PAGE => "Page",
        PART => "Part",
        LAST_PART => "LastPart",
        ADDED => "Added",
        HELD => "Held",
        FED => "Fed",
        READY => "Ready",
        STATS => "Stats",
        TABLES => "Tables",
        _ => return None,
    })
}
