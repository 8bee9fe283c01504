//! The kinds of requests: one table, from which all else that knows of kinds is made, or against which it is checked.

ghost use Rattle.std.specs.Prelude.{◌≡◌, Some, None, IfSome, IfNone};
ghost use Rattle.hk_message_head.specs.Kinds.{does_at};

/// To apply items.
pub const ITEMS: u8 = 16;

/// How far a replica is.
pub const FRONT: u8 = 17;

/// What was applied since a time.
pub const DELTA: u8 = 18;

/// A full snapshot.
pub const FULL: u8 = 19;

/// A query at a time.
pub const ASK: u8 = 20;

/// To join a fragment.
pub const JOIN_THIS: u8 = 21;

/// To join a full snapshot.
pub const MERGE_THIS: u8 = 22;

/// To drop versions.
pub const PRUNE: u8 = 23;

/// How far a node and its streams are.
pub const STREAMS: u8 = 48;

/// A query at the resolved time.
pub const ASK_LATEST: u8 = 49;

/// Rows of a range.
pub const PAGE: u8 = 50;

/// A delta or a full snapshot in chunks: the first of them.
pub const WHOLE: u8 = 51;

/// The next chunk.
pub const MORE: u8 = 52;

/// To keep a chunk.
pub const ADD_PART: u8 = 53;

/// To join the fragment that chunks make.
pub const JOIN_PARTS: u8 = 54;

/// To join the full snapshot that they make.
pub const MERGE_PARTS: u8 = 55;

/// To pin a time.
pub const HOLD: u8 = 56;

/// To release a pin.
pub const RELEASE: u8 = 57;

/// To apply items, and to return how many were new.
pub const FEED: u8 = 58;

/// To wait for a time.
pub const AWAIT: u8 = 59;

/// Numbers of a node.
pub const STATS: u8 = 60;

/// The tables of a node.
pub const TABLES: u8 = 61;

/// How many bytes a body has at most: a rest has 268,435,456 with the version and the kind.
const MOST: u32 = 268_435_454;

/// What a request does at a node.
#[derive(Clone, Copy, Debug, PartialEq, Eq)]
pub enum Does {
    /// It changes nothing.
    Reads,
    /// It brings items.
    Feeds,
    /// It brings facts, drops versions, or is about pins.
    Changes,
}

/// How much there is to do for a reply.
#[derive(Clone, Copy, Debug, PartialEq, Eq)]
pub enum Work {
    /// Little.
    Short,
    /// It waits.
    Waits,
    /// The reply is short, and may take many looks.
    Far,
    /// Much.
    Long,
    /// Much where the query goes over rows. Its kind stands at this place of the body.
    ByQuery { at: u8 },
    /// Much where more than 1,024 rows are wanted, else as `Far`. How many stands at this place of the body.
    ByRows { at: u8 },
}

/// A kind of requests.
#[derive(Clone, Copy, Debug, PartialEq, Eq)]
pub struct RequestKind {
    /// Its name, as in docs/FORMATS.md.
    pub name: &'static str,
    /// What it does at a node.
    pub does: Does,
    /// How much there is to do for its reply.
    pub work: Work,
    /// How many bytes its body has at least.
    pub least: u32,
    /// How many bytes its body has at most.
    pub most: u32,
}

/// A row of the table.
fn row(name: &'static str, does: Does, work: Work, least: u32, most: u32) -> RequestKind
    ensures { result.does ≡ does }
{
    RequestKind {
        name,
        does,
        work,
        least,
        most,
    }
}

/// What is known of the requests of a kind; `None` where there are none. Cost: O(1).
pub fn request_kind(kind: u8) -> Option<RequestKind>
    ensures some { IfSome result (λ row. does_at kind ≡ Some row.does) }
    ensures none { IfNone result (does_at kind ≡ None) }
{
    use Does::{Changes, Feeds, Reads};
    use Work::{ByQuery, ByRows, Far, Long, Short, Waits};
    Some(match kind {
        ITEMS => row("Items", Feeds, Short, 4, MOST),
        FRONT => row("Front", Reads, Short, 0, 0),
        DELTA => row("Delta", Reads, Long, 8, 8),
        FULL => row("Full", Reads, Long, 0, 0),
        ASK => row("Ask", Reads, ByQuery { at: 8 }, 11, 27),
        JOIN_THIS => row("JoinThis", Changes, Long, 54, MOST),
        MERGE_THIS => row("MergeThis", Changes, Long, 54, MOST),
        PRUNE => row("Prune", Changes, Long, 8, 8),
        STREAMS => row("Streams", Reads, Short, 0, 0),
        ASK_LATEST => row("AskLatest", Reads, ByQuery { at: 0 }, 3, 19),
        PAGE => row("Page", Reads, ByRows { at: 26 }, 30, 30),
        WHOLE => row("Whole", Reads, Long, 12, 12),
        MORE => row("More", Reads, Long, 0, 0),
        ADD_PART => row("AddPart", Changes, Short, 4, MOST),
        JOIN_PARTS => row("JoinParts", Changes, Long, 58, MOST),
        MERGE_PARTS => row("MergeParts", Changes, Long, 58, MOST),
        HOLD => row("Hold", Changes, Short, 8, 8),
        RELEASE => row("Release", Changes, Short, 8, 8),
        FEED => row("Feed", Feeds, Short, 4, MOST),
        AWAIT => row("Await", Reads, Waits, 12, 12),
        STATS => row("Stats", Reads, Short, 0, 0),
        TABLES => row("Tables", Reads, Far, 0, 0),
        _ => return None,
    })
}
