use hk_types::Time;

/// The report of one stream: how much is known of it, and not which numbers and marks.
#[derive(Clone, Copy, Debug, PartialEq, Eq)]
pub struct StreamTold {
    /// The greatest number up to which all entries are applied.
    pub prefix: u64,
    /// The time up to which the stream is closed.
    pub closed: Time,
    /// How many numbers above the prefix are applied.
    pub extra: u64,
    /// How many marks wait.
    pub waiting: u64,
}

/// How far a node is, and each of its streams.
#[derive(Debug, PartialEq, Eq, Drop)]
pub struct StreamsTold {
    /// The id of the log.
    pub log: u64,
    /// The horizon: the oldest readable time.
    pub horizon: Time,
    /// The resolved time: the greatest time that can be read.
    pub readable: Time,
    /// Whether the node met a conflict, so that it answers nothing else.
    pub damaged: bool,
    /// How many operations the node made.
    pub operations: u64,
    /// The least pinned time, where a pin is active.
    pub least_hold: Option<Time>,
    /// The streams, by their numbers.
    pub streams: Vec<StreamTold>,
}
