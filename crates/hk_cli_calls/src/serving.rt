//! How a long-running node serves its connections.

use crate::node::NodePlace;
use std::net::IpAddr;

/// What a long-running node reports of its connections.
#[derive(Clone, Copy, Debug, PartialEq, Eq)]
pub enum Level {
    /// Faults, and changes that were refused.
    Faults,
    /// Each connection that opens or ends too.
    Links,
    /// Each change that takes effect too.
    Changes,
}

/// A further port of a long-running node, whose connections may do less.
#[derive(Clone, Copy, Debug, PartialEq, Eq)]
pub struct OtherPort {
    /// The port.
    pub port: u16,
    /// How many connections to it are served at once.
    pub links: u16,
}

/// How many bytes all connections keep at most.
#[derive(Clone, Copy)]
pub enum PartsLimit {
    /// So many.
    Bytes(u64),
    /// So many hundredths of the memory that the program may have, but not less than 268,435,456.
    Percent(u64),
}

/// The most nodes of which one takes what it begins with.
pub const MOST_SOURCES: usize = 8;

/// The most files of which one is taken.
pub const MOST_FILES: usize = 8;

/// What `node` has before it listens.
#[derive(Clone, Copy)]
pub struct Start<'a> {
    /// The names of files that `save` wrote: what the first that is whole has is taken first. Those that there are come first.
    pub files: [Option<&'a str>; MOST_FILES],
    /// Whether the node begins without a file where one is there and none is whole; else the program ends.
    pub may_lack_file: bool,
    /// Nodes: what the first that answers has above that is taken next. Those that there are come first.
    pub sources: [Option<NodePlace<'a>>; MOST_SOURCES],
    /// Nodes that it follows: what the first that answers has above that is taken before it listens, and then whatever one of them has
    /// and it lacks. Those that there are come first.
    pub follows: [Option<NodePlace<'a>>; MOST_SOURCES],
    /// Whether it prunes what those that it follows prune.
    pub follow_prunes: bool,
    /// Whether the program ends where none of these can be had.
    pub needs_data: bool,
    /// How many bytes a second have to have come of another node's reply that isn't complete 30 seconds after it began; 0 is no limit.
    pub read_rate: u64,
}

/// How a long-running node serves its connections.
#[derive(Clone, Copy)]
pub struct Stay<'a> {
    /// The address that its ports are opened at.
    pub address: IpAddr,
    /// The port for connections of every kind.
    pub port: u16,
    /// How many connections to that port are served at once.
    pub links: u16,
    /// The port for connections that send items and ask, if there is one.
    pub feeding: Option<OtherPort>,
    /// The port for read-only connections, if there is one.
    pub reading: Option<OtherPort>,
    /// The path of a Unix domain socket for connections of every kind, if there is one: as many as the port serves.
    pub socket: Option<&'a str>,
    /// The path of one for read-only connections, if there is one.
    pub read_socket: Option<&'a str>,
    /// How many threads give short answers, and as many long ones; 0: as many as there are processors.
    pub workers: u16,
    /// For how many seconds inside a frame nothing may come; 0 is no limit.
    pub read_seconds: u64,
    /// How many bytes a second have to have come of a frame that isn't complete 30 seconds after it began; 0 is no limit.
    pub read_rate: u64,
    /// For how many seconds a reply may stand that isn't taken; 0 is no limit.
    pub write_seconds: u64,
    /// For how many seconds a connection may be silent between two frames; 0 is no limit.
    pub idle_seconds: u64,
    /// Whether each change is tested before it is added, so that none makes the node fail.
    pub is_guarded: bool,
    /// How many bytes all connections keep at most.
    pub parts: PartsLimit,
    /// What is reported of connections.
    pub level: Level,
    /// Whether its lines on standard error are JSON.
    pub in_json: bool,
    /// What it has before it listens.
    pub start: Start<'a>,
}
