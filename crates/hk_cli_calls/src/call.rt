//! What the program is asked to do.

use crate::node::NodeCall;
use crate::serving::Stay;
use hk_model::Query;
use hk_types::{Config, Key, Links, Table, Time};

/// The form of what a command prints.
#[derive(Clone, Copy)]
pub enum OutputForm {
    /// Lines of words and numbers.
    Lines,
    /// Lines of JSON.
    Json,
    /// Bytes that are no lines, so why the command stopped goes to standard error alone.
    Bytes,
}

/// What is done over standard input and output alone.
#[derive(Clone, Copy)]
pub enum Alone {
    /// Absorb item frames, and print the row at a table and a key at a time.
    At {
        config: Config,
        time: Time,
        table: Table,
        key: Key,
    },
    /// Absorb item frames, and print the answer to a query at a time.
    Ask {
        config: Config,
        time: Time,
        query: Query,
        form: OutputForm,
    },
    /// Absorb item frames, and print the range of readable times.
    Front {
        config: Config,
        form: OutputForm,
    },
    /// Absorb item frames, and print how far each stream is.
    Status {
        config: Config,
        form: OutputForm,
    },
    /// Print what the number of a refusal means, or what all mean.
    Explain {
        number: Option<u64>,
    },
    /// Print item frames.
    Items {
        form: OutputForm,
    },
    /// Write the frames of items in JSON.
    Frames,
    /// Write item frames in version 2.
    Rewrite,
}

/// The file that a full snapshot is written to.
#[derive(Clone, Copy)]
pub struct Kept<'a> {
    pub name: &'a str,
    /// Whether that of a node that has nothing takes the place of a file that has something.
    pub is_forced: bool,
}

/// What the program is asked to do.
#[derive(Clone, Copy)]
pub enum Call<'a> {
    /// What needs no file and no network.
    Alone(Alone),
    /// Play a script of a primary and its replicas, and write the items to a file of this name where one is given.
    World {
        items: Option<&'a str>,
    },
    /// Start a node, and serve so many connections on a port.
    Serve {
        config: Config,
        port: u16,
        links: Links,
        /// Whether each change is tested before it is added.
        is_guarded: bool,
        /// How many bytes all connections keep for messages of version 2; none where those of version 1 alone are answered.
        parts_bytes: Option<u64>,
    },
    /// Start a node of a log, and serve connections to it without an end.
    Stay(Config, Stay<'a>),
    /// Have a node that runs do something.
    Node(NodeCall<'a>),
    /// The same, and write what it prints into a file: all of it, or the file stays as it is.
    Into(NodeCall<'a>, Kept<'a>),
    /// Have a node that runs apply the items of a log in the file of this name, and those that come.
    Follow(NodeCall<'a>, &'a str),
}
