//! What each number means.

/// A refusal, as it differs from any that came.
#[derive(Clone, Copy)]
pub struct Known {
    /// Its name, and the names of its fields.
    pub name: &'static str,
    /// What it means.
    pub meaning: &'static str,
    /// What to do.
    pub advice: &'static str,
}

/// What a number means, where a refusal has it.
pub fn known_of(number: u8) -> Option<Known> {
    match number {
        0..=10 => fault(number),
        11..=29 => of_items(number),
        30..=39 => of_transactions(number),
        40..=89 => of_nodes(number),
        _above => of_devices(number),
    }
}

/// The greatest number of a refusal.
pub const LAST_NUMBER: u8 = 93;

/// Whether this is a number's name, in whichever case, without its fields.
fn is_named(number: u8, name: &str) -> bool {
    match known_of(number) {
        Some(known) => match known.name.split_once(' ') {
            Some((own, _fields)) => own.eq_ignore_ascii_case(name),
            None => known.name.eq_ignore_ascii_case(name),
        },
        None => false,
    }
}

/// The number of the refusal with this name, in whichever case. Cost: O(1).
pub fn number_named(name: &str) -> Option<u8> {
    for number in 1..=LAST_NUMBER {
        if is_named(number, name) {
            return Some(number);
        }
    }
    None
}

fn told(name: &'static str, meaning: &'static str, advice: &'static str) -> Option<Known> {
    Some(Known {
        name,
        meaning,
        advice,
    })
}

fn fault(number: u8) -> Option<Known> {
    match number {
        1 => told(
            "Truncated",
            "the input ends inside a frame",
            "send the frame to its end",
        ),
        2 => told(
            "TooLong",
            "the length field is above its limit, or a value has no encoding",
            "fix the sender: 4233248 bytes are the most of an item, 268435456 of a message",
        ),
        3 => told(
            "BadVersion",
            "the version byte is not 1, nor 2 where that is read",
            "fix the sender: items have version 1 or 2, messages 1, and 2 for a node with --messages 2",
        ),
        4 => told(
            "BadKind",
            "the kind byte has no meaning there",
            "fix the sender: items have kind 1 or 2, requests 16 to 23 or 48 to 61, replies 32 to 36 or 64 to 76",
        ),
        5 => told(
            "BadStream",
            "a stream number or count outside 1 to 64",
            "fix the sender: a log has 1 to 64 streams",
        ),
        _more => fault_of_lists(number),
    }
}

fn fault_of_lists(number: u8) -> Option<Known> {
    match number {
        6 => told(
            "BadNumber",
            "a number, time, mark, flag or reserved field outside its range",
            "fix the sender: docs/FORMATS.md has the range of each field",
        ),
        7 => told(
            "BadOrder",
            "a list does not rise strictly",
            "fix the sender: lists rise by table and key, each at most once",
        ),
        8 => told(
            "BadCount",
            "a count above its limit, both lists of an entry empty, or another number of facts in chunks",
            "fix the sender: an entry has 1 to 1024 ends or rows, and each chunk of a snapshot is sent once",
        ),
        9 => told(
            "BadBody",
            "a body above 4,096 bytes",
            "split the row: a body has at most 4096 bytes",
        ),
        10 => told(
            "WrongLength",
            "a field does not fit in the rest, or bytes are left, or the rest is shorter than its least",
            "fix the sender: the length field counts the bytes behind it",
        ),
        _none => None,
    }
}

fn of_items(number: u8) -> Option<Known> {
    match number {
        20 => told(
            "ForeignLog",
            "another log id",
            "feed each log to a replica of its own",
        ),
        21 => told(
            "WrongStreams",
            "a stream above the configured number, or another number of streams",
            "give the replica the number of streams that the log has",
        ),
        22 => told(
            "Gap {base, readable}",
            "a delta begins above the target's resolved time",
            "ask for a delta since the resolved time, or for a snapshot",
        ),
        23 => told(
            "Conflict",
            "a conflict",
            "find the wrong feed: the items are not of one log, or it was begun anew under its id. Tested are: of items, their rows \
and ends of one version, and closed times where they are absorbed or the node has --guard; of a fragment, two facts of one version. A node \
with --guard also tests that answers about the past don't change (late rows and ends, older rows that would show again), and \
entries above the oldest readable time whose number is applied already. No node tests \
the oldest readable time and the marks that a sender states",
        ),
        24 => told(
            "AheadOfMark {readable}",
            "a prune above the resolved time",
            "prune to the resolved time at most",
        ),
        25 => told(
            "TooOld {horizon}",
            "a time below the oldest readable time",
            "ask at the oldest readable time or later",
        ),
        26 => told(
            "NotYet {readable}",
            "a time above the resolved time",
            "ask at the resolved time, or wait for the time (--wait, node.wait); who feeds: send the marks of all streams",
        ),
        _none => None,
    }
}

fn of_transactions(number: u8) -> Option<Known> {
    match number {
        30 => told(
            "WriteConflict {table, key, at}",
            "a later commit wrote the key",
            "begin the transaction again",
        ),
        31 => told(
            "NoRow {table, key}",
            "a removed key is absent",
            "remove only what is there when the transaction begins",
        ),
        32 => told(
            "TwiceWritten",
            "the transaction wrote the key already",
            "write each key once",
        ),
        33 => told(
            "TooManyWrites",
            "a write after 1,024",
            "commit, and go on in another transaction",
        ),
        34 => told(
            "NoStream",
            "the primary has no such stream",
            "name a stream that the log has",
        ),
        35 => told(
            "ClockFull",
            "the last time is 2^62",
            "begin a new log: this one is full",
        ),
        36 => told(
            "Retired {stream}",
            "the stream is retired",
            "commit on another stream",
        ),
        _none => None,
    }
}

fn of_nodes(number: u8) -> Option<Known> {
    match number {
        40 => told(
            "Held {reader, at}",
            "a join or merge would raise the oldest readable time past a pinned time",
            "wait until the reader releases its pin",
        ),
        41 => told(
            "Damaged",
            "the node met a conflict",
            "build the node anew from one good source",
        ),
        42 => told(
            "Unpublished {ops}",
            "appended, not yet published",
            "publish again, or make the next change: this one is kept",
        ),
        43 => told(
            "NodeFull",
            "the list has 2^62 operations",
            "start a new node: this one is full",
        ),
        44 => told(
            "NoHold",
            "no such pin is active",
            "release each pin once, at its own node",
        ),
        45 => told(
            "NoSuch",
            "no such replica or item in a world",
            "name a replica that the world has, and an item that was emitted",
        ),
        _more => of_parts(number),
    }
}

fn of_parts(number: u8) -> Option<Known> {
    match number {
        46 => told(
            "LinkFull {most}",
            "what connections keep in chunks would be more than the operator allows",
            "wait until other connections are done, or give the node more bytes for chunks",
        ),
        47 => told(
            "NoPart",
            "nothing is being sent in chunks",
            "ask for the snapshot first, and for more until its last chunk",
        ),
        _none => None,
    }
}

fn of_devices(number: u8) -> Option<Known> {
    match number {
        90 => told(
            "Memory",
            "a growth was refused",
            "free memory, and make the same call again",
        ),
        91 => told(
            "ReadFault",
            "a read failed, or the bound on reads (2^32) was met",
            "look at the device or the connection that is read",
        ),
        92 => told(
            "WriteFault",
            "a write failed or took 0 bytes",
            "look at the device or the connection that is written to",
        ),
        93 => told(
            "NetFault",
            "bind, accept or connect failed",
            "where a node is asked, see that one listens on the port; where one is served, that no other program has the port",
        ),
        _none => None,
    }
}
