//! The arguments that are no numbers.

use crate::argument::{Description, Need, Range, Shape};

/// An argument that is no number.
#[derive(Clone, Copy)]
pub(crate) enum Word {
    Json,
    Address,
    Items,
    Out,
    Follow,
    Plain,
    Force,
    From,
    Refusal,
    Text,
    Hex,
    Wait,
    Stats,
    Tables,
    Guard,
    Sources,
    Upstreams,
    UpstreamsPrune,
    Load,
    LoadOrEmpty,
    NeedData,
    NoGuard,
    PartsBytes,
    Socket,
    ReadSocket,
    Listening,
    Quiet,
    Verbose,
    LogFormat,
}

/// The name that an option of a node that is started is read back by.
fn name_of_serving(word: Word) -> &'static str {
    match word {
        Word::Guard => "guard",
        Word::Quiet => "quiet",
        Word::Verbose => "verbose",
        Word::Load => "load",
        Word::LoadOrEmpty => "load-or-empty",
        Word::NeedData => "need-data",
        Word::NoGuard => "no-guard",
        Word::PartsBytes => "link-bytes",
        Word::Socket => "socket",
        Word::ReadSocket => "read-socket",
        Word::LogFormat => "log-format",
        _listening => "address",
    }
}

/// The name that it is read back by.
fn name_of(word: Word) -> &'static str {
    match word {
        Word::Json => "json",
        Word::Address => "node",
        Word::Items => "items",
        Word::Out => "out",
        Word::Follow | Word::Upstreams => "follow",
        Word::UpstreamsPrune => "follow-prunes",
        Word::Plain => "plain",
        Word::Force => "force",
        Word::From | Word::Sources => "from",
        Word::Refusal => "refusal",
        Word::Text => "text",
        Word::Hex => "hex",
        Word::Wait => "wait",
        Word::Stats => "stats",
        Word::Tables => "tables",
        other => name_of_serving(other),
    }
}

/// The placeholder of its word in the help, where it has one.
fn value_of(word: Word) -> &'static str {
    match word {
        Word::Address => "ADDRESS",
        Word::Items | Word::Out | Word::Follow | Word::Load => "FILE",
        Word::From => "Q",
        Word::Refusal => "NUMBER",
        Word::Sources | Word::Upstreams => "NODE",
        Word::UpstreamsPrune => "yes|no",
        Word::PartsBytes => "BYTES",
        Word::Socket | Word::ReadSocket => "PATH",
        Word::Listening => "A",
        Word::LogFormat => "FORMAT",
        _flag => "",
    }
}

/// The help of an option of `node`.
fn help_of_node(word: Word) -> &'static str {
    match word {
        Word::Sources => {
            "Begin with what this node has: PORT, HOST:PORT or unix:PATH. More than one, also with commas: the first that answers"
        }
        Word::Upstreams => {
            "Begin with what this node has, and follow it: take whatever it has and this one lacks, as it comes. More than one, also with \
commas: whatever any of them has"
        }
        Word::UpstreamsPrune => {
            "Whether what the nodes of --follow prune is pruned here: yes, or no, to keep what they don't; yes where it isn't given"
        }
        Word::Load => {
            "Begin with what this file has, which 'hkrep save' wrote, before what --from has above it. More than one: the first that is whole; \
where one is there and none is whole, end with status 1"
        }
        Word::LoadOrEmpty => {
            "Begin without a file where one of --load is there and none is whole"
        }
        Word::NeedData => "End with status 1 where there is neither a file nor another node",
        Word::NoGuard => "Don't test changes first: a conflict makes the node fail",
        Word::LogFormat => {
            "How the lines on standard error are written: text, or json, an object a line; text where it isn't given"
        }
        Word::Socket => {
            "Also serve as many connections over a Unix domain socket of this path; a file there that nobody listens on is replaced"
        }
        Word::ReadSocket => "The same for connections that may only read",
        _parts => {
            "How many bytes all connections keep at most, in snapshots in chunks and between socket and session: N, or P% of the \
memory; 25% where it isn't given, and at least 268435456. With --read-port or --read-socket half is for their connections"
        }
    }
}

/// The help of an option of a node that is started.
fn help_of_serving(word: Word) -> &'static str {
    match word {
        Word::Guard => {
            "Test each change first: one that conflicts is refused 23, and changes nothing"
        }
        Word::Quiet => { "Print faults alone to standard error, and not each connection" }
        Word::Verbose => { "Print each change that takes effect to standard error, too" }
        Word::Listening => {
            "Where the ports are opened, in place of 127.0.0.1. Nothing is encrypted or authenticated"
        }
        other => help_of_node(other),
    }
}

/// The help of it.
fn help_of(word: Word) -> &'static str {
    match word {
        Word::Json => "Print lines of JSON",
        Word::Address => {
            "The node's address, in place of --port: HOST:PORT, a name or an IP address, or unix:PATH; \
where neither is given HKREP_NODE of the environment, else 127.0.0.1:7420"
        }
        Word::Items => {
            "Also write the frames of the primary's items to this file, which is made anew"
        }
        Word::Out => {
            "Write to this file: all of it, synced, or it stays as it was. What it had before is in FILE.1 then"
        }
        Word::Follow => {
            "Send the log in this file, beside FILE.sums, in place of standard input, and what comes, until it is ended. What it sends is on the disk"
        }
        Word::Plain => {
            "Leave the checksum out, as for an hkrep that doesn't know it (refused 4 behind a fragment)"
        }
        Word::Force => {
            "Let a node that has nothing take the place of a file that has something, which else ends with status 3"
        }
        Word::From => "The other node: its port on 127.0.0.1, or an address as that of --node",
        Word::Refusal => "The number or the name of a refusal",
        Word::Text => "Print bodies as text, and escape what can't be shown",
        Word::Hex => "Print bodies in hexadecimal digits",
        Word::Wait => {
            "Wait until the time can be read that is given; the node has to answer messages of version 2"
        }
        Word::Stats => {
            "Also print the node's numbers, of what it holds, its memory, its connections, its requests: 'WORD VALUE' or \
'WORD LABEL VALUE' for each. The node has to answer messages of version 2"
        }
        Word::Tables => {
            "Also print 'table N' for each table that it holds anything of. The node has to answer messages of version 2"
        }
        other => help_of_serving(other),
    }
}

/// How it is written.
fn shape_of(word: Word) -> Shape {
    match word {
        Word::Refusal => Shape::Position,
        Word::Address | Word::Items | Word::Out | Word::Follow | Word::From => Shape::Option,
        Word::PartsBytes | Word::Listening => Shape::Option,
        Word::Socket | Word::ReadSocket | Word::LogFormat => Shape::Option,
        Word::UpstreamsPrune => Shape::Option,
        Word::Sources | Word::Upstreams | Word::Load => Shape::Options,
        Word::Quiet => Shape::Letter('q'),
        Word::Verbose => Shape::Letter('v'),
        _flag => Shape::Flag,
    }
}

/// What its word may be, where it has one.
fn range_of(shape: Shape) -> Range {
    match shape {
        Shape::Position | Shape::Option | Shape::Options => Range::Text,
        Shape::Flag | Shape::Letter(_) => Range::Nothing,
    }
}

/// When it has to be given.
fn need_of(word: Word) -> Need {
    match word {
        Word::From => Need::always(),
        Word::Address => Need::without(&["port"]),
        Word::Plain => Need::without(&["json"]),
        Word::Force => Need::with(&["out"]),
        Word::Upstreams => Need::without(&["no-guard"]),
        Word::UpstreamsPrune => Need::with(&["follow"]),
        Word::LoadOrEmpty => Need::with(&["load"]),
        Word::Text => Need::without(&["hex"]),
        Word::Stats | Word::Tables => Need::without(&["log"]),
        Word::Verbose => Need::without(&["quiet"]),
        _other => Need::never(),
    }
}

/// All columns of a word.
pub(crate) fn description_of(word: Word) -> Description {
    let shape = shape_of(word);
    Description {
        name: name_of(word),
        value: value_of(word),
        help: help_of(word),
        shape,
        range: range_of(shape),
        need: need_of(word),
    }
}
