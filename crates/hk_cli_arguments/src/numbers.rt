//! The arguments that are numbers. (Their properties are in functions of one column each: a table of all columns takes
//! minutes to prove wherever it is named.)

use crate::argument::{Description, Need, Range, Shape};

/// An argument that is a number. Those of a name that begins with `Or` are of a command that asks a node where no log is named,
/// those with `Serve` report a negative number as one that is not in the range, and those with `Node` are of `node`.
#[derive(Clone, Copy)]
pub(crate) enum Number {
    Log,
    OrLog,
    Streams,
    OrStreams,
    ServeStreams,
    Port,
    ServePort,
    NodePort,
    Links,
    NodeLinks,
    Batch,
    Time,
    OrTime,
    At,
    Horizon,
    Wait,
    Table,
    Key,
    Low,
    High,
    Tag,
    ConnectSeconds,
    ReplySeconds,
    OrReplySeconds,
    Messages,
    SentMessages,
    PartsBytes,
    ReadSeconds,
    ReadRate,
    FeedPort,
    FeedLinks,
    ReadPort,
    ReadLinks,
    Workers,
    WriteSeconds,
    IdleSeconds,
}

/// The name of a number that a node's ports, connections and limits of time have.
fn name_of_node(number: Number) -> &'static str {
    match number {
        Number::ConnectSeconds => "connect-seconds",
        Number::ReplySeconds | Number::OrReplySeconds => "reply-seconds",
        Number::Messages | Number::SentMessages => "messages",
        Number::PartsBytes => "link-bytes",
        Number::ReadSeconds => "read-seconds",
        Number::ReadRate => "read-rate",
        Number::FeedPort => "feed-port",
        Number::FeedLinks => "feed-links",
        Number::ReadPort => "read-port",
        Number::ReadLinks => "read-links",
        Number::Links | Number::NodeLinks => "links",
        Number::Workers => "workers",
        Number::WriteSeconds => "write-seconds",
        Number::IdleSeconds => "idle-seconds",
        _port => "port",
    }
}

/// The name that it is read back by.
pub(crate) fn name_of(number: Number) -> &'static str {
    match number {
        Number::Log | Number::OrLog => "log",
        Number::Streams | Number::OrStreams | Number::ServeStreams => "streams",
        Number::Batch => "batch",
        Number::Time | Number::OrTime | Number::Horizon => "time",
        Number::At => "at",
        Number::Wait => "wait",
        Number::Table => "table",
        Number::Key => "key",
        Number::Low => "low",
        Number::High => "high",
        Number::Tag => "tag",
        other => name_of_node(other),
    }
}

/// The placeholder of its value in the help of a number that a node's ports, connections and limits of time have.
fn value_of_node(number: Number) -> &'static str {
    match number {
        Number::Messages | Number::SentMessages => "V",
        Number::FeedPort => "P3",
        Number::FeedLinks => "M3",
        Number::ReadPort => "P2",
        Number::ReadLinks => "M",
        Number::ReadRate => "BYTES",
        Number::Port | Number::ServePort | Number::NodePort => "P",
        _other => "N",
    }
}

/// The placeholder of its value in the help.
fn value_of(number: Number) -> &'static str {
    match number {
        Number::Log | Number::OrLog => "L",
        Number::Streams | Number::OrStreams | Number::ServeStreams => "S",
        Number::Time | Number::OrTime | Number::At | Number::Horizon => "T",
        Number::Wait => "TIME",
        Number::Table => "TABLE",
        Number::Key => "KEY",
        Number::Low => "LOW",
        Number::High => "HIGH",
        Number::Tag => "TAG",
        other => value_of_node(other),
    }
}

/// The help of a number of a node's connections.
fn help_of_links(number: Number) -> &'static str {
    match number {
        Number::Links => "How many connections are served, 1 to 64",
        Number::NodePort =>
            "The port of 127.0.0.1: 1 to 65535, or 0 for one that is free; 7420 where it isn't given",
        Number::NodeLinks => {
            "How many connections are served at once: 1 to 65535; 64 where it isn't given"
        }
        Number::FeedPort => "A further port, whose connections may send items and ask: 1 to 65535",
        Number::FeedLinks => { "How many connections to that port are served at once: 1 to 65535" }
        Number::ReadPort => "A second port, whose connections may only read: 1 to 65535",
        Number::ReadLinks => { "How many read-only connections are served at once: 1 to 65535" }
        Number::ReadSeconds => {
            "End a connection where inside a frame nothing comes for so long: 0 (never) to 86400; 30 where it isn't given"
        }
        other => help_of_workers(other),
    }
}

/// The help of a number of workers, of limits of time or of a rate.
fn help_of_workers(number: Number) -> &'static str {
    match number {
        Number::ReadRate => {
            "End a connection of whose frame after 30 seconds fewer bytes a second have come than this: 0 (never) to 1048576; 1024 where it \
isn't given"
        }
        Number::Workers => {
            "How many threads give short answers, and as many long ones: 1 to 31; as many as processors where it isn't given"
        }
        Number::WriteSeconds => {
            "End a connection that doesn't take its replies for so long: 0 (never) to 86400; 30 where it isn't given"
        }
        _idle => {
            "End a connection that is silent between two frames for so long: 0 (never) to 86400; 0 where it isn't given"
        }
    }
}

/// The help of a number of messages or of limits of time.
fn help_of_messages(number: Number) -> &'static str {
    match number {
        Number::ConnectSeconds => {
            "Try again to connect for so long where nobody listens: 0 (once) to 86400; 3 where it isn't given"
        }
        Number::ReplySeconds => {
            "End where the node replies nothing for so long: 0 (never) to 86400; 0 where it isn't given"
        }
        Number::OrReplySeconds => {
            "End where the node replies nothing for so long: 0 (never) to 86400; 30 where it isn't given"
        }
        Number::Messages => {
            "The latest version of messages that is answered: 1 or 2; 1 where it isn't given"
        }
        Number::SentMessages => {
            "The latest version of requests that is sent: 1 or 2; 1 where it isn't given"
        }
        Number::PartsBytes => {
            "How many bytes all connections keep at most, with --messages 2; 1073741824 where it isn't given"
        }
        other => help_of_links(other),
    }
}

/// The help of a number of a query.
fn help_of_query(number: Number) -> &'static str {
    match number {
        Number::Horizon => "The time: 0 to 4611686018427387904",
        Number::Time | Number::OrTime => "The time to read at: 0 to 4611686018427387904",
        Number::At => "The same, behind the query as well as before it",
        Number::Wait => {
            "Wait until this time can be read, 0 to 4611686018427387904; the node has to answer messages of version 2"
        }
        Number::Table => "The number of the table: 0 to 65535",
        Number::Key => "The key of the row: 0 to 18446744073709551615",
        Number::Low => "The least key",
        Number::High => "The greatest key",
        Number::Tag => "The tag: 0 to 4294967295",
        other => help_of_messages(other),
    }
}

/// The help of it.
fn help_of(number: Number) -> &'static str {
    match number {
        Number::Log | Number::OrLog => "The id of the log: a number up to 18446744073709551615",
        Number::Streams | Number::OrStreams | Number::ServeStreams => {
            "How many streams the log has: 1 to 64"
        }
        Number::ServePort => "The port of 127.0.0.1: 1 to 65535, or 0 for one that is free",
        Number::Port => "The node's port on 127.0.0.1: 1 to 65535",
        Number::Batch => "How many items a batch has: 1 to 65536; 4096 where it isn't given",
        other => help_of_query(other),
    }
}

fn range_of(number: Number) -> Range {
    match number {
        Number::Streams | Number::OrStreams => Range::Within(1, 64),
        Number::ServeStreams => Range::Signed(1, 64),
        Number::Links | Number::NodeLinks => Range::Signed(1, 65_535),
        Number::Port | Number::FeedPort | Number::ReadPort => Range::Within(1, 65_535),
        Number::ServePort | Number::NodePort => Range::Signed(0, 65_535),
        Number::FeedLinks => Range::Within(1, 65_535),
        Number::ReadLinks => Range::Within(1, 65_535),
        Number::Workers => Range::Within(1, 31),
        Number::WriteSeconds => Range::Within(0, 86_400),
        Number::IdleSeconds => Range::Within(0, 86_400),
        Number::ReadRate => Range::Within(0, 1_048_576),
        Number::Batch => Range::Within(1, 65_536),
        Number::Time | Number::OrTime | Number::At | Number::Horizon => {
            Range::Within(0, 4_611_686_018_427_387_904)
        }
        Number::Wait => Range::Within(0, 4_611_686_018_427_387_904),
        Number::Table => Range::Within(0, 65_535),
        Number::Tag => Range::Within(0, 4_294_967_295),
        Number::ConnectSeconds | Number::ReadSeconds => Range::Within(0, 86_400),
        Number::ReplySeconds | Number::OrReplySeconds => Range::Within(0, 86_400),
        Number::Messages | Number::SentMessages => Range::Within(1, 2),
        _any => Range::Any,
    }
}

/// What is said of a node that is asked, and so not beside a log.
const NO_NODE: &[&str] = &["port", "node", "connect-seconds", "reply-seconds"];

/// When it has to be given.
fn need_of(number: Number) -> Need {
    match number {
        Number::OrLog => Need::with(&["streams"]).and_without(NO_NODE),
        Number::OrStreams => Need::with(&["log"]),
        Number::PartsBytes => Need::with(&["messages"]),
        Number::Wait => Need::without(&["log"]),
        Number::FeedPort => Need::with(&["feed-links"]),
        Number::FeedLinks => Need::with(&["feed-port"]),
        Number::ReadPort => Need::with(&["read-links"]),
        Number::ReadLinks => Need::with(&["read-port"]),
        Number::Port | Number::Batch | Number::OrTime | Number::At => Need::never(),
        Number::ConnectSeconds | Number::ReplySeconds | Number::OrReplySeconds => Need::never(),
        Number::Messages | Number::SentMessages | Number::NodePort => Need::never(),
        Number::NodeLinks | Number::ReadSeconds | Number::ReadRate => Need::never(),
        Number::Workers | Number::WriteSeconds | Number::IdleSeconds => Need::never(),
        _always => Need::always(),
    }
}

/// Whether it has a name in the command line, or a position.
fn shape_of(number: Number) -> Shape {
    match number {
        Number::Time | Number::OrTime | Number::Horizon | Number::Table => Shape::Position,
        Number::Key | Number::Low | Number::High | Number::Tag => Shape::Position,
        _named => Shape::Option,
    }
}

/// All columns of a number.
pub(crate) fn description_of(number: Number) -> Description {
    Description {
        name: name_of(number),
        value: value_of(number),
        help: help_of(number),
        range: range_of(number),
        need: need_of(number),
        shape: shape_of(number),
    }
}

/// The numbers of `node`, in the order in which a bad word is looked for.
pub(crate) fn node_numbers() -> &'static [Number] {
    &[
        Number::Log,
        Number::ServeStreams,
        Number::NodePort,
        Number::NodeLinks,
        Number::FeedPort,
        Number::FeedLinks,
        Number::ReadPort,
        Number::ReadLinks,
        Number::ReadSeconds,
        Number::ReadRate,
        Number::WriteSeconds,
        Number::IdleSeconds,
        Number::Workers,
    ]
}

/// The numbers of `serve`.
pub(crate) fn serve_numbers() -> &'static [Number] {
    &[
        Number::Log,
        Number::ServeStreams,
        Number::ServePort,
        Number::Links,
        Number::Messages,
        Number::PartsBytes,
    ]
}
