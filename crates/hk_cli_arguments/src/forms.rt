//! The commands and the queries.

use crate::numbers::{Number, node_numbers, serve_numbers};
use crate::texts;
use crate::words::Word;

/// A command.
#[derive(Clone, Copy)]
pub(crate) enum CommandForm {
    At,
    Ask,
    Front,
    Status,
    Items,
    Frames,
    Rewrite,
    World,
    Push,
    Feed,
    Save,
    Load,
    Pull,
    Prune,
    Shell,
    Explain,
    Node,
    Serve,
}

/// A query.
#[derive(Clone, Copy)]
pub(crate) enum QueryForm {
    Get,
    Range,
    ByTag,
    Count,
}

/// The commands, in the order of the help.
pub(crate) fn all_forms() -> &'static [CommandForm] {
    &[
        CommandForm::At,
        CommandForm::Ask,
        CommandForm::Front,
        CommandForm::Status,
        CommandForm::Items,
        CommandForm::Frames,
        CommandForm::Rewrite,
        CommandForm::World,
        CommandForm::Push,
        CommandForm::Feed,
        CommandForm::Save,
        CommandForm::Load,
        CommandForm::Pull,
        CommandForm::Prune,
        CommandForm::Shell,
        CommandForm::Explain,
        CommandForm::Node,
        CommandForm::Serve,
    ]
}

/// All queries.
fn all_queries() -> &'static [QueryForm] {
    &[
        QueryForm::Get,
        QueryForm::Range,
        QueryForm::ByTag,
        QueryForm::Count,
    ]
}

/// The queries that a command has behind it.
pub(crate) fn queries_of(form: CommandForm) -> &'static [QueryForm] {
    match form {
        CommandForm::Ask => all_queries(),
        _other => &[],
    }
}

/// The name of a query.
pub(crate) fn query_name<'a>(form: QueryForm) -> &'a str {
    match form {
        QueryForm::Get => "get",
        QueryForm::Range => "range",
        QueryForm::ByTag => "tag",
        QueryForm::Count => "count",
    }
}

/// What a query does.
pub(crate) fn query_about<'a>(form: QueryForm) -> &'a str {
    match form {
        QueryForm::Get => texts::GET_ABOUT,
        QueryForm::Range => texts::RANGE_ABOUT,
        QueryForm::ByTag => texts::TAG_ABOUT,
        QueryForm::Count => texts::COUNT_ABOUT,
    }
}

/// The numbers of a query.
pub(crate) fn numbers_of_query(form: QueryForm) -> &'static [Number] {
    match form {
        QueryForm::Get => &[Number::Table, Number::Key, Number::At],
        QueryForm::Range => &[Number::Table, Number::Low, Number::High, Number::At],
        QueryForm::ByTag => &[Number::Table, Number::Tag, Number::At],
        QueryForm::Count => &[Number::Table, Number::At],
    }
}

/// What each query accepts beside numbers.
pub(crate) fn query_words() -> &'static [Word] {
    &[Word::Wait]
}

/// The name of a command that asks or starts a node.
fn name_of_node<'a>(form: CommandForm) -> &'a str {
    match form {
        CommandForm::Push => "push",
        CommandForm::Feed => "feed",
        CommandForm::Save => "save",
        CommandForm::Load => "load",
        CommandForm::Pull => "pull",
        CommandForm::Prune => "prune",
        CommandForm::Shell => "shell",
        CommandForm::Node => "node",
        _serve => "serve",
    }
}

pub(crate) fn name_of<'a>(form: CommandForm) -> &'a str {
    match form {
        CommandForm::At => "at",
        CommandForm::Ask => "ask",
        CommandForm::Front => "front",
        CommandForm::Status => "status",
        CommandForm::Items => "items",
        CommandForm::Frames => "frames",
        CommandForm::Rewrite => "rewrite",
        CommandForm::World => "world",
        CommandForm::Explain => "explain",
        other => name_of_node(other),
    }
}

/// What a command that asks or starts a node, does.
fn about_of_node<'a>(form: CommandForm) -> &'a str {
    match form {
        CommandForm::Push => texts::PUSH_ABOUT,
        CommandForm::Feed => texts::FEED_ABOUT,
        CommandForm::Save => texts::SAVE_ABOUT,
        CommandForm::Load => texts::LOAD_ABOUT,
        CommandForm::Pull => texts::PULL_ABOUT,
        CommandForm::Prune => texts::PRUNE_ABOUT,
        CommandForm::Shell => texts::SHELL_ABOUT,
        CommandForm::Node => texts::NODE_ABOUT,
        _serve => texts::SERVE_ABOUT,
    }
}

pub(crate) fn about_of<'a>(form: CommandForm) -> &'a str {
    match form {
        CommandForm::At => texts::AT_ABOUT,
        CommandForm::Ask => texts::ASK_ABOUT,
        CommandForm::Front => texts::FRONT_ABOUT,
        CommandForm::Status => texts::STATUS_ABOUT,
        CommandForm::Items => texts::ITEMS_ABOUT,
        CommandForm::Frames => texts::FRAMES_ABOUT,
        CommandForm::Rewrite => texts::REWRITE_ABOUT,
        CommandForm::World => texts::WORLD_ABOUT,
        CommandForm::Explain => texts::EXPLAIN_ABOUT,
        other => about_of_node(other),
    }
}

/// The example of a command that asks or starts a node.
fn example_of_node<'a>(form: CommandForm) -> &'a str {
    match form {
        CommandForm::Push => texts::PUSH_EXAMPLE,
        CommandForm::Feed => texts::FEED_EXAMPLE,
        CommandForm::Save => texts::SAVE_EXAMPLE,
        CommandForm::Load => texts::LOAD_EXAMPLE,
        CommandForm::Pull => texts::PULL_EXAMPLE,
        CommandForm::Prune => texts::PRUNE_EXAMPLE,
        CommandForm::Shell => texts::SHELL_EXAMPLE,
        CommandForm::Node => texts::NODE_EXAMPLE,
        _serve => texts::SERVE_EXAMPLE,
    }
}

/// The example of a command.
pub(crate) fn example_of<'a>(form: CommandForm) -> &'a str {
    match form {
        CommandForm::At => texts::AT_EXAMPLE,
        CommandForm::Ask => texts::ASK_EXAMPLE,
        CommandForm::Front => texts::FRONT_EXAMPLE,
        CommandForm::Status => texts::STATUS_EXAMPLE,
        CommandForm::Items => texts::ITEMS_EXAMPLE,
        CommandForm::Frames => texts::FRAMES_EXAMPLE,
        CommandForm::Rewrite => texts::REWRITE_EXAMPLE,
        CommandForm::World => texts::WORLD_EXAMPLE,
        CommandForm::Explain => texts::EXPLAIN_EXAMPLE,
        other => example_of_node(other),
    }
}

/// What a command does, at length, where there is more to say.
pub(crate) fn long_about_of<'a>(form: CommandForm) -> Option<&'a str> {
    match form {
        CommandForm::Node => Some(texts::NODE_LONG_ABOUT),
        CommandForm::Serve => Some(texts::SERVE_LONG_ABOUT),
        _other => None,
    }
}

/// The numbers of a command that asks a node alone.
fn numbers_of_node(form: CommandForm) -> &'static [Number] {
    match form {
        CommandForm::Push => &[
            Number::Port,
            Number::SentMessages,
            Number::ConnectSeconds,
            Number::ReplySeconds,
        ],
        CommandForm::Feed => &[
            Number::Port,
            Number::Batch,
            Number::SentMessages,
            Number::ConnectSeconds,
            Number::ReplySeconds,
        ],
        CommandForm::Save | CommandForm::Load | CommandForm::Shell | CommandForm::Pull => {
            &[Number::Port, Number::ConnectSeconds, Number::ReplySeconds]
        }
        CommandForm::Prune => &[
            Number::Port,
            Number::Horizon,
            Number::ConnectSeconds,
            Number::ReplySeconds,
        ],
        _other => &[],
    }
}

/// The numbers that it accepts.
pub(crate) fn numbers_of(form: CommandForm) -> &'static [Number] {
    match form {
        CommandForm::At => &[
            Number::Log,
            Number::Streams,
            Number::Time,
            Number::Table,
            Number::Key,
        ],
        CommandForm::Ask => &[
            Number::OrLog,
            Number::OrStreams,
            Number::Port,
            Number::OrTime,
            Number::At,
            Number::ConnectSeconds,
            Number::OrReplySeconds,
        ],
        CommandForm::Front => &[
            Number::OrLog,
            Number::OrStreams,
            Number::Port,
            Number::Wait,
            Number::ConnectSeconds,
            Number::OrReplySeconds,
        ],
        CommandForm::Status => &[
            Number::OrLog,
            Number::OrStreams,
            Number::Port,
            Number::ConnectSeconds,
            Number::OrReplySeconds,
        ],
        CommandForm::Node => node_numbers(),
        CommandForm::Serve => serve_numbers(),
        other => numbers_of_node(other),
    }
}

/// What a command that starts a node accepts beside numbers.
fn words_of_serving(form: CommandForm) -> &'static [Word] {
    match form {
        CommandForm::Serve => &[Word::Guard],
        CommandForm::Node => &[
            Word::Sources,
            Word::Upstreams,
            Word::UpstreamsPrune,
            Word::Load,
            Word::LoadOrEmpty,
            Word::NeedData,
            Word::NoGuard,
            Word::PartsBytes,
            Word::Socket,
            Word::ReadSocket,
            Word::Listening,
            Word::Quiet,
            Word::Verbose,
            Word::LogFormat,
        ],
        _other => &[],
    }
}

/// What a command accepts beside numbers.
pub(crate) fn words_of(form: CommandForm) -> &'static [Word] {
    match form {
        CommandForm::At | CommandForm::Items => &[Word::Json],
        CommandForm::Ask => &[Word::Address, Word::Json, Word::Wait],
        CommandForm::Front => &[Word::Address, Word::Json],
        CommandForm::Status => &[Word::Address, Word::Json, Word::Stats, Word::Tables],
        CommandForm::Save => &[
            Word::Address,
            Word::Json,
            Word::Out,
            Word::Plain,
            Word::Force,
        ],
        CommandForm::Pull => &[Word::Address, Word::From],
        CommandForm::Shell => &[Word::Address, Word::Text, Word::Hex],
        CommandForm::Push | CommandForm::Load | CommandForm::Prune => &[Word::Address],
        CommandForm::Feed => &[Word::Address, Word::Follow],
        CommandForm::World => &[Word::Items],
        CommandForm::Explain => &[Word::Refusal],
        other => words_of_serving(other),
    }
}

/// The command of this name.
pub(crate) fn command_named(name: &str) -> Option<CommandForm> {
    for form in all_forms() {
        if name_of(*form) == name {
            return Some(*form);
        }
    }
    None
}

/// The query of this name.
pub(crate) fn query_named(name: &str) -> Option<QueryForm> {
    for form in all_queries() {
        if query_name(*form) == name {
            return Some(*form);
        }
    }
    None
}

/// Whether it asks a node, alone or where no log is named.
pub(crate) fn asks_node(form: CommandForm) -> bool {
    !matches!(
        form,
        CommandForm::At
            | CommandForm::Items
            | CommandForm::Frames
            | CommandForm::Rewrite
            | CommandForm::World
            | CommandForm::Explain
            | CommandForm::Node
            | CommandForm::Serve
    )
}
