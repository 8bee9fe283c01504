//! What is wrong with words that have the form of a command line.

use std::alloc::{AllocError, Global};

/// What an address is.
const ADDRESS: &str = "an address is HOST:PORT, as far:7420 or [::1]:7420, or unix:PATH";

/// What is wrong with a word.
#[derive(Clone, Copy)]
pub(crate) enum WordFlaw {
    /// It is wanted to be a number, and has more than decimal digits.
    Digits,
    /// That of `--node` is no address.
    Node,
    /// That of the environment is none.
    Variable,
    /// That of `--from` is neither a port nor an address.
    Source,
    /// This one of `--from` of a node names none, or is one too many.
    Sources,
    /// This one of `--follow` names none, or is one too many.
    Upstreams,
    /// That of `--follow-prunes` is neither yes nor no.
    YesOrNo,
    /// This one of `--load` is one too many.
    Files,
    /// That of `--link-bytes` is no number of bytes and no share of the memory.
    Chunks,
    /// That of `--log-format` is no form of lines.
    Format,
    /// That of `--address` is no IP address.
    Listening,
    /// No refusal has this number or name.
    NoRefusal,
}

/// What is wrong.
#[derive(Clone, Copy)]
pub(crate) enum Flaw<'a> {
    /// A word.
    Word(&'a str, WordFlaw),
    /// A number from which no call can be made.
    Range,
    /// A node would have more threads than seats.
    Seats,
    /// Item frames are asked without a time.
    NoTime,
    /// The time is given before the query and behind it.
    TwoTimes,
    /// A question is to wait, and has no time.
    NoTimeToWait,
    /// A question of item frames is to wait.
    NoNodeToWait,
    /// The least key of a range is above the greatest.
    Backwards,
    /// No command has the first word's name.
    NoSuchCommand,
    /// There is no command.
    NoCommand,
}

/// What is said behind a word.
fn words_behind(flaw: WordFlaw) -> &'static str {
    match flaw {
        WordFlaw::Digits => ": a number is written in decimal digits alone",
        WordFlaw::Node => " for '--node <ADDRESS>': ",
        WordFlaw::Variable => " of HKREP_NODE in the environment: ",
        WordFlaw::Source => " for '--from <Q>': a port is 1 to 65535; ",
        WordFlaw::Sources => {
            " for '--from <NODE>': up to 8 nodes are wanted; a port is 1 to 65535; "
        }
        WordFlaw::Upstreams => {
            " for '--follow <NODE>': up to 8 nodes are wanted; a port is 1 to 65535; "
        }
        WordFlaw::YesOrNo => " for '--follow-prunes <yes|no>': yes or no is wanted",
        WordFlaw::Files => " for '--load <FILE>': up to 8 files are wanted",
        WordFlaw::Chunks => {
            " for '--link-bytes <BYTES>': a number of bytes is wanted, or 1% to 100% of the memory"
        }
        WordFlaw::Format => " for '--log-format <FORMAT>': text or json is wanted",
        WordFlaw::Listening => {
            " for '--address <A>': an IP address is wanted, as 127.0.0.1, 0.0.0.0 or ::1"
        }
        WordFlaw::NoRefusal => {
            " for '[NUMBER]': no refusal has this number or name; 'hkrep explain' lists them"
        }
    }
}

/// What an address is, where the word was to be one.
fn address_behind(flaw: WordFlaw) -> &'static str {
    match flaw {
        WordFlaw::Node | WordFlaw::Variable | WordFlaw::Source => ADDRESS,
        WordFlaw::Sources | WordFlaw::Upstreams => ADDRESS,
        _other => "",
    }
}

/// What is wrong with the words as a whole.
fn words_of(flaw: Flaw<'_>) -> &'static str {
    match flaw {
        Flaw::NoTime => {
            "the time is missing: give TIME before the query, or --at TIME behind it"
        }
        Flaw::NoTimeToWait => {
            "--wait is for a time: give TIME before the query, or --at TIME behind it"
        }
        Flaw::NoNodeToWait => "--wait is for a node that runs: it can't be given with --log",
        Flaw::TwoTimes => "the time is given twice: give TIME before the query, or --at TIME",
        Flaw::Seats => {
            "a node has 64 seats: two for each of --workers, and one for each node of --follow; give fewer workers"
        }
        Flaw::Backwards => "LOW is above HIGH: a range goes from its least key to its greatest",
        Flaw::NoSuchCommand => "no such command",
        Flaw::NoCommand => "a command is missing",
        _range => "a number is out of its range",
    }
}

/// The text of the error. The only error is out of memory.
pub(crate) fn text_of(alloc: Global, flaw: Flaw<'_>) -> Result<String, AllocError> {
    match flaw {
        Flaw::Word(word, why) => {
            let (behind, address) = (words_behind(why), address_behind(why));
            format!(in alloc; "invalid value '{word}'{behind}{address}")
        }
        whole => String::from_str(alloc, words_of(whole)),
    }
}
