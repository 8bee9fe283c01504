//! The call of `node`.

use crate::calls::{config_of, has_flag, port_of, u16_of, u64_of};
use crate::flaw::{Flaw, WordFlaw};
use crate::places::port_or_place;
use clap::ArgMatches;
use hk_cli_calls::{
    Call, Level, MOST_FILES, MOST_SOURCES, NodePlace, OtherPort, PartsLimit, Start, Stay,
};
use std::net::{IpAddr, Ipv4Addr};

/// The port that is opened by default.
const PORT: u16 = 7_420;

/// For how long a connection may stop inside a frame, or not take a reply, by default, in seconds.
const SECONDS: u64 = 30;

/// How many bytes a second of a frame that takes long have to come by default.
const READ_RATE: u64 = 1_024;

/// How many hundredths of the memory are kept for messages of version 2 by default.
const PARTS_PERCENT: u64 = 25;

/// How many connections the first port serves by default.
const LINKS: u16 = 64;

/// How many seats a node has.
const MOST_SEATS: usize = 64;

/// What this word limits snapshots in chunks to, where it is a number or a number of hundredths.
fn limit_named(word: &str) -> Option<PartsLimit> {
    match word.strip_suffix('%') {
        Some(number) => match number.parse::<u64>() {
            Ok(percent) if percent > 0 && percent <= 100 => Some(PartsLimit::Percent(percent)),
            _other => None,
        },
        None => word.parse::<u64>().ok().map(PartsLimit::Bytes),
    }
}

/// The limit that is given, or the default.
fn limit_of(matches: &ArgMatches<'_>) -> Option<PartsLimit> {
    match matches.get_str("link-bytes") {
        Some(word) => limit_named(word),
        None => Some(PartsLimit::Percent(PARTS_PERCENT)),
    }
}

/// The nodes that the words name, in their order, and how many they are.
#[derive(Clone, Copy)]
struct Sources<'a> {
    places: [Option<NodePlace<'a>>; MOST_SOURCES],
    count: usize,
    /// The first word that names no node, or one too many.
    bad: Option<&'a str>,
}

impl<'a> Sources<'a> {
    /// Adds the node that a word names; an empty one names none.
    fn add(&mut self, word: &'a str) {
        if word.is_empty() {
            return;
        }
        let (count, place) = (self.count, port_or_place(word));
        self.count = count.saturating_add(1);
        if place.is_none() || count >= MOST_SOURCES {
            self.bad = self.bad.or(Some(word));
            return;
        }
        if let Some(free) = self.places.get_mut(count) {
            *free = place;
        }
    }

    /// Adds those that a value names, between commas.
    fn add_all(&mut self, value: &'a str) {
        for word in value.split(',') {
            self.add(word);
        }
    }
}

/// The nodes that this option names.
fn sources_of<'a>(matches: &ArgMatches<'a>, name: &str) -> Sources<'a> {
    let mut sources = Sources {
        places: [None; MOST_SOURCES],
        count: 0,
        bad: None,
    };
    if let Some(values) = matches.get_strs(name) {
        for value in values {
            sources.add_all(value);
        }
    }
    sources
}

/// The files that the words name, in their order, and how many they are.
#[derive(Clone, Copy)]
struct Files<'a> {
    names: [Option<&'a str>; MOST_FILES],
    count: usize,
    /// The first that is one too many.
    bad: Option<&'a str>,
}

impl<'a> Files<'a> {
    /// Adds the file of this name.
    fn add(&mut self, name: &'a str) {
        let count = self.count;
        self.count = count.saturating_add(1);
        match self.names.get_mut(count) {
            Some(free) => *free = Some(name),
            None => self.bad = self.bad.or(Some(name)),
        }
    }
}

/// The files of which one is taken.
fn files_of<'a>(matches: &ArgMatches<'a>) -> Files<'a> {
    let mut files = Files {
        names: [None; MOST_FILES],
        count: 0,
        bad: None,
    };
    if let Some(names) = matches.get_strs("load") {
        for name in names {
            files.add(name);
        }
    }
    files
}

/// How many this option asks for, 0 without it.
fn count_of(matches: &ArgMatches<'_>, name: &str) -> u16 {
    u16_of(matches, name).unwrap_or(0)
}

/// A further port by these options, if there is one.
fn other_port(matches: &ArgMatches<'_>, port: &str, links: &str) -> Option<OtherPort> {
    let port = u16_of(matches, port)?;
    let links = count_of(matches, links);
    Some(OtherPort { port, links })
}

/// The limit of time of this name, in seconds.
fn seconds_of(matches: &ArgMatches<'_>, name: &str, default: u64) -> u64 {
    u64_of(matches, name).unwrap_or(default)
}

/// How many bytes a second of what takes long have to come.
fn read_rate_of(matches: &ArgMatches<'_>) -> u64 {
    u64_of(matches, "read-rate").unwrap_or(READ_RATE)
}

fn address_named(word: &str) -> Option<IpAddr> {
    word.parse::<IpAddr>().ok()
}

/// The address that is named, or that of this machine alone.
fn address_of(matches: &ArgMatches<'_>) -> Option<IpAddr> {
    match matches.get_str("address") {
        None => Some(IpAddr::V4(Ipv4Addr::LOCALHOST)),
        Some(word) => address_named(word),
    }
}

/// What is reported of connections.
fn level_of(matches: &ArgMatches<'_>) -> Level {
    if has_flag(matches, "quiet") {
        Level::Faults
    } else if has_flag(matches, "verbose") {
        Level::Changes
    } else {
        Level::Links
    }
}

/// Whether the lines on standard error are JSON, where the word that is given for their form is one.
fn is_json(matches: &ArgMatches<'_>) -> Option<bool> {
    match matches.get_str("log-format") {
        None | Some("text") => Some(false),
        Some("json") => Some(true),
        _other => None,
    }
}

/// Whether the address at which ports are opened is one.
fn address_checked<'a>(matches: &ArgMatches<'a>) -> Result<(), Flaw<'a>> {
    match matches.get_str("address") {
        Some(word) if address_named(word).is_none() => {
            Err(Flaw::Word(word, WordFlaw::Listening))
        }
        _address => Ok(()),
    }
}

/// Whether the form of the lines, what a node keeps for snapshots in chunks, and its address are written as these are.
fn forms_checked<'a>(matches: &ArgMatches<'a>) -> Result<(), Flaw<'a>> {
    match matches.get_str("log-format") {
        Some(word) if is_json(matches).is_none() => {
            return Err(Flaw::Word(word, WordFlaw::Format));
        }
        _format => {}
    }
    match matches.get_str("link-bytes") {
        Some(word) if limit_named(word).is_none() => Err(Flaw::Word(word, WordFlaw::Chunks)),
        _limit => address_checked(matches),
    }
}

/// Whether a node prunes what those that it follows prune, where the word that is given is yes or no.
fn is_pruning(matches: &ArgMatches<'_>) -> Option<bool> {
    match matches.get_str("follow-prunes") {
        None | Some("yes") => Some(true),
        Some("no") => Some(false),
        _other => None,
    }
}

/// Whether the nodes that one follows are written as these are, and it has seats for them.
fn follows_checked<'a>(matches: &ArgMatches<'a>) -> Result<(), Flaw<'a>> {
    let follows = sources_of(matches, "follow");
    if let Some(word) = follows.bad {
        return Err(Flaw::Word(word, WordFlaw::Upstreams));
    }
    match matches.get_str("follow-prunes") {
        Some(word) if is_pruning(matches).is_none() => {
            return Err(Flaw::Word(word, WordFlaw::YesOrNo));
        }
        _given => {}
    }
    let workers = usize::from(count_of(matches, "workers"));
    if workers.saturating_mul(2).saturating_add(follows.count) > MOST_SEATS {
        return Err(Flaw::Seats);
    }
    Ok(())
}

/// Whether what a node begins with, and the forms of its options, are written as these are.
pub(crate) fn start_checked<'a>(matches: &ArgMatches<'a>) -> Result<(), Flaw<'a>> {
    if let Some(word) = sources_of(matches, "from").bad {
        return Err(Flaw::Word(word, WordFlaw::Sources));
    }
    follows_checked(matches)?;
    if let Some(word) = files_of(matches).bad {
        return Err(Flaw::Word(word, WordFlaw::Files));
    }
    forms_checked(matches)
}

/// What it begins with.
fn start_of<'a>(matches: &ArgMatches<'a>) -> Start<'a> {
    Start {
        files: files_of(matches).names,
        may_lack_file: has_flag(matches, "load-or-empty"),
        sources: sources_of(matches, "from").places,
        follows: sources_of(matches, "follow").places,
        follow_prunes: is_pruning(matches).unwrap_or(true),
        needs_data: has_flag(matches, "need-data"),
        read_rate: read_rate_of(matches),
    }
}

/// The call that `node` makes, where each argument is in its range and they have no flaw.
pub(crate) fn node_call<'a>(matches: &ArgMatches<'a>) -> Option<Call<'a>> {
    let stay = Stay {
        address: address_of(matches)?,
        port: port_of(matches).unwrap_or(PORT),
        links: u16_of(matches, "links").unwrap_or(LINKS),
        feeding: other_port(matches, "feed-port", "feed-links"),
        reading: other_port(matches, "read-port", "read-links"),
        socket: matches.get_str("socket"),
        read_socket: matches.get_str("read-socket"),
        workers: count_of(matches, "workers"),
        read_seconds: seconds_of(matches, "read-seconds", SECONDS),
        read_rate: read_rate_of(matches),
        write_seconds: seconds_of(matches, "write-seconds", SECONDS),
        idle_seconds: seconds_of(matches, "idle-seconds", 0),
        is_guarded: !has_flag(matches, "no-guard"),
        parts: limit_of(matches)?,
        level: level_of(matches),
        in_json: is_json(matches).unwrap_or(false),
        start: start_of(matches),
    };
    Some(Call::Stay(config_of(matches)?, stay))
}
