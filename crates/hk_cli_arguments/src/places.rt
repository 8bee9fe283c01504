//! Where the node is that a command asks.

use crate::calls::port_of;
use crate::flaw::{Flaw, WordFlaw};
use crate::forms::{CommandForm, asks_node};
use clap::ArgMatches;
use hk_cli_calls::NodePlace;

/// Where the node is where nothing names one.
const DEFAULT: NodePlace<'static> = NodePlace::Address("127.0.0.1:7420");

/// Whether a word is made of decimal digits alone.
pub(crate) fn is_decimal(word: &str) -> bool {
    !word.is_empty() && word.bytes().all(|byte| byte.is_ascii_digit())
}

fn is_port(word: &str) -> bool {
    is_decimal(word) && word.parse::<u16>().is_ok_and(|port| port > 0)
}

/// Whether a word is a name or an IP address, a colon, and a port.
fn is_address(word: &str) -> bool {
    match word.rsplit_once(':') {
        Some((host, port)) => !host.is_empty() && is_port(port),
        None => false,
    }
}

/// The place that an address names, where it is one.
fn place_named<'a>(word: &'a str) -> Option<NodePlace<'a>> {
    match word.strip_prefix("unix:") {
        Some("") => None,
        Some(path) => Some(NodePlace::Path(path)),
        None if is_address(word) => Some(NodePlace::Address(word)),
        None => None,
    }
}

/// The place that a port of 127.0.0.1 or an address names.
pub(crate) fn port_or_place<'a>(word: &'a str) -> Option<NodePlace<'a>> {
    if !is_decimal(word) {
        return place_named(word);
    }
    match word.parse::<u16>() {
        Ok(port) if port > 0 => Some(NodePlace::Port(port)),
        _none => None,
    }
}

/// Where the other node of `pull` is.
pub(crate) fn source_of<'a>(matches: &ArgMatches<'a>) -> Option<NodePlace<'a>> {
    port_or_place(matches.get_str("from")?)
}

/// The place that the environment names, or the default.
fn place_around<'a>(named: Option<&'a str>) -> Option<NodePlace<'a>> {
    match named {
        Some(word) if !word.is_empty() => place_named(word),
        _none => Some(DEFAULT),
    }
}

/// Where the node is that a command asks: by its options, else by the environment's word, else by default.
pub(crate) fn place_of<'a>(
    matches: &ArgMatches<'a>,
    named: Option<&'a str>,
) -> Option<NodePlace<'a>> {
    if let Some(port) = port_of(matches) {
        return Some(NodePlace::Port(port));
    }
    match matches.get_str("node") {
        Some(word) => place_named(word),
        None => place_around(named),
    }
}

/// Whether the command absorbs item frames, since it names their log.
pub(crate) fn is_alone(matches: &ArgMatches<'_>) -> bool {
    matches.get_str("log").is_some()
}

/// Whether the other node of `pull` has a place.
fn source_checked<'a>(matches: &ArgMatches<'a>) -> Result<(), Flaw<'a>> {
    match matches.get_str("from") {
        Some(word) if port_or_place(word).is_none() => Err(Flaw::Word(word, WordFlaw::Source)),
        _place => Ok(()),
    }
}

/// Whether what names the node is a place: the option's word, or that of the environment.
fn node_checked<'a>(matches: &ArgMatches<'a>, named: Option<&'a str>) -> Result<(), Flaw<'a>> {
    if place_of(matches, named).is_some() {
        return Ok(());
    }
    match matches.get_str("node") {
        Some(word) => Err(Flaw::Word(word, WordFlaw::Node)),
        None => Err(Flaw::Word(named.unwrap_or(""), WordFlaw::Variable)),
    }
}

/// Whether a command that asks a node has its places.
pub(crate) fn place_checked<'a>(
    form: CommandForm,
    matches: &ArgMatches<'a>,
    named: Option<&'a str>,
) -> Result<(), Flaw<'a>> {
    if !asks_node(form) || is_alone(matches) {
        return Ok(());
    }
    node_checked(matches, named)?;
    match form {
        CommandForm::Pull => source_checked(matches),
        _other => Ok(()),
    }
}
