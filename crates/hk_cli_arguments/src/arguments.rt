//! The command line.

use crate::calls::{asked_time, call_of, refusal_named, u64_of, waits};
use crate::command::program;
use crate::flaw::{Flaw, WordFlaw, text_of};
use crate::forms::{CommandForm, command_named, numbers_of, numbers_of_query, query_named};
use crate::node::start_checked;
use crate::numbers::{Number, name_of};
use crate::places::{is_alone, is_decimal, place_checked};
use clap::error::ErrorKind;
use clap::{ArgMatches, Command, Error};
use hk_cli_calls::Call;
use std::alloc::{AllocError, Global};

/// Whether the named word, where there is one, is made of decimal digits alone.
fn digits_checked<'a>(matches: &ArgMatches<'a>, name: &str) -> Result<(), Flaw<'a>> {
    match matches.get_str(name) {
        Some(word) if !is_decimal(word) => Err(Flaw::Word(word, WordFlaw::Digits)),
        _digits => Ok(()),
    }
}

/// The same of these numbers.
fn numbers_checked<'a>(matches: &ArgMatches<'a>, numbers: &[Number]) -> Result<(), Flaw<'a>> {
    for number in numbers {
        digits_checked(matches, name_of(*number))?;
    }
    Ok(())
}

fn is_given(matches: &ArgMatches<'_>, name: &str) -> bool {
    matches.get_str(name).is_some()
}

/// Whether the time of a question stands before the query or behind it; to a node none need be given.
fn time_checked<'a>(matches: &ArgMatches<'_>, words: &ArgMatches<'_>) -> Result<(), Flaw<'a>> {
    let (time, at) = (is_given(matches, "time"), is_given(matches, "at"));
    match (time, at, is_given(words, "at")) {
        (false, false, false) if is_alone(matches) => Err(Flaw::NoTime),
        (_, false, false) | (false, true, false) | (false, false, true) => Ok(()),
        _more => Err(Flaw::TwoTimes),
    }
}

/// Whether a question that waits is for a node, and has a time.
fn wait_checked<'a>(matches: &ArgMatches<'_>, words: &ArgMatches<'_>) -> Result<(), Flaw<'a>> {
    if !waits(matches, words) {
        return Ok(());
    }
    if is_alone(matches) {
        return Err(Flaw::NoNodeToWait);
    }
    match asked_time(matches, words) {
        Some(_time) => Ok(()),
        None => Err(Flaw::NoTimeToWait),
    }
}

/// Whether the keys of a range go from the least to the greatest.
fn range_checked<'a>(words: &ArgMatches<'_>) -> Result<(), Flaw<'a>> {
    match (u64_of(words, "low"), u64_of(words, "high")) {
        (Some(low), Some(high)) if low > high => Err(Flaw::Backwards),
        _other => Ok(()),
    }
}

/// Whether the words of a query of this name are ones.
fn query_checked<'a>(
    matches: &ArgMatches<'a>,
    name: &str,
    words: &ArgMatches<'a>,
) -> Result<(), Flaw<'a>> {
    if let Some(query) = query_named(name) {
        numbers_checked(words, numbers_of_query(query))?;
    }
    range_checked(words)?;
    time_checked(matches, words)?;
    wait_checked(matches, words)
}

/// Whether a refusal has the number or name that `explain` is given.
fn refusal_checked<'a>(matches: &ArgMatches<'a>) -> Result<(), Flaw<'a>> {
    match matches.get_str("refusal") {
        Some(word) if refusal_named(word).is_none() => {
            Err(Flaw::Word(word, WordFlaw::NoRefusal))
        }
        _named => Ok(()),
    }
}

/// Whether the words of a form are ones that are no places and no plain numbers of it.
fn words_checked<'a>(form: CommandForm, matches: &ArgMatches<'a>) -> Result<(), Flaw<'a>> {
    match form {
        CommandForm::Ask => match matches.subcommand() {
            Some((name, words)) => query_checked(matches, name, words),
            None => Ok(()),
        },
        CommandForm::Explain => refusal_checked(matches),
        CommandForm::Node => start_checked(matches),
        _other => Ok(()),
    }
}

/// The call of a form: its numbers are looked at first, its place last.
fn form_call<'a>(
    form: CommandForm,
    matches: &ArgMatches<'a>,
    named: Option<&'a str>,
) -> Result<Call<'a>, Flaw<'a>> {
    numbers_checked(matches, numbers_of(form))?;
    words_checked(form, matches)?;
    place_checked(form, matches, named)?;
    match call_of(form, matches, named) {
        Some(call) => Ok(call),
        None => Err(Flaw::Range),
    }
}

/// The call of what was read of the words.
fn call_in<'a>(matches: &ArgMatches<'a>, named: Option<&'a str>) -> Result<Call<'a>, Flaw<'a>> {
    let Some((name, words)) = matches.subcommand() else {
        return Err(Flaw::NoCommand);
    };
    match command_named(name) {
        Some(form) => form_call(form, words, named),
        None => Err(Flaw::NoSuchCommand),
    }
}

/// The error of a command, with this text before the usage.
fn error_in(command: &mut Command<'_>, message: &str) -> Result<Error, AllocError> {
    command.error(ErrorKind::ValueValidation, message)
}

/// The error of a bad command line, with this text before the usage.
fn bad_line(alloc: Global, message: &str) -> Result<Error, AllocError> {
    match program(alloc) {
        Ok(mut command) => error_in(&mut command, message),
        Err(error) => Err(error),
    }
}

/// The same with what is wrong.
fn error_of(alloc: Global, flaw: Flaw<'_>) -> Result<Error, AllocError> {
    let message = text_of(alloc, flaw)?;
    bad_line(alloc, message.as_str())
}

/// What is read of the words.
fn matches_of<'a>(alloc: Global, words: &'a [String]) -> Result<ArgMatches<'a>, Error> {
    program(alloc)?.try_get_matches_from(words)
}

/// Reads the words of the command line, the program's name first. Where they ask a node and name none, it is at the address
/// of `node`, the environment's `HKREP_NODE`, and at 127.0.0.1:7420 where that is left out or empty. An error has a text and a
/// status: 2 for a bad command line or address, 0 where help or the version was asked for. Cost: O(n), n bytes of the words.
pub fn read_call<'a>(
    alloc: Global,
    words: &'a [String],
    node: Option<&'a str>,
) -> Result<Call<'a>, Error> {
    let matches = matches_of(alloc, words)?;
    match call_in(&matches, node) {
        Ok(call) => Ok(call),
        Err(flaw) => Err(error_of(alloc, flaw)?),
    }
}
