//! The program's commands and their arguments, as the parser takes them.

use crate::argument::argument;
use crate::forms::{
    CommandForm, QueryForm, about_of, all_forms, example_of, long_about_of, name_of, numbers_of,
    numbers_of_query, queries_of, query_about, query_name, query_words, words_of,
};
use crate::numbers::Number;
use crate::texts;
use crate::words::Word;
use clap::{Arg, Command};
use hk_cli_calls::VERSION;
use std::alloc::{AllocError, Global};

/// What makes a part of the command line. (A list of these is so made by one function, and proved for no type of parts.)
trait Make<T>: Copy {
    fn make(self, alloc: Global) -> Result<T, AllocError>;
}

/// Adds what each of these makes to a list.
fn add_all<T: Drop, F: Make<T>>(
    alloc: Global,
    forms: &[F],
    list: &mut Vec<T>,
) -> Result<(), AllocError> {
    for form in forms {
        list.push(form.make(alloc)?)?;
    }
    Ok(())
}

/// What each of these makes.
fn all_of<T: Drop, F: Make<T>>(alloc: Global, forms: &[F]) -> Result<Vec<T>, AllocError> {
    let mut list = Vec::new(alloc);
    add_all(alloc, forms, &mut list)?;
    Ok(list)
}

impl<'a> Make<Arg<'a>> for Number {
    fn make(self, alloc: Global) -> Result<Arg<'a>, AllocError> {
        argument(alloc, &crate::numbers::description_of(self))
    }
}

impl<'a> Make<Arg<'a>> for Word {
    fn make(self, alloc: Global) -> Result<Arg<'a>, AllocError> {
        argument(alloc, &crate::words::description_of(self))
    }
}

/// A command that does this.
fn titled<'a>(alloc: Global, name: &'a str, about: &'a str) -> Command<'a> {
    Command::new(alloc, name).about(about)
}

impl<'a> Make<Command<'a>> for QueryForm {
    fn make(self, alloc: Global) -> Result<Command<'a>, AllocError> {
        let mut args = all_of(alloc, numbers_of_query(self))?;
        add_all(alloc, query_words(), &mut args)?;
        titled(alloc, query_name(self), query_about(self)).args(args)
    }
}

/// Adds the arguments of a command.
fn add_args<'a>(
    alloc: Global,
    form: CommandForm,
    args: &mut Vec<Arg<'a>>,
) -> Result<(), AllocError> {
    add_all(alloc, numbers_of(form), args)?;
    add_all(alloc, words_of(form), args)
}

/// The same as a list.
fn args_of<'a>(alloc: Global, form: CommandForm) -> Result<Vec<Arg<'a>>, AllocError> {
    let mut args = Vec::new(alloc);
    add_args(alloc, form, &mut args)?;
    Ok(args)
}

/// A command with its example.
fn shown<'a>(alloc: Global, form: CommandForm) -> Command<'a> {
    titled(alloc, name_of(form), about_of(form)).after_help(example_of(form))
}

/// The same with what there is to say of it at length.
fn explained<'a>(alloc: Global, form: CommandForm) -> Command<'a> {
    let command = shown(alloc, form);
    match long_about_of(form) {
        Some(text) => command.long_about(text),
        None => command,
    }
}

/// The same with its arguments.
fn with_args<'a>(alloc: Global, form: CommandForm) -> Result<Command<'a>, AllocError> {
    let args = args_of(alloc, form)?;
    explained(alloc, form).args(args)
}

/// A command with these behind it, of which one has to be there where there are any.
fn with_queries<'a>(
    command: Command<'a>,
    queries: Vec<Command<'a>>,
) -> Result<Command<'a>, AllocError> {
    let has_queries = !queries.is_empty();
    command
        .subcommand_required(has_queries)
        .subcommands(queries)
}

impl<'a> Make<Command<'a>> for CommandForm {
    fn make(self, alloc: Global) -> Result<Command<'a>, AllocError> {
        let queries = all_of(alloc, queries_of(self))?;
        with_queries(with_args(alloc, self)?, queries)
    }
}

/// The program without its commands.
fn whole<'a>(alloc: Global) -> Command<'a> {
    titled(alloc, "hkrep", texts::ABOUT)
        .long_about(texts::LONG_ABOUT)
        .version(VERSION)
        .subcommand_required(true)
        .arg_required_else_help(true)
}

/// The program.
pub(crate) fn program<'a>(alloc: Global) -> Result<Command<'a>, AllocError> {
    let commands = all_of(alloc, all_forms())?;
    whole(alloc).subcommands(commands)
}
