//! An argument of a command: its properties, and what the parser makes of them.

use clap::builder::ValueParser;
use clap::{Arg, ArgAction};
use std::alloc::{AllocError, Global};

/// How an argument is written.
#[derive(Clone, Copy)]
pub(crate) enum Shape {
    /// A word at its position.
    Position,
    /// A name and a word.
    Option,
    /// The same, once or more.
    Options,
    /// A name alone.
    Flag,
    /// A name alone, or this letter.
    Letter(char),
}

/// What its word may be.
#[derive(Clone, Copy)]
pub(crate) enum Range {
    /// It has none.
    Nothing,
    /// Any text.
    Text,
    /// Any number of 64 bits.
    Any,
    /// A number from here to there.
    Within(u64, u64),
    /// The same, where a negative one is reported as one that is not in it.
    Signed(i64, i64),
}

/// When it has to be given, and what has to be given with it, or may not be.
#[derive(Clone, Copy)]
pub(crate) struct Need {
    is_required: bool,
    with: &'static [&'static str],
    without: &'static [&'static str],
}

impl Need {
    /// It has to be given.
    pub(crate) fn always() -> Need {
        Need {
            is_required: true,
            with: &[],
            without: &[],
        }
    }

    /// It need not.
    pub(crate) fn never() -> Need {
        Need::with(&[])
    }

    /// It need not, and with it these have to be.
    pub(crate) fn with(names: &'static [&'static str]) -> Need {
        Need {
            is_required: false,
            with: names,
            without: &[],
        }
    }

    /// It need not, and with it these may not be.
    pub(crate) fn without(names: &'static [&'static str]) -> Need {
        Need {
            is_required: false,
            with: &[],
            without: names,
        }
    }

    /// The same as with `self`, and with it these may not be.
    pub(crate) fn and_without(self, names: &'static [&'static str]) -> Need {
        Need {
            is_required: self.is_required,
            with: self.with,
            without: names,
        }
    }
}

/// The properties of an argument.
#[derive(Clone, Copy)]
pub(crate) struct Description {
    /// The name that it is read back by, which is its name in the command line too, where it has one.
    pub(crate) name: &'static str,
    /// The placeholder of its word in the help, where it has one.
    pub(crate) value: &'static str,
    pub(crate) help: &'static str,
    pub(crate) shape: Shape,
    pub(crate) range: Range,
    pub(crate) need: Need,
}

fn action_of(shape: Shape) -> ArgAction {
    match shape {
        Shape::Position | Shape::Option => ArgAction::Set,
        Shape::Options => ArgAction::Append,
        Shape::Flag | Shape::Letter(_) => ArgAction::SetTrue,
    }
}

fn parser_of<'a>(range: Range) -> ValueParser<'a> {
    match range {
        Range::Nothing => ValueParser::bool(),
        Range::Text => ValueParser::string(),
        Range::Any => ValueParser::unsigned(0, u64::MAX),
        Range::Within(least, most) => ValueParser::unsigned(least, most),
        Range::Signed(least, most) => ValueParser::signed(least, most),
    }
}

/// What the help says of an argument. (A function for each few steps, since a proof of all together takes longer.)
fn told<'a>(alloc: Global, is: &Description) -> Arg<'a> {
    Arg::new(alloc, is.name).value_name(is.value).help(is.help)
}

/// An argument without its names in the command line, and without what it needs.
fn unnamed<'a>(alloc: Global, is: &Description) -> Arg<'a> {
    told(alloc, is)
        .action(action_of(is.shape))
        .value_parser(parser_of(is.range))
        .required(is.need.is_required)
}

/// The same with its names.
fn named<'a>(alloc: Global, is: &Description) -> Arg<'a> {
    let arg = unnamed(alloc, is);
    match is.shape {
        Shape::Position => arg,
        Shape::Letter(letter) => arg.long(is.name).short(letter),
        _long => arg.long(is.name),
    }
}

/// The names that an option had in earlier versions, by which it can still be given.
fn old_names_of(name: &str) -> &'static [&'static str] {
    match name {
        "link-bytes" => &["parts-bytes"],
        _other => &[],
    }
}

/// The argument of a description.
pub(crate) fn argument<'a>(alloc: Global, is: &Description) -> Result<Arg<'a>, AllocError> {
    let arg = named(alloc, is).requires_all(is.need.with)?;
    let arg = arg.aliases(old_names_of(is.name))?;
    arg.conflicts_with_all(is.need.without)
}
