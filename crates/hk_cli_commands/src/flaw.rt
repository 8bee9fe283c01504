//! What is wrong with a line that is no command.

use std::alloc::AllocError;

/// The most bytes of a line, without its line feed.
pub(crate) const MOST_LINE_BYTES: usize = 16_384;

/// The most letters of a line that are shown again.
const MOST_SHOWN: usize = 60;

/// What a word is that is wanted to be a body, and is none.
const NO_BODY: &str = "no body, which is - or up to 4096 pairs of 0 to 9 and a to f";

/// The form of the first line.
const OPENING: &str = "world LOG STREAMS REPLICAS";

/// What is wrong with a line; its words are counted from 1.
#[derive(Clone, Copy)]
pub(crate) enum Flaw {
    /// Its bytes are no text.
    NoText,
    /// It has more than `MOST_LINE_BYTES` bytes.
    TooLong,
    /// It is the first, and doesn't make the world.
    NoWorld,
    /// No command has its first word.
    NoCommand,
    /// No query has this word.
    NoQuery(u64),
    /// It ends where a word is wanted.
    TooFew,
    /// It goes on where no word is wanted.
    TooMany,
    /// This word is no number.
    NoNumber(u64),
    /// This number is outside its range.
    OutOfRange(u64),
    /// This word is no body.
    NoBody(u64),
    /// The slot that it names has no transaction.
    EmptySlot,
}

/// The form of the line that has this first word, where that is not of a transaction.
fn form_of_event(name: &str) -> &'static str {
    match name {
        "mark" => "mark STREAM",
        "retire" => "retire STREAM",
        "absorb" => "absorb REPLICA ITEM",
        "batch" => "batch REPLICA ITEM ITEM ..",
        "prune" => "prune REPLICA TIME",
        "merge" => "merge TO FROM",
        "delta" => "delta TO FROM BASE",
        "front" => "front REPLICA",
        "ask" => {
            "ask REPLICA TIME get TABLE KEY, or range TABLE LOW HIGH, tag TABLE TAG, count TABLE"
        }
        _other => {
            "begin, put, remove, commit, mark, retire, absorb, batch, prune, merge, delta, ask or front"
        }
    }
}

/// The form of the line that has this first word.
fn form_of(name: &str) -> &'static str {
    match name {
        "world" => OPENING,
        "begin" => "begin SLOT",
        "put" => "put SLOT TABLE KEY TAG BODY",
        "remove" => "remove SLOT TABLE KEY",
        "commit" => "commit SLOT STREAM",
        other => form_of_event(other),
    }
}

fn wanted(flaw: Flaw, text: &str) -> &'static str {
    match flaw {
        Flaw::NoWorld => OPENING,
        Flaw::NoCommand => form_of(""),
        Flaw::EmptySlot => "begin SLOT before it",
        _other => match text.split_once(' ') {
            Some((name, _rest)) => form_of(name),
            None => form_of(text),
        },
    }
}

/// What is wrong with a line as a whole.
fn words_of(flaw: Flaw) -> &'static str {
    match flaw {
        Flaw::NoText => "its bytes are no text",
        Flaw::NoWorld => "the first line makes the world",
        Flaw::NoCommand => "no such command",
        Flaw::TooFew => "a word is missing",
        Flaw::TooMany => "there is more than its words",
        _slot => "the slot has no transaction",
    }
}

/// Adds what is wrong with a word.
fn put_word(word: u64, what: &str, out: &mut String) -> Result<(), AllocError> {
    write!(out, "word {word} is {what}")
}

fn put_flaw(flaw: Flaw, out: &mut String) -> Result<(), AllocError> {
    match flaw {
        Flaw::TooLong => write!(out, "it has more than {MOST_LINE_BYTES} bytes"),
        Flaw::NoQuery(word) => put_word(word, "no query", out),
        Flaw::NoNumber(word) => put_word(word, "no number", out),
        Flaw::OutOfRange(word) => put_word(word, "outside its range", out),
        Flaw::NoBody(word) => put_word(word, NO_BODY, out),
        whole => out.push_str(words_of(whole)),
    }
}

/// Adds the first letters of a line, with a question mark for each that would move the cursor.
fn put_shown(text: &str, out: &mut String) -> Result<(), AllocError> {
    for letter in text.chars().take(MOST_SHOWN) {
        out.push(if letter.is_control() { '?' } else { letter })?;
    }
    if text.chars().count() > MOST_SHOWN {
        out.push_str("..")?;
    }
    Ok(())
}

/// Adds a line that says what is wrong with the line of this number, and which form was expected. The only error is
/// out of memory; then the text may end with a part of the line. Cost: O(n), n bytes of the line.
pub(crate) fn put_bad_line(
    number: u64,
    line: &[u8],
    flaw: Flaw,
    out: &mut String,
) -> Result<(), AllocError> {
    let text = str::from_utf8(line).unwrap_or("");
    let wanted = wanted(flaw, text);
    write!(out, "line {number}: ")?;
    put_shown(text, out)?;
    out.push_str(": ")?;
    put_flaw(flaw, out)?;
    writeln!(out, "; expected: {wanted}")
}
