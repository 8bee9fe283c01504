//! The words of a node's lines.

use hk_budgets::LineKind;
use hk_cli_reasons::{Place, put_known};
use hk_host::{Speech, Subject};
use std::alloc::{AllocError, Global};

/// The refusal of a change that conflicts.
const CONFLICT: u8 = 23;

/// The words behind a conflict: a line has at most 200 letters, and those of `explain` are more.
const CONFLICT_ADVICE: &str = "'hkrep explain 23' says what is tested";

/// What a peer speaks, in words.
pub(crate) fn speech_word(speech: Speech) -> &'static str {
    match speech {
        Speech::Http => "HTTP",
        Speech::Tls => "TLS",
    }
}

/// What a number means, behind what happened with it at a place: a line without its end. Empty where no refusal has it.
pub(crate) fn known_words(
    alloc: Global,
    place: Place,
    what: &str,
    number: u8,
) -> Result<String, AllocError> {
    let mut words = String::new(alloc);
    put_known(place, what, number, &mut words)?;
    String::from_str(alloc, words.as_str().trim_end())
}

/// How a connection ended whose first bytes are of another protocol.
fn speech_words(
    alloc: Global,
    link: u64,
    number: u8,
    speech: Speech,
) -> Result<String, AllocError> {
    let word = speech_word(speech);
    format!(in alloc;
        "link {link}: ended {number}: the peer speaks {word}, and this port the messages of docs/PROTOCOL.md; ask it by hkrep or a client"
    )
}

/// How a connection ended.
pub(crate) fn ended_words(
    alloc: Global,
    link: u64,
    number: u8,
    speech: Option<Speech>,
) -> Result<String, AllocError> {
    match speech {
        Some(speech) => speech_words(alloc, link, number, speech),
        None => known_words(alloc, Place::Link(link), "ended", number),
    }
}

/// Why a change that conflicts was refused.
fn conflict_words(alloc: Global, link: u64, about: Option<Subject>) -> Result<String, AllocError> {
    match about {
        Some(Subject { table, key, time }) => format!(in alloc;
            "link {link}: refused {CONFLICT}: a conflict in the items from table {table} key {key} time {time} on; {CONFLICT_ADVICE}"
        ),
        None => format!(in alloc; "link {link}: refused {CONFLICT}: a conflict; {CONFLICT_ADVICE}"),
    }
}

/// Why a change was refused.
pub(crate) fn refused_words(
    alloc: Global,
    link: u64,
    number: u8,
    about: Option<Subject>,
) -> Result<String, AllocError> {
    if number == CONFLICT {
        conflict_words(alloc, link, about)
    } else {
        known_words(alloc, Place::Link(link), "refused", number)
    }
}

/// A number with a comma before each three digits.
fn put_grouped(alloc: Global, number: u64, out: &mut String) -> Result<(), AllocError> {
    let digits = format!(in alloc; "{number}")?;
    let count = digits.len();
    for (at, digit) in digits.as_str().chars().enumerate() {
        if at > 0 && count.saturating_sub(at) % 3 == 0 {
            out.push(',')?;
        }
        out.push(digit)?;
    }
    Ok(())
}

/// How many more lines of a kind there were.
pub(crate) fn more_words(alloc: Global, kind: LineKind, more: u64) -> Result<String, AllocError> {
    let mut words = String::new(alloc);
    put_grouped(alloc, more, &mut words)?;
    let (event, number) = (kind.event, kind.number);
    write!(words, " more: {event}")?;
    if has_number(kind) {
        write!(words, " {number}")?;
    }
    Ok(words)
}

/// Whether the lines of a kind have its number.
fn has_number(kind: LineKind) -> bool {
    kind.number > 0 || kind.event == "ended"
}
