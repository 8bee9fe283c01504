//! Rows as a table.

use hk_cli_calls::Bodies;
use hk_types::{Key, Row};
use std::alloc::{AllocError, Global};
use ucd_category::GeneralCategory;

/// The widest a column is: no number has more digits.
const MOST_WIDTH: usize = 20;

/// How many digits a number has.
fn digits_of(number: u64) -> usize {
    let mut rest = number;
    for digits in 1..MOST_WIDTH {
        if rest < 10 {
            return digits;
        }
        rest /= 10;
    }
    MOST_WIDTH
}

/// How wide the columns of the keys and the tags are.
fn widths_of(rows: &[(Key, Row)]) -> (usize, usize) {
    let (mut key_width, mut tag_width) = (3, 3);
    for (key, row) in rows {
        key_width = key_width.max(digits_of(key.number()));
        tag_width = tag_width.max(digits_of(u64::from(row.tag().number())));
    }
    (key_width, tag_width)
}

/// Adds spaces and then the text, as many as fill the width where the text has so many letters, and two behind it.
fn put_cell(text: &str, letters: usize, width: usize, out: &mut String) -> Result<(), AllocError> {
    for _ in letters..width {
        out.push(' ')?;
    }
    write!(out, "{text}  ")
}

fn put_number(
    alloc: Global,
    number: u64,
    width: usize,
    out: &mut String,
) -> Result<(), AllocError> {
    let text = format!(in alloc; "{number}")?;
    put_cell(&text, digits_of(number), width, out)
}

/// Whether a letter is shown as it is: it doesn't move the cursor, turn the direction of others, or show as nothing.
fn is_shown(letter: char) -> bool {
    !matches!(
        GeneralCategory::for_char(letter),
        GeneralCategory::Control
            | GeneralCategory::Format
            | GeneralCategory::LineSeparator
            | GeneralCategory::ParagraphSeparator
            | GeneralCategory::PrivateUse
            | GeneralCategory::Surrogate
            | GeneralCategory::Unassigned
    )
}

/// The text of a body, where it is one that can be shown as it is.
fn shown_text(body: &[u8]) -> Option<&str> {
    match str::from_utf8(body) {
        Ok(text) if text.chars().all(is_shown) => Some(text),
        _other => None,
    }
}

/// Adds a letter, or its number where it isn't shown as it is. (A backslash is doubled.)
fn put_letter(letter: char, out: &mut String) -> Result<(), AllocError> {
    let number = letter as u32;
    match letter {
        '\\' => out.push_str("\\\\"),
        '\n' => out.push_str("\\n"),
        shown if is_shown(shown) => out.push(shown),
        _hidden => write!(out, "\\u{{{number:x}}}"),
    }
}

/// Adds text, letter by letter.
fn put_letters(text: &str, out: &mut String) -> Result<(), AllocError> {
    for letter in text.chars() {
        put_letter(letter, out)?;
    }
    Ok(())
}

/// Adds a body as text: where it is none, byte by byte, those of ASCII as letters.
fn put_escaped(body: &[u8], out: &mut String) -> Result<(), AllocError> {
    if let Ok(text) = str::from_utf8(body) {
        return put_letters(text, out);
    }
    for byte in body {
        if byte.is_ascii() {
            put_letter(*byte as char, out)?;
        } else {
            write!(out, "\\x{byte:02x}")?;
        }
    }
    Ok(())
}

/// Adds a body in hexadecimal digits, behind these letters.
fn put_digits(
    alloc: Global,
    before: &str,
    body: &[u8],
    out: &mut String,
) -> Result<(), AllocError> {
    let digits = hex::encode(alloc, body)?;
    write!(out, "{before}{digits}")
}

/// Adds a body, or a dash where it is empty.
fn put_body(
    alloc: Global,
    body: &[u8],
    bodies: Bodies,
    out: &mut String,
) -> Result<(), AllocError> {
    if body.is_empty() {
        return out.push('-');
    }
    match bodies {
        Bodies::Digits => put_digits(alloc, "", body, out),
        Bodies::Text => put_escaped(body, out),
        Bodies::Guessed => match shown_text(body) {
            Some(text) => out.push_str(text),
            None => put_digits(alloc, "\\x", body, out),
        },
    }
}

fn put_row(
    alloc: Global,
    key: Key,
    row: &Row,
    bodies: Bodies,
    widths: (usize, usize),
    out: &mut String,
) -> Result<(), AllocError> {
    put_number(alloc, key.number(), widths.0, out)?;
    put_number(alloc, u64::from(row.tag().number()), widths.1, out)?;
    put_body(alloc, row.body(), bodies, out)?;
    out.push('\n')
}

fn put_head(widths: (usize, usize), out: &mut String) -> Result<(), AllocError> {
    put_cell("key", 3, widths.0, out)?;
    put_cell("tag", 3, widths.1, out)?;
    out.push_str("body\n")
}

/// Adds rows as a table: a head, a line for each, with its body as `bodies` has it, and how many they are. The only error is out of memory; then the text
/// may end with a part of the lines. Cost: O(n), n bytes of the lines.
pub(crate) fn put_table(
    alloc: Global,
    rows: &[(Key, Row)],
    bodies: Bodies,
    out: &mut String,
) -> Result<(), AllocError> {
    let widths = widths_of(rows);
    put_head(widths, out)?;
    for (key, row) in rows {
        put_row(alloc, *key, row, bodies, widths, out)?;
    }
    let count = rows.len();
    writeln!(out, "rows {count}")
}
