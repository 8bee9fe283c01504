//! The command `frames`.

ghost use Rattle.std.specs.Prelude.{◌≤◌};

use crate::output::Output;
use hk_cli_calls::OutputForm;
use hk_cli_input::{Lines, Stop, read_lines};
use hk_cli_json::{BadItem, item_of};
use hk_codec::encode;
use hk_types::Refusal;
use std::alloc::{AllocError, Global};
use std::io::{Read, Write};

/// The most bytes of a line, without its line feed: about twice those of the longest item.
const MOST_JSON_BYTES: usize = 16_777_216;

/// How many bytes of frames are gathered before they are written.
const GATHERED_BYTES: usize = 65_536;

/// What a line has to be.
const WANTED: &str = "{\"commit\":{\"log\":\"7\",\"stream\":1,\"number\":\"1\",\"time\":\"1\",\
\"ends\":[{\"table\":1,\"key\":\"5\",\"born\":\"1\"}],\"rows\":[{\"table\":1,\"key\":\"5\",\"tag\":9,\"body\":\"41\"}]}} \
or {\"mark\":{\"log\":\"7\",\"stream\":1,\"n\":\"1\",\"m\":\"1\"}}";

/// What is wrong with a line.
#[derive(Clone, Copy, Drop)]
pub(crate) enum LineFault {
    /// Its bytes are no text.
    NoText,
    /// It has more than `MOST_JSON_BYTES` bytes.
    TooLong,
    /// It is no item.
    Item(BadItem),
}

/// Adds what is wrong, without the position that the words of a JSON error end with.
fn put_what(alloc: Global, fault: &LineFault, out: &mut String) -> Result<(), AllocError> {
    match fault {
        LineFault::NoText => out.push_str("its bytes are no text"),
        LineFault::TooLong => write!(out, "it has more than {MOST_JSON_BYTES} bytes"),
        LineFault::Item(BadItem::Memory) => out.push_str("out of memory"),
        LineFault::Item(BadItem::Rule(rule)) => write!(out, "no item: {rule}"),
        LineFault::Item(BadItem::Text(error)) => {
            let text = format!(in alloc; "{error}")?;
            match text.rsplit_once(" at line ") {
                Some((what, _place)) => out.push_str(what),
                None => out.push_str(&text),
            }
        }
    }
}

/// Adds a line that says at which column a line is bad and why, and what was expected. The only error is out of memory;
/// then the text may end with a part of the line. Cost: O(1).
pub(crate) fn put_bad_item(
    alloc: Global,
    number: u64,
    fault: &LineFault,
    out: &mut String,
) -> Result<(), AllocError> {
    let column = match fault {
        LineFault::Item(bad) => bad.column(),
        LineFault::NoText | LineFault::TooLong => 1,
    };
    write!(out, "line {number}, column {column}: ")?;
    put_what(alloc, fault, out)?;
    writeln!(out, "; expected: {WANTED}")
}

/// Lines on their way to frames.
#[derive(Drop)]
struct Framer<'o, W: Write, E: Write> {
    alloc: Global,
    output: Output<'o, W, E>,
    /// The frames of lines that are not written yet.
    frames: Vec<u8>,
    /// Whether a line had an item.
    has_item: bool,
}

impl<W: Write, E: Write> Framer<'_, W, E> {
    /// Adds the frame of a line, or returns what is wrong with it.
    fn add_item(&mut self, line: &[u8]) -> Result<(), LineFault> {
        let Ok(text) = str::from_utf8(line) else {
            return Err(LineFault::NoText);
        };
        let item = match item_of(self.alloc, text) {
            Ok(item) => item,
            Err(bad) => return Err(LineFault::Item(bad)),
        };
        self.has_item = true;
        match encode(&item, &mut self.frames) {
            Ok(()) => Ok(()),
            Err(_memory) => Err(LineFault::Item(BadItem::Memory)),
        }
    }

    /// Writes what was gathered.
    fn send(&mut self) -> Result<(), Stop> {
        self.output.send(&self.frames)?;
        self.frames.clear();
        Ok(())
    }

    /// Writes the frames of the lines before, prints what is wrong with the one of this number, and stops.
    fn stop_of(&mut self, number: u64, fault: &LineFault) -> Stop {
        if let Err(stop) = self.output.send(&self.frames) {
            return stop;
        }
        if matches!(fault, LineFault::Item(BadItem::Memory)) {
            return Stop::Refused(Refusal::Memory);
        }
        self.output.tell_item(number, fault);
        Stop::BadCommand(number)
    }
}

impl<W: Write, E: Write> Lines for Framer<'_, W, E> {
    ghost took = { λ _ _ _. Unit {0} };

    /// Adds the frame of a line that is not empty, and writes what was gathered once that is much.
    fn line(&mut self, number: u64, line: &[u8]) -> Result<(), Stop> {
        if line.is_empty() {
            return Ok(());
        }
        if let Err(fault) = self.add_item(line) {
            return Err(self.stop_of(number, &fault));
        }
        if self.frames.len() < GATHERED_BYTES {
            return Ok(());
        }
        self.send()
    }

    fn long(&mut self, number: u64, _line: &[u8]) -> Result<(), Stop> {
        Err(self.stop_of(number, &LineFault::TooLong))
    }
}

/// Writes the frames of all lines of the input.
fn send_all<I: Read, W: Write, E: Write>(
    alloc: Global,
    input: &mut I,
    framer: &mut Framer<'_, W, E>,
) -> Result<(), Stop> {
    read_lines(alloc, input, MOST_JSON_BYTES, framer)?;
    framer.send()
}

/// Writes the frame, of version 2, of the item on each line of JSON of the input, up to its end, and returns the status 0.
/// Empty lines are passed over. Where something stops it first, only the frames of complete lines before it are written,
/// `errors` says why, and the status is 1:
///
/// - the number and column of a line that is no item, with what was expected there; nothing is written for it;
/// - 90 where memory ran out;
/// - 91 where a read failed, or 2^32 reads did not come to the end;
/// - that the output can't be written, where a write failed or took no bytes;
/// - that the input is empty, where no line has an item.
///
/// It keeps one line, and up to 65,536 bytes of frames and one more frame. Cost: O(n), n bytes of the input.
pub fn run_frames<I: Read, W: Write, E: Write>(
    alloc: Global,
    input: &mut I,
    writer: &mut W,
    errors: &mut E,
) -> u8
    ensures { result ≤ 1 }
{
    let mut framer = Framer {
        alloc,
        output: Output::of_form(alloc, OutputForm::Bytes, writer, errors),
        frames: Vec::new(alloc),
        has_item: false,
    };
    match send_all(alloc, input, &mut framer) {
        Ok(()) if framer.has_item => 0,
        Ok(()) => framer.output.stop(Stop::EmptyInput),
        Err(stop) => framer.output.stop(stop),
    }
}
