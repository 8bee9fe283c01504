//! Words of the program that are no records, in lines of JSON.

use crate::sink::{LineForm, LineSink};
use log::{Level, Logged, error};
use std::alloc::Global;
use std::io;
use std::io::Write;
use std::rt::Clock;

/// How each line of JSON begins.
const OBJECT: &str = "{\"time\":\"";

/// A writer of whole lines: one that is a line of JSON goes as it is, and any other becomes a record, an error whose event is `stopped`: the
/// words by which a program says that it ends.
#[derive(Drop)]
pub struct WrappedWords<'c, 'w, C: Clock, W: Write> {
    alloc: Global,
    clock: &'c C,
    writer: &'w mut W,
}

impl<'c, 'w, C: Clock, W: Write> WrappedWords<'c, 'w, C, W> {
    /// Over this writer, with this clock.
    pub fn new(alloc: Global, clock: &'c C, writer: &'w mut W) -> WrappedWords<'c, 'w, C, W> {
        WrappedWords {
            alloc,
            clock,
            writer,
        }
    }

    /// Writes words as a record.
    fn wrap(&mut self, words: &str) -> io::Result<()> {
        let sink = LineSink::new(self.alloc, self.clock, LineForm::Json, Vec::new(self.alloc));
        let log = Logged::new(self.clock, Level::Info, &sink);
        let nobody: Option<&str> = None;
        error!(log; peer = nobody, event = "stopped"; "{words}");
        self.writer.write_all(sink.into_inner().as_slice())
    }

    /// Writes a line, without its end.
    fn write_line(&mut self, line: &str) -> io::Result<()> {
        if line.starts_with(OBJECT) {
            self.writer.write_all(line.as_bytes())?;
            return self.writer.write_all(b"\n");
        }
        self.wrap(line)
    }
}

impl<C: Clock, W: Write> Write for WrappedWords<'_, '_, C, W> {
    fn write(&mut self, buf: &[u8]) -> io::Result<usize> {
        for line in str::from_utf8(buf).unwrap_or("").lines() {
            self.write_line(line)?;
        }
        Ok(buf.len())
    }

    fn flush(&mut self) -> io::Result<()> {
        self.writer.flush()
    }
}
