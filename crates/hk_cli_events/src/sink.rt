//! Where records become lines.

ghost use Rattle.std.specs.Prelude.{Some, true, []};

use crate::json::put_object;
use crate::moment::{millis_now, put_moment};
use log::kv::{Error, Source, Value, VisitSource};
use log::span::Spans;
use log::{Level, Log, Metadata, Record};
use std::alloc::{AllocError, Global};
use std::cell::RefCell;
use std::fmt::Display;
use std::io::Write;
use std::rt::Clock;

/// How a record stands in its line.
#[derive(Clone, Copy, Debug, PartialEq, Eq)]
pub enum LineForm {
    /// The time, the level, the peer's address or a dash, and the words.
    Dated,
    /// An object of JSON: the time, the level, each pair, and the words.
    Json,
}

/// The level as lines have it.
pub(crate) fn level_word(level: Level) -> &'static str {
    match level {
        Level::Error => "error",
        Level::Warn => "warn",
        Level::Info => "info",
        Level::Debug => "debug",
        Level::Trace => "trace",
    }
}

/// The failure of a visitor that finds no memory.
pub(crate) fn no_memory(_error: AllocError) -> Error {
    Error::msg("no memory")
}

/// Adds the peer's address, where a record has one.
#[derive(Drop)]
struct PeerText<'o> {
    out: &'o mut String,
}

impl VisitSource for PeerText<'_> {
    fn visit_pair<D: Display>(&mut self, key: &str, value: Value<'_, D>) -> Result<(), Error> {
        match value {
            Value::Null => Ok(()),
            told if key == "peer" => write!(self.out, "{told}").map_err(no_memory),
            _other => Ok(()),
        }
    }
}

/// Writes each record as a line, by one write, for one thread. A record for which there is no memory, or whose write fails, is lost.
#[derive(Drop)]
pub struct LineSink<'c, C: Clock, W: Write> {
    alloc: Global,
    clock: &'c C,
    form: LineForm,
    writer: RefCell<W>,
}

impl<'c, C: Clock, W: Write> LineSink<'c, C, W> {
    /// A sink that writes lines of this form; their time is the clock's.
    pub fn new(alloc: Global, clock: &'c C, form: LineForm, writer: W) -> LineSink<'c, C, W> {
        LineSink {
            alloc,
            clock,
            form,
            writer: RefCell::new(writer),
        }
    }

    /// The writer again.
    pub fn into_inner(self) -> W {
        let LineSink { writer, .. } = self;
        writer.into_inner()
    }

    /// Adds what stands before the words of a line that has the time.
    fn put_head<D: Display, K: Source, S: Spans>(
        &self,
        record: &Record<'_, D, K, S>,
        line: &mut String,
    ) -> Result<(), AllocError> {
        put_moment(millis_now(self.clock), line)?;
        let level = level_word(record.level());
        write!(line, " {level} ")?;
        let begun = line.len();
        let told = record.key_values().visit(&mut PeerText { out: line });
        if told.is_err() || line.len() == begun {
            line.push('-')?;
        }
        line.push(' ')
    }

    /// The line of a record.
    fn line<D: Display, K: Source, S: Spans>(
        &self,
        record: &Record<'_, D, K, S>,
    ) -> Result<String, AllocError> {
        let mut line = String::new(self.alloc);
        match self.form {
            LineForm::Dated => {
                self.put_head(record, &mut line)?;
                let words = record.args();
                writeln!(line, "{words}")?;
            }
            LineForm::Json => put_object(self.alloc, millis_now(self.clock), record, &mut line)?,
        }
        Ok(line)
    }
}

impl<C: Clock, W: Write> Log for LineSink<'_, C, W> {
    ghost enables = { λ _ _ _. Some true };

    ghost target_of = { λ _. Some [] };

    fn enabled(&self, _metadata: &Metadata<'_>) -> bool {
        true
    }

    fn log<D: Display, K: Source, S: Spans>(&self, record: &Record<'_, D, K, S>) {
        if let (Ok(line), Ok(mut writer)) = (self.line(record), self.writer.try_borrow_mut()) {
            let _written = writer.write_all(line.as_bytes());
        }
    }

    fn flush(&self) {}

    fn target(&self) -> &str {
        ""
    }
}
