//! The form of a node's lines on standard error, and lines beside those of its connections.

use hk_cli_calls::Stay;
use hk_cli_commands::Output;
use hk_cli_events::{LineForm, LineSink};
use log::{Level, LevelFilter, Logged, log};
use std::alloc::Global;
use std::io::Write;
use std::net::SocketAddr;
use std::rt::Clock;

/// How grave it is what a line has.
#[derive(Clone, Copy)]
pub(crate) enum Grade {
    /// Nothing is wrong.
    Info,
    /// A connection or a change failed, and the node serves on.
    Warn,
    /// The node does less than it was started for.
    Error,
}

impl Grade {
    pub(crate) fn level(self) -> Level {
        match self {
            Grade::Info => Level::Info,
            Grade::Warn => Level::Warn,
            Grade::Error => Level::Error,
        }
    }
}

/// What logs a node's lines, each by one write to a writer.
pub(crate) type LineLog<'c, C, W> = Logged<&'c C, LineSink<'c, C, W>>;

/// How the lines of a node stand: their form, and the clock that has their time.
#[derive(Drop)]
pub(crate) struct Heads<'c, C: Clock> {
    alloc: Global,
    clock: &'c C,
    form: LineForm,
}

impl<'c, C: Clock> Heads<'c, C> {
    pub(crate) fn new(alloc: Global, clock: &'c C, form: LineForm) -> Heads<'c, C> {
        Heads { alloc, clock, form }
    }

    /// The clock.
    pub(crate) fn clock(&self) -> &'c C {
        self.clock
    }

    /// Whether lines are JSON.
    pub(crate) fn are_json(&self) -> bool {
        self.form == LineForm::Json
    }

    /// What logs lines to a writer.
    pub(crate) fn log_to<W: Write>(&self, writer: W) -> LineLog<'c, C, W> {
        let sink = LineSink::new(self.alloc, self.clock, self.form, writer);
        Logged::new(self.clock, LevelFilter::Info, sink)
    }

    /// The same to a text in memory, for an output that other lines go to as well.
    pub(crate) fn log_text(&self) -> LineLog<'c, C, Vec<u8>> {
        self.log_to(Vec::new(self.alloc))
    }
}

/// Adds the lines that were logged to a text.
pub(crate) fn note_text<C: Clock, W: Write, E: Write>(
    log: LineLog<'_, C, Vec<u8>>,
    output: &mut Output<'_, W, E>,
) {
    let (_clock, sink) = log.into_parts();
    output.note(str::from_utf8(&sink.into_inner()).unwrap_or(""));
}

/// Adds the line of what came of something that a node begins with: how it comes to the node, its name, and what came of it in words.
pub(crate) fn tell_source<C: Clock, W: Write, E: Write>(
    heads: &Heads<'_, C>,
    grade: Grade,
    event: &'static str,
    name: &str,
    words: &str,
    output: &mut Output<'_, W, E>,
) {
    let log = heads.log_text();
    let nobody: Option<SocketAddr> = None;
    let words = words.trim_end();
    log!(log; grade.level(), peer = nobody, event, source = name; "{event} {name}: {words}");
    note_text(log, output);
}

/// How a node's lines stand: behind the time and more, or as JSON.
fn form_of(stay: &Stay<'_>) -> LineForm {
    if stay.in_json {
        LineForm::Json
    } else {
        LineForm::Dated
    }
}

pub(crate) fn heads_of<'c, R: Clock>(rt: &'c R, alloc: Global, stay: &Stay<'_>) -> Heads<'c, R> {
    Heads::new(alloc, rt, form_of(stay))
}
