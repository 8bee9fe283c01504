//! The lines of a long-running node, on their way to the thread that writes them.

use crate::head::{Heads, note_text};
use crossbeam_channel::{Receiver, Sender};
use hk_cli_commands::Output;
use log::warn;
use std::alloc::{AllocError, Global};
use std::io;
use std::io::Write;
use std::net::SocketAddr;
use std::rt::Clock;
use std::sync::Wait;
use std::sync::atomic::{AtomicU64, Ordering};

/// How many texts may wait to be written.
pub(crate) const MOST_WAITING: usize = 1_024;

/// A text that waits to be written to standard error.
#[derive(Drop)]
pub(crate) struct Text {
    bytes: Vec<u8>,
}

/// How many texts wait, and how many lines were dropped since that was printed.
#[derive(Drop)]
pub(crate) struct Backlog {
    waiting: AtomicU64,
    dropped: AtomicU64,
}

impl Backlog {
    pub(crate) fn new() -> Backlog {
        Backlog {
            waiting: AtomicU64::new(0),
            dropped: AtomicU64::new(0),
        }
    }

    /// Notes that a text was written. Returns how many lines were dropped, once nothing waits any more.
    fn written(&self) -> u64 {
        if self.waiting.fetch_sub(1, Ordering::SeqCst) > 1 {
            return 0;
        }
        self.dropped.swap(0, Ordering::SeqCst)
    }
}

/// A writer whose texts another thread writes, so that it never waits: where 1,024 texts wait, a further one is dropped,
/// and its lines are counted.
#[derive(Drop)]
pub(crate) struct TextWriter<'q, R: Wait> {
    rt: &'q R,
    alloc: Global,
    texts: &'q Sender<Text>,
    backlog: &'q Backlog,
}

impl<'q, R: Wait> TextWriter<'q, R> {
    pub(crate) fn new(
        rt: &'q R,
        alloc: Global,
        texts: &'q Sender<Text>,
        backlog: &'q Backlog,
    ) -> TextWriter<'q, R> {
        TextWriter {
            rt,
            alloc,
            texts,
            backlog,
        }
    }

    /// Hands on a text for which there is room.
    fn hand(&self, buf: &[u8]) -> Result<(), AllocError> {
        let mut bytes = Vec::with_capacity(self.alloc, buf.len())?;
        bytes.extend_from_slice(buf)?;
        self.backlog.waiting.fetch_add(1, Ordering::SeqCst);
        // Somebody receives texts for as long as there is a sender.
        let _sent = self.texts.send(self.rt, Text { bytes });
        Ok(())
    }
}

/// How many lines end in these bytes.
fn lines_of(buf: &[u8]) -> u64 {
    let mut lines = 0u64;
    for byte in buf {
        if *byte == b'\n' {
            lines = lines.saturating_add(1);
        }
    }
    lines
}

impl<R: Wait> Write for TextWriter<'_, R> {
    fn write(&mut self, buf: &[u8]) -> io::Result<usize> {
        let has_room = self.backlog.waiting.load(Ordering::SeqCst) < MOST_WAITING as u64;
        if !has_room || self.hand(buf).is_err() {
            self.backlog
                .dropped
                .fetch_add(lines_of(buf), Ordering::SeqCst);
        }
        Ok(buf.len())
    }

    fn flush(&mut self) -> io::Result<()> {
        Ok(())
    }
}

/// Writes a text. One that can't be written is lost.
fn write_text<W: Write, E: Write>(text: &Text, output: &mut Output<'_, W, E>) {
    output.note(str::from_utf8(&text.bytes).unwrap_or(""));
    let _written = output.flush();
}

/// Writes how many lines were dropped, if any were. Where there is no memory for the line it is lost.
fn tell_dropped<C: Clock, W: Write, E: Write>(
    heads: &Heads<'_, C>,
    dropped: u64,
    output: &mut Output<'_, W, E>,
) {
    if dropped == 0 {
        return;
    }
    let log = heads.log_text();
    let nobody: Option<SocketAddr> = None;
    warn!(log; peer = nobody, event = "dropped", dropped:% = dropped; "{dropped} lines were dropped");
    note_text(log, output);
    let _written = output.flush();
}

/// Writes texts as they come, until nobody sends any more, and how many lines were dropped, once nothing waits any more.
pub(crate) fn write_texts<R: Wait + Clock, W: Write, E: Write>(
    rt: &R,
    heads: &Heads<'_, R>,
    texts: &Receiver<Text>,
    backlog: &Backlog,
    output: &mut Output<'_, W, E>,
) {
    for _ in rt.forever() {
        match texts.recv(rt) {
            Ok(text) => {
                write_text(&text, output);
                tell_dropped(heads, backlog.written(), output);
            }
            Err(_all_ended) => return,
        }
    }
}
