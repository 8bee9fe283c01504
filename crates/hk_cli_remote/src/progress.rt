//! How much has come of a long reply, for a person.

use std::io::{Stderr, Write};

/// A megabyte.
const MEGABYTE: u64 = 1_000_000;

/// What has come of a reply, printed megabyte by megabyte on a terminal: one line, which is overwritten, and cleared at the
/// end of the reply. A failure of these writes is ignored.
#[derive(Drop)]
pub(crate) struct Progress {
    /// The terminal, where there is one.
    terminal: Option<Stderr>,
    bytes: u64,
    /// How many megabytes were printed last.
    told: u64,
}

impl Progress {
    pub(crate) fn new(terminal: Option<Stderr>) -> Progress {
        Progress {
            terminal,
            bytes: 0,
            told: 0,
        }
    }

    /// Adds that so many bytes came.
    pub(crate) fn add(&mut self, count: usize) {
        self.bytes = self.bytes.saturating_add(count as u64);
        let megabytes = self.bytes / MEGABYTE;
        if megabytes == self.told {
            return;
        }
        self.told = megabytes;
        if let Some(mut terminal) = self.terminal {
            let _ = write!(terminal, "\x1b[Kreceived {megabytes} MB\r");
        }
    }

    /// Clears the line.
    pub(crate) fn clear(&mut self) {
        if self.told == 0 {
            return;
        }
        if let Some(mut terminal) = self.terminal {
            let _ = terminal.write_all(b"\x1b[K");
        }
    }
}
