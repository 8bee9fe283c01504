//! Standard input, with a line on a terminal that shows how much of it was read.

use std::io;
use std::io::{IsTerminal, Read, Write};
use std::time::Instant;

/// A megabyte.
const MEGABYTE: u64 = 1_000_000;

/// A reader that prints each second how much was read, where standard error is a terminal and standard input isn't. The line is overwritten by
/// what is written next, and cleared at the end of the input.
#[derive(Drop)]
pub(crate) struct Watched<'a, I: Drop> {
    rt: &'a HostRuntime,
    input: I,
    /// When the reading began, where the line is printed.
    start: Option<Instant>,
    bytes: u64,
    /// How many whole seconds had passed when the line was printed last.
    seconds: u64,
}

impl<'a, I: Drop> Watched<'a, I> {
    pub(crate) fn new(rt: &'a HostRuntime, input: I) -> Watched<'a, I> {
        let start = if rt.stderr().is_terminal() && !rt.stdin().is_terminal() {
            Instant::now(rt).ok()
        } else {
            None
        };
        Watched {
            rt,
            input,
            start,
            bytes: 0,
            seconds: 0,
        }
    }

    /// How many whole seconds have passed since the start, where they are more than the last line showed.
    fn next_seconds(&self) -> Option<u64> {
        let seconds = self.start?.elapsed(self.rt).ok()?.as_secs();
        if seconds > self.seconds {
            Some(seconds)
        } else {
            None
        }
    }

    /// Prints how much was read; a failure of that write is ignored.
    fn tell(&mut self, seconds: u64) {
        self.seconds = seconds;
        let megabytes = self.bytes / MEGABYTE;
        let mut errors = self.rt.stderr();
        let _ = write!(errors, "\x1b[Kread {megabytes} MB in {seconds} s\r");
    }

    /// Clears the line.
    fn clear(&mut self) {
        if self.seconds > 0 {
            let mut errors = self.rt.stderr();
            let _ = errors.write_all(b"\x1b[K");
        }
    }
}

impl<I: Read + Drop> Read for Watched<'_, I> {
    fn read(&mut self, buf: &mut [u8]) -> io::Result<usize> {
        let outcome = self.input.read(buf);
        match &outcome {
            Ok(0) | Err(_) => self.clear(),
            Ok(count) => {
                self.bytes = self.bytes.saturating_add(*count as u64);
                if let Some(seconds) = self.next_seconds() {
                    self.tell(seconds);
                }
            }
        }
        outcome
    }
}
