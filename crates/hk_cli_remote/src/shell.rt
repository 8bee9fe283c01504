//! Lines as a person writes them: `shell`.

use crate::link::Link;
use crate::read::{answer_at, tell_front, tell_status};
use crate::table::put_table;
use hk_cli_calls::Bodies;
use hk_cli_commands::{Asking, Output, asking_of};
use hk_cli_input::{Lines, Stop, read_lines};
use hk_cli_reasons::Origin;
use hk_model::{Answer, Query};
use hk_types::{Refusal, Time};
use std::alloc::{AllocError, Global};
use std::io::{Read, Write};

/// The most bytes of a line.
const MOST_LINE_BYTES: usize = 1_024;

/// The prompt before a line on a terminal.
const PROMPT: &[u8] = b"hkrep> ";

/// What a terminal shows before the first prompt, behind the node's address.
const BANNER: &str =
    "; 'help' lists the lines, 'quit' ends. 'rlwrap hkrep shell' edits lines and keeps their history";

/// Lines on their way to a node.
#[derive(Drop)]
struct Shell<'k, 'o, 'p, W: Write, E: Write> {
    alloc: Global,
    link: &'k mut Link,
    output: &'o mut Output<'p, W, E>,
    is_terminal: bool,
    bodies: Bodies,
    /// Whether something was refused, or a line had no form.
    is_refused: bool,
}

impl<'k, 'o, 'p, W: Write, E: Write> Shell<'k, 'o, 'p, W, E> {
    fn new(
        link: &'k mut Link,
        output: &'o mut Output<'p, W, E>,
        is_terminal: bool,
        bodies: Bodies,
    ) -> Shell<'k, 'o, 'p, W, E> {
        Shell {
            alloc: link.alloc(),
            link,
            output,
            is_terminal,
            bodies,
            is_refused: false,
        }
    }

    /// Prints an answer: rows as a table.
    fn print_answer(&mut self, answer: &Answer) -> Result<(), Stop> {
        let Answer::Rows(rows) = answer else {
            return self.output.print(answer);
        };
        let mut text = String::new(self.alloc);
        put_table(self.alloc, rows, self.bodies, &mut text)?;
        self.output.send(text.as_bytes())
    }

    fn query(&mut self, time: Option<Time>, query: Query) -> Result<(), Stop> {
        let answer = answer_at(self.link, time, query)?;
        self.print_answer(&answer)
    }

    fn make(&mut self, asking: Asking) -> Result<(), Stop> {
        match asking {
            Asking::Query { time, query } => self.query(time, query),
            Asking::Front => tell_front(self.link, None, self.output),
            Asking::Status => tell_status(self.link, self.output),
            Asking::Help => self.output.send(Asking::HELP.as_bytes()),
            Asking::Quit => Err(Stop::Quit),
            Asking::Nothing => Ok(()),
        }
    }

    /// Prints the banner, on a terminal.
    fn greet(&mut self) -> Result<(), Stop> {
        if !self.is_terminal {
            return Ok(());
        }
        let node = self.output.node();
        let line = format!(in self.alloc; "node {node}{BANNER}\n")?;
        self.output.send(line.as_bytes())
    }

    /// Prints that the line of this number has no form.
    fn tell_unknown(&mut self, number: u64) -> Result<(), AllocError> {
        self.is_refused = true;
        let line = format!(in self.alloc;
            "line {number}: expected: [at TIME] get TABLE KEY, range TABLE LOW HIGH, tag TABLE TAG or count TABLE [--at TIME]; front, status, help or quit\n"
        )?;
        self.output.note(&line);
        Ok(())
    }

    /// Prints and explains a refusal of the node's, and notes it; where memory ran out the command stops.
    fn tell_refusal(&mut self, why: Refusal, origin: Origin) -> Result<(), Stop> {
        if matches!(why, Refusal::Memory) {
            return Err(Stop::Refused(why));
        }
        self.is_refused = true;
        self.output.tell(origin, &why);
        self.output.print(&why)
    }

    /// Goes on behind a refusal of the node's; all else stops the command.
    fn go_on(&mut self, stop: Stop) -> Result<(), Stop> {
        match stop {
            Stop::RefusedAt(why, origin) => self.tell_refusal(why, origin),
            other => Err(other),
        }
    }
}

/// What the bytes of a line ask, where they have a form.
fn asked(line: &[u8]) -> Option<Asking> {
    match str::from_utf8(line) {
        Ok(line) => asking_of(line),
        Err(_error) => None,
    }
}

impl<W: Write, E: Write> Lines for Shell<'_, '_, '_, W, E> {
    ghost took = { λ _ _ _. Unit {0} };

    /// Answers a line.
    fn line(&mut self, number: u64, line: &[u8]) -> Result<(), Stop> {
        match asked(line) {
            Some(asking) => {
                if let Err(stop) = self.make(asking) {
                    self.go_on(stop)?;
                }
            }
            None => self.tell_unknown(number)?,
        }
        self.output.flush()
    }

    /// Goes on: what is kept of a line that is too long shows that it has no form.
    fn long(&mut self, _number: u64, _line: &[u8]) -> Result<(), Stop> {
        Ok(())
    }

    /// Prints the prompt, on a terminal.
    fn ready(&mut self) -> Result<(), Stop> {
        if self.is_terminal {
            return self.output.send(PROMPT);
        }
        Ok(())
    }
}

/// Answers the lines of the input from the node, up to its end or `quit`, and returns whether one was refused or had no form.
pub(crate) fn answer_lines<I: Read, W: Write, E: Write>(
    link: &mut Link,
    input: &mut I,
    is_terminal: bool,
    bodies: Bodies,
    output: &mut Output<'_, W, E>,
) -> Result<bool, Stop> {
    let alloc = link.alloc();
    let mut shell = Shell::new(link, output, is_terminal, bodies);
    shell.greet()?;
    match read_lines(alloc, input, MOST_LINE_BYTES, &mut shell) {
        Ok(()) | Err(Stop::Quit) => Ok(shell.is_refused),
        Err(stop) => Err(stop),
    }
}
