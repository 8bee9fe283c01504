//! The command `world`.

ghost use Rattle.std.specs.Prelude.{◌≤◌};

use crate::command::{asked_of, command_of, opening_of};
use crate::flaw::{Flaw, MOST_LINE_BYTES};
use crate::output::Output;
use crate::script::{Reply, Script};
use crate::words::Unread;
use hk_cli_input::{Lines, PIECE_BYTES, Stop, read_lines};
use hk_cli_reasons::{Origin, Place, RequestContext};
use hk_codec::encode;
use hk_log::Item;
use hk_types::Refusal;
use std::alloc::Global;
use std::io::{Read, Write};

/// A script that is read line by line.
#[derive(Drop)]
struct Player<'o, W: Write, E: Write> {
    alloc: Global,
    output: Output<'o, W, E>,
    /// The script that the first line that is not empty makes.
    script: Option<Script>,
}

impl<W: Write, E: Write> Player<'_, W, E> {
    /// Why the line of this number stops the script.
    fn stop_of(&mut self, number: u64, line: &[u8], unread: Unread) -> Stop {
        match unread {
            Unread::Bad(flaw) => {
                self.output.tell_line(number, line, flaw);
                Stop::BadCommand(number)
            }
            Unread::Memory => Stop::Refused(Refusal::Memory),
        }
    }

    /// Prints the reply to the line of this number, and why where that is a refusal.
    fn tell(&mut self, number: u64, reply: &Reply, asked: RequestContext) -> Result<(), Stop> {
        if let Some(refusal) = reply.refusal() {
            let place = Place::Line(number);
            self.output.tell(Origin { place, asked }, &refusal);
        }
        self.output.print(reply)
    }

    /// Runs the command of a line; the first line makes the world, and has no reply.
    fn make_line(&mut self, line: &str) -> Result<Option<(Reply, RequestContext)>, Unread> {
        match &mut self.script {
            Some(script) => Ok(Some(made(self.alloc, script, line)?)),
            None => {
                self.script = Some(opened(self.alloc, line)?);
                Ok(None)
            }
        }
    }

    /// The same of the bytes of a line.
    fn make_bytes(&mut self, line: &[u8]) -> Result<Option<(Reply, RequestContext)>, Unread> {
        match str::from_utf8(line) {
            Ok(line) => self.make_line(line),
            Err(_error) => Err(Unread::Bad(Flaw::NoText)),
        }
    }
}

/// Runs the command of a line, and returns the time that it asks for.
fn made(alloc: Global, script: &mut Script, line: &str) -> Result<(Reply, RequestContext), Unread> {
    let command = command_of(alloc, line)?;
    let asked = asked_of(&command);
    Ok((script.make(command)?, asked))
}

/// The script behind its first line.
fn opened(alloc: Global, line: &str) -> Result<Script, Unread> {
    match Script::new(alloc, opening_of(line)?) {
        Ok(script) => Ok(script),
        Err(_refused) => Err(Unread::Memory),
    }
}

impl<W: Write, E: Write> Lines for Player<'_, W, E> {
    ghost took = { λ _ _ _. Unit {0} };

    /// Runs the command of a line that is not empty, and prints the reply.
    fn line(&mut self, number: u64, line: &[u8]) -> Result<(), Stop> {
        if line.is_empty() {
            return Ok(());
        }
        match self.make_bytes(line) {
            Ok(Some((reply, asked))) => self.tell(number, &reply, asked),
            Ok(None) => Ok(()),
            Err(unread) => Err(self.stop_of(number, line, unread)),
        }
    }

    fn long(&mut self, number: u64, line: &[u8]) -> Result<(), Stop> {
        Err(self.stop_of(number, line, Unread::Bad(Flaw::TooLong)))
    }

    fn ready(&mut self) -> Result<(), Stop> {
        self.output.flush()
    }
}

/// Writes what was gathered of the items' frames, and empties it.
fn write_frames<F: Write>(frames: &mut Vec<u8>, file: &mut F) -> Result<(), Stop> {
    let written = file.write_all(frames);
    frames.clear();
    match written {
        Ok(()) => Ok(()),
        Err(_error) => Err(Stop::ItemsFault),
    }
}

/// Writes the frames of items.
fn write_items<F: Write>(alloc: Global, items: &[Item], file: &mut F) -> Result<(), Stop> {
    let mut frames = Vec::new(alloc);
    for item in items {
        encode(item, &mut frames)?;
        if frames.len() >= PIECE_BYTES {
            write_frames(&mut frames, file)?;
        }
    }
    write_frames(&mut frames, file)
}

/// Plays the script of the input up to its end, or to what stops it first, then writes the frames of the items that the
/// primary emitted, where there is a file for them, and returns whether a command was refused.
fn play_and_keep<I: Read, F: Write, W: Write, E: Write>(
    input: &mut I,
    player: &mut Player<'_, W, E>,
    items: Option<&mut F>,
) -> Result<bool, Stop> {
    let alloc = player.alloc;
    read_lines(alloc, input, MOST_LINE_BYTES, player)?;
    player.output.flush()?;
    let Some(script) = &player.script else {
        return Ok(false);
    };
    if let Some(file) = items {
        write_items(alloc, script.log(), file)?;
    }
    Ok(script.is_refused())
}

/// Plays the script of the input, line by line, up to its end, and prints the reply to each line. The replies to the
/// lines of one read are written before the next read. At the end the frames of the items that the primary emitted are
/// written to `items`, where it is there, in version 2 and in their order.
///
/// The status is 0, or 1 where a refusal was printed or something stopped the script:
///
/// - `line N: bad command` where the line of that number is none, has more than 16,384 bytes, or names an empty slot;
/// - `refused 90` where memory ran out outside a command;
/// - `refused 91` where a read failed, or 2^32 reads did not come to the end;
/// - no line where a write failed or took no bytes, of the lines or of the items: the status, and `errors`, show it.
///
/// Where something stopped the script no item is written; where a write of the items failed a part of them may have
/// been written. A command that is refused prints its refusal, changes nothing, and the script goes on. What is
/// refused, and a line that is no command, is explained in words on `errors`. Cost: that of the events, and O(n), n
/// bytes of the script, of the lines and of the items.
pub fn run_world<I: Read, F: Write, W: Write, E: Write>(
    alloc: Global,
    input: &mut I,
    items: Option<&mut F>,
    writer: &mut W,
    errors: &mut E,
) -> u8
    ensures { result ≤ 1 }
{
    let mut player = Player {
        alloc,
        output: Output::new(alloc, writer, errors),
        script: None,
    };
    match play_and_keep(input, &mut player, items) {
        Ok(is_refused) => u8::from(is_refused),
        Err(stop) => player.output.stop(stop),
    }
}
