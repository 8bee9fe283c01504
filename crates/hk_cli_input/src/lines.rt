//! Reading an input in lines.

ghost use Rattle.std.specs.Prelude.{List, ℕ, [], ◌∷◌, OnOk, OnErr};
ghost use Rattle.hk_cli_input.specs.Taking.{TookMore, TookNone, Gave, GaveAll};
ghost use Rattle.hk_cli_input.specs.Lines.{TookAll, TookSome, LineGoesOn, BreaksOff};

use crate::pieces::{MOST_READS, new_piece, read_next};
use crate::stop::Stop;
use hk_types::Refusal;
use std::alloc::Global;
use std::io::Read;

/// What receives the lines of an input, one after the other. Lines are counted from 1.
pub trait Lines {
    ghost took: { Self → List (List ℕ) → Self → Type 0 };

    /// Receives the line of this number, or returns what stops the command; then it did not take the line.
    fn line(&mut self, number: u64, line: &[u8]) -> Result<(), Stop>
        ensures ok { OnOk result (TookMore took self.old self.new (line.now ∷ [])) }
        ensures err { OnErr result (TookNone took self.old self.new) };

    /// Receives that the line of this number goes on behind the most bytes: once for each byte more, which is left out.
    fn long(&mut self, number: u64, line: &[u8]) -> Result<(), Stop>
        ensures { TookNone took self.old self.new };

    /// Prepares for the next read, behind the lines of those before it.
    fn ready(&mut self) -> Result<(), Stop>
        ensures { TookNone took self.old self.new }
    {
        Ok(())
    }
}

/// The line that is being read.
#[derive(Drop)]
struct Line {
    bytes: Vec<u8>,
    number: u64,
}

/// Takes a byte: a line feed ends the line, which is handed on.
fn take_byte<L: Lines>(lines: &mut L, line: &mut Line, most: usize, byte: u8) -> Result<(), Stop>
    ensures ok { OnOk result (LineGoesOn most L.took lines.old lines.new line.old line.new (byte ∷ [])) }
    ensures err { OnErr result (TookNone L.took lines.old lines.new) }
{
    if byte == b'\n' {
        lines.line(line.number, &line.bytes)?;
        line.bytes.clear();
        line.number = line.number.saturating_add(1);
        return Ok(());
    }
    if line.bytes.len() >= most {
        return lines.long(line.number, &line.bytes);
    }
    line.bytes
        .push(byte)
        .map_err(|_full| Stop::Refused(Refusal::Memory))
}

/// Takes the bytes of a read.
fn take_piece<L: Lines>(
    lines: &mut L,
    line: &mut Line,
    most: usize,
    piece: &[u8],
) -> Result<(), Stop>
    ensures ok { OnOk result (LineGoesOn most L.took lines.old lines.new line.old line.new piece.now) }
    ensures err { OnErr result (BreaksOff most L.took lines.old lines.new line.old.bytes.items piece.now) }
{
    for byte in piece {
        take_byte(lines, line, most, *byte)?;
    }
    Ok(())
}

/// Reads the lines of the input, as `read_pieces` its pieces; what follows the last line feed is the last line. Of a line its
/// first bytes are handed on, as many as `most`, without its line feed. It keeps one line and one piece. Cost: as that of
/// `read_pieces`.
pub fn read_lines<I: Read, L: Lines>(
    alloc: Global,
    input: &mut I,
    most: usize,
    lines: &mut L,
) -> Result<(), Stop>
    // The receiver took the lines of all bytes, in their order.
    ensures all { OnOk result (GaveAll I.remaining input.old input.new
        (TookAll most L.took lines.old lines.new)) }
    // It took the first of the lines.
    ensures part { OnErr result (Gave I.remaining input.old input.new
        (TookSome most L.took lines.old lines.new)) }
{
    let mut room = new_piece(alloc)?;
    let piece = room.as_mut_slice();
    let mut line = Line {
        bytes: Vec::new(alloc),
        number: 1,
    };
    for _ in 0..MOST_READS {
        lines.ready()?;
        let count = read_next(input, piece)?;
        if count == 0 {
            return lines.line(line.number, &line.bytes);
        }
        take_piece(lines, &mut line, most, &piece[..count])?;
    }
    Err(Stop::ReadFault)
}
