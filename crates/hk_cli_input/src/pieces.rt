//! Reading an input in pieces.

ghost use Rattle.std.specs.Prelude.{◌<◌, List, ℕ, length, IfOk, OnOk, OnErr};
ghost use Rattle.std.specs.Io.{ReadsAtMost};
ghost use Rattle.std.specs.Io.KnownBytes.{ReadConsumes};
ghost use Rattle.hk_cli_input.specs.Taking.{TookMore, TookFront, Gave, GaveAll};

use crate::stop::Stop;
use std::alloc::Global;
use std::io;
use std::io::Read;

/// How many bytes are asked for in one read.
pub const PIECE_BYTES: usize = 65_536;

/// The most reads of one input, and for one read of `Summed`.
pub const MOST_READS: u64 = 4_294_967_296;

/// What receives the pieces of an input, one after the other.
pub trait Pieces {
    ghost took: { Self → List ℕ → Self → Type 0 };

    /// Receives the bytes of a read, or returns what stops the command; then it took the first of them, or none.
    fn take(&mut self, piece: &[u8]) -> Result<(), Stop>
        ensures ok { OnOk result (TookMore took self.old self.new piece.now) }
        ensures err { OnErr result (TookFront took self.old self.new piece.now) };
}

/// What stops a command where a read of its input failed.
fn fault_of(error: &io::Error) -> Stop {
    match error.raw_os_error() {
        Some(code) => Stop::InputFault(code),
        None => Stop::ReadFault,
    }
}

/// Where the bytes of a read go.
pub(crate) fn new_piece(alloc: Global) -> Result<Vec<u8>, Stop>
    ensures { IfOk result (λ room. 0 < length room.items) }
{
    Ok(vec![in alloc; 0u8; PIECE_BYTES]?)
}

/// Reads the next bytes of the input, and returns how many.
pub(crate) fn read_next<I: Read>(input: &mut I, piece: &mut [u8]) -> Result<usize, Stop>
    ensures bound { ReadsAtMost result piece.new }
    ensures bytes { ReadConsumes (I.remaining input.old) (I.remaining input.new) result piece.new }
{
    match input.read(piece) {
        Ok(count) => Ok(count),
        Err(error) => Err(fault_of(&error)),
    }
}

/// Reads the input up to its end, or to what stops it first: the receiver of its pieces, a read that fails, or that there were
/// 2^32 reads. Cost: O(n), n bytes of the input, and that of the receiver.
pub fn read_pieces<I: Read, P: Pieces>(
    alloc: Global,
    input: &mut I,
    pieces: &mut P,
) -> Result<(), Stop>
    // The receiver took all bytes, in their order.
    ensures all { OnOk result (GaveAll I.remaining input.old input.new
        (TookMore P.took pieces.old pieces.new)) }
    // It took the first of them.
    ensures part { OnErr result (Gave I.remaining input.old input.new
        (TookFront P.took pieces.old pieces.new)) }
{
    let mut room = new_piece(alloc)?;
    let piece = room.as_mut_slice();
    for _ in 0..MOST_READS {
        let count = read_next(input, piece)?;
        if count == 0 {
            return Ok(());
        }
        pieces.take(&piece[..count])?;
    }
    Err(Stop::ReadFault)
}
