//! The command `rewrite`.

ghost use Rattle.std.specs.Prelude.{◌≡◌, ◌≤◌, ◌++◌};

use crate::output::Output;
use hk_cli_calls::OutputForm;
use hk_cli_input::{Pieces, Stop, read_pieces};
use hk_codec::rewrite;
use std::alloc::Global;
use std::io::{Read, Write};

/// Writes the item frames of the input, which may be of version 1 and 2, as frames of version 2, once all of the input was
/// read, and returns the status 0. Where something stops it first, nothing is written, `errors` says why, and the status is 1:
///
/// - the fault's number, 1 to 10, where the bytes that follow the items encode nothing;
/// - 90 where memory ran out;
/// - 91 where a read failed, or 2^32 reads did not come to the end;
/// - that the output can't be written, where a write failed or took no bytes; then a part of the frames may have been written.
///
/// It keeps the bytes that it reads and those that it writes. Cost: O(n), n bytes of the input.
pub fn run_rewrite<I: Read, W: Write, E: Write>(
    alloc: Global,
    input: &mut I,
    writer: &mut W,
    errors: &mut E,
) -> u8
    ensures { result ≤ 1 }
{
    let mut output = Output::of_form(alloc, OutputForm::Bytes, writer, errors);
    let sent = send_rewritten(alloc, input, &mut output);
    output.end(sent)
}

/// All bytes of an input.
#[derive(Drop)]
struct Whole {
    bytes: Vec<u8>,
}

impl Pieces for Whole {
    ghost took = { λ start bytes now. now.bytes.items ≡ start.bytes.items ++ bytes };

    fn take(&mut self, piece: &[u8]) -> Result<(), Stop> {
        self.bytes.extend_from_slice(piece)?;
        Ok(())
    }
}

/// Writes the frames of version 2 of all the items of the input.
fn send_rewritten<I: Read, W: Write, E: Write>(
    alloc: Global,
    input: &mut I,
    output: &mut Output<'_, W, E>,
) -> Result<(), Stop> {
    let mut whole = Whole {
        bytes: Vec::new(alloc),
    };
    read_pieces(alloc, input, &mut whole)?;
    let mut frames = Vec::new(alloc);
    rewrite(alloc, &whole.bytes, &mut frames)?;
    output.send(&frames)
}
