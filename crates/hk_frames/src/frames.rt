//! Frames on a stream.

ghost use Rattle.std.specs.Prelude.{◌≡◌, ◌≤◌, ◌<◌, ◌^◌, length, take, IfOk, OnErr};
ghost use Rattle.std.specs.Option.{option_copied};
ghost use Rattle.hk_frames.specs.Fields.{GivesValue, GivesOrRunsOut};
ghost use Rattle.hk_frames.specs.Framing.{len_of, rest_at, seen_with_len, frame_seen, IsSound, AddsBy, rest_from};

use crate::cursor::ReadError;
use crate::format::Format;
use hk_types::FormFault;
use std::alloc::{AllocError, Global};

/// The bytes of the length field.
pub const LENGTH_BYTES: usize = 4;

/// The length field at the front.
pub fn length_of(bytes: &[u8]) -> usize
    requires { 4 ≤ length bytes.now }
    ensures value { result ≡ len_of bytes.now }
    ensures bound { result < 2 ^ 32 }
{
    let (field, _behind) = bytes.split_at(LENGTH_BYTES);
    u32::from_be_bytes([field[0], field[1], field[2], field[3]]) as usize
}

/// The rest of the frame at the front, the bytes behind its length field. `None` where the frame isn't
/// all there yet. As soon as its four bytes are there, a length above `most` is too long and one below
/// `least` is a wrong length.
#[tactic(auto, unfolding(crate::specs::Framing::rest_at))]
pub fn frame_rest(bytes: &[u8], least: usize, most: usize) -> Result<Option<&[u8]>, FormFault>
    ensures { GivesValue option_copied result (rest_at least most bytes.now) }
{
    if bytes.len() < LENGTH_BYTES {
        return Ok(None);
    }
    let len = length_of(bytes);
    if len > most {
        return Err(FormFault::TooLong);
    }
    if len < least {
        return Err(FormFault::WrongLength);
    }
    if bytes.len() < LENGTH_BYTES + len {
        return Ok(None);
    }
    Ok(Some(&bytes[LENGTH_BYTES..LENGTH_BYTES + len]))
}

/// The value at the front and how many bytes its frame has, or `None` where no complete frame is there. Cost: that of
/// `Format::read_rest`.
#[tactic(auto, unfolding(crate::specs::Framing::framed))]
pub fn next_frame<F: Format>(
    alloc: Global,
    bytes: &[u8],
    spare: &mut F::Spare,
) -> Result<Option<(F::Value, usize)>, ReadError>
    ensures { GivesOrRunsOut (seen_with_len F.format.seen) result (frame_seen F.format bytes.now) }
{
    match frame_rest(bytes, F::LEAST_BYTES, F::MOST_BYTES)? {
        None => Ok(None),
        Some(rest) => {
            let value = F::read_rest(alloc, rest, spare)?;
            Ok(Some((value, LENGTH_BYTES + rest.len())))
        }
    }
}

/// How far frames were read, and the fault that follows them, if one does.
#[derive(Clone, Copy)]
pub struct Progress {
    pub used: usize,
    pub fault: Option<FormFault>,
}

/// Adds the values of the complete frames that the bytes begin with. The only error is out of memory. Cost: that of
/// `Format::read_rest` for each frame.
pub fn take_frames<F: Format>(
    alloc: Global,
    bytes: &[u8],
    spare: &mut F::Spare,
    out: &mut Vec<F::Value>,
) -> Result<Progress, AllocError>
    requires { IsSound F.format }
    ensures used { IfOk result (λ p. p.used ≤ length bytes.now) }
    ensures read { IfOk result (λ p.
        AddsBy F.format out.old.items out.new.items bytes.now (rest_from p.used bytes.now p.fault)) }
    ensures kept { OnErr result (take (length out.old.items) out.new.items ≡ out.old.items) }
{
    let mut used = 0;
    'frames: loop {
        match next_frame::<F>(alloc, &bytes[used..], spare) {
            Ok(Some((value, len))) => {
                out.push(value)?;
                used += len;
            }
            Ok(None) => return Ok(Progress { used, fault: None }),
            Err(ReadError::Fault(fault)) => {
                return Ok(Progress {
                    used,
                    fault: Some(fault),
                });
            }
            Err(ReadError::Memory) => return Err(AllocError),
        }
    }
}
