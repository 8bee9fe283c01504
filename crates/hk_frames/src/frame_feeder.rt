//! A stream of frames that comes in pieces.

ghost use Rattle.std.specs.Prelude.{◌≡◌, ◌≤◌, ◌++◌, ◌⊎◌, List, [], ℕ, length, take, drop, IfOk, OnOk, OnErr};
ghost use Rattle.hk_types.specs.declared.faults.FormFault.{FormFault};
ghost use Rattle.hk_types.specs.declared.faults.Refusal.TheVariants as refusals;
ghost use Rattle.hk_frames.specs.Framing.{IsWhole, IsSound, AddsBy, AddsBehind, Feeds, KeepsFault, KeepsOnMemory, rest_of, last_answer};

use crate::format::Format;
use crate::frames::{LENGTH_BYTES, length_of, take_frames};
use hk_types::{FormFault, Refusal};
use std::alloc::{AllocError, Global};
use std::marker::{Model, PhantomData};

/// Reads values from a stream of frames that comes in pieces. It keeps less than a frame, or the fault that it met.
#[derive(Debug, Drop)]
pub struct FrameFeeder<F: Format> {
    alloc: Global,
    rest: Vec<u8>,
    fault: Option<FormFault>,
    of: PhantomData<F>,
}

impl<F: Format> Model for FrameFeeder<F> {
    ghost use Rattle.std.specs.Prelude.{List, ℕ, Result};
    ghost use Rattle.hk_types.specs.declared.faults.FormFault.{FormFault};
    ghost use Rattle.hk_frames.specs.Framing.{rest_of};

    ghost Value = { Result (List ℕ) FormFault };

    ghost view = { λ a. rest_of a.rest.items a.fault };
}

impl<F: Format> FrameFeeder<F> {
    /// A feeder at the start of a stream. It allocates nothing yet.
    pub fn new(alloc: Global) -> FrameFeeder<F>
        ensures { result ≡ Ok [] }
    {
        FrameFeeder {
            alloc,
            rest: Vec::new(alloc),
            fault: None,
            of: PhantomData,
        }
    }

    /// Reads the next piece of the stream, and adds the values of the frames that are complete now. A fault is
    /// returned once the bytes have it, after the values before it, and then permanently. Where memory runs out,
    /// which is `Memory`, the feeder and the list are as before. Cost: that of `Format::read_rest` for each frame
    /// that is complete now, and O(n), n bytes of the piece, of which those that are left are copied.
    pub fn feed(&mut self, piece: &[u8], out: &mut Vec<F::Value>) -> Result<(), Refusal>
        // The kept bytes and the piece begin with the encodings of the added values. What follows them is kept.
        ensures reads { Feeds F.Adds self.old self.new out.old.items out.new.items piece.now result }
        // A fault is permanent.
        ensures fault { KeepsFault self.old self.new out.old.items out.new.items result }
        // Where memory runs out nothing changes.
        ensures memory { KeepsOnMemory self.old self.new out.old.items out.new.items result }
    {
        let mut spare = F::Spare::default();
        self.feed_with(piece, &mut spare, out)
    }

    /// As `feed`, and the values are read into spare room, while there is some.
    pub fn feed_with(
        &mut self,
        piece: &[u8],
        spare: &mut F::Spare,
        out: &mut Vec<F::Value>,
    ) -> Result<(), Refusal>
        // The kept bytes and the piece begin with the encodings of the added values. What follows them is kept.
        ensures reads { Feeds F.Adds self.old self.new out.old.items out.new.items piece.now result }
        // A fault is permanent.
        ensures fault { KeepsFault self.old self.new out.old.items out.new.items result }
        // Where memory runs out nothing changes.
        ensures memory { KeepsOnMemory self.old self.new out.old.items out.new.items result }
    {
        F::laws();
        if let Some(fault) = self.fault {
            return Err(Refusal::Form(fault));
        }
        let count = out.len();
        let fed = if self.rest.is_empty() {
            fresh_frames::<F>(self.alloc, &mut self.rest, piece, spare, out)
        } else {
            more_frames::<F>(self.alloc, &mut self.rest, piece, spare, out)
        };
        match fed {
            Ok(None) => Ok(()),
            Ok(Some(fault)) => {
                self.fault = Some(fault);
                Err(Refusal::Form(fault))
            }
            Err(_) => {
                out.truncate(count);
                Err(Refusal::Memory)
            }
        }
    }

    /// Ends the stream: the fault that was met, else `Truncated` where bytes are left, since they are cut off.
    pub fn finish(self) -> Result<(), Refusal>
        ensures { result ≡ last_answer self }
    {
        if let Some(fault) = self.fault {
            return Err(Refusal::Form(fault));
        }
        if !self.rest.is_empty() {
            return Err(Refusal::Form(FormFault::Truncated));
        }
        Ok(())
    }
}

/// Adds the values of a piece before which nothing was kept, and keeps what is left of it.
fn fresh_frames<F: Format>(
    alloc: Global,
    rest: &mut Vec<u8>,
    piece: &[u8],
    spare: &mut F::Spare,
    out: &mut Vec<F::Value>,
) -> Result<Option<FormFault>, AllocError>
    requires sound { IsSound F.format }
    requires empty { rest.old.items ≡ [] }
    ensures read { IfOk result (λ f. AddsBy F.format out.old.items out.new.items piece.now (rest_of rest.new.items f)) }
    ensures kept { OnErr result (take (length out.old.items) out.new.items ≡ out.old.items) }
    ensures err { OnErr result (rest.new.items ≡ rest.old.items) }
{
    let progress = take_frames::<F>(alloc, piece, spare, out)?;
    rest.extend_from_slice(&piece[progress.used..])?;
    Ok(progress.fault)
}

/// Adds the values of the kept bytes and the piece behind them, and keeps what is left of them.
fn more_frames<F: Format>(
    alloc: Global,
    rest: &mut Vec<u8>,
    piece: &[u8],
    spare: &mut F::Spare,
    out: &mut Vec<F::Value>,
) -> Result<Option<FormFault>, AllocError>
    requires { IsSound F.format }
    ensures read { AddsBehind F.format rest.old.items piece.now out.old.items out.new.items rest.new.items result }
    ensures kept { OnErr result (take (length out.old.items) out.new.items ≡ out.old.items) }
    ensures err { OnErr result (rest.new.items ≡ rest.old.items) }
{
    let before = rest.len();
    let fed = topped_frames::<F>(alloc, rest, piece, spare, out);
    if fed.is_err() {
        rest.truncate(before);
    }
    fed
}

/// As `more_frames`, but where memory runs out the kept bytes may have bytes of the piece behind them. Only those
/// bytes of the piece are copied that the kept frame lacks, and those that are left.
fn topped_frames<F: Format>(
    alloc: Global,
    rest: &mut Vec<u8>,
    piece: &[u8],
    spare: &mut F::Spare,
    out: &mut Vec<F::Value>,
) -> Result<Option<FormFault>, AllocError>
    requires { IsSound F.format }
    ensures read { AddsBehind F.format rest.old.items piece.now out.old.items out.new.items rest.new.items result }
    ensures kept { OnErr result (take (length out.old.items) out.new.items ≡ out.old.items) }
    ensures front { OnErr result (take (length rest.old.items) rest.new.items ≡ rest.old.items) }
{
    let (first, second) = piece.split_at(lacking(rest, piece));
    rest.extend_from_slice(first)?;
    let progress = take_frames::<F>(alloc, rest, spare, out)?;
    if progress.fault.is_some() {
        return Ok(progress.fault);
    }
    if second.is_empty() {
        drop_front(rest, progress.used);
        return Ok(None);
    }
    let behind = take_frames::<F>(alloc, second, spare, out)?;
    replace(rest, &second[behind.used..])?;
    Ok(behind.fault)
}

/// How many bytes of the piece go behind the kept ones: those that the kept frame lacks, where the piece has more and
/// the frame's length is known, else all.
fn lacking(rest: &[u8], piece: &[u8]) -> usize
    ensures within { result ≤ length piece.now }
    ensures whole { (result ≡ length piece.now) ⊎ IsWhole (rest.now ++ take result piece.now) }
{
    if rest.len() < LENGTH_BYTES {
        return piece.len();
    }
    let whole = LENGTH_BYTES + length_of(rest);
    match whole.checked_sub(rest.len()) {
        Some(count) if count < piece.len() => count,
        _ => piece.len(),
    }
}

/// Keeps these bytes in place of those that were kept, which remain where memory runs out.
fn replace(rest: &mut Vec<u8>, left: &[u8]) -> Result<(), AllocError>
    ensures ok { OnOk result (rest.new.items ≡ left.now) }
    ensures err { OnErr result (rest.new.items ≡ rest.old.items) }
{
    rest.reserve(left.len())?;
    rest.clear();
    rest.extend_from_slice(left)
}

/// Drops the bytes before a position. Where there are none, nothing is moved.
fn drop_front(bytes: &mut Vec<u8>, used: usize)
    requires { used ≤ length bytes.old.items }
    ensures { bytes.new.items ≡ drop used bytes.old.items }
{
    if used > 0 {
        let left = bytes.len() - used;
        bytes.copy_within(used.., 0);
        bytes.truncate(left);
    }
}
