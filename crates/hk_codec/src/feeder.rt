//! A stream of items that comes in pieces.

ghost use Rattle.std.specs.Prelude.{◌≤◌, length, IfOk};
ghost use Rattle.hk_codec.specs.Frames.{Adds, rest_from};

use crate::reading::ItemFormat;
use hk_frames::{FrameFeeder, Progress, take_frames};
use hk_log::{Item, Spare};
use std::alloc::{AllocError, Global};

/// Reads items from a stream of frames that comes in pieces. It keeps less than a frame, or the fault that it met.
/// Cost of `feed`: O(n), n bytes of the piece and of the frames that are complete now: one pass over those frames,
/// and one copy of the bytes that are left.
pub type Feeder = FrameFeeder<ItemFormat>;

/// Adds the items of the complete frames that the bytes begin with, and returns how many bytes those frames have and
/// the fault of what follows them, where it has one. The only error is out of memory; what is in the list is then not
/// defined. Cost: O(n), n bytes of the frames.
pub fn take_items(alloc: Global, bytes: &[u8], out: &mut Vec<Item>) -> Result<Progress, AllocError>
    ensures used { IfOk result (λ p. p.used ≤ length bytes.now) }
    ensures read { IfOk result (λ p.
        Adds out.old.items out.new.items bytes.now (rest_from p.used bytes.now p.fault)) }
{
    let mut spare = Spare::default();
    take_frames::<ItemFormat>(alloc, bytes, &mut spare, out)
}
