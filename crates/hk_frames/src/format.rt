//! Formats of frames.

use crate::cursor::ReadError;
use hk_types::FormFault;
use std::alloc::Global;

/// A format of frames: each is a length of four bytes, the high one first, and then as many bytes, the rest, which
/// encode a value.
pub trait Format {
    ghost use Rattle.std.specs.Prelude.{ℕ, List, Result};
    ghost use Rattle.hk_types.specs.declared.faults.FormFault.{FormFault};
    ghost use Rattle.hk_frames.specs.Fields.{GivesOrRunsOut, mapped};
    ghost use Rattle.hk_frames.specs.Framing.{FormatOf, IsSound, AddsSo};

    /// What a frame contains.
    type Value: Drop;

    /// Room that values left, into which the next ones are read. What is in it says nothing.
    type Spare: Default + Drop;

    /// The fewest bytes of a rest.
    ghost LEAST_BYTES: { ℕ };

    /// The most.
    ghost MOST_BYTES: { ℕ };

    /// How values are encoded in rests.
    ghost format: { FormatOf Self.Value LEAST_BYTES MOST_BYTES };

    /// What is added to a list of values where this text is read so far.
    ghost Adds: { List Self.Value → List Self.Value → List ℕ → Result (List ℕ) FormFault → Type 0 };

    /// The fewest bytes of a rest.
    const LEAST_BYTES: usize;

    /// The most bytes of a rest.
    const MOST_BYTES: usize;

    /// The value that is all of the rest, or its first fault; `Memory` where memory runs out. It may take spare room.
    fn read_rest(
        alloc: Global,
        rest: &[u8],
        spare: &mut Self::Spare,
    ) -> Result<Self::Value, ReadError>
        ensures { GivesOrRunsOut format.seen result (mapped format.meant (format.read rest.now)) };

    /// Does nothing: reading and encoding undo each other, and what frames of the format add is what `Adds` defines.
    fn laws()
        ensures sound { IsSound format }
        ensures adds { AddsSo format Adds };
}
