//! The checksum of frames, and the frame that has it.

ghost use Rattle.std.specs.Prelude.{◌≡◌, ◌++◌, List, ℕ, []};
ghost use Rattle.sha2.specs.Sha256.{sha256};
ghost use Rattle.hk_cli_input.specs.Sums.{Holds, sum_head};

use sha2::{Digest, Sha256};

/// The form of checksums that is written: SHA-256 of all bytes of the frames since the frame of a checksum before it.
pub const SUM_FORMAT: u16 = 1;

/// How many bytes the frame of a checksum has: its length, the version 2, the kind 127, the form, and the checksum.
pub const SUM_FRAME_BYTES: usize = 40;

/// The checksum of some bytes: their SHA-256.
pub type Sum = [u8; 32];

/// The checksum of the bytes that were added so far.
#[derive(Drop)]
pub struct Checksum {
    hasher: Sha256,
}

impl Checksum {
    /// That of no bytes. Cost: O(1).
    pub fn new() -> Checksum
        ensures { Holds result [] }
    {
        Checksum {
            hasher: Sha256::new(),
        }
    }

    /// Adds bytes behind those of before. Cost: O(n), n bytes.
    pub fn add(&mut self, bytes: &[u8])
        ensures { (before : List ℕ) → Holds self.old before → Holds self.new (before ++ bytes.now) }
    {
        self.hasher.update(bytes);
    }

    /// The checksum of what was added. It begins anew, with no bytes. Cost: O(1).
    pub fn take(&mut self) -> Sum
        ensures sum { (before : List ℕ) → Holds self.old before → result ≡ sha256 before }
        ensures anew { Holds self.new [] }
    {
        self.hasher.finalize_reset()
    }
}

/// The frame that has a checksum. Cost: O(1).
pub fn sum_frame(sum: &Sum) -> [u8; SUM_FRAME_BYTES]
    ensures { result ≡ sum_head ++ sum.now }
{
    let mut frame = [0u8; SUM_FRAME_BYTES];
    frame[..8].copy_from_slice(&[0, 0, 0, 36, 2, 127, 0, 1]);
    frame[8..].copy_from_slice(sum);
    frame
}
