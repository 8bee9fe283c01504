//! What a session does next.

use crate::ended::Ended;
use hk_types::Time;

/// What a session does next.
#[derive(Clone, Copy, Debug, PartialEq, Eq)]
pub enum Step {
    /// All requests that were read are answered: it goes on with the next piece.
    GoesOn,
    /// More than 65,536 bytes are there to be written, or the last of a long reply, or some, and there was no memory for more: it
    /// goes on when they are.
    Full,
    /// The next request is an `Await` of this time, for so many milliseconds: it goes on when that was waited for.
    Waits { t: Time, milliseconds: u32 },
    /// It ended.
    Ended(Ended),
}
