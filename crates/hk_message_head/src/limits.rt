//! Numbers of messages that have a limit.

ghost use Rattle.std.specs.Prelude.{◌≡◌};
ghost use Rattle.hk_frames.specs.Fields.{GivesValue};
ghost use Rattle.hk_message_head.specs.Limits as spec;

use hk_frames::Cursor;
use hk_types::FormFault;

/// The most milliseconds that may be waited.
pub const MOST_MILLISECONDS: u32 = 600_000;

/// Reads the most rows that are wanted.
#[tactic(auto, unfolding(crate::specs::Limits::most_at))]
pub fn read_most(cursor: &mut Cursor) -> Result<u32, FormFault>
    ensures { GivesValue (λ x. (x, cursor.new)) result (spec.most_at cursor.old) }
{
    let most = cursor.u32()?;
    if most == 0 {
        return Err(FormFault::BadCount);
    }
    Ok(most)
}

/// Reads how many milliseconds are waited at most.
#[tactic(auto, unfolding(crate::specs::Limits::wait_at))]
pub fn read_wait(cursor: &mut Cursor) -> Result<u32, FormFault>
    ensures { GivesValue (λ x. (x, cursor.new)) result (spec.wait_at cursor.old) }
{
    let milliseconds = cursor.u32()?;
    if milliseconds > MOST_MILLISECONDS {
        return Err(FormFault::BadNumber);
    }
    Ok(milliseconds)
}
