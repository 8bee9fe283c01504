//! Numbers with a rule, read from the front of bytes.

ghost use Rattle.std.specs.Prelude.{◌≡◌};
ghost use Rattle.hk_frames.specs.Fields.{GivesValue};
ghost use Rattle.hk_answers.specs.Readers as spec;

use hk_frames::Cursor;
use hk_model::Front;
use hk_types::{FormFault, LAST_TIME, Time};

/// Reads a time. One above 2^62 is `BadNumber`.
#[tactic(auto, unfolding(crate::specs::Readers::time_at))]
pub fn read_time(cursor: &mut Cursor) -> Result<Time, FormFault>
    ensures { GivesValue (λ x. (x, cursor.new)) result (spec.time_at cursor.old) }
{
    Time::new(cursor.u64()?)
}

/// Reads a number of 64 bits. 0 is `BadNumber`.
#[tactic(auto, unfolding(crate::specs::Readers::positive_at))]
pub fn read_positive(cursor: &mut Cursor) -> Result<u64, FormFault>
    ensures { GivesValue (λ x. (x, cursor.new)) result (spec.positive_at cursor.old) }
{
    let number = cursor.u64()?;
    if number == 0 {
        return Err(FormFault::BadNumber);
    }
    Ok(number)
}

/// Whether there can be so many operations: 1 to 2^62.
pub fn is_ops(ops: u64) -> bool
    ensures { result ≡ spec.is_ops ops }
{
    0 < ops && ops <= LAST_TIME
}

/// Reads a number of operations. One that is 0 or above 2^62 is `BadNumber`.
#[tactic(auto, unfolding(crate::specs::Readers::ops_at))]
pub fn read_ops(cursor: &mut Cursor) -> Result<u64, FormFault>
    ensures { GivesValue (λ x. (x, cursor.new)) result (spec.ops_at cursor.old) }
{
    let ops = cursor.u64()?;
    if !is_ops(ops) {
        return Err(FormFault::BadNumber);
    }
    Ok(ops)
}

/// Reads a front. A `horizon` above the resolved time is `BadNumber`.
#[tactic(auto, unfolding(crate::specs::Readers::front_at))]
pub fn read_front(cursor: &mut Cursor) -> Result<Front, FormFault>
    ensures { GivesValue (λ x. ((x.horizon, x.readable), cursor.new)) result (spec.front_at cursor.old) }
{
    let horizon = read_time(cursor)?;
    let readable = read_time(cursor)?;
    if readable.number() < horizon.number() {
        return Err(FormFault::BadNumber);
    }
    Ok(Front { horizon, readable })
}
