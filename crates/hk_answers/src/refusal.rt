//! Refusals as bytes.

ghost use Rattle.std.specs.Prelude.{◌≡◌, ◌≤◌, ◌++◌, length, take, OnOk, OnErr};
ghost use Rattle.hk_frames.specs.Fields.{GivesValue};
ghost use Rattle.hk_answers.specs.Refusals as spec;

use crate::field_len::{number_len, time_len};
use crate::numbers::read_time;
use hk_frames::{Cursor, put_u64};
use hk_types::{FormFault, Refusal};
use std::alloc::AllocError;

/// Reads a field that must be 0. Another number is `BadNumber`.
#[tactic(auto, unfolding(crate::specs::Refusals::zero_at))]
fn read_zero(cursor: &mut Cursor) -> Result<(), FormFault>
    ensures { GivesValue (λ x. (x, cursor.new)) result (spec.zero_at cursor.old) }
{
    if cursor.u64()? != 0 {
        return Err(FormFault::BadNumber);
    }
    Ok(())
}

/// The refusal with a number that names no number.
#[tactic(auto, unfolding(crate::specs::Refusals::plain))]
fn plain(number: u8) -> Option<Refusal>
    ensures { result ≡ spec.plain number }
{
    match number {
        1 => Some(Refusal::Form(FormFault::Truncated)),
        2 => Some(Refusal::Form(FormFault::TooLong)),
        3 => Some(Refusal::Form(FormFault::BadVersion)),
        4 => Some(Refusal::Form(FormFault::BadKind)),
        5 => Some(Refusal::Form(FormFault::BadStream)),
        6 => Some(Refusal::Form(FormFault::BadNumber)),
        7 => Some(Refusal::Form(FormFault::BadOrder)),
        8 => Some(Refusal::Form(FormFault::BadCount)),
        9 => Some(Refusal::Form(FormFault::BadBody)),
        10 => Some(Refusal::Form(FormFault::WrongLength)),
        20 => Some(Refusal::ForeignLog),
        21 => Some(Refusal::WrongStreams),
        23 => Some(Refusal::Conflict),
        41 => Some(Refusal::Damaged),
        43 => Some(Refusal::NodeFull),
        44 => Some(Refusal::NoHold),
        45 => Some(Refusal::NoSuch),
        90 => Some(Refusal::Memory),
        _ => None,
    }
}

/// Reads a refusal that names no number.
fn read_plain(cursor: &mut Cursor, number: u8) -> Result<Refusal, FormFault>
    ensures { GivesValue (λ x. (x, cursor.new)) result (spec.plain_of (spec.plain number) cursor.old) }
{
    let Some(refusal) = plain(number) else {
        return Err(FormFault::BadNumber);
    };
    read_zero(cursor)?;
    read_zero(cursor)?;
    Ok(refusal)
}

/// Reads what follows a refusal's number. A number that no refusal has is `BadNumber`.
#[tactic(auto, unfolding(crate::specs::Refusals::refusal_of))]
fn read_of(cursor: &mut Cursor, number: u8) -> Result<Refusal, FormFault>
    ensures { GivesValue (λ x. (x, cursor.new)) result (spec.refusal_of number cursor.old) }
{
    match number {
        22 => {
            let base = read_time(cursor)?;
            let readable = read_time(cursor)?;
            Ok(Refusal::Gap { base, readable })
        }
        24 => {
            let readable = read_time(cursor)?;
            read_zero(cursor)?;
            Ok(Refusal::AheadOfMark { readable })
        }
        25 => {
            let horizon = read_time(cursor)?;
            read_zero(cursor)?;
            Ok(Refusal::TooOld { horizon })
        }
        26 => {
            let readable = read_time(cursor)?;
            read_zero(cursor)?;
            Ok(Refusal::NotYet { readable })
        }
        40 => {
            let reader = cursor.u64()?;
            let at = read_time(cursor)?;
            Ok(Refusal::Held { reader, at })
        }
        42 => {
            let ops = cursor.u64()?;
            read_zero(cursor)?;
            Ok(Refusal::Unpublished { ops })
        }
        _ => read_plain(cursor, number),
    }
}

/// Reads a refusal of version 1. A number that no refusal has there is `BadNumber`. Cost: O(1).
#[tactic(auto, unfolding(crate::specs::Refusals::refusal_at))]
pub fn read_refusal(cursor: &mut Cursor) -> Result<Refusal, FormFault>
    ensures { GivesValue (λ x. (x, cursor.new)) result (spec.refusal_at cursor.old) }
{
    let number = cursor.u8()?;
    read_of(cursor, number)
}

/// Reads what follows the number of a refusal of version 2: those of chunks, and those of version 1.
#[tactic(auto, unfolding(crate::specs::Refusals::later_refusal_of))]
fn read_later_of(cursor: &mut Cursor, number: u8) -> Result<Refusal, FormFault>
    ensures { GivesValue (λ x. (x, cursor.new)) result (spec.later_refusal_of number cursor.old) }
{
    match number {
        46 => {
            let most = cursor.u64()?;
            read_zero(cursor)?;
            Ok(Refusal::LinkFull { most })
        }
        47 => {
            read_zero(cursor)?;
            read_zero(cursor)?;
            Ok(Refusal::NoPart)
        }
        _ => read_of(cursor, number),
    }
}

/// Reads a refusal of version 2. A number that no refusal has there is `BadNumber`. Cost: O(1).
#[tactic(auto, unfolding(crate::specs::Refusals::later_refusal_at))]
pub fn read_later_refusal(cursor: &mut Cursor) -> Result<Refusal, FormFault>
    ensures { GivesValue (λ x. (x, cursor.new)) result (spec.later_refusal_at cursor.old) }
{
    let number = cursor.u8()?;
    read_later_of(cursor, number)
}

/// Whether a refusal is sent in version 1. Those of transactions and of chunks are not.
pub fn is_sent(refusal: Refusal) -> bool
    ensures { result ≡ spec.is_sent refusal }
{
    match refusal {
        Refusal::WriteConflict { .. }
        | Refusal::NoRow { .. }
        | Refusal::TwiceWritten
        | Refusal::TooManyWrites
        | Refusal::NoStream
        | Refusal::ClockFull
        | Refusal::Retired { .. }
        | Refusal::LinkFull { .. }
        | Refusal::NoPart => false,
        _ => true,
    }
}

/// Whether a refusal is sent in version 2. Those of transactions are not.
pub fn is_told(refusal: Refusal) -> bool
    ensures { result ≡ spec.is_told refusal }
{
    match refusal {
        Refusal::LinkFull { .. } | Refusal::NoPart => true,
        other => is_sent(other),
    }
}

/// How many bytes a refusal has.
pub fn refusal_len(refusal: Refusal) -> u64
    ensures len { result ≡ 17 }
    ensures fits { spec.RefusalFits refusal }
{
    match refusal {
        Refusal::Gap { base, readable } => 1 + time_len(base) + time_len(readable),
        Refusal::AheadOfMark { readable } => 9 + time_len(readable),
        Refusal::TooOld { horizon } => 9 + time_len(horizon),
        Refusal::NotYet { readable } => 9 + time_len(readable),
        Refusal::Held { reader, at } => 1 + number_len(reader) + time_len(at),
        Refusal::Unpublished { ops } => 9 + number_len(ops),
        Refusal::LinkFull { most } => 9 + number_len(most),
        _ => 17,
    }
}

/// The two numbers that a refusal names, and 0 in the place of one that it doesn't.
fn pair(refusal: Refusal) -> (u64, u64)
    ensures { result ≡ spec.refusal_pair refusal }
{
    match refusal {
        Refusal::Gap { base, readable } => (base.number(), readable.number()),
        Refusal::AheadOfMark { readable } => (readable.number(), 0),
        Refusal::TooOld { horizon } => (horizon.number(), 0),
        Refusal::NotYet { readable } => (readable.number(), 0),
        Refusal::Held { reader, at } => (reader, at.number()),
        Refusal::Unpublished { ops } => (ops, 0),
        Refusal::LinkFull { most } => (most, 0),
        _ => (0, 0),
    }
}

/// Adds a refusal's bytes.
#[tactic(auto, using(hk_frames::proofs::Put::all), unfolding(crate::specs::Refusals::refusal_text))]
pub fn put_refusal(out: &mut Vec<u8>, refusal: &Refusal) -> Result<(), AllocError>
    ensures ok { OnOk result (out.new.items ≡ out.old.items ++ spec.refusal_text refusal.now) }
    ensures kept { OnErr result (take (length out.old.items) out.new.items ≡ out.old.items) }
{
    let (first, second) = pair(*refusal);
    out.push(refusal.number())?;
    put_u64(out, first)?;
    put_u64(out, second)
}
