//! What each message begins and ends with.

ghost use Rattle.std.specs.Prelude.{◌≡◌, ◌++◌, [], length, nat_lt, take, true, OnOk, OnErr};
ghost use Rattle.std.specs.Int.{w32};
ghost use Rattle.hk_types.specs.declared.faults.FormFault.TheVariants.{WrongLength};
ghost use Rattle.hk_frames.specs.Fields.{GivesValue, check, number};
ghost use Rattle.hk_message_head.specs.Messages.{head_at, message_text, version_of};

use crate::request_kinds::STREAMS;
use hk_frames::{Cursor, put_u32};
use hk_types::FormFault;
use std::alloc::AllocError;

/// The greatest length of the rest of a message's frame.
pub const MOST_REST_BYTES: u32 = 268_435_456;

/// How many bytes a rest has before its body: the version and the kind.
pub const HEAD_BYTES: u64 = 2;

/// The version of the messages of a kind: from the first request of version 2 on, they are of it.
fn version_of(kind: u8) -> u8
    ensures { result ≡ version_of kind }
{
    if kind < STREAMS { 1 } else { 2 }
}

/// Reads a version up to the latest that is read, and the kind, which it returns. Another version is `BadVersion`, a kind
/// of another version `BadKind`.
#[tactic(auto, unfolding(crate::specs::Messages::head_at))]
pub fn read_head(cursor: &mut Cursor, latest: u8) -> Result<u8, FormFault>
    ensures { GivesValue (λ x. (x, cursor.new)) result (head_at latest cursor.old) }
{
    let version = cursor.u8()?;
    if version < 1 || latest < version {
        return Err(FormFault::BadVersion);
    }
    let kind = cursor.u8()?;
    if version_of(kind) != version {
        return Err(FormFault::BadKind);
    }
    Ok(kind)
}

/// Tests that no byte is left. One that is left is `WrongLength`.
pub fn read_end(cursor: &Cursor) -> Result<(), FormFault>
    ensures { GivesValue (λ _. true) result (check (nat_lt 0 (length cursor.now)) WrongLength) }
{
    if !cursor.is_empty() {
        return Err(FormFault::WrongLength);
    }
    Ok(())
}

/// Adds the length of a rest, the version and the kind.
#[tactic(auto, using(hk_frames::proofs::Put::all))]
pub fn put_plain_head(out: &mut Vec<u8>, rest: u32, kind: u8) -> Result<(), AllocError>
    ensures ok { OnOk result (out.new.items ≡ out.old.items ++ (number w32 rest ++ message_text kind [])) }
    ensures kept { OnErr result (take (length out.old.items) out.new.items ≡ out.old.items) }
{
    put_u32(out, rest)?;
    out.push(version_of(kind))?;
    out.push(kind)?;
    Ok(())
}

/// Adds the length of a rest, the version and the kind. All of the frame is reserved at once.
#[tactic(auto, using(hk_frames::proofs::Prefix::kept_all))]
pub fn put_head(out: &mut Vec<u8>, rest: u32, kind: u8) -> Result<(), AllocError>
    ensures ok { OnOk result (out.new.items ≡ out.old.items ++ (number w32 rest ++ message_text kind [])) }
    ensures kept { OnErr result (take (length out.old.items) out.new.items ≡ out.old.items) }
{
    out.reserve(4 + rest as usize)?;
    put_plain_head(out, rest, kind)
}
