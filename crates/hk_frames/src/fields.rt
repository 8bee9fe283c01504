//! Fields, written at the end of bytes.

ghost use Rattle.std.specs.Prelude.{◌≡◌, ◌≤◌, ◌++◌, length, take, OnOk, OnErr};
ghost use Rattle.std.specs.Int.{w16, w32, w64};
ghost use Rattle.hk_frames.specs.Fields.{number};

use byteorder::{BigEndian, ByteOrder};
use std::alloc::AllocError;

/// Adds a number in two bytes, the high one first. The only error is out of memory, and then nothing
/// changes.
#[tactic(auto, unfolding(crate::specs::Fields::number))]
pub fn put_u16(out: &mut Vec<u8>, n: u16) -> Result<(), AllocError>
    ensures ok { OnOk result (out.new.items ≡ out.old.items ++ number w16 n) }
    ensures err { OnErr result (out.new.items ≡ out.old.items) }
{
    let mut field = [0; 2];
    BigEndian::write_u16(&mut field, n);
    out.extend_from_slice(&field)
}

/// Adds a number in four bytes, the high one first. The only error is out of memory, and then nothing
/// changes.
#[tactic(auto, unfolding(crate::specs::Fields::number))]
pub fn put_u32(out: &mut Vec<u8>, n: u32) -> Result<(), AllocError>
    ensures ok { OnOk result (out.new.items ≡ out.old.items ++ number w32 n) }
    ensures err { OnErr result (out.new.items ≡ out.old.items) }
{
    let mut field = [0; 4];
    BigEndian::write_u32(&mut field, n);
    out.extend_from_slice(&field)
}

/// Adds a number in eight bytes, the high one first. The only error is out of memory, and then nothing
/// changes.
#[tactic(auto, unfolding(crate::specs::Fields::number))]
pub fn put_u64(out: &mut Vec<u8>, n: u64) -> Result<(), AllocError>
    ensures ok { OnOk result (out.new.items ≡ out.old.items ++ number w64 n) }
    ensures err { OnErr result (out.new.items ≡ out.old.items) }
{
    let mut field = [0; 8];
    BigEndian::write_u64(&mut field, n);
    out.extend_from_slice(&field)
}

/// Adds a body behind its length of two bytes. The only error is out of memory; what was there before is
/// then still the front. Cost: O(n), n bytes of the body.
#[tactic(auto, using(std::proofs::Common::append_assoc, crate::proofs::Prefix::kept_all, crate::proofs::Prefix::kept_before))]
pub fn put_body(out: &mut Vec<u8>, body: &[u8]) -> Result<(), AllocError>
    requires { length body.now ≤ 4096 }
    ensures ok { OnOk result (out.new.items ≡ out.old.items ++ (number w16 (length body.now) ++ body.now)) }
    ensures kept { OnErr result (take (length out.old.items) out.new.items ≡ out.old.items) }
{
    put_u16(out, body.len() as u16)?;
    out.extend_from_slice(body)
}
