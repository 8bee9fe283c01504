//! Lists of items as bytes.

ghost use Rattle.std.specs.Prelude.{◌≡◌, ◌≤◌, ◌*◌, ◌++◌, None, length, take, OnOk, OnErr};
ghost use Rattle.std.specs.Int.{w32};
ghost use Rattle.std.specs.List.{flat_map, AllByRecursion};
ghost use Rattle.hk_frames.specs.Fields.{GivesValue, GivesOrRunsOut, number};
ghost use Rattle.hk_frames.specs.Framing.{frame_seen, seen_with_len};
ghost use Rattle.hk_codec.specs.Frames.{frame_text, item_format};
ghost use Rattle.hk_codec.specs.Encoding.{IsWritten};
ghost use Rattle.hk_messages.specs.Requests as spec;

use hk_codec::{ItemFormat, frame_len, put_frame};
use hk_frames::{Cursor, ReadError, next_frame, put_u32};
use hk_log::{Item, Spare};
use hk_types::FormFault;
use std::alloc::{AllocError, Global};

/// The most items of a message.
pub(crate) const MOST_ITEMS: usize = 65_536;

/// The bytes of the shortest item frame: a mark's.
const LEAST_FRAME_BYTES: usize = 32;

/// The item of the first frame of the bytes, and how many bytes the frame has.
fn next_item(alloc: Global, bytes: &[u8]) -> Result<Option<(Item, usize)>, ReadError>
    ensures { GivesOrRunsOut (seen_with_len item_format.seen) result (frame_seen item_format bytes.now) }
{
    let mut spare = Spare::default();
    next_frame::<ItemFormat>(alloc, bytes, &mut spare)
}

/// Reads an item frame.
#[tactic(auto, unfolding(crate::specs::Requests::plain_frame_at))]
fn read_item_frame(alloc: Global, cursor: &mut Cursor) -> Result<Item, ReadError>
    ensures { GivesOrRunsOut (λ x. (x, cursor.new)) result (spec.plain_frame_at cursor.old) }
{
    match next_item(alloc, cursor.rest())? {
        None => Err(ReadError::Fault(FormFault::WrongLength)),
        Some((item, len)) => match cursor.bytes(len) {
            Ok(_frame) => Ok(item),
            Err(fault) => Err(ReadError::Fault(fault)),
        },
    }
}

/// Reads a count of items.
#[tactic(auto, unfolding(crate::specs::Requests::item_count_at))]
fn read_item_count(cursor: &mut Cursor) -> Result<u32, FormFault>
    ensures { GivesValue (λ x. (x, cursor.new)) result (spec.item_count_at cursor.old) }
{
    let count = cursor.u32()?;
    if count as usize > MOST_ITEMS {
        return Err(FormFault::BadCount);
    }
    Ok(count)
}

/// Reads so many item frames. No more is reserved for them than the bytes that are left can encode.
fn read_many(alloc: Global, cursor: &mut Cursor, count: u32) -> Result<Vec<Item>, ReadError>
    ensures { GivesOrRunsOut (λ x. (x.items, cursor.new)) result (spec.plain_frames_at count None cursor.old) }
{
    let room = (count as usize).min(cursor.len() / LEAST_FRAME_BYTES);
    let mut items = Vec::with_capacity(alloc, room)?;
    for _ in 0..count {
        let item = read_item_frame(alloc, cursor)?;
        items.push(item)?;
    }
    Ok(items)
}

/// Reads the items behind their count.
#[tactic(auto, unfolding(crate::specs::Requests::plain_items_at))]
pub(crate) fn read_items(alloc: Global, cursor: &mut Cursor) -> Result<Vec<Item>, ReadError>
    ensures { GivesOrRunsOut (λ x. (x.items, cursor.new)) result (spec.plain_items_at cursor.old) }
{
    let count = read_item_count(cursor)?;
    read_many(alloc, cursor, count)
}

/// How many bytes the items have, without their count.
pub(crate) fn items_len(items: &[Item]) -> u64
    requires { length items.now ≤ 65536 }
    ensures len { result ≡ length (flat_map frame_text (spec.new_items items.now)) }
    ensures bound { result ≤ 4233252 * length items.now }
    ensures fits { AllByRecursion IsWritten (spec.new_items items.now) }
{
    let mut total = 0;
    for item in items {
        total += u64::from(frame_len(item));
    }
    total
}

/// Adds the items behind their count.
#[tactic(auto, using(hk_frames::proofs::Put::all))]
pub(crate) fn put_items(out: &mut Vec<u8>, items: &[Item]) -> Result<(), AllocError>
    requires { length items.now ≤ 65536 }
    ensures ok { OnOk result (out.new.items ≡ out.old.items ++ spec.items_text items.now) }
    ensures kept { OnErr result (take (length out.old.items) out.new.items ≡ out.old.items) }
{
    put_u32(out, items.len() as u32)?;
    for item in items {
        put_frame(out, item)?;
    }
    Ok(())
}
