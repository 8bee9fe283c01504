//! The encodings of an item.

ghost use Rattle.std.specs.Prelude.{◌≡◌, ◌⊎◌, ◌≤◌, ◌++◌, ◌∷◌, [], Ok, length, take, OnOk, OnErr, IfErr};
ghost use Rattle.hk_types.specs.declared.faults.Refusal.TheVariants as refusals;
ghost use Rattle.hk_codec.specs.Encoding as spec;
ghost use Rattle.hk_codec.specs.Frames.{encoding_of, Reads};

use crate::elements::{Ends, Rows};
use crate::kept_lists::VERSION_1;
use crate::list_encoding::{list_len, put_list};
use crate::reading::{ENTRY_KIND, MARK_KIND, VERSION_2};
use hk_frames::LENGTH_BYTES;
use hk_log::{Entry, Item, Mark};
use hk_types::{Refusal, StreamNo};
use std::alloc::AllocError;

/// Adds what stands before an item's lists: the length of the rest, its head, and two numbers, which are the number and
/// the time of an entry, and the count and the time of a mark.
#[tactic(auto, using(hk_frames::proofs::Prefix::kept_all), unfolding(crate::specs::Encoding::head_text, hk_frames::specs::Fields::number))]
fn put_front(
    out: &mut Vec<u8>,
    rest: u32,
    version: u8,
    kind: u8,
    log: u64,
    stream: StreamNo,
    numbers: (u64, u64),
) -> Result<(), AllocError>
    ensures ok { OnOk result
        (out.new.items ≡ out.old.items ++ spec.front_text rest version kind log stream numbers) }
    ensures err { OnErr result (out.new.items ≡ out.old.items) }
{
    let rest = rest.to_be_bytes();
    let log = log.to_be_bytes();
    let stream = stream.number().to_be_bytes();
    let first = numbers.0.to_be_bytes();
    let second = numbers.1.to_be_bytes();
    out.extend_from_slice(&[
        rest[0], rest[1], rest[2], rest[3], version, kind, log[0], log[1], log[2], log[3], log[4],
        log[5], log[6], log[7], stream[0], stream[1], first[0], first[1], first[2], first[3],
        first[4], first[5], first[6], first[7], second[0], second[1], second[2], second[3],
        second[4], second[5], second[6], second[7],
    ])
}

/// How many bytes follow the length in a version.
#[tactic(auto, unfolding(crate::specs::Encoding::version_text))]
fn rest_len(item: &Item, version: u8) -> u32
    requires { (version ≡ 1) ⊎ (version ≡ 2) }
    ensures len { result ≡ length (spec.version_text version item.now) }
    ensures bound { result ≤ 4233248 }
    ensures fits { spec.IsEncodableItem item.now }
{
    match item {
        Item::Commit(entry) => {
            let ends = list_len::<Ends>(version, entry.ends());
            let rows = list_len::<Rows>(version, entry.rows());
            28 + ends + rows
        }
        Item::Closed(mark) => {
            let _in_range = mark.n();
            28
        }
    }
}

/// Adds an entry in a version behind the length of its rest, which is given.
#[tactic(auto, using(hk_frames::proofs::Put::all), unfolding(crate::specs::Encoding::version_text, crate::specs::Encoding::entry_text))]
fn put_entry(out: &mut Vec<u8>, rest: u32, version: u8, entry: &Entry) -> Result<(), AllocError>
    ensures ok { OnOk result (out.new.items ≡ out.old.items ++ spec.entry_rest rest version entry.now) }
    ensures kept { OnErr result (take (length out.old.items) out.new.items ≡ out.old.items) }
{
    let numbers = (entry.number(), entry.time().number());
    put_front(
        out,
        rest,
        version,
        ENTRY_KIND,
        entry.log(),
        entry.stream(),
        numbers,
    )?;
    put_list::<Ends>(out, version, entry.ends())?;
    put_list::<Rows>(out, version, entry.rows())
}

/// Adds the item in a version behind the length of its rest, which is given.
#[tactic(auto, using(hk_frames::proofs::Put::all), unfolding(crate::specs::Encoding::version_text, crate::specs::Encoding::mark_text))]
fn put_rest(out: &mut Vec<u8>, rest: u32, version: u8, item: &Item) -> Result<(), AllocError>
    ensures ok { OnOk result (out.new.items ≡ out.old.items ++ spec.rest_behind rest version item.now) }
    ensures kept { OnErr result (take (length out.old.items) out.new.items ≡ out.old.items) }
{
    match item {
        Item::Commit(entry) => put_entry(out, rest, version, entry),
        Item::Closed(mark) => {
            let numbers = (mark.n(), mark.m().number());
            put_front(
                out,
                rest,
                version,
                MARK_KIND,
                mark.log(),
                mark.stream(),
                numbers,
            )
        }
    }
}

/// How many bytes an item's encoding in version 2 has. Cost: O(w), w ends and rows.
#[tactic(auto, using(crate::proofs::Lengths::encoding_len))]
pub fn frame_len(item: &Item) -> u32
    ensures len { result ≡ length (encoding_of 2 item.now) }
    ensures bound { result ≤ 4233252 }
    // Each part of an item fits its field.
    ensures fits { spec.IsEncodableItem item.now }
{
    4 + rest_len(item, VERSION_2)
}

/// Adds the item's frame in a version.
#[tactic(auto, using(hk_frames::proofs::Put::all), unfolding(hk_frames::specs::Framing::encoded))]
fn put_version(out: &mut Vec<u8>, version: u8, item: &Item) -> Result<(), AllocError>
    requires { (version ≡ 1) ⊎ (version ≡ 2) }
    ensures ok { OnOk result (out.new.items ≡ out.old.items ++ encoding_of version item.now) }
    ensures kept { OnErr result (take (length out.old.items) out.new.items ≡ out.old.items) }
    ensures fits { spec.IsEncodableItem item.now }
{
    let rest = rest_len(item, version);
    out.reserve(LENGTH_BYTES + rest as usize)?;
    put_rest(out, rest, version, item)
}

/// Adds the item's encoding in version 2 at the end, as `encode` does. The only error is out of memory; what was
/// there before is then still the front. Cost: that of `encode`.
pub fn put_frame(out: &mut Vec<u8>, item: &Item) -> Result<(), AllocError>
    ensures ok { OnOk result (out.new.items ≡ out.old.items ++ encoding_of 2 item.now) }
    ensures kept { OnErr result (take (length out.old.items) out.new.items ≡ out.old.items) }
    // Each part of an item fits its field.
    ensures fits { spec.IsEncodableItem item.now }
{
    put_version(out, VERSION_2, item)
}

/// Adds the item's encoding in version 2 at the end, in which the ends and the rows are in groups of one table. A
/// feeder that is given it returns the item, and keeps nothing. The only refusal is `Memory`, and then the output is as
/// before. Cost: O(n), n bytes of the encoding: the whole frame is reserved at once, so the output grows once at most;
/// a few passes over the item count its bytes and groups, and one writes them.
pub fn encode(item: &Item, out: &mut Vec<u8>) -> Result<(), Refusal>
    ensures ok { OnOk result (out.new.items ≡ out.old.items ++ encoding_of 2 item.now) }
    // What is added is the encoding of an item, and is read as that item.
    ensures fits { spec.IsEncodableItem item.now }
    ensures reads { Reads (encoding_of 2 item.now) (item.now ∷ []) (Ok []) }
    ensures err { OnErr result (out.new.items ≡ out.old.items) }
    ensures memory { IfErr result (λ e. e ≡ refusals.Memory) }
{
    encode_version(item, VERSION_2, out)
}

/// Adds the item's encoding in version 1 at the end, in which each end and each row names its table. Feeders read it as
/// that of version 2. The only refusal is `Memory`, and then the output is as before. Cost: that of `encode`.
pub fn encode_old(item: &Item, out: &mut Vec<u8>) -> Result<(), Refusal>
    ensures ok { OnOk result (out.new.items ≡ out.old.items ++ encoding_of 1 item.now) }
    // What is added is the encoding of an item, and is read as that item.
    ensures fits { spec.IsEncodableItem item.now }
    ensures reads { Reads (encoding_of 1 item.now) (item.now ∷ []) (Ok []) }
    ensures err { OnErr result (out.new.items ≡ out.old.items) }
    ensures memory { IfErr result (λ e. e ≡ refusals.Memory) }
{
    encode_version(item, VERSION_1, out)
}

/// Adds the item's encoding in a version at the end.
fn encode_version(item: &Item, version: u8, out: &mut Vec<u8>) -> Result<(), Refusal>
    requires { (version ≡ 1) ⊎ (version ≡ 2) }
    ensures ok { OnOk result (out.new.items ≡ out.old.items ++ encoding_of version item.now) }
    ensures fits { spec.IsEncodableItem item.now }
    ensures reads { Reads (encoding_of version item.now) (item.now ∷ []) (Ok []) }
    ensures err { OnErr result (out.new.items ≡ out.old.items) }
    ensures memory { IfErr result (λ e. e ≡ refusals.Memory) }
{
    let start = out.len();
    if put_version(out, version, item).is_err() {
        out.truncate(start);
        return Err(Refusal::Memory);
    }
    Ok(())
}
