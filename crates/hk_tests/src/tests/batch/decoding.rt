//! Many frames, read by several threads.

use crate::tests::values::bytes_of;
use hk_codec::Feeder;
use hk_decode::decode_all;
use hk_log::Item;
use hk_types::Refusal;
use std::alloc::Global;
use std::test::Fail;
use std::thread::Threads;

/// How many frames are read: so many have more bytes than one thread reads alone.
const FRAMES: usize = 4_096;

/// The items that a feeder reads of bytes that come at once.
fn fed(alloc: Global, bytes: &[u8]) -> Result<Vec<Item>, Refusal> {
    let mut feeder = Feeder::new(alloc);
    let mut items = Vec::new(alloc);
    feeder.feed(bytes, &mut items)?;
    feeder.finish()?;
    Ok(items)
}

/// The frames of an entry, of 71 bytes in version 1, and of a mark, of 32 in version 2.
const PAIR: &str = "
    00000043 01 01 0000000000000007 0001 0000000000000002 0000000000000003
        0001 0001 0000000000000005 0000000000000001 0001 0001 0000000000000005 00000009 0001 43
    0000001c 02 02 0000000000000007 0002 0000000000000002 0000000000000004";

/// These two, again and again.
fn frames(alloc: Global) -> Result<Vec<u8>, Fail> {
    let pair = bytes_of(alloc, PAIR)?;
    let mut bytes = Vec::new(alloc);
    for _ in 0..FRAMES / 2 {
        bytes.extend_from_slice(&pair)?;
    }
    Ok(bytes)
}

/// Whether these bytes, with one of them changed, are read as a feeder reads them. Their last is dropped then.
fn is_read_alike(
    rt: &(impl Threads + Sync),
    alloc: Global,
    bytes: &mut Vec<u8>,
    place: usize,
) -> bool {
    if let Some(byte) = bytes.get_mut(place) {
        *byte ^= 0x40;
    }
    let is_alike = decode_all(rt, alloc, bytes) == fed(alloc, bytes);
    bytes.pop();
    is_alike
}

#[test]
fn several_threads_read_what_a_feeder_reads(rt: HostRuntime) -> Result<(), Fail> {
    let mut bytes = frames(rt.alloc())?;
    for place in [usize::MAX, usize::MAX, 4 + 1_360 * 103, 4 + 680 * 103, 4] {
        assert!(rt;
            is_read_alike(&rt, rt.alloc(), &mut bytes, place),
            "at {place}"
        );
    }
    Ok(())
}
