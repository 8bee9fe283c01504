//! The worked frames, in version 1. What frames of version 2 are, and the faults of both, tests/checks/program.py shows.

use crate::tests::items;
use crate::tests::values::bytes_of;
use hk_codec::encode_old;
use hk_decode::decode_all;
use hk_log::Item;
use hk_types::Refusal;
use std::alloc::Global;
use std::test::*;

/// Log 7, stream 1: number 2, time 2, which ends key 5 of table 1 born at 1, and inserts it with tag 9 and body 42; number
/// 1, time 1, which inserts it with body 41; and the mark by which these two are all up to time 2.
const FRAMES: &str = "
    00000043 01 01 0000000000000007 0001 0000000000000002 0000000000000002
        0001 0001 0000000000000005 0000000000000001 0001 0001 0000000000000005 00000009 0001 42
    00000031 01 01 0000000000000007 0001 0000000000000001 0000000000000001
        0000 0001 0001 0000000000000005 00000009 0001 41
    0000001c 01 02 0000000000000007 0001 0000000000000002 0000000000000002";

/// The frames of items.
fn encoded(alloc: Global, items: &[Item]) -> Result<Vec<u8>, Refusal> {
    let mut bytes = Vec::new(alloc);
    for item in items {
        encode_old(item, &mut bytes)?;
    }
    Ok(bytes)
}

#[test]
fn encodes_and_reads_the_worked_frames(rt: HostRuntime) -> Result<(), Fail> {
    let items = items(rt.alloc(), &[9, 1, 10])?;
    let bytes = encoded(rt.alloc(), &items)?;
    assert!(rt; bytes == bytes_of(rt.alloc(), FRAMES)?);
    assert!(rt; decode_all(&rt, rt.alloc(), &bytes)? == items);
    Ok(())
}
