//! Messages and their bytes, where no command shows them: the versions of kinds, and what has no encoding. The bytes of each
//! message are those of tests/vectors, which tests/checks/client.py and tests/checks/later.py send and read.

use crate::tests::values::bytes_of;
use hk_types::Refusal;
use hk_wire::{LaterRequest, ReplyFeeder, Request, RequestFeeder, encode_request};
use std::alloc::Global;
use std::test::Fail;

/// A join of what was applied since time 4.
const DELTA: &str =
    "0000006d 01 15 0000000000000007 0001 0000000000000004 0000000000000000 0000000000000003 0000000000000006 00000000 00000000 00000002 0001 0000000000000005 0000000000000002 02 0000000000000006 0001 0000000000000005 0000000000000006 01 00000009 0001 44";

/// What a fragment that is to be joined gets as one to be merged: 0, or the number of the refusal.
fn merged(alloc: Global, request: Request) -> u8 {
    match request {
        Request::JoinThis(delta) => number_of(encode_request(
            &Request::MergeThis(delta),
            &mut Vec::new(alloc),
        )),
        _ => 0,
    }
}

/// The request of these bytes.
fn request(alloc: Global, text: &str) -> Result<Request, Fail> {
    let bytes = bytes_of(alloc, text)?;
    let mut requests = Vec::new(alloc);
    RequestFeeder::<1>::new(alloc).feed(&bytes, &mut requests)?;
    Ok(requests.pop().ok_or("no request")?)
}

#[test]
fn a_delta_has_no_encoding_as_a_merge(rt: HostRuntime) -> Result<(), Fail> {
    let request = request(rt.alloc(), DELTA)?;
    assert!(rt; merged(rt.alloc(), request) == 2);
    Ok(())
}

/// Which a request was of those looked for.
fn came(asked: &Request) -> u32 {
    match asked {
        Request::Front => 1,
        Request::Later(LaterRequest::More) => 2,
        _ => 0,
    }
}

/// What came, each as a digit.
fn digits(asked: &[Request]) -> u32 {
    let mut digits: u32 = 0;
    for one in asked {
        digits = digits.saturating_mul(10).saturating_add(came(one));
    }
    digits
}

/// Which requests of those looked for a feeder of both versions reads, each as a digit, what it answers to their bytes, and
/// what to more: 0, or the number of the refusal.
fn fed(alloc: Global, text: &str, more: &str) -> Result<(u32, u8, u8), Fail> {
    let (bytes, more) = (bytes_of(alloc, text)?, bytes_of(alloc, more)?);
    let mut asked = Vec::new(alloc);
    let mut feeder = RequestFeeder::<2>::new(alloc);
    let told = number_of(feeder.feed(&bytes, &mut asked));
    let digits = digits(&asked);
    Ok((digits, told, number_of(feeder.feed(&more, &mut asked))))
}

/// The same of what a feeder of replies answers.
fn replied(alloc: Global, text: &str) -> Result<u8, Fail> {
    let bytes = bytes_of(alloc, text)?;
    let mut told = Vec::new(alloc);
    Ok(number_of(ReplyFeeder::new(alloc).feed(&bytes, &mut told)))
}

fn number_of(told: Result<(), Refusal>) -> u8 {
    match told {
        Ok(()) => 0,
        Err(why) => why.number(),
    }
}

/// Requests of both versions, a frame of a third, and a request of each version with the other version's byte.
static FED: [(&str, &str, (u32, u8, u8)); 3] = [
    (
        "00000002 01 11 00000002 02 34",
        "00000002 03 11",
        (12, 0, 3),
    ),
    ("00000002 01 34", "", (0, 4, 4)),
    ("00000002 02 11", "", (0, 4, 4)),
];

#[test]
fn a_kind_has_one_version_and_there_is_no_third(rt: HostRuntime) -> Result<(), Fail> {
    for (text, more, wanted) in &FED {
        assert!(rt; fed(rt.alloc(), text, more)? == *wanted, "{text}");
    }
    assert!(rt; replied(rt.alloc(), "0000000a 02 20 0000000000000001")? == 4);
    Ok(())
}
