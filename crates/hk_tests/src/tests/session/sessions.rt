//! A session over bytes in memory. The worked ones stand in tests/vectors, and are played through the library for C.

use super::new_host;
use crate::tests::values::bytes_of;
use hk_session::{Counted, Ended, Session, StateHost, Step, serve};
use hk_types::Time;
use std::alloc::Global;
use std::test::*;

fn served(alloc: Global, bytes: &[u8], host: &mut StateHost) -> (u8, Vec<u8>) {
    let mut reader = Counted::new(bytes);
    let mut writer = Counted::new(Vec::new(alloc));
    let ended = serve::<2, _, _, _>(alloc, &mut reader, &mut writer, host);
    (ended.number(), writer.into_inner())
}

/// With which number a session of both versions ends, how many operations there are then, and what was written.
fn session_of_both(alloc: Global, asked: &str) -> Result<(u8, u64, Vec<u8>), Fail> {
    let bytes = bytes_of(alloc, asked)?;
    let mut host = new_host(alloc)?;
    let (ended, written) = served(alloc, &bytes, &mut host);
    Ok((ended, host.ops(), written))
}

/// What a replica says to a request of version 2, and its front.
const SAID: &str = "
    00000013 01 24 04 0000000000000000 0000000000000000
    00000012 01 21 0000000000000000 0000000000000000";

#[test]
fn a_replica_has_no_requests_of_version_2(rt: HostRuntime) -> Result<(), Fail> {
    let (ended, ops, written) = session_of_both(rt.alloc(), "00000002 02 30 00000002 01 11")?;
    assert!(rt; (ended, ops) == (0, 1));
    assert!(rt; written == bytes_of(rt.alloc(), SAID)?);
    Ok(())
}

/// A session takes a request to wait and one for its front, and then it has waited: its steps, how much it wrote at the first,
/// and how it ends.
fn waiting(alloc: Global, out: &mut Vec<u8>) -> Result<(Step, usize, Step, Ended), Fail> {
    let asked = bytes_of(
        alloc,
        "0000000e 02 3b 0000000000000000 00000005 00000002 01 11",
    )?;
    let mut host = new_host(alloc)?;
    let mut session: Session<2> = Session::new(alloc);
    let first = session.take(&asked, false, out, &mut host);
    let early = out.len();
    let second = session.take(&[], true, out, &mut host);
    Ok((first, early, second, session.finish(out)))
}

#[test]
fn a_step_waits_before_an_await(rt: HostRuntime) -> Result<(), Fail> {
    let mut out = Vec::new(rt.alloc());
    let waits = Step::Waits {
        t: Time::zero(),
        milliseconds: 5,
    };
    let told = waiting(rt.alloc(), &mut out)?;
    assert!(rt; told == (waits, 0, Step::GoesOn, Ended::Clean));
    assert!(rt; out == bytes_of(rt.alloc(), SAID)?);
    Ok(())
}
