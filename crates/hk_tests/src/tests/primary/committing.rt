//! Commits at the end of the clock.

use super::transaction;
use crate::tests::values::{stream, time};
use hk_primary::Primary;
use hk_types::{Config, LAST_TIME};
use std::alloc::Global;
use std::test::Fail;

/// The number of the refusal of a commit that puts a key, or 0, and the time that it returns.
fn told(alloc: Global, primary: &mut Primary, key: u64, number: u16) -> Result<(u8, u64), Fail> {
    let stream = stream(number)?;
    let txn = transaction(alloc, key, 0x41)?;
    match primary.commit(txn, stream) {
        Ok(Some(at)) => Ok((0, at.number())),
        Ok(None) => Ok((0, 0)),
        Err((_txn, why)) => Ok((why.number(), 0)),
    }
}

/// The key and the stream of a commit, and what it returns.
const COMMITS: [(u64, u16, u8, u64); 3] = [(5, 1, 0, LAST_TIME), (6, 1, 35, 0), (5, 2, 30, 0)];

/// Whether each commit returns what it should.
fn are_told(alloc: Global) -> Result<bool, Fail> {
    let (config, after) = (Config::new(7, 2)?, time(LAST_TIME - 1)?);
    let mut primary = Primary::starting_after(alloc, config, after)?;
    let mut is_told = true;
    for (key, number, refusal, at) in &COMMITS {
        is_told = is_told && told(alloc, &mut primary, *key, *number)? == (*refusal, *at);
    }
    Ok(is_told)
}

#[test]
fn the_last_time_is_given_out_once(rt: HostRuntime) -> Result<(), Fail> {
    assert!(rt; are_told(rt.alloc())?);
    Ok(())
}
