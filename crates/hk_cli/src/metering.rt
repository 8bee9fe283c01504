//! What a node counts of its connections, from its start on.

use hk_budgets::PartsBudget;
use hk_cli_calls::VERSION;
use hk_meters::Meters;
use libc::types::rlimit;
use std::alloc::{AllocError, Global};
use std::fs::{File, Files};
use std::rt::Clock;

/// The system's text on the process.
const PROCESS: &str = "/proc/self/status";

/// The system's number of the limit of a process' address space, and what it has where there is none.
const ADDRESSES: i32 = 9;

const NO_LIMIT: u64 = u64::MAX;

/// The version of a program as one number: 1,000,000 for each major one, 1,000 for each minor one, and 1 for each patch. 0 where these
/// words don't begin with one.
fn number_of(version: &str) -> u64 {
    let first = version.split_whitespace().next().unwrap_or("");
    let mut number = 0u64;
    for part in first.split('.') {
        let part = part.parse::<u64>().unwrap_or(0).min(999);
        number = number.saturating_mul(1_000).saturating_add(part);
    }
    number
}

/// The bytes of address space that the process may take, where that has a limit.
fn memory_limit() -> Option<u64> {
    let mut limit = rlimit {
        rlim_cur: 0,
        rlim_max: 0,
    };
    if libc::getrlimit(ADDRESSES, &mut limit) == 0 && limit.rlim_cur != NO_LIMIT {
        Some(limit.rlim_cur)
    } else {
        None
    }
}

/// The meters of a node that begins now, of so many doors. The memory of the process is left out where the system has no text on it.
pub(crate) fn meters_of<'d, R>(
    rt: &R,
    shared: &'d PartsBudget,
    readers: Option<&'d PartsBudget>,
    doors: usize,
) -> Result<Meters<'d>, AllocError>
where
    R: Clock + Files<File = File> + Alloc<A = Global>,
{
    let process = File::open(rt, PROCESS).ok();
    let started = match rt.monotonic() {
        Ok(time) => time.as_secs(),
        Err(_error) => 0,
    };
    let program = number_of(VERSION);
    Meters::new(
        rt.alloc(),
        shared,
        readers,
        program,
        process,
        memory_limit(),
        started,
        doors,
    )
}
