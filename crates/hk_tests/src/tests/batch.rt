//! Items and fragments of log 7 with two streams, by several workers.

mod decoding;
mod splitting;
mod uniting;

ghost use Rattle.std.specs.Prelude.{◌≤◌, ⊤};

use super::items;
use hk_batch::{Gate, OpenGate, build};
use hk_delta::Fragment;
use hk_log::{Item, Version};
use hk_types::{Config, VersionKey};
use std::alloc::Global;
use std::sync::atomic::AtomicU64;
use std::sync::atomic::Ordering::SeqCst;
use std::test::Fail;
use std::thread;
use std::thread::Threads;

/// How often worker 1 looks whether worker 2 has entered.
const TURNS: u32 = 10_000_000;

/// What a fragment knows of a version: its key and birth, the byte of its row and its end, 0 where there is none.
type Line = (u64, u64, u8, u64);

fn line((version, known): &(VersionKey, Version)) -> Line {
    let byte = match known.row() {
        Some(row) => match row.body() {
            [byte] => *byte,
            _ => 0,
        },
        None => 0,
    };
    let died = match known.died() {
        Some(died) => died.number(),
        None => 0,
    };
    (version.key.number(), version.born.number(), byte, died)
}

/// Whether a fragment knows these versions and no others.
fn knows(fragment: &Fragment, known: &[Line]) -> bool {
    let facts = fragment.facts();
    let mut is_known = facts.len() == known.len();
    for (fact, wanted) in facts.iter().zip(known) {
        is_known = is_known && line(fact) == *wanted;
    }
    is_known
}

/// The versions of the items 1 to 6.
const KNOWN: [Line; 3] = [(5, 1, 0x41, 3), (5, 3, 0x43, 0), (6, 2, 0x42, 4)];

/// Whether a fragment is that of the items 1 to 6.
fn is_whole(fragment: &Fragment) -> bool {
    let times = (
        fragment.base().number(),
        fragment.horizon().number(),
        fragment.got().readable().number(),
    );
    times == (0, 0, 4) && knows(fragment, &KNOWN)
}

/// 0 where so many workers return the fragment of the items 1 to 6, or the number of the refusal; 1 for another fragment.
fn told(
    rt: &(impl Threads + Sync),
    alloc: Global,
    config: Config,
    items: &[Item],
    workers: usize,
) -> u8
    requires some { 1 ≤ workers }
    requires few { workers ≤ 16 }
{
    match build(rt, alloc, config, items, workers, &OpenGate) {
        Ok(fragment) => u8::from(!is_whole(&fragment)),
        Err(why) => why.number(),
    }
}

/// Lists of items by their names, and the refusals of each: the items 1 to 6, one of another log, and a conflict.
static LISTS: [(&[u8], u8); 3] = [(&[6, 5, 4, 3, 2, 1, 1], 0), (&[1, 7, 8], 20), (&[1, 7], 23)];

/// Whether every number of workers returns this.
fn all_tell(
    rt: &(impl Threads + Sync),
    alloc: Global,
    names: &[u8],
    wanted: u8,
) -> Result<bool, Fail> {
    let (config, items) = (Config::new(7, 2)?, items(alloc, names)?);
    let mut is_told = true;
    for workers in 1..=16 {
        is_told = is_told && told(rt, alloc, config, &items, workers) == wanted;
    }
    Ok(is_told)
}

#[test]
fn every_number_of_workers_gives_the_fragment(rt: HostRuntime) -> Result<(), Fail> {
    for (names, wanted) in &LISTS {
        assert!(rt; all_tell(&rt, rt.alloc(), names, *wanted)?);
    }
    Ok(())
}

/// A request for so many bytes and N more lets the Nth request from then on be refused, where the tests run
/// under tests/faults/failing_memory.c, and with `ALL` more those after it too; none where N is 0. It is refused
/// itself, also without that library.
const ARM: usize = 1 << 62;

const ALL: usize = 1 << 32;

fn refuse(alloc: Global, number: usize) {
    let _refused = Vec::<u8>::with_capacity(alloc, ARM.saturating_add(number));
}

/// More than three workers and a last attempt make over seven items.
const MOST_REQUESTS: usize = 150;

/// Whether three workers return this, or are refused 90 where a request was refused and a fragment is wanted.
fn withstands(
    rt: &(impl Threads + Sync),
    alloc: Global,
    config: Config,
    (items, wanted): (&[Item], u8),
    first: usize,
) -> bool {
    refuse(alloc, first);
    let tells = told(rt, alloc, config, items, 3);
    refuse(alloc, 0);
    tells == wanted || first > 0 && wanted == 0 && tells == 90
}

/// The same where each request is refused in turn, alone and with those after it, and then none.
fn withstands_all(
    rt: &(impl Threads + Sync),
    alloc: Global,
    names: &[u8],
    wanted: u8,
) -> Result<bool, Fail> {
    let (config, items) = (Config::new(7, 2)?, items(alloc, names)?);
    let mut withstood = true;
    for turn in 3..=3 * MOST_REQUESTS + 2 {
        let number = [turn / 3, turn / 3 + ALL, 0][turn % 3];
        withstood = withstood && withstands(rt, alloc, config, (&items, wanted), number);
    }
    Ok(withstood)
}

#[test]
fn each_request_refused(rt: HostRuntime) -> Result<(), Fail> {
    for (names, wanted) in &LISTS {
        assert!(rt; withstands_all(&rt, rt.alloc(), names, *wanted)?);
    }
    Ok(())
}

/// A gate at which worker 1 waits until worker 2 has entered, or has looked so often in vain.
#[derive(Drop)]
struct Meeting {
    entered: AtomicU64,
    given_up: AtomicU64,
}

impl Gate for Meeting {
    ghost passed = { λ _ _. ⊤ };

    fn enter(&self, worker: usize)
        ensures { ⊤ }
    {
        if worker == 2 {
            self.entered.store(1, SeqCst);
        }
        if worker == 1 {
            for _ in 0..TURNS {
                if self.entered.load(SeqCst) == 1 {
                    return;
                }
                thread::yield_now();
            }
            self.given_up.store(1, SeqCst);
        }
    }
}

/// Whether two workers build the fragment of the items 1 to 6 through a gate.
fn is_built(rt: &(impl Threads + Sync), alloc: Global, gate: &Meeting) -> Result<bool, Fail> {
    let (config, items) = (Config::new(7, 2)?, items(alloc, LISTS[0].0)?);
    Ok(is_whole(&build(rt, alloc, config, &items, 2, gate)?))
}

#[test]
fn two_workers_run_side_by_side(rt: HostRuntime) -> Result<(), Fail> {
    let gate = Meeting {
        entered: AtomicU64::new(0),
        given_up: AtomicU64::new(0),
    };
    assert!(rt; is_built(&rt, rt.alloc(), &gate)?);
    assert!(rt; gate.entered.load(SeqCst) == 1);
    assert!(rt; gate.given_up.load(SeqCst) == 0, "worker 2 never came");
    Ok(())
}
