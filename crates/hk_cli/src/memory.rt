//! How much memory the program may have.

ghost use Rattle.std.specs.Prelude.{◌≤◌};

use std::alloc::Global;
use std::fs;
use std::fs::Files;

/// How many bytes are kept for messages of version 2 at least, where the share of the memory is less.
const LEAST_BYTES: u64 = 268_435_456;

/// How many groups a control group is in, at most.
const MOST_GROUPS: usize = 64;

const GROUPS_FOLDER: &str = "/sys/fs/cgroup";

/// The number that a word of decimal digits is.
fn number_of(word: &str) -> Option<u64> {
    word.trim().parse::<u64>().ok()
}

/// The bytes of the memory that this text of /proc/meminfo has.
fn total_of(text: &str) -> Option<u64> {
    for line in text.lines() {
        if let Some(rest) = line.strip_prefix("MemTotal:") {
            let kilobytes = number_of(rest.trim().strip_suffix("kB")?)?;
            return Some(kilobytes.saturating_mul(1_024));
        }
    }
    None
}

/// The path of the program's control group, by this text of /proc/self/cgroup.
fn group_of(text: &str) -> &str {
    for line in text.lines() {
        if let Some(path) = line.strip_prefix("0::") {
            return path;
        }
    }
    ""
}

/// How many bytes a control group may have at most; 2^64 - 1 where it has no limit.
fn limit_at<R: Files + Alloc<A = Global>>(rt: &R, group: &str) -> u64 {
    let Ok(path) = format!(in rt.alloc(); "{GROUPS_FOLDER}{group}/memory.max") else {
        return u64::MAX;
    };
    match fs::read_to_string(rt, path.as_str()) {
        Ok(text) => number_of(text.as_str()).unwrap_or(u64::MAX),
        Err(_none) => u64::MAX,
    }
}

/// The least limit of a control group, and of those that it is in.
fn least_limit<R: Files + Alloc<A = Global>>(rt: &R, group: &str) -> u64 {
    let mut least = u64::MAX;
    let mut at = group.trim_end_matches('/');
    for _ in 0..MOST_GROUPS {
        least = least.min(limit_at(rt, at));
        match at.rsplit_once('/') {
            Some((above, _name)) => at = above,
            None => return least,
        }
    }
    least
}

/// The text of a file of the system's, empty where it can't be read.
fn text_of<R: Files + Alloc<A = Global>>(rt: &R, path: &str) -> String {
    match fs::read_to_string(rt, path) {
        Ok(text) => text,
        Err(_none) => String::new(rt.alloc()),
    }
}

/// How many bytes so many hundredths of the memory are that the program may have: of the machine's, or of its control group's where
/// that is less; at least 268,435,456, also where neither can be read. Cost: that of reading four files and more.
pub(crate) fn share_of_memory<R: Files + Alloc<A = Global>>(rt: &R, percent: u64) -> u64
    ensures { 268435456 ≤ result }
{
    let machine = text_of(rt, "/proc/meminfo");
    let group = text_of(rt, "/proc/self/cgroup");
    let total = total_of(machine.as_str()).unwrap_or(0);
    let most = total.min(least_limit(rt, group_of(group.as_str())));
    (most / 100).saturating_mul(percent).max(LEAST_BYTES)
}
