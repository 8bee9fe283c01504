//! The library in four small programs: a replica that is fed and asked, two half-fed replicas joined, a primary, a running node.
#![tactic(auto)]

mod asking;
mod merge;
mod node;
mod primary;
mod replica;

use hk_cli_lines::line_of;
use hk_decode::decode_all;
use hk_query::Answer;
use hk_types::Refusal;
use std::alloc::{AllocError, Global};
use std::io::{self, Read};
use std::sync::Wait;
use std::thread::Threads;

/// The line of an answer, or of a refusal.
fn told(alloc: Global, reply: Result<Answer, Refusal>) -> Result<String, AllocError> {
    match reply {
        Ok(answer) => line_of(alloc, &answer),
        Err(why) => line_of(alloc, &why),
    }
}

/// What merging two replicas, each of one half of the items of these bytes, returns.
fn counted<R: Threads + Sync>(rt: &R, alloc: Global, bytes: &[u8]) -> Result<Answer, Refusal> {
    let items = decode_all(rt, alloc, bytes)?;
    merge::count(alloc, &items)
}

/// What a primary's log comes to.
fn logged(alloc: Global) -> Result<String, AllocError> {
    match primary::log_of(alloc) {
        Ok(log) => format!(in alloc; "{} bytes\n", log.len()),
        Err(why) => format!(in alloc; "{why}\n"),
    }
}

/// What the two readers of a node get, to which the items of these bytes are pushed.
fn node_told<R: Threads + Wait + Sync>(
    rt: &R,
    alloc: Global,
    bytes: &[u8],
) -> Result<String, AllocError> {
    match node::filled(rt, alloc, bytes) {
        Ok(lines) => Ok(lines),
        Err(why) => line_of(alloc, &why),
    }
}

fn main(rt: HostRuntime) -> io::Result<()> {
    let mut bytes = Vec::new(rt.alloc());
    rt.reader().read_to_end(&mut bytes)?;
    let (front, back) = bytes.split_at(bytes.len() / 2);
    for time in [1, 2] {
        let row = replica::row_at(rt.alloc(), &[front, back], time);
        print!(rt; "{}", told(rt.alloc(), row)?)?;
    }
    let count = counted(&rt, rt.alloc(), &bytes);
    print!(rt; "{}", told(rt.alloc(), count)?)?;
    print!(rt; "{}", logged(rt.alloc())?)?;
    print!(rt; "{}", node_told(&rt, rt.alloc(), &bytes)?)
}
