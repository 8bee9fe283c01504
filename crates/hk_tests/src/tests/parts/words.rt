//! Printed words.

use crate::tests::values::{stream, time};
use hk_types::{FormFault, Key, Refusal, Table, Tag};
use std::alloc::Global;
use std::fmt::Write;
use std::test::*;

/// A table, a key, a tag, a time and a stream.
fn numbers(alloc: Global) -> Result<String, Fail> {
    let (at, stream) = (time(2)?, stream(64)?);
    let (table, key, tag) = (Table::new(1), Key::new(u64::MAX), Tag::new(u32::MAX));
    Ok(format!(in alloc; "{table} {key} {tag} {at} {stream}")?)
}

#[test]
fn prints_numbers(rt: HostRuntime) -> Result<(), Fail> {
    let numbers = numbers(rt.alloc())?;
    assert!(rt; numbers.as_str() == "1 18446744073709551615 4294967295 2 64");
    Ok(())
}

/// Whether these are the lines of refusals, each with its number.
fn are_lines(alloc: Global, refusals: &[Refusal], wanted: &str) -> Result<bool, Fail> {
    let mut lines = String::new(alloc);
    for refusal in refusals {
        writeln!(lines, "{} {refusal}", refusal.number())?;
    }
    Ok(lines.as_str() == wanted)
}

/// Refusals that name no time, stream or key.
const REFUSALS: [Refusal; 25] = [
    Refusal::Form(FormFault::Truncated),
    Refusal::Form(FormFault::TooLong),
    Refusal::Form(FormFault::BadVersion),
    Refusal::Form(FormFault::BadKind),
    Refusal::Form(FormFault::BadStream),
    Refusal::Form(FormFault::BadNumber),
    Refusal::Form(FormFault::BadOrder),
    Refusal::Form(FormFault::BadCount),
    Refusal::Form(FormFault::BadBody),
    Refusal::Form(FormFault::WrongLength),
    Refusal::ForeignLog,
    Refusal::WrongStreams,
    Refusal::Conflict,
    Refusal::TwiceWritten,
    Refusal::TooManyWrites,
    Refusal::NoStream,
    Refusal::ClockFull,
    Refusal::Damaged,
    Refusal::Unpublished { ops: 8 },
    Refusal::NodeFull,
    Refusal::NoHold,
    Refusal::NoSuch,
    Refusal::LinkFull { most: 9 },
    Refusal::NoPart,
    Refusal::Memory,
];

/// Their lines.
const LINES: &str = "1 the input ends inside a frame
2 the length is above its limit
3 the version is unknown
4 the kind has no meaning here
5 a stream is outside 1 to 64
6 a number is outside its range
7 a list does not rise strictly
8 a count is above its limit, or both lists are empty
9 a body is above 4,096 bytes
10 a field does not fit, or bytes are left
20 another log
21 a stream above the configured number, or another number of streams
23 a conflict
32 the transaction wrote the key already
33 the transaction has 1,024 writes already
34 no such stream
35 the last time is given out
41 the node met a conflict
42 not yet published: operation 8
43 the node has all operations that it can have
44 no such pin
45 no such replica or item
46 connections would keep more than 9 bytes in chunks
47 nothing is being sent in chunks
90 out of memory
";

#[test]
fn prints_each_refusal(rt: HostRuntime) -> Result<(), Fail> {
    assert!(rt; are_lines(rt.alloc(), &REFUSALS, LINES)?);
    Ok(())
}

/// Refusals that name times, a key or a stream.
fn naming() -> Result<[Refusal; 8], Refusal> {
    let (at, readable, base) = (time(2)?, time(6)?, time(9)?);
    let (table, key, stream) = (Table::new(1), Key::new(5), stream(2)?);
    Ok([
        Refusal::Gap { base, readable },
        Refusal::AheadOfMark { readable },
        Refusal::TooOld { horizon: at },
        Refusal::NotYet { readable },
        Refusal::WriteConflict { table, key, at },
        Refusal::NoRow { table, key },
        Refusal::Retired { stream },
        Refusal::Held { reader: 3, at },
    ])
}

/// Their lines.
const NAMING_LINES: &str = "22 a gap: base 9, readable 6
24 above the resolved time 6
25 below the oldest readable time 2
26 above the resolved time 6
30 table 1 key 5 was written at 2
31 table 1 key 5 has no row
36 stream 2 is retired
40 reader 3 has pinned 2
";

#[test]
fn prints_each_refusal_that_names_something(rt: HostRuntime) -> Result<(), Fail> {
    assert!(rt; are_lines(rt.alloc(), &naming()?, NAMING_LINES)?);
    Ok(())
}
