//! Nodes of log 7 with one stream, by the operations that they count.

ghost use Rattle.std.specs.Prelude.{◌≡◌};

use crate::tests::values::{entry, mark, time};
use hk_delta::{Fragment, fragment_of};
use hk_log::Item;
use hk_model::{Answer, Query};
use hk_node::{NewList, Node, NodeName, ReaderSeat, start};
use hk_types::{Config, Key, Refusal, Table, Time};
use std::alloc::Global;
use std::marker::Brand;
use std::process::Abort;
use std::sync::Wait;
use std::test::Fail;
use std::thread;
use std::thread::Threads;

mod playing;
mod rows;
mod sizes;
mod threads;

fn config() -> Result<Config, Fail> {
    Ok(Config::new(7, 1)?)
}

/// Items by their numbers: 1 to 3 are entries, 4 is the mark of all three, 7 ends
/// what 2 ended at another time, 8 is a mark that closes the stream behind 1 up to 9, and 9 is like 1 with another body.
fn item(alloc: Global, number: u64) -> Result<Item, Fail> {
    let item = match number {
        1 => entry(alloc, 7, (1, 1, 1), (None, Some((5, &[0, 0x41])))),
        2 => entry(alloc, 7, (1, 2, 2), (Some((5, 1)), Some((5, &[0, 0x42])))),
        3 => entry(alloc, 7, (1, 3, 3), (None, Some((6, &[0, 0x43])))),
        7 => entry(alloc, 7, (1, 4, 4), (Some((5, 1)), None)),
        8 => mark(1, 1, 9),
        9 => entry(alloc, 7, (1, 1, 1), (None, Some((5, &[0, 0x99])))),
        _ => mark(1, 3, 3),
    };
    Ok(item?)
}

/// The items whose numbers are the digits of this one, at most four.
fn items(alloc: Global, digits: u64) -> Result<Vec<Item>, Fail> {
    let mut items = Vec::new(alloc);
    for power in [1_000, 100, 10, 1] {
        let number = digits / power % 10;
        if number > 0 {
            items.push(item(alloc, number)?)?;
        }
    }
    Ok(items)
}

/// Their fragment.
fn fragment(alloc: Global, digits: u64) -> Result<Fragment, Fail> {
    let items = items(alloc, digits)?;
    Ok(fragment_of(alloc, config()?, &items)?)
}

fn get(key: u64) -> Query {
    Query::Get {
        table: Table::new(1),
        key: Key::new(key),
    }
}

/// The body of the row at a key and a time, or 0.
fn body<J: NodeName>(seat: &mut ReaderSeat<J>, key: u64, at: u64) -> Result<u16, Refusal> {
    let Ok(at) = Time::new(at) else {
        return Ok(0);
    };
    Ok(number_of(&seat.ask(at, &get(key))?))
}

/// The body of the row that is answered, or 0.
fn number_of(answer: &Answer) -> u16 {
    match answer {
        Answer::One(Some(row)) => match row.body() {
            [high, low] => u16::from_be_bytes([*high, *low]),
            _ => 0,
        },
        _ => 0,
    }
}

/// Oldest readable time and resolved time.
fn front<J: NodeName>(seat: &mut ReaderSeat<J>) -> Result<(u64, u64), Refusal> {
    let front = seat.front()?;
    Ok((front.horizon.number(), front.readable.number()))
}
