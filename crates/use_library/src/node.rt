//! A running node that items are pushed to, and two readers that ask it and take no lock.

ghost use Rattle.std.specs.Prelude.{◌≡◌, true};

use crate::asking::asked_twice;
use hk_cli_lines::line_of;
use hk_decode::decode_all;
use hk_delta::{Fragment, fragment_of};
use hk_node::{NewList, Node, NodeName, ReaderSeat, start};
use hk_query::Query;
use hk_types::{Config, Key, Refusal, Table, Time};
use std::alloc::Global;
use std::marker::Brand;
use std::sync::Wait;
use std::thread::Threads;

/// What a reader gets from table 1 at key 5 at time 1.
fn row<J: NodeName>(alloc: Global, seat: &mut ReaderSeat<J>) -> Result<String, Refusal>
    requires { J.kind.guarded ≡ true }
{
    let (table, key) = (Table::new(1), Key::new(5));
    let line = match asked_twice(seat, Time::new(1)?, &Query::Get { table, key }) {
        Ok((answer, _again)) => line_of(alloc, &answer)?,
        Err(why) => line_of(alloc, &why)?,
    };
    Ok(line)
}

/// Pushes a fragment to a node. The first reader asks before, both ask after it.
fn asked<J: NodeName, R: Wait>(
    rt: &R,
    alloc: Global,
    node: &Node<J, &R>,
    seats: &mut [ReaderSeat<J>],
    pushed: Fragment,
) -> Result<String, Refusal>
    requires { J.kind.guarded ≡ true }
{
    let mut lines = String::new(alloc);
    if let Some(first) = seats.first_mut() {
        lines.push_str(row(alloc, first)?.as_str())?;
    }
    node.join(rt, pushed)?;
    for seat in seats {
        seat.learn(node.publish(rt)?);
        lines.push_str(row(alloc, seat)?.as_str())?;
    }
    Ok(lines)
}

/// Starts a node with two readers, and pushes a fragment to it.
fn told<J: NodeName, R: Wait>(
    rt: &R,
    alloc: Global,
    list: NewList,
    pushed: Fragment,
) -> Result<String, Refusal>
    requires list { list ≡ (J.book, J.kind) }
    requires guarded { list.1.guarded ≡ true }
{
    let (node, mut seats) = start::<J, &R>(rt, alloc, list, 2)?;
    asked(rt, alloc, &node, &mut seats, pushed)
}

/// The fragment of the items whose frames the bytes are.
fn fragment<R: Threads + Sync>(
    rt: &R,
    alloc: Global,
    config: Config,
    bytes: &[u8],
) -> Result<Fragment, Refusal> {
    let items = decode_all(rt, alloc, bytes)?;
    fragment_of(alloc, config, &items)
}

/// What the readers of a node of log 7 get, which has one stream and is pushed the stream's items.
pub(crate) fn filled<R: Threads + Wait + Sync>(
    rt: &R,
    alloc: Global,
    bytes: &[u8],
) -> Result<String, Refusal> {
    let config = Config::new(7, 1)?;
    let pushed = fragment(rt, alloc, config, bytes)?;
    told::<Brand, R>(rt, alloc, NewList::guarded(config), pushed)
}
