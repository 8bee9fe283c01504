//! A replica that is fed from bytes, in pieces, and asked.

use hk_codec::Feeder;
use hk_log::Item;
use hk_query::{Answer, Query, ask};
use hk_state::ReplicaState;
use hk_types::{Config, Key, Refusal, Table, Time};
use std::alloc::Global;

/// The items whose frames these pieces are.
fn items_of(alloc: Global, pieces: &[&[u8]]) -> Result<Vec<Item>, Refusal> {
    let mut feeder = Feeder::new(alloc);
    let mut items = Vec::new(alloc);
    for piece in pieces {
        feeder.feed(piece, &mut items)?;
    }
    feeder.finish()?;
    Ok(items)
}

/// A replica of log 7, which has one stream, that applied these items.
pub(crate) fn replica_of(alloc: Global, items: &[Item]) -> Result<ReplicaState, Refusal> {
    let mut replica = ReplicaState::new(alloc, Config::new(7, 1)?)?;
    for item in items {
        replica.absorb(item)?;
    }
    Ok(replica)
}

/// A replica that applied the items of these pieces.
fn fed(alloc: Global, pieces: &[&[u8]]) -> Result<ReplicaState, Refusal> {
    let items = items_of(alloc, pieces)?;
    replica_of(alloc, &items)
}

/// The row of table 1 at key 5 at a time.
pub(crate) fn row_at(alloc: Global, pieces: &[&[u8]], time: u64) -> Result<Answer, Refusal> {
    let (table, key, at) = (Table::new(1), Key::new(5), Time::new(time)?);
    let replica = fed(alloc, pieces)?;
    ask(alloc, &replica, at, &Query::Get { table, key })
}
