//! Two half-fed replicas of one log, joined.

use crate::replica::replica_of;
use hk_log::Item;
use hk_merge::merge;
use hk_query::{Answer, Query, ask};
use hk_state::ReplicaState;
use hk_types::{Refusal, Table, Time};
use std::alloc::Global;

/// Merges a replica that applied these items into another one.
fn merge_of(alloc: Global, replica: &mut ReplicaState, items: &[Item]) -> Result<(), Refusal> {
    let other = replica_of(alloc, items)?;
    merge(replica, &other)
}

/// How many rows table 1 has at time 1, on a replica of one half of the items into which one of the other half is
/// merged.
pub(crate) fn count(alloc: Global, items: &[Item]) -> Result<Answer, Refusal> {
    let (table, at) = (Table::new(1), Time::new(1)?);
    let (first, others) = items.split_at(items.len() / 2);
    let mut replica = replica_of(alloc, first)?;
    merge_of(alloc, &mut replica, others)?;
    ask(alloc, &replica, at, &Query::Count { table })
}
