//! The rows of a table between two keys.

ghost use Rattle.std.specs.Prelude.{◌≡◌, ◌==◌, ◌&&◌, ◌++◌, nat_le, false, IfOk, OnOk};
ghost use Rattle.std.specs.Ordering.{is_gt};
ghost use Rattle.std.specs.FinMap as finmap;
ghost use Rattle.std.specs.BTreeMap.Range.{entries_between};
ghost use Rattle.std.specs.declared.ops.Bound.TheVariants.{Included};
ghost use Rattle.hk_model.specs.History.Rows.{row_key_cmp};
ghost use Rattle.hk_model.specs.Replica.Answers.{visible, rows_where};
ghost use Rattle.hk_facts.specs.Chains.{row_at};
ghost use Rattle.hk_slots.specs.SlotMaps.{map_of};
ghost use Rattle.hk_chains.specs.Reads.{keyed_if, rows_at, with_facts, rows_from_to};

use hk_facts::Chain;
use hk_index::RowKey;
use hk_slots::SlotMap;
use hk_types::{Key, Row, Time};
use std::alloc::{AllocError, Global};

/// Adds a copy of the row that a chain has at a time, with its key, where it has one.
fn push_row_at(
    alloc: Global,
    rows: &mut Vec<(Key, Row)>,
    key: Key,
    chain: &Chain,
    time: Time,
) -> Result<(), AllocError>
    ensures { OnOk result (rows.new.items ≡ rows.old.items ++ keyed_if key (row_at chain.now time)) }
{
    if let Some(row) = chain.at(time) {
        rows.push((key, row.copy(alloc)?))?;
    }
    Ok(())
}

/// Copies of the rows that the chains from a first to a last row have at a time, with their keys.
pub(crate) fn rows_in_range(
    alloc: Global,
    chains: &SlotMap<RowKey, Chain>,
    first: RowKey,
    last: RowKey,
    time: Time,
) -> Result<Vec<(Key, Row)>, AllocError>
    requires { is_gt (row_key_cmp first last) ≡ false }
    ensures { IfOk result (λ rows. rows.items ≡ rows_from_to time first last (finmap.entries (map_of row_key_cmp chains.now))) }
{
    let mut rows = Vec::new(alloc);
    for (row, chain) in chains.range(first..=last) {
        push_row_at(alloc, &mut rows, row.key, chain, time)?;
    }
    Ok(rows)
}
