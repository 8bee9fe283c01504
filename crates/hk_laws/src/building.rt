//! Building a transaction from its writes.

ghost use Rattle.std.specs.Prelude.{◌≡◌, IfErr, OnOk, OnErr, MatchOption, None, Err};
ghost use Rattle.std.specs.List.{list_any};
ghost use Rattle.std.specs.Ordering.{eq_by_cmp};
ghost use Rattle.std.specs.FinMap as finmap;
ghost use Rattle.hk_model.specs.History.Commits.{writes_result};
ghost use Rattle.hk_model.specs.History.Histories.{written_key};
ghost use Rattle.hk_model.specs.History.Rows.{row_key_cmp};
ghost use Rattle.hk_laws.specs.Among.{Builds};
ghost use Rattle.hk_laws.specs.Calls.{IsBuilt};
ghost use Rattle.hk_primary.specs.Txns.{IsRefusal, with_write, write_refused};

use hk_index::RowKey;
use hk_log::MOST_WRITES;
use hk_model::WriteOp;
use hk_primary::Txn;
use hk_types::{Refusal, Time};
use std::alloc::Global;

/// Adds a write to a transaction.
fn add(txn: &mut Txn, write: WriteOp) -> Result<(), Refusal>
    ensures done { OnOk result (txn.new ≡ with_write txn.old write) }
    ensures accepted { OnOk result (write_refused txn.old (written_key write) ≡ None) }
    ensures refused { IfErr result (λ e. IsRefusal (write_refused txn.old (written_key write)) e) }
{
    match write {
        WriteOp::Put { table, key, row } => match txn.put(table, key, row) {
            Ok(()) => Ok(()),
            Err((_row, why)) => Err(why),
        },
        WriteOp::Remove { table, key } => txn.remove(table, key),
    }
}

/// The transaction that reads at a time and has these writes, or why one of them is refused.
pub(crate) fn transaction(
    alloc: Global,
    read_at: Time,
    writes: Vec<WriteOp>,
) -> Result<Txn, Refusal>
    ensures { Builds read_at writes.items result }
{
    let mut txn = Txn::at(alloc, read_at);
    for write in writes {
        if let Err(why) = add(&mut txn, write) {
            return Err(why);
        }
    }
    Ok(txn)
}

/// Whether one of the writes is of a row.
fn is_written(writes: &[WriteOp], key: RowKey) -> bool
    ensures { result ≡ list_any (λ w. eq_by_cmp row_key_cmp key (written_key w)) writes.now }
{
    writes.iter().any(|write| key == RowKey::of(write))
}

/// Why these writes are no transaction, if they are none. It takes no memory. Cost: O(w²), w writes, up to
/// `MOST_WRITES`.
pub(crate) fn misbuilt(writes: &[WriteOp]) -> Option<Refusal>
    ensures { MatchOption result (IsBuilt writes.now) (λ why. writes_result finmap.empty writes.now ≡ Err why) }
{
    for i in 0..writes.len() {
        if is_written(&writes[..i], RowKey::of(&writes[i])) {
            return Some(Refusal::TwiceWritten);
        }
        if i >= MOST_WRITES {
            return Some(Refusal::TooManyWrites);
        }
    }
    None
}
