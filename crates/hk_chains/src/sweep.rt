//! Versions that are dropped in one pass over all chains.

ghost use Rattle.std.specs.Prelude.{◌≡◌};
ghost use Rattle.hk_model.specs.History.Rows.{row_key_cmp};
ghost use Rattle.hk_slots.specs.SlotMaps.{AreOwn, map_of};
ghost use Rattle.hk_chains.specs.Drops.{EndedAmong, pruned_facts};
ghost use Rattle.hk_chains.specs.Facts.{AreStored};
ghost use Rattle.hk_chains.specs.Sweeps.{ArePruned, HasEnded, HasFewerSlots, IsSwept};

use crate::chains::Chains;
use crate::tally::Tally;
use hk_facts::Chain;
use hk_index::RowKey;
use hk_slots::SlotMap;
use hk_types::Time;

impl Chains {
    /// Drops each version whose end is known and at most `until`, of which these rows have all, and counts them no more: in one pass
    /// over the chains, or row by row. It takes no memory. Cost: that of `sweep`, or of `sweep_rows`.
    pub fn drop_ended(&mut self, tally: &mut Tally, rows: &[RowKey], until: Time, in_one_pass: bool)
        requires { EndedAmong self.old until rows.now }
        ensures { self.new ≡ pruned_facts self.old until }
    {
        if in_one_pass {
            self.sweep(tally, until);
        } else {
            self.sweep_rows(tally, rows, until);
        }
    }

    /// Drops each version whose end is known and at most `until`, chain by chain, as they are in memory, and counts them no more. It takes no memory.
    /// Cost: O(n + c · log n), n facts, c chains of which nothing is left.
    fn sweep(&mut self, tally: &mut Tally, until: Time)
        ensures { self.new ≡ pruned_facts self.old until }
    {
        sweep_all(&mut self.chains, tally, until);
    }

    /// Drops each version whose end is known and at most `until`, of these rows, which have all of those, and counts them no more. It
    /// takes no memory. Cost: O(r · log n), r rows, n facts, and their versions.
    fn sweep_rows(&mut self, tally: &mut Tally, rows: &[RowKey], until: Time)
        requires { EndedAmong self.old until rows.now }
        ensures { self.new ≡ pruned_facts self.old until }
    {
        sweep_listed(&mut self.chains, tally, rows, until);
    }

    /// A number that is at least that of the chains; more than that it does not promise.
    pub fn bound(&self) -> usize {
        self.chains.slot_bound()
    }
}

fn sweep_all(chains: &mut SlotMap<RowKey, Chain>, tally: &mut Tally, until: Time)
    requires { AreStored (map_of row_key_cmp chains.old) }
    ensures stored { AreStored (map_of row_key_cmp chains.new) }
    ensures swept { ArePruned (map_of row_key_cmp chains.old) (map_of row_key_cmp chains.new) until }
{
    for slot in 0..chains.slot_bound() {
        if let Some(row) = chains.key_at(slot) {
            sweep_row(chains, tally, row, until);
        }
    }
}

fn sweep_listed(
    chains: &mut SlotMap<RowKey, Chain>,
    tally: &mut Tally,
    rows: &[RowKey],
    until: Time,
)
    requires stored { AreStored (map_of row_key_cmp chains.old) }
    requires listed { HasEnded (map_of row_key_cmp chains.old) until rows.now }
    ensures stored { AreStored (map_of row_key_cmp chains.new) }
    ensures swept { ArePruned (map_of row_key_cmp chains.old) (map_of row_key_cmp chains.new) until }
{
    let _own = chains.slot_bound();
    for row in rows {
        sweep_row(chains, tally, *row, until);
    }
}

/// Drops the versions of a row that ended by a time, and the row's chain where nothing is left of it.
fn sweep_row(chains: &mut SlotMap<RowKey, Chain>, tally: &mut Tally, row: RowKey, until: Time)
    requires own { AreOwn row_key_cmp chains.old }
    requires stored { AreStored (map_of row_key_cmp chains.old) }
    ensures own { AreOwn row_key_cmp chains.new }
    ensures stored { AreStored (map_of row_key_cmp chains.new) }
    ensures slots { HasFewerSlots chains.old chains.new }
    ensures swept { IsSwept (map_of row_key_cmp chains.old) (map_of row_key_cmp chains.new) row until }
{
    let Some(chain) = chains.get_mut(row) else {
        return;
    };
    tally.lose_until(chain, until);
    chain.drop_until(until);
    if chain.is_empty() {
        chains.remove(row);
    }
}
