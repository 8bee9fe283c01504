//! Whether an entry conflicts with what is known.

ghost use Rattle.std.specs.Prelude.{◌≡◌, ◌==◌, Some};
ghost use Rattle.std.specs.List.{list_any};
ghost use Rattle.std.specs.FinMap as finmap;
ghost use Rattle.hk_types.specs.Values.{same_row};
ghost use Rattle.hk_model.specs.Replica.Maps.{values_conflict};
ghost use Rattle.hk_model.specs.History.Facts.{inserted_version};
ghost use Rattle.hk_chains.specs.Facts.{conflicts_at, conflicts_with_entry};
ghost use Rattle.hk_store.specs.Undos.{ends_conflict, rows_conflict};

use crate::facts::Facts;
use hk_facts::Fact;
use hk_log::Entry;
use hk_types::{Key, Row, Table, Time, VersionKey};

impl Facts {
    /// Whether an entry has another row, or another end, of a version than is known of it. It takes no memory. Cost:
    /// O(w · log n + b), w writes, n facts, b bytes of bodies that are compared.
    pub fn conflicts_with_entry(&self, entry: &Entry) -> bool
        ensures { result ≡ conflicts_with_entry self.now entry.now }
    {
        self.has_another_row(entry.rows(), entry.time())
            || self.has_another_end(entry.ends(), entry.time())
    }

    fn has_another_row(&self, rows: &[(Table, Key, Row)], time: Time) -> bool
        ensures { result ≡ rows_conflict self.now time rows.now }
    {
        rows.iter().any(|(table, key, row)| {
            let version = VersionKey {
                table: *table,
                key: *key,
                born: time,
            };
            self.has_conflicting_row(&version, row)
        })
    }

    fn has_another_end(&self, ends: &[VersionKey], time: Time) -> bool
        ensures { result ≡ ends_conflict self.now time ends.now }
    {
        ends.iter()
            .any(|version| self.has_conflicting_end(version, time))
    }

    /// Whether another row, or another end, than that of the fact is known of a version. Cost: O(log n + b), n facts,
    /// b bytes of a body that is compared.
    pub(crate) fn has_conflicting(&self, version: &VersionKey, fact: &Fact) -> bool
        ensures { result ≡ conflicts_at self.now version.now fact.now }
    {
        match fact {
            Fact::Row(row) => self.has_conflicting_row(version, row),
            Fact::End(died) => self.has_conflicting_end(version, *died),
        }
    }

    /// Whether another row than this is known of a version. Cost: O(log n + b), n facts, b bytes of a
    /// body that is compared.
    pub fn has_conflicting_row(&self, version: &VersionKey, row: &Row) -> bool
        ensures { result ≡ values_conflict same_row (finmap.get self.now.rows version.now) (Some row.now) }
    {
        match self.row_at(version) {
            Some(there) => *there != *row,
            None => false,
        }
    }

    /// Whether another end than this is known of a version. Cost: O(log n), n facts.
    pub fn has_conflicting_end(&self, version: &VersionKey, died: Time) -> bool
        ensures { result ≡ values_conflict
            (λ a b. a == b) (finmap.get self.now.ends version.now) (Some died) }
    {
        match self.end_at(version) {
            Some(there) => there != died,
            None => false,
        }
    }
}
