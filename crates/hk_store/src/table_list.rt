//! The tables of which anything is held.

ghost use Rattle.std.specs.Prelude.{◌≡◌, ◌≢◌, ◌++◌, ◌∷◌, [], ◌≤◌, ◌<◌, true, OnOk, IfOk, IfSome, IfNone, None};
ghost use Rattle.hk_types.specs.declared.version_key.VersionKey.{VersionKey};
ghost use Rattle.hk_chains.specs.Indexed.{has_fact};
ghost use Rattle.hk_store.specs.TableLists.{AreTables, HasTable, NoneBetween};

use crate::facts::Facts;
use hk_types::{Key, Table};
use std::alloc::{AllocError, Global};

/// Whether there are as many as there may be, where that is a number.
fn is_enough(count: usize, most: Option<u64>) -> bool
    ensures { result ≡ true → most ≢ None }
{
    match most {
        Some(most) => count as u64 >= most,
        None => false,
    }
}

impl Facts {
    /// The first table from this one on of which a row or an end is known. It takes no memory. Cost: O(log n), n facts.
    fn table_from(&self, first: Table) -> Option<Table>
        ensures some { IfSome result (λ table. HasTable self.now table) }
        ensures later { IfSome result (λ table. first ≤ table) }
        ensures least { IfSome result (λ table. NoneBetween self.now first table) }
        ensures none { IfNone result ((v : VersionKey) → has_fact self.now v ≡ true → v.table < first) }
    {
        let mut walk = self.chains.walk_from(first, Key::new(0));
        match walk.next() {
            Some((version, _known)) => Some(version.table),
            None => None,
        }
    }

    /// The tables of which a row or an end is known, by rising number; `None` where they are more than `most`, if that is a
    /// number. The only error is out of memory. Cost: O(t · log n), t tables returned, n facts.
    pub fn tables(&self, alloc: Global, most: Option<u64>) -> Result<Option<Vec<Table>>, AllocError>
        ensures ok { IfOk result (λ found. IfSome found (λ tables. AreTables self.now tables.items)) }
        ensures gives_up { IfOk result (λ found. IfNone found (most ≢ None)) }
    {
        let mut tables = Vec::new(alloc);
        let mut next = self.table_from(Table::new(0));
        while let Some(table) = next {
            if is_enough(tables.len(), most) {
                return Ok(None);
            }
            tables.push(table)?;
            next = match table.number().checked_add(1) {
                Some(number) => self.table_from(Table::new(number)),
                None => None,
            };
        }
        Ok(Some(tables))
    }
}
