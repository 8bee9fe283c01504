//! The versions one after the other, in the order of their keys.

ghost use Rattle.std.specs.Option.{option_map};
ghost use Rattle.std.specs.Ordering.{is_le};
ghost use Rattle.std.specs.Iterator.{YieldsFirstBy, item_count};
ghost use Rattle.hk_model.specs.History.Rows.{version_key_cmp};
ghost use Rattle.hk_chains.specs.Versions.{AreVersions, AreVersionsOf, NextOf, borrowed};

use crate::ahead::Ahead;
use crate::chains::Chains;
use hk_facts::Chain;
use hk_index::RowKey;
use hk_log::Version;
use hk_slots::Range;
use hk_types::{Key, Table, Time, VersionKey};
use std::marker::Model;
use std::ops::Bound;

/// A walk over versions, in the order of table, key and born, which keeps its position: each comes once, with what is
/// known of it. It takes no memory. Cost: O(n + m · log k), n versions, m of them not the first of their row, k versions
/// of a row at most.
#[derive(Drop)]
pub struct Walk<'a> {
    /// The row that it is at.
    here: Option<(&'a RowKey, &'a Chain)>,
    /// The birth of the version of that row that came last.
    after: Option<Time>,
    /// The rows to come.
    rows: Range<'a, RowKey, Chain>,
    /// What touches them before.
    ahead: Ahead<'a>,
}

impl<'a> Model for Walk<'a> {
    ghost use Rattle.std.specs.Prelude.{List};
    ghost use Rattle.hk_types.specs.declared.version_key.VersionKey.{VersionKey};
    ghost use Rattle.hk_log.specs.Versions.{VersionValue};
    ghost use Rattle.hk_chains.specs.Versions.{left_of_walk};

    ghost Value = { List (VersionKey × VersionValue) };

    ghost view = { λ a. left_of_walk a.here a.after a.rows };
}

impl<'a> Iterator for Walk<'a> {
    type Item = (VersionKey, &'a Version);

    ghost next_gives = { YieldsFirstBy borrowed (λ s. s) };

    ghost remaining = { item_count (λ s. s) };

    fn next(&mut self) -> Option<(VersionKey, &'a Version)> {
        while let Some((row, chain)) = self.here {
            let found = next_of(row, chain, self.after);
            if let Some((version, _known)) = &found {
                self.after = Some(version.born);
                return found;
            }
            self.here = self.rows.next();
            self.after = None;
            self.ahead.step();
        }
        None
    }
}

impl Chains {
    /// A walk over all versions of which anything is known, which looks ahead where there are many.
    /// It takes no memory.
    /// Cost: O(log k), k keys of all tables.
    pub fn walk(&self) -> Walk<'_>
        ensures { AreVersions self.now result }
    {
        let mut walk = self.walk_from(Table::new(0), Key::new(0));
        walk.ahead = Ahead::over(&self.chains);
        walk
    }

    /// A walk over the versions of which anything is known from a key of a table on. It takes no memory.
    /// Cost: O(log k), k keys of all tables.
    pub fn walk_from(&self, table: Table, key: Key) -> Walk<'_>
        ensures { AreVersionsOf self.now
            (λ q. is_le (version_key_cmp (record { table = table; key = key; born = 0 }) q)) result }
    {
        let start = Bound::Included(RowKey::new(table, key));
        let mut rows = self.chains.range((start, Bound::Unbounded));
        Walk {
            here: rows.next(),
            after: None,
            rows,
            ahead: Ahead::nowhere(),
        }
    }
}

/// The version of a row's chain that was born first, or next after a time.
pub(crate) fn next_of<'a>(
    row: &RowKey,
    chain: &'a Chain,
    after: Option<Time>,
) -> Option<(VersionKey, &'a Version)>
    ensures { NextOf row.now chain.now after (option_map borrowed result) }
{
    match chain.next(after) {
        Some((born, known)) => Some((
            VersionKey {
                table: row.table,
                key: row.key,
                born,
            },
            known,
        )),
        None => None,
    }
}
