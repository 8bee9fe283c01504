//! The keys that are found by tag.

ghost use Rattle.std.specs.Prelude.{◌≡◌, ◌==◌, ◌&&◌, ◌++◌, IfOk, IfErr, OnOk};
ghost use Rattle.std.specs.Option.{option_copied};
ghost use Rattle.hk_types.specs.declared.faults.Refusal.TheVariants.{Memory};
ghost use Rattle.hk_model.specs.Replica.Answers.{visible, rows_where};
ghost use Rattle.hk_chains.specs.Indexed.{rows_of_keys, tagged_row};
ghost use Rattle.hk_chains.specs.Reads.{keyed_if, with_facts, rows_with_tag};

use crate::facts::Facts;
use hk_types::{Key, Refusal, Row, Table, Tag, Time};
use std::alloc::{AllocError, Global};

impl Facts {
    /// Copies of the rows of a table with a tag that are visible at a time, by rising key. The only refusal is `Memory`.
    /// Cost: O(k · log n + b), k keys that have or had a row with the tag, n facts, b bytes of the bodies that are copied.
    pub fn rows_tagged(
        &self,
        alloc: Global,
        table: Table,
        tag: Tag,
        time: Time,
    ) -> Result<Vec<(Key, Row)>, Refusal>
        ensures ok { IfOk result (λ rows. rows.items ≡ rows_with_tag self.now time table tag) }
        ensures err { IfErr result (λ why. why ≡ Memory) }
    {
        let keys = self.tags.keys(alloc, table, tag)?;
        let rows = self.rows_of_keys(alloc, &keys, table, tag, time)?;
        Ok(rows)
    }

    fn rows_of_keys(
        &self,
        alloc: Global,
        keys: &[Key],
        table: Table,
        tag: Tag,
        time: Time,
    ) -> Result<Vec<(Key, Row)>, AllocError>
        ensures { IfOk result (λ rows. rows.items ≡ rows_of_keys (visible (with_facts self.now) time) table tag keys.now) }
    {
        let mut rows = Vec::new(alloc);
        for key in keys {
            push_if(
                alloc,
                &mut rows,
                *key,
                self.row_tagged(table, *key, tag, time),
            )?;
        }
        Ok(rows)
    }

    /// The row at a key of a table at a time, where it has a tag.
    fn row_tagged(&self, table: Table, key: Key, tag: Tag, time: Time) -> Option<&Row>
        ensures { option_copied result ≡ tagged_row (visible (with_facts self.now) time) table tag key }
    {
        match self.shown_at(table, key, time) {
            Some(row) if row.tag() == tag => Some(row),
            _ => None,
        }
    }
}

/// Adds a copy of a row with its key, where there is one.
fn push_if(
    alloc: Global,
    rows: &mut Vec<(Key, Row)>,
    key: Key,
    row: Option<&Row>,
) -> Result<(), AllocError>
    ensures { OnOk result (rows.new.items ≡ rows.old.items ++ keyed_if key (option_copied row.entry)) }
{
    if let Some(row) = row {
        rows.push((key, row.copy(alloc)?))?;
    }
    Ok(())
}
