//! Pages of rows: what a caller bounds by a number of rows.

ghost use Rattle.std.specs.Prelude.{◌≡◌, ◌++◌, Ok, IfOk, IfErr, OnErr};
ghost use Rattle.hk_model.specs.declared.query.Query.TheVariants.{ByTag};
ghost use Rattle.hk_model.specs.Replica.Pages.{page_seen};
ghost use Rattle.hk_query.specs.Pages.{last_key, last_key_after};
ghost use Rattle.hk_handle.specs.Pages.{IsPage, KeepsPage, TellsPage, first_rows, ranged_page, rows_from, tagged_page};

use crate::found::Paged;
use crate::listing::put_all;
use crate::replica::Replica;
use hk_model::{Page, PageQuery, Query};
use hk_query::page;
use hk_types::{Key, Refusal, Row, Table, Tag, Time};
use std::alloc::{AllocError, Global};

/// Drops the rows whose keys are below one.
fn keep_from(rows: &mut Vec<(Key, Row)>, low: Key)
    ensures { rows.new.items ≡ rows_from low rows.old.items }
{
    rows.retain(|entry| low <= entry.0);
}

/// At most so many of these rows, from the first on, and whether others follow.
fn first_of(mut rows: Vec<(Key, Row)>, most: u32) -> Page
    ensures { page_seen result ≡ first_rows most rows.items }
{
    let most = most as usize;
    let more = most < rows.len();
    rows.truncate(most);
    Page { rows, more }
}

/// The key of the last of these rows, or 0.
fn last_of(rows: &[(Key, Row)]) -> u64
    ensures { result ≡ last_key_after 0 rows.now }
{
    match rows.last() {
        None => 0,
        Some(entry) => entry.0.number(),
    }
}

impl Replica {
    /// The first page of the rows of a table from a low key to a high one, at a time.
    pub fn page_of_range(
        &self,
        alloc: Global,
        time: u64,
        table: Table,
        low: Key,
        high: Key,
        most: u32,
    ) -> Result<Page, Refusal>
        ensures { IsPage (ranged_page self.now.host.content time table low high most) result }
    {
        let time = Time::new(time)?;
        let of = PageQuery {
            time,
            table,
            low,
            high,
            most,
        };
        page(alloc, self.host.state(), of)
    }

    /// The first rows of a table with a tag, from a key on, at a time.
    pub fn page_of_tag(
        &self,
        alloc: Global,
        time: u64,
        table: Table,
        tag: Tag,
        low: Key,
        most: u32,
    ) -> Result<Page, Refusal>
        ensures { IsPage (tagged_page self.now.host.content time table tag low most) result }
    {
        let mut rows = self.rows(alloc, time, &Query::ByTag { table, tag })?;
        keep_from(&mut rows, low);
        Ok(first_of(rows, most))
    }

    /// Keeps the text of the rows of a page, and reports what there is of it.
    pub(crate) fn keep_page(&mut self, alloc: Global, page: &Page) -> Result<Paged, AllocError>
        ensures kept { IfOk result (λ _. KeepsPage self.old self.new (page_seen page.now)) }
        ensures told { IfOk result (λ told. TellsPage told (page_seen page.now)) }
        ensures unchanged { OnErr result (self.new ≡ self.old) }
    {
        let mut text = Vec::new(alloc);
        put_all(&mut text, &page.rows)?;
        let told = Paged {
            more: page.more,
            rows: page.rows.len(),
            last: last_of(&page.rows),
            len: text.len(),
        };
        self.keep(text);
        Ok(told)
    }
}
