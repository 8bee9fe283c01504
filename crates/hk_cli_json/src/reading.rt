//! Items from JSON.

ghost use Rattle.std.specs.Prelude.{◌≡◌, map, IfOk};
ghost use Rattle.hk_log.specs.declared.item.Item.TheVariants.{Commit, Closed};
ghost use Rattle.hk_cli_json.specs.Reading as spec;

use crate::field::{Body, Wide};
use crate::item_line::{EndLine, EntryLine, ItemLine, MarkLine, RowLine};
use hk_log::{Entry, Item, Mark};
use hk_types::{FormFault, Key, Row, Table, Tag, VersionKey};
use serde_json::Error;
use std::alloc::Global;

/// Why a line is no item.
#[derive(Clone, Copy, Drop)]
pub enum BadItem {
    /// Memory ran out.
    Memory,
    /// It is no JSON, or not that of an item: the error has the column, counted from 1.
    Text(Error),
    /// It is that of an item which breaks a rule of items.
    Rule(FormFault),
}

impl From<FormFault> for BadItem {
    fn from(fault: FormFault) -> BadItem {
        BadItem::Rule(fault)
    }
}

impl BadItem {
    /// The column at which the line is bad, counted from 1: that at which the reader stopped, or 1 where a rule of items is broken.
    pub fn column(&self) -> usize {
        match self {
            BadItem::Text(error) => error.column(),
            _other => 1,
        }
    }
}

fn table_of(number: u16) -> Table
    ensures { result ≡ number }
{
    Table::new(number)
}

fn key_of(number: Wide) -> Key
    ensures { result ≡ number.0 }
{
    Key::new(number.0)
}

fn row_of(alloc: Global, tag: u32, body: &Body) -> Result<Row, BadItem>
    ensures { IfOk result (λ row. row ≡ record { tag = tag; body = spec.body_of body.now }) }
{
    let Some(bytes) = body.bytes(alloc) else {
        return Err(BadItem::Memory);
    };
    match Row::new(Tag::new(tag), bytes) {
        Ok(row) => Ok(row),
        Err((_body, fault)) => Err(BadItem::Rule(fault)),
    }
}

fn ends_of(alloc: Global, lines: &[EndLine]) -> Result<Vec<VersionKey>, BadItem>
    ensures { IfOk result (λ ends. ends.items ≡ map spec.end_of lines.now) }
{
    let mut ends = Vec::new(alloc);
    for line in lines {
        let end = VersionKey {
            table: table_of(line.table),
            key: key_of(line.key),
            born: line.born.0,
        };
        ends.push(end).map_err(|_full| BadItem::Memory)?;
    }
    Ok(ends)
}

fn rows_of(alloc: Global, lines: &[RowLine]) -> Result<Vec<(Table, Key, Row)>, BadItem>
    ensures { IfOk result (λ rows. rows.items ≡ map spec.row_of lines.now) }
{
    let mut rows = Vec::new(alloc);
    for line in lines {
        let row = row_of(alloc, line.tag, &line.body)?;
        let placed = (table_of(line.table), key_of(line.key), row);
        rows.push(placed).map_err(|_full| BadItem::Memory)?;
    }
    Ok(rows)
}

fn entry_of(alloc: Global, line: &EntryLine) -> Result<Item, BadItem>
    ensures { IfOk result (λ item. item ≡ Commit (spec.entry_of line.now)) }
{
    let ends = ends_of(alloc, &line.ends)?;
    let rows = rows_of(alloc, &line.rows)?;
    let entry = Entry::new(
        line.log.0,
        line.stream.0,
        line.number.0,
        line.time.0,
        ends,
        rows,
    )?;
    Ok(Item::Commit(entry))
}

fn mark_of(line: &MarkLine) -> Result<Item, BadItem>
    ensures { IfOk result (λ item. item ≡ Closed (spec.mark_of line.now)) }
{
    let mark = Mark::new(line.log.0, line.stream.0, line.n.0, line.m.0)?;
    Ok(Item::Closed(mark))
}

/// The item of a line, which has no line feed. Cost: O(n), n bytes of the line.
pub fn item_of(alloc: Global, line: &str) -> Result<Item, BadItem> {
    match serde_json::from_str::<ItemLine>(alloc, line) {
        Ok(ItemLine::Commit(entry)) => entry_of(alloc, &entry),
        Ok(ItemLine::Mark(mark)) => mark_of(&mark),
        Err(error) if error.is_memory() => Err(BadItem::Memory),
        Err(error) => Err(BadItem::Text(error)),
    }
}
