//! Items in JSON.

ghost use Rattle.std.specs.Prelude.{◌≡◌, ◌++◌, Some, OnOk};
ghost use Rattle.std.specs.String.{string_bytes};
ghost use Rattle.hk_cli_json.specs.Items as spec;

use crate::line::{InJson, put_comma};
use crate::row::put_row;
use hk_log::{Entry, Item, Mark};
use hk_types::{Key, Row, Table, VersionKey};
use std::alloc::{AllocError, Global};

/// Adds a version that an entry ends.
fn put_end(end: &VersionKey, out: &mut String) -> Result<(), AllocError>
    ensures { OnOk result (string_bytes out.new ≡ string_bytes out.old ++ spec.end_text end.now) }
{
    let table = end.table;
    let key = end.key;
    let born = end.born;
    write!(
        out,
        "{{\"table\":{table},\"key\":\"{key}\",\"born\":\"{born}\"}}"
    )
}

/// Adds a row that an entry puts in.
fn put_placed(
    alloc: Global,
    table: Table,
    key: Key,
    row: &Row,
    out: &mut String,
) -> Result<(), AllocError>
    ensures { OnOk result (string_bytes out.new ≡ string_bytes out.old ++ spec.placed_text (table, key, row.now)) }
{
    write!(out, "{{\"table\":{table},\"key\":\"{key}\",")?;
    put_row(alloc, row, out)
}

fn put_ends(ends: &[VersionKey], out: &mut String) -> Result<(), AllocError>
    ensures { OnOk result (string_bytes out.new ≡ string_bytes out.old ++ spec.entry_ends ends.now) }
{
    out.push_str(",\"ends\":[")?;
    for (index, end) in ends.iter().enumerate() {
        put_comma(index, out)?;
        put_end(end, out)?;
    }
    Ok(())
}

fn put_rows(alloc: Global, rows: &[(Table, Key, Row)], out: &mut String) -> Result<(), AllocError>
    ensures { OnOk result (string_bytes out.new ≡ string_bytes out.old ++ spec.entry_rows rows.now) }
{
    out.push_str("],\"rows\":[")?;
    for (index, (table, key, row)) in rows.iter().enumerate() {
        put_comma(index, out)?;
        put_placed(alloc, *table, *key, row, out)?;
    }
    out.push_str("]}}\n")
}

/// Adds which entry it is.
fn put_place(entry: &Entry, out: &mut String) -> Result<(), AllocError>
    ensures { OnOk result (string_bytes out.new ≡ string_bytes out.old ++ spec.entry_head entry.now) }
{
    let log = entry.log();
    let stream = entry.stream();
    let number = entry.number();
    let time = entry.time();
    write!(
        out,
        "{{\"commit\":{{\"log\":\"{log}\",\"stream\":{stream},\"number\":\"{number}\",\"time\":\"{time}\""
    )
}

#[tactic(auto, using(std::proofs::Common::append_assoc))]
fn put_entry(alloc: Global, entry: &Entry, out: &mut String) -> Result<(), AllocError>
    ensures { OnOk result (string_bytes out.new ≡ string_bytes out.old ++ spec.entry_line entry.now) }
{
    put_place(entry, out)?;
    put_ends(entry.ends(), out)?;
    put_rows(alloc, entry.rows(), out)
}

fn put_mark(mark: &Mark, out: &mut String) -> Result<(), AllocError>
    ensures { OnOk result (string_bytes out.new ≡ string_bytes out.old ++ spec.mark_line mark.now) }
{
    let log = mark.log();
    let stream = mark.stream();
    let n = mark.n();
    let m = mark.m();
    writeln!(
        out,
        "{{\"mark\":{{\"log\":\"{log}\",\"stream\":{stream},\"n\":\"{n}\",\"m\":\"{m}\"}}}}"
    )
}

impl InJson for Item {
    ghost json = { λ item. Some (spec.item_line item) };

    fn json_to(&self, alloc: Global, out: &mut String) -> Result<(), AllocError> {
        match self {
            Item::Commit(entry) => put_entry(alloc, entry, out),
            Item::Closed(mark) => put_mark(mark, out),
        }
    }
}
