//! Rows in JSON.

ghost use Rattle.std.specs.Prelude.{◌≡◌, ◌++◌, OnOk};
ghost use Rattle.std.specs.Option.{option_copied};
ghost use Rattle.std.specs.String.{string_bytes};
ghost use Rattle.hk_cli_json.specs.Answers.{maybe_row};
ghost use Rattle.hk_cli_json.specs.Items.{row_end};

use hk_types::Row;
use std::alloc::{AllocError, Global};

/// Adds the tag and the body of a row, and the end of the object that they are the last fields of.
pub(crate) fn put_row(alloc: Global, row: &Row, out: &mut String) -> Result<(), AllocError>
    ensures { OnOk result (string_bytes out.new ≡ string_bytes out.old ++ row_end row.now) }
{
    let tag = row.tag();
    let body = hex::encode(alloc, row.body())?;
    write!(out, "\"tag\":{tag},\"body\":\"{body}\"}}")
}

/// Adds a row as an object, or `null` where there is none.
pub(crate) fn put_maybe_row(
    alloc: Global,
    row: Option<&Row>,
    out: &mut String,
) -> Result<(), AllocError>
    ensures { OnOk result (string_bytes out.new ≡ string_bytes out.old ++ maybe_row (option_copied row.entry)) }
{
    match row {
        Some(row) => {
            out.push('{')?;
            put_row(alloc, row, out)
        }
        None => out.push_str("null"),
    }
}
