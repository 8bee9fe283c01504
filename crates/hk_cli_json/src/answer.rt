//! Answers and fronts in JSON.

ghost use Rattle.std.specs.Prelude.{◌≡◌, ◌++◌, Some, OnOk};
ghost use Rattle.std.specs.Option.{option_copied};
ghost use Rattle.std.specs.String.{string_bytes};
ghost use Rattle.hk_model.specs.Replica.Answers.{answer_seen};
ghost use Rattle.hk_model.specs.Replica.Answers.AnswerValue.{Rows, Number};
ghost use Rattle.hk_cli_json.specs.Answers as spec;

use crate::line::{InJson, put_comma};
use crate::row::{put_maybe_row, put_row};
use hk_model::{Answer, Front};
use hk_types::{Key, Row};
use std::alloc::{AllocError, Global};

fn put_one(alloc: Global, row: Option<&Row>, out: &mut String) -> Result<(), AllocError>
    ensures { OnOk result (string_bytes out.new ≡ string_bytes out.old ++ spec.one_line (option_copied row.entry)) }
{
    out.push_str("{\"row\":")?;
    put_maybe_row(alloc, row, out)?;
    out.push_str("}\n")
}

fn put_keyed(alloc: Global, key: Key, row: &Row, out: &mut String) -> Result<(), AllocError>
    ensures { OnOk result (string_bytes out.new ≡ string_bytes out.old ++ spec.keyed_text (key, row.now)) }
{
    write!(out, "{{\"key\":\"{key}\",")?;
    put_row(alloc, row, out)
}

fn put_rows(alloc: Global, rows: &[(Key, Row)], out: &mut String) -> Result<(), AllocError>
    ensures { OnOk result (string_bytes out.new ≡ string_bytes out.old ++ spec.answer_line (Rows rows.now)) }
{
    out.push_str("{\"rows\":[")?;
    for (index, (key, row)) in rows.iter().enumerate() {
        put_comma(index, out)?;
        put_keyed(alloc, *key, row, out)?;
    }
    out.push_str("]}\n")
}

fn put_count(count: u64, out: &mut String) -> Result<(), AllocError>
    ensures { OnOk result (string_bytes out.new ≡ string_bytes out.old ++ spec.answer_line (Number count)) }
{
    writeln!(out, "{{\"count\":\"{count}\"}}")
}

impl InJson for Answer {
    ghost json = { λ answer. Some (spec.answer_line (answer_seen answer)) };

    fn json_to(&self, alloc: Global, out: &mut String) -> Result<(), AllocError> {
        match self {
            Answer::One(row) => put_one(alloc, row.as_ref(), out),
            Answer::Rows(rows) => put_rows(alloc, rows, out),
            Answer::Number(number) => put_count(*number, out),
        }
    }
}

impl InJson for Front {
    ghost json = { λ front. Some (spec.front_line front.horizon front.readable) };

    fn json_to(&self, _alloc: Global, out: &mut String) -> Result<(), AllocError> {
        let horizon = self.horizon;
        let readable = self.readable;
        writeln!(
            out,
            "{{\"front\":{{\"horizon\":\"{horizon}\",\"readable\":\"{readable}\"}}}}"
        )
    }
}
