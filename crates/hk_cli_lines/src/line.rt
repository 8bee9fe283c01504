//! The lines that are printed.

ghost use Rattle.std.specs.Prelude.{◌≡◌, ◌++◌, ℕ, List, IfOk, OnOk, OnErr};
ghost use Rattle.std.specs.List.{flat_map};
ghost use Rattle.std.specs.String.{string_bytes};
ghost use Rattle.hk_model.specs.Replica.Answers.{answer_seen};
ghost use Rattle.hk_model.specs.World.Events.{told_seen};
ghost use Rattle.hk_cli_fields.specs.Lines as spec;

use hk_cli_fields::{put_emitted, put_entry, put_fields, put_front, put_mark};
use hk_codec::{ItemOutline, outline_of};
use hk_log::Item;
use hk_model::{Answer, Told, Took};
use hk_types::{Key, Refusal, Row};
use std::alloc::{AllocError, Global};

/// What has lines of its own in the program's output: answers, refusals, items, replies, and what the events of a world
/// return. Numbers are decimal; a body is lower-case hexadecimal, or `-` where it is empty. Each line ends with a line feed.
pub trait Printed {
    ghost text: { Self → List ℕ };

    /// Adds the lines at the end of the text. The only error is out of memory; then nothing is promised of the text, also not
    /// of what stood in it. It is what a type defines, and what `print_to` and `line_of` call. Cost: O(n), n bytes of the lines.
    fn put_lines(&self, alloc: Global, out: &mut String) -> Result<(), AllocError>
        ensures { OnOk result (string_bytes out.new ≡ string_bytes out.old ++ text self.now) };

    /// Adds the lines at the end of the text, all of them or none. The only error is out of memory; then the text is as it
    /// was. Cost: O(n), n bytes of the lines; they are copied where something stands in the text.
    final fn print_to(&self, alloc: Global, out: &mut String) -> Result<(), AllocError>
        ensures added { OnOk result (string_bytes out.new ≡ string_bytes out.old ++ text self.now) }
        ensures kept { OnErr result (string_bytes out.new ≡ string_bytes out.old) }
    {
        if !out.as_bytes().is_empty() {
            let mut lines = String::new(alloc);
            self.put_lines(alloc, &mut lines)?;
            return out.push_str(&lines);
        }
        let put = self.put_lines(alloc, out);
        if put.is_err() {
            out.clear();
        }
        put
    }
}

/// The lines of a value, each with its line feed. The only error is out of memory. Cost: O(n), n bytes of the lines.
pub fn line_of<T: Printed>(alloc: Global, value: &T) -> Result<String, AllocError>
    ensures { IfOk result (λ line. string_bytes line ≡ T.text value.now) }
{
    let mut line = String::new(alloc);
    value.put_lines(alloc, &mut line)?;
    Ok(line)
}

fn put_row(alloc: Global, row: &Row, out: &mut String) -> Result<(), AllocError>
    ensures { OnOk result (string_bytes out.new ≡ string_bytes out.old ++ spec.row_text row.now) }
{
    let tag = row.tag();
    let body = row.body();
    if body.is_empty() {
        return write!(out, "{tag} -");
    }
    let digits = hex::encode(alloc, body)?;
    write!(out, "{tag} {digits}")
}

#[tactic(auto, using(std::proofs::Common::append_assoc))]
pub(crate) fn put_rows(
    alloc: Global,
    rows: &[(Key, Row)],
    out: &mut String,
) -> Result<(), AllocError>
    ensures { OnOk result (string_bytes out.new ≡ string_bytes out.old ++ flat_map spec.keyed_line rows.now) }
{
    for (key, row) in rows {
        write!(out, "{key} ")?;
        put_row(alloc, row, out)?;
        out.push('\n')?;
    }
    Ok(())
}

impl Printed for Answer {
    ghost text = { λ answer. spec.answer_lines (answer_seen answer) };

    fn put_lines(&self, alloc: Global, out: &mut String) -> Result<(), AllocError> {
        match self {
            Answer::One(None) => writeln!(out, "none"),
            Answer::One(Some(row)) => {
                put_row(alloc, row, out)?;
                out.push('\n')
            }
            Answer::Rows(rows) => {
                put_rows(alloc, rows, out)?;
                let count = rows.len();
                writeln!(out, "rows {count}")
            }
            Answer::Number(number) => writeln!(out, "count {number}"),
        }
    }
}

impl Printed for Refusal {
    ghost text = { spec.refusal_line };

    fn put_lines(&self, _alloc: Global, out: &mut String) -> Result<(), AllocError> {
        let number = self.number();
        write!(out, "refused {number}")?;
        put_fields(self, out)?;
        out.push('\n')
    }
}

impl Printed for ItemOutline {
    ghost text = { spec.outline_line };

    fn put_lines(&self, _alloc: Global, out: &mut String) -> Result<(), AllocError> {
        match self {
            ItemOutline::Commit(entry) => put_entry(entry, out),
            ItemOutline::Closed(mark) => put_mark(mark, out),
        }
    }
}

impl Printed for Item {
    ghost text = { spec.item_line };

    fn put_lines(&self, alloc: Global, out: &mut String) -> Result<(), AllocError> {
        outline_of(self).put_lines(alloc, out)
    }
}

impl Printed for Told {
    ghost text = { λ outcome. spec.outcome_lines (told_seen outcome) };

    fn put_lines(&self, alloc: Global, out: &mut String) -> Result<(), AllocError> {
        match self {
            Told::Committed(None) => writeln!(out, "committed none"),
            Told::Committed(Some(time)) => writeln!(out, "committed {time}"),
            Told::Marked(mark) => put_emitted(mark, out),
            Told::Took(Took::Taken) => writeln!(out, "taken"),
            Told::Took(Took::Repeated) => writeln!(out, "repeated"),
            Told::Done => writeln!(out, "ok"),
            Told::Answered(answer) => answer.put_lines(alloc, out),
            Told::Fronted(front) => put_front(*front, out),
            Told::Refused(refusal) => refusal.put_lines(alloc, out),
        }
    }
}
