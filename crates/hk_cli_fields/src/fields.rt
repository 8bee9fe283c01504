//! Single lines, and the fields of refusals.

ghost use Rattle.std.specs.Prelude.{◌≡◌, ◌++◌, OnOk};
ghost use Rattle.std.specs.String.{string_bytes};
ghost use Rattle.hk_cli_fields.specs.Lines as spec;
ghost use Rattle.hk_cli_fields.specs.Lines.{front_line};
ghost use Rattle.hk_cli_fields.specs.LaterReplies as later;
ghost use Rattle.hk_cli_fields.specs.Replies.{part_line};

use hk_codec::EntryOutline;
use hk_log::Mark;
use hk_model::Front;
use hk_types::{Refusal, Time};
use std::alloc::AllocError;

/// Adds the fields of a refusal, in their order. The only error is out of memory; then nothing is promised
/// of the text. Cost: O(n), n bytes of the lines.
pub fn put_fields(refusal: &Refusal, out: &mut String) -> Result<(), AllocError>
    ensures { OnOk result (string_bytes out.new ≡ string_bytes out.old ++ spec.fields_of refusal.now) }
{
    match refusal {
        Refusal::Gap { base, readable } => write!(out, " base {base} readable {readable}"),
        Refusal::AheadOfMark { readable } => write!(out, " readable {readable}"),
        Refusal::TooOld { horizon } => write!(out, " horizon {horizon}"),
        Refusal::NotYet { readable } => write!(out, " readable {readable}"),
        Refusal::WriteConflict { table, key, at } => {
            write!(out, " table {table} key {key} at {at}")
        }
        Refusal::NoRow { table, key } => write!(out, " table {table} key {key}"),
        Refusal::Retired { stream } => write!(out, " stream {stream}"),
        Refusal::Held { reader, at } => write!(out, " reader {reader} at {at}"),
        Refusal::Unpublished { ops } => write!(out, " ops {ops}"),
        Refusal::LinkFull { most } => write!(out, " most {most}"),
        _ => Ok(()),
    }
}

fn put_entry_place(entry: &EntryOutline, out: &mut String) -> Result<(), AllocError>
    ensures { OnOk result (string_bytes out.new ≡ string_bytes out.old ++ spec.entry_place entry.now) }
{
    let log = entry.log;
    let stream = entry.stream;
    let number = entry.number;
    let time = entry.time;
    write!(
        out,
        "commit log {log} stream {stream} number {number} time {time}"
    )
}

fn put_entry_counts(entry: &EntryOutline, out: &mut String) -> Result<(), AllocError>
    ensures { OnOk result (string_bytes out.new ≡ string_bytes out.old ++ spec.entry_counts entry.now) }
{
    let ends = entry.ends;
    let rows = entry.rows;
    writeln!(out, " ends {ends} rows {rows}")
}

/// Adds the line of an entry's outline. The only error is out of memory; then nothing is promised
/// of the text. Cost: O(n), n bytes of the lines.
#[tactic(auto, using(std::proofs::Common::append_assoc))]
pub fn put_entry(entry: &EntryOutline, out: &mut String) -> Result<(), AllocError>
    ensures { OnOk result (string_bytes out.new ≡ string_bytes out.old ++ spec.entry_line entry.now) }
{
    put_entry_place(entry, out)?;
    put_entry_counts(entry, out)
}

/// Adds the line of a mark. The only error is out of memory; then nothing is promised
/// of the text. Cost: O(n), n bytes of the lines.
pub fn put_mark(mark: &Mark, out: &mut String) -> Result<(), AllocError>
    ensures { OnOk result (string_bytes out.new ≡ string_bytes out.old ++ spec.mark_line mark.now) }
{
    let log = mark.log();
    let stream = mark.stream();
    let n = mark.n();
    let m = mark.m();
    writeln!(out, "mark log {log} stream {stream} n {n} m {m}")
}

/// Adds the line of a mark that a primary emitted. The only error is out of memory; then nothing is promised
/// of the text. Cost: O(n), n bytes of the lines.
pub fn put_emitted(mark: &Mark, out: &mut String) -> Result<(), AllocError>
    ensures { OnOk result (string_bytes out.new ≡ string_bytes out.old ++ spec.emitted_line mark.now) }
{
    let stream = mark.stream();
    let n = mark.n();
    let m = mark.m();
    writeln!(out, "mark stream {stream} n {n} m {m}")
}

/// Adds the line of a front. The only error is out of memory; then nothing is promised
/// of the text. Cost: O(n), n bytes of the lines.
pub fn put_front(front: Front, out: &mut String) -> Result<(), AllocError>
    ensures { OnOk result
        (string_bytes out.new ≡ string_bytes out.old ++ front_line front.horizon front.readable) }
{
    let horizon = front.horizon;
    let readable = front.readable;
    writeln!(out, "front horizon {horizon} readable {readable}")
}

/// Adds the line of a fragment: where it begins, its horizon, and how many versions it has facts of. The only error is out of memory; then nothing is promised
/// of the text. Cost: O(n), n bytes of the lines.
pub fn put_part(base: Time, horizon: Time, facts: usize, out: &mut String) -> Result<(), AllocError>
    ensures { OnOk result (string_bytes out.new ≡ string_bytes out.old ++ part_line base horizon facts) }
{
    writeln!(out, "fragment base {base} horizon {horizon} facts {facts}")
}

/// Adds the line of a pin that was made. The only error is out of memory; then nothing is promised
/// of the text. Cost: O(n), n bytes of the lines.
pub fn put_held(number: u64, t: Time, out: &mut String) -> Result<(), AllocError>
    ensures { OnOk result (string_bytes out.new ≡ string_bytes out.old ++ later.held_line number t) }
{
    writeln!(out, "held {number} at {t}")
}

/// Adds the line of items that were taken. The only error is out of memory; then nothing is promised
/// of the text. Cost: O(n), n bytes of the lines.
pub fn put_fed(ops: u64, new: u64, out: &mut String) -> Result<(), AllocError>
    ensures { OnOk result (string_bytes out.new ≡ string_bytes out.old ++ later.fed_line ops new) }
{
    writeln!(out, "fed {ops} new {new}")
}

/// Adds the line of a time that is readable. The only error is out of memory; then nothing is promised
/// of the text. Cost: O(n), n bytes of the lines.
pub fn put_ready(horizon: Time, readable: Time, out: &mut String) -> Result<(), AllocError>
    ensures { OnOk result (string_bytes out.new ≡ string_bytes out.old ++ later.ready_line horizon readable) }
{
    writeln!(out, "ready horizon {horizon} readable {readable}")
}
