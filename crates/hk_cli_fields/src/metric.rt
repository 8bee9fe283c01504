//! The lines of a node's numbers, and of its tables.

ghost use Rattle.std.specs.Prelude.{◌≡◌, ◌++◌, OnOk};
ghost use Rattle.std.specs.String.{string_bytes};
ghost use Rattle.hk_cli_fields.specs.Metrics as spec;

use hk_answers::{Metric, metric_names as names};
use hk_types::Table;
use std::alloc::AllocError;

/// The word of a metric of what the node holds and did, and nothing for a name that has none.
fn word_of_content(name: u16) -> &'static str
    ensures { result.now ≡ spec.word_of_content name }
{
    match name {
        names::ROWS => "rows",
        names::ENDS => "ends",
        names::BODY_BYTES => "body_bytes",
        names::OPERATIONS => "operations",
        names::GUARDED => "guarded",
        names::FAILED => "failed",
        names::PINS => "pins",
        names::KEYS => "keys",
        _other => "",
    }
}

/// The same of its process and its budgets.
fn word_of_process(name: u16) -> &'static str
    ensures { result.now ≡ spec.word_of_process name }
{
    match name {
        names::SECONDS => "seconds",
        names::BUDGET => "budget",
        names::RESERVED => "reserved",
        names::MEMORY => "memory",
        names::PROGRAM => "program",
        names::MEMORY_LIMIT => "memory_limit",
        other => word_of_content(other),
    }
}

/// The word of a metric, and nothing for a name that has none. Cost: O(1).
pub fn metric_word(name: u16) -> &'static str
    ensures { result.now ≡ spec.metric_word name }
{
    match name {
        names::OPEN => "open",
        names::OPENED => "opened",
        names::MOST_OPEN => "most_open",
        names::BYTES_READ => "bytes_read",
        names::BYTES_WRITTEN => "bytes_written",
        names::REQUESTS => "requests",
        names::REFUSALS => "refusals",
        names::FAILED_ACCEPTS => "failed_accepts",
        other => word_of_process(other),
    }
}

/// Whether a metric's label stands in its line: not that of a name that has none.
fn shows_label(name: u16, label: u16) -> bool
    ensures { result ≡ spec.shows_label name label }
{
    match name {
        names::BUDGET | names::RESERVED | names::OPEN | names::OPENED | names::MOST_OPEN => true,
        names::REQUESTS | names::REFUSALS => true,
        other => label != 0 || metric_word(other).is_empty(),
    }
}

fn put_name(name: u16, out: &mut String) -> Result<(), AllocError>
    ensures { OnOk result (string_bytes out.new ≡ string_bytes out.old ++ spec.name_part name) }
{
    let word = metric_word(name);
    if word.is_empty() {
        return write!(out, "metric {name}");
    }
    out.push_str(word)
}

fn put_label(name: u16, label: u16, out: &mut String) -> Result<(), AllocError>
    ensures { OnOk result (string_bytes out.new ≡ string_bytes out.old ++ spec.label_part name label) }
{
    if shows_label(name, label) {
        return write!(out, " {label}");
    }
    Ok(())
}

#[tactic(auto, using(std::proofs::Common::append_assoc))]
fn put_metric(metric: &Metric, out: &mut String) -> Result<(), AllocError>
    ensures { OnOk result (string_bytes out.new ≡ string_bytes out.old ++ spec.metric_line metric.now) }
{
    let value = metric.value;
    put_name(metric.name, out)?;
    put_label(metric.name, metric.label, out)?;
    writeln!(out, " {value}")
}

/// Adds the lines of a node's numbers. The only error is out of memory; then nothing is promised
/// of the text. Cost: O(n), n bytes of the lines.
#[tactic(auto, using(std::proofs::Common::append_assoc))]
pub fn put_stats(metrics: &[Metric], out: &mut String) -> Result<(), AllocError>
    ensures { OnOk result (string_bytes out.new ≡ string_bytes out.old ++ spec.stats_lines metrics.now) }
{
    let count = metrics.len();
    writeln!(out, "stats {count}")?;
    for metric in metrics {
        put_metric(metric, out)?;
    }
    Ok(())
}

/// Adds the lines of a node's tables. The only error is out of memory; then nothing is promised
/// of the text. Cost: O(n), n bytes of the lines.
#[tactic(auto, using(std::proofs::Common::append_assoc))]
pub fn put_tables(tables: &[Table], out: &mut String) -> Result<(), AllocError>
    ensures { OnOk result (string_bytes out.new ≡ string_bytes out.old ++ spec.tables_lines tables.now) }
{
    let count = tables.len();
    writeln!(out, "tables {count}")?;
    for table in tables {
        let number = table.number();
        writeln!(out, "table {number}")?;
    }
    Ok(())
}
