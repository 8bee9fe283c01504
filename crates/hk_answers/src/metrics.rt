//! Metrics of a node, and lists of tables.

ghost use Rattle.std.specs.Prelude.{◌≡◌, ◌≤◌, ◌<◌, ◌*◌, ◌^◌, ◌+◌, ◌++◌, None, true, All, length, take, OnOk, OnErr};
ghost use Rattle.std.specs.List.{flat_map};
ghost use Rattle.hk_frames.specs.Fields.{GivesValue, GivesOrRunsOut};
ghost use Rattle.hk_answers.specs.Metrics as spec;

use crate::field_len::{number_len, table_len};
use hk_frames::{Cursor, ReadError, put_u16, put_u32, put_u64};
use hk_types::{FormFault, Table};
use std::alloc::{AllocError, Global};

/// One number of a node. Who doesn't know its name skips it.
#[derive(Clone, Copy, Debug, PartialEq, Eq)]
pub struct Metric {
    /// What is counted: a constant of `metric_names`.
    pub name: u16,
    /// Of which door, budget, kind or refusal, and 0 where there is one alone.
    pub label: u16,
    pub value: u64,
}

/// The bytes of a metric.
const METRIC_BYTES: usize = 12;

/// The bytes of a table.
const TABLE_BYTES: usize = 2;

// ---- reading

/// Whether a name and label come after the ones before them, where there are some.
fn metric_follows(before: Option<(u16, u16)>, name: u16, label: u16) -> bool
    ensures { result ≡ spec.metric_follows before (name, label) }
{
    match before {
        None => true,
        Some((last, of)) => last < name || (last == name && of < label),
    }
}

/// Reads a name and label after the ones before them.
#[tactic(auto, unfolding(crate::specs::Metrics::name_at))]
fn read_name(cursor: &mut Cursor, before: Option<(u16, u16)>) -> Result<(u16, u16), FormFault>
    ensures { GivesValue (λ x. (x, cursor.new)) result (spec.name_at before cursor.old) }
{
    let name = cursor.u16()?;
    let label = cursor.u16()?;
    if !metric_follows(before, name, label) {
        return Err(FormFault::BadOrder);
    }
    Ok((name, label))
}

/// Reads a metric after the one before it.
#[tactic(auto, unfolding(crate::specs::Metrics::metric_at))]
fn read_metric(cursor: &mut Cursor, before: Option<(u16, u16)>) -> Result<Metric, ReadError>
    ensures { GivesOrRunsOut (λ x. (x, cursor.new)) result (spec.metric_at before cursor.old) }
{
    let (name, label) = read_name(cursor, before)?;
    let value = cursor.u64()?;
    Ok(Metric { name, label, value })
}

/// Reads so many metrics. No more is reserved for them than the bytes that are left can encode.
fn read_many(alloc: Global, cursor: &mut Cursor, count: u32) -> Result<Vec<Metric>, ReadError>
    ensures { GivesOrRunsOut (λ x. (x.items, cursor.new)) result (spec.metric_list_at count None cursor.old) }
{
    let room = (count as usize).min(cursor.len() / METRIC_BYTES);
    let mut metrics = Vec::with_capacity(alloc, room)?;
    let mut before = None;
    for _ in 0..count {
        let metric = read_metric(cursor, before)?;
        before = Some((metric.name, metric.label));
        metrics.push(metric)?;
    }
    Ok(metrics)
}

/// Reads the metrics behind their count. One that isn't above the one before it is `BadOrder`.
#[tactic(auto, unfolding(crate::specs::Metrics::metrics_at))]
pub fn read_metrics(alloc: Global, cursor: &mut Cursor) -> Result<Vec<Metric>, ReadError>
    ensures { GivesOrRunsOut (λ x. (x.items, cursor.new)) result (spec.metrics_at cursor.old) }
{
    let count = cursor.u32()?;
    read_many(alloc, cursor, count)
}

/// Whether a table comes after the one before it, where there is one.
fn table_follows(before: Option<Table>, table: Table) -> bool
    ensures { result ≡ spec.table_follows before table }
{
    match before {
        None => true,
        Some(last) => last.number() < table.number(),
    }
}

/// Reads a table after the one before it.
#[tactic(auto, unfolding(crate::specs::Metrics::table_at))]
fn read_table(cursor: &mut Cursor, before: Option<Table>) -> Result<Table, ReadError>
    ensures { GivesOrRunsOut (λ x. (x, cursor.new)) result (spec.table_at before cursor.old) }
{
    let table = Table::new(cursor.u16()?);
    if !table_follows(before, table) {
        return Err(ReadError::Fault(FormFault::BadOrder));
    }
    Ok(table)
}

/// Reads so many tables. No more is reserved for them than the bytes that are left can encode.
fn read_many_tables(alloc: Global, cursor: &mut Cursor, count: u32) -> Result<Vec<Table>, ReadError>
    ensures { GivesOrRunsOut (λ x. (x.items, cursor.new)) result (spec.table_list_at count None cursor.old) }
{
    let room = (count as usize).min(cursor.len() / TABLE_BYTES);
    let mut tables = Vec::with_capacity(alloc, room)?;
    let mut before = None;
    for _ in 0..count {
        let table = read_table(cursor, before)?;
        before = Some(table);
        tables.push(table)?;
    }
    Ok(tables)
}

/// Reads the tables behind their count. One that isn't above the one before it is `BadOrder`.
#[tactic(auto, unfolding(crate::specs::Metrics::tables_at))]
pub fn read_tables(alloc: Global, cursor: &mut Cursor) -> Result<Vec<Table>, ReadError>
    ensures { GivesOrRunsOut (λ x. (x.items, cursor.new)) result (spec.tables_at cursor.old) }
{
    let count = cursor.u32()?;
    read_many_tables(alloc, cursor, count)
}

// ---- rules and lengths

/// Whether the metrics rise strictly by name and label.
fn metrics_rise(metrics: &[Metric]) -> bool
    ensures { result ≡ spec.metrics_rise None metrics.now }
{
    let mut before = None;
    for metric in metrics {
        if !metric_follows(before, metric.name, metric.label) {
            return false;
        }
        before = Some((metric.name, metric.label));
    }
    true
}

/// Whether metrics keep their rules: they can be counted, and rise strictly by name and label.
pub fn keeps_metrics_rules(metrics: &[Metric]) -> bool
    ensures { result ≡ spec.metrics_keep_rules metrics.now }
{
    metrics.len() < 4_294_967_296 && metrics_rise(metrics)
}

/// Whether the tables rise strictly.
fn tables_rise(tables: &[Table]) -> bool
    ensures { result ≡ spec.tables_rise None tables.now }
{
    let mut before = None;
    for table in tables {
        if !table_follows(before, *table) {
            return false;
        }
        before = Some(*table);
    }
    true
}

/// Whether tables keep their rules: they can be counted, and rise strictly.
pub fn keeps_tables_rules(tables: &[Table]) -> bool
    ensures { result ≡ spec.tables_keep_rules tables.now }
{
    tables.len() < 4_294_967_296 && tables_rise(tables)
}

/// How many bytes a number of 16 bits has.
fn short_len(number: u16) -> u64
    ensures len { result ≡ 2 }
    ensures fits { number < 2 ^ 16 }
{
    let _in_range = number;
    2
}

/// How many bytes a metric has.
#[tactic(auto, using(crate::proofs::MetricLengths::metric_text_len))]
fn metric_len(metric: Metric) -> u64
    ensures len { result ≡ length (spec.metric_text metric) }
    ensures bound { result ≤ 12 }
    ensures fits { spec.MetricFits metric }
{
    short_len(metric.name) + short_len(metric.label) + number_len(metric.value)
}

/// How many bytes the metrics have, without their count.
fn many_len(metrics: &[Metric]) -> u64
    requires { length metrics.now < 2 ^ 32 }
    ensures len { result ≡ length (flat_map spec.metric_text metrics.now) }
    ensures bound { result ≤ 12 * length metrics.now }
    ensures fits { All spec.MetricFits metrics.now }
{
    let mut total = 0;
    for metric in metrics {
        total += metric_len(*metric);
    }
    total
}

/// How many bytes metrics that keep their rules have.
#[tactic(auto, using(crate::proofs::MetricLengths::metrics_text_len))]
pub fn metrics_len(metrics: &[Metric]) -> u64
    requires { spec.metrics_keep_rules metrics.now ≡ true }
    ensures len { result ≡ length (spec.metrics_text metrics.now) }
    ensures bound { result ≤ 2 ^ 40 }
    ensures fits { spec.MetricsFit metrics.now }
{
    4 + many_len(metrics)
}

/// How many bytes the tables have, without their count.
#[tactic(auto, using(crate::proofs::MetricLengths::table_text_len))]
fn many_tables_len(tables: &[Table]) -> u64
    requires { length tables.now < 2 ^ 32 }
    ensures len { result ≡ length (flat_map spec.table_text tables.now) }
    ensures bound { result ≤ 2 * length tables.now }
    ensures fits { All spec.TableFits tables.now }
{
    let mut total = 0;
    for table in tables {
        total += table_len(*table);
    }
    total
}

/// How many bytes tables that keep their rules have.
#[tactic(auto, using(crate::proofs::MetricLengths::tables_text_len))]
pub fn tables_len(tables: &[Table]) -> u64
    requires { spec.tables_keep_rules tables.now ≡ true }
    ensures len { result ≡ length (spec.tables_text tables.now) }
    ensures bound { result ≤ 2 ^ 40 }
    ensures fits { spec.TablesFit tables.now }
{
    4 + many_tables_len(tables)
}

// ---- writing

/// Adds a metric.
#[tactic(auto, using(hk_frames::proofs::Put::all), unfolding(crate::specs::Metrics::metric_text))]
fn put_metric(out: &mut Vec<u8>, metric: Metric) -> Result<(), AllocError>
    ensures ok { OnOk result (out.new.items ≡ out.old.items ++ spec.metric_text metric) }
    ensures kept { OnErr result (take (length out.old.items) out.new.items ≡ out.old.items) }
{
    put_u16(out, metric.name)?;
    put_u16(out, metric.label)?;
    put_u64(out, metric.value)
}

/// Adds metrics behind their count.
#[tactic(auto, using(hk_frames::proofs::Put::all))]
pub fn put_metrics(out: &mut Vec<u8>, metrics: &[Metric]) -> Result<(), AllocError>
    requires { spec.metrics_keep_rules metrics.now ≡ true }
    ensures ok { OnOk result (out.new.items ≡ out.old.items ++ spec.metrics_text metrics.now) }
    ensures kept { OnErr result (take (length out.old.items) out.new.items ≡ out.old.items) }
{
    put_u32(out, metrics.len() as u32)?;
    for metric in metrics {
        put_metric(out, *metric)?;
    }
    Ok(())
}

/// Adds tables behind their count.
#[tactic(auto, using(hk_frames::proofs::Put::all))]
pub fn put_tables(out: &mut Vec<u8>, tables: &[Table]) -> Result<(), AllocError>
    requires { spec.tables_keep_rules tables.now ≡ true }
    ensures ok { OnOk result (out.new.items ≡ out.old.items ++ spec.tables_text tables.now) }
    ensures kept { OnErr result (take (length out.old.items) out.new.items ≡ out.old.items) }
{
    put_u32(out, tables.len() as u32)?;
    for table in tables {
        put_u16(out, table.number())?;
    }
    Ok(())
}
