//! Fragments in JSON: a line of its head, and one of each version.

ghost use Rattle.std.specs.Prelude.{◌≡◌, ◌≤◌, ◌++◌, length, Some, OnOk};
ghost use Rattle.std.specs.String.{string_bytes};
ghost use Rattle.hk_cli_json.specs.Fragments as spec;

use crate::line::{InJson, put_comma};
use crate::row::put_maybe_row;
use hk_fragment::Fragment;
use hk_log::Version;
use hk_marks::Got;
use hk_types::{StreamNo, Time, VersionKey};
use std::alloc::{AllocError, Global};

/// Adds up to which number all entries of a stream are applied.
fn put_prefix(prefix: u64, out: &mut String) -> Result<(), AllocError>
    ensures { OnOk result (string_bytes out.new ≡ string_bytes out.old ++ spec.prefix_part prefix) }
{
    write!(out, "{{\"prefix\":\"{prefix}\",\"extra\":[")
}

/// Adds the number of an entry that is applied above it.
fn put_number(index: usize, number: u64, out: &mut String) -> Result<(), AllocError> {
    put_comma(index, out)?;
    write!(out, "\"{number}\"")
}

fn put_extra(got: &Got, stream: StreamNo, out: &mut String) -> Result<(), AllocError>
    requires { stream ≤ length got.now }
{
    let mut index = 0;
    for number in got.extra_numbers(stream) {
        put_number(index, number, out)?;
        index = 1;
    }
    Ok(())
}

/// Adds up to when a stream is closed.
fn put_closed(closed: Time, out: &mut String) -> Result<(), AllocError>
    ensures { OnOk result (string_bytes out.new ≡ string_bytes out.old ++ spec.closed_part closed) }
{
    write!(out, "],\"closed\":\"{closed}\",\"waiting\":[")
}

/// Adds a mark that waits for entries.
fn put_mark(index: usize, n: u64, m: Time, out: &mut String) -> Result<(), AllocError>
    ensures { OnOk result (string_bytes out.new ≡ string_bytes out.old ++ spec.mark_part index n m) }
{
    put_comma(index, out)?;
    write!(out, "{{\"n\":\"{n}\",\"m\":\"{m}\"}}")
}

fn put_waiting(got: &Got, stream: StreamNo, out: &mut String) -> Result<(), AllocError>
    requires { stream ≤ length got.now }
{
    for (index, (n, m)) in got.waiting_marks(stream).enumerate() {
        put_mark(index, *n, *m, out)?;
    }
    out.push_str("]}")
}

fn put_stream(got: &Got, stream: StreamNo, out: &mut String) -> Result<(), AllocError>
    requires { stream ≤ length got.now }
{
    put_prefix(got.prefix(stream), out)?;
    put_extra(got, stream, out)?;
    put_closed(got.closed(stream), out)?;
    put_waiting(got, stream, out)
}

fn put_streams(got: &Got, out: &mut String) -> Result<(), AllocError> {
    for index in 0..got.streams() {
        if let Ok(stream) = StreamNo::new(index + 1) {
            put_comma(usize::from(index), out)?;
            put_stream(got, stream, out)?;
        }
    }
    Ok(())
}

/// The head of a fragment: its log, its times, and how far its streams are.
#[derive(Clone, Copy)]
pub struct FragmentSummary<'a>(pub &'a Fragment);

fn put_head(log: u64, base: Time, horizon: Time, out: &mut String) -> Result<(), AllocError>
    ensures { OnOk result (string_bytes out.new ≡ string_bytes out.old ++ spec.head_part log base horizon) }
{
    write!(
        out,
        "{{\"fragment\":{{\"log\":\"{log}\",\"base\":\"{base}\",\"horizon\":\"{horizon}\",\"streams\":["
    )
}

/// Adds how many facts there are, and the end of the line.
fn put_count(facts: usize, out: &mut String) -> Result<(), AllocError>
    ensures { OnOk result (string_bytes out.new ≡ string_bytes out.old ++ spec.count_part facts) }
{
    writeln!(out, "],\"facts\":\"{facts}\"}}}}")
}

impl InJson for FragmentSummary<'_> {
    fn json_to(&self, _alloc: Global, out: &mut String) -> Result<(), AllocError> {
        let fragment = self.0;
        let log = fragment.config().log();
        put_head(log, fragment.base(), fragment.horizon(), out)?;
        put_streams(fragment.got(), out)?;
        put_count(fragment.facts().len(), out)
    }
}

fn put_key(key: &VersionKey, out: &mut String) -> Result<(), AllocError>
    ensures { OnOk result (string_bytes out.new ≡ string_bytes out.old ++ spec.key_part key.now) }
{
    let table = key.table;
    let born = key.born;
    let key = key.key;
    write!(
        out,
        "{{\"fact\":{{\"table\":{table},\"key\":\"{key}\",\"born\":\"{born}\",\"row\":"
    )
}

fn put_died(died: Option<Time>, out: &mut String) -> Result<(), AllocError>
    ensures { OnOk result (string_bytes out.new ≡ string_bytes out.old ++ spec.died_part died) }
{
    match died {
        Some(time) => writeln!(out, ",\"died\":\"{time}\"}}}}"),
        None => out.push_str(",\"died\":null}}\n"),
    }
}

impl InJson for (VersionKey, Version) {
    ghost json = { λ fact. Some (spec.fact_line fact) };

    #[tactic(auto, using(std::proofs::Common::append_assoc))]
    fn json_to(&self, alloc: Global, out: &mut String) -> Result<(), AllocError> {
        let (key, version) = self;
        put_key(key, out)?;
        put_maybe_row(alloc, version.row(), out)?;
        put_died(version.died(), out)
    }
}
