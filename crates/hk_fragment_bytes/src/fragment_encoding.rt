//! Fragments, written at the end of bytes.

ghost use Rattle.std.specs.Prelude.{◌≡◌, ◌≤◌, ◌*◌, ◌++◌, ◌^◌, ◌<◌, None, true, All, length, map, take, OnOk, OnErr, IfOk};
ghost use Rattle.std.specs.List.{flat_map};
ghost use Rattle.hk_types.specs.declared.version_key.VersionKey.{VersionKey};
ghost use Rattle.hk_answers.specs.Answers.{PresentFits};
ghost use Rattle.hk_answers.specs.Pieces.{AddsFrom};
ghost use Rattle.hk_answers.specs.Readers.{DiedFits};
ghost use Rattle.hk_fragment_bytes.specs.Fragments as spec;
ghost use Rattle.hk_fragment_bytes.specs.Fragments.{fragment_front};

use hk_answers::answer::{put_row, row_len};
use hk_answers::field_len::{key_len, number_len, table_len, time_len};
use hk_fragment::Fragment;
use hk_frames::{put_u16, put_u32, put_u64};
use hk_log::Version;
use hk_marks::Got;
use hk_types::{Config, StreamNo, Time, VersionKey};
use std::alloc::AllocError;

/// How many numbers above the prefix are applied.
fn extra_count(got: &Got, s: StreamNo) -> usize
    requires { s ≤ length got.now }
    ensures { result ≡ length (spec.wire_stream_at got.now s).extra }
{
    got.extra_count(s) as usize
}

/// How many marks wait.
fn waiting_count(got: &Got, s: StreamNo) -> usize
    requires { s ≤ length got.now }
    ensures { result ≡ length (spec.wire_stream_at got.now s).waiting }
{
    got.waiting_marks(s).len()
}

/// Whether the numbers and the marks of a stream can be counted.
fn stream_is_counted(got: &Got, s: StreamNo) -> bool
    requires { s ≤ length got.now }
    ensures { result ≡ spec.stream_is_counted (spec.wire_stream_at got.now s) }
{
    extra_count(got, s) < 4_294_967_296 && waiting_count(got, s) < 4_294_967_296
}

/// Whether the numbers and the marks of the streams can be counted: no count is above 2^32 - 1.
pub(crate) fn streams_are_counted(got: &Got) -> bool
    ensures { result ≡ spec.streams_are_counted (map spec.wire_stream_of got.now) }
{
    for index in 0..got.streams() {
        let Ok(s) = StreamNo::new(index + 1) else {
            return false;
        };
        if !stream_is_counted(got, s) {
            return false;
        }
    }
    true
}

/// Whether all of a fragment can be counted: no count is above 2^32 - 1.
pub fn is_counted(fragment: &Fragment) -> bool
    ensures { result ≡ spec.is_counted (spec.wire_fragment_of fragment.now) }
{
    streams_are_counted(fragment.got()) && fragment.facts().len() < 4_294_967_296
}

/// How many bytes a stream that can be counted has.
#[tactic(auto, using(crate::proofs::Lengths::stream_text_len))]
fn stream_len(got: &Got, s: StreamNo) -> u64
    requires known { s ≤ length got.now }
    requires counted { spec.stream_is_counted (spec.wire_stream_at got.now s) ≡ true }
    ensures len { result ≡ length (spec.stream_text (spec.wire_stream_at got.now s)) }
    ensures bound { result ≤ 2 ^ 37 }
{
    24 + 8 * extra_count(got, s) as u64 + 16 * waiting_count(got, s) as u64
}

/// How many bytes the streams have.
pub(crate) fn streams_len(got: &Got) -> u64
    requires { spec.streams_are_counted (map spec.wire_stream_of got.now) ≡ true }
    ensures len { result ≡ length (spec.streams_text got.now) }
    ensures bound { result ≤ 2 ^ 43 }
{
    let mut total = 0;
    for index in 0..got.streams() {
        let Ok(s) = StreamNo::new(index + 1) else {
            return total;
        };
        total += stream_len(got, s);
    }
    total
}

/// How many bytes the row has, where it is known.
#[tactic(auto, using(hk_answers::proofs::Lengths::row_len))]
fn known_row_len(known: &Version) -> u64
    ensures len { result ≡ length (spec.parts_text known.now.row None) }
    ensures bound { result ≤ 4102 }
    ensures fits { PresentFits known.now.row }
{
    match known.row() {
        None => 0,
        Some(row) => row_len(row),
    }
}

/// How many bytes the end has, where it is known.
#[tactic(auto, using(hk_codec::proofs::Lengths::len64))]
fn died_len(known: &Version) -> u64
    ensures len { result ≡ length (spec.parts_text None known.now.died) }
    ensures bound { result ≤ 8 }
    ensures fits { DiedFits known.now.died }
{
    match known.died() {
        None => 0,
        Some(died) => time_len(died),
    }
}

/// How many bytes the name of a version has.
fn version_len(version: VersionKey) -> u64
    ensures len { result ≡ 18 }
    ensures fits { spec.NameFits version }
{
    table_len(version.table) + key_len(version.key) + time_len(version.born)
}

/// How many bytes a version has with what is known of it.
#[tactic(auto, using(crate::proofs::Lengths::fact_text_len))]
pub fn fact_len(version: VersionKey, known: &Version) -> u64
    ensures len { result ≡ length (spec.fact_text (version, known.now)) }
    ensures bound { result ≤ 4129 }
    ensures fits { spec.KnownFits (version, known.now) }
{
    1 + version_len(version) + known_row_len(known) + died_len(known)
}

/// How many bytes the facts have, without their count.
pub fn facts_len(facts: &[(VersionKey, Version)]) -> u64
    requires { length facts.now ≤ 4294967295 }
    ensures len { result ≡ length (flat_map spec.fact_text facts.now) }
    ensures bound { result ≤ 4129 * length facts.now }
    ensures fits { All spec.KnownFits facts.now }
{
    let mut total = 0;
    for fact in facts {
        total += fact_len(fact.0, &fact.1);
    }
    total
}

/// How many bytes come before the streams. The number of streams is read for the bound that its type states.
pub(crate) fn head_len(config: Config, base: Time, horizon: Time) -> u64
    ensures len { result ≡ 26 }
    ensures log { config.log < 2 ^ 64 }
    ensures streams { (1 ≤ config.streams) × (config.streams ≤ 64) }
    ensures base { base ≤ 2 ^ 62 }
    ensures horizon { horizon ≤ 2 ^ 62 }
{
    let _in_range = config.streams();
    number_len(config.log()) + 2 + time_len(base) + time_len(horizon)
}

/// How many bytes a fragment that can be counted has.
#[tactic(auto, using(crate::proofs::Lengths::fragment_text_len))]
pub fn fragment_len(fragment: &Fragment) -> u64
    requires { spec.is_counted (spec.wire_fragment_of fragment.now) ≡ true }
    ensures len { result ≡ length (spec.fragment_text (spec.wire_fragment_of fragment.now)) }
    ensures bound { result ≤ 2 ^ 60 }
    ensures fits { spec.FragmentFits (spec.wire_fragment_of fragment.now) }
{
    let head = head_len(fragment.config(), fragment.base(), fragment.horizon());
    head + 4 + streams_len(fragment.got()) + facts_len(fragment.facts())
}

/// Adds the numbers above the prefix that are applied, behind their count.
#[tactic(auto, using(hk_frames::proofs::Put::all))]
fn put_extras(out: &mut Vec<u8>, got: &Got, s: StreamNo) -> Result<(), AllocError>
    requires known { s ≤ length got.now }
    requires counted { spec.stream_is_counted (spec.wire_stream_at got.now s) ≡ true }
    ensures ok { OnOk result (out.new.items ≡ out.old.items ++ spec.extras_text (spec.wire_stream_at got.now s).extra) }
    ensures kept { OnErr result (take (length out.old.items) out.new.items ≡ out.old.items) }
{
    put_u32(out, extra_count(got, s) as u32)?;
    for number in got.extra_numbers(s) {
        put_u64(out, number)?;
    }
    Ok(())
}

/// Adds a waiting mark.
#[tactic(auto, using(hk_frames::proofs::Put::all))]
fn put_mark(out: &mut Vec<u8>, count: u64, upto: Time) -> Result<(), AllocError>
    ensures ok { OnOk result (out.new.items ≡ out.old.items ++ spec.mark_text (count, upto)) }
    ensures kept { OnErr result (take (length out.old.items) out.new.items ≡ out.old.items) }
{
    put_u64(out, count)?;
    put_u64(out, upto.number())
}

/// Adds the marks that wait, behind their count.
#[tactic(auto, using(hk_frames::proofs::Put::all))]
fn put_waits(out: &mut Vec<u8>, got: &Got, s: StreamNo) -> Result<(), AllocError>
    requires known { s ≤ length got.now }
    requires counted { spec.stream_is_counted (spec.wire_stream_at got.now s) ≡ true }
    ensures ok { OnOk result (out.new.items ≡ out.old.items ++ spec.waits_text (spec.wire_stream_at got.now s).waiting) }
    ensures kept { OnErr result (take (length out.old.items) out.new.items ≡ out.old.items) }
{
    put_u32(out, waiting_count(got, s) as u32)?;
    for (count, upto) in got.waiting_marks(s) {
        put_mark(out, *count, *upto)?;
    }
    Ok(())
}

/// The number up to which all are applied.
fn prefix(got: &Got, s: StreamNo) -> u64
    requires { s ≤ length got.now }
    ensures { result ≡ (spec.wire_stream_at got.now s).prefix }
{
    got.prefix(s)
}

/// Adds the state of a stream.
#[tactic(auto, using(hk_frames::proofs::Put::all), unfolding(crate::specs::Fragments::stream_text))]
fn put_stream(out: &mut Vec<u8>, got: &Got, s: StreamNo) -> Result<(), AllocError>
    requires known { s ≤ length got.now }
    requires counted { spec.stream_is_counted (spec.wire_stream_at got.now s) ≡ true }
    ensures ok { OnOk result (out.new.items ≡ out.old.items ++ spec.stream_text (spec.wire_stream_at got.now s)) }
    ensures kept { OnErr result (take (length out.old.items) out.new.items ≡ out.old.items) }
{
    put_u64(out, prefix(got, s))?;
    put_u64(out, got.closed(s).number())?;
    put_extras(out, got, s)?;
    put_waits(out, got, s)
}

/// Adds the states of the streams.
#[tactic(auto, using(hk_frames::proofs::Put::all))]
pub(crate) fn put_streams(out: &mut Vec<u8>, got: &Got) -> Result<(), AllocError>
    requires { spec.streams_are_counted (map spec.wire_stream_of got.now) ≡ true }
    ensures ok { OnOk result (out.new.items ≡ out.old.items ++ spec.streams_text got.now) }
    ensures kept { OnErr result (take (length out.old.items) out.new.items ≡ out.old.items) }
{
    for index in 0..got.streams() {
        let Ok(s) = StreamNo::new(index + 1) else {
            return Err(AllocError);
        };
        put_stream(out, got, s)?;
    }
    Ok(())
}

/// The byte that shows what is known of a version.
fn flags(known: &Version) -> u8
    ensures { result ≡ spec.known_flags known.now }
{
    match (known.row(), known.died()) {
        (None, None) => 0,
        (Some(_row), None) => 1,
        (None, Some(_died)) => 2,
        (Some(_row), Some(_died)) => 3,
    }
}

/// Adds what is known of a version.
#[tactic(auto, using(hk_frames::proofs::Put::all))]
fn put_known(out: &mut Vec<u8>, known: &Version) -> Result<(), AllocError>
    ensures ok { OnOk result (out.new.items ≡ out.old.items ++ spec.known_parts known.now) }
    ensures kept { OnErr result (take (length out.old.items) out.new.items ≡ out.old.items) }
{
    if let Some(row) = known.row() {
        put_row(out, row)?;
    }
    if let Some(died) = known.died() {
        put_u64(out, died.number())?;
    }
    Ok(())
}

/// Adds a version.
#[tactic(auto, using(hk_frames::proofs::Put::all))]
fn put_version(out: &mut Vec<u8>, version: VersionKey) -> Result<(), AllocError>
    ensures ok { OnOk result (out.new.items ≡ out.old.items ++ spec.version_text version) }
    ensures kept { OnErr result (take (length out.old.items) out.new.items ≡ out.old.items) }
{
    put_u16(out, version.table.number())?;
    put_u64(out, version.key.number())?;
    put_u64(out, version.born.number())
}

/// Adds a fact.
#[tactic(auto, using(hk_frames::proofs::Put::all), unfolding(crate::specs::Fragments::fact_text))]
fn put_fact(out: &mut Vec<u8>, version: VersionKey, known: &Version) -> Result<(), AllocError>
    ensures ok { OnOk result (out.new.items ≡ out.old.items ++ spec.fact_text (version, known.now)) }
    ensures kept { OnErr result (take (length out.old.items) out.new.items ≡ out.old.items) }
{
    put_version(out, version)?;
    out.push(flags(known))?;
    put_known(out, known)
}

/// Adds facts from the one of this number on: all that are left, or as many as have more than so many bytes. Returns the
/// number of the next fact, which is how many facts there are where none is left. Cost: O(n), n bytes added.
#[tactic(auto, using(hk_frames::proofs::Put::all))]
pub fn put_facts_from(
    out: &mut Vec<u8>,
    facts: &[(VersionKey, Version)],
    from: usize,
    most: usize,
) -> Result<usize, AllocError>
    requires { from ≤ length facts.now }
    ensures ok { IfOk result (λ to.
        AddsFrom spec.fact_text facts.now from most to out.old.items out.new.items) }
    ensures kept { OnErr result (take (length out.old.items) out.new.items ≡ out.old.items) }
{
    let start = out.len();
    let mut to = from;
    while to < facts.len() {
        if out.len() - start > most {
            return Ok(to);
        }
        let fact = &facts[to];
        put_fact(out, fact.0, &fact.1)?;
        to += 1;
    }
    Ok(to)
}

/// Adds all facts, without their count.
fn put_all_facts(out: &mut Vec<u8>, facts: &[(VersionKey, Version)]) -> Result<(), AllocError>
    ensures ok { OnOk result (out.new.items ≡ out.old.items ++ flat_map spec.fact_text facts.now) }
    ensures kept { OnErr result (take (length out.old.items) out.new.items ≡ out.old.items) }
{
    let _next = put_facts_from(out, facts, 0, usize::MAX)?;
    let _bound = out.len();
    Ok(())
}

/// Adds the facts behind their count.
#[tactic(auto, using(hk_frames::proofs::Put::all))]
pub fn put_facts(out: &mut Vec<u8>, facts: &[(VersionKey, Version)]) -> Result<(), AllocError>
    requires { length facts.now ≤ 4294967295 }
    ensures ok { OnOk result (out.new.items ≡ out.old.items ++ spec.facts_text facts.now) }
    ensures kept { OnErr result (take (length out.old.items) out.new.items ≡ out.old.items) }
{
    put_u32(out, facts.len() as u32)?;
    put_all_facts(out, facts)
}

/// Adds what a fragment's bytes have before its facts: the head, the states of the streams, and how many facts there are.
#[tactic(auto, using(hk_frames::proofs::Put::all), unfolding(crate::specs::Fragments::fragment_front))]
pub fn put_fragment_front(out: &mut Vec<u8>, fragment: &Fragment) -> Result<(), AllocError>
    requires { spec.is_counted (spec.wire_fragment_of fragment.now) ≡ true }
    ensures ok { OnOk result (out.new.items
        ≡ out.old.items ++ fragment_front (spec.wire_fragment_of fragment.now)) }
    ensures kept { OnErr result (take (length out.old.items) out.new.items ≡ out.old.items) }
{
    let config = fragment.config();
    put_u64(out, config.log())?;
    put_u16(out, config.streams())?;
    put_u64(out, fragment.base().number())?;
    put_u64(out, fragment.horizon().number())?;
    put_streams(out, fragment.got())?;
    put_u32(out, fragment.facts().len() as u32)
}

/// Adds a fragment's bytes.
#[tactic(auto, using(hk_frames::proofs::Put::all))]
pub fn put_fragment(out: &mut Vec<u8>, fragment: &Fragment) -> Result<(), AllocError>
    requires { spec.is_counted (spec.wire_fragment_of fragment.now) ≡ true }
    ensures ok { OnOk result (out.new.items ≡ out.old.items
        ++ spec.fragment_text (spec.wire_fragment_of fragment.now)) }
    ensures kept { OnErr result (take (length out.old.items) out.new.items ≡ out.old.items) }
{
    put_fragment_front(out, fragment)?;
    put_all_facts(out, fragment.facts())
}
