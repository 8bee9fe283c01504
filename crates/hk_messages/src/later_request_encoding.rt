//! The encoding of a request of version 2.

ghost use Rattle.std.specs.Prelude.{◌≡◌, ◌<◌, ◌≤◌, ◌^◌, ◌++◌, true, length, take, OnOk, OnErr};
ghost use Rattle.hk_messages.specs.LaterRequests as spec;

use crate::later_request::LaterRequest;
use hk_answers::field_len::{key_len, number_len, table_len, time_len};
use hk_answers::query::{put_query, query_len};
use hk_fragment_bytes::fragment_encoding::put_facts;
use hk_frames::{put_u16, put_u32, put_u64};
use hk_message_head::limits::MOST_MILLISECONDS;
use hk_message_head::request_kinds::{
    ADD_PART, ASK_LATEST, AWAIT, HOLD, JOIN_PARTS, MERGE_PARTS, MORE, PAGE, RELEASE, STATS,
    STREAMS, TABLES, WHOLE,
};
use hk_values::part::{keeps_part_rules, part_len};
use std::alloc::AllocError;

/// The kind byte.
pub fn later_kind(request: &LaterRequest) -> u8
    ensures { result ≡ spec.request_kind (spec.request_seen request.now) }
{
    match request {
        LaterRequest::Streams => STREAMS,
        LaterRequest::AskLatest { .. } => ASK_LATEST,
        LaterRequest::Page(_) => PAGE,
        LaterRequest::Whole { .. } => WHOLE,
        LaterRequest::More => MORE,
        LaterRequest::AddPart(_) => ADD_PART,
        LaterRequest::JoinParts(_) => JOIN_PARTS,
        LaterRequest::MergeParts(_) => MERGE_PARTS,
        LaterRequest::Hold { .. } => HOLD,
        LaterRequest::Release { .. } => RELEASE,
        LaterRequest::Await { .. } => AWAIT,
        LaterRequest::Stats => STATS,
        LaterRequest::Tables => TABLES,
    }
}

/// Whether a request keeps the rules of its kind.
pub(crate) fn later_keeps_rules(request: &LaterRequest) -> bool
    ensures { result ≡ spec.keeps_rules (spec.request_seen request.now) }
{
    match request {
        LaterRequest::Page(of) => of.most != 0,
        LaterRequest::AddPart(facts) => keeps_part_rules(facts),
        LaterRequest::JoinParts(head) => head.is_counted(),
        LaterRequest::MergeParts(head) => head.base().number() == 0 && head.is_counted(),
        LaterRequest::Release { number } => *number != 0,
        LaterRequest::Await { milliseconds, .. } => *milliseconds <= MOST_MILLISECONDS,
        _ => true,
    }
}

fn count_len(count: u32) -> u64
    ensures len { result ≡ 4 }
    ensures fits { count < 2 ^ 32 }
{
    let _in_range = count;
    4
}

/// How many bytes the body of a request that keeps its rules has.
#[tactic(auto, using(crate::proofs::Lengths::later_request_lengths))]
pub(crate) fn later_body_len(request: &LaterRequest) -> u64
    requires { spec.keeps_rules (spec.request_seen request.now) ≡ true }
    ensures len { result ≡ length (spec.request_body (spec.request_seen request.now)) }
    ensures bound { result ≤ 2 ^ 61 }
    ensures fits { spec.RequestFits (spec.request_seen request.now) }
{
    match request {
        LaterRequest::Streams | LaterRequest::More | LaterRequest::Stats | LaterRequest::Tables =>
            0,
        LaterRequest::AskLatest { query } => query_len(query),
        LaterRequest::Page(of) => {
            let keys = key_len(of.low) + key_len(of.high);
            time_len(of.time) + table_len(of.table) + keys + count_len(of.most)
        }
        LaterRequest::Whole { base, most_bytes } => time_len(*base) + count_len(*most_bytes),
        LaterRequest::AddPart(facts) => part_len(facts),
        LaterRequest::JoinParts(head) | LaterRequest::MergeParts(head) => head.bytes(),
        LaterRequest::Hold { t } => time_len(*t),
        LaterRequest::Release { number } => number_len(*number),
        LaterRequest::Await { t, milliseconds } => time_len(*t) + count_len(*milliseconds),
    }
}

/// Adds the body of a request that keeps its rules.
#[tactic(auto, using(hk_frames::proofs::Put::all))]
pub(crate) fn put_later(out: &mut Vec<u8>, request: &LaterRequest) -> Result<(), AllocError>
    requires { spec.keeps_rules (spec.request_seen request.now) ≡ true }
    ensures ok { OnOk result (out.new.items ≡ out.old.items ++ spec.request_body (spec.request_seen request.now)) }
    ensures kept { OnErr result (take (length out.old.items) out.new.items ≡ out.old.items) }
{
    match request {
        LaterRequest::Streams | LaterRequest::More | LaterRequest::Stats | LaterRequest::Tables =>
            Ok(()),
        LaterRequest::AskLatest { query } => put_query(out, query),
        LaterRequest::Page(of) => {
            put_u64(out, of.time.number())?;
            put_u16(out, of.table.number())?;
            put_u64(out, of.low.number())?;
            put_u64(out, of.high.number())?;
            put_u32(out, of.most)
        }
        LaterRequest::Whole { base, most_bytes } => {
            put_u64(out, base.number())?;
            put_u32(out, *most_bytes)
        }
        LaterRequest::AddPart(facts) => put_facts(out, facts),
        LaterRequest::JoinParts(head) | LaterRequest::MergeParts(head) => head.put_to(out),
        LaterRequest::Hold { t } => put_u64(out, t.number()),
        LaterRequest::Release { number } => put_u64(out, *number),
        LaterRequest::Await { t, milliseconds } => {
            put_u64(out, t.number())?;
            put_u32(out, *milliseconds)
        }
    }
}
