//! The encoding of a reply of version 2.

ghost use Rattle.std.specs.Prelude.{◌≡◌, ◌≤◌, ◌^◌, ◌++◌, true, length, take, OnOk, OnErr};
ghost use Rattle.hk_messages.specs.LaterReplies as spec;

use crate::later_reply::LaterReply;
use hk_answers::answer::{answer_len, keeps_answer_rules, put_answer};
use hk_answers::field_len::{number_len, time_len};
use hk_answers::metrics::{
    keeps_metrics_rules, keeps_tables_rules, metrics_len, put_metrics, put_tables, tables_len,
};
use hk_answers::numbers::is_ops;
use hk_answers::refusal::{is_told, put_refusal, refusal_len};
use hk_answers::told::{
    keeps_page_rules, keeps_streams_rules, page_len, put_page, put_streams_told, streams_told_len,
};
use hk_fragment_bytes::fragment_encoding::put_facts;
use hk_frames::put_u64;
use hk_message_head::reply_kinds::{
    ADDED, FED, HELD, LAST_PART, LATER_DONE, LATER_REFUSED, LATEST, PAGE, PART, READY, STATS,
    STREAMS, TABLES,
};
use hk_values::part::{keeps_part_rules, part_len};
use std::alloc::AllocError;

/// The kind byte.
pub(crate) fn later_kind(reply: &LaterReply) -> u8
    ensures { result ≡ spec.reply_kind (spec.reply_seen reply.now) }
{
    match reply {
        LaterReply::Done { .. } => LATER_DONE,
        LaterReply::Streams(_) => STREAMS,
        LaterReply::Latest { .. } => LATEST,
        LaterReply::Page(_) => PAGE,
        LaterReply::Part { .. } => PART,
        LaterReply::LastPart { .. } => LAST_PART,
        LaterReply::Added { .. } => ADDED,
        LaterReply::Held { .. } => HELD,
        LaterReply::Refused(_) => LATER_REFUSED,
        LaterReply::Fed { .. } => FED,
        LaterReply::Ready { .. } => READY,
        LaterReply::Stats(_) => STATS,
        LaterReply::Tables(_) => TABLES,
    }
}

/// Whether a reply keeps the rules of its kind.
pub(crate) fn later_keeps_rules(reply: &LaterReply) -> bool
    ensures { result ≡ spec.keeps_rules (spec.reply_seen reply.now) }
{
    match reply {
        LaterReply::Done { ops } => is_ops(*ops),
        LaterReply::Streams(told) => keeps_streams_rules(told),
        LaterReply::Latest { t: _, answer } => keeps_answer_rules(answer),
        LaterReply::Page(page) => keeps_page_rules(page),
        LaterReply::Part { left, facts } => *left != 0 && keeps_part_rules(facts),
        LaterReply::LastPart { facts, head } => keeps_part_rules(facts) && head.is_counted(),
        LaterReply::Added { .. } => true,
        LaterReply::Held { number, .. } => *number != 0,
        LaterReply::Refused(why) => is_told(*why),
        LaterReply::Fed { ops, .. } => is_ops(*ops),
        LaterReply::Ready { horizon, readable } => horizon.number() <= readable.number(),
        LaterReply::Stats(metrics) => keeps_metrics_rules(metrics),
        LaterReply::Tables(tables) => keeps_tables_rules(tables),
    }
}

/// How many bytes the body of a reply that keeps its rules has.
#[tactic(auto, using(crate::proofs::Lengths::later_reply_lengths))]
pub(crate) fn later_body_len(reply: &LaterReply) -> u64
    requires { spec.keeps_rules (spec.reply_seen reply.now) ≡ true }
    ensures len { result ≡ length (spec.reply_body (spec.reply_seen reply.now)) }
    ensures bound { result ≤ 2 ^ 61 }
    ensures fits { spec.ReplyFits (spec.reply_seen reply.now) }
{
    match reply {
        LaterReply::Done { ops } => number_len(*ops),
        LaterReply::Streams(told) => streams_told_len(told),
        LaterReply::Latest { t, answer } => time_len(*t) + answer_len(answer),
        LaterReply::Page(page) => page_len(page),
        LaterReply::Part { left, facts } => number_len(*left) + part_len(facts),
        LaterReply::LastPart { facts, head } => part_len(facts) + head.bytes(),
        LaterReply::Added { count } => number_len(*count),
        LaterReply::Held { number, t } => number_len(*number) + time_len(*t),
        LaterReply::Refused(why) => refusal_len(*why),
        LaterReply::Fed { ops, new } => number_len(*ops) + number_len(*new),
        LaterReply::Ready { horizon, readable } => time_len(*horizon) + time_len(*readable),
        LaterReply::Stats(metrics) => metrics_len(metrics),
        LaterReply::Tables(tables) => tables_len(tables),
    }
}

/// Adds the body of a reply that keeps its rules.
#[tactic(auto, using(hk_frames::proofs::Put::all))]
pub fn put_later(out: &mut Vec<u8>, reply: &LaterReply) -> Result<(), AllocError>
    requires { spec.keeps_rules (spec.reply_seen reply.now) ≡ true }
    ensures ok { OnOk result (out.new.items ≡ out.old.items ++ spec.reply_body (spec.reply_seen reply.now)) }
    ensures kept { OnErr result (take (length out.old.items) out.new.items ≡ out.old.items) }
{
    match reply {
        LaterReply::Done { ops } => put_u64(out, *ops),
        LaterReply::Streams(told) => put_streams_told(out, told),
        LaterReply::Latest { t, answer } => {
            put_u64(out, t.number())?;
            put_answer(out, answer)
        }
        LaterReply::Page(page) => put_page(out, page),
        LaterReply::Part { left, facts } => {
            put_u64(out, *left)?;
            put_facts(out, facts)
        }
        LaterReply::LastPart { facts, head } => {
            put_facts(out, facts)?;
            head.put_to(out)
        }
        LaterReply::Added { count } => put_u64(out, *count),
        LaterReply::Held { number, t } => {
            put_u64(out, *number)?;
            put_u64(out, t.number())
        }
        LaterReply::Refused(why) => put_refusal(out, why),
        LaterReply::Fed { ops, new } => {
            put_u64(out, *ops)?;
            put_u64(out, *new)
        }
        LaterReply::Ready { horizon, readable } => {
            put_u64(out, horizon.number())?;
            put_u64(out, readable.number())
        }
        LaterReply::Stats(metrics) => put_metrics(out, metrics),
        LaterReply::Tables(tables) => put_tables(out, tables),
    }
}
