//! The kind of a reply, and its body as bytes.

ghost use Rattle.std.specs.Prelude.{◌≡◌, ◌≤◌, ◌^◌, ◌++◌, true, length, take, OnOk, OnErr};
ghost use Rattle.hk_messages.specs.Replies as replies;

use crate::later_reply_encoding::{later_body_len, later_keeps_rules, later_kind, put_later};
use crate::reply::Reply;
use hk_answers::answer::{answer_len, keeps_answer_rules, put_answer};
use hk_answers::field_len::{number_len, time_len};
use hk_answers::numbers::is_ops;
use hk_answers::refusal::{is_sent, put_refusal, refusal_len};
use hk_fragment_bytes::fragment_encoding::{fragment_len, is_counted, put_fragment};
use hk_frames::put_u64;
use hk_message_head::reply_kinds::{ANSWER, DONE, FRAGMENT, FRONT, REFUSED};
use std::alloc::AllocError;

/// The kind byte.
pub fn kind_of(reply: &Reply) -> u8
    ensures { result ≡ replies.reply_kind (replies.reply_seen reply.now) }
{
    match reply {
        Reply::Done { .. } => DONE,
        Reply::Front(_) => FRONT,
        Reply::Fragment(_) => FRAGMENT,
        Reply::Answer(_) => ANSWER,
        Reply::Refused(_) => REFUSED,
        Reply::Later(later) => later_kind(later),
    }
}

/// Whether a reply keeps the rules of its kind.
pub fn keeps_rules(reply: &Reply) -> bool
    ensures { result ≡ replies.keeps_rules (replies.reply_seen reply.now) }
{
    match reply {
        Reply::Done { ops } => is_ops(*ops),
        Reply::Front(front) => front.horizon.number() <= front.readable.number(),
        Reply::Fragment(fragment) => is_counted(fragment),
        Reply::Answer(answer) => keeps_answer_rules(answer),
        Reply::Refused(why) => is_sent(*why),
        Reply::Later(later) => later_keeps_rules(later),
    }
}

/// How many bytes the body of a reply that keeps its rules has.
#[tactic(auto, using(crate::proofs::Lengths::front_len, crate::proofs::Lengths::refused_len, hk_codec::proofs::Lengths::len64))]
pub fn body_len(reply: &Reply) -> u64
    requires { replies.keeps_rules (replies.reply_seen reply.now) ≡ true }
    ensures len { result ≡ length (replies.reply_body (replies.reply_seen reply.now)) }
    ensures bound { result ≤ 2 ^ 61 }
    ensures fits { replies.ReplyFits (replies.reply_seen reply.now) }
{
    match reply {
        Reply::Done { ops } => number_len(*ops),
        Reply::Front(front) => time_len(front.horizon) + time_len(front.readable),
        Reply::Fragment(fragment) => fragment_len(fragment),
        Reply::Answer(answer) => answer_len(answer),
        Reply::Refused(why) => refusal_len(*why),
        Reply::Later(later) => later_body_len(later),
    }
}

/// Adds the body of a reply that keeps its rules.
#[tactic(auto, using(hk_frames::proofs::Put::all))]
pub fn put_body(out: &mut Vec<u8>, reply: &Reply) -> Result<(), AllocError>
    requires { replies.keeps_rules (replies.reply_seen reply.now) ≡ true }
    ensures ok { OnOk result (out.new.items
        ≡ out.old.items ++ replies.reply_body (replies.reply_seen reply.now)) }
    ensures kept { OnErr result (take (length out.old.items) out.new.items ≡ out.old.items) }
{
    match reply {
        Reply::Done { ops } => put_u64(out, *ops),
        Reply::Front(front) => {
            put_u64(out, front.horizon.number())?;
            put_u64(out, front.readable.number())
        }
        Reply::Fragment(fragment) => put_fragment(out, fragment),
        Reply::Answer(answer) => put_answer(out, answer),
        Reply::Refused(why) => put_refusal(out, why),
        Reply::Later(later) => put_later(out, later),
    }
}
