//! The one encoding of a reply.

ghost use Rattle.std.specs.Prelude.{◌≡◌, ◌++◌, true, length, take, OnOk, OnErr, IfErr, IfSome};
ghost use Rattle.hk_messages.specs.Replies as replies;

use hk_message_head::head::{HEAD_BYTES, MOST_REST_BYTES, put_head};
use hk_messages::Reply;
use hk_messages::reply_body::{body_len, keeps_rules, kind_of, put_body};
use hk_types::{FormFault, Refusal};
use std::alloc::AllocError;

/// How many bytes the rest of a reply's frame has, or `None` where it has no encoding.
#[tactic(auto, using(hk_messages::proofs::Lengths::reply_rest_len))]
pub fn reply_len(reply: &Reply) -> Option<u32>
    ensures reply { IfSome result (λ _. replies.IsReply (replies.reply_seen reply.now)) }
    ensures len { replies.IsLength reply.now result }
{
    if !keeps_rules(reply) {
        return None;
    }
    let len = HEAD_BYTES + body_len(reply);
    if len > u64::from(MOST_REST_BYTES) {
        return None;
    }
    Some(len as u32)
}

/// Adds a reply's frame, whose rest has so many bytes.
#[tactic(auto, using(hk_frames::proofs::Put::all), unfolding(hk_frames::specs::Framing::encoded, hk_messages::specs::Replies::reply_rest))]
fn put_reply(out: &mut Vec<u8>, reply: &Reply, rest: u32) -> Result<(), AllocError>
    requires len { rest ≡ length (replies.reply_rest (replies.reply_seen reply.now)) }
    requires rules { replies.keeps_rules (replies.reply_seen reply.now) ≡ true }
    ensures ok { OnOk result (out.new.items ≡ out.old.items ++ replies.reply_text (replies.reply_seen reply.now)) }
    ensures kept { OnErr result (take (length out.old.items) out.new.items ≡ out.old.items) }
{
    put_head(out, rest, kind_of(reply))?;
    put_body(out, reply)
}

/// Adds a reply's one encoding at the end. A reply without an encoding is refused `Form(TooLong)`: a number of operations
/// that is 0 or above 2^62, a `horizon` above the resolved time, more than 2^32 - 1 of a counted thing, rows whose keys do
/// not rise strictly, a number of streams outside 1 to 64, facts that don't keep the rules of a chunk, a chunk after which
/// 0 facts come, a pin of number 0, a refusal of a transaction, one of chunks in version 1, and a rest of more than
/// 2^28 bytes. After that comes `Memory`. On a refusal the output is as before. Cost: O(n), n bytes of the encoding: the
/// whole frame is reserved at once, so the output grows once at most; one pass over the reply tests it, one counts its
/// bytes and one writes them.
///
/// A `ReplyFeeder` that is given the encoding alone returns a reply of that value, and keeps nothing.
pub fn encode_reply(reply: &Reply, out: &mut Vec<u8>) -> Result<(), Refusal>
    ensures ok { OnOk result (replies.Encodes reply.now out.old.items out.new.items) }
    ensures reply { OnOk result (replies.IsReply (replies.reply_seen reply.now)) }
    ensures reads { OnOk result (replies.ReadsBack reply.now) }
    ensures err { OnErr result (out.new.items ≡ out.old.items) }
    ensures why { IfErr result (λ why. replies.IsRefusedAs reply.now why) }
{
    let Some(rest) = reply_len(reply) else {
        return Err(Refusal::Form(FormFault::TooLong));
    };
    let start = out.len();
    if put_reply(out, reply, rest).is_err() {
        out.truncate(start);
        return Err(Refusal::Memory);
    }
    Ok(())
}
