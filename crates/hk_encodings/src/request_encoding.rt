//! The encoding of a request.

ghost use Rattle.std.specs.Prelude.{◌≡◌, ◌++◌, true, length, take, OnOk, OnErr, IfErr, IfSome};
ghost use Rattle.hk_messages.specs.Requests as requests;

use hk_message_head::head::{HEAD_BYTES, MOST_REST_BYTES, put_head};
use hk_message_head::request_kinds::{
    ASK, DELTA, FEED, FRONT, FULL, ITEMS, JOIN_THIS, MERGE_THIS, PRUNE,
};
use hk_messages::Request;
use hk_messages::later_request_encoding::later_kind;
use hk_messages::request_body::{body_len, keeps_rules, put_body};
use hk_types::{FormFault, Refusal};
use std::alloc::AllocError;

/// The kind byte of a request, which gives its version: those of version 2 are from 48 on.
pub fn kind_of(request: &Request) -> u8
    ensures { result ≡ requests.request_kind (requests.as_written request.now) }
{
    match request {
        Request::Items(_) => ITEMS,
        Request::Front => FRONT,
        Request::Delta { .. } => DELTA,
        Request::Full => FULL,
        Request::Ask { .. } => ASK,
        Request::JoinThis(_) => JOIN_THIS,
        Request::MergeThis(_) => MERGE_THIS,
        Request::Prune { .. } => PRUNE,
        Request::Feed(_) => FEED,
        Request::Later(later) => later_kind(later),
    }
}

/// How many bytes the rest of a request's frame has, or `None` where it has no encoding.
#[tactic(auto, using(hk_messages::proofs::EncodedMessages::keeps_same, hk_messages::proofs::Lengths::request_rest_len))]
fn request_len(request: &Request) -> Option<u32>
    ensures len { requests.IsLength request.now result }
    ensures rules { IfSome result (λ _. requests.keeps_rules (requests.request_seen request.now) ≡ true) }
    ensures request { IfSome result (λ _. requests.IsRequest (requests.as_written request.now)) }
{
    if !keeps_rules(request) {
        return None;
    }
    let len = HEAD_BYTES + body_len(request);
    if len > u64::from(MOST_REST_BYTES) {
        return None;
    }
    Some(len as u32)
}

/// Adds a request's frame, whose rest has so many bytes.
#[tactic(auto, using(hk_frames::proofs::Put::all))]
fn put_request(out: &mut Vec<u8>, request: &Request, rest: u32) -> Result<(), AllocError>
    requires len { rest ≡ requests.rest_length request.now }
    requires rules { requests.keeps_rules (requests.request_seen request.now) ≡ true }
    ensures ok { OnOk result (out.new.items ≡ out.old.items ++ requests.text_of request.now) }
    ensures kept { OnErr result (take (length out.old.items) out.new.items ≡ out.old.items) }
{
    put_head(out, rest, kind_of(request))?;
    put_body(out, request)
}

/// Adds a request's encoding whose item frames are all of version 2 at the end. A request without that encoding is refused
/// `Form(TooLong)`: more than 65,536 items, a fragment or a head with more than 2^32 - 1 of a counted thing, a fragment or
/// a head to merge whose base is not 0, a page of 0 rows, facts that don't keep the rules of a chunk or are more than 2^32
/// - 1, a pin of number 0, a wait of more than 600,000 milliseconds, and a rest of more than 2^28 bytes. After that comes
/// `Memory`. On a refusal the output is as before. Cost: O(n), n bytes of the encoding: the whole frame is reserved at once,
/// so the output grows once at most; one pass over the request tests it, one counts its bytes and one writes them.
///
/// A `RequestFeeder` that reads its version and is given the encoding alone returns a request of that value, and
/// keeps nothing.
pub fn encode_request(request: &Request, out: &mut Vec<u8>) -> Result<(), Refusal>
    ensures ok { OnOk result (requests.Encodes request.now out.old.items out.new.items) }
    ensures request { OnOk result (requests.IsRequest (requests.as_written request.now)) }
    ensures reads { OnOk result (requests.ReadsBack request.now) }
    ensures err { OnErr result (out.new.items ≡ out.old.items) }
    ensures why { IfErr result (λ why. requests.IsRefusedAs request.now why) }
{
    let Some(rest) = request_len(request) else {
        return Err(Refusal::Form(FormFault::TooLong));
    };
    let start = out.len();
    if put_request(out, request, rest).is_err() {
        out.truncate(start);
        return Err(Refusal::Memory);
    }
    Ok(())
}
