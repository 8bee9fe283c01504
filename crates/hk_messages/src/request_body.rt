//! The body of a request as bytes.

ghost use Rattle.std.specs.Prelude.{◌≡◌, ◌≤◌, ◌^◌, ◌++◌, true, length, take, OnOk, OnErr};
ghost use Rattle.hk_messages.specs.Requests as requests;

use crate::items::{MOST_ITEMS, items_len, put_items};
use crate::later_request_encoding::{later_body_len, later_keeps_rules, put_later};
use crate::request::Request;
use hk_answers::field_len::time_len;
use hk_answers::query::{put_query, query_len};
use hk_fragment_bytes::fragment_encoding::{fragment_len, is_counted, put_fragment};
use hk_frames::put_u64;
use std::alloc::AllocError;

/// Whether a request keeps the rules of its kind.
pub fn keeps_rules(request: &Request) -> bool
    ensures { result ≡ requests.keeps_rules (requests.request_seen request.now) }
{
    match request {
        Request::Items(items) | Request::Feed(items) => items.len() <= MOST_ITEMS,
        Request::JoinThis(fragment) => is_counted(fragment),
        Request::MergeThis(fragment) => fragment.base().number() == 0 && is_counted(fragment),
        Request::Later(later) => later_keeps_rules(later),
        _ => true,
    }
}

/// How many bytes the body of a request that keeps its rules has.
#[tactic(auto, using(crate::proofs::Lengths::request_lengths))]
pub fn body_len(request: &Request) -> u64
    requires { requests.keeps_rules (requests.request_seen request.now) ≡ true }
    ensures len { result ≡ length (requests.request_body (requests.as_written request.now)) }
    ensures bound { result ≤ 2 ^ 61 }
    ensures fits { requests.RequestFits (requests.as_written request.now) }
{
    match request {
        Request::Items(items) | Request::Feed(items) => 4 + items_len(items),
        Request::Front | Request::Full => 0,
        Request::Delta { base } => time_len(*base),
        Request::Ask { t, query } => time_len(*t) + query_len(query),
        Request::JoinThis(fragment) | Request::MergeThis(fragment) => fragment_len(fragment),
        Request::Prune { horizon } => time_len(*horizon),
        Request::Later(later) => later_body_len(later),
    }
}

/// Adds the body of a request that keeps its rules.
#[tactic(auto, using(hk_frames::proofs::Put::all))]
pub fn put_body(out: &mut Vec<u8>, request: &Request) -> Result<(), AllocError>
    requires { requests.keeps_rules (requests.request_seen request.now) ≡ true }
    ensures ok { OnOk result (out.new.items
        ≡ out.old.items ++ requests.request_body (requests.as_written request.now)) }
    ensures kept { OnErr result (take (length out.old.items) out.new.items ≡ out.old.items) }
{
    match request {
        Request::Items(items) | Request::Feed(items) => put_items(out, items),
        Request::Front | Request::Full => Ok(()),
        Request::Delta { base } => put_u64(out, base.number()),
        Request::Ask { t, query } => {
            put_u64(out, t.number())?;
            put_query(out, query)
        }
        Request::JoinThis(fragment) | Request::MergeThis(fragment) => put_fragment(out, fragment),
        Request::Prune { horizon } => put_u64(out, horizon.number()),
        Request::Later(later) => put_later(out, later),
    }
}
