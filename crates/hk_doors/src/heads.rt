//! What the first bytes of a frame say.

ghost use Rattle.std.specs.Prelude.{◌≡◌, ◌<◌, ◌≤◌, ◌+◌, ◌^◌, true, length};
ghost use Rattle.hk_doors.specs.Doors.{passes_all};
ghost use Rattle.hk_doors.specs.Handing.{IsHead, head_len, judged};

use crate::passes::Passes;
use hk_answers::query::GET;
use hk_frames::{LENGTH_BYTES, length_of};
use hk_message_head::request_kinds::{RequestKind, Work, request_kind};

/// A kind byte that no message has, and a byte of a length that no frame has.
const NO_KIND: u8 = 255;

const TOO_LONG: u8 = 255;

/// The position of the kind byte of a frame: behind the length and the version.
const KIND_PLACE: usize = 5;

/// How many of its first bytes show whether a frame asks for something long: all of each request that only reads.
pub(crate) const HEAD_BYTES: usize = 36;

/// How many bytes a frame has at most behind its length.
const MOST_FRAME: u64 = 268_435_456;

/// From how many bytes on a frame is a long one, whatever it asks.
const LONG_FRAME: u64 = 65_536;

/// From how many rows on a page is a long one.
const LONG_PAGE: u32 = 1_024;

/// Where the body of a frame begins: behind the length, the version and the kind.
const BODY_PLACE: usize = 6;

/// How many of the bytes behind its length a frame has before its body.
const BEFORE_BODY: u64 = 2;

/// How a frame is handed on beside others.
#[derive(Clone, Copy, Debug, PartialEq, Eq)]
pub(crate) enum Weight {
    /// With others.
    Light,
    /// With those before it.
    Last,
    /// By itself.
    Alone,
    /// By another worker.
    Elsewhere,
}

/// How many bytes of a frame of this length have to be there before it is looked at. A length that no frame has, or no request that
/// passes, is looked at by itself.
pub(crate) fn head_len(passes: Passes, len: u64) -> usize
    requires { len < 2 ^ 32 }
    ensures len { result ≡ head_len passes len }
    ensures some { 4 ≤ result }
    ensures few { result ≤ 36 }
    ensures part { result ≤ 4 + len }
{
    if passes.is_too_long(len) || len > MOST_FRAME {
        return LENGTH_BYTES;
    }
    HEAD_BYTES.min(LENGTH_BYTES + len as usize)
}

/// Turns the length of a frame that no request has that passes into one that no frame has, and a kind that doesn't pass into one that
/// no message has. These are the first bytes of the frame, as many as it is judged by.
pub(crate) fn judge(passes: Passes, head: &mut [u8])
    requires { IsHead passes head.old }
    ensures judged { head.new ≡ judged passes head.old }
    ensures kept { length head.new ≡ length head.old }
    ensures same { passes_all passes ≡ true → head.new ≡ head.old }
{
    if passes.is_too_long(length_of(head) as u64) {
        head.fill(TOO_LONG);
    } else if head.len() > KIND_PLACE && !passes.lets_through(head[KIND_PLACE]) {
        head[KIND_PLACE] = NO_KIND;
    }
}

/// Whether the query at this place of a body goes over rows.
fn asks_rows(head: &[u8], at: u8) -> bool {
    match head.get(BODY_PLACE + usize::from(at)) {
        Some(kind) => *kind != GET,
        None => false,
    }
}

/// Whether the number of rows at this place of a body is that of a long page.
fn is_long_page(head: &[u8], at: u8) -> bool {
    let place = BODY_PLACE + usize::from(at);
    match head.get(place..place + 4) {
        Some([a, b, c, d]) => u32::from_be_bytes([*a, *b, *c, *d]) > LONG_PAGE,
        _ => false,
    }
}

/// How a frame of this length is handed on that asks for something short which may take many looks; with others where it is no
/// request of its kind.
fn far_weight(row: &RequestKind, bytes: u64) -> Weight {
    let least = BEFORE_BODY + u64::from(row.least);
    let most = BEFORE_BODY + u64::from(row.most);
    if bytes >= least && bytes <= most {
        Weight::Alone
    } else {
        Weight::Light
    }
}

/// How a frame of this length that begins so is handed on at a worker for short answers.
fn short_weight(head: &[u8], bytes: u64) -> Weight {
    if bytes > LONG_FRAME {
        return if bytes <= MOST_FRAME {
            Weight::Elsewhere
        } else {
            Weight::Light
        };
    }
    let Some(kind) = head.get(KIND_PLACE) else {
        return Weight::Light;
    };
    let Some(row) = request_kind(*kind) else {
        return Weight::Light;
    };
    match row.work {
        Work::Short => Weight::Light,
        Work::Waits => Weight::Last,
        Work::Long => Weight::Elsewhere,
        Work::ByQuery { at } if asks_rows(head, at) => Weight::Elsewhere,
        Work::ByQuery { .. } => Weight::Light,
        Work::ByRows { at } if is_long_page(head, at) => Weight::Elsewhere,
        Work::ByRows { .. } | Work::Far => far_weight(&row, bytes),
    }
}

/// How a frame of this length that begins so is handed on at a worker for short answers, or for long ones.
pub(crate) fn weight_of(head: &[u8], bytes: u64, is_at_long_end: bool) -> Weight {
    match short_weight(head, bytes) {
        Weight::Elsewhere if is_at_long_end => Weight::Alone,
        weight => weight,
    }
}
