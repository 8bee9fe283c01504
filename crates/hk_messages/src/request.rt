//! Requests of both versions.

ghost use Rattle.hk_frames.specs.Fields.{GivesOrRunsOut};
ghost use Rattle.hk_messages.specs.Requests as spec;

use crate::items::read_items;
use crate::later_request::{LaterRequest, read_later};
use hk_answers::numbers::read_time;
use hk_answers::query::read_query;
use hk_fragment::Fragment;
use hk_frames::{Cursor, Format, FrameFeeder, ReadError};
use hk_log::Item;
use hk_message_head::head::{read_end, read_head};
use hk_message_head::request_kinds::{
    ASK, DELTA, FEED, FRONT, FULL, ITEMS, JOIN_THIS, MERGE_THIS, PRUNE,
};
use hk_model::Query;
use hk_types::Time;
use hk_values::fragment_reading::{read_fragment, read_whole};
use std::alloc::Global;

/// What a replica is asked.
#[derive(Drop)]
pub enum Request {
    /// To apply items, at most 65,536.
    Items(Vec<Item>),
    /// Its range of readable times.
    Front,
    /// What it has applied since a time.
    Delta { base: Time },
    /// Its full snapshot: all that it holds.
    Full,
    /// The answer to a query at a time.
    Ask { t: Time, query: Query },
    /// To join a fragment.
    JoinThis(Fragment),
    /// To join a full snapshot: a fragment of base 0.
    MergeThis(Fragment),
    /// To drop the versions that no read at this time or later needs, so that it becomes the oldest readable time.
    Prune { horizon: Time },
    /// To apply items, at most 65,536, and to return how many of them were not known: of version 2.
    Feed(Vec<Item>),
    /// What else is asked in version 2.
    Later(LaterRequest),
}

/// Reads the body of a kind.
#[tactic(auto, unfolding(crate::specs::Requests::request_of))]
fn read_body(alloc: Global, cursor: &mut Cursor, kind: u8) -> Result<Request, ReadError>
    ensures { GivesOrRunsOut (λ x. (spec.request_seen x, cursor.new)) result (spec.request_of spec.plain_items_at kind cursor.old) }
{
    match kind {
        ITEMS => {
            let items = read_items(alloc, cursor)?;
            Ok(Request::Items(items))
        }
        FRONT => Ok(Request::Front),
        DELTA => {
            let base = read_time(cursor)?;
            Ok(Request::Delta { base })
        }
        FULL => Ok(Request::Full),
        ASK => {
            let t = read_time(cursor)?;
            let query = read_query(cursor)?;
            Ok(Request::Ask { t, query })
        }
        JOIN_THIS => {
            let fragment = read_fragment(alloc, cursor)?;
            Ok(Request::JoinThis(fragment))
        }
        MERGE_THIS => {
            let fragment = read_whole(alloc, cursor)?;
            Ok(Request::MergeThis(fragment))
        }
        PRUNE => {
            let horizon = read_time(cursor)?;
            Ok(Request::Prune { horizon })
        }
        FEED => {
            let items = read_items(alloc, cursor)?;
            Ok(Request::Feed(items))
        }
        _ => {
            let request = read_later(alloc, cursor, kind)?;
            Ok(Request::Later(request))
        }
    }
}

/// The request of a version up to the latest that is read, which is all of the rest.
#[tactic(auto, unfolding(crate::specs::Requests::plain_request_at, hk_message_head::specs::Messages::message_at))]
fn read_request(alloc: Global, rest: &[u8], latest: u8) -> Result<Request, ReadError>
    ensures { GivesOrRunsOut spec.request_seen result (spec.plain_request_at latest rest.now) }
{
    let mut cursor = Cursor::new(rest);
    let kind = read_head(&mut cursor, latest)?;
    let request = read_body(alloc, &mut cursor, kind)?;
    read_end(&cursor)?;
    Ok(request)
}

/// The format of requests up to the latest version that is read: 1 for those of version 1 alone, 2 for both versions.
#[derive(Debug, Drop)]
pub struct RequestFormat<const LATEST: u8>;

impl<const LATEST: u8> Format for RequestFormat<LATEST> {
    ghost use Rattle.hk_messages.specs.Requests.{request_format, AddsRequests};

    type Value = Request;

    type Spare = ();

    ghost LEAST_BYTES = { 2 };

    ghost MOST_BYTES = { 268435456 };

    ghost format = { request_format LATEST };

    ghost Adds = { AddsRequests LATEST };

    const LEAST_BYTES: usize = 2;

    const MOST_BYTES: usize = 268_435_456;

    fn read_rest(alloc: Global, rest: &[u8], _spare: &mut ()) -> Result<Request, ReadError> {
        read_request(alloc, rest, LATEST)
    }

    fn laws() {}
}

/// Reads requests up to the latest version that is read from a stream that comes in pieces. It keeps less than a frame, or
/// the fault that it met; a request of a later version is `BadVersion`, and a reply's kind `BadKind`. Cost of `feed`:
/// O(n · log n), n bytes of the piece and of the frames that are complete now: one pass over those frames, where the
/// numbers and marks of a fragment or a head take the logarithm, and one copy of the bytes that are left.
pub type RequestFeeder<const LATEST: u8> = FrameFeeder<RequestFormat<LATEST>>;
