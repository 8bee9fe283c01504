//! Requests of version 2.

ghost use Rattle.hk_frames.specs.Fields.{GivesValue, GivesOrRunsOut};
ghost use Rattle.hk_messages.specs.LaterRequests as spec;

use hk_answers::numbers::{read_positive, read_time};
use hk_answers::query::read_query;
use hk_fragment_bytes::FragmentHead;
use hk_fragment_bytes::fragment_head::{read_head, read_whole_head};
use hk_frames::{Cursor, ReadError};
use hk_log::Version;
use hk_message_head::limits::{read_most, read_wait};
use hk_message_head::request_kinds::{
    ADD_PART, ASK_LATEST, AWAIT, HOLD, JOIN_PARTS, MERGE_PARTS, MORE, PAGE, RELEASE, STATS,
    STREAMS, TABLES, WHOLE,
};
use hk_model::{PageQuery, Query};
use hk_types::{FormFault, Key, Table, Time, VersionKey};
use hk_values::part::read_part;
use std::alloc::Global;

/// What a node is asked in version 2.
#[derive(Drop)]
pub enum LaterRequest {
    /// How far it is, and each of its streams.
    Streams,
    /// The resolved time, and the answer to a query at it.
    AskLatest { query: Query },
    /// A page of rows, of which 1 at least is wanted.
    Page(PageQuery),
    /// What it has applied since a time, or its full snapshot since 0, in chunks whose facts have at most so many
    /// bytes, and one fact at least: the first of them.
    Whole { base: Time, most_bytes: u32 },
    /// The next chunk of that.
    More,
    /// To keep these facts until the other chunks and the head are there.
    AddPart(Vec<(VersionKey, Version)>),
    /// To join the fragment of this head and of all chunks that were added, which have as many facts as the head has it.
    JoinParts(FragmentHead),
    /// To join the full snapshot that they make: the base of the head is 0.
    MergeParts(FragmentHead),
    /// To keep a time readable.
    Hold { t: Time },
    /// To release the pin of this number, which is not 0.
    Release { number: u64 },
    /// To reply once a time is readable, or after so many milliseconds, at most 600,000.
    Await { t: Time, milliseconds: u32 },
    /// Numbers of what the node holds and did.
    Stats,
    /// The tables of which it holds anything.
    Tables,
}

/// Reads what a page is asked of.
#[tactic(auto, unfolding(crate::specs::LaterRequests::page_at))]
fn read_page(cursor: &mut Cursor) -> Result<LaterRequest, FormFault>
    ensures { GivesValue (λ x. (spec.request_seen x, cursor.new)) result (spec.page_at cursor.old) }
{
    let time = read_time(cursor)?;
    let table = Table::new(cursor.u16()?);
    let low = Key::new(cursor.u64()?);
    let high = Key::new(cursor.u64()?);
    let most = read_most(cursor)?;
    Ok(LaterRequest::Page(PageQuery {
        time,
        table,
        low,
        high,
        most,
    }))
}

/// Reads the body of a kind that puts chunks together or is about pins.
#[tactic(auto, unfolding(crate::specs::LaterRequests::change_of))]
fn read_change(alloc: Global, cursor: &mut Cursor, kind: u8) -> Result<LaterRequest, ReadError>
    ensures { GivesOrRunsOut (λ x. (spec.request_seen x, cursor.new)) result (spec.change_of kind cursor.old) }
{
    match kind {
        ADD_PART => {
            let facts = read_part(alloc, cursor)?;
            Ok(LaterRequest::AddPart(facts))
        }
        JOIN_PARTS => {
            let head = read_head(alloc, cursor)?;
            Ok(LaterRequest::JoinParts(head))
        }
        MERGE_PARTS => {
            let head = read_whole_head(alloc, cursor)?;
            Ok(LaterRequest::MergeParts(head))
        }
        HOLD => {
            let t = read_time(cursor)?;
            Ok(LaterRequest::Hold { t })
        }
        RELEASE => {
            let number = read_positive(cursor)?;
            Ok(LaterRequest::Release { number })
        }
        _ => Err(ReadError::Fault(FormFault::BadKind)),
    }
}

/// Reads the body of a kind of version 2; another kind is `BadKind`.
#[tactic(auto, unfolding(crate::specs::LaterRequests::request_of))]
pub(crate) fn read_later(
    alloc: Global,
    cursor: &mut Cursor,
    kind: u8,
) -> Result<LaterRequest, ReadError>
    ensures { GivesOrRunsOut (λ x. (spec.request_seen x, cursor.new)) result (spec.request_of kind cursor.old) }
{
    match kind {
        STREAMS => Ok(LaterRequest::Streams),
        ASK_LATEST => {
            let query = read_query(cursor)?;
            Ok(LaterRequest::AskLatest { query })
        }
        PAGE => {
            let request = read_page(cursor)?;
            Ok(request)
        }
        WHOLE => {
            let base = read_time(cursor)?;
            let most_bytes = cursor.u32()?;
            Ok(LaterRequest::Whole { base, most_bytes })
        }
        MORE => Ok(LaterRequest::More),
        AWAIT => {
            let t = read_time(cursor)?;
            let milliseconds = read_wait(cursor)?;
            Ok(LaterRequest::Await { t, milliseconds })
        }
        STATS => Ok(LaterRequest::Stats),
        TABLES => Ok(LaterRequest::Tables),
        _ => read_change(alloc, cursor, kind),
    }
}
