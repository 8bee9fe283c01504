//! Replies of version 2.

ghost use Rattle.hk_frames.specs.Fields.{GivesOrRunsOut};
ghost use Rattle.hk_messages.specs.LaterReplies as spec;

use hk_answers::Metric;
use hk_answers::answer::read_answer;
use hk_answers::metrics::{read_metrics, read_tables};
use hk_answers::numbers::{read_front, read_ops, read_positive, read_time};
use hk_answers::refusal::read_later_refusal;
use hk_answers::told::{read_page, read_streams_told};
use hk_fragment_bytes::FragmentHead;
use hk_fragment_bytes::fragment_head::read_head;
use hk_frames::{Cursor, ReadError};
use hk_log::Version;
use hk_message_head::reply_kinds::{
    ADDED, FED, HELD, LAST_PART, LATER_DONE, LATER_REFUSED, LATEST, PAGE, PART, READY, STATS,
    STREAMS, TABLES,
};
use hk_model::{Answer, Front, Page, StreamsTold};
use hk_types::{FormFault, Refusal, Table, Time, VersionKey};
use hk_values::part::read_part;
use std::alloc::Global;

/// What a node replies in version 2.
#[derive(Drop)]
pub enum LaterReply {
    /// The change took effect; the node has had so many operations, 1 to 2^62.
    Done {
        ops: u64,
    },
    /// How far the node is, and each of its streams.
    Streams(StreamsTold),
    /// The answer to a query at the resolved time, and that time.
    Latest {
        t: Time,
        answer: Answer,
    },
    /// A page of rows.
    Page(Page),
    /// A chunk of what is sent, and how many facts come after it, 1 at least.
    Part {
        left: u64,
        facts: Vec<(VersionKey, Version)>,
    },
    /// The last chunk of it, and the head of all chunks, which has the number of their facts.
    LastPart {
        facts: Vec<(VersionKey, Version)>,
        head: FragmentHead,
    },
    /// How many facts were added so far.
    Added {
        count: u64,
    },
    /// The number of a pin, which is not 0, and the time that it keeps readable.
    Held {
        number: u64,
        t: Time,
    },
    /// The items took effect; the node has had so many operations, 1 to 2^62, and so many of the items were not known before.
    Fed {
        ops: u64,
        new: u64,
    },
    /// The node's range of readable times, as a wait ended.
    Ready {
        horizon: Time,
        readable: Time,
    },
    /// Numbers of what the node holds and did, which rise strictly by name and label. Who doesn't know a name skips it.
    Stats(Vec<Metric>),
    /// The tables of which it holds anything, which rise strictly.
    Tables(Vec<Table>),
    /// Why nothing happened.
    Refused(Refusal),
}

/// Reads the body of a kind of chunks, of pins, of refusals, or of what was fed.
#[tactic(auto, unfolding(crate::specs::LaterReplies::part_reply_of))]
fn read_part_reply(alloc: Global, cursor: &mut Cursor, kind: u8) -> Result<LaterReply, ReadError>
    ensures { GivesOrRunsOut (λ x. (spec.reply_seen x, cursor.new)) result (spec.part_reply_of kind cursor.old) }
{
    match kind {
        PART => {
            let left = read_positive(cursor)?;
            let facts = read_part(alloc, cursor)?;
            Ok(LaterReply::Part { left, facts })
        }
        LAST_PART => {
            let facts = read_part(alloc, cursor)?;
            let head = read_head(alloc, cursor)?;
            Ok(LaterReply::LastPart { facts, head })
        }
        ADDED => {
            let count = cursor.u64()?;
            Ok(LaterReply::Added { count })
        }
        HELD => {
            let number = read_positive(cursor)?;
            let t = read_time(cursor)?;
            Ok(LaterReply::Held { number, t })
        }
        LATER_REFUSED => {
            let why = read_later_refusal(cursor)?;
            Ok(LaterReply::Refused(why))
        }
        FED => {
            let ops = read_ops(cursor)?;
            let new = cursor.u64()?;
            Ok(LaterReply::Fed { ops, new })
        }
        _ => Err(ReadError::Fault(FormFault::BadKind)),
    }
}

/// Reads the body of a kind of version 2; another kind is `BadKind`.
#[tactic(auto, unfolding(crate::specs::LaterReplies::reply_of))]
pub(crate) fn read_later(
    alloc: Global,
    cursor: &mut Cursor,
    kind: u8,
) -> Result<LaterReply, ReadError>
    ensures { GivesOrRunsOut (λ x. (spec.reply_seen x, cursor.new)) result (spec.reply_of kind cursor.old) }
{
    match kind {
        LATER_DONE => {
            let ops = read_ops(cursor)?;
            Ok(LaterReply::Done { ops })
        }
        STREAMS => {
            let told = read_streams_told(alloc, cursor)?;
            Ok(LaterReply::Streams(told))
        }
        LATEST => {
            let t = read_time(cursor)?;
            let answer = read_answer(alloc, cursor)?;
            Ok(LaterReply::Latest { t, answer })
        }
        PAGE => {
            let page = read_page(alloc, cursor)?;
            Ok(LaterReply::Page(page))
        }
        READY => {
            let Front { horizon, readable } = read_front(cursor)?;
            Ok(LaterReply::Ready { horizon, readable })
        }
        STATS => {
            let metrics = read_metrics(alloc, cursor)?;
            Ok(LaterReply::Stats(metrics))
        }
        TABLES => {
            let tables = read_tables(alloc, cursor)?;
            Ok(LaterReply::Tables(tables))
        }
        _ => read_part_reply(alloc, cursor, kind),
    }
}
