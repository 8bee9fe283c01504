//! Replies of both versions.

ghost use Rattle.hk_frames.specs.Fields.{GivesOrRunsOut};
ghost use Rattle.hk_messages.specs.Replies as spec;

use crate::later_reply::{LaterReply, read_later};
use hk_answers::answer::read_answer;
use hk_answers::numbers::{read_front, read_ops};
use hk_answers::refusal::read_refusal;
use hk_fragment::Fragment;
use hk_frames::{Cursor, Format, FrameFeeder, ReadError};
use hk_message_head::head::{read_end, read_head};
use hk_message_head::reply_kinds::{ANSWER, DONE, FRAGMENT, FRONT, REFUSED};
use hk_model::{Answer, Front};
use hk_types::Refusal;
use hk_values::fragment_reading::read_fragment;
use std::alloc::Global;

/// What a replica replies.
#[derive(Drop)]
pub enum Reply {
    /// The change took effect; the replica has had so many operations, 1 to 2^62.
    Done { ops: u64 },
    /// The replica's range of readable times.
    Front(Front),
    /// A delta of what the replica holds, or a full snapshot.
    Fragment(Fragment),
    /// The answer to a query.
    Answer(Answer),
    /// Why nothing happened.
    Refused(Refusal),
    /// What is replied in version 2.
    Later(LaterReply),
}

/// The latest version that is read.
const LATEST: u8 = 2;

/// Reads the body of a kind.
#[tactic(auto, unfolding(crate::specs::Replies::reply_of))]
fn read_body(alloc: Global, cursor: &mut Cursor, kind: u8) -> Result<Reply, ReadError>
    ensures { GivesOrRunsOut (λ x. (spec.reply_seen x, cursor.new)) result (spec.reply_of kind cursor.old) }
{
    match kind {
        DONE => {
            let ops = read_ops(cursor)?;
            Ok(Reply::Done { ops })
        }
        FRONT => {
            let front = read_front(cursor)?;
            Ok(Reply::Front(front))
        }
        FRAGMENT => {
            let fragment = read_fragment(alloc, cursor)?;
            Ok(Reply::Fragment(fragment))
        }
        ANSWER => {
            let answer = read_answer(alloc, cursor)?;
            Ok(Reply::Answer(answer))
        }
        REFUSED => {
            let why = read_refusal(cursor)?;
            Ok(Reply::Refused(why))
        }
        _ => {
            let reply = read_later(alloc, cursor, kind)?;
            Ok(Reply::Later(reply))
        }
    }
}

/// The reply that is all of the rest.
#[tactic(auto, unfolding(crate::specs::Replies::reply_at, hk_message_head::specs::Messages::message_at))]
fn read_reply(alloc: Global, rest: &[u8]) -> Result<Reply, ReadError>
    ensures { GivesOrRunsOut spec.reply_seen result (spec.reply_at rest.now) }
{
    let mut cursor = Cursor::new(rest);
    let kind = read_head(&mut cursor, LATEST)?;
    let reply = read_body(alloc, &mut cursor, kind)?;
    read_end(&cursor)?;
    Ok(reply)
}

/// The format of replies of both versions.
#[derive(Debug, Drop)]
pub struct ReplyFormat;

impl Format for ReplyFormat {
    ghost use Rattle.hk_messages.specs.Replies.{reply_format, AddsReplies};

    type Value = Reply;

    type Spare = ();

    ghost LEAST_BYTES = { 2 };

    ghost MOST_BYTES = { 268435456 };

    ghost format = { reply_format };

    ghost Adds = { AddsReplies };

    const LEAST_BYTES: usize = 2;

    const MOST_BYTES: usize = 268_435_456;

    fn read_rest(alloc: Global, rest: &[u8], _spare: &mut ()) -> Result<Reply, ReadError> {
        read_reply(alloc, rest)
    }

    fn laws() {}
}

/// Reads replies of both versions from a stream that comes in pieces. It keeps less than a frame, or the fault that it met; a
/// request's kind is `BadKind`. Cost of `feed`: O(n · log n), n bytes of the piece and of the frames that are complete now:
/// one pass over those frames, where the numbers and marks of a fragment or a head take the logarithm, and one copy of the
/// bytes that are left.
pub type ReplyFeeder = FrameFeeder<ReplyFormat>;
