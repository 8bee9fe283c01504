//! Fragments that go in chunks, where a message has no room for them.

use crate::link::{Link, unasked};
use hk_cli_input::Stop;
use hk_fragment_bytes::FragmentHead;
use hk_log::Version;
use hk_messages::{LaterReply, LaterRequest};
use hk_types::{FormFault, Refusal, Time, VersionKey};

/// Whether a fragment was refused since a message has no room for it.
pub(crate) fn is_too_long(why: &Refusal) -> bool {
    matches!(why, Refusal::Form(FormFault::TooLong))
}

/// How many bytes the facts of a chunk have at most.
const PART_BYTES: u32 = 8_388_608;

/// The most chunks of a fragment.
const MOST_PARTS: u64 = 4_294_967_296;

/// What receives the chunks of a fragment, one after the other.
pub(crate) trait Parts {
    /// Receives the facts of a chunk, or returns what stops the command.
    fn take(&mut self, facts: Vec<(VersionKey, Version)>) -> Result<(), Stop>;
}

/// The request of the chunk of this number, counted from 0, of what a node has applied since a time.
fn request_of(base: Time, number: u64) -> LaterRequest {
    if number > 0 {
        return LaterRequest::More;
    }
    let most_bytes = PART_BYTES;
    LaterRequest::Whole { base, most_bytes }
}

/// Passes on the chunk that a reply gives, and returns the head of its fragment where it is the last.
fn hand_part<P: Parts>(reply: LaterReply, parts: &mut P) -> Result<Option<FragmentHead>, Stop> {
    match reply {
        LaterReply::Part { facts, .. } => {
            parts.take(facts)?;
            Ok(None)
        }
        LaterReply::LastPart { facts, head } => {
            parts.take(facts)?;
            Ok(Some(head))
        }
        _none => Err(unasked()),
    }
}

/// Passes on what a node has applied since a time, or its full snapshot since 0, chunk by chunk, and returns the head of
/// all. It keeps one chunk.
pub(crate) fn hand_parts<P: Parts>(
    from: &mut Link,
    base: Time,
    parts: &mut P,
) -> Result<FragmentHead, Stop> {
    for number in 0..MOST_PARTS {
        let reply = from.granted_later(request_of(base, number))?;
        if let Some(head) = hand_part(reply, parts)? {
            return Ok(head);
        }
    }
    Err(Stop::ReadFault)
}

/// The request by which a node joins the chunks that were added to it.
pub(crate) fn taking(head: FragmentHead) -> LaterRequest {
    if head.base().number() == 0 {
        return LaterRequest::MergeParts(head);
    }
    LaterRequest::JoinParts(head)
}
