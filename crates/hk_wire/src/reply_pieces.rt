//! The one encoding of a reply, in pieces.

ghost use Rattle.std.specs.Prelude.{◌≡◌, ◌≤◌, ◌<◌, ◌+◌, ◌-◌, ◌^◌, ◌++◌, true, length, take, OnOk, OnErr, IfOk, IfErr, IfSome, IfNone};
ghost use Rattle.hk_fragment_bytes.specs.Parts.{head_is_counted, wire_head_of};
ghost use Rattle.hk_messages.specs.LaterReplies as later;
ghost use Rattle.hk_messages.specs.Replies as replies;
ghost use Rattle.hk_wire.specs.Pieces as spec;

use hk_answers::answer::{put_answer_front, put_answer_rows, put_rows_from, row_count};
use hk_answers::told::put_page_front;
use hk_encodings::reply_encoding::reply_len;
use hk_fragment_bytes::FragmentHead;
use hk_fragment_bytes::fragment_encoding::{put_facts_from, put_fragment_front};
use hk_frames::{put_u32, put_u64};
use hk_log::Version;
use hk_message_head::head::put_plain_head;
use hk_messages::later_reply_encoding::put_later;
use hk_messages::reply_body::{kind_of, put_body};
use hk_messages::{LaterReply, Reply};
use hk_types::{FormFault, Refusal, VersionKey};
use std::alloc::AllocError;

/// More than so many bytes of facts or rows end a piece.
const MOST_PIECE_BYTES: usize = 65_536;

/// What is reserved for the first piece at most: a piece's bytes, a fact or a row more, and a head without marks that wait.
const FIRST_ROOM: usize = 73_728;

/// A place in the encoding of a reply, where a piece of it begins: its start, or before one of its facts or rows.
#[derive(Clone, Copy, Debug, PartialEq, Eq)]
pub struct Place {
    /// How many of the facts or rows come before it.
    pub items: usize,
    /// How many bytes of the encoding come before it: 0 at the start alone.
    pub bytes: usize,
    /// How many bytes of it come behind it; at the start 0, since they aren't counted yet.
    pub left: usize,
}

impl Place {
    /// The start of an encoding.
    pub fn start() -> Place
        ensures { result ≡ record { items = 0; bytes = 0; left = 0 } }
    {
        Place {
            items: 0,
            bytes: 0,
            left: 0,
        }
    }
}

/// How many facts or rows a reply of version 2 has, between which its encoding is divided; the head of a last chunk counts as
/// one more behind its facts.
fn later_count(reply: &LaterReply) -> usize
    ensures { result ≡ spec.later_count (later.reply_seen reply.now) }
{
    match reply {
        LaterReply::Latest { t: _, answer } => row_count(answer),
        LaterReply::Page(page) => page.rows.len(),
        LaterReply::Part { left: _, facts } => facts.len(),
        LaterReply::LastPart { facts, head: _ } => facts.len() + 1,
        _ => 0,
    }
}

/// How many facts or rows a reply has, between which its encoding is divided.
fn count_of(reply: &Reply) -> usize
    ensures { result ≡ spec.count_of (replies.reply_seen reply.now) }
{
    match reply {
        Reply::Fragment(fragment) => fragment.facts().len(),
        Reply::Answer(answer) => row_count(answer),
        Reply::Later(later) => later_count(later),
        _ => 0,
    }
}

/// Adds what the body of a reply of version 2 has before its facts or rows.
#[tactic(auto, using(hk_frames::proofs::Put::all))]
fn put_later_front(out: &mut Vec<u8>, reply: &LaterReply) -> Result<(), AllocError>
    requires { later.keeps_rules (later.reply_seen reply.now) ≡ true }
    ensures ok { OnOk result (out.new.items ≡ out.old.items ++ spec.later_front (later.reply_seen reply.now)) }
    ensures kept { OnErr result (take (length out.old.items) out.new.items ≡ out.old.items) }
{
    match reply {
        LaterReply::Latest { t, answer } => {
            put_u64(out, t.number())?;
            put_answer_front(out, answer)
        }
        LaterReply::Page(page) => put_page_front(out, page),
        LaterReply::Part { left, facts } => {
            put_u64(out, *left)?;
            put_u32(out, facts.len() as u32)
        }
        LaterReply::LastPart { facts, head: _ } => put_u32(out, facts.len() as u32),
        _ => put_later(out, reply),
    }
}

/// Adds what the body of a reply has before its facts or rows.
fn put_front(out: &mut Vec<u8>, reply: &Reply) -> Result<(), AllocError>
    requires { replies.keeps_rules (replies.reply_seen reply.now) ≡ true }
    ensures ok { OnOk result (out.new.items ≡ out.old.items ++ spec.body_front (replies.reply_seen reply.now)) }
    ensures kept { OnErr result (take (length out.old.items) out.new.items ≡ out.old.items) }
{
    match reply {
        Reply::Fragment(fragment) => put_fragment_front(out, fragment),
        Reply::Answer(answer) => put_answer_front(out, answer),
        Reply::Later(later) => put_later_front(out, later),
        _ => put_body(out, reply),
    }
}

/// Adds facts of a last chunk, and its head behind them, as `put_some` does.
#[tactic(auto, using(hk_frames::proofs::Put::all))]
fn put_last_some(
    out: &mut Vec<u8>,
    facts: &[(VersionKey, Version)],
    head: &FragmentHead,
    from: usize,
) -> Result<usize, AllocError>
    requires counted { head_is_counted (wire_head_of head.now) ≡ true }
    requires place { from ≤ length facts.now + 1 }
    ensures ok { IfOk result (λ to. spec.AddsLast facts.now head.now from to
        out.old.items out.new.items) }
    ensures kept { OnErr result (take (length out.old.items) out.new.items ≡ out.old.items) }
{
    if from > facts.len() {
        return Ok(from);
    }
    let to = put_facts_from(out, facts, from, MOST_PIECE_BYTES)?;
    if to < facts.len() {
        return Ok(to);
    }
    head.put_to(out)?;
    Ok(to + 1)
}

/// Adds facts or rows of a reply of version 2, as `put_some` does.
fn put_later_some(out: &mut Vec<u8>, reply: &LaterReply, from: usize) -> Result<usize, AllocError>
    requires rules { later.keeps_rules (later.reply_seen reply.now) ≡ true }
    requires place { from ≤ spec.later_count (later.reply_seen reply.now) }
    ensures ok { IfOk result (λ to. spec.AddsLaterItems reply.now from to
        out.old.items out.new.items) }
    ensures kept { OnErr result (take (length out.old.items) out.new.items ≡ out.old.items) }
{
    match reply {
        LaterReply::Latest { t: _, answer } => put_answer_rows(out, answer, from, MOST_PIECE_BYTES),
        LaterReply::Page(page) => put_rows_from(out, &page.rows, from, MOST_PIECE_BYTES),
        LaterReply::Part { left: _, facts } => put_facts_from(out, facts, from, MOST_PIECE_BYTES),
        LaterReply::LastPart { facts, head } => put_last_some(out, facts, head, from),
        _ => Ok(from),
    }
}

/// Adds facts or rows from the one of this number on: all that are left, or as many as have more than 65,536 bytes. Returns the
/// number of the next, which is how many there are where none is left.
fn put_some(out: &mut Vec<u8>, reply: &Reply, from: usize) -> Result<usize, AllocError>
    requires rules { replies.keeps_rules (replies.reply_seen reply.now) ≡ true }
    requires place { from ≤ spec.count_of (replies.reply_seen reply.now) }
    ensures ok { IfOk result (λ to. spec.AddsItemsOf reply.now from to
        out.old.items out.new.items) }
    ensures kept { OnErr result (take (length out.old.items) out.new.items ≡ out.old.items) }
{
    match reply {
        Reply::Fragment(fragment) => put_facts_from(out, fragment.facts(), from, MOST_PIECE_BYTES),
        Reply::Answer(answer) => put_answer_rows(out, answer, from, MOST_PIECE_BYTES),
        Reply::Later(later) => put_later_some(out, later, from),
        _ => Ok(from),
    }
}

/// Adds the first piece of a reply's frame, whose rest has so many bytes, and returns the number of the next fact or row.
#[tactic(auto, using(hk_frames::proofs::Put::all))]
fn put_first(out: &mut Vec<u8>, reply: &Reply, rest: u32) -> Result<usize, AllocError>
    requires len { rest ≡ length (replies.reply_rest (replies.reply_seen reply.now)) }
    requires rules { replies.keeps_rules (replies.reply_seen reply.now) ≡ true }
    ensures ok { IfOk result (λ to. spec.AddsFront (replies.reply_seen reply.now) to out.old.items out.new.items) }
    ensures kept { OnErr result (take (length out.old.items) out.new.items ≡ out.old.items) }
{
    out.reserve((4 + rest as usize).min(FIRST_ROOM))?;
    put_plain_head(out, rest, kind_of(reply))?;
    put_front(out, reply)?;
    put_some(out, reply, 0)
}

/// The place behind what was added of a reply, up to the fact or row of this number, or `None` where that is all.
fn place_behind(
    reply: &Reply,
    items: usize,
    begun: usize,
    left: usize,
    added: usize,
) -> Option<Place>
    requires added { added ≤ left }
    requires fits { begun + left < 2 ^ 64 }
    ensures none { IfNone result (spec.count_of (replies.reply_seen reply.now) ≤ items) }
    ensures some { IfSome result (λ p. items < spec.count_of (replies.reply_seen reply.now)) }
    ensures place { IfSome result (λ p. p ≡ record { items = items; bytes = begun + added; left = left - added }) }
{
    if items >= count_of(reply) {
        return None;
    }
    Some(Place {
        items,
        bytes: begun + added,
        left: left - added,
    })
}

/// The first piece, as `encode_piece` adds it.
fn encode_first(reply: &Reply, out: &mut Vec<u8>) -> Result<Option<Place>, Refusal>
    ensures ok { IfOk result (λ next. spec.AddsPieceOf reply.now 0 next out.old.items out.new.items) }
    ensures err { OnErr result (out.new.items ≡ out.old.items) }
    ensures why { IfErr result (λ why. replies.IsRefusedAs reply.now why) }
{
    let Some(rest) = reply_len(reply) else {
        return Err(Refusal::Form(FormFault::TooLong));
    };
    let start = out.len();
    let Ok(items) = put_first(out, reply, rest) else {
        out.truncate(start);
        return Err(Refusal::Memory);
    };
    let added = out.len() - start;
    Ok(place_behind(reply, items, 0, 4 + rest as usize, added))
}

/// A piece that begins inside of the encoding, as `encode_piece` adds it.
fn encode_next(reply: &Reply, from: Place, out: &mut Vec<u8>) -> Result<Option<Place>, AllocError>
    requires { spec.IsInside (replies.reply_seen reply.now) from }
    ensures ok { IfOk result (λ next. spec.AddsPieceOf reply.now from.bytes next
        out.old.items out.new.items) }
    ensures err { OnErr result (out.new.items ≡ out.old.items) }
{
    let start = out.len();
    let Ok(items) = put_some(out, reply, from.items) else {
        out.truncate(start);
        return Err(AllocError);
    };
    let added = out.len() - start;
    Ok(place_behind(reply, items, from.bytes, from.left, added))
}

/// Adds the next piece of a reply's one encoding, which begins at this place, at the end, and returns where the one after it
/// begins, or `None` where the reply is complete. A piece has more than 65,536 bytes, or is the last; it ends behind the first
/// fact of a fragment or a chunk, or row of an answer or a page, with which its facts or rows have so many. What a reply has
/// before these, as the head of a fragment, is in its first piece, the head of a last chunk is in its last one, and a reply of
/// another kind is one piece. Pieces one after the other, from the
/// start on, are what `encode_reply` adds.
///
/// The first piece tests and counts the reply: one that has no encoding is refused `Form(TooLong)`, as `encode_reply` says.
/// After that comes `Memory`, for each piece. On a refusal the output is as before, and the same piece can be asked for again.
/// Cost: O(n), n bytes of the piece; of the first one two passes over the reply beside.
pub fn encode_piece(reply: &Reply, from: Place, out: &mut Vec<u8>) -> Result<Option<Place>, Refusal>
    requires { spec.IsPlace (replies.reply_seen reply.now) from }
    ensures ok { IfOk result (λ next. spec.AddsPieceOf reply.now from.bytes next
        out.old.items out.new.items) }
    ensures err { OnErr result (out.new.items ≡ out.old.items) }
    ensures why { IfErr result (λ why. replies.IsRefusedAs reply.now why) }
{
    if from.bytes == 0 {
        return encode_first(reply, out);
    }
    match encode_next(reply, from, out) {
        Ok(next) => Ok(next),
        Err(AllocError) => Err(Refusal::Memory),
    }
}
