//! Reading item frames.

ghost use Rattle.std.specs.Prelude.{◌≡◌, List, [], ◌∷◌, is_ok, slice_index_or, OnOk, OnErr};
ghost use Rattle.hk_cli_input.specs.Taking.{TookMore, TookFront, TookNone, Gave, GaveAll};
ghost use Rattle.hk_cli_input.specs.Items.{TookItems, TookFirstItems, GoesOn, BreaksOff};

use crate::pieces::{MOST_READS, new_piece, read_next};
use crate::stop::Stop;
use hk_cli_reasons::{Origin, Place, RequestContext};
use hk_codec::{ItemFormat, ItemOutline, OutlineFormat, pieces_join};
use hk_frames::{Format, FrameFeeder};
use hk_log::{Item, Spare};
use hk_message_head::request_kinds::request_kind;
use hk_types::{Refusal, StreamNo};
use std::alloc::Global;
use std::io::Read;

/// How many bytes of a piece are decoded at a time, so that the next items take the memory that the last ones gave back.
const PART_BYTES: usize = 1_024;

/// For how many items room is made before a part is decoded, and of how many spare room is kept.
const PART_ITEMS: usize = 8;

/// What the items of an input are read as: whole, or as their outlines.
pub trait FromFrame: Drop {
    ghost use Rattle.std.specs.Prelude.{ℕ, List, [], Result, Ok};
    ghost use Rattle.hk_types.specs.declared.faults.FormFault.{FormFault};
    ghost use Rattle.hk_frames.specs.Framing.{PiecesJoin};
    ghost use Rattle.hk_cli_input.specs.Items.{AddsRead};

    /// How it stands in frames.
    type Format: Format<Value = Self>;

    /// What a text is read as so far.
    ghost Reads: { List ℕ → List Self → Result (List ℕ) FormFault → Type 0 };

    /// Its log and its stream.
    fn place(&self) -> (u64, StreamNo);

    /// Spare room for a part's items, none of which is filled yet.
    fn spare(alloc: Global) -> <Self::Format as Format>::Spare;

    /// Does nothing: what is read is what frames add, and a text in pieces is read as one.
    fn laws()
        ensures none { Reads [] [] (Ok []) }
        ensures adds { AddsRead Self.Format.Adds Reads }
        ensures join { PiecesJoin Reads };
}

impl FromFrame for Item {
    ghost use Rattle.hk_codec.specs.Frames.{Reads};

    type Format = ItemFormat;

    ghost Reads = { Reads };

    fn place(&self) -> (u64, StreamNo) {
        match self {
            Item::Commit(entry) => (entry.log(), entry.stream()),
            Item::Closed(mark) => (mark.log(), mark.stream()),
        }
    }

    fn spare(alloc: Global) -> Spare {
        Spare::new(alloc, PART_ITEMS)
    }

    fn laws() {
        pieces_join();
    }
}

impl FromFrame for ItemOutline {
    ghost use Rattle.hk_codec.specs.Outlines.{ReadsOutlines};

    type Format = OutlineFormat;

    ghost Reads = { ReadsOutlines };

    fn place(&self) -> (u64, StreamNo) {
        match self {
            ItemOutline::Commit(entry) => (entry.log, entry.stream),
            ItemOutline::Closed(mark) => (mark.log(), mark.stream()),
        }
    }

    fn spare(_alloc: Global) {}

    fn laws() {
        pieces_join();
    }
}

/// What receives the items of an input, one after the other.
pub trait Sink {
    /// What each item is read as.
    type Item: FromFrame;

    ghost took: { Self → List Self.Item → Self → Type 0 };

    /// Receives the next item, or returns what stops the command; then it did not take the item. What it needs no more of
    /// an item it may leave in `spare`, for the next ones.
    fn take(
        &mut self,
        item: Self::Item,
        spare: &mut <<Self::Item as FromFrame>::Format as Format>::Spare,
    ) -> Result<(), Stop>
        ensures ok { OnOk result (TookMore took self.old self.new (item ∷ [])) }
        ensures err { OnErr result (TookNone took self.old self.new) };
}

/// The kind of the first frame of an input, by its first bytes; 0 where they don't reach so far.
pub fn kind_at_head(piece: &[u8]) -> u8
    ensures { result ≡ slice_index_or piece.now 5 0 }
{
    match piece.get(5) {
        Some(kind) => *kind,
        None => 0,
    }
}

/// What was asked where the first frame of an input has this kind, and is no item.
fn asked_at_head(kind: u8) -> RequestContext {
    match request_kind(kind) {
        Some(_row) => RequestContext::RequestsAsItems,
        None => RequestContext::Nothing,
    }
}

/// The origin of an item that comes after so many frames.
fn origin_of(frames: u64, asked: RequestContext) -> Origin {
    let place = Place::Frame(frames.saturating_add(1));
    Origin { place, asked }
}

/// Passes items to the sink, and counts those that it accepted.
fn take_all<S: Sink>(
    items: Vec<S::Item>,
    sink: &mut S,
    spare: &mut <<S::Item as FromFrame>::Format as Format>::Spare,
    frames: &mut u64,
) -> Result<(), Stop>
    ensures ok { OnOk result (TookMore S.took sink.old sink.new items.items) }
    ensures err { OnErr result (TookFront S.took sink.old sink.new items.items) }
{
    for item in items {
        let (log, stream) = item.place();
        if let Err(stop) = sink.take(item, spare) {
            return Err(stop.at(origin_of(*frames, RequestContext::Item { log, stream })));
        }
        *frames = frames.saturating_add(1);
    }
    Ok(())
}

/// What an answer of a feeder stops, behind so many frames of an input whose first has this kind.
fn checked(fed: Result<(), Refusal>, frames: u64, kind: u8) -> Result<(), Stop>
    ensures { is_ok result ≡ is_ok fed }
{
    match fed {
        Ok(()) => Ok(()),
        Err(why) if frames == 0 => Err(Stop::RefusedAt(why, origin_of(0, asked_at_head(kind)))),
        Err(why) => Err(Stop::RefusedAt(why, origin_of(frames, RequestContext::Nothing))),
    }
}

/// Where a reading of frames is.
#[derive(Drop)]
struct Position {
    /// How many frames' items the sink accepted.
    count: u64,
    /// The kind of the first frame, once it is there.
    kind: u8,
}

/// Hands on the items that a piece completes.
fn take_piece<S: Sink>(
    alloc: Global,
    feeder: &mut FrameFeeder<<S::Item as FromFrame>::Format>,
    spare: &mut <<S::Item as FromFrame>::Format as Format>::Spare,
    at: &mut Position,
    sink: &mut S,
    piece: &[u8],
) -> Result<(), Stop>
    ensures ok { OnOk result (GoesOn S.Item.Reads S.took sink.old sink.new feeder.old feeder.new piece.now) }
    ensures err { OnErr result (BreaksOff S.Item.Reads S.took sink.old sink.new feeder.old piece.now) }
{
    if at.kind == 0 {
        at.kind = kind_at_head(piece);
    }
    for part in piece.chunks(PART_BYTES) {
        S::Item::laws();
        let mut items = Vec::new(alloc);
        // (where there is no room for them at once, it is made as they come)
        let _room = items.reserve(PART_ITEMS);
        let fed = feeder.feed_with(part, spare, &mut items);
        take_all(items, sink, spare, &mut at.count)?;
        checked(fed, at.count, at.kind)?;
    }
    Ok(())
}

/// Passes the items of the input to the sink in their order, up to the end, or to what stops them first: the sink, a
/// fault of the input, or a read. Cost: O(n), n bytes of the input, and that of the sink.
pub fn hand_items<I: Read, S: Sink>(alloc: Global, input: &mut I, sink: &mut S) -> Result<(), Stop>
    // The sink took the items that all bytes encode, in their order.
    ensures all { OnOk result (GaveAll I.remaining input.old input.new
        (TookItems S.Item.Reads S.took sink.old sink.new)) }
    // It took the first of them.
    ensures part { OnErr result (Gave I.remaining input.old input.new
        (TookFirstItems S.Item.Reads S.took sink.old sink.new)) }
{
    S::Item::laws();
    let mut room = new_piece(alloc)?;
    let piece = room.as_mut_slice();
    let mut feeder = FrameFeeder::new(alloc);
    let mut spare = S::Item::spare(alloc);
    let mut at = Position { count: 0, kind: 0 };
    for _ in 0..MOST_READS {
        let count = read_next(input, piece)?;
        if count == 0 {
            return checked(feeder.finish(), at.count, at.kind);
        }
        take_piece(
            alloc,
            &mut feeder,
            &mut spare,
            &mut at,
            sink,
            &piece[..count],
        )?;
    }
    Err(Stop::ReadFault)
}
