//! All items of bytes that are all there, read by several threads.

ghost use Rattle.std.specs.Prelude.{◌≡◌, ◌≤◌, Ok, length, drop, All, IfOk, IfErr, IfSome};
ghost use Rattle.hk_types.specs.declared.faults.Refusal.TheVariants as refusals;
ghost use Rattle.hk_codec.specs.Frames.{Adds, Decodes, rest_of};
ghost use Rattle.hk_decode.specs.Parts.{HasRead, IsPart};

use hk_codec::{ItemFormat, take_items};
use hk_frames::{Format, LENGTH_BYTES, Progress, length_of};
use hk_log::Item;
use hk_types::{FormFault, Refusal};
use rayon::prelude::*;
use std::alloc::{AllocError, Global};
use std::thread::Threads;

/// How many bytes a chunk has at least, but the last one.
const PART_BYTES: usize = 65_536;

/// A chunk of a text.
#[derive(Clone, Copy)]
struct Span {
    start: usize,
    end: usize,
}

/// What was read from a chunk of a text, where it is complete frames with no fault.
#[derive(Drop)]
struct Part {
    span: Span,
    items: Option<Vec<Item>>,
}

/// How many bytes the frame at the front has, as its length field says; 0 where it is none or not all there.
fn frame_bytes(bytes: &[u8]) -> usize
    ensures { result ≤ length bytes.now }
{
    if bytes.len() < LENGTH_BYTES {
        return 0;
    }
    let rest = length_of(bytes);
    if rest > ItemFormat::MOST_BYTES
        || rest < ItemFormat::LEAST_BYTES
        || bytes.len() - LENGTH_BYTES < rest
    {
        return 0;
    }
    LENGTH_BYTES + rest
}

/// Chunks of complete frames, one after the other, as the length fields say.
fn spans(alloc: Global, bytes: &[u8]) -> Result<Vec<Span>, AllocError>
    ensures { IfOk result (λ v. All (λ s. (s.start ≤ s.end) × (s.end ≤ length bytes.now)) v.items) }
{
    let mut spans = Vec::new(alloc);
    let mut start = 0;
    let mut end = 0;
    'frames: loop {
        let frame = frame_bytes(&bytes[end..]);
        if frame == 0 {
            break;
        }
        end += frame;
        if end - start >= PART_BYTES {
            spans.push(Span { start, end })?;
            start = end;
        }
    }
    spans.push(Span { start, end })?;
    Ok(spans)
}

/// The items of complete frames, or `None` where there is a fault or no memory.
fn items_of(alloc: Global, bytes: &[u8]) -> Option<Vec<Item>>
    ensures { IfSome result (λ v. Decodes bytes.now (Ok v)) }
{
    decode_alone(alloc, bytes).ok()
}

fn read_part(alloc: Global, bytes: &[u8], span: Span) -> Part
    requires { (span.start ≤ span.end) × (span.end ≤ length bytes.now) }
    ensures { IfSome result.items (λ v. IsPart bytes.now result.span.start result.span.end v.items) }
{
    let items = items_of(alloc, &bytes[span.start..span.end]);
    Part { span, items }
}

/// What is read from each chunk, by several threads.
fn read_parts(
    rt: &(impl Threads + Sync),
    alloc: Global,
    bytes: &[u8],
    spans: &[Span],
) -> Result<Vec<Part>, AllocError>
    requires { All (λ s. (s.start ≤ s.end) × (s.end ≤ length bytes.now)) spans.now }
    ensures { IfOk result (λ v. All (λ p. IfSome p.items (λ v. IsPart bytes.now p.span.start p.span.end v.items)) v.items) }
{
    spans
        .par_iter()
        .with_min_len(1)
        .map(
            |span: &Span| -> Part
                requires { (span.now.start ≤ span.now.end) × (span.now.end ≤ length bytes.now) }
                ensures { IfSome result.items (λ v. IsPart bytes.entry.now result.span.start result.span.end v.items) }
            { read_part(alloc, bytes, *span) },
        )
        .collect(rt, alloc)
}

/// Adds the items of the chunks, one after the other from the front of the bytes, up to the first that was not read.
/// It returns how many bytes their frames have.
fn take_parts(bytes: &[u8], parts: Vec<Part>, out: &mut Vec<Item>) -> Result<usize, AllocError>
    requires { All (λ p. IfSome p.items (λ v. IsPart bytes.now p.span.start p.span.end v.items)) parts.items }
    ensures { IfOk result (λ used. HasRead bytes.now out.old.items out.new.items used) }
{
    let mut used = 0;
    for Part { span, items } in parts {
        if span.start != used {
            break;
        }
        let Some(mut items) = items else {
            break;
        };
        out.append(&mut items)?;
        used = span.end;
    }
    Ok(used)
}

/// Adds the items of the complete frames that the bytes begin with.
fn take_side_by_side(
    rt: &(impl Threads + Sync),
    alloc: Global,
    bytes: &[u8],
    out: &mut Vec<Item>,
) -> Result<Progress, Refusal>
    ensures used { IfOk result (λ p. p.used ≤ length bytes.now) }
    ensures read { IfOk result (λ p. Adds out.old.items out.new.items bytes.now (rest_of (drop p.used bytes.now) p.fault)) }
    ensures memory { IfErr result (λ e. e ≡ refusals.Memory) }
{
    let spans = spans(alloc, bytes)?;
    let parts = read_parts(rt, alloc, bytes, &spans)?;
    let used = take_parts(bytes, parts, out)?;
    // Less than a frame is left here, or a chunk with a fault, unless memory ran out.
    let progress = take_items(alloc, &bytes[used..], out)?;
    Ok(Progress {
        used: used + progress.used,
        fault: progress.fault,
    })
}

/// The items whose encodings, one after another, are all of the bytes, by this thread alone.
fn decode_alone(alloc: Global, bytes: &[u8]) -> Result<Vec<Item>, Refusal>
    ensures { Decodes bytes.now result }
{
    let mut items = Vec::new(alloc);
    let progress = take_items(alloc, bytes, &mut items)?;
    if let Some(fault) = progress.fault {
        return Err(Refusal::Form(fault));
    }
    if progress.used < bytes.len() {
        return Err(Refusal::Form(FormFault::Truncated));
    }
    Ok(items)
}

/// The items whose encodings, one after another, are all of the bytes. Else the fault of what follows the complete
/// encodings that the bytes begin with, which is `Truncated` where they end inside a frame; or `Memory`.
///
/// Chunks of complete frames, of 65,536 bytes at least, are read by as many threads as there are processors. It joins
/// them, so it waits: its result is promised if it returns. Bytes of less than two chunks are read by this thread
/// alone. Cost: O(n), n bytes: two passes over them, one of them over the length fields alone; where a chunk has a
/// fault, or memory ran out in it, the frames from its first on are read once more.
pub fn decode_all(
    rt: &(impl Threads + Sync),
    alloc: Global,
    bytes: &[u8],
) -> Result<Vec<Item>, Refusal>
    ensures { Decodes bytes.now result }
{
    if bytes.len() < 2 * PART_BYTES {
        return decode_alone(alloc, bytes);
    }
    let mut items = Vec::new(alloc);
    let progress = take_side_by_side(rt, alloc, bytes, &mut items)?;
    if let Some(fault) = progress.fault {
        return Err(Refusal::Form(fault));
    }
    if progress.used < bytes.len() {
        return Err(Refusal::Form(FormFault::Truncated));
    }
    Ok(items)
}
