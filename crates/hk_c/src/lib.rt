//! Replicas for programs in other languages: bytes of requests in, bytes of replies out.
#![tactic(auto)]

ghost use Rattle.std.specs.Prelude.{◌≡◌, ◌++◌, true, None, Some, length, min, take, drop};
ghost use Rattle.hk_handle.specs.Calls.{AbsorbedAt, AtLive, Bounded, Called, Counts, Finished, Got, Listed, MergedAt, Opened, PrunedAt, Ranged, Tagged, Worded, asks_rows, copied_into, kept_reply};
ghost use Rattle.hk_handle.specs.Pages.{Pages, TagPaged};

mod words;

pub use hk_handle::{Bounds, Found, Handle, Paged, Replica};
use hk_handle::{MEMORY, close, copy_prefix, put_back, take_out, write_page};
use hk_model::Query;
use hk_types::{Key, Table, Tag};
use std::alloc::Global;
use words::line_of;

/// What a call returns that got a closed handle.
const CLOSED: u8 = 255;

/// The version of all of Vadungsil, as C ends a text.
const VERSION: &[u8] = b"0.1.0\0";

/// Opens a replica of a log. What the handle held before is freed. Returns 0, or the number of the refusal: 5 or 90.
#[unsafe(no_mangle)]
pub extern "C" fn hk_open(alloc: Global, handle: &mut Handle, log: u64, streams: u16) -> u8
    ensures { Opened handle.new.replica log streams result }
{
    hk_close(alloc, handle);
    match Replica::new(alloc, log, streams) {
        Err(why) => why.number(),
        Ok(replica) => match Box::new(alloc, replica) {
            Err(_refused) => MEMORY,
            Ok(boxed) => {
                put_back(alloc, handle, boxed);
                0
            }
        },
    }
}

/// Answers the requests, and keeps the replies, of which as much is copied as there is room. How many bytes there
/// are is written. The number of how the session ended, or 255 at a closed handle.
#[unsafe(no_mangle)]
pub extern "C" fn hk_call(
    alloc: Global,
    handle: &mut Handle,
    requests: &[u8],
    out: &mut [u8],
    written: &mut usize,
) -> u8
    ensures called { Called handle.old.replica handle.new.replica requests.now result }
    ensures written { written.new ≡ length (kept_reply handle.new.replica) }
    ensures copied { out.new ≡ copied_into out.old (kept_reply handle.new.replica) written.new }
{
    match take_out(alloc, handle) {
        None => {
            *written = 0;
            CLOSED
        }
        Some(mut replica) => {
            let number = replica.call(alloc, requests, out, written);
            put_back(alloc, handle, replica);
            number
        }
    }
}

/// Copies the reply of the last call from a position on, as much as there is room, and returns how much.
#[unsafe(no_mangle)]
pub extern "C" fn hk_reply(alloc: Global, handle: &mut Handle, from: usize, out: &mut [u8]) -> usize
    ensures kept { handle.new.replica ≡ handle.old.replica }
    ensures count { result ≡ min (length (drop from (kept_reply handle.old.replica))) (length out.old) }
    ensures copied { out.new ≡ take result (drop from (kept_reply handle.old.replica)) ++ drop result out.old }
{
    match take_out(alloc, handle) {
        None => 0,
        Some(replica) => {
            let copied = replica.copy_reply(from, out);
            put_back(alloc, handle, replica);
            copied
        }
    }
}

/// Frees the replica. A closed handle stays closed.
#[unsafe(no_mangle)]
pub extern "C" fn hk_close(alloc: Global, handle: &mut Handle)
    ensures { handle.new.replica ≡ None }
{
    close(alloc, handle);
}

/// The row of a table at a key at a time: whether there is one, its tag and length, and as much of its body as there
/// is room. 0, or the number of the refusal, or 255 at a closed handle.
#[unsafe(no_mangle)]
pub extern "C" fn hk_get(
    alloc: Global,
    handle: &mut Handle,
    time: u64,
    table: u16,
    key: u64,
    found: &mut Found,
    out: &mut [u8],
) -> u8
    ensures kept { handle.new.replica ≡ handle.old.replica }
    ensures got { Got handle.old.replica time table key found.new out.old out.new result }
{
    match take_out(alloc, handle) {
        None => CLOSED,
        Some(replica) => {
            let number = replica.tell_row(time, table, key, found, out);
            put_back(alloc, handle, replica);
            number
        }
    }
}

/// How many rows a table has at a time. 0, or the number of the refusal, or 255 at a closed handle.
#[unsafe(no_mangle)]
pub extern "C" fn hk_count(
    alloc: Global,
    handle: &mut Handle,
    time: u64,
    table: u16,
    count: &mut u64,
) -> u8
    ensures kept { handle.new.replica ≡ handle.old.replica }
    ensures counted { Counts handle.old.replica time table count.new result }
{
    match take_out(alloc, handle) {
        None => CLOSED,
        Some(replica) => {
            let counted = replica.count(alloc, time, Table::new(table));
            put_back(alloc, handle, replica);
            match counted {
                Err(why) => why.number(),
                Ok(number) => {
                    *count = number;
                    0
                }
            }
        }
    }
}

/// The range of the replica's readable times, and how many operations it has done. Returns 0, or 255 at a closed handle.
#[unsafe(no_mangle)]
pub extern "C" fn hk_front(alloc: Global, handle: &mut Handle, bounds: &mut Bounds) -> u8
    ensures kept { handle.new.replica ≡ handle.old.replica }
    ensures front { Bounded handle.old.replica bounds.new result }
{
    match take_out(alloc, handle) {
        None => CLOSED,
        Some(replica) => {
            *bounds = replica.bounds();
            put_back(alloc, handle, replica);
            0
        }
    }
}

/// Lists the rows that are answered from a key on, and keeps them. 0, or the number of the refusal.
fn list(
    alloc: Global,
    handle: &mut Handle,
    time: u64,
    query: &Query,
    low: Key,
    out: &mut [u8],
    needed: &mut usize,
) -> u8
    requires { asks_rows query.now ≡ true }
    ensures { Listed handle.old.replica handle.new.replica time query.now low needed.new out.old out.new result }
{
    match take_out(alloc, handle) {
        None => CLOSED,
        Some(mut replica) => {
            let number = replica.write_rows(alloc, time, query, low, out, needed);
            put_back(alloc, handle, replica);
            number
        }
    }
}

/// The rows of a table from a low key to a high one, both inside, at a time: each its key in 8 bytes, its tag in 4,
/// the length of its body in 2, the high byte first, and its body. As much as there is room; how many bytes they have
/// is written, and `hk_reply` copies the rest. Returns 0, or the number of the refusal, or 255 at a closed handle.
#[unsafe(no_mangle)]
pub extern "C" fn hk_range(
    alloc: Global,
    handle: &mut Handle,
    time: u64,
    table: u16,
    low: u64,
    high: u64,
    out: &mut [u8],
    needed: &mut usize,
) -> u8
    ensures { Ranged handle.old.replica handle.new.replica time table low high
        needed.new out.old out.new result }
{
    let (table, low, high) = (Table::new(table), Key::new(low), Key::new(high));
    let query = Query::Range { table, low, high };
    list(alloc, handle, time, &query, low, out, needed)
}

/// The rows of a table with a tag at a time, from a key on, as `hk_range` returns them.
#[unsafe(no_mangle)]
pub extern "C" fn hk_by_tag(
    alloc: Global,
    handle: &mut Handle,
    time: u64,
    table: u16,
    tag: u32,
    low: u64,
    out: &mut [u8],
    needed: &mut usize,
) -> u8
    ensures { Tagged handle.old.replica handle.new.replica time table tag low
        needed.new out.old out.new result }
{
    let (table, tag) = (Table::new(table), Tag::new(tag));
    let query = Query::ByTag { table, tag };
    list(alloc, handle, time, &query, Key::new(low), out, needed)
}

/// The first rows of a table from a low key to a high one, both inside, at a time: at most `most` of them, and no more
/// than 268,435,449 bytes. They are written as those of `hk_range`, and `page` has whether others follow, how many
/// rows there are, the key of the last, and how many bytes they have: the page after it has `low` above that key.
/// Returns 0, or the number of the refusal (25, 26, 6, 90), or 255 at a closed handle, and then `page` is all zeros.
/// Cost: O(log n + k · log n + b), n facts, k keys up to the first row that is left out, b bytes of the page.
#[unsafe(no_mangle)]
pub extern "C" fn hk_range_page(
    alloc: Global,
    handle: &mut Handle,
    time: u64,
    table: u16,
    low: u64,
    high: u64,
    most: u32,
    out: &mut [u8],
    page: &mut Paged,
) -> u8
    ensures { Pages handle.old.replica handle.new.replica time table low high most
        page.new out.old out.new result }
{
    match take_out(alloc, handle) {
        None => {
            *page = Paged::nothing();
            CLOSED
        }
        Some(mut replica) => {
            let (table, low, high) = (Table::new(table), Key::new(low), Key::new(high));
            let found = replica.page_of_range(alloc, time, table, low, high, most);
            let number = write_page(alloc, &mut replica, found, page, out);
            put_back(alloc, handle, replica);
            number
        }
    }
}

/// The first rows of a table with a tag, from a key on, at a time: at most `most` of them, written and reported as those
/// of `hk_range_page`, whose numbers it returns. Cost and memory: those of `hk_by_tag`, whatever `most` is.
#[unsafe(no_mangle)]
pub extern "C" fn hk_by_tag_page(
    alloc: Global,
    handle: &mut Handle,
    time: u64,
    table: u16,
    tag: u32,
    low: u64,
    most: u32,
    out: &mut [u8],
    page: &mut Paged,
) -> u8
    ensures { TagPaged handle.old.replica handle.new.replica time table tag low most
        page.new out.old out.new result }
{
    match take_out(alloc, handle) {
        None => {
            *page = Paged::nothing();
            CLOSED
        }
        Some(mut replica) => {
            let (table, tag, low) = (Table::new(table), Tag::new(tag), Key::new(low));
            let found = replica.page_of_tag(alloc, time, table, tag, low, most);
            let number = write_page(alloc, &mut replica, found, page, out);
            put_back(alloc, handle, replica);
            number
        }
    }
}

/// Applies the next piece of a stream of item frames: the items of the frames that are complete now, all or none of them.
/// An incomplete frame is kept for the next piece. Returns 0, or the number of the refusal, or 255 at a closed handle.
#[unsafe(no_mangle)]
pub extern "C" fn hk_absorb(alloc: Global, handle: &mut Handle, piece: &[u8]) -> u8
    ensures { AbsorbedAt handle.old.replica handle.new.replica piece.now result }
{
    match take_out(alloc, handle) {
        None => CLOSED,
        Some(mut replica) => {
            let number = replica.absorb(alloc, piece);
            put_back(alloc, handle, replica);
            number
        }
    }
}

/// Ends the stream of items, and begins another. 0, or 1 where a frame is cut off, or the fault that was met, or 255
/// at a closed handle.
#[unsafe(no_mangle)]
pub extern "C" fn hk_finish(alloc: Global, handle: &mut Handle) -> u8
    ensures { AtLive Finished handle.old.replica handle.new.replica result }
{
    match take_out(alloc, handle) {
        None => CLOSED,
        Some(mut replica) => {
            let number = replica.finish(alloc);
            put_back(alloc, handle, replica);
            number
        }
    }
}

/// Drops the versions that ended at this time or before, which becomes the oldest readable time. Returns 0, or the
/// number of the refusal, or 255 at a closed handle.
#[unsafe(no_mangle)]
pub extern "C" fn hk_prune(alloc: Global, handle: &mut Handle, horizon: u64) -> u8
    ensures { PrunedAt handle.old.replica handle.new.replica horizon result }
{
    match take_out(alloc, handle) {
        None => CLOSED,
        Some(mut replica) => {
            let number = replica.prune(horizon);
            put_back(alloc, handle, replica);
            number
        }
    }
}

/// Joins what another handle's replica holds. Returns 0, or the number of the refusal, or 255 where one is closed.
#[unsafe(no_mangle)]
pub extern "C" fn hk_merge(alloc: Global, handle: &mut Handle, peer: &mut Handle) -> u8
    ensures peer { peer.new.replica ≡ peer.old.replica }
    ensures merged { MergedAt handle.old.replica handle.new.replica peer.old.replica result }
{
    let Some(other) = take_out(alloc, peer) else {
        return CLOSED;
    };
    let number = match take_out(alloc, handle) {
        None => CLOSED,
        Some(mut replica) => {
            let number = replica.merge(&other);
            put_back(alloc, handle, replica);
            number
        }
    };
    put_back(alloc, peer, other);
    number
}

/// What a number means and what to do, in words: as much as there is room. How many bytes they have is returned, and
/// 0 for a number that no refusal has, or where memory ran out.
#[unsafe(no_mangle)]
pub extern "C" fn hk_words(alloc: Global, number: u8, out: &mut [u8]) -> usize
    ensures { Worded out.old out.new result }
{
    let line = line_of(alloc, number);
    let words = line.as_bytes();
    let _copied = copy_prefix(words, out);
    words.len()
}

/// The version of this library, with a zero byte at its end: as much as there is room. How many bytes that has is
/// returned.
#[unsafe(no_mangle)]
pub extern "C" fn hk_version(out: &mut [u8]) -> usize
    ensures count { result ≡ length VERSION.now }
    ensures copied { out.new ≡ copied_into out.old VERSION.now result }
{
    let _copied = copy_prefix(VERSION, out);
    VERSION.len()
}
