//! The position of a connection's bytes in their frames, without a look at what the frames contain.

ghost use Rattle.std.specs.Prelude.{◌≡◌, ◌≢◌, ◌<◌, ◌≤◌, ◌+◌, ◌-◌, ◌||◌, nat_lt, true, [], take, drop, length, IfSome, IfNone};
ghost use Rattle.hk_frames.specs.Framing.{len_of};
ghost use Rattle.hk_doors.specs.Doors.{passes_all};
ghost use Rattle.hk_doors.specs.Handing.{HandsOnFirst, IsHead, JudgesFirst, behind, inside};
ghost use Rattle.hk_doors.specs.declared.frame_watch.Then.TheVariants as thens;

use crate::heads::{HEAD_BYTES, Weight, head_len, judge, weight_of};
use crate::passes::Passes;
use hk_frames::{LENGTH_BYTES, length_of};
use std::marker::Model;
use std::mem;

/// How many frames are handed on at most before others have their turn.
const MOST_FRAMES: u32 = 32;

/// How many reads a frame may take at least.
const FREE_READS: u64 = 64;

/// For so many bytes of its length a frame may take one read more.
const BYTES_A_READ: u64 = 64;

/// The position of a connection in its frames: how many bytes the frame that it is inside has, how many of them are still to come, and
/// the first bytes of one that can't be judged yet.
#[derive(Drop)]
pub struct FrameWatch {
    whole: u64,
    left: u64,
    reads: u64,
    /// Whether nothing is handed on together with what follows this frame.
    is_alone: bool,
    begun: [u8; HEAD_BYTES],
    begun_count: usize,
}

impl Model for FrameWatch {
    ghost use Rattle.std.specs.Prelude.{◌≡◌, ◌≤◌, take};
    ghost use Rattle.hk_doors.specs.Handing.{WatchValue, watch_code};

    ghost Value = { WatchValue };

    ghost coded = { watch_code };

    ghost view = { λ w. record { place = record { whole = w.whole; left = w.left }; begun = take w.begun_count w.begun } };

    ghost invariant = { λ w. (w.begun_count ≤ 36) × (w.left ≤ w.whole) × (w.left ≡ 0 → w.whole ≡ 0) };
}

/// What a look at bytes ended with.
#[derive(Clone, Copy, Debug, PartialEq, Eq)]
pub enum Then {
    /// All was looked at; what isn't handed on begins a frame that can't be judged yet, and is kept.
    Reads,
    /// What follows waits until what was handed on is answered, and others had their turn.
    Pauses,
    /// What follows begins with a frame that asks for something long, and is for a worker that gives long answers.
    Moves,
}

/// How far a look at bytes went.
#[derive(Clone, Copy, Debug, PartialEq, Eq)]
pub struct Taken {
    /// How many of them can be handed on.
    pub count: usize,
    /// What is with the others.
    pub then: Then,
    /// Whether those are just one request that may take many looks, at a worker for short answers.
    pub is_apart: bool,
}

impl Taken {
    /// So many of the bytes, and then this.
    fn new(count: usize, then: Then) -> Taken
        ensures count { result.count ≡ count }
        ensures then { result.then ≡ then }
    {
        Taken {
            count,
            then,
            is_apart: false,
        }
    }
}

impl FrameWatch {
    /// Between two frames, with nothing begun.
    pub fn new() -> FrameWatch
        ensures begun { result.begun ≡ [] }
        ensures place { result.place ≡ inside 0 0 }
    {
        FrameWatch {
            whole: 0,
            left: 0,
            reads: 0,
            is_alone: false,
            begun: [0; HEAD_BYTES],
            begun_count: 0,
        }
    }

    /// Whether the connection is inside a frame.
    pub fn is_within(&self) -> bool
        ensures { result ≡ (nat_lt 0 self.now.place.left || nat_lt 0 (length self.now.begun)) }
    {
        self.left > 0 || self.begun_count > 0
    }

    /// How many bytes of the frame that the connection is inside came so far.
    pub fn held(&self) -> u64
        ensures inside { 0 < self.now.place.left → result ≡ self.now.place.whole - self.now.place.left }
        ensures begun { self.now.place.left ≡ 0 → result ≡ length self.now.begun }
    {
        if self.left == 0 {
            return self.begun_count as u64;
        }
        self.whole - self.left
    }

    /// Counts a read inside a frame, and returns whether the frame took more of them than its length explains: 64, and one more for
    /// each 64 bytes of its length.
    pub fn is_one_too_many(&mut self) -> bool
        ensures { self.new ≡ self.old }
    {
        let length = self.whole.saturating_sub(LENGTH_BYTES as u64);
        self.reads = self.reads.saturating_add(1);
        self.reads > FREE_READS.saturating_add(length / BYTES_A_READ)
    }

    /// Puts what began a frame and wasn't handed on at the front of a buffer, and returns how many bytes that are: at most 36, and no
    /// more than the buffer has room for.
    pub fn put_begun(&self, buf: &mut [u8]) -> usize
        ensures fits { result ≤ length buf.new }
        ensures kept { length buf.new ≡ length buf.old }
        ensures begun { 36 ≤ length buf.old → take result buf.new ≡ self.now.begun }
    {
        let count = self.begun_count.min(HEAD_BYTES).min(buf.len());
        buf[..count].copy_from_slice(&self.begun[..count]);
        count
    }

    /// Keeps what begins a frame that can't be judged yet.
    fn keep_begun(&mut self, bytes: &[u8])
        requires { length bytes.now ≤ 36 }
        ensures begun { self.new.begun ≡ bytes.now }
        ensures place { self.new.place ≡ self.old.place }
    {
        let count = bytes.len().min(HEAD_BYTES);
        self.begun[..count].copy_from_slice(&bytes[..count]);
        self.begun_count = count;
    }

    /// Goes to where so many bytes of a frame are still to come, or behind it.
    fn stand(&mut self, whole: u64, left: u64)
        requires { left ≤ whole }
        ensures place { self.new.place ≡ inside whole left }
        ensures begun { self.new.begun ≡ self.old.begun }
    {
        self.left = left;
        if left == 0 {
            self.whole = 0;
            self.reads = 0;
        } else {
            self.whole = whole;
        }
    }

    /// How many bytes the next frame is judged by, and how many it has behind its length. `None` where not all of those are there.
    fn head_of(bytes: &[u8], passes: Passes) -> Option<(usize, u64)>
        ensures few { IfSome result (λ found. (0 < found.0) × (found.0 ≤ length bytes.now)) }
        ensures head { IfSome result (λ found. IsHead passes (take found.0 bytes.now)) }
        ensures len { IfSome result (λ found. found.1 ≡ len_of (take found.0 bytes.now)) }
        ensures part { IfSome result (λ found. found.0 ≤ 4 + found.1) }
        ensures width { IfSome result (λ found. found.1 < 4294967296) }
        ensures none { IfNone result (length bytes.now ≤ 36) }
    {
        if bytes.len() < LENGTH_BYTES {
            return None;
        }
        let len = length_of(bytes) as u64;
        let head = head_len(passes, len);
        if bytes.len() < head {
            return None;
        }
        Some((head, len))
    }

    /// Enters the next frame, which has so many bytes behind its length, behind its first bytes.
    fn enter(&mut self, len: u64, head: usize, is_alone: bool)
        requires width { len < 4294967296 }
        requires part { head ≤ 4 + len }
        ensures place { self.new.place ≡ inside (4 + len) (4 + len - head) }
        ensures begun { self.new.begun ≡ self.old.begun }
    {
        let whole = LENGTH_BYTES as u64 + len;
        self.is_alone = is_alone;
        self.stand(whole, whole - head as u64);
    }

    /// Looks at the first bytes of the next frame, where enough of them are there, and judges them where they can be handed on.
    fn take_head(
        &mut self,
        bytes: &mut [u8],
        passes: Passes,
        is_at_long_end: bool,
        is_first: bool,
    ) -> Taken
        ensures some { result.count ≤ length bytes.old }
        ensures kept { length bytes.new ≡ length bytes.old }
        ensures same { passes_all passes ≡ true → bytes.new ≡ bytes.old }
        ensures few { result.count ≡ 0 → result.then ≡ thens.Reads → length bytes.old ≤ 36 }
        ensures none { result.then ≢ thens.Reads → result.count ≡ 0 }
        ensures stays { result.count ≡ 0 → self.new ≡ self.old }
        ensures begun { self.new.begun ≡ self.old.begun }
        ensures head { 0 < result.count → IsHead passes (take result.count bytes.old) }
        ensures judged { 0 < result.count → JudgesFirst passes result.count bytes.old bytes.new }
        ensures place { 0 < result.count → self.new.place ≡ behind (take result.count bytes.old) }
        ensures rest { drop result.count bytes.new ≡ drop result.count bytes.old }
    {
        let Some((head, len)) = Self::head_of(bytes, passes) else {
            return Taken::new(0, Then::Reads);
        };
        let weight = weight_of(&bytes[..head], len, is_at_long_end);
        if weight == Weight::Elsewhere {
            return Taken::new(0, Then::Moves);
        }
        let is_alone = weight == Weight::Alone;
        if is_alone && !is_first {
            return Taken::new(0, Then::Pauses);
        }
        judge(passes, &mut bytes[..head]);
        self.enter(len, head, is_alone || weight == Weight::Last);
        Taken {
            count: head,
            then: Then::Reads,
            is_apart: is_alone && !is_at_long_end,
        }
    }

    /// Begins a look, and returns how many frames it is inside: none, or one.
    fn begin_look(&mut self) -> u32
        ensures begun { self.new.begun ≡ [] }
        ensures place { self.new.place ≡ self.old.place }
        ensures stands { self.new.place ≡ inside self.new.place.whole self.new.place.left }
    {
        self.begun_count = 0;
        if self.left > 0 {
            return 1;
        }
        self.is_alone = false;
        0
    }

    /// Whether nothing behind this place is handed on with what is before it: between two frames, where so many were handed on, or
    /// the last one stands alone.
    fn is_enough(&mut self, frames: u32) -> bool
        ensures { self.new ≡ self.old }
    {
        mem::replace(&mut self.is_alone, false) || frames >= MOST_FRAMES
    }

    /// Passes over the bytes of the frame that the connection is inside, and returns how many.
    fn take_rest(&mut self, len: usize) -> usize
        ensures some { result ≤ len }
        ensures left { result ≤ self.old.place.left }
        ensures none { result ≡ 0 → 0 < len → self.new.place.left ≡ 0 }
        ensures stays { result ≡ 0 → self.new.place ≡ self.old.place }
        ensures place { self.new.place ≡ inside self.old.place.whole (self.old.place.left - result) }
        ensures begun { self.new.begun ≡ self.old.begun }
    {
        if self.left == 0 {
            return 0;
        }
        let count = self.left.min(len as u64);
        self.stand(self.whole, self.left - count);
        count as usize
    }

    /// Looks at the bytes that a read returned behind what was begun, or that were left by a look before, and returns how many of them
    /// can be handed on. These are at most 32 frames: what takes long where long answers are given (`is_at_long_end`), and what may
    /// take many looks, comes alone; and an Await comes last. What follows them `Pauses`: the caller hands it in again, once those are
    /// answered. Of a frame that can't be judged yet the first bytes are kept (`Reads`). What begins with a frame that asks for
    /// something long `Moves`, where short answers are given, and is the caller's. The kind of each request that doesn't pass is turned
    /// into one that no message has, and so is a length that none has that passes; all else is left as it came.
    /// Cost: O(f), f frames that these bytes touch, at most 33.
    pub fn take(&mut self, bytes: &mut [u8], passes: Passes, is_at_long_end: bool) -> Taken
        ensures some { result.count ≤ length bytes.old }
        ensures kept { length bytes.new ≡ length bytes.old }
        ensures same { passes_all passes ≡ true → bytes.new ≡ bytes.old }
        // Those that are handed on are those that came, but for the heads of frames that a door turns away.
        ensures gets { HandsOnFirst passes result.count self.old.place bytes.old bytes.new self.new.place }
        ensures rest { drop result.count bytes.new ≡ drop result.count bytes.old }
        // What isn't handed on is kept, and `put_begun` puts it before what the next read brings; or it is the caller's.
        ensures held { result.then ≡ thens.Reads → self.new.begun ≡ drop result.count bytes.new }
        ensures left { result.then ≢ thens.Reads → self.new.begun ≡ [] }
    {
        let mut done = 0;
        let mut frames = self.begin_look();
        let mut is_apart = false;
        while done < bytes.len() {
            let rest = self.take_rest(bytes.len() - done);
            if rest > 0 {
                done += rest;
                continue;
            }
            if self.is_enough(frames) {
                return Taken {
                    count: done,
                    then: Then::Pauses,
                    is_apart,
                };
            }
            let taken = self.take_head(&mut bytes[done..], passes, is_at_long_end, done == 0);
            if taken.then != Then::Reads {
                return Taken::new(done, taken.then);
            }
            if taken.count == 0 {
                self.keep_begun(&bytes[done..]);
                break;
            }
            is_apart = taken.is_apart;
            frames = frames.saturating_add(1);
            done += taken.count;
        }
        Taken {
            count: done,
            then: Then::Reads,
            is_apart,
        }
    }
}
