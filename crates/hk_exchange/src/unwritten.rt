//! Replies that a socket didn't take yet.

ghost use Rattle.std.specs.Prelude.{◌≡◌, ◌≤◌, ◌+◌, ◌-◌, ◌==◌, [], ◌++◌, true, false, length, take, drop};
ghost use Rattle.hk_exchange.specs.Pipes.{SendsFront, SendsStanding, TakesFront, TakesOf, text_of};

use crate::passed::Passed;
use std::alloc::Global;
use std::io::{ErrorKind, Write};
use std::marker::Model;
use std::mem;

/// How many bytes of replies may stand before a connection is read again, or has its next request answered.
pub const MOST_HELD: usize = 65_536;

/// How many bytes are written in one turn, or one write more.
const MOST_WRITTEN: usize = 1_048_576;

/// From how much room on an empty buffer is freed.
const MOST_KEPT: usize = 262_144;

/// Why no more is written now.
#[derive(Clone, Copy, PartialEq, Eq)]
enum Stop {
    /// The socket takes no more now.
    Full,
    /// All is written, or it was much, and others have their turn first.
    Enough,
    Failed,
}

/// Whether an error of a write ends it, and why.
fn stop_of(kind: ErrorKind) -> Option<Stop> {
    match kind {
        ErrorKind::WouldBlock => Some(Stop::Full),
        ErrorKind::Interrupted => None,
        _ => Some(Stop::Failed),
    }
}

/// Hands bytes to a socket, from a place on, and notes how many it took. Returns how many, and why no more, where that is so.
#[tactic(auto, using(crate::proofs::Pieces::takes_kept))]
fn hand_on<W: Write>(
    socket: &mut W,
    bytes: &Vec<u8>,
    from: usize,
    sent: &mut Passed,
) -> (usize, Option<Stop>)
    requires { from ≤ length bytes.now.items }
    ensures some { from + result.0 ≤ length bytes.now.items }
    ensures taken { TakesOf W.contents socket.old socket.new sent.old sent.new bytes.now from result.0 }
{
    let rest = &bytes[from..];
    match socket.write(&rest[..rest.len().min(MOST_WRITTEN)]) {
        Ok(count) => {
            sent.note(bytes, from, count);
            let stop = if count == 0 { Some(Stop::Failed) } else { None };
            (count, stop)
        }
        Err(error) => (0, stop_of(error.kind())),
    }
}

/// Hands on bytes, from a place on, until all are taken, the socket takes no more, or it was much. Returns how many it took, and why no
/// more.
#[tactic(auto, using(crate::proofs::Pieces::takes_nothing))]
fn write_some<W: Write>(
    socket: &mut W,
    bytes: &Vec<u8>,
    from: usize,
    sent: &mut Passed,
) -> (usize, Stop)
    requires { from ≤ length bytes.now.items }
    ensures some { from + result.0 ≤ length bytes.now.items }
    ensures taken { TakesOf W.contents socket.old socket.new sent.old sent.new bytes.now from result.0 }
{
    let mut done = 0usize;
    'writes: for _ in 0..u64::MAX {
        if from + done == bytes.len() || done >= MOST_WRITTEN {
            return (done, Stop::Enough);
        }
        let (count, stop) = hand_on(socket, bytes, from + done, sent);
        done += count;
        if let Some(stop) = stop {
            return (done, stop);
        }
    }
    (done, Stop::Enough)
}

/// Replies that a socket didn't take yet, and which bytes it took before. Contracts see it as both; what it took takes no memory.
#[derive(Drop)]
pub struct Unwritten {
    alloc: Global,
    bytes: Vec<u8>,
    /// How many of them the socket took.
    written: usize,
    sent: Passed,
    /// How many bytes the socket took that weren't counted yet.
    uncounted: u64,
    /// The socket would have taken more.
    is_writable: bool,
}

impl Model for Unwritten {
    ghost use Rattle.std.specs.Prelude.{◌≤◌, length, drop};
    ghost use Rattle.hk_exchange.specs.Pipes.{Outgoing, outgoing_code};

    ghost Value = { Outgoing };

    ghost coded = { outgoing_code };

    ghost view = { λ u. record { sent = u.sent; standing = drop u.written u.bytes.items } };

    ghost invariant = { λ u. u.written ≤ length u.bytes.items };
}

impl Unwritten {
    /// Nothing stands, and nothing was taken. It takes no memory.
    pub fn new(alloc: Global) -> Unwritten
        ensures { result ≡ record { sent = []; standing = [] } }
    {
        Unwritten {
            alloc,
            bytes: Vec::new(alloc),
            written: 0,
            sent: Passed::none(),
            uncounted: 0,
            is_writable: true,
        }
    }

    /// How many bytes the socket took since this was asked last. It promises nothing of the number.
    pub fn take_sent(&mut self) -> u64
        ensures { self.new ≡ self.old }
    {
        mem::replace(&mut self.uncounted, 0)
    }

    /// How many bytes stand. Cost: O(1).
    pub fn len(&self) -> usize
        ensures { result ≡ length self.now.standing }
    {
        self.bytes.len() - self.written
    }

    /// Whether none do. Cost: O(1).
    pub fn is_empty(&self) -> bool
        ensures { result ≡ (length self.now.standing == 0) }
    {
        self.len() == 0
    }

    /// Whether the socket would have taken more at the last write.
    pub fn is_writable(&self) -> bool {
        self.is_writable
    }

    /// Notes that the socket takes bytes again.
    pub fn note_writable(&mut self)
        ensures { self.new ≡ self.old }
    {
        self.is_writable = true;
    }

    /// Drops what stands: the socket doesn't get it.
    pub fn drop_all(&mut self)
        ensures { self.new ≡ record self.old { standing = [] } }
    {
        self.bytes = Vec::new(self.alloc);
        self.written = 0;
    }

    /// Notes how many bytes more were written, and why no more. Returns false where the socket failed.
    fn note(&mut self, count: usize, stop: Stop) -> bool
        requires { count ≤ length self.old.standing }
        ensures { self.new ≡ record self.old { standing = drop count self.old.standing } }
    {
        self.uncounted = self.uncounted.saturating_add(count as u64);
        self.is_writable = stop != Stop::Full;
        self.written += count;
        if self.is_empty() {
            self.drop_all();
        }
        stop != Stop::Failed
    }

    /// Writes what stands, as far as the socket takes it now. Returns false where the socket failed. Cost: that of the writes.
    #[tactic(auto, using(crate::proofs::Pieces::front_of, crate::proofs::Pieces::front_none))]
    pub fn write<W: Write>(&mut self, socket: &mut W) -> bool
        ensures kept { text_of self.new ≡ text_of self.old }
        ensures taken { SendsStanding W.contents socket.old socket.new self.old self.new }
    {
        if self.is_empty() {
            return true;
        }
        let (count, stop) = write_some(socket, &self.bytes, self.written, &mut self.sent);
        self.note(count, stop)
    }

    /// Gives back the room of what was written: what stands begins the buffer.
    #[tactic(auto, using(crate::proofs::Moved::moved_down))]
    fn drop_written(&mut self)
        ensures { self.new ≡ self.old }
    {
        if self.written == 0 {
            return;
        }
        let left = self.len();
        self.bytes.copy_within(self.written.., 0);
        self.bytes.truncate(left);
        self.written = 0;
    }

    /// Puts bytes behind what stands. Returns false where memory runs out for them: then nothing changed.
    fn put_behind(&mut self, out: &[u8]) -> bool
        ensures sent { self.new.sent ≡ self.old.sent }
        ensures all { result ≡ true → self.new.standing ≡ self.old.standing ++ out.now }
        ensures none { result ≡ false → self.new ≡ self.old }
    {
        self.drop_written();
        self.bytes.extend_from_slice(out).is_ok()
    }

    /// Writes bytes where nothing stands; what the socket doesn't take stands then. What is long isn't copied: it stands where it is.
    fn put_first<W: Write>(&mut self, socket: &mut W, out: &mut Vec<u8>) -> bool
        requires { self.old.standing ≡ [] }
        ensures all { result ≡ true → text_of self.new ≡ self.old.sent ++ out.old.items }
        ensures taken { TakesFront (W.contents socket.old) (W.contents socket.new)
            self.old.sent self.new.sent out.old.items }
    {
        let (count, stop) = write_some(socket, out, 0, &mut self.sent);
        if out.len() - count > MOST_HELD {
            self.bytes = mem::replace(out, Vec::new(self.alloc));
            self.written = 0;
            return self.note(count, stop);
        }
        let is_kept = self.put_behind(&out[count..]);
        self.uncounted = self.uncounted.saturating_add(count as u64);
        self.is_writable = stop != Stop::Full;
        is_kept && stop != Stop::Failed
    }

    /// Writes what stands, and then these bytes, as far as the socket takes them now.
    fn put_at_once<W: Write>(&mut self, socket: &mut W, out: &mut Vec<u8>) -> bool
        ensures all { result ≡ true → text_of self.new ≡ text_of self.old ++ out.old.items }
        ensures taken { SendsFront W.contents socket.old socket.new self.old self.new out.old.items }
    {
        if !self.write(socket) {
            return false;
        }
        if self.is_empty() {
            return self.put_first(socket, out);
        }
        self.put_behind(out)
    }

    /// Puts what a step added behind what stands, and empties it. What is long, or is wanted `at_once`, is written as far as the socket
    /// takes it now. Returns false where the socket failed, or memory ran out for what stands: then some of it may be gone, but never
    /// what the socket took. Cost: that of the writes, and O(n), n bytes added; where much stands that was written in part, O(m), m
    /// bytes that stand.
    pub fn put<W: Write>(&mut self, socket: &mut W, out: &mut Vec<u8>, at_once: bool) -> bool
        ensures all { result ≡ true → text_of self.new ≡ text_of self.old ++ out.old.items }
        ensures empty { out.new.items ≡ [] }
        ensures taken { SendsFront W.contents socket.old socket.new self.old self.new out.old.items }
    {
        if out.is_empty() {
            return true;
        }
        let is_well = if at_once || out.len() > MOST_HELD {
            self.put_at_once(socket, out)
        } else {
            self.put_behind(out)
        };
        // A long reply leaves no room behind that its worker would keep.
        if out.capacity() > MOST_KEPT {
            *out = Vec::new(self.alloc);
        }
        out.clear();
        is_well
    }
}
