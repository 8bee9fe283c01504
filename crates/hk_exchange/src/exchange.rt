//! What is between a connection's socket and the host that answers it.

ghost use Rattle.std.specs.Prelude.{◌≡◌, ◌<◌, ◌≤◌, ◌+◌, ℕ, List, [], ◌++◌, true, false, length, take, drop, None, Some, IfNone, IfOk, IfSome};
ghost use Rattle.hk_session_parts.specs.Sessions.{AnswersFirst};
ghost use Rattle.hk_exchange.specs.Exchanges.{ChangesSession, CutsOff, CutsShort, HasStanding, HoldsAll, HoldsOfFrame, IsNext, KeepsBy, LeavesFrom, LooksBy, LooksFrom, ReceivesBy, SendsBy, StaysBy, StaysReady, TakesBy, ToldBy, TurnsAnyhow, TurnsBy, cut_by, end_of, is_within, start, value_of};

use crate::passed::Passed;
use crate::rest::Rest;
use crate::unwritten::Unwritten;
use hk_doors::{FrameWatch, Passes, Taken, Then};
use hk_messages::{Reply, Request};
use hk_meters::Meters;
use hk_session_parts::{Ended, Host, Step};
use hk_turns::Session;
use std::alloc::Global;
use std::io::{ErrorKind, Read, Write};
use std::{io, mem};

/// The session of a connection, in both versions.
pub type LinkSession = Session<2>;

/// How many bytes a buffer has at least that a connection is read into.
pub const LEAST_PIECE: usize = 36;

/// What a door and a worker make of a connection's bytes.
#[derive(Clone, Copy)]
pub struct How {
    /// Which requests pass.
    pub passes: Passes,
    /// Whether long answers are given.
    pub is_at_long_end: bool,
    /// Whether a frame may take only so many reads.
    pub counts_reads: bool,
}

/// What was done with bytes that came, or that waited.
#[derive(Clone, Copy)]
pub struct Looked {
    pub step: Step,
    /// What is with the bytes that weren't handed on.
    pub then: Then,
    /// Whether those that were are one request that may take many looks, and isn't answered yet.
    pub is_apart: bool,
}

impl Looked {
    /// Nothing was handed on.
    fn none(step: Step) -> Looked {
        Looked {
            step,
            then: Then::Reads,
            is_apart: false,
        }
    }
}

/// What a read brought.
#[derive(Clone, Copy)]
pub enum Came {
    /// So many bytes, with which the first four of the buffer are these, where there are four; and what was done then.
    Bytes {
        count: usize,
        first: Option<[u8; 4]>,
        looked: Looked,
    },
    /// Nothing is there to read now.
    Nothing,
    /// It was interrupted.
    Again,
    /// The end.
    End(Step),
    /// The read failed; or none was made, since the session is over, bytes wait, or the buffer has at most 36.
    Failed,
}

/// What is between a connection's socket and the host that answers it: what of a frame is kept back, what waits, the session, and replies
/// that the socket didn't take yet. What the socket gave and took so far takes no memory: only proofs read it.
#[derive(Drop)]
pub struct Exchange {
    alloc: Global,
    came: Passed,
    watch: FrameWatch,
    rest: Rest,
    session: LinkSession,
    unwritten: Unwritten,
    is_at_end: bool,
    ended: Option<Ended>,
}

/// The first four bytes, where there are four.
fn first_of(bytes: &[u8]) -> Option<[u8; 4]> {
    let mut first = [0u8; 4];
    let front = bytes.get(..4)?;
    first.copy_from_slice(front);
    Some(first)
}

/// What comes of a read that fails so.
fn came_of(kind: ErrorKind) -> Came {
    match kind {
        ErrorKind::WouldBlock => Came::Nothing,
        ErrorKind::Interrupted => Came::Again,
        _ => Came::Failed,
    }
}

/// How a connection ended that is cut off for this: only a session ends cleanly.
fn cut_by(ended: Ended) -> Ended
    ensures { result ≡ cut_by ended }
{
    match ended {
        Ended::Clean => Ended::ReadFault,
        other => other,
    }
}

/// Reads into a buffer, behind so many bytes that stand there, and returns how many came.
fn read_behind<S: Read>(socket: &mut S, piece: &mut [u8], begun: usize) -> io::Result<usize>
    requires { begun ≤ length piece.old }
    ensures kept { length piece.new ≡ length piece.old }
    ensures begun { take begun piece.new ≡ take begun piece.old }
    ensures inside { IfOk result (λ count. begun + count ≤ length piece.new) }
{
    socket.read(&mut piece[begun..])
}

/// From where on so many bytes wait behind a look that began at a place.
fn left_from(taken: Taken, from: usize, len: usize) -> usize
    requires { from + taken.count ≤ len }
    ensures inside { result ≤ len }
    ensures left { LeavesFrom taken.then (from + taken.count) len result }
{
    match taken.then {
        Then::Reads => len,
        Then::Pauses | Then::Moves => from + taken.count,
    }
}

impl Exchange {
    /// Notes how the session ended, where it did so by a step, which is returned.
    fn noted(&mut self, step: Step) -> Step
        requires { self.old.ended ≡ None }
        ensures noted { value_of self.new ≡ record (value_of self.old) { ended = end_of step } }
        ensures same { result ≡ step }
    {
        if let Step::Ended(ended) = step {
            self.ended = Some(ended);
        }
        step
    }

    /// Has the session take a piece and answer; or read it alone, where it comes apart from others.
    fn take_piece<H: Host>(
        &mut self,
        piece: &[u8],
        is_apart: bool,
        out: &mut Vec<u8>,
        host: &mut H,
    ) -> Step
        requires ready { H.ready host.old }
        ensures ready { H.ready host.new }
        ensures takes { TakesBy H.may host.old host.new self.old.session self.new.session
            piece.now out.old out.new result }
        ensures same { self.new ≡ record self.old { session = self.new.session } }
    {
        if !is_apart {
            return self.session.take(piece, false, out, host);
        }
        match self.session.read(piece) {
            Ok(()) => Step::GoesOn,
            Err(_e) => Step::Ended(Ended::Memory),
        }
    }

    /// Hands on to the session what it may have now of these bytes, and has it answer, unless that comes apart from others.
    fn hand_on<H: Host>(
        &mut self,
        how: How,
        came: &mut [u8],
        out: &mut Vec<u8>,
        host: &mut H,
    ) -> (Step, Taken)
        requires ready { H.ready host.old }
        requires goes { (self.old.is_at_end ≡ false) × (self.old.ended ≡ None) }
        ensures ready { H.ready host.new }
        ensures some { result.1.count ≤ length came.new }
        ensures kept { length came.new ≡ length came.old }
        ensures rest { self.new.rest ≡ self.old.rest }
        ensures turns { LooksBy H.may host.old host.new how
            self.old came.old out.old self.new result.1 came.new out.new }
    {
        let taken = self.watch.take(came, how.passes, how.is_at_long_end);
        let step = self.take_piece(&came[..taken.count], taken.is_apart, out, host);
        (self.noted(step), taken)
    }

    /// The same with the bytes of a buffer from a place on.
    fn hand_on_from<H: Host>(
        &mut self,
        how: How,
        buf: &mut [u8],
        at: usize,
        out: &mut Vec<u8>,
        host: &mut H,
    ) -> (Step, Taken)
        requires ready { H.ready host.old }
        requires goes { (self.old.is_at_end ≡ false) × (self.old.ended ≡ None) }
        requires inside { at ≤ length buf.old }
        ensures ready { H.ready host.new }
        ensures kept { length buf.new ≡ length buf.old }
        ensures some { at + result.1.count ≤ length buf.new }
        ensures turns { LooksFrom H.may host.old host.new how
            at self.old buf.old out.old self.new result.1 buf.new out.new }
    {
        self.hand_on(how, &mut buf[at..], out, host)
    }

    /// A connection that was just accepted: nothing came, and nothing was said. It takes no memory.
    pub fn new(alloc: Global) -> Exchange
        ensures value { value_of result ≡ start }
    {
        Exchange {
            alloc,
            came: Passed::none(),
            watch: FrameWatch::new(),
            rest: Rest::new(alloc),
            session: LinkSession::new(alloc),
            unwritten: Unwritten::new(alloc),
            is_at_end: false,
            ended: None,
        }
    }

    /// How its session ended, where it did. Cost: O(1).
    pub fn ended(&self) -> Option<Ended>
        ensures { result ≡ (value_of self.now).ended }
    {
        self.ended
    }

    fn answer_on<H: Host>(&mut self, has_waited: bool, out: &mut Vec<u8>, host: &mut H) -> Step
        requires ready { H.ready host.old }
        requires goes { self.old.ended ≡ None }
        ensures ready { H.ready host.new }
        ensures turns { TurnsAnyhow H.may host.old host.new self.old out.old self.new out.new }
    {
        let step = self.session.take(&[], has_waited, out, host);
        self.noted(step)
    }

    /// Has the session answer what it can: an Await that is its next request only where it was waited for (`has_waited`). Once it is over
    /// nothing happens. Cost: as `Session::take`.
    #[tactic(auto, using(crate::proofs::Standing::nothing_done))]
    pub fn answer<H: Host>(&mut self, has_waited: bool, out: &mut Vec<u8>, host: &mut H) -> Step
        requires { H.ready host.old }
        ensures ready { H.ready host.new }
        ensures turns { TurnsAnyhow H.may host.old host.new self.old out.old self.new out.new }
    {
        match self.ended {
            Some(ended) => Step::Ended(ended),
            None => self.answer_on(has_waited, out, host),
        }
    }

    fn take_rest_on<H: Host>(&mut self, how: How, out: &mut Vec<u8>, host: &mut H) -> Looked
        requires ready { H.ready host.old }
        requires goes { self.old.ended ≡ None }
        ensures ready { H.ready host.new }
        ensures turns { TurnsBy H.may host.old host.new how.passes self.old out.old self.new out.new }
    {
        if self.rest.is_empty() || self.is_at_end {
            return Looked::none(Step::GoesOn);
        }
        let none = Rest::new(self.alloc);
        let (mut bytes, passed) = mem::replace(&mut self.rest, none).into_parts();
        let (step, taken) = self.hand_on_from(how, &mut bytes, passed, out, host);
        let left = left_from(taken, passed, bytes.len());
        self.rest = Rest::of(self.alloc, bytes, left);
        Looked {
            step,
            then: taken.then,
            is_apart: taken.is_apart,
        }
    }

    /// Hands on what waits, as far as the session may have it now, and has it answer, unless that comes apart from others. Where nothing
    /// waits, and once it is over, nothing happens. Cost: as `FrameWatch::take` and `Session::take`.
    #[tactic(auto, using(crate::proofs::Standing::nothing_done))]
    pub fn take_rest<H: Host>(&mut self, how: How, out: &mut Vec<u8>, host: &mut H) -> Looked
        requires { H.ready host.old }
        ensures ready { H.ready host.new }
        ensures turns { TurnsBy H.may host.old host.new how.passes self.old out.old self.new out.new }
    {
        match self.ended {
            Some(ended) => Looked::none(Step::Ended(ended)),
            None => self.take_rest_on(how, out, host),
        }
    }

    /// Ends the session at the end of its input; these bytes began a frame.
    fn end_input<H: Host>(&mut self, begun: &[u8], out: &mut Vec<u8>, host: &mut H) -> Step
        requires ready { H.ready host.old }
        requires goes { self.old.ended ≡ None }
        requires begun { begun.now ≡ self.old.watch.begun }
        requires rest { self.old.rest ≡ [] }
        ensures ready { H.ready host.new }
        ensures turns { TurnsAnyhow H.may host.old host.new self.old out.old self.new out.new }
    {
        self.watch = FrameWatch::new();
        self.is_at_end = true;
        let step = self.session.take(begun, false, out, host);
        let step = self.noted(step);
        let Step::GoesOn = step else {
            return step;
        };
        let fresh = LinkSession::new(self.alloc);
        let ended = mem::replace(&mut self.session, fresh).finish(out);
        self.ended = Some(ended);
        Step::Ended(ended)
    }

    /// Keeps what of a buffer isn't handed on, where the look at it didn't come to its end. Where there is no memory for it the connection
    /// ends.
    fn keep(&mut self, step: Step, then: Then, left: &[u8]) -> Step
        requires { self.old.rest ≡ [] }
        ensures { KeepsBy self.old then left.now self.new }
    {
        if then == Then::Reads || self.rest.put(left) {
            return step;
        }
        self.cut(Ended::Memory);
        Step::Ended(Ended::Memory)
    }

    /// Whether the read that was made now, inside a frame, is one too many for it.
    fn reads_too_often(&mut self, how: How) -> bool
        ensures { self.new ≡ self.old }
    {
        how.counts_reads && self.watch.is_within() && self.watch.is_one_too_many()
    }

    /// Takes what a read brought behind what was kept back, both at the front of one buffer, so many bytes with it.
    fn receive<H: Host>(
        &mut self,
        how: How,
        piece: &mut [u8],
        count: usize,
        out: &mut Vec<u8>,
        host: &mut H,
    ) -> Came
        requires ready { H.ready host.old }
        requires goes { (self.old.is_at_end ≡ false) × (self.old.ended ≡ None) }
        requires rest { self.old.rest ≡ [] }
        ensures ready { H.ready host.new }
        ensures kept { length piece.new ≡ length piece.old }
        ensures turns { ReceivesBy H.may host.old host.new how.passes
            self.old piece.old out.old self.new out.new }
    {
        if self.reads_too_often(how) {
            self.cut(Ended::ReadFault);
            return Came::Bytes {
                count,
                first: None,
                looked: Looked::none(Step::Ended(Ended::ReadFault)),
            };
        }
        let first = first_of(piece);
        let (step, taken) = self.hand_on(how, piece, out, host);
        let step = self.keep(step, taken.then, &piece[taken.count..]);
        let looked = Looked {
            step,
            then: taken.then,
            is_apart: taken.is_apart,
        };
        Came::Bytes {
            count,
            first,
            looked,
        }
    }

    /// The same with the first so many bytes of a buffer.
    fn receive_front<H: Host>(
        &mut self,
        how: How,
        out: &mut Vec<u8>,
        host: &mut H,
        buf: &mut [u8],
        all: usize,
        count: usize,
    ) -> Came
        requires ready { H.ready host.old }
        requires goes { (self.old.is_at_end ≡ false) × (self.old.ended ≡ None) }
        requires rest { self.old.rest ≡ [] }
        requires inside { all ≤ length buf.old }
        ensures ready { H.ready host.new }
        ensures kept { length buf.new ≡ length buf.old }
        ensures turns { ReceivesBy H.may host.old host.new how.passes
            self.old (take all buf.old) out.old self.new out.new }
    {
        self.receive(how, &mut buf[..all], count, out, host)
    }

    fn read_on<S: Read, H: Host>(
        &mut self,
        how: How,
        out: &mut Vec<u8>,
        host: &mut H,
        socket: &mut S,
        meters: &Meters<'_>,
        piece: &mut Vec<u8>,
    ) -> Came
        requires ready { H.ready host.old }
        requires goes { self.old.ended ≡ None }
        requires rest { self.old.rest ≡ [] }
        requires room { 36 < length piece.old.items }
        ensures ready { H.ready host.new }
        ensures kept { length piece.new.items ≡ length piece.old.items }
        ensures turns { TurnsBy H.may host.old host.new how.passes self.old out.old self.new out.new }
    {
        let begun = self.watch.put_begun(piece);
        if self.is_at_end {
            return Came::End(self.end_input(&piece[..begun], out, host));
        }
        match read_behind(socket, piece, begun) {
            Ok(0) => Came::End(self.end_input(&piece[..begun], out, host)),
            Ok(count) => {
                meters.note_read(count as u64);
                self.came.note(piece, begun, count);
                self.receive_front(how, out, host, piece, begun + count, count)
            }
            Err(error) => came_of(error.kind()),
        }
    }

    /// Reads once, hands on what came behind what was kept back, as far as the session may have it now, and has it answer, unless that comes
    /// apart from others. How much came is counted before. Cost: that of the read, and as `take_rest`.
    #[tactic(auto, using(crate::proofs::Standing::nothing_done))]
    pub fn read<S: Read, H: Host>(
        &mut self,
        socket: &mut S,
        meters: &Meters<'_>,
        how: How,
        piece: &mut Vec<u8>,
        out: &mut Vec<u8>,
        host: &mut H,
    ) -> Came
        requires { H.ready host.old }
        ensures ready { H.ready host.new }
        ensures kept { length piece.new.items ≡ length piece.old.items }
        ensures turns { TurnsBy H.may host.old host.new how.passes self.old out.old self.new out.new }
    {
        let is_over = self.ended.is_some();
        if is_over || !self.rest.is_empty() || piece.len() <= LEAST_PIECE {
            return Came::Failed;
        }
        self.read_on(how, out, host, socket, meters, piece)
    }

    /// The first of the requests that the session keeps, where it is the next to be answered: none where none waits, where a reply is
    /// kept, and once it is over. Cost: O(1).
    pub fn first_request(&self) -> Option<&Request>
        ensures { IfSome result (λ request. IsNext (value_of self.now) request.now) }
    {
        if self.ended.is_some() {
            return None;
        }
        self.session.first_request()
    }

    /// Keeps a reply to that one, as `Session::put_reply`: the next call appends it. Where there is none it is handed back. Cost: O(1).
    pub fn put_reply(&mut self, reply: Reply) -> Option<Reply>
        ensures told { ToldBy self.old self.new reply }
        ensures answers { AnswersFirst (value_of self.old).session (value_of self.new).session reply }
        ensures same { ChangesSession self.old self.new }
        ensures taken { IfNone result ((value_of self.new).session.kept ≡ Some reply) }
        ensures back { IfSome result (λ _. value_of self.new ≡ value_of self.old) }
    {
        self.session.put_reply(reply)
    }

    /// Whether bytes wait behind those that were handed on. Cost: O(1).
    pub fn has_rest(&self) -> bool
        ensures { result ≡ false → (value_of self.now).rest ≡ [] }
    {
        !self.rest.is_empty()
    }

    /// Whether it is inside of a frame. Cost: O(1).
    pub fn is_within(&self) -> bool
        ensures { result ≡ is_within (value_of self.now) }
    {
        self.watch.is_within()
    }

    /// How many bytes came of the frame that it is inside of. Cost: O(1).
    pub fn held_of_frame(&self) -> u64
        ensures { HoldsOfFrame (value_of self.now) result }
    {
        self.watch.held()
    }

    /// How many bytes stand before the session: those, and what waits. Cost: O(1).
    pub fn held(&self) -> u64
        ensures { HoldsAll (value_of self.now) result }
    {
        self.watch.held().saturating_add(self.rest.len() as u64)
    }

    /// How many bytes of replies stand that the socket didn't take. Cost: O(1).
    pub fn unwritten(&self) -> usize
        ensures { result ≡ length (value_of self.now).out.standing }
    {
        self.unwritten.len()
    }

    /// The same, with those of a reply that are still to be appended. Cost: O(1).
    pub fn standing(&self) -> u64
        ensures { HasStanding (value_of self.now) result }
    {
        let standing = self.unwritten.len() as u64;
        standing.saturating_add(self.session.standing())
    }

    /// Whether the socket would have taken more at the last write.
    pub fn is_writable(&self) -> bool {
        self.unwritten.is_writable()
    }

    /// Notes that the socket takes bytes again.
    pub fn note_writable(&mut self)
        ensures { value_of self.new ≡ value_of self.old }
    {
        self.unwritten.note_writable();
    }

    /// How many bytes the socket took since this was asked last. It promises nothing of the number.
    pub fn take_sent(&mut self) -> u64
        ensures { value_of self.new ≡ value_of self.old }
    {
        self.unwritten.take_sent()
    }

    /// Ends it as it is. A session that had ended keeps how it ended. What is ready then isn't written. Only a session ends cleanly: a
    /// cut for `Clean` is one for `ReadFault`.
    pub fn cut(&mut self, ended: Ended)
        ensures stays { StaysReady self.old self.new }
        ensures value { CutsOff self.old ended self.new }
    {
        if self.ended.is_none() {
            self.ended = Some(cut_by(ended));
        }
    }

    /// The same where what was said won't be written: a session that had ended cleanly ends so too.
    fn cut_short(&mut self, ended: Ended)
        ensures value { CutsShort self.old ended self.new }
    {
        match self.ended {
            None | Some(Ended::Clean) => self.ended = Some(cut_by(ended)),
            Some(_) => {}
        }
    }

    /// Ends it as it is, and drops what it holds. A session that had ended keeps how it ended, unless that was cleanly: its peer won't have
    /// all replies.
    pub fn drop_all(&mut self, ended: Ended)
        ensures { StaysBy self.old [] self.new [] }
    {
        self.cut_short(ended);
        self.unwritten.drop_all();
        self.rest.drop_all();
        self.session = LinkSession::new(self.alloc);
    }

    /// Writes what stands, as far as the socket takes it now. Returns false where the socket failed. Cost: that of the writes.
    pub fn write<S: Write>(&mut self, socket: &mut S) -> bool
        ensures stays { StaysReady self.old self.new }
        ensures taken { SendsBy S.contents socket.old socket.new self.old self.new [] }
    {
        self.unwritten.write(socket)
    }

    /// Puts what a step added behind what stands, and empties it, as `Unwritten::put`. Where that fails the connection ends, with
    /// `WriteFault`, and what stands is dropped; one whose session had ended cleanly ends so too. Cost: as there.
    pub fn put<S: Write>(&mut self, socket: &mut S, out: &mut Vec<u8>, at_once: bool) -> bool
        ensures stays { StaysBy self.old out.old.items self.new [] }
        ensures empty { out.new.items ≡ [] }
        ensures taken { SendsBy S.contents socket.old socket.new self.old self.new out.old.items }
    {
        let is_well = self.unwritten.put(socket, out, at_once);
        if !is_well {
            self.cut_short(Ended::WriteFault);
            self.unwritten.drop_all();
        }
        is_well
    }
}
