//! A session by its steps: what is done between two reads.

ghost use Rattle.std.specs.Prelude.{◌≡◌, ◌≢◌, ◌⊎◌, ◌≤◌, ◌++◌, ℕ, List, [], ◌∷◌, false, length, nat_lt, Ok, Some, None, IfSome, IfNone, OnOk, OnErr};
ghost use Rattle.hk_session_parts.specs.Transcript.{fault_of};
ghost use Rattle.hk_session_parts.specs.Sessions.{AnswersFirst, AppendsKept, Closes, ClosesBy, Continues, HasNoNext, IsStanding, IsWithoutMemory, Pauses, ReadIn, Takes, Turns, awaited, first_awaited, first_of};

use hk_messages::{LaterRequest, Reply, Request, RequestFeeder};
use hk_session_parts::sending::{put_piece, refuse};
use hk_session_parts::taking::take_in;
use hk_session_parts::{Ended, Host, Step};
use hk_types::{FormFault, Refusal, Time};
use hk_wire::Place;
use std::alloc::{AllocError, Global};
use std::collections::VecDeque;
use std::marker::Model;
use std::mem;

/// From how many bytes of replies on no further request is answered.
const MOST_READY: usize = 65_536;

/// A session between two reads: the requests that it read and didn't answer, less than a request behind them or the fault
/// that follows, and a reply that isn't appended whole, since it is long or there was no memory for it.
pub struct Session<const LATEST: u8> {
    alloc: Global,
    feeder: RequestFeeder<LATEST>,
    fault: Option<FormFault>,
    waiting: VecDeque<Request>,
    kept: Option<Reply>,
    place: Place,
}

impl<const LATEST: u8> Drop for Session<LATEST> {
    fn drop(self) {
        let Session {
            alloc: _,
            feeder,
            fault: _,
            waiting,
            kept,
            place: _,
        } = self;
        drop(feeder);
        drop(waiting);
        drop(kept);
    }
}

impl<const LATEST: u8> Model for Session<LATEST> {
    ghost use Rattle.std.specs.Prelude.{◌≡◌};
    ghost use Rattle.hk_session_parts.specs.Transcript.{fault_met};
    ghost use Rattle.hk_types.specs.contracts.faults.FormFault as form_fault;
    ghost use Rattle.hk_messages.specs.contracts.request.Request as request;
    ghost use Rattle.hk_messages.specs.contracts.reply.Reply as reply;
    ghost use Rattle.hk_session_parts.specs.Said.{IsKeptAt};
    ghost use Rattle.hk_session_parts.specs.Sessions.{SessionValue, session_code};

    ghost Value = { SessionValue };

    ghost coded = { session_code request.the_row.coded form_fault.the_row.coded reply.the_row.coded };

    ghost view = { λ s. record { requests = s.waiting.items; left = s.feeder; kept = s.kept; begun = s.place.bytes } };

    ghost invariant = { λ s. (s.fault ≡ fault_met s.feeder) × IsKeptAt s.kept s.place };
}

/// What a stream ends with whose feeder ends so. A fault is appended.
fn close(ended: Result<(), Refusal>, out: &mut Vec<u8>) -> Ended
    ensures { ClosesBy ended out.old.items out.new.items result }
{
    let Err(why) = ended else {
        return Ended::Clean;
    };
    let Refusal::Form(fault) = why else {
        return Ended::Memory;
    };
    match refuse(fault, out) {
        Ok(()) => Ended::Fault(fault),
        Err(_e) => Ended::Memory,
    }
}

/// What comes where memory ran out: what is there has to be written first, or the session ends.
fn without_memory(out: &[u8]) -> Step
    ensures { IsWithoutMemory out.now result }
{
    if out.is_empty() {
        Step::Ended(Ended::Memory)
    } else {
        Step::Full
    }
}

impl<const LATEST: u8> Session<LATEST> {
    /// A session that took nothing.
    pub fn new(alloc: Global) -> Session<LATEST>
        ensures { result ≡ record { requests = []; left = Ok []; kept = None; begun = 0 } }
    {
        Session {
            alloc,
            feeder: RequestFeeder::new(alloc),
            fault: None,
            waiting: VecDeque::new(alloc),
            kept: None,
            place: Place::start(),
        }
    }

    /// Reads the next piece, whose requests wait behind the others. After a fault nothing is read. Where memory runs out
    /// the session is as before.
    pub fn read(&mut self, piece: &[u8]) -> Result<(), AllocError>
        ensures ok { OnOk result (ReadIn LATEST self.old self.new piece.now) }
        ensures err { OnErr result (self.new ≡ self.old) }
    {
        if piece.is_empty() {
            return Ok(());
        }
        if self.fault.is_some() {
            return Ok(());
        }
        let none = VecDeque::new(self.alloc);
        let mut requests = Vec::from(mem::replace(&mut self.waiting, none));
        let read = take_in(&mut self.feeder, piece, &mut requests);
        self.waiting = VecDeque::from(requests);
        self.fault = read?;
        Ok(())
    }

    /// Whether a reply was begun, and isn't appended whole.
    fn has_begun(&self) -> bool
        ensures { result ≡ nat_lt 0 self.now.begun }
    {
        self.place.bytes > 0
    }

    /// How many bytes of a reply that was begun are not appended yet: 0 where none was begun. Cost: O(1).
    pub fn standing(&self) -> u64
        ensures { IsStanding self.now result }
    {
        if self.has_begun() {
            self.place.left as u64
        } else {
            0
        }
    }

    /// Appends the next piece of the reply that is kept: all that is left of it, and it is kept no longer; or more than 65,536
    /// bytes. Where memory runs out nothing changes.
    fn append_kept(&mut self, out: &mut Vec<u8>) -> Result<(), AllocError>
        ensures ok { OnOk result (AppendsKept self.old self.new out.old.items out.new.items) }
        ensures err { OnErr result ((out.new.items ≡ out.old.items) × (self.new ≡ self.old)) }
    {
        let Some(reply) = &self.kept else {
            return Ok(());
        };
        match put_piece(reply, self.place, out)? {
            Some(next) => self.place = next,
            None => {
                self.kept = None;
                self.place = Place::start();
            }
        }
        Ok(())
    }

    /// Keeps a reply of which nothing is appended yet.
    fn keep(&mut self, reply: Reply)
        ensures { self.new ≡ record self.old { kept = Some reply; begun = 0 } }
    {
        self.kept = Some(reply);
        self.place = Place::start();
    }

    /// What the next request waits for, where it is an `Await`.
    pub fn first_awaited(&self) -> Option<(Time, u32)>
        ensures { result ≡ first_awaited self.now.requests }
    {
        match self.waiting.front() {
            Some(Request::Later(LaterRequest::Await { t, milliseconds })) => {
                Some((*t, *milliseconds))
            }
            _ => None,
        }
    }

    /// The first of the requests that wait, where it is the next to be answered: none where none waits, or where a reply is kept. Cost: O(1).
    pub fn first_request(&self) -> Option<&Request>
        ensures some { IfSome result (λ request. first_of self.now.requests ≡ Some request.now) }
        ensures free { IfSome result (λ _. self.now.kept ≡ None) }
        ensures none { IfNone result ((self.now.requests ≡ []) ⊎ (self.now.kept ≢ None)) }
    {
        if self.kept.is_some() {
            return None;
        }
        self.waiting.front()
    }

    /// The next request to be answered, which waits no longer: none where there is none, or where it is an `Await` that
    /// wasn't waited for. Where there is none, their room is given back.
    fn next(&mut self, waited: bool) -> Option<Request>
        ensures some { IfSome result (λ q. self.old ≡ record self.new { requests = q ∷ self.new.requests }) }
        ensures prompt { IfSome result (λ q. waited ≡ false → awaited q ≡ None) }
        ensures same { IfNone result (self.new ≡ self.old) }
        ensures none { IfNone result (HasNoNext waited self.old.requests) }
    {
        if !waited && self.first_awaited().is_some() {
            return None;
        }
        match self.waiting.pop_front() {
            Some(request) => Some(request),
            None => {
                self.waiting = VecDeque::new(self.alloc);
                None
            }
        }
    }

    /// Keeps a reply to the first of the requests that wait, which waits no longer: the next call appends it, and asks the host for
    /// none. Where a reply is kept already, or no request waits, nothing changes, and the reply is handed back. Cost: O(1).
    pub fn put_reply(&mut self, reply: Reply) -> Option<Reply>
        ensures answers { AnswersFirst self.old self.new reply }
        ensures taken { IfNone result (self.new.kept ≡ Some reply) }
        ensures back { IfSome result (λ _. self.new ≡ self.old) }
    {
        if self.kept.is_some() {
            return Some(reply);
        }
        match self.next(true) {
            Some(answered) => {
                drop(answered);
                self.keep(reply);
                None
            }
            None => Some(reply),
        }
    }

    /// What comes where no request can be answered. A fault that follows the requests is appended.
    fn pause(&self, out: &mut Vec<u8>) -> Step
        ensures { Pauses self.now out.old.items out.new.items result }
    {
        if let Some((t, milliseconds)) = self.first_awaited() {
            return Step::Waits { t, milliseconds };
        }
        let Some(fault) = self.fault else {
            return Step::GoesOn;
        };
        match refuse(fault, out) {
            Ok(()) => Step::Ended(Ended::Fault(fault)),
            Err(_e) => without_memory(out),
        }
    }

    /// Answers requests, one after the other.
    pub fn answer<H: Host>(&mut self, has_waited: bool, out: &mut Vec<u8>, host: &mut H) -> Step
        requires { H.ready host.old }
        ensures turns { Turns H.may host.old host.new self.old self.new
            has_waited out.old.items out.new.items result }
        ensures ready { H.ready host.new }
    {
        let mut waited = has_waited;
        'requests: loop {
            let begun = self.has_begun();
            if self.append_kept(out).is_err() {
                return without_memory(out);
            }
            if begun || out.len() > MOST_READY {
                return Step::Full;
            }
            let Some(request) = self.next(waited) else {
                return self.pause(out);
            };
            let reply = host.answer(request);
            self.keep(reply);
            waited = false;
        }
    }

    /// Takes the next piece of the stream, which may be empty, answers the requests that wait, one after the other, and
    /// appends their replies to what is there to be written: until all are answered (`GoesOn`), or there are more than 65,536
    /// bytes (`Full`), or the next request is an `Await` (`Waits`). That one is answered by the next call with `has_waited`,
    /// and at once; no other call answers it, so a call in between may bring more of the stream. What isn't answered is kept.
    ///
    /// A long reply is appended in pieces of more than 65,536 bytes, as `encode_piece` adds them, one by each call, and the
    /// session keeps it until then: a call that found it begun appends the next piece, and answers no request (`Full`). So no
    /// second copy of a long reply is made, where the caller writes what is there before the next call.
    ///
    /// `Ended` with a fault: it follows the requests, and its `Refused` is appended behind their replies. Where memory runs
    /// out for a reply or a piece, it is kept, and appended by the next call, which doesn't ask the host again: `Full`, where
    /// something is there to be written, else `Ended` with `Memory`. That comes also where memory runs out for the piece:
    /// then nothing happened, and the piece isn't taken. A call after the end ends it in the same way again, and appends the
    /// `Refused` again: a caller makes none.
    ///
    /// The host has to be ready (`Host::ready`), and is left ready. Cost: that of the answers, what is appended, and of each
    /// reply two passes that test and count it; and a pass over the piece and over the requests that waited.
    pub fn take<H: Host>(
        &mut self,
        piece: &[u8],
        has_waited: bool,
        out: &mut Vec<u8>,
        host: &mut H,
    ) -> Step
        requires { H.ready host.old }
        // What was appended so far is what the host said to the requests that were answered so far, and these and those
        // that wait are what was taken so far.
        ensures continues { Continues LATEST H.may host.old host.new self.old self.new
            piece.now out.old.items out.new.items result }
        // Which requests this call answered, and that it answered no `Await` that wasn't waited for.
        ensures takes { Takes LATEST H.may host.old host.new self.old self.new
            piece.now has_waited out.old.items out.new.items result }
        ensures ready { H.ready host.new }
    {
        if self.read(piece).is_err() {
            return Step::Ended(Ended::Memory);
        }
        self.answer(has_waited, out, host)
    }

    /// Ends a session whose stream is at its end: `Clean` between requests, inside of one `Fault` with `Truncated`, whose
    /// `Refused` is appended, or `Memory` where there is none for that. A fault that `take` met is appended so too. Requests
    /// that wait go with the session, so a caller calls `take` first until it says `GoesOn`.
    pub fn finish(mut self, out: &mut Vec<u8>) -> Ended
        ensures { Closes (fault_of self.entry.left) out.old.items out.new.items result }
    {
        let none = RequestFeeder::new(self.alloc);
        let feeder = mem::replace(&mut self.feeder, none);
        self.fault = None;
        close(feeder.finish(), out)
    }
}
