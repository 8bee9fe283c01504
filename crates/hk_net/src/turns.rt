//! A connection's turn: what is there is read, answered and written, at most so much that others have their turn soon.

ghost use Rattle.std.specs.Prelude.{◌≡◌, Some, None, [], IfSome, IfNone};
ghost use mathlib.Core.List.{IsPrefix};
ghost use Rattle.hk_exchange.specs.Exchanges.{StaysBy, StaysReady};
ghost use Rattle.hk_net.specs.Connections.{KeptBeside, StepsAnyhow, StepsApart, StepsBy, Turned, own_of};

use crate::link::{Link, Pipe, Stage};
use hk_doors::{Passes, Then};
use hk_exchange::{Came, How, LEAST_PIECE, Looked, MOST_HELD};
use hk_link::PartsHost;
use hk_link_state::{LinkState, NodeSide};
use hk_messages::{LaterReply, LaterRequest, Reply, Request};
use hk_session_parts::{Ended, Step};
use std::io::{ErrorKind, Read};
use std::mem;

/// How often a connection is read in one turn at most.
const MOST_READS: u32 = 16;

/// A worker ends one connection in a round that has more pins than these, since it asks for the release of each.
const FEW_PINS: usize = 16;

/// How many pins of such a connection it asks for in a round at most, so that others have their turn between.
const SOME_PINS: usize = 64;

/// What a worker knows as a connection has its turn.
#[derive(Clone, Copy)]
pub(crate) struct Moment {
    /// Which requests its door lets through.
    pub(crate) passes: Passes,
    /// Whether the worker gives long answers.
    pub(crate) is_at_long_end: bool,
    /// Whether a frame may take only so many reads.
    pub(crate) counts_reads: bool,
    /// Whether a connection with many pins may end.
    pub(crate) lets_go: bool,
    /// The number of the greatest time that is known to be readable.
    pub(crate) readable: u64,
    /// The worker's clock, in milliseconds.
    pub(crate) now: u64,
}

impl Moment {
    /// What is made of a connection's bytes.
    fn how(self) -> How
        ensures { result.passes ≡ self.passes }
    {
        How {
            passes: self.passes,
            is_at_long_end: self.is_at_long_end,
            counts_reads: self.counts_reads,
        }
    }
}

/// What is left of a connection after its turn.
#[derive(Clone, Copy, PartialEq, Eq)]
pub(crate) enum Turn {
    /// Nothing can be done until the system says so, or a limit of time is over.
    Waits,
    /// There is more to do, after the others.
    Again,
    /// The same, after the release of many pins.
    Freed,
    /// Its next request is an Await: until this number is readable, or so many milliseconds are over.
    Parks { number: u64, milliseconds: u32 },
    /// Its next request is for a worker that gives long answers.
    Moves,
    /// It is over.
    Over,
}

/// Whether a release was made.
fn is_done(reply: &Reply) -> bool {
    matches!(reply, Reply::Later(LaterReply::Done { .. }))
}

/// Asks for the release of some of a connection's pins, the last ones first, as the connection itself could. Returns false where one isn't
/// released.
fn release_some<H: NodeSide + Drop>(both: &mut PartsHost<'_, H>) -> bool
    requires { H.ready both.old.inner }
    ensures ready { H.ready both.new.inner }
    ensures seen { IsPrefix (H.side.list both.old.inner) (H.side.list both.new.inner) }
{
    for _ in 0..SOME_PINS {
        let Some(number) = both.last_pin() else {
            return true;
        };
        let request = Request::Later(LaterRequest::Release { number });
        if !is_done(&both.answer_uncounted(request)) {
            return false;
        }
    }
    true
}

impl Pipe<'_> {
    /// What a connection does next whose socket takes no more, or has a lot.
    fn until_written(&self) -> Turn {
        if self.exchange.is_writable() {
            Turn::Again
        } else {
            Turn::Waits
        }
    }

    /// Notes how far the session is; where there was no step it waits. An Await whose time is readable, or that waits for no time at all,
    /// is answered by the next step.
    fn note_step(&mut self, step: Option<Step>, readable: u64) -> Option<Turn>
        ensures { self.new.exchange ≡ self.old.exchange }
    {
        let Some(step) = step else {
            return Some(Turn::Waits);
        };
        self.is_full = matches!(step, Step::Full);
        // A peer that sends no more gets what there is.
        let readable = if self.is_closed { u64::MAX } else { readable };
        match step {
            Step::GoesOn | Step::Full => {}
            Step::Ended(ended) => {
                if let Ended::Fault(fault) = ended {
                    self.meters.note_refusal(fault.number());
                }
            }
            Step::Waits { t, milliseconds } => {
                let number = t.number();
                if milliseconds > 0 && number > readable {
                    return Some(Turn::Parks {
                        number,
                        milliseconds,
                    });
                }
                self.has_waited = true;
            }
        }
        None
    }

    /// Takes what a step added, and writes what is long. Where the socket failed, or memory ran out, the connection ends.
    fn put(&mut self, moment: Moment, out: &mut Vec<u8>)
        ensures stays { StaysBy self.old.exchange out.old.items self.new.exchange [] }
        ensures empty { out.new.items ≡ [] }
    {
        if !out.is_empty() {
            self.since = moment.now;
        }
        if !self
            .exchange
            .put(&mut self.socket, out, moment.is_at_long_end)
        {
            self.is_cut = true;
        }
    }

    /// Whether its next request is for a worker that gives long answers, and this isn't one.
    fn has_to_move(&self, moment: Moment) -> bool {
        let is_next = self.rest_moves && !self.is_full && !self.has_waited;
        !moment.is_at_long_end && (self.is_far || is_next)
    }

    /// Whether a reply of it is written in part.
    pub(crate) fn is_writing(&self) -> bool {
        self.is_full || self.has_unwritten()
    }

    /// Whether others have their turn before its session is handed more, which answered something or didn't.
    fn lets_others(&self, has_answered: bool) -> bool {
        let waits = self.exchange.has_rest() && !self.rest_moves;
        !self.is_full && (waits || has_answered && self.is_readable)
    }

    /// Writes what stands, and counts what was written. Where the socket failed the connection ends.
    pub(crate) fn write(&mut self, now: u64)
        ensures { StaysReady self.old.exchange self.new.exchange }
    {
        self.write_standing(now);
        self.meters.note_written(self.exchange.take_sent());
    }

    fn write_standing(&mut self, now: u64)
        ensures { StaysReady self.old.exchange self.new.exchange }
    {
        if self.is_cut {
            return;
        }
        let before = self.exchange.unwritten();
        if !self.exchange.write(&mut self.socket) {
            self.cut(Ended::WriteFault);
        }
        if self.exchange.unwritten() < before {
            self.since = now;
            self.frame_since = now;
        }
    }

    /// Whether something is to be done for it where all that stood is written: the system says nothing of a socket that took all.
    fn has_more(&self) -> bool {
        if self.has_ended() {
            return !self.is_shut;
        }
        let is_held = self.is_full || self.has_waited || self.is_far || self.exchange.has_rest();
        self.awaited.is_none() && (is_held || self.is_readable)
    }

    /// What is done once the session has ended: its last replies are written, the socket is closed for writing, and what it still
    /// sends is read and dropped for a while. A connection that is closed over bytes that nobody read is cut off, and the peer
    /// could lose what was written.
    fn linger(&mut self, moment: Moment, piece: &mut [u8]) -> Turn
        ensures { self.new.exchange ≡ self.old.exchange }
    {
        if self.is_cut {
            return Turn::Over;
        }
        if self.has_unwritten() {
            return self.until_written();
        }
        if self.exchange.ended() == Some(Ended::Clean) {
            return Turn::Over;
        }
        if !self.is_shut {
            self.is_shut = true;
            self.frame_since = moment.now;
            self.since = moment.now;
            if self.socket.end_writing().is_err() {
                return Turn::Over;
            }
        }
        self.drop_input(moment, piece)
    }

    /// Reads and drops what the peer still sends.
    fn drop_input(&mut self, moment: Moment, piece: &mut [u8]) -> Turn
        ensures { self.new.exchange ≡ self.old.exchange }
    {
        for _ in 0..MOST_READS {
            match self.socket.read(piece) {
                Ok(0) => return Turn::Over,
                Ok(count) => {
                    self.meters.note_read(count as u64);
                    self.since = moment.now;
                }
                Err(error) if error.kind() == ErrorKind::WouldBlock => return Turn::Waits,
                Err(_error) => return Turn::Over,
            }
        }
        Turn::Again
    }

    /// Has the host answer a request that may take many looks, where it takes few: its reply is kept. Returns false where it takes more.
    fn answer_apart<H: NodeSide + Drop>(&mut self, host: &mut PartsHost<'_, H>) -> bool
        requires { H.ready host.old.inner }
        ensures ready { H.ready host.new.inner }
        ensures steps { StepsApart H.side H.may host.old host.new self.old.exchange self.new.exchange }
    {
        let Some(request) = self.exchange.first_request() else {
            return true;
        };
        let Some(reply) = host.answer_briefly(request) else {
            return false;
        };
        // It was asked for just now, so it is taken.
        let _back = self.exchange.put_reply(reply);
        true
    }

    /// What a look at bytes came to: a request that may take many looks is answered where it takes few, else it waits.
    fn looked<H: NodeSide + Drop>(
        &mut self,
        looked: Looked,
        out: &mut Vec<u8>,
        host: &mut PartsHost<'_, H>,
    ) -> Step
        requires { H.ready host.old.inner }
        ensures ready { H.ready host.new.inner }
        ensures steps { StepsAnyhow H.side H.may host.old host.new
            self.old.exchange out.old self.new.exchange out.new }
    {
        self.rest_moves = looked.then == Then::Moves;
        if !looked.is_apart {
            return looked.step;
        }
        if !self.answer_apart(host) {
            self.is_far = true;
            return Step::GoesOn;
        }
        self.exchange.answer(false, out, host)
    }

    /// Notes what a read brought.
    fn note_came(&mut self, moment: Moment, count: usize, room: usize)
        ensures { self.new.exchange ≡ self.old.exchange }
    {
        self.since = moment.now;
        // A read that doesn't fill its buffer took all that had come: the system tells what comes next.
        if count < room && !self.is_special {
            self.is_readable = false;
        }
    }

    /// Notes when the frame began that isn't complete, or that is for another worker, where it began with so many bytes.
    fn note_frame(&mut self, moment: Moment, count: usize)
        ensures { self.new.exchange ≡ self.old.exchange }
    {
        if self.exchange.held() <= count as u64 {
            self.frame_since = moment.now;
        }
    }

    /// What a read of so much room came to: what is complete is answered. `None` where nothing was there.
    fn take_came<H: NodeSide + Drop>(
        &mut self,
        moment: Moment,
        room: usize,
        came: Came,
        out: &mut Vec<u8>,
        host: &mut PartsHost<'_, H>,
    ) -> Option<Step>
        requires { H.ready host.old.inner }
        ensures ready { H.ready host.new.inner }
        ensures steps { StepsAnyhow H.side H.may host.old host.new
            self.old.exchange out.old self.new.exchange out.new }
    {
        match came {
            Came::Bytes {
                count,
                first,
                looked,
            } => {
                self.note_came(moment, count, room);
                self.note_first(first);
                let step = self.looked(looked, out, host);
                self.note_frame(moment, count);
                Some(step)
            }
            Came::Nothing => {
                self.is_readable = false;
                None
            }
            Came::Again => Some(Step::GoesOn),
            Came::End(step) => Some(step),
            Came::Failed => {
                self.exchange.cut(Ended::ReadFault);
                Some(Step::Ended(Ended::ReadFault))
            }
        }
    }

    /// Answers what waits, or what is there to read. `None` where nothing is.
    fn step<H: NodeSide + Drop>(
        &mut self,
        moment: Moment,
        piece: &mut Vec<u8>,
        out: &mut Vec<u8>,
        host: &mut PartsHost<'_, H>,
    ) -> Option<Step>
        requires { H.ready host.old.inner }
        ensures ready { H.ready host.new.inner }
        ensures steps { StepsBy H.side H.may host.old host.new moment
            self.old.exchange out.old self.new.exchange out.new }
    {
        if self.is_full || self.has_waited || self.is_far {
            self.is_far = false;
            let has_waited = mem::replace(&mut self.has_waited, false);
            return Some(self.exchange.answer(has_waited, out, host));
        }
        if self.exchange.has_rest() {
            let looked = self.exchange.take_rest(moment.how(), out, host);
            return Some(self.looked(looked, out, host));
        }
        if !self.is_readable {
            return None;
        }
        let room = piece.len().saturating_sub(LEAST_PIECE);
        let (socket, how) = (&mut self.socket, moment.how());
        let came = self
            .exchange
            .read(socket, self.meters, how, piece, out, host);
        self.take_came(moment, room, came, out, host)
    }

    /// One after the other what can be done now, until the session ends.
    fn steps<H: NodeSide + Drop>(
        &mut self,
        moment: Moment,
        piece: &mut Vec<u8>,
        out: &mut Vec<u8>,
        host: &mut PartsHost<'_, H>,
    ) -> Turn
        requires ready { H.ready host.old.inner }
        requires empty { out.old.items ≡ [] }
        ensures ready { H.ready host.new.inner }
        ensures empty { out.new.items ≡ [] }
        ensures steps { StepsBy H.side H.may host.old host.new moment
            self.old.exchange out.old self.new.exchange out.new }
    {
        for _ in 0..MOST_READS {
            if self.exchange.unwritten() > MOST_HELD {
                return self.until_written();
            }
            if self.has_to_move(moment) {
                return Turn::Moves;
            }
            let step = self.step(moment, piece, out, host);
            let has_answered = !out.is_empty();
            let turn = self.note_step(step, moment.readable);
            self.put(moment, out);
            if self.has_ended() {
                return Turn::Again;
            }
            if let Some(turn) = turn {
                return turn;
            }
            if self.lets_others(has_answered) {
                return Turn::Again;
            }
        }
        Turn::Again
    }

    /// What it does next, unless it was ended.
    fn unless_cut(&self, turn: Turn) -> Turn {
        if self.is_cut { Turn::Again } else { turn }
    }
}

impl<'d> Link<'d> {
    /// Writes what stands after the turns of a round, and reserves room for what still does. Returns whether the connection has a turn
    /// in the next one.
    pub(crate) fn end_round(&mut self, now: u64) -> bool
        ensures stays { StaysBy self.old.pipe.exchange [] self.new.pipe.exchange [] }
        ensures stage { self.new.stage ≡ self.old.stage }
        ensures kept { KeptBeside self.old.kept self.new.kept }
        ensures passes { self.new.passes ≡ self.old.passes }
    {
        self.pipe.write(now);
        self.reserve();
        let is_stopped = self.pipe.has_unwritten() || self.pipe.has_more();
        self.pipe.is_cut || self.pipe.exchange.is_writable() && is_stopped
    }

    /// Keeps what is kept beside the worker's seat.
    fn keep(&mut self, kept: LinkState<'d>)
        ensures { self.new ≡ record self.old { kept = Some kept.entry } }
    {
        self.kept = Some(kept);
    }

    /// Keeps what is left of a session that has ended: pins that the node handed back are others' from now on.
    fn let_go(&mut self, state: LinkState<'d>, left: &mut Vec<LinkState<'d>>)
        ensures stays { StaysBy self.old.pipe.exchange [] self.new.pipe.exchange [] }
        ensures over { own_of self.new ≡ None }
        ensures passes { self.new.passes ≡ self.old.passes }
    {
        self.stage = Stage::Left;
        self.reserved = 0;
        if state.hold_count() > 0 {
            // Where memory runs out the pins stay in the node.
            let _kept = left.push(state);
            return;
        }
        self.keep(state);
        self.reserve_much();
    }

    /// What it keeps, while it has its pins and what came in chunks.
    fn take_kept(&mut self) -> Option<LinkState<'d>>
        ensures same { self.new ≡ record self.old { kept = self.new.kept } }
        ensures kept { IfSome result (λ kept. self.old.kept ≡ Some kept) }
        ensures none { IfNone result (own_of self.new ≡ None) }
    {
        if matches!(self.stage, Stage::Left) {
            return None;
        }
        self.kept.take()
    }

    /// Has its turn over a host of its worker's seat, which is returned. Once its session has ended what it kept is dropped: the release
    /// of each of its pins is asked for, and where the node hands some back they are put into `left`.
    pub(crate) fn turn<H: NodeSide + Drop>(
        &mut self,
        moment: Moment,
        piece: &mut Vec<u8>,
        out: &mut Vec<u8>,
        host: H,
        left: &mut Vec<LinkState<'d>>,
    ) -> (Turn, H)
        requires ready { H.ready host }
        requires empty { out.old.items ≡ [] }
        ensures empty { out.new.items ≡ [] }
        ensures turn { Turned H.side H.may moment host self.old result.1 self.new }
        ensures passes { self.new.passes ≡ self.old.passes }
    {
        self.pipe.write(moment.now);
        let Some(kept) = self.take_kept() else {
            return (self.pipe.linger(moment, piece), host);
        };
        if !self.lives() || self.pipe.has_ended() {
            return self.end_session(moment, host, kept, left);
        }
        let mut both = PartsHost::new(host, kept);
        let turn = self.pipe.steps(moment, piece, out, &mut both);
        let (host, kept) = both.into_parts();
        if self.pipe.has_ended() {
            return self.end_session(moment, host, kept, left);
        }
        self.keep(kept);
        self.reserve_much();
        (self.pipe.unless_cut(turn), host)
    }

    /// What is done with the pins of a session that has ended: of many some in each round, and then the others.
    fn end_session<H: NodeSide + Drop>(
        &mut self,
        moment: Moment,
        host: H,
        kept: LinkState<'d>,
        left: &mut Vec<LinkState<'d>>,
    ) -> (Turn, H)
        requires { H.ready host }
        ensures stays { StaysBy self.old.pipe.exchange [] self.new.pipe.exchange [] }
        ensures over { own_of self.new ≡ None }
        ensures passes { self.new.passes ≡ self.old.passes }
        ensures seen { IsPrefix (H.side.list host) (H.side.list result.1) }
    {
        self.stage = Stage::LetsGo;
        let is_few = kept.hold_count() <= FEW_PINS;
        if !is_few && !moment.lets_go {
            self.keep(kept);
            return (Turn::Again, host);
        }
        let turn = if is_few { Turn::Again } else { Turn::Freed };
        let mut both = PartsHost::new(host, kept);
        if !is_few && release_some(&mut both) {
            let (host, kept) = both.into_parts();
            self.keep(kept);
            return (turn, host);
        }
        let (host, state) = both.end();
        self.let_go(state, left);
        (turn, host)
    }
}
