//! A connection of a worker: its socket, its session, and what waits between them.

ghost use Rattle.std.specs.Prelude.{◌≡◌, [], true, None};
ghost use Rattle.hk_exchange.specs.Exchanges.{StaysBy, StaysReady, start, value_of};
ghost use Rattle.hk_net.specs.declared.link.Stage.TheVariants.{Lives};
ghost use Rattle.hk_net.specs.Connections.{IsNew, KeptBeside};

use crate::doors::Limits;
use crate::sockets::Socket;
use crate::speech::speech_of;
use crate::waiting::Awaited;
use hk_doors::Passes;
use hk_exchange::{Exchange, MOST_HELD};
use hk_host::Speech;
use hk_link_state::LinkState;
use hk_meters::Meters;
use hk_session_parts::Ended;
use mio::{Registry, Token};
use std::alloc::Global;

/// For how many milliseconds what a peer still sends is read and dropped once its session has ended, so that it can read the last reply:
/// so many at most, and so many without a byte.
const MOST_LINGERING: u64 = 2_000;

const MOST_SILENT: u64 = 250;

/// From how many milliseconds on a frame that isn't complete has to have brought as many bytes as its time asks for.
const RATE_AFTER: u64 = 30_000;

/// How many bytes are counted together where room is reserved for them.
const COUNTED_BYTES: u64 = 4_096;

/// What the system said of a socket.
#[derive(Clone, Copy)]
pub(crate) struct Readiness {
    pub(crate) is_readable: bool,
    pub(crate) is_writable: bool,
    /// The peer sends no more, or had a byte out of band: it is read until nothing is there.
    pub(crate) is_special: bool,
    /// The peer sends no more.
    pub(crate) is_closed: bool,
    /// The socket failed.
    pub(crate) is_broken: bool,
}

/// What is between a connection's socket and its session, and how far that is.
#[derive(Drop)]
pub(crate) struct Pipe<'d> {
    /// Where it is counted what the connection does.
    pub(crate) meters: &'d Meters<'d>,
    pub(crate) socket: Socket,
    pub(crate) exchange: Exchange,
    /// Whether its first four bytes are still to come, and what they are of, where they are of no message.
    is_fresh: bool,
    pub(crate) speech: Option<Speech>,
    /// Whether what waits begins with a request for a worker that gives long answers.
    pub(crate) rest_moves: bool,
    /// Whether its session keeps a request for a worker that gives long answers.
    pub(crate) is_far: bool,
    /// What it waits for.
    pub(crate) awaited: Option<Awaited>,
    /// When a byte came or went last, in milliseconds of the worker's clock.
    pub(crate) since: u64,
    /// When the frame began that isn't complete, or its connection was read again last; then when the socket was closed for writing.
    pub(crate) frame_since: u64,
    /// A read may bring something.
    pub(crate) is_readable: bool,
    /// It is read until nothing is there: a read that doesn't fill its buffer may not have taken all.
    pub(crate) is_special: bool,
    /// The peer sends no more than what can be read: an Await of it isn't waited for.
    pub(crate) is_closed: bool,
    /// Its session keeps requests that can be answered.
    pub(crate) is_full: bool,
    /// Its next request is an Await, which was waited for.
    pub(crate) has_waited: bool,
    /// The socket is closed for writing.
    pub(crate) is_shut: bool,
    /// It ends as it is, whatever stands.
    pub(crate) is_cut: bool,
}

/// How far the life of a connection is.
#[derive(Clone, Copy)]
pub(crate) enum Stage {
    /// Its session goes on.
    Lives,
    /// Its session has ended, and what it kept is being dropped: it may have pins yet.
    LetsGo,
    /// What it kept was dropped.
    Left,
}

/// A connection of a worker.
#[derive(Drop)]
pub(crate) struct Link<'d> {
    /// The number of its door, and its place among the connections of all doors.
    door: u32,
    place: u32,
    pub(crate) pipe: Pipe<'d>,
    /// What it keeps beside its worker's seat, and how many times 4,096 bytes of that are reserved for its pipe.
    pub(crate) kept: Option<LinkState<'d>>,
    pub(crate) reserved: u32,
    /// Which requests its door lets through.
    pub(crate) passes: Passes,
    pub(crate) stage: Stage,
}

impl<'d> Pipe<'d> {
    /// That of a connection that was just accepted.
    pub(crate) fn new(alloc: Global, socket: Socket, now: u64, meters: &'d Meters<'d>) -> Pipe<'d>
        ensures { value_of result.exchange ≡ start }
    {
        Pipe {
            meters,
            socket,
            exchange: Exchange::new(alloc),
            is_fresh: true,
            speech: None,
            rest_moves: false,
            is_far: false,
            awaited: None,
            since: now,
            frame_since: now,
            is_readable: true,
            is_special: false,
            is_closed: false,
            is_full: false,
            has_waited: false,
            is_shut: false,
            is_cut: false,
        }
    }

    /// Notes what the system said of its socket, and returns whether it has a turn. One that waits by an Await isn't read, but what stands
    /// is written.
    pub(crate) fn note(&mut self, told: Readiness) -> bool
        ensures { StaysReady self.old.exchange self.new.exchange }
    {
        self.is_readable = self.is_readable || told.is_readable;
        self.is_special = self.is_special || told.is_special;
        self.is_closed = self.is_closed || told.is_closed;
        if told.is_writable {
            self.exchange.note_writable();
        }
        if told.is_broken && self.awaited.is_some() {
            self.cut(Ended::ReadFault);
        }
        // The system may say no more than that a socket takes bytes, of a connection that has none for it.
        let is_read = told.is_readable && self.awaited.is_none();
        self.is_cut || is_read || self.has_unwritten()
    }

    /// Has the system say under a token what happens to its socket. Where that can't be done it ends at its next turn.
    pub(crate) fn register(&mut self, registry: &Registry, token: usize)
        ensures { StaysReady self.old.exchange self.new.exchange }
    {
        if self.socket.register(registry, Token(token)).is_err() {
            self.cut(Ended::Memory);
        }
    }

    /// Has its socket's events come to this worker no more. Returns whether it can go to another one.
    pub(crate) fn leave(&mut self, registry: &Registry) -> bool
        ensures { self.new.exchange ≡ self.old.exchange }
    {
        !self.is_cut && self.socket.deregister(registry).is_ok()
    }

    /// Has it wait for a time; or no longer, where it is `None`, so that its next request is answered.
    pub(crate) fn wait_for(&mut self, awaited: Option<Awaited>)
        ensures { self.new.exchange ≡ self.old.exchange }
    {
        self.awaited = awaited;
        self.has_waited = awaited.is_none();
    }

    /// Has it wait no longer, and returns what it waited for.
    pub(crate) fn end_wait(&mut self, now: u64) -> Option<Awaited>
        ensures { self.new.exchange ≡ self.old.exchange }
    {
        let awaited = self.awaited;
        if awaited.is_some() {
            self.wait_for(None);
            self.since = now;
            self.frame_since = now;
        }
        awaited
    }

    /// Notes what its first bytes are of, once four are there.
    pub(crate) fn note_first(&mut self, first: Option<[u8; 4]>)
        ensures { self.new.exchange ≡ self.old.exchange }
    {
        if let (true, Some(first)) = (self.is_fresh, first) {
            self.is_fresh = false;
            self.speech = speech_of(&first);
        }
    }

    /// Whether replies stand that the socket didn't take.
    pub(crate) fn has_unwritten(&self) -> bool {
        self.exchange.unwritten() > 0
    }

    /// Whether its session has ended.
    pub(crate) fn has_ended(&self) -> bool {
        self.exchange.ended().is_some()
    }

    /// Ends it as it is. A session that had ended keeps how it ended.
    pub(crate) fn cut(&mut self, ended: Ended)
        ensures { StaysReady self.old.exchange self.new.exchange }
    {
        self.is_cut = true;
        self.exchange.cut(ended);
    }

    /// How it ended.
    pub(crate) fn end(&self) -> Ended {
        match self.exchange.ended() {
            Some(ended) => ended,
            None => Ended::ReadFault,
        }
    }

    /// Whether the frame that isn't complete comes too slowly.
    fn is_too_slow(&self, now: u64, limits: &Limits) -> bool {
        let took = now.saturating_sub(self.frame_since);
        let wanted = (took / 1_000).saturating_mul(limits.read_rate);
        took >= RATE_AFTER && self.exchange.held_of_frame() < wanted
    }

    /// Whether no byte came or went for so many seconds.
    fn is_silent(&self, now: u64, seconds: u64) -> bool {
        now.saturating_sub(self.since) >= seconds.saturating_mul(1_000)
    }

    /// How it ends where it did nothing for too long.
    fn over_time(&self, now: u64, limits: &Limits) -> Option<Ended> {
        let silent = now.saturating_sub(self.since);
        if self.is_shut {
            let all = now.saturating_sub(self.frame_since);
            let is_over = silent >= MOST_SILENT || all >= MOST_LINGERING;
            return if is_over { Some(self.end()) } else { None };
        }
        let (seconds, ended) = if self.has_unwritten() {
            (limits.write_seconds, Ended::WriteFault)
        } else if self.awaited.is_some() {
            return None;
        } else if self.exchange.is_within() {
            if self.is_too_slow(now, limits) {
                return Some(Ended::ReadFault);
            }
            (limits.read_seconds, Ended::ReadFault)
        } else {
            (limits.idle_seconds, Ended::ReadFault)
        };
        if seconds > 0 && self.is_silent(now, seconds) {
            Some(ended)
        } else {
            None
        }
    }

    /// Whether something of it may come to be over time.
    fn is_timed(&self, limits: &Limits) -> bool {
        self.is_shut
            || limits.idle_seconds > 0
            || self.has_unwritten() && limits.write_seconds > 0
            || self.exchange.is_within() && (limits.read_seconds > 0 || limits.read_rate > 0)
    }
}

impl<'d> Link<'d> {
    /// A connection that was just accepted. It keeps nothing yet.
    pub(crate) fn new(
        alloc: Global,
        socket: Socket,
        door: usize,
        place: usize,
        passes: Passes,
        now: u64,
        meters: &'d Meters<'d>,
    ) -> Link<'d>
        ensures new { IsNew result }
        ensures none { result.kept ≡ None }
    {
        Link {
            door: u32::try_from(door).unwrap_or(u32::MAX),
            place: u32::try_from(place).unwrap_or(u32::MAX),
            pipe: Pipe::new(alloc, socket, now, meters),
            kept: None,
            reserved: 0,
            passes,
            stage: Stage::Lives,
        }
    }

    /// Whether what it keeps is of a session that goes on.
    pub(crate) fn lives(&self) -> bool
        ensures { result ≡ true → self.now.stage ≡ Lives }
    {
        matches!(self.stage, Stage::Lives)
    }

    /// The number of its door.
    pub(crate) fn door(&self) -> usize {
        self.door as usize
    }

    /// Its place among the connections of all doors.
    pub(crate) fn place(&self) -> usize {
        self.place as usize
    }

    /// Whether its peer takes a snapshot in chunks, and might ask for the next one.
    fn is_giving(&self) -> bool {
        match &self.kept {
            Some(kept) => kept.is_giving(),
            None => false,
        }
    }

    /// Whether something of it may come to be over time.
    pub(crate) fn is_timed(&self, limits: &Limits) -> bool {
        self.pipe.is_timed(limits) || limits.write_seconds > 0 && self.is_giving()
    }

    /// How it ends where it did nothing for too long. A peer that takes a snapshot in chunks, and asks for no further one, takes no reply.
    pub(crate) fn over_time(&self, now: u64, limits: &Limits) -> Option<Ended> {
        let ended = self.pipe.over_time(now, limits);
        if ended.is_some() || limits.write_seconds == 0 || !self.is_giving() {
            return ended;
        }
        let is_over = self.pipe.is_silent(now, limits.write_seconds);
        if is_over && self.pipe.awaited.is_none() {
            Some(Ended::WriteFault)
        } else {
            None
        }
    }

    /// Reserves room of the budget for what is between its socket and its session: what came of a frame that isn't complete, what waits
    /// behind an Await, for others or for another worker, and replies that aren't written. A connection for which there is none ends. Fewer bytes than 4,096 aren't counted.
    pub(crate) fn reserve(&mut self)
        ensures stays { StaysBy self.old.pipe.exchange [] self.new.pipe.exchange [] }
        ensures stage { self.new.stage ≡ self.old.stage }
        ensures kept { KeptBeside self.old.kept self.new.kept }
        ensures passes { self.new.passes ≡ self.old.passes }
    {
        let exchange = &self.pipe.exchange;
        let held = exchange.held().saturating_add(exchange.standing());
        let reserved = u32::try_from(held / COUNTED_BYTES).unwrap_or(u32::MAX);
        if reserved == self.reserved {
            return;
        }
        let bytes = u64::from(reserved).saturating_mul(COUNTED_BYTES);
        let has_room = match &mut self.kept {
            Some(kept) => kept.keep_bytes(bytes),
            None => true,
        };
        if has_room {
            self.reserved = reserved;
        } else {
            self.drop_held();
        }
    }

    /// Ends it for want of room, and drops what it holds.
    fn drop_held(&mut self)
        ensures stays { StaysBy self.old.pipe.exchange [] self.new.pipe.exchange [] }
        ensures stage { self.new.stage ≡ self.old.stage }
        ensures kept { KeptBeside self.old.kept self.new.kept }
        ensures passes { self.new.passes ≡ self.old.passes }
    {
        self.pipe.is_cut = true;
        self.pipe.exchange.drop_all(Ended::Memory);
    }

    /// The same at once where much stands, so that a reply for which there is no room is dropped before another one is made.
    pub(crate) fn reserve_much(&mut self)
        ensures stays { StaysBy self.old.pipe.exchange [] self.new.pipe.exchange [] }
        ensures stage { self.new.stage ≡ self.old.stage }
        ensures kept { KeptBeside self.old.kept self.new.kept }
        ensures passes { self.new.passes ≡ self.old.passes }
    {
        if self.pipe.exchange.standing() > MOST_HELD as u64 {
            self.reserve();
        }
    }
}
