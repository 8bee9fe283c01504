//! An open connection to a node.

use crate::pace::Pace;
use crate::progress::Progress;
use crate::reply_head::ReplyHead;
use crate::stream::Stream;
use hk_cli_calls::Limits;
use hk_cli_input::{LinkFault, MOST_READS, PIECE_BYTES, Peer, Stop};
use hk_cli_reasons::{Origin, Place, RequestContext};
use hk_encodings::encode_request;
use hk_fragment::Fragment;
use hk_log::Item;
use hk_messages::{LaterReply, LaterRequest, Reply, ReplyFeeder, Request};
use hk_model::Front;
use hk_types::{FormFault, Refusal};
use std::alloc::Global;
use std::io;
use std::io::{ErrorKind, Stderr};
use std::time::Duration;

/// An open connection to a node.
#[derive(Drop)]
pub(crate) struct Link {
    alloc: Global,
    stream: Stream,
    limits: Limits,
    progress: Progress,
    pace: Pace,
    /// The first bytes of the reply that is waited for, and whether its request is of version 2.
    head: ReplyHead,
    asks_later: bool,
    /// Whether the node is the one that is copied from.
    is_source: bool,
    feeder: ReplyFeeder,
    /// Replies that came and are not returned yet: more than one where the node sends more than it was asked for.
    replies: Vec<Reply>,
    piece: Vec<u8>,
    text: Vec<u8>,
    /// How many requests were sent.
    sent: u64,
    /// Whether a reply came.
    is_answered: bool,
}

/// The time that a request asks for.
pub(crate) fn asked_of(request: &Request) -> RequestContext {
    match request {
        Request::Ask { t, .. } => RequestContext::At(*t),
        Request::Prune { horizon } => RequestContext::At(*horizon),
        Request::Delta { base } | Request::Later(LaterRequest::Whole { base, .. }) => {
            RequestContext::At(*base)
        }
        Request::Later(LaterRequest::Hold { t }) => RequestContext::At(*t),
        Request::Later(LaterRequest::Page(of)) => RequestContext::At(of.time),
        _other => RequestContext::Nothing,
    }
}

/// Why a reply refuses its request, if it does. Cost: O(1).
pub fn refusal_of(reply: &Reply) -> Option<Refusal> {
    match reply {
        Reply::Refused(why) | Reply::Later(LaterReply::Refused(why)) => Some(*why),
        _other => None,
    }
}

/// The range of readable times that a reply gives.
pub(crate) fn front_of(reply: Reply) -> Result<Front, Stop> {
    match reply {
        Reply::Front(front) => Ok(front),
        _none => Err(unasked()),
    }
}

/// The log of the fragment that a reply gives.
fn log_in(reply: Reply) -> Result<u64, Stop> {
    match reply {
        Reply::Fragment(fragment) => Ok(fragment.config().log()),
        _none => Err(unasked()),
    }
}

/// The fragment that a reply gives, or why it is refused.
fn fragment_of(reply: Reply) -> Result<Result<Fragment, Refusal>, Stop> {
    match reply {
        Reply::Fragment(fragment) => Ok(Ok(fragment)),
        Reply::Refused(why) => Ok(Err(why)),
        _none => Err(unasked()),
    }
}

/// The reply of version 2 that a reply is.
fn later_of(reply: Reply) -> Result<LaterReply, Stop> {
    match reply {
        Reply::Later(reply) => Ok(reply),
        _none => Err(unasked()),
    }
}

/// Whether a request is of version 2.
fn is_later(request: &Request) -> bool {
    matches!(request, Request::Later(_) | Request::Feed(_))
}

/// The most milliseconds for which a request is let wait.
const MOST_WAIT: u32 = 10_000;

/// The refusal of a message of another version.
const OTHER_VERSION: Refusal = Refusal::Form(FormFault::BadVersion);

/// Who sends bytes that begin so and are no frame.
fn peer_of(bytes: &[u8]) -> Peer {
    if bytes.starts_with(b"HTTP") {
        return Peer::Http;
    }
    if bytes.starts_with(b"\x15\x03") {
        return Peer::Tls;
    }
    Peer::Other
}

/// The log of an item.
fn log_of(item: &Item) -> u64 {
    match item {
        Item::Commit(entry) => entry.log(),
        Item::Closed(mark) => mark.log(),
    }
}

/// The first log of these items that isn't this one.
fn other_log(items: &[Item], own: Option<u64>) -> Option<u64> {
    for item in items {
        let log = log_of(item);
        if own != Some(log) {
            return Some(log);
        }
    }
    None
}

/// The log of what a request gives to a node of this log, where it names one and it is another.
fn sent_log(request: &Request, own: Option<u64>) -> Option<u64> {
    match request {
        Request::Items(items) | Request::Feed(items) => other_log(items, own),
        Request::JoinThis(fragment) | Request::MergeThis(fragment) => {
            Some(fragment.config().log())
        }
        _other => None,
    }
}

impl Link {
    pub(crate) fn new(
        alloc: Global,
        stream: Stream,
        limits: Limits,
        terminal: Option<Stderr>,
        is_source: bool,
    ) -> Result<Link, Stop> {
        let piece = vec![in alloc; 0u8; PIECE_BYTES]?;
        Ok(Link {
            alloc,
            stream,
            limits,
            progress: Progress::new(terminal),
            pace: Pace::new(limits.read_rate),
            head: ReplyHead::new(),
            asks_later: false,
            is_source,
            feeder: ReplyFeeder::new(alloc),
            replies: Vec::new(alloc),
            piece,
            text: Vec::new(alloc),
            sent: 0,
            is_answered: false,
        })
    }

    /// What its memory grows by.
    pub(crate) fn alloc(&self) -> Global {
        self.alloc
    }

    /// From now on the node is waited for so many seconds at most, 1 or more, each time that bytes are to come or to go. It says whether
    /// the system has it so.
    pub(crate) fn wait_at_most(&mut self, seconds: u64) -> bool {
        self.limits.reply_seconds = seconds;
        self.stream.set_limit(Duration::from_secs(seconds)).is_ok()
    }

    /// Why a read or a write of the stream stops the command: the node let it wait too long, or this.
    fn stop_of(&self, error: &io::Error, stop: Stop) -> Stop {
        match error.kind() {
            ErrorKind::WouldBlock => self.fault(LinkFault::Late(self.limits.reply_seconds)),
            _other => stop,
        }
    }

    /// The place of the request of this number.
    fn place(&self, request: u64) -> Place {
        if self.is_source {
            Place::Source(request)
        } else {
            Place::Request(request)
        }
    }

    /// That the connection failed by this at the last request.
    fn fault(&self, fault: LinkFault) -> Stop {
        Stop::Link(fault, self.place(self.sent))
    }

    /// Why bytes that are no reply and begin as this peer's stop the command: before the first reply they may be of no node.
    fn malformed(&self, why: Refusal, peer: Peer) -> Stop {
        let is_length = matches!(
            why,
            Refusal::Form(FormFault::TooLong | FormFault::WrongLength)
        );
        if self.is_answered || !is_length {
            return Stop::Refused(self.fault_of(why));
        }
        self.fault(LinkFault::NoNode(peer, why))
    }

    /// The fault of a reply that is none: one of version 2 has no meaning where version 1 was asked, whatever else is wrong with it.
    fn fault_of(&self, why: Refusal) -> Refusal {
        if self.head.is_later() && !self.asks_later {
            OTHER_VERSION
        } else {
            why
        }
    }

    /// The origin of a refusal that answers a request, or of a fault of the connection behind it.
    pub(crate) fn origin(&self, asked: RequestContext) -> Origin {
        Origin {
            place: self.place(self.sent),
            asked,
        }
    }

    /// The same of a request that was not sent yet, behind so many that weren't either.
    pub(crate) fn next_origin(&self, kept: u64, asked: RequestContext) -> Origin {
        Origin {
            place: self.place(self.sent.saturating_add(1).saturating_add(kept)),
            asked,
        }
    }

    /// Begins the text of the next request, of which its version is known.
    fn begin(&mut self, is_later: bool) {
        self.text.clear();
        self.asks_later = is_later;
        self.head = ReplyHead::new();
        self.pace.begin();
        self.sent = self.sent.saturating_add(1);
    }

    /// Sends the text of a request.
    fn send(&mut self) -> Result<(), Stop> {
        match self.stream.send(&self.text) {
            Ok(()) => Ok(()),
            Err(error) => Err(self.stop_of(&error, Stop::SendFault)),
        }
    }

    /// Receives what comes next. A stream that ends has the fault of one that is cut.
    fn receive(&mut self) -> Result<(), Stop> {
        let count = match self.stream.receive(self.piece.as_mut_slice()) {
            Ok(count) => count,
            Err(error) => return Err(self.stop_of(&error, Stop::ReadFault)),
        };
        if count == 0 {
            return Err(self.fault(LinkFault::Cut));
        }
        self.progress.add(count);
        self.head.note(&self.piece[..count]);
        let is_slow = self.pace.is_too_slow(count);
        let fed = self.feeder.feed(&self.piece[..count], &mut self.replies);
        if !self.replies.is_empty() {
            return Ok(());
        }
        let peer = peer_of(&self.piece[..count]);
        match fed {
            Ok(()) if is_slow => Err(self.fault(LinkFault::Slow(self.pace.rate()))),
            Ok(()) => Ok(()),
            Err(why) => Err(self.malformed(why, peer)),
        }
    }

    /// Waits for the next reply.
    fn wait(&mut self) -> Result<(), Stop> {
        for _ in 0..MOST_READS {
            if !self.replies.is_empty() {
                self.is_answered = true;
                self.progress.clear();
                return Ok(());
            }
            self.receive()?;
        }
        Err(Stop::ReadFault)
    }

    /// That the reply that came may answer a request: one of version 2 has no meaning where version 1 was asked.
    fn check_version(&self, request: &Request) -> Result<(), Stop> {
        match self.replies.first() {
            Some(Reply::Later(_)) if !is_later(request) => Err(Stop::Refused(OTHER_VERSION)),
            _other => Ok(()),
        }
    }

    /// Takes the reply that came.
    fn take(&mut self) -> Result<Reply, Stop> {
        if self.replies.is_empty() {
            return Err(Stop::ReadFault);
        }
        Ok(self.replies.remove(0))
    }

    /// Sends a request and waits for its reply. A node that reads version 1 alone refuses a request of version 2 in version 1.
    pub(crate) fn ask(&mut self, request: &Request) -> Result<Reply, Stop> {
        self.begin(is_later(request));
        encode_request(request, &mut self.text)?;
        self.send()?;
        self.wait()?;
        self.check_version(request)?;
        self.take()
    }

    /// The same of a request that nobody needs behind it.
    fn asked(&mut self, request: Request) -> Result<Reply, Stop> {
        self.ask(&request)
    }

    /// Sends a request, and waits for the fragment or the refusal that replies it.
    pub(crate) fn fragment(&mut self, request: Request) -> Result<Result<Fragment, Refusal>, Stop> {
        let reply = self.asked(request)?;
        fragment_of(reply)
    }

    /// Sends a request and waits for its reply, which stops the command where it is a refusal.
    fn granted(&mut self, request: &Request) -> Result<Reply, Stop> {
        let reply = self.ask(request)?;
        match refusal_of(&reply) {
            Some(why) => Err(self.refused(request, why)),
            None => Ok(reply),
        }
    }

    /// The same of a request that nobody needs behind it.
    pub(crate) fn given(&mut self, request: Request) -> Result<Reply, Stop> {
        self.granted(&request)
    }

    /// What the node says of its range of readable times.
    fn own_front(&mut self) -> Result<Front, Stop> {
        let reply = self.asked(Request::Front)?;
        front_of(reply)
    }

    /// What the node says of its log: that of the delta since its resolved time.
    fn own_log(&mut self) -> Result<u64, Stop> {
        let base = self.own_front()?.readable;
        let reply = self.asked(Request::Delta { base })?;
        log_in(reply)
    }

    /// Why the command stops where the node refuses a request: where it has another log, which.
    pub(crate) fn refused(&mut self, request: &Request, why: Refusal) -> Stop {
        let origin = self.origin(asked_of(request));
        if !matches!(why, Refusal::ForeignLog) {
            return Stop::RefusedAt(why, origin);
        }
        let count = self.sent;
        let own = self.own_log().ok();
        self.sent = count;
        let sent = sent_log(request, own);
        Stop::Link(LinkFault::OtherLog { sent, own }, origin.place)
    }

    /// The same with a request of version 2, whose reply has its version.
    pub(crate) fn granted_later(&mut self, request: LaterRequest) -> Result<LaterReply, Stop> {
        let reply = self.given(Request::Later(request))?;
        later_of(reply)
    }

    /// For how many milliseconds a request may be let wait: half of what the node's silence is waited for, and ten seconds at most.
    pub(crate) fn most_wait(&self) -> u32 {
        match self.limits.reply_seconds {
            0 => MOST_WAIT,
            seconds => u32::try_from(seconds.saturating_mul(500))
                .unwrap_or(MOST_WAIT)
                .min(MOST_WAIT),
        }
    }

    /// Whether the node reads requests of version 2. Where it doesn't, it ends the connection.
    pub(crate) fn reads_later(&mut self) -> Result<bool, Stop> {
        match self.granted_later(LaterRequest::Streams) {
            Ok(_told) => Ok(true),
            Err(Stop::RefusedAt(Refusal::Form(FormFault::BadVersion), _origin)) => Ok(false),
            Err(stop) => Err(stop),
        }
    }
}

/// Why the command stops where a reply is none to its request.
pub(crate) fn unasked() -> Stop {
    Stop::Refused(Refusal::Form(FormFault::BadKind))
}
