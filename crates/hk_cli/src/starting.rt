//! What a node takes before it listens: what a file of `save` has, and then what another node has above that.

ghost use Rattle.std.specs.Prelude.{⊤};
ghost use Rattle.std.specs.Thread.{IsSync};

use crate::head::{Grade, Heads, tell_source};
use crate::outcome::{Begun, Outcome};
use crate::telling::name_of as place_name;
use hk_budgets::PartsBudget;
use hk_cli_calls::{Limits, NodePlace, OutputForm, Start};
use hk_cli_commands::Output;
use hk_cli_input::{Stop, Summed};
use hk_cli_reasons::{Origin, Place, RequestContext};
use hk_cli_remote::{fetch_from, refusal_of};
use hk_host::NodeHost;
use hk_link::PartsHost;
use hk_link_state::LinkState;
use hk_messages::{LaterRequest, Reply, Request};
use hk_model::{Front, Told};
use hk_node::{Node, NodeName, ReaderSeat};
use hk_session::serve;
use hk_session_parts::{Counted, Ended, Host};
use hk_types::{FormFault, Refusal, Time};
use std::alloc::{AllocError, Global};
use std::fs::Files;
use std::io::{ErrorKind, Read, Write};
use std::net::{Net, TcpListener, TcpStream};
use std::rt::Clock;
use std::sync::Wait;
use std::thread::Threads;
use std::{fs, io, mem};

/// For how many seconds another node may let a request wait.
const REPLY_SECONDS: u64 = 30;

/// The refusal of a request that gives no snapshot.
const BAD_KIND: Refusal = Refusal::Form(FormFault::BadKind);

/// What is said of a file that has no checksum, behind its name.
const NO_CHECKSUM: &str =
    "it has no checksum, so corrupt bytes may not show; 'hkrep save' writes one\n";

/// The origin of what a node of the same program refuses.
pub(crate) const HERE: Origin = Origin {
    place: Place::Whole,
    asked: RequestContext::Nothing,
};

/// Whether a request is the last of a snapshot's.
fn is_last(request: &Request) -> bool {
    matches!(
        request,
        Request::MergeThis(_)
            | Request::JoinThis(_)
            | Request::Later(LaterRequest::MergeParts(_) | LaterRequest::JoinParts(_))
    )
}

/// Whether a request has a chunk of a snapshot.
fn is_part(request: &Request) -> bool {
    matches!(request, Request::Later(LaterRequest::AddPart(_)))
}

/// Why an input isn't taken whose session ended so.
fn stop_of(ended: Ended) -> Option<Stop> {
    match ended {
        Ended::Clean => None,
        Ended::Fault(fault) => Some(Stop::Refused(Refusal::Form(fault))),
        Ended::Memory => Some(Stop::Refused(Refusal::Memory)),
        _read => Some(Stop::ReadFault),
    }
}

/// What came of a snapshot.
#[derive(Drop)]
struct Taking {
    /// The last of its requests, by which the node takes all: it is kept until the input ended well.
    last: Option<Request>,
    /// Why the first was refused that was.
    refused: Option<Refusal>,
}

impl Taking {
    /// Whether the node answers a request at once: a chunk, unless the last request came before, or one was refused.
    fn passes(&self, request: &Request) -> bool {
        self.refused.is_none() && self.last.is_none() && is_part(request)
    }

    /// Keeps the last request; any other is refused.
    fn keep(&mut self, request: Request) -> Reply {
        if self.refused.is_some() || self.last.is_some() || !is_last(&request) {
            return Reply::Refused(BAD_KIND);
        }
        self.last = Some(request);
        Reply::Done { ops: 0 }
    }

    /// Notes why a reply refuses its request, if it does.
    fn note(&mut self, reply: &Reply) {
        self.refused = self.refused.or(refusal_of(reply));
    }

    /// The last request of an input that ended so; else why nothing is taken of it.
    fn ended(&mut self, ended: Ended) -> Result<Request, Stop> {
        if let Some(why) = self.refused {
            return Err(Stop::RefusedAt(why, HERE));
        }
        if let Some(stop) = stop_of(ended) {
            return Err(stop);
        }
        match mem::take(&mut self.last) {
            Some(request) => Ok(request),
            None => Err(Stop::Refused(Refusal::Form(FormFault::Truncated))),
        }
    }
}

/// That a reply refuses nothing; else why it does.
fn granted(reply: &Reply) -> Result<(), Stop> {
    match refusal_of(reply) {
        Some(why) => Err(Stop::RefusedAt(why, HERE)),
        None => Ok(()),
    }
}

/// The range of readable times that a reply gives.
fn front_of(reply: Reply) -> Result<Front, Stop> {
    match reply {
        Reply::Front(front) => Ok(front),
        _none => Err(Stop::Refused(BAD_KIND)),
    }
}

/// The node, as it takes what others have: by the host of a connection that may do everything. It answers the requests that give it
/// a snapshot.
#[derive(Drop)]
struct Own<'n, 'b, J: NodeName, N: Wait + Drop, R: Threads + Wait + Sync> {
    host: PartsHost<'b, NodeHost<'n, J, N, R>>,
    taking: Taking,
}

impl<'n, 'b, J: NodeName, N: Wait + Drop, R: Threads + Wait + Sync> Own<'n, 'b, J, N, R> {
    /// The node by a host of it, with nothing of what came before.
    fn new(
        alloc: Global,
        host: NodeHost<'n, J, N, R>,
        budget: &'b PartsBudget,
    ) -> Own<'n, 'b, J, N, R> {
        let kept = LinkState::new(alloc, budget, None);
        Own {
            host: PartsHost::new(host, kept),
            taking: Taking {
                last: None,
                refused: None,
            },
        }
    }

    /// The seat of the host again. What came of a snapshot that wasn't taken is dropped.
    fn into_seat(self) -> ReaderSeat<J> {
        let (host, _kept) = self.host.end();
        host.into_seat()
    }

    /// What the node replies. (Each function that asks a host of connections costs much to prove, so this one does alone.)
    fn ask(&mut self, request: Request) -> Reply {
        self.host.answer(request)
    }

    /// Its range of readable times.
    fn front(&mut self) -> Result<Front, Stop> {
        front_of(self.ask(Request::Front))
    }

    /// Answers the last request, where the input ended well.
    fn finish(&mut self, ended: Ended) -> Result<(), Stop> {
        let request = self.taking.ended(ended)?;
        granted(&self.ask(request))
    }

    /// Takes the snapshot that an input has: all of it, or nothing.
    fn take_input<I: Read + Drop>(&mut self, alloc: Global, input: I) -> Result<(), Stop> {
        let mut reader = Counted::new(input);
        let mut writer = Counted::new(io::sink());
        let ended = serve::<2, _, _, _>(alloc, &mut reader, &mut writer, self);
        self.finish(ended)
    }
}

impl<J: NodeName, N: Wait + Drop, R: Threads + Wait + Sync> Host for Own<'_, '_, J, N, R> {
    ghost may = { λ _ _ _ _. ⊤ };

    ghost ready = { λ _. IsSync R.row };

    fn answer(&mut self, request: Request) -> Reply {
        let reply = if self.taking.passes(&request) {
            self.ask(request)
        } else {
            self.taking.keep(request)
        };
        self.taking.note(&reply);
        reply
    }
}

/// What a node takes.
#[derive(Clone, Copy)]
enum Source<'a> {
    /// What `save` wrote into the file of this name.
    File(&'a str),
    /// What the node at a place has above what this one has; its replies have to come by so many bytes a second.
    Node(NodePlace<'a>, u64),
}

/// How long another node is waited for: it is tried once.
fn limits_of(read_rate: u64) -> Limits {
    Limits {
        connect_seconds: 0,
        reply_seconds: REPLY_SECONDS,
        read_rate,
    }
}

/// How it comes to the node, in a word.
fn event_of(source: Source<'_>) -> &'static str {
    match source {
        Source::File(_) => "load",
        Source::Node(..) => "from",
    }
}

/// What it is called in lines.
fn name_of(alloc: Global, source: Source<'_>) -> Result<String, AllocError> {
    match source {
        Source::File(name) => String::from_str(alloc, name),
        Source::Node(place, _) => place_name(alloc, place),
    }
}

/// Adds in words why something stopped.
pub(crate) fn explain(alloc: Global, stop: Stop, words: &mut Vec<u8>) {
    let mut lines = Vec::new(alloc);
    let mut output = Output::of_form(alloc, OutputForm::Bytes, &mut lines, words);
    let _status = output.stop(stop);
}

/// Adds in words a range of readable times.
fn show(alloc: Global, front: Front, words: &mut Vec<u8>) {
    let mut none = Vec::new(alloc);
    let mut output = Output::of_form(alloc, OutputForm::Bytes, words, &mut none);
    let _printed = output.print(&Told::Fronted(front));
    let _written = output.flush();
}

/// Adds the requests that give what the node at a place has applied since a time, or in words why there are none.
fn is_fetched<R: Net<Listener = TcpListener, Stream = TcpStream> + Clock + Alloc<A = Global>>(
    rt: &R,
    place: NodePlace<'_>,
    rate: u64,
    base: Time,
    frames: &mut Vec<u8>,
    words: &mut Vec<u8>,
) -> bool {
    let alloc = rt.alloc();
    let mut output = Output::of_form(alloc, OutputForm::Bytes, frames, words);
    match fetch_from(rt, alloc, place, limits_of(rate), base, &mut output) {
        Ok(()) => output.flush().is_ok(),
        Err(stop) => {
            let _status = output.stop(stop);
            false
        }
    }
}

/// Has the node take what another has above what it has. Where it gave nothing, why not is in the words already.
fn take_node<J: NodeName, N: Wait + Drop, R>(
    rt: &R,
    place: NodePlace<'_>,
    rate: u64,
    own: &mut Own<'_, '_, J, N, R>,
    words: &mut Vec<u8>,
) -> Result<Outcome, Stop>
where
    R: Net<Listener = TcpListener, Stream = TcpStream> + Clock + Alloc<A = Global>,
    R: Threads + Wait + Sync,
{
    let front = own.front()?;
    let mut frames = Vec::new(rt.alloc());
    if !is_fetched(rt, place, rate, front.readable, &mut frames, words) {
        return Ok(Outcome::Absent);
    }
    own.take_input(rt.alloc(), frames.as_slice())?;
    Ok(Outcome::Taken)
}

/// Adds in words why a file can't be opened.
fn put_unopened(alloc: Global, error: &io::Error, words: &mut Vec<u8>) -> Result<(), AllocError> {
    let line = format!(in alloc; "can't open it: {error}\n")?;
    words.extend_from_slice(line.as_bytes())
}

/// Has the node take the snapshot of an open file, once its checksum was read and is right; one without is taken too.
fn take_summed<J: NodeName, N: Wait + Drop, R: Threads + Wait + Sync, I: Read + Drop>(
    alloc: Global,
    file: I,
    own: &mut Own<'_, '_, J, N, R>,
) -> Result<Outcome, Stop> {
    let mut summed = Summed::new(alloc, file)?;
    let taken = own.take_input(alloc, &mut summed);
    if let Some(fault) = summed.fault() {
        return Err(Stop::Sum(fault));
    }
    taken?;
    if summed.is_open() {
        return Ok(Outcome::TakenUnchecked);
    }
    Ok(Outcome::Taken)
}

/// What came of a file that can't be opened.
fn unopened(error: &io::Error) -> Outcome {
    match error.kind() {
        ErrorKind::NotFound => Outcome::Absent,
        _there => Outcome::Refused,
    }
}

/// Has the node take the snapshot of the file of this name. Where it can't be opened, why not is in the words already.
fn take_file<J: NodeName, N: Wait + Drop, R: Threads + Wait + Sync + Files + Alloc<A = Global>>(
    rt: &R,
    name: &str,
    own: &mut Own<'_, '_, J, N, R>,
    words: &mut Vec<u8>,
) -> Result<Outcome, Stop> {
    match fs::open(rt, name) {
        Ok(file) => take_summed(rt.alloc(), file, own),
        Err(error) => {
            put_unopened(rt.alloc(), &error, words)?;
            Ok(unopened(&error))
        }
    }
}

/// Has the node take something, and adds in words what came of it.
fn take_source<J: NodeName, N: Wait + Drop, R>(
    rt: &R,
    source: Source<'_>,
    own: &mut Own<'_, '_, J, N, R>,
    words: &mut Vec<u8>,
) -> Result<Outcome, Stop>
where
    R: Net<Listener = TcpListener, Stream = TcpStream> + Clock + Files + Alloc<A = Global>,
    R: Threads + Wait + Sync,
{
    let outcome = match source {
        Source::File(name) => take_file(rt, name, own, words)?,
        Source::Node(place, rate) => take_node(rt, place, rate, own, words)?,
    };
    if outcome.is_taken() {
        let front = own.front()?;
        show(rt.alloc(), front, words);
    }
    Ok(outcome)
}

/// How grave it is what came of taking something.
fn grade_of(outcome: Outcome) -> Grade {
    match outcome {
        Outcome::Taken | Outcome::TakenUnchecked => Grade::Info,
        Outcome::Absent => Grade::Warn,
        Outcome::Refused => Grade::Error,
    }
}

/// Prints what came of taking something.
fn tell_taken<C: Clock, W: Write, E: Write>(
    alloc: Global,
    heads: &Heads<'_, C>,
    outcome: Outcome,
    source: Source<'_>,
    words: &[u8],
    output: &mut Output<'_, W, E>,
) -> Result<(), AllocError> {
    let name = name_of(alloc, source)?;
    let words = str::from_utf8(words).unwrap_or("");
    let event = event_of(source);
    tell_source(
        heads,
        grade_of(outcome),
        event,
        name.as_str(),
        words,
        output,
    );
    if matches!(outcome, Outcome::TakenUnchecked) {
        tell_source(
            heads,
            Grade::Warn,
            event,
            name.as_str(),
            NO_CHECKSUM,
            output,
        );
    }
    Ok(())
}

/// What came of a source that stopped before it was taken.
fn stopped(source: Source<'_>) -> Outcome {
    match source {
        Source::File(_) => Outcome::Refused,
        Source::Node(..) => Outcome::Absent,
    }
}

/// The same, with why it stopped in words.
fn outcome_of<J: NodeName, N: Wait + Drop, R>(
    rt: &R,
    source: Source<'_>,
    own: &mut Own<'_, '_, J, N, R>,
    words: &mut Vec<u8>,
) -> Outcome
where
    R: Net<Listener = TcpListener, Stream = TcpStream> + Clock + Files + Alloc<A = Global>,
    R: Threads + Wait + Sync,
{
    match take_source(rt, source, own, words) {
        Ok(outcome) => outcome,
        Err(stop) => {
            explain(rt.alloc(), stop, words);
            stopped(source)
        }
    }
}

/// Has a node take something by a seat of it, which is there again after, and adds in words what came of it.
fn taken_by<J: NodeName, N: Wait + Drop, R>(
    rt: &R,
    source: Source<'_>,
    node: &Node<J, N>,
    seat: &mut Option<ReaderSeat<J>>,
    words: &mut Vec<u8>,
) -> Outcome
where
    R: Net<Listener = TcpListener, Stream = TcpStream> + Clock + Files + Alloc<A = Global>,
    R: Threads + Wait + Sync,
{
    // Nobody else is served yet.
    let Ok(budget) = PartsBudget::new(rt.alloc(), u64::MAX) else {
        explain(rt.alloc(), Stop::Refused(Refusal::Memory), words);
        return stopped(source);
    };
    let Some(reader) = mem::take(seat) else {
        return stopped(source);
    };
    let host = NodeHost::new(rt, rt.alloc(), node, reader);
    let mut own = Own::new(rt.alloc(), host, &budget);
    let outcome = outcome_of(rt, source, &mut own, words);
    *seat = Some(own.into_seat());
    outcome
}

/// The same, and prints what came of it.
fn taken_and_told<J: NodeName, N: Wait + Drop, R, W: Write, E: Write>(
    rt: &R,
    heads: &Heads<'_, R>,
    source: Source<'_>,
    node: &Node<J, N>,
    seat: &mut Option<ReaderSeat<J>>,
    output: &mut Output<'_, W, E>,
) -> Outcome
where
    R: Net<Listener = TcpListener, Stream = TcpStream> + Clock + Files + Alloc<A = Global>,
    R: Threads + Wait + Sync,
{
    let mut words = Vec::new(rt.alloc());
    let outcome = taken_by(rt, source, node, seat, &mut words);
    let _told = tell_taken(rt.alloc(), heads, outcome, source, &words, output);
    outcome
}

/// Has a node take what the first of these files has that is whole. Where none is and one is there, that is refused.
fn taken_of_files<J: NodeName, N: Wait + Drop, R, W: Write, E: Write>(
    rt: &R,
    heads: &Heads<'_, R>,
    files: &[Option<&str>],
    node: &Node<J, N>,
    seat: &mut Option<ReaderSeat<J>>,
    output: &mut Output<'_, W, E>,
) -> Outcome
where
    R: Net<Listener = TcpListener, Stream = TcpStream> + Clock + Files + Alloc<A = Global>,
    R: Threads + Wait + Sync,
{
    let mut outcome = Outcome::Absent;
    for name in files {
        if let Some(name) = name {
            let next = taken_and_told(rt, heads, Source::File(name), node, seat, output);
            outcome = outcome.or(next);
            if outcome.is_taken() {
                return outcome;
            }
        }
    }
    outcome
}

/// Has a node take what the first of these nodes has that gives something. Returns whether one did.
fn taken_of_first<J: NodeName, N: Wait + Drop, R, W: Write, E: Write>(
    rt: &R,
    heads: &Heads<'_, R>,
    start: &Start<'_>,
    node: &Node<J, N>,
    seat: &mut Option<ReaderSeat<J>>,
    output: &mut Output<'_, W, E>,
) -> bool
where
    R: Net<Listener = TcpListener, Stream = TcpStream> + Clock + Files + Alloc<A = Global>,
    R: Threads + Wait + Sync,
{
    for place in &start.sources {
        if let Some(place) = place {
            let source = Source::Node(*place, start.read_rate);
            if taken_and_told(rt, heads, source, node, seat, output).is_taken() {
                return true;
            }
        }
    }
    false
}

/// Has a node take what it begins with, by a seat of it, which is there again after: first what the first file has that is whole, then
/// what the first node that gives something has above that. Each is taken whole or not at all, as over a connection that may do
/// everything, without one; a line on `errors` says what came of it. Where a file is there and none is whole, no node is asked, unless
/// a file may lack. Cost: that of what is taken, which is kept beside the node until then.
pub(crate) fn begin<J: NodeName, N: Wait + Drop, R, W: Write, E: Write>(
    rt: &R,
    heads: &Heads<'_, R>,
    node: &Node<J, N>,
    seat: &mut Option<ReaderSeat<J>>,
    start: &Start<'_>,
    output: &mut Output<'_, W, E>,
) -> Begun
where
    R: Net<Listener = TcpListener, Stream = TcpStream> + Clock + Files + Alloc<A = Global>,
    R: Threads + Wait + Sync,
{
    let file = taken_of_files(rt, heads, &start.files, node, seat, output);
    if matches!(file, Outcome::Refused) && !start.may_lack_file {
        return Begun::Refused;
    }
    let has_node = taken_of_first(rt, heads, start, node, seat, output);
    if file.is_taken() || has_node {
        Begun::WithData
    } else {
        Begun::Empty
    }
}
