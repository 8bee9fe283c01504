//! Requests as bytes: `push` and `load`.

use crate::link::{Link, asked_of, refusal_of};
use hk_cli_commands::Output;
use hk_cli_input::{Pieces, Stop, Summed, kind_at_head, read_pieces};
use hk_cli_reasons::{Origin, RequestContext};
use hk_messages::{LaterRequest, Reply, Request, RequestFeeder};
use hk_types::{FormFault, Refusal};
use std::alloc::Global;
use std::io::{Read, Write};
use std::mem;

/// The refusal of a request that is none of a fragment.
const BAD_KIND: Refusal = Refusal::Form(FormFault::BadKind);

/// Whether a request gives a fragment or a chunk of one to a node.
fn is_fragment(request: &Request) -> bool {
    matches!(
        request,
        Request::JoinThis(_)
            | Request::MergeThis(_)
            | Request::Later(
                LaterRequest::AddPart(_) | LaterRequest::JoinParts(_) | LaterRequest::MergeParts(_)
            )
    )
}

/// Whether a request gives a chunk to a node: where it is refused, those behind it would make a fragment that lacks it.
fn is_part(request: &Request) -> bool {
    matches!(request, Request::Later(LaterRequest::AddPart(_)))
}

/// Whether a request has a node join a fragment: one that is loaded is kept back until its checksum is known.
fn is_join(request: &Request) -> bool {
    is_fragment(request) && !is_part(request)
}

/// The line where an input ends behind a fragment that has no checksum.
const NO_CHECKSUM: &str =
    "the input has no checksum behind its last fragment, so corrupt bytes may not show; 'hkrep save' writes one\n";

/// Which requests are sent.
#[derive(Clone, Copy)]
pub(crate) enum Accepted {
    All,
    /// Those that give a fragment to a node.
    Fragments,
}

/// Whether a request is sent.
fn is_accepted(accepted: Accepted, request: &Request) -> bool {
    matches!(accepted, Accepted::All) || is_fragment(request)
}

/// Prints why a reply refuses its request, and returns whether it does. It stops at a chunk that is refused. Where fragments alone are sent
/// the node is asked which log it has, if it has another.
fn is_refused<W: Write, E: Write>(
    link: &mut Link,
    accepted: Accepted,
    request: &Request,
    reply: &Reply,
    output: &mut Output<'_, W, E>,
) -> Result<bool, Stop> {
    let Some(why) = refusal_of(reply) else {
        return Ok(false);
    };
    if is_part(request) {
        return Err(Stop::RefusedAt(why, link.origin(RequestContext::Nothing)));
    }
    if matches!(accepted, Accepted::Fragments) {
        output.tell_stop(&link.refused(request, why));
    } else {
        output.tell(link.origin(asked_of(request)), &why);
    }
    Ok(true)
}

/// Prints a reply to a request, writes what was printed, and returns whether the reply is a refusal.
fn show<W: Write, E: Write>(
    link: &mut Link,
    accepted: Accepted,
    request: &Request,
    reply: &Reply,
    output: &mut Output<'_, W, E>,
) -> Result<bool, Stop> {
    let is_refused = is_refused(link, accepted, request, reply, output)?;
    output.print(reply)?;
    output.flush()?;
    Ok(is_refused)
}

/// Sends a request, waits for its reply and prints it, and returns whether that is a refusal.
fn asked<W: Write, E: Write>(
    link: &mut Link,
    accepted: Accepted,
    request: &Request,
    output: &mut Output<'_, W, E>,
) -> Result<bool, Stop> {
    let reply = link.ask(request)?;
    show(link, accepted, request, &reply, output)
}

/// Requests up to a version, on their way to a node.
#[derive(Drop)]
struct Pusher<'k, 'o, 'p, W: Write, E: Write, const LATEST: u8> {
    link: &'k mut Link,
    output: &'o mut Output<'p, W, E>,
    accepted: Accepted,
    feeder: RequestFeeder<LATEST>,
    /// Those of a read.
    requests: Vec<Request>,
    /// The one that is kept back.
    held: Option<Request>,
    /// Whether chunks were sent, and not yet what joins them.
    is_partial: bool,
    /// Whether a reply was a refusal.
    is_refused: bool,
    /// The kind of the input's first frame, once it is there.
    kind: u8,
}

impl<'k, 'o, 'p, W: Write, E: Write, const LATEST: u8> Pusher<'k, 'o, 'p, W, E, LATEST> {
    fn new(
        link: &'k mut Link,
        output: &'o mut Output<'p, W, E>,
        accepted: Accepted,
    ) -> Pusher<'k, 'o, 'p, W, E, LATEST> {
        let alloc = link.alloc();
        Pusher {
            link,
            output,
            accepted,
            feeder: RequestFeeder::new(alloc),
            requests: Vec::new(alloc),
            held: None,
            is_partial: false,
            is_refused: false,
            kind: 0,
        }
    }

    /// The origin of the next request of the input, behind the one that is kept back.
    fn next_origin(&self, asked: RequestContext) -> Origin {
        self.link.next_origin(self.held.is_some() as u64, asked)
    }

    /// Sends a request, waits for its reply and prints it. It stops at a chunk that is refused.
    fn ask(&mut self, request: &Request) -> Result<(), Stop> {
        if asked(self.link, self.accepted, request, self.output)? {
            self.is_refused = true;
        }
        Ok(())
    }

    /// Sends the request that was kept back, if there is one.
    fn ask_held(&mut self) -> Result<(), Stop> {
        match mem::take(&mut self.held) {
            Some(request) => self.ask(&request),
            None => Ok(()),
        }
    }

    /// Sends a request of the input behind the one that was kept back, or keeps it back.
    fn pass(&mut self, request: Request) -> Result<(), Stop> {
        if !is_accepted(self.accepted, &request) {
            return Err(Stop::RefusedAt(BAD_KIND, self.next_origin(RequestContext::Nothing)));
        }
        self.ask_held()?;
        self.is_partial = is_part(&request);
        if matches!(self.accepted, Accepted::Fragments) && is_join(&request) {
            self.held = Some(request);
            return Ok(());
        }
        self.ask(&request)
    }

    /// Passes on each request, before the next.
    fn ask_all(&mut self) -> Result<(), Stop> {
        let alloc = self.link.alloc();
        for request in mem::replace(&mut self.requests, Vec::new(alloc)) {
            self.pass(request)?;
        }
        Ok(())
    }

    /// What an answer of the feeder stops, in front of the next request.
    fn checked(&self, fed: Result<(), Refusal>) -> Result<(), Stop> {
        let asked = match self.kind {
            1 | 2 => RequestContext::ItemsAsRequests,
            _request => RequestContext::Nothing,
        };
        match fed {
            Ok(()) => Ok(()),
            Err(why) => Err(Stop::RefusedAt(why, self.next_origin(asked))),
        }
    }

    /// Ends the input: a request that is cut off, or that nothing came, stops the command.
    fn finish(&mut self) -> Result<(), Stop> {
        let feeder = mem::replace(&mut self.feeder, RequestFeeder::new(self.link.alloc()));
        self.checked(feeder.finish())?;
        self.filled()
    }

    /// Where nothing came and the input is to give a fragment, that it is empty; and where it ends behind chunks that nothing joins.
    fn filled(&self) -> Result<(), Stop> {
        if matches!(self.accepted, Accepted::All) {
            return Ok(());
        }
        if self.kind == 0 {
            return Err(Stop::EmptyInput);
        }
        if self.is_partial {
            return Err(Stop::RefusedAt(
                Refusal::Form(FormFault::Truncated),
                self.next_origin(RequestContext::Nothing),
            ));
        }
        Ok(())
    }
}

impl<W: Write, E: Write, const LATEST: u8> Pieces for Pusher<'_, '_, '_, W, E, LATEST> {
    ghost took = { λ _ _ _. Unit {0} };

    fn take(&mut self, piece: &[u8]) -> Result<(), Stop> {
        if self.kind == 0 {
            self.kind = kind_at_head(piece);
        }
        let fed = self.feeder.feed(piece, &mut self.requests);
        self.ask_all()?;
        self.checked(fed)
    }
}

/// Sends the requests of the input, one after the other, up to its end or to what stops them first, and returns whether a reply
/// was a refusal. One of a version above `LATEST` is a bad version, which can't be read.
pub(crate) fn push_all<I: Read, W: Write, E: Write, const LATEST: u8>(
    link: &mut Link,
    input: &mut I,
    output: &mut Output<'_, W, E>,
) -> Result<bool, Stop> {
    let alloc = link.alloc();
    let mut pusher: Pusher<'_, '_, '_, W, E, LATEST> = Pusher::new(link, output, Accepted::All);
    read_pieces(alloc, input, &mut pusher)?;
    pusher.finish()?;
    Ok(pusher.is_refused)
}

/// Hands the input to the pusher, and compares its checksums. Returns whether the last fragment lacks one.
fn read_summed<I: Read, W: Write, E: Write>(
    alloc: Global,
    input: &mut I,
    pusher: &mut Pusher<'_, '_, '_, W, E, 2>,
) -> Result<bool, Stop> {
    let mut summed = Summed::new(alloc, input)?;
    let read = read_pieces(alloc, &mut summed, pusher);
    if let Some(fault) = summed.fault() {
        return Err(Stop::Sum(fault));
    }
    read?;
    Ok(summed.is_open())
}

/// The same of those that give a fragment to a node; another stops them before it is sent. The one by which a node joins a fragment is
/// kept back until the checksum behind it was read and is right, or the next request or the end of the input is there.
pub(crate) fn load_all<I: Read, W: Write, E: Write>(
    link: &mut Link,
    input: &mut I,
    output: &mut Output<'_, W, E>,
) -> Result<bool, Stop> {
    let alloc = link.alloc();
    let mut pusher: Pusher<'_, '_, '_, W, E, 2> = Pusher::new(link, output, Accepted::Fragments);
    let is_open = read_summed(alloc, input, &mut pusher)?;
    pusher.finish()?;
    pusher.ask_held()?;
    if is_open {
        pusher.output.note(NO_CHECKSUM);
    }
    Ok(pusher.is_refused)
}
