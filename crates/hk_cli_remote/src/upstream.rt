//! A node that another one follows.

use crate::change::is_for_chunks;
use crate::link::{Link, unasked};
use crate::parts::{Parts, hand_parts};
use crate::stream::opened;
use hk_cli_calls::{Limits, NodePlace};
use hk_cli_commands::Output;
use hk_cli_input::Stop;
use hk_cli_reasons::RequestContext;
use hk_fragment::{Assembly, Fragment};
use hk_log::Version;
use hk_messages::{LaterReply, LaterRequest, Request};
use hk_model::{Front, StreamsTold};
use hk_types::{Refusal, Time, VersionKey};
use std::alloc::Global;
use std::io::Write;
use std::net::{Net, TcpListener, TcpStream};
use std::rt::Clock;

/// What a node replies to who asks what it has above a time.
#[derive(Drop)]
pub enum Delta {
    /// That.
    Given(Fragment),
    /// It doesn't have all of that any more: this is its oldest readable time.
    TooOld(Time),
}

/// An open connection to a node that another one follows.
#[derive(Drop)]
pub struct Upstream {
    link: Link,
}

/// Chunks that are put together.
#[derive(Drop)]
struct Gathered {
    came: Assembly,
}

impl Parts for Gathered {
    fn take(&mut self, facts: Vec<(VersionKey, Version)>) -> Result<(), Stop> {
        self.came.add(facts)?;
        Ok(())
    }
}

/// The oldest readable time of a node that refuses a delta since a time before it.
fn horizon_of(why: &Refusal) -> Option<Time> {
    match why {
        Refusal::TooOld { horizon } => Some(*horizon),
        _other => None,
    }
}

impl Upstream {
    /// Opens a connection to the node at a place; where that fails it is printed why. What stops it is as in `run_order`.
    pub fn open<R: Net<Listener = TcpListener, Stream = TcpStream> + Clock, W: Write, E: Write>(
        rt: &R,
        alloc: Global,
        place: NodePlace<'_>,
        limits: Limits,
        output: &mut Output<'_, W, E>,
    ) -> Result<Upstream, Stop> {
        output.copy_from(place)?;
        let stream = opened(rt, place, limits, output)?;
        let link = Link::new(alloc, stream, limits, None, true)?;
        Ok(Upstream { link })
    }

    /// From now on the node is waited for so many seconds at most, 1 or more, each time that bytes are to come or to go.
    pub fn wait_at_most(&mut self, seconds: u64) -> Result<(), Stop> {
        if self.link.wait_at_most(seconds) {
            return Ok(());
        }
        Err(Stop::NetFault)
    }

    /// How far the node is. What stops it is as in `run_order`.
    pub fn streams(&mut self) -> Result<StreamsTold, Stop> {
        match self.link.granted_later(LaterRequest::Streams)? {
            LaterReply::Streams(told) => Ok(told),
            _none => Err(unasked()),
        }
    }

    /// Its range of readable times, once a time can be read there, or so many milliseconds are over. What stops it is as in `run_order`.
    pub fn front_after(&mut self, t: Time, milliseconds: u32) -> Result<Front, Stop> {
        let request = LaterRequest::Await { t, milliseconds };
        match self.link.granted_later(request)? {
            LaterReply::Ready { horizon, readable } => Ok(Front { horizon, readable }),
            _none => Err(unasked()),
        }
    }

    /// What the node has above a time, in chunks where there is no room for it at once. What stops it is as in `run_order`. Cost: O(n),
    /// n bytes of it.
    pub fn delta(&mut self, base: Time) -> Result<Delta, Stop> {
        let delta = self.link.fragment(Request::Delta { base })?;
        match delta {
            Ok(fragment) => Ok(Delta::Given(fragment)),
            Err(why) => self.without_delta(base, why),
        }
    }

    /// What the node replies that refused a delta.
    fn without_delta(&mut self, base: Time, why: Refusal) -> Result<Delta, Stop> {
        if let Some(horizon) = horizon_of(&why) {
            return Ok(Delta::TooOld(horizon));
        }
        let fragment = self.in_chunks(base, why, RequestContext::At(base))?;
        Ok(Delta::Given(fragment))
    }

    /// The node's full snapshot, in the same way. Cost: O(n), n bytes of it.
    pub fn whole(&mut self) -> Result<Fragment, Stop> {
        let whole = self.link.fragment(Request::Full)?;
        match whole {
            Ok(fragment) => Ok(fragment),
            Err(why) => self.in_chunks(Time::zero(), why, RequestContext::Nothing),
        }
    }

    /// What it has above a time in chunks, where it was refused in one message for want of room alone.
    fn in_chunks(
        &mut self,
        base: Time,
        why: Refusal,
        asked: RequestContext,
    ) -> Result<Fragment, Stop> {
        if !is_for_chunks(&why) {
            return Err(Stop::RefusedAt(why, self.link.origin(asked)));
        }
        let mut gathered = Gathered {
            came: Assembly::new(self.link.alloc()),
        };
        let head = hand_parts(&mut self.link, base, &mut gathered)?;
        Ok(head.into_fragment(gathered.came)?)
    }
}
