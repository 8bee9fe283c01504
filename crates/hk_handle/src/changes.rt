//! Changes of a replica, and the numbers of what they come to.

ghost use Rattle.std.specs.Prelude.{◌≡◌, ◌==◌, if◌then◌else◌, [], Ok};
ghost use Rattle.hk_codec.specs.Frames.{last_answer};
ghost use Rattle.hk_handle.specs.Calls.{Absorbed, Asked, Merged, Pruned, Taken, done_number, reply_number};

use crate::replica::Replica;
use hk_codec::Feeder;
use hk_log::Item;
use hk_messages::{LaterReply, Reply, Request};
use hk_session_parts::Host;
use hk_types::{Refusal, Time};
use std::alloc::Global;
use std::mem::replace;

/// The most items for which a list is kept from call to call.
const MOST_KEPT: usize = 256;

/// 0, or the number of the refusal.
fn number_of(reply: &Reply) -> u8
    ensures { result ≡ reply_number reply.now }
{
    match reply {
        Reply::Refused(why) | Reply::Later(LaterReply::Refused(why)) => why.number(),
        _done => 0,
    }
}

/// 0, or the number of the refusal.
fn number_done(outcome: Result<(), Refusal>) -> u8
    ensures { result ≡ done_number outcome }
{
    match outcome {
        Ok(()) => 0,
        Err(why) => why.number(),
    }
}

/// The first number, where it is one of a refusal, else the second.
fn first_of(refused: u8, fault: u8) -> u8
    ensures { result ≡ (if refused == 0 then fault else refused) }
{
    if refused == 0 { fault } else { refused }
}

impl Replica {
    /// Asks the host for a change. 0, or the number of the refusal.
    fn change(&mut self, request: Request) -> u8
        ensures { Asked self.old self.new request result }
    {
        let reply = self.host.answer(request);
        number_of(&reply)
    }

    /// Applies items, where there are some. Returns 0, or the number of the refusal.
    fn take(&mut self, items: Vec<Item>) -> u8
        ensures { Taken self.old self.new items.items result }
    {
        if items.is_empty() {
            self.keep_items(items);
            return 0;
        }
        let reply = self.host.take_items(&items);
        self.keep_items(items);
        number_of(&reply)
    }

    /// The list for the next items, with none in it.
    fn fresh_items(&mut self, alloc: Global) -> Vec<Item>
        ensures empty { result.items ≡ [] }
        ensures kept { self.new ≡ self.old }
    {
        let mut items = replace(&mut self.items, Vec::new(alloc));
        items.clear();
        items
    }

    /// Keeps a list for the next items, unless it is long.
    fn keep_items(&mut self, mut items: Vec<Item>)
        ensures { self.new ≡ self.old }
    {
        if items.capacity() <= MOST_KEPT {
            items.clear();
            self.items = items;
        }
    }

    /// Applies the items of the frames that are complete now. Returns 0, or the number of the refusal.
    pub fn absorb(&mut self, alloc: Global, piece: &[u8]) -> u8
        ensures { Absorbed self.old self.new piece.now result }
    {
        let mut items = self.fresh_items(alloc);
        let fed = self.feeder.feed(piece, &mut items);
        let refused = self.take(items);
        let fault = number_done(fed);
        first_of(refused, fault)
    }

    /// Ends the stream of items, and begins another.
    pub fn finish(&mut self, alloc: Global) -> u8
        ensures fed { self.new ≡ record self.old { rest = Ok [] } }
        ensures number { result ≡ done_number (last_answer self.old.rest) }
    {
        let ended = replace(&mut self.feeder, Feeder::new(alloc));
        number_done(ended.finish())
    }

    /// Drops the versions that ended at this time or before, which becomes the oldest readable time. Returns 0, or
    /// the number of the refusal.
    pub fn prune(&mut self, horizon: u64) -> u8
        ensures { Pruned self.old self.new horizon result }
    {
        match Time::new(horizon) {
            Ok(horizon) => self.change(Request::Prune { horizon }),
            Err(fault) => fault.number(),
        }
    }

    /// Joins what another replica holds. Returns 0, or the number of the refusal.
    pub fn merge(&mut self, peer: &Replica) -> u8
        ensures { Merged self.old self.new peer.now result }
    {
        let reply = self.host.merge(peer.host.state());
        number_of(&reply)
    }
}
