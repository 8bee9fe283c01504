//! The chunks that came over a connection, with the room that is reserved for them.

ghost use Rattle.std.specs.Prelude.{◌≡◌, [], IfSome};
ghost use Rattle.hk_messages.specs.LaterReplies.{reply_seen};
ghost use Rattle.hk_link_state.specs.LaterReplying.{TellsCome, no_room_for};
ghost use Rattle.hk_link_state.specs.LinkStates.{weight, weight_counted};

use hk_budgets::{PartsBudget, Room};
use hk_fragment::Assembly;
use hk_fragment_bytes::fragment_encoding::facts_len;
use hk_log::Version;
use hk_messages::LaterReply;
use hk_types::{FormFault, Refusal, VersionKey};
use std::alloc::Global;
use std::marker::Model;

/// How many bytes count for a fact beside those that it has in a message.
const FACT_BYTES: u64 = 128;

/// How many bytes count for facts, where the facts can be counted in a message.
pub(crate) fn weight_of(facts: &[(VersionKey, Version)]) -> Option<u64>
    ensures { result ≡ weight_counted facts.now }
{
    if facts.len() > 4_294_967_295 {
        return None;
    }
    Some(facts_len(facts) + FACT_BYTES * facts.len() as u64)
}

/// The chunks that came over a connection. For all their facts room of the budget is reserved. Contracts see the facts.
#[derive(Drop)]
pub(crate) struct IncomingParts<'a> {
    facts: Assembly,
    room: Room<'a>,
}

impl<'a> Model for IncomingParts<'a> {
    ghost use Rattle.std.specs.Prelude.{◌≡◌, List};
    ghost use Rattle.std.specs.Coded.{coded_list};
    ghost use Rattle.hk_fragment.specs.Parts.{Known};
    ghost use Rattle.hk_fragment.specs.Assemblies.{known_code};
    ghost use Rattle.hk_link_state.specs.LinkStates.{weight};

    ghost Value = { List Known };

    ghost coded = { coded_list known_code };

    ghost view = { λ c. c.facts };

    ghost invariant = { λ c. c.room ≡ weight c.facts };
}

impl<'a> IncomingParts<'a> {
    /// Nothing came so far. It takes no memory.
    pub(crate) fn new(alloc: Global, budget: &'a PartsBudget) -> IncomingParts<'a>
        ensures { result ≡ [] }
    {
        IncomingParts {
            facts: Assembly::new(alloc),
            room: budget.no_bytes(),
        }
    }

    /// The refusal of a chunk for which there is no room: `BadOrder` where it doesn't rise, else `LinkFull` with this limit.
    fn refusal_of(&self, part: &[(VersionKey, Version)], most: u64) -> Refusal
        ensures { result ≡ no_room_for most self.now part.now }
    {
        if self.facts.rises_with(part) {
            Refusal::LinkFull { most }
        } else {
            Refusal::Form(FormFault::BadOrder)
        }
    }

    /// Adds a chunk behind those that came before, and replies how many facts came, or why they are refused: as
    /// `Assembly::add` does, and `LinkFull` with this limit where they rise and there is no room for them.
    pub(crate) fn add(&mut self, part: Vec<(VersionKey, Version)>, most: u64) -> LaterReply
        ensures { TellsCome most self.old part.items (reply_seen result) self.new }
    {
        let Some(bytes) = weight_of(&part) else {
            return LaterReply::Refused(self.refusal_of(&part, most));
        };
        if !self.room.grow(bytes) {
            return LaterReply::Refused(self.refusal_of(&part, most));
        }
        match self.facts.add(part) {
            Ok(()) => LaterReply::Added {
                count: self.facts.count() as u64,
            },
            Err(why) => {
                self.room.shrink(bytes);
                LaterReply::Refused(why)
            }
        }
    }

    /// The facts that came, and the room that is reserved for them.
    pub(crate) fn into_parts(self) -> (Assembly, Room<'a>)
        ensures { result.0 ≡ self.entry }
    {
        (self.facts, self.room)
    }
}
