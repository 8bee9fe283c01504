//! A fragment that a connection sends chunk by chunk.

ghost use Rattle.std.specs.Prelude.{◌≡◌, ℕ, IfOk, IfErr, IfSome};
ghost use Rattle.hk_types.specs.declared.faults.Refusal.TheVariants.{Memory};
ghost use Rattle.hk_messages.specs.LaterReplies.{reply_seen};
ghost use Rattle.hk_link_state.specs.GivenWhole.{IsGivenWhole};
ghost use Rattle.hk_link_state.specs.LinkStates.{begun, giving_after, part_told, weight};

use crate::incoming_parts::weight_of;
use hk_budgets::{PartsBudget, Room};
use hk_fragment::{Fragment, copy_facts};
use hk_fragment_bytes::FragmentHead;
use hk_log::Version;
use hk_messages::LaterReply;
use hk_types::{Refusal, VersionKey};
use hk_values::{Split, fragment_law};
use std::alloc::Global;
use std::marker::Model;

/// Room for facts, where there is so much.
fn room_for<'a>(facts: &[(VersionKey, Version)], budget: &'a PartsBudget) -> Option<Room<'a>>
    ensures { IfSome result (λ room. room ≡ weight facts.now) }
{
    let bytes = weight_of(facts)?;
    let mut room = budget.no_bytes();
    if !room.grow(bytes) {
        return None;
    }
    Some(room)
}

/// A fragment that a connection sends chunk by chunk. It keeps the complete fragment, with room for it, and the position
/// of the chunk that is sent next.
#[derive(Drop)]
pub(crate) struct OutgoingTransfer<'a> {
    split: Split,
    most_bytes: u64,
    room: Room<'a>,
}

impl<'a> Model for OutgoingTransfer<'a> {
    ghost use Rattle.hk_link_state.specs.LinkStates.{OutgoingValue, IsAtNext, outgoing_code, outgoing_seen};

    ghost Value = { OutgoingValue };

    ghost coded = { outgoing_code };

    ghost view = { λ g. outgoing_seen g.split g.most_bytes };

    ghost invariant = { λ g. IsAtNext g.split g.most_bytes g.room };
}

impl<'a> OutgoingTransfer<'a> {
    /// A fragment of which nothing was sent yet, where there is room for it.
    pub(crate) fn begin(
        fragment: Fragment,
        most_bytes: u64,
        budget: &'a PartsBudget,
    ) -> Option<OutgoingTransfer<'a>>
        ensures { IfSome result (λ giving. giving ≡ begun fragment most_bytes) }
    {
        let room = room_for(fragment.facts(), budget)?;
        let mut split = Split::new(fragment);
        split.advance(most_bytes);
        Some(OutgoingTransfer {
            split,
            most_bytes,
            room,
        })
    }

    /// How many bytes are reserved for it.
    pub(crate) fn reserved(&self) -> u64 {
        self.room.count()
    }

    /// The reply with the next chunk: its facts are copied, and with the last chunk the head.
    pub(crate) fn told(&self, alloc: Global) -> Result<LaterReply, Refusal>
        ensures ok { IfOk result (λ reply. reply_seen reply ≡ part_told self.now) }
        ensures err { IfErr result (λ why. why ≡ Memory) }
    {
        let facts = copy_facts(alloc, self.split.part())?;
        let left = self.split.left();
        if left == 0 {
            let head = FragmentHead::of_fragment(alloc, self.split.whole())?;
            return Ok(LaterReply::LastPart { facts, head });
        }
        Ok(LaterReply::Part {
            left: left as u64,
            facts,
        })
    }

    /// What is sent after that chunk: nothing where it was the last one. Cost: O(n), n facts of the chunk after it.
    pub(crate) fn next(self) -> Option<OutgoingTransfer<'a>>
        ensures { result ≡ giving_after self.entry }
    {
        if self.split.left() == 0 {
            return None;
        }
        let most_bytes = self.most_bytes;
        let mut next = self;
        next.split.advance(most_bytes);
        Some(next)
    }
}

/// What a connection sends of a fragment that was cut, from `Whole` to the last chunk, makes that fragment, however long
/// its chunks are: one head comes with the last of them, and the fragment is put together from it and the facts of all, one
/// chunk after the other. A law: it does nothing.
pub fn given_law(fragment: &Fragment)
    ensures { (most : ℕ) → IsGivenWhole fragment.now most }
{
    fragment_law(fragment);
}
