//! What a client has seen of a node, whichever seat showed it.

ghost use Rattle.std.specs.Prelude.{◌≡◌, []};
ghost use mathlib.Core.List.{IsPrefix};

use hk_node::{NodeName, ReaderSeat, Receipt};
use std::marker::Model;

/// What a client has seen of a node, and of its own changes there. Contracts see it as that list of operations: none, or a published list. It has no
/// bytes but a count and the node's kind.
#[derive(Drop)]
pub struct Shown<J: NodeName> {
    receipt: Option<Receipt<J>>,
}

impl<J: NodeName> Model for Shown<J> {
    ghost use Rattle.std.specs.Prelude.{List};
    ghost use Rattle.std.specs.Coded.{coded_list};
    ghost use Rattle.hk_oplog.specs.declared.op.Op.{Op};
    ghost use Rattle.hk_oplog.specs.contracts.op.Op as op;
    ghost use Rattle.hk_seats.specs.Showing.{shown_of};

    ghost Value = { List Op };

    ghost coded = { coded_list op.the_row.coded };

    ghost view = { λ s. shown_of s.receipt };
}

impl<J: NodeName> Shown<J> {
    /// What a client has seen that asked nothing yet.
    pub fn nothing() -> Shown<J>
        ensures { result ≡ [] }
    {
        Shown { receipt: None }
    }

    /// All that a seat has seen or got a receipt of. It takes no memory. Cost: O(1).
    pub fn of(seat: &ReaderSeat<J>) -> Shown<J>
        ensures { result ≡ seat.now }
    {
        Shown {
            receipt: Some(seat.receipt()),
        }
    }

    /// Has a seat of the same node apply it, which shows no less from then on. It takes no memory. Cost: O(1).
    pub fn show(self, seat: &mut ReaderSeat<J>)
        ensures shown { IsPrefix self seat.new }
        ensures grows { IsPrefix seat.old seat.new }
    {
        if let Some(receipt) = self.receipt {
            seat.learn(receipt);
        }
    }
}
