//! A question that is asked twice, of a node whose past is final.

ghost use Rattle.std.specs.Prelude.{◌≡◌, true, IfOk};
ghost use Rattle.hk_model.specs.Replica.Answers.{answer_seen};

use hk_node::{NodeName, ReaderSeat};
use hk_query::{Answer, Query};
use hk_types::{Refusal, Time};

/// What a guarded node answers to a query at a time, and what it answers when it is asked again: never anything else. Its time may
/// have become too old then, or memory lack.
pub(crate) fn asked_twice<J: NodeName>(
    seat: &mut ReaderSeat<J>,
    at: Time,
    query: &Query,
) -> Result<(Answer, Result<Answer, Refusal>), Refusal>
    requires { J.kind.guarded ≡ true }
    ensures { IfOk result (λ told. IfOk told.1 (λ again. answer_seen again ≡ answer_seen told.0)) }
{
    let first = seat.ask(at, query)?;
    let again = seat.ask(at, query);
    let _formed = seat.seen();
    Ok((first, again))
}
