//! Asking a state.

ghost use Rattle.std.specs.Prelude.{◌≡◌, ◌≢◌, ℕ, true, Ok, None, IsOk, IfOk, IfErr};
ghost use Rattle.std.specs.Option.{option_copied};
ghost use Rattle.hk_types.specs.declared.faults.Refusal.TheVariants.{Memory};
ghost use Rattle.hk_model.specs.declared.query.Query.TheVariants.{Count, Get};
ghost use Rattle.hk_query.specs.Memory.{asking_may_lack};
ghost use Rattle.hk_query.specs.Primary.{IsLatestOfPrimary, IsOfPrimary, Replies};
ghost use Rattle.hk_query.specs.Times as times;
ghost use Rattle.hk_model.specs.Replica.Answers.{One, answer_seen, reply};
ghost use Rattle.hk_model.specs.Replica.Content.{readable};

use crate::answers::answer_at;
use hk_model::{Answer, Query};
use hk_state::ReplicaState;
use hk_types::{Key, Refusal, Row, Table, Time};
use std::alloc::Global;

/// Why a state can't be asked at a time, if it can't.
pub(crate) fn time_refusal(state: &ReplicaState, time: Time) -> Option<Refusal>
    ensures { result ≡ times.time_refusal state.now time }
{
    let horizon = state.horizon();
    if time < horizon {
        return Some(Refusal::TooOld { horizon });
    }
    let readable = state.readable();
    if readable < time {
        return Some(Refusal::NotYet { readable });
    }
    None
}

/// What a state answers to a query at a time, with the primary's rows of that time where it applied the items of a
/// primary's log.
///
/// A time below the oldest readable one is refused `TooOld` with that one, a time above the resolved time `NotYet` with
/// that, and then `Memory` comes where a growth was refused; a `Count` and a row that is not there take no memory. Cost:
/// `Get` O(log n + b), `Range` and `ByTag` O(log n + k · log n + b), `Count` O(log n + k · log n), n facts, k keys of the
/// range, of the table, or that have or had a row with the tag, b bytes of the bodies that are copied.
pub fn ask(
    alloc: Global,
    state: &ReplicaState,
    time: Time,
    query: &Query,
) -> Result<Answer, Refusal>
    ensures gives { Replies state.now time query.now result }
    ensures primary { IsOfPrimary state.now time query.now result }

    // A count takes no memory.
    ensures count { (table : ℕ) → query.now ≡ Count table → IfErr result (λ why. why ≢ Memory) }

    // Nor does the answer that there is no such row.
    ensures absent { reply state.now time query.now ≡ Ok (One None) → IsOk result }
    ensures memory { IfErr result (λ why. why ≡ Memory
        → asking_may_lack (reply state.now time query.now) ≡ true) }
{
    match time_refusal(state, time) {
        Some(why) => Err(why),
        None => answer_at(alloc, state.facts(), time, query),
    }
}

/// The row at a key of a table at a time, lent: what `ask` answers to a `Get`, with no copy of it. It is refused as `ask`
/// is, but takes no memory. Cost: O(log n), n facts.
pub fn row_at(
    state: &ReplicaState,
    time: Time,
    table: Table,
    key: Key,
) -> Result<Option<&Row>, Refusal>
    ensures ok { IfOk result (λ row. reply state.now time (Get table key) ≡ Ok (One (option_copied row))) }
    ensures err { IfErr result (λ why. reply state.now time (Get table key) ≡ Err why) }
{
    match time_refusal(state, time) {
        Some(why) => Err(why),
        None => Ok(state.facts().shown_at(table, key, time)),
    }
}

/// What a state answers to a query at its resolved time, with that time: the newest answer that it has.
///
/// The only refusal is `Memory`; a `Count` takes none, nor does a row that is not there. Cost: that of `ask`, and O(s),
/// s streams.
pub fn latest(alloc: Global, state: &ReplicaState, query: &Query) -> Result<(Time, Answer), Refusal>
    ensures time { IfOk result (λ told. told.0 ≡ readable state.now) }
    ensures answer { IfOk result (λ told. reply state.now told.0 query.now ≡ Ok (answer_seen told.1)) }
    ensures err { IfErr result (λ why. why ≡ Memory) }
    ensures primary { IsLatestOfPrimary state.now query.now result }

    // A count takes no memory, nor does the answer that there is no such row.
    ensures count { (table : ℕ) → query.now ≡ Count table → IsOk result }
    ensures absent { reply state.now (readable state.now) query.now ≡ Ok (One None) → IsOk result }
{
    let time = state.readable();
    let answer = ask(alloc, state, time, query)?;
    Ok((time, answer))
}
