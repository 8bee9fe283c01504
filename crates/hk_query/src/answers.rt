//! Answers on facts, at a time.

ghost use Rattle.std.specs.Prelude.{◌≡◌, ℕ, None, IfOk, IfErr, IsOk};
ghost use Rattle.hk_types.specs.declared.faults.Refusal.TheVariants.{Memory};
ghost use Rattle.hk_model.specs.declared.query.Query.TheVariants.{Range, ByTag, Count};
ghost use Rattle.hk_model.specs.Replica.Answers.{One, Rows, answer_seen};
ghost use Rattle.hk_query.specs.Rows.{answer_of, row_of};

use hk_model::{Answer, Query};
use hk_store::Facts;
use hk_types::{Key, Refusal, Row, Table, Tag, Time};
use std::alloc::{AllocError, Global};

/// A copy of the row at a key.
fn get(
    alloc: Global,
    facts: &Facts,
    time: Time,
    table: Table,
    key: Key,
) -> Result<Option<Row>, AllocError>
    ensures ok { IfOk result (λ row. row ≡ row_of facts.now time table key) }
    ensures absent { row_of facts.now time table key ≡ None → IsOk result }
{
    match facts.shown_at(table, key, time) {
        Some(row) => Ok(Some(row.copy(alloc)?)),
        None => Ok(None),
    }
}

/// The rows with keys from a low to a high one.
fn range(
    alloc: Global,
    facts: &Facts,
    time: Time,
    table: Table,
    low: Key,
    high: Key,
) -> Result<Vec<(Key, Row)>, Refusal>
    ensures ok { IfOk result (λ rows. answer_of facts.now time (Range table low high) ≡ Rows rows.items) }
    ensures err { IfErr result (λ why. why ≡ Memory) }
{
    facts.rows_between(alloc, table, low, high, time)
}

/// The rows with a tag.
fn by_tag(
    alloc: Global,
    facts: &Facts,
    time: Time,
    table: Table,
    tag: Tag,
) -> Result<Vec<(Key, Row)>, Refusal>
    ensures ok { IfOk result (λ rows. answer_of facts.now time (ByTag table tag) ≡ Rows rows.items) }
    ensures err { IfErr result (λ why. why ≡ Memory) }
{
    facts.rows_tagged(alloc, table, tag, time)
}

/// The answer to a query on the rows that are visible at a time by these facts.
///
/// The only refusal is `Memory`. A `Count` and a row that is not there take no memory. Cost: `Get` O(log n + b), `Range`
/// O(log n + k · log n + b), `ByTag` O(k · log n + b), `Count` O(log n + k · log n), n facts, k keys of the range, of the
/// table, or that have or had a row with the tag, b bytes of the bodies that are copied.
pub fn answer_at(alloc: Global, facts: &Facts, time: Time, query: &Query) -> Result<Answer, Refusal>
    ensures ok { IfOk result (λ a. answer_seen a ≡ answer_of facts.now time query.now) }
    ensures err { IfErr result (λ why. why ≡ Memory) }
    ensures count { (table : ℕ) → query.now ≡ Count table → IsOk result }
    ensures absent { answer_of facts.now time query.now ≡ One None → IsOk result }
{
    match query {
        Query::Get { table, key } => Ok(Answer::One(get(alloc, facts, time, *table, *key)?)),
        Query::Range { table, low, high } => {
            Ok(Answer::Rows(range(alloc, facts, time, *table, *low, *high)?))
        }
        Query::ByTag { table, tag } => Ok(Answer::Rows(by_tag(alloc, facts, time, *table, *tag)?)),
        Query::Count { table } => Ok(Answer::Number(facts.count_at(*table, time))),
    }
}
