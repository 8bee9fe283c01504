//! Questions to a primary.

ghost use Rattle.std.specs.Prelude.{◌≡◌, ◌≤◌, ◌<◌, ℕ, true, None, IfErr, IfOk, IsOk, OnErr, OnOk};
ghost use Rattle.hk_types.specs.declared.faults.Refusal.TheVariants.{Memory, NotYet as Early};
ghost use Rattle.hk_model.specs.Replica.Answers.{One, answer_seen};
ghost use Rattle.hk_model.specs.declared.query.Query.TheVariants.{Count};
ghost use Rattle.hk_query.specs.Memory.{takes_memory};
ghost use Rattle.hk_primary.specs.Calls.{answer_on, readable_on};

use crate::primary::Primary;
use hk_model::{Answer, Query};
use hk_query::answer_at;
use hk_types::{Refusal, Time};

impl Primary {
    /// What the primary answers to a query on the rows that the commits up to a time left.
    ///
    /// A time above what may be read (see `readable`) is refused `NotYet` with that time, and then `Memory` comes
    /// where a growth was refused; a `Count` and a row that is not there take no memory. Cost: that of `readable`, and `Get` O(log n + b),
    /// `Range` and `ByTag` O((1 + v) · log n + b), `Count` O((1 + k) · log n), n versions, v of them listed by the
    /// index, k keys of the table, b bytes of the bodies that are copied.
    pub fn ask(&self, time: Time, query: &Query) -> Result<Answer, Refusal>
        ensures told { IfOk result
            (λ a. answer_seen a ≡ answer_on self.now time query.now) }
        ensures known { OnOk result (time ≤ readable_on self.now) }
        ensures early { readable_on self.now < time → IfErr result
            (λ why. why ≡ Early (readable_on self.now)) }
        ensures memory { time ≤ readable_on self.now → IfErr result (λ why. why ≡ Memory) }

        // A count takes no memory.
        ensures count { (table : ℕ) → query.now ≡ Count table → time ≤ readable_on self.now → IsOk result }

        // Nor does the answer that there is no such row.
        ensures absent { time ≤ readable_on self.now
            → answer_on self.now time query.now ≡ One None → IsOk result }
        ensures lacks { time ≤ readable_on self.now
            → OnErr result (takes_memory (answer_on self.now time query.now) ≡ true) }
    {
        let readable = self.readable();
        if readable < time {
            return Err(Refusal::NotYet { readable });
        }
        answer_at(self.alloc, &self.facts, time, query)
    }
}
