//! The primary of a log.
#![tactic(auto)]

ghost use Rattle.hk_primary.specs.Verdicts.{AcceptedLaw, FromZeroLaw};

mod ask;
mod commit;
mod entries;
mod looks;
mod primary;
mod shared;
mod txn;

pub use hk_query::{Answer, Query};
pub use hk_store::RowKey;
pub use primary::Primary;
pub use shared::{Naming, SharedPrimary};
pub use txn::Txn;

/// What a primary whose clock starts after a time makes of a transaction.
pub fn verdict_law()
    ensures from_zero { FromZeroLaw }
    ensures accepted { AcceptedLaw }
{}
