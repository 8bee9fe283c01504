//! What a node counts of its connections, beside what they may make it keep (hk_budgets).
#![tactic(auto)]

mod meters;

pub use meters::Meters;
