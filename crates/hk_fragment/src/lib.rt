//! A fragment: what a replica sends of its content to another replica of the same log, in one message or in chunks.
#![tactic(auto)]

mod assembly;
mod fragment;
mod merging;

pub use assembly::Assembly;
pub use fragment::{Fragment, copy_facts, facts_fault};
