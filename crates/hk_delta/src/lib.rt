//! Fragments: what a replica sends of its content to another replica of the same log, a full snapshot or a delta.
#![tactic(auto)]

mod agreeing;
mod conflicts;
mod cutting;
mod gathering;
mod items;
mod joining;
mod repeats;
mod uniting;
mod versions;

pub use agreeing::{agreed, agreed_so, conflicts_with};
pub use cutting::{delta_since, whole_of};
pub use gathering::fragment_of;
pub use hk_fragment::Fragment;
pub use items::join_items;
pub use joining::join;
pub use uniting::union;
