//! Answers of a replica at a time, the newest ones, and pages of its rows.
#![tactic(auto)]

mod answers;
mod pages;
mod reply;

pub use answers::answer_at;
pub use hk_model::{Answer, Page, Query};
pub use pages::{page, page_within, pages_law};
pub use reply::{ask, latest, row_at};
