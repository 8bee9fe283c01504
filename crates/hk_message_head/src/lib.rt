//! What each message begins and ends with, the kinds of messages, and the numbers in messages that have a limit.
#![tactic(auto)]

pub mod head;
pub mod limits;
pub mod reply_kinds;
pub mod request_kinds;
