//! What is asked of a replica or a node and what it replies: the values of messages, their reading, and their bodies as bytes.
//!
//! hk_wire, above, has their encoding, and says more of them.
#![tactic(auto)]

mod items;
mod later_reply;
pub mod later_reply_encoding;
mod later_request;
pub mod later_request_encoding;
mod reply;
pub mod reply_body;
pub mod request;
pub mod request_body;

pub use hk_message_head::limits::MOST_MILLISECONDS;
pub use later_reply::LaterReply;
pub use later_request::LaterRequest;
pub use reply::{Reply, ReplyFeeder, ReplyFormat};
pub use request::{Request, RequestFeeder, RequestFormat};
