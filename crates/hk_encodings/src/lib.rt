//! The one encoding of a message.
#![tactic(auto)]

pub mod reply_encoding;
mod request_encoding;

pub use reply_encoding::encode_reply;
pub use request_encoding::{encode_request, kind_of};
