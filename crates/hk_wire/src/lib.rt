//! Messages: what is asked of a replica or a node and what it replies, as bytes.
//!
//! A message has a frame of its own: a length of four bytes, the high one first, and then as many bytes, which are the
//! version, the kind and the body. The kind determines the version: those of `LaterRequest` and `LaterReply` are of version
//! 2, the others of version 1. Each message has at most one encoding, which `encode_request` and `encode_reply` add at the
//! end of bytes. A `RequestFeeder` and a `ReplyFeeder` read the messages of a stream that comes in any pieces, and return
//! exactly those whose encodings the bytes begin with, and the first fault of what follows them.
#![tactic(auto)]

mod laws;
mod reply_pieces;

pub use hk_encodings::{encode_reply, encode_request, kind_of};
pub use hk_messages::{
    LaterReply, LaterRequest, MOST_MILLISECONDS, Reply, ReplyFeeder, ReplyFormat, Request,
    RequestFeeder, RequestFormat,
};
pub use laws::{
    one_reply_encoding, one_reply_reading, one_request_encoding, one_request_reading,
    reply_pieces_join, request_pieces_join,
};
pub use reply_pieces::{Place, encode_piece};
