//! The items of bytes that are all there, read by several threads.
//!
//! `decode_all` returns exactly the items whose encodings the bytes are, or the first fault, as a `Feeder` of
//! hk_codec does. It has a crate of its own, so that what reads items needs no threads.
#![tactic(auto)]

mod parallel;

pub use parallel::decode_all;
