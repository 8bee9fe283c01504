//! Which requests a port lets through, and where the frames of a connection begin, without a look at what they contain.
//!
//! A port for readers, or for feeders, is a set of kinds of requests. `FrameWatch` sees the bytes of a connection before its session
//! does: it turns the kind of a request that doesn't pass into one that no message has, and says where a long answer is asked for.
#![tactic(auto)]

mod frame_watch;
mod heads;
mod laws;
mod passes;

pub use frame_watch::{FrameWatch, Taken, Then};
pub use laws::handing_law;
pub use passes::Passes;
