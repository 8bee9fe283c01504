//! Frames: a length of four bytes, the high one first, and then as many bytes, the rest.
//!
//! These items make a format of frames: `Cursor` reads the fields of a rest, the `put_` functions write them, a
//! `Format` defines how a rest is read as a value, `next_frame` reads one frame, and `FrameFeeder` a stream of them
//! that comes in any pieces.
#![tactic(auto)]

mod cursor;
mod fields;
mod format;
mod frame_feeder;
mod frames;

pub use cursor::{Cursor, ReadError};
pub use fields::{put_body, put_u16, put_u32, put_u64};
pub use format::Format;
pub use frame_feeder::FrameFeeder;
pub use frames::{LENGTH_BYTES, Progress, frame_rest, length_of, next_frame, take_frames};
