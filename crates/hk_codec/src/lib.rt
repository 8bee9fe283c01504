//! Items as bytes, and bytes as items.
//!
//! A frame is a length of four bytes, the high one first, and then as many bytes. Each item has one encoding in
//! version 2, which `encode` adds at the end of bytes, and one in version 1, which `encode_old` adds. A `Feeder`
//! reads the items of a stream that comes in any pieces, each frame in its version. It returns exactly the items
//! whose encodings the bytes begin with, and the first fault of what follows them. An outline of an item is read where its
//! frame stands, and nothing of it is copied. `rewrite` writes frames of either
//! version in version 2.
#![tactic(auto)]

mod elements;
mod encoding;
mod feeder;
mod kept;
mod kept_lists;
mod laws;
mod list_encoding;
mod outline;
mod reading;
mod rewriting;

pub use encoding::{encode, encode_old, frame_len, put_frame};
pub use feeder::{Feeder, take_items};
pub use laws::{one_encoding, one_reading, pieces_join};
pub use outline::{EntryOutline, ItemOutline, OutlineFormat, outline_of};
pub use reading::ItemFormat;
pub use rewriting::rewrite;
