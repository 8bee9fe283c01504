//! What a command reads: an input in pieces, in lines, and in items, and what ends a command before its time. What `save` writes is
//! frames, and behind those of a fragment one frame with their checksum: here it is made, and what is read is compared with it before
//! anybody joins the fragment.
#![tactic(auto)]

mod checksum;
mod frames;
mod lines;
mod pieces;
mod stop;
mod summed;

pub use checksum::{Checksum, SUM_FORMAT, SUM_FRAME_BYTES, Sum, sum_frame};
pub use frames::{FromFrame, Sink, hand_items, kind_at_head};
pub use lines::{Lines, read_lines};
pub use pieces::{MOST_READS, PIECE_BYTES, Pieces, read_pieces};
pub use stop::{LinkFault, Peer, Stop};
pub use summed::{SumFault, SumFlaw, Summed};
