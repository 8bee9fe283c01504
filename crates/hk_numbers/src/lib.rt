//! Sets of numbers up to 2^62, kept as runs of consecutive numbers: an ordered tree from the first number of each run to its
//! end, which is the number after its last. No two runs touch. One that is empty is room: it has no number, and a run can grow from
//! there with no more memory. So room for others is made first, which changes no number and need not be taken back, and what follows
//! can't fail.
//!
//! Of the numbers 5, 6, 7, 20 the tree has 5 -> 8 and 20 -> 21. With 8 it has 5 -> 9; a prefix 4 then takes 5 -> 9 and reaches 8.
#![tactic(auto)]

mod listed;
mod numbers;
mod runs;

pub use listed::{Listed, count, numbers_of};
pub use numbers::{copy, has, insert, make_room_for, settle_all, take_from};
