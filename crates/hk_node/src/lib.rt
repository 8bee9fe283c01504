//! A running node: a replica that one writer at a time changes under a lock, while readers ask without one.
#![tactic(auto)]

mod book;
pub mod change;
pub mod guarding;
mod node;
mod publisher;
mod replica;
mod seat;

pub use book::{NewList, NodeName};
pub use hk_oplog::{Hold, NodeKind, NodeSizes, Op, laws, next_op};
pub use hk_types::LAST_OP;
pub use node::{Node, start};
pub use publisher::{Publisher, Receipt};
pub use seat::ReaderSeat;
