//! A node that follows others: what it asks them for, and what it does with what they give. Nothing here waits for anybody or opens a
//! connection: that is the program's.
#![tactic(auto)]

mod difference;
mod follower;
mod laws;

pub use difference::first_difference;
pub use follower::{Follower, Taken};
pub use laws::follow_law;
