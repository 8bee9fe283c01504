//! What stands behind the functions of C: a replica whose calls write to what is lent, and the handle that owns it.
#![tactic(auto)]

mod calls;
mod changes;
mod found;
mod handle;
mod listing;
mod loose;
mod paging;
mod replica;

pub use calls::{MEMORY, copy_prefix, write_page};
pub use found::{Bounds, Found, Paged};
pub use handle::{Handle, close, put_back, take_out};
pub use replica::Replica;
