//! Items.

ghost use Rattle.std.specs.Prelude.{◌≡◌, IfOk};

use crate::entry::Entry;
use crate::mark::Mark;
use std::alloc::{AllocError, Global};

/// What a log is made of: entries of committed transactions, and marks.
#[derive(Debug, PartialEq, Eq, Drop)]
pub enum Item {
    /// A transaction's entry.
    Commit(Entry),
    /// A mark that closes a stream up to a time.
    Closed(Mark),
}

impl Item {
    /// The same item again, its rows copied. The only error is out of memory. Cost: that of the
    /// entry's copy; a mark's is O(1).
    pub fn copy(&self, alloc: Global) -> Result<Item, AllocError>
        ensures { IfOk result (λ item. item ≡ self.now) }
    {
        match self {
            Item::Commit(entry) => Ok(Item::Commit(entry.copy(alloc)?)),
            Item::Closed(mark) => Ok(Item::Closed(*mark)),
        }
    }
}
