//! Room for the lists of entries.

use hk_types::{Key, Row, Table, VersionKey};
use std::alloc::Global;

/// What an entry writes: the versions that it ended, and the rows that it put in.
pub type Writes = (Vec<VersionKey>, Vec<(Table, Key, Row)>);

/// Room for the lists of entries: those of entries that are done with, which the next ones fill again. What is in them says
/// nothing. By default it keeps none.
#[derive(Debug, Drop)]
pub struct Spare {
    lists: Option<Vec<Writes>>,
}

impl Default for Spare {
    fn default() -> Spare {
        Spare { lists: None }
    }
}

impl Spare {
    /// Places for the lists of so many entries, or none where there is no memory for them.
    pub fn new(alloc: Global, count: usize) -> Spare {
        let mut lists = Vec::new(alloc);
        let _room = lists.reserve(count);
        Spare { lists: Some(lists) }
    }

    /// The lists that were given back last, else new ones. It takes no memory.
    #[inline(always)]
    pub fn take(&mut self, alloc: Global) -> Writes {
        if let Some(kept) = &mut self.lists
            && let Some(lists) = kept.pop()
        {
            return lists;
        }
        (Vec::new(alloc), Vec::new(alloc))
    }

    /// Gives lists back, which are dropped where no place is left for them. It takes no memory.
    #[inline(always)]
    pub fn give(&mut self, lists: Writes) {
        if let Some(kept) = &mut self.lists
            && kept.len() < kept.capacity()
        {
            let _kept = kept.push(lists);
        }
    }
}
