//! What the lists of keys are found by.

ghost use Rattle.std.specs.Prelude.{◌≡◌};
ghost use Rattle.hk_index.specs.TagOrder.{tag_key_same};

use hk_slots::Key as SlotKey;
use hk_types::{Table, Tag};

/// An odd number that separates the hashes of the tables.
const TABLE_FACTOR: u64 = 0xD6E8_FEB8_6659_FD93;

/// 2^64 over the golden ratio: rising tags get hashes that are far apart.
const TAG_FACTOR: u64 = 0x9E37_79B9_7F4A_7C15;

/// A table and a tag. These are ordered by the fields.
#[derive(Clone, Copy, Debug, PartialEq, Eq, PartialOrd, Ord)]
pub struct TagKey {
    pub table: Table,
    pub tag: Tag,
}

impl TagKey {
    pub fn new(table: Table, tag: Tag) -> TagKey
        ensures { result ≡ record { table = table; tag = tag } }
    {
        TagKey { table, tag }
    }
}

impl SlotKey for TagKey {
    fn hash(&self) -> u64 {
        let table = (self.table.number() as u64).wrapping_mul(TABLE_FACTOR);
        (table ^ self.tag.number() as u64).wrapping_mul(TAG_FACTOR)
    }

    ghost same = { tag_key_same };

    ghost copies = { λ x y e. e };
}
