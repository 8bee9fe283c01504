//! The keys by tag.

ghost use Rattle.std.specs.Prelude.{◌≡◌, true, IfOk, IfErr, OnErr, OnOk};
ghost use Rattle.std.specs.FinMap as finmap;
ghost use Rattle.hk_types.specs.declared.faults.Refusal.TheVariants.{Memory};
ghost use Rattle.hk_index.specs.Tags.{ListsKeys, StillListed, is_listed, with_key};

use crate::key_list::KeyList;
use crate::tag_key::TagKey;
use hk_slots::SlotMap;
use hk_types::{Key, Refusal, Table, Tag};
use std::alloc::Global;
use std::marker::Model;

/// How many useless entries beyond half of the lists are allowed before these count as worn.
const FEW: usize = 64;

/// For each table and tag a list of keys, in the order in which they came: each key that has a row with the tag, and others
/// besides, which had one, or which are there twice. Nothing is removed from a list: who finds that it is worn makes a new one.
#[derive(Drop)]
pub struct TagKeys {
    alloc: Global,
    lists: SlotMap<TagKey, KeyList>,
    listed: usize,
    gone: usize,
}

impl Model for TagKeys {
    ghost use Rattle.hk_slots.specs.SlotMaps.{map_of};
    ghost use Rattle.hk_index.specs.Tags.{TagKeysValue, tag_keys_code, tag_key_cmp};

    ghost Value = { TagKeysValue };

    ghost coded = { tag_keys_code };

    ghost view = { λ a. map_of tag_key_cmp a.lists };
}

impl TagKeys {
    /// No keys. It takes no memory.
    pub fn new(alloc: Global) -> TagKeys
        ensures { result ≡ finmap.empty }
    {
        TagKeys {
            alloc,
            lists: SlotMap::new(alloc),
            listed: 0,
            gone: 0,
        }
    }

    /// Lists a key of a table under a tag. What is listed is kept, also on a refusal.
    ///
    /// The only refusal is `Memory`. Cost: O(log t), amortized, t tables and tags; O(1) for most that are there.
    pub fn add(&mut self, table: Table, tag: Tag, key: Key) -> Result<(), Refusal>
        ensures ok { OnOk result (is_listed self.new table tag key ≡ true) }
        ensures kept { StillListed self.old self.new }
        ensures err { IfErr result (λ why. why ≡ Memory) }
    {
        self.put(table, tag, key)?;
        self.listed = self.listed.saturating_add(1);
        Ok(())
    }

    #[inline(always)]
    fn put(&mut self, table: Table, tag: Tag, key: Key) -> Result<(), Refusal>
        ensures ok { OnOk result (self.new ≡ with_key self.old (record { table = table; tag = tag }) key) }
        ensures kept { OnErr result (self.new ≡ self.old) }
        ensures err { IfErr result (λ why. why ≡ Memory) }
    {
        let at = TagKey::new(table, tag);
        if let Some(list) = self.lists.get_mut(at) {
            return list.push(key);
        }
        let list = KeyList::of(self.alloc, key)?;
        self.lists.insert(TagKey::new(table, tag), list)?;
        Ok(())
    }

    /// The keys that are listed under a tag of a table, in rising order, each once.
    ///
    /// The only refusal is `Memory`. Cost: O(k · log k), k keys listed.
    pub fn keys(&self, alloc: Global, table: Table, tag: Tag) -> Result<Vec<Key>, Refusal>
        ensures ok { IfOk result (λ keys. ListsKeys self.now table tag keys.items) }
        ensures err { IfErr result (λ why. why ≡ Memory) }
    {
        let keys = match self.lists.get(TagKey::new(table, tag)) {
            Some(list) => list.rising(alloc)?,
            None => Vec::new(alloc),
        };
        Ok(keys)
    }

    /// Notes that so many rows are gone for which their keys were listed. It promises nothing.
    pub fn note_gone(&mut self, many: u64)
        ensures { self.new ≡ self.old }
    {
        self.gone = self.gone.saturating_add(many as usize);
    }

    /// Whether more than half of what is listed is gone. It promises nothing.
    pub fn is_worn(&self) -> bool {
        self.gone > self.listed / 2 + FEW
    }
}
