//! The map.

ghost use Rattle.std.specs.Prelude.{◌≡◌, Some, None, IfOk, IfErr, IfSome, IfNone, IsTrue, OnErr, OnOk, length, ℕ, ◌==◌, ◌<◌, ◌≤◌, ◌^◌};
ghost use Rattle.std.specs.Option.{option_copied, option_copied_mut};
ghost use Rattle.std.specs.Borrow.{sem};
ghost use Rattle.std.specs.FinMap as finmap;
ghost use Rattle.std.specs.BTreeMap.Range.{IsLeBy, IsLtBy, entries_between};
ghost use Rattle.std.specs.Map.Iter.{ShowsInOrder, deref_pair};
ghost use Rattle.std.specs.Option.{unwrap_or};
ghost use Rattle.std.specs.BTreeMap as tree;
ghost use Rattle.slab.specs.Slab as slab;
ghost use Rattle.slab.specs.Slab.{HasRoomFor};
ghost use Rattle.hk_slots.specs.declared.slot_error.SlotError.TheVariants.{Full};
ghost use Rattle.hk_slots.specs.SlotMaps.{map_of, slots_of, IsFree, AreOwn, pairs_of, with_new};

use crate::hints::Hints;
use crate::key::Key;
use crate::range::Range;
use crate::slot::Slot;
use crate::slot_error::SlotError;
use slab::Slab;
use std::alloc::{AllocError, Global};
use std::collections::BTreeMap;
use std::marker::Model;
use std::ops::RangeBounds;

/// How many slots there are: their numbers have 32 bits.
const SLOTS: usize = 1 << 32;

/// A map in which each value keeps its slot until its key is removed.
///
/// An example, with `slots` and `entries` after each call:
///
///     new()                        slots {}            entries []
///     insert(9, A) returns 0       slots {9: 0}        entries [(9, A)]
///     insert(5, B) returns 1       slots {5: 1, 9: 0}  entries [(9, A), (5, B)]
///     remove(9) returns A          slots {5: 1}        entries [free, (5, B)]
///     insert(7, C) returns 0       slots {5: 1, 7: 0}  entries [(7, C), (5, B)]
///
/// `get(7)` first looks at the slot that `hints` has for the hash of 7. Where the key in it is 7, that is the value.
/// Else the guess was wrong, and `slots` has the slot.
#[derive(Drop)]
pub struct SlotMap<K: Key, V> {
    slots: BTreeMap<K, Slot>,
    entries: Slab<(K, V)>,
    hints: Hints,
}

impl<K: Key, V> Model for SlotMap<K, V> {
    ghost use Rattle.slab.specs.Slab as slab;
    ghost use Rattle.hk_slots.specs.SlotMaps.{Slots, slots_code};
    ghost use Rattle.hk_slots.specs.Seats.{seen, AreLaid};

    ghost Value = { Slots K V };

    ghost coded = { slots_code K.code V.code };

    ghost view = { λ a. seen a.slots a.entries };

    ghost invariant = { λ a. AreLaid K.cmp a.slots (slab.get a.entries) };
}

impl<K: Key, V> SlotMap<K, V> {
    ghost use Rattle.hk_slots.specs.SlotLends.{lends_value, lends_or_new};

    /// No entries. It takes no memory.
    pub fn new(alloc: Global) -> SlotMap<K, V>
        ensures map { map_of K.cmp result ≡ finmap.empty }
        ensures slots { slots_of K.cmp result ≡ finmap.empty }
    {
        SlotMap {
            slots: BTreeMap::new(alloc),
            entries: Slab::new(alloc),
            hints: Hints::new(alloc),
        }
    }

    /// The slot of a key.
    fn slot(&self, key: K) -> Option<Slot>
        ensures slot { result ≡ finmap.get (slots_of K.cmp self.now) key }
        ensures own { AreOwn K.cmp self.now }
    {
        match self.hinted(key) {
            Some(slot) => Some(slot),
            None => self.slots.get(&key).copied(),
        }
    }

    /// The value of a key. Cost: O(log n), n keys.
    pub fn get(&self, key: K) -> Option<&V>
        ensures { option_copied result ≡ finmap.get (map_of K.cmp self.now) key }
    {
        let slot = self.slot(key)?;
        let (_key, value) = self.entries.get(slot.index())?;
        Some(value)
    }

    /// Adds a key that is not there, and returns the slot of its value. It is a free slot, or one more.
    ///
    /// An error is out of memory, or that 2^32 keys are there; then nothing is changed. Cost: O(log n), n keys.
    pub fn insert(&mut self, key: K, value: V) -> Result<Slot, SlotError>
    where
        V: Drop,
        requires { finmap.get (map_of K.cmp self.old) key ≡ None }
        ensures map { OnOk result (map_of K.cmp self.new ≡ finmap.insert (map_of K.cmp self.old) key value) }
        ensures slots { IfOk result (λ slot. slots_of K.cmp self.new
            ≡ finmap.insert (slots_of K.cmp self.old) key slot) }
        ensures free { IfOk result (λ slot. IsFree K.cmp self.old slot) }
        ensures full { IfErr result (λ why. why ≡ Full → 2 ^ 32 ≤ length self.old.slots) }
        ensures kept { OnErr result (self.new ≡ self.old) }
    {
        let slot = room_in(&mut self.entries, self.slots.len())?;
        self.slots.insert(key, slot)?;
        self.entries.insert_reserved((key, value));
        self.hints.fit(self.slots.len());
        self.hints.note(key.hash(), slot.number());
        Ok(slot)
    }

    /// Removes a key, and returns its value, where it is there. Its slot is free then. It takes no memory. Cost:
    /// O(log n), n keys.
    pub fn remove(&mut self, key: K) -> Option<V>
        ensures value { result ≡ finmap.get (map_of K.cmp self.old) key }
        ensures map { map_of K.cmp self.new ≡ finmap.remove (map_of K.cmp self.old) key }
        ensures slots { slots_of K.cmp self.new ≡ finmap.remove (slots_of K.cmp self.old) key }
    {
        let slot = self.slots.remove(&key)?;
        self.hints.forget(key.hash(), slot.number());
        let (_key, value) = self.entries.remove(slot.index());
        Some(value)
    }

    /// The same map again: each value has the slot that it has here.
    ///
    /// The only error is out of memory. Cost: O(n), n keys, and that of a clone of each value.
    pub fn copy(&self) -> Result<SlotMap<K, V>, AllocError>
    where
        V: Clone,
        requires { (x y : V) → V.is_clone x y → y ≡ x }
        ensures { IfOk result (λ map. map ≡ self.now) }
    {
        let slots = self.slots.clone()?;
        let entries = self.entries.clone()?;
        let hints = self.hints.clone()?;
        Ok(SlotMap {
            slots,
            entries,
            hints,
        })
    }

    /// The entries, in the order of their keys. Cost: O(log n), n keys, and O(1) for each entry.
    pub fn iter(&self) -> Range<'_, K, V>
        ensures entries { result ≡ finmap.entries (map_of K.cmp self.now) }
        ensures fits { length result < 2 ^ 63 }
        ensures runs { ShowsInOrder (deref_pair {K = K} {X = V}) }
    {
        self.range(..)
    }

    /// The entries whose keys are between two bounds, in the order of their keys. Cost: O(log n), n keys, and O(1)
    /// for each entry.
    pub fn range<B: RangeBounds<K> + Drop>(&self, range: B) -> Range<'_, K, V>
        requires { B.is_forward range (IsLeBy K.cmp) (IsLtBy K.cmp) }
        ensures between { B.has_bounds range → result ≡ entries_between K.cmp
            (B.start_bound range) (B.end_bound range) (pairs_of K.cmp self.now) }
        ensures fits { length result < 2 ^ 63 }
        ensures runs { ShowsInOrder (deref_pair {K = K} {X = V}) }
    {
        Range {
            keys: self.slots.range(range),
            entries: &self.entries,
        }
    }

    /// A number above that of each slot that a key has. It is at most that of the entries for which there is room.
    pub fn slot_bound(&self) -> usize
        ensures most { result ≤ 2 ^ 32 }
        ensures above { (key : K) (slot : ℕ)
            → finmap.get (slots_of K.cmp self.now) key ≡ Some slot → slot < result }
        ensures own { AreOwn K.cmp self.now }
    {
        self.entries.capacity().min(SLOTS)
    }

    /// The key that has the slot with a number, where one has. Cost: O(1).
    pub fn key_at(&self, slot: usize) -> Option<K>
        ensures some { IfSome result (λ key. finmap.get (slots_of K.cmp self.now) key ≡ Some slot) }
        ensures none { IfNone result (IsFree K.cmp self.now slot) }
    {
        let (key, _value) = self.entries.get(slot)?;
        Some(key).copied()
    }

    /// The value of a key to write to. Cost: O(log n), n keys.
    #[inline(always)]
    pub fn get_mut(&mut self, key: K) -> Option<&mut V>
        ensures* writes_back { sem 𝓛 (lends_value K.row V.row K.Ord self.entry key result) }
        ensures value { option_copied_mut result ≡ finmap.get (map_of K.cmp self.old) key }
    {
        let slot = self.slot_noted(key)?;
        let entry = &mut self.entries[slot.index()];
        Some(&mut entry.1)
    }

    /// The value of a key to write to. A key that is not there is inserted first, with the value `fresh`.
    ///
    /// An error comes for a key that is not there alone: out of memory, or that 2^32 other keys are there. Then nothing
    /// is changed. Cost: O(log n), n keys: one way down, or none where the key is known.
    #[inline(always)]
    pub fn get_or_insert(&mut self, key: K, fresh: V) -> Result<&mut V, SlotError>
    where
        V: Drop,
        ensures* writes_back { sem 𝓛 (lends_or_new K.row V.row K.Ord self.entry key result) }
        ensures value { IfOk result (λ r. r.now ≡ unwrap_or (finmap.get (map_of K.cmp self.old) key) fresh) }
        ensures absent { OnErr result (finmap.get (map_of K.cmp self.old) key ≡ None) }
        ensures full { IfErr result (λ why. why ≡ Full → 2 ^ 32 ≤ length self.old.slots) }
    {
        let slot = self.slot_or_new(key, fresh)?;
        let entry = &mut self.entries[slot.index()];
        Ok(&mut entry.1)
    }

    /// The slot of a key. A key that is not there is inserted, with the value `fresh`.
    #[inline(always)]
    fn slot_or_new(&mut self, key: K, fresh: V) -> Result<Slot, SlotError>
    where
        V: Drop,
        ensures slot { IfOk result (λ slot. finmap.get (slots_of K.cmp self.new) key ≡ Some slot) }
        ensures map { OnOk result (map_of K.cmp self.new ≡ with_new K.cmp (map_of K.cmp self.old) key fresh) }
        ensures absent { OnErr result (finmap.get (map_of K.cmp self.old) key ≡ None) }
        ensures full { IfErr result (λ why. why ≡ Full → 2 ^ 32 ≤ length self.old.slots) }
        ensures kept { OnErr result (self.new ≡ self.old) }
    {
        match self.hinted(key) {
            Some(slot) => Ok(slot),
            None => self.found_or_new(key, fresh),
        }
    }

    /// The slot of a key that no hint finds. A key that is not there is inserted, with the value `fresh`.
    fn found_or_new(&mut self, key: K, fresh: V) -> Result<Slot, SlotError>
    where
        V: Drop,
        ensures slot { IfOk result (λ slot. finmap.get (slots_of K.cmp self.new) key ≡ Some slot) }
        ensures map { OnOk result (map_of K.cmp self.new ≡ with_new K.cmp (map_of K.cmp self.old) key fresh) }
        ensures absent { OnErr result (finmap.get (map_of K.cmp self.old) key ≡ None) }
        ensures full { IfErr result (λ why. why ≡ Full → 2 ^ 32 ≤ length self.old.slots) }
        ensures kept { OnErr result (self.new ≡ self.old) }
    {
        let vacant = match room_in(&mut self.entries, self.slots.len()) {
            Ok(vacant) => vacant,
            Err(why) => return self.slot(key).ok_or(why),
        };
        let slot = slot_or(&mut self.slots, key, vacant)?;
        self.hints.note(key.hash(), slot.number());
        if slot.number() != vacant.number() {
            return Ok(slot);
        }
        self.entries.insert_reserved((key, fresh));
        self.hints.fit(self.slots.len());
        Ok(slot)
    }

    /// The slot of a key, which is noted where no hint found it.
    #[inline(always)]
    fn slot_noted(&mut self, key: K) -> Option<Slot>
        ensures slot { result ≡ finmap.get (slots_of K.cmp self.old) key }
        ensures own { AreOwn K.cmp self.old }
        ensures kept { self.new ≡ self.old }
    {
        match self.hinted(key) {
            Some(slot) => Some(slot),
            None => {
                let slot = *self.slots.get(&key)?;
                self.hints.note(key.hash(), slot.number());
                Some(slot)
            }
        }
    }

    /// The slot of a key, where a hint finds it.
    #[inline(always)]
    fn hinted(&self, key: K) -> Option<Slot>
        ensures slot { IfSome result (λ slot. finmap.get (slots_of K.cmp self.now) key ≡ Some slot) }
        ensures own { AreOwn K.cmp self.now }
    {
        let slot = Slot::new(self.hints.guess(key.hash()));
        if self.is_slot_of(slot, key) {
            Some(slot)
        } else {
            None
        }
    }

    /// Whether the slot is in use, and this key is in it.
    #[inline(always)]
    fn is_slot_of(&self, slot: Slot, key: K) -> bool
        ensures { IsTrue result → finmap.get (slots_of K.cmp self.now) key ≡ Some slot }
    {
        match self.entries.get(slot.index()) {
            Some((own, _value)) => *own == key,
            None => false,
        }
    }
}

/// The slot that the next entry gets beside those of so many keys, with room made for it. An error is that there is none,
/// or no memory.
fn room_in<K, V>(entries: &mut Slab<(K, V)>, keys: usize) -> Result<Slot, SlotError>
    ensures vacant { IfOk result (λ slot. slot ≡ entries.new.vacant_key) }
    ensures free { IfOk result (λ slot. slab.get entries.new slot ≡ None) }
    ensures low { IfOk result (λ slot. slot < 2 ^ 32) }
    ensures room { OnOk result (HasRoomFor entries.new 1) }
    ensures full { IfErr result (λ why. why ≡ Full → 2 ^ 32 ≤ keys) }
    ensures kept { entries.new ≡ record entries.old { capacity = entries.new.capacity } }
{
    entries.reserve(1)?;
    match Slot::at(entries.vacant_key()) {
        Some(slot) => Ok(slot),
        None if keys >= SLOTS => Err(SlotError::Full),
        // a slab uses its free slots first, so it never comes to this, which its contract does not say
        None => Err(SlotError::Memory),
    }
}

/// The slot of a key. A key that is not there gets this one. The only error is out of memory, for such a key.
fn slot_or<K: Key>(slots: &mut BTreeMap<K, Slot>, key: K, vacant: Slot) -> Result<Slot, AllocError>
    ensures slot { IfOk result (λ slot. slot ≡ unwrap_or (tree.get K.cmp slots.old key) vacant) }
    ensures updates { IfOk result (λ slot. tree.Updates K.cmp slots.old slots.new key (Some slot)) }
    ensures ordered { OnOk result (tree.IsOrdered K.cmp slots.new) }
    ensures absent { OnErr result (tree.get K.cmp slots.old key ≡ None) }
    ensures kept { OnErr result (tree.IsUnchanged slots.old slots.new) }
{
    Ok(*slots.entry(key)?.or_insert(vacant))
}
