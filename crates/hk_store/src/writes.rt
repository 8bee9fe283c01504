//! The rows and ends of an entry, and lists of them, added at once.

ghost use Rattle.std.specs.Prelude.{◌≡◌, map, true, false, OnOk, OnErr, IfOk, IfErr, if◌then◌else◌};
ghost use Rattle.std.specs.Bool.{OnTrue, OnFalse};
ghost use Rattle.std.specs.FinMap as finmap;
ghost use Rattle.hk_types.specs.declared.faults.Refusal.TheVariants.{Conflict, Memory};
ghost use Rattle.hk_log.specs.Items.{rise, end_place, row_place};
ghost use Rattle.hk_model.specs.Replica.Maps.{union};
ghost use Rattle.hk_store.specs.Changes.{entry_ends, entry_rows, with_ends, with_listed, with_rows};
ghost use Rattle.hk_chains.specs.Facts.{with_fact_at, with_entry, conflicts_at, conflicts_with_entry};
ghost use Rattle.hk_store.specs.Undos.{rows_conflict, ends_conflict, rolled_back};

use crate::facts::Facts;
use crate::undo::Undo;
use hk_facts::Fact;
use hk_log::{Entry, Spare};
use hk_types::{Key, Refusal, Row, Table, Time, VersionKey};
use std::collections::VecDeque;

impl Facts {
    /// Adds all rows and ends of an entry, where none are known. The only refusal is `Memory`, and it
    /// changes nothing. Cost: O(w · log n + b), w writes, n facts, b bytes of bodies, which are copied.
    pub fn add_entry(&mut self, entry: &Entry) -> Result<(), Refusal>
        ensures ok { OnOk result (self.new ≡ with_entry self.old entry.now) }
        ensures err { IfErr result (λ why. why ≡ Memory) }
        ensures kept { OnErr result (self.new ≡ self.old) }
    {
        let copied = entry.copy(self.allocator())?;
        let mut undo = Undo::new(self.allocator());
        if let Err(why) = self.add_writes(&mut undo, copied) {
            self.take_back(undo);
            return Err(why);
        }
        Ok(())
    }

    /// Adds the rows and ends of an entry, where none are known. The only refusal is `Memory`.
    fn add_writes(&mut self, undo: &mut Undo, entry: Entry) -> Result<(), Refusal>
        ensures ok { OnOk result (self.new ≡ with_entry self.old entry) }
        ensures err { IfErr result (λ why. why ≡ Memory) }
        ensures back { rolled_back undo.new self.new ≡ rolled_back undo.old self.old }
    {
        let time = entry.time();
        let (ends, rows) = entry.into_writes();
        self.add_rows(undo, rows, time)?;
        self.add_ends(undo, &ends, time)
    }

    fn add_rows(
        &mut self,
        undo: &mut Undo,
        rows: Vec<(Table, Key, Row)>,
        time: Time,
    ) -> Result<(), Refusal>
        ensures ok { OnOk result (self.new ≡ with_rows self.old (entry_rows time rows.items)) }
        ensures err { IfErr result (λ why. why ≡ Memory) }
        ensures back { rolled_back undo.new self.new ≡ rolled_back undo.old self.old }
    {
        for (table, key, row) in rows {
            let version = VersionKey {
                table,
                key,
                born: time,
            };
            self.add(undo, &version, Fact::Row(row))?;
        }
        Ok(())
    }

    fn add_ends(&mut self, undo: &mut Undo, ends: &[VersionKey], time: Time) -> Result<(), Refusal>
        ensures ok { OnOk result (self.new ≡ with_ends self.old (entry_ends time ends.now)) }
        ensures err { IfErr result (λ why. why ≡ Memory) }
        ensures back { rolled_back undo.new self.new ≡ rolled_back undo.old self.old }
    {
        for version in ends {
            self.add(undo, version, Fact::End(time))?;
        }
        Ok(())
    }

    /// Adds the rows and ends of an entry, each that is new noted. An entry that has another row, or
    /// another end, of a version than is known is refused `Conflict`, and any other only for `Memory`; what was added
    /// until then is kept, and is noted. The lists of an entry that was added are given to `spare`. Cost: O(w · log n + b),
    /// w writes, n facts, b bytes of bodies that are compared: those that are new are moved.
    #[inline(always)]
    pub fn put_writes(
        &mut self,
        undo: &mut Undo,
        entry: Entry,
        spare: &mut Spare,
    ) -> Result<(), Refusal>
        ensures ok { OnOk result (self.new ≡ with_entry self.old entry) }
        ensures agrees { OnOk result (conflicts_with_entry self.old entry ≡ false) }
        ensures err { IfErr result (λ why.
            why ≡ (if conflicts_with_entry self.old entry then Conflict else Memory)) }
        ensures back { rolled_back undo.new self.new ≡ rolled_back undo.old self.old }
    {
        let _rows_rise = entry.rows();
        let time = entry.time();
        let (ends, rows) = entry.into_writes();
        let mut rows = VecDeque::from_vec(rows);
        let room = self.put_rows(undo, &mut rows, time)?;
        if !self.put_ends(undo, &ends, time, room)? {
            return Err(Refusal::Memory);
        }
        spare.give((ends, rows.into_vec()));
        Ok(())
    }

    /// Adds rows while memory lasts, each that is new noted, and returns whether it lasted. The only
    /// refusal is `Conflict`.
    fn put_rows(
        &mut self,
        undo: &mut Undo,
        rows: &mut VecDeque<(Table, Key, Row)>,
        time: Time,
    ) -> Result<bool, Refusal>
        requires { rise (map row_place rows.old.items) ≡ true }
        ensures agrees { OnOk result (rows_conflict self.old time rows.old.items ≡ false) }
        ensures err { IfErr result (λ why. (why ≡ Conflict) × (rows_conflict self.old time rows.old.items ≡ true)) }
        ensures put { IfOk result (λ is. OnTrue is (self.new.rows ≡ union self.old.rows (entry_rows time rows.old.items))) }
        ensures ends { self.new.ends ≡ self.old.ends }
        ensures back { rolled_back undo.new self.new ≡ rolled_back undo.old self.old }
    {
        let mut room = true;
        while let Some((table, key, row)) = rows.pop_front() {
            let version = VersionKey {
                table,
                key,
                born: time,
            };
            room = self.put_while(room, undo, &version, Fact::Row(row))?;
        }
        Ok(room)
    }

    /// Adds ends while memory lasts, as `put_rows` does rows.
    fn put_ends(
        &mut self,
        undo: &mut Undo,
        ends: &[VersionKey],
        time: Time,
        lasts: bool,
    ) -> Result<bool, Refusal>
        requires { rise (map end_place ends.now) ≡ true }
        ensures agrees { OnOk result (ends_conflict self.old time ends.now ≡ false) }
        ensures err { IfErr result (λ why. (why ≡ Conflict) × (ends_conflict self.old time ends.now ≡ true)) }
        ensures put { IfOk result (λ still. OnTrue still ((lasts ≡ true) × (self.new.ends ≡ union self.old.ends (entry_ends time ends.now)))) }
        ensures rows { self.new.rows ≡ self.old.rows }
        ensures back { rolled_back undo.new self.new ≡ rolled_back undo.old self.old }
    {
        let mut room = lasts;
        for version in ends {
            room = self.put_while(room, undo, version, Fact::End(time))?;
        }
        Ok(room)
    }

    /// Adds a fact where memory lasted so far, and else only compares it. Returns whether memory lasts.
    #[inline(always)]
    fn put_while(
        &mut self,
        room: bool,
        undo: &mut Undo,
        version: &VersionKey,
        fact: Fact,
    ) -> Result<bool, Refusal>
        ensures agrees { OnOk result (conflicts_at self.old version.now fact ≡ false) }
        ensures err { IfErr result (λ why. (why ≡ Conflict) × (conflicts_at self.old version.now fact ≡ true)) }
        ensures put { IfOk result (λ is. OnTrue is ((room ≡ true) × (self.new ≡ with_fact_at self.old version.now fact))) }
        ensures kept { IfOk result (λ lasts. OnFalse lasts (self.new ≡ self.old)) }
        ensures refused { OnErr result (self.new ≡ self.old) }
        ensures back { rolled_back undo.new self.new ≡ rolled_back undo.old self.old }
    {
        if !room {
            if self.has_conflicting(version, &fact) {
                return Err(Refusal::Conflict);
            }
            return Ok(false);
        }
        match self.put(undo, version, fact) {
            Ok(_is_new) => Ok(true),
            Err(Refusal::Memory) => Ok(false),
            Err(why) => Err(why),
        }
    }

    /// Adds a fact where nothing like it is known of the version. The only refusal is `Memory`, and it changes nothing.
    /// Cost: that of `put`.
    pub(crate) fn add(
        &mut self,
        undo: &mut Undo,
        version: &VersionKey,
        fact: Fact,
    ) -> Result<(), Refusal>
        ensures ok { OnOk result (self.new ≡ with_fact_at self.old version.now fact) }
        ensures err { IfErr result (λ why. why ≡ Memory) }
        ensures back { rolled_back undo.new self.new ≡ rolled_back undo.old self.old }
    {
        match self.put(undo, version, fact) {
            Ok(_) | Err(Refusal::Conflict) => Ok(()),
            Err(why) => Err(why),
        }
    }
}
