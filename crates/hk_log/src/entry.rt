//! An entry.

ghost use Rattle.std.specs.Prelude.{◌≡◌, IfOk};
ghost use Rattle.hk_log.specs.Items.{checked_entry, entry_value, IsEntry};

use crate::places::{MOST_WRITES, ends_rise, rows_rise, were_born};
use crate::spare::Writes;
use hk_types::{FormFault, Key, Row, StreamNo, Table, Time, VersionKey};
use std::alloc::{AllocError, Global};
use std::marker::Model;

/// A committed transaction on one stream of a log: the versions that it ended, and the rows that it put in.
/// Its number counts the entries of the stream from 1, and is at most its time. It has at most `MOST_WRITES`
/// ends and at most `MOST_WRITES` rows, and not neither.
#[derive(Debug, Drop)]
pub struct Entry {
    log: u64,
    stream: StreamNo,
    number: u64,
    time: Time,
    ends: Vec<VersionKey>,
    rows: Vec<(Table, Key, Row)>,
}

impl Model for Entry {
    ghost use Rattle.hk_log.specs.Items.{EntryValue, IsEntry};

    ghost Value = { EntryValue };

    ghost view = { λ a. record { log = a.log; stream = a.stream; number = a.number; time = a.time; ends = a.ends.items; rows = a.rows.items } };

    ghost invariant = { λ a. IsEntry (record { log = a.log; stream = a.stream; number = a.number; time = a.time; ends = a.ends.items; rows = a.rows.items }) };
}

impl Entry {
    /// The entry of these fields, or the first of these faults:
    ///
    /// - `BadNumber`: the number is 0, or above the time;
    /// - `BadCount`: there are more than 1,024 ends, or more than 1,024 rows, or neither;
    /// - `BadOrder`: the ends or the rows do not rise strictly by table and key;
    /// - `BadNumber`: an end was born at 0, or not before the time.
    ///
    /// The lists are moved in, and dropped with a fault. Cost: O(w), w ends and rows.
    pub fn new(
        log: u64,
        stream: StreamNo,
        number: u64,
        time: Time,
        ends: Vec<VersionKey>,
        rows: Vec<(Table, Key, Row)>,
    ) -> Result<Entry, FormFault>
        ensures { result ≡ checked_entry (entry_value log stream number time ends.items rows.items) }
    {
        if number < 1 || number > time.number() {
            return Err(FormFault::BadNumber);
        }
        if ends.len() > MOST_WRITES || rows.len() > MOST_WRITES {
            return Err(FormFault::BadCount);
        }
        if ends.is_empty() && rows.is_empty() {
            return Err(FormFault::BadCount);
        }
        if !ends_rise(&ends) || !rows_rise(&rows) {
            return Err(FormFault::BadOrder);
        }
        if !were_born(&ends, time) {
            return Err(FormFault::BadNumber);
        }
        let _in_range = stream.number();
        Ok(Entry {
            log,
            stream,
            number,
            time,
            ends,
            rows,
        })
    }

    /// The entry of fields that are known to make one, with no test.
    pub fn of_parts(
        log: u64,
        stream: StreamNo,
        number: u64,
        time: Time,
        ends: Vec<VersionKey>,
        rows: Vec<(Table, Key, Row)>,
    ) -> Entry
        requires { IsEntry (entry_value log stream number time ends.items rows.items) }
        ensures { result ≡ entry_value log stream number time ends.items rows.items }
    {
        Entry {
            log,
            stream,
            number,
            time,
            ends,
            rows,
        }
    }

    /// The id of the log.
    pub fn log(&self) -> u64
        ensures { result ≡ self.now.log }
    {
        self.log
    }

    /// The stream of the log.
    pub fn stream(&self) -> StreamNo
        ensures { result ≡ self.now.stream }
    {
        self.stream
    }

    /// Which entry of its stream it is, from 1 to its time.
    pub fn number(&self) -> u64
        ensures value { result ≡ self.now.number }
        ensures lawful { IsEntry self.now }
    {
        self.number
    }

    /// The time of the commit, at least 1.
    pub fn time(&self) -> Time
        ensures { result ≡ self.now.time }
    {
        self.time
    }

    /// The versions that it ended, at most `MOST_WRITES`, in rising order of table and key. Each was born at 1
    /// or later and before the time.
    pub fn ends(&self) -> &[VersionKey]
        ensures value { result.now ≡ self.now.ends }
        ensures lawful { IsEntry self.now }
    {
        self.ends.as_slice()
    }

    /// The rows that it put in, at most `MOST_WRITES`, in rising order of table and key.
    pub fn rows(&self) -> &[(Table, Key, Row)]
        ensures value { result.now ≡ self.now.rows }
        ensures lawful { IsEntry self.now }
    {
        self.rows.as_slice()
    }

    /// The versions that it ended and the rows that it put in, moved out of it: no body is copied.
    pub fn into_writes(self) -> Writes
        ensures ends { result.0.items ≡ self.ends }
        ensures rows { result.1.items ≡ self.rows }
    {
        (self.ends, self.rows)
    }

    /// The same entry again, its rows copied. The only error is out of memory. Cost: O(w + b), w ends and
    /// rows, b bytes of bodies.
    pub fn copy(&self, alloc: Global) -> Result<Entry, AllocError>
        ensures { IfOk result (λ entry. entry ≡ self.now) }
    {
        let ends = Vec::from_slice(alloc, &self.ends)?;
        let rows = copied_rows(alloc, &self.rows)?;
        Ok(Entry {
            log: self.log,
            stream: self.stream,
            number: self.number,
            time: self.time,
            ends,
            rows,
        })
    }
}

fn copied_rows(
    alloc: Global,
    rows: &[(Table, Key, Row)],
) -> Result<Vec<(Table, Key, Row)>, AllocError>
    ensures { IfOk result (λ copies. copies.items ≡ rows.now) }
{
    let mut copies = Vec::with_capacity(alloc, rows.len())?;
    for (table, key, row) in rows {
        copies.push((*table, *key, row.copy(alloc)?))?;
    }
    Ok(copies)
}

impl PartialEq for Entry {
    ghost use Rattle.hk_log.specs.SameItems.{same_entry, same_entry_per};

    ghost eq = { same_entry };

    ghost laws = { same_entry_per };

    fn eq(&self, other: &Entry) -> bool {
        self.log == other.log
            && self.stream == other.stream
            && self.number == other.number
            && self.time == other.time
            && self.ends == other.ends
            && self.rows == other.rows
    }
}

impl Eq for Entry {
    ghost use Rattle.hk_log.specs.SameItems.{same_entry_equiv};

    ghost laws = { same_entry_equiv };
}
