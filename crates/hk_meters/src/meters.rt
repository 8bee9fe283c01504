//! What a node counts of its connections.

ghost use Rattle.std.specs.Prelude.{◌≤◌};

use hk_answers::{Metric, metric_names as names};
use hk_budgets::PartsBudget;
use std::alloc::{AllocError, Global};
use std::fs::File;
use std::os::unix::fs::FileExt;
use std::sync::atomic::{AtomicU64, Ordering};

/// How many kinds of requests are counted, and how many numbers of refusals: as many as a byte has.
const KINDS: usize = 256;

/// How many bytes of the system's text on the process are read, and what stands before its memory there.
const TEXT_BYTES: usize = 4_096;

const MEMORY_WORD: &str = "VmRSS:";

/// The connections of a door.
#[derive(Drop)]
struct DoorMeter {
    open: AtomicU64,
    opened: AtomicU64,
    most_open: AtomicU64,
}

impl DoorMeter {
    /// What is counted under this name.
    fn figure(&self, name: u16) -> u64 {
        let word = match name {
            names::OPEN => &self.open,
            names::OPENED => &self.opened,
            _ => &self.most_open,
        };
        word.load(Ordering::SeqCst)
    }
}

/// What a node counts of its connections, in words that all of its threads share, and what it says of itself beside. A count never waits,
/// and no contract says what the words hold.
#[derive(Drop)]
pub struct Meters<'a> {
    /// What connections may make the node keep: all of them, or those that don't only read where the others have a budget of their own.
    shared: &'a PartsBudget,
    readers: Option<&'a PartsBudget>,
    /// The version of the program, as `metric_names::PROGRAM` has it.
    program: u64,
    /// The system's text on the process, where it has one.
    process: Option<File>,
    /// The bytes of address space that the process may take, where that has a limit.
    memory_limit: Option<u64>,
    /// When the node started, and the latest time that was noted, in seconds of one clock.
    started: u64,
    now: AtomicU64,
    requests: Vec<AtomicU64>,
    refusals: Vec<AtomicU64>,
    read: AtomicU64,
    written: AtomicU64,
    failed_accepts: AtomicU64,
    doors: Vec<DoorMeter>,
}

/// So many words that are 0.
fn words(alloc: Global, count: usize) -> Result<Vec<AtomicU64>, AllocError> {
    let mut words = Vec::with_capacity(alloc, count)?;
    for _ in 0..count {
        words.push(AtomicU64::new(0))?;
    }
    Ok(words)
}

/// Adds to the word at a place.
fn add_at(words: &[AtomicU64], place: usize, count: u64) {
    if let Some(word) = words.get(place) {
        word.fetch_add(count, Ordering::SeqCst);
    }
}

/// Adds a metric.
fn put(out: &mut Vec<Metric>, name: u16, label: u16, value: u64) -> Result<(), AllocError> {
    out.push(Metric { name, label, value })?;
    Ok(())
}

/// Adds what was counted of each kind or number that came.
fn put_words(out: &mut Vec<Metric>, name: u16, words: &[AtomicU64]) -> Result<(), AllocError> {
    let mut label = 0u16;
    for word in words {
        let value = word.load(Ordering::SeqCst);
        if value > 0 {
            put(out, name, label, value)?;
        }
        label = label.saturating_add(1);
    }
    Ok(())
}

/// The bytes of memory that the process has, by the system's text on it.
fn memory_of(text: &str) -> Option<u64> {
    for line in text.lines() {
        if let Some(rest) = line.strip_prefix(MEMORY_WORD) {
            let kilobytes = rest.trim().strip_suffix("kB")?.trim().parse::<u64>().ok()?;
            return Some(kilobytes.saturating_mul(1_024));
        }
    }
    None
}

impl<'a> Meters<'a> {
    /// Nothing is counted yet. `shared` is the budget of all doors, or of those that don't only read where `readers` have one of their
    /// own; `process` the system's text on the process, /proc/self/status, where it has one; `memory_limit` the bytes of address space
    /// that it may take, where that has a limit; `started` is in seconds of the clock that `note_time` gets. It takes memory for a word for each kind and refusal, and three for each door.
    pub fn new(
        alloc: Global,
        shared: &'a PartsBudget,
        readers: Option<&'a PartsBudget>,
        program: u64,
        process: Option<File>,
        memory_limit: Option<u64>,
        started: u64,
        doors: usize,
    ) -> Result<Meters<'a>, AllocError> {
        let mut meters = Vec::with_capacity(alloc, doors)?;
        for _ in 0..doors {
            meters.push(DoorMeter {
                open: AtomicU64::new(0),
                opened: AtomicU64::new(0),
                most_open: AtomicU64::new(0),
            })?;
        }
        Ok(Meters {
            shared,
            readers,
            program,
            process,
            memory_limit,
            started,
            now: AtomicU64::new(started),
            requests: words(alloc, KINDS)?,
            refusals: words(alloc, KINDS)?,
            read: AtomicU64::new(0),
            written: AtomicU64::new(0),
            failed_accepts: AtomicU64::new(0),
            doors: meters,
        })
    }

    /// Notes the time, in seconds. Cost: O(1).
    pub fn note_time(&self, seconds: u64) {
        if self.now.load(Ordering::SeqCst) < seconds {
            self.now.fetch_max(seconds, Ordering::SeqCst);
        }
    }

    /// Counts a request of this kind. Cost: O(1).
    pub fn note_request(&self, kind: u8) {
        add_at(&self.requests, usize::from(kind), 1);
    }

    /// Counts a refusal with this number. Cost: O(1).
    pub fn note_refusal(&self, number: u8) {
        add_at(&self.refusals, usize::from(number), 1);
    }

    /// Counts bytes that were read. Cost: O(1).
    pub fn note_read(&self, bytes: u64) {
        self.read.fetch_add(bytes, Ordering::SeqCst);
    }

    /// Counts bytes that were written. Cost: O(1).
    pub fn note_written(&self, bytes: u64) {
        self.written.fetch_add(bytes, Ordering::SeqCst);
    }

    /// Counts a connection that couldn't be accepted. Cost: O(1).
    pub fn note_failed_accept(&self) {
        self.failed_accepts.fetch_add(1, Ordering::SeqCst);
    }

    /// Counts a connection that was opened at a door. Cost: O(1).
    pub fn note_opened(&self, door: usize) {
        if let Some(meter) = self.doors.get(door) {
            meter.opened.fetch_add(1, Ordering::SeqCst);
            let before = meter.open.fetch_add(1, Ordering::SeqCst);
            meter
                .most_open
                .fetch_max(before.saturating_add(1), Ordering::SeqCst);
        }
    }

    /// Counts the end of a connection of a door. Cost: O(1).
    pub fn note_ended(&self, door: usize) {
        if let Some(meter) = self.doors.get(door) {
            meter.open.fetch_sub(1, Ordering::SeqCst);
        }
    }

    /// The bytes of memory that the process has, where the system says so.
    fn memory(&self) -> Option<u64> {
        let process = self.process.as_ref()?;
        let mut text = [0u8; TEXT_BYTES];
        let count = process.read_at(&mut text, 0).ok()?;
        memory_of(str::from_utf8(text.get(..count)?).ok()?)
    }

    /// Adds the budgets, and what is reserved of them.
    fn put_budgets(&self, out: &mut Vec<Metric>) -> Result<(), AllocError> {
        put(out, names::BUDGET, 0, self.shared.most())?;
        if let Some(readers) = self.readers {
            put(out, names::BUDGET, 1, readers.most())?;
        }
        put(out, names::RESERVED, 0, self.shared.reserved())?;
        if let Some(readers) = self.readers {
            put(out, names::RESERVED, 1, readers.reserved())?;
        }
        Ok(())
    }

    /// Adds what is counted of each door under a name.
    fn put_doors(&self, out: &mut Vec<Metric>, name: u16) -> Result<(), AllocError> {
        let mut label = 0u16;
        for meter in self.doors.iter() {
            put(out, name, label, meter.figure(name))?;
            label = label.saturating_add(1);
        }
        Ok(())
    }

    /// What was counted, by rising names and labels; a kind of which no request came is left out, and so is a refusal that never was,
    /// and the memory where it isn't known, and its limit where it has none. Cost: O(d), d doors, and that of reading the system's text on the process.
    pub fn collect(&self, alloc: Global) -> Result<Vec<Metric>, AllocError> {
        let mut out = Vec::new(alloc);
        let seconds = self.now.load(Ordering::SeqCst);
        put(
            &mut out,
            names::SECONDS,
            0,
            seconds.saturating_sub(self.started),
        )?;
        self.put_budgets(&mut out)?;
        if let Some(bytes) = self.memory() {
            put(&mut out, names::MEMORY, 0, bytes)?;
        }
        self.put_doors(&mut out, names::OPEN)?;
        self.put_doors(&mut out, names::OPENED)?;
        self.put_doors(&mut out, names::MOST_OPEN)?;
        put(
            &mut out,
            names::BYTES_READ,
            0,
            self.read.load(Ordering::SeqCst),
        )?;
        put(
            &mut out,
            names::BYTES_WRITTEN,
            0,
            self.written.load(Ordering::SeqCst),
        )?;
        put_words(&mut out, names::REQUESTS, &self.requests)?;
        put_words(&mut out, names::REFUSALS, &self.refusals)?;
        let failed = self.failed_accepts.load(Ordering::SeqCst);
        put(&mut out, names::FAILED_ACCEPTS, 0, failed)?;
        put(&mut out, names::PROGRAM, 0, self.program)?;
        if let Some(bytes) = self.memory_limit {
            put(&mut out, names::MEMORY_LIMIT, 0, bytes)?;
        }
        Ok(out)
    }
}
