//! A log in a file that grows, as far as FILE.sums beside it reaches.

ghost use Rattle.std.specs.Prelude.{◌≤◌, length};

use crate::sum_line::{BlockEnd, end_of, line_of};
use crate::whole_file::{folder_of, is_at};
use std::alloc::Global;
use std::fs::{File, Files};
use std::io::{ErrorKind, Read};
use std::os::unix::fs::FileExt;
use std::rt::Clock;
use std::time::Duration;
use std::{fs, io, thread};

/// What stands behind a log's name in that of its checksums.
const SUMS: &str = ".sums";

/// How many bytes a line of the checksums has at most, with its line feed.
const MOST_LINE: usize = 128;

/// How many bytes a block has at most: those of the longest frame.
const MOST_BLOCK: u64 = 4_233_252;

/// How many bytes a block of several frames has at most.
const MOST_FRAMES: u64 = 65_536;

/// How many bytes of a frame say how long it is, and which version and kind it has.
const HEAD_BYTES: usize = 6;

/// Once blocks have so many bytes they are handed on.
const ENOUGH_BYTES: usize = 1_048_576;

/// How long it sleeps where nothing has come, and how often before it ends.
const PAUSE_MILLIS: u64 = 10;

const MOST_PAUSES: u64 = 100;

/// How often a log is opened whose files are being replaced.
const MOST_TRIES: u64 = 1_000;

/// What is wrong with a log.
#[derive(Clone, Copy)]
pub(crate) enum Flaw {
    /// A line is none of a block.
    Line,
    /// The file ends before a block that has a line does.
    Tail,
    /// A block has another checksum than its line says.
    Sum,
    /// More stands behind the last line than a writer leaves.
    More,
    /// What was read can't be brought to the disk.
    Disk,
    /// It was taken away, or its checksums were.
    Gone,
}

/// The two files of a log.
#[derive(Drop)]
struct Pair {
    file: File,
    sums: File,
}

/// A reader of the blocks of a log that have a line among its checksums, which gives nothing before the disk has it. It ends behind what is
/// there, and where nothing comes for a second; the next read goes on. Where other files have come in the place of these it begins anew.
#[derive(Drop)]
pub(crate) struct Followed<'a, R> {
    rt: &'a R,
    name: &'a str,
    sums_name: String,
    pair: Pair,
    /// Whether the disk has the names of both.
    is_named: bool,
    /// The last line, how many bytes the lines up to there have, and the byte at which its block ends.
    before: Vec<u8>,
    at: u64,
    pub(crate) end: u64,
    /// Blocks that the disk has, and how many of their bytes were given.
    blocks: Vec<u8>,
    given: usize,
    /// What is wrong behind `end`, once that is known.
    pub(crate) flaw: Option<Flaw>,
}

/// How many bytes the frame has that begins so, where that may be an item's; else the longest.
fn frame_bytes(head: &[u8; HEAD_BYTES]) -> u64 {
    let [first, second, third, fourth, version, kind] = *head;
    let size = u64::from(u32::from_be_bytes([first, second, third, fourth])).saturating_add(4);
    if size <= MOST_BLOCK && matches!(version, 1 | 2) && matches!(kind, 1 | 2) {
        size
    } else {
        MOST_BLOCK
    }
}

/// Copies the first of these bytes, as many as there is room for, and returns how many.
fn copied(bytes: &[u8], room: &mut [u8]) -> usize
    ensures { result ≤ length room.new }
{
    let count = bytes.len().min(room.len());
    room[..count].copy_from_slice(&bytes[..count]);
    count
}

/// Opens a log's file, and then its checksums; none where another file came in the place of the first meanwhile.
fn open_once<R: Files<File = File>>(rt: &R, name: &str, sums: &str) -> io::Result<Option<Pair>> {
    let file = fs::open(rt, name)?;
    let sums = fs::open(rt, sums)?;
    if is_at(rt, &file, name)? {
        Ok(Some(Pair { file, sums }))
    } else {
        Ok(None)
    }
}

/// The same, tried again for ten seconds. Where one of them isn't there it is waited for too, if `waits` says so.
fn open_pair<R: Files<File = File> + Clock>(
    rt: &R,
    name: &str,
    sums: &str,
    waits: bool,
) -> io::Result<Pair> {
    for _ in 0..MOST_TRIES {
        match open_once(rt, name, sums) {
            Ok(Some(pair)) => return Ok(pair),
            Ok(None) => {}
            Err(error) if waits && error.kind() == ErrorKind::NotFound => {}
            Err(error) => return Err(error),
        }
        thread::sleep(rt, Duration::from_millis(PAUSE_MILLIS));
    }
    Err(ErrorKind::NotFound.into())
}

impl<'a, R: Files<File = File> + Clock + Alloc<A = Global>> Followed<'a, R> {
    /// A reader of the log in a file of this name, from its begin on.
    pub(crate) fn new(rt: &'a R, name: &'a str) -> io::Result<Followed<'a, R>> {
        let alloc = rt.alloc();
        let sums_name = format!(in alloc; "{name}{SUMS}")?;
        let pair = open_pair(rt, name, sums_name.as_str(), false)?;
        Ok(Followed {
            rt,
            name,
            sums_name,
            pair,
            is_named: false,
            before: Vec::new(alloc),
            at: 0,
            end: 0,
            blocks: Vec::new(alloc),
            given: 0,
            flaw: None,
        })
    }

    /// Begins anew, with the files that have come in the place of these.
    fn begin_anew(&mut self) -> io::Result<()> {
        match open_pair(self.rt, self.name, self.sums_name.as_str(), true) {
            Ok(pair) => self.pair = pair,
            Err(error) => {
                self.flaw = Some(Flaw::Gone);
                return Err(error);
            }
        }
        self.is_named = false;
        self.before.clear();
        self.at = 0;
        self.end = 0;
        Ok(())
    }

    /// Keeps what is wrong.
    fn fail(&mut self, flaw: Flaw) -> io::Result<bool> {
        self.flaw = Some(flaw);
        Err(ErrorKind::InvalidData.into())
    }

    /// Takes the block of a line, which has so many bytes.
    fn take_block(&mut self, line: &[u8], at: BlockEnd, size: usize) -> io::Result<bool> {
        let mut block = vec![in self.rt.alloc(); 0u8; size]?;
        if let Err(error) = self.pair.file.read_exact_at(block.as_mut_slice(), self.end) {
            if error.kind() == ErrorKind::UnexpectedEof {
                return self.fail(Flaw::Tail);
            }
            return Err(error);
        }
        let own = line_of(self.rt.alloc(), at, &self.before, &block)?;
        if own.as_bytes() != line {
            return self.fail(Flaw::Sum);
        }
        self.blocks.extend_from_slice(&block)?;
        self.before.clear();
        self.before.extend_from_slice(line)?;
        self.at = self.at.saturating_add(line.len() as u64);
        self.end = at.end;
        Ok(true)
    }

    /// How many bytes the block of a line has, where it may have so many.
    fn size_of(&self, at: BlockEnd) -> Option<usize> {
        let size = at.end.checked_sub(self.end)?;
        if size == 0 || size > MOST_BLOCK {
            return None;
        }
        usize::try_from(size).ok()
    }

    /// Takes the block of a line.
    fn take_line(&mut self, line: &[u8]) -> io::Result<bool> {
        let Some(at) = end_of(line) else {
            return self.fail(Flaw::Line);
        };
        match self.size_of(at) {
            Some(size) => self.take_block(line, at, size),
            None => self.fail(Flaw::Line),
        }
    }

    /// Whether a line is the last one, and the disk lacks a part of it, as it may where it lost its power.
    fn is_torn(&self, line: &[u8]) -> io::Result<bool> {
        if !line.contains(&0) {
            return Ok(false);
        }
        Ok(self.pair.sums.metadata()?.len() == self.at.saturating_add(line.len() as u64))
    }

    /// Takes the next block, and returns whether there is one: a line that isn't whole is none yet.
    fn take_next(&mut self) -> io::Result<bool> {
        let mut room = [0u8; MOST_LINE];
        let count = self.pair.sums.read_at(&mut room, self.at)?;
        let piece = room.get(..count).unwrap_or(&[]);
        let Some(last) = piece.iter().position(|byte| *byte == b'\n') else {
            if count < MOST_LINE {
                return Ok(false);
            }
            return self.fail(Flaw::Line);
        };
        let line = piece.get(..=last).unwrap_or(&[]);
        if self.is_torn(line)? {
            return Ok(false);
        }
        self.take_line(line)
    }

    /// Takes the blocks that have come, up to so many bytes that they are handed on. What is wrong behind some is left to the next read.
    fn gather(&mut self) -> io::Result<()> {
        for _ in 0..ENOUGH_BYTES {
            if self.blocks.len() >= ENOUGH_BYTES {
                return Ok(());
            }
            match self.take_next() {
                Ok(true) => {}
                Ok(false) => return Ok(()),
                Err(_later) if !self.blocks.is_empty() => {
                    self.flaw = None;
                    return Ok(());
                }
                Err(error) => return Err(error),
            }
        }
        Ok(())
    }

    /// Brings the names of both to the disk, where their folder may be read.
    fn sync_names(&mut self) -> io::Result<()> {
        match fs::open(self.rt, folder_of(self.name)) {
            Ok(folder) => folder.sync_all()?,
            Err(error) if error.kind() == ErrorKind::PermissionDenied => {}
            Err(error) => return Err(error),
        }
        self.is_named = true;
        Ok(())
    }

    /// Brings to the disk what was read, the checksums behind the file: they are of bytes that are there.
    fn sync(&mut self) -> io::Result<()> {
        self.pair.file.sync_data()?;
        self.pair.sums.sync_data()?;
        if self.is_named {
            return Ok(());
        }
        self.sync_names()
    }

    /// How many bytes the block may have that begins behind the last one: where an item begins there, those of a frame.
    fn next_bytes(&self) -> io::Result<u64> {
        let mut head = [0u8; HEAD_BYTES];
        self.pair.file.read_exact_at(&mut head, self.end)?;
        let least = if self.end > 0 { MOST_FRAMES } else { 0 };
        Ok(frame_bytes(&head).max(least))
    }

    /// Whether more stands behind the last line than a writer leaves, of a file of so many bytes: one block.
    fn is_too_much(&self, size: u64) -> bool {
        let rest = size.saturating_sub(self.end);
        // (where no head of a frame is there whole, it is less)
        match self.next_bytes() {
            Ok(most) => rest > most,
            Err(_cut) => false,
        }
    }

    /// Waits where nothing has come, of a file that had so many bytes before it was looked for.
    fn pause(&mut self, size: u64) -> io::Result<()> {
        if !is_at(self.rt, &self.pair.sums, self.sums_name.as_str())? {
            return self.begin_anew();
        }
        if self.is_too_much(size) {
            let _failed = self.fail(Flaw::More)?;
        }
        thread::sleep(self.rt, Duration::from_millis(PAUSE_MILLIS));
        Ok(())
    }

    /// Takes blocks and brings them to the disk, and returns whether there are any.
    fn fill_once(&mut self) -> io::Result<bool> {
        let size = self.pair.file.metadata()?.len();
        self.gather()?;
        if self.blocks.is_empty() {
            self.pause(size)?;
            return Ok(false);
        }
        let synced = self.sync();
        if synced.is_err() {
            self.blocks.clear();
            return self.fail(Flaw::Disk);
        }
        Ok(true)
    }

    /// Waits for blocks, for a second.
    fn fill(&mut self) -> io::Result<()> {
        for _ in 0..MOST_PAUSES {
            if self.fill_once()? {
                return Ok(());
            }
        }
        Ok(())
    }

    /// Whether all blocks were given; then they go.
    fn is_over(&mut self) -> bool {
        if self.blocks.is_empty() || self.given < self.blocks.len() {
            return false;
        }
        self.blocks.clear();
        self.given = 0;
        true
    }
}

impl<R: Files<File = File> + Clock + Alloc<A = Global>> Read for Followed<'_, R> {
    fn read(&mut self, buf: &mut [u8]) -> io::Result<usize> {
        if self.is_over() {
            return Ok(0);
        }
        if self.blocks.is_empty() {
            self.fill()?;
        }
        let count = match self.blocks.get(self.given..) {
            Some(rest) => copied(rest, buf),
            None => 0,
        };
        self.given = self.given.saturating_add(count);
        Ok(count)
    }
}
