//! A reader of what `save` wrote, which compares the checksums.

ghost use Rattle.std.specs.Prelude.{◌≡◌, ◌≤◌, ◌↔◌, length, IsNone};

use crate::checksum::{Checksum, SUM_FORMAT, SUM_FRAME_BYTES, Sum};
use crate::pieces::{MOST_READS, PIECE_BYTES};
use std::alloc::{AllocError, Global};
use std::io;
use std::io::{ErrorKind, Read};

/// How many bytes of a frame say what it is: its length, its version and its kind.
const HEAD_BYTES: usize = 6;

/// How many bytes stand behind the length of a checksum's frame.
const SUM_REST: u32 = 36;

/// What is wrong with the frame of a checksum.
#[derive(Clone, Copy)]
pub enum SumFlaw {
    /// It says another checksum than the frames before it have.
    Other { said: Sum, own: Sum },
    /// It is of another form than `SUM_FORMAT`.
    Form(u16),
    /// Its length is another than such a frame's.
    Length(u32),
    /// The input ends inside it.
    Cut,
}

/// A frame of a checksum that is wrong.
#[derive(Clone, Copy)]
pub struct SumFault {
    /// Which frame of the input it is, counted from 1.
    pub frame: u64,
    /// How many bytes of the input are before it.
    pub byte: u64,
    pub flaw: SumFlaw,
}

/// A number of two bytes at a place; 0 where they aren't there.
fn u16_at(bytes: &[u8], at: usize) -> u16 {
    match bytes.get(at..).and_then(|rest| rest.first_chunk::<2>()) {
        Some(found) => u16::from_be_bytes(*found),
        None => 0,
    }
}

/// The length that a frame's first bytes say; 0 where they aren't there.
fn length_of(head: &[u8]) -> u32 {
    match head.first_chunk::<4>() {
        Some(found) => u32::from_be_bytes(*found),
        None => 0,
    }
}

/// Whether a frame's first bytes say that it has a checksum.
fn is_sum(head: &[u8]) -> bool {
    head.get(4) == Some(&2) && head.get(5) == Some(&127)
}

/// The checksum that such a frame says; of one that is cut off, zeros.
fn said_of(frame: &[u8]) -> Sum {
    match frame.last_chunk::<32>() {
        Some(said) => *said,
        None => [0; 32],
    }
}

/// What is wrong with a checksum of this form, where the frames before it have their own.
fn flaw_of(form: u16, said: Sum, own: Sum) -> Option<SumFlaw>
    ensures { IsNone result ↔ (form ≡ SUM_FORMAT × said ≡ own) }
{
    if form != SUM_FORMAT {
        return Some(SumFlaw::Form(form));
    }
    if said == own {
        return None;
    }
    Some(SumFlaw::Other { said, own })
}

/// Where a reading is in its frames.
#[derive(Drop)]
struct Frames {
    /// What came of a frame that isn't known yet, or of one of a checksum.
    held: Vec<u8>,
    /// How many bytes of the frame go on.
    left: u64,
    /// How many frames began, and how many bytes went on or were compared.
    count: u64,
    bytes: u64,
    checksum: Checksum,
    /// Whether frames went on behind the last checksum.
    is_open: bool,
    /// What goes on.
    passed: Vec<u8>,
    /// What is wrong, once that is known.
    fault: Option<SumFault>,
}

impl Frames {
    fn new(alloc: Global) -> Frames {
        Frames {
            held: Vec::new(alloc),
            left: 0,
            count: 0,
            bytes: 0,
            checksum: Checksum::new(),
            is_open: false,
            passed: Vec::new(alloc),
            fault: None,
        }
    }

    /// Keeps what is wrong with the frame that is held.
    fn fail(&mut self, flaw: SumFlaw) -> io::Result<()> {
        self.fault = Some(SumFault {
            frame: self.count.saturating_add(1),
            byte: self.bytes,
            flaw,
        });
        Err(ErrorKind::InvalidData.into())
    }

    /// Hands bytes on.
    fn pass(&mut self, bytes: &[u8]) -> Result<(), AllocError> {
        self.checksum.add(bytes);
        self.bytes = self.bytes.saturating_add(bytes.len() as u64);
        self.is_open = true;
        self.passed.extend_from_slice(bytes)
    }

    /// Hands on what is held, as the beginning of a frame of this length. What is no length leaves it to who reads on to say so.
    fn pass_head(&mut self) -> Result<(), AllocError> {
        self.left = match u64::from(length_of(&self.held)) {
            0 | 1 => u64::MAX,
            rest => rest - 2,
        };
        self.count = self.count.saturating_add(1);
        self.pass_held()
    }

    fn pass_held(&mut self) -> Result<(), AllocError> {
        let held = std::mem::replace(&mut self.held, Vec::new(*self.passed.allocator()));
        self.pass(&held)
    }

    /// Compares the checksum that is held with that of the frames before it.
    fn compare(&mut self) -> io::Result<()> {
        let own = self.checksum.take();
        let form = u16_at(&self.held, HEAD_BYTES);
        if let Some(flaw) = flaw_of(form, said_of(&self.held), own) {
            return self.fail(flaw);
        }
        self.count = self.count.saturating_add(1);
        self.bytes = self.bytes.saturating_add(self.held.len() as u64);
        self.is_open = false;
        self.held.clear();
        Ok(())
    }

    /// What becomes of what is held.
    fn decide(&mut self) -> io::Result<()> {
        if self.held.len() < HEAD_BYTES {
            return Ok(());
        }
        if !is_sum(&self.held) {
            self.pass_head()?;
            return Ok(());
        }
        let length = length_of(&self.held);
        if length != SUM_REST {
            return self.fail(SumFlaw::Length(length));
        }
        if self.held.len() < SUM_FRAME_BYTES {
            return Ok(());
        }
        self.compare()
    }

    /// How many bytes are held before it is decided what becomes of them.
    fn wanted(&self) -> usize {
        if self.held.len() < HEAD_BYTES {
            HEAD_BYTES
        } else {
            SUM_FRAME_BYTES
        }
    }

    /// Takes the first of these bytes, and returns how many.
    fn step(&mut self, bytes: &[u8]) -> io::Result<usize> {
        let left = usize::try_from(self.left).unwrap_or(usize::MAX);
        if left > 0 {
            let front = bytes.get(..left).unwrap_or(bytes);
            self.left = self.left.saturating_sub(front.len() as u64);
            self.pass(front)?;
            return Ok(front.len());
        }
        let wanted = self.wanted().saturating_sub(self.held.len());
        let front = bytes.get(..wanted).unwrap_or(bytes);
        self.held.extend_from_slice(front)?;
        self.decide()?;
        Ok(front.len())
    }

    /// Takes these bytes.
    fn take(&mut self, bytes: &[u8]) -> io::Result<()> {
        let mut rest = bytes;
        for _ in 0..bytes.len() {
            if rest.is_empty() {
                break;
            }
            let count = self.step(rest)?;
            rest = rest.get(count..).unwrap_or(&[]);
        }
        Ok(())
    }

    /// Takes the end of the input. What isn't known to be a checksum's is handed on.
    fn end(&mut self) -> io::Result<()> {
        if is_sum(&self.held) {
            return self.fail(SumFlaw::Cut);
        }
        if !self.held.is_empty() {
            self.pass_held()?;
        }
        Ok(())
    }
}

/// A reader of the frames of another without those of checksums, each of which is compared with the frames since the one before it.
/// Where one is wrong, what came before it is read first; then each read fails, and `fault` says why. It keeps 65,536
/// bytes. Cost: O(n), n bytes of the input.
#[derive(Drop)]
pub struct Summed<I: Drop> {
    input: I,
    piece: Vec<u8>,
    frames: Frames,
    /// How many of the bytes that go on were read.
    given: usize,
}

impl<I: Read + Drop> Summed<I> {
    /// A reader of the frames of this one. The only error is out of memory. Cost: O(1).
    pub fn new(alloc: Global, input: I) -> Result<Summed<I>, AllocError> {
        Ok(Summed {
            input,
            piece: vec![in alloc; 0u8; PIECE_BYTES]?,
            frames: Frames::new(alloc),
            given: 0,
        })
    }

    /// What is wrong with a checksum that was read, if one is. Cost: O(1).
    pub fn fault(&self) -> Option<SumFault> {
        self.frames.fault
    }

    /// Whether frames were read behind the last checksum, or without one. Cost: O(1).
    pub fn is_open(&self) -> bool {
        self.frames.is_open
    }

    /// Takes the first bytes of the piece.
    fn take_piece(&mut self, count: usize) -> io::Result<()> {
        match self.piece.get(..count) {
            Some(bytes) => self.frames.take(bytes),
            None => Ok(()),
        }
    }

    /// Reads the next bytes of the input, and returns whether there were any.
    fn fill_once(&mut self) -> io::Result<bool> {
        let count = self.input.read(self.piece.as_mut_slice())?;
        if count == 0 {
            self.frames.end()?;
            return Ok(false);
        }
        let taken = self.take_piece(count);
        if self.frames.fault.is_some() {
            // what came before it goes on first
            return Ok(true);
        }
        taken?;
        Ok(true)
    }

    /// Reads until bytes go on, or the input ends.
    fn fill(&mut self) -> io::Result<()> {
        for _ in 0..MOST_READS {
            let has_more = self.fill_once()?;
            if !has_more || self.frames.fault.is_some() || !self.frames.passed.is_empty() {
                return Ok(());
            }
        }
        Err(ErrorKind::Other.into())
    }

    /// Makes room for what goes on next, where all of it was read.
    fn refill(&mut self) -> io::Result<()> {
        if self.given < self.frames.passed.len() {
            return Ok(());
        }
        self.given = 0;
        self.frames.passed.clear();
        if self.frames.fault.is_none() {
            self.fill()?;
        }
        if self.frames.passed.is_empty() && self.frames.fault.is_some() {
            return Err(ErrorKind::InvalidData.into());
        }
        Ok(())
    }
}

/// Copies the first of these bytes, as many as there is room for, and returns how many.
fn copied(bytes: &[u8], room: &mut [u8]) -> usize
    ensures { result ≤ length room.new }
{
    let count = bytes.len().min(room.len());
    room[..count].copy_from_slice(&bytes[..count]);
    count
}

impl<I: Read + Drop> Read for Summed<I> {
    fn read(&mut self, buf: &mut [u8]) -> io::Result<usize> {
        self.refill()?;
        let count = match self.frames.passed.get(self.given..) {
            Some(rest) => copied(rest, buf),
            None => 0,
        };
        self.given = self.given.saturating_add(count);
        Ok(count)
    }
}
