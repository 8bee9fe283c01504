//! Fields, read from the front of bytes.

ghost use Rattle.std.specs.Prelude.{◌≡◌, ◌≤◌, ◌==◌, length, IfOk, OnErr};
ghost use Rattle.std.specs.Int.{w16, w32, w64};
ghost use Rattle.hk_frames.specs.Fields as spec;

use hk_types::{FormFault, MOST_BODY_BYTES, Refusal, Row, Tag};
use std::alloc::{AllocError, AllocFailed, Global};
use std::marker::Model;

/// Why a reader that allocates returned nothing.
#[derive(Clone, Copy, Debug, PartialEq, Eq)]
pub enum ReadError {
    /// A growth was refused.
    Memory,
    /// The bytes have this fault.
    Fault(FormFault),
}

impl From<FormFault> for ReadError {
    ghost use Rattle.hk_frames.specs.declared.cursor.ReadError.TheVariants.{Fault};

    ghost from_gives = { λ f e. e ≡ Fault f };

    fn from(fault: FormFault) -> ReadError {
        ReadError::Fault(fault)
    }
}

impl From<AllocError> for ReadError {
    ghost use Rattle.hk_frames.specs.declared.cursor.ReadError.TheVariants.{Memory};

    ghost from_gives = { λ _ e. e ≡ Memory };

    fn from(_e: AllocError) -> ReadError {
        ReadError::Memory
    }
}

impl<T: Drop> From<AllocFailed<T>> for ReadError {
    ghost use Rattle.hk_frames.specs.declared.cursor.ReadError.TheVariants.{Memory};

    ghost from_gives = { λ _ e. e ≡ Memory };

    fn from(_e: AllocFailed<T>) -> ReadError {
        ReadError::Memory
    }
}

/// Reads fields from the front of bytes, one after the other. It borrows the bytes and copies none of them.
#[derive(Debug, Drop)]
pub struct Cursor<'a> {
    rest: &'a [u8],
}

impl<'a> Model for Cursor<'a> {
    ghost use Rattle.std.specs.Prelude.{List, ℕ};

    ghost Value = { List ℕ };

    ghost view = { λ a. a.rest.now };
}

impl<'a> Cursor<'a> {
    /// A cursor at the start of the bytes.
    pub fn new(bytes: &'a [u8]) -> Cursor<'a>
        ensures { result ≡ bytes.now }
    {
        Cursor { rest: bytes }
    }

    /// How many bytes are left.
    pub fn len(&self) -> usize
        ensures { result ≡ length self.now }
    {
        self.rest.len()
    }

    /// Whether no byte is left.
    pub fn is_empty(&self) -> bool
        ensures { result ≡ (length self.now == 0) }
    {
        self.rest.is_empty()
    }

    /// The bytes that are left.
    pub fn rest(&self) -> &'a [u8]
        ensures { result.now ≡ self.now }
    {
        self.rest
    }

    /// Reads so many bytes. Where fewer are left the fault is a wrong length, and nothing is read.
    #[tactic(auto, unfolding(crate::specs::Fields::bytes_at))]
    #[inline(always)]
    pub fn bytes(&mut self, count: usize) -> Result<&'a [u8], FormFault>
        ensures read { spec.GivesValue (λ x. (x.now, self.new)) result (spec.bytes_at count self.old) }
        ensures len { IfOk result (λ x. length x.now ≡ count) }
        ensures err { OnErr result (self.new ≡ self.old) }
    {
        if self.rest.len() < count {
            return Err(FormFault::WrongLength);
        }
        let (field, rest) = self.rest.split_at(count);
        self.rest = rest;
        Ok(field)
    }

    /// Reads a byte. Where none is left the fault is a wrong length.
    #[tactic(auto, unfolding(crate::specs::Fields::byte_at))]
    #[inline(always)]
    pub fn u8(&mut self) -> Result<u8, FormFault>
        ensures read { spec.GivesValue (λ x. (x, self.new)) result (spec.byte_at self.old) }
        ensures err { OnErr result (self.new ≡ self.old) }
    {
        match self.rest {
            [] => Err(FormFault::WrongLength),
            [byte, rest @ ..] => {
                self.rest = rest;
                Ok(*byte)
            }
        }
    }

    /// Reads a number of two bytes, the high one first. Where they are not there the fault is a wrong
    /// length, and nothing is read.
    #[tactic(auto, unfolding(crate::specs::Fields::number_at))]
    #[inline(always)]
    pub fn u16(&mut self) -> Result<u16, FormFault>
        ensures read { spec.GivesValue (λ x. (x, self.new)) result (spec.number_at w16 self.old) }
        ensures err { OnErr result (self.new ≡ self.old) }
    {
        if self.rest.len() < 2 {
            return Err(FormFault::WrongLength);
        }
        let (field, rest) = self.rest.split_at(2);
        self.rest = rest;
        Ok(u16::from_be_bytes([field[0], field[1]]))
    }

    /// Reads a number of four bytes, the high one first. Where they are not there the fault is a wrong
    /// length, and nothing is read.
    #[tactic(auto, unfolding(crate::specs::Fields::number_at))]
    #[inline(always)]
    pub fn u32(&mut self) -> Result<u32, FormFault>
        ensures read { spec.GivesValue (λ x. (x, self.new)) result (spec.number_at w32 self.old) }
        ensures err { OnErr result (self.new ≡ self.old) }
    {
        if self.rest.len() < 4 {
            return Err(FormFault::WrongLength);
        }
        let (field, rest) = self.rest.split_at(4);
        self.rest = rest;
        Ok(u32::from_be_bytes([field[0], field[1], field[2], field[3]]))
    }

    /// Reads a number of eight bytes, the high one first. Where they are not there the fault is a wrong
    /// length, and nothing is read.
    #[tactic(auto, unfolding(crate::specs::Fields::number_at))]
    #[inline(always)]
    pub fn u64(&mut self) -> Result<u64, FormFault>
        ensures read { spec.GivesValue (λ x. (x, self.new)) result (spec.number_at w64 self.old) }
        ensures err { OnErr result (self.new ≡ self.old) }
    {
        if self.rest.len() < 8 {
            return Err(FormFault::WrongLength);
        }
        let (field, rest) = self.rest.split_at(8);
        self.rest = rest;
        Ok(u64::from_be_bytes([
            field[0], field[1], field[2], field[3], field[4], field[5], field[6], field[7],
        ]))
    }

    /// Reads a body of at most 4,096 bytes behind its length of two bytes. A length above that is a bad body, and one
    /// above what is left a wrong length. After an error the length may have been read.
    #[tactic(auto, unfolding(crate::specs::Fields::body_at))]
    #[inline(always)]
    pub fn body(&mut self) -> Result<&'a [u8], FormFault>
        ensures read { spec.GivesValue (λ x. (x.now, self.new)) result (spec.body_at self.old) }
        ensures most { IfOk result (λ x. length x.now ≤ 4096) }
    {
        let count = self.u16()? as usize;
        if count > MOST_BODY_BYTES {
            return Err(FormFault::BadBody);
        }
        self.bytes(count)
    }

    /// Reads the body of a row with a tag, as `body` does; copies of the row share it. `Memory` where there is none for
    /// it. Cost: O(n), n bytes of the body, which is copied.
    #[inline(always)]
    pub fn row(&mut self, alloc: Global, tag: Tag) -> Result<Row, ReadError>
        ensures { spec.GivesOrRunsOut (λ row. (row, self.new)) result (spec.row_of tag self.old) }
    {
        let body = self.body()?;
        match Row::of_bytes(alloc, tag, body) {
            Ok(row) => Ok(row),
            Err(Refusal::Form(fault)) => Err(ReadError::Fault(fault)),
            Err(_) => Err(ReadError::Memory),
        }
    }
}
