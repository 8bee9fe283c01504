//! What was read of a connection, and waits before its session.

ghost use Rattle.std.specs.Prelude.{◌≡◌, ◌≤◌, ◌==◌, [], ◌++◌, true, false, length, drop};

use std::alloc::Global;
use std::marker::Model;

/// Bytes that were read and aren't handed to the session yet, since others have their turn first, an Await is before them, or another
/// worker has to answer them. Contracts see it as these bytes.
#[derive(Drop)]
pub struct Rest {
    alloc: Global,
    bytes: Vec<u8>,
    /// How many of them were handed on.
    passed: usize,
}

impl Model for Rest {
    ghost use Rattle.std.specs.Prelude.{◌≤◌, List, ℕ, length, drop};
    ghost use Rattle.std.specs.Coded.{coded_list, coded_ℕ};

    ghost Value = { List ℕ };

    ghost coded = { coded_list coded_ℕ };

    ghost view = { λ r. drop r.passed r.bytes.items };

    ghost invariant = { λ r. r.passed ≤ length r.bytes.items };
}

impl Rest {
    /// Nothing waits.
    pub fn new(alloc: Global) -> Rest
        ensures { result ≡ [] }
    {
        Rest {
            alloc,
            bytes: Vec::new(alloc),
            passed: 0,
        }
    }

    /// How many bytes wait. Cost: O(1).
    pub fn len(&self) -> usize
        ensures { result ≡ length self.now }
    {
        self.bytes.len() - self.passed
    }

    /// Whether none do. Cost: O(1).
    pub fn is_empty(&self) -> bool
        ensures { result ≡ (length self.now == 0) }
    {
        self.len() == 0
    }

    /// Has these bytes wait behind those that do. Returns false where memory runs out for them: then nothing changed. Cost: O(n), n
    /// bytes.
    pub fn put(&mut self, bytes: &[u8]) -> bool
        ensures all { result ≡ true → self.new ≡ self.old ++ bytes.now }
        ensures none { result ≡ false → self.new ≡ self.old }
    {
        self.bytes.extend_from_slice(bytes).is_ok()
    }

    /// The bytes that wait, which the caller may change where they stand: those of the buffer from this place on. Cost: O(1).
    pub fn into_parts(self) -> (Vec<u8>, usize)
        ensures bytes { drop result.1 result.0.items ≡ self }
        ensures inside { result.1 ≤ length result.0.items }
    {
        (self.bytes, self.passed)
    }

    /// Those of a buffer wait that stand from a place on. Where none do, its room is given back. Cost: O(1).
    pub fn of(alloc: Global, bytes: Vec<u8>, passed: usize) -> Rest
        requires { passed ≤ length bytes.items }
        ensures { result ≡ drop passed bytes.items }
    {
        if passed == bytes.len() {
            return Rest::new(alloc);
        }
        Rest {
            alloc,
            bytes,
            passed,
        }
    }

    /// Drops what waits. Cost: O(1).
    pub fn drop_all(&mut self)
        ensures { self.new ≡ [] }
    {
        self.bytes = Vec::new(self.alloc);
        self.passed = 0;
    }
}
