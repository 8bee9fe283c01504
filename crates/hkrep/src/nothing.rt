//! Whether a file that `save` wrote has nothing.

use std::alloc::Global;
use std::fs::Files;
use std::io::{ErrorKind, Read};
use std::{fs, io};

/// The most bytes of a snapshot of a node that has nothing: its head, what it has of each of 64 streams, the count of its facts, and the
/// frame of its checksum.
const MOST_BYTES: usize = 32 + 24 * 64 + 4 + 40;

/// At which byte of a snapshot's frame its numbers begin, behind its log and how many streams it has.
const NUMBERS: usize = 16;

/// The first bytes of a file, up to one more than `MOST_BYTES`; none where it isn't there.
fn head_of<R: Files + Alloc<A = Global>>(rt: &R, name: &str) -> io::Result<Vec<u8>> {
    let mut head = Vec::new(rt.alloc());
    match fs::open(rt, name) {
        Ok(file) => {
            let _count = file.take(MOST_BYTES as u64 + 1).read_to_end(&mut head)?;
            Ok(head)
        }
        Err(error) if error.kind() == ErrorKind::NotFound => Ok(head),
        Err(error) => Err(error),
    }
}

/// How many bytes the first frame has; 0 where they can't be known.
fn length_of(bytes: &[u8]) -> usize {
    match bytes.first_chunk::<4>() {
        Some(rest) => (u32::from_be_bytes(*rest) as usize).saturating_add(4),
        None => 0,
    }
}

/// Whether bytes are the snapshot of a node that has nothing: in one frame, all of whose numbers are 0.
fn is_nothing(bytes: &[u8]) -> bool {
    if bytes.len() > MOST_BYTES || bytes.get(4) != Some(&1) || bytes.get(5) != Some(&22) {
        return false;
    }
    match bytes.get(NUMBERS..length_of(bytes)) {
        Some(numbers) => numbers.iter().all(|byte| *byte == 0),
        None => false,
    }
}

/// Whether a file isn't there, is empty, or is the snapshot of a node that has nothing.
pub(crate) fn has_nothing<R: Files + Alloc<A = Global>>(rt: &R, name: &str) -> io::Result<bool> {
    let head = head_of(rt, name)?;
    Ok(head.is_empty() || is_nothing(&head))
}
