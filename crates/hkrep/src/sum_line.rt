//! A line of FILE.sums, beside a log in a file.

use hk_cli_input::Checksum;
use std::alloc::{AllocError, Global};

/// What a line says of its block.
#[derive(Clone, Copy)]
pub(crate) struct BlockEnd {
    /// The byte at which it ends.
    pub(crate) end: u64,
    /// The number of the last entry up to there.
    pub(crate) last: u64,
}

/// What a line says, if it is one. Its checksum isn't looked at.
pub(crate) fn end_of(line: &[u8]) -> Option<BlockEnd> {
    let text = str::from_utf8(line).ok()?;
    let (end, rest) = text.split_once(' ')?;
    let (last, _sum) = rest.split_once(' ')?;
    Some(BlockEnd {
        end: end.parse::<u64>().ok()?,
        last: last.parse::<u64>().ok()?,
    })
}

/// The line of a block that ends there, behind the line before it.
pub(crate) fn line_of(
    alloc: Global,
    at: BlockEnd,
    before: &[u8],
    block: &[u8],
) -> Result<String, AllocError> {
    let mut checksum = Checksum::new();
    checksum.add(before);
    checksum.add(block);
    let sum = checksum.take();
    let digits = hex::encode(alloc, sum.as_slice())?;
    format!(in alloc; "{} {} {digits}\n", at.end, at.last)
}
