//! Numbers in words.

use hk_cli_reasons::{Place, put_known};
use std::alloc::Global;

/// What a number means and what to do, in a line; an empty one where no refusal has it, or memory ran out.
pub(crate) fn line_of(alloc: Global, number: u8) -> String {
    let mut line = String::new(alloc);
    match put_known(Place::Whole, "refused", number, &mut line) {
        Ok(()) => line,
        Err(_memory) => String::new(alloc),
    }
}
