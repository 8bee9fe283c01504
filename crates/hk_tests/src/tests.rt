//! Worked examples, and what no command shows.

mod batch;
mod node;
mod parts;
mod primary;
mod session;
mod values;

use crate::tests::values::{entry, mark};
use hk_log::Item;
use std::alloc::Global;
use std::test::Fail;

/// Of log 7 with two streams the items 1 to 4 are entries, 5 and 6 the marks of both streams; 7 is like 1 with another
/// body, 8 is of another log. 9 is the second entry of the worked frames, and 10 the mark of both.
fn item(alloc: Global, name: u8) -> Result<Item, Fail> {
    let item = match name {
        1 => entry(alloc, 7, (1, 1, 1), (None, Some((5, &[0x41])))),
        2 => entry(alloc, 7, (2, 1, 2), (None, Some((6, &[0x42])))),
        3 => entry(alloc, 7, (1, 2, 3), (Some((5, 1)), Some((5, &[0x43])))),
        4 => entry(alloc, 7, (2, 2, 4), (Some((6, 2)), None)),
        5 => mark(1, 2, 4),
        6 => mark(2, 2, 4),
        7 => entry(alloc, 7, (1, 1, 1), (None, Some((5, &[0x99])))),
        8 => entry(alloc, 8, (1, 1, 1), (None, Some((5, &[0x41])))),
        9 => entry(alloc, 7, (1, 2, 2), (Some((5, 1)), Some((5, &[0x42])))),
        _ => mark(1, 2, 2),
    };
    Ok(item?)
}

/// The items of these names.
fn items(alloc: Global, names: &[u8]) -> Result<Vec<Item>, Fail> {
    let mut items = Vec::new(alloc);
    for name in names {
        items.push(item(alloc, *name)?)?;
    }
    Ok(items)
}
