//! A look ahead of a walk.

use hk_facts::Chain;
use hk_index::RowKey;
use hk_log::Version;
use hk_slots::{Range, SlotMap};

/// So many rows are touched at once.
const ROWS: usize = 16;

/// So many versions of a row are touched.
const VERSIONS: usize = 8;

/// Up to so many slots nothing is touched: a look ahead at a few rows costs more than the waits that it saves.
const FEW: usize = 64;

/// What a walk comes to next, touched before it comes there. In the order of keys each chain, its list and each body is
/// somewhere else in memory, so that the walk would wait for one after the other: touched for many rows at once, these waits
/// go on side by side. The sum of what is read has no meaning; it keeps the compiler from leaving the reads out.
#[derive(Drop)]
pub(crate) struct Ahead<'a> {
    passes: Option<Passes<'a>>,
    /// How many rows come before the next look.
    rows: usize,
    sum: u64,
}

/// The rows that are to be touched: their chains, then the lists of these, then the bodies in them.
#[derive(Drop)]
struct Passes<'a> {
    chains: Range<'a, RowKey, Chain>,
    lists: Range<'a, RowKey, Chain>,
    bodies: Range<'a, RowKey, Chain>,
}

impl<'a> Ahead<'a> {
    /// No look ahead.
    pub(crate) fn nowhere() -> Ahead<'a> {
        Ahead {
            passes: None,
            rows: 0,
            sum: 0,
        }
    }

    /// A look ahead over all rows, unless they are few.
    pub(crate) fn over(chains: &'a SlotMap<RowKey, Chain>) -> Ahead<'a> {
        if chains.slot_bound() <= FEW {
            return Ahead::nowhere();
        }
        Ahead {
            passes: Some(Passes {
                chains: chains.iter(),
                lists: chains.iter(),
                bodies: chains.iter(),
            }),
            rows: 0,
            sum: 0,
        }
    }

    /// Touches the next rows, once for many of them. It promises nothing.
    pub(crate) fn step(&mut self) {
        if self.rows > 0 {
            self.rows -= 1;
            return;
        }
        self.rows = ROWS - 1;
        self.look();
    }

    #[inline(never)]
    fn look(&mut self) {
        let Some(passes) = &mut self.passes else {
            return;
        };
        let chains = touch_chains(&mut passes.chains);
        let lists = touch_lists(&mut passes.lists);
        let bodies = touch_bodies(&mut passes.bodies);
        self.sum = self
            .sum
            .wrapping_add(chains)
            .wrapping_add(lists)
            .wrapping_add(bodies);
    }
}

fn touch_chains(rows: &mut Range<'_, RowKey, Chain>) -> u64 {
    let mut sum = 0u64;
    for _ in 0..ROWS {
        if let Some((_row, chain)) = rows.next() {
            sum = sum.wrapping_add(chain.is_empty() as u64);
        }
    }
    sum
}

fn touch_lists(rows: &mut Range<'_, RowKey, Chain>) -> u64 {
    let mut sum = 0u64;
    for _ in 0..ROWS {
        if let Some((_row, chain)) = rows.next() {
            sum = sum.wrapping_add(first_birth(chain));
        }
    }
    sum
}

fn first_birth(chain: &Chain) -> u64 {
    match chain.next(None) {
        Some((born, _version)) => born.number(),
        None => 0,
    }
}

fn touch_bodies(rows: &mut Range<'_, RowKey, Chain>) -> u64 {
    let mut sum = 0u64;
    for _ in 0..ROWS {
        if let Some((_row, chain)) = rows.next() {
            sum = sum.wrapping_add(first_bytes(chain));
        }
    }
    sum
}

/// The sum of the first bytes of a few bodies of a chain.
fn first_bytes(chain: &Chain) -> u64 {
    let mut sum = 0u64;
    let mut after = None;
    for _ in 0..VERSIONS {
        let Some((born, version)) = chain.next(after) else {
            return sum;
        };
        sum = sum.wrapping_add(first_byte(version));
        after = Some(born);
    }
    sum
}

fn first_byte(version: &Version) -> u64 {
    match version.row() {
        Some(row) => row.body().first().copied().unwrap_or(0) as u64,
        None => 0,
    }
}
