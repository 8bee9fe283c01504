//! Versions by the times of their rows and ends.

ghost use Rattle.std.specs.Prelude.{◌≡◌, ◌∷◌, [], if◌then◌else◌, map, IfOk, IfErr, OnOk};
ghost use Rattle.std.specs.List.Sorted.{IsStrictlySortedBy};
ghost use Rattle.hk_types.specs.declared.faults.Refusal.TheVariants.{Memory};
ghost use Rattle.hk_model.specs.History.Rows.{row_key_cmp};
ghost use Rattle.hk_index.specs.Timed.{StillThere};
ghost use Rattle.hk_facts.specs.Turns.{AreOver};
ghost use Rattle.hk_chains.specs.Indexed.{AreStated};
ghost use Rattle.hk_chains.specs.Stated.{IsStated, found_in, is_sought, sought_among};
ghost use Rattle.hk_chains.specs.Versions.{AddsVersions, AreVersionsOf, borrowed};

use crate::chains::Chains;
use crate::versions::push_borrowed;
use crate::walk::next_of;
use hk_facts::Chain;
use hk_index::{RowKey, Span, TimedRows};
use hk_log::Version;
use hk_types::{Refusal, Time, VersionKey};
use std::alloc::{AllocError, Global};

/// What is looked for: ends in a span of time, and births in it too or not.
#[derive(Clone, Copy)]
pub struct Sought {
    pub span: Span,
    pub births: bool,
}

impl Sought {
    /// Whether a version, which was born then, is.
    fn has(&self, born: Time, known: &Version) -> bool
        ensures { result ≡ is_sought self.now born known.now }
    {
        if self.births && known.row().is_some() && self.span.has(born.number()) {
            return true;
        }
        match known.died() {
            Some(died) => self.span.has(died.number()),
            None => false,
        }
    }
}

/// The versions that are looked for of some rows, which rise, with what is known of them, in rising order. The only error is out of memory.
/// Cost: O(r · log n + v · log v), r rows, n facts, v versions of theirs that aren't over before the span; where those of a row aren't in
/// turn (`Chain::over_before`), all of its versions count.
pub fn sought_of<'a>(
    alloc: Global,
    chains: &'a Chains,
    rows: &[RowKey],
    sought: &Sought,
) -> Result<Vec<(VersionKey, &'a Version)>, AllocError>
    requires { IsStrictlySortedBy row_key_cmp rows.now }
    ensures { IfOk result (λ found.
        AreVersionsOf chains.now (sought_among chains.now sought.now rows.now) (map borrowed found.items)) }
{
    let mut found = Vec::new(alloc);
    for row in rows {
        if let Some(chain) = chains.chain(row.table, row.key) {
            push_sought(&mut found, row, chain, sought)?;
        }
    }
    Ok(found)
}

/// Adds the versions of a row that are looked for. Those of a long chain that are over before the span are passed over.
fn push_sought<'a>(
    found: &mut Vec<(VersionKey, &'a Version)>,
    row: &RowKey,
    chain: &'a Chain,
    sought: &Sought,
) -> Result<(), AllocError>
    ensures { OnOk result (AddsVersions found.old.items found.new.items (found_in row.now sought.now chain.now)) }
{
    let mut after = over_before(chain, sought.span.from);
    while let Some((version, known)) = next_of(row, chain, after) {
        push_if(found, &version, known, sought.has(version.born, known))?;
        after = Some(version.born);
    }
    Ok(())
}

/// A time up to which all versions of a chain are over before the time with a number, where one is known.
fn over_before(chain: &Chain, number: u64) -> Option<Time>
    ensures { AreOver chain.now number result }
{
    match Time::new(number) {
        Ok(time) => chain.over_before(time),
        Err(_above) => None,
    }
}

/// Adds a version, or not.
#[inline(always)]
fn push_if<'a>(
    found: &mut Vec<(VersionKey, &'a Version)>,
    version: &VersionKey,
    known: &'a Version,
    is_sought: bool,
) -> Result<(), AllocError>
    ensures { OnOk result (AddsVersions found.old.items found.new.items
        (if is_sought then (version.now, known.now) ∷ [] else [])) }
{
    if is_sought {
        push_borrowed(found, *version, known)?;
    }
    Ok(())
}

/// The rows by the times at which anything is stated of them. The only refusal is `Memory`. Cost: that of a walk over all versions,
/// and O(log n) for each, n of them.
pub fn rows_by_time(alloc: Global, chains: &Chains) -> Result<TimedRows, Refusal>
    ensures ok { IfOk result (λ stated. AreStated chains.now stated) }
    ensures err { IfErr result (λ why. why ≡ Memory) }
{
    let mut stated = TimedRows::new(alloc);
    for (version, known) in chains.walk() {
        state(&mut stated, &version, known)?;
    }
    Ok(stated)
}

/// Adds the row of a version with the times at which it was born and ended.
fn state(stated: &mut TimedRows, version: &VersionKey, known: &Version) -> Result<(), Refusal>
    ensures ok { OnOk result (IsStated version.now known.now stated.new) }
    ensures kept { StillThere stated.old stated.new }
    ensures err { IfErr result (λ why. why ≡ Memory) }
{
    let row = RowKey::of_version(version);
    stated.add_if(known.row().map(|_row| version.born), row)?;
    stated.add_if(known.died(), row)
}
