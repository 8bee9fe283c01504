//! A fact, read from the front of bytes.

ghost use Rattle.std.specs.Prelude.{◌≡◌};
ghost use Rattle.hk_frames.specs.Fields.{GivesValue, GivesOrRunsOut};
ghost use Rattle.hk_fragment.specs.Parts as parts;
ghost use Rattle.hk_fragment_bytes.specs.Fragments as spec;

use hk_answers::answer::read_row;
use hk_answers::numbers::read_time;
use hk_frames::{Cursor, ReadError};
use hk_log::Version;
use hk_types::{FormFault, Key, Table, Time, VersionKey};
use std::alloc::Global;

/// What is known of a version, by its flags.
const ROW: u8 = 1;

const END: u8 = 2;

const ROW_AND_END: u8 = 3;

/// Whether the version of these fields comes after the one before it, where there is one.
fn follows(before: Option<VersionKey>, table: Table, key: Key, born: u64) -> bool
    ensures { result ≡ parts.follows before (record { table = table; key = key; born = born }) }
{
    let Some(last) = before else {
        return true;
    };
    if last.table != table {
        return last.table < table;
    }
    if last.key != key {
        return last.key < key;
    }
    last.born.number() < born
}

/// Reads the name of a version, after the one before it.
#[tactic(auto, unfolding(crate::specs::Fragments::version_at))]
fn read_version(cursor: &mut Cursor, before: Option<VersionKey>) -> Result<VersionKey, FormFault>
    ensures { GivesValue (λ x. (x, cursor.new)) result (spec.version_at before cursor.old) }
{
    let table = Table::new(cursor.u16()?);
    let key = Key::new(cursor.u64()?);
    let born = cursor.u64()?;
    if !follows(before, table, key, born) {
        return Err(FormFault::BadOrder);
    }
    if born < 1 {
        return Err(FormFault::BadNumber);
    }
    let born = Time::new(born)?;
    Ok(VersionKey { table, key, born })
}

/// Reads an end above the base, the horizon and the birth of its version.
fn read_died(cursor: &mut Cursor, base: Time, horizon: Time, born: Time) -> Result<Time, FormFault>
    ensures { GivesValue (λ x. (x, cursor.new)) result (spec.died_at base horizon born cursor.old) }
{
    let died = read_time(cursor)?;
    let above = base.number() < died.number()
        && horizon.number() < died.number()
        && born.number() < died.number();
    if !above {
        return Err(FormFault::BadNumber);
    }
    Ok(died)
}

/// Reads what is known of a version, by its flags.
#[tactic(auto, unfolding(crate::specs::Fragments::known_of))]
fn read_known(
    alloc: Global,
    cursor: &mut Cursor,
    base: Time,
    horizon: Time,
    born: Time,
    flags: u8,
) -> Result<Version, ReadError>
    ensures { GivesOrRunsOut (λ x. (x, cursor.new)) result (spec.known_of base horizon born flags cursor.old) }
{
    if flags == END {
        let died = read_died(cursor, base, horizon, born)?;
        return Ok(Version::of_end(died));
    }
    if born.number() <= base.number() {
        return Err(ReadError::Fault(FormFault::BadNumber));
    }
    match flags {
        ROW => {
            let row = read_row(alloc, cursor)?;
            Ok(Version::of_row(row))
        }
        ROW_AND_END => {
            let row = read_row(alloc, cursor)?;
            let died = read_died(cursor, base, horizon, born)?;
            let mut version = Version::of_row(row);
            version.set_died(died);
            Ok(version)
        }
        _ => Err(ReadError::Fault(FormFault::BadNumber)),
    }
}

/// Reads a fact after the version before it.
#[tactic(auto, unfolding(crate::specs::Fragments::fact_at))]
pub fn read_fact(
    alloc: Global,
    cursor: &mut Cursor,
    base: Time,
    horizon: Time,
    before: Option<VersionKey>,
) -> Result<(VersionKey, Version), ReadError>
    ensures { GivesOrRunsOut (λ x. (x, cursor.new)) result (spec.fact_at base horizon before cursor.old) }
{
    let version = read_version(cursor, before)?;
    let flags = cursor.u8()?;
    let known = read_known(alloc, cursor, base, horizon, version.born, flags)?;
    Ok((version, known))
}
