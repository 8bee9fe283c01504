//! Queries as bytes.

ghost use Rattle.std.specs.Prelude.{◌≡◌, ◌≤◌, ◌++◌, length, take, OnOk, OnErr};
ghost use Rattle.hk_frames.specs.Fields.{GivesValue};
ghost use Rattle.hk_answers.specs.Queries as spec;

use crate::field_len::{key_len, table_len, tag_len};
use hk_frames::{Cursor, put_u16, put_u32, put_u64};
use hk_model::Query;
use hk_types::{FormFault, Key, Table, Tag};
use std::alloc::AllocError;

/// The kind byte of a query for one row.
pub const GET: u8 = 1;

/// Those of the others, which go over rows.
const RANGE: u8 = 2;

const BY_TAG: u8 = 3;

const COUNT: u8 = 4;

/// Reads the query of a kind.
#[tactic(auto, unfolding(crate::specs::Queries::query_of))]
fn read_of(cursor: &mut Cursor, kind: u8) -> Result<Query, FormFault>
    ensures { GivesValue (λ x. (x, cursor.new)) result (spec.query_of kind cursor.old) }
{
    match kind {
        GET => {
            let table = Table::new(cursor.u16()?);
            let key = Key::new(cursor.u64()?);
            Ok(Query::Get { table, key })
        }
        RANGE => {
            let table = Table::new(cursor.u16()?);
            let low = Key::new(cursor.u64()?);
            let high = Key::new(cursor.u64()?);
            Ok(Query::Range { table, low, high })
        }
        BY_TAG => {
            let table = Table::new(cursor.u16()?);
            let tag = Tag::new(cursor.u32()?);
            Ok(Query::ByTag { table, tag })
        }
        COUNT => {
            let table = Table::new(cursor.u16()?);
            Ok(Query::Count { table })
        }
        _ => Err(FormFault::BadNumber),
    }
}

/// Reads a query. A kind that has no meaning is `BadNumber`.
#[tactic(auto, unfolding(crate::specs::Queries::query_at))]
pub fn read_query(cursor: &mut Cursor) -> Result<Query, FormFault>
    ensures { GivesValue (λ x. (x, cursor.new)) result (spec.query_at cursor.old) }
{
    let kind = cursor.u8()?;
    read_of(cursor, kind)
}

/// How many bytes a query has.
#[tactic(auto, using(crate::proofs::Lengths::query_lengths))]
pub fn query_len(query: &Query) -> u64
    ensures len { result ≡ length (spec.query_text query.now) }
    ensures most { result ≤ 19 }
    ensures fits { spec.QueryFits query.now }
{
    match query {
        Query::Get { table, key } => 1 + table_len(*table) + key_len(*key),
        Query::Range { table, low, high } => {
            1 + table_len(*table) + key_len(*low) + key_len(*high)
        }
        Query::ByTag { table, tag } => 1 + table_len(*table) + tag_len(*tag),
        Query::Count { table } => 1 + table_len(*table),
    }
}

/// Adds a query's bytes.
#[tactic(auto, using(hk_frames::proofs::Put::all), unfolding(crate::specs::Queries::query_text))]
pub fn put_query(out: &mut Vec<u8>, query: &Query) -> Result<(), AllocError>
    ensures ok { OnOk result (out.new.items ≡ out.old.items ++ spec.query_text query.now) }
    ensures kept { OnErr result (take (length out.old.items) out.new.items ≡ out.old.items) }
{
    match query {
        Query::Get { table, key } => {
            out.push(GET)?;
            put_u16(out, table.number())?;
            put_u64(out, key.number())
        }
        Query::Range { table, low, high } => {
            out.push(RANGE)?;
            put_u16(out, table.number())?;
            put_u64(out, low.number())?;
            put_u64(out, high.number())
        }
        Query::ByTag { table, tag } => {
            out.push(BY_TAG)?;
            put_u16(out, table.number())?;
            put_u32(out, tag.number())
        }
        Query::Count { table } => {
            out.push(COUNT)?;
            put_u16(out, table.number())
        }
    }
}
