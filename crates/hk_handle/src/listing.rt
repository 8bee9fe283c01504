//! Rows as bytes.

ghost use Rattle.std.specs.Prelude.{◌≡◌, ◌++◌, OnOk};
ghost use Rattle.hk_answers.specs.Answers.{keyed_text};
ghost use Rattle.hk_handle.specs.Calls.{rows_text, text_from};
ghost use Rattle.hk_handle.specs.Pages.{page_text};

use hk_frames::{put_body, put_u32, put_u64};
use hk_types::{Key, Row};
use std::alloc::AllocError;

#[tactic(auto, using(hk_frames::proofs::Put::all), unfolding(hk_answers::specs::Answers::keyed_text, hk_answers::specs::Answers::row_text))]
fn put_keyed(out: &mut Vec<u8>, key: Key, row: &Row) -> Result<(), AllocError>
    ensures { OnOk result (out.new.items ≡ out.old.items ++ keyed_text (key, row.now)) }
{
    put_u64(out, key.number())?;
    put_u32(out, row.tag().number())?;
    put_body(out, row.body())
}

/// Adds the bytes of a row, where its key is not below another.
fn put_from(out: &mut Vec<u8>, low: Key, key: Key, row: &Row) -> Result<(), AllocError>
    ensures { OnOk result (out.new.items ≡ out.old.items ++ text_from low (key, row.now)) }
{
    if key < low {
        return Ok(());
    }
    put_keyed(out, key, row)
}

/// Adds the bytes of the rows from a key on.
#[tactic(auto, using(std::proofs::Common::append_assoc))]
pub(crate) fn put_rows(out: &mut Vec<u8>, rows: &[(Key, Row)], low: Key) -> Result<(), AllocError>
    ensures { OnOk result (out.new.items ≡ out.old.items ++ rows_text low rows.now) }
{
    for (key, row) in rows {
        put_from(out, low, *key, row)?;
    }
    Ok(())
}

/// Adds the bytes of these rows.
#[tactic(auto, using(std::proofs::Common::append_assoc))]
pub(crate) fn put_all(out: &mut Vec<u8>, rows: &[(Key, Row)]) -> Result<(), AllocError>
    ensures { OnOk result (out.new.items ≡ out.old.items ++ page_text rows.now) }
{
    for (key, row) in rows {
        put_keyed(out, *key, row)?;
    }
    Ok(())
}
