//! A row.

ghost use Rattle.std.specs.Prelude.{◌≡◌, ◌≤◌, ◌<◌, nat_le, length, take, IfErr, IfOk, OnOk, MatchResult};
ghost use Rattle.std.specs.Arc.{arc_value};
ghost use Rattle.hk_types.specs.StoredRows.{IsRefusedBody, stored};
ghost use Rattle.hk_types.specs.declared.faults.FormFault.TheVariants.{BadBody};

use crate::faults::{FormFault, Refusal};
use crate::tag::Tag;
use std::alloc::{AllocError, Global};
use std::fmt::{self, Debug, Formatter, Write};
use std::marker::Model;
use std::sync::Arc;

/// The most bytes that a body has.
pub const MOST_BODY_BYTES: usize = 4_096;

/// A row of a table: a tag, and a body of 0 to 4,096 bytes.
pub struct Row {
    form: RowForm,
}

/// How a row is kept. Where its body was not given as a list of its own, copies of the row share it: a body of up to 128 bytes is
/// behind a count of its owners in one piece of memory, of a size just above its own. The tag is in each form, since beside them it
/// would need eight bytes.
#[derive(Drop)]
enum RowForm {
    Own(Tag, Vec<u8>),
    To16(Tag, u16, Arc<[u8; 16]>),
    To32(Tag, u16, Arc<[u8; 32]>),
    To48(Tag, u16, Arc<[u8; 48]>),
    To64(Tag, u16, Arc<[u8; 64]>),
    To96(Tag, u16, Arc<[u8; 96]>),
    To128(Tag, u16, Arc<[u8; 128]>),
    Long(Tag, Arc<Vec<u8>>),
}

impl Model for Row {
    ghost use Rattle.hk_types.specs.Values.{RowValue};
    ghost use Rattle.hk_types.specs.StoredRows.{stored, AreWithin};

    ghost Value = { RowValue };

    ghost view = { λ a. stored a.form };

    ghost invariant = { λ a. AreWithin a.form };
}

// Written out, so that a crate which drops rows sees one call, and not each form.
impl Drop for Row {
    fn drop(self) {
        let Row { form } = self;
        drop(form);
    }
}

impl Debug for Row {
    fn fmt<W: Write>(&self, f: &mut Formatter<W>) -> Result<(), fmt::Error> {
        self.tag().fmt(f)?;
        self.body().fmt(f)
    }
}

impl PartialEq for Row {
    ghost use Rattle.hk_types.specs.Values.{same_row};
    ghost use Rattle.hk_types.specs.SameRows.{same_row_per};

    ghost eq = { same_row };

    ghost laws = { same_row_per };

    fn eq(&self, other: &Row) -> bool {
        self.tag() == other.tag() && self.body() == other.body()
    }
}

impl Eq for Row {
    ghost use Rattle.hk_types.specs.SameRows.{same_row_equiv};

    ghost laws = { same_row_equiv };
}

impl Row {
    /// The row of this tag and this body, which is not copied. A body above 4,096 bytes comes back with `BadBody`.
    pub fn new(tag: Tag, body: Vec<u8>) -> Result<Row, (Vec<u8>, FormFault)>
        ensures ok { length body.items ≤ 4096 → IfOk result
            (λ row. row ≡ record { tag = tag; body = body.items }) }
        ensures exact { MatchResult result (λ _. length body.items ≤ 4096)
            (λ e. (4096 < length body.items) × (e.0 ≡ body) × (e.1 ≡ BadBody)) }
    {
        if !is_fit(&body) {
            return Err((body, FormFault::BadBody));
        }
        Ok(Row {
            form: RowForm::Own(tag, body),
        })
    }

    /// The row of this tag and a copy of these bytes, which copies of the row share.
    ///
    /// A body above 4,096 bytes is refused `BadBody`, and then `Memory` comes where there is none. Cost: O(n), n bytes.
    #[inline(always)]
    pub fn of_bytes(alloc: Global, tag: Tag, body: &[u8]) -> Result<Row, Refusal>
        ensures ok { IfOk result (λ row. row ≡ record { tag = tag; body = body.now }) }
        ensures bound { OnOk result (length body.now ≤ 4096) }
        ensures err { IfErr result (λ why. IsRefusedBody body.now why) }
    {
        if !is_fit(body) {
            return Err(Refusal::Form(FormFault::BadBody));
        }
        let row = Row::sharing(alloc, tag, body)?;
        Ok(row)
    }

    /// The row of this tag and a copy of these bytes, in the form that copies share. The only error is out of memory.
    #[inline(always)]
    fn sharing(alloc: Global, tag: Tag, body: &[u8]) -> Result<Row, AllocError>
        requires { length body.now ≤ 4096 }
        ensures { IfOk result (λ row. row ≡ record { tag = tag; body = body.now }) }
    {
        let count = body.len() as u16;
        let form = match body.len() {
            0..=16 => RowForm::To16(tag, count, shared(alloc, body)?),
            17..=32 => RowForm::To32(tag, count, shared(alloc, body)?),
            33..=48 => RowForm::To48(tag, count, shared(alloc, body)?),
            49..=64 => RowForm::To64(tag, count, shared(alloc, body)?),
            65..=96 => RowForm::To96(tag, count, shared(alloc, body)?),
            97..=128 => RowForm::To128(tag, count, shared(alloc, body)?),
            _ => RowForm::Long(tag, Arc::new(alloc, Vec::from_slice(alloc, body)?)?),
        };
        Ok(Row { form })
    }

    /// The tag of the row.
    #[inline(always)]
    pub fn tag(&self) -> Tag
        ensures { result ≡ self.now.tag }
    {
        match &self.form {
            RowForm::Own(tag, _) => *tag,
            RowForm::To16(tag, _, _) => *tag,
            RowForm::To32(tag, _, _) => *tag,
            RowForm::To48(tag, _, _) => *tag,
            RowForm::To64(tag, _, _) => *tag,
            RowForm::To96(tag, _, _) => *tag,
            RowForm::To128(tag, _, _) => *tag,
            RowForm::Long(tag, _) => *tag,
        }
    }

    /// The bytes of the body, at most 4,096.
    #[inline(always)]
    pub fn body(&self) -> &[u8]
        ensures value { result.now ≡ self.now.body }
        ensures bound { length result.now ≤ 4096 }
    {
        match &self.form {
            RowForm::Own(_, bytes) => bytes.as_slice(),
            RowForm::To16(_, count, block) => &block[..*count as usize],
            RowForm::To32(_, count, block) => &block[..*count as usize],
            RowForm::To48(_, count, block) => &block[..*count as usize],
            RowForm::To64(_, count, block) => &block[..*count as usize],
            RowForm::To96(_, count, block) => &block[..*count as usize],
            RowForm::To128(_, count, block) => &block[..*count as usize],
            RowForm::Long(_, bytes) => bytes.as_slice(),
        }
    }

    /// The same row again. The only error is out of memory. Cost: O(1) where copies share the body, as those of
    /// `of_bytes` and of any copy do, else O(n), n bytes of the body.
    pub fn copy(&self, alloc: Global) -> Result<Row, AllocError>
        ensures { IfOk result (λ row. row ≡ self.now) }
    {
        let form = match &self.form {
            RowForm::Own(tag, bytes) => return Row::sharing(alloc, *tag, bytes),
            RowForm::To16(tag, count, block) => RowForm::To16(*tag, *count, Arc::try_clone(block)?),
            RowForm::To32(tag, count, block) => RowForm::To32(*tag, *count, Arc::try_clone(block)?),
            RowForm::To48(tag, count, block) => RowForm::To48(*tag, *count, Arc::try_clone(block)?),
            RowForm::To64(tag, count, block) => RowForm::To64(*tag, *count, Arc::try_clone(block)?),
            RowForm::To96(tag, count, block) => RowForm::To96(*tag, *count, Arc::try_clone(block)?),
            RowForm::To128(tag, count, block) => RowForm::To128(
                *tag,
                *count,
                Arc::try_clone(block)?,
            ),
            RowForm::Long(tag, bytes) => RowForm::Long(*tag, Arc::try_clone(bytes)?),
        };
        Ok(Row { form })
    }
}

/// Whether bytes are no more than a body has.
#[inline(always)]
fn is_fit(body: &[u8]) -> bool
    ensures { result ≡ nat_le (length body.now) 4096 }
{
    body.len() <= MOST_BODY_BYTES
}

/// A block that begins with these bytes. The only error is out of memory.
#[inline(always)]
fn shared<const N: usize>(alloc: Global, bytes: &[u8]) -> Result<Arc<[u8; N]>, AllocError>
    requires { length bytes.now ≤ N }
    ensures { IfOk result (λ block. take (length bytes.now) (arc_value block) ≡ bytes.now) }
{
    let mut block = [0; N];
    block[..bytes.len()].copy_from_slice(bytes);
    Ok(Arc::new(alloc, block)?)
}
