//! What is known of a version, one fact at a time.

ghost use Rattle.std.specs.Prelude.{◌≡◌, not, Some, None, Ok, Err, OnOk, OnErr, IfErr, IfOk};
ghost use Rattle.std.specs.Bool.{OnTrue, OnFalse};
ghost use Rattle.hk_facts.specs.declared.fact.Fact.TheVariants.{Row as KnownRow, End as KnownEnd};
ghost use Rattle.hk_facts.specs.Facts.{has_like, put_result, without};

use hk_log::Version;
use hk_types::{Refusal, Row, Time};

/// One fact on a version: its row, or the time at which it ended.
#[derive(Debug, Drop)]
pub enum Fact {
    Row(Row),
    End(Time),
}

/// What is removed of a version: its row, its end, or all that is known of it.
#[derive(Clone, Copy, Debug, PartialEq, Eq)]
pub enum Part {
    Row,
    End,
    Whole,
}

/// The version of which this fact alone is known.
#[inline(always)]
pub fn version_of(fact: Fact) -> Version
    ensures { put_result fact None ≡ Ok result }
{
    match fact {
        Fact::Row(row) => Version::of_row(row),
        Fact::End(died) => Version::of_end(died),
    }
}

/// Adds a fact to a version, unless the version has another row or another end there. Returns whether it had none.
#[inline(always)]
pub fn join(version: &mut Version, fact: Fact) -> Result<bool, Refusal>
    ensures ok { OnOk result (put_result fact (Some version.old) ≡ Ok version.new) }
    ensures new { IfOk result (λ is. is ≡ not (has_like (Some version.old) fact)) }
    ensures err { IfErr result (λ why. put_result fact (Some version.old) ≡ Err why) }
    ensures kept { OnErr result (version.new ≡ version.old) }
{
    match fact {
        Fact::Row(row) => join_row(version, row),
        Fact::End(died) => join_end(version, died),
    }
}

#[inline(always)]
fn join_row(version: &mut Version, row: Row) -> Result<bool, Refusal>
    ensures ok { OnOk result (put_result (KnownRow row) (Some version.old) ≡ Ok version.new) }
    ensures new { IfOk result (λ is. is ≡ not (has_like (Some version.old) (KnownRow row))) }
    ensures err { IfErr result (λ why. put_result (KnownRow row) (Some version.old) ≡ Err why) }
    ensures kept { OnErr result (version.new ≡ version.old) }
{
    if let Some(there) = version.row() {
        if *there != row {
            return Err(Refusal::Conflict);
        }
        return Ok(false);
    }
    version.set_row(row);
    Ok(true)
}

#[inline(always)]
fn join_end(version: &mut Version, died: Time) -> Result<bool, Refusal>
    ensures ok { OnOk result (put_result (KnownEnd died) (Some version.old) ≡ Ok version.new) }
    ensures new { IfOk result (λ is. is ≡ not (has_like (Some version.old) (KnownEnd died))) }
    ensures err { IfErr result (λ why. put_result (KnownEnd died) (Some version.old) ≡ Err why) }
    ensures kept { OnErr result (version.new ≡ version.old) }
{
    if let Some(there) = version.died() {
        if there != died {
            return Err(Refusal::Conflict);
        }
        return Ok(false);
    }
    version.set_died(died);
    Ok(true)
}

/// Removes a part of a version, and returns whether anything is left. Where nothing would be left, the version is as it was.
pub(crate) fn take_back(version: &mut Version, part: Part) -> bool
    ensures left { OnTrue result (without part (Some version.old) ≡ Some version.new) }
    ensures gone { OnFalse result (without part (Some version.old) ≡ None) }
{
    match part {
        Part::Row => {
            if version.died().is_none() {
                return false;
            }
            version.forget_row();
            true
        }
        Part::End => {
            if version.row().is_none() {
                return false;
            }
            version.forget_died();
            true
        }
        Part::Whole => false,
    }
}
