//! What is known of one version.

ghost use Rattle.std.specs.Prelude.{◌≡◌, ◌||◌, true, false, Some, None, IfOk, IsSome, is_some};
ghost use Rattle.std.specs.Option.{option_copied};
ghost use Rattle.hk_log.specs.StoredVersions.{stored};
ghost use Rattle.hk_log.specs.Versions.{IsVersionOf, VersionValue, is_known};

use hk_types::{Row, Time};
use std::alloc::{AllocError, Global};
use std::marker::Model;
use std::mem;

/// What is known of one version of a row: its row, the time at which it ended, or both. At least one of
/// them is there.
#[derive(Debug, Drop)]
pub struct Version {
    known: Known,
}

/// A row, an end, or both. An optional row beside an optional end would need eight bytes more.
#[derive(Debug, Drop)]
enum Known {
    Row(Row),
    End(Time),
    Both(Row, Time),
}

impl Model for Version {
    ghost use Rattle.hk_log.specs.Versions.{VersionValue, version_code};
    ghost use Rattle.hk_log.specs.StoredVersions.{stored};

    ghost Value = { VersionValue };

    ghost coded = { version_code };

    ghost view = { λ a. stored a.known };
}

impl Version {
    /// The version of this row and this end, or `None` where neither is there.
    pub fn new(row: Option<Row>, died: Option<Time>) -> Option<Version>
        ensures { IsVersionOf row died result }
    {
        let known = match (row, died) {
            (Some(row), Some(died)) => Known::Both(row, died),
            (Some(row), None) => Known::Row(row),
            (None, Some(died)) => Known::End(died),
            (None, None) => return None,
        };
        Some(Version { known })
    }

    /// A version of which the row alone is known.
    #[inline(always)]
    pub fn of_row(row: Row) -> Version
        ensures { result ≡ record { row = Some row; died = None } }
    {
        Version {
            known: Known::Row(row),
        }
    }

    /// A version of which the end alone is known.
    #[inline(always)]
    pub fn of_end(died: Time) -> Version
        ensures { result ≡ record { row = None; died = Some died } }
    {
        Version {
            known: Known::End(died),
        }
    }

    /// The row, where it is known.
    #[inline(always)]
    pub fn row(&self) -> Option<&Row>
        ensures value { option_copied result ≡ self.now.row }
        ensures known { is_known self.now ≡ true }
    {
        match &self.known {
            Known::Row(row) | Known::Both(row, _) => Some(row),
            Known::End(_) => None,
        }
    }

    /// The time at which the version ended, where it is known.
    #[inline(always)]
    pub fn died(&self) -> Option<Time>
        ensures value { result ≡ self.now.died }
        ensures known { is_known self.now ≡ true }
    {
        match &self.known {
            Known::End(died) | Known::Both(_, died) => Some(*died),
            Known::Row(_) => None,
        }
    }

    /// Makes this row known, in place of the one that was, if one was.
    #[inline(always)]
    pub fn set_row(&mut self, row: Row)
        ensures { self.new ≡ record { row = Some row; died = self.old.died } }
    {
        let known = mem::replace(&mut self.known, Known::End(Time::zero()));
        self.known = with_row(known, row);
    }

    /// Makes this end known, in place of the one that was, if one was.
    #[inline(always)]
    pub fn set_died(&mut self, died: Time)
        ensures { self.new ≡ record { row = self.old.row; died = Some died } }
    {
        let known = mem::replace(&mut self.known, Known::End(died));
        self.known = with_died(known, died);
    }

    /// Removes the row of a version whose end is known.
    pub fn forget_row(&mut self)
        requires { IsSome self.old.died }
        ensures { self.new ≡ record { row = None; died = self.old.died } }
    {
        if let Some(died) = self.died() {
            self.known = Known::End(died);
        }
    }

    /// Removes the end of a version whose row is known.
    pub fn forget_died(&mut self)
        requires { IsSome self.old.row }
        ensures { self.new ≡ record { row = self.old.row; died = None } }
    {
        let known = mem::replace(&mut self.known, Known::End(Time::zero()));
        self.known = without_died(known);
    }

    /// The same version again, its row copied. The only error is out of memory. Cost: O(n), n bytes of
    /// the body.
    pub fn copy(&self, alloc: Global) -> Result<Version, AllocError>
        ensures { IfOk result (λ version. version ≡ self.now) }
    {
        let known = match &self.known {
            Known::Row(row) => Known::Row(row.copy(alloc)?),
            Known::End(died) => Known::End(*died),
            Known::Both(row, died) => Known::Both(row.copy(alloc)?, *died),
        };
        Ok(Version { known })
    }
}

/// The same with this row.
#[inline(always)]
fn with_row(known: Known, row: Row) -> Known
    ensures { stored result ≡ record { row = Some row; died = (stored known).died } }
{
    match known {
        Known::Row(_) => Known::Row(row),
        Known::End(died) | Known::Both(_, died) => Known::Both(row, died),
    }
}

/// The same with this end.
#[inline(always)]
fn with_died(known: Known, died: Time) -> Known
    ensures { stored result ≡ record { row = (stored known).row; died = Some died } }
{
    match known {
        Known::End(_) => Known::End(died),
        Known::Row(row) | Known::Both(row, _) => Known::Both(row, died),
    }
}

/// The same without the end, where a row is known.
fn without_died(known: Known) -> Known
    requires { IsSome (stored known).row }
    ensures { stored result ≡ record { row = (stored known).row; died = None } }
{
    match known {
        Known::Row(row) | Known::Both(row, _) => Known::Row(row),
        Known::End(died) => Known::End(died),
    }
}

impl PartialEq for Version {
    ghost use Rattle.hk_log.specs.SameVersions.{same_version, same_version_per};

    ghost eq = { same_version };

    ghost laws = { same_version_per };

    fn eq(&self, other: &Version) -> bool {
        self.row() == other.row() && self.died() == other.died()
    }
}

impl Eq for Version {
    ghost use Rattle.hk_log.specs.SameVersions.{same_version_equiv};

    ghost laws = { same_version_equiv };
}
