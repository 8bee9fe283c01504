//! Times.

ghost use Rattle.std.specs.Prelude.{◌≡◌, ◌≤◌, ◌^◌, Some};
ghost use Rattle.std.specs.Fmt.{decimal};
ghost use Rattle.hk_types.specs.Numbers.{checked_time};

use crate::faults::FormFault;
use std::fmt;
use std::marker::Model;

/// The last time that a commit can have, 2^62. Time 0 is before everything.
pub const LAST_TIME: u64 = 4_611_686_018_427_387_904;

/// A time of a log, 0 to `LAST_TIME`. Times count commits: they are no time of day and have no unit.
#[derive(Clone, Copy, Debug, PartialEq, Eq, PartialOrd, Ord)]
pub struct Time {
    number: u64,
}

impl Model for Time {
    ghost use Rattle.std.specs.Prelude.{ℕ, ◌≤◌, ◌^◌};

    ghost Value = { ℕ };

    ghost view = { λ a. a.number };

    ghost invariant = { λ a. a.number ≤ 2 ^ 62 };

    ghost inverse = { λ n. record { number = n } };
}

impl Time {
    /// Time 0, before everything.
    pub fn zero() -> Time
        ensures { result ≡ 0 }
    {
        Time { number: 0 }
    }

    /// The last time of all, `LAST_TIME`.
    pub fn last() -> Time
        ensures { result ≡ 2 ^ 62 }
    {
        Time { number: LAST_TIME }
    }

    /// The time with this number. A number above `LAST_TIME` is refused as `BadNumber`.
    pub fn new(number: u64) -> Result<Time, FormFault>
        ensures { result ≡ checked_time number }
    {
        if number > LAST_TIME {
            return Err(FormFault::BadNumber);
        }
        Ok(Time { number })
    }

    /// The number of the time, 0 to `LAST_TIME`.
    pub fn number(self) -> u64
        ensures value { result ≡ self }
        ensures bound { result ≤ 2 ^ 62 }
    {
        self.number
    }
}

/// Printed as a decimal number.
impl fmt::Display for Time {
    ghost output = { λ number. Some (decimal number) };

    fn fmt<W: fmt::Write>(&self, f: &mut fmt::Formatter<W>) -> fmt::Result {
        write!(f, "{}", self.number)
    }
}
