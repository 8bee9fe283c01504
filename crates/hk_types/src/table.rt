//! Tables.

ghost use Rattle.std.specs.Prelude.{◌≡◌, Some};
ghost use Rattle.std.specs.Fmt.{decimal};

use std::fmt;
use std::marker::Model;

/// The number of a table: any of 16 bits.
#[derive(Clone, Copy, Debug, PartialEq, Eq, PartialOrd, Ord)]
pub struct Table {
    number: u16,
}

impl Model for Table {
    ghost use Rattle.std.specs.Prelude.{ℕ, ◌<◌, ◌^◌};

    ghost Value = { ℕ };

    ghost view = { λ a. a.number };

    ghost invariant = { λ a. a.number < 2 ^ 16 };

    ghost inverse = { λ n. record { number = n } };
}

impl Table {
    /// The table with this number.
    pub fn new(number: u16) -> Table
        ensures { result ≡ number }
    {
        Table { number }
    }

    /// The number of the table.
    pub fn number(self) -> u16
        ensures { result ≡ self }
    {
        self.number
    }
}

/// Printed as a decimal number.
impl fmt::Display for Table {
    ghost output = { λ number. Some (decimal number) };

    fn fmt<W: fmt::Write>(&self, f: &mut fmt::Formatter<W>) -> fmt::Result {
        write!(f, "{}", self.number)
    }
}
