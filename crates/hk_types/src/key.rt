//! Keys.

ghost use Rattle.std.specs.Prelude.{◌≡◌, Some};
ghost use Rattle.std.specs.Fmt.{decimal};

use std::fmt;
use std::marker::Model;

/// The key of a row in its table: any number of 64 bits.
#[derive(Clone, Copy, Debug, PartialEq, Eq, PartialOrd, Ord)]
pub struct Key {
    number: u64,
}

impl Model for Key {
    ghost use Rattle.std.specs.Prelude.{ℕ, ◌<◌, ◌^◌};

    ghost Value = { ℕ };

    ghost view = { λ a. a.number };

    ghost invariant = { λ a. a.number < 2 ^ 64 };

    ghost inverse = { λ n. record { number = n } };
}

impl Key {
    /// The key with this number.
    pub fn new(number: u64) -> Key
        ensures { result ≡ number }
    {
        Key { number }
    }

    /// The number of the key.
    pub fn number(self) -> u64
        ensures { result ≡ self }
    {
        self.number
    }
}

/// Printed as a decimal number.
impl fmt::Display for Key {
    ghost output = { λ number. Some (decimal number) };

    fn fmt<W: fmt::Write>(&self, f: &mut fmt::Formatter<W>) -> fmt::Result {
        write!(f, "{}", self.number)
    }
}
