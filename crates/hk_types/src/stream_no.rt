//! Streams.

ghost use Rattle.std.specs.Prelude.{◌≡◌, ◌≤◌, Some};
ghost use Rattle.std.specs.Fmt.{decimal};
ghost use Rattle.hk_types.specs.Numbers.{checked_stream};

use crate::faults::FormFault;
use std::fmt;
use std::marker::Model;

/// The number of a stream of a log, 1 to 64.
#[derive(Clone, Copy, Debug, PartialEq, Eq, PartialOrd, Ord)]
pub struct StreamNo {
    number: u16,
}

impl Model for StreamNo {
    ghost use Rattle.std.specs.Prelude.{ℕ, ◌≤◌};

    ghost Value = { ℕ };

    ghost view = { λ a. a.number };

    ghost invariant = { λ a. (1 ≤ a.number) × (a.number ≤ 64) };

    ghost inverse = { λ n. record { number = n } };
}

impl StreamNo {
    /// The stream with this number. A number outside 1 to 64 is refused as `BadStream`.
    pub fn new(number: u16) -> Result<StreamNo, FormFault>
        ensures { result ≡ checked_stream number }
    {
        if number < 1 || number > 64 {
            return Err(FormFault::BadStream);
        }
        Ok(StreamNo { number })
    }

    /// The number of the stream, 1 to 64.
    pub fn number(self) -> u16
        ensures value { result ≡ self }
        ensures least { 1 ≤ result }
        ensures most { result ≤ 64 }
    {
        self.number
    }
}

/// Printed as a decimal number.
impl fmt::Display for StreamNo {
    ghost output = { λ number. Some (decimal number) };

    fn fmt<W: fmt::Write>(&self, f: &mut fmt::Formatter<W>) -> fmt::Result {
        write!(f, "{}", self.number)
    }
}
