//! How many connections a node serves.

ghost use Rattle.std.specs.Prelude.{◌≡◌, ◌≤◌, ◌<◌};
ghost use Rattle.hk_types.specs.Numbers.{checked_links};

use std::marker::Model;

/// How many connections a node serves: 1 to 64. It has a slot for each.
#[derive(Clone, Copy, Debug, PartialEq, Eq)]
pub struct Links {
    count: u16,
}

impl Model for Links {
    ghost use Rattle.std.specs.Prelude.{ℕ, ◌<◌, ◌≤◌};

    ghost Value = { ℕ };

    ghost view = { λ l. l.count };

    ghost invariant = { λ l. (0 < l.count) × (l.count ≤ 64) };

    ghost inverse = { λ n. record { count = n } };
}

impl Links {
    /// So many connections, unless there are none or more than 64.
    pub fn new(count: u16) -> Option<Links>
        ensures { result ≡ checked_links count }
    {
        if count < 1 || count > 64 {
            return None;
        }
        Some(Links { count })
    }

    /// How many they are.
    pub fn count(self) -> usize
        ensures value { result ≡ self }
        ensures bound { (0 < result) × (result ≤ 64) }
    {
        usize::from(self.count)
    }
}
