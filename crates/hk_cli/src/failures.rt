//! Accepts that fail one after the other.

/// How many milliseconds a second has.
const SECOND: u64 = 1_000;

/// Accepts that fail one after the other: the first is printed as it comes, further ones are counted. Times are in milliseconds of a
/// clock that doesn't go back.
#[derive(Clone, Copy)]
pub(crate) struct Failures {
    /// When one came last.
    last: Option<u64>,
    /// When one or a number of them was printed last.
    told: Option<u64>,
    /// How many came since.
    untold: u64,
}

/// Whether that was a second ago, or never.
fn is_over(now: u64, since: Option<u64>) -> bool {
    match since {
        Some(since) => now.saturating_sub(since) >= SECOND,
        None => true,
    }
}

impl Failures {
    /// None yet.
    pub(crate) fn none() -> Failures {
        Failures {
            last: None,
            told: None,
            untold: 0,
        }
    }

    /// Counts one, and returns whether it is printed: where none failed less than a second before.
    pub(crate) fn is_first(&mut self, now: u64) -> bool {
        let is_first = is_over(now, self.last);
        self.last = Some(now);
        if is_first {
            self.told = Some(now);
        } else {
            self.untold = self.untold.saturating_add(1);
        }
        is_first
    }

    /// Whether some were counted whose number is still to be printed.
    pub(crate) fn is_owing(&self) -> bool {
        self.untold > 0
    }

    /// How many more failed, where that is due; else 0.
    pub(crate) fn take_more(&mut self, now: u64) -> u64 {
        let more = self.untold;
        if more == 0 || !is_over(now, self.told) {
            return 0;
        }
        self.told = Some(now);
        self.untold = 0;
        more
    }
}
