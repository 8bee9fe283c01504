//! Spans of time.

ghost use Rattle.std.specs.Prelude.{◌≡◌, ℕ, false};
ghost use Rattle.std.specs.Bool.{OnTrue};
ghost use Rattle.hk_index.specs.Timed.{is_in_span};

/// The times from one on, up to another where there is one.
#[derive(Clone, Copy)]
pub struct Span {
    /// The first of them.
    pub from: u64,
    /// The last of them.
    pub until: Option<u64>,
}

impl Span {
    /// Whether a time is one of them.
    #[inline(always)]
    pub fn has(&self, time: u64) -> bool
        ensures { result ≡ is_in_span self.now time }
    {
        self.from <= time
            && match self.until {
                Some(until) => time <= until,
                None => true,
            }
    }

    /// Whether no time is one of them. One without an end has some.
    pub fn is_empty(&self) -> bool
        ensures { OnTrue result ((time : ℕ) → is_in_span self.now time ≡ false) }
    {
        match self.until {
            Some(until) => until < self.from,
            None => false,
        }
    }
}
