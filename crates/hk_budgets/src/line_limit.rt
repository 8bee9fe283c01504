//! How many lines of one kind are printed in a second.

ghost use Rattle.std.specs.Prelude.{◌≡◌, ◌≤◌, ◌+◌, ◌⊎◌, true, false, min};

use std::alloc::Global;

/// How many lines of one kind are printed in a second at most.
pub const MOST_LINES: u64 = 10;

/// How many milliseconds the lines are counted for.
const SECOND: u64 = 1_000;

/// What lines are counted together.
#[derive(Clone, Copy, Debug, PartialEq, Eq)]
pub struct LineKind {
    /// The number of the door whose connections they are of.
    pub door: usize,
    /// What they say.
    pub event: &'static str,
    /// The number that they have, 0 where that is none or counts something.
    pub number: u8,
}

/// The lines of one kind in a second.
#[derive(Clone, Copy, Debug, PartialEq, Eq)]
pub struct Window {
    /// When the second began, in milliseconds of a clock that doesn't go back.
    pub began: u64,
    /// How many were printed in it.
    pub printed: u64,
    /// How many were not, whose number is still to be printed.
    pub more: u64,
}

impl Window {
    /// The window of the first line, which is printed.
    pub fn first(now: u64) -> Window
        ensures { (result.began ≡ now) × (result.printed ≡ 1) × (result.more ≡ 0) }
    {
        Window {
            began: now,
            printed: 1,
            more: 0,
        }
    }

    /// Whether its second is over.
    pub fn is_over(&self, now: u64) -> bool {
        now.saturating_sub(self.began) >= SECOND
    }

    /// Counts a further line, and returns whether it is printed: where the second is over and no number is still to be printed, as the first
    /// of the next one; else where fewer than 10 were printed and all were. Cost: O(1).
    pub fn admit(&mut self, now: u64) -> bool
        ensures few { result ≡ true → (self.new.printed ≤ 10) × (self.new.more ≡ 0) }
        ensures counted { result ≡ false → self.new.more ≡ min (self.old.more + 1) 18446744073709551615 }
        ensures kept { result ≡ false → self.new.printed ≡ self.old.printed }
    {
        if self.more == 0 {
            if self.is_over(now) {
                *self = Window::first(now);
                return true;
            }
            if self.printed < MOST_LINES {
                self.printed += 1;
                return true;
            }
        }
        self.more = self.more.saturating_add(1);
        false
    }

    /// How many lines weren't printed, once the second is over; the next one begins with that number. 0 where there are none, or it isn't.
    /// Cost: O(1).
    pub fn take_more(&mut self, now: u64) -> u64
        ensures all { result ≡ 0 ⊎ ((result ≡ self.old.more) × (self.new.more ≡ 0)) }
    {
        if self.more == 0 || !self.is_over(now) {
            return 0;
        }
        let more = self.more;
        *self = Window::first(now);
        more
    }
}

/// The windows of all kinds of lines that came.
#[derive(Drop)]
pub struct LineLimit {
    windows: Vec<(LineKind, Window)>,
}

impl LineLimit {
    /// That of a node of which nothing was printed.
    pub fn new(alloc: Global) -> LineLimit {
        LineLimit {
            windows: Vec::new(alloc),
        }
    }

    /// Whether a line of this kind is printed, at a time in milliseconds of a clock that doesn't go back; else it is counted. Where there
    /// is no memory for a new kind it is printed. Cost: O(k), k kinds that came.
    pub fn admits(&mut self, kind: LineKind, now: u64) -> bool {
        for (known, window) in &mut self.windows {
            if *known == kind {
                return window.admit(now);
            }
        }
        let _kept = self.windows.push((kind, Window::first(now)));
        true
    }

    /// A kind of which lines weren't printed in a second that is over, with how many. Cost: O(k), k kinds that came.
    pub fn take_more(&mut self, now: u64) -> Option<(LineKind, u64)> {
        for (kind, window) in &mut self.windows {
            let more = window.take_more(now);
            if more > 0 {
                return Some((*kind, more));
            }
        }
        None
    }

    /// Whether there are lines that weren't printed, whose number is still to be. Cost: O(k), k kinds that came.
    pub fn is_owing(&self) -> bool {
        self.windows.iter().any(|it| it.1.more > 0)
    }
}
