//! Bounds of the births and the ends of versions.

ghost use Rattle.std.specs.Prelude.{◌≤◌, ◌<◌, ℕ, IfSome, None};
ghost use Rattle.std.specs.Bool.{OnTrue};
ghost use Rattle.hk_facts.specs.Turns.{AreBounded, MayBeBorn};

use hk_types::Time;

/// No end of some versions is after `latest`, and each was born at `newest`, or up to `older`. Where facts come in the order of time, these
/// say without a look at a version that one fits.
#[derive(Clone, Copy)]
pub(crate) struct Bounds {
    pub(crate) latest: Time,
    pub(crate) newest: Time,
    pub(crate) older: Time,
}

impl Bounds {
    /// Of no versions.
    pub(crate) fn none() -> Bounds
        ensures { AreBounded (λ _. None) result }
    {
        Bounds {
            latest: Time::zero(),
            newest: Time::zero(),
            older: Time::zero(),
        }
    }

    /// With a version that was born then, and its end where one is known.
    #[inline(always)]
    pub(crate) fn with(self, born: Time, died: Option<Time>) -> Bounds
        ensures births { (time : ℕ) → MayBeBorn self time → MayBeBorn result time }
        ensures born { MayBeBorn result born }
        ensures ends { self.latest ≤ result.latest }
        ensures died { IfSome died (λ end. end ≤ result.latest) }
    {
        let latest = match died {
            Some(died) => later(self.latest, died),
            None => self.latest,
        };
        if self.newest < born {
            return Bounds {
                latest,
                newest: born,
                older: later(self.newest, self.older),
            };
        }
        if self.newest == born {
            return Bounds { latest, ..self };
        }
        Bounds {
            latest,
            newest: self.newest,
            older: later(self.older, born),
        }
    }

    /// Whether no version was born after a time and before another.
    #[inline(always)]
    pub(crate) fn is_free(&self, time: Time, from: Time) -> bool
        ensures { OnTrue result ((born : ℕ) → MayBeBorn self.now born → time < born → from ≤ born) }
    {
        self.older <= time && (from <= self.newest || self.newest <= time)
    }
}

/// The later of two times.
#[inline(always)]
fn later(one: Time, other: Time) -> Time
    ensures first { one ≤ result }
    ensures second { other ≤ result }
{
    if one < other { other } else { one }
}
