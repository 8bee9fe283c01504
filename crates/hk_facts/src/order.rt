//! The order of two versions, of which either may be missing.

ghost use Rattle.std.specs.Prelude.{◌≡◌};
ghost use Rattle.std.specs.Option.{option_map};
ghost use Rattle.hk_facts.specs.Parted.{is_earlier, is_later};

use hk_log::Version;
use hk_types::Time;

/// Whether there is a first version, and the other was not born later.
pub(crate) fn is_later(first: &Option<(Time, &Version)>, other: &Option<(Time, &Version)>) -> bool
    ensures { result ≡ is_later (option_map (λ p. (p.0, p.1.now)) first.now)
        (option_map (λ p. (p.0, p.1.now)) other.now) }
{
    match (first, other) {
        (Some((born, _)), Some((time, _))) => time <= born,
        (first, _) => first.is_some(),
    }
}

/// Whether there is a first version, and the other was not born earlier.
pub(crate) fn is_earlier(first: &Option<(Time, &Version)>, other: &Option<(Time, &Version)>) -> bool
    ensures { result ≡ is_earlier (option_map (λ p. (p.0, p.1.now)) first.now)
        (option_map (λ p. (p.0, p.1.now)) other.now) }
{
    match (first, other) {
        (Some((born, _)), Some((time, _))) => born <= time,
        (first, _) => first.is_some(),
    }
}
