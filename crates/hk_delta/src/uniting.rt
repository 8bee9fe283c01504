//! The union of two fragments of items.

ghost use Rattle.std.specs.Prelude.{◌≡◌, ◌==◌, length};
ghost use Rattle.std.specs.List.{list_any};
ghost use Rattle.std.specs.Option.{option_copied};
ghost use Rattle.hk_types.specs.Values.{same_row};
ghost use Rattle.hk_model.specs.Replica.Maps.{values_conflict};
ghost use Rattle.hk_model.specs.Replica.Rules.{contents_conflict};
ghost use Rattle.hk_store.specs.Reads.{facts_of_content};
ghost use Rattle.hk_store.specs.Versions as versions_spec;
ghost use Rattle.hk_fragment.specs.Merging.{IsFromZero};
ghost use Rattle.hk_delta.specs.Unions.{Unites, UnitesGathered};

use crate::Fragment;
use hk_log::Version;
use hk_types::{Refusal, Row, Time, VersionKey};

/// Whether there are two rows, and they differ.
fn differ_in_row(own: Option<&Row>, coming: Option<&Row>) -> bool
    ensures { result ≡ values_conflict same_row (option_copied own.entry) (option_copied coming.entry) }
{
    match (own, coming) {
        (Some(row), Some(other)) => row != other,
        _ => false,
    }
}

/// Whether there are two ends, and they differ.
fn differ_in_end(own: Option<Time>, coming: Option<Time>) -> bool
    ensures { result ≡ values_conflict (λ a b. a == b) own coming }
{
    match (own, coming) {
        (Some(died), Some(other)) => died != other,
        _ => false,
    }
}

/// Whether a fragment has another row, or another end, of a version than this.
fn value_conflicts_at(own: &Fragment, version: VersionKey, known: &Version) -> bool
    ensures { result ≡ versions_spec.value_conflicts_at (facts_of_content own.now.content) version known.now }
{
    match own.version(version) {
        Some(stood) => {
            differ_in_row(stood.row(), known.row()) || differ_in_end(stood.died(), known.died())
        }
        None => false,
    }
}

/// Whether a fragment has another row, or another end, of one of these versions.
fn conflicts_on(own: &Fragment, facts: &[(VersionKey, Version)]) -> bool
    ensures { result ≡ list_any (λ e. versions_spec.value_conflicts_at (facts_of_content own.now.content) e.0 e.1) facts.now }
{
    facts.iter().any(|(version, known)| value_conflicts_at(own, *version, known))
}

/// Whether some version has different rows, or different ends, in two fragments. It takes no memory.
fn has_conflict(own: &Fragment, other: &Fragment) -> bool
    ensures { result ≡ contents_conflict own.now.content other.now.content }
{
    conflicts_on(own, other.facts())
}

/// Adds what another fragment of the same log has, where both have `base` 0 and `horizon` 0, as `fragment_of` makes
/// them: the rows, ends and numbers of both, and each stream closed by all marks whose entries both have together.
///
/// A version that has different rows or different ends in the two is refused `Conflict`; so far no memory is taken.
/// `Memory` comes where a growth was refused. A refusal changes nothing. The union of the fragments of two lists of
/// items is the fragment of the one list after the other.
///
/// Cost: O(n + c · log n + b), n versions, numbers and marks of both, c of them the other one's versions and the
/// numbers and marks of both that wait for others, b bytes of the other one's bodies, which are copied; its own are
/// moved.
pub fn union(into: &mut Fragment, other: &Fragment) -> Result<(), Refusal>
    requires own { IsFromZero into.old }
    requires coming { IsFromZero other.now }
    requires log { other.now.content.log ≡ into.old.content.log }
    requires streams { length into.old.content.streams ≡ length other.now.content.streams }
    ensures unites { Unites into.old into.new other.now result }
    ensures gathered { UnitesGathered into.old into.new other.now result }
{
    if has_conflict(into, other) {
        return Err(Refusal::Conflict);
    }
    into.take_in(other)
}
