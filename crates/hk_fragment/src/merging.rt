//! Two rising lists of versions, merged into one.

ghost use Rattle.std.specs.Prelude.{◌≡◌, ◌⊎◌, ◌≤◌, ◌<◌, ◌+◌, ◌++◌, ◌∷◌, [], None};
ghost use Rattle.std.specs.Vec.{vec_capacity, vec_len};
ghost use Rattle.hk_model.specs.Replica.Maps.{or_else};
ghost use Rattle.hk_fragment.specs.Parts.{facts_fault};
ghost use Rattle.hk_fragment.specs.Merging as spec;
ghost use Rattle.hk_fragment.specs.Merging.{ComparesLast, SaysBoth, TakesGreatest};

use hk_log::Version;
use hk_types::VersionKey;
use std::cmp::Ordering;

/// The one of two whose row is known, the first where both rows are.
fn with_row(own: Version, coming: Version) -> Version
    ensures row { result.row ≡ or_else own.row coming.row }
    ensures died { (result.died ≡ own.died) ⊎ (result.died ≡ coming.died) }
{
    if own.row().is_some() { own } else { coming }
}

/// What two know of one version, the first one's where both know it.
fn both_known(own: Version, coming: Version) -> Version
    ensures { result ≡ spec.both_known own coming }
{
    let died = own.died().or(coming.died());
    let mut known = with_row(own, coming);
    if let Some(died) = died {
        known.set_died(died);
    }
    known
}

/// How the last version of the one list compares with that of the other; a list without one comes before.
fn compare_last(own: &[(VersionKey, Version)], coming: &[(VersionKey, Version)]) -> Option<Ordering>
    ensures { ComparesLast own.now coming.now result }
{
    match (own.last(), coming.last()) {
        (None, None) => None,
        (None, Some(_)) => Some(Ordering::Less),
        (Some(_), None) => Some(Ordering::Greater),
        (Some((left, _)), Some((right, _))) => Some(left.cmp(right)),
    }
}

/// Removes the greatest version of two lists from them.
fn take_greatest(
    own: &mut Vec<(VersionKey, Version)>,
    coming: &mut Vec<(VersionKey, Version)>,
) -> Option<(VersionKey, Version)>
    ensures { TakesGreatest own.old.items own.new.items coming.old.items coming.new.items result }
{
    match compare_last(own, coming)? {
        Ordering::Greater => own.pop(),
        Ordering::Less => coming.pop(),
        Ordering::Equal => {
            let (version, known) = own.pop()?;
            let (_version, other) = coming.pop()?;
            Some((version, both_known(known, other)))
        }
    }
}

/// Adds what is known of a version to a list that has room for it.
fn push_known(list: &mut Vec<(VersionKey, Version)>, known: (VersionKey, Version))
    requires { vec_len list.old < vec_capacity list.old }
    ensures items { list.new.items ≡ list.old.items ++ known ∷ [] }
    ensures len { vec_len list.new ≡ vec_len list.old + 1 }
    ensures room { vec_capacity list.old ≤ vec_capacity list.new }
{
    let pushed = list.push(known);
    prove!(pushed.is_ok());
}

/// Merges two rising lists of versions into an empty one that has room for both. It takes no memory.
/// Cost: O(n), n versions of both.
pub(crate) fn merged(
    own: Vec<(VersionKey, Version)>,
    coming: Vec<(VersionKey, Version)>,
    room: Vec<(VersionKey, Version)>,
) -> Vec<(VersionKey, Version)>
    requires empty { room.items ≡ [] }
    requires room { vec_len own + vec_len coming ≤ vec_capacity room }
    requires own { facts_fault 0 0 None own.items ≡ None }
    requires coming { facts_fault 0 0 None coming.items ≡ None }
    ensures faultless { facts_fault 0 0 None result.items ≡ None }
    ensures found { SaysBoth own.items coming.items result.items }
{
    let mut own = own;
    let mut coming = coming;
    let mut found = room;
    while let Some(known) = take_greatest(&mut own, &mut coming) {
        push_known(&mut found, known);
    }
    found.reverse();
    found
}
