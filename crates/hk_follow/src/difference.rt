//! Where two histories differ, for who reads that they do.

use hk_fragment::Fragment;
use hk_log::Version;
use hk_types::{Time, VersionKey};

/// Whether two of them say of one version what can't both be.
fn differ(own: &Version, theirs: &Version) -> bool {
    let rows = match (own.row(), theirs.row()) {
        (Some(one), Some(other)) => one != other,
        _unknown => false,
    };
    let ends = match (own.died(), theirs.died()) {
        (Some(one), Some(other)) => one != other,
        _unknown => false,
    };
    rows || ends
}

/// The first version of which another fragment says what can't be beside this one.
fn contradicted(own: &Fragment, theirs: &Fragment) -> Option<VersionKey> {
    for (version, known) in theirs.facts() {
        if let Some(held) = own.version(*version) {
            if differ(held, known) {
                return Some(*version);
            }
        }
    }
    None
}

/// The first version born up to a time that another fragment has and this one lacks.
fn lacking(own: &Fragment, theirs: &Fragment, until: Time) -> Option<VersionKey> {
    for (version, _known) in theirs.facts() {
        if version.born <= until && own.version(*version).is_none() {
            return Some(*version);
        }
    }
    None
}

/// A version by which another fragment can't be of the same history as this one, which is cut since the same time from a node whose
/// resolved time is given: one of which both say what can't be, else one that should have been known here. It promises nothing: where
/// there is none, they may differ in numbers and marks. Cost: O(n · log m), m and n facts of this one and the other.
pub fn first_difference(own: &Fragment, theirs: &Fragment, resolved: Time) -> Option<VersionKey> {
    match contradicted(own, theirs) {
        Some(version) => Some(version),
        None => lacking(own, theirs, resolved),
    }
}
