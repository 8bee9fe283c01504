//! Chunks of fragments: facts behind their count.

ghost use Rattle.std.specs.Prelude.{◌≡◌, ◌≤◌, ◌^◌, true, length};
ghost use Rattle.hk_frames.specs.Fields.{GivesOrRunsOut};
ghost use Rattle.hk_fragment_bytes.specs.Fragments.{facts_text};
ghost use Rattle.hk_fragment_bytes.specs.Parts as spec;

use crate::fragment_reading::read_facts;
use hk_fragment::facts_fault;
use hk_fragment_bytes::fragment_encoding::facts_len;
use hk_frames::{Cursor, ReadError};
use hk_log::Version;
use hk_types::{Time, VersionKey};
use std::alloc::Global;

/// Reads the facts of a chunk behind their count.
#[tactic(auto, unfolding(hk_fragment_bytes::specs::Parts::part_at))]
pub fn read_part(
    alloc: Global,
    cursor: &mut Cursor,
) -> Result<Vec<(VersionKey, Version)>, ReadError>
    ensures { GivesOrRunsOut (λ x. (x.items, cursor.new)) result (spec.part_at cursor.old) }
{
    let count = cursor.u32()?;
    read_facts(alloc, cursor, Time::zero(), Time::zero(), count)
}

/// Whether facts can be counted and keep the rules of a chunk.
pub fn keeps_part_rules(facts: &[(VersionKey, Version)]) -> bool
    ensures { result ≡ spec.part_keeps_rules facts.now }
{
    facts.len() < 4_294_967_296 && !facts_fault(Time::zero(), Time::zero(), facts).is_some()
}

/// How many bytes a chunk that keeps its rules has.
pub fn part_len(facts: &[(VersionKey, Version)]) -> u64
    requires { spec.part_keeps_rules facts.now ≡ true }
    ensures len { result ≡ length (facts_text facts.now) }
    ensures bound { result ≤ 2 ^ 45 }
    ensures fits { spec.PartFits facts.now }
{
    let _faultless = keeps_part_rules(facts);
    4 + facts_len(facts)
}
