//! Fragments, read from the front of bytes.

ghost use Rattle.std.specs.Prelude.{◌≡◌, None};
ghost use Rattle.hk_frames.specs.Fields.{GivesOrRunsOut};
ghost use Rattle.hk_fragment_bytes.specs.Fragments as spec;
ghost use Rattle.hk_fragment_bytes.specs.FragmentSteps as steps;

use hk_fragment::Fragment;
use hk_fragment_bytes::fact_reading::read_fact;
use hk_fragment_bytes::stream_reading::{read_fragment_head, read_got};
use hk_frames::{Cursor, ReadError};
use hk_log::Version;
use hk_types::{FormFault, Time, VersionKey};
use std::alloc::Global;

/// The bytes of the shortest fact: a version, the flags and a row with an empty body.
const LEAST_FACT_BYTES: usize = 25;

/// Reads so many facts. No more is reserved for them than the bytes that are left can encode. Versions that don't
/// rise are `BadOrder`, and what is not allowed in a fragment with this `base` and this `horizon` `BadNumber`.
pub(crate) fn read_facts(
    alloc: Global,
    cursor: &mut Cursor,
    base: Time,
    horizon: Time,
    count: u32,
) -> Result<Vec<(VersionKey, Version)>, ReadError>
    ensures { GivesOrRunsOut (λ x. (x.items, cursor.new)) result (steps.fact_list_at base horizon count None cursor.old) }
{
    let room = (count as usize).min(cursor.len() / LEAST_FACT_BYTES);
    let mut facts = Vec::with_capacity(alloc, room)?;
    let mut before = None;
    for _ in 0..count {
        let fact = read_fact(alloc, cursor, base, horizon, before)?;
        before = Some(fact.0);
        facts.push(fact)?;
    }
    Ok(facts)
}

/// Reads a fragment. The first fault is that of its head, of its numbers and marks, or of its facts; `Memory` comes where a
/// growth is refused. Cost: O(n · log n), n bytes of it.
#[tactic(auto, unfolding(hk_fragment_bytes::specs::Fragments::fragment_at))]
pub fn read_fragment(alloc: Global, cursor: &mut Cursor) -> Result<Fragment, ReadError>
    ensures { GivesOrRunsOut (λ x. (spec.wire_fragment_of x, cursor.new)) result
        (spec.fragment_at cursor.old) }
{
    let head = read_fragment_head(cursor)?;
    let got = read_got(alloc, cursor, head.config, head.horizon)?;
    let count = cursor.u32()?;
    let facts = read_facts(alloc, cursor, head.base, head.horizon, count)?;
    let fragment = Fragment::new(head.config, head.base, head.horizon, got, facts)?;
    Ok(fragment)
}

/// Reads a fragment of base 0, as `read_fragment` does. Another base is `BadNumber`, after the faults of the fragment.
#[tactic(auto, unfolding(hk_fragment_bytes::specs::Fragments::whole_at))]
pub fn read_whole(alloc: Global, cursor: &mut Cursor) -> Result<Fragment, ReadError>
    ensures { GivesOrRunsOut (λ x. (spec.wire_fragment_of x, cursor.new)) result (spec.whole_at cursor.old) }
{
    let fragment = read_fragment(alloc, cursor)?;
    if fragment.base().number() != 0 {
        return Err(ReadError::Fault(FormFault::BadNumber));
    }
    Ok(fragment)
}
