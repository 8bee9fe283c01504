//! Which facts are the next chunk of those that are left.

ghost use Rattle.std.specs.Prelude.{◌≡◌, ◌≤◌, length};
ghost use Rattle.hk_values.specs.Cutting as spec;

use hk_fragment_bytes::fragment_encoding::fact_len;
use hk_log::Version;
use hk_types::VersionKey;

/// How many facts the longest front has that is at most so many bytes.
fn count_within(facts: &[(VersionKey, Version)], room: u64) -> usize
    ensures value { result ≡ spec.count_within room facts.now }
    ensures bound { result ≤ length facts.now }
{
    let mut left = room;
    let mut count = 0;
    for (version, known) in facts {
        let bytes = fact_len(*version, known);
        if left < bytes {
            return count;
        }
        left -= bytes;
        count += 1;
    }
    count
}

/// How many facts the next chunk has: the longest prefix that is at most so many bytes, and one fact at least.
pub(crate) fn next_count(facts: &[(VersionKey, Version)], most_bytes: u64) -> usize
    ensures value { result ≡ spec.next_count most_bytes facts.now }
    ensures bound { result ≤ length facts.now }
{
    match facts.split_first() {
        None => 0,
        Some((first, rest)) => {
            let room = most_bytes.saturating_sub(fact_len(first.0, &first.1));
            1 + count_within(rest, room)
        }
    }
}
