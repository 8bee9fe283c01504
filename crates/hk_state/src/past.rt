//! Whether a prune touches the past.

ghost use Rattle.std.specs.Prelude.{◌≡◌, ◌-◌, ◌&&◌, is_some};
ghost use Rattle.std.specs.Option.{option_map};
ghost use Rattle.std.specs.List.{list_any};
ghost use Rattle.std.specs.FinMap as finmap;
ghost use Rattle.hk_facts.specs.Chains.{latest_at};
ghost use Rattle.hk_model.specs.Replica.Content.{ended_by};
ghost use Rattle.hk_model.specs.Replica.Touches as spec;
ghost use Rattle.hk_state.specs.Touched.{stays_found};

use crate::replica::ReplicaState;
use hk_facts::{Chain, ended_by};
use hk_log::Version;
use hk_types::{Time, VersionKey};

/// Of the versions of a chain that have a row and were born before a time, the one born last.
fn latest_before(chain: &Chain, time: Time) -> Option<(Time, &Version)>
    ensures { option_map (λ p. (p.0, p.1.now)) result ≡ latest_at chain.now (time - 1) }
{
    match Time::new(time.number().saturating_sub(1)) {
        Ok(before) => chain.latest(before),
        Err(_above_all) => chain.latest(time),
    }
}

/// Whether, of the versions of a chain that have a row and were born before a time, the one born last has no end by the `horizon`.
fn open_before(chain: &Chain, time: Time, horizon: Time) -> bool
    ensures { result ≡ stays_found horizon (latest_at chain.now (time - 1)) }
{
    match latest_before(chain, time) {
        Some((_born, older)) => !ended_by(older, horizon),
        None => false,
    }
}

impl ReplicaState {
    /// Whether a prune to a time touches the past: a row that is dropped lets an older one of its key show, which had
    /// no end, so that what was answered from that time on would change. With the items of one log no prune does. It is
    /// never refused for want of memory. Cost: O((1 + d) · log n), n facts, d versions that are dropped; where there is
    /// no memory to list those, O(n · log n).
    pub fn prune_touches_past(&self, time: Time) -> bool
        ensures { result ≡ spec.prune_touches_past self.now time }
    {
        match self.facts.ended(self.alloc, time) {
            Ok(ended) => self.one_lets_older_show(&ended, time),
            Err(_refused) => self.some_lets_older_show(time),
        }
    }

    /// Whether the row of one of these versions does.
    fn one_lets_older_show(&self, versions: &[VersionKey], time: Time) -> bool
        ensures { result ≡ list_any (λ v. is_some (finmap.get self.now.rows v)
            && spec.uncovers self.now time v) versions.now }
    {
        versions
            .iter()
            .any(|version| self.lets_older_show(version, time))
    }

    /// The same of all, one after the other, where there is no list of those that go.
    fn some_lets_older_show(&self, time: Time) -> bool
        ensures { result ≡ spec.prune_touches_past self.now time }
    {
        for (version, _known) in self.facts.walk() {
            if self.lets_older_show(&version, time) {
                return true;
            }
        }
        false
    }

    /// Whether the row of a version lets an older one show in a prune to a time.
    fn lets_older_show(&self, version: &VersionKey, time: Time) -> bool
        ensures { result ≡ (is_some (finmap.get self.now.rows version.now)
            && spec.uncovers self.now time version.now) }
    {
        self.next_older_stays(version, time)
            && self.goes(version, time)
            && self
                .facts
                .shown_at(version.table, version.key, time)
                .is_none()
    }

    /// Whether a prune to a time keeps the row that was born last before a version.
    fn next_older_stays(&self, version: &VersionKey, time: Time) -> bool
        ensures { result ≡ spec.next_older_stays self.now time version.now }
    {
        let _lawful = self.horizon();
        let Some(chain) = self.facts.chain(version.table, version.key) else {
            return false;
        };
        open_before(chain, version.born, time)
    }

    /// Whether a version has a row that a prune to a time drops.
    fn goes(&self, version: &VersionKey, time: Time) -> bool
        ensures { result ≡ (is_some (finmap.get self.now.rows version.now)
            && ended_by self.now.ends time version.now) }
    {
        match self.facts.version(version) {
            Some(known) => known.row().is_some() && ended_by(known, time),
            None => false,
        }
    }
}
