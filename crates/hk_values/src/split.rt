//! A fragment that is split into chunks.

ghost use Rattle.std.specs.Prelude.{◌≡◌, ◌<◌, ◌++◌, [], true, length};
ghost use Rattle.hk_fragment.specs.Assemblies.{rises};
ghost use Rattle.hk_fragment.specs.Heads.{facts_of};
ghost use Rattle.hk_values.specs.Cutting.{first_part, IsNextPart, IsPart};

use crate::cutting::next_count;
use hk_fragment::Fragment;
use hk_log::Version;
use hk_types::VersionKey;
use std::marker::Model;

/// A fragment that is returned chunk by chunk. It keeps the complete fragment until it is dropped, and copies nothing.
///
/// What was returned so far, one chunk after the other, and then what is left are the fragment's facts. What a
/// fragment is beside its facts, its log, base, horizon, numbers and marks, is read with `whole`.
#[derive(Drop)]
pub struct Split {
    whole: Fragment,
    from: usize,
    to: usize,
}

impl Model for Split {
    ghost use Rattle.std.specs.Prelude.{◌≤◌, length};
    ghost use Rattle.hk_fragment.specs.Heads.{facts_of};
    ghost use Rattle.hk_values.specs.Cutting.{SplitValue, split_code, split_seen};

    ghost Value = { SplitValue };

    ghost coded = { split_code };

    ghost view = { λ a. split_seen a.whole a.from a.to };

    ghost invariant = { λ a. (a.from ≤ a.to) × (a.to ≤ length (facts_of a.whole)) };
}

impl Split {
    /// A split of the fragment, of which nothing is returned so far. Cost: O(1).
    pub fn new(whole: Fragment) -> Split
        ensures whole { result.whole ≡ whole }
        ensures given { result.given ≡ [] }
        ensures part { result.part ≡ [] }
        ensures left { result.left ≡ facts_of whole }
    {
        Split {
            whole,
            from: 0,
            to: 0,
        }
    }

    /// The complete fragment. Cost: O(1).
    pub fn whole(&self) -> &Fragment
        ensures value { result.now ≡ self.now.whole }
        ensures facts { self.now.given ++ self.now.left ≡ facts_of self.now.whole }
        ensures rises { rises (facts_of self.now.whole) ≡ true }
    {
        let _facts_rise = self.whole.facts();
        &self.whole
    }

    /// Goes on to the next chunk: the longest prefix of what is left that is at most so many bytes long, and one fact
    /// at least, however long it is; none where nothing is left. The bytes are those that the facts have in a
    /// message, without their count: a chunk of one fact has 4,129 at most. Each chunk may have another limit. It
    /// takes no memory. Cost: O(n), n facts of the chunk.
    pub fn advance(&mut self, most_bytes: u64)
        ensures whole { self.new.whole ≡ self.old.whole }
        ensures part { self.new.part ≡ first_part most_bytes self.old.left }
        ensures given { self.new.given ≡ self.old.given ++ self.new.part }
        ensures left { self.old.left ≡ self.new.part ++ self.new.left }
        ensures bounds { 0 < length self.old.left → IsPart most_bytes self.new.part }
        ensures next { 0 < length self.old.left
            → IsNextPart most_bytes self.old.left self.new.part self.new.left }
        ensures rises { rises self.new.given ≡ true }
    {
        let facts = self.whole.facts();
        let count = next_count(&facts[self.to..], most_bytes);
        self.from = self.to;
        self.to += count;
    }

    /// The facts of the current chunk, by rising version key: none before the first `advance`, and none after one for
    /// which nothing was left. They are the same until the next `advance`. Cost: O(1).
    pub fn part(&self) -> &[(VersionKey, Version)]
        ensures { result.now ≡ self.now.part }
    {
        &self.whole.facts()[self.from..self.to]
    }

    /// How many facts come after that chunk. Cost: O(1).
    pub fn left(&self) -> usize
        ensures { result ≡ length self.now.left }
    {
        self.whole.facts().len() - self.to
    }
}
