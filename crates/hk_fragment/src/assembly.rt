//! A fragment that is put together from chunks.

ghost use Rattle.std.specs.Prelude.{◌≡◌, ◌++◌, [], true, length, IfErr, OnErr, OnOk};
ghost use Rattle.hk_fragment.specs.Parts.{checked_fragment};
ghost use Rattle.hk_fragment.specs.Heads.{head_with, of_facts};
ghost use Rattle.hk_fragment.specs.Assemblies.{checked_last, part_refusal, rises};

use crate::fragment::{Fragment, follows};
use hk_log::Version;
use hk_marks::Got;
use hk_types::{Config, FormFault, Refusal, Time, VersionKey};
use std::alloc::Global;
use std::marker::Model;

/// The chunks of a fragment that came so far. Contracts see the facts that were added, one chunk after the other.
///
/// Nothing is tested of them but their order, and nothing can be done with them but to add more and, with the head,
/// to make the one fragment of all: a chunk alone is no fragment.
#[derive(Drop)]
pub struct Assembly {
    facts: Vec<(VersionKey, Version)>,
    last: Option<VersionKey>,
}

impl Model for Assembly {
    ghost use Rattle.std.specs.Prelude.{List};
    ghost use Rattle.std.specs.Coded.{coded_list};
    ghost use Rattle.hk_fragment.specs.Parts.{Known};
    ghost use Rattle.hk_fragment.specs.Assemblies.{IsAssembly, known_code};

    ghost Value = { List Known };

    ghost coded = { coded_list known_code };

    ghost view = { λ a. a.facts.items };

    ghost invariant = { λ a. IsAssembly a.facts.items a.last };
}

/// The last version, where the facts rise and come after the one before; that one where there are no facts. `BadOrder`
/// where they don't.
fn last_if_rising(
    before: Option<VersionKey>,
    facts: &[(VersionKey, Version)],
) -> Result<Option<VersionKey>, FormFault>
    ensures { result ≡ checked_last before facts.now }
{
    let mut last = before;
    for (version, _known) in facts {
        if !follows(last, *version) {
            return Err(FormFault::BadOrder);
        }
        last = Some(*version);
    }
    Ok(last)
}

impl Assembly {
    /// Nothing came so far. It takes no memory. Cost: O(1).
    pub fn new(alloc: Global) -> Assembly
        ensures { result ≡ [] }
    {
        Assembly {
            facts: Vec::new(alloc),
            last: None,
        }
    }

    /// How many facts were added. Cost: O(1).
    pub fn count(&self) -> usize
        ensures { result ≡ length self.now }
    {
        self.facts.len()
    }

    /// Whether the chunk's version keys rise, and the first of them is above the last that was added. Cost: O(n), n facts
    /// of the chunk.
    pub fn rises_with(&self, part: &[(VersionKey, Version)]) -> bool
        ensures { result ≡ rises (self.now ++ part.now) }
    {
        last_if_rising(self.last, part).is_ok()
    }

    /// Adds a chunk behind those that were added before it. Its bodies are moved, and a refused chunk is dropped.
    ///
    /// - `Form(BadOrder)`: its version keys don't rise, or the first of them isn't above the last that was added.
    /// - `Memory`: a growth was refused.
    ///
    /// After each refusal what was added before it is there as it was. Cost: O(n), n facts of the chunk, and now and
    /// then O(m), m facts of all chunks, where the list grows: O(m) for all chunks together.
    pub fn add(&mut self, part: Vec<(VersionKey, Version)>) -> Result<(), Refusal>
        ensures ok { OnOk result (self.new ≡ self.old ++ part.items) }
        ensures rises { OnOk result (rises self.new ≡ true) }
        ensures err { IfErr result (λ why. why ≡ part_refusal self.old part.items) }
        ensures kept { OnErr result (self.new ≡ self.old) }
    {
        let Ok(last) = last_if_rising(self.last, &part) else {
            return Err(Refusal::Form(FormFault::BadOrder));
        };
        let mut part = part;
        self.facts.append(&mut part)?;
        self.last = last;
        Ok(())
    }

    /// The fragment of this head, which has the number of its facts, and all added facts, or the first of these faults:
    ///
    /// - `BadCount`: another number of facts was added;
    /// - then the faults of `Fragment::new`, in its order. Of the facts only `BadNumber` is left, since their order was
    ///   tested as they came.
    ///
    /// The facts are moved, and dropped with a fault. It takes no memory. Cost: O(s + n), s streams, n facts.
    pub fn into_fragment(
        self,
        config: Config,
        base: Time,
        horizon: Time,
        got: Got,
        count: u64,
    ) -> Result<Fragment, FormFault>
        requires { length got ≡ config.streams }
        ensures checked { length self ≡ count → result ≡ checked_fragment config base horizon got self }
        ensures head { result ≡ of_facts (head_with config base horizon got count) self }
    {
        if self.facts.len() as u64 != count {
            return Err(FormFault::BadCount);
        }
        Fragment::new(config, base, horizon, got, self.facts)
    }
}
