//! What is sent to a replica.

ghost use Rattle.std.specs.Prelude.{◌≡◌, length, is_some};
ghost use Rattle.std.specs.List.{list_any};
ghost use Rattle.std.specs.Option.{option_copied};
ghost use Rattle.hk_model.specs.Replica.Rules.{contents_conflict};
ghost use Rattle.hk_model.specs.Replica.Lawful.{IsLawfulFragment};
ghost use Rattle.hk_facts.specs.Facts.{row_of};
ghost use Rattle.hk_store.specs.Learning.{IsTold, facts_told};
ghost use Rattle.hk_store.specs.Reads.{facts_of_content, with_facts};
ghost use Rattle.hk_store.specs.Versions.{value_conflicts_at};
ghost use Rattle.hk_merge.specs.Sent.{content_sent, fragment_sent, sends_row};

use hk_fragment::Fragment;
use hk_log::Version;
use hk_marks::Got;
use hk_state::ReplicaState;
use hk_store::{Facts, LearnSource};
use hk_types::{Config, Time, VersionKey};

/// What is sent to a replica of a log.
#[derive(Clone, Copy)]
pub enum Sent<'a> {
    /// What another replica holds and a replica may lack whose resolved time is at least the fragment's base.
    Part(&'a Fragment),
    /// All that another replica holds.
    Whole(&'a ReplicaState),
}

impl Sent<'_> {
    /// The log that it is of, and how many streams that has.
    pub(crate) fn config(&self) -> Config
        ensures log { result.log ≡ (fragment_sent self.now).content.log }
        ensures streams { result.streams ≡ length (fragment_sent self.now).content.streams }
    {
        match self {
            Sent::Part(fragment) => fragment.config(),
            Sent::Whole(state) => state.config(),
        }
    }

    /// The time up to which a target has to be readable.
    pub(crate) fn base(&self) -> Time
        ensures { result ≡ (fragment_sent self.now).base }
    {
        match self {
            Sent::Part(fragment) => fragment.base(),
            Sent::Whole(_) => Time::zero(),
        }
    }

    /// The oldest readable time of the sender.
    pub(crate) fn horizon(&self) -> Time
        ensures value { result ≡ (fragment_sent self.now).content.horizon }
        ensures lawful { IsLawfulFragment (fragment_sent self.now) }
    {
        match self {
            Sent::Part(fragment) => fragment.horizon(),
            Sent::Whole(state) => state.horizon(),
        }
    }

    /// All numbers and marks of the sender.
    pub(crate) fn got(&self) -> &Got
        ensures { result.now ≡ (fragment_sent self.now).content.streams }
    {
        match self {
            Sent::Part(fragment) => fragment.got(),
            Sent::Whole(state) => state.got(),
        }
    }

    /// The facts that are sent.
    pub(crate) fn told(&self) -> LearnSource<'_>
        ensures told { IsTold result }
        ensures facts { facts_told result ≡ facts_of_content (content_sent self.now) }
    {
        match self {
            Sent::Part(fragment) => LearnSource::Listed(fragment.facts()),
            Sent::Whole(state) => LearnSource::Held(state.facts()),
        }
    }

    /// Whether the row of a version is sent.
    pub(crate) fn has_row(&self, version: &VersionKey) -> bool
        ensures { result ≡ sends_row self.now version.now }
    {
        match self {
            Sent::Part(fragment) => has_row(fragment.version(*version)),
            Sent::Whole(state) => state.facts().row_at(version).is_some(),
        }
    }

    /// Whether the target has another row, or another end, of a version that is sent. It takes no memory.
    pub(crate) fn conflicts_with(&self, own: &Facts) -> bool
        ensures { result ≡ contents_conflict (with_facts own.now) (fragment_sent self.now).content }
    {
        match self {
            Sent::Part(fragment) => has_conflict(own, fragment.facts()),
            Sent::Whole(state) => own.conflicts_with(state.facts()),
        }
    }
}

/// Whether a row is known.
pub(crate) fn has_row(held: Option<&Version>) -> bool
    ensures { result ≡ is_some (row_of (option_copied held.entry)) }
{
    match held {
        Some(known) => known.row().is_some(),
        None => false,
    }
}

/// Whether there is another row, or another end, of one of these versions.
fn has_conflict(own: &Facts, facts: &[(VersionKey, Version)]) -> bool
    ensures { result ≡ list_any (λ e. value_conflicts_at own.now e.0 e.1) facts.now }
{
    facts
        .iter()
        .any(|(version, known)| own.value_conflicts_at(version, known))
}
