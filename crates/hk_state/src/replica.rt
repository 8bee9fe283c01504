//! The state of a replica.

ghost use Rattle.std.specs.Prelude.{◌≡◌, ℕ, ◌<◌, ◌≤◌, length, IfOk, IfErr, IfSome, IfNone, MatchOption};
ghost use Rattle.std.specs.Option.{option_copied};
ghost use Rattle.std.specs.FinMap as finmap;
ghost use Rattle.hk_types.specs.declared.faults.Refusal.TheVariants.{Memory};
ghost use Rattle.hk_model.specs.History.Rows.{RowKey};
ghost use Rattle.hk_model.specs.Replica.Content.{readable};
ghost use Rattle.hk_model.specs.Replica.Lawful.{IsLawful};
ghost use Rattle.hk_model.specs.Replica.Replicas.{empty_content};
ghost use Rattle.hk_state.specs.Replica.{closed_at};

use hk_marks::Got;
use hk_store::Facts;
use hk_types::{Config, Refusal, StreamNo, Time};
use std::alloc::Global;
use std::marker::Model;

/// What a replica of one log holds: the rows and the ends of versions, its oldest readable time, and what is known of
/// each stream. Contracts see it as its content.
pub struct ReplicaState {
    pub(crate) config: Config,
    pub(crate) horizon: Time,
    pub(crate) facts: Facts,
    pub(crate) got: Got,
    pub(crate) alloc: Global,
}

// Written out, so that a crate above which drops one sees one call, and not all that it holds.
impl Drop for ReplicaState {
    fn drop(self) {
        let ReplicaState {
            config: _,
            horizon: _,
            facts,
            got,
            alloc: _,
        } = self;
        drop(facts);
        drop(got);
    }
}

impl Model for ReplicaState {
    ghost use Rattle.hk_model.specs.Replica.Content.{Content};
    ghost use Rattle.hk_model.specs.Replica.Codes.{content_code};
    ghost use Rattle.hk_state.specs.Replica.{content_of_parts, IsReplica};

    ghost Value = { Content };

    ghost coded = { content_code };

    ghost view = { λ a. content_of_parts a.config a.horizon a.facts a.got };

    ghost invariant = { λ a. IsReplica a.config a.horizon a.facts a.got };
}

impl ReplicaState {
    /// The state of a replica that has applied nothing. The only refusal is `Memory`. Cost: O(s), s streams.
    pub fn new(alloc: Global, config: Config) -> Result<ReplicaState, Refusal>
        ensures ok { IfOk result (λ state. state ≡ empty_content config) }
        ensures err { IfErr result (λ why. why ≡ Memory) }
    {
        let got = Got::new(alloc, config)?;
        Ok(ReplicaState {
            config,
            horizon: Time::zero(),
            facts: Facts::new(alloc),
            got,
            alloc,
        })
    }

    /// The id of the log, and how many streams it has.
    pub fn config(&self) -> Config
        ensures log { result.log ≡ self.now.log }
        ensures streams { result.streams ≡ length self.now.streams }
    {
        self.config
    }

    /// The oldest readable time: the least time that can be asked. It takes no memory.
    pub fn horizon(&self) -> Time
        ensures value { result ≡ self.now.horizon }
        ensures lawful { IsLawful self.now }
    {
        self.horizon
    }

    /// The resolved time: the greatest time that can be asked, which is the least closed time over all streams. It
    /// takes no memory. Cost: O(s), s streams.
    pub fn readable(&self) -> Time
        ensures value { result ≡ readable self.now }
        ensures lawful { IsLawful self.now }
    {
        self.got.readable()
    }

    /// The time up to which a stream is closed, or `None` where the log has no such stream. It takes no
    /// memory.
    pub fn closed(&self, stream: StreamNo) -> Option<Time>
        ensures { result ≡ closed_at self.now.streams stream }
    {
        if stream.number() > self.config.streams() {
            return None;
        }
        Some(self.got.closed(stream))
    }

    /// The numbers and marks of the streams.
    pub fn got(&self) -> &Got
        ensures { result.now ≡ self.now.streams }
    {
        &self.got
    }
}
