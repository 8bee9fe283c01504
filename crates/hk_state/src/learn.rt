//! Adding what another replica sends, where the oldest readable time does not change.

ghost use Rattle.std.specs.Prelude.{◌≡◌, length, false, IfErr, OnOk, OnErr};
ghost use Rattle.hk_model.specs.Replica.Lawful.{IsLawful};
ghost use Rattle.hk_model.specs.Replica.Rules.{contents_conflict};
ghost use Rattle.hk_model.specs.Replica.Streams.{all_together};
ghost use Rattle.hk_state.specs.Changes.{RefusesLearning, content_learnt};
ghost use Rattle.hk_store.specs.Undos.{rolled_back};
ghost use Rattle.hk_store.specs.Learning.{IsTold, Learns, RefusesTold, facts_conflict, facts_told};
ghost use Rattle.hk_store.specs.Reads.{with_facts};

use crate::replica::ReplicaState;
use hk_marks::Got;
use hk_store::{Facts, LearnScope, LearnSource, Undo};
use hk_types::Refusal;
use std::alloc::Global;

/// Adds what comes of all that is sent, each that is new noted, and then joins the given numbers and marks.
fn learn_noted(
    facts: &mut Facts,
    got: &mut Got,
    undo: &mut Undo,
    told: &LearnSource,
    coming: &LearnScope,
    given: &Got,
) -> Result<(), Refusal>
    requires told { IsTold told.now }
    requires as_many { length got.old ≡ length given.now }
    ensures facts { OnOk result (Learns facts.old facts.new coming.now (facts_told told.now)) }
    ensures agrees { OnOk result (facts_conflict facts.old (facts_told told.now) ≡ false) }
    ensures err { IfErr result (λ why. RefusesTold facts.old (facts_told told.now) why) }
    ensures got { OnOk result (got.new ≡ all_together got.old given.now) }
    ensures kept { OnErr result (got.new ≡ got.old) }
    ensures back { rolled_back undo.new facts.new ≡ rolled_back undo.old facts.old }
{
    facts.learn(undo, told, coming)?;
    got.join(given)
}

/// Adds what comes of all that is sent, and joins the given numbers and marks: all of it or nothing.
fn learn_all(
    alloc: Global,
    facts: &mut Facts,
    got: &mut Got,
    told: &LearnSource,
    coming: &LearnScope,
    given: &Got,
) -> Result<(), Refusal>
    requires told { IsTold told.now }
    requires as_many { length got.old ≡ length given.now }
    ensures facts { OnOk result (Learns facts.old facts.new coming.now (facts_told told.now)) }
    ensures agrees { OnOk result (facts_conflict facts.old (facts_told told.now) ≡ false) }
    ensures err { IfErr result (λ why. RefusesTold facts.old (facts_told told.now) why) }
    ensures got { OnOk result (got.new ≡ all_together got.old given.now) }
    ensures same_facts { OnErr result (facts.new ≡ facts.old) }
    ensures same_got { OnErr result (got.new ≡ got.old) }
{
    let mut undo = Undo::new(alloc);
    if let Err(why) = learn_noted(facts, got, &mut undo, told, coming, given) {
        facts.take_back(undo);
        return Err(why);
    }
    Ok(())
}

impl ReplicaState {
    /// Adds what is sent, and joins the numbers and marks that are given: all of it or nothing. The oldest readable time
    /// does not change, and what is known is kept. Of what is sent come the rows born above the oldest readable time, or
    /// all rows where `old`, and the ends above it, each where none is known.
    ///
    /// `Conflict` where it has another row, or another end, of a version than is known, also where that would not
    /// come; `Memory` where a growth was refused, even if a version after it conflicts. A refusal changes nothing.
    ///
    /// Cost: O((s + c + g) · log (n + c) + b), s streams, c versions that are sent, g numbers and marks given and those
    /// held that they free, n facts, extra numbers and waiting marks held, b bytes of bodies compared or copied.
    pub fn learn(&mut self, told: &LearnSource, old: bool, given: &Got) -> Result<(), Refusal>
        requires told { IsTold told.now }
        requires lawful { IsLawful (content_learnt self.old old told.now given.now) }
        requires as_many { length given.now ≡ length self.old.streams }
        ensures ok { OnOk result (self.new ≡ content_learnt self.old old told.now given.now) }
        ensures agrees { OnOk result (contents_conflict self.old (with_facts (facts_told told.now)) ≡ false) }
        ensures err { IfErr result (λ why. RefusesLearning self.old told.now why) }
        ensures kept { OnErr result (self.new ≡ self.old) }
    {
        let coming = LearnScope {
            old,
            horizon: self.horizon,
        };
        learn_all(
            self.alloc,
            &mut self.facts,
            &mut self.got,
            told,
            &coming,
            given,
        )?;
        Ok(())
    }
}
