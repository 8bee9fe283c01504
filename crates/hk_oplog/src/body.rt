//! What a copy of the node's state holds, and what operations make of it.

ghost use Rattle.std.specs.Prelude.{◌≡◌, ◌≢◌, ◌⊎◌, ◌<◌, ◌≤◌, ◌^◌, true, length, None, IsOk, IfOk, IfErr, IfSome, IfNone, MatchResult};
ghost use Rattle.std.specs.Option.{option_map};
ghost use Rattle.hk_types.specs.declared.faults.Refusal.TheVariants.{Damaged, Memory};
ghost use Rattle.hk_model.specs.Replica.Content.{readable};
ghost use Rattle.hk_model.specs.Replica.Fragments.{cut};
ghost use Rattle.hk_model.specs.Replica.Rules.{contents_conflict};
ghost use Rattle.hk_model.specs.Replica.Touches.{join_touches_past, prune_touches_past};
ghost use Rattle.hk_model.specs.Replica.Pages.{page_seen};
ghost use Rattle.hk_model.specs.Replica.StreamsTold.{streams_seen};
ghost use Rattle.hk_oplog.specs.declared.op.Op.TheVariants.{Hold as HoldAt, Join as JoinOf, Prune as PruneTo, Release};
ghost use Rattle.hk_oplog.specs.Replay as spec;
ghost use Rattle.std.specs.BTreeMap as tree;
ghost use Rattle.std.specs.List.{list_any};
ghost use Rattle.std.specs.Ordering.{nat_cmp};
ghost use Rattle.hk_oplog.specs.Pins.{pins_of};
ghost use Rattle.hk_oplog.specs.Replay.{is_hold, content_after_op, start_content, effect, full_refusal, held_refusal, past_refusal, prune_reach, refusal_of, IsApplied};
ghost use Rattle.hk_merge.specs.Sent.{fragment_sent};
ghost use Rattle.hk_store.specs.Reads.{facts_of_content};
ghost use Rattle.hk_store.specs.TableLists.{AreTables};
ghost use Rattle.hk_oplog.specs.Guarded.{AgreesWith};
ghost use Rattle.hk_oplog.specs.NewItems.{count_new};
ghost use Rattle.hk_oplog.specs.Replies.{Answers, GivesOrMemory, GivesPageOrNone, GivesSeen, MayBeLong, timed_seen, node_delta, node_front, node_latest, page_asked, node_reply, node_streams, node_whole};

use crate::op::{Hold, NodeKind, Op};
use crate::sizes::{NodeSizes, weight_of};
use hk_delta::{agreed_so, conflicts_with, delta_since, join, whole_of};
use hk_fragment::Fragment;
use hk_log::Item;
use hk_merge::{Sent, join_touches_past, wrong_log};
use hk_model::{Answer, Front, Page, PageQuery, Query, StreamsTold};
use hk_query::{ask, latest, page, page_within};
use hk_state::{ReplicaState, front_of};
use hk_types::{Config, LAST_OP, Refusal, Table, Time};
use std::alloc::{AllocError, Global};
use std::collections::BTreeMap;
use std::marker::Model;

/// The number of the operation after so many, or `NodeFull` after `LAST_OP` of them. It takes no memory.
pub fn next_op(count: u64) -> Result<u64, Refusal>
    ensures { result ≡ spec.next_op count }
{
    if count >= LAST_OP {
        return Err(Refusal::NodeFull);
    }
    Ok(count + 1)
}

/// What a copy holds: the state of a replica, the active pins, whether it met a conflict, whether it is guarded, and the
/// counts of pins and of operations.
#[derive(Drop)]
pub struct Body {
    state: ReplicaState,
    /// The active pins, by their numbers.
    holds: BTreeMap<u64, Time>,
    damaged: bool,
    guarded: bool,
    hold_count: u64,
    op_count: u64,
}

impl Model for Body {
    ghost use Rattle.std.specs.Prelude.{◌≤◌, ◌^◌};
    ghost use Rattle.hk_oplog.specs.NodeContent.{NodeContent, node_code};
    ghost use Rattle.hk_oplog.specs.Pins.{AreNumbered, pins_of};

    ghost Value = { NodeContent };

    ghost coded = { node_code };

    ghost view = { λ b. record { content = b.state; holds = pins_of b.holds; damaged = b.damaged; guarded = b.guarded; hold_count = b.hold_count; op_count = b.op_count } };

    ghost invariant = { λ b. (b.hold_count ≤ b.op_count) × (b.op_count ≤ 2 ^ 62) × AreNumbered b.hold_count b.holds };
}

/// The first of two pins, by time and then by number.
fn first_of_two(least: Option<Hold>, reader: u64, at: Time) -> Option<Hold>
    ensures { result ≡ spec.first_of_two least (record { reader = reader; at = at }) }
{
    if let Some(least) = least {
        let is_before = at < least.at || (at == least.at && reader < least.reader);
        if !is_before {
            return Some(least);
        }
    }
    Some(Hold { reader, at })
}

/// The pin of the least time, and of the least number there. It takes no memory.
fn least_hold(holds: &BTreeMap<u64, Time>) -> Option<Hold>
    ensures { result ≡ spec.least_hold (pins_of holds.now) }
{
    let mut least = None;
    for (reader, at) in holds.iter() {
        least = first_of_two(least, *reader, *at);
    }
    least
}

/// Whether a pin of this number and time is among these. It takes no memory. Cost: O(log h), h pins.
fn is_among(holds: &BTreeMap<u64, Time>, reader: u64, at: Time) -> bool
    requires { tree.IsOrdered nat_cmp holds.now }
    ensures { result ≡ list_any (is_hold reader at) (pins_of holds.now) }
{
    match holds.get(&reader) {
        Some(time) => *time == at,
        None => false,
    }
}

impl Body {
    /// What a copy of a new node holds. The only refusal is `Memory`.
    pub fn new(alloc: Global, kind: NodeKind) -> Result<Body, Refusal>
        ensures ok { IfOk result (λ body. body ≡ start_content kind) }
        ensures err { IfErr result (λ why. why ≡ Memory) }
    {
        Ok(Body {
            state: ReplicaState::new(alloc, kind.config)?,
            holds: BTreeMap::new(alloc),
            damaged: false,
            guarded: kind.guarded,
            hold_count: 0,
            op_count: 1,
        })
    }

    /// `NodeFull` where there is no room for one operation more. It takes no memory.
    pub fn full_refusal(&self) -> Option<Refusal>
        ensures { result ≡ full_refusal self.now }
    {
        match next_op(self.op_count) {
            Ok(_) => None,
            Err(why) => Some(why),
        }
    }

    /// How far a prune to a time reaches: to the least pinned time, where that is lower.
    fn reach(&self, time: Time) -> Time
        ensures { result ≡ spec.prune_reach self.now time }
    {
        match least_hold(&self.holds) {
            Some(Hold { at, .. }) if at < time => at,
            _ => time,
        }
    }

    /// The pin that the oldest readable time would pass, where a join raises it to this.
    fn held_refusal(&self, horizon: Time) -> Option<Refusal>
        ensures { result ≡ held_refusal self.now horizon }
    {
        if horizon <= self.state.horizon() {
            return None;
        }
        match least_hold(&self.holds) {
            Some(Hold { reader, at }) if at < horizon => Some(Refusal::Held { reader, at }),
            _ => None,
        }
    }

    /// Why a fragment of this log, this base and this horizon does not fit. It takes no memory.
    fn fit_refusal(&self, config: Config, base: Time, horizon: Time) -> Option<Refusal>
        ensures { result ≡ spec.fit_refusal self.now config.log config.streams base horizon }
    {
        if self.damaged {
            return Some(Refusal::Damaged);
        }
        if let Some(why) = wrong_log(&self.state, config) {
            return Some(why);
        }
        let readable = self.state.readable();
        if readable < base {
            return Some(Refusal::Gap { base, readable });
        }
        self.held_refusal(horizon)
    }

    /// Why a fragment is not joined, but for a conflict. It takes no memory.
    fn fit_or_full(&self, fragment: &Fragment) -> Option<Refusal>
        ensures { result ≡ spec.fit_or_full self.now fragment.now }
    {
        match self.fit_refusal(fragment.config(), fragment.base(), fragment.horizon()) {
            Some(why) => Some(why),
            None => self.full_refusal(),
        }
    }

    /// `Conflict` where this is guarded and conflicts with a fragment.
    fn guard_refusal(&self, fragment: &Fragment) -> Option<Refusal>
        ensures { result ≡ spec.guard_refusal self.now fragment.now.content }
    {
        if self.guarded && conflicts_with(&self.state, fragment) {
            return Some(Refusal::Conflict);
        }
        None
    }

    fn conflicts_with_state(&self, state: &ReplicaState) -> bool
        ensures { result ≡ contents_conflict self.now.content (cut state.now 0).content }
    {
        let _lawful = state.horizon();
        let theirs = state.facts();
        self.state.facts().conflicts_with(theirs)
    }

    /// `Conflict` where this is guarded and conflicts with a state.
    fn guard_refusal_of_state(&self, state: &ReplicaState) -> Option<Refusal>
        ensures { result ≡ spec.guard_refusal self.now (cut state.now 0).content }
    {
        if self.guarded && self.conflicts_with_state(state) {
            return Some(Refusal::Conflict);
        }
        None
    }

    /// `Conflict` where this is guarded and joining what is sent would touch its past.
    fn past_refusal(&self, sent: &Sent) -> Option<Refusal>
        ensures { result ≡ spec.past_refusal self.now (join_touches_past self.now.content (fragment_sent sent.now)) }
    {
        if self.guarded && join_touches_past(&self.state, sent) {
            return Some(Refusal::Conflict);
        }
        None
    }

    /// The same of the full snapshot of a state.
    fn past_refusal_of_state(&self, state: &ReplicaState) -> Option<Refusal>
        ensures { result ≡ spec.past_refusal self.now (join_touches_past self.now.content (cut state.now 0)) }
    {
        let _lawful = state.horizon();
        self.past_refusal(&Sent::Whole(state))
    }

    fn join_refused(&self, fragment: &Fragment) -> Option<Refusal>
        ensures { result ≡ spec.join_refused self.now fragment.now }
    {
        if let Some(why) = self.fit_refusal(
            fragment.config(),
            fragment.base(),
            fragment.horizon(),
        ) {
            return Some(why);
        }
        if let Some(why) = self.guard_refusal(fragment) {
            return Some(why);
        }
        match self.past_refusal(&Sent::Part(fragment)) {
            Some(why) => Some(why),
            None => self.full_refusal(),
        }
    }

    /// Why the full snapshot of a state is not joined. It is never refused for want of memory.
    pub fn merge_refusal(&self, state: &ReplicaState) -> Option<Refusal>
        ensures { result ≡ spec.join_refused self.now (cut state.now 0) }
    {
        if let Some(why) = self.fit_refusal(state.config(), Time::zero(), state.horizon()) {
            return Some(why);
        }
        if let Some(why) = self.guard_refusal_of_state(state) {
            return Some(why);
        }
        match self.past_refusal_of_state(state) {
            Some(why) => Some(why),
            None => self.full_refusal(),
        }
    }

    /// The fragment of what is new in items, where they agree with what is held and with each other; where this is
    /// guarded, each entry whose number is applied already is compared.
    pub fn agreed(&self, alloc: Global, items: &[Item]) -> Result<Fragment, Refusal>
        ensures { AgreesWith self.now items.now result }
    {
        if self.damaged {
            return Err(Refusal::Damaged);
        }
        agreed_so(alloc, &self.state, items, self.guarded)
    }

    /// How many of the items are new, each compared with what is held.
    pub fn count_new(&self, items: &[Item]) -> u64
        ensures { result ≡ count_new self.now.content items.now }
    {
        crate::new_items::count_new(&self.state, items)
    }

    /// Why this is not pruned to a time, whether or not it touches the past.
    fn prune_unfit(&self, time: Time) -> Option<Refusal>
        ensures { result ≡ spec.unfit_of self.now (PruneTo time) }
    {
        if self.damaged {
            return Some(Refusal::Damaged);
        }
        let readable = self.state.readable();
        if readable < time {
            return Some(Refusal::AheadOfMark { readable });
        }
        self.full_refusal()
    }

    /// `Conflict` where this is guarded and the prune, as far as it reaches, would touch its past.
    fn uncovering_refusal(&self, time: Time) -> Option<Refusal>
        ensures { result ≡ past_refusal self.now
            (prune_touches_past self.now.content (prune_reach self.now time)) }
    {
        if self.guarded && self.state.prune_touches_past(self.reach(time)) {
            return Some(Refusal::Conflict);
        }
        None
    }

    fn prune_refused(&self, time: Time) -> Option<Refusal>
        ensures { result ≡ refusal_of self.now (PruneTo time) }
    {
        if self.damaged {
            return Some(Refusal::Damaged);
        }
        let readable = self.state.readable();
        if readable < time {
            return Some(Refusal::AheadOfMark { readable });
        }
        match self.uncovering_refusal(time) {
            Some(why) => Some(why),
            None => self.full_refusal(),
        }
    }

    fn hold_refused(&self, time: Time) -> Option<Refusal>
        ensures { result ≡ refusal_of self.now (HoldAt time) }
    {
        if self.damaged {
            return Some(Refusal::Damaged);
        }
        let horizon = self.state.horizon();
        if time < horizon {
            return Some(Refusal::TooOld { horizon });
        }
        self.full_refusal()
    }

    fn release_refused(&self, reader: u64, at: Time) -> Option<Refusal>
        ensures { result ≡ refusal_of self.now (Release reader at) }
    {
        if self.damaged {
            return Some(Refusal::Damaged);
        }
        if !is_among(&self.holds, reader, at) {
            return Some(Refusal::NoHold);
        }
        self.full_refusal()
    }

    /// Why an operation is refused, if it is. It is never refused for want of memory. Cost: O(s + h), s streams, h active
    /// pins, which are looked at where a join would raise the oldest readable time; a release costs O(log h); where this is guarded,
    /// for a join or merge also that of `conflicts_with` and of `hk_merge::join_touches_past`, for a prune that of
    /// `ReplicaState::prune_touches_past`.
    pub fn refusal(&self, op: &Op) -> Option<Refusal>
        ensures { result ≡ refusal_of self.now op.now }
    {
        match op {
            Op::Start(_) => Some(Refusal::Damaged),
            Op::Join(fragment) => self.join_refused(fragment),
            Op::Merge(whole) => self.join_refused(whole),
            Op::Prune(time) => self.prune_refused(*time),
            Op::Hold(time) => self.hold_refused(*time),
            Op::Release { reader, at } => self.release_refused(*reader, *at),
        }
    }

    /// What is left by a conflict that a join met: a guarded node refuses such a join.
    fn meet_conflict(&mut self)
        requires { self.old.op_count < 2 ^ 62 }
        ensures { self.new ≡ spec.after_conflict self.old }
    {
        if !self.guarded {
            self.damaged = true;
            self.op_count += 1;
        }
    }

    fn join_fitting(&mut self, fragment: &Fragment) -> Result<(), AllocError>
        requires { spec.fit_or_full self.old fragment.now ≡ None }
        ensures { IsApplied self.old (JoinOf fragment.now) self.new result }
    {
        match join(&mut self.state, fragment) {
            Ok(()) => {
                self.op_count += 1;
                Ok(())
            }
            Err(why) => match why {
                Refusal::Memory => Err(AllocError),
                _ => {
                    self.meet_conflict();
                    Ok(())
                }
            },
        }
    }

    /// Joins a fragment, or does nothing where that is refused. Whether it conflicts is seen while it is joined, not tested
    /// before. It changes nothing where memory is refused.
    fn join(&mut self, fragment: &Fragment) -> Result<(), AllocError>
        ensures { IsApplied self.old (JoinOf fragment.now) self.new result }
    {
        match self.fit_or_full(fragment) {
            Some(_) => Ok(()),
            None => self.join_fitting(fragment),
        }
    }

    /// Prunes to a time, or does nothing where that does not fit. It changes nothing where memory is refused.
    fn prune(&mut self, time: Time) -> Result<(), AllocError>
        ensures { IsApplied self.old (PruneTo time) self.new result }
    {
        match self.prune_unfit(time) {
            Some(_) => Ok(()),
            None => self.prune_fitting(time),
        }
    }

    fn prune_fitting(&mut self, time: Time) -> Result<(), AllocError>
        requires { spec.unfit_of self.old (PruneTo time) ≡ None }
        ensures { MatchResult result (λ _. self.new ≡ effect self.old (PruneTo time)) (λ _. self.new ≡ self.old) }
    {
        let reach = self.reach(time);
        if self.state.prune(reach).is_err() {
            return Err(AllocError);
        }
        self.op_count += 1;
        Ok(())
    }

    fn hold(&mut self, at: Time) -> Result<(), AllocError>
        requires { self.old.op_count < 2 ^ 62 }
        ensures { MatchResult result (λ _. self.new ≡ effect self.old (HoldAt at)) (λ _. self.new ≡ self.old) }
    {
        let reader = self.hold_count + 1;
        self.holds.insert(reader, at)?;
        self.hold_count = reader;
        self.op_count += 1;
        Ok(())
    }

    /// Removes a pin that is among the active ones. Cost: O(log h), h pins.
    fn release(&mut self, reader: u64, at: Time)
        requires room { self.old.op_count < 2 ^ 62 }
        requires among { list_any (is_hold reader at) self.old.holds ≡ true }
        ensures { self.new ≡ effect self.old (Release reader at) }
    {
        self.holds.remove(&reader);
        self.op_count += 1;
    }

    /// Makes an operation of a list, which does nothing where it does not fit; whether it touches the past was tested before
    /// it was let in. It changes nothing where memory is refused.
    pub fn apply(&mut self, op: &Op) -> Result<(), AllocError>
        ensures { MatchResult result (λ _. self.new ≡ content_after_op self.old op.now)
            (λ _. self.new ≡ self.old) }
    {
        match op {
            Op::Start(_) => Ok(()),
            Op::Join(fragment) | Op::Merge(fragment) => self.join(fragment),
            Op::Prune(time) => self.prune(*time),
            Op::Hold(time) => self.apply_hold(*time),
            Op::Release { reader, at } => {
                self.apply_release(*reader, *at);
                Ok(())
            }
        }
    }

    fn apply_hold(&mut self, at: Time) -> Result<(), AllocError>
        ensures { IsApplied self.old (HoldAt at) self.new result }
    {
        match self.hold_refused(at) {
            Some(_) => Ok(()),
            None => self.hold(at),
        }
    }

    fn apply_release(&mut self, reader: u64, at: Time)
        ensures { self.new ≡ content_after_op self.old (Release reader at) }
    {
        match self.release_refused(reader, at) {
            Some(_) => {}
            None => self.release(reader, at),
        }
    }

    /// Whether it met a conflict.
    pub fn is_damaged(&self) -> bool
        ensures { result ≡ self.now.damaged }
    {
        self.damaged
    }

    /// How many pins it gave.
    pub fn hold_count(&self) -> u64
        ensures count { result ≡ self.now.hold_count }
        ensures bound { result ≤ 2 ^ 62 }
    {
        self.hold_count
    }

    /// The oldest readable time of its state.
    pub fn horizon(&self) -> Time
        ensures { result ≡ self.now.content.horizon }
    {
        self.state.horizon()
    }

    /// The answer to a query at a time.
    pub fn ask(&self, alloc: Global, time: Time, query: &Query) -> Result<Answer, Refusal>
        ensures { Answers (node_reply self.now time query.now) result }
    {
        if self.damaged {
            return Err(Refusal::Damaged);
        }
        ask(alloc, &self.state, time, query)
    }

    /// The answer to a query at the resolved time, with that time.
    pub fn latest(&self, alloc: Global, query: &Query) -> Result<(Time, Answer), Refusal>
        ensures latest { GivesSeen timed_seen (node_latest self.now query.now) result }
        ensures err { IfErr result (λ why. (why ≡ Memory) ⊎ (why ≡ Damaged)) }
    {
        if self.damaged {
            return Err(Refusal::Damaged);
        }
        latest(alloc, &self.state, query)
    }

    /// The first page of the rows of a table with keys from a low to a high one, at a time.
    pub fn page(&self, alloc: Global, of: PageQuery) -> Result<Page, Refusal>
        ensures { GivesSeen page_seen (page_asked self.now of) result }
    {
        if self.damaged {
            return Err(Refusal::Damaged);
        }
        page(alloc, &self.state, of)
    }

    /// The same page where it takes at most so many looks at a key, else none.
    pub fn page_within(
        &self,
        alloc: Global,
        of: PageQuery,
        looks: u64,
    ) -> Result<Option<Page>, Refusal>
        ensures { GivesPageOrNone self.now of.time of.table of.low of.high of.most result }
    {
        if self.damaged {
            return Err(Refusal::Damaged);
        }
        page_within(alloc, &self.state, of, looks)
    }

    /// The least pinned time, where a pin is active.
    fn least_held(&self) -> Option<Time>
        ensures { result ≡ option_map (λ h. h.at) (spec.least_hold self.now.holds) }
    {
        let hold = least_hold(&self.holds)?;
        Some(hold.at)
    }

    /// How far it is, and each of its streams, even where it failed. The only refusal is `Memory`.
    pub fn streams(&self, alloc: Global) -> Result<StreamsTold, Refusal>
        ensures ok { IfOk result (λ told. streams_seen told ≡ node_streams self.now) }
        ensures err { IfErr result (λ why. why ≡ Memory) }
    {
        let streams = self.state.got().told(alloc)?;
        Ok(StreamsTold {
            log: self.state.config().log(),
            horizon: self.state.horizon(),
            readable: self.state.readable(),
            damaged: self.damaged,
            operations: self.op_count,
            least_hold: self.least_held(),
            streams,
        })
    }

    /// A time from which on so many rows and ends are held, at most the resolved time, or 0 where there are fewer: as near to the end as
    /// that is known at once, which no clause says. It takes no memory. Cost: O(s), s streams.
    pub fn time_back(&self, many: u64) -> Time
        ensures { result ≤ readable self.now.content }
    {
        let back = self.state.facts().time_back(many);
        let resolved = self.state.readable();
        if resolved < back {
            return resolved;
        }
        back
    }

    /// How much it holds, and how far its list is, even where it failed. It takes no memory. Cost: O(1).
    pub fn sizes(&self) -> NodeSizes
        ensures operations { result.operations ≡ self.now.op_count }
        ensures pins { result.pins ≡ length self.now.holds }
        ensures guarded { result.guarded ≡ self.now.guarded }
        ensures damaged { result.damaged ≡ self.now.damaged }
    {
        let tally = self.state.facts().tally();
        NodeSizes {
            rows: tally.rows,
            ends: tally.ends,
            bytes: tally.bytes,
            weight: weight_of(&tally),
            operations: self.op_count,
            pins: self.holds.len() as u64,
            guarded: self.guarded,
            damaged: self.damaged,
        }
    }

    /// The tables of which it holds a row or an end, by rising number, even where it failed; `None` where they are more than `most`,
    /// if that is a number. The only error is out of memory. Cost: O(t · log n), t tables, n facts.
    pub fn tables(&self, alloc: Global, most: Option<u64>) -> Result<Option<Vec<Table>>, AllocError>
        ensures ok { IfOk result (λ f. IfSome f
            (λ it. AreTables (facts_of_content self.now.content) it.items)) }
        ensures gives_up { IfOk result (λ found. IfNone found (most ≢ None)) }
    {
        self.state.facts().tables(alloc, most)
    }

    /// Whether its full snapshot, or what it holds since a time above 0, takes more bytes than so many, by a count that is never too high,
    /// and of a delta at least half. Where it would be refused for another reason it says no. Cost: O(1) for the full snapshot, and where all that is held has no
    /// more bytes; else O((1 + k) · log n), k versions with a row or an end above the time, n facts.
    pub fn is_cut_above(&self, alloc: Global, base: Time, room: u64) -> bool
        ensures whole { result ≡ true → IsOk (node_whole self.now) }
        ensures delta { result ≡ true → (base ≡ 0) ⊎ IsOk (node_delta self.now base) }
    {
        let all = weight_of(&self.state.facts().tally());
        if self.damaged || all <= room {
            return false;
        }
        if base.number() == 0 {
            return true;
        }
        if base < self.state.horizon() {
            return false;
        }
        match self.state.facts().bytes_above(alloc, base) {
            // A version with a row and an end counts twice there.
            Ok(bytes) => bytes / 2 > room,
            Err(_no_memory) => true,
        }
    }

    /// Whether the answer to a query at a time takes more bytes than so many, at most counted. Where it would be refused it
    /// says no, and where it isn't a list of rows. Cost: O(1) where all that is held has no more bytes; else that of the answer without
    /// its copies.
    pub fn is_answer_above(&self, alloc: Global, time: Time, query: &Query, room: u64) -> bool
        ensures answer { result ≡ true → IsOk (node_reply self.now time query.now) }
        ensures long { result ≡ true → MayBeLong self.now time room query.now }
    {
        let facts = self.state.facts();
        if self.damaged || facts.bytes_of_all() <= room {
            return false;
        }
        if time < self.state.horizon() || self.state.readable() < time {
            return false;
        }
        match query {
            Query::Range { table, low, high } => {
                facts.bytes_between(*table, *low, *high, time) > room
            }
            Query::ByTag { table, tag } => match facts.bytes_tagged(alloc, *table, *tag, time) {
                Ok(bytes) => bytes > room,
                Err(_no_memory) => true,
            },
            Query::Get { .. } | Query::Count { .. } => false,
        }
    }

    /// The same at its resolved time.
    pub fn is_latest_above(&self, alloc: Global, query: &Query, room: u64) -> bool
        ensures answer { result ≡ true → IsOk (node_latest self.now query.now) }
        ensures long { result ≡ true → MayBeLong self.now (readable self.now.content) room query.now }
    {
        self.is_answer_above(alloc, self.state.readable(), query, room)
    }

    /// Its range of readable times.
    pub fn front(&self) -> Result<Front, Refusal>
        ensures { result ≡ node_front self.now }
    {
        if self.damaged {
            return Err(Refusal::Damaged);
        }
        Ok(front_of(&self.state))
    }

    /// What it holds since a time.
    pub fn delta_since(&self, alloc: Global, base: Time) -> Result<Fragment, Refusal>
        ensures { GivesOrMemory (node_delta self.now base) result }
    {
        if self.damaged {
            return Err(Refusal::Damaged);
        }
        delta_since(alloc, &self.state, base)
    }

    /// Its full snapshot: all that it holds.
    pub fn whole(&self, alloc: Global) -> Result<Fragment, Refusal>
        ensures { GivesOrMemory (node_whole self.now) result }
    {
        if self.damaged {
            return Err(Refusal::Damaged);
        }
        whole_of(alloc, &self.state)
    }
}
