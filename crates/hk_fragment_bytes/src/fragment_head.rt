//! Heads of fragments.

ghost use Rattle.std.specs.Prelude.{◌≡◌, ◌≤◌, ◌++◌, ◌^◌, true, length, take, OnOk, OnErr, IfOk, IfErr};
ghost use Rattle.hk_types.specs.declared.faults.Refusal.TheVariants.{Memory};
ghost use Rattle.hk_frames.specs.Fields.{GivesOrRunsOut};
ghost use Rattle.hk_model.specs.Replica.Content.{least_closed};
ghost use Rattle.hk_fragment.specs.Heads.{head_of, head_with, of_facts};
ghost use Rattle.hk_fragment_bytes.specs.Parts as spec;

use crate::fragment_encoding::{head_len, put_streams, streams_are_counted, streams_len};
use crate::stream_reading::{read_fragment_head, read_got};
use hk_answers::field_len::number_len;
use hk_fragment::{Assembly, Fragment};
use hk_frames::{Cursor, ReadError, put_u16, put_u64};
use hk_marks::Got;
use hk_types::{Config, FormFault, Refusal, Time};
use std::alloc::{AllocError, Global};
use std::marker::Model;

/// What a fragment is without its facts: the log, the base, the horizon, the numbers and marks of its streams, and how
/// many facts it has.
///
/// `base` is 0 or at least `horizon`, and `horizon` is at most the least closed time of the streams.
#[derive(Drop)]
pub struct FragmentHead {
    config: Config,
    base: Time,
    horizon: Time,
    got: Got,
    count: u64,
}

impl Model for FragmentHead {
    ghost use Rattle.hk_fragment.specs.Heads.{HeadValue, head_with};
    ghost use Rattle.hk_fragment_bytes.specs.Parts.{head_code, IsHead};

    ghost Value = { HeadValue };

    ghost coded = { head_code };

    ghost view = { λ a. head_with a.config a.base a.horizon a.got a.count };

    ghost invariant = { λ a. IsHead a.config a.base a.horizon a.got };
}

impl FragmentHead {
    /// The head of these fields.
    fn of_parts(config: Config, base: Time, horizon: Time, got: Got, count: u64) -> FragmentHead
        requires many { length got ≡ config.streams }
        requires above { spec.is_base base horizon ≡ true }
        requires within { horizon ≤ least_closed got }
        ensures { result ≡ head_with config base horizon got count }
    {
        FragmentHead {
            config,
            base,
            horizon,
            got,
            count,
        }
    }

    /// The head of a fragment, whose numbers and marks are copied and whose facts are counted. The only refusal is `Memory`. Cost: O(w · log w),
    /// w extra numbers and waiting marks.
    pub fn of_fragment(alloc: Global, fragment: &Fragment) -> Result<FragmentHead, Refusal>
        ensures ok { IfOk result (λ head. head ≡ head_of fragment.now) }
        ensures err { IfErr result (λ why. why ≡ Memory) }
    {
        let got = fragment.got().copy(alloc)?;
        let base = fragment.base();
        let horizon = fragment.horizon();
        let count = fragment.facts().len() as u64;
        Ok(FragmentHead::of_parts(fragment.config(), base, horizon, got, count))
    }

    /// The least resolved time that a replica must have to join the fragment of the head. 0 is a full snapshot. Cost: O(1).
    pub fn base(&self) -> Time
        ensures { result ≡ self.now.base }
    {
        self.base
    }

    /// The fragment of this head and of all facts that were added, or its first fault, as `Assembly::into_fragment`
    /// returns it: `BadCount` where the number of added facts isn't the one in the head. Both are moved, and dropped
    /// with a fault. It takes no memory. Cost: O(s + n), s streams, n facts.
    pub fn into_fragment(self, came: Assembly) -> Result<Fragment, FormFault>
        ensures { result ≡ of_facts self came }
    {
        came.into_fragment(self.config, self.base, self.horizon, self.got, self.count)
    }

    /// Whether its numbers and marks can be counted.
    pub fn is_counted(&self) -> bool
        ensures { result ≡ spec.head_is_counted (spec.wire_head_of self.now) }
    {
        streams_are_counted(&self.got)
    }

    /// How many bytes a head that can be counted has.
    pub fn bytes(&self) -> u64
        requires { spec.head_is_counted (spec.wire_head_of self.now) ≡ true }
        ensures len { result ≡ length (spec.head_text (spec.wire_head_of self.now)) }
        ensures bound { result ≤ 2 ^ 44 }
        ensures fits { spec.HeadFits (spec.wire_head_of self.now) }
    {
        let _lawful = self.got.streams();
        let start = head_len(self.config, self.base, self.horizon);
        start + streams_len(&self.got) + number_len(self.count)
    }

    /// Adds a head's bytes.
    #[tactic(auto, using(hk_frames::proofs::Put::all), unfolding(crate::specs::Parts::head_text))]
    pub fn put_to(&self, out: &mut Vec<u8>) -> Result<(), AllocError>
        requires { spec.head_is_counted (spec.wire_head_of self.now) ≡ true }
        ensures ok { OnOk result (out.new.items ≡ out.old.items
            ++ spec.head_text (spec.wire_head_of self.now)) }
        ensures kept { OnErr result (take (length out.old.items) out.new.items ≡ out.old.items) }
    {
        put_u64(out, self.config.log())?;
        put_u16(out, self.config.streams())?;
        put_u64(out, self.base.number())?;
        put_u64(out, self.horizon.number())?;
        put_streams(out, &self.got)?;
        put_u64(out, self.count)
    }
}

/// How many bytes the head of a fragment has in a message, where its numbers and marks can be counted. Cost: O(s), s streams.
pub fn head_bytes(fragment: &Fragment) -> Option<u64>
    ensures { result ≡ spec.head_bytes fragment.now }
{
    if !streams_are_counted(fragment.got()) {
        return None;
    }
    let start = head_len(fragment.config(), fragment.base(), fragment.horizon());
    Some(start + streams_len(fragment.got()) + number_len(fragment.facts().len() as u64))
}

/// Reads a head. The first fault is that of its numbers and marks, as in a fragment; `Memory` comes where a growth is
/// refused. Cost: O(n · log n), n bytes of it.
#[tactic(auto, unfolding(crate::specs::Parts::head_at))]
pub fn read_head(alloc: Global, cursor: &mut Cursor) -> Result<FragmentHead, ReadError>
    ensures { GivesOrRunsOut (λ x. (spec.wire_head_of x, cursor.new)) result (spec.head_at cursor.old) }
{
    let start = read_fragment_head(cursor)?;
    let got = read_got(alloc, cursor, start.config, start.horizon)?;
    let count = cursor.u64()?;
    Ok(FragmentHead::of_parts(start.config, start.base, start.horizon, got, count))
}

/// Reads the head of a full snapshot, as `read_head` does. A base that is not 0 is `BadNumber`, after the faults of the head.
#[tactic(auto, unfolding(crate::specs::Parts::whole_head_at))]
pub fn read_whole_head(alloc: Global, cursor: &mut Cursor) -> Result<FragmentHead, ReadError>
    ensures { GivesOrRunsOut (λ x. (spec.wire_head_of x, cursor.new)) result (spec.whole_head_at cursor.old) }
{
    let head = read_head(alloc, cursor)?;
    if head.base().number() != 0 {
        return Err(ReadError::Fault(FormFault::BadNumber));
    }
    Ok(head)
}
