//! Laws of the encodings, and of chunks: what is cut and put together again is the same fragment.

ghost use Rattle.std.specs.Prelude.{◌≡◌, ℕ, List, Ok, IfErr, IfOk};
ghost use Rattle.hk_types.specs.declared.faults.Refusal.TheVariants.{Memory};
ghost use Rattle.hk_model.specs.Replica.Fragments.{FragmentValue};
ghost use Rattle.hk_fragment.specs.Parts.{Known};
ghost use Rattle.hk_fragment.specs.Heads.{facts_of, head_of, of_facts, HeadValue};
ghost use Rattle.hk_values.specs.Cutting.{parts_of, AreParts, of_parts, IsOfItsParts, IsPutTogether};
ghost use Rattle.hk_fragment_bytes.specs.Fragments.{wire_fragment_of};

use crate::split::Split;
use hk_fragment::{Assembly, Fragment, copy_facts};
use hk_types::Refusal;
use std::alloc::Global;

/// The bytes of a fragment encode all of it: no two fragments have the same bytes.
pub fn one_wire_fragment(one: &Fragment, other: &Fragment)
    ensures { wire_fragment_of one.now ≡ wire_fragment_of other.now → one.now ≡ other.now }
{
    let (_one, _other) = (one.got(), other.got());
}

/// Every list of facts is cut into chunks that are, one after the other, that list; each has a fact, and is at most
/// so many bytes unless it is one fact.
pub fn parts_law()
    ensures { (most : ℕ) (facts : List Known) → AreParts most facts (parts_of most facts) }
{}

/// Every fragment is the one of its head and its facts, and of its head and its chunks, however long these are.
pub fn fragment_law(fragment: &Fragment)
    ensures facts { of_facts (head_of fragment.now) (facts_of fragment.now) ≡ Ok fragment.now }
    ensures parts { IsOfItsParts fragment.now }
{
    let _facts_rise = fragment.facts();
}

/// Where a head and chunks make a fragment, it has that head, and its facts are those of the chunks, one after the other.
pub fn together_law()
    ensures { (h : HeadValue) (parts : List (List Known)) (f : FragmentValue)
        → of_parts h parts ≡ Ok f → IsPutTogether h parts f }
{}

/// The same fragment again, by way of chunks that are at most so many bytes long: it is split, each chunk is copied and added, and the
/// head, with the count of its facts, and all of them are put together. The only refusal is `Memory`. Cost: O(n + w · log w + b), n facts,
/// w extra numbers and waiting marks, b bytes of bodies, all copied.
pub fn copy_by_parts(
    alloc: Global,
    fragment: Fragment,
    most_bytes: u64,
) -> Result<Fragment, Refusal>
    ensures ok { IfOk result (λ again. again ≡ fragment) }
    ensures err { IfErr result (λ why. why ≡ Memory) }
{
    let mut split = Split::new(fragment);
    let mut came = Assembly::new(alloc);
    while split.left() > 0 {
        split.advance(most_bytes);
        came.add(copy_facts(alloc, split.part())?)?;
    }
    let whole = split.whole();
    fragment_law(whole);
    let got = whole.got().copy(alloc)?;
    let count = whole.facts().len() as u64;
    let again = came.into_fragment(whole.config(), whole.base(), whole.horizon(), got, count)?;
    Ok(again)
}
