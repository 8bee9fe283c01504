//! Pages of a state's rows.

ghost use Rattle.std.specs.Prelude.{Some};
ghost use Rattle.hk_query.specs.Pages.{PageReplies, PageRepliesWithin, PagesEnd, PagesGoOn};

use crate::reply::time_refusal;
use hk_model::{PAGE_BYTES, Page, PageQuery};
use hk_state::ReplicaState;
use hk_types::Refusal;
use std::alloc::Global;

/// The page that `page` gives, or none where it would look at more keys than `looks`, if that is a number.
fn page_looking(
    alloc: Global,
    state: &ReplicaState,
    of: PageQuery,
    looks: Option<u64>,
) -> Result<Option<Page>, Refusal>
    ensures { PageRepliesWithin looks state.now of.time of.table of.low of.high of.most result }
{
    match time_refusal(state, of.time) {
        Some(why) => Err(why),
        None => state.facts().page(
            alloc, of.time, of.table, of.low, of.high, looks, of.most, PAGE_BYTES,
        ),
    }
}

/// The first page of the rows of a table with keys from `low` to `high`, both inside, that are visible at a time in a
/// state: at most `most` of them, and no more than `PAGE_BYTES` has room for; and whether more follow. The page after
/// it has `low` above its last key. Where `most` is 0 a page has no row.
///
/// Refusals in order, as those of `ask`: `TooOld` below the oldest readable time, `NotYet` above the resolved time,
/// `Memory`. Cost: O(log n + k · log n + b), n facts, k keys of which anything is known from low up to the first row
/// that is left out, b bytes of the bodies that are copied.
pub fn page(alloc: Global, state: &ReplicaState, of: PageQuery) -> Result<Page, Refusal>
    ensures { PageReplies state.now of.time of.table of.low of.high of.most result }
{
    match page_looking(alloc, state, of, None)? {
        Some(page) => Ok(page),
        None => Err(Refusal::Memory),
    }
}

/// The same page where it takes at most so many looks at a key of which anything is known; else `None`, and nothing of it is
/// made. A refusal as that of `page` takes no look. Cost: that of `page`, with at most `looks` keys.
pub fn page_within(
    alloc: Global,
    state: &ReplicaState,
    of: PageQuery,
    looks: u64,
) -> Result<Option<Page>, Refusal>
    ensures { PageRepliesWithin (Some looks) state.now of.time of.table of.low of.high of.most result }
{
    page_looking(alloc, state, of, Some(looks))
}

/// Pages that are asked one after another, each with `low` above the last key of the one before, are together the rows of their
/// range at that time, whatever was asked or changed in between: a law, it does nothing.
pub fn pages_law()
    ensures goes_on { PagesGoOn }
    ensures ends { PagesEnd }
{}
