//! Changes, pins, refusals and failed nodes, and what a change leaves that finds no memory: steps, each with what it returns.

use super::playing::{ALL, Does, Game, Tells, day, new_list, steps};
use super::*;

/// A prune stops at the least pinned time, and goes on once the pin is released; a merge that would pass one is refused.
static HOLDS: [(Does, Tells); 25] = [
    (Does::Join(1_234), (0, 2, 0)),
    (Does::Hold(2), (0, 3, 1)),
    (Does::Hold(1), (0, 4, 2)),
    (Does::Merge(3), (40, 2, 1)),
    (Does::JoinPruned(3), (40, 2, 1)),
    (Does::Front, (0, 0, 3)),
    (Does::Prune(3), (0, 5, 1)),
    (Does::Release(2), (0, 6, 0)),
    (Does::Prune(3), (0, 7, 2)),
    (Does::Hold(2), (0, 8, 3)),
    (Does::Merge(3), (40, 1, 2)),
    (Does::Front, (0, 2, 3)),
    (Does::Prune(3), (0, 9, 2)),
    (Does::Prune(1), (0, 10, 2)),
    (Does::Prune(4), (24, 3, 0)),
    (Does::Hold(1), (25, 2, 0)),
    (Does::Release(1), (0, 11, 0)),
    (Does::Forged(1, 2), (44, 0, 0)),
    (Does::Forged(3, 1), (44, 0, 0)),
    (Does::Merge(3), (40, 3, 2)),
    (Does::Release(3), (0, 12, 0)),
    (Does::Prune(3), (0, 13, 3)),
    (Does::Get(5, 2), (25, 3, 0)),
    (Does::Get(5, 3), (0, 0x42, 0)),
    (Does::Publish, (0, 13, 13)),
];

/// A prune stops at a pinned time, and goes on once the pin is released.
static A_HOLD: [(Does, Tells); 9] = [
    (Does::Join(1_234), (0, 2, 0)),
    (Does::Get(5, 3), (0, 0x42, 0)),
    (Does::Hold(2), (0, 3, 1)),
    (Does::Prune(3), (0, 4, 2)),
    (Does::Front, (0, 2, 3)),
    (Does::Release(1), (0, 5, 0)),
    (Does::Prune(3), (0, 6, 3)),
    (Does::Get(5, 2), (25, 3, 0)),
    (Does::Publish, (0, 6, 6)),
];

/// A change made again is another operation. Joins that do not fit are shown by tests/checks/client.py, over connections.
static AGAIN: [(Does, Tells); 4] = [
    (Does::Merge(0), (0, 2, 0)),
    (Does::Front, (0, 0, 3)),
    (Does::Join(1_234), (0, 3, 0)),
    (Does::Join(1_234), (0, 4, 0)),
];

static DAMAGE: [(Does, Tells); 11] = [
    (Does::Join(1_234), (0, 2, 0)),
    (Does::Hold(2), (0, 3, 1)),
    (Does::Join(9), (23, 0, 0)),
    (Does::Get(5, 3), (41, 0, 0)),
    (Does::Front, (41, 0, 0)),
    (Does::Join(1), (41, 0, 0)),
    (Does::Merge(0), (41, 0, 0)),
    (Does::Prune(3), (41, 0, 0)),
    (Does::Hold(2), (41, 0, 0)),
    (Does::Release(1), (41, 0, 0)),
    (Does::Publish, (0, 4, 4)),
];

/// What conflicts with a guarded node is refused and the node doesn't fail, and of a list that is refused nothing is kept:
/// 7 ends a version at another time than 2, and 9 has the number of 1 and another row.
static GUARDED: [(Does, Tells); 14] = [
    (Does::Take(19), (23, 0, 0)),
    (Does::Take(12), (0, 2, 2)),
    (Does::Take(9), (23, 0, 0)),
    (Does::Take(1), (0, 3, 0)),
    (Does::Join(9), (23, 0, 0)),
    (Does::Take(37), (23, 0, 0)),
    (Does::Take(4), (0, 4, 1)),
    (Does::Front, (0, 0, 0)),
    (Does::Take(3), (0, 5, 1)),
    (Does::Front, (0, 0, 3)),
    (Does::Get(5, 3), (0, 0x42, 0)),
    (Does::Join(1_234), (0, 6, 0)),
    (Does::Take(0), (0, 7, 0)),
    (Does::Publish, (0, 7, 7)),
];

/// A guarded node refuses a state that conflicts with it, and keeps what it had.
static MERGED: [(Does, Tells); 5] = [
    (Does::Take(9), (0, 2, 1)),
    (Does::Merge(0), (23, 0, 0)),
    (Does::Streams, (0, 2, 1)),
    (Does::Join(234), (0, 3, 0)),
    (Does::Front, (0, 0, 3)),
];

/// The mark 8 closes the stream before the entry 2 comes, as an item or in a fragment.
static CLOSED: [(Does, Tells); 7] = [
    (Does::Take(182), (23, 0, 0)),
    (Does::Front, (0, 0, 0)),
    (Does::Take(18), (0, 2, 2)),
    (Does::Take(2), (23, 0, 0)),
    (Does::Join(2), (23, 0, 0)),
    (Does::Front, (0, 0, 9)),
    (Does::Get(5, 3), (0, 0x41, 0)),
];

/// Key 5 is put and replaced, key 6 put. A failed node reports its streams, and nothing else.
static NEWEST: [(Does, Tells); 14] = [
    (Does::Streams, (0, 1, 0)),
    (Does::Latest(5), (0, 0, 0)),
    (Does::Join(1_234), (0, 2, 0)),
    (Does::Latest(5), (0, 0x42, 3)),
    (Does::Page(5, 1, 3), (0, 1, 1)),
    (Does::Page(5, 2, 3), (0, 2, 0)),
    (Does::Page(6, 1, 3), (0, 1, 0)),
    (Does::Page(5, 0, 3), (0, 0, 1)),
    (Does::Page(5, 1, 4), (26, 0, 0)),
    (Does::Streams, (0, 2, 3)),
    (Does::Join(9), (23, 0, 0)),
    (Does::Latest(5), (41, 0, 0)),
    (Does::Page(5, 1, 3), (41, 0, 0)),
    (Does::Streams, (0, 3, 3)),
];

/// The lists of steps, the last four of which are of guarded nodes.
fn list_of(number: u8) -> &'static [(Does, Tells)] {
    match number {
        0 => &A_HOLD,
        1 => &AGAIN,
        2 => &DAMAGE,
        3 => &NEWEST,
        5 => &GUARDED,
        6 => &MERGED,
        7 => &CLOSED,
        _ => &HOLDS,
    }
}

#[test]
fn one_day(rt: HostRuntime) -> Result<(), Fail> {
    for number in 0..=8 {
        day(&rt, rt.alloc(), number >= 5, list_of(number))?;
    }
    Ok(())
}

#[test]
fn each_request_refused(rt: HostRuntime) -> Result<(), Fail> {
    for turn in 0..=4 * MOST_REQUESTS + 3 {
        let (list, settles) = (new_list(turn % 2 == 1)?, turn / 2 % 2 == 1);
        steps::<Brand, _>(&rt, rt.alloc(), list, settles, (&CHANGES, turn / 4), &AFTER)?;
    }
    Ok(())
}

/// More than any of the changes makes.
const MOST_REQUESTS: usize = 80;

/// A change that waits is published, with one request refused and with none, and readers see what they saw before until then.
fn published<J: NodeName, R: Wait, S: Wait + Drop>(
    rt: &R,
    game: &mut Game<J, S>,
    before: Tells,
) -> Result<Tells, Fail> {
    let first = game.play(rt, Does::Publish)?;
    if first.0 > 0 && game.front() != before {
        return Ok(first);
    }
    game.number = 0;
    game.play(rt, Does::Publish)
}

/// Makes a change of whose requests for memory one is refused, and again where that refused it: whether it is the operation
/// number `ops` then. Where it is refused 90, or waits to be published, readers see what they saw before.
fn is_at_last<J: NodeName, R: Wait, S: Wait + Drop>(
    rt: &R,
    game: &mut Game<J, S>,
    does: Does,
    number: usize,
    ops: u64,
) -> Result<bool, Fail> {
    let before = game.front();
    game.number = number;
    let mut told = game.play(rt, does)?;
    let is_hidden = told.0 == 0 || game.front() == before;
    if told.0 == 42 {
        told = published(rt, game, before)?;
    } else if told.0 == 90 {
        game.number = 0;
        told = game.play(rt, does)?;
    }
    game.number = 0;
    Ok(is_hidden && told.1 == ops && (told.0 == 0 || told.0 == 42))
}

/// Changes, of each of which one request for memory is refused: they are the operations from 2 on. The numbers of the
/// pins go on, also where one was returned with 42.
static CHANGES: [Does; 6] = [
    Does::Join(ALL),
    Does::Merge(0),
    Does::Hold(2),
    Does::Hold(3),
    Does::Release(1),
    Does::Prune(3),
];

/// What is returned after them.
static AFTER: [(Does, Tells); 3] = [
    (Does::Release(2), (0, 8, 0)),
    (Does::Front, (0, 3, 3)),
    (Does::Get(5, 3), (0, 0x42, 0)),
];

/// Each of some changes comes at last, with one request refused.
pub(super) fn all_at_last<J: NodeName, R: Wait + Abort, S: Wait + Drop>(
    rt: &R,
    game: &mut Game<J, S>,
    changes: &[Does],
    number: usize,
) -> Result<(), Fail> {
    let mut ops: u64 = 1;
    for does in changes {
        ops = ops.saturating_add(1);
        assert!(rt; is_at_last(rt, game, *does, number, ops)?);
    }
    Ok(())
}
