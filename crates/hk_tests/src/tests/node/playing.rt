//! What is done to a node, a step after the other, each with what it returns.

ghost use Rattle.std.specs.Prelude.{◌≡◌};

use super::rows::all_at_last;
use super::sizes::{agrees, wide_fragment};
use super::*;
use hk_delta::{join, whole_of};
use hk_model::{Front, Page, PageQuery, StreamsTold};
use hk_node::{Hold, NodeSizes, Receipt};
use hk_state::ReplicaState;

/// A step, in plain numbers.
#[derive(Clone, Copy)]
pub(super) enum Does {
    /// Items, whose numbers are the digits of this one.
    Join(u64),
    Take(u64),
    /// A state with all items, pruned to a time.
    Merge(u64),
    /// The full snapshot of such a state.
    JoinPruned(u64),
    /// A wide entry of a number, with so many rows, and the last key whose version it ends.
    Wide(u64, u64, u64),
    Prune(u64),
    Hold(u64),
    /// Its number.
    Release(u64),
    /// A pin that the node never made: its number and time.
    Forged(u64, u64),
    Publish,
    Front,
    /// A key and a time.
    Get(u64, u64),
    /// A key.
    Latest(u64),
    /// The lowest key, the most rows and a time.
    Page(u64, u32, u64),
    Streams,
    /// What the node says of how much it holds.
    Sizes,
    /// How many bytes an answer may take from then on.
    Keep(u64),
    Whole,
    /// What was applied since a time.
    Delta(u64),
    /// The rows of table 3 with keys up to this one, at time 2 and at the resolved one.
    Range(u64),
    LatestRange(u64),
    /// A page of them at time 2, of so many rows at most.
    WidePage(u32),
}

/// The number of a refusal, or 0, and two numbers that it names.
pub(super) type Tells = (u8, u64, u64);

fn refused(why: Refusal) -> Tells {
    match why {
        Refusal::AheadOfMark { readable } => (24, readable.number(), 0),
        Refusal::TooOld { horizon } => (25, horizon.number(), 0),
        Refusal::Held { reader, at } => (40, reader, at.number()),
        Refusal::Unpublished { ops } => (42, ops, 0),
        why => (why.number(), 0, 0),
    }
}

/// Joins all three entries and the mark.
fn fill(alloc: Global, state: &mut ReplicaState) -> Result<(), Fail> {
    let items = fragment(alloc, ALL)?;
    Ok(join(state, &items)?)
}

/// A state that applied them, pruned to a time.
fn state_of(alloc: Global, to: Time) -> Result<ReplicaState, Fail> {
    let mut state = ReplicaState::new(alloc, config()?)?;
    fill(alloc, &mut state)?;
    state.prune(to)?;
    Ok(state)
}

/// The full snapshot of it.
fn pruned(alloc: Global, to: Time) -> Result<Fragment, Fail> {
    let state = state_of(alloc, to)?;
    Ok(whole_of(alloc, &state)?)
}

/// What a change hands to the node.
#[derive(Drop)]
enum Handed {
    Join(Fragment),
    Take(Vec<Item>),
    Merge(ReplicaState),
    Prune(Time),
    Hold(Time),
    Release(Hold),
    Publish,
}

/// The pin of a number, taken out of these.
fn taken_out(holds: &mut Vec<Hold>, reader: u64) -> Result<Hold, Fail> {
    for place in 0..holds.len() {
        if holds[place].reader == reader {
            return Ok(holds.remove(place));
        }
    }
    Err(Fail::from("no such hold"))
}

fn given(alloc: Global, does: Does, holds: &mut Vec<Hold>) -> Result<Handed, Fail> {
    Ok(match does {
        Does::Join(digits) => Handed::Join(fragment(alloc, digits)?),
        Does::Take(digits) => Handed::Take(items(alloc, digits)?),
        Does::Merge(to) => Handed::Merge(state_of(alloc, time(to)?)?),
        Does::JoinPruned(to) => Handed::Join(pruned(alloc, time(to)?)?),
        Does::Wide(number, rows, ended) => Handed::Join(wide_fragment(alloc, number, rows, ended)?),
        Does::Prune(to) => Handed::Prune(time(to)?),
        Does::Hold(at) => Handed::Hold(time(at)?),
        Does::Release(reader) => Handed::Release(taken_out(holds, reader)?),
        Does::Forged(reader, at) => Handed::Release(forged(reader, at)?),
        _ => Handed::Publish,
    })
}

fn forged(reader: u64, at: u64) -> Result<Hold, Fail> {
    let at = time(at)?;
    Ok(Hold { reader, at })
}

/// A node with a seat, and the pins that it returned. Of the requests for memory of each call of the node the one
/// with this number is refused, none where it is 0. Where it settles, its second copy catches up after each change.
#[derive(Drop)]
pub(super) struct Game<J: NodeName, S: Wait + Drop> {
    alloc: Global,
    node: Node<J, S>,
    seat: ReaderSeat<J>,
    holds: Vec<Hold>,
    pub(super) number: usize,
    settles: bool,
}

/// A request for so many bytes and N more lets the Nth request from then on be refused, where the tests run
/// under tests/faults/failing_memory.c, and none where N is 0. It is refused itself, also without that library.
const ARM: usize = 1 << 62;

fn refuse(alloc: Global, number: usize) {
    let _refused = Vec::<u8>::with_capacity(alloc, ARM.saturating_add(number));
}

/// The number of operations of a receipt.
fn told<J: NodeName>(answer: Result<Receipt<J>, Refusal>) -> Tells {
    match answer {
        Ok(receipt) => (0, receipt.ops(), 0),
        Err(why) => refused(why),
    }
}

/// The number of operations and another one: how many items were new, or the oldest readable time.
fn told_with<J: NodeName>(answer: Result<(u64, Receipt<J>), Refusal>) -> Tells {
    match answer {
        Ok((number, receipt)) => (0, receipt.ops(), number),
        Err(why) => refused(why),
    }
}

/// The oldest readable time and the resolved time.
fn told_front(answer: Result<Front, Refusal>) -> Tells {
    match answer {
        Ok(front) => (0, front.horizon.number(), front.readable.number()),
        Err(why) => refused(why),
    }
}

/// The body of the row that is answered, and the time; or how many rows are.
fn told_rows(answer: Result<Answer, Refusal>, at: u64) -> Tells {
    match answer {
        Ok(Answer::Rows(rows)) => (0, rows.len() as u64, 0),
        Ok(answer) => (0, u64::from(number_of(&answer)), at),
        Err(why) => refused(why),
    }
}

/// The same of an answer at the resolved time.
fn told_latest(answer: Result<(Time, Answer), Refusal>) -> Tells {
    match answer {
        Ok((at, answer)) => told_rows(Ok(answer), at.number()),
        Err(why) => refused(why),
    }
}

/// How many rows the page has, and 1 where more follow.
fn told_page(answer: Result<Page, Refusal>) -> Tells {
    match answer {
        Ok(page) => (0, page.rows.len() as u64, u64::from(page.more)),
        Err(why) => refused(why),
    }
}

/// The number of operations, and the prefix of the stream.
fn told_streams(answer: Result<StreamsTold, Refusal>) -> Tells {
    match answer {
        Ok(told) => match told.streams.first() {
            Some(stream) => (0, told.operations, stream.prefix),
            None => (0, told.operations, 0),
        },
        Err(why) => refused(why),
    }
}

/// How many versions a fragment has something of.
fn told_facts(answer: Result<Fragment, Refusal>) -> Tells {
    match answer {
        Ok(fragment) => (0, fragment.facts().len() as u64, 0),
        Err(why) => refused(why),
    }
}

/// Whether a node says of itself what a count of its snapshot says, and how many rows it has.
fn told_sizes(sizes: Result<NodeSizes, Refusal>, whole: Result<Fragment, Refusal>) -> Tells {
    match (sizes, whole) {
        (Ok(sizes), Ok(whole)) => (0, u64::from(agrees(&sizes, &whole)), sizes.rows),
        (Err(why), _) => refused(why),
        (_, Err(why)) => refused(why),
    }
}

/// All rows of table 3 with keys up to a bound.
fn up_to(key: u64) -> Query {
    Query::Range {
        table: Table::new(3),
        low: Key::new(1),
        high: Key::new(key),
    }
}

impl<J: NodeName, S: Wait + Drop> Game<J, S> {
    /// The number of operations and that of the pin, and the pin, which comes back with 42 too.
    fn hold<R: Wait>(&mut self, rt: &R, at: Time) -> (Tells, Option<Hold>) {
        match self.node.hold(rt, at) {
            Ok((hold, receipt)) => ((0, receipt.ops(), hold.reader), Some(hold)),
            Err((hold, why)) => (refused(why), hold),
        }
    }

    fn release<R: Wait>(&mut self, rt: &R, hold: Hold) -> (Tells, Option<Hold>) {
        match self.node.release(rt, hold) {
            Ok(receipt) => ((0, receipt.ops(), 0), None),
            Err((hold, why)) => (refused(why), hold),
        }
    }

    /// Publishes, and applies the receipt to the seat.
    fn publish<R: Wait>(&mut self, rt: &R) -> Tells {
        match self.node.publish(rt) {
            Ok(receipt) => {
                let ops = receipt.ops();
                self.seat.learn(receipt);
                (0, ops, self.seat.receipt().ops())
            }
            Err(why) => refused(why),
        }
    }

    fn prune<R: Wait>(&mut self, rt: &R, to: Time) -> Tells {
        match self.node.prune(rt, to) {
            Ok((horizon, receipt)) => (0, receipt.ops(), horizon.number()),
            Err(why) => refused(why),
        }
    }

    /// Changes the node. A pin that it returns comes back too.
    fn change<R: Wait>(&mut self, rt: &R, given: Handed) -> (Tells, Option<Hold>) {
        match given {
            Handed::Join(fragment) => (told(self.node.join(rt, fragment)), None),
            Handed::Take(items) => (told_with(self.node.take(rt, &items)), None),
            Handed::Merge(state) => (told(self.node.merge(rt, &state)), None),
            Handed::Prune(to) => (self.prune(rt, to), None),
            Handed::Hold(at) => self.hold(rt, at),
            Handed::Release(hold) => self.release(rt, hold),
            Handed::Publish => (self.publish(rt), None),
        }
    }

    fn settle<R: Wait>(&self, rt: &R) {
        if self.settles {
            refuse(self.alloc, self.number);
            self.node.settle(rt);
            refuse(self.alloc, 0);
        }
    }

    /// A step that changes the node.
    fn play_change<R: Wait>(&mut self, rt: &R, does: Does) -> Result<Tells, Fail> {
        let given = given(self.alloc, does, &mut self.holds)?;
        refuse(self.alloc, self.number);
        let (tells, hold) = self.change(rt, given);
        refuse(self.alloc, 0);
        if let Some(hold) = hold {
            self.holds.push(hold)?;
        }
        self.settle(rt);
        Ok(tells)
    }

    /// The oldest readable time and the resolved time.
    pub(super) fn front(&mut self) -> Tells {
        told_front(self.seat.front())
    }

    /// A step that asks how much the node holds, or what there may be no room for.
    fn weigh(&mut self, does: Does) -> Result<Tells, Fail> {
        Ok(match does {
            Does::Sizes => told_sizes(self.seat.sizes(), self.seat.whole()),
            Does::Keep(room) => {
                self.seat.keep_within(room);
                (0, 0, 0)
            }
            Does::Delta(base) => told_facts(self.seat.delta_since(time(base)?)),
            Does::Range(key) => told_rows(self.seat.ask(time(2)?, &up_to(key)), 0),
            Does::LatestRange(key) => told_latest(self.seat.latest(&up_to(key))),
            Does::WidePage(most) => self.page(3, 1, most, time(2)?),
            _ => told_facts(self.seat.whole()),
        })
    }

    fn page(&mut self, table: u16, low: u64, most: u32, at: Time) -> Tells {
        told_page(
            self.seat.page(PageQuery {
                time: at,
                table: Table::new(table),
                low: Key::new(low),
                high: Key::new(u64::MAX),
                most,
            }),
        )
    }

    fn get(&mut self, key: u64, at: Time) -> Tells {
        told_rows(self.seat.ask(at, &get(key)), 0)
    }

    /// A step.
    pub(super) fn play<R: Wait>(&mut self, rt: &R, does: Does) -> Result<Tells, Fail> {
        match does {
            Does::Front => Ok(self.front()),
            Does::Get(key, at) => Ok(self.get(key, time(at)?)),
            Does::Latest(key) => Ok(told_latest(self.seat.latest(&get(key)))),
            Does::Page(low, most, at) => Ok(self.page(1, low, most, time(at)?)),
            Does::Streams => Ok(told_streams(self.seat.streams())),
            Does::Sizes
            | Does::Keep(_)
            | Does::Whole
            | Does::Delta(_)
            | Does::Range(_)
            | Does::LatestRange(_)
            | Does::WidePage(_) => self.weigh(does),
            change => self.play_change(rt, change),
        }
    }
}

/// A node of log 7 with one stream and two reader slots.
fn new_game<J: NodeName, R: Wait>(
    rt: &R,
    alloc: Global,
    list: NewList,
    settles: bool,
) -> Result<Game<J, &R>, Fail>
    requires { list ≡ (J.book, J.kind) }
{
    let (node, mut seats) = start::<J, &R>(rt, alloc, list, 2)?;
    match seats.pop() {
        Some(seat) => Ok(Game {
            alloc,
            node,
            seat,
            holds: Vec::new(alloc),
            number: 0,
            settles,
        }),
        None => Err(Fail::from("no seat")),
    }
}

/// Each step returns what it should.
fn plays<J: NodeName, R: Wait + Abort, S: Wait + Drop>(
    rt: &R,
    game: &mut Game<J, S>,
    rows: &[(Does, Tells)],
) -> Result<(), Fail> {
    for (does, tells) in rows {
        assert!(rt; game.play(rt, *does)? == *tells);
    }
    Ok(())
}

/// In a new node each of some changes comes at last, of which one request for memory is refused, and then each step returns
/// what it should.
pub(super) fn steps<J: NodeName, R: Wait + Abort>(
    rt: &R,
    alloc: Global,
    list: NewList,
    settles: bool,
    changes: (&[Does], usize),
    rows: &[(Does, Tells)],
) -> Result<(), Fail>
    requires { list ≡ (J.book, J.kind) }
{
    let mut game = new_game::<J, R>(rt, alloc, list, settles)?;
    all_at_last(rt, &mut game, changes.0, changes.1)?;
    plays(rt, &mut game, rows)
}

/// The list of a new node of log 7, guarded or not.
pub(super) fn new_list(is_guarded: bool) -> Result<NewList, Fail> {
    let config = config()?;
    Ok(if is_guarded {
        NewList::guarded(config)
    } else {
        NewList::new(config)
    })
}

/// A day's steps, with a node that settles and one that doesn't.
pub(super) fn day<R: Wait + Abort>(
    rt: &R,
    alloc: Global,
    is_guarded: bool,
    rows: &[(Does, Tells)],
) -> Result<(), Fail> {
    steps::<Brand, R>(rt, alloc, new_list(is_guarded)?, false, (&[], 0), rows)?;
    steps::<Brand, R>(rt, alloc, new_list(is_guarded)?, true, (&[], 0), rows)
}

/// All items.
pub(super) const ALL: u64 = 1_234;
