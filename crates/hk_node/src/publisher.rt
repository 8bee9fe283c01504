//! What lies under the writer's lock: the copies, and the operation that waits.

ghost use Rattle.std.specs.Prelude.{◌≡◌, ◌++◌, ◌∷◌, [], All, fold, length, None, true, MatchResult, IfOk, IfErr, IfSome, IsTrue, OnErr, ◌<◌, ◌≤◌, ◌^◌};
ghost use Rattle.left_right.specs.Sides.{view as known};
ghost use Rattle.hk_oplog.specs.declared.op.Op.TheVariants.{Start as StartOf};
ghost use Rattle.hk_types.specs.declared.faults.Refusal.TheVariants.{Memory};
ghost use Rattle.hk_oplog.specs.Final.{IsFormed};
ghost use Rattle.hk_oplog.specs.Replay.{kind_of, start_content, is_legal, refusal_of, replay, IsListOf};
ghost use Rattle.hk_oplog.specs.Guarded.{AgreesWith};
ghost use Rattle.hk_oplog.specs.NewItems.{count_new};
ghost use Rattle.hk_node.specs.Published.{IsEmptied, IsReady, IsReplay, IsShown, ShowsAll, next, pending, shown, waiting};

use crate::book::{Counter, NodeName, Prefix};
use crate::replica::{Logged, Replica};
use core::mem::replace_with;
use crossbeam_utils::rule::{Outcome, Protocol};
use hk_fragment::Fragment;
use hk_log::Item;
use hk_oplog::{NodeKind, Op};
use hk_types::{Refusal, Time};
use left_right::reader::{Reader, Reading};
use left_right::writer::Writer;
use std::alloc::{AllocError, Global};
use std::marker::{Model, PhantomData};
use std::sync::Wait;

/// The rule: the published list is legal, what is published is its replay, and each view is a prefix of it.
pub struct Published;

impl Protocol<Replica, Prefix> for Published {
    ghost use Rattle.hk_node.specs.Published.{Keeps, no_view};

    ghost holds = { Keeps };

    ghost first = { no_view };
}

/// What entering and publishing show.
pub struct Observes;

impl Outcome<Replica, Prefix> for Observes {
    ghost use Rattle.hk_node.specs.Published.{Sees};

    ghost then = { Sees };
}

pub type NodeWriter = Writer<Replica, Logged, Prefix, Published>;

pub type NodeReader = Reader<Replica, Prefix, Published>;

pub type NodeReading = Reading<Replica, Prefix, Published>;

/// Shows readers what waits in the writer's log.
fn show<R: Wait>(writer: NodeWriter, rt: &R) -> (NodeWriter, Result<(), AllocError>)
    requires { IsReady (shown writer) (pending writer) }
    ensures view { IfOk result.1 (λ _. known result.0.desk.place ≡ (shown result.0).prefix) }
    ensures values { ShowsAll writer result.0 result.1 }
{
    writer.publish_as::<Observes, R>(rt)
}

/// Publishes what waits, in the writer's log or beside it.
fn publish_all<R: Wait>(
    writer: &mut NodeWriter,
    late: &mut Option<Logged>,
    rt: &R,
) -> Result<(), AllocError>
    requires { IsReady (shown writer.old) (waiting writer.old late.old) }
    ensures shown { IsShown (shown writer.old) (waiting writer.old late.old) (shown writer.new) result }
    ensures waits { OnErr result (0 < length (waiting writer.old late.old)) }
    ensures queue { IsEmptied (waiting writer.old late.old) (waiting writer.new late.new) result }
{
    if let Some(logged) = late.take() {
        if let Err(logged) = writer.append(logged) {
            *late = Some(logged);
            return Err(AllocError);
        }
    }
    if !writer.has_pending_operations() {
        return Ok(());
    }
    replace_with(writer, rt, show::<R>)
}

/// The writer, with the handle by which its drop waits for the readers.
pub(crate) struct Copies<R: Wait + Drop> {
    pub writer: NodeWriter,
    pub rt: R,
}

impl<R: Wait + Drop> Drop for Copies<R> {
    fn drop(self) {
        let Self { writer, rt } = self;
        drop(writer.take(&rt));
    }
}

/// Makes the log's room, by an operation that changes nothing. No more than two are in it at a time, so later ones
/// find it.
fn make_room(writer: &mut NodeWriter, kind: NodeKind) -> bool
    requires none { pending writer.old ≡ [] }
    requires replayed { IsReplay (shown writer.old) }
    ensures desk { writer.new.desk ≡ writer.old.desk }
    ensures ready { IsTrue result → IsReady (shown writer.new) (pending writer.new) }
    ensures same { IsTrue result → fold next (shown writer.new) (pending writer.new) ≡ shown writer.old }
{
    let prefix = writer.published().prefix.again();
    let blank = Logged {
        op: Op::Start(kind),
        prefix,
    };
    writer.append(blank).is_ok()
}

/// The two copies at the start, with the first published.
pub(crate) fn copies_of<R: Wait + Drop>(
    rt: R,
    alloc: Global,
    kind: NodeKind,
    prefix: &Prefix,
    places: usize,
) -> Result<Copies<R>, Refusal>
    requires list { prefix.now.1 ≡ StartOf kind ∷ [] }
    requires places { (0 < places) × (places ≤ 64) }
    ensures shown { IfOk result (λ c. shown c.writer ≡ record { body = start_content kind; prefix = prefix.now }) }
    ensures none { IfOk result (λ c. pending c.writer ≡ []) }
    ensures view { IfOk result (λ c. known c.writer.desk.place ≡ prefix.now) }
    ensures err { IfErr result (λ why. why ≡ Memory) }
{
    let one = Replica::new(alloc, kind.again(), prefix.again())?;
    let other = Replica::new(alloc, kind.again(), prefix.again())?;
    let mut writer: NodeWriter = Writer::new(alloc, one, other, places)?;
    if !make_room(&mut writer, kind.again()) {
        drop(Copies { writer, rt });
        return Err(Refusal::Memory);
    }
    let (writer, shown) = show(writer, &rt);
    let copies = Copies { writer, rt };
    shown?;
    Ok(copies)
}

/// What a change returns: the list of operations that ends with it; or what a seat has seen. Contracts see it as that
/// list. It is of a published list: `Publisher::receipt` makes one of what is published, `ReaderSeat::receipt` of what
/// its seat saw published, or got a receipt of.
#[derive(Drop)]
pub struct Receipt<J: NodeName> {
    pub(crate) prefix: Prefix,
    pub(crate) of: PhantomData<J>,
}

impl<J: NodeName> Model for Receipt<J> {
    ghost use Rattle.std.specs.Prelude.{◌≡◌, List};
    ghost use Rattle.hk_oplog.specs.declared.op.Op.{Op};
    ghost use Rattle.hk_oplog.specs.Replay.{kind_of};
    ghost use Rattle.std.specs.Coded.{coded_list};
    ghost use Rattle.hk_oplog.specs.contracts.op.Op as op;

    ghost Value = { List Op };

    ghost coded = { coded_list op.the_row.coded };

    ghost view = { λ r. r.prefix.1 };

    ghost invariant = { λ r. (r.prefix.0 ≡ J.book) × (kind_of r.prefix.1 ≡ J.kind) };
}

impl<J: NodeName> Receipt<J> {
    /// The number of its operations. It takes no memory.
    pub fn ops(&self) -> u64
        ensures length { result ≡ length self.now }
        ensures legal { IsListOf J.kind self.now }
        ensures formed { All IsFormed self.now }
    {
        self.prefix.len()
    }
}

/// What lies under the writer's lock. Contracts see it as the published list and what waits.
///
/// An example of how the copies A and B take turns. Readers read the shown copy. Each line has the operations in the
/// copies after the change; the log has what the spare copy lacks, and what waits:
///
///     start        shown B: 1             spare A: 1             log: a blank operation, which changes nothing
///     change 2     shown A: 1, 2          spare B: 1             log: 2
///     change 3     shown B: 1, 2, 3       spare A: 1, 2          log: 3
///     change 4     shown B: 1, 2, 3       spare A: 1, 2, 3       log: 4    no memory: `Unpublished`, 4 waits
///     change 5     shown B: 1 to 5        spare A: 1 to 4        log: 5
///     settle       shown A: 1 to 5        spare B: 1 to 5        log: none
///
/// Change 5 first publishes what waits: A gets 4 and is shown. Then 5 is tested on A, B gets 4 and 5, and B is shown.
/// Before a copy is changed, the writer waits for the readers that still read it.
#[derive(Drop)]
pub struct Publisher<J: NodeName, R: Wait + Drop> {
    copies: Copies<R>,
    late: Option<Logged>,
    counter: Counter,
    of: PhantomData<J>,
}

impl<J: NodeName, R: Wait + Drop> Model for Publisher<J, R> {
    ghost use Rattle.std.specs.Prelude.{List};
    ghost use Rattle.hk_oplog.specs.declared.op.Op.{Op};
    ghost use Rattle.std.specs.Coded.{coded×, coded_list};
    ghost use Rattle.hk_oplog.specs.contracts.op.Op as op;

    ghost Value = { List Op × List Op };

    ghost coded = { coded× (coded_list op.the_row.coded) (coded_list op.the_row.coded) };

    ghost use Rattle.hk_node.specs.Published.{shown, waiting, ops_of, IsPublisher};

    ghost view = { λ d. ((shown d.copies.writer).prefix.1, ops_of (waiting d.copies.writer d.late)) };

    ghost invariant = { λ d. IsPublisher J.book J.kind d.counter.word.book (shown d.copies.writer) (waiting d.copies.writer d.late) };
}

impl<J: NodeName, R: Wait + Drop> Publisher<J, R> {
    /// What lies under the lock of a new node.
    pub(crate) fn new(copies: Copies<R>, counter: Counter, kind: NodeKind) -> Publisher<J, R>
        requires kind { kind ≡ J.kind }
        requires list { (shown copies.writer).prefix.1 ≡ StartOf kind ∷ [] }
        requires body { (shown copies.writer).body ≡ start_content kind }
        requires book { ((shown copies.writer).prefix.0 ≡ J.book) × (counter.word.book ≡ J.book) }
        requires none { pending copies.writer ≡ [] }
        ensures { result ≡ (StartOf kind ∷ [], []) }
    {
        Publisher {
            copies,
            late: None,
            counter,
            of: PhantomData,
        }
    }

    /// Publishes what waits. A refusal changes nothing, and comes only where something waits. Cost: that of what waits.
    pub fn publish(&mut self) -> Result<(), AllocError>
        ensures lists { MatchResult result (λ _. self.new ≡ (self.old.0 ++ self.old.1, []))
            (λ _. self.new ≡ self.old) }
        ensures waits { OnErr result (0 < length self.old.1) }
        ensures few { length self.old.1 ≤ 1 }
        ensures legal { IsListOf J.kind (self.old.0 ++ self.old.1) }
    {
        publish_all(&mut self.copies.writer, &mut self.late, &self.copies.rt)
    }

    /// Has the spare copy take the operation that it lacks, and be shown: the next change then pays for itself alone. Where an
    /// operation waits, or there is no memory, nothing changes and the next change pays for both. It waits for readers that still
    /// read the older copy. Cost: that of the operation that this copy lacks.
    pub fn settle(&mut self)
        ensures { self.new ≡ self.old }
    {
        if self.late.is_some() || self.copies.writer.has_pending_operations() {
            return;
        }
        let _settled = replace_with(&mut self.copies.writer, &self.copies.rt, show::<R>);
    }

    /// What readers read now.
    pub(crate) fn published(&self) -> &Replica
        ensures body { result.now.body ≡ replay self.now.0 }
        ensures prefix { result.now.prefix ≡ (J.book, self.now.0) }
        ensures legal { IsListOf J.kind self.now.0 }
    {
        self.copies.writer.published()
    }

    /// A receipt of the published list.
    pub fn receipt(&self) -> Receipt<J>
        ensures list { result ≡ self.now.0 }
        ensures legal { IsListOf J.kind result }
    {
        let prefix = self.published().prefix.again();
        Receipt {
            prefix,
            of: PhantomData,
        }
    }

    /// How many pins the published list has.
    pub fn hold_count(&self) -> u64
        ensures count { result ≡ (replay self.now.0).hold_count }
        ensures bound { result ≤ 2 ^ 62 }
        ensures legal { is_legal self.now.0 ≡ true }
    {
        self.published().body.hold_count()
    }

    /// Why an operation is refused after the published list, if it is. Cost: O(s + h), s streams, h active pins, and
    /// in a guarded node that of the tests of a fragment, and of a prune, as `Body::refusal` has them.
    pub fn refusal(&self, op: &Op) -> Option<Refusal>
        ensures { result ≡ refusal_of (replay self.now.0) op.now }
    {
        self.published().body.refusal(op)
    }

    /// The fragment of what is new in items after the published list, where they agree with it and with each other.
    pub fn agreed(&self, alloc: Global, items: &[Item]) -> Result<Fragment, Refusal>
        ensures { AgreesWith (replay self.now.0) items.now result }
    {
        self.published().body.agreed(alloc, items)
    }

    /// How many of the items are new after the published list, each compared with it alone. It takes no memory.
    pub fn count_new(&self, items: &[Item]) -> u64
        ensures { result ≡ count_new (replay self.now.0).content items.now }
    {
        self.published().body.count_new(items)
    }

    /// The published list with one operation more, which the node's list has from now on.
    pub fn extended(&self, op: &Op) -> Option<Prefix>
        requires { refusal_of (replay self.now.0) op.now ≡ None }
        ensures { IfSome result (λ p. p ≡ (J.book, self.now.0 ++ op.now ∷ [])) }
    {
        self.published().prefix.extended(&self.counter, op)
    }

    /// Puts an operation behind the published list, to wait.
    pub fn put(&mut self, op: Op, prefix: Prefix)
        requires none { self.old.1 ≡ [] }
        requires legal { refusal_of (replay self.old.0) op ≡ None }
        requires prefix { prefix ≡ (J.book, self.old.0 ++ op ∷ []) }
        ensures { self.new ≡ (self.old.0, op ∷ []) }
    {
        self.late = Some(Logged { op, prefix });
    }
}
