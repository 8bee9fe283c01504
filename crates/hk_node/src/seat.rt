//! The seats of readers, which take no lock and never wait: a seat is a reader's session with monotonic reads.

ghost use Rattle.std.specs.Prelude.{◌≡◌, ◌≢◌, ◌≤◌, ◌⊎◌, All, true, length, IfOk, IfErr, IfSome, IsTrue, vec_len};
ghost use Rattle.hk_types.specs.declared.faults.Refusal.TheVariants.{Damaged, Memory};
ghost use Rattle.hk_model.specs.Replica.Content.{readable};
ghost use Rattle.hk_model.specs.Replica.Pages.{page_seen};
ghost use Rattle.hk_model.specs.Replica.StreamsTold.{streams_seen};
ghost use mathlib.Core.List.{IsPrefix};
ghost use Rattle.left_right.specs.Sides.{view as known};
ghost use Rattle.hk_store.specs.Reads.{facts_of_content};
ghost use Rattle.hk_store.specs.TableLists.{AreTables};
ghost use Rattle.hk_oplog.specs.Carried.{IsLatestOfPrimary, IsOfPrimary};
ghost use Rattle.hk_oplog.specs.Final.{IsFormed, IsFinal, IsLatestFinal, IsAskedFinal, IsAskedFinalOrNone};
ghost use Rattle.hk_oplog.specs.Holds.{HoldsBack};
ghost use Rattle.hk_node.specs.Published.{IsOf, IsReplay, KeepsShown};
ghost use Rattle.hk_oplog.specs.Replay.{config_of, guarded_of, is_legal, kind_of, replay, IsListOf};
ghost use Rattle.hk_oplog.specs.Replies.{Answers, GivesOrMemory, GivesPageOrNone, GivesSeen, timed_seen, node_delta, node_front, node_latest, page_asked, node_reply, node_streams, node_whole};

use crate::book::{NodeName, Prefix};
use crate::publisher::{NodeReader, NodeReading, NodeWriter, Observes, Receipt};
use crate::replica::Replica;
use atomic_table::{Join, Split};
use hk_fragment::Fragment;
use hk_model::{Answer, Front, Page, PageQuery, Query, StreamsTold};
use hk_oplog::{Body, NodeSizes};
use hk_types::{Config, Refusal, Table, Time};
use std::alloc::{AllocError, Global};
use std::marker::{Model, PhantomData};

/// How the writer informs a new seat of what was published.
pub struct Informs;

impl Split<Prefix> for Informs {
    ghost left = { λ v. v };

    ghost right = { λ v. v };
}

impl Join<Prefix> for Informs {
    ghost use Rattle.hk_node.specs.Published.{no_view};

    ghost both = { λ v w. w };

    ghost spent = { no_view };
}

/// A seat that has seen what was published.
fn seat_of<J: NodeName>(
    writer: &mut NodeWriter,
    prefix: &Prefix,
    alloc: Global,
) -> Result<ReaderSeat<J>, AllocError>
    requires prefix { known writer.old.desk.place ≡ prefix.now }
    requires node { IsOf J.book prefix.now }
    requires kind { kind_of prefix.now.1 ≡ J.kind }
    ensures seat { IfOk result (λ seat. seat ≡ prefix.now.1) }
    ensures kept { KeepsShown writer.old writer.new }
{
    let mut reader = writer.factory().reader()?;
    reader.learn::<Informs>(writer.tell::<Informs>());
    Ok(ReaderSeat {
        reader: Some(reader),
        prefix: prefix.again(),
        alloc,
        room: u64::MAX,
        of: PhantomData,
    })
}

/// So many seats that have seen what was published.
pub(crate) fn seats_of<J: NodeName>(
    writer: &mut NodeWriter,
    prefix: &Prefix,
    alloc: Global,
    places: usize,
) -> Result<Vec<ReaderSeat<J>>, AllocError>
    requires prefix { known writer.old.desk.place ≡ prefix.now }
    requires node { IsOf J.book prefix.now }
    requires kind { kind_of prefix.now.1 ≡ J.kind }
    ensures seats { IfOk result (λ v. (vec_len v ≡ places) × All (λ seat. seat ≡ prefix.now.1) v.items) }
    ensures kept { KeepsShown writer.old writer.new }
{
    let mut seats = Vec::new(alloc);
    for _i in 0..places {
        seats.push(seat_of::<J>(writer, prefix, alloc)?)?;
    }
    Ok(seats)
}

/// A reader's seat: a session that never goes back in time. Contracts see it as the list of operations that it has
/// seen or got a receipt of.
///
/// A call that reads uses the copy that was published last, takes no lock of the node and waits for nobody, and keeps no copy
/// after it. `Memory` comes too where the seat could not enter, before every other test: so it is once the node is gone.
#[derive(Drop)]
pub struct ReaderSeat<J: NodeName> {
    reader: Option<NodeReader>,
    prefix: Prefix,
    alloc: Global,
    /// How many bytes an answer may take.
    room: u64,
    of: PhantomData<J>,
}

impl<J: NodeName> Model for ReaderSeat<J> {
    ghost use Rattle.std.specs.Prelude.{◌≡◌, List, MatchOption};
    ghost use Rattle.left_right.specs.Sides.{view as known};
    ghost use Rattle.hk_oplog.specs.declared.op.Op.{Op};
    ghost use Rattle.std.specs.Coded.{coded_list};
    ghost use Rattle.hk_oplog.specs.contracts.op.Op as op;

    ghost Value = { List Op };

    ghost coded = { coded_list op.the_row.coded };

    ghost use Rattle.hk_node.specs.Published.{IsOf};
    ghost use Rattle.hk_oplog.specs.Replay.{kind_of};

    ghost view = { λ s. s.prefix.1 };

    ghost invariant = { λ s. (s.prefix.0 ≡ J.book) × (kind_of s.prefix.1 ≡ J.kind) × MatchOption s.reader (Unit {0}) (λ r. IsOf J.book (known r.place)) };
}

/// Notes what a copy has seen, where it is no older than what was seen.
fn look(copy: &Replica, prefix: &mut Prefix) -> bool
    requires node { copy.now.prefix.0 ≡ prefix.old.0 }
    ensures node { prefix.new.0 ≡ prefix.old.0 }
    ensures seen { IsPrefix prefix.old.1 prefix.new.1 }
    ensures legal { is_legal prefix.new.1 ≡ true }
    ensures kind { kind_of prefix.new.1 ≡ kind_of prefix.old.1 }
    ensures copy { IsTrue result → prefix.new.1 ≡ copy.now.prefix.1 }
{
    if !prefix.compare(&copy.prefix) {
        return false;
    }
    *prefix = copy.prefix.again();
    true
}

/// Takes the list of a receipt, where it is no shorter than what was seen.
fn take_longer(prefix: &mut Prefix, told: Prefix)
    requires node { told.0 ≡ prefix.old.0 }
    ensures node { prefix.new.0 ≡ prefix.old.0 }
    ensures one { (prefix.new ≡ prefix.old) ⊎ (prefix.new ≡ told) }
    ensures seen { IsPrefix prefix.old.1 prefix.new.1 }
    ensures told { IsPrefix told.1 prefix.new.1 }
{
    if prefix.compare(&told) {
        *prefix = told;
    }
}

/// What a copy answers, where that takes no more bytes than there is room for.
fn answer_within(
    alloc: Global,
    body: &Body,
    time: Time,
    query: &Query,
    room: u64,
) -> Result<Answer, Refusal>
    ensures { Answers (node_reply body.now time query.now) result }
{
    if body.is_answer_above(alloc, time, query, room) {
        return Err(Refusal::Memory);
    }
    body.ask(alloc, time, query)
}

/// The same at the copy's resolved time.
fn latest_within(
    alloc: Global,
    body: &Body,
    query: &Query,
    room: u64,
) -> Result<(Time, Answer), Refusal>
    ensures latest { GivesSeen timed_seen (node_latest body.now query.now) result }
    ensures err { IfErr result (λ why. (why ≡ Memory) ⊎ (why ≡ Damaged)) }
{
    if body.is_latest_above(alloc, query, room) {
        return Err(Refusal::Memory);
    }
    body.latest(alloc, query)
}

/// The delta of a copy, where it takes no more bytes than there is room for. A base that is too old is refused as such.
fn delta_within(alloc: Global, body: &Body, base: Time, room: u64) -> Result<Fragment, Refusal>
    ensures { GivesOrMemory (node_delta body.now base) result }
{
    let is_old = base < body.horizon();
    if !is_old && body.is_cut_above(alloc, base, room) {
        return Err(Refusal::Memory);
    }
    body.delta_since(alloc, base)
}

/// The full snapshot of a copy, where it takes no more bytes than there is room for.
fn whole_within(alloc: Global, body: &Body, room: u64) -> Result<Fragment, Refusal>
    ensures { GivesOrMemory (node_whole body.now) result }
{
    if body.is_cut_above(alloc, Time::zero(), room) {
        return Err(Refusal::Memory);
    }
    body.whole(alloc)
}

/// The tables of which a copy holds anything.
fn all_tables(alloc: Global, body: &Body) -> Result<Vec<Table>, Refusal>
    ensures ok { IfOk result (λ tables. AreTables (facts_of_content body.now.content) tables.items) }
    ensures err { IfErr result (λ why. why ≡ Memory) }
{
    match body.tables(alloc, None)? {
        Some(tables) => Ok(tables),
        None => Err(Refusal::Memory),
    }
}

impl<J: NodeName> ReaderSeat<J> {
    /// From now on an answer, a delta or a full snapshot that would take more bytes than so many, at most counted, is refused
    /// `Memory` before anything of it is made, and after the other refusals. A page always has room. A new seat has no such limit.
    pub fn keep_within(&mut self, room: u64)
        ensures { self.new ≡ self.old }
    {
        self.room = room;
    }

    /// Enters the copy that was published last, and notes what it has seen.
    fn enter(&mut self) -> Result<NodeReading, Refusal>
        ensures list { IsListOf J.kind self.new }
        ensures seen { IsPrefix self.old self.new }
        ensures body { IfOk result (λ r. r.part.value.body ≡ replay self.new) }
        ensures place { IfOk result (λ r. IsOf J.book (known r.place)) }
        ensures err { IfErr result (λ why. why ≡ Memory) }
    {
        let _legal = self.prefix.len();
        let Some(reader) = self.reader.take() else {
            return Err(Refusal::Memory);
        };
        match reader.enter_as::<Observes>() {
            Ok(reading) => {
                if look(reading.get(), &mut self.prefix) {
                    return Ok(reading);
                }
                self.reader = Some(reading.leave());
                Err(Refusal::Memory)
            }
            Err(reader) => {
                self.reader = Some(reader);
                Err(Refusal::Memory)
            }
        }
    }

    /// Leaves the copy.
    fn leave(&mut self, reading: NodeReading)
        requires { IsOf J.book (known reading.place) }
        ensures { self.new ≡ self.old }
    {
        self.reader = Some(reading.leave());
    }

    /// What the node answers to a query at a time, from a list of operations that begins with all that was seen.
    ///
    /// Refusals in order: `Damaged` where the node failed by a conflict, which a guarded one never does; then as a state's:
    /// `TooOld` below the oldest readable time, `NotYet` above the resolved time, `Memory`. Cost: that of asking a state.
    pub fn ask(&mut self, time: Time, query: &Query) -> Result<Answer, Refusal>
        ensures legal { is_legal self.new ≡ true }
        ensures seen { IsPrefix self.old self.new }
        ensures answer { Answers (node_reply (replay self.new) time query.now) result }
        ensures sound { J.kind.guarded ≡ true → IfErr result (λ why. why ≢ Damaged) }

        // In a guarded node the answer never changes, until its time is below the oldest readable one.
        ensures stays { J.kind.guarded ≡ true → IsFinal self.new time query.now result }

        // A pinned time is too old only where the pin was released.
        ensures held { HoldsBack self.new time result }
        ensures primary { IsOfPrimary self.new time query.now result }
    {
        let reading = self.enter()?;
        let answer = answer_within(self.alloc, &reading.get().body, time, query, self.room);
        self.leave(reading);
        answer
    }

    /// What the node answers to a query at its resolved time, with that time: the newest answer that it has, and the
    /// time that it was read at.
    ///
    /// Refusals in order: `Damaged`, `Memory`. Cost: that of asking a state, and O(s), s streams.
    pub fn latest(&mut self, query: &Query) -> Result<(Time, Answer), Refusal>
        ensures legal { is_legal self.new ≡ true }
        ensures seen { IsPrefix self.old self.new }
        ensures latest { GivesSeen timed_seen (node_latest (replay self.new) query.now) result }
        ensures sound { J.kind.guarded ≡ true → IfErr result (λ why. why ≢ Damaged) }
        ensures stays { J.kind.guarded ≡ true → IsLatestFinal self.new query.now result }
        ensures err { IfErr result (λ why. (why ≡ Memory) ⊎ (why ≡ Damaged)) }
        ensures primary { IsLatestOfPrimary self.new query.now result }
    {
        let reading = self.enter()?;
        let latest = latest_within(self.alloc, &reading.get().body, query, self.room);
        self.leave(reading);
        latest
    }

    /// The first page of the rows of a table with keys from `low` to `high`, both inside, at a time: at most `most` of
    /// them, and no more than a message has room for; and whether more follow. The page after it has `low` above its
    /// last key.
    ///
    /// Refusals in order: `Damaged`; then as those of `ask`: `TooOld`, `NotYet`, `Memory`. Cost: that of a page of a
    /// state.
    pub fn page(&mut self, of: PageQuery) -> Result<Page, Refusal>
        ensures legal { is_legal self.new ≡ true }
        ensures seen { IsPrefix self.old self.new }
        ensures page { GivesSeen page_seen (page_asked (replay self.new) of) result }
        ensures sound { J.kind.guarded ≡ true → IfErr result (λ why. why ≢ Damaged) }
        ensures stays { J.kind.guarded ≡ true → IsAskedFinal self.new of result }
    {
        let reading = self.enter()?;
        let page = reading.get().body.page(self.alloc, of);
        self.leave(reading);
        page
    }

    /// The page that `page` gives, where it takes at most so many looks at a key; else `None`, and nothing of it is made.
    ///
    /// Refusals: those of `page`. Cost: that of a page of a state, with at most `looks` keys.
    pub fn page_within(&mut self, of: PageQuery, looks: u64) -> Result<Option<Page>, Refusal>
        ensures legal { is_legal self.new ≡ true }
        ensures seen { IsPrefix self.old self.new }
        ensures page { GivesPageOrNone (replay self.new) of.time of.table of.low of.high of.most result }
        ensures stays { J.kind.guarded ≡ true → IsAskedFinalOrNone self.new of result }
    {
        let reading = self.enter()?;
        let page = reading.get().body.page_within(self.alloc, of, looks);
        self.leave(reading);
        page
    }

    /// How far the node is, and each of its streams: of a failed node too, since the report says whether it failed.
    /// The only refusal is `Memory`. Cost: O(s + h), s streams, h active pins.
    pub fn streams(&mut self) -> Result<StreamsTold, Refusal>
        ensures legal { is_legal self.new ≡ true }
        ensures seen { IsPrefix self.old self.new }
        ensures streams { IfOk result (λ told. streams_seen told ≡ node_streams (replay self.new)) }
        ensures err { IfErr result (λ why. why ≡ Memory) }
    {
        let reading = self.enter()?;
        let streams = reading.get().body.streams(self.alloc);
        self.leave(reading);
        streams
    }

    /// How much the node holds, and how far its list is: of a failed node too. The only refusal is `Memory`, where the seat can't enter.
    /// Cost: O(1).
    pub fn sizes(&mut self) -> Result<NodeSizes, Refusal>
        ensures legal { is_legal self.new ≡ true }
        ensures seen { IsPrefix self.old self.new }
        ensures operations { IfOk result (λ s. s.operations ≡ (replay self.new).op_count) }
        ensures pins { IfOk result (λ s. s.pins ≡ length (replay self.new).holds) }
        ensures guarded { IfOk result (λ s. s.guarded ≡ (replay self.new).guarded) }
        ensures damaged { IfOk result (λ s. s.damaged ≡ (replay self.new).damaged) }
        ensures err { IfErr result (λ why. why ≡ Memory) }
    {
        let reading = self.enter()?;
        let sizes = reading.get().body.sizes();
        self.leave(reading);
        Ok(sizes)
    }

    /// A time from which on the node holds so many rows and ends, at most its resolved time, or 0 where there are fewer: as near to the
    /// end as that is known at once, which no clause says. The only refusal is `Memory`, where the seat can't enter. Cost: O(s), s streams.
    pub fn time_back(&mut self, many: u64) -> Result<Time, Refusal>
        ensures legal { is_legal self.new ≡ true }
        ensures seen { IsPrefix self.old self.new }
        ensures readable { IfOk result (λ time. time ≤ readable (replay self.new).content) }
        ensures err { IfErr result (λ why. why ≡ Memory) }
    {
        let reading = self.enter()?;
        let time = reading.get().body.time_back(many);
        self.leave(reading);
        Ok(time)
    }

    /// The tables of which the node holds a row or an end, by rising number: of a failed node too. The only refusal is `Memory`.
    /// Cost: O(t · log n), t tables, n facts.
    pub fn tables(&mut self) -> Result<Vec<Table>, Refusal>
        ensures legal { is_legal self.new ≡ true }
        ensures seen { IsPrefix self.old self.new }
        ensures tables { IfOk result (λ tables.
            AreTables (facts_of_content (replay self.new).content) tables.items) }
        ensures err { IfErr result (λ why. why ≡ Memory) }
    {
        let reading = self.enter()?;
        let tables = all_tables(self.alloc, &reading.get().body);
        self.leave(reading);
        tables
    }

    /// The same where there are no more than so many tables, else `None`. Cost: O(t · log n), t tables, at most `most`, n facts.
    pub fn tables_within(&mut self, most: u64) -> Result<Option<Vec<Table>>, Refusal>
        ensures legal { is_legal self.new ≡ true }
        ensures seen { IsPrefix self.old self.new }
        ensures tables { IfOk result (λ f. IfSome f
            (λ it. AreTables (facts_of_content (replay self.new).content) it.items)) }
        ensures err { IfErr result (λ why. why ≡ Memory) }
    {
        let reading = self.enter()?;
        let tables = reading.get().body.tables(self.alloc, Some(most));
        self.leave(reading);
        Ok(tables?)
    }

    /// The node's range of readable times. Refusals in order: `Damaged`, `Memory`. Cost: O(s), s streams.
    pub fn front(&mut self) -> Result<Front, Refusal>
        ensures legal { is_legal self.new ≡ true }
        ensures seen { IsPrefix self.old self.new }
        ensures front { GivesOrMemory (node_front (replay self.new)) result }
        ensures sound { J.kind.guarded ≡ true → IfErr result (λ why. why ≢ Damaged) }
    {
        let reading = self.enter()?;
        let front = reading.get().body.front();
        self.leave(reading);
        front
    }

    /// What the node holds and a replica may lack whose resolved time is at least the base.
    ///
    /// Refusals in order: `Damaged`; `TooOld` where the base is below the oldest readable time; `Memory`. Cost: that
    /// of the delta of a state.
    pub fn delta_since(&mut self, base: Time) -> Result<Fragment, Refusal>
        ensures legal { is_legal self.new ≡ true }
        ensures seen { IsPrefix self.old self.new }
        ensures delta { GivesOrMemory (node_delta (replay self.new) base) result }
        ensures sound { J.kind.guarded ≡ true → IfErr result (λ why. why ≢ Damaged) }

        // A pinned base is too old only where the pin was released.
        ensures held { HoldsBack self.new base result }
    {
        let reading = self.enter()?;
        let delta = delta_within(self.alloc, &reading.get().body, base, self.room);
        self.leave(reading);
        delta
    }

    /// The node's full snapshot: all that it holds, as a fragment of base 0. Refusals in order: `Damaged`, `Memory`.
    /// Cost: that of the full snapshot of a state, which is copied.
    pub fn whole(&mut self) -> Result<Fragment, Refusal>
        ensures legal { is_legal self.new ≡ true }
        ensures seen { IsPrefix self.old self.new }
        ensures whole { GivesOrMemory (node_whole (replay self.new)) result }
        ensures sound { J.kind.guarded ≡ true → IfErr result (λ why. why ≢ Damaged) }
    {
        let reading = self.enter()?;
        let whole = whole_within(self.alloc, &reading.get().body, self.room);
        self.leave(reading);
        whole
    }

    /// Applies a receipt of the same node: the seat has seen then the longer of the two lists, of which one is a
    /// prefix of the other. It takes no memory.
    pub fn learn(&mut self, receipt: Receipt<J>)
        ensures one { (self.new ≡ self.old) ⊎ (self.new ≡ receipt) }
        ensures seen { IsPrefix self.old self.new }
        ensures told { IsPrefix receipt self.new }
    {
        let Receipt {
            prefix: told,
            of: _,
        } = receipt;
        take_longer(&mut self.prefix, told);
    }

    /// A receipt of all that the seat has seen or got a receipt of: another seat of this node to which it is applied shows
    /// at least that from then on. It takes no memory. Cost: O(1).
    pub fn receipt(&self) -> Receipt<J>
        ensures { result ≡ self.now }
    {
        Receipt {
            prefix: self.prefix.again(),
            of: PhantomData,
        }
    }

    /// The log that the node is of. It takes no memory.
    pub fn config(&self) -> Config
        ensures list { result ≡ config_of self.now }
        ensures node { result ≡ J.kind.config }
    {
        self.prefix.config()
    }

    /// Whether the node is guarded, and so never fails. It takes no memory.
    pub fn is_guarded(&self) -> bool
        ensures list { result ≡ guarded_of self.now }
        ensures node { result ≡ J.kind.guarded }
    {
        self.prefix.is_guarded()
    }

    /// How many operations it has seen or got a receipt of. It takes no memory.
    pub fn seen(&self) -> u64
        ensures length { result ≡ length self.now }
        ensures legal { IsListOf J.kind self.now }
        ensures formed { All IsFormed self.now }
    {
        self.prefix.len()
    }
}
