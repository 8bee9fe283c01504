//! The list of a node's operations, which exists in the proofs alone, and the prefixes of it that were seen.

ghost use Rattle.std.specs.Prelude.{◌≡◌, ◌<◌, ◌≤◌, ◌^◌, ◌++◌, ◌∷◌, [], true, false, length, All, None, IsTrue, IfSome};
ghost use mathlib.Core.List.{IsPrefix};
ghost use Rattle.hk_oplog.specs.declared.op.Op.TheVariants.{Start as StartOf};
ghost use Rattle.hk_oplog.specs.Final.{IsFormed};
ghost use Rattle.hk_oplog.specs.Replay.{config_of, guarded_of, is_legal, kind_of, refusal_of, replay};
ghost use Rattle.hk_node.specs.Book.{counter_of};

use hk_oplog::{NodeKind, Op};
use hk_types::Config;
use logbook::{Gain, Offer, Opening, Plain, Play, Rule, Seen, Start, Word};
use std::marker::{Brand, Model};

/// The rule of the book: its one word counts the operations after the first.
pub struct Counting;

impl Rule<Op, u64> for Counting {
    ghost use Rattle.std.specs.Prelude.{[], ◌∷◌};
    ghost use base.Fml.{ftrue};
    ghost use Rattle.hk_node.specs.Book.{IsCounted};

    ghost holds = { λ cells log. IsCounted cells log };

    ghost first = { [] };

    ghost hinted = { λ n log. Unit {0} };

    ghost shows = { λ log. [] };

    ghost keeps = { λ names log. ftrue };

    ghost moves = { λ ask before after answer. Unit {0} };
}

/// A book opens with the start of a node.
pub struct Opens;

impl Opening<NodeKind, Op> for Opens {
    ghost use Rattle.std.specs.Prelude.{[], ◌∷◌};
    ghost use Rattle.hk_oplog.specs.declared.op.Op.TheVariants.{Start as StartOf};

    ghost log = { λ count kind. StartOf kind ∷ [] };
}

/// Callers trade nothing.
pub struct Nothing;

impl Gain<Op, u64> for Nothing {
    ghost use base.Fml.{ftrue};

    ghost after = { λ names about answer. ftrue };
}

/// The step that adds an operation.
pub struct Add;

impl Play<Op, u64> for Add {
    ghost use Rattle.hk_node.specs.Book.{Adds};

    ghost then = { Adds };
}

impl Plain<Op, Op, u64> for Add {
    ghost use Rattle.std.specs.Prelude.{None};

    ghost ask = { λ op. op };

    ghost state = { λ op. None };
}

/// Which node it is, of which log, and whether it is guarded: a name that exists in the proofs alone.
pub trait NodeName {
    ghost use Rattle.logbook.specs.Pages.{Book};
    ghost use Rattle.hk_oplog.specs.declared.op.NodeKind.{NodeKind};

    ghost book: { Book };

    ghost kind: { NodeKind };
}

impl NodeName for Brand {
    ghost use Rattle.hk_node.specs.Book.{no_book, no_kind};

    ghost book = { no_book };

    ghost kind = { no_kind };
}

/// The word that counts a node's operations after the first.
#[derive(Drop)]
pub struct Counter {
    word: Word<Op, u64, Counting>,
    pub ghost is_counter: { word ≡ counter_of word.book },
}

/// A prefix of a node's list of operations that was seen. It has no bytes but the node's kind and a count. Contracts
/// see it as the name of the node and the operations.
#[derive(Drop)]
pub struct Prefix {
    kind: NodeKind,
    ops: u64,
    seen: Seen<Op, u64, Counting>,
}

impl Model for Prefix {
    ghost use Rattle.std.specs.Prelude.{◌≡◌, true, List, length};
    ghost use Rattle.logbook.specs.Pages.{Book};
    ghost use Rattle.hk_oplog.specs.declared.op.Op.{Op};
    ghost use Rattle.std.specs.Prelude.{All};
    ghost use Rattle.hk_oplog.specs.Final.{IsFormed};
    ghost use Rattle.hk_oplog.specs.Replay.{is_legal, kind_of};
    ghost use Rattle.logbook.specs.Pages.{book_coded};
    ghost use Rattle.std.specs.Coded.{coded×, coded_list};
    ghost use Rattle.hk_oplog.specs.contracts.op.Op as op;

    ghost Value = { Book × List Op };

    ghost coded = { coded× book_coded (coded_list op.the_row.coded) };

    ghost view = { λ p. (p.seen.book, p.seen.log) };

    ghost invariant = { λ p. (p.ops ≡ length p.seen.log) × (is_legal p.seen.log ≡ true) × (p.kind ≡ kind_of p.seen.log) × All IsFormed p.seen.log };
}

/// A new list, with the start of such a node alone.
fn open(kind: NodeKind) -> (Counter, Prefix)
    ensures list { result.1.1 ≡ StartOf kind ∷ [] }
    ensures same { result.0.word.book ≡ result.1.0 }
{
    let (seen, mut pens) = Seen::open_row::<NodeKind, Opens>(&kind, Start::alone(), 1);
    let mut pen = pens.take();
    let word = Word::tracked(0, &mut pen);
    let ops = 1;
    (Counter { word }, Prefix { kind, ops, seen })
}

impl Prefix {
    /// The log that the node is of.
    pub fn config(&self) -> Config
        ensures { result ≡ config_of self.now.1 }
    {
        self.kind.config
    }

    /// Whether the node is guarded.
    pub fn is_guarded(&self) -> bool
        ensures { result ≡ guarded_of self.now.1 }
    {
        self.kind.guarded
    }

    /// How many operations it has.
    pub fn len(&self) -> u64
        ensures length { result ≡ length self.now.1 }
        ensures legal { is_legal self.now.1 ≡ true }
        ensures formed { All IsFormed self.now.1 }
    {
        self.ops
    }

    /// The same prefix again.
    pub fn again(&self) -> Prefix
        ensures { result ≡ self.now }
    {
        Prefix {
            kind: self.kind.again(),
            ops: self.ops,
            seen: self.seen.again(),
        }
    }

    /// Whether it is no longer than another. Of two prefixes of one node's list the shorter begins the longer.
    pub fn compare(&self, other: &Prefix) -> bool
        requires { other.now.0 ≡ self.now.0 }
        ensures shorter { IsTrue result → IsPrefix self.now.1 other.now.1
            × (length self.now.1 ≤ length other.now.1) }
        ensures longer { result ≡ false → IsPrefix other.now.1 self.now.1
            × (length other.now.1 < length self.now.1) }
        ensures legal { is_legal self.now.1 ≡ true }
    {
        let mut both = self.seen.again();
        both.learn(&other.seen);
        self.ops <= other.ops
    }

    /// The prefix with an operation more, which the node's list has from now on. There is none where the list is longer
    /// than this prefix.
    pub fn extended(&self, counter: &Counter, op: &Op) -> Option<Prefix>
        requires counter { counter.now.word.book ≡ self.now.0 }
        requires legal { refusal_of (replay self.now.1) op.now ≡ None }
        ensures { IfSome result (λ p. p ≡ (self.now.0, self.now.1 ++ op.now ∷ [])) }
    {
        op.formed();
        let count = self.ops.checked_sub(1)?;
        let ops = self.ops.checked_add(1)?;
        let mut seen = self.seen.again();
        let mut offer: Offer<Op, u64, Counting, Nothing> = seen.plain::<Nothing, Op, Add>(op);
        let mut pen = seen.no_pen();
        let found = counter
            .word
            .compare_exchange::<Add, Nothing>(count, count + 1, &mut seen, &mut offer, &mut pen);
        if found != count {
            return None;
        }
        let kind = self.kind.again();
        Some(Prefix { kind, ops, seen })
    }
}

/// A list of operations with a start alone, which no node has yet. Contracts see it as the name of the node that it is
/// for, and its kind: of which log it is, and whether it is guarded.
#[derive(Drop)]
pub struct NewList {
    kind: NodeKind,
    counter: Counter,
    prefix: Prefix,
}

impl Model for NewList {
    ghost use Rattle.std.specs.Prelude.{◌≡◌, ◌∷◌, []};
    ghost use Rattle.logbook.specs.Pages.{Book};
    ghost use Rattle.hk_oplog.specs.declared.op.NodeKind.{NodeKind};
    ghost use Rattle.hk_oplog.specs.declared.op.Op.TheVariants.{Start as StartOf};

    ghost Value = { Book × NodeKind };

    ghost view = { λ l. (l.prefix.0, l.kind) };

    ghost invariant = { λ l. (l.prefix.1 ≡ StartOf l.kind ∷ []) × (l.counter.word.book ≡ l.prefix.0) };
}

impl NewList {
    /// The list of a new node of this log, which is not guarded: a join or merge that conflicts with what it holds
    /// makes the node fail for good.
    pub fn new(config: Config) -> NewList
        ensures log { result.1.config ≡ config }
        ensures open { result.1.guarded ≡ false }
    {
        NewList::of(config, false)
    }

    /// The list of a new guarded node of this log: a join or merge that conflicts with what it holds is refused, and
    /// nothing changes, so that the node never fails.
    pub fn guarded(config: Config) -> NewList
        ensures log { result.1.config ≡ config }
        ensures guarded { result.1.guarded ≡ true }
    {
        NewList::of(config, true)
    }

    /// The list of a new node of this log, guarded or not, as the one or the other of these.
    pub fn of(config: Config, is_guarded: bool) -> NewList
        ensures log { result.1.config ≡ config }
        ensures guarded { result.1.guarded ≡ is_guarded }
    {
        let kind = NodeKind {
            config,
            guarded: is_guarded,
        };
        let (counter, prefix) = open(kind.again());
        NewList {
            kind,
            counter,
            prefix,
        }
    }

    /// Its fields.
    pub(crate) fn into_parts(self) -> (NodeKind, Counter, Prefix)
        ensures kind { result.0 ≡ self.1 }
        ensures counter { result.1.word.book ≡ self.0 }
        ensures prefix { result.2 ≡ (self.0, StartOf self.1 ∷ []) }
    {
        let NewList {
            kind,
            counter,
            prefix,
        } = self;
        (kind, counter, prefix)
    }
}
