//! The operations of a node.

ghost use Rattle.std.specs.Prelude.{◌≡◌};
ghost use Rattle.hk_oplog.specs.Final.{IsFormed};

use hk_fragment::Fragment;
use hk_types::{Config, Time};

/// A pinned time: it stays readable until the pin is released. While the pin is active, the oldest readable time does
/// not pass it. Dropping the value releases nothing.
#[derive(Debug, PartialEq, Eq, Drop)]
pub struct Hold {
    /// The number of the pin. The pins of a node are numbered 1, 2, 3, and no number comes twice.
    pub reader: u64,
    /// The pinned time.
    pub at: Time,
}

/// What a node is from its start on: the log that it is of, and whether it is guarded.
#[derive(Clone, Copy, Debug, PartialEq, Eq)]
pub struct NodeKind {
    /// The log.
    pub config: Config,
    /// Whether a join or merge that conflicts with what the node holds is refused, instead of making the node fail, and so
    /// is one, or a prune, that touches the past.
    pub guarded: bool,
}

impl NodeKind {
    /// The same, once more. It takes no memory.
    pub fn again(&self) -> NodeKind
        ensures { result ≡ self.now }
    {
        NodeKind {
            config: self.config,
            guarded: self.guarded,
        }
    }
}

/// One operation of a node.
#[derive(Drop)]
pub enum Op {
    /// The start of such a node. It is the first operation of each list, and no other.
    Start(NodeKind),
    /// A join of a fragment.
    Join(Fragment),
    /// A merge of a state, as the join of its full snapshot.
    Merge(Fragment),
    /// A prune to a time, or to the least pinned time where that is lower.
    Prune(Time),
    /// A pin of a time.
    Hold(Time),
    /// The release of a pin.
    Release { reader: u64, at: Time },
}

impl Op {
    /// That a fragment which it has is lawful, as each is. It takes no memory, and does nothing.
    pub fn formed(&self)
        ensures { IsFormed self.now }
    {
        match self {
            Op::Join(fragment) | Op::Merge(fragment) => {
                let _lawful = fragment.base();
            }
            Op::Start(_) | Op::Prune(_) | Op::Hold(_) | Op::Release { .. } => {}
        }
    }
}
