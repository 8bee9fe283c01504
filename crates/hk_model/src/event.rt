use crate::query::Query;
use crate::write_op::WriteOp;
use hk_types::{StreamNo, Time};

/// What happens in a world of one primary and its replicas. Replicas and items are counted from 1.
#[derive(Debug, PartialEq, Eq, Drop)]
pub enum Event {
    /// A transaction that read at a time commits its writes on a stream.
    Commit {
        stream: StreamNo,
        read_at: Time,
        writes: Vec<WriteOp>,
    },
    /// The primary emits a mark of a stream.
    MarkOf {
        stream: StreamNo,
    },
    /// The primary retires a stream: it emits its last mark.
    Retire {
        stream: StreamNo,
    },
    /// A replica absorbs an item.
    Absorb {
        replica: u16,
        item: u64,
    },
    /// A replica joins the fragment of some items.
    Batch {
        replica: u16,
        items: Vec<u64>,
    },
    /// A replica is pruned to a time.
    Prune {
        replica: u16,
        horizon: Time,
    },
    /// A replica is merged into another.
    Merge {
        to: u16,
        from: u16,
    },
    /// A replica joins what another has applied since a time.
    Delta {
        to: u16,
        from: u16,
        base: Time,
    },
    /// A replica is asked at a time; replica 0 is the primary.
    Ask {
        replica: u16,
        t: Time,
        query: Query,
    },
    /// A replica returns its range of readable times.
    FrontOf {
        replica: u16,
    },
}
