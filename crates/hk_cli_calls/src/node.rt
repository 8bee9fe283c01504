//! What a node that runs is asked to do.

use crate::call::OutputForm;
use hk_model::Query;
use hk_types::Time;

/// Where a node is.
#[derive(Clone, Copy)]
pub enum NodePlace<'a> {
    /// On a port of 127.0.0.1.
    Port(u16),
    /// At an address: a name or an IP address, a colon, and a port.
    Address(&'a str),
    /// At a Unix domain socket of this path.
    Path(&'a str),
}

/// How the bodies of a table are printed.
#[derive(Clone, Copy)]
pub enum Bodies {
    /// As text where they are text that can be shown as it is, else in hexadecimal digits behind `\x`.
    Guessed,
    /// In hexadecimal digits.
    Digits,
    /// As text; what can't be shown as it is, is escaped.
    Text,
}

/// What a node is asked to do.
#[derive(Clone, Copy)]
pub enum Order {
    /// To answer the requests of the input: those of version 1, or of version 2 too.
    Push {
        with_second: bool,
    },
    /// To answer the lines of the input.
    Shell {
        bodies: Bodies,
    },
    /// To answer a query, at the resolved time where the caller names no time; where the order waits, once its time can be read.
    Ask {
        time: Option<Time>,
        waits: bool,
        query: Query,
        form: OutputForm,
    },
    /// To return its range of readable times; where a time is given, once that can be read.
    Front {
        wait: Option<Time>,
        form: OutputForm,
    },
    /// To return how far each stream is; where they are wanted, the node's numbers and the tables that it holds anything of.
    Status {
        stats: bool,
        tables: bool,
        form: OutputForm,
    },
    /// To return a full snapshot: in bytes, the frame of a request that gives it to a node, or those of its chunks where one
    /// message has no room for it, and behind them that of their checksum unless it is plain; or lines of JSON.
    Save {
        form: OutputForm,
        is_plain: bool,
    },
    /// To join the fragments of the input, in one message or in chunks, as `Save` writes them in bytes.
    Load,
    /// To join what the node at the call's source has applied since this one's resolved time, or its full snapshot where it
    /// refuses the delta for its base; in chunks where one message has no room for it.
    Pull,
    /// To drop the versions that no read at a time or later needs.
    Prune {
        horizon: Time,
    },
    /// To apply the items of the input, in batches of so many, or of 67,108,864 bytes; by requests of version 2 where the number
    /// of new ones is wanted. Where it follows, the input goes on behind its end, again and again.
    Feed {
        batch: u64,
        with_second: bool,
        follows: bool,
    },
}

impl Order {
    /// The form of what is printed.
    pub fn form(&self) -> OutputForm {
        match self {
            Order::Ask { form, .. } | Order::Front { form, .. } => *form,
            Order::Status { form, .. } | Order::Save { form, .. } => *form,
            Order::Push { .. } | Order::Shell { .. } | Order::Load => OutputForm::Lines,
            Order::Pull | Order::Prune { .. } | Order::Feed { .. } => OutputForm::Lines,
        }
    }
}

/// How long a command waits for a node.
#[derive(Clone, Copy)]
pub struct Limits {
    /// For how many seconds it tries again to connect where nobody listens, and waits for an address that doesn't answer; 0: it tries
    /// once, and waits for three.
    pub connect_seconds: u64,
    /// For how many seconds it waits until a byte of a reply comes, or one of a request goes; 0: without a limit.
    pub reply_seconds: u64,
    /// How many bytes a second have to have come of a reply that isn't complete 30 seconds after it began; 0: without a limit.
    pub read_rate: u64,
}

/// What the node at a place is asked to do.
#[derive(Clone, Copy)]
pub struct NodeCall<'a> {
    pub place: NodePlace<'a>,
    /// The node that `Pull` copies from; without one it is the same.
    pub source: Option<NodePlace<'a>>,
    pub limits: Limits,
    pub order: Order,
}
