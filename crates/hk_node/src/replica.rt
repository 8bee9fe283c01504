//! A copy of the node's state, with a token of the list of operations that it is the replay of.

ghost use Rattle.std.specs.Prelude.{◌≡◌, IfOk, IfErr};
ghost use Rattle.hk_types.specs.declared.faults.Refusal.TheVariants.{Memory};
ghost use Rattle.hk_oplog.specs.Replay.{start_content};

use crate::book::Prefix;
use hk_oplog::{Body, NodeKind, Op};
use hk_types::Refusal;
use left_right::Absorb;
use std::alloc::{AllocError, Global};

/// A copy. The token has no bytes but a count.
#[derive(Drop)]
pub struct Replica {
    pub body: Body,
    pub prefix: Prefix,
}

impl Replica {
    /// A copy of a new node. The only refusal is `Memory`.
    pub fn new(alloc: Global, kind: NodeKind, prefix: Prefix) -> Result<Replica, Refusal>
        ensures ok { IfOk result
            (λ replica. replica ≡ record { body = start_content kind; prefix = prefix }) }
        ensures err { IfErr result (λ why. why ≡ Memory) }
    {
        let body = Body::new(alloc, kind)?;
        Ok(Replica { body, prefix })
    }
}

/// An operation with the list that ends with it.
#[derive(Drop)]
pub struct Logged {
    pub op: Op,
    pub prefix: Prefix,
}

impl Absorb<Logged> for Replica {
    type State = Replica;

    ghost use Rattle.hk_node.specs.Published.{next};

    ghost state = { λ x. x };

    ghost applied = { next };

    fn absorb_first(&mut self, operation: &Logged, _other: &Replica) -> Result<(), AllocError> {
        self.body.apply(&operation.op)?;
        self.prefix = operation.prefix.again();
        Ok(())
    }
}
