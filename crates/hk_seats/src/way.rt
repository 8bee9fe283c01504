//! What a connection may do at a node.

ghost use Rattle.std.specs.Prelude.{◌≡◌};
ghost use Rattle.hk_doors.specs.declared.passes.Passes.TheVariants.{All, Feeds, Readings};
ghost use Rattle.hk_seats.specs.Ways.{way_passes};

use hk_doors::Passes;
use hk_node::{Node, NodeName};
use std::sync::Wait;

/// What a connection may do at a node.
#[derive(Drop)]
pub enum Way<'a, J: NodeName, N: Wait + Drop> {
    /// Everything.
    Open(&'a Node<J, N>),
    /// Send items, and ask.
    Feeding(&'a Node<J, N>),
    /// Ask.
    Reading,
}

impl<'a, J: NodeName, N: Wait + Drop> Way<'a, J, N> {
    /// The way of who may do everything at a node.
    pub fn open(node: &'a Node<J, N>) -> Way<'a, J, N>
        ensures { way_passes result ≡ All }
    {
        Way::Open(node)
    }

    /// The way of who may send items to a node, and ask.
    pub fn feeding(node: &'a Node<J, N>) -> Way<'a, J, N>
        ensures { way_passes result ≡ Feeds }
    {
        Way::Feeding(node)
    }

    /// The way of who may ask.
    pub fn reading() -> Way<'a, J, N>
        ensures { way_passes result ≡ Readings }
    {
        Way::Reading
    }

    /// Which requests it lets through.
    pub fn passes(&self) -> Passes
        ensures { result ≡ way_passes self.now }
    {
        match self {
            Way::Open(_) => Passes::All,
            Way::Feeding(_) => Passes::Feeds,
            Way::Reading => Passes::Readings,
        }
    }

    /// The same way, to the same node.
    pub fn again(&self) -> Way<'a, J, N>
        ensures { way_passes result ≡ way_passes self.now }
    {
        match self {
            Way::Open(same) => Way::Open(same),
            Way::Feeding(same) => Way::Feeding(same),
            Way::Reading => Way::Reading,
        }
    }
}
