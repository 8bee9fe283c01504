//! Where connections come in, what they may do, and for how long they may keep silent.

ghost use Rattle.std.specs.Prelude.{◌≡◌};
ghost use Rattle.hk_doors.specs.declared.passes.Passes.TheVariants.{All, Feeds, Readings};
ghost use Rattle.hk_seats.specs.Ways.{way_passes};

use crate::sockets::Listener;
use hk_budgets::PartsBudget;
use hk_node::{Node, NodeName};
use hk_seats::Way;
use std::marker::Model;
use std::net::TcpListener;
use std::os::unix::net::UnixListener;
use std::sync::Wait;

/// Where connections come in, what they may do, and how many of them are served at once. Contracts see it as which requests it lets through.
#[derive(Drop)]
pub struct Door<'a, J: NodeName, N: Wait + Drop> {
    pub(crate) listener: Listener<'a>,
    pub(crate) way: Way<'a, J, N>,
    pub(crate) links: usize,
    /// What its connections may make the node keep, with those of other doors that share it.
    pub(crate) budget: &'a PartsBudget,
    pub(crate) tells_changes: bool,
}

impl<'a, J: NodeName, N: Wait + Drop> Model for Door<'a, J, N> {
    ghost use Rattle.hk_doors.specs.declared.passes.Passes.{Passes};
    ghost use Rattle.hk_seats.specs.Ways.{way_passes};

    ghost Value = { Passes };

    ghost view = { λ d. way_passes d.way };
}

impl<'a, J: NodeName, N: Wait + Drop> Door<'a, J, N> {
    fn new(
        listener: Listener<'a>,
        way: Way<'a, J, N>,
        links: usize,
        budget: &'a PartsBudget,
    ) -> Door<'a, J, N>
        ensures { result ≡ way_passes way.entry }
    {
        Door {
            listener,
            way,
            links,
            budget,
            tells_changes: false,
        }
    }

    /// At most so many connections of this listener at once answer every request, whether the node is guarded or not (see `Node` for
    /// what a guarded one refuses). A further one waits to be accepted. What they make the node keep counts in this budget, with what
    /// connections of other doors with the same budget do.
    pub fn open(
        listener: &'a TcpListener,
        node: &'a Node<J, N>,
        links: usize,
        budget: &'a PartsBudget,
    ) -> Door<'a, J, N>
        ensures { result ≡ All }
    {
        Door::new(Listener::Tcp(listener), Way::open(node), links, budget)
    }

    /// The same at a Unix domain socket.
    pub fn open_unix(
        listener: &'a UnixListener,
        node: &'a Node<J, N>,
        links: usize,
        budget: &'a PartsBudget,
    ) -> Door<'a, J, N>
        ensures { result ≡ All }
    {
        Door::new(Listener::Unix(listener), Way::open(node), links, budget)
    }

    /// At most so many connections of this listener at once answer Items, Feed and the requests that change nothing; another request
    /// is refused with 4 as a kind that has no meaning there, and ends the connection.
    pub fn feeding(
        listener: &'a TcpListener,
        node: &'a Node<J, N>,
        links: usize,
        budget: &'a PartsBudget,
    ) -> Door<'a, J, N>
        ensures { result ≡ Feeds }
    {
        Door::new(Listener::Tcp(listener), Way::feeding(node), links, budget)
    }

    /// At most so many connections of this listener at once answer the requests that change nothing: Front, Delta, Full and Ask; of
    /// version 2 Streams, AskLatest, Page, Whole, More and Await. Another request is refused with 4 as a kind that has no meaning there,
    /// and ends the connection, and so does with 2 a frame that is longer than all of these.
    pub fn reading(
        listener: &'a TcpListener,
        links: usize,
        budget: &'a PartsBudget,
    ) -> Door<'a, J, N>
        ensures { result ≡ Readings }
    {
        Door::new(Listener::Tcp(listener), Way::reading(), links, budget)
    }

    /// The same at a Unix domain socket.
    pub fn reading_unix(
        listener: &'a UnixListener,
        links: usize,
        budget: &'a PartsBudget,
    ) -> Door<'a, J, N>
        ensures { result ≡ Readings }
    {
        Door::new(Listener::Unix(listener), Way::reading(), links, budget)
    }

    /// The same door, of whose connections each change that takes effect is reported too.
    pub fn with_changes(self) -> Door<'a, J, N>
        ensures { result ≡ self.entry }
    {
        let mut door = self;
        door.tells_changes = true;
        door
    }
}

/// For how many seconds a connection may do nothing, where it would have to; 0: for ever.
#[derive(Clone, Copy)]
pub struct Limits {
    /// Inside a frame no byte comes. The connection ends with 91, and so it does where a frame took more reads than its length
    /// explains: 64, and one more for each 64 bytes of its length.
    pub read_seconds: u64,
    /// A frame that isn't complete 30 seconds after it began has to have brought so many bytes for each second since; else the connection
    /// ends with 91. Time in which the connection isn't read, since it waits or its replies stand, doesn't count. 0: as slowly as it likes.
    pub read_rate: u64,
    /// A reply isn't taken. The connection ends with 92.
    pub write_seconds: u64,
    /// Between two frames nothing comes, and nothing is waited for. The connection ends with 91.
    pub idle_seconds: u64,
}
