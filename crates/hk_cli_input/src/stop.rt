//! What ends a command before its time.

ghost use Rattle.std.specs.Prelude.{◌≡◌};
ghost use Rattle.hk_types.specs.declared.faults.Refusal.TheVariants.{Form, Memory};
ghost use Rattle.hk_cli_input.specs.declared.stop.Stop.TheVariants.{Refused};
ghost use Rattle.hk_cli_input.specs.Stops.{refusal_of, device_number, placed};

use crate::summed::SumFault;
use hk_cli_reasons::{Origin, Place};
use hk_types::{FormFault, Refusal};
use std::alloc::AllocError;

/// Who answered in the place of a node.
#[derive(Clone, Copy)]
pub enum Peer {
    /// One that speaks HTTP.
    Http,
    /// One that speaks TLS, and raised an alert.
    Tls,
    /// One whose bytes are no frame.
    Other,
}

/// What a connection to a node fails by.
#[derive(Clone, Copy)]
pub enum LinkFault {
    /// It ended before the reply.
    Cut,
    /// No byte came, or none was taken, for so many seconds.
    Late(u64),
    /// Its reply brought fewer than so many bytes a second, for half a minute and more.
    Slow(u64),
    /// What answers is no node; as a reply it has this fault.
    NoNode(Peer, Refusal),
    /// The node has another log than what it was sent, as far as the two are known.
    OtherLog { sent: Option<u64>, own: Option<u64> },
}

impl LinkFault {
    /// The refusal that is printed for it, where it has one.
    pub fn refusal(&self) -> Option<Refusal>
        ensures { result ≡ refusal_of self.now }
    {
        match self {
            LinkFault::NoNode(_, why) => Some(*why),
            LinkFault::OtherLog { .. } => Some(Refusal::ForeignLog),
            _other => None,
        }
    }
}

/// Why a command stops.
#[derive(Clone, Copy)]
pub enum Stop {
    /// A fault of the input, or a refusal, `Memory` included.
    Refused(Refusal),
    /// The same, with where it came from.
    RefusedAt(Refusal, Origin),
    /// A read failed, or there were 2^32 reads without an end.
    ReadFault,
    /// A read of the input failed with this error of the system.
    InputFault(i32),
    /// The input has nothing.
    EmptyInput,
    /// A person asked to end: nothing failed.
    Quit,
    /// The line of this number, counted from 1, is no command.
    BadCommand(u64),
    /// A checksum in the input is wrong.
    Sum(SumFault),
    /// A write failed or took no bytes, so nothing more can be printed.
    WriteFault,
    /// A write to the file of items failed or took no bytes.
    ItemsFault,
    /// A write to a connection failed or took no bytes.
    SendFault,
    /// A port can't be listened to, or a connection can't be opened or accepted.
    NetFault,
    /// The same, where what failed and why is printed already.
    NetTold,
    /// What a connection to a node failed by, at a request.
    Link(LinkFault, Place),
}

impl From<Refusal> for Stop {
    ghost from_gives = { λ refusal e. e ≡ Refused refusal };

    fn from(refusal: Refusal) -> Stop {
        Stop::Refused(refusal)
    }
}

impl From<FormFault> for Stop {
    ghost from_gives = { λ fault e. e ≡ Refused (Form fault) };

    fn from(fault: FormFault) -> Stop {
        Stop::Refused(Refusal::Form(fault))
    }
}

impl From<AllocError> for Stop {
    ghost from_gives = { λ _ e. e ≡ Refused Memory };

    fn from(_error: AllocError) -> Stop {
        Stop::Refused(Refusal::Memory)
    }
}

impl Stop {
    /// The number of what failed, where that is a device or a connection.
    pub fn device_number(&self) -> u8
        ensures { result ≡ device_number self.now }
    {
        match self {
            Stop::Link(LinkFault::Cut, _) => 1,
            Stop::SendFault => 92,
            Stop::NetFault | Stop::NetTold => 93,
            _read => 91,
        }
    }

    /// The same, with where it came from, where it is a refusal of which that isn't known.
    pub fn at(self, origin: Origin) -> Stop
        ensures { result ≡ placed origin self }
    {
        match self {
            Stop::Refused(refusal) => Stop::RefusedAt(refusal, origin),
            other => other,
        }
    }
}
