//! Why connections were not served.

ghost use Rattle.std.specs.Prelude.{◌≡◌};
ghost use Rattle.hk_host.specs.Faults.{net_fault_number};

use std::alloc::AllocError;
use std::io;

/// Why connections were not served, or not all of them.
#[derive(Clone, Copy, Debug, PartialEq, Eq)]
pub enum NetFault {
    /// The lists of connections or of ends could not be made, or no thread could be started.
    Memory,
    /// A bind, an accept or a connect failed, or the system had no set of sockets to wait for.
    Socket,
}

impl NetFault {
    /// The number: 90 or 93.
    pub fn number(self) -> u8
        ensures { result ≡ net_fault_number self }
    {
        match self {
            NetFault::Memory => 90,
            NetFault::Socket => 93,
        }
    }
}

impl From<AllocError> for NetFault {
    ghost use Rattle.hk_host.specs.declared.fault.NetFault.TheVariants.{Memory};

    ghost from_gives = { λ _ e. e ≡ Memory };

    fn from(_error: AllocError) -> NetFault {
        NetFault::Memory
    }
}

impl From<io::Error> for NetFault {
    ghost use Rattle.hk_host.specs.declared.fault.NetFault.TheVariants.{Socket};

    ghost from_gives = { λ _ e. e ≡ Socket };

    fn from(_error: io::Error) -> NetFault {
        NetFault::Socket
    }
}
