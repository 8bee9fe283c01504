//! How a session ended.

ghost use Rattle.std.specs.Prelude.{◌≡◌};
ghost use Rattle.hk_session_parts.specs.Endings.{ended_number};

use hk_types::FormFault;

/// How a session ended.
#[derive(Clone, Copy, Debug, PartialEq, Eq)]
pub enum Ended {
    /// All that was read is complete requests, and the reader is at its end.
    Clean,
    /// What follows the complete requests has this fault. `Truncated` is that of an end inside a frame.
    Fault(FormFault),
    /// A growth of the session's own buffers was refused.
    Memory,
    /// A read failed, or there were as many as a session may have.
    ReadFault,
    /// A write failed, or took 0 bytes.
    WriteFault,
}

impl Ended {
    /// The number: 0, the fault's, which is 1 to 10, 90, 91 or 92.
    pub fn number(self) -> u8
        ensures { result ≡ ended_number self }
    {
        match self {
            Ended::Clean => 0,
            Ended::Fault(fault) => fault.number(),
            Ended::Memory => 90,
            Ended::ReadFault => 91,
            Ended::WriteFault => 92,
        }
    }
}
