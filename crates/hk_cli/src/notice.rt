//! The lines of a node that serves connections, beside refusals.

ghost use Rattle.hk_cli.specs.Notices as spec;

use hk_cli_lines::Printed;
use std::alloc::{AllocError, Global};

/// What a node that serves connections prints.
#[derive(Clone, Copy)]
pub(crate) enum Notice {
    /// Connections can be opened to this port.
    Listening(u16),
    /// A connection ended, with this number.
    Ended(u8),
}

impl Printed for Notice {
    ghost text = { λ notice. spec.notice_line notice };

    fn put_lines(&self, _alloc: Global, out: &mut String) -> Result<(), AllocError> {
        match self {
            Notice::Listening(port) => writeln!(out, "listening {port}"),
            Notice::Ended(number) => writeln!(out, "ended {number}"),
        }
    }
}
