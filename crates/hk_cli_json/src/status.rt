//! How far a stream is, in JSON.

ghost use Rattle.std.specs.Prelude.{◌≡◌, ◌++◌, Some, OnOk};
ghost use Rattle.std.specs.String.{string_bytes};
ghost use Rattle.hk_cli_json.specs.Statuses as spec;

use crate::line::InJson;
use hk_types::{StreamNo, Time};
use std::alloc::{AllocError, Global};

/// How far a stream is; `standing` is what it does to the resolved time, in a word.
#[derive(Clone, Copy)]
pub struct StreamLine {
    pub stream: StreamNo,
    pub prefix: u64,
    pub extra: u64,
    pub closed: Time,
    pub waiting: u64,
    pub standing: &'static str,
}

fn put_taken(line: &StreamLine, out: &mut String) -> Result<(), AllocError>
    ensures { OnOk result (string_bytes out.new ≡ string_bytes out.old ++ spec.taken_of line.now) }
{
    let stream = line.stream;
    let prefix = line.prefix;
    let extra = line.extra;
    write!(
        out,
        "{{\"stream\":{stream},\"prefix\":\"{prefix}\",\"extra\":\"{extra}\""
    )
}

fn put_closed(line: &StreamLine, out: &mut String) -> Result<(), AllocError>
    ensures { OnOk result (string_bytes out.new ≡ string_bytes out.old ++ spec.closed_of line.now) }
{
    let closed = line.closed;
    let waiting = line.waiting;
    let standing = line.standing;
    writeln!(
        out,
        ",\"closed\":\"{closed}\",\"waiting\":\"{waiting}\",\"standing\":\"{standing}\"}}"
    )
}

impl InJson for StreamLine {
    ghost json = { λ line. Some (spec.line_of line) };

    fn json_to(&self, _alloc: Global, out: &mut String) -> Result<(), AllocError> {
        put_taken(self, out)?;
        put_closed(self, out)
    }
}
