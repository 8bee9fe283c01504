//! The lines of replies.

ghost use Rattle.hk_messages.specs.Replies.{reply_seen};
ghost use Rattle.hk_cli_fields.specs.Replies as spec;

use crate::line::Printed;
use hk_cli_fields::{put_front, put_part};
use hk_messages::Reply;
use std::alloc::{AllocError, Global};

impl Printed for Reply {
    ghost text = { λ reply. spec.reply_lines (reply_seen reply) };

    fn put_lines(&self, alloc: Global, out: &mut String) -> Result<(), AllocError> {
        match self {
            Reply::Done { ops } => writeln!(out, "done {ops}"),
            Reply::Front(front) => put_front(*front, out),
            Reply::Fragment(fragment) => {
                let facts = fragment.facts().len();
                put_part(fragment.base(), fragment.horizon(), facts, out)
            }
            Reply::Answer(answer) => answer.put_lines(alloc, out),
            Reply::Refused(refusal) => refusal.put_lines(alloc, out),
            Reply::Later(later) => later.put_lines(alloc, out),
        }
    }
}
