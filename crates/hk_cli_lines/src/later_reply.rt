//! The lines of replies of version 2.

ghost use Rattle.std.specs.Prelude.{◌≡◌, ◌++◌, OnOk};
ghost use Rattle.std.specs.String.{string_bytes};
ghost use Rattle.hk_model.specs.Replica.Pages.{page_seen};
ghost use Rattle.hk_messages.specs.LaterReplies.{reply_seen};
ghost use Rattle.hk_cli_fields.specs.LaterReplies as spec;

use crate::line::{Printed, put_rows};
use hk_cli_fields::{put_fed, put_held, put_ready, put_stats, put_streams, put_tables};
use hk_messages::LaterReply;
use hk_model::Page;
use std::alloc::{AllocError, Global};

fn put_more(more: bool, out: &mut String) -> Result<(), AllocError>
    ensures { OnOk result (string_bytes out.new ≡ string_bytes out.old ++ spec.more_part more) }
{
    if more {
        return out.push_str(" more");
    }
    out.push_str(" all")
}

#[tactic(auto, using(std::proofs::Common::append_assoc))]
fn put_page(alloc: Global, page: &Page, out: &mut String) -> Result<(), AllocError>
    ensures { OnOk result (string_bytes out.new ≡ string_bytes out.old ++ spec.page_lines (page_seen page.now)) }
{
    let count = page.rows.len();
    put_rows(alloc, &page.rows, out)?;
    write!(out, "page {count}")?;
    put_more(page.more, out)?;
    out.push('\n')
}

impl Printed for LaterReply {
    ghost text = { λ reply. spec.reply_lines (reply_seen reply) };

    fn put_lines(&self, alloc: Global, out: &mut String) -> Result<(), AllocError> {
        match self {
            LaterReply::Done { ops } => writeln!(out, "done {ops}"),
            LaterReply::Streams(told) => put_streams(told, out),
            LaterReply::Latest { t, answer } => {
                writeln!(out, "latest {t}")?;
                answer.put_lines(alloc, out)
            }
            LaterReply::Page(page) => put_page(alloc, page, out),
            LaterReply::Part { facts, left } => {
                let count = facts.len();
                writeln!(out, "part {count} left {left}")
            }
            LaterReply::LastPart { facts, head } => {
                let count = facts.len();
                let base = head.base();
                writeln!(out, "last part {count} base {base}")
            }
            LaterReply::Added { count } => writeln!(out, "added {count}"),
            LaterReply::Held { number, t } => put_held(*number, *t, out),
            LaterReply::Fed { ops, new } => put_fed(*ops, *new, out),
            LaterReply::Ready { horizon, readable } => put_ready(*horizon, *readable, out),
            LaterReply::Stats(metrics) => put_stats(metrics, out),
            LaterReply::Tables(tables) => put_tables(tables, out),
            LaterReply::Refused(refusal) => refusal.put_lines(alloc, out),
        }
    }
}
