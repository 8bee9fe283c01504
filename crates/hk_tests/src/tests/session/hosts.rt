//! A host of its own.

ghost use Rattle.std.specs.Prelude.{◌≡◌, ◌⊎◌};
ghost use Rattle.hk_messages.specs.declared.reply.Reply.{Reply};
ghost use Rattle.hk_messages.specs.declared.reply.Reply.TheVariants.{Done, Later};
ghost use Rattle.hk_messages.specs.declared.later_reply.LaterReply.TheVariants.{Done as LaterDone};
ghost use Rattle.hk_messages.specs.declared.request.Request.{Request};

use crate::tests::values::bytes_of;
use hk_session::{Counted, Host, serve};
use hk_wire::{LaterReply, Reply, Request};
use std::alloc::Global;
use std::test::*;

/// Answers each request with how many came before it, in its version. That is no number of operations at first.
#[derive(Drop)]
struct Tally {
    count: u64,
}

impl Host for Tally {
    ghost may = { λ old request reply new. (reply ≡ Done old.count) ⊎ (reply ≡ Later (LaterDone old.count)) };

    fn answer(&mut self, request: Request) -> Reply {
        let ops = self.count;
        self.count = ops.saturating_add(1);
        match request {
            Request::Later(_) => Reply::Later(LaterReply::Done { ops }),
            _ => Reply::Done { ops },
        }
    }
}

/// Whether a session of both versions over these bytes ends clean, its host has answered twice, and these were written.
fn is_said(alloc: Global, asked: &str, said: &str) -> Result<bool, Fail> {
    let (asked, said) = (bytes_of(alloc, asked)?, bytes_of(alloc, said)?);
    let mut reader = Counted::new(asked.as_slice());
    let mut writer = Counted::new(Vec::new(alloc));
    let mut host = Tally { count: 0 };
    let ended = serve::<2, _, _, _>(alloc, &mut reader, &mut writer, &mut host);
    Ok((ended.number(), host.count) == (0, 2) && writer.into_inner() == said)
}

/// Two requests of each version, and what is said to them.
static TALLIES: [(&str, &str); 2] = [
    (
        "00000002 01 11 00000002 01 13",
        "00000013 01 24 02 0000000000000000 0000000000000000 0000000a 01 20 0000000000000001",
    ),
    (
        "00000002 02 34 00000002 02 30",
        "00000013 02 48 02 0000000000000000 0000000000000000 0000000a 02 40 0000000000000001",
    ),
];

#[test]
fn a_reply_without_an_encoding_is_too_long(rt: HostRuntime) -> Result<(), Fail> {
    for (asked, said) in &TALLIES {
        assert!(rt; is_said(rt.alloc(), asked, said)?, "{asked}");
    }
    Ok(())
}
