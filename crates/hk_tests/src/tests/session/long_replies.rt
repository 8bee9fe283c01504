//! A session whose reply is long: it comes in pieces.

use super::new_host;
use crate::tests::values::{bytes_of, entry};
use hk_delta::whole_of;
use hk_log::Item;
use hk_session::{Session, StateHost, Step};
use hk_wire::{Reply, encode_reply};
use std::alloc::Global;
use std::test::*;

/// The body of each row: with it a fact of a full snapshot has 65 bytes.
const BODY: [u8; 40] = [7; 40];

/// Entries that put a row each.
fn entries(alloc: Global) -> Result<Vec<Item>, Fail> {
    let mut items = Vec::new(alloc);
    for number in 1..3001 {
        items.push(entry(alloc, 7, (1, number, number), (None, Some((number, &BODY))))?)?;
    }
    Ok(items)
}

/// A host that holds them.
fn host(alloc: Global) -> Result<StateHost, Fail> {
    let mut host = new_host(alloc)?;
    let _done = host.take_items(&entries(alloc)?);
    Ok(host)
}

/// The text of a reply, and behind it the front that it says.
fn text_of(alloc: Global, reply: &Reply) -> Result<Vec<u8>, Fail> {
    let front = bytes_of(alloc, "00000012 01 21 0000000000000000 0000000000000000")?;
    let mut text = Vec::new(alloc);
    encode_reply(reply, &mut text)?;
    text.extend_from_slice(&front)?;
    Ok(text)
}

/// What it says to a request of its full snapshot, and to one of its front.
fn wanted(alloc: Global, host: &StateHost) -> Result<Vec<u8>, Fail> {
    let whole = Reply::Fragment(whole_of(alloc, host.state())?);
    text_of(alloc, &whole)
}

/// A session with its host, and what was written.
#[derive(Drop)]
struct Play {
    alloc: Global,
    session: Session<2>,
    host: StateHost,
    written: Vec<u8>,
}

/// Which step a session takes, how many bytes were written by then, and how many of its reply are left.
type Taken = (Step, usize, u64);

impl Play {
    /// A step of the session. What it writes goes behind what was written.
    fn take(&mut self, asked: &[u8]) -> Result<Taken, Fail> {
        let mut out = Vec::new(self.alloc);
        let step = self.session.take(asked, false, &mut out, &mut self.host);
        self.written.extend_from_slice(&out)?;
        Ok((step, self.written.len(), self.session.standing()))
    }

    /// Four steps, of which the first takes a request of the full snapshot and one of the front.
    fn take_all(&mut self) -> Result<(Taken, Taken, Taken, Taken), Fail> {
        let asked = bytes_of(self.alloc, "00000002 01 13 00000002 01 11")?;
        let first = self.take(&asked)?;
        Ok((first, self.take(&[])?, self.take(&[])?, self.take(&[])?))
    }

    /// Whether these write a text, in pieces.
    fn writes(&mut self, text: &[u8]) -> Result<bool, Fail> {
        let steps = self.take_all()?;
        Ok(are_pieces(steps, text.len().saturating_sub(22)) && self.written.as_slice() == text)
    }
}

fn new_play(alloc: Global) -> Result<Play, Fail> {
    let host = host(alloc)?;
    Ok(Play {
        alloc,
        session: Session::new(alloc),
        host,
        written: Vec::new(alloc),
    })
}

/// Whether a step wrote a block of a reply of so many bytes, behind what was written before.
fn is_block(before: usize, taken: Taken, long: usize) -> bool {
    let (step, written, standing) = taken;
    let len = written.saturating_sub(before);
    let left = long.saturating_sub(written) as u64;
    step == Step::Full && len > 65_536 && len < 65_700 && standing == left
}

/// Whether the steps are two blocks of a reply of so many bytes, the last of it, and what was asked behind.
fn are_pieces(steps: (Taken, Taken, Taken, Taken), long: usize) -> bool {
    let (one, two, last, behind) = steps;
    let (_step, before, _standing) = one;
    let (step, _written, _standing) = behind;
    is_block(0, one, long)
        && is_block(before, two, long)
        && last == (Step::Full, long, 0)
        && step == Step::GoesOn
}

#[test]
fn a_long_reply_comes_in_pieces(rt: HostRuntime) -> Result<(), Fail> {
    let mut play = new_play(rt.alloc())?;
    let text = wanted(rt.alloc(), &play.host)?;
    assert!(rt; play.writes(&text)?);
    Ok(())
}
