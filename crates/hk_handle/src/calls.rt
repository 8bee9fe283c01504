//! Calls of a replica that write to what a caller of C lends.

ghost use Rattle.std.specs.Prelude.{◌≡◌, ◌++◌, true, Some, length, min, take, drop};
ghost use Rattle.std.specs.Option.{option_copied};
ghost use Rattle.hk_handle.specs.Calls.{Bounded, Called, Got, Listed, Told, Wrote, asks_rows, copied_into};
ghost use Rattle.hk_handle.specs.Pages.{WritesFound};

use crate::found::{Bounds, Found, Paged};
use crate::replica::Replica;
use hk_model::{Page, Query};
use hk_session_parts::Host;
use hk_state::front_of;
use hk_types::{Key, Refusal, Row, Table};
use std::alloc::Global;

/// The number of the refusal for want of memory.
pub const MEMORY: u8 = 90;

/// Copies as many bytes as both have, and returns how many.
pub fn copy_prefix(from: &[u8], to: &mut [u8]) -> usize
    ensures count { result ≡ min (length from.now) (length to.old) }
    ensures copied { to.new ≡ take result from.now ++ drop result to.old }
{
    let n = from.len().min(to.len());
    to[..n].copy_from_slice(&from[..n]);
    n
}

/// Reports a row, and copies as much of its body as there is room.
fn tell(row: Option<&Row>, found: &mut Found, out: &mut [u8])
    ensures { Told (option_copied row.entry) found.new out.old out.new }
{
    match row {
        None => *found = Found {
            row: false,
            tag: 0,
            len: 0,
        },
        Some(row) => {
            let body = row.body();
            *found = Found {
                row: true,
                tag: row.tag().number(),
                len: body.len(),
            };
            let _copied = copy_prefix(body, out);
        }
    }
}

/// Writes the rows that are kept, as much as there is room, and how many bytes they have.
fn write_list(
    listed: Result<(), Refusal>,
    replica: &Replica,
    out: &mut [u8],
    needed: &mut usize,
) -> u8
    ensures { Wrote listed replica.now.reply needed.new out.old out.new result }
{
    match listed {
        Err(why) => {
            *needed = 0;
            why.number()
        }
        Ok(()) => {
            let text = replica.reply();
            *needed = text.len();
            let _copied = copy_prefix(text, out);
            0
        }
    }
}

/// Keeps the rows of a page that was found, writes as much of them as there is room, and reports what there is of it.
/// 0, or the number of the refusal.
pub fn write_page(
    alloc: Global,
    replica: &mut Replica,
    found: Result<Page, Refusal>,
    told: &mut Paged,
    out: &mut [u8],
) -> u8
    ensures { WritesFound replica.old replica.new found told.new out.old out.new result }
{
    *told = Paged::nothing();
    let page = match found {
        Err(why) => return why.number(),
        Ok(page) => page,
    };
    match replica.keep_page(alloc, &page) {
        Err(_refused) => MEMORY,
        Ok(kept) => {
            *told = kept;
            let _copied = copy_prefix(replica.reply(), out);
            0
        }
    }
}

impl Replica {
    /// Answers the requests, and keeps the replies, of which as much is copied as there is room. How many bytes there
    /// are is written. Returns the number of how the session ended.
    pub fn call(
        &mut self,
        alloc: Global,
        requests: &[u8],
        out: &mut [u8],
        written: &mut usize,
    ) -> u8
        ensures called { Called (Some self.old) (Some self.new) requests.now result }
        ensures written { written.new ≡ length self.new.reply }
        ensures copied { out.new ≡ copied_into out.old self.new.reply written.new }
    {
        let ended = self.answer(alloc, requests);
        let reply = self.reply();
        *written = reply.len();
        let _copied = copy_prefix(reply, out);
        ended.number()
    }

    /// Copies what is kept from a position on, as much as there is room, and returns how much.
    pub fn copy_reply(&self, from: usize, out: &mut [u8]) -> usize
        ensures count { result ≡ min (length (drop from self.now.reply)) (length out.old) }
        ensures copied { out.new ≡ take result (drop from self.now.reply) ++ drop result out.old }
    {
        let reply = self.reply();
        let start = from.min(reply.len());
        copy_prefix(&reply[start..], out)
    }

    /// Reports the row of a table at a key at a time, and copies as much of its body as there is room. Returns 0, or
    /// the number of the refusal, and then nothing is written.
    pub fn tell_row(&self, time: u64, table: u16, key: u64, found: &mut Found, out: &mut [u8]) -> u8
        ensures { Got (Some self.now) time table key found.new out.old out.new result }
    {
        match self.get(time, Table::new(table), Key::new(key)) {
            Err(why) => why.number(),
            Ok(row) => {
                tell(row, found, out);
                0
            }
        }
    }

    /// The range of the readable times, and how many operations were done.
    pub fn bounds(&self) -> Bounds
        ensures { Bounded (Some self.now) result 0 }
    {
        let front = front_of(self.host.state());
        Bounds {
            horizon: front.horizon.number(),
            readable: front.readable.number(),
            ops: self.host.ops(),
        }
    }

    /// Lists the rows that are answered from a key on, keeps them, and writes as much as there is room, and how many
    /// bytes they have. Returns 0, or the number of the refusal, and then nothing changes but that number of bytes.
    pub fn write_rows(
        &mut self,
        alloc: Global,
        time: u64,
        query: &Query,
        low: Key,
        out: &mut [u8],
        needed: &mut usize,
    ) -> u8
        requires { asks_rows query.now ≡ true }
        ensures { Listed (Some self.old) (Some self.new) time query.now low
            needed.new out.old out.new result }
    {
        let listed = self.list(alloc, time, query, low);
        write_list(listed, self, out, needed)
    }
}
