//! Item frames in batches: `feed`.

use crate::link::{Link, unasked};
use crate::read::{fragment_at, front_at};
use hk_cli_commands::Output;
use hk_cli_input::{Sink, Stop, hand_items};
use hk_codec::frame_len;
use hk_log::{Item, Spare};
use hk_marks::Got;
use hk_messages::{LaterReply, Reply, Request};
use hk_types::{Refusal, StreamNo, Time};
use std::alloc::Global;
use std::io::{Read, Write};
use std::mem;
use std::rt::Clock;
use std::time::Instant;

/// The most items of a batch.
const MOST_ITEMS: u64 = 65_536;

/// The most bytes of a batch: with one item more it is still a message.
const MOST_BYTES: u64 = 67_108_864;

/// What a node did with items.
#[derive(Clone, Copy)]
struct Fed {
    /// How many it applied.
    taken: u64,
    /// How many of them it reported as new.
    new: u64,
    /// The number of its last operation.
    ops: u64,
}

/// Up to where the entries of a log's first stream go on without a hole.
#[derive(Clone, Copy)]
struct Reach {
    /// The number of the last one that the node has or was sent.
    last: u64,
    /// That of the first one behind a hole, if one came.
    beyond: Option<u64>,
}

/// What to do where entries lack.
const FILL: &str = "fill it from another node (hkrep pull), or from a save of one (hkrep load)";

/// Items on their way to a node.
#[derive(Drop)]
struct Batches<'a> {
    alloc: Global,
    link: &'a mut Link,
    /// How many items a batch has.
    most: u64,
    /// Whether it sends requests of version 2, whose replies say how many items were new.
    with_second: bool,
    items: Vec<Item>,
    /// How many bytes their frames have.
    bytes: u64,
    /// What the node did with those before.
    fed: Fed,
    /// Up to where they go on, where a hole stops them.
    reach: Option<Reach>,
}

impl<'a> Batches<'a> {
    fn new(link: &'a mut Link, most: u64, with_second: bool) -> Batches<'a> {
        let alloc = link.alloc();
        Batches {
            alloc,
            link,
            most,
            with_second,
            items: Vec::new(alloc),
            bytes: 0,
            fed: Fed {
                taken: 0,
                new: 0,
                ops: 0,
            },
            reach: None,
        }
    }

    /// Sends the items of the input.
    fn hand_all<I: Read>(&mut self, input: &mut I) -> Result<(), Stop> {
        hand_items(self.alloc, input, self)?;
        self.finish()
    }

    /// Notes that the node applied so many items, of which so many were new.
    fn count(&mut self, items: u64, ops: u64, new: u64) {
        self.fed.ops = ops;
        self.fed.taken = self.fed.taken.saturating_add(items);
        self.fed.new = self.fed.new.saturating_add(new);
    }

    /// Notes the reply to a batch of so many items.
    fn note(&mut self, reply: &Reply, count: u64) -> Result<(), Stop> {
        match reply {
            Reply::Done { ops } if !self.with_second => self.count(count, *ops, 0),
            Reply::Later(LaterReply::Fed { ops, new }) if self.with_second => {
                self.count(count, *ops, *new)
            }
            _other => return Err(unasked()),
        }
        Ok(())
    }

    /// The request of what was gathered, which is taken out. One of version 2 is replied how many were new.
    fn request(&mut self) -> Request {
        let items = mem::replace(&mut self.items, Vec::new(self.alloc));
        self.bytes = 0;
        if self.with_second {
            return Request::Feed(items);
        }
        Request::Items(items)
    }

    /// Sends what was gathered, and waits until the node applied it.
    fn send(&mut self) -> Result<(), Stop> {
        let count = self.items.len() as u64;
        let request = self.request();
        let reply = self.link.given(request)?;
        self.note(&reply, count)
    }

    /// Sends what is left; that there was no item at all stops the command.
    fn finish(&mut self) -> Result<(), Stop> {
        if !self.items.is_empty() {
            return self.send();
        }
        if self.fed.taken == 0 {
            return Err(Stop::EmptyInput);
        }
        Ok(())
    }

    /// Whether the entry of this number stands behind no hole.
    fn reaches(&mut self, number: u64) -> bool {
        let Some(before) = self.reach else {
            return true;
        };
        let mut reach = before;
        if number > before.last.saturating_add(1) {
            reach.beyond = Some(number);
        } else {
            reach.last = before.last.max(number);
        }
        self.reach = Some(reach);
        reach.beyond.is_none()
    }

    /// The same of an item.
    fn goes_on(&mut self, item: &Item) -> bool {
        match item {
            Item::Commit(entry) if entry.stream().number() == 1 => self.reaches(entry.number()),
            _other => true,
        }
    }

    fn is_full(&self) -> bool {
        let count = self.items.len() as u64;
        count >= self.most || count >= MOST_ITEMS || self.bytes >= MOST_BYTES
    }
}

impl Sink for Batches<'_> {
    type Item = Item;

    ghost took = { λ _ _ _. Unit {0} };

    fn take(&mut self, item: Item, _spare: &mut Spare) -> Result<(), Stop> {
        if !self.goes_on(&item) {
            return Err(Stop::Quit);
        }
        self.bytes = self.bytes.saturating_add(frame_len(&item) as u64);
        if self.items.push(item).is_err() {
            return Err(Stop::Refused(Refusal::Memory));
        }
        if self.is_full() {
            return self.send();
        }
        Ok(())
    }
}

/// How long ago that was, in milliseconds.
fn millis_since<R: Clock>(rt: &R, start: Option<Instant>) -> Option<u64> {
    let gone = start?.elapsed(rt).ok()?;
    Some(
        gone.as_secs()
            .saturating_mul(1_000)
            .saturating_add(u64::from(gone.subsec_millis())),
    )
}

/// Prints how many items the node applied, and how many that is a second.
fn tell_rate<W: Write, E: Write>(
    alloc: Global,
    taken: u64,
    millis: u64,
    output: &mut Output<'_, W, E>,
) -> Result<(), Stop> {
    let rate = taken.saturating_mul(1_000) / millis.max(1);
    let line = format!(in alloc; "fed {taken} items in {millis} ms, {rate} a second\n")?;
    output.note(&line);
    Ok(())
}

/// Prints how many of the items that the node applied were new to it.
fn tell_new<W: Write, E: Write>(
    alloc: Global,
    new: u64,
    taken: u64,
    output: &mut Output<'_, W, E>,
) -> Result<(), Stop> {
    let line = format!(in alloc; "new {new} of {taken}\n")?;
    output.note(&line);
    Ok(())
}

/// Prints how fast items went, where that is known, how many were new, where the node reported it, and the number of its last
/// operation.
fn tell_fed<W: Write, E: Write>(
    alloc: Global,
    fed: Fed,
    millis: Option<u64>,
    with_second: bool,
    output: &mut Output<'_, W, E>,
) -> Result<(), Stop> {
    if let Some(millis) = millis {
        tell_rate(alloc, fed.taken, millis, output)?;
    }
    if with_second {
        tell_new(alloc, fed.new, fed.taken, output)?;
    }
    output.print(&Reply::Done { ops: fed.ops })
}

/// Sends the items of the input to the node.
fn feed_all<I: Read>(
    link: &mut Link,
    input: &mut I,
    most: u64,
    with_second: bool,
) -> Result<Fed, Stop> {
    let mut batches = Batches::new(link, most, with_second);
    batches.hand_all(input)?;
    Ok(batches.fed)
}

/// The number of the entry up to which a node has all of the first stream.
fn last_in(got: &Got) -> u64 {
    match StreamNo::new(1) {
        Ok(stream) if stream.number() <= got.streams() => got.prefix(stream),
        _none => 0,
    }
}

/// The same, as the node says it: the delta since the last time of all has no facts.
fn last_at(link: &mut Link) -> Result<u64, Stop> {
    let base = Time::last();
    let fragment = fragment_at(link, Request::Delta { base })?;
    Ok(last_in(fragment.got()))
}

/// Sends the items of the input up to its next end, as long as their entries have no hole.
fn feed_behind<I: Read>(
    link: &mut Link,
    input: &mut I,
    most: u64,
    with_second: bool,
    reach: &mut Reach,
) -> Result<(), Stop> {
    let mut batches = Batches::new(link, most, with_second);
    batches.reach = Some(*reach);
    let handed = batches.hand_all(input);
    if let Some(now) = batches.reach {
        *reach = now;
    }
    handed
}

/// Asks whether the node is there, where the input had nothing to send.
fn asked_if_empty(link: &mut Link, fed: Result<(), Stop>) -> Result<(), Stop> {
    match fed {
        Err(Stop::EmptyInput) => {
            let _front = front_at(link)?;
            Ok(())
        }
        other => other,
    }
}

/// Prints which entries lack between those that the node has and those of the input.
fn tell_hole<W: Write, E: Write>(
    alloc: Global,
    last: u64,
    beyond: u64,
    output: &mut Output<'_, W, E>,
) -> Result<(), Stop> {
    let (first, end) = (last.saturating_add(1), beyond.saturating_sub(1));
    let line = format!(in alloc;
        "stopped: entries {first} to {end} are no longer in the log, and the node lacks them: {FILL}\n"
    )?;
    output.note(&line);
    Ok(())
}

/// Sends the items of an input that goes on behind its end, until something stops it: each time what it has up to there, and where that is
/// nothing it asks whether the node is there. Returns that it was stopped by a hole, which a line on standard error says.
pub(crate) fn follow<I: Read, W: Write, E: Write>(
    link: &mut Link,
    input: &mut I,
    most: u64,
    with_second: bool,
    output: &mut Output<'_, W, E>,
) -> Result<bool, Stop> {
    let mut reach = Reach {
        last: last_at(link)?,
        beyond: None,
    };
    for _ in 0..u64::MAX {
        let fed = feed_behind(link, input, most, with_second, &mut reach);
        if let Some(beyond) = reach.beyond {
            tell_hole(link.alloc(), reach.last, beyond, output)?;
            return Ok(true);
        }
        asked_if_empty(link, fed)?;
    }
    Ok(false)
}

/// Sends the items of the input to the node, in batches of so many items or as many bytes as a batch may have, and prints the
/// number of its last operation. By requests of version 2 it also prints how many items were new. The batches before what
/// stops it stay applied.
pub(crate) fn feed<R: Clock, I: Read, W: Write, E: Write>(
    rt: &R,
    link: &mut Link,
    input: &mut I,
    most: u64,
    with_second: bool,
    output: &mut Output<'_, W, E>,
) -> Result<(), Stop> {
    let start = Instant::now(rt).ok();
    let fed = feed_all(link, input, most, with_second)?;
    let millis = millis_since(rt, start);
    tell_fed(link.alloc(), fed, millis, with_second, output)
}
