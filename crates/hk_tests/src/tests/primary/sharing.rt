//! A primary that threads share.

ghost use Rattle.std.specs.Prelude.{◌≡◌, ◌<◌};

use super::transaction;
use crate::tests::values::{stream, time};
use hk_log::Item;
use hk_primary::{Answer, Naming, Query, SharedPrimary};
use hk_types::{Config, Refusal, StreamNo, Table, Time};
use std::alloc::Global;
use std::marker::Brand;
use std::sync::Wait;
use std::sync::ledger::{Blank, Share};
use std::test::Fail;
use std::thread;
use std::thread::Threads;

/// The time of a commit that puts a key on a stream, 0 where there is none.
fn commit<K: Naming, R: Wait>(
    rt: &R,
    alloc: Global,
    primary: &SharedPrimary<K>,
    share: &mut Share<K>,
    put: (u64, u16),
) -> Result<u64, Refusal>
    requires { 0 < share.old.parts }
    ensures { share.new.parts ≡ share.old.parts }
{
    let stream = stream(put.1)?;
    let txn = transaction(alloc, put.0, 0x41)?;
    match primary.commit(rt, share, txn, stream) {
        Ok(Some(at)) => Ok(at.number()),
        _ => Ok(0),
    }
}

/// The same, and the share.
fn committed<K: Naming, R: Wait>(
    rt: &R,
    alloc: Global,
    primary: &SharedPrimary<K>,
    share: Share<K>,
    put: (u64, u16),
) -> (u64, Share<K>)
    requires { 0 < share.parts }
    ensures { result.1.parts ≡ share.parts }
{
    let mut mine = share;
    let at = match commit(rt, alloc, primary, &mut mine, put) {
        Ok(at) => at,
        Err(_why) => 0,
    };
    (at, mine)
}

/// Whether an item is an entry that puts one key, this one.
fn puts(item: &Item, wanted: u64) -> bool {
    match item {
        Item::Commit(entry) => match entry.rows() {
            [(_table, key, _row)] => key.number() == wanted,
            _ => false,
        },
        Item::Closed(_) => false,
    }
}

/// How many items put a key.
fn times_put(items: &[Item], wanted: u64) -> u64 {
    let mut count: u64 = 0;
    for item in items {
        count = count.saturating_add(u64::from(puts(item, wanted)));
    }
    count
}

/// How often the keys 5 and 6 are put, and the number of items.
fn seen<K: Naming, R: Wait>(rt: &R, primary: &SharedPrimary<K>) -> Result<(u64, u64, usize), Fail> {
    let items = primary.items(rt, 1)?;
    Ok((times_put(&items, 5), times_put(&items, 6), items.len()))
}

/// The times of two commits, what is seen of them, and the number of items.
type Both = ((u64, u64), (u64, u64, usize), u64);

fn both_commit<K: Naming + Send + Sync, R: Threads + Wait + Sync>(
    rt: &R,
    alloc: Global,
    config: Config,
    blank: Blank,
) -> Result<Both, Fail>
    requires name { blank.name ≡ K.name }
    requires parts { blank.parts ≡ K.parts }
    requires two { blank.parts ≡ 2 }
    requires config { config ≡ K.config }
    requires after { K.after ≡ 0 }
{
    let (primary, all) = SharedPrimary::<K>::new(alloc, config, blank)?;
    let (times, count) = by_two(rt, alloc, &primary, all);
    Ok((times, seen(rt, &primary)?, count))
}

/// The times of two commits by two threads, the lower one first, and the number of items.
fn by_two<K: Naming + Send + Sync, R: Threads + Wait + Sync>(
    rt: &R,
    alloc: Global,
    primary: &SharedPrimary<K>,
    all: Share<K>,
) -> ((u64, u64), u64)
    requires { all.parts ≡ 2 }
{
    let mut mine = all;
    let part = mine.split_off(1, 0);
    let ((first, mut whole), (second, back)) = thread::join(
        rt,
        ||
            requires { 0 < mine.parts }
        { committed(rt, alloc, primary, mine, (5, 1)) },
        ||
            requires { 0 < part.parts }
        { committed(rt, alloc, primary, part, (6, 2)) },
    );
    whole.merge(back);
    let count = primary.item_count(rt, &mut whole);
    ((first.min(second), first.max(second)), count)
}

#[test]
fn two_threads_commit(rt: HostRuntime) -> Result<(), Fail> {
    let config = Config::new(7, 2)?;
    let both = both_commit::<Brand, HostRuntime>(&rt, rt.alloc(), config, Blank::new(2))?;
    assert!(rt; both == ((1, 2), (1, 1, 2), 2));
    Ok(())
}

/// What `Count` of table 1 answers, or the number with which it is refused.
fn counted<K: Naming, R: Wait>(rt: &R, primary: &SharedPrimary<K>, at: Time) -> (u8, u64) {
    let table = Table::new(1);
    match primary.ask(rt, at, &Query::Count { table }) {
        Ok(Answer::Number(count)) => (0, count),
        Ok(_) => (0, 0),
        Err(why) => (why.number(), 0),
    }
}

/// The counts at 5 and 6, the time of the mark of stream 2, and the number with which its second retirement is refused.
type Tells = ((u8, u64), (u8, u64), u64, u8);

/// The time of the mark of a stream, and the number with which its second retirement is refused.
fn retired<K: Naming, R: Wait>(
    rt: &R,
    primary: &SharedPrimary<K>,
    share: Share<K>,
    stream: StreamNo,
) -> Result<(u64, u8), Refusal>
    requires { 0 < share.parts }
{
    let mut mine = share;
    let mark = primary.mark(rt, &mut mine, stream)?;
    primary.retire(rt, &mut mine, stream)?;
    let again = match primary.retire(rt, &mut mine, stream) {
        Ok(_mark) => 0,
        Err(why) => why.number(),
    };
    Ok((mark.m().number(), again))
}

/// What a shared primary returns whose clock started after 4, once a key is put on stream 2 at 5.
fn told<K: Naming, R: Wait>(
    rt: &R,
    alloc: Global,
    config: Config,
    after: Time,
    blank: Blank,
) -> Result<Tells, Fail>
    requires name { blank.name ≡ K.name }
    requires parts { blank.parts ≡ K.parts }
    requires some { 0 < blank.parts }
    requires config { config ≡ K.config }
    requires after { after ≡ K.after }
{
    let (two, put, early) = (stream(2)?, time(5)?, time(6)?);
    let (primary, all) = SharedPrimary::<K>::starting_after(alloc, config, after, blank)?;
    let (_at, all) = committed(rt, alloc, &primary, all, (5, 2));
    let (mark, again) = retired(rt, &primary, all, two)?;
    let early = counted(rt, &primary, early);
    Ok((counted(rt, &primary, put), early, mark, again))
}

#[test]
fn its_calls_are_those_of_the_primary(rt: HostRuntime) -> Result<(), Fail> {
    let config = Config::new(7, 2)?;
    let told = told::<Brand, HostRuntime>(&rt, rt.alloc(), config, time(4)?, Blank::new(1))?;
    assert!(rt; told == ((0, 1), (26, 0), 5, 36));
    Ok(())
}
