//! Readers beside one writer.

ghost use Rattle.std.specs.Prelude.{◌≡◌};

use super::*;

/// Two readers ask their fronts, while three entries and a mark are joined one by one; then for key 5, while a thousand entries
/// that put it are.
#[test]
fn readers_beside_a_writer(rt: HostRuntime) -> Result<(), Fail> {
    for of_key in [false, true] {
        let list = NewList::new(config()?);
        assert!(rt; beside::<Brand, _>(&rt, rt.alloc(), list, of_key)?);
    }
    Ok(())
}

/// Whether two readers see what they may beside a writer.
fn beside<J: NodeName + Send + Sync, R: Threads + Wait + Sync>(
    rt: &R,
    alloc: Global,
    list: NewList,
    of_key: bool,
) -> Result<bool, Fail>
    requires { list ≡ (J.book, J.kind) }
{
    let (node, seats) = start::<J, &R>(rt, alloc, list, 2)?;
    let node = &node;
    let (wrote, read) = thread::join(
        rt,
        move || joins(rt, alloc, node, of_key),
        move || both_read(rt, seats, of_key),
    );
    wrote?;
    Ok(read)
}

fn joins<J: NodeName, R: Wait, S: Wait + Drop>(
    rt: &R,
    alloc: Global,
    node: &Node<J, S>,
    of_key: bool,
) -> Result<(), Fail> {
    let last: u16 = if of_key { 1000 } else { 4 };
    for number in 1..=last {
        node.join(rt, joined(alloc, number, of_key)?)?;
    }
    Ok(())
}

/// What the writer joins.
fn joined(alloc: Global, number: u16, of_key: bool) -> Result<Fragment, Fail> {
    if of_key {
        put_of(alloc, number)
    } else {
        fragment(alloc, u64::from(number))
    }
}

fn both_read<J: NodeName + Send + Sync, R: Threads + Sync>(
    rt: &R,
    mut seats: Vec<ReaderSeat<J>>,
    of_key: bool,
) -> bool {
    let (Some(one), Some(two)) = (seats.pop(), seats.pop()) else {
        return false;
    };
    let (left, right) = thread::join(rt, move || reads(one, of_key), move || reads(two, of_key));
    left && right
}

fn reads<J: NodeName>(mut seat: ReaderSeat<J>, of_key: bool) -> bool {
    if of_key {
        reads_key(&mut seat)
    } else {
        reads_fronts(&mut seat)
    }
}

fn reads_fronts<J: NodeName>(seat: &mut ReaderSeat<J>) -> bool {
    for _ in 0..1000u64 {
        let before = seat.seen();
        let Ok((0, 0 | 3)) = front(seat) else {
            return false;
        };
        if seat.seen() < before {
            return false;
        }
    }
    true
}

/// The entry that puts its number at key 5 and ends the one before it, and the mark of all entries up to it.
fn put(alloc: Global, number: u16) -> Result<Vec<Item>, Fail> {
    let body = number.to_be_bytes();
    let at = u64::from(number);
    let ended = match at.checked_sub(1) {
        None | Some(0) => None,
        Some(before) => Some((5, before)),
    };
    let put = Some((5, body.as_slice()));
    let mut items = Vec::new(alloc);
    items.push(entry(alloc, 7, (1, at, at), (ended, put))?)?;
    items.push(mark(1, at, at)?)?;
    Ok(items)
}

/// The fragment of these.
fn put_of(alloc: Global, number: u16) -> Result<Fragment, Fail> {
    let items = put(alloc, number)?;
    Ok(fragment_of(alloc, config()?, &items)?)
}

/// The resolved time, where the list that was seen determines it, and the body there.
fn agreed_time<J: NodeName>(seat: &mut ReaderSeat<J>) -> Option<u64> {
    let Ok((0, readable)) = front(seat) else {
        return None;
    };
    if seat.seen().checked_sub(1) != Some(readable) {
        return None;
    }
    match body(seat, 5, readable) {
        Ok(found) if u64::from(found) == readable => Some(readable),
        _ => None,
    }
}

/// The list that was seen determines the node's resolved time, and the body at each time.
fn reads_key<J: NodeName>(seat: &mut ReaderSeat<J>) -> bool {
    for _ in 0..100_000u64 {
        match agreed_time(seat) {
            None => return false,
            Some(1000) => return true,
            Some(_) => {}
        }
    }
    true
}
