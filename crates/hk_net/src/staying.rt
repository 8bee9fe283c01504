//! A long-running node: a thread accepts connections at each door, and workers serve them.

ghost use Rattle.std.specs.Prelude.{◌≡◌};
ghost use Rattle.std.specs.Thread.{IsSend, IsSync};

use crate::accepting::accept_all;
use crate::arrivals::{Arrival, Inbox};
use crate::doors::{Door, Limits};
use crate::places::Places;
use crate::serving::{Tools, serve_worker};
use crate::shop::{Shop, Staff};
use crate::watching::{Watch, hand_on};
use crate::worker::{PIECE, WAKER};
use crossbeam_channel::{Sender, bounded};
use hk_host::{Bell, EVENTS, LinkEvent, NetFault, Teller};
use hk_meters::Meters;
use hk_node::{NodeName, ReaderSeat};
use mio::{Events, Poll, Token, Waker};
use std::alloc::{AllocError, Global};
use std::net::Net;
use std::rt::Clock;
use std::sync::Wait;
use std::sync::atomic::AtomicU64;
use std::thread;
use std::thread::{Scope, Threads};

/// How many events one wait of a worker brings at most.
const MOST_EVENTS: usize = 1_024;

/// So many sets of sockets to wait for, and what wakes whoever waits for each.
fn polls_of<R: Net>(
    rt: &R,
    alloc: Global,
    count: usize,
) -> Result<(Vec<Poll>, Vec<Waker>), NetFault> {
    let mut polls = Vec::with_capacity(alloc, count)?;
    let mut wakers = Vec::with_capacity(alloc, count)?;
    for _ in 0..count {
        let poll = Poll::new(rt)?;
        let waker = Waker::new(poll.registry(), Token(WAKER))?;
        if wakers.push(waker).is_err() || polls.push(poll).is_err() {
            return Err(NetFault::Memory);
        }
    }
    Ok((polls, wakers))
}

/// The places of each door's connections, one after the other.
fn places_of<J: NodeName, N: Wait + Drop>(
    alloc: Global,
    doors: &[Door<'_, J, N>],
) -> Result<Vec<Places>, AllocError> {
    let mut places = Vec::with_capacity(alloc, doors.len())?;
    let mut first = 0usize;
    for door in doors {
        places.push(Places::new(alloc, first, door.links))?;
        first = first.saturating_add(door.links);
    }
    Ok(places)
}

/// An empty inbox for each worker.
fn inboxes_of<'d, J: NodeName>(
    alloc: Global,
    count: usize,
) -> Result<Vec<Inbox<Arrival<'d, J>>>, AllocError> {
    let mut inboxes = Vec::with_capacity(alloc, count)?;
    for _ in 0..count {
        inboxes.push(Inbox::new(alloc))?;
    }
    Ok(inboxes)
}

/// What a worker of this number begins with.
fn tools_of<'w>(
    alloc: Global,
    number: usize,
    poll: Poll,
    told: &Sender<(usize, LinkEvent)>,
    bell: &'w Bell,
) -> Option<Tools<'w>> {
    let teller = Teller::new(told, bell).ok()?;
    let piece = Vec::from_elem(alloc, 0u8, PIECE).ok()?;
    let events = Events::with_capacity(alloc, MOST_EVENTS).ok()?;
    Some(Tools {
        alloc,
        number,
        piece,
        poll,
        events,
        teller,
    })
}

/// Starts the thread of a worker that has these tools. Returns false where it has none, or can't be started.
fn start_worker<
    's,
    'd,
    E,
    J: NodeName + Send + Sync,
    N: Wait + Drop + Send + Sync,
    R: Threads + Wait + Clock + Sync,
>(
    scope: &Scope<'s, E>,
    rt: &'s R,
    shop: &'s Shop<'d, J, N>,
    tools: Option<Tools<'s>>,
    seat: ReaderSeat<J>,
) -> bool {
    match tools {
        Some(tools) => scope
            .spawn(move || serve_worker(rt, shop, tools, seat))
            .is_ok(),
        None => false,
    }
}

/// Starts the thread that accepts at a door. Returns false where it can't be started.
fn start_door<
    's,
    'd,
    E,
    J: NodeName + Send + Sync,
    N: Wait + Drop + Send + Sync,
    R: Threads + Wait + Clock + Sync,
>(
    scope: &Scope<'s, E>,
    rt: &'s R,
    number: usize,
    shop: &'s Shop<'d, J, N>,
    events: &Sender<(usize, LinkEvent)>,
) -> bool {
    match Teller::new(events, shop.staff.bell) {
        Ok(teller) => scope
            .spawn(move || accept_all(rt, shop, number, teller))
            .is_ok(),
        Err(_memory) => false,
    }
}

/// Starts the threads of all workers.
fn start_workers<
    's,
    'd,
    E,
    J: NodeName + Send + Sync,
    N: Wait + Drop + Send + Sync,
    R: Threads + Wait + Clock + Sync,
    T: Watch,
>(
    rt: &'s R,
    alloc: Global,
    scope: &Scope<'s, E>,
    shop: &'s Shop<'d, J, N>,
    polls: Vec<Poll>,
    seats: Vec<ReaderSeat<J>>,
    events: &Sender<(usize, LinkEvent)>,
    watch: &mut T,
) {
    let mut number = 0usize;
    for (poll, seat) in polls.into_iter().zip(seats.into_iter()) {
        let tools = tools_of(alloc, number, poll, events, shop.staff.bell);
        if start_worker(scope, rt, shop, tools, seat) {
            shop.staff.note_running(number);
        } else {
            watch.told(number, LinkEvent::NotStarted);
        }
        number = number.saturating_add(1);
    }
}

/// Starts the threads of all doors. Returns false where no door has one.
fn start_doors<
    's,
    'd,
    E,
    J: NodeName + Send + Sync,
    N: Wait + Drop + Send + Sync,
    R: Threads + Wait + Clock + Sync,
    T: Watch,
>(
    scope: &Scope<'s, E>,
    rt: &'s R,
    shop: &'s Shop<'d, J, N>,
    events: &Sender<(usize, LinkEvent)>,
    watch: &mut T,
) -> bool {
    let mut is_open = false;
    for door in 0..shop.doors.len() {
        if start_door(scope, rt, door, shop, events) {
            is_open = true;
        } else {
            watch.told(door, LinkEvent::NotStarted);
        }
    }
    is_open
}

/// Starts all threads, and hands on what happens.
fn serve_shop<
    's,
    'd,
    J: NodeName + Send + Sync,
    N: Wait + Drop + Send + Sync,
    R: Threads + Wait + Clock + Sync,
    T: Watch,
>(
    rt: &'s R,
    alloc: Global,
    shop: &'s Shop<'d, J, N>,
    polls: Vec<Poll>,
    seats: Vec<ReaderSeat<J>>,
    watch: &mut T,
) -> Result<(), NetFault> {
    let (events, told) = bounded::<(usize, LinkEvent), _>(alloc, EVENTS)?;
    thread::scope(
        thread::scope_env(),
        rt,
        |scope| -> Result<(), NetFault>
            requires { IsSend J.row × IsSync J.row × IsSend N.row × IsSync N.row × IsSync R.row }
        {
            start_workers(rt, alloc, scope, shop, polls, seats, &events, watch);
            let is_open = start_doors(scope, rt, shop, &events, watch);
            drop(events);
            if !is_open || shop.staff.short_worker(0).is_none() {
                return Err(NetFault::Memory);
            }
            hand_on(rt, &told, watch);
            Ok(())
        },
    )
}

/// The sets of sockets of so many workers, and the bell that wakes whoever waits for them: what else changes the node, beside its
/// connections, rings it with what is readable then. `Memory` comes where the lists can't be made, `Socket` where the system has no set
/// of sockets for a worker. Cost: O(w), w workers.
pub fn bell_of<R: Net>(
    rt: &R,
    alloc: Global,
    workers: usize,
) -> Result<(Vec<Poll>, Bell), NetFault> {
    let (polls, wakers) = polls_of(rt, alloc, workers)?;
    let bell = Bell::new(alloc, wakers)?;
    Ok((polls, bell))
}

/// Rings the bell with what is readable as the node begins to be served.
fn ring_first<J: NodeName>(bell: &Bell, seats: &mut Vec<ReaderSeat<J>>) {
    if let Some(seat) = seats.first_mut() {
        if let Ok(front) = seat.front() {
            bell.ring(front.readable);
        }
    }
}

/// What all threads share that has nothing of the node itself.
fn staff_of<'d, J: NodeName, N: Wait + Drop>(
    alloc: Global,
    doors: &[Door<'d, J, N>],
    workers: usize,
    bell: &'d Bell,
    limits: Limits,
    meters: &'d Meters<'d>,
) -> Result<Staff<'d>, AllocError> {
    let places = places_of(alloc, doors)?;
    Ok(Staff {
        places,
        workers,
        bell,
        limits,
        meters,
        running: AtomicU64::new(0),
    })
}

/// What all threads share, with these doors.
fn shop_of<'d, J: NodeName, N: Wait + Drop>(
    alloc: Global,
    doors: Vec<Door<'d, J, N>>,
    staff: Staff<'d>,
) -> Result<Shop<'d, J, N>, AllocError> {
    let inboxes = inboxes_of(alloc, staff.workers)?;
    Ok(Shop {
        doors,
        inboxes,
        staff,
    })
}

/// Serves connections without an end, with a worker for each seat, each with a set of sockets of `bell_of` for as many: the first half of them give short answers, the others long ones. A
/// thread for each door accepts connections, at most as many at once as the door has places, and deals them out to the workers for short
/// answers. A connection that asks for something long (Delta, Full, JoinThis, MergeThis, Prune, Whole, More, JoinParts, MergeParts, a
/// query other than for one row, a page of more than 1,024 rows, or a frame of more than 65,536 bytes) is handed to a worker
/// for long answers, whose seat first catches up with the other one, and stays there. So what a long answer holds up are other
/// connections that ask for something long, and what a change holds up are those of its worker.
///
/// A connection is read, and its next request answered, only while at most 65,536 bytes of its replies stand unwritten. It is answered in
/// both versions. Connections keep at most as many bytes as the budgets of their doors have. When a
/// session ends, the release of each of its pins is asked for; a pin whose release is refused then (`Damaged`, `NodeFull` or
/// `Memory`) stays active, and is handed to the next connection of the worker that may release pins. An Await takes a place in a list, and
/// no thread. What connections ask, how many there are and what they read and write is counted by `meters`, which are for as many doors.
///
/// `watch` gets an event for each connection that opens and ends, for each change that is refused, and through a door that wants it for each
/// that takes effect, with the slot of the connection, in the order in which that is seen; connections wait where it is slow, and where it
/// owes something it is asked a second later. A
/// failed accept is reported, and tried again after a tenth of a second; it ends nothing. `Memory` comes where the lists can't be made, or
/// no thread could be started. It returns otherwise never. Cost: that of the
/// sessions.
pub fn serve_forever<
    'd,
    J: NodeName + Send + Sync,
    N: Wait + Drop + Send + Sync,
    R: Threads + Wait + Clock + Sync,
    T: Watch,
>(
    rt: &R,
    alloc: Global,
    doors: Vec<Door<'d, J, N>>,
    seats: Vec<ReaderSeat<J>>,
    polls: Vec<Poll>,
    bell: &'d Bell,
    limits: Limits,
    meters: &'d Meters<'d>,
    watch: &mut T,
) -> Result<(), NetFault> {
    let mut seats = seats;
    ring_first(bell, &mut seats);
    let staff = staff_of(alloc, &doors, seats.len(), bell, limits, meters)?;
    let shop = shop_of(alloc, doors, staff)?;
    serve_shop(rt, alloc, &shop, polls, seats, watch)
}
