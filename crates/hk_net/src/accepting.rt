//! Accepting connections at a door.

use crate::arrivals::Arrival;
use crate::doors::Door;
use crate::places::Places;
use crate::reactor::without_memory;
use crate::shop::Shop;
use crate::sockets::Accepted;
use hk_host::{LinkEvent, Teller};
use hk_node::NodeName;
use std::rt::Clock;
use std::sync::Wait;
use std::thread;
use std::time::Duration;

/// How many milliseconds pass before an accept that failed is tried again.
const ACCEPT_PAUSE: u64 = 100;

/// Leaves a connection for the worker of its place, and wakes it. Returns false where there is none, or no memory for it.
fn leave<J: NodeName, N: Wait + Drop, R: Wait>(
    rt: &R,
    shop: &Shop<'_, J, N>,
    accepted: Accepted,
    door: usize,
    place: usize,
) -> bool {
    let worker = shop.staff.short_worker(place).unwrap_or(usize::MAX);
    let Some(inbox) = shop.inboxes.get(worker) else {
        return false;
    };
    let arrival = Arrival::Opened {
        accepted,
        door,
        place,
    };
    let is_left = inbox.leave(rt, arrival).is_ok();
    let bell = shop.staff.bell;
    bell.wake(worker);
    is_left
}

/// Accepts the next connection of a door at a free place, and leaves it for a worker.
fn accept_next<J: NodeName, N: Wait + Drop, R: Wait + Clock>(
    rt: &R,
    shop: &Shop<'_, J, N>,
    number: usize,
    door: &Door<'_, J, N>,
    places: &Places,
    teller: &mut Teller<'_>,
) {
    let place = places.take(rt);
    teller.turn_to(place, false);
    match door.listener.accept() {
        Ok((accepted, address)) => {
            shop.staff.meters.note_opened(number);
            let opened = LinkEvent::Opened {
                door: number,
                address,
            };
            teller.tell(rt, opened);
            if !leave(rt, shop, accepted, number, place) {
                teller.tell(rt, without_memory());
                shop.staff.give_back(rt, number, place);
            }
        }
        Err(_error) => {
            shop.staff.meters.note_failed_accept();
            teller.tell(rt, LinkEvent::NotAccepted);
            places.give(rt, place);
            thread::sleep(rt, Duration::from_millis(ACCEPT_PAUSE));
        }
    }
}

/// Accepts connections of a door without an end.
pub(crate) fn accept_all<J: NodeName, N: Wait + Drop, R: Wait + Clock>(
    rt: &R,
    shop: &Shop<'_, J, N>,
    number: usize,
    teller: Teller<'_>,
) {
    let mut teller = teller;
    let (Some(door), Some(places)) = (shop.doors.get(number), shop.staff.places.get(number)) else {
        return;
    };
    for _ in rt.forever() {
        accept_next(rt, shop, number, door, places, &mut teller);
    }
}
