//! Pins and releases in a node, of which a seat of it gets the receipt.

ghost use Rattle.std.specs.Prelude.{◌≡◌, true};
ghost use mathlib.Core.List.{IsPrefix};
ghost use Rattle.hk_oplog.specs.Replay.{is_legal};
ghost use Rattle.hk_host.specs.Pins.{ReleasesHold, TakesHold};

use crate::link_events::Teller;
use crate::subject::Subject;
use hk_node::{Node, NodeName, ReaderSeat};
use hk_oplog::Hold;
use hk_seats::learn;
use hk_types::{Refusal, Time};
use std::sync::Wait;

/// Reports that a change took effect, if there is a teller.
pub(crate) fn tell_changed<R: Wait>(rt: &R, teller: Option<&Teller<'_>>, ops: u64) {
    if let Some(teller) = teller {
        teller.tell_changed(rt, ops);
    }
}

/// Reports that a change was refused, and what it begins with, if there is a teller.
pub(crate) fn tell_refused<R: Wait>(
    rt: &R,
    teller: Option<&Teller<'_>>,
    why: &Refusal,
    about: Option<Subject>,
) {
    if let Some(teller) = teller {
        teller.tell_refused(rt, why.number(), about);
    }
}

/// Pins a time in a node, and applies the receipt to the seat.
pub(crate) fn hold_on<J: NodeName, N: Wait + Drop, R: Wait>(
    rt: &R,
    node: &Node<J, N>,
    seat: &mut ReaderSeat<J>,
    teller: Option<&Teller<'_>>,
    time: Time,
) -> Result<Hold, (Option<Hold>, Refusal)>
    ensures held { TakesHold J.kind seat.old time result seat.new }
    ensures legal { is_legal seat.new ≡ true }
    ensures seen { IsPrefix seat.old seat.new }
{
    match node.hold(rt, time) {
        Ok((hold, receipt)) => match learn(seat, receipt) {
            Ok(ops) => {
                tell_changed(rt, teller, ops);
                Ok(hold)
            }
            Err(why) => {
                tell_refused(rt, teller, &why, None);
                Err((Some(hold), why))
            }
        },
        Err((hold, why)) => {
            let _legal = seat.seen();
            tell_refused(rt, teller, &why, None);
            Err((hold, why))
        }
    }
}

/// Releases a pin in a node, and applies the receipt to the seat. Returns the number of operations.
pub(crate) fn release_on<J: NodeName, N: Wait + Drop, R: Wait>(
    rt: &R,
    node: &Node<J, N>,
    seat: &mut ReaderSeat<J>,
    teller: Option<&Teller<'_>>,
    hold: Hold,
) -> Result<u64, (Option<Hold>, Refusal)>
    ensures released { ReleasesHold J.kind seat.old hold result seat.new }
    ensures legal { is_legal seat.new ≡ true }
    ensures seen { IsPrefix seat.old seat.new }
{
    match node.release(rt, hold) {
        Ok(receipt) => match learn(seat, receipt) {
            Ok(ops) => {
                tell_changed(rt, teller, ops);
                Ok(ops)
            }
            Err(why) => {
                tell_refused(rt, teller, &why, None);
                Err((None, why))
            }
        },
        Err((back, why)) => {
            let _legal = seat.seen();
            tell_refused(rt, teller, &why, None);
            Err((back, why))
        }
    }
}
