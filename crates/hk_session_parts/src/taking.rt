//! Reading requests.

ghost use Rattle.std.specs.Prelude.{◌≡◌, OnErr};
ghost use Rattle.hk_session_parts.specs.Sessions.{TakesIn};

use hk_messages::{Request, RequestFeeder};
use hk_types::{FormFault, Refusal};
use std::alloc::AllocError;

/// Reads the next piece of the stream behind the requests that are there, and returns the fault that follows them, if one
/// does. Where memory runs out the feeder and the list are as before.
pub fn take_in<const LATEST: u8>(
    feeder: &mut RequestFeeder<LATEST>,
    piece: &[u8],
    requests: &mut Vec<Request>,
) -> Result<Option<FormFault>, AllocError>
    ensures reads { TakesIn LATEST feeder.old feeder.new piece.now
        requests.old.items requests.new.items result }
    ensures err { OnErr result ((feeder.new ≡ feeder.old) × (requests.new.items ≡ requests.old.items)) }
{
    match feeder.feed(piece, requests) {
        Ok(()) => Ok(None),
        Err(why) => match why {
            Refusal::Form(fault) => Ok(Some(fault)),
            _ => Err(AllocError),
        },
    }
}
