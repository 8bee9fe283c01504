//! Which requests change a node, and which have a meaning for a feeder.

ghost use Rattle.std.specs.Prelude.{◌≡◌, true, false};
ghost use Rattle.hk_seats.specs.Replying.{IsFed, IsUnfed};
ghost use Rattle.hk_seats.specs.Telling.{IsChange, is_change, is_fed};

use hk_messages::Request;

/// Whether a request asks for a change of the node: then its reply stays right while the seat's list goes on, as `IsChange` has it. Cost:
/// O(1).
pub fn is_change(request: &Request) -> bool
    ensures kind { result ≡ is_change request.now }
    ensures reply { result ≡ true → IsChange request.now }
{
    match request {
        Request::Items(_) => true,
        Request::Feed(_) => true,
        Request::JoinThis(_) | Request::MergeThis(_) | Request::Prune { .. } => true,
        _ => false,
    }
}

/// Whether a request has a meaning for a feeder's connection: the others are refused. Cost: O(1).
pub fn is_fed(request: &Request) -> bool
    ensures kind { result ≡ is_fed request.now }
    ensures fed { result ≡ true → IsFed request.now }
    ensures unfed { result ≡ false → IsUnfed request.now }
{
    match request {
        Request::JoinThis(_) | Request::MergeThis(_) | Request::Later(_) => false,
        Request::Prune { .. } => false,
        _ => true,
    }
}
