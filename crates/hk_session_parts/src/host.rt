//! Who answers the requests.

ghost use Rattle.std.specs.Prelude.{⊤};

use hk_messages::{Reply, Request};

/// Who answers the requests of a session. A request that a host has no meaning for is refused `Form(BadKind)`, and changes
/// nothing.
pub trait Host {
    ghost use Rattle.hk_messages.specs.declared.request.Request.{Request};
    ghost use Rattle.hk_messages.specs.declared.reply.Reply.{Reply};

    /// From the first state the host may return this reply to the request and be left in the second state.
    ghost may: { Self → Request → Reply → Self → Type 0 };

    /// True of a host that can be asked; of each one, where an `impl` does not define it.
    ghost ready: { Self → Type 0 } = { λ _. ⊤ };

    /// Answers a request. A host that can be asked can be asked again.
    fn answer(&mut self, request: Request) -> Reply
        requires { ready self.old }
        ensures may { may self.old request result self.new }
        ensures ready { ready self.new };
}
