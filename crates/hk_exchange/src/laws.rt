//! What a connection's socket took, by what it gave.

ghost use Rattle.hk_exchange.specs.Exchanges.{ServedLaw};

/// Where a connection stands as `Exchange` keeps it (`Stands`), what its socket took is a front of the replies to the first of the requests
/// in the bytes that the socket gave, one each and in order, and of what says which fault follows them; and just all replies where the peer
/// ended it between two requests, and the socket took what was said. A law: it does nothing.
pub fn served_law()
    ensures { ServedLaw }
{}
