//! Bytes that passed a socket, which only proofs read.

ghost use Rattle.std.specs.Prelude.{◌≡◌, [], ◌++◌, take, drop};

use http_server::Log;
use std::marker::Model;

/// What a socket gave or took, one call after the other. It takes no memory, since only proofs read it; contracts see it as those bytes.
#[derive(Drop)]
pub struct Passed {
    calls: Log<Vec<u8>, (usize, usize)>,
}

impl Model for Passed {
    ghost use Rattle.std.specs.Prelude.{List, ℕ};
    ghost use Rattle.std.specs.Coded.{coded_list, coded_ℕ};
    ghost use Rattle.hk_exchange.specs.Pipes.{passed_in};

    ghost Value = { List ℕ };

    ghost coded = { coded_list coded_ℕ };

    ghost view = { λ s. passed_in s.calls.items };
}

impl Passed {
    /// None did.
    pub fn none() -> Passed
        ensures { result ≡ [] }
    {
        Passed { calls: Log::new() }
    }

    /// Notes that of these bytes so many passed, from a place on.
    pub fn note(&mut self, bytes: &Vec<u8>, from: usize, count: usize)
        ensures { self.new ≡ self.old ++ take count (drop from bytes.now.items) }
    {
        self.calls = self.calls.and(bytes, &(from, count));
    }
}
