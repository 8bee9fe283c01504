//! Which requests a port lets through.

ghost use Rattle.std.specs.Prelude.{◌≡◌, true};
ghost use Rattle.hk_doors.specs.Doors.{NoneIsSoLong, PassesAs, is_too_long, lets_kind};
ghost use Rattle.hk_message_head.specs.Kinds.{does_at};

use hk_message_head::request_kinds::{Does, request_kind};

/// How many bytes the frame of a request that changes nothing has behind its length at most: the longest has 32.
const MOST_READING_BYTES: u64 = 64;

/// Which requests a port lets through.
#[derive(Clone, Copy, Debug, PartialEq, Eq)]
pub enum Passes {
    /// Each request.
    All,
    /// Those that bring items, and those that change nothing.
    Feeds,
    /// Those that change nothing.
    Readings,
}

impl Passes {
    /// Whether no request that passes has so many bytes behind its length.
    pub fn is_too_long(self, bytes: u64) -> bool
        ensures some { result ≡ is_too_long self bytes }
        ensures none { result ≡ true → NoneIsSoLong self bytes }
    {
        match self {
            Passes::All => false,
            Passes::Feeds => false,
            Passes::Readings => bytes > MOST_READING_BYTES,
        }
    }

    /// Whether requests of this kind pass, in either version. Where no request has it, it passes only where all do.
    #[tactic(auto, using(crate::proofs::Passing::passes_as))]
    pub fn lets_through(self, kind: u8) -> bool
        ensures kind { result ≡ lets_kind self (does_at kind) }
        // Just the requests that change nothing pass at a door for readers, these and those that bring items at one for feeders.
        ensures requests { PassesAs self kind result }
    {
        let Some(row) = request_kind(kind) else {
            return matches!(self, Passes::All);
        };
        match self {
            Passes::All => true,
            Passes::Feeds => !matches!(row.does, Does::Changes),
            Passes::Readings => matches!(row.does, Does::Reads),
        }
    }
}
