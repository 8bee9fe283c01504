//! What came of what a node takes before it listens.

/// What came of a file or of another node.
#[derive(Clone, Copy)]
pub(crate) enum Outcome {
    /// The node took it.
    Taken,
    /// The same of a file that has no checksum.
    TakenUnchecked,
    /// There is none, or it gave nothing.
    Absent,
    /// It is a file that is there, and not whole.
    Refused,
}

impl Outcome {
    /// Whether the node took it.
    pub(crate) fn is_taken(self) -> bool {
        matches!(self, Outcome::Taken | Outcome::TakenUnchecked)
    }

    /// What came of it and then of the next file, which is tried where it wasn't taken.
    pub(crate) fn or(self, next: Outcome) -> Outcome {
        match (self, next) {
            (Outcome::Refused, Outcome::Absent) => Outcome::Refused,
            (_other, next) => next,
        }
    }
}

/// What a node has when it begins.
#[derive(Clone, Copy)]
pub(crate) enum Begun {
    /// What a file or another node has.
    WithData,
    /// Nothing.
    Empty,
    /// Nothing may be begun: a file is there, and none is whole.
    Refused,
}
