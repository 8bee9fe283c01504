use crate::answer::Answer;
use crate::front::Front;
use crate::took::Took;
use hk_log::Mark;
use hk_types::{Refusal, Time};

/// The outcome of an event of a world.
#[derive(Debug, PartialEq, Eq, Drop)]
pub enum Told {
    /// The time of the commit, or `None` where there was nothing to write.
    Committed(Option<Time>),
    /// The mark that was emitted.
    Marked(Mark),
    /// Whether an absorbed item was new.
    Took(Took),
    /// The event took effect.
    Done,
    /// The answer to a query.
    Answered(Answer),
    /// The range of times at which a replica can be read.
    Fronted(Front),
    /// Why nothing happened.
    Refused(Refusal),
}
