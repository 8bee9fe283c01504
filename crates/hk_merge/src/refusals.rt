//! Why a state refuses what is sent.

ghost use Rattle.std.specs.Prelude.{◌≡◌};
ghost use Rattle.hk_merge.specs.Calls.{wrong_log_of};

use hk_state::ReplicaState;
use hk_types::{Config, Refusal};

/// Why what is of this log is none of the target's, if it is none: `ForeignLog` for another log, and then
/// `WrongStreams` for another number of streams. It takes no memory.
pub fn wrong_log(target: &ReplicaState, config: Config) -> Option<Refusal>
    ensures { result ≡ wrong_log_of target.now config }
{
    if config.log() != target.config().log() {
        return Some(Refusal::ForeignLog);
    }
    if config.streams() != target.config().streams() {
        return Some(Refusal::WrongStreams);
    }
    None
}
