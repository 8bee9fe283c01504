//! Items that are applied all or nothing, tested under the writer's lock before their join is added.

ghost use Rattle.std.specs.Prelude.{◌≡◌, ◌≤◌, true, length, IfOk};
ghost use Rattle.hk_node.specs.Changes.{all_of, CountedAs};
ghost use Rattle.hk_node.specs.Guarded.{TakesItems};
ghost use Rattle.hk_oplog.specs.NewItems.{new_to};
ghost use Rattle.hk_oplog.specs.Replay.{is_legal, IsListOf};
ghost use Rattle.hk_node.specs.Taken.{TakeLaw};

use crate::book::NodeName;
use crate::change::add;
use crate::publisher::{Publisher, Receipt};
use hk_log::Item;
use hk_oplog::Op;
use hk_types::Refusal;
use std::alloc::Global;
use std::sync::Wait;

/// Applies items at what lies under the writer's lock: they are absorbed in turn beside the published copy, once what
/// waited is published, and the join of what is new is added; how many were new is counted. What is new conflicts with
/// nothing, so it is not tested once more. Cost: that of the join, of `agreed`, and of a look at each item.
pub fn take_agreed<J: NodeName, R: Wait + Drop>(
    publisher: &mut Publisher<J, R>,
    alloc: Global,
    items: &[Item],
) -> Result<(u64, Receipt<J>), Refusal>
    ensures take { CountedAs (λ r. TakesItems publisher.old items.now r publisher.new) result }
    ensures before { IsListOf J.kind (all_of publisher.old) }
    ensures legal { IfOk result (λ t. is_legal t.1 ≡ true) }
    ensures new { IfOk result (λ t. t.0 ≡ new_to t.1 items.now) }
{
    let Ok(()) = publisher.publish() else {
        return Err(Refusal::Memory);
    };
    let fragment = match publisher.agreed(alloc, items) {
        Ok(fragment) => fragment,
        Err(why) => return Err(why),
    };
    if let Some(why) = publisher.published().body.full_refusal() {
        return Err(why);
    }
    let new = publisher.count_new(items);
    match add(publisher, Op::Join(fragment)) {
        Ok(receipt) => Ok((new, receipt)),
        Err(why) => Err(why),
    }
}

/// Items of the history that a node's content represents are applied without a refusal, but for want of room for one
/// operation more or of memory, and what the node then holds represents them too.
pub fn take_law()
    ensures { TakeLaw }
{}
