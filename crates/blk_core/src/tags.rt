//! How the tags of a core stand in the current round.

ghost use Rattle.std.specs.Prelude.{ℕ, ◌≡◌, ◌≤◌, ◌<◌, IfOk, OnOk, OnErr, length, replicate, slice_index_or};
ghost use Rattle.blk_core.specs.Inside.Ties.{IfInFlight, Requeues};

use blk_bio::Dir;
use blk_queues::RequeueLists;
use blk_sched::Queued;
use std::alloc::{AllocError, Allocator};

/// How a tag stands in the current round.
#[derive(Clone, Copy)]
pub(crate) enum TagState {
    /// It was not issued.
    Free,
    /// A command is in flight under it.
    InFlight {
        /// The hardware queue that it was issued for.
        hw: u8,
        /// Its request.
        queued: Queued,
    },
    /// A command of this direction was issued, and has been completed or requeued since.
    Spent(Dir),
}

/// A tag for each number below the count, none of which was issued.
pub(crate) fn free_tags<A: Allocator>(alloc: A, count: u64) -> Result<Vec<TagState, A>, AllocError>
    ensures { IfOk result (λ tags. tags.items ≡ replicate count TagState.Free) }
{
    let mut tags = Vec::with_capacity(alloc, count as usize)?;
    for _ in 0..count {
        tags.push(TagState::Free)?;
    }
    Ok(tags)
}

/// Requeues the request in flight under a tag: it moves to the requeue list of its hardware queue, and the tag is spent from
/// then on. Fails only when memory runs out, and changes nothing then.
pub(crate) fn requeue<A: Allocator + Clone>(
    tag: &mut TagState,
    requeue_lists: &mut RequeueLists<A>,
) -> Result<(), AllocError>
    requires { IfInFlight tag.old (λ hw w. hw < length requeue_lists.old) }
    ensures ok { OnOk result (Requeues tag.old requeue_lists.old tag.new requeue_lists.new) }
    ensures same { OnErr result ((tag.new ≡ tag.old) × (requeue_lists.new ≡ requeue_lists.old)) }
{
    let TagState::InFlight { hw, queued } = *tag else {
        unreachable!()
    };
    requeue_lists.push(hw, queued)?;
    *tag = TagState::Spent(queued.extent.dir());
    Ok(())
}

/// Frees all tags, as a new round begins. Those from the bound on are free already.
pub(crate) fn clear(tags: &mut [TagState], bound: usize)
    requires few { bound ≤ length tags.old }
    requires free { (tag : ℕ) → bound ≤ tag → tag < length tags.old → slice_index_or tags.old tag TagState.Free ≡ TagState.Free }
    ensures { tags.new ≡ replicate (length tags.old) TagState.Free }
{
    for tag in 0..bound {
        tags[tag] = TagState::Free;
    }
}
