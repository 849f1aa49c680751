//! What lies under the locks: the core, and each software queue.

ghost use Rattle.std.specs.Prelude.{true, false, ◌≡◌, ◌<◌, ◌≤◌, ◌+◌, [], Contains, IfOk, IfErr, OnOk, OnErr, ◌≢◌, length, vec_len};
ghost use Rattle.blk_bio.specs.declared.limits.TheConstants.{MAX_SOFT_DEPTH};
ghost use Rattle.blk_core.specs.Faults.{IsTickFault};
ghost use Rattle.blk_core.specs.Calls.{Issues, Completes, RequeuesTag, Ends, SetsDepth};
ghost use Rattle.blk_core.specs.Runs.{IsRunFrom};
ghost use Rattle.blk_layer.specs.Submitting.{AreMapped};
ghost use Rattle.blk_layer.specs.Rounds.{EndsFullRounds};
ghost use Rattle.blk_layer.specs.Runs.{MakesLayerCalls, IsLayerRun};
ghost use Rattle.blk_layer.specs.Serving.{IsTickAnswer, IsDepthAnswer};
ghost use Rattle.blk_layer.specs.Closing.{all_ran, done_count};
ghost use Rattle.blk_layer.specs.declared.layer.TheConstants.{MAX_WORKERS};

use crate::layer::Named;
use crate::seats::{Worker, audit};
use blk_bio::Limits;
use blk_core::{BackFault, Core, DepthFault, IssueFault, NotIssued, TickFault};
use blk_queues::SoftQueue;
use blk_sched::Scheduler;
use blk_trace::Trace;
use edd_commands::Command;
use std::alloc::{AllocError, Allocator};
use std::marker::PhantomData;
use std::sync::Mutex;
use std::sync::ledger::{Book, Share};

/// The core, beside the ledger's book of the commands that are done, the parts of the ledger that no worker has, and the tag with which
/// the next try for a command begins.
#[derive(Drop)]
pub(crate) struct LockedCore<S: Scheduler, L: Named> {
    /// The core.
    pub(crate) core: Core<S>,
    /// Its total is how many commands are done.
    pub(crate) book: Book<L>,
    /// The parts of the ledger that no worker has.
    rest: Share<L>,
    /// The tag after the last one that `work` issued: those before it are mostly used up in the round.
    pub(crate) next_tag: u16,
    ghost named: { core.setup ≡ L.setup },
    ghost ran: { ∥ MakesLayerCalls S.policy L.map L.queues L.start core.events core ∥₁ },
    ghost full: { L.by_hand ≡ false → EndsFullRounds core.setup core.events },
    ghost counted: { book.total ≡ done_count core.events },
    ghost all_out: { rest.parts + length L.queues ≡ MAX_WORKERS },
    ghost none: { rest.amount ≡ 0 },
}

impl<S: Scheduler, L: Named> LockedCore<S, L> {
    /// A core without events beside a book without entries.
    pub(crate) fn new(core: Core<S>, book: Book<L>, rest: Share<L>) -> LockedCore<S, L>
        requires named { core.setup ≡ L.setup }
        requires start { core ≡ L.start }
        requires empty { core.events ≡ [] }
        requires total { book.total ≡ 0 }
        requires parts { rest.parts + length L.queues ≡ MAX_WORKERS }
        requires amount { rest.amount ≡ 0 }
        ensures { result.core ≡ core }
    {
        LockedCore {
            core,
            book,
            rest,
            next_tag: 0,
        }
    }

    /// Issues a command under a tag, if there is one for a hardware queue of the layer's workers.
    pub(crate) fn issue(&mut self, hw: u8, tag: u16) -> Result<Option<Command>, IssueFault>
        requires queue { hw < L.setup.hw }
        requires one { Contains L.queues hw }
        ensures issued { IfOk result (λ found. Issues S.policy.serves S.policy.chooses self.old.core hw tag found self.new.core) }
        ensures there { IfErr result (λ why. why ≢ IssueFault.NoQueue) }
        ensures same { OnErr result (self.new.core ≡ self.old.core) }
    {
        self.core.issue(hw, tag)
    }

    /// Reports the command under a tag as done, and counts it for a worker's part of the ledger.
    pub(crate) fn done(&mut self, share: &mut Share<L>, tag: u16) -> Result<(), NotIssued>
        requires { share.old.parts ≡ 1 }
        ensures done { OnOk result (Completes S.policy.told_done self.old.core tag self.new.core) }
        ensures amount { OnOk result (share.new.amount ≡ share.old.amount + 1) }
        ensures parts { share.new.parts ≡ share.old.parts }
        ensures same { OnErr result ((self.new.core ≡ self.old.core) × (share.new.amount ≡ share.old.amount)) }
    {
        self.core.done(tag)?;
        self.book.add(share, 1);
        Ok(())
    }

    /// Requeues the command under a tag, and answers its id.
    pub(crate) fn back(&mut self, tag: u16) -> Result<u64, BackFault>
        ensures back { IfOk result (λ id. RequeuesTag self.old.core tag id self.new.core) }
        ensures same { OnErr result (self.new.core ≡ self.old.core) }
    {
        self.core.back(tag)
    }

    /// Ends the round, and answers the number of the next one.
    pub(crate) fn tick(&mut self) -> Result<u64, TickFault>
        requires { L.by_hand ≡ true }
        ensures ended { OnOk result (Ends S.policy.told_tick self.old.core self.new.core) }
        ensures answer { IsTickAnswer result }
        ensures fault { IfErr result (IsTickFault self.old.core) }
        ensures same { OnErr result (self.new.core ≡ self.old.core) }
    {
        self.core.tick()
    }

    /// Sets how many commands the rounds to come carry.
    pub(crate) fn set_depth(&mut self, depth: u64) -> Result<(), DepthFault>
        ensures set { OnOk result (SetsDepth self.old.core depth self.new.core) }
        ensures answer { IsDepthAnswer L.setup.depth depth result }
        ensures same { OnErr result (self.new.core ≡ self.old.core) }
    {
        self.core.set_depth(depth)
    }

    /// Audits the ledger: all the workers' accounts together have as many commands as the trace has Dones.
    pub(crate) fn audit(&mut self, workers: &mut [Worker<L, S::A>])
        requires parts { L.parts ≡ MAX_WORKERS }
        requires all { length workers.old ≡ length L.queues }
        ensures counted { length (all_ran workers.old) ≡ done_count self.old.core.events }
        ensures core { self.new.core ≡ self.old.core }
        ensures workers { workers.new ≡ workers.old }
    {
        audit(&mut self.book, &mut self.rest, workers);
    }

    /// The core's trace.
    pub(crate) fn into_trace(self) -> Trace<S::A>
        ensures setup { result.setup ≡ self.core.setup }
        ensures events { result.events ≡ self.core.events }
        ensures ran { IsRunFrom S.policy L.start result.events }
        ensures routed { IsLayerRun S.policy L.map L.queues L.start result.events }
        ensures full { L.by_hand ≡ false → EndsFullRounds result.setup result.events }
    {
        let LockedCore { core, .. } = self;
        core.into_trace()
    }
}

/// A software queue of a layer.
#[derive(Drop)]
pub(crate) struct LockedQueue<L: Named, A: Allocator> {
    /// The queue.
    pub(crate) queue: SoftQueue<A>,
    of: PhantomData<L>,
    ghost limits: { queue.limits ≡ L.setup.limits },
    ghost mapped: { AreMapped L.map queue.requests },
}

impl<L: Named, A: Allocator> LockedQueue<L, A> {
    /// An empty queue of the layer's limits.
    fn new(queue: SoftQueue<A>) -> LockedQueue<L, A>
        requires limits { queue.limits ≡ L.setup.limits }
        requires none { queue.requests ≡ [] }
        ensures { result.queue ≡ queue }
    {
        LockedQueue {
            queue,
            of: PhantomData,
        }
    }
}

/// `count` empty software queues of a depth, each under a lock of its own.
pub(crate) fn empty_queues<L: Named, A: Allocator + Clone>(
    alloc: &A,
    count: usize,
    depth: u64,
    limits: Limits,
) -> Result<Vec<Mutex<LockedQueue<L, A>>, A>, AllocError>
    requires depth { (1 ≤ depth) × (depth ≤ MAX_SOFT_DEPTH) }
    requires limits { limits ≡ L.setup.limits }
    ensures { IfOk result (λ queues. vec_len queues ≡ count) }
{
    let mut queues = Vec::with_capacity(alloc.clone()?, count)?;
    for _i in 0..count {
        let queue = SoftQueue::new(alloc.clone()?, depth, limits)?;
        queues.push(Mutex::new(LockedQueue::new(queue)))?;
    }
    Ok(queues)
}
