//! How requests get from a plug into a software queue, and from there into the core.

ghost use Rattle.std.specs.Prelude.{◌≡◌, ◌≢◌, ◌<◌, ◌≤◌, ◌+◌, [], ◌↔◌, IsTrue, OnOk, OnErr, IfOk, IfErr, IfSome, IfNone, List, Some, length, slice_get};
ghost use Rattle.blk_bio.specs.Bios.{Bio as Transfer};
ghost use Rattle.blk_queues.specs.Plugs.{bios_plugged};
ghost use Rattle.blk_layer.specs.Names.{flush_told};
ghost use Rattle.blk_layer.specs.Seats.{AreOwn};
ghost use Rattle.blk_layer.specs.Submitting.{Flushes, FlushesInto, QueueHasRoom, IsFirstForeign, IsLeft, IsFirstRoomReason, queue_of, IsMoveAnswer, IsMoveAllAnswer};
ghost use Rattle.blk_layer.specs.Inside.Submitting.{LosesFirst, GetsFirst, bios_of_both};

use crate::layer::{Layer, Named};
use crate::seats::{Submitter, Worker};
use blk_bio::{Bio, BioId, MAX_QUEUES, MAX_SOFT_DEPTH, Request};
use blk_core::{Core, CoreFault};
use blk_queues::{MAX_BIOS, Map, Plug, SoftQueue};
use blk_sched::Scheduler;
use edd_commands::{Fault, Told, told};
use std::alloc::Allocator;
use std::sync::Wait;
use thiserror::Error;

/// The most requests that a drain moves from one software queue: as many as one can hold.
pub const MAX_MOVES: u64 = MAX_SOFT_DEPTH;

/// What a flush moved.
#[derive(Clone, Copy, Debug, PartialEq, Eq)]
pub struct Flushed {
    /// How many requests.
    pub requests: u64,
    /// How many bios these have.
    pub bios: u64,
}

/// Why a flush ended before the plug was empty, in the order in which the reasons are looked for.
#[derive(Clone, Copy, Debug, PartialEq, Eq, Error)]
#[error("{}", self.name())]
pub enum FlushReason {
    /// The first bio, in the order of their sectors, of another submitter.
    Foreign(BioId),
    /// The first bio, in the order of their sectors, whose id was accepted before or stands earlier in the request.
    Repeated(BioId),
    /// The software queue has no room for the request.
    SoftFull,
    /// Memory ran out.
    Memory,
}

impl Fault for FlushReason {
    ghost told = { flush_told };

    fn told(&self) -> Told {
        told!(self: FlushReason { Foreign(_), Repeated(_), SoftFull, Memory => Memory })
    }
}

/// A flush that ended before the plug was empty.
#[derive(Clone, Copy, Debug, PartialEq, Eq)]
pub struct FlushFault {
    /// How many requests stay in the plug.
    pub left: u64,
    /// Why the first of them does.
    pub why: FlushReason,
}

/// A drain that ended at a request that the core refused.
#[derive(Clone, Copy, Debug, PartialEq, Eq)]
pub struct DrainFault {
    /// How many requests were moved before it.
    pub moved: u64,
    /// Why the core refused it; it is first in its software queue again.
    pub why: CoreFault,
}

impl<S: Scheduler, L: Named> Layer<S, L> {
    /// Moves the requests of a plug, from the first on, into the submitter's software queue, and accepts their bios. Ends at
    /// the first request that is refused, and says how many requests stay in the plug: what was moved stays moved and is
    /// accepted. The seat is one of this layer, and the plug's limits are the layer's.
    ///
    /// The first request left is refused, by the first of these that applies: as `Foreign` with its first bio, by sector,
    /// whose id names another submitter; as `Repeated` with its first bio whose id was accepted before or stands earlier in
    /// it; as `SoftFull` where the software queue has no room for it; and as `Memory` where the account can't grow.
    pub fn flush<R: Wait>(
        &self,
        rt: &R,
        submitter: &mut Submitter<L, S::A>,
        plug: &mut Plug<S::A>,
    ) -> Result<Flushed, FlushFault>
        requires seat { submitter.old.number < length self.now.map }
        requires limits { plug.old.limits ≡ L.setup.limits }
        ensures moved { Flushes submitter.old plug.old submitter.new plug.new }
        ensures all { OnOk result (plug.new.requests ≡ []) }
        ensures requests { IfOk result (λ f. f.requests ≡ length plug.old.requests) }
        ensures bios { IfOk result (λ f. f.bios ≡ length (bios_plugged plug.old)) }
        ensures left { IfErr result (λ e. e.left ≡ length plug.new.requests) }
        ensures fault { IfErr result (λ e. IsLeft submitter.new plug.new e.why) }
    {
        let number = usize::from(submitter.number());
        let mut guard = self.queues[number].lock(rt);
        let staged = &mut *guard;
        Self::flush_into(&mut staged.queue, submitter, plug)
    }

    /// Moves the requests of a plug, from the first on, to the back of a software queue, and their bios into the submitter's
    /// account, up to the first that is refused. The plug's limits are the queue's. It waits for nobody: a flush calls it with
    /// the lock of the submitter's software queue held.
    ///
    /// The first request left is refused as [`Layer::flush`] says: as `SoftFull` exactly where it may be accepted and the queue
    /// has no room for it, and as `Memory` only where there is room.
    #[tactic(auto, using(crate::proofs::Plugged::none_there, crate::proofs::Plugged::none_held, crate::proofs::Plugged::put_on))]
    pub fn flush_into(
        queue: &mut SoftQueue<S::A>,
        submitter: &mut Submitter<L, S::A>,
        plug: &mut Plug<S::A>,
    ) -> Result<Flushed, FlushFault>
        requires { plug.old.limits ≡ queue.old.limits }
        ensures moved { FlushesInto queue.old submitter.old plug.old queue.new submitter.new plug.new }
        ensures all { OnOk result (plug.new.requests ≡ []) }
        ensures requests { IfOk result (λ f. f.requests ≡ length plug.old.requests) }
        ensures bios { IfOk result (λ f. f.bios ≡ length (bios_plugged plug.old)) }
        ensures left { IfErr result (λ e. e.left ≡ length plug.new.requests) }
        ensures fault { IfErr result (λ e. IsLeft submitter.new plug.new e.why) }
        ensures room { IfErr result (λ e. IsFirstRoomReason queue.new plug.new e.why) }
        ensures limits { queue.new.limits ≡ queue.old.limits }
        ensures own { AreOwn submitter.new.number submitter.new.accepted }
    {
        let (requests, bios_in) = (plug.len(), queue.bios_in());
        while plug.len() > 0 {
            if let Err(why) = flush_first(queue, submitter, plug) {
                // Reads nothing that counts: the prover gets that all that was accepted is the submitter's own.
                let _ = submitter.accepted();
                return Err(FlushFault {
                    left: plug.len() as u64,
                    why,
                });
            }
        }
        let _ = submitter.accepted();
        Ok(Flushed {
            requests: requests as u64,
            bios: queue.bios_in() - bios_in,
        })
    }

    /// Moves the requests of the software queues of the worker's hardware queue, by rising number, into the core, and answers
    /// how many. Those of a software queue, [`MAX_MOVES`] at most, are moved under its lock and one hold of the core's; the
    /// core's is not taken where the queue has none.
    ///
    /// Where the core refuses one it is first in its queue again, and the drain ends: with how many were moved before, and as
    /// `Repeated`, `TraceFull` or `Memory` as [`Layer::move_first`] is, never as `NoQueue`. The worker's seat stays as it was.
    pub fn drain<R: Wait>(&self, rt: &R, worker: &mut Worker<L, S::A>) -> Result<u64, DrainFault>
        ensures worker { worker.new ≡ worker.old }
        ensures there { IfErr result (λ e. e.why ≢ CoreFault.NoQueue) }
    {
        let hw = worker.hw();
        let mut moved = 0;
        for soft in 0..self.map.soft_count() {
            if self.map.hw_of(soft) != hw {
                continue;
            }
            match self.drain_one(rt, soft) {
                Ok(more) => moved += more,
                Err(fault) => {
                    return Err(DrainFault {
                        moved: moved + fault.moved,
                        why: fault.why,
                    });
                }
            }
        }
        Ok(moved)
    }

    /// Moves the requests of one software queue into the core, as [`Layer::drain`] does. The queue's lock is taken before the
    /// core's, so that no two threads wait for each other.
    fn drain_one<R: Wait>(&self, rt: &R, soft: usize) -> Result<u64, DrainFault>
        requires { soft < length self.now.map }
        ensures few { IfOk result (λ moved. moved ≤ MAX_MOVES) }
        ensures few_err { IfErr result (λ e. e.moved ≤ MAX_MOVES) }
        ensures there { IfErr result (λ e. e.why ≢ CoreFault.NoQueue) }
    {
        let mut guard = self.queues[soft].lock(rt);
        let staged = &mut *guard;
        if staged.queue.len() == 0 {
            return Ok(0);
        }
        let mut core = self.lock_core(rt);
        let locked = &mut *core;
        Self::move_all(&mut staged.queue, &mut locked.core, &self.map)
    }

    /// Moves the first request of a software queue into the core: it is released for the hardware queue that the map has for its
    /// submitter, that of its first bio, and leaves the queue. False exactly where the queue is empty. The queue's limits are the
    /// core's. It waits for nobody: a drain calls it for each request, through [`Layer::move_all`].
    ///
    /// Refused as the core's release is: as `NoQueue` where the map has no such submitter or the core no such hardware queue, as `Repeated` with the first bio
    /// whose id stands in the trace or twice in the request, as `TraceFull` and as `Memory`. The request is first in the queue again
    /// then, and queue and core are as they were.
    pub fn move_first(
        queue: &mut SoftQueue<S::A>,
        core: &mut Core<S>,
        map: &Map<S::A>,
    ) -> Result<bool, CoreFault>
        requires { queue.old.limits ≡ core.old.setup.limits }
        ensures { IsMoveAnswer S.policy.serves queue.old core.old map.now queue.new core.new result }
    {
        // brings the prover what every queue keeps
        let _ = queue.len();
        let Some(request) = queue.take_first() else {
            return Ok(false);
        };
        let hw = queue_of(map, &request);
        match core.release(request, hw) {
            Ok(_) => Ok(true),
            Err((request, why)) => {
                queue.put_first(request);
                Err(why)
            }
        }
    }

    /// Moves all requests of a software queue into the core in their order, each as [`Layer::move_first`] does, up to the first
    /// that is refused, and answers how many. It waits for nobody: a drain calls it for each of its software queues, with the lock of
    /// that queue and the core's held.
    ///
    /// Refused with how many were moved before, and why the first of those that are left was refused.
    #[tactic(auto, using(crate::proofs::Moved::moved_on, crate::proofs::Moved::all_moved, crate::proofs::Moved::ended))]
    pub fn move_all(
        queue: &mut SoftQueue<S::A>,
        core: &mut Core<S>,
        map: &Map<S::A>,
    ) -> Result<u64, DrainFault>
        requires { queue.old.limits ≡ core.old.setup.limits }
        ensures { IsMoveAllAnswer S.policy.serves queue.old core.old map.now queue.new core.new result }
    {
        let most = queue.len() as u64;
        for moved in 0..most {
            match Self::move_first(queue, core, map) {
                Ok(true) => {}
                Ok(false) => unreachable!(),
                Err(why) => return Err(DrainFault { moved, why }),
            }
        }
        Ok(most)
    }
}

/// Moves the first request of a plug, which has one, or says why it is refused; nothing is changed then.
#[tactic(auto, using(crate::proofs::Plugged::room_of))]
fn flush_first<L: Named, A: Allocator + Clone>(
    queue: &mut SoftQueue<A>,
    submitter: &mut Submitter<L, A>,
    plug: &mut Plug<A>,
) -> Result<(), FlushReason>
    requires limits { plug.old.limits ≡ queue.old.limits }
    requires some { 0 < length plug.old.requests }
    ensures moved { FlushesInto queue.old submitter.old plug.old queue.new submitter.new plug.new }
    ensures fewer { OnOk result (length plug.new.requests < length plug.old.requests) }
    ensures counted { bios_of_both queue.new plug.new ≡ bios_of_both queue.old plug.old }
    ensures limits { queue.new.limits ≡ queue.old.limits }
    ensures fault { IfErr result (IsLeft submitter.new plug.new) }
    ensures room { IfErr result (IsFirstRoomReason queue.new plug.new) }
    ensures same { OnErr result ((submitter.new ≡ submitter.old) × (plug.new ≡ plug.old) × (queue.new ≡ queue.old)) }
{
    let Some(request) = plug.first() else {
        unreachable!()
    };
    if let Some(why) = submitter.refusal(request.bios()) {
        return Err(why);
    }
    if !has_room(queue, request) {
        return Err(FlushReason::SoftFull);
    }
    if submitter.accept(request.bios()).is_err() {
        return Err(FlushReason::Memory);
    }
    take_over(queue, plug);
    Ok(())
}

/// Moves the first request of a plug into a software queue, which has room for it.
fn take_over<A: Allocator + Clone>(queue: &mut SoftQueue<A>, plug: &mut Plug<A>)
    requires limits { plug.old.limits ≡ queue.old.limits }
    requires room { (first : List Transfer) → slice_get plug.old.requests 0 ≡ Some first → QueueHasRoom queue.old first }
    requires some { 0 < length plug.old.requests }
    ensures moved { LosesFirst plug.old plug.new }
    ensures put { GetsFirst queue.old plug.old queue.new }
    ensures limits { queue.new.limits ≡ queue.old.limits }
{
    let Some(request) = plug.take_first() else {
        unreachable!()
    };
    if queue.put(request).is_err() {
        unreachable!()
    }
}

/// Whether a software queue has room for a request.
fn has_room<A: Allocator + Clone>(queue: &SoftQueue<A>, request: &Request<A>) -> bool
    ensures { IsTrue result ↔ QueueHasRoom queue.now request.now }
{
    let count = request.bios().len() as u64;
    (queue.len() as u64) < queue.depth() && count <= MAX_BIOS - queue.bios_in()
}

/// The first id, in the order of the bios' sectors, that names another submitter.
pub(crate) fn first_foreign(number: u8, bios: &[Bio]) -> Option<BioId>
    ensures some { IfSome result (IsFirstForeign number bios.now) }
    ensures none { IfNone result (AreOwn number bios.now) }
{
    for (place, bio) in bios.iter().enumerate() {
        let id = bio.id();
        if id.submitter != number {
            // The place is for the prover: the id is that of the first such bio.
            let _ = place;
            return Some(id);
        }
    }
    None
}

/// The hardware queue that a map has for the submitter of a request, that of its first bio; [`MAX_QUEUES`], which is no hardware
/// queue's number, where it has no such submitter.
fn queue_of<A: Allocator + Clone>(map: &Map<A>, request: &Request<A>) -> u8
    ensures { result ≡ queue_of map.now request.now }
{
    let submitter = usize::from(request.bios()[0].id().submitter);
    if submitter < map.soft_count() {
        map.hw_of(submitter)
    } else {
        MAX_QUEUES
    }
}
