//! The layer: what its threads share, and how it is made.

ghost use Rattle.std.specs.Prelude.{ℕ, Bool, List, true, false, ◌≡◌, ◌<◌, ◌≤◌, [], All, IfOk, IfErr, OnOk, IfSome, IfNone, length};
ghost use Rattle.blk_trace.specs.Setups.{Setup};
ghost use Rattle.blk_sched.specs.Meaning.{at_start};
ghost use Rattle.blk_core.specs.State.{CoreState, new_core};
ghost use Rattle.blk_layer.specs.Seats.{IsNewLayer, CanMake, IsFirstOutside, IsLayerFault};
ghost use Rattle.blk_layer.specs.Inside.Seats.{no_setup};

use crate::batch::MAX_BATCH;
use crate::locked::{LockedCore, LockedQueue, empty_queues};
use crate::seats::{Submitter, Worker, seat_submitters, seat_workers};
use blk_bio::MAX_SOFT_DEPTH;
use blk_core::Core;
use blk_queues::Map;
use blk_sched::Scheduler;
use blk_tags::TagSet;
use std::alloc::Allocator;
use std::marker::{Brand, Model};
use std::sync::atomic::AtomicBool;
use std::sync::ledger::{Blank, Ledger};
use std::sync::{Mutex, MutexGuard, Wait};
use std::thread::yield_now;
use thiserror::Error;

/// The most workers of a layer, and the parts of its ledger.
pub const MAX_WORKERS: u64 = 64;

/// How often a thread tries to take the core's lock, and lets others run where it can't, before it sleeps until the lock is free.
const MAX_TRIES: u64 = 64;

/// The name of a layer: its ledger's, with what all that lies under the layer's locks and all of its seats agree on. A
/// program calls a function that is generic over it with `Brand`.
pub trait Named: Ledger {
    /// What the core is set up for.
    ghost setup: { Setup };

    /// The core before its first call.
    ghost start: { CoreState };

    /// The hardware queue of each software queue.
    ghost map: { List ℕ };

    /// The hardware queue of each worker.
    ghost queues: { List ℕ };

    /// Whether rounds may be ended by hand, by [`Layer::tick`]. Else each ends as it is full.
    ghost by_hand: { Bool };
}

impl Named for Brand {
    ghost setup = { no_setup };

    ghost start = { new_core no_setup (at_start true) [] };

    ghost map = { [] };

    ghost queues = { [] };

    ghost by_hand = { false };
}

/// Why a layer is not made, in the order in which the reasons are looked for.
#[derive(Clone, Copy, Debug, PartialEq, Eq, Error)]
#[error("{:?}", self)]
pub enum LayerFault {
    /// The map has another number of hardware queues than the core.
    Queues,
    /// The depth of the software queues is 0 or above [`MAX_SOFT_DEPTH`].
    SoftDepth,
    /// There is no worker, or there are more than [`MAX_WORKERS`].
    Workers,
    /// The first worker, counted from 0, whose hardware queue the core doesn't have.
    #[error("WorkerQueue")]
    WorkerQueue(usize),
    /// Memory ran out.
    Memory,
}

/// A block layer, which threads share by `&`.
#[derive(Drop)]
pub struct Layer<S: Scheduler, L: Named> {
    pub(crate) core: Mutex<LockedCore<S, L>>,
    pub(crate) queues: Vec<Mutex<LockedQueue<L, S::A>>, S::A>,
    pub(crate) map: Map<S::A>,
    pub(crate) tags: TagSet<S::A>,
    pub(crate) workers: usize,
    /// Whether nothing more will be flushed.
    pub(crate) finishing: AtomicBool,
}

impl<S: Scheduler, L: Named> Model for Layer<S, L> {
    ghost use Rattle.std.specs.Prelude.{vec_len};
    ghost use Rattle.blk_layer.specs.Seats.{LayerShape};
    ghost use Rattle.blk_layer.specs.Inside.Seats.{IsLaidOut};

    ghost Value = { LayerShape };

    ghost view = { λ l. record { map = l.map; workers = l.workers; tag_set = l.tags } };

    ghost invariant = { λ l. IsLaidOut L.setup L.map L.queues (vec_len l.queues) l.map l.tags.depth l.workers };
}

impl<S: Scheduler, L: Named> Layer<S, L> {
    /// A layer over a core without events, with the seats of its submitters, one for each software queue of the map, and of
    /// its workers, one for each entry of `worker_queues`, the hardware queue that it works for. Each software queue has
    /// room for `soft_depth` requests. The core and its setup are those that the name says, and the blank has a part for each
    /// worker that a layer may have; the blank is spent, even where the layer is refused.
    ///
    /// Refused, by the first of these that applies: as `Queues` where the map has another number of hardware queues than
    /// the core; as `SoftDepth` where `soft_depth` is not 1 to [`MAX_SOFT_DEPTH`]; as `Workers` where there are none or more
    /// than [`MAX_WORKERS`]; as `WorkerQueue` with the first worker whose hardware queue is not there; and as `Memory`. The core
    /// comes back then.
    pub fn new(
        alloc: S::A,
        blank: Blank,
        core: Core<S>,
        map: Map<S::A>,
        soft_depth: u64,
        worker_queues: Vec<u8, S::A>,
    ) -> Result<
        (
            Layer<S, L>,
            Vec<Submitter<L, S::A>, S::A>,
            Vec<Worker<L, S::A>, S::A>,
        ),
        (LayerFault, Core<S>),
    >
        requires name { blank.name ≡ L.name }
        requires parts { (blank.parts ≡ MAX_WORKERS) × (L.parts ≡ MAX_WORKERS) }
        requires setup { core.setup ≡ L.setup }
        requires start { core ≡ L.start }
        requires map { L.map ≡ map }
        requires queues { L.queues ≡ worker_queues.items }
        requires empty { core.events ≡ [] }
        ensures made { IfOk result (λ made. IsNewLayer core.setup.depth map worker_queues.items made.0 made.1.items made.2.items) }
        ensures no_fault { OnOk result (CanMake core.setup.hw map soft_depth worker_queues.items) }
        ensures fault { IfErr result (λ e. IsLayerFault core.setup.hw map soft_depth worker_queues.items e.0) }
        ensures core { IfErr result (λ e. e.1 ≡ core) }
    {
        let hw = core.trace().setup().hw();
        match layer_fault(hw, &map, soft_depth, worker_queues.as_slice()) {
            Some(why) => Err((why, core)),
            None => Layer::make(alloc, blank, core, map, soft_depth, worker_queues),
        }
    }

    /// Makes a layer that can be made. Fails only when memory runs out.
    fn make(
        alloc: S::A,
        blank: Blank,
        core: Core<S>,
        map: Map<S::A>,
        soft_depth: u64,
        worker_queues: Vec<u8, S::A>,
    ) -> Result<
        (
            Layer<S, L>,
            Vec<Submitter<L, S::A>, S::A>,
            Vec<Worker<L, S::A>, S::A>,
        ),
        (LayerFault, Core<S>),
    >
        requires name { blank.name ≡ L.name }
        requires parts { (blank.parts ≡ MAX_WORKERS) × (L.parts ≡ MAX_WORKERS) }
        requires setup { core.setup ≡ L.setup }
        requires start { core ≡ L.start }
        requires map { L.map ≡ map }
        requires queues { L.queues ≡ worker_queues.items }
        requires empty { core.events ≡ [] }
        requires can { CanMake L.setup.hw map soft_depth worker_queues.items }
        ensures made { IfOk result (λ made. IsNewLayer core.setup.depth map worker_queues.items made.0 made.1.items made.2.items) }
        ensures err { IfErr result (λ e. (e.0 ≡ LayerFault.Memory) × (e.1 ≡ core)) }
    {
        let setup = core.trace().setup();
        let soft_count = map.soft_count();
        let Ok(staged) = empty_queues(&alloc, soft_count, soft_depth, setup.limits()) else {
            return Err((LayerFault::Memory, core));
        };
        let Ok(submitters) = seat_submitters(&alloc, soft_count as u8) else {
            return Err((LayerFault::Memory, core));
        };
        let Ok(spare) = alloc.clone() else {
            return Err((LayerFault::Memory, core));
        };
        let Ok((tags, mut first)) = TagSet::new(spare, setup.depth()) else {
            return Err((LayerFault::Memory, core));
        };
        let (book, mut rest) = blank.open::<L>();
        let queues = worker_queues.as_slice();
        let Ok(workers) = seat_workers(&alloc, &tags, &mut first, &mut rest, queues) else {
            return Err((LayerFault::Memory, core));
        };
        let layer = Layer {
            core: Mutex::new(LockedCore::new(core, book, rest)),
            queues: staged,
            map,
            tags,
            workers: workers.len(),
            finishing: AtomicBool::new(false),
        };
        Ok((layer, submitters, workers))
    }

    /// Takes the core's lock, for those who take it for each command. It tries for a while before it sleeps: the lock is held for
    /// a shorter time than a sleep and a wake-up take, and a thread that comes back at once finds the core in its caches.
    pub(crate) fn lock_core<R: Wait>(&self, rt: &R) -> MutexGuard<'_, LockedCore<S, L>> {
        for _ in 0..MAX_TRIES {
            if let Some(core) = self.core.try_lock() {
                return core;
            }
            yield_now();
        }
        self.core.lock(rt)
    }

    /// How many commands a worker may have in its hands where others wait for the core: its part of what waits and of what the round has
    /// room for, so that it leaves the others theirs, but at least one and at most [`MAX_BATCH`].
    pub(crate) fn share(&self, core: &Core<S>) -> usize
        ensures { result ≤ MAX_BATCH }
    {
        let trace = core.trace();
        let room = trace.depth_now().saturating_sub(trace.unused_from());
        let part = room.min(core.pending()) / (self.workers as u64).max(1);
        (part as usize).clamp(1, MAX_BATCH)
    }
}

/// The first reason not to make a layer, memory aside.
fn layer_fault<A: Allocator>(
    hw: u8,
    map: &Map<A>,
    soft_depth: u64,
    worker_queues: &[u8],
) -> Option<LayerFault>
    ensures some { IfSome result (IsLayerFault hw map.now soft_depth worker_queues.now) }
    ensures none { IfNone result (CanMake hw map.now soft_depth worker_queues.now) }
{
    if map.hw_count() != hw {
        return Some(LayerFault::Queues);
    }
    if soft_depth == 0 || soft_depth > MAX_SOFT_DEPTH {
        return Some(LayerFault::SoftDepth);
    }
    if worker_queues.is_empty() || worker_queues.len() as u64 > MAX_WORKERS {
        return Some(LayerFault::Workers);
    }
    match first_outside(hw, worker_queues) {
        Some(worker) => Some(LayerFault::WorkerQueue(worker)),
        None => None,
    }
}

/// The place of the first hardware queue that is not below their number.
fn first_outside(hw: u8, queues: &[u8]) -> Option<usize>
    ensures some { IfSome result (IsFirstOutside hw queues.now) }
    ensures none { IfNone result (All (λ queue. queue < hw) queues.now) }
{
    for (place, queue) in queues.iter().enumerate() {
        if *queue >= hw {
            return Some(place);
        }
    }
    None
}
