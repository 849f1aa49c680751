//! Layers that follow a list of calls, and what is left of them.

ghost use Rattle.std.specs.Prelude.{true, ◌≡◌, ◌<◌, [], IfErr, length};

use crate::asked::last;
use crate::given::{core, limits, setup};
use crate::listed::{LayerCall, first_other};
use blk_bio::{Bio, Limits};
use blk_core::Core;
use blk_layer::{
    CloseFault, CloseRefused, Closed, Layer, LayerFault, MAX_WORKERS, Named, Submitter, Worker,
};
use blk_queues::{Map, Plug};
use blk_sched::Scheduler;
use std::alloc::{Allocator, Global};
use std::marker::Brand;
use std::process::Abort;
use std::sync::Wait;
use std::sync::ledger::Blank;

/// An allocator once more.
fn again<A: Allocator + Clone>(rt: &impl Abort, alloc: &A) -> A {
    let Ok(alloc) = alloc.clone() else {
        panic!(rt; "out of memory");
    };
    alloc
}

/// A plug, of which memory is refused once at most.
fn plug<A: Allocator + Clone>(rt: &impl Abort, alloc: &A, limits: Limits) -> Plug<A>
    ensures { result.limits ≡ limits }
{
    match Plug::new(again(rt, alloc), limits) {
        Ok(plug) => plug,
        Err(_) => Plug::new(again(rt, alloc), limits).expect(rt, "memory"),
    }
}

/// What is left where a layer is closed with all of its seats, after a close without its workers; closed once more where memory was
/// refused.
fn closed<S: Scheduler, L: Named>(
    rt: &impl Abort,
    alloc: &S::A,
    layer: Layer<S, L>,
    submitters: Vec<Submitter<L, S::A>, S::A>,
    workers: Vec<Worker<L, S::A>, S::A>,
) -> Closed<S::A>
    requires parts { L.parts ≡ MAX_WORKERS }
{
    let Err(
        CloseRefused::Whole {
            fault: CloseFault::SeatMissing,
            layer,
            submitters,
            workers: none,
        },
    ) = layer.close(again(rt, alloc), submitters, Vec::new(again(rt, alloc)))
    else {
        panic!(rt; "seats are missing");
    };
    assert!(rt; none.is_empty());
    match layer.close(again(rt, alloc), submitters, workers) {
        Ok(closed) => closed,
        Err(
            CloseRefused::Whole {
                fault: CloseFault::Memory,
                layer,
                submitters,
                workers,
            },
        ) => match layer.close(again(rt, alloc), submitters, workers) {
            Ok(closed) => closed,
            Err(_) => panic!(rt; "the accounts agree"),
        },
        Err(_) => panic!(rt; "the accounts agree"),
    }
}

/// A layer of two submitters and two workers follows the calls: the place of the first one whose answer is another, if there is
/// one, and what is left at the close. The core comes back where memory was refused before there was a layer.
#[tactic(auto, using(crate::proofs::Seated::all_of))]
fn followed<R: Abort + Wait, S: Scheduler, L: Named>(
    rt: &R,
    alloc: &S::A,
    blank: Blank,
    core: Core<S>,
    map: Map<S::A>,
    soft_depth: u64,
    worker_queues: Vec<u8, S::A>,
    limits: Limits,
    calls: &[LayerCall],
) -> Result<(Option<usize>, Closed<S::A>), Core<S>>
    requires name { blank.name ≡ L.name }
    requires parts { (blank.parts ≡ MAX_WORKERS) × (L.parts ≡ MAX_WORKERS) }
    requires setup { core.setup ≡ L.setup }
    requires start { core ≡ L.start }
    requires limits { L.setup.limits ≡ limits }
    requires map { L.map ≡ map }
    requires queues { L.queues ≡ worker_queues.items }
    requires empty { core.events ≡ [] }
    requires hand { L.by_hand ≡ true }
    ensures core { IfErr result (λ back. back ≡ core) }
{
    let made = Layer::<S, L>::new(
        again(rt, alloc),
        blank,
        core,
        map,
        soft_depth,
        worker_queues,
    );
    let (layer, mut submitters, mut workers) = match made {
        Ok(made) => made,
        Err((LayerFault::Memory, core)) => return Err(core),
        Err(_) => panic!(rt; "a layer"),
    };
    let mut one = last(rt, &layer, &mut workers);
    let mut zero = last(rt, &layer, &mut workers);
    let count = submitters.len();
    let mut second = submitters.pop().expect(rt, "a submitter");
    let mut first = submitters.pop().expect(rt, "a submitter");
    assert!(rt; usize::from(first.number()) < count);
    assert!(rt; usize::from(second.number()) < count);
    let other = first_other(
        rt,
        &layer,
        &mut first,
        &mut second,
        &mut plug(rt, alloc, limits),
        &mut plug(rt, alloc, limits),
        &mut zero,
        &mut one,
        calls,
    );
    submitters.push(second).expect(rt, "memory");
    submitters.push(first).expect(rt, "memory");
    workers.push(one).expect(rt, "memory");
    workers.push(zero).expect(rt, "memory");
    Ok((other, closed(rt, alloc, layer, submitters, workers)))
}

/// A layer under a name of its own follows the calls, is closed, and leaves these bios and a trace of this number of events. The place of the
/// first call whose answer is another is answered, if there is one, and the place past the calls where something else is left. The core
/// comes back where memory was refused before there was a layer.
pub fn tried<R: Abort + Wait, S: Scheduler>(
    rt: &R,
    alloc: &S::A,
    core: Core<S>,
    map: Map<S::A>,
    soft_depth: u64,
    worker_queues: Vec<u8, S::A>,
    limits: Limits,
    calls: &[LayerCall],
    left: &[Bio],
    events: u64,
) -> Result<Option<usize>, Core<S>>
    requires limits { core.setup.limits ≡ limits }
    requires empty { core.events ≡ [] }
    ensures core { IfErr result (λ back. back ≡ core) }
{
    let blank = Blank::new(MAX_WORKERS);
    let (other, closed) = followed::<R, S, Brand>(
        rt,
        alloc,
        blank,
        core,
        map,
        soft_depth,
        worker_queues,
        limits,
        calls,
    )?;
    if other.is_none() && (closed.left.as_slice() != left || closed.trace.len() != events) {
        return Ok(Some(calls.len()));
    }
    Ok(other)
}

/// The same of a layer of these numbers of tags and hardware queues, of two software queues of this depth, which are for these hardware
/// queues, and of two workers, which work for these.
pub fn other_than<R: Abort + Wait>(
    rt: &R,
    alloc: Global,
    (depth, hw, soft_depth): (u64, u8, u64),
    map: &[u8],
    worker_queues: &[u8],
    calls: &[LayerCall],
    left: &[Bio],
    events: u64,
) -> Option<usize> {
    let limits = limits(rt);
    let core = core(rt, alloc, setup(rt, depth, hw, limits));
    let entries = Vec::from_slice(alloc, map).expect(rt, "memory");
    let map = Map::new(entries).expect(rt, "a map");
    let queues = Vec::from_slice(alloc, worker_queues).expect(rt, "memory");
    match tried(
        rt, &alloc, core, map, soft_depth, queues, limits, calls, left, events,
    ) {
        Ok(other) => other,
        Err(_) => panic!(rt; "out of memory"),
    }
}
