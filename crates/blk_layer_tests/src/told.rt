//! A call answers that memory ran out inside it: each allocation of a drain, of an issue and of a worker's work is refused in turn.

ghost use Rattle.std.specs.Prelude.{◌≡◌, ◌<◌, [], length};

use crate::asked::last;
use crate::given::{bio, core, limits, setup};
use blk_bio::Limits;
use blk_core::{Core, CoreFault, IssueFault};
use blk_layer::{
    CloseFault, CloseRefused, Device, DrainFault, Layer, LayerIssueFault, MAX_WORKERS, Named, Ran,
    Submitter, WorkFault, Worker,
};
use blk_none::NoneSched;
use blk_queues::{Map, Plug};
use edd_commands::Command;
use refusing::Refusing;
use std::alloc::Global;
use std::marker::Brand;
use std::process::Abort;
use std::sync::Wait;
use std::sync::ledger::Blank;

/// The allocator of these tests.
type Heap<'a> = &'a Refusing<Global>;

/// A device that is busy at each second run.
#[derive(Drop)]
struct EachSecond {
    runs: u64,
}

impl Device for EachSecond {
    fn run(&mut self, command: &Command) -> Ran {
        let _ = command.id;
        self.runs = self.runs.wrapping_add(1);
        if self.runs % 2 == 0 {
            return Ran::Busy;
        }
        Ran::Done
    }
}

/// Which call is made.
#[derive(Clone, Copy, PartialEq, Eq)]
enum Made {
    /// A drain.
    Drain,
    /// An issue after a drain.
    Issue,
    /// A worker's work, to the end.
    Work,
}

/// What a call says of memory.
#[derive(Clone, Copy, PartialEq, Eq)]
enum OfMemory {
    /// There was enough.
    Enough,
    /// There wasn't.
    Wanting,
    /// Something else.
    Other,
}

/// Three requests go through a submitter's plug into its software queue.
fn flush_three<'a, R: Abort + Wait, L: Named>(
    rt: &R,
    heap: Heap<'a>,
    layer: &Layer<NoneSched<Heap<'a>>, L>,
    submitter: &mut Submitter<L, Heap<'a>>,
    limits: Limits,
)
    requires seat { submitter.old.number < length layer.now.map }
    requires limits { L.setup.limits ≡ limits }
{
    let mut plug = Plug::new(heap, limits).expect(rt, "memory");
    let number = submitter.number();
    let first = plug.add(bio(rt, number, 0, 0)).is_ok();
    let second = plug.add(bio(rt, number, 1, 100)).is_ok();
    let third = plug.add(bio(rt, number, 2, 200)).is_ok();
    assert!(rt; first && second && third);
    assert!(rt; layer.flush(rt, submitter, &mut plug).is_ok());
}

/// What a worker's call says.
fn answer_of<'a, R: Wait, L: Named>(
    rt: &R,
    layer: &Layer<NoneSched<Heap<'a>>, L>,
    worker: &mut Worker<L, Heap<'a>>,
    made: Made,
) -> OfMemory
    requires { worker.old.tag_set ≡ layer.now.tag_set }
{
    match made {
        Made::Drain => match layer.drain(rt, worker) {
            Ok(_) => OfMemory::Enough,
            Err(
                DrainFault {
                    why: CoreFault::Memory,
                    ..
                },
            ) => OfMemory::Wanting,
            Err(_) => OfMemory::Other,
        },
        Made::Issue => match layer.issue(rt, worker) {
            Ok(_) => OfMemory::Enough,
            Err(LayerIssueFault::Issue(IssueFault::Memory)) => OfMemory::Wanting,
            Err(_) => OfMemory::Other,
        },
        Made::Work => match layer.work(rt, worker, &mut EachSecond { runs: 0 }, 1000) {
            Ok(worked) if worked.finished => OfMemory::Enough,
            Err(WorkFault::Memory) => OfMemory::Wanting,
            _ => OfMemory::Other,
        },
    }
}

/// Makes a layer, and a call in it whose allocation of this number is refused: whether there was one, and what it answered.
#[tactic(auto, using(crate::proofs::Seated::all_of))]
fn refused<'a, R: Abort + Wait, L: Named>(
    rt: &R,
    heap: Heap<'a>,
    blank: Blank,
    core: Core<NoneSched<Heap<'a>>>,
    map: Map<Heap<'a>>,
    worker_queues: Vec<u8, Heap<'a>>,
    limits: Limits,
    made: Made,
    n: u64,
) -> (bool, OfMemory)
    requires name { blank.name ≡ L.name }
    requires parts { (blank.parts ≡ MAX_WORKERS) × (L.parts ≡ MAX_WORKERS) }
    requires setup { core.setup ≡ L.setup }
    requires start { core ≡ L.start }
    requires limits { L.setup.limits ≡ limits }
    requires map { L.map ≡ map }
    requires queues { L.queues ≡ worker_queues.items }
    requires empty { core.events ≡ [] }
{
    let new = Layer::<NoneSched<Heap<'a>>, L>::new(heap, blank, core, map, 4, worker_queues);
    let Ok((layer, mut submitters, mut workers)) = new else {
        panic!(rt; "a layer");
    };
    let mut worker = last(rt, &layer, &mut workers);
    let count = submitters.len();
    let mut submitter = submitters.pop().expect(rt, "a submitter");
    assert!(rt; usize::from(submitter.number()) < count);
    flush_three(rt, heap, &layer, &mut submitter, limits);
    if made == Made::Issue {
        assert!(rt; layer.drain(rt, &mut worker).is_ok());
    }
    layer.finish();
    heap.refuse(n);
    let said = answer_of(rt, &layer, &mut worker, made);
    let refused = !heap.is_armed();
    heap.refuse(0);
    (refused, said)
}

/// The same of a layer under a name of its own.
fn refused_at<R: Abort + Wait>(rt: &R, heap: Heap<'_>, made: Made, n: u64) -> (bool, OfMemory) {
    let limits = limits(rt);
    let core = core(rt, heap, setup(rt, 2, 1, limits));
    let map = Map::new(Vec::from_slice(heap, &[0]).expect(rt, "memory")).expect(rt, "a map");
    let queues = Vec::from_slice(heap, &[0]).expect(rt, "memory");
    let blank = Blank::new(MAX_WORKERS);
    refused::<R, Brand>(rt, heap, blank, core, map, queues, limits, made, n)
}

/// Refuses each allocation of a call in turn: how often the call says so. Else it does without that one, and ends as it does with it.
fn all_told<R: Abort + Wait>(rt: &R, alloc: Global, made: Made) -> u64 {
    let heap = Refusing::new(alloc);
    let mut told = 0u64;
    for n in 1..1000u64 {
        let (was_refused, said) = refused_at(rt, &heap, made, n);
        if was_refused && said == OfMemory::Wanting {
            told = told.saturating_add(1);
        } else {
            assert!(rt; said == OfMemory::Enough, "{n}");
        }
        if !was_refused {
            return told;
        }
    }
    0
}

#[test]
fn out_of_memory_is_told(rt: HostRuntime) {
    let alloc = rt.alloc();
    assert!(rt; all_told(&rt, alloc, Made::Drain) > 3);
    assert!(rt; all_told(&rt, alloc, Made::Issue) > 0);
    assert!(rt; all_told(&rt, alloc, Made::Work) > 5);
}

/// Makes a layer to which nothing more comes, and closes it in vain, without its worker and then where an allocation is refused; how many
/// commands the worker runs then, if it finishes.
#[tactic(auto, using(crate::proofs::Seated::all_of))]
fn ran_after_refusals<'a, R: Abort + Wait, L: Named>(
    rt: &R,
    heap: Heap<'a>,
    blank: Blank,
    core: Core<NoneSched<Heap<'a>>>,
    map: Map<Heap<'a>>,
    worker_queues: Vec<u8, Heap<'a>>,
    limits: Limits,
) -> Option<usize>
    requires name { blank.name ≡ L.name }
    requires parts { (blank.parts ≡ MAX_WORKERS) × (L.parts ≡ MAX_WORKERS) }
    requires setup { core.setup ≡ L.setup }
    requires start { core ≡ L.start }
    requires limits { L.setup.limits ≡ limits }
    requires map { L.map ≡ map }
    requires queues { L.queues ≡ worker_queues.items }
    requires empty { core.events ≡ [] }
{
    let new = Layer::<NoneSched<Heap<'a>>, L>::new(heap, blank, core, map, 4, worker_queues);
    let Ok((layer, mut submitters, workers)) = new else {
        panic!(rt; "a layer");
    };
    let count = submitters.len();
    let mut submitter = submitters.pop().expect(rt, "a submitter");
    assert!(rt; usize::from(submitter.number()) < count);
    flush_three(rt, heap, &layer, &mut submitter, limits);
    submitters.push(submitter).expect(rt, "memory");
    layer.finish();
    let Err(
        CloseRefused::Whole {
            fault: CloseFault::SeatMissing,
            layer,
            submitters,
            ..
        },
    ) = layer.close(heap, submitters, Vec::new(heap))
    else {
        panic!(rt; "a seat is missing");
    };
    heap.refuse(1);
    let Err(
        CloseRefused::Whole {
            fault: CloseFault::Memory,
            layer,
            mut workers,
            ..
        },
    ) = layer.close(heap, submitters, workers)
    else {
        panic!(rt; "memory is refused");
    };
    let mut worker = last(rt, &layer, &mut workers);
    match answer_of(rt, &layer, &mut worker, Made::Work) {
        OfMemory::Enough => Some(worker.ran().len()),
        _ => None,
    }
}

// A layer that a refused close hands back still knows that nothing more comes, and has all that it had.
#[test]
fn finish_outlasts_a_refused_close(rt: HostRuntime) {
    let heap = Refusing::new(rt.alloc());
    let limits = limits(&rt);
    let core = core(&rt, &heap, setup(&rt, 2, 1, limits));
    let map = Map::new(Vec::from_slice(&heap, &[0]).expect(&rt, "memory")).expect(&rt, "a map");
    let queues = Vec::from_slice(&heap, &[0]).expect(&rt, "memory");
    let blank = Blank::new(MAX_WORKERS);
    let ran = ran_after_refusals::<HostRuntime, Brand>(
        &rt, &heap, blank, core, map, queues, limits,
    );
    assert_eq!(rt; ran, Some(3));
}
