//! Two workers that work at once, and a submitter beside a worker.

ghost use Rattle.std.specs.Prelude.{◌≡◌, ◌<◌, [], length};

use crate::asked::{flush_one, last};
use crate::given::{core, limits, setup};
use blk_bio::Limits;
use blk_core::Core;
use blk_layer::{Device, Layer, MAX_WORKERS, Named, Ran, Submitter, Worker};
use blk_none::NoneSched;
use blk_queues::Map;
use edd_commands::Command;
use std::alloc::Global;
use std::marker::Brand;
use std::process::Abort;
use std::sync::Wait;
use std::sync::atomic::{AtomicU64, Ordering};
use std::sync::ledger::Blank;
use std::thread;
use std::thread::Threads;

/// How often a run looks whether another has begun.
const LOOKS: u64 = 10_000_000;

/// How often a layer is made for one late request, and how many software queues it has.
const LATE: u64 = 40;

const SOFT_QUEUES: usize = 64;

/// A device whose first run returns only once a second has begun.
#[derive(Drop)]
struct Gate<'a> {
    begun: &'a AtomicU64,
    alone: &'a AtomicU64,
}

impl<'a> Device for Gate<'a> {
    fn run(&mut self, command: &Command) -> Ran {
        let _ = command.id;
        self.begun.fetch_add(1, Ordering::SeqCst);
        for _ in 0..LOOKS {
            if self.begun.load(Ordering::SeqCst) >= 2 {
                return Ran::Done;
            }
            thread::yield_now();
        }
        self.alone.fetch_add(1, Ordering::SeqCst);
        Ran::Done
    }
}

/// A worker works to the end behind a gate; how many commands it ran, or none where it isn't finished.
fn ran<R: Wait, L: Named>(
    rt: &R,
    layer: &Layer<NoneSched, L>,
    worker: Worker<L>,
    begun: &AtomicU64,
    alone: &AtomicU64,
) -> u64
    requires { worker.tag_set ≡ layer.now.tag_set }
{
    let mut worker = worker;
    let mut gate = Gate { begun, alone };
    match layer.work(rt, &mut worker, &mut gate, 1_000_000) {
        Ok(worked) if worked.finished => worked.ran,
        _ => 0,
    }
}

#[tactic(auto, using(crate::proofs::Seated::all_of))]
fn at_once<R: Abort + Wait + Threads + Sync, L: Named + Send + Sync>(
    rt: &R,
    alloc: Global,
    blank: Blank,
    core: Core<NoneSched>,
    map: Map,
    worker_queues: Vec<u8>,
    limits: Limits,
)
    requires name { blank.name ≡ L.name }
    requires parts { (blank.parts ≡ MAX_WORKERS) × (L.parts ≡ MAX_WORKERS) }
    requires setup { core.setup ≡ L.setup }
    requires start { core ≡ L.start }
    requires limits { L.setup.limits ≡ limits }
    requires map { L.map ≡ map }
    requires queues { L.queues ≡ worker_queues.items }
    requires empty { core.events ≡ [] }
{
    let made = Layer::<NoneSched, L>::new(alloc, blank, core, map, 4, worker_queues);
    let Ok((layer, mut submitters, mut workers)) = made else {
        panic!(rt; "a layer");
    };
    let one = last(rt, &layer, &mut workers);
    let zero = last(rt, &layer, &mut workers);
    let count = submitters.len();
    let mut submitter = submitters.pop().expect(rt, "a submitter");
    assert!(rt; usize::from(submitter.number()) < count);
    flush_one(rt, alloc, &layer, &mut submitter, limits, 0);
    flush_one(rt, alloc, &layer, &mut submitter, limits, 1);
    layer.finish();
    let (begun, alone) = (AtomicU64::new(0), AtomicU64::new(0));
    let shared = &layer;
    let both = thread::join(
        rt,
        || ran(rt, shared, zero, &begun, &alone),
        || ran(rt, shared, one, &begun, &alone),
    );
    assert!(rt; both == (1, 1));
    assert_eq!(rt; begun.load(Ordering::SeqCst), 2);
    assert_eq!(rt; alone.load(Ordering::SeqCst), 0);
}

// The run that begins first returns only after the second has begun, so all work under one lock, or on one thread, fails.
#[test]
fn gate_device(rt: HostRuntime) {
    let alloc = rt.alloc();
    let limits = limits(&rt);
    let core = core(&rt, alloc, setup(&rt, 2, 1, limits));
    let entries = Vec::from_slice(alloc, &[0]).expect(&rt, "memory");
    let map = Map::new(entries).expect(&rt, "a map");
    let queues = Vec::from_slice(alloc, &[0, 0]).expect(&rt, "memory");
    at_once::<HostRuntime, Brand>(
        &rt,
        alloc,
        Blank::new(MAX_WORKERS),
        core,
        map,
        queues,
        limits,
    );
}

/// A submitter waits until a worker has begun and then a while, flushes a request, and says right away that nothing more comes.
fn flush_and_finish<R: Abort + Wait, L: Named>(
    rt: &R,
    alloc: Global,
    layer: &Layer<NoneSched, L>,
    submitter: Submitter<L>,
    limits: Limits,
    begun: &AtomicU64,
    later: u64,
)
    requires seat { submitter.number < length layer.now.map }
    requires limits { L.setup.limits ≡ limits }
{
    let mut submitter = submitter;
    for _ in 0..LOOKS {
        if begun.load(Ordering::SeqCst) >= 2 {
            break;
        }
        thread::yield_now();
    }
    for _ in 0..later {
        let _ = begun.load(Ordering::SeqCst);
    }
    flush_one(rt, alloc, layer, &mut submitter, limits, 0);
    layer.finish();
}

/// The same of a worker that counts itself first.
fn begun_and_ran<R: Wait, L: Named>(
    rt: &R,
    layer: &Layer<NoneSched, L>,
    worker: Worker<L>,
    begun: &AtomicU64,
    alone: &AtomicU64,
) -> u64
    requires { worker.tag_set ≡ layer.now.tag_set }
{
    begun.fetch_add(1, Ordering::SeqCst);
    ran(rt, layer, worker, begun, alone)
}

/// How many commands a worker runs that goes over many software queues, where a request comes late to the first of them.
#[tactic(auto, using(crate::proofs::Seated::all_of))]
fn served_late<R: Abort + Wait + Threads + Sync, L: Named + Send + Sync>(
    rt: &R,
    alloc: Global,
    blank: Blank,
    core: Core<NoneSched>,
    map: Map,
    worker_queues: Vec<u8>,
    limits: Limits,
    later: u64,
) -> u64
    requires name { blank.name ≡ L.name }
    requires parts { (blank.parts ≡ MAX_WORKERS) × (L.parts ≡ MAX_WORKERS) }
    requires setup { core.setup ≡ L.setup }
    requires start { core ≡ L.start }
    requires limits { L.setup.limits ≡ limits }
    requires map { L.map ≡ map }
    requires queues { L.queues ≡ worker_queues.items }
    requires empty { core.events ≡ [] }
{
    let made = Layer::<NoneSched, L>::new(alloc, blank, core, map, 4, worker_queues);
    let Ok((layer, mut submitters, mut workers)) = made else {
        panic!(rt; "a layer");
    };
    let worker = last(rt, &layer, &mut workers);
    let count = submitters.len();
    submitters.truncate(1);
    let first = submitters.pop().expect(rt, "a submitter");
    assert!(rt; usize::from(first.number()) < count);
    let (begun, alone) = (AtomicU64::new(1), AtomicU64::new(0));
    let shared = &layer;
    let (served, ()) = thread::join(
        rt,
        || begun_and_ran(rt, shared, worker, &begun, &alone),
        || flush_and_finish(rt, alloc, shared, first, limits, &begun, later),
    );
    served
}

/// The same of a layer under a name of its own.
fn late_served<R: Abort + Wait + Threads + Sync>(rt: &R, alloc: Global, later: u64) -> u64 {
    let limits = limits(rt);
    let core = core(rt, alloc, setup(rt, 2, 1, limits));
    let entries = Vec::from_slice(alloc, &[0; SOFT_QUEUES]).expect(rt, "memory");
    let map = Map::new(entries).expect(rt, "a map");
    let queues = Vec::from_slice(alloc, &[0]).expect(rt, "memory");
    let blank = Blank::new(MAX_WORKERS);
    served_late::<R, Brand>(rt, alloc, blank, core, map, queues, limits, later)
}

// A worker looks whether nothing more comes before it looks into the software queues: else it would miss what came between the two.
#[test]
fn late_request_is_served(rt: HostRuntime) {
    for late in 0..LATE {
        assert_eq!(rt; late_served(&rt, rt.alloc(), late * 50), 1);
    }
}
