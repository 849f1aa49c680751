//! Nine submitters and four workers at once, over four hardware queues.

ghost use Rattle.std.specs.Prelude.{◌≡◌, ◌<◌, [], All, length};

use crate::asked::close;
use crate::given::{bio, core, limits, setup};
use blk_bio::Limits;
use blk_core::Core;
use blk_layer::{Closed, Device, Layer, MAX_WORKERS, Named, Ran, Submitter, Worker};
use blk_none::NoneSched;
use blk_queues::{Map, Plug};
use blk_trace::Event;
use edd_commands::Command;
use std::alloc::Global;
use std::marker::Brand;
use std::process::Abort;
use std::sync::Wait;
use std::sync::atomic::{AtomicU64, Ordering};
use std::sync::ledger::Blank;
use std::thread::{Threads, for_each_mut, join, yield_now};

/// How many bios each submitter has.
const BIOS_EACH: u64 = 50;

/// How often a submitter flushes, and how many passes a worker makes, at most.
const MAX_PASSES: u64 = 3_000_000;

/// A device that is busy at each third run, and counts its runs where others see it.
#[derive(Drop)]
struct Third<'a> {
    runs: &'a AtomicU64,
}

impl<'a> Device for Third<'a> {
    fn run(&mut self, command: &Command) -> Ran {
        let _ = command.id;
        let before = self.runs.fetch_add(1, Ordering::SeqCst);
        if before % 3 == 2 {
            return Ran::Busy;
        }
        Ran::Done
    }
}

/// A submitter's bios go into its software queue, one after the other, whenever there is room; how many did.
fn submit<R: Abort + Wait, L: Named>(
    rt: &R,
    alloc: Global,
    layer: &Layer<NoneSched, L>,
    submitter: &mut Submitter<L>,
    limits: Limits,
)
    requires seat { submitter.old.number < length layer.now.map }
    requires limits { L.setup.limits ≡ limits }
    ensures { submitter.new.number ≡ submitter.old.number }
{
    let mut plug = Plug::new(alloc, limits).expect(rt, "memory");
    let number = submitter.number();
    let mut next = 0u64;
    for _ in 0..MAX_PASSES {
        if plug.len() == 0 {
            if next >= BIOS_EACH {
                return;
            }
            let first = next.saturating_mul(9).saturating_add(u64::from(number));
            let added = plug
                .add(bio(rt, number, next, first.saturating_mul(16)))
                .is_ok();
            assert!(rt; added);
            next = next.saturating_add(1);
        }
        if layer.flush(rt, submitter, &mut plug).is_err() {
            yield_now();
        }
    }
}

/// A worker works to the end.
fn serve<R: Wait, L: Named>(
    rt: &R,
    layer: &Layer<NoneSched, L>,
    worker: &mut Worker<L>,
    runs: &AtomicU64,
)
    requires { worker.old.tag_set ≡ layer.now.tag_set }
    ensures { worker.new.tag_set ≡ worker.old.tag_set }
{
    let mut device = Third { runs };
    let _ = layer.work(rt, worker, &mut device, MAX_PASSES);
}

/// All submitters, each in a thread of its own.
fn submit_all<R: Abort + Threads + Wait + Sync, L: Named + Send + Sync>(
    rt: &R,
    alloc: Global,
    layer: &Layer<NoneSched, L>,
    submitters: &mut [Submitter<L>],
    limits: Limits,
)
    requires seats { All (λ s. s.number < length layer.now.map) submitters.old }
    requires limits { L.setup.limits ≡ limits }
{
    let each = |_: usize, seat: &mut Submitter<L>|
        requires { (seat.now.number < length layer.now.map) × (L.setup.limits ≡ limits) }
        ensures { seat.exit.now.number ≡ seat.entry.now.number }
    { submit(rt, alloc, layer, seat, limits) };
    for_each_mut(rt, submitters, 9, &each);
    layer.finish();
}

/// All workers, each in a thread of its own and with a counter of its own.
fn serve_all<R: Threads + Wait + Sync, L: Named + Send + Sync>(
    rt: &R,
    layer: &Layer<NoneSched, L>,
    workers: &mut [Worker<L>],
    runs: &[AtomicU64; 4],
)
    requires { All (λ w. w.tag_set ≡ layer.now.tag_set) workers.old }
{
    let each = |place: usize, seat: &mut Worker<L>|
        requires { seat.now.tag_set ≡ layer.now.tag_set }
        ensures { seat.exit.now.tag_set ≡ seat.entry.now.tag_set }
    { serve(rt, layer, seat, &runs[place % 4]) };
    for_each_mut(rt, workers, 4, &each);
}

/// How many events of a closed layer are Backs, and how many Dones.
fn ends(closed: &Closed) -> (u64, u64) {
    let mut counts = (0u64, 0u64);
    for event in closed.trace.events() {
        if event.requeues().is_some() {
            counts.0 = counts.0.saturating_add(1);
        } else if event.ends().is_some() {
            counts.1 = counts.1.saturating_add(1);
        }
    }
    counts
}

/// Each device was busy at each third run of its own, and at no other; all bios were served.
fn settles(rt: &impl Abort, closed: &Closed, runs: &[AtomicU64; 4]) {
    let mut busy = 0u64;
    for each in runs {
        let count = each.load(Ordering::SeqCst);
        assert!(rt; count > 0);
        busy = busy.saturating_add(count / 3);
    }
    assert!(rt; closed.left.is_empty());
    assert!(rt; ends(closed) == (busy, 9 * BIOS_EACH));
}

#[tactic(auto, using(crate::proofs::Seated::all_of, crate::proofs::Seated::all_numbers))]
fn at_once<R: Abort + Threads + Wait + Sync, L: Named + Send + Sync>(
    rt: &R,
    alloc: Global,
    blank: Blank,
    core: Core<NoneSched>,
    map: Map,
    worker_queues: Vec<u8>,
    limits: Limits,
)
    requires name { blank.name ≡ L.name }
    requires parts { (blank.parts ≡ MAX_WORKERS) × (L.parts ≡ MAX_WORKERS) }
    requires setup { core.setup ≡ L.setup }
    requires start { core ≡ L.start }
    requires limits { L.setup.limits ≡ limits }
    requires map { L.map ≡ map }
    requires queues { L.queues ≡ worker_queues.items }
    requires empty { core.events ≡ [] }
{
    let made = Layer::<NoneSched, L>::new(alloc, blank, core, map, 4, worker_queues);
    let Ok((layer, mut submitters, mut workers)) = made else {
        panic!(rt; "a layer");
    };
    let runs = [
        AtomicU64::new(0),
        AtomicU64::new(0),
        AtomicU64::new(0),
        AtomicU64::new(0),
    ];
    both(
        rt,
        alloc,
        &layer,
        submitters.as_mut_slice(),
        workers.as_mut_slice(),
        &runs,
        limits,
    );
    for submitter in &submitters {
        assert!(rt; submitter.accepted().len() as u64 == BIOS_EACH);
    }
    let closed = close(rt, alloc, layer, submitters, workers);
    settles(rt, &closed, &runs);
}

/// Submitters beside workers.
fn both<R: Abort + Threads + Wait + Sync, L: Named + Send + Sync>(
    rt: &R,
    alloc: Global,
    layer: &Layer<NoneSched, L>,
    submitters: &mut [Submitter<L>],
    workers: &mut [Worker<L>],
    runs: &[AtomicU64; 4],
    limits: Limits,
)
    requires submitters { All (λ s. s.number < length layer.now.map) submitters.old }
    requires workers { All (λ w. w.tag_set ≡ layer.now.tag_set) workers.old }
    requires limits { L.setup.limits ≡ limits }
{
    join(
        rt,
        ||
            requires { (All (λ s. s.number < length layer.now.map) submitters.now) × (L.setup.limits ≡ limits) }
        { submit_all(rt, alloc, layer, submitters, limits) },
        ||
            requires { All (λ w. w.tag_set ≡ layer.now.tag_set) workers.now }
        { serve_all(rt, layer, workers, runs) },
    );
}

// More submitters than hardware queues: each queue is served, each device is busy by its own runs alone, and each bio is served.
#[test]
fn nine_submitters_over_four_queues(rt: HostRuntime) {
    let alloc = rt.alloc();
    let limits = limits(&rt);
    let core = core(&rt, alloc, setup(&rt, 8, 4, limits));
    let entries = Vec::from_slice(alloc, &[0, 1, 2, 3, 0, 1, 2, 3, 0]).expect(&rt, "memory");
    let map = Map::new(entries).expect(&rt, "a map");
    let queues = Vec::from_slice(alloc, &[0, 1, 2, 3]).expect(&rt, "memory");
    at_once::<HostRuntime, Brand>(
        &rt,
        alloc,
        Blank::new(MAX_WORKERS),
        core,
        map,
        queues,
        limits,
    );
}
