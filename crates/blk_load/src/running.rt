//! A load, from its threads' start to its account.

ghost use Rattle.std.specs.Prelude.{false, ◌≡◌, ◌<◌, ◌≤◌, [], All, IsPermutation, IfOk, Some, length, min};
ghost use Rattle.blk_queues.specs.Maps.{IsHwCount};
ghost use Rattle.blk_layer.specs.Closing.{all_accepted};
ghost use Rattle.blk_layer.specs.Rounds.{EndsFullRounds};
ghost use Rattle.blk_layer.specs.Seats.{CanMake};
ghost use Rattle.blk_sched.specs.Meaning.{at_start};
ghost use Rattle.blk_load.specs.Inside.Outcomes.{IsOutcome};
ghost use Rattle.blk_schedulers.specs.Numbers.{IsLoad};
ghost use Rattle.blk_schedulers.specs.Settles.{IsSettled, served_bios, load_setup};
ghost use Rattle.blk_trace.specs.Events.{AreOnce};
ghost use Rattle.blk_load.specs.Inside.Loads.{AreInTurn};
ghost use Rattle.blk_core.specs.Runs.{IsRunBy, IsRunFrom};

use crate::counts::accepted;
use crate::fault::{LoadFault, first_of};
use crate::serving::serve_all;
use crate::site::Site;
use crate::submitting::submit_all;
use blk_core::Core;
use blk_layer::{CloseRefused, Closed, Layer, LayerFault, MAX_WORKERS, Named, Submitter, Worker};
use blk_queues::Map;
use blk_sched::Scheduler;
use blk_schedulers::numbers::MAX_LOAD_WORKERS;
use blk_schedulers::{Load, LoadTimes, Loaded};
use std::alloc::{AllocError, Global};
use std::marker::Brand;
use std::sync::Wait;
use std::sync::ledger::Blank;
use std::thread::{Scope, Threads, scope, scope_env};
use std::time::Instant;

/// How many requests a software queue of a load has room for.
const LOAD_SOFT_DEPTH: u64 = 64;

/// Runs a load over a layer of a scheduler in which nothing waits, whose devices sleep by the clock. There is a hardware queue for each
/// submitter or each worker, whichever are fewer; software queue s and worker w are mapped to the hardware queues of numbers s and w modulo
/// that count.
///
/// Refused, by the first of these that applies: as `Memory`; as `Work` where a worker is refused so; as `Repeated` where a submitter is;
/// as `Stalled` where one used up its flushes or its passes; as `Close` or `Differs` where the layer's accounts can't be settled; and as
/// `Unserved` where not all bios were accepted and served.
#[tactic(auto, using(crate::proofs::Made::can_make))]
pub(crate) fn load<R: Threads + Wait + Sync, S: Scheduler<A = Global> + Send>(
    rt: &R,
    clock: HostRuntime,
    alloc: Global,
    load: Load,
    scheduler: S,
) -> Result<Loaded, LoadFault>
    requires range { IsLoad load }
    requires start { S.meaning scheduler ≡ at_start (S.meaning scheduler).front }
    ensures settled { IfOk result (λ l. IsSettled load l.trace l.settled) }
    ensures full { IfOk result (λ l. EndsFullRounds l.trace.setup l.trace.events) }
    ensures ran { IfOk result (λ l. IsRunBy S.policy (S.meaning scheduler) (S.kept scheduler) l.trace) }
    ensures once { IfOk result (λ l. AreOnce (served_bios l.trace.events)) }
{
    let Ok(map) = map_of(alloc, &load) else {
        return Err(LoadFault::Memory);
    };
    let Ok(queues) = in_turn(alloc, load.workers, load.hw_queues()) else {
        return Err(LoadFault::Memory);
    };
    let Ok(core) = Core::new(alloc, load.setup(), scheduler) else {
        return Err(LoadFault::Memory);
    };
    let blank = Blank::new(MAX_WORKERS);
    match on_layer::<R, S, Brand>(rt, clock, alloc, blank, core, map, queues, load) {
        Ok(loaded) => Ok(loaded),
        Err(fault) => Err(fault),
    }
}

/// `count` numbers, which go up from 0 and begin again at 0 whenever they reach `below`.
fn in_turn(alloc: Global, count: u64, below: u64) -> Result<Vec<u8>, AllocError>
    requires count { count ≤ MAX_WORKERS }
    requires some { 1 ≤ below }
    requires few { below ≤ MAX_LOAD_WORKERS }
    ensures turn { IfOk result (λ all. AreInTurn count below all.items) }
    ensures below { IfOk result (λ all. All (λ n. n < below) all.items) }
{
    let mut all = Vec::with_capacity(alloc, count as usize)?;
    for place in 0..count {
        all.push((place % below) as u8)?;
    }
    Ok(all)
}

/// The hardware queues of the submitters' software queues.
#[tactic(auto, using(crate::proofs::Made::counts, crate::proofs::Made::no_map_fault))]
fn map_of(alloc: Global, load: &Load) -> Result<Map, AllocError>
    requires { IsLoad load.now }
    ensures turn { IfOk result (AreInTurn load.now.submitters (min load.now.submitters load.now.workers)) }
    ensures count { IfOk result (λ m. IsHwCount m (min load.now.submitters load.now.workers)) }
{
    let entries = in_turn(alloc, load.submitters, load.hw_queues())?;
    match Map::new(entries) {
        Ok(map) => Ok(map),
        Err(_) => unreachable!(),
    }
}

/// Makes a layer, runs the load over it, and settles the accounts.
#[tactic(auto, using(crate::proofs::Made::no_layer_fault))]
fn on_layer<R: Threads + Wait + Sync, S: Scheduler<A = Global> + Send, L: Named + Send + Sync>(
    rt: &R,
    clock: HostRuntime,
    alloc: Global,
    blank: Blank,
    core: Core<S>,
    map: Map,
    queues: Vec<u8>,
    load: Load,
) -> Result<Loaded, LoadFault>
    requires name { blank.name ≡ L.name }
    requires parts { (blank.parts ≡ MAX_WORKERS) × (L.parts ≡ MAX_WORKERS) }
    requires setup { core.setup ≡ L.setup }
    requires start { core ≡ L.start }
    requires map { L.map ≡ map }
    requires queues { L.queues ≡ queues.items }
    requires empty { core.events ≡ [] }
    requires range { IsLoad load }
    requires setup_is { L.setup ≡ load_setup load }
    requires hand { L.by_hand ≡ false }
    requires can { CanMake core.setup.hw map LOAD_SOFT_DEPTH queues.items }
    ensures settled { IfOk result (λ l. IsSettled load l.trace l.settled) }
    ensures full { IfOk result (λ l. EndsFullRounds l.trace.setup l.trace.events) }
    ensures ran { IfOk result (λ l. IsRunFrom S.policy L.start l.trace.events) }
    ensures once { IfOk result (λ l. AreOnce (served_bios l.trace.events)) }
{
    let limits = core.trace().setup().limits();
    let made = Layer::<S, L>::new(alloc, blank, core, map, LOAD_SOFT_DEPTH, queues);
    let (layer, submitters, workers) = match made {
        Ok(made) => made,
        Err((LayerFault::Memory, _)) => return Err(LoadFault::Memory),
        Err(_) => unreachable!(),
    };
    let site = Site::new(layer, alloc, limits, clock, load);
    let mut seats = Seats {
        submitters,
        workers,
    };
    let start = Instant::now(&clock).ok();
    run_beside(rt, &site, &mut seats);
    let watch = Stopwatch {
        clock,
        start,
        served: Instant::now(&clock).ok(),
    };
    let Seats {
        submitters,
        workers,
    } = seats;
    let Site { layer, noted, .. } = site;
    let settled = settle(alloc, load, layer, submitters, workers, watch);
    outcome(noted.into_first(), settled)
}

/// The outcome of a load: where its threads met no fault, what it was settled to; else their fault, or that of its settling if it comes
/// first by rank.
fn outcome(
    fault: Option<LoadFault>,
    settled: Result<Loaded, LoadFault>,
) -> Result<Loaded, LoadFault>
    ensures { IsOutcome fault settled result }
{
    let Some(fault) = fault else {
        return settled;
    };
    match settled {
        Ok(_) => Err(fault),
        Err(other) => match first_of(Some(fault), Some(other)) {
            Some(first) => Err(first),
            None => Err(fault),
        },
    }
}

/// The seats of a layer.
#[derive(Drop)]
struct Seats<L: Named> {
    submitters: Vec<Submitter<L>>,
    workers: Vec<Worker<L>>,
}

/// Runs submitters beside workers, each in a thread of its own; the layer is finished once the submitters have ended.
fn run_beside<R: Threads + Wait + Sync, S: Scheduler<A = Global> + Send, L: Named + Send + Sync>(
    rt: &R,
    site: &Site<S, L>,
    seats: &mut Seats<L>,
)
    requires submitters { All (λ s. s.number < length site.now.layer.map) seats.old.submitters.items }
    requires workers { All (λ s. s.tag_set ≡ site.now.layer.tag_set) seats.old.workers.items }
{
    let all = &mut *seats;
    scope(
        scope_env(),
        rt,
        move |threads|
            requires submitters { All (λ s. s.number < length site.now.layer.map) all.now.submitters.items }
            requires workers { All (λ s. s.tag_set ≡ site.now.layer.tag_set) all.now.workers.items }
        { start_and_submit(threads, rt, site, all) },
    );
}

/// Starts the workers, and runs the submitters to their end.
fn start_and_submit<
    's,
    E,
    R: Threads + Wait + Sync,
    S: Scheduler<A = Global> + Send,
    L: Named + Send + Sync,
>(scope: &'s Scope<'s, E>, rt: &'s R, site: &'s Site<S, L>, seats: &'s mut Seats<L>)
    requires submitters { All (λ s. s.number < length site.now.layer.map) seats.now.submitters.items }
    requires workers { All (λ s. s.tag_set ≡ site.now.layer.tag_set) seats.now.workers.items }
{
    serve_all(scope, rt, site, seats.workers.as_mut_slice());
    submit_all(rt, site, seats.submitters.as_mut_slice());
}

/// A clock, and what it said when the threads started and when they had ended, where it could be read.
#[derive(Clone, Copy)]
struct Stopwatch {
    clock: HostRuntime,
    start: Option<Instant>,
    served: Option<Instant>,
}

/// The microseconds from one reading of the clock to a later one.
fn micros_between(begin: Instant, end: Instant) -> u64 {
    match u64::try_from(end.duration_since(begin).as_micros()) {
        Ok(micros) => micros,
        Err(_) => u64::MAX,
    }
}

impl Stopwatch {
    /// How long serving took, and settling, which ends now.
    fn times(&self) -> Option<LoadTimes> {
        let (start, served) = (self.start?, self.served?);
        let end = Instant::now(&self.clock).ok()?;
        Some(LoadTimes {
            serving: micros_between(start, served),
            settling: micros_between(served, end),
        })
    }
}

/// Closes a layer, and settles what came of it.
#[tactic(auto, using(crate::proofs::Counted::served_once, crate::proofs::Counted::served_all))]
fn settle<S: Scheduler<A = Global>, L: Named>(
    alloc: Global,
    load: Load,
    layer: Layer<S, L>,
    submitters: Vec<Submitter<L>>,
    workers: Vec<Worker<L>>,
    watch: Stopwatch,
) -> Result<Loaded, LoadFault>
    requires parts { L.parts ≡ MAX_WORKERS }
    requires range { IsLoad load }
    requires setup { L.setup ≡ load_setup load }
    requires hand { L.by_hand ≡ false }
    ensures settled { IfOk result (λ l. IsSettled load l.trace l.settled) }
    ensures full { IfOk result (λ l. EndsFullRounds l.trace.setup l.trace.events) }
    ensures ran { IfOk result (λ l. IsRunFrom S.policy L.start l.trace.events) }
    ensures accepted { IfOk result (λ l. l.settled.accepted ≡ length (all_accepted submitters.items)) }
    ensures agree { IfOk result (λ l. IsPermutation (all_accepted submitters.items) (served_bios l.trace.events)) }
    ensures once { IfOk result (λ l. AreOnce (served_bios l.trace.events)) }
{
    let Some(accepted) = accepted(submitters.as_slice()) else {
        return Err(LoadFault::Differs);
    };
    match layer.close(alloc, submitters, workers) {
        Ok(Closed { trace, left }) => {
            match load.settle(&trace, accepted, left.len() as u64) {
                Some(settled) => Ok(Loaded {
                    trace,
                    settled,
                    times: watch.times(),
                }),
                None => Err(LoadFault::Unserved),
            }
        }
        Err(CloseRefused::Whole { fault, .. }) => Err(LoadFault::Close(fault)),
        Err(CloseRefused::Differs { .. }) => Err(LoadFault::Differs),
    }
}
