//! Runs side by side, in batches.

ghost use Rattle.std.specs.Prelude.{◌≡◌, ◌≤◌, ◌<◌, ◌+◌, ◌-◌, ◌^◌, ℕ, IfOk, IfErr, OnOk, Result, length};
ghost use Rattle.turns.specs.Turns.{HaveRun, HasStopped};
ghost use Rattle.turns.specs.Inside.{IsThreadShare, AreShares};

use crate::progress::Progress;
use std::alloc::{AllocError, Global};
use std::thread;
use std::thread::{Threads, available_parallelism};

/// How many runs go side by side at most where nobody says how many.
const MAX_DEFAULT_THREADS: usize = 16;

/// How many runs a thread makes before the next word of progress. At each the threads wait for the slowest of them, and new ones begin.
const RUNS_EACH: usize = 8;

/// Why not all runs have an answer.
#[derive(Clone, Copy, Debug, PartialEq, Eq)]
pub enum Stopped<E> {
    /// A run is refused: the first of them in their order.
    Refused(E),
    /// Memory ran out beside the runs.
    Memory,
}

/// How many runs go side by side: as many as are asked for, and where nobody says, as there are processors,
/// [`MAX_DEFAULT_THREADS`] at most; 1 at least.
fn side_by_side(rt: &impl Threads, threads: Option<u64>) -> usize
    ensures { 1 ≤ result }
{
    match threads {
        Some(threads) => usize::try_from(threads)
            .unwrap_or(MAX_DEFAULT_THREADS)
            .max(1),
        None => match available_parallelism(rt) {
            Ok(count) => count.get().min(MAX_DEFAULT_THREADS).max(1),
            Err(_) => 1,
        },
    }
}

/// What came of the runs of one thread, in their order.
type Share<X, E> = Result<Vec<Result<X, E>>, AllocError>;

/// The runs of one thread: the one at a place and every `step`-th one after it, below a bound, one after the other.
///
/// Neighbours take about as long as one another, so threads that take turns at them end together.
fn share<X: Copy + Drop, E: Copy + Drop, F: Fn(usize) -> Result<X, E>>(
    alloc: Global,
    from: usize,
    until: usize,
    step: usize,
    run: &F,
) -> Share<X, E>
    requires step { 0 < step }
    requires callable { (i : ℕ) → i < until → F.pre run.now i }
    ensures each { IfOk result (λ all. IsThreadShare F.Fn run.now from until step all.items) }
{
    let mut all = Vec::new(alloc);
    let mut place = from;
    while place < until {
        all.push(run(place))?;
        if until - place <= step {
            break;
        }
        place += step;
    }
    Ok(all)
}

/// What comes of the runs from a place to another: a share for each of this number of threads, of which the `i`-th begins at the `i`-th run.
fn shares<
    T: Threads + Sync,
    X: Copy + Send + Drop,
    E: Copy + Send + Drop,
    F: Fn(usize) -> Result<X, E> + Sync,
>(
    rt: &T,
    alloc: Global,
    from: usize,
    until: usize,
    threads: usize,
    run: &F,
) -> Result<Vec<Share<X, E>>, AllocError>
    requires threads { threads ≤ until - from }
    requires callable { (i : ℕ) → i < until → F.pre run.now i }
    ensures len { IfOk result (λ all. length all.items ≡ threads) }
    ensures each { IfOk result (λ all. AreShares F.Fn run.now (λ one. one.items) from until threads all.items) }
{
    let share_of = |i: usize| -> Share<X, E>
        requires { (i < threads) × (threads ≤ until - from) × (until < 2 ^ 64) × ((k : ℕ) → k < until → F.pre run.now k) }
        ensures { IfOk result (λ one. IsThreadShare F.Fn run.entry.now (from + i) until threads one.items) }
    { share(alloc, from + i, until, threads, run) };
    let all = thread::map_indices(rt, alloc, threads, &share_of)?;
    Ok(all)
}

/// Adds what comes of the runs from a place to another, which as many threads make as are asked for.
fn push_batch<
    T: Threads + Sync,
    X: Copy + Send + Drop,
    E: Copy + Send + Drop,
    F: Fn(usize) -> Result<X, E> + Sync,
>(
    rt: &T,
    alloc: Global,
    from: usize,
    until: usize,
    threads: usize,
    run: &F,
    rows: &mut Vec<X>,
) -> Result<(), Stopped<E>>
    requires within { from < until }
    requires threads { 1 ≤ threads }
    requires callable { (i : ℕ) → i < until → F.pre run.now i }
    requires rows { HaveRun F.Fn run.now from rows.old.items }
    ensures rows { OnOk result (HaveRun F.Fn run.now until rows.new.items) }
    ensures stopped { IfErr result (HasStopped F.Fn run.now until) }
{
    let threads = threads.min(until - from);
    let Ok(shares) = shares(rt, alloc, from, until, threads, run) else {
        return Err(Stopped::Memory);
    };
    for i in 0..(until - from) {
        let Ok(share) = &shares[i % threads] else {
            return Err(Stopped::Memory);
        };
        match share[i / threads] {
            Ok(row) => {
                let Ok(()) = rows.push(row) else {
                    return Err(Stopped::Memory);
                };
            }
            Err(fault) => return Err(Stopped::Refused(fault)),
        }
    }
    Ok(())
}

/// What comes of so many runs, in their order: `run` makes that of a place. They go side by side, on `threads` threads, or where nobody says how
/// many, on as many as there are processors, 16 at most; 0 counts as 1. Each thread takes every N-th of a batch, one after the other, so memory
/// is that of N runs. `progress` hears after each batch how many are done, and in the end that it is over.
///
/// Refused as the first run is in their order that is refused, whichever thread found it first; the batches behind it aren't run. Out of memory
/// may come in its place.
pub fn in_turn<
    T: Threads + Sync,
    X: Copy + Send + Drop,
    E: Copy + Send + Drop,
    F: Fn(usize) -> Result<X, E> + Sync,
    P: Progress,
>(
    rt: &T,
    alloc: Global,
    runs: usize,
    threads: Option<u64>,
    run: &F,
    progress: &mut P,
) -> Result<Vec<X>, Stopped<E>>
    requires { (i : ℕ) → i < runs → F.pre run.now i }
    ensures rows { IfOk result (λ rows. HaveRun F.Fn run.now runs rows.items) }
    ensures stopped { IfErr result (HasStopped F.Fn run.now runs) }
{
    let all = batches(rt, alloc, runs, threads, run, progress);
    progress.over();
    all
}

/// The same, but for the end of progress.
fn batches<
    T: Threads + Sync,
    X: Copy + Send + Drop,
    E: Copy + Send + Drop,
    F: Fn(usize) -> Result<X, E> + Sync,
    P: Progress,
>(
    rt: &T,
    alloc: Global,
    runs: usize,
    threads: Option<u64>,
    run: &F,
    progress: &mut P,
) -> Result<Vec<X>, Stopped<E>>
    requires { (i : ℕ) → i < runs → F.pre run.now i }
    ensures rows { IfOk result (λ rows. HaveRun F.Fn run.now runs rows.items) }
    ensures stopped { IfErr result (HasStopped F.Fn run.now runs) }
{
    let threads = side_by_side(rt, threads);
    let batch = threads.saturating_mul(RUNS_EACH);
    let mut rows = Vec::new(alloc);
    let mut from = 0;
    while from < runs {
        let until = from + batch.min(runs - from);
        match push_batch(rt, alloc, from, until, threads, run, &mut rows) {
            Ok(()) => {}
            Err(stopped) => return Err(stopped),
        }
        progress.done(until, runs);
        from = until;
    }
    Ok(rows)
}
