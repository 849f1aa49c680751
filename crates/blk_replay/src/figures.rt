//! What came of requests by the clock.

ghost use Rattle.std.specs.Prelude.{◌≡◌, ◌≤◌, ◌+◌, ◌<◌, IfOk, count_by, length, map, max, fold};
ghost use Rattle.std.specs.List.{filter};
ghost use Rattle.edd_commands.specs.declared.TheConstants.{MAX_COMMANDS};
ghost use Rattle.blk_capture.specs.Summaries.{at_percent, ArePercentiles, goes};
ghost use Rattle.blk_replay.specs.Requests.{AreRounds};
ghost use Rattle.blk_replay.specs.Figures.{outcome_of, AreOutcomes, went_late, greatest_of, waits_by_clock, AreClockFigures};

use blk_bio::Dir;
use blk_capture::{CapturedRequest, Percentiles};
use std::alloc::{AllocError, Allocator};

/// What came of a request. Times are in nanoseconds.
#[derive(Clone, Copy, Debug, PartialEq, Eq)]
pub struct Outcome {
    /// Which way its data goes.
    pub dir: Dir,
    /// How long after its entry it went out.
    pub wait: u64,
    /// How long after its deadline, 0 where it was on time.
    pub late_by: u64,
}

/// What came of requests. Times are in nanoseconds.
#[derive(Clone, Copy, Debug, PartialEq, Eq)]
pub struct ClockFigures {
    /// How many reads were late.
    pub late_reads: u64,
    /// How many writes were late.
    pub late_writes: u64,
    /// How late the latest was, 0 where none was.
    pub greatest: u64,
    /// How long reads waited, from their entries.
    pub reads: Percentiles,
    /// How long writes waited.
    pub writes: Percentiles,
}

/// What came of a request that went out at a time.
fn outcome_of(request: &CapturedRequest, time: u64) -> Outcome
    ensures { result ≡ outcome_of request.now time }
{
    Outcome {
        dir: request.dir,
        wait: time.saturating_sub(request.entry),
        late_by: time.saturating_sub(request.deadline),
    }
}

/// What came of each request, which went out with the dispatch of its round.
fn outcomes<A: Allocator>(
    alloc: A,
    requests: &[CapturedRequest],
    rounds: &[u64],
) -> Result<Vec<Outcome, A>, AllocError>
    requires each { length rounds.now ≡ length requests.now }
    requires range { AreRounds (length requests.now) rounds.now }
    ensures { IfOk result (λ v. AreOutcomes requests.now rounds.now v.items) }
{
    let mut all = Vec::with_capacity(alloc, requests.len())?;
    for (place, request) in requests.iter().enumerate() {
        let round = rounds[place];
        let time = requests[round as usize - 1].dispatched;
        all.push(outcome_of(request, time))?;
    }
    Ok(all)
}

/// How many of a direction were late.
fn late_of(outcomes: &[Outcome], dir: Dir) -> u64
    ensures { result ≡ count_by (went_late dir) outcomes.now }
{
    outcomes
        .iter()
        .filter(|outcome| outcome.dir == dir && outcome.late_by > 0)
        .count() as u64
}

/// How late the latest was.
fn greatest_of(outcomes: &[Outcome]) -> u64
    ensures { result ≡ greatest_of outcomes.now }
{
    let mut greatest = 0;
    for outcome in outcomes {
        greatest = outcome.late_by.max(greatest);
    }
    greatest
}

/// How long those of a direction waited.
fn waits_of<A: Allocator>(
    alloc: A,
    outcomes: &[Outcome],
    dir: Dir,
) -> Result<Vec<u64, A>, AllocError>
    ensures { IfOk result (λ v. v.items ≡ waits_by_clock dir outcomes.now) }
{
    outcomes
        .iter()
        .filter(|outcome| outcome.dir == dir)
        .map(|outcome| outcome.wait)
        .collect(alloc)
}

/// The number at the nearest rank of `percent` of sorted numbers.
fn at_percent(sorted: &[u64], percent: usize) -> Option<u64>
    requires few { length sorted.now ≤ MAX_COMMANDS }
    requires part { percent ≤ 100 }
    ensures { result ≡ at_percent percent sorted.now }
{
    let rank = (percent * sorted.len() + 99) / 100;
    sorted.get(rank.saturating_sub(1)).copied()
}

/// The percentiles of numbers, which it puts in order.
fn percentiles_of(values: &mut [u64]) -> Percentiles
    requires { length values.old ≤ MAX_COMMANDS }
    ensures { ArePercentiles values.old result }
{
    values.sort_unstable();
    Percentiles {
        count: values.len() as u64,
        p50: at_percent(values, 50),
        p99: at_percent(values, 99),
        max: at_percent(values, 100),
    }
}

/// The percentiles of the waits of a direction.
#[tactic(auto, using(crate::proofs::Outcomes::few_waits))]
fn percentiles_in<A: Allocator>(
    alloc: A,
    outcomes: &[Outcome],
    dir: Dir,
) -> Result<Percentiles, AllocError>
    requires { length outcomes.now ≤ MAX_COMMANDS }
    ensures { IfOk result (ArePercentiles (waits_by_clock dir outcomes.now)) }
{
    let mut values = waits_of(alloc, outcomes, dir)?;
    Ok(percentiles_of(values.as_mut_slice()))
}

/// What came of requests that went out in these rounds, each with the dispatch of its own. Fails only when memory runs out. The time grows as
/// n log n.
pub fn figures_of<A: Allocator + Clone>(
    alloc: A,
    requests: &[CapturedRequest],
    rounds: &[u64],
) -> Result<ClockFigures, AllocError>
    requires few { length requests.now ≤ MAX_COMMANDS }
    requires each { length rounds.now ≡ length requests.now }
    requires range { AreRounds (length requests.now) rounds.now }
    ensures { IfOk result (AreClockFigures requests.now rounds.now) }
{
    let all = outcomes(alloc.clone()?, requests, rounds)?;
    let told = all.as_slice();
    let reads = percentiles_in(alloc.clone()?, told, Dir::Read)?;
    let writes = percentiles_in(alloc, told, Dir::Write)?;
    Ok(ClockFigures {
        late_reads: late_of(told, Dir::Read),
        late_writes: late_of(told, Dir::Write),
        greatest: greatest_of(told),
        reads,
        writes,
    })
}
