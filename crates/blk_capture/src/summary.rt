//! A capture in numbers.

ghost use Rattle.std.specs.Prelude.{◌≡◌, ◌≤◌, ◌<◌, ◌^◌, ℕ, IfOk, count_by, length, nat_le};
ghost use Rattle.std.specs.List.{filter_map};
ghost use Rattle.std.specs.List.Sorted.{IsNonDecreasingBy};
ghost use Rattle.blk_capture.specs.Requests.{AreTimed};
ghost use Rattle.blk_capture.specs.Summaries.{is_dispatched, time_in, at_percent, percentiles_of, ArePercentiles, in_flight_at, back_by, out_by};
ghost use Rattle.blk_capture.specs.Matched.{IsSummaryOf};
ghost use Rattle.blk_capture.specs.Inside.Figures.{AreFiguresOf};

use crate::fates::tally_of;
use crate::figures::Figures;
use crate::record::{Action, Record};
use crate::requests::{CapturedBio, CapturedRequest, Matched};
use std::alloc::{AllocError, Allocator};

/// The most records of a capture that is put in numbers as it is read, and the most requests that are.
pub const MAX_STREAMED: usize = 1 << 40;

/// A phase of a request's way, of those that `btt` tells apart.
#[derive(Clone, Copy, Debug, PartialEq, Eq)]
pub enum Phase {
    /// Q to G: from the queueing of its first bio until it was opened, mostly waiting for a tag.
    Tag,
    /// I to D: from its insertion until its last dispatch, in the scheduler.
    Scheduler,
    /// D to C: from its last dispatch until it was completed, at the device.
    Device,
}

/// How many numbers there are, and their percentiles by nearest rank, each one of them. Without numbers there are none.
#[derive(Clone, Copy, Debug, PartialEq, Eq)]
pub struct Percentiles {
    /// How many numbers there are.
    pub count: u64,
    /// The median: half of the numbers are no greater.
    pub p50: Option<u64>,
    /// 99 of 100 numbers are no greater.
    pub p99: Option<u64>,
    /// The greatest number.
    pub max: Option<u64>,
}

/// A capture in numbers: how many records it has, and figures of the requests that are taken.
#[derive(Clone, Copy, Debug, PartialEq, Eq)]
pub struct Summary {
    /// How many records there are.
    pub records: u64,
    /// How many bios went out.
    pub bios: u64,
    /// How many requests went out.
    pub requests: u64,
    /// How many records of a merge, M and F, there are.
    pub merges: u64,
    /// How many reads went out after their deadline, by the clock.
    pub late_reads: u64,
    /// How many writes did.
    pub late_writes: u64,
    /// The times from Q to G, in the unit of the records' times.
    pub tag: Percentiles,
    /// From I to D, of requests that were inserted.
    pub scheduler: Percentiles,
    /// From D to C, of requests that were completed.
    pub device: Percentiles,
    /// The most that were at the device when a request went out, itself counted.
    pub in_flight: u64,
}

/// How many of the bios went out with a request that is taken.
fn count_gone(bios: &[CapturedBio]) -> u64
    ensures { result ≡ count_by is_dispatched bios.now }
{
    let mut count = 0;
    for bio in bios {
        if bio.request.is_some() {
            count += 1;
        }
    }
    count
}

/// How long a phase of a request took, if both ends are known.
pub(crate) fn time_in(phase: Phase, request: &CapturedRequest) -> Option<u64>
    ensures { result ≡ time_in phase request.now }
{
    match phase {
        Phase::Tag => Some(request.got.saturating_sub(request.queued)),
        Phase::Scheduler => match request.inserted {
            Some(inserted) => Some(request.dispatched.saturating_sub(inserted)),
            None => None,
        },
        Phase::Device => match request.completed {
            Some(completed) => Some(completed.saturating_sub(request.dispatched)),
            None => None,
        },
    }
}

/// The number at the nearest rank of `percent`.
fn at_percent(sorted: &[u64], percent: usize) -> Option<u64>
    requires few { length sorted.now ≤ MAX_STREAMED }
    requires part { percent ≤ 100 }
    ensures { result ≡ at_percent percent sorted.now }
{
    let rank = (percent * sorted.len() + 99) / 100;
    sorted.get(rank.saturating_sub(1)).copied()
}

/// The percentiles of numbers in their order.
fn of_sorted(sorted: &[u64]) -> Percentiles
    requires { length sorted.now ≤ MAX_STREAMED }
    ensures { result ≡ percentiles_of sorted.now }
{
    Percentiles {
        count: sorted.len() as u64,
        p50: at_percent(sorted, 50),
        p99: at_percent(sorted, 99),
        max: at_percent(sorted, 100),
    }
}

/// The percentiles of numbers, which it puts in order.
pub(crate) fn percentiles_of(values: &mut [u64]) -> Percentiles
    requires { length values.old ≤ MAX_STREAMED }
    ensures { ArePercentiles values.old result }
{
    values.sort_unstable();
    of_sorted(values)
}

/// Puts the times in order at which requests were completed.
fn put_in_order(requests: &[CapturedRequest], times: &mut [u64])
    requires { times.old ≡ filter_map (λ q. q.completed) requests.now }
    ensures len { length times.new ≡ length times.old }
    ensures rising { IsNonDecreasingBy (λ x. x) times.new }
    ensures counted { (t : ℕ) → count_by (λ x. nat_le x t) times.new ≡ count_by (back_by t) requests.now }
{
    // `requests` only tells the clauses whose times these are
    let _ = requests;
    times.sort_unstable();
}

/// When the completed ones of the requests were completed.
fn completions<A: Allocator>(
    alloc: A,
    requests: &[CapturedRequest],
) -> Result<Vec<u64, A>, AllocError>
    ensures { IfOk result (λ v. v.items ≡ filter_map (λ q. q.completed) requests.now) }
{
    requests
        .iter()
        .filter_map(|request| request.completed)
        .collect(alloc)
}

/// When the completed ones of the requests were completed, in order, as [`in_flight_at`] takes it. Fails only when out of memory. The time
/// grows as n log n.
pub fn completions_of<A: Allocator>(
    alloc: A,
    requests: &[CapturedRequest],
) -> Result<Vec<u64, A>, AllocError>
    ensures rising { IfOk result (λ v. IsNonDecreasingBy (λ x. x) v.items) }
    ensures counted { IfOk result (λ v. (t : ℕ) → count_by (λ x. nat_le x t) v.items ≡ count_by (back_by t) requests.now) }
{
    let mut times = completions(alloc, requests)?;
    put_in_order(requests, times.as_mut_slice());
    Ok(times)
}

/// How many of the requests went out by a time. It is found by halves.
fn count_out(requests: &[CapturedRequest], time: u64) -> usize
    requires { AreTimed requests.now }
    ensures { result ≡ count_by (out_by time) requests.now }
{
    requests.partition_point(|request| request.dispatched <= time)
}

/// How many of the times, in their order, are no later than one. It is found by halves.
pub(crate) fn count_upto(times: &[u64], time: u64) -> usize
    requires { IsNonDecreasingBy (λ x. x) times.now }
    ensures { result ≡ count_by (λ x. nat_le x time) times.now }
{
    times.partition_point(|other| *other <= time)
}

/// How many of the requests were at the device at a time: they went out by then, and weren't completed. `completions` are those of
/// [`completions_of`]. It is found by halves.
pub fn in_flight_at(requests: &[CapturedRequest], completions: &[u64], time: u64) -> u64
    requires timed { AreTimed requests.now }
    requires sorted { IsNonDecreasingBy (λ x. x) completions.now }
    requires counted { (t : ℕ) → count_by (λ x. nat_le x t) completions.now ≡ count_by (back_by t) requests.now }
    ensures value { result ≡ in_flight_at requests.now time }
    ensures few { result < 2 ^ 63 }
{
    let out = count_out(requests, time);
    let back = count_upto(completions, time);
    (out - back) as u64
}

/// The figures of requests that went out.
fn figures_of<A: Allocator + Clone>(
    alloc: A,
    requests: &[CapturedRequest],
) -> Result<Figures<A>, AllocError>
    ensures { IfOk result (AreFiguresOf requests.now) }
{
    let mut figures = Figures::new(alloc)?;
    for request in requests {
        figures.add(request)?;
    }
    Ok(figures)
}

/// The capture in numbers. At most [`MAX_STREAMED`] requests. Fails only when out of memory. The time grows as n log n.
pub fn summarize<A: Allocator + Clone>(
    alloc: A,
    records: &[Record],
    matched: &Matched<A>,
) -> Result<Summary, AllocError>
    requires timed { AreTimed matched.now.requests.items }
    requires few { length matched.now.requests.items ≤ MAX_STREAMED }
    requires fates { length matched.now.fates.items ≡ length records.now }
    ensures { IfOk result (IsSummaryOf records.now matched.now) }
{
    let fates = matched.fates.as_slice();
    let back = tally_of(records, fates, Action::BackMerge);
    let front = tally_of(records, fates, Action::FrontMerge);
    let bios = count_gone(matched.bios.as_slice());
    let figures = figures_of(alloc, matched.requests.as_slice())?;
    Ok(figures.summary(records.len() as u64, bios, back.taken + front.taken))
}
