//! A capture as a whole: how many requests, how long, and how many were late by how much.

ghost use Rattle.std.specs.Prelude.{◌≡◌, ◌≤◌, ◌↔◌, [], IfOk, IfSome, IsNone, count_by, length, map};
ghost use Rattle.std.specs.List.{filter_map};
ghost use Rattle.edd_commands.specs.declared.TheConstants.{MAX_COMMANDS};
ghost use Rattle.blk_capture.specs.Requests.{AreTimed};
ghost use Rattle.blk_capture.specs.Summaries.{is_late_request};
ghost use Rattle.blk_capture.specs.Summaries.{ArePercentiles};
ghost use Rattle.blk_blame.specs.Clock.{overrun_of, overruns_of};
ghost use Rattle.blk_blame.specs.Totals.{IsLeastOf, span_after, AreTotals};

use crate::percentiles::percentiles_of;
use crate::stages::stage_share;
use crate::waited::waited_of;
use blk_bio::Dir;
use blk_capture::{CapturedRequest, Percentiles};
use std::alloc::{AllocError, Global};

/// A capture as a whole. Times are in nanoseconds.
#[derive(Clone, Copy, Debug, PartialEq, Eq)]
pub struct Totals {
    /// How many requests there are.
    pub requests: u64,
    /// How long it is from when the first of them came in to the last dispatch, 0 where there are none.
    pub span: u64,
    /// In how many thousandths of that at least one request waited: it had come in, and had not gone out; none where that is no time.
    pub waited: Option<u64>,
    /// How many reads went out after their deadlines.
    pub late_reads: u64,
    /// How many writes did.
    pub late_writes: u64,
    /// How long after their deadlines the late ones went out.
    pub overrun: Percentiles,
}

/// Whether a request goes that way, and went out after its deadline.
fn is_late(request: &CapturedRequest, dir: Dir) -> bool
    ensures { result ≡ is_late_request dir request.now }
{
    request.dir == dir && request.deadline < request.dispatched
}

/// How many of the requests of a direction did.
fn count_late(requests: &[CapturedRequest], dir: Dir) -> u64
    ensures { result ≡ count_by (is_late_request dir) requests.now }
{
    requests
        .iter()
        .filter(|request| is_late(request, dir))
        .count() as u64
}

/// When the requests came in.
fn entries(alloc: Global, requests: &[CapturedRequest]) -> Result<Vec<u64>, AllocError>
    ensures { IfOk result (λ v. v.items ≡ map (λ q. q.entry) requests.now) }
{
    requests.iter().map(|request| request.entry).collect(alloc)
}

/// The least of these times.
fn least_of(times: &[u64]) -> Option<u64>
    ensures none { IsNone result ↔ (times.now ≡ []) }
    ensures some { IfSome result (IsLeastOf times.now) }
{
    let least = times.iter().copied().min()?;
    Some(least)
}

/// How long it is from a time to the last dispatch.
fn span_after(first: Option<u64>, requests: &[CapturedRequest]) -> u64
    ensures { result ≡ span_after first requests.now }
{
    match first {
        None => 0,
        Some(first) => match requests.last() {
            None => 0,
            Some(last) => last.dispatched.saturating_sub(first),
        },
    }
}

/// By how much a request was late, if it was.
pub(crate) fn overrun_of(request: &CapturedRequest) -> Option<u64>
    ensures { result ≡ overrun_of request.now }
{
    if request.deadline < request.dispatched {
        Some(request.dispatched - request.deadline)
    } else {
        None
    }
}

/// By how much the late ones were.
fn overruns(alloc: Global, requests: &[CapturedRequest]) -> Result<Vec<u64>, AllocError>
    ensures { IfOk result (λ v. v.items ≡ overruns_of requests.now) }
{
    requests
        .iter()
        .filter_map(|request| overrun_of(request))
        .collect(alloc)
}

/// The percentiles of that.
#[tactic(auto, using(crate::proofs::Few::few_overruns))]
fn overrun(alloc: Global, requests: &[CapturedRequest]) -> Result<Percentiles, AllocError>
    requires { length requests.now ≤ MAX_COMMANDS }
    ensures { IfOk result (ArePercentiles (overruns_of requests.now)) }
{
    let mut values = overruns(alloc, requests)?;
    Ok(percentiles_of(values.as_mut_slice()))
}

/// The capture of these requests as a whole. They are as [`blk_capture::match_records`] gives them, at most [`edd_commands::MAX_COMMANDS`] of
/// them. Fails only when out of memory. The time grows as n log n.
pub fn totals_of(alloc: Global, requests: &[CapturedRequest]) -> Result<Totals, AllocError>
    requires timed { AreTimed requests.now }
    requires few { length requests.now ≤ MAX_COMMANDS }
    ensures { IfOk result (AreTotals requests.now) }
{
    let entries = entries(alloc, requests)?;
    let span = span_after(least_of(entries.as_slice()), requests);
    Ok(Totals {
        requests: requests.len() as u64,
        span,
        waited: stage_share(waited_of(requests) as u128, span as u128),
        late_reads: count_late(requests, Dir::Read),
        late_writes: count_late(requests, Dir::Write),
        overrun: overrun(alloc, requests)?,
    })
}
