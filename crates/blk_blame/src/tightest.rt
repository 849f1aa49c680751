//! The least time after which the requests of a direction are due, so that few enough of them are late.

ghost use Rattle.std.specs.Prelude.{ℕ, ◌≡◌, ◌≤◌, ◌<◌, IfOk, count_by, length, map};
ghost use Rattle.edd_commands.specs.declared.TheConstants.{MAX_COMMANDS};
ghost use Rattle.edd_oracle.specs.Input.{IsTaken};
ghost use Rattle.blk_capture.specs.Requests.{AreTimed};
ghost use Rattle.blk_capture.specs.Summaries.{goes};
ghost use Rattle.blk_blame.specs.Tightest.{due_after, timed_after, marks_of, allowed_of, IsFewestOf, IsFewestAfter, IsLateEnough, IsLateEnoughOrShort, IsTightest, IsTightestOrNone};

use blk_bio::Dir;
use blk_capture::{CapturedRequest, TimedRequest, count_rounds};
use edd_blame::{least_late_beside, least_late_marked};
use edd_commands::{Capacity, Command};
use std::alloc::{AllocError, Global};

/// What becomes of the requests of the other direction.
#[derive(Clone, Copy, Debug, PartialEq, Eq)]
pub enum OtherDirection {
    /// As few of them are late as in any order.
    Best,
    /// Whatever may.
    Any,
}

/// How many requests of which direction are to be on time.
#[derive(Clone, Copy, Debug, PartialEq, Eq)]
pub struct OnTimeTarget {
    /// The direction.
    pub dir: Dir,
    /// How long after they came in these were due, in nanoseconds, so that their deadlines are so much later.
    pub expire: u64,
    /// How many thousandths of them are to be on time at least, 0 to 1,000.
    pub share: u64,
}

/// Whether a request goes that way.
fn goes(request: &CapturedRequest, dir: Dir) -> bool
    ensures { result ≡ goes request.now.dir dir }
{
    request.dir == dir
}

/// When a request is due where those of the direction are due `own` nanoseconds after they came in.
fn due_after(aim: OnTimeTarget, own: u64, request: &CapturedRequest) -> u64
    ensures { result ≡ due_after aim own request.now }
{
    if goes(request, aim.dir) {
        request
            .deadline
            .saturating_sub(aim.expire)
            .saturating_add(own)
    } else {
        request.deadline
    }
}

/// The times of a request then.
fn timed_after(aim: OnTimeTarget, own: u64, request: &CapturedRequest) -> TimedRequest
    ensures { result ≡ timed_after aim own request.now }
{
    TimedRequest {
        release: request.released,
        deadline: due_after(aim, own, request),
        dispatch: request.dispatched,
    }
}

/// The times of the requests then.
fn all_timed(
    alloc: Global,
    requests: &[CapturedRequest],
    aim: OnTimeTarget,
    own: u64,
) -> Result<Vec<TimedRequest>, AllocError>
    ensures { IfOk result (λ v. v.items ≡ map (timed_after aim own) requests.now) }
{
    requests
        .iter()
        .map(|request| timed_after(aim, own, request))
        .collect(alloc)
}

/// Which of the requests go that way.
fn marks_of(alloc: Global, requests: &[CapturedRequest], dir: Dir) -> Result<Vec<bool>, AllocError>
    ensures { IfOk result (λ v. v.items ≡ marks_of dir requests.now) }
{
    requests
        .iter()
        .map(|request| goes(request, dir))
        .collect(alloc)
}

/// How many do.
pub(crate) fn count_of(requests: &[CapturedRequest], dir: Dir) -> u64
    ensures value { result ≡ count_by (λ q. goes q.dir dir) requests.now }
    ensures few { result ≤ length requests.now }
{
    requests.iter().filter(|request| goes(request, dir)).count() as u64
}

/// How many of them may be late.
pub(crate) fn allowed_of(requests: &[CapturedRequest], aim: OnTimeTarget) -> u64
    requires { length requests.now ≤ MAX_COMMANDS }
    ensures { result ≡ allowed_of requests.now aim }
{
    let left = 1_000_u64.saturating_sub(aim.share);
    left * count_of(requests, aim.dir) / 1_000
}

/// The fewest late ones of the marked commands.
fn fewest_of(
    alloc: Global,
    commands: &[Command],
    marks: &[bool],
    others: OtherDirection,
) -> Result<u64, AllocError>
    requires taken { IsTaken commands.now }
    requires one_each { length marks.now ≡ length commands.now }
    ensures { IfOk result (IsFewestOf others commands.now marks.now) }
{
    let capacity = Capacity::fixed(alloc, 1)?;
    match others {
        OtherDirection::Best => least_late_beside(alloc, commands, &capacity, marks),
        OtherDirection::Any => least_late_marked(alloc, commands, &capacity, marks),
    }
}

/// The fewest late ones of the marked requests, those of the direction, where they are due `own` nanoseconds after they came in.
fn fewest_after(
    alloc: Global,
    requests: &[CapturedRequest],
    marks: &[bool],
    aim: OnTimeTarget,
    others: OtherDirection,
    own: u64,
) -> Result<u64, AllocError>
    requires timed { AreTimed requests.now }
    requires few { length requests.now ≤ MAX_COMMANDS }
    requires marked { marks.now ≡ marks_of aim.dir requests.now }
    ensures { IfOk result (IsFewestAfter requests.now aim others own) }
{
    let timed = all_timed(alloc, requests, aim, own)?;
    let counted = count_rounds(alloc, timed.as_slice())?;
    let fewest = fewest_of(alloc, counted.commands.as_slice(), marks, others)?;
    Ok(fewest)
}

/// Whether no more of them are late than may be.
fn is_enough(
    alloc: Global,
    requests: &[CapturedRequest],
    marks: &[bool],
    aim: OnTimeTarget,
    others: OtherDirection,
    own: u64,
) -> Result<bool, AllocError>
    requires timed { AreTimed requests.now }
    requires few { length requests.now ≤ MAX_COMMANDS }
    requires marked { marks.now ≡ marks_of aim.dir requests.now }
    ensures { IfOk result (IsLateEnoughOrShort requests.now aim others own) }
{
    let late = fewest_after(alloc, requests, marks, aim, others, own)?;
    if late <= allowed_of(requests, aim) {
        Ok(true)
    } else {
        Ok(false)
    }
}

/// The least time after which enough are on time, found by halves below one after which enough are.
fn least_below(
    alloc: Global,
    requests: &[CapturedRequest],
    marks: &[bool],
    aim: OnTimeTarget,
    others: OtherDirection,
    long: u64,
) -> Result<u64, AllocError>
    requires timed { AreTimed requests.now }
    requires few { length requests.now ≤ MAX_COMMANDS }
    requires marked { marks.now ≡ marks_of aim.dir requests.now }
    requires enough { IsLateEnough requests.now aim others long }
    ensures { IfOk result (IsTightest requests.now aim others) }
{
    let mut low = 0;
    let mut high = long;
    while low < high {
        let middle = low + (high - low) / 2;
        let enough = is_enough(alloc, requests, marks, aim, others, middle)?;
        if enough {
            high = middle;
        } else {
            low = middle + 1;
        }
    }
    Ok(high)
}

/// How long it is from when the first of the direction's requests came in to the last dispatch: where they are due so long after they came in, each
/// of them can go out at any dispatch. The answer is the same wherever it is looked for first.
fn longest(requests: &[CapturedRequest], aim: OnTimeTarget) -> u64 {
    let Some(last) = requests.last() else {
        return 0;
    };
    let mut longest = 0;
    for request in requests {
        let came_in = request.deadline.saturating_sub(aim.expire);
        longest = last.dispatched.saturating_sub(came_in).max(longest);
    }
    longest
}

/// The least time, in nanoseconds, so that enough of a direction's requests can be on time where each is due so long after it came in: no
/// more are late than the share leaves, in some order of the dispatches, or in some that has as few of the others late as any. None where no time
/// of 64 bits is long enough.
///
/// The requests are as [`blk_capture::match_records`] gives them, at most [`edd_commands::MAX_COMMANDS`] of them. Fails only when out of memory.
/// The time grows as n log n, once more for each halving of the longest wait, some 30 times.
pub fn tightest_of(
    alloc: Global,
    requests: &[CapturedRequest],
    aim: OnTimeTarget,
    others: OtherDirection,
) -> Result<Option<u64>, AllocError>
    requires timed { AreTimed requests.now }
    requires few { length requests.now ≤ MAX_COMMANDS }
    ensures { IfOk result (IsTightestOrNone requests.now aim others) }
{
    let marked = marks_of(alloc, requests, aim.dir)?;
    let marks = marked.as_slice();
    let long = longest(requests, aim);
    let enough = is_enough(alloc, requests, marks, aim, others, long)?;
    if enough {
        let least = least_below(alloc, requests, marks, aim, others, long)?;
        return Ok(Some(least));
    }
    let late_enough = is_enough(alloc, requests, marks, aim, others, u64::MAX)?;
    if late_enough {
        let least = least_below(alloc, requests, marks, aim, others, u64::MAX)?;
        return Ok(Some(least));
    }
    Ok(None)
}
