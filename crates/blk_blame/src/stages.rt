//! How long requests were in each stage of their way.

ghost use Rattle.std.specs.Prelude.{◌≡◌, ◌≤◌, ◌^◌, IfOk, length};
ghost use Rattle.std.specs.List.{filter_map};
ghost use Rattle.edd_commands.specs.declared.TheConstants.{MAX_COMMANDS};
ghost use Rattle.blk_capture.specs.Summaries.{ArePercentiles};
ghost use Rattle.blk_capture.specs.Summaries.{until_known};
ghost use Rattle.blk_blame.specs.Stages.{stage_time, stage_in, way_time, stage_sum, stage_share, IsStageRow, all_stages, AreStageRows};

use crate::percentiles::percentiles_of;
use blk_bio::Dir;
use blk_capture::{CapturedRequest, Percentiles};
use std::alloc::{AllocError, Global};

/// A stage of a request's way, between two of blktrace's letters.
#[derive(Clone, Copy, Debug, PartialEq, Eq)]
pub enum Stage {
    /// Q to G: from the queueing of its first bio until it was opened, mostly waiting for a tag.
    Tag,
    /// G to I: until it was inserted into the scheduler, mostly in a plug.
    Plug,
    /// I to D: until its last dispatch, in the scheduler.
    Scheduler,
    /// D to C: until it was completed, at the device.
    Device,
    /// Q to C: all of it.
    Whole,
}

/// How long the requests of a direction were in a stage, of those of which both its ends are known.
#[derive(Clone, Copy, Debug, PartialEq, Eq)]
pub struct StageRow {
    /// The stage.
    pub stage: Stage,
    /// The direction.
    pub dir: Dir,
    /// How long, in nanoseconds.
    pub times: Percentiles,
    /// How many thousandths of their whole way those were in it whose whole way is known, all together; none where that took no time.
    pub share: Option<u64>,
}

/// How long it is from a time to another, if that is known.
fn time_since(from: u64, until: Option<u64>) -> Option<u64>
    ensures { result ≡ until_known from until }
{
    match until {
        Some(until) => Some(until.saturating_sub(from)),
        None => None,
    }
}

/// How long a request was in a stage, if both its ends are known.
fn stage_time(stage: Stage, request: &CapturedRequest) -> Option<u64>
    ensures { result ≡ stage_time stage request.now }
{
    match stage {
        Stage::Tag => Some(request.got.saturating_sub(request.queued)),
        Stage::Plug => time_since(request.got, request.inserted),
        Stage::Scheduler => match request.inserted {
            Some(inserted) => Some(request.dispatched.saturating_sub(inserted)),
            None => None,
        },
        Stage::Device => time_since(request.dispatched, request.completed),
        Stage::Whole => time_since(request.queued, request.completed),
    }
}

/// The same, of one of the direction.
fn stage_in(dir: Dir, stage: Stage, request: &CapturedRequest) -> Option<u64>
    ensures { result ≡ stage_in dir stage request.now }
{
    if request.dir == dir {
        stage_time(stage, request)
    } else {
        None
    }
}

/// How long the requests of a direction were in a stage, one by one.
fn times_in(
    alloc: Global,
    requests: &[CapturedRequest],
    dir: Dir,
    stage: Stage,
) -> Result<Vec<u64>, AllocError>
    ensures { IfOk result (λ v. v.items ≡ filter_map (stage_in dir stage) requests.now) }
{
    requests
        .iter()
        .filter_map(|request| stage_in(dir, stage, request))
        .collect(alloc)
}

/// How long a request of the direction was in a stage, if its whole way is known.
fn way_time(dir: Dir, stage: Stage, request: &CapturedRequest) -> u64
    ensures { result ≡ way_time dir stage request.now }
{
    match stage_in(dir, Stage::Whole, request) {
        Some(_) => stage_in(dir, stage, request).unwrap_or(0),
        None => 0,
    }
}

/// How long those were in it, all together.
#[tactic(auto, unfolding(crate::specs::Stages::stage_sum))]
fn stage_sum(requests: &[CapturedRequest], dir: Dir, stage: Stage) -> u128
    requires { length requests.now ≤ MAX_COMMANDS }
    ensures value { result ≡ stage_sum requests.now dir stage }
    ensures small { result ≤ 2 ^ 84 }
{
    let mut sum = 0_u128;
    for request in requests {
        sum += way_time(dir, stage, request) as u128;
    }
    sum
}

/// How many thousandths of the whole a part is.
pub(crate) fn stage_share(part: u128, whole: u128) -> Option<u64>
    requires { part ≤ 2 ^ 84 }
    ensures { result ≡ stage_share part whole }
{
    if whole == 0 {
        return None;
    }
    let share = part * 1_000 / whole;
    if share <= u64::MAX as u128 {
        Some(share as u64)
    } else {
        Some(u64::MAX)
    }
}

/// How long the requests of a direction were in a stage.
#[tactic(auto, using(crate::proofs::Few::few_of))]
fn stage_row(
    alloc: Global,
    requests: &[CapturedRequest],
    dir: Dir,
    stage: Stage,
) -> Result<StageRow, AllocError>
    requires { length requests.now ≤ MAX_COMMANDS }
    ensures { IfOk result (IsStageRow requests.now dir stage) }
{
    let mut values = times_in(alloc, requests, dir, stage)?;
    let part = stage_sum(requests, dir, stage);
    let whole = stage_sum(requests, dir, Stage::Whole);
    Ok(StageRow {
        stage,
        dir,
        times: percentiles_of(values.as_mut_slice()),
        share: stage_share(part, whole),
    })
}

/// The stages, each of reads and of writes.
const ALL_STAGES: [(Stage, Dir); 10] = [
    (Stage::Tag, Dir::Read),
    (Stage::Tag, Dir::Write),
    (Stage::Plug, Dir::Read),
    (Stage::Plug, Dir::Write),
    (Stage::Scheduler, Dir::Read),
    (Stage::Scheduler, Dir::Write),
    (Stage::Device, Dir::Read),
    (Stage::Device, Dir::Write),
    (Stage::Whole, Dir::Read),
    (Stage::Whole, Dir::Write),
];

/// How long requests were in each of these stages.
fn rows_of(
    alloc: Global,
    requests: &[CapturedRequest],
    stages: &[(Stage, Dir)],
) -> Result<Vec<StageRow>, AllocError>
    requires { length requests.now ≤ MAX_COMMANDS }
    ensures { IfOk result (λ v. AreStageRows requests.now stages.now v.items) }
{
    let mut rows = Vec::with_capacity(alloc, stages.len())?;
    for pair in stages {
        let (stage, dir) = *pair;
        rows.push(stage_row(alloc, requests, dir, stage)?)?;
    }
    Ok(rows)
}

/// How long the requests were in each stage, by direction; at most [`edd_commands::MAX_COMMANDS`] of them. Fails only when out of memory. The
/// time grows as n log n.
pub fn stages_of(alloc: Global, requests: &[CapturedRequest]) -> Result<Vec<StageRow>, AllocError>
    requires { length requests.now ≤ MAX_COMMANDS }
    ensures { IfOk result (λ v. AreStageRows requests.now all_stages v.items) }
{
    rows_of(alloc, requests, &ALL_STAGES)
}
