//! A replay as a schedule, and as a table of its requests.

ghost use Rattle.std.specs.Prelude.{◌≡◌, ◌≤◌, IfOk, IfErr, length};
ghost use Rattle.edd_commands.specs.declared.TheConstants.{MAX_COMMANDS};
ghost use Rattle.blk_capture.specs.Requests.{AreTimed};
ghost use Rattle.blk_records.specs.Schedule.{IsScheduleView, viewed};
ghost use Rattle.blk_replay.specs.Requests.{AreRounds};
ghost use Rattle.blk_schedulers.specs.Made.{IsSchedFault};
ghost use Rattle.blk_replayed.specs.Shown.{IsReplaySchedule, IsReplayScheduleText, moved_to, AreMoved, IsReplayTableIn, IsReplayTableText};

use crate::serving::rounds_under;
use blk_capture::{CapturedRequest, rows_of};
use blk_capture_text::{schedule_of, table_text};
use blk_records::{Schedule, schedule_text};
use blk_schedulers::{Plan, SchedFault};
use std::alloc::{AllocError, Global};

/// A replay as a schedule: the commands are those that an import has of the same requests, and their rounds those of the replay.
#[tactic(auto, using(crate::proofs::Scheduled::ran_so))]
fn replayed(alloc: Global, plan: Plan, requests: &[CapturedRequest]) -> Result<Schedule, SchedFault>
    requires timed { AreTimed requests.now }
    requires few { length requests.now ≤ MAX_COMMANDS }
    ensures schedule { IfOk result (λ s. IsReplaySchedule plan requests.now (viewed s)) }
    ensures rounds { IfOk result (λ s. AreRounds (length requests.now) s.rounds.items) }
    ensures unmade { IfErr result (IsSchedFault plan.sched) }
{
    let Ok(captured) = schedule_of(alloc, requests) else {
        return Err(SchedFault::Memory);
    };
    let rounds = match rounds_under(alloc, plan, requests, captured.commands.as_slice()) {
        Ok(rounds) => rounds,
        Err(fault) => return Err(fault),
    };
    Ok(Schedule {
        depth: captured.depth,
        commands: captured.commands,
        rounds,
    })
}

/// The text of a replay as a schedule, in the form that `import` writes. Refused where the scheduler isn't made of its settings, or as `Memory`.
pub fn replay_schedule_text(
    alloc: Global,
    plan: Plan,
    requests: &[CapturedRequest],
) -> Result<Vec<u8>, SchedFault>
    requires timed { AreTimed requests.now }
    requires few { length requests.now ≤ MAX_COMMANDS }
    ensures text { IfOk result (λ text. IsReplayScheduleText plan requests.now text.items) }
    ensures unmade { IfErr result (IsSchedFault plan.sched) }
{
    let schedule = match replayed(alloc, plan, requests) {
        Ok(schedule) => schedule,
        Err(fault) => return Err(fault),
    };
    match schedule_text(alloc, &schedule) {
        Ok(text) => Ok(text),
        Err(_) => Err(SchedFault::Memory),
    }
}

/// A request that goes out at another time.
fn moved_to(request: &CapturedRequest, time: u64) -> CapturedRequest
    ensures { result ≡ moved_to time request.now }
{
    CapturedRequest {
        dispatched: time,
        ..*request
    }
}

/// Requests, each going out with the dispatch of its round.
fn moved(
    alloc: Global,
    requests: &[CapturedRequest],
    rounds: &[u64],
) -> Result<Vec<CapturedRequest>, AllocError>
    requires each { length rounds.now ≡ length requests.now }
    requires range { AreRounds (length requests.now) rounds.now }
    ensures { IfOk result (λ v. AreMoved requests.now rounds.now v.items) }
{
    let mut all = Vec::with_capacity(alloc, requests.len())?;
    for (place, request) in requests.iter().enumerate() {
        let round = rounds[place];
        let time = requests[round as usize - 1].dispatched;
        all.push(moved_to(request, time))?;
    }
    Ok(all)
}

/// The table of requests that go out in these rounds.
fn table_in(
    alloc: Global,
    begin: u64,
    requests: &[CapturedRequest],
    rounds: &[u64],
) -> Result<Vec<u8>, AllocError>
    requires each { length rounds.now ≡ length requests.now }
    requires range { AreRounds (length requests.now) rounds.now }
    ensures { IfOk result (λ text. IsReplayTableIn begin requests.now rounds.now text.items) }
{
    let all = moved(alloc, requests, rounds)?;
    let rows = rows_of(alloc, all.as_slice(), begin)?;
    table_text(alloc, rows.as_slice())
}

/// The table of the requests of a replay, as that of an import, with the times of their dispatches in the replay, from `begin` on; when they were
/// completed is as captured. Refused where the scheduler isn't made of its settings, or as `Memory`.
pub fn replay_table_text(
    alloc: Global,
    plan: Plan,
    begin: u64,
    requests: &[CapturedRequest],
) -> Result<Vec<u8>, SchedFault>
    requires timed { AreTimed requests.now }
    requires few { length requests.now ≤ MAX_COMMANDS }
    ensures text { IfOk result (λ text. IsReplayTableText plan begin requests.now text.items) }
    ensures unmade { IfErr result (IsSchedFault plan.sched) }
{
    let schedule = match replayed(alloc, plan, requests) {
        Ok(schedule) => schedule,
        Err(fault) => return Err(fault),
    };
    match table_in(alloc, begin, requests, schedule.rounds.as_slice()) {
        Ok(text) => Ok(text),
        Err(_) => Err(SchedFault::Memory),
    }
}
