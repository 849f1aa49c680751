//! The job over a schedule: what is said about it, as a whole or of each of its late commands.

ghost use Rattle.std.specs.Prelude.{◌≡◌, IfOk, IfErr, is_some, option_map};
ghost use Rattle.edd_commands.specs.Capacity.{fixed};
ghost use Rattle.blk_records.specs.Schedule.{IsScheduleView, viewed, SpellsSchedule, ScheduleFault};
ghost use Rattle.blk_cli.specs.Inputs.{Of, FailsOver};
ghost use Rattle.blk_cli.specs.Judging.{IsWholeText, IsEachText, IsJudgedText, IsJudgeFailure, has_no_commands, TellsEmpty};
ghost use Rattle.blk_cli.specs.Said.{said_of};

use crate::Answered;
use crate::failure::Failure;
use answer::lines;
use blk_judge::{judge, judged_answer, late_of, missed_answer};
use blk_records::{Records, Schedule, read_schedule};
use edd_commands::Capacity;
use std::alloc::{AllocError, Global};
use std::io::Read;

/// The line on a schedule without commands.
const EMPTY: &[u8] = b"blk: the schedule has no commands\n";

/// The text about a schedule as a whole.
fn whole(
    alloc: Global,
    schedule: &Schedule,
    capacity: &Capacity<Global>,
) -> Result<Vec<u8>, Failure>
    requires ran { IsScheduleView (viewed schedule.now) }
    requires capacity { capacity.now ≡ fixed schedule.now.depth }
    ensures text { IfOk result (λ text. IsWholeText (viewed schedule.now) text.items) }
    ensures fails { IfErr result (IsJudgeFailure (viewed schedule.now)) }
{
    let commands = schedule.commands.as_slice();
    let rounds = schedule.rounds.as_slice();
    let judged = match judge(alloc, commands, rounds, capacity) {
        Ok(judged) => judged,
        Err(fault) => return Err(Failure::Check(fault)),
    };
    let Ok(answer) = judged_answer(alloc, &judged) else {
        return Err(Failure::Memory);
    };
    match lines(alloc, &answer) {
        Ok(text) => Ok(text),
        Err(_) => Err(Failure::Memory),
    }
}

/// The text of its late commands.
fn each_late(
    alloc: Global,
    schedule: &Schedule,
    capacity: &Capacity<Global>,
) -> Result<Vec<u8>, Failure>
    requires ran { IsScheduleView (viewed schedule.now) }
    requires capacity { capacity.now ≡ fixed schedule.now.depth }
    ensures text { IfOk result (λ text. IsEachText (viewed schedule.now) text.items) }
    ensures fails { IfErr result (IsJudgeFailure (viewed schedule.now)) }
{
    let commands = schedule.commands.as_slice();
    let rounds = schedule.rounds.as_slice();
    let misses = match late_of(alloc, commands, rounds, capacity) {
        Ok(misses) => misses,
        Err(fault) => return Err(Failure::Check(fault)),
    };
    let Ok(answer) = missed_answer(alloc, misses.as_slice()) else {
        return Err(Failure::Memory);
    };
    match lines(alloc, &answer) {
        Ok(text) => Ok(text),
        Err(_) => Err(Failure::Memory),
    }
}

/// The text that is asked for.
fn judged(alloc: Global, each: bool, schedule: &Schedule) -> Result<Vec<u8>, Failure>
    requires { IsScheduleView (viewed schedule.now) }
    ensures text { IfOk result (λ text. IsJudgedText each (viewed schedule.now) text.items) }
    ensures fails { IfErr result (IsJudgeFailure (viewed schedule.now)) }
{
    let Ok(capacity) = Capacity::fixed(alloc, schedule.depth) else {
        return Err(Failure::Memory);
    };
    if each {
        each_late(alloc, schedule, &capacity)
    } else {
        whole(alloc, schedule, &capacity)
    }
}

/// The line on a schedule without commands, of which all numbers are 0.
fn empty_note(alloc: Global, schedule: &Schedule) -> Result<Option<Vec<u8>>, AllocError>
    ensures { IfOk result (λ note. is_some (option_map (λ line. line.items) note) ≡ has_no_commands (viewed schedule.now)) }
{
    if schedule.commands.is_empty() {
        let line = EMPTY.to_vec(alloc)?;
        Ok(Some(line))
    } else {
        Ok(None)
    }
}

/// What is answered to a schedule.
fn judge_answer(alloc: Global, each: bool, schedule: &Schedule) -> Result<Answered, Failure>
    requires { IsScheduleView (viewed schedule.now) }
    ensures text { IfOk result (λ a. IsJudgedText each (viewed schedule.now) (said_of a).text) }
    ensures beside { IfOk result (λ a. TellsEmpty (viewed schedule.now) (said_of a)) }
    ensures fails { IfErr result (IsJudgeFailure (viewed schedule.now)) }
{
    let text = match judged(alloc, each, schedule) {
        Ok(text) => text,
        Err(failure) => return Err(failure),
    };
    match empty_note(alloc, schedule) {
        Ok(note) => Ok(Answered {
            text,
            note,
            good: true,
        }),
        Err(_) => Err(Failure::Memory),
    }
}

/// Reads a schedule, and gives what is said about it, as a whole or of each of its late commands.
pub fn over_schedule<R: Read + Drop>(
    alloc: Global,
    each: bool,
    records: &mut Records<R>,
) -> Result<Answered, Failure>
    requires { records.old.at ≡ 0 }
    ensures text { IfOk result (λ a. Of SpellsSchedule (IsJudgedText each) records.old.left (said_of a).text) }
    ensures beside { IfOk result (λ a. Of SpellsSchedule TellsEmpty records.old.left (said_of a)) }
    ensures fails { IfErr result (FailsOver SpellsSchedule ScheduleFault IsJudgeFailure records.old.left records.new.failed) }
{
    let schedule = match read_schedule(alloc, records) {
        Ok(schedule) => schedule,
        Err(fault) => return Err(Failure::Text(fault)),
    };
    judge_answer(alloc, each, &schedule)
}
