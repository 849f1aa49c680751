//! The job that draws a schedule.

ghost use Rattle.std.specs.Prelude.{◌≡◌, IfOk, IfErr};
ghost use Rattle.edd_commands.specs.Capacity.{fixed};
ghost use Rattle.blk_records.specs.Schedule.{IsScheduleView, viewed, SpellsSchedule, ScheduleFault};
ghost use Rattle.blk_cli.specs.Drawing.{IsScheduleDrawn};
ghost use Rattle.blk_cli.specs.Inputs.{Of, FailsOver};
ghost use Rattle.blk_cli.specs.Judging.{IsJudgeFailure};

use crate::failure::Failure;
use blk_judge::schedule_picture;
use blk_records::{Records, Schedule, read_schedule};
use edd_commands::Capacity;
use std::alloc::Global;
use std::io::Read;

/// The picture of a schedule.
fn drawn(alloc: Global, schedule: &Schedule) -> Result<Vec<u8>, Failure>
    requires { IsScheduleView (viewed schedule.now) }
    ensures text { IfOk result (λ text. IsScheduleDrawn (viewed schedule.now) text.items) }
    ensures fails { IfErr result (IsJudgeFailure (viewed schedule.now)) }
{
    let Ok(capacity) = Capacity::fixed(alloc, schedule.depth) else {
        return Err(Failure::Memory);
    };
    let commands = schedule.commands.as_slice();
    let rounds = schedule.rounds.as_slice();
    match schedule_picture(alloc, commands, rounds, &capacity) {
        Ok(text) => Ok(text),
        Err(fault) => Err(Failure::Check(fault)),
    }
}

/// Reads a schedule, and gives its picture.
pub fn draw_schedule<R: Read + Drop>(
    alloc: Global,
    records: &mut Records<R>,
) -> Result<Vec<u8>, Failure>
    requires { records.old.at ≡ 0 }
    ensures text { IfOk result (λ text. Of SpellsSchedule IsScheduleDrawn records.old.left text.items) }
    ensures fails { IfErr result (FailsOver SpellsSchedule ScheduleFault IsJudgeFailure records.old.left records.new.failed) }
{
    let schedule = match read_schedule(alloc, records) {
        Ok(schedule) => schedule,
        Err(fault) => return Err(Failure::Text(fault)),
    };
    drawn(alloc, &schedule)
}
