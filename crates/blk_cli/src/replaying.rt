//! The job over a capture that replays its requests.

ghost use Rattle.std.specs.Prelude.{◌≤◌, IfOk, IfErr, length, map, string_bytes};
ghost use Rattle.edd_commands.specs.declared.TheConstants.{MAX_COMMANDS};
ghost use Rattle.blk_capture.specs.Requests.{AreInOrder, AreTimed};
ghost use Rattle.blk_cli.specs.Said.{said_of};
ghost use Rattle.blk_schedulers.specs.Made.{IsSchedFault};
ghost use Rattle.blk_replayed.specs.Replays.{AreUnreplayed};
ghost use Rattle.blk_replayed.specs.Text.{IsReplaysText};
ghost use Rattle.blk_cli.specs.Importing.{IsNotReplayed, IsMadeOf, IsReplayFailure, each_wanted, IsGridText, IsGridUnreplayed, IsOneReplayText};

use crate::Answered;
use crate::failure::Failure;
use crate::taken::take_requests;
use blk_args::{GridReplaying, Import, Replaying, ShownReplay, plans_asked};
use blk_capture::{CapturedRequest, Record};
use blk_capture_text::first_time;
use blk_replayed::{ReplaysAsked, replay_schedule_text, replay_table_text, replays_text};
use blk_schedulers::{Plan, SchedFault};
use std::alloc::Global;
use std::thread::Threads;
use turns::Progress;

/// What is written of replays under each scheduler: one after the other, so that memory is that of one.
fn each_text<T: Threads + Sync, P: Progress>(
    rt: &T,
    alloc: Global,
    replaying: &Replaying,
    requests: &[CapturedRequest],
    progress: &mut P,
) -> Result<Vec<u8>, Failure>
    requires timed { AreTimed requests.now }
    requires few { length requests.now ≤ MAX_COMMANDS }
    ensures text { IfOk result (λ text. IsReplaysText (each_wanted replaying.now) requests.now text.items) }
    ensures fails { IfErr result (IsNotReplayed (AreUnreplayed replaying.now.plans)) }
{
    let asked = ReplaysAsked {
        plans: replaying.plans.as_slice(),
        by: replaying.by,
        top: replaying.top,
        expiries: false,
        threads: Some(1),
        form: replaying.form,
    };
    match replays_text(rt, alloc, &asked, requests, progress) {
        Ok(text) => Ok(text),
        Err(fault) => Err(Failure::Sched(fault)),
    }
}

/// What is written of replays under each setting of the grid that the arguments ask for.
fn grid_text<T: Threads + Sync, P: Progress>(
    rt: &T,
    alloc: Global,
    words: &[String],
    grid: GridReplaying,
    requests: &[CapturedRequest],
    progress: &mut P,
) -> Result<Vec<u8>, Failure>
    requires timed { AreTimed requests.now }
    requires few { length requests.now ≤ MAX_COMMANDS }
    ensures text { IfOk result (λ text. IsGridText (map string_bytes words.now) grid requests.now text.items) }
    ensures fails { IfErr result (IsNotReplayed (IsGridUnreplayed (map string_bytes words.now))) }
{
    // `choose` found a grid in these arguments, so only memory can run out.
    let Ok(plans) = plans_asked(alloc, words) else {
        return Err(Failure::Memory);
    };
    let asked = ReplaysAsked {
        plans: plans.as_slice(),
        by: grid.by,
        top: grid.top,
        expiries: true,
        threads: grid.threads,
        form: grid.form,
    };
    match replays_text(rt, alloc, &asked, requests, progress) {
        Ok(text) => Ok(text),
        Err(fault) => Err(Failure::Sched(fault)),
    }
}

/// What is written of one replay.
fn text_of_one(
    alloc: Global,
    plan: Plan,
    shown: ShownReplay,
    records: &[Record],
    requests: &[CapturedRequest],
) -> Result<Vec<u8>, SchedFault>
    requires timed { AreTimed requests.now }
    requires few { length requests.now ≤ MAX_COMMANDS }
    ensures text { IfOk result (λ text. IsOneReplayText plan shown records.now requests.now text.items) }
    ensures fails { IfErr result (IsSchedFault plan.sched) }
{
    match shown {
        ShownReplay::Schedule => replay_schedule_text(alloc, plan, requests),
        ShownReplay::Table => replay_table_text(alloc, plan, first_time(records), requests),
    }
}

/// What is written of the requests of a capture, as they went and in replays, and what is said beside it, as of their schedule.
pub fn replayed<T: Threads + Sync, P: Progress>(
    rt: &T,
    alloc: Global,
    wanted: Import,
    replaying: Replaying,
    records: &[Record],
    progress: &mut P,
) -> Result<Answered, Failure>
    requires { AreInOrder records.now (length records.now) }
    ensures answers { IfOk result (λ answer. IsMadeOf (IsReplaysText (each_wanted replaying)) wanted records.now (said_of answer)) }
    ensures fails { IfErr result (IsReplayFailure (AreUnreplayed replaying.plans) wanted records.now) }
{
    let taken = match take_requests(alloc, wanted, records) {
        Ok(taken) => taken,
        Err(failure) => return Err(failure),
    };
    match each_text(rt, alloc, &replaying, taken.requests.as_slice(), progress) {
        Ok(text) => Ok(taken.beside(text)),
        Err(failure) => Err(failure),
    }
}

/// What is written of them in replays under each setting of the grid that the arguments ask for, and what is said beside it.
pub fn replayed_grid<T: Threads + Sync, P: Progress>(
    rt: &T,
    alloc: Global,
    words: &[String],
    wanted: Import,
    grid: GridReplaying,
    records: &[Record],
    progress: &mut P,
) -> Result<Answered, Failure>
    requires { AreInOrder records.now (length records.now) }
    ensures answers { IfOk result (λ answer. IsMadeOf (IsGridText (map string_bytes words.now) grid) wanted records.now (said_of answer)) }
    ensures fails { IfErr result (IsReplayFailure (IsGridUnreplayed (map string_bytes words.now)) wanted records.now) }
{
    let taken = match take_requests(alloc, wanted, records) {
        Ok(taken) => taken,
        Err(failure) => return Err(failure),
    };
    match grid_text(rt, alloc, words, grid, taken.requests.as_slice(), progress) {
        Ok(text) => Ok(taken.beside(text)),
        Err(failure) => Err(failure),
    }
}

/// What is written of a replay of the requests of a capture, and what is said beside it, as of their schedule.
pub fn replayed_once(
    alloc: Global,
    wanted: Import,
    plan: Plan,
    shown: ShownReplay,
    records: &[Record],
) -> Result<Answered, Failure>
    requires { AreInOrder records.now (length records.now) }
    ensures answers { IfOk result (λ answer. IsMadeOf (IsOneReplayText plan shown records.now) wanted records.now (said_of answer)) }
    ensures fails { IfErr result (IsReplayFailure (IsSchedFault plan.sched) wanted records.now) }
{
    let taken = match take_requests(alloc, wanted, records) {
        Ok(taken) => taken,
        Err(failure) => return Err(failure),
    };
    match text_of_one(alloc, plan, shown, records, taken.requests.as_slice()) {
        Ok(text) => Ok(taken.beside(text)),
        Err(fault) => Err(Failure::Sched(fault)),
    }
}
