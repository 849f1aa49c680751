//! The rows of replays beside that of the capture as it went.

ghost use Rattle.std.specs.Prelude.{◌≡◌, ◌≤◌, ◌<◌, IfOk, IfErr, IfSome, length, map};
ghost use Rattle.edd_commands.specs.Capacity.{fixed};
ghost use Rattle.edd_commands.specs.Schedule.{IsLegal};
ghost use Rattle.edd_commands.specs.declared.TheConstants.{MAX_COMMANDS};
ghost use Rattle.edd_figures.specs.Misses.{IsLeastLate, HasMisses};
ghost use Rattle.blk_capture.specs.Counting.{AreInRounds, AreSolvable};
ghost use Rattle.blk_capture.specs.Requests.{AreTimed, times_of};
ghost use Rattle.blk_runs.specs.Firsts.{IsFirstUnmade};
ghost use Rattle.blk_replay.specs.Requests.{AreRoundCommands};
ghost use Rattle.blk_replayed.specs.Replays.{CanBeReplayed, AnswersPlanAt, AreRowsOf, AreReplays, AreUnreplayed};

use crate::order::better_first;
use crate::row::{ReplayRow, captured_row, replayed_row};
use blk_capture::{CapturedRequest, rounds_of};
use blk_runs::unmade;
use blk_schedulers::{Form, Plan, ReplayBy, Sched, SchedFault};
use edd_commands::{Capacity, Command};
use edd_figures::{Misses, misses_of};
use std::alloc::{AllocError, Global};
use std::thread::Threads;
use turns::{Progress, in_turn};

/// What is asked of replays.
#[derive(Clone, Copy)]
pub struct ReplaysAsked<'a> {
    /// The replays, in the order in which those stand that are as good.
    pub plans: &'a [Plan],
    /// What their rows are ordered by first.
    pub by: ReplayBy,
    /// How many of them are shown at most, the best ones; without it all are.
    pub top: Option<u64>,
    /// Whether settings are shown with the expiries of FIFO lists.
    pub expiries: bool,
    /// How many replays go side by side at most; without it as many as there are processors, 16 at most. 0 counts as 1.
    pub threads: Option<u64>,
    /// In which form they are written.
    pub form: Form,
}

/// What came of the requests of a capture, as they went and in replays.
#[derive(Debug, Drop)]
pub struct Replays {
    /// As they went.
    pub captured: ReplayRow,
    /// In replays, the best first.
    pub replayed: Vec<ReplayRow>,
}

/// The schedulers of plans.
fn scheds_of(alloc: Global, plans: &[Plan]) -> Result<Vec<Sched>, AllocError>
    ensures { IfOk result (λ v. v.items ≡ map (λ p. p.sched) plans.now) }
{
    plans.iter().map(|plan| plan.sched).collect(alloc)
}

/// What is wrong with the settings of the first scheduler that isn't made of them.
fn unmade_in(alloc: Global, plans: &[Plan]) -> Result<Option<SchedFault>, AllocError>
    ensures { IfOk result (λ o. IfSome o (IsFirstUnmade (map (λ p. p.sched) plans.now))) }
{
    let scheds = scheds_of(alloc, plans)?;
    Ok(unmade(scheds.as_slice()))
}

/// How many of the requests were late, and had to be.
#[tactic(auto, using(crate::proofs::Counted::taken))]
fn misses_in(
    alloc: Global,
    requests: &[CapturedRequest],
    commands: &[Command],
    rounds: &[u64],
) -> Result<Misses, AllocError>
    requires few { length requests.now ≤ MAX_COMMANDS }
    requires counted { AreInRounds (map times_of requests.now) commands.now rounds.now }
    requires solvable { AreSolvable commands.now }
    requires legal { IsLegal commands.now rounds.now (fixed 1) }
    ensures { IfOk result (λ m. HasMisses commands.now rounds.now (fixed 1) m.counts m.windows.items) }
{
    let capacity = Capacity::fixed(alloc, 1)?;
    misses_of(alloc, commands, rounds, &capacity)
}

/// A row for each plan, in their order, on threads.
fn rows_of<T: Threads + Sync, P: Progress>(
    rt: &T,
    alloc: Global,
    asked: &ReplaysAsked<'_>,
    unavoidable: u64,
    requests: &[CapturedRequest],
    commands: &[Command],
    progress: &mut P,
) -> Result<Vec<ReplayRow>, AllocError>
    requires timed { AreTimed requests.now }
    requires few { length requests.now ≤ MAX_COMMANDS }
    requires counted { AreRoundCommands requests.now commands.now }
    requires least { IsLeastLate commands.now (fixed 1) unavoidable }
    ensures { IfOk result (λ v. AreRowsOf unavoidable requests.now commands.now asked.now.plans.now v.items) }
{
    let plans = asked.plans;
    let run = |place: usize| -> Result<ReplayRow, SchedFault>
        requires { (place < length plans.now) × CanBeReplayed unavoidable requests.now commands.now }
        ensures { AnswersPlanAt unavoidable requests.entry.now commands.entry.now plans.entry.now place result }
    { replayed_row(alloc, plans[place], unavoidable, requests, commands) };
    match in_turn(rt, alloc, plans.len(), asked.threads, &run, progress) {
        Ok(rows) => Ok(rows),
        Err(_) => Err(AllocError),
    }
}

/// The rows of requests of which all schedulers are made.
fn replays_in<T: Threads + Sync, P: Progress>(
    rt: &T,
    alloc: Global,
    asked: &ReplaysAsked<'_>,
    requests: &[CapturedRequest],
    progress: &mut P,
) -> Result<Replays, AllocError>
    requires timed { AreTimed requests.now }
    requires few { length requests.now ≤ MAX_COMMANDS }
    ensures { IfOk result (λ r. AreReplays asked.now.by asked.now.plans.now requests.now r.captured r.replayed.items) }
{
    let counted = rounds_of(alloc, requests)?;
    let commands = counted.commands.as_slice();
    let rounds = counted.rounds.as_slice();
    let missed = misses_in(alloc, requests, commands, rounds)?;
    let unavoidable = missed.counts.unavoidable;
    let captured = captured_row(alloc, unavoidable, requests, commands, rounds)?;
    let mut replayed = rows_of(rt, alloc, asked, unavoidable, requests, commands, progress)?;
    better_first(asked.by, &mut replayed)?;
    Ok(Replays { captured, replayed })
}

/// What came of the requests of a capture, as they went and in a replay of each plan, the best first: of those that are as good the one that is
/// planned first. The same number of them is unavoidable in all rows: it is the fewest that any order of the same dispatches has late.
///
/// Refused as the first scheduler is that isn't made of its settings, before any replay, or as `Memory`. The time grows as n log n. They go side by
/// side on the threads of `rt`, as [`turns::in_turn`] has it, and `progress` hears how far they have come.
pub fn replay_plans<T: Threads + Sync, P: Progress>(
    rt: &T,
    alloc: Global,
    asked: &ReplaysAsked<'_>,
    requests: &[CapturedRequest],
    progress: &mut P,
) -> Result<Replays, SchedFault>
    requires timed { AreTimed requests.now }
    requires few { length requests.now ≤ MAX_COMMANDS }
    ensures replays { IfOk result (λ r. AreReplays asked.now.by asked.now.plans.now requests.now r.captured r.replayed.items) }
    ensures unmade { IfErr result (AreUnreplayed asked.now.plans.now) }
{
    match unmade_in(alloc, asked.plans) {
        Ok(Some(fault)) => return Err(fault),
        Ok(None) => {}
        Err(_) => return Err(SchedFault::Memory),
    }
    match replays_in(rt, alloc, asked, requests, progress) {
        Ok(rows) => Ok(rows),
        Err(_) => Err(SchedFault::Memory),
    }
}
