//! A row: what came of the requests of a capture in one order.

ghost use Rattle.std.specs.Prelude.{◌≡◌, ◌≤◌, IfOk, IfErr, length, map};
ghost use Rattle.edd_commands.specs.Capacity.{fixed};
ghost use Rattle.edd_commands.specs.Schedule.{IsLegal};
ghost use Rattle.edd_commands.specs.declared.TheConstants.{MAX_COMMANDS};
ghost use Rattle.edd_figures.specs.Misses.{number_late, IsLeastLate};
ghost use Rattle.blk_capture.specs.Counting.{AreInRounds};
ghost use Rattle.blk_capture.specs.Requests.{AgreeOnLateness, AreTimed, times_of};
ghost use Rattle.blk_schedulers.specs.Made.{IsSchedFault};
ghost use Rattle.blk_replay.specs.Requests.{AreRounds, AreRoundCommands, AreLateByTheClock};
ghost use Rattle.blk_replayed.specs.Rows.{IsReplayRowIn, IsReplayRow};

use crate::serving::rounds_under;
use blk_capture::CapturedRequest;
use blk_replay::{ClockFigures, figures_of};
use blk_schedulers::{Plan, SchedFault};
use edd_commands::Command;
use std::alloc::{AllocError, Global};

/// Who chose the order of requests.
#[derive(Clone, Copy, Debug, PartialEq, Eq)]
pub enum Chooser {
    /// The machine, as it went.
    Machine,
    /// A scheduler, in a replay.
    Replay(Plan),
}

/// What came of the requests of a capture in one order.
#[derive(Clone, Copy, Debug, PartialEq, Eq)]
pub struct ReplayRow {
    /// Who chose it.
    pub chooser: Chooser,
    /// How many requests there are.
    pub requests: u64,
    /// How many of them were late: after their due rounds, and so after their deadlines.
    pub late: u64,
    /// The fewest that any order has late.
    pub unavoidable: u64,
    /// The others.
    pub avoidable: u64,
    /// How many of each direction were late, how late, and how long they waited, by the clock.
    pub clock: ClockFigures,
}

/// How many commands run after they are due.
#[tactic(auto, unfolding(edd_figures::specs::Misses::number_late))]
fn late_of(commands: &[Command], rounds: &[u64]) -> u64
    ensures { result ≡ number_late commands.now rounds.now }
{
    commands
        .iter()
        .zip(rounds)
        .filter(|(command, round)| command.due < **round)
        .count() as u64
}

/// The row of requests in these rounds.
#[tactic(auto, using(crate::proofs::Told::at_least))]
fn row_in(
    alloc: Global,
    chooser: Chooser,
    unavoidable: u64,
    requests: &[CapturedRequest],
    commands: &[Command],
    rounds: &[u64],
) -> Result<ReplayRow, AllocError>
    requires few { length requests.now ≤ MAX_COMMANDS }
    requires each { length rounds.now ≡ length requests.now }
    requires range { AreRounds (length requests.now) rounds.now }
    requires legal { IsLegal commands.now rounds.now (fixed 1) }
    requires alike { AreLateByTheClock requests.now commands.now rounds.now }
    requires least { IsLeastLate commands.now (fixed 1) unavoidable }
    ensures { IfOk result (IsReplayRowIn chooser unavoidable requests.now commands.now rounds.now) }
{
    let late = late_of(commands, rounds);
    let clock = figures_of(alloc, requests, rounds)?;
    Ok(ReplayRow {
        chooser,
        requests: requests.len() as u64,
        late,
        unavoidable,
        avoidable: late - unavoidable,
        clock,
    })
}

/// The row of the capture as it went, in the rounds of its dispatches.
#[tactic(auto, using(crate::proofs::Counted::own_rounds, crate::proofs::Counted::own_late, crate::proofs::Told::as_it_went, crate::proofs::Told::row_of))]
pub fn captured_row(
    alloc: Global,
    unavoidable: u64,
    requests: &[CapturedRequest],
    commands: &[Command],
    rounds: &[u64],
) -> Result<ReplayRow, AllocError>
    requires timed { AreTimed requests.now }
    requires few { length requests.now ≤ MAX_COMMANDS }
    requires counted { AreInRounds (map times_of requests.now) commands.now rounds.now }
    requires legal { IsLegal commands.now rounds.now (fixed 1) }
    requires late { AgreeOnLateness requests.now commands.now rounds.now }
    requires least { IsLeastLate commands.now (fixed 1) unavoidable }
    ensures chosen { IfOk result (λ r. r.chooser ≡ Chooser.Machine) }
    ensures row { IfOk result (IsReplayRow unavoidable requests.now commands.now) }
{
    row_in(
        alloc,
        Chooser::Machine,
        unavoidable,
        requests,
        commands,
        rounds,
    )
}

/// The row of a replay.
pub fn replayed_row(
    alloc: Global,
    plan: Plan,
    unavoidable: u64,
    requests: &[CapturedRequest],
    commands: &[Command],
) -> Result<ReplayRow, SchedFault>
    requires timed { AreTimed requests.now }
    requires few { length requests.now ≤ MAX_COMMANDS }
    requires counted { AreRoundCommands requests.now commands.now }
    requires least { IsLeastLate commands.now (fixed 1) unavoidable }
    ensures chosen { IfOk result (λ r. r.chooser ≡ Chooser.Replay plan) }
    ensures row { IfOk result (IsReplayRow unavoidable requests.now commands.now) }
    ensures unmade { IfErr result (IsSchedFault plan.sched) }
{
    let rounds = match rounds_under(alloc, plan, requests, commands) {
        Ok(rounds) => rounds,
        Err(fault) => return Err(fault),
    };
    let chooser = Chooser::Replay(plan);
    match row_in(
        alloc,
        chooser,
        unavoidable,
        requests,
        commands,
        rounds.as_slice(),
    ) {
        Ok(row) => Ok(row),
        Err(_) => Err(SchedFault::Memory),
    }
}
