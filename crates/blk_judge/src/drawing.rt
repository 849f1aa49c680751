//! The picture of a schedule.

ghost use Rattle.std.specs.Prelude.{ℕ, ◌≡◌, List, Option, length, map, IfErr, IfOk};
ghost use Rattle.std.specs.List.{zip};
ghost use Rattle.edd_commands.specs.Schedule.{IsLegal, RoundsInRange};
ghost use Rattle.edd_oracle.specs.Input.{IsTaken};
ghost use Rattle.answer.specs.Lines.{answer_lines};
ghost use Rattle.blk_judge.specs.Answers.{counts_parts};
ghost use Rattle.blk_judge.specs.Drawing.{mark_of_verdict, command_bar, window_span, IsSchedulePicture};
ghost use Rattle.blk_judge.specs.Judged.{IsRefusedSchedule};

use crate::answers::add_counts;
use crate::legality::find_fault;
use answer::{Answer, lines};
use blk_lanes::{Bar, Mark, Span, Unit, Way, drawn};
use edd_check::CheckFault;
use edd_commands::{Capacity, Command};
use edd_figures::{Counts, Crowd, misses_of};
use edd_verdict::{Verdict, verdicts};
use std::alloc::{AllocError, Global};

/// How a command of a verdict is marked.
fn mark_of(verdict: Option<Verdict>) -> Mark
    ensures { result ≡ mark_of_verdict verdict }
{
    match verdict {
        None => Mark::OnTime,
        Some(Verdict::Arrival) => Mark::Gap,
        Some(Verdict::Spare) => Mark::Spare,
        Some(Verdict::Full(_)) => Mark::Full,
    }
}

/// A command as it is drawn.
fn bar_of(command: Command, round: u64, verdict: Option<Verdict>) -> Bar
    ensures { result ≡ command_bar ((command, round), verdict) }
{
    Bar {
        id: command.id,
        way: Way::Unknown,
        from: command.release,
        due: command.due,
        to: round,
        mark: mark_of(verdict),
    }
}

/// All of them.
fn bars_of(
    alloc: Global,
    commands: &[Command],
    rounds: &[u64],
    verdicts: &[Option<Verdict>],
) -> Result<Vec<Bar>, AllocError>
    ensures { IfOk result (λ v. v.items ≡ map (λ p. command_bar p) (zip (zip commands.now rounds.now) verdicts.now)) }
{
    commands
        .iter()
        .zip(rounds)
        .zip(verdicts)
        .map(|((command, round), verdict)| bar_of(*command, *round, *verdict))
        .collect(alloc)
}

/// A window as it is drawn.
fn span_of(crowd: Crowd) -> Span
    ensures { result ≡ window_span crowd }
{
    Span {
        from: crowd.window.from,
        to: crowd.window.due,
        requests: crowd.commands,
        carries: crowd.carries,
        stall: false,
    }
}

/// All of them.
fn spans_of(alloc: Global, windows: &[Crowd]) -> Result<Vec<Span>, AllocError>
    ensures { IfOk result (λ v. v.items ≡ map window_span windows.now) }
{
    windows.iter().map(|crowd| span_of(*crowd)).collect(alloc)
}

/// The counts of a schedule, in lines.
fn counts_lines(alloc: Global, counts: Counts) -> Result<Vec<u8>, AllocError>
    ensures { IfOk result (λ v. v.items ≡ answer_lines (counts_parts counts)) }
{
    let mut answer = Answer::new(alloc);
    add_counts(&mut answer, counts)?;
    lines(alloc, &answer)
}

/// The picture of a legal schedule.
fn picture_of(
    alloc: Global,
    commands: &[Command],
    rounds: &[u64],
    capacity: &Capacity<Global>,
) -> Result<Vec<u8>, AllocError>
    requires taken { IsTaken commands.now }
    requires legal { IsLegal commands.now rounds.now capacity.now }
    ensures { IfOk result (λ v. IsSchedulePicture commands.now rounds.now capacity.now v.items) }
{
    let verdicts = verdicts(alloc, commands, rounds, capacity)?;
    let missed = misses_of(alloc, commands, rounds, capacity)?;
    let bars = bars_of(alloc, commands, rounds, verdicts.as_slice())?;
    let spans = spans_of(alloc, missed.windows.as_slice())?;
    let heading = counts_lines(alloc, missed.counts)?;
    let text = drawn(
        alloc,
        Unit::Rounds,
        heading.as_slice(),
        bars.as_slice(),
        spans.as_slice(),
    )?;
    Ok(text)
}

/// The picture of a schedule, as SVG: each command from its release to its round, when it was due, which were late and why, and the windows that
/// prove how many had to be. Of long ones it has the ten intervals in which the most late commands wait. The commands are as the oracle takes
/// them, and the rounds below [`edd_commands::MAX_ROUNDS`].
///
/// Refused as [`judge`](crate::judge) refuses. The time grows as n log n in the number of commands.
pub fn schedule_picture(
    alloc: Global,
    commands: &[Command],
    rounds: &[u64],
    capacity: &Capacity<Global>,
) -> Result<Vec<u8>, CheckFault>
    requires taken { IsTaken commands.now }
    requires one_each { length rounds.now ≡ length commands.now }
    requires rounds_in { RoundsInRange rounds.now }
    ensures drawn { IfOk result (λ v. IsSchedulePicture commands.now rounds.now capacity.now v.items) }
    ensures refused { IfErr result (IsRefusedSchedule commands.now rounds.now capacity.now) }
{
    if let Err(fault) = find_fault(&alloc, commands, rounds, capacity) {
        return Err(fault);
    }
    // brings the prover the capacity's invariant
    let _ = capacity.at(0);
    match picture_of(alloc, commands, rounds, capacity) {
        Ok(text) => Ok(text),
        Err(_) => Err(CheckFault::Memory),
    }
}
