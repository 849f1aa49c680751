//! The judgement on a schedule as a whole.

ghost use Rattle.std.specs.Prelude.{◌≡◌, ◌≤◌, ◌<◌, ◌↔◌, length, IfErr, IfOk};
ghost use Rattle.edd_commands.specs.Schedule.{RoundsInRange};
ghost use Rattle.edd_oracle.specs.Input.{IsTaken};
ghost use Rattle.blk_judge.specs.Judged.{IsRefusedSchedule, IsJudgement};

use crate::legality::find_fault;
use edd_check::CheckFault;
use edd_commands::{Capacity, Command};
use edd_figures::{Figures, Misses, figures_of, misses_of};
use std::alloc::{Allocator, Global};

/// The judgement on a legal schedule.
#[derive(Debug, Drop)]
pub struct Judged<A: Allocator = Global> {
    /// How many commands are late, how many of these had to be, and the windows that prove it.
    pub misses: Misses<A>,
    /// How late the latest command is and had to be; there is nothing to tell exactly where there are no commands.
    pub figures: Option<Figures>,
}

/// Judges a schedule of commands, by the place of each: how many are late, how many of these had to be, and how late the latest is and
/// had to be, all measured against the legal schedules of the same commands. The commands are as the oracle takes them, and the rounds
/// below [`edd_commands::MAX_ROUNDS`].
///
/// Refused, in this order: a command that runs before its release (`BeforeRelease`, the first one by place), running out of
/// memory (`Memory`), which may come in place of any later answer, and a round with more commands than it carries (`OverDepth`, the least
/// round). No other fault is answered. The time grows as n log n in the number of commands.
pub fn judge<A: Allocator + Clone, B: Allocator>(
    alloc: A,
    commands: &[Command],
    rounds: &[u64],
    capacity: &Capacity<B>,
) -> Result<Judged<A>, CheckFault>
    requires taken { IsTaken commands.now }
    requires one_each { length rounds.now ≡ length commands.now }
    requires rounds_in { RoundsInRange rounds.now }
    ensures judged { IfOk result (λ j. IsJudgement commands.now rounds.now capacity.now j.misses.counts j.misses.windows.items j.figures) }
    // what could have been avoided is no more than what is spare, and is something exactly where something is spare
    ensures at_most { IfOk result (λ j. j.misses.counts.avoidable ≤ j.misses.counts.spare) }
    ensures some { IfOk result (λ j. (0 < j.misses.counts.avoidable) ↔ (0 < j.misses.counts.spare)) }
    ensures refused { IfErr result (IsRefusedSchedule commands.now rounds.now capacity.now) }
{
    if let Err(fault) = find_fault(&alloc, commands, rounds, capacity) {
        return Err(fault);
    }
    let Ok(alloc_misses) = alloc.clone() else {
        return Err(CheckFault::Memory);
    };
    let Ok(misses) = misses_of(alloc_misses, commands, rounds, capacity) else {
        return Err(CheckFault::Memory);
    };
    let Ok(figures) = figures_of(alloc, commands, rounds, capacity) else {
        return Err(CheckFault::Memory);
    };
    Ok(Judged { misses, figures })
}
