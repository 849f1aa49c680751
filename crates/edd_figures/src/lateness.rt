//! How late the latest command of a schedule is, and how late it had to be.

ghost use Rattle.std.specs.Prelude.{◌≡◌, ◌↔◌, [], IfOk, IfSome, IsNone};
ghost use Rattle.edd_commands.specs.Schedule.{IsLegal, CommandsInRange, RoundsInRange};
ghost use Rattle.edd_oracle.specs.Answer.{IsBest};
ghost use Rattle.edd_oracle.specs.Input.{IsTaken};
ghost use Rattle.edd_oracle.specs.Priority.{IsEarliestDueFirst};
ghost use Rattle.edd_oracle.specs.Plan.{IsLatestWindow};
ghost use Rattle.edd_figures.specs.Figures.{AreFigures};

use edd_check::{Window, greatest_lateness, load};
use edd_commands::{Capacity, Command};
use edd_oracle::{Answer, solve_taken};
use std::alloc::{AllocError, Allocator};

/// How late the latest command of a schedule is, and how late it had to be.
#[derive(Clone, Copy, Debug, PartialEq, Eq)]
pub struct Figures {
    /// How late the latest command is, in rounds; below 0 where each runs before its due round.
    pub greatest: i64,
    /// How late some command has to be, whatever the schedule, in rounds.
    pub least: i64,
    /// The greatest lateness less the least one, in rounds. It is never below 0.
    pub shortfall: i64,
    /// A window that proves the least: its commands are more than its rounds carry, if each is to be less late.
    pub window: Window,
    /// How many commands the window has.
    pub load: u64,
}

/// The figures of a schedule of commands, of which the oracle gave this answer.
fn compared<A: Allocator, B: Allocator>(
    commands: &[Command],
    rounds: &[u64],
    capacity: &Capacity<B>,
    answer: &Answer<A>,
) -> Figures
    requires scheduled { IsLegal commands.now rounds.now capacity.now }
    requires commands_in { CommandsInRange commands.now }
    requires rounds_in { RoundsInRange rounds.now }
    requires best { IsBest commands.now capacity.now answer.now.rounds.items answer.now.lateness answer.now.window }
    requires first { IsEarliestDueFirst commands.now answer.now.rounds.items capacity.now }
    requires latest { IsLatestWindow commands.now answer.now.rounds.items capacity.now answer.now.window }
    ensures { AreFigures commands.now rounds.now capacity.now result }
{
    // brings the prover the capacity's invariant
    let _ = capacity.at(0);
    let Some(greatest) = greatest_lateness(commands, rounds) else {
        unreachable!()
    };
    Figures {
        greatest,
        least: answer.lateness,
        shortfall: greatest - answer.lateness,
        window: answer.window,
        load: load(commands, answer.window),
    }
}

/// How late the latest command of a legal schedule is, and how late it had to be; there is nothing to tell exactly where there are no
/// commands. The commands are as the oracle takes them, and the rounds below [`edd_commands::MAX_ROUNDS`]. The window is that of the
/// latest command in the oracle's own schedule ([`solve_taken`]). Fails only when out of memory. The time grows as n log n in the number of commands.
pub fn figures_of<A: Allocator + Clone, B: Allocator>(
    alloc: A,
    commands: &[Command],
    rounds: &[u64],
    capacity: &Capacity<B>,
) -> Result<Option<Figures>, AllocError>
    requires taken { IsTaken commands.now }
    requires legal { IsLegal commands.now rounds.now capacity.now }
    requires rounds_in { RoundsInRange rounds.now }
    ensures none { IfOk result (λ found. IsNone found ↔ (commands.now ≡ [])) }
    ensures are { IfOk result (λ found. IfSome found (AreFigures commands.now rounds.now capacity.now)) }
{
    match solve_taken(alloc, commands, capacity) {
        Ok(None) => Ok(None),
        Ok(Some(answer)) => Ok(Some(compared(commands, rounds, capacity, &answer))),
        Err(_) => Err(AllocError),
    }
}
