//! Which commands of a schedule are late, and why.

ghost use Rattle.std.specs.Prelude.{ℕ, ◌≡◌, List, Option, length, IfErr, IfOk};
ghost use Rattle.std.specs.List.{zip, filter_map};
ghost use Rattle.edd_commands.specs.declared.Command.{Command as ACommand};
ghost use Rattle.edd_commands.specs.Schedule.{RoundsInRange};
ghost use Rattle.edd_oracle.specs.Input.{IsTaken};
ghost use Rattle.blk_judge.specs.Judged.{IsRefusedSchedule};
ghost use Rattle.blk_judge.specs.Late.{miss_of, AreMissed};

use crate::legality::find_fault;
use edd_check::CheckFault;
use edd_commands::{Capacity, Command};
use edd_verdict::{Verdict, law_of_verdicts, verdicts};
use std::alloc::{AllocError, Allocator};

/// A command that is late.
#[derive(Clone, Copy, Debug, PartialEq, Eq)]
pub struct Miss {
    /// The command.
    pub command: Command,
    /// The round in which it runs, after its due round.
    pub round: u64,
    /// By how many rounds it is late: its round less its due round.
    pub lateness: u64,
    /// Why it is late, beside the commands that are on time.
    pub verdict: Verdict,
}

/// The command in its round, where it has a verdict.
fn missed(command: Command, round: u64, verdict: Option<Verdict>) -> Option<Miss>
    ensures { result ≡ miss_of ((command, round), verdict) }
{
    match verdict {
        Some(verdict) => Some(Miss {
            command,
            round,
            lateness: round.saturating_sub(command.due),
            verdict,
        }),
        None => None,
    }
}

/// Those of the commands that have a verdict.
fn misses<A: Allocator>(
    alloc: A,
    commands: &[Command],
    rounds: &[u64],
    verdicts: &[Option<Verdict>],
) -> Result<Vec<Miss, A>, AllocError>
    ensures { IfOk result (λ v. v.items ≡ filter_map (λ p. miss_of p) (zip (zip commands.now rounds.now) verdicts.now)) }
{
    commands
        .iter()
        .zip(rounds)
        .zip(verdicts)
        .filter_map(|((command, round), verdict)| missed(*command, *round, *verdict))
        .collect(alloc)
}

/// The late commands of a schedule, in the order of the list, each with its round, by how much it is late, and why: the one verdict
/// that is right of it. The commands are as the oracle takes them, and the rounds below
/// [`edd_commands::MAX_ROUNDS`].
///
/// Refused as [`judge`](crate::judge) refuses. The time grows as n log n in the number of commands.
pub fn late_of<A: Allocator + Clone, B: Allocator>(
    alloc: A,
    commands: &[Command],
    rounds: &[u64],
    capacity: &Capacity<B>,
) -> Result<Vec<Miss, A>, CheckFault>
    requires taken { IsTaken commands.now }
    requires one_each { length rounds.now ≡ length commands.now }
    requires rounds_in { RoundsInRange rounds.now }
    ensures late { IfOk result (λ v. AreMissed commands.now rounds.now capacity.now v.items) }
    ensures refused { IfErr result (IsRefusedSchedule commands.now rounds.now capacity.now) }
{
    if let Err(fault) = find_fault(&alloc, commands, rounds, capacity) {
        return Err(fault);
    }
    law_of_verdicts();
    // brings the prover the capacity's invariant
    let _ = capacity.at(0);
    let Ok(alloc_verdicts) = alloc.clone() else {
        return Err(CheckFault::Memory);
    };
    let Ok(verdicts) = verdicts(alloc_verdicts, commands, rounds, capacity) else {
        return Err(CheckFault::Memory);
    };
    let Ok(rows) = misses(alloc, commands, rounds, verdicts.as_slice()) else {
        return Err(CheckFault::Memory);
    };
    Ok(rows)
}
