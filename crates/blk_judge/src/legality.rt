//! Whether a schedule is legal.

ghost use Rattle.std.specs.Prelude.{◌≡◌, length, IfErr, OnOk};
ghost use Rattle.edd_commands.specs.Schedule.{IsLegal, CommandsInRange, RoundsInRange};
ghost use Rattle.blk_judge.specs.Judged.{IsRefusedSchedule};

use edd_check::{CheckFault, Window, check};
use edd_commands::{Capacity, Command};
use std::alloc::Allocator;

/// Ok where the schedule is legal, else the first fault of its rounds, by the check. Of legal rounds the check goes on to a claim;
/// there is none here, so its answer is Ok.
pub(crate) fn find_fault<A: Allocator, B: Allocator>(
    alloc: A,
    commands: &[Command],
    rounds: &[u64],
    capacity: &Capacity<B>,
) -> Result<(), CheckFault>
    requires one_each { length rounds.now ≡ length commands.now }
    requires commands_in { CommandsInRange commands.now }
    requires rounds_in { RoundsInRange rounds.now }
    ensures legal { OnOk result (IsLegal commands.now rounds.now capacity.now) }
    ensures refused { IfErr result (IsRefusedSchedule commands.now rounds.now capacity.now) }
{
    let window = Window { from: 0, due: 0 };
    match check(alloc, commands, capacity, 0, rounds, window) {
        Ok(_) | Err(CheckFault::WrongLateness(_) | CheckFault::NotCrowded(_)) => Ok(()),
        Err(fault) => Err(fault),
    }
}
