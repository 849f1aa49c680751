//! The window that shows why a schedule's greatest lateness is least.

ghost use Rattle.std.specs.Prelude.{◌≡◌, ◌<◌, ◌+◌, All, IfOk, length};
ghost use Rattle.std.specs.Bool.{OnTrue, OnFalse};
ghost use Rattle.edd_commands.specs.declared.TheConstants.{MAX_ROUNDS};
ghost use Rattle.edd_commands.specs.Schedule.{CommandsInRange, RoundsInRange, IsLegal, IsGreatestLateness};
ghost use Rattle.edd_check.specs.Window.{IsCrowded, WindowInRange};
ghost use Rattle.edd_oracle.specs.Plan.{IsChosen, IsLatest, IsWindowStart, IsLatestWindow};
ghost use Rattle.edd_oracle.specs.Priority.{IsEarliestDueFirst};
ghost use Rattle.edd_oracle.specs.Inside.Window.{HasRoundsBefore};

use edd_check::Window;
use edd_commands::{Capacity, Command};
use std::alloc::{AllocError, Allocator};

/// Whether one command in its round comes before another in its own: by lateness, the later first, then by
/// round, then by id.
fn is_later(one: Command, x: u64, other: Command, y: u64) -> bool
    requires one_due { one.due < MAX_ROUNDS }
    requires other_due { other.due < MAX_ROUNDS }
    requires one_round { x < MAX_ROUNDS }
    requires other_round { y < MAX_ROUNDS }
    ensures yes { OnTrue result (IsChosen one x other y) }
    ensures no { OnFalse result (IsChosen other y one x) }
{
    let (here, there) = (x + other.due, y + one.due);
    if here != there {
        here > there
    } else if x != y {
        x < y
    } else {
        one.id < other.id
    }
}

/// The place of the latest command; of several the one of the first round, and there of the least id.
fn latest(commands: &[Command], rounds: &[u64]) -> usize
    requires some { 0 < length commands.now }
    requires equal { length rounds.now ≡ length commands.now }
    requires commands_in { CommandsInRange commands.now }
    requires rounds_in { RoundsInRange rounds.now }
    ensures in_list { result < length commands.now }
    ensures latest { IsLatest commands.now rounds.now result }
{
    let mut late = 0;
    for (i, command) in commands.iter().enumerate() {
        if is_later(*command, rounds[i], commands[late], rounds[late]) {
            late = i;
        }
    }
    late
}

/// The rounds before `x` of the commands due by `due`.
fn rounds_before<A: Allocator>(
    alloc: A,
    commands: &[Command],
    rounds: &[u64],
    x: u64,
    due: u64,
) -> Result<Vec<u64, A>, AllocError>
    requires { length rounds.now ≡ length commands.now }
    ensures below { IfOk result (λ early. All (λ y. y < x) early.items) }
    ensures same { IfOk result (λ early. HasRoundsBefore commands.now rounds.now x due early.items) }
{
    let mut early = Vec::new(alloc);
    for (i, command) in commands.iter().enumerate() {
        if command.due <= due && rounds[i] < x {
            let Ok(()) = early.push(rounds[i]) else {
                return Err(AllocError);
            };
        }
    }
    Ok(early)
}

/// One more than the last round before `x` with fewer commands due by `due` than it carries, or 0.
fn start<A: Allocator, B: Allocator>(
    alloc: A,
    commands: &[Command],
    rounds: &[u64],
    capacity: &Capacity<B>,
    x: u64,
    due: u64,
) -> Result<u64, AllocError>
    requires { IsLegal commands.now rounds.now capacity.now }
    ensures { IfOk result (IsWindowStart commands.now rounds.now capacity.now x due) }
{
    let mut early = rounds_before(alloc, commands, rounds, x, due)?;
    early.sort_unstable();
    let mut from = x;
    let mut left = early.len();
    while from > 0 {
        let depth = capacity.at(from - 1) as usize;
        if left < depth || early[left - depth] != from - 1 {
            return Ok(from);
        }
        left -= depth;
        from -= 1;
    }
    Ok(from)
}

/// The greatest lateness of a schedule by earliest due date first, and the window of its latest command.
pub fn latest_window<A: Allocator, B: Allocator>(
    alloc: A,
    commands: &[Command],
    rounds: &[u64],
    capacity: &Capacity<B>,
) -> Result<(i64, Window), AllocError>
    requires some { 0 < length commands.now }
    requires commands_in { CommandsInRange commands.now }
    requires rounds_in { RoundsInRange rounds.now }
    requires legal { IsLegal commands.now rounds.now capacity.now }
    requires first { IsEarliestDueFirst commands.now rounds.now capacity.now }
    ensures greatest { IfOk result (λ t. IsGreatestLateness commands.now rounds.now t.0) }
    ensures crowded { IfOk result (λ t. IsCrowded commands.now capacity.now t.0 t.1) }
    ensures latest { IfOk result (λ t. IsLatestWindow commands.now rounds.now capacity.now t.1) }
    ensures in_range { IfOk result (λ t. WindowInRange t.1) }
{
    let late = latest(commands, rounds);
    let (round, due) = (rounds[late], commands[late].due);
    let from = start(alloc, commands, rounds, capacity, round, due)?;
    Ok((round as i64 - due as i64, Window { from, due }))
}
