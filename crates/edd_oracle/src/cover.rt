//! The windows that show how many commands can be on time at most.

ghost use Rattle.std.specs.Prelude.{◌≡◌, ◌≤◌, ◌<◌, ℕ, All, IfOk, length};
ghost use Rattle.std.specs.Bool.{OnTrue, OnFalse};
ghost use Rattle.std.specs.List.Sorted.{IsNonDecreasingBy};
ghost use Rattle.edd_commands.specs.declared.Command.{Command};
ghost use Rattle.edd_commands.specs.Capacity.{depth_at};
ghost use Rattle.edd_commands.specs.declared.TheConstants.{MAX_ROUNDS};
ghost use Rattle.edd_check.specs.OnTime.{CoverInRange};
ghost use Rattle.edd_commands.specs.Schedule.{IsLegal, CommandsInRange, places_at};
ghost use Rattle.edd_oracle.specs.OnTime.{IsOnTimeFirst, IsPassedCover};
ghost use Rattle.edd_oracle.specs.Inside.Cover.{running_at, IsPassedDue, IsServedStart, AreDue, IsOneOff, AreWindows, HasPassedDues, RunAlike};

use edd_check::Window;
use edd_commands::{Capacity, Command};
use std::alloc::{AllocError, Allocator};

/// When a command runs, and when it is due.
#[derive(Clone, Copy, Debug, PartialEq, Eq)]
pub struct Served {
    /// Its round.
    pub round: u64,
    /// Its due round.
    pub due: u64,
}

/// The due rounds of the commands that are passed over: those that are released by their due round and run after it.
fn passed_over<A: Allocator>(
    alloc: A,
    commands: &[Command],
    rounds: &[u64],
) -> Result<Vec<u64, A>, AllocError>
    requires { length rounds.now ≡ length commands.now }
    ensures each { IfOk result (λ found. HasPassedDues commands.now rounds.now found.items) }
    ensures some { IfOk result (λ found. All (IsPassedDue commands.now rounds.now) found.items) }
    ensures rising { IfOk result (λ found. IsNonDecreasingBy (λ x. x) found.items) }
{
    let mut found = Vec::new(alloc);
    for (place, command) in commands.iter().enumerate() {
        if command.release <= command.due && command.due < rounds[place] {
            let Ok(()) = found.push(command.due) else {
                return Err(AllocError);
            };
        }
    }
    found.sort_unstable();
    Ok(found)
}

/// One more than the last of these due rounds, or 0 where there is none.
fn past(dues: &[u64]) -> u64
    requires in_range { All (λ x. x < MAX_ROUNDS) dues.now }
    requires rising { IsNonDecreasingBy (λ x. x) dues.now }
    ensures { All (λ x. x < result) dues.now }
{
    if dues.is_empty() {
        return 0;
    }
    dues[dues.len() - 1] + 1
}

/// The commands that run before the round `until`, by round.
fn served_before<A: Allocator>(
    alloc: A,
    commands: &[Command],
    rounds: &[u64],
    until: u64,
) -> Result<Vec<Served, A>, AllocError>
    requires { length rounds.now ≡ length commands.now }
    ensures same { IfOk result (λ found. RunAlike commands.now rounds.now until found.items) }
    ensures few { IfOk result (λ found. (y : ℕ) → running_at found.items y ≤ places_at rounds.now y) }
    ensures rising { IfOk result (λ found. IsNonDecreasingBy (λ s. s.round) found.items) }
{
    let mut found = Vec::new(alloc);
    for (place, command) in commands.iter().enumerate() {
        let round = rounds[place];
        if round < until {
            let Ok(()) = found.push(Served {
                round,
                due: command.due,
            }) else {
                return Err(AllocError);
            };
        }
    }
    found.sort_unstable_by_key(|s| s.round);
    Ok(found)
}

/// Whether those at the places from `first` on and before `past` all run in the round and are due by `due`.
fn all_due(served: &[Served], first: usize, past: usize, round: u64, due: u64) -> bool
    requires { past ≤ length served.now }
    ensures yes { OnTrue result (AreDue served.now first past round due) }
    ensures no { OnFalse result (IsOneOff served.now first past round due) }
{
    for place in first..past {
        if served[place].due > due || served[place].round != round {
            return false;
        }
    }
    true
}

/// One more than the last round up to `due` in which fewer of those due by then run than it carries, or 0.
fn begin<A: Allocator>(served: &[Served], capacity: &Capacity<A>, due: u64) -> u64
    requires rising { IsNonDecreasingBy (λ s. s.round) served.now }
    requires few { (y : ℕ) → running_at served.now y ≤ depth_at capacity.now y }
    requires in_range { due < MAX_ROUNDS }
    ensures { IsServedStart served.now capacity.now due result }
{
    let mut from = due + 1;
    let mut left = served.partition_point(|s| s.round <= due);
    while from > 0 {
        let depth = capacity.at(from - 1) as usize;
        if left < depth || !all_due(served, left - depth, left, from - 1, due) {
            return from;
        }
        left -= depth;
        from -= 1;
    }
    from
}

/// The windows for these due rounds, the last one first: each round that is full belongs to one of them at most, and so each
/// is looked at once.
fn windows<A: Allocator, B: Allocator>(
    alloc: A,
    passed: &[u64],
    served: &[Served],
    capacity: &Capacity<B>,
) -> Result<Vec<Window, A>, AllocError>
    requires in_range { All (λ x. x < MAX_ROUNDS) passed.now }
    requires rising_dues { IsNonDecreasingBy (λ x. x) passed.now }
    requires rising { IsNonDecreasingBy (λ s. s.round) served.now }
    requires few { (y : ℕ) → running_at served.now y ≤ depth_at capacity.now y }
    ensures { IfOk result (λ cover. AreWindows served.now capacity.now passed.now 0 cover.items) }
{
    let mut cover = Vec::new(alloc);
    let mut left = passed.len();
    let mut from = u64::MAX;
    while left > 0 {
        left -= 1;
        let due = passed[left];
        if due + 1 < from {
            from = begin(served, capacity, due);
            let Ok(()) = cover.push(Window { from, due }) else {
                return Err(AllocError);
            };
        }
    }
    Ok(cover)
}

/// The windows of the commands that a schedule passes over, those joined that overlap or touch, by rising rounds.
pub fn cover<A: Allocator + Clone, B: Allocator>(
    alloc: A,
    commands: &[Command],
    rounds: &[u64],
    capacity: &Capacity<B>,
) -> Result<Vec<Window, A>, AllocError>
    requires commands_in { CommandsInRange commands.now }
    requires legal { IsLegal commands.now rounds.now capacity.now }
    requires first { IsOnTimeFirst commands.now rounds.now capacity.now }
    ensures passed { IfOk result (λ cover. IsPassedCover commands.now rounds.now capacity.now cover.items) }
    ensures in_range { IfOk result (λ cover. CoverInRange cover.items) }
{
    let passed = passed_over(alloc.clone()?, commands, rounds)?;
    let dues = passed.as_slice();
    let served = served_before(alloc.clone()?, commands, rounds, past(dues))?;
    let mut cover = windows(alloc, dues, served.as_slice(), capacity)?;
    cover.reverse();
    Ok(cover)
}
