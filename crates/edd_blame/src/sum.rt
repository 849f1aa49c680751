//! What had to be late, by what made it so.

ghost use Rattle.std.specs.Prelude.{◌≡◌, ◌≤◌, ◌<◌, ◌+◌, IfOk, length, slice_index, count_by, nat_lt};
ghost use Rattle.edd_commands.specs.declared.TheConstants.{MAX_COMMANDS};
ghost use Rattle.edd_commands.specs.Schedule.{IsLegal};
ghost use Rattle.edd_oracle.specs.Input.{IsTaken};
ghost use Rattle.edd_figures.specs.Misses.{HasMisses, HasSpares};
ghost use Rattle.edd_blame.specs.Clock.{IsByClock, AreByClock, is_stalled};
ghost use Rattle.edd_blame.specs.Sum.{number_came_late, AddUp, AreStalls};
ghost use Rattle.edd_blame.specs.Inside.{AreStallCounts};

use crate::late::Allowance;
use edd_commands::{Capacity, Command};
use edd_figures::{Misses, misses_of};
use std::alloc::{AllocError, Allocator, Global};

/// A time in which nothing was dispatched, though requests were released and due in it.
#[derive(Clone, Copy, Debug, PartialEq, Eq)]
pub struct StallTime {
    /// How many dispatches came before it: it lies between the last of these and the next one.
    pub after: u64,
    /// How many requests were released and due in it.
    pub requests: u64,
}

/// What had to be late: these three add up to it.
#[derive(Clone, Copy, Debug, PartialEq, Eq)]
pub struct Reasons {
    /// How many requests were released after their deadlines.
    pub arrivals: u64,
    /// How many were released by their deadlines while nothing was dispatched up to these.
    pub stalled: u64,
    /// By how many the requests of the crowded windows are more than the windows carry, all windows together.
    pub crowded: u64,
}

/// The misses of a capture, with what made them unavoidable.
#[derive(Debug, Drop)]
pub struct Blame<A: Allocator = Global> {
    /// Its misses, with the crowded windows.
    pub misses: Misses<A>,
    /// Those that were unavoidable, by what made them so.
    pub reasons: Reasons,
    /// When the device stalled, by rising times.
    pub stalls: Vec<StallTime, A>,
}

/// How many requests were released after their deadlines.
#[tactic(auto, unfolding(crate::specs::Sum::number_came_late))]
fn count_arrivals(allowances: &[Allowance]) -> u64
    ensures { result ≡ number_came_late allowances.now }
{
    allowances.iter().filter(|a| a.deadline < a.release).count() as u64
}

/// How many commands are released after their due rounds.
fn count_late_on_release(commands: &[Command]) -> u64
    ensures { result ≡ count_by (λ c. nat_lt c.due c.release) commands.now }
{
    commands.iter().filter(|c| c.due < c.release).count() as u64
}

/// Whether a request was released by its deadline, and nothing was dispatched from then to the deadline.
fn is_stalled(command: Command, allowance: Allowance, dispatches: &[u64]) -> bool
    requires { IsByClock dispatches.now allowance command }
    ensures { result ≡ is_stalled dispatches.now allowance }
{
    // the clauses alone speak of the dispatches
    let _ = dispatches.len();
    allowance.release <= allowance.deadline && command.due < command.release
}

/// How many requests stalled after each number of dispatches.
fn stall_counts<A: Allocator>(
    alloc: A,
    commands: &[Command],
    allowances: &[Allowance],
    dispatches: &[u64],
) -> Result<Vec<u64, A>, AllocError>
    requires few { length commands.now ≤ MAX_COMMANDS }
    requires few_dispatches { length dispatches.now ≤ MAX_COMMANDS }
    requires by_clock { AreByClock dispatches.now allowances.now commands.now }
    ensures { IfOk result (λ v. AreStallCounts dispatches.now allowances.now v.items) }
{
    let mut counts = vec![in alloc; 0; dispatches.len() + 1]?;
    for (place, command) in commands.iter().enumerate() {
        if is_stalled(*command, allowances[place], dispatches) {
            counts[command.due as usize] += 1;
        }
    }
    Ok(counts)
}

/// When the device stalled.
fn stalls<A: Allocator + Clone>(
    alloc: A,
    commands: &[Command],
    allowances: &[Allowance],
    dispatches: &[u64],
) -> Result<Vec<StallTime, A>, AllocError>
    requires few { length commands.now ≤ MAX_COMMANDS }
    requires few_dispatches { length dispatches.now ≤ MAX_COMMANDS }
    requires by_clock { AreByClock dispatches.now allowances.now commands.now }
    ensures { IfOk result (λ v. AreStalls dispatches.now allowances.now v.items) }
{
    let counted = stall_counts(alloc.clone()?, commands, allowances, dispatches)?;
    let counts = counted.as_slice();
    let mut stalls = Vec::new(alloc);
    for (after, requests) in counts.iter().enumerate() {
        if *requests > 0 {
            stalls.push(StallTime {
                after: after as u64,
                requests: *requests,
            })?;
        }
    }
    Ok(stalls)
}

/// The misses of a legal schedule whose commands count dispatches by the clock, and what made those unavoidable that were: requests
/// that were released after their deadlines, requests in stalls, and what is too much in crowded windows of dispatches. No dispatch lies
/// in two windows, and none in a stall.
///
/// Fails only when out of memory. The time grows as n log n in the number of requests.
pub fn blame_of<A: Allocator + Clone, B: Allocator>(
    alloc: A,
    commands: &[Command],
    rounds: &[u64],
    capacity: &Capacity<B>,
    allowances: &[Allowance],
    dispatches: &[u64],
) -> Result<Blame<A>, AllocError>
    requires taken { IsTaken commands.now }
    requires legal { IsLegal commands.now rounds.now capacity.now }
    requires by_clock { AreByClock dispatches.now allowances.now commands.now }
    requires few { length dispatches.now ≤ MAX_COMMANDS }
    ensures misses { IfOk result (λ b. HasMisses commands.now rounds.now capacity.now b.misses.counts b.misses.windows.items) }
    // arrivals, requests in stalls and what is too much in the windows are all that had to be late
    ensures sum { IfOk result (λ b. AddUp dispatches.now allowances.now b.misses.counts b.misses.windows.items b.reasons) }
    ensures stalls { IfOk result (λ b. AreStalls dispatches.now allowances.now b.stalls.items) }
{
    let misses = misses_of(alloc.clone()?, commands, rounds, capacity)?;
    let stalls = stalls(alloc, commands, allowances, dispatches)?;
    let late_on_release = count_late_on_release(commands);
    let arrivals = count_arrivals(allowances);
    let reasons = Reasons {
        arrivals,
        stalled: late_on_release - arrivals,
        crowded: misses.counts.unavoidable - late_on_release,
    };
    Ok(Blame {
        misses,
        reasons,
        stalls,
    })
}
