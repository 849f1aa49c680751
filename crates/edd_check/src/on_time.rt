//! Checks a claim of the greatest number of commands that a schedule can have on time.
//!
//! A command is on time where it runs no later than it is due (Pinedo, Scheduling: the number of tardy jobs, here counted from
//! the other side, with unit jobs and release dates). Disjoint windows of rounds bound how many are on time in any schedule: a
//! command on time that lies in a window runs in it, and so these are at most what its rounds carry (König's cover of a convex
//! bipartite graph of commands and rounds).

ghost use Rattle.std.specs.Prelude.{◌≡◌, ◌≤◌, ◌<◌, ◌+◌, ◌-◌, ◌*◌, ◌&&◌, ◌↔◌, not, length, IsTrue, IfNone, IfSome, OnOk};
ghost use Rattle.edd_check.specs.Names.{on_time_told};
ghost use Rattle.std.specs.List.{list_any};
ghost use Rattle.edd_check.specs.OnTime.{number_on_time, IsOnTimeBound, IsMostOnTime, holds, lies_in, can_be_on_time, inside_of, outside_of, carried_in, carried_by, bound_of, IsCover, IsFirstAstray, CoverInRange};
ghost use Rattle.edd_check.specs.CheckOnTime.{IsOnTimeAnswer, AcceptsOnTimeClaim};

use crate::{Window, first_early, least_over_deep};
use edd_commands::{Capacity, Command, Fault, MAX_DEPTH, MAX_ROUNDS, Told, told};
use std::alloc::Allocator;
use thiserror::Error;

/// The bound of a good claim's cover: together the number of commands that the claim says are on time.
#[derive(Clone, Copy, Debug, PartialEq, Eq)]
pub struct Bound {
    /// How many commands the windows' rounds carry.
    pub carries: u64,
    /// How many commands are released by their due round and lie in none of the windows.
    pub outside: u64,
}

/// Why a claim of a greatest number is refused, in the order in which the reasons are looked for.
#[derive(Clone, Copy, Debug, PartialEq, Eq, Error)]
#[error("{}", self.name())]
pub enum OnTimeFault {
    /// There are more rounds than commands, or fewer.
    Length,
    /// The first command by place that runs before its release, by its id.
    BeforeRelease(u64),
    /// Memory ran out.
    Memory,
    /// The least round with more commands than it carries.
    OverDepth(u64),
    /// The schedule's own number of commands on time, which is not the claimed one.
    WrongMet(u64),
    /// The first window by place that has no round, or doesn't begin after the one before it ends.
    Windows(usize),
    /// The windows' bound, which is more than the claimed number.
    Loose(u64),
}

impl Fault for OnTimeFault {
    ghost told = { on_time_told };

    fn told(&self) -> Told {
        told!(self: OnTimeFault {
            Length,
            BeforeRelease(id) => Number(id),
            Memory => Memory,
            OverDepth(round) => Number(round),
            WrongMet(own) => Number(own),
            Windows(place) => Number(place as u64),
            Loose(bound) => Number(bound),
        })
    }
}

/// Whether both numbers of each window lie below [`MAX_ROUNDS`], as [`check_on_time`] requires.
pub fn cover_in_range(cover: &[Window]) -> bool
    ensures { IsTrue result ↔ CoverInRange cover.now }
{
    cover
        .iter()
        .all(|w| w.from < MAX_ROUNDS && w.due < MAX_ROUNDS)
}

/// How many commands run no later than they are due; of two lists that are not equally long the places past the shorter
/// one's end don't count.
#[tactic(auto, unfolding(crate::specs::OnTime::number_on_time))]
pub fn number_on_time(commands: &[Command], rounds: &[u64]) -> u64
    ensures { result ≡ number_on_time commands.now rounds.now }
{
    commands
        .iter()
        .zip(rounds)
        .filter(|(command, round)| **round <= command.due)
        .count() as u64
}

/// Whether the round is one of the window's rounds, `from` to `due`.
fn holds(window: Window, round: u64) -> bool
    ensures { result ≡ holds window round }
{
    window.from <= round && round <= window.due
}

/// How many commands are released by their due round, with both of these among the window's rounds `from` to `due`.
#[tactic(auto, unfolding(crate::specs::OnTime::inside_of))]
pub fn inside(commands: &[Command], window: Window) -> u64
    ensures { result ≡ inside_of commands.now window }
{
    commands
        .iter()
        .filter(|c| c.release <= c.due && holds(window, c.release) && holds(window, c.due))
        .count() as u64
}

/// Whether the command is released by its due round and lies in none of the windows. The one that may hold it is found by
/// halves.
fn is_outside(command: Command, cover: &[Window]) -> bool
    requires { IsCover cover.now }
    ensures { result ≡ (can_be_on_time command && not (list_any (λ w. lies_in command w) cover.now)) }
{
    let place = cover.partition_point(|w| w.from <= command.release);
    command.release <= command.due && (place == 0 || cover[place - 1].due < command.due)
}

/// How many commands are released by their due round and lie in none of the windows, which must be disjoint and rise.
#[tactic(auto, unfolding(crate::specs::OnTime::outside_of))]
pub fn outside(commands: &[Command], cover: &[Window]) -> u64
    requires { IsCover cover.now }
    ensures value { result ≡ outside_of commands.now cover.now }
    ensures most { result ≤ length commands.now }
{
    commands.iter().filter(|c| is_outside(**c, cover)).count() as u64
}

/// How many commands the window's rounds, `from` to `due`, carry; `due` must lie below [`MAX_ROUNDS`].
#[tactic(auto, unfolding(crate::specs::OnTime::carried_in))]
pub fn carried_in<A: Allocator>(capacity: &Capacity<A>, window: Window) -> u64
    requires { window.due < MAX_ROUNDS }
    ensures value { result ≡ carried_in capacity.now window }
    ensures most { result ≤ MAX_DEPTH * (window.due + 1 - window.from) }
{
    capacity.sum(window.from, window.due + 1)
}

/// How many commands the windows' rounds carry. The windows must be disjoint and rise, and lie below [`MAX_ROUNDS`].
pub fn carried_by<A: Allocator>(capacity: &Capacity<A>, cover: &[Window]) -> u64
    requires disjoint { IsCover cover.now }
    requires in_range { CoverInRange cover.now }
    ensures value { result ≡ carried_by capacity.now cover.now }
    ensures small { result ≤ MAX_DEPTH * MAX_ROUNDS }
{
    let mut total = 0;
    for window in cover {
        total += carried_in(capacity, *window);
    }
    total
}

/// The first window by place that has no round, or doesn't begin after the one before it ends.
fn first_astray(cover: &[Window]) -> Option<usize>
    ensures none { IfNone result (IsCover cover.now) }
    ensures first { IfSome result (IsFirstAstray cover.now) }
{
    for (place, window) in cover.iter().enumerate() {
        if window.due < window.from {
            return Some(place);
        }
        if place > 0 && window.from <= cover[place - 1].due {
            return Some(place);
        }
    }
    None
}

/// Checks a schedule, how many commands it has on time, and a cover: disjoint windows of rounds whose capacity, with the number of
/// the commands that are released by their due round and lie in no window, is that number. Where the answer is `Ok`, no
/// legal schedule of these commands has more on time; it has the two parts of that bound.
///
/// A window's rounds are `from` to `due`. Both are below [`MAX_ROUNDS`], as [`cover_in_range`] tells.
///
/// The answer depends on the claim alone, but for `Memory`, which may come in place of any answer after `BeforeRelease`.
/// Refused, in this order, as `Length`, `BeforeRelease`, `Memory`, `OverDepth`, `WrongMet`, `Windows` and `Loose`, with the
/// value that [`OnTimeFault`] says. A copy of the rounds is sorted, and each command looks for its window by halves.
pub fn check_on_time<A: Allocator, B: Allocator>(
    alloc: A,
    commands: &[Command],
    capacity: &Capacity<B>,
    rounds: &[u64],
    on_time: u64,
    cover: &[Window],
) -> Result<Bound, OnTimeFault>
    requires { CoverInRange cover.now }
    ensures answer { IsOnTimeAnswer commands.now capacity.now rounds.now on_time cover.now result }
    ensures accepts { AcceptsOnTimeClaim commands.now capacity.now rounds.now on_time cover.now result }
    // no legal schedule has more on time
    ensures most { OnOk result (IsMostOnTime commands.now capacity.now on_time) }
{
    if rounds.len() != commands.len() {
        return Err(OnTimeFault::Length);
    }
    if let Some(id) = first_early(commands, rounds) {
        return Err(OnTimeFault::BeforeRelease(id));
    }
    let Ok(over_deep) = least_over_deep(alloc, rounds, capacity) else {
        return Err(OnTimeFault::Memory);
    };
    if let Some(round) = over_deep {
        return Err(OnTimeFault::OverDepth(round));
    }
    let own = number_on_time(commands, rounds);
    if own != on_time {
        return Err(OnTimeFault::WrongMet(own));
    }
    if let Some(place) = first_astray(cover) {
        return Err(OnTimeFault::Windows(place));
    }
    let bound = Bound {
        carries: carried_by(capacity, cover),
        outside: outside(commands, cover),
    };
    let most = bound.carries + bound.outside;
    if most != on_time {
        return Err(OnTimeFault::Loose(most));
    }
    Ok(bound)
}

/// What windows carry, with the number of the commands that are released by their due round and lie in none of them, bounds
/// how many commands any legal schedule has on time; windows that overlap only bound it worse.
///
/// A theorem: it does nothing at run time, and a caller has its clause.
pub fn law_of_covers<A: Allocator>(commands: &[Command], capacity: &Capacity<A>, cover: &[Window])
    ensures { IsOnTimeBound commands.now capacity.now (bound_of commands.now capacity.now cover.now) }
{
    // brings the prover the invariants of what the clause speaks of
    let _ = (commands.len(), capacity.at(0), cover.len());
}
