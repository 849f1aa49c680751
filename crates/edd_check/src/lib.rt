//! Checks a claim of least lateness, whoever made it.
//!
//! The objective is Pinedo's greatest lateness Lmax (Scheduling), of the commands and capacities of `edd_commands`. All
//! calls go by place in the lists, and don't look at whether ids repeat.
#![tactic(auto)]

ghost use Rattle.std.specs.Prelude.{◌+◌, ◌*◌, ℕ, ℤ, pos, negsuc, ◌+ℤ◌, ◌≤ℤ◌, ◌<ℤ◌, ◌-◌, IfNone, IfOk, OnOk, ◌≡◌, ◌<◌, ◌↔◌, [], length, IsTrue, IsNone, IfSome, ◌≤◌, All};
ghost use Rattle.edd_check.specs.Names.{check_told};
ghost use Rattle.edd_commands.specs.Capacity.{depth_at};
ghost use Rattle.edd_commands.specs.Schedule.{IsLegal, IsGreatestLateness, StartsReleased, IsLeastLateness, IsLowerBound, places_at, CommandsInRange, RoundsInRange};
ghost use Rattle.edd_check.specs.Rules.{IsFirstEarly, IsLeastOverDeep};
ghost use Rattle.edd_check.specs.Inside.Blocks.{IsLeastRoundFrom, IsWithinDepth};
ghost use Rattle.edd_check.specs.Window.{load_of, rounds_between, IsCrowded, WindowInRange};
ghost use Rattle.edd_check.specs.Check.{IsAnswer, AcceptsClaim};

mod on_time;

use edd_commands::{Capacity, Command, Fault, MAX_ROUNDS, Told, told};
pub use on_time::{
    Bound, OnTimeFault, carried_by, carried_in, check_on_time, cover_in_range, inside,
    law_of_covers, number_on_time, outside,
};
use std::alloc::{AllocError, Allocator};
use thiserror::Error;

/// How many rounds one pass of [`is_legal`] counts.
const BLOCK: u64 = 4096;

/// A window asks for the commands that are released at `from` or later and due at `due` or sooner.
#[derive(Clone, Copy, Debug, PartialEq, Eq)]
pub struct Window {
    /// The first round of the window.
    pub from: u64,
    /// The latest due round; it may lie before `from`.
    pub due: u64,
}

/// How crowded the window of a good claim is.
#[derive(Clone, Copy, Debug, PartialEq, Eq)]
pub struct Crowding {
    /// The window's load: how many commands it asks for.
    pub load: u64,
    /// How many commands its rounds carry, if each is to be less late than the claimed lateness.
    pub carries: u64,
}

/// Why a claim is refused, in the order in which the reasons are looked for.
#[derive(Clone, Copy, Debug, PartialEq, Eq, Error)]
#[error("{}", self.name())]
pub enum CheckFault {
    /// There are more rounds than commands, or fewer.
    Length,
    /// The first command by place that runs before its release, by its id.
    BeforeRelease(u64),
    /// Memory ran out.
    Memory,
    /// The least round with more commands than it carries.
    OverDepth(u64),
    /// The schedule's own greatest lateness, which is not the claimed one.
    WrongLateness(i64),
    /// The window's load, which its rounds can carry.
    NotCrowded(u64),
}

impl Fault for CheckFault {
    ghost told = { check_told };

    fn told(&self) -> Told {
        told!(self: CheckFault {
            Length,
            BeforeRelease(id) => Number(id),
            Memory => Memory,
            OverDepth(round) => Number(round),
            WrongLateness(own) => Signed(own),
            NotCrowded(load) => Number(load),
        })
    }
}

/// Whether every release, due, scheduled and window round lies below [`MAX_ROUNDS`], as [`check`] requires.
pub fn in_range(commands: &[Command], rounds: &[u64], window: Window) -> bool
    ensures { IsTrue result
        ↔ (CommandsInRange commands.now × RoundsInRange rounds.now × WindowInRange window) }
{
    commands
        .iter()
        .all(|c| c.release < MAX_ROUNDS && c.due < MAX_ROUNDS)
        && rounds.iter().all(|x| *x < MAX_ROUNDS)
        && window.from < MAX_ROUNDS
        && window.due < MAX_ROUNDS
}

/// The window's load: how many commands are released at its `from` or later and due at its `due` or sooner.
pub fn load(commands: &[Command], window: Window) -> u64
    ensures { result ≡ load_of commands.now window }
{
    commands
        .iter()
        .filter(|c| window.from <= c.release && c.due <= window.due)
        .count() as u64
}

/// Whether each command of two equally long lists runs in its release round or later.
fn starts_released(commands: &[Command], rounds: &[u64]) -> bool
    requires { length commands.now ≡ length rounds.now }
    ensures { IsTrue result ↔ StartsReleased commands.now rounds.now }
{
    commands
        .iter()
        .zip(rounds)
        .all(|(command, round)| command.release <= *round)
}

/// The least round of the list that is `from` or later.
fn least_from(rounds: &[u64], from: u64) -> Option<u64>
    ensures some { IfSome result (λ x. IsLeastRoundFrom rounds.now from x) }
    ensures none { IfNone result (All (λ x. x < from) rounds.now) }
{
    let mut least: Option<u64> = None;
    for x in rounds {
        if *x >= from {
            least = match least {
                None => Some(*x),
                Some(y) => Some(y.min(*x)),
            };
        }
    }
    least
}

/// Whether each of the [`BLOCK`] rounds from `from` on stands in at most as many places as it carries.
fn block_stays_within<A: Allocator>(rounds: &[u64], capacity: &Capacity<A>, from: u64) -> bool
    ensures { IsTrue result ↔ ((k : ℕ) → k < BLOCK → IsWithinDepth rounds.now capacity.now (from + k)) }
{
    let mut counts = [0u64; BLOCK as usize];
    for x in rounds {
        if *x >= from && *x - from < BLOCK {
            let k = (*x - from) as usize;
            if counts[k] >= capacity.at(*x) {
                return false;
            }
            counts[k] += 1;
        }
    }
    true
}

/// Whether each round stands in no more places than it carries.
fn stays_within<A: Allocator>(rounds: &[u64], capacity: &Capacity<A>) -> bool
    ensures { IsTrue result ↔ ((x : ℕ) → IsWithinDepth rounds.now capacity.now x) }
{
    let mut from = 0;
    while let Some(least) = least_from(rounds, from) {
        if !block_stays_within(rounds, capacity, least) {
            return false;
        }
        let Some(next) = least.checked_add(BLOCK) else {
            return true;
        };
        from = next;
    }
    true
}

/// Whether the schedule is legal: each command has a round, none before its release, and no round has more
/// commands than it carries. Lists of different lengths are not.
///
/// It takes no memory. It counts in blocks of 4,096 rounds from the least one on that is not yet counted, with two
/// passes over the list for each block, one to find where it begins and one to count it. So its time grows with the list
/// for rounds that lie close together, and with the square of its length only for rounds that are scattered. [`check`]
/// sorts a copy instead.
pub fn is_legal<A: Allocator>(commands: &[Command], rounds: &[u64], capacity: &Capacity<A>) -> bool
    ensures { IsTrue result ↔ IsLegal commands.now rounds.now capacity.now }
{
    rounds.len() == commands.len()
        && starts_released(commands, rounds)
        && stays_within(rounds, capacity)
}

/// The greatest of the commands' latenesses (Pinedo's Lmax), each its round less its due round: negative where all
/// run before they are due. There is none exactly where there are no commands. There must be as many rounds as commands, and
/// each round, release and due round lie below [`MAX_ROUNDS`].
pub fn greatest_lateness(commands: &[Command], rounds: &[u64]) -> Option<i64>
    requires equal { length commands.now ≡ length rounds.now }
    requires commands_in { CommandsInRange commands.now }
    requires rounds_in { RoundsInRange rounds.now }
    ensures none { IsNone result ↔ (commands.now ≡ []) }
    ensures greatest { IfSome result (IsGreatestLateness commands.now rounds.now) }
{
    let mut greatest: Option<i64> = None;
    for (i, command) in commands.iter().enumerate() {
        let lateness = rounds[i] as i64 - command.due as i64;
        greatest = match greatest {
            None => Some(lateness),
            Some(g) => Some(g.max(lateness)),
        };
    }
    greatest
}

/// The id of the first command by place that runs before its release.
fn first_early(commands: &[Command], rounds: &[u64]) -> Option<u64>
    requires { length commands.now ≡ length rounds.now }
    ensures none { IfNone result (StartsReleased commands.now rounds.now) }
    ensures first { IfSome result (IsFirstEarly commands.now rounds.now) }
{
    for (i, command) in commands.iter().enumerate() {
        if rounds[i] < command.release {
            return Some(command.id);
        }
    }
    None
}

/// The least round that more places have than it carries.
fn least_over_deep<A: Allocator, B: Allocator>(
    alloc: A,
    rounds: &[u64],
    capacity: &Capacity<B>,
) -> Result<Option<u64>, AllocError>
    ensures none { IfOk result (λ found. IfNone found ((x : ℕ) → places_at rounds.now x ≤ depth_at capacity.now x)) }
    ensures least { IfOk result (λ found. IfSome found (IsLeastOverDeep rounds.now capacity.now)) }
{
    let mut sorted = Vec::from_slice(alloc, rounds)?;
    sorted.sort_unstable();
    for last in 0..sorted.len() {
        let depth = capacity.at(sorted[last]) as usize;
        if depth <= last && sorted[last - depth] == sorted[last] {
            return Ok(Some(sorted[last]));
        }
    }
    Ok(None)
}

/// The round after the last in which the window's commands may run if each is to be less late than `lateness`, or the
/// window's `from` where there is none.
fn end_of(window: Window, lateness: i64) -> u64
    requires window { WindowInRange window }
    requires low { negsuc MAX_ROUNDS ≤ℤ lateness }
    requires high { lateness <ℤ pos MAX_ROUNDS }
    ensures rounds { result - window.from ≡ rounds_between window.from (pos window.due +ℤ lateness) }
    ensures small { result < 2 * MAX_ROUNDS }
{
    let end = window.due as i64 + lateness;
    if end <= window.from as i64 {
        window.from
    } else {
        end as u64
    }
}

/// Checks a schedule, its greatest lateness, and a window that asks for more commands than its rounds carry if each is
/// to be less late: more than the rounds from the window's `from` to its `due + lateness - 1` carry. Where the
/// answer is `Ok`, no legal schedule of these commands has a smaller greatest lateness; it says how many the window asks
/// for and how many its rounds carry.
///
/// `lateness` is counted in rounds; every release, due, scheduled and window round lies below [`MAX_ROUNDS`], as
/// [`in_range`] tells.
///
/// The answer depends on the claim alone, but for `Memory`, which may come in place of any answer after `BeforeRelease`.
/// Refused, in this order, as `Length`, `BeforeRelease`, `Memory`, `OverDepth`, `WrongLateness` and `NotCrowded`, with the
/// value that [`CheckFault`] says. With no commands there is no lateness to be wrong, and the answer is
/// `NotCrowded(0)`. A copy of the rounds is sorted, which is all the memory that it takes.
pub fn check<A: Allocator, B: Allocator>(
    alloc: A,
    commands: &[Command],
    capacity: &Capacity<B>,
    lateness: i64,
    rounds: &[u64],
    window: Window,
) -> Result<Crowding, CheckFault>
    requires commands_in { CommandsInRange commands.now }
    requires rounds_in { RoundsInRange rounds.now }
    requires window_in { WindowInRange window }
    ensures answer { IsAnswer commands.now capacity.now lateness rounds.now window result }
    ensures accepts { AcceptsClaim commands.now capacity.now lateness rounds.now window result }
    // the accepted lateness is least
    ensures least { OnOk result (IsLeastLateness commands.now capacity.now lateness) }
{
    if rounds.len() != commands.len() {
        return Err(CheckFault::Length);
    }
    if let Some(id) = first_early(commands, rounds) {
        return Err(CheckFault::BeforeRelease(id));
    }
    let Ok(over_deep) = least_over_deep(alloc, rounds, capacity) else {
        return Err(CheckFault::Memory);
    };
    if let Some(round) = over_deep {
        return Err(CheckFault::OverDepth(round));
    }
    let load = load(commands, window);
    let Some(own) = greatest_lateness(commands, rounds) else {
        return Err(CheckFault::NotCrowded(load));
    };
    if own != lateness {
        return Err(CheckFault::WrongLateness(own));
    }
    let carries = capacity.sum(window.from, end_of(window, lateness));
    if load <= carries {
        return Err(CheckFault::NotCrowded(load));
    }
    Ok(Crowding { load, carries })
}

/// A window that is crowded at a lateness bounds the greatest lateness of every legal schedule of the commands.
///
/// A theorem: it does nothing at run time, and a caller has its clause.
pub fn law_of_crowded_windows<A: Allocator>(
    commands: &[Command],
    capacity: &Capacity<A>,
    lateness: i64,
    window: Window,
)
    requires { IsCrowded commands.now capacity.now lateness window }
    ensures { IsLowerBound commands.now capacity.now lateness }
{
    // brings the prover the invariants of what the clause speaks of
    let _ = (commands.len(), capacity.at(0), lateness, window.from);
}
