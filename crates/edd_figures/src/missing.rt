//! How many commands of a schedule are late, and how many of them had to be.

ghost use Rattle.std.specs.Prelude.{◌≡◌, ◌≤◌, ◌<◌, ◌↔◌, IfOk, IfSome, length, map};
ghost use Rattle.edd_commands.specs.declared.TheConstants.{MAX_COMMANDS};
ghost use Rattle.edd_commands.specs.Schedule.{IsLegal};
ghost use Rattle.edd_check.specs.OnTime.{inside_of, IsCover, IsMostOnTime, CoverInRange};
ghost use Rattle.edd_oracle.specs.Input.{IsTaken};
ghost use Rattle.edd_oracle.specs.OnTime.{IsOnTimeFirst, IsMostOf, HasPassedCover};
ghost use Rattle.edd_verdict.specs.Verdicts.{is_spare, spares_in};
ghost use Rattle.edd_figures.specs.Misses.{crowd_of, number_late, HasMisses, HasSpares};
ghost use Rattle.edd_figures.specs.Inside.Placed.{IsPlaceOf};

use edd_check::{Window, carried_in, number_on_time};
use edd_commands::{Capacity, Command};
use edd_oracle::{MostOnTime, most_on_time_taken};
use edd_verdict::{Verdict, law_of_spares, law_of_verdicts, verdicts};
use std::alloc::{AllocError, Allocator, Global};

/// A window of rounds, and what is asked of them.
#[derive(Clone, Copy, Debug, PartialEq, Eq)]
pub struct Crowd {
    /// The window: its rounds are `from` to `due`, both in it.
    pub window: Window,
    /// How many commands are released by their due round, with both of these among its rounds: on time they run there.
    pub commands: u64,
    /// How many commands its rounds carry.
    pub carries: u64,
}

/// How many commands a schedule has, how many of them are late, and how many had to be.
#[derive(Clone, Copy, Debug, PartialEq, Eq)]
pub struct Counts {
    /// How many commands there are.
    pub commands: u64,
    /// How many of them run after they are due.
    pub late: u64,
    /// The fewest that any schedule has late: some legal schedule of these commands has this many, and none has fewer.
    pub unavoidable: u64,
    /// The others: by how many a schedule could have had fewer late.
    pub avoidable: u64,
    /// How many of the late ones could each have been on time beside those that were: their verdict is [`Verdict::Spare`].
    pub spare: u64,
}

/// The counts of a schedule, and what proves them.
#[derive(Debug, Drop)]
pub struct Misses<A: Allocator = Global> {
    /// The numbers.
    pub counts: Counts,
    /// Disjoint windows, by rising rounds, which prove that no schedule has fewer late commands: of those that lie in a window at
    /// most as many are on time as its rounds carry.
    pub windows: Vec<Crowd, A>,
}

/// The place of the window in which a command lies that is released by its due round, if there is one. It is found by halves.
fn window_of(command: Command, cover: &[Window]) -> Option<usize>
    requires { IsCover cover.now }
    ensures within { IfSome result (λ place. place < length cover.now) }
    ensures place { IsPlaceOf command cover.now result }
{
    if command.due < command.release {
        return None;
    }
    let place = cover.partition_point(|w| w.from <= command.release);
    if place == 0 || cover[place - 1].due < command.due {
        return None;
    }
    Some(place - 1)
}

/// How many commands lie in each of the windows, of those that are released by their due round.
fn inside_each<A: Allocator>(
    alloc: A,
    commands: &[Command],
    cover: &[Window],
) -> Result<Vec<u64, A>, AllocError>
    requires disjoint { IsCover cover.now }
    requires few { length commands.now ≤ MAX_COMMANDS }
    ensures { IfOk result (λ v. v.items ≡ map (λ w. inside_of commands.now w) cover.now) }
{
    let mut counts = Vec::new(alloc);
    counts.resize(cover.len(), 0)?;
    for command in commands {
        if let Some(place) = window_of(*command, cover) {
            counts[place] += 1;
        }
    }
    Ok(counts)
}

/// What is asked of the rounds of each window.
fn crowds<A: Allocator + Clone, B: Allocator>(
    alloc: A,
    commands: &[Command],
    capacity: &Capacity<B>,
    cover: &[Window],
) -> Result<Vec<Crowd, A>, AllocError>
    requires disjoint { IsCover cover.now }
    requires in_range { CoverInRange cover.now }
    requires few { length commands.now ≤ MAX_COMMANDS }
    ensures { IfOk result (λ v. v.items ≡ map (λ w. crowd_of commands.now capacity.now w) cover.now) }
{
    let counts = inside_each(alloc.clone()?, commands, cover)?;
    let mut crowds = Vec::new(alloc);
    for (place, window) in cover.iter().enumerate() {
        crowds.push(Crowd {
            window: *window,
            commands: counts[place],
            carries: carried_in(capacity, *window),
        })?;
    }
    Ok(crowds)
}

/// Whether a late command could have been on time beside those that were.
fn is_spare(verdict: &Option<Verdict>) -> bool
    ensures { result ≡ is_spare verdict.now }
{
    match *verdict {
        None => false,
        Some(Verdict::Arrival) => false,
        Some(Verdict::Spare) => true,
        Some(Verdict::Full(_)) => false,
    }
}

/// How many could.
fn spares(verdicts: &[Option<Verdict>]) -> u64
    ensures { result ≡ spares_in verdicts.now }
{
    let mut count = 0;
    for verdict in verdicts {
        if is_spare(verdict) {
            count += 1;
        }
    }
    count
}

/// How many late commands of a legal schedule are spare, where `most` is the greatest number of commands that can be on time. Where
/// the schedule itself has as many on time, none is spare, and no verdict is asked for.
fn spare_of<A: Allocator + Clone, B: Allocator>(
    alloc: A,
    commands: &[Command],
    rounds: &[u64],
    capacity: &Capacity<B>,
    most: u64,
) -> Result<u64, AllocError>
    requires taken { IsTaken commands.now }
    requires legal { IsLegal commands.now rounds.now capacity.now }
    requires most { IsMostOnTime commands.now capacity.now most }
    ensures { IfOk result (HasSpares commands.now rounds.now capacity.now (number_late commands.now rounds.now)) }
{
    law_of_verdicts();
    law_of_spares();
    if number_on_time(commands, rounds) == most {
        return Ok(0);
    }
    let verdicts = verdicts(alloc, commands, rounds, capacity)?;
    Ok(spares(verdicts.as_slice()))
}

/// The misses of the schedule, of which `spare` are spare, by the oracle's answer.
fn counted<A: Allocator + Clone, B: Allocator, C: Allocator>(
    alloc: A,
    spare: u64,
    commands: &[Command],
    rounds: &[u64],
    capacity: &Capacity<B>,
    answer: &MostOnTime<C>,
) -> Result<Misses<A>, AllocError>
    requires legal { IsLegal commands.now rounds.now capacity.now }
    requires few { length commands.now ≤ MAX_COMMANDS }
    requires most { IsMostOf commands.now capacity.now answer.now }
    requires first { IsOnTimeFirst commands.now answer.now.rounds.items capacity.now }
    requires passed { HasPassedCover commands.now capacity.now answer.now }
    ensures misses { IfOk result (λ m. HasMisses commands.now rounds.now capacity.now m.counts m.windows.items) }
    ensures kept { IfOk result (λ m. m.counts.spare ≡ spare) }
{
    let count = commands.len() as u64;
    let late = count - number_on_time(commands, rounds);
    let unavoidable = count - answer.on_time;
    let windows = crowds(alloc, commands, capacity, answer.cover.as_slice())?;
    let counts = Counts {
        commands: count,
        late,
        unavoidable,
        avoidable: late - unavoidable,
        spare,
    };
    Ok(Misses { counts, windows })
}

/// How many commands of a legal schedule are late, how many of these had to be, and the windows that prove it: no legal schedule of
/// the same commands has fewer late, and some has no more. Of the late ones it counts those that are spare. The commands are as the
/// oracle takes them. Fails only when out of memory. The time grows as n log n in the number of commands.
pub fn misses_of<A: Allocator + Clone, B: Allocator>(
    alloc: A,
    commands: &[Command],
    rounds: &[u64],
    capacity: &Capacity<B>,
) -> Result<Misses<A>, AllocError>
    requires taken { IsTaken commands.now }
    requires legal { IsLegal commands.now rounds.now capacity.now }
    ensures are { IfOk result (λ m. HasMisses commands.now rounds.now capacity.now m.counts m.windows.items) }
    ensures spares { IfOk result (λ m. HasSpares commands.now rounds.now capacity.now m.counts.late m.counts.spare) }
    // what could have been avoided is no more than what is spare, and is something exactly where something is spare
    ensures at_most { IfOk result (λ m. m.counts.avoidable ≤ m.counts.spare) }
    ensures some { IfOk result (λ m. (0 < m.counts.avoidable) ↔ (0 < m.counts.spare)) }
{
    law_of_spares();
    let Ok(answer) = most_on_time_taken(alloc.clone()?, commands, capacity) else {
        return Err(AllocError);
    };
    let spare = spare_of(alloc.clone()?, commands, rounds, capacity, answer.on_time)?;
    let missed = counted(alloc, spare, commands, rounds, capacity, &answer)?;
    Ok(missed)
}
