//! The requests of a part, as those of one process.

ghost use Rattle.std.specs.Prelude.{◌≡◌, IfOk, length, map};
ghost use Rattle.edd_commands.specs.Schedule.{IsLegal};
ghost use Rattle.edd_oracle.specs.Input.{IsTaken};
ghost use Rattle.edd_blame.specs.Parts.{command_here, ArePlaces, IsLeastLateAt, IsMostSavedAt, IsLeastLateBeside, marked_places, other_places};
ghost use Rattle.edd_blame.specs.Inside.{on_time_places, late_places};

use edd_commands::{Capacity, Command};
use edd_oracle::most_on_time_taken;
use edd_verdict::law_of_spares;
use std::alloc::{AllocError, Allocator};

/// The commands at these places.
fn commands_at<A: Allocator>(
    alloc: A,
    commands: &[Command],
    places: &[usize],
) -> Result<Vec<Command, A>, AllocError>
    requires { ArePlaces (length commands.now) places.now }
    ensures { IfOk result (λ v. v.items ≡ map (command_here commands.now) places.now) }
{
    let mut part = Vec::with_capacity(alloc, places.len())?;
    for place in places {
        part.push(commands[*place])?;
    }
    Ok(part)
}

/// The places that are marked, and the others.
#[derive(Drop)]
struct MarkedPlaces<A: Allocator> {
    marked: Vec<usize, A>,
    others: Vec<usize, A>,
}

/// Which places are marked, and which aren't.
fn parted<A: Allocator + Clone>(alloc: A, marks: &[bool]) -> Result<MarkedPlaces<A>, AllocError>
    ensures marked { IfOk result (λ p. p.marked.items ≡ marked_places marks.now) }
    ensures others { IfOk result (λ p. p.others.items ≡ other_places marks.now) }
{
    let mut marked = Vec::new(alloc.clone()?);
    let mut others = Vec::new(alloc);
    for (place, mark) in marks.iter().enumerate() {
        if *mark {
            marked.push(place)?;
        } else {
            others.push(place)?;
        }
    }
    Ok(MarkedPlaces { marked, others })
}

/// The places of the commands that are on time.
fn on_time_places<A: Allocator>(
    alloc: A,
    commands: &[Command],
    rounds: &[u64],
) -> Result<Vec<usize, A>, AllocError>
    requires { length rounds.now ≡ length commands.now }
    ensures { IfOk result (λ v. v.items ≡ on_time_places commands.now rounds.now) }
{
    let mut found = Vec::new(alloc);
    for (place, command) in commands.iter().enumerate() {
        if rounds[place] <= command.due {
            found.push(place)?;
        }
    }
    Ok(found)
}

/// Those of the places whose commands are late.
fn late_places<A: Allocator>(
    alloc: A,
    commands: &[Command],
    rounds: &[u64],
    places: &[usize],
) -> Result<Vec<usize, A>, AllocError>
    requires one_each { length rounds.now ≡ length commands.now }
    requires places { ArePlaces (length commands.now) places.now }
    ensures { IfOk result (λ v. v.items ≡ late_places commands.now rounds.now places.now) }
{
    let mut found = Vec::new(alloc);
    for place in places {
        if commands[*place].due < rounds[*place] {
            found.push(*place)?;
        }
    }
    Ok(found)
}

/// The fewest of the commands at these places that any legal schedule of all commands has late, whatever becomes of the others. No
/// place stands twice. A part that has as many late was hurt by none of the others.
///
/// Fails only when out of memory. The time grows as n log n in the number of places.
pub fn least_late_at<A: Allocator + Clone, B: Allocator>(
    alloc: A,
    commands: &[Command],
    capacity: &Capacity<B>,
    places: &[usize],
) -> Result<u64, AllocError>
    requires taken { IsTaken commands.now }
    requires places { ArePlaces (length commands.now) places.now }
    ensures { IfOk result (IsLeastLateAt commands.now capacity.now places.now) }
{
    // brings the prover the capacity's invariant
    let _ = capacity.at(0);
    let part = commands_at(alloc.clone()?, commands, places)?;
    let answer = most_on_time_taken(alloc, part.as_slice(), capacity)?;
    Ok(places.len() as u64 - answer.on_time)
}

/// The fewest of the marked commands that any legal schedule of all commands has late, whatever becomes of the others.
///
/// Fails only when out of memory. The time grows as n log n in the number of commands.
pub fn least_late_marked<A: Allocator + Clone, B: Allocator>(
    alloc: A,
    commands: &[Command],
    capacity: &Capacity<B>,
    marks: &[bool],
) -> Result<u64, AllocError>
    requires taken { IsTaken commands.now }
    requires one_each { length marks.now ≡ length commands.now }
    ensures { IfOk result (IsLeastLateAt commands.now capacity.now (marked_places marks.now)) }
{
    let parts = parted(alloc.clone()?, marks)?;
    let least = least_late_at(alloc, commands, capacity, parts.marked.as_slice())?;
    Ok(least)
}

/// The most of the late commands at these places that a legal schedule can have on time, beside all that are on time in this one. No
/// place stands twice.
///
/// Fails only when out of memory. The time grows as n log n in the number of commands.
pub fn most_saved_at<A: Allocator + Clone, B: Allocator>(
    alloc: A,
    commands: &[Command],
    rounds: &[u64],
    capacity: &Capacity<B>,
    places: &[usize],
) -> Result<u64, AllocError>
    requires taken { IsTaken commands.now }
    requires legal { IsLegal commands.now rounds.now capacity.now }
    requires places { ArePlaces (length commands.now) places.now }
    ensures { IfOk result (IsMostSavedAt commands.now rounds.now capacity.now places.now) }
{
    law_of_spares();
    // brings the prover the capacity's invariant
    let _ = capacity.at(0);
    let mut beside = on_time_places(alloc.clone()?, commands, rounds)?;
    let on_time = beside.as_slice().len() as u64;
    let late = late_places(alloc.clone()?, commands, rounds, places)?;
    beside.extend_from_slice(late.as_slice())?;
    let part = commands_at(alloc.clone()?, commands, beside.as_slice())?;
    let answer = most_on_time_taken(alloc, part.as_slice(), capacity)?;
    Ok(answer.on_time - on_time)
}

/// The fewest of the marked commands that a legal schedule has late which has as few of the others late as any.
///
/// Fails only when out of memory. The time grows as n log n in the number of commands.
pub fn least_late_beside<A: Allocator + Clone, B: Allocator>(
    alloc: A,
    commands: &[Command],
    capacity: &Capacity<B>,
    marks: &[bool],
) -> Result<u64, AllocError>
    requires taken { IsTaken commands.now }
    requires one_each { length marks.now ≡ length commands.now }
    ensures { IfOk result (IsLeastLateBeside commands.now capacity.now (marked_places marks.now) (other_places marks.now)) }
{
    law_of_spares();
    let parts = parted(alloc.clone()?, marks)?;
    let others = least_late_at(alloc.clone()?, commands, capacity, parts.others.as_slice())?;
    let answer = most_on_time_taken(alloc, commands, capacity)?;
    let late = commands.len() as u64 - answer.on_time;
    Ok(late - others)
}
