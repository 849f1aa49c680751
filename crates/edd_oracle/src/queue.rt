//! Earliest due date first, by a heap of the released commands.

ghost use Rattle.std.specs.Prelude.{◌≡◌, ◌≤◌, ◌<◌, ◌+◌, ◌^◌, ℕ, Some, None, length, map, All, IfOk, OnOk, slice_index_or};
ghost use Rattle.std.specs.List.Sorted.{IsNonDecreasingBy};
ghost use Rattle.std.specs.BinaryHeap.{heap_items, IsHeap};
ghost use Rattle.edd_commands.specs.Capacity.{depth_at};
ghost use Rattle.edd_commands.specs.declared.TheConstants.{MAX_COMMANDS};
ghost use Rattle.edd_commands.specs.Schedule.{IsLegal, RoundsInRange};
ghost use Rattle.edd_commands.specs.declared.Command.{Command};
ghost use Rattle.edd_oracle.specs.Input.{IsSolvable};
ghost use Rattle.edd_oracle.specs.Inside.Queue.{IsWaiting, IsArrival, IsReleasedBy, waiting_cmp, IsRest, AreTakenIn, GrowsUpTo};
ghost use Rattle.edd_oracle.specs.Inside.Leave.{IsTakenOut, IsBegun, HaveLeft, IsAfter, AreUnplaced};
ghost use Rattle.edd_oracle.specs.OnTime.{IsOnTimeFirst};
ghost use Rattle.edd_oracle.specs.Priority.{IsEarliestDueFirst};

use edd_commands::{Capacity, Command};
use std::alloc::{AllocError, Allocator};
use std::cmp::Reverse;
use std::collections::BinaryHeap;

/// When the command at a place is released.
#[derive(Clone, Copy, Debug, PartialEq, Eq)]
struct Arrival {
    /// Its release round.
    release: u64,
    /// Its place in the list.
    place: usize,
}

/// A released command that has no round yet. The one that is due first is the least, on a tie the one with the least id.
#[derive(Clone, Copy, Debug, PartialEq, Eq, PartialOrd, Ord)]
struct Released {
    /// Its due round.
    due: u64,
    /// Its id.
    id: u64,
    /// Its place in the list.
    place: usize,
}

/// The places of the commands that have no round yet, by release.
fn arrivals<A: Allocator>(
    alloc: A,
    commands: &[Command],
    rounds: &[Option<u64>],
) -> Result<Vec<Arrival, A>, AllocError>
    requires { length rounds.now ≡ length commands.now }
    ensures once { IfOk result (λ found. AreUnplaced rounds.now (length commands.now) found.items) }
    ensures placed { IfOk result (λ found. All (IsArrival commands.now) found.items) }
    ensures rising { IfOk result (λ found. IsNonDecreasingBy (λ a. a.release) found.items) }
{
    let mut found = Vec::with_capacity(alloc, commands.len())?;
    for (place, command) in commands.iter().enumerate() {
        if rounds[place].is_none() {
            let Ok(()) = found.push(Arrival {
                release: command.release,
                place,
            }) else {
                return Err(AllocError);
            };
        }
    }
    found.sort_unstable_by_key(|a| a.release);
    Ok(found)
}

/// Takes into the heap what is released by the round, from `start` on, and answers where the later ones begin.
fn release<A: Allocator>(
    commands: &[Command],
    arrivals: &[Arrival],
    start: usize,
    round: u64,
    waiting: &mut BinaryHeap<Reverse<Released>, A>,
) -> Result<usize, AllocError>
    requires placed { All (IsArrival commands.now) arrivals.now }
    requires rising { IsNonDecreasingBy (λ a. a.release) arrivals.now }
    requires within { start ≤ length arrivals.now }
    requires ordered { IsHeap waiting_cmp (heap_items waiting.old) }
    requires released { All (IsReleasedBy commands.now round) (heap_items waiting.old) }
    ensures within { IfOk result (λ next. next ≤ length arrivals.now) }
    ensures kept { IfOk result (AreTakenIn arrivals.now start (heap_items waiting.old) (heap_items waiting.new)) }
    ensures rest { IfOk result (λ next. IsRest arrivals.now next round) }
    ensures ordered { OnOk result (IsHeap waiting_cmp (heap_items waiting.new)) }
    ensures released { OnOk result (All (IsReleasedBy commands.now round) (heap_items waiting.new)) }
    ensures some { OnOk result (length (heap_items waiting.old) ≤ length (heap_items waiting.new)) }
    ensures more { IfOk result (λ next. start < next → 0 < length (heap_items waiting.new)) }
    ensures after { IfOk result (λ next. start ≤ next) }
    ensures moved { IfOk result (GrowsUpTo start (heap_items waiting.old) (heap_items waiting.new)) }
{
    let mut next = start;
    while next < arrivals.len() && arrivals[next].release <= round {
        let place = arrivals[next].place;
        let Command { due, id, .. } = commands[place];
        let Ok(()) = waiting.push(Reverse(Released { due, id, place })) else {
            return Err(AllocError);
        };
        next += 1;
    }
    Ok(next)
}

/// The rounds, once each command has one.
fn settled<A: Allocator + Clone>(
    alloc: A,
    rounds: &[Option<u64>],
) -> Result<Vec<u64, A>, AllocError>
    requires { (k : ℕ) → ¬ IsWaiting rounds.now k }
    ensures { IfOk result (λ all. map (λ x. Some x) all.items ≡ rounds.now) }
{
    let mut all = Vec::with_capacity(alloc, rounds.len())?;
    for round in rounds {
        if let Some(x) = *round {
            let Ok(()) = all.push(x) else {
                return Err(AllocError);
            };
        }
    }
    Ok(all)
}

/// Gives the command the round, unless late commands are passed over and it is late, and answers how many places it takes.
fn take<A: Allocator>(
    rounds: &mut Vec<Option<u64>, A>,
    first: Released,
    round: u64,
    passes: bool,
) -> u64
    requires { first.place < length rounds.old.items }
    ensures { IsTakenOut passes first round rounds.old.items rounds.new.items result }
{
    if passes && first.due < round {
        return 0;
    }
    rounds[first.place] = Some(round);
    1
}

/// Gives a round to each command that has none: round by round from `start` on, of the released commands that wait, as
/// many as the round carries, those with the least due round, on a tie with the least id. Where late commands are passed
/// over, one that comes to its turn after its due round leaves without a round and takes no place.
fn leave<A: Allocator + Clone, B: Allocator>(
    alloc: A,
    commands: &[Command],
    capacity: &Capacity<B>,
    rounds: &mut Vec<Option<u64>, A>,
    start: u64,
    passes: bool,
) -> Result<(), AllocError>
    requires few { length commands.now ≤ MAX_COMMANDS }
    requires in_range { All IsSolvable commands.now }
    requires begun { IsBegun commands.now rounds.old.items capacity.now start }
    ensures { OnOk result (HaveLeft passes commands.now rounds.old.items rounds.new.items capacity.now start) }
{
    let arrivals = arrivals(alloc.clone()?, commands, rounds.as_slice())?;
    let mut waiting = BinaryHeap::new(alloc);
    let mut next = 0;
    let mut round = start;
    let mut depth = capacity.at(round);
    let mut used = 0;
    'places: while next < arrivals.len() || !waiting.is_empty() {
        if waiting.is_empty() && arrivals[next].release > round {
            round = arrivals[next].release;
            depth = capacity.at(round);
            used = 0;
        } else if used == depth {
            round += 1;
            depth = capacity.at(round);
            used = 0;
        }
        next = release(commands, arrivals.as_slice(), next, round, &mut waiting)?;
        let Some(Reverse(first)) = waiting.pop() else {
            unreachable!()
        };
        used += take(rounds, first, round, passes);
    }
    Ok(())
}

/// One more than the last of the rounds, or 0 where there is none.
fn after(rounds: &[Option<u64>]) -> u64
    requires { (k x : ℕ) → slice_index_or rounds.now k None ≡ Some x → x < 2 ^ 63 }
    ensures { IsAfter rounds.now result }
{
    let mut end = 0;
    for round in rounds {
        if let Some(x) = *round {
            if end <= x {
                end = x + 1;
            }
        }
    }
    end
}

/// A round for each command: round by round from the least release, of the released commands that have no round yet,
/// as many as the round carries, those with the least due round, on a tie with the least id.
pub fn schedule<A: Allocator + Clone, B: Allocator>(
    alloc: A,
    commands: &[Command],
    capacity: &Capacity<B>,
) -> Result<Vec<u64, A>, AllocError>
    requires few { length commands.now ≤ MAX_COMMANDS }
    requires in_range { All IsSolvable commands.now }
    ensures legal { IfOk result (λ rounds. IsLegal commands.now rounds.items capacity.now) }
    ensures in_range { IfOk result (λ rounds. RoundsInRange rounds.items) }
    ensures earliest { IfOk result (λ rounds. IsEarliestDueFirst commands.now rounds.items capacity.now) }
{
    let mut rounds = vec![in alloc.clone()?; None; commands.len()]?;
    leave(alloc.clone()?, commands, capacity, &mut rounds, 0, false)?;
    settled(alloc, rounds.as_slice())
}

/// A round for each command so that as many as possible are on time: earliest due first, passing over what can no longer be on time,
/// and from the round after the last one on time on earliest due first of what was passed over.
pub fn schedule_on_time<A: Allocator + Clone, B: Allocator>(
    alloc: A,
    commands: &[Command],
    capacity: &Capacity<B>,
) -> Result<Vec<u64, A>, AllocError>
    requires few { length commands.now ≤ MAX_COMMANDS }
    requires in_range { All IsSolvable commands.now }
    ensures legal { IfOk result (λ rounds. IsLegal commands.now rounds.items capacity.now) }
    ensures in_range { IfOk result (λ rounds. RoundsInRange rounds.items) }
    ensures first { IfOk result (λ rounds. IsOnTimeFirst commands.now rounds.items capacity.now) }
    ensures carries { OnOk result ((x : ℕ) → 0 < depth_at capacity.now x) }
{
    let mut rounds = vec![in alloc.clone()?; None; commands.len()]?;
    leave(alloc.clone()?, commands, capacity, &mut rounds, 0, true)?;
    let end = after(rounds.as_slice());
    leave(alloc.clone()?, commands, capacity, &mut rounds, end, false)?;
    settled(alloc, rounds.as_slice())
}
