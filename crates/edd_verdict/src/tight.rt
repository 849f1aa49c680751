//! The windows that are filled by commands that are all on time: where earliest due date first leaves no room for one more.

ghost use Rattle.std.specs.Prelude.{◌≡◌, ◌≤◌, ◌<◌, ◌-◌, ℕ, All, ◌+◌, IfOk, OnOk, [], ◌∷◌, length};
ghost use Rattle.edd_oracle.specs.declared.cover.Served.{Served as Running};
ghost use Rattle.std.specs.List.Sorted.{IsNonDecreasingBy, IsPermutation};
ghost use Rattle.edd_commands.specs.Capacity.{depth_at};
ghost use Rattle.edd_commands.specs.declared.TheConstants.{MAX_ROUNDS};
ghost use Rattle.edd_commands.specs.Schedule.{IsLegal, RoundsInRange};
ghost use Rattle.edd_oracle.specs.Priority.{IsEarliestDueFirst};
ghost use Rattle.edd_verdict.specs.Inside.Open.{AreFilled, AreOnTime};
ghost use Rattle.edd_oracle.specs.Inside.Cover.{running_at};
ghost use Rattle.edd_verdict.specs.Inside.Tight.{AreFull, AreRising, AreTight, IsLatestDue, DuesFall, IsDuePlace, all_served, room_before, last_or};

use edd_check::Window;
use edd_commands::{Capacity, Command};
use edd_oracle::Served;
use std::alloc::{AllocError, Allocator};

/// When the commands run and are due.
fn paired<A: Allocator>(
    alloc: A,
    commands: &[Command],
    rounds: &[u64],
) -> Result<Vec<Served, A>, AllocError>
    ensures { IfOk result (λ found. found.items ≡ all_served commands.now rounds.now) }
{
    commands
        .iter()
        .zip(rounds)
        .map(|(command, round)| Served {
            round: *round,
            due: command.due,
        })
        .collect(alloc)
}

/// The same, by round.
fn by_round<A: Allocator>(
    alloc: A,
    commands: &[Command],
    rounds: &[u64],
) -> Result<Vec<Served, A>, AllocError>
    ensures moved { IfOk result (λ found. IsPermutation (all_served commands.now rounds.now) found.items) }
    ensures rising { IfOk result (λ found. IsNonDecreasingBy (λ s. s.round) found.items) }
{
    let mut found = paired(alloc, commands, rounds)?;
    found.sort_unstable_by_key(|s| s.round);
    Ok(found)
}

/// The latest due round of those at the places from `first` on and before `past`, of which there are some.
fn latest_due(served: &[Served], first: usize, past: usize) -> u64
    requires some { first < past }
    requires within { past ≤ length served.now }
    ensures { IsLatestDue served.now first past result }
{
    let mut due = served[first].due;
    for place in first..past {
        if served[place].due > due {
            due = served[place].due;
        }
    }
    due
}

/// The rounds that are full, each with the latest due round of those that run in it: the last of them stands for the round. Of a full
/// round as many stand side by side as it carries, the last of them at the place at which it is found.
fn full_rounds<A: Allocator, B: Allocator>(
    alloc: A,
    served: &[Served],
    capacity: &Capacity<B>,
) -> Result<Vec<Served, A>, AllocError>
    requires rising { IsNonDecreasingBy (λ s. s.round) served.now }
    requires some { (y : ℕ) → 0 < depth_at capacity.now y }
    requires few { (y : ℕ) → running_at served.now y ≤ depth_at capacity.now y }
    requires timely { All (λ s. (s.round ≤ s.due) × (s.round < MAX_ROUNDS)) served.now }
    ensures full { IfOk result (λ full. AreFull served.now capacity.now full.items) }
    ensures rising { IfOk result (λ full. AreRising full.items) }
    ensures timely { IfOk result (λ full. All (λ s. (s.round ≤ s.due) × (s.round < MAX_ROUNDS)) full.items) }
{
    let mut full = Vec::new(alloc);
    for (place, last) in served.iter().enumerate() {
        let past = place + 1;
        let depth = capacity.at(last.round) as usize;
        if depth <= past && served[past - depth].round == last.round {
            let due = latest_due(served, past - depth, past);
            let Ok(()) = full.push(Served {
                round: last.round,
                due,
            }) else {
                return Err(AllocError);
            };
        }
    }
    Ok(full)
}

/// Where a round doesn't follow the last full one, the round before it has room: whatever ends later can't hold it.
fn cross_gap<A: Allocator>(
    peaks: &mut Vec<Served, A>,
    next: u64,
    round: u64,
) -> Result<(), AllocError>
    requires { next ≤ round }
    ensures same { next ≡ round → OnOk result (peaks.new.items ≡ peaks.old.items) }
    ensures gap { next < round → OnOk result (peaks.new.items ≡ room_before round ∷ []) }
{
    if next == round {
        return Ok(());
    }
    peaks.clear();
    let Ok(()) = peaks.push(Served {
        round: round - 1,
        due: u64::MAX,
    }) else {
        return Err(AllocError);
    };
    Ok(())
}

/// How many of the peaks are due after the round; they fall.
fn later_than(peaks: &[Served], due: u64) -> usize
    requires { DuesFall peaks.now }
    ensures { IsDuePlace peaks.now due result }
{
    peaks.partition_point(|p| p.due > due)
}

/// One more than the round of the last peak, or 0 where there is none.
fn start_after(peaks: &[Served]) -> u64
    requires { (e : Running) → 0 < length peaks.now → (last_or peaks.now e).round < MAX_ROUNDS }
    ensures none { length peaks.now ≡ 0 → result ≡ 0 }
    ensures some { (e : Running) → 0 < length peaks.now → result ≡ (last_or peaks.now e).round + 1 }
{
    let count = peaks.len();
    if count == 0 {
        0
    } else {
        peaks[count - 1].round + 1
    }
}

/// The windows that end in the round of the last of these and hold full rounds alone, by rising rounds. A peak is a round of which a
/// window that ends before the peak's due round can't begin sooner.
fn windows<A: Allocator + Clone>(alloc: A, full: &[Served]) -> Result<Vec<Window, A>, AllocError>
    requires rising { AreRising full.now }
    requires timely { All (λ s. (s.round ≤ s.due) × (s.round < MAX_ROUNDS)) full.now }
    ensures { IfOk result (λ found. AreTight full.now found.items) }
{
    let mut found = Vec::new(alloc.clone()?);
    let mut peaks = Vec::new(alloc);
    let mut next = 0;
    for last in full {
        let Ok(()) = cross_gap(&mut peaks, next, last.round) else {
            return Err(AllocError);
        };
        let kept = later_than(peaks.as_slice(), last.due);
        peaks.truncate(kept);
        if last.due == last.round {
            let from = start_after(peaks.as_slice());
            let Ok(()) = found.push(Window {
                from,
                due: last.round,
            }) else {
                return Err(AllocError);
            };
        } else {
            let Ok(()) = peaks.push(*last) else {
                return Err(AllocError);
            };
        }
        next = last.round + 1;
    }
    Ok(found)
}

/// The windows that are filled in a legal schedule by earliest due date first whose commands are all on time, by rising `due`: each
/// such window ends with one of these, which begins no later.
pub fn filled<A: Allocator + Clone, B: Allocator>(
    alloc: A,
    commands: &[Command],
    rounds: &[u64],
    capacity: &Capacity<B>,
) -> Result<Vec<Window, A>, AllocError>
    requires some { (y : ℕ) → 0 < depth_at capacity.now y }
    requires legal { IsLegal commands.now rounds.now capacity.now }
    requires first { IsEarliestDueFirst commands.now rounds.now capacity.now }
    requires on_time { AreOnTime commands.now rounds.now }
    requires in_range { RoundsInRange rounds.now }
    ensures { IfOk result (λ found. AreFilled commands.now rounds.now capacity.now found.items) }
{
    let served = by_round(alloc.clone()?, commands, rounds)?;
    let full = full_rounds(alloc.clone()?, served.as_slice(), capacity)?;
    let found = windows(alloc, full.as_slice())?;
    Ok(found)
}
