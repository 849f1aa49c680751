//! The first filled window around each late command.

ghost use Rattle.std.specs.Prelude.{◌≡◌, ◌≤◌, ◌<◌, All, IfOk, IfNone, IfSome, Some, length, map, slice_set};
ghost use Rattle.std.specs.List.{zip};
ghost use Rattle.std.specs.List.Sorted.{IsNonDecreasingBy};
ghost use Rattle.edd_commands.specs.declared.TheConstants.{MAX_ROUNDS};
ghost use Rattle.edd_commands.specs.Schedule.{CommandsInRange};
ghost use Rattle.edd_verdict.specs.Inside.Open.{EndsRise, BeginsRise, IsBeginPlace, AreOpen, EndsFall, IsInnermost, IsAsk, AreAsked, first_verdict_of, AreJudged, IsEntered, BeginLater};

use crate::Verdict;
use edd_check::Window;
use edd_commands::Command;
use std::alloc::{AllocError, Allocator};

/// A late command that is released by its due round.
#[derive(Clone, Copy, Debug, PartialEq, Eq)]
struct Ask {
    /// Its release round.
    release: u64,
    /// Its due round.
    due: u64,
    /// Its place in the list.
    place: usize,
}

/// The verdict of a command that runs in the round, where no window is known.
fn first_verdict(command: Command, round: u64) -> Option<Verdict>
    ensures { result ≡ first_verdict_of (command, round) }
{
    if round <= command.due {
        None
    } else if command.due < command.release {
        Some(Verdict::Arrival)
    } else {
        Some(Verdict::Spare)
    }
}

/// Those of all commands.
fn first_verdicts<A: Allocator>(
    alloc: A,
    commands: &[Command],
    rounds: &[u64],
) -> Result<Vec<Option<Verdict>, A>, AllocError>
    ensures { IfOk result (λ v. v.items ≡ map (λ p. first_verdict_of p) (zip commands.now rounds.now)) }
{
    commands
        .iter()
        .zip(rounds)
        .map(|(command, round)| first_verdict(*command, *round))
        .collect(alloc)
}

/// The late commands that are released by their due round, by due round.
fn asks<A: Allocator>(
    alloc: A,
    commands: &[Command],
    rounds: &[u64],
) -> Result<Vec<Ask, A>, AllocError>
    requires { length rounds.now ≡ length commands.now }
    ensures each { IfOk result (λ v. All (IsAsk commands.now rounds.now) v.items) }
    ensures all { IfOk result (λ v. AreAsked commands.now rounds.now (length commands.now) v.items) }
    ensures rising { IfOk result (λ v. IsNonDecreasingBy (λ a. a.due) v.items) }
{
    let mut asks = Vec::new(alloc);
    for (place, command) in commands.iter().enumerate() {
        if command.due < rounds[place] && command.release <= command.due {
            let Ok(()) = asks.push(Ask {
                release: command.release,
                due: command.due,
                place,
            }) else {
                return Err(AllocError);
            };
        }
    }
    asks.sort_unstable_by_key(|a| a.due);
    Ok(asks)
}

/// How many of the windows begin before the round; they begin by rising rounds.
fn begun_before(windows: &[Window], round: u64) -> usize
    requires { BeginsRise windows.now }
    ensures { IsBeginPlace windows.now round result }
{
    windows.partition_point(|w| w.from < round)
}

/// Opens the windows before place `left` that end in the round or later, the last one first, and answers before which place the others
/// are. An open window closes where one opens that lies in it to the left.
fn open_windows<A: Allocator>(
    windows: &[Window],
    left: usize,
    due: u64,
    opened: &mut Vec<Window, A>,
) -> Result<usize, AllocError>
    requires rising { EndsRise windows.now }
    requires within { left ≤ length windows.now }
    requires are { AreOpen windows.now left opened.old.items }
    ensures are { IfOk result (λ now. AreOpen windows.now now opened.new.items) }
    ensures past { IfOk result (λ now. IsEntered windows.now now left due) }
    ensures within { IfOk result (λ now. now ≤ left) }
{
    let mut now = left;
    while now > 0 && windows[now - 1].due >= due {
        now -= 1;
        let window = windows[now];
        let kept = begun_before(opened.as_slice(), window.from);
        opened.truncate(kept);
        let Ok(()) = opened.push(window) else {
            return Err(AllocError);
        };
    }
    Ok(now)
}

/// Of the open windows that begin by the round the one that ends first.
fn innermost(opened: &[Window], round: u64) -> Option<Window>
    requires begins { BeginsRise opened.now }
    requires ends { EndsFall opened.now }
    requires small { round < MAX_ROUNDS }
    ensures none { IfNone result (BeginLater opened.now round) }
    ensures some { IfSome result (IsInnermost opened.now round) }
{
    let begun = begun_before(opened, round + 1);
    if begun == 0 {
        None
    } else {
        Some(opened[begun - 1])
    }
}

/// Says that the command at the place lies in the window.
fn tell<A: Allocator>(verdicts: &mut Vec<Option<Verdict>, A>, place: usize, window: Window)
    requires { place < length verdicts.old.items }
    ensures { verdicts.new.items ≡ slice_set verdicts.old.items place (Some (Verdict.Full window)) }
{
    verdicts[place] = Some(Verdict::Full(window));
}

/// The verdict of each command that is late, by place: the first of these windows around it, and `Spare` where there is none.
pub fn verdicts_around<A: Allocator + Clone>(
    alloc: A,
    commands: &[Command],
    rounds: &[u64],
    windows: &[Window],
) -> Result<Vec<Option<Verdict>, A>, AllocError>
    requires one_each { length rounds.now ≡ length commands.now }
    requires in_range { CommandsInRange commands.now }
    requires rising { EndsRise windows.now }
    ensures { IfOk result (λ v. AreJudged commands.now rounds.now windows.now v.items) }
{
    let mut verdicts = first_verdicts(alloc.clone()?, commands, rounds)?;
    let late = asks(alloc.clone()?, commands, rounds)?;
    let asks = late.as_slice();
    let mut opened = Vec::new(alloc);
    let mut left = windows.len();
    let mut next = asks.len();
    while next > 0 {
        next -= 1;
        let ask = asks[next];
        left = open_windows(windows, left, ask.due, &mut opened)?;
        if let Some(window) = innermost(opened.as_slice(), ask.release) {
            tell(&mut verdicts, ask.place, window);
        }
    }
    Ok(verdicts)
}
