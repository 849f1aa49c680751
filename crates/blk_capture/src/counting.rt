//! Requests counted in rounds, each a dispatch that the device took.

ghost use Rattle.std.specs.Prelude.{◌≡◌, ◌≤◌, ◌<◌, ◌+◌, ◌↔◌, IsTrue, IfOk, length};
ghost use Rattle.edd_commands.specs.Capacity.{fixed};
ghost use Rattle.edd_commands.specs.declared.TheConstants.{MAX_COMMANDS};
ghost use Rattle.edd_commands.specs.Schedule.{IsLegal, RoundsInRange};
ghost use Rattle.blk_capture.specs.Counting.{AreServed, AreSolvable, AreInRounds, AreLateByClock, dispatched_before, dispatched_by, command_at};

use edd_commands::Command;
use std::alloc::{AllocError, Allocator, Global};

/// A request that the device took, by the clock. The unit and the beginning of the clock don't matter.
#[derive(Clone, Copy, Debug, PartialEq, Eq)]
pub struct TimedRequest {
    /// From when on it could have gone out: when it, or the last of it, came in.
    pub release: u64,
    /// When it should have gone out at the latest; this may lie before the release.
    pub deadline: u64,
    /// When it went out to the device.
    pub dispatch: u64,
}

/// Commands and the rounds in which they ran, by the same places.
#[derive(Debug, Drop)]
pub struct CountedSchedule<A: Allocator = Global> {
    /// The commands.
    pub commands: Vec<Command, A>,
    /// Their rounds.
    pub rounds: Vec<u64, A>,
}

/// Whether the requests stand in the order of their dispatches, and none went out before it came in, as [`count_rounds`] requires.
pub fn are_served(requests: &[TimedRequest]) -> bool
    ensures { IsTrue result ↔ AreServed requests.now }
{
    let mut last = 0;
    for request in requests {
        if request.dispatch < last || request.dispatch < request.release {
            return false;
        }
        last = request.dispatch;
    }
    true
}

/// How many of the requests went out before a time. It is found by halves.
fn dispatched_before(requests: &[TimedRequest], time: u64) -> u64
    requires { AreServed requests.now }
    ensures value { result ≡ dispatched_before requests.now time }
    ensures bound { result ≤ length requests.now }
{
    requests.partition_point(|request| request.dispatch < time) as u64
}

/// How many of the requests went out by a time. It is found by halves.
fn dispatched_by(requests: &[TimedRequest], time: u64) -> u64
    requires { AreServed requests.now }
    ensures value { result ≡ dispatched_by requests.now time }
    ensures bound { result ≤ length requests.now }
{
    requests.partition_point(|request| request.dispatch <= time) as u64
}

/// The command of the request at a place.
fn command_at(requests: &[TimedRequest], place: usize, request: TimedRequest) -> Command
    requires served { AreServed requests.now }
    requires few { length requests.now ≤ MAX_COMMANDS }
    requires place { place < length requests.now }
    ensures { result ≡ command_at requests.now place request }
{
    Command {
        id: place as u64 + 1,
        release: dispatched_before(requests, request.release) + 1,
        due: dispatched_by(requests, request.deadline),
    }
}

/// Counts requests in rounds, of which each is one dispatch: the requests stand in the order of their dispatches, and the
/// one at place k, from 0 on, ran in round k + 1, which is its command's id too. It is released in the round after those that went out
/// before its release, and due in the last round that went out by its deadline; where none went out between the two, that round
/// is the one before its release. So it runs after its due round exactly where it went out after its deadline.
///
/// At most [`edd_commands::MAX_COMMANDS`] requests, as [`are_served`] tells. Fails only when out of memory. The time grows as n log n.
pub fn count_rounds<A: Allocator + Clone>(
    alloc: A,
    requests: &[TimedRequest],
) -> Result<CountedSchedule<A>, AllocError>
    requires served { AreServed requests.now }
    requires few { length requests.now ≤ MAX_COMMANDS }
    ensures counted { IfOk result (λ s. AreInRounds requests.now s.commands.items s.rounds.items) }
    // at most one dispatch a round, and none before its request was released
    ensures legal { IfOk result (λ s. IsLegal s.commands.items s.rounds.items (fixed 1)) }
    ensures late { IfOk result (λ s. AreLateByClock requests.now s.commands.items s.rounds.items) }
    ensures solvable { IfOk result (λ s. AreSolvable s.commands.items) }
    ensures in_range { IfOk result (λ s. RoundsInRange s.rounds.items) }
{
    let mut commands = Vec::with_capacity(alloc.clone()?, requests.len())?;
    let mut rounds = Vec::with_capacity(alloc, requests.len())?;
    for (place, request) in requests.iter().enumerate() {
        commands.push(command_at(requests, place, *request))?;
        rounds.push(place as u64 + 1)?;
    }
    Ok(CountedSchedule { commands, rounds })
}
