//! The schedule of an import.

ghost use Rattle.std.specs.Prelude.{◌≡◌, ◌≤◌, IfOk, length, map};
ghost use Rattle.edd_commands.specs.Capacity.{fixed};
ghost use Rattle.edd_commands.specs.declared.TheConstants.{MAX_COMMANDS};
ghost use Rattle.edd_commands.specs.Schedule.{IsLegal};
ghost use Rattle.blk_capture.specs.Counting.{AreInRounds};
ghost use Rattle.blk_capture.specs.Requests.{AgreeOnLateness, AreTimed, times_of};
ghost use Rattle.blk_records.specs.Schedule.{IsScheduleView, viewed};

use blk_capture::{CapturedRequest, rounds_of};
use blk_records::Schedule;
use std::alloc::{AllocError, Global};

/// Requests as a schedule of depth 1, whose rounds are their dispatches, as [`blk_capture::rounds_of`] counts them: legal, with an id
/// and a round from 1 on by the order of the dispatches, and each late exactly where it went out after its deadline. It may be
/// written. At most [`edd_commands::MAX_COMMANDS`] requests. Fails only when out of memory.
pub fn schedule_of(alloc: Global, requests: &[CapturedRequest]) -> Result<Schedule, AllocError>
    requires timed { AreTimed requests.now }
    requires few { length requests.now ≤ MAX_COMMANDS }
    ensures depth { IfOk result (λ s. s.depth ≡ 1) }
    ensures counted { IfOk result (λ s. AreInRounds (map times_of requests.now) s.commands.items s.rounds.items) }
    ensures legal { IfOk result (λ s. IsLegal s.commands.items s.rounds.items (fixed 1)) }
    ensures late { IfOk result (λ s. AgreeOnLateness requests.now s.commands.items s.rounds.items) }
    ensures ran { IfOk result (λ s. IsScheduleView (viewed s)) }
{
    let counted = rounds_of(alloc, requests)?;
    Ok(Schedule {
        depth: 1,
        commands: counted.commands,
        rounds: counted.rounds,
    })
}
