//! The rounds of captured requests under a scheduler of given settings.

ghost use Rattle.std.specs.Prelude.{◌≡◌, ◌≤◌, IfOk, IfErr, length};
ghost use Rattle.edd_commands.specs.Capacity.{fixed};
ghost use Rattle.edd_commands.specs.Schedule.{IsLegal};
ghost use Rattle.edd_commands.specs.declared.TheConstants.{MAX_COMMANDS};
ghost use Rattle.blk_capture.specs.Requests.{AreTimed};
ghost use Rattle.blk_schedulers.specs.Made.{IsSchedFault, IsStart};
ghost use Rattle.blk_schedulers.specs.Scheds.{policy_of};
ghost use Rattle.blk_replay.specs.Requests.{AreRounds, AreRoundCommands, AreLateByTheClock};
ghost use Rattle.blk_replayed.specs.declared.row.Chooser.TheVariants.{Replay};
ghost use Rattle.blk_replayed.specs.Rows.{due_by, IsReplayedBy, IsReplayed, IsBestUnderEarliest};

use blk_capture::CapturedRequest;
use blk_earliest::Earliest;
use blk_replay::{DueBy, law_of_due_first, replay_requests};
use blk_sched::Scheduler;
use blk_schedulers::{FifoExpire, Plan, Sched, SchedFault, SchedKind, with_made};
use edd_commands::Command;
use std::alloc::Global;

/// By what requests are due in a scheduler of a kind: earliest goes by the deadlines by which they are late, the others by FIFO lists.
fn due_by(kind: SchedKind, fifo: FifoExpire) -> DueBy
    ensures { result ≡ due_by kind fifo }
{
    match kind {
        SchedKind::Earliest => DueBy::Deadline,
        SchedKind::None | SchedKind::Deadline | SchedKind::Kyber => DueBy::Fifo {
            read: fifo.read,
            write: fifo.write,
        },
    }
}

/// How many requests the device takes at once: each is done in the round in which it goes out.
const DEPTH: u64 = 1;

/// The rounds of requests under the scheduler of these settings, where it was made.
fn rounds_by<S: Scheduler<A = Global>>(
    alloc: Global,
    sched: Sched,
    made: Result<S, SchedFault>,
    requests: &[CapturedRequest],
    commands: &[Command],
    by: DueBy,
) -> Result<Vec<u64>, SchedFault>
    requires timed { AreTimed requests.now }
    requires few { length requests.now ≤ MAX_COMMANDS }
    requires counted { AreRoundCommands requests.now commands.now }
    requires start { IfOk made (λ s. IsStart sched DEPTH (S.meaning s) (S.kept s)) }
    requires unmade { IfErr made (IsSchedFault sched) }
    ensures replayed { IfOk result (λ v. IsReplayedBy S.policy sched by requests.now commands.now v.items) }
    ensures legal { IfOk result (λ v. IsLegal commands.now v.items (fixed 1)) }
    ensures in_range { IfOk result (λ v. AreRounds (length requests.now) v.items) }
    ensures late { IfOk result (λ v. AreLateByTheClock requests.now commands.now v.items) }
    ensures unmade { IfErr result (IsSchedFault sched) }
{
    let scheduler = match made {
        Ok(scheduler) => scheduler,
        Err(fault) => return Err(fault),
    };
    match replay_requests(scheduler, alloc, requests, commands, by) {
        Ok(rounds) => Ok(rounds),
        Err(_) => Err(SchedFault::Memory),
    }
}

/// The rounds of the requests under the scheduler of a plan.
fn rounds_planned(
    alloc: Global,
    plan: Plan,
    requests: &[CapturedRequest],
    commands: &[Command],
) -> Result<Vec<u64>, SchedFault>
    requires timed { AreTimed requests.now }
    requires few { length requests.now ≤ MAX_COMMANDS }
    requires counted { AreRoundCommands requests.now commands.now }
    ensures replayed { IfOk result (λ v. IsReplayed plan requests.now commands.now v.items) }
    ensures legal { IfOk result (λ v. IsLegal commands.now v.items (fixed 1)) }
    ensures in_range { IfOk result (λ v. AreRounds (length requests.now) v.items) }
    ensures late { IfOk result (λ v. AreLateByTheClock requests.now commands.now v.items) }
    ensures unmade { IfErr result (IsSchedFault plan.sched) }
{
    let by = due_by(plan.sched.kind, plan.fifo);
    with_made!(plan.sched, alloc, DEPTH, (sched, made) => rounds_by(alloc, sched, made, requests, commands, by))
}

/// The rounds of the requests of a capture, served again as planned: by place, each a number of a dispatch. `commands` are those that
/// [`blk_capture::rounds_of`] makes of them. Under earliest they are least late, and with `late_last` most are on time, of all orders of the same
/// dispatches. Refused where the scheduler isn't made of its settings, or as `Memory`.
pub fn rounds_under(
    alloc: Global,
    plan: Plan,
    requests: &[CapturedRequest],
    commands: &[Command],
) -> Result<Vec<u64>, SchedFault>
    requires timed { AreTimed requests.now }
    requires few { length requests.now ≤ MAX_COMMANDS }
    requires counted { AreRoundCommands requests.now commands.now }
    ensures replayed { IfOk result (λ v. IsReplayed plan requests.now commands.now v.items) }
    ensures legal { IfOk result (λ v. IsLegal commands.now v.items (fixed 1)) }
    ensures in_range { IfOk result (λ v. AreRounds (length requests.now) v.items) }
    ensures late { IfOk result (λ v. AreLateByTheClock requests.now commands.now v.items) }
    ensures best { IfOk result (λ v. IsBestUnderEarliest (Replay plan) commands.now v.items) }
    ensures unmade { IfErr result (IsSchedFault plan.sched) }
{
    law_of_due_first::<Earliest>();
    rounds_planned(alloc, plan, requests, commands)
}
