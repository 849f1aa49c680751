//! The rounds of a script's `run`.

ghost use Rattle.std.specs.Prelude.{IsTrue, ◌↔◌, ◌≡◌, ◌≢◌, ◌≤◌, ◌<◌, ℕ, Some, slice_get, OnOk, OnErr, IfOk, IfErr, length};
ghost use Rattle.blk_queues.specs.Queues.{Queue as QueueFields};
ghost use Rattle.blk_trace.specs.Events.{IsUsed};
ghost use Rattle.blk_sim.specs.Moves.{DrainsAll};
ghost use Rattle.blk_sim.specs.Rounds.{IssuesAll, CompleteInTurn, Works, Rounds};
ghost use Rattle.blk_sim.specs.Inside.Given.{IsGiven};
ghost use Rattle.blk_sim.specs.Refusals.{IsAskRefused, IsIssueInTurnRefused, IsWorkRefused, IsDrainInTurnRefused, IsRunRefused};
ghost use Rattle.blk_sim.specs.Inside.Working.{WorkInTurn, IsWorkInTurnRefused};

use crate::refusal::SimReason;
use crate::steps::{done, drain, issue, tick};
use blk_core::laws::{listed_issues_are_open, open_picks_are_open_issues};
use blk_core::{Core, IssueFault};
use blk_queues::SoftQueue;
use blk_sched::Scheduler;
use edd_commands::MAX_DEPTH;

/// Asks the hardware queues in turn for a command under a tag until one gives one, and says whether one did. The first that is
/// asked is the tag modulo their number, and behind the last comes queue 0.
fn issue_tag<S: Scheduler>(core: &mut Core<S>, tag: u16) -> Result<bool, SimReason>
    ensures given { IfOk result (λ given. IsGiven S.policy tag core.old given core.new) }
    ensures used { IfErr result (λ w. w ≡ SimReason.Issue IssueFault.SlotUsed → IsUsed core.old.events tag) }
    ensures refused { IfErr result (λ w. w ≢ SimReason.Issue IssueFault.SlotUsed → IsAskRefused S.policy tag core.old w) }
    ensures same { OnErr result (core.new ≡ core.old) }
{
    let count = core.trace().setup().hw();
    let first = (tag % count as u16) as u8;
    for k in 0..count {
        let hw = (first + k) % count;
        match issue(core, hw, tag)? {
            Some(_) => return Ok(true),
            None => {}
        }
    }
    Ok(false)
}

/// Whether an issue was refused because its tag was used in the round.
fn is_used(why: SimReason) -> bool
    ensures { IsTrue result ↔ (why ≡ SimReason.Issue IssueFault.SlotUsed) }
{
    match why {
        SimReason::Issue(IssueFault::SlotUsed) => true,
        _ => false,
    }
}

/// Issues under each tag below the depth of this round that was not used in it, rising, until nothing more is given.
fn issue_all<S: Scheduler>(core: &mut Core<S>) -> Result<(), SimReason>
    ensures issued { OnOk result (IssuesAll S.policy core.old core.new) }
    ensures refused { IfErr result (λ w. IsIssueInTurnRefused S.policy core.old w) }
{
    prove!(core.trace().setup().depth() <= MAX_DEPTH);
    let depth = core.trace().depth_now() as u16;
    for tag in 0..depth {
        match issue_tag(core, tag) {
            Ok(true) => {}
            Ok(false) => return Ok(()),
            Err(why) => {
                if !is_used(why) {
                    return Err(why);
                }
            }
        }
    }
    Ok(())
}

/// Completes what is in flight, by rising tags.
fn complete_all<S: Scheduler>(core: &mut Core<S>)
    ensures { CompleteInTurn S.policy core.old.setup.depth core.old core.new }
{
    let depth = core.trace().setup().depth() as u16;
    for tag in 0..depth {
        if core.trace().unfinished() == 0 {
            listed_issues_are_open();
            open_picks_are_open_issues();
            return;
        }
        // A tag that is not in flight is passed over.
        let _ = done(core, tag);
    }
}

/// One round: what can be issued is issued and completed, and the round ends.
fn work<S: Scheduler>(core: &mut Core<S>) -> Result<(), SimReason>
    ensures worked { OnOk result (Works S.policy core.old core.new) }
    ensures refused { IfErr result (λ w. IsWorkRefused S.policy core.old w) }
{
    issue_all(core)?;
    complete_all(core);
    tick(core)?;
    Ok(())
}

/// `count` rounds of the core alone.
fn work_rounds<S: Scheduler>(core: &mut Core<S>, count: u64) -> Result<(), SimReason>
    ensures worked { OnOk result (WorkInTurn S.policy count core.old core.new) }
    ensures refused { IfErr result (λ w. IsWorkInTurnRefused S.policy count core.old w) }
{
    for _ in 0..count {
        work(core)?;
    }
    Ok(())
}

/// Moves the requests of all software queues, one hardware queue after the other, into the core.
fn drain_all<S: Scheduler>(
    core: &mut Core<S>,
    queues: &mut Vec<SoftQueue<S::A>, S::A>,
) -> Result<(), SimReason>
    requires limits { (s : ℕ) (queue : QueueFields) → slice_get queues.old.items s ≡ Some queue → queue.limits ≡ core.old.setup.limits }
    ensures some { 0 < core.old.setup.hw }
    ensures drained { OnOk result (DrainsAll S.policy queues.old.items core.old queues.new.items core.new) }
    ensures refused { IfErr result (λ w. IsDrainInTurnRefused S.policy core.old.setup.hw queues.old.items core.old w) }
{
    let count = core.trace().setup().hw();
    for hw in 0..count {
        drain(core, queues, hw)?;
    }
    Ok(())
}

/// `count` rounds of a script's `run`, at least one. Nothing enters a software queue in them, so the drains of the first
/// round move all that those of the later ones could.
pub(crate) fn run<S: Scheduler>(
    core: &mut Core<S>,
    queues: &mut Vec<SoftQueue<S::A>, S::A>,
    count: u64,
) -> Result<(), SimReason>
    requires some { 1 ≤ count }
    requires limits { (s : ℕ) (queue : QueueFields) → slice_get queues.old.items s ≡ Some queue → queue.limits ≡ core.old.setup.limits }
    ensures passed { OnOk result (Rounds S.policy count queues.old.items core.old queues.new.items core.new) }
    ensures refused { IfErr result (λ w. IsRunRefused S.policy count queues.old.items core.old w) }
{
    drain_all(core, queues)?;
    work_rounds(core, count)?;
    Ok(())
}
