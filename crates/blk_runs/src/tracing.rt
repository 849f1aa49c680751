//! The trace of a script under a scheduler.

ghost use Rattle.std.specs.Prelude.{◌≡◌, IfOk, IfErr, IfSome, IfNone, All, IsPermutation, sum_by};
ghost use Rattle.blk_trace.specs.Events.{entered, round_of};
ghost use Rattle.blk_text.specs.Script.{IsScript, scripted};
ghost use Rattle.blk_schedulers.specs.Made.{IsMade, IsSchedFault, IsStart};
ghost use Rattle.blk_sim.specs.Simulation.{released_bios, ticks_of};
ghost use Rattle.blk_runs.specs.Runs.{RunsBy, RunsUnder, IsRunFaultBy, IsRunFault};
ghost use Rattle.blk_runs.specs.Firsts.{IsFirstUnmade};

use crate::fault::RunFault;
use blk_sched::Scheduler;
use blk_schedulers::{Sched, SchedFault, with_made};
use blk_sim::simulate;
use blk_text::Script;
use blk_trace::Trace;
use std::alloc::Global;

/// The trace of a script under the scheduler of these settings, where it was made.
fn traced_by<S: Scheduler<A = Global>>(
    alloc: Global,
    sched: Sched,
    made: Result<S, SchedFault>,
    script: &Script,
) -> Result<Trace, RunFault>
    requires script { IsScript (scripted script.now) }
    requires start { IfOk made (λ s. IsStart sched script.now.setup.depth (S.meaning s) (S.kept s)) }
    requires unmade { IfErr made (IsSchedFault sched) }
    ensures ran { IfOk result (RunsBy S.policy sched (scripted script.now)) }
    ensures setup { IfOk result (λ trace. trace.setup ≡ script.now.setup) }
    ensures bios { IfOk result (λ trace. IsPermutation (entered trace.events) (released_bios script.now.setup.hw script.now.lines.items)) }
    ensures ticks { IfOk result (λ trace. round_of trace.events ≡ sum_by ticks_of script.now.lines.items) }
    ensures unrun { IfErr result (IsRunFaultBy S.policy sched (scripted script.now)) }
{
    let scheduler = match made {
        Ok(scheduler) => scheduler,
        Err(fault) => return Err(RunFault::Sched(fault)),
    };
    match simulate(alloc, script, scheduler) {
        Ok(trace) => Ok(trace),
        Err(fault) => Err(RunFault::Step(fault)),
    }
}

/// The trace of a script under a scheduler. Refused, by the first of these that applies: as `Sched` where the scheduler isn't made of
/// its settings; as `Step` at the first step that is refused, with its record and its reason.
pub fn traced(alloc: Global, sched: Sched, script: &Script) -> Result<Trace, RunFault>
    requires { IsScript (scripted script.now) }
    ensures ran { IfOk result (RunsUnder sched (scripted script.now)) }
    ensures setup { IfOk result (λ trace. trace.setup ≡ script.now.setup) }
    ensures bios { IfOk result (λ trace. IsPermutation (entered trace.events) (released_bios script.now.setup.hw script.now.lines.items)) }
    ensures ticks { IfOk result (λ trace. round_of trace.events ≡ sum_by ticks_of script.now.lines.items) }
    ensures unrun { IfErr result (IsRunFault sched (scripted script.now)) }
{
    let depth = script.setup.depth();
    with_made!(sched, alloc, depth, (sched, made) => traced_by(alloc, sched, made, script))
}

/// What is wrong with the settings of the first of these schedulers that isn't made of them.
pub fn unmade(scheds: &[Sched]) -> Option<SchedFault>
    ensures unmade { IfSome result (IsFirstUnmade scheds.now) }
    ensures made { IfNone result (All IsMade scheds.now) }
{
    for i in 0..scheds.len() {
        match scheds[i].fault() {
            Some(fault) => return Some(fault),
            None => {}
        }
    }
    None
}
