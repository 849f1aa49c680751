//! Loads by the name of their scheduler.

ghost use Rattle.std.specs.Prelude.{IfOk, OnOk, IfErr};
ghost use Rattle.blk_schedulers.specs.Numbers.{IsLoad};
ghost use Rattle.blk_schedulers.specs.Made.{IsSchedFault, IsLoadSettingsFault, IsStart};
ghost use Rattle.blk_schedulers.specs.Settles.{IsSettled, served_bios};
ghost use Rattle.blk_trace.specs.Events.{AreOnce};
ghost use Rattle.blk_load.specs.Inside.Ran.{RanBy, RanUnder};

use crate::running::load;
use blk_sched::Scheduler;
use blk_schedulers::{Load, Loaded, Loads, Sched, SchedFault, Unsettled, with_made};
use edd_commands::Fault;
use std::alloc::Global;
use std::sync::Wait;
use std::thread::Threads;

/// What came of a load under the scheduler of these settings, where it was made.
fn load_by<R: Threads + Wait + Sync, S: Scheduler<A = Global> + Send>(
    rt: &R,
    clock: HostRuntime,
    alloc: Global,
    sched: Sched,
    made: Result<S, SchedFault>,
    amounts: Load,
) -> Result<Loaded, Unsettled>
    requires range { IsLoad amounts }
    requires start { IfOk made (λ s. IsStart sched amounts.depth (S.meaning s) (S.kept s)) }
    requires unmade { IfErr made (IsSchedFault sched) }
    ensures settled { IfOk result (λ l. IsSettled amounts l.trace l.settled) }
    ensures ran { IfOk result (RanBy S.policy sched amounts.depth) }
    ensures once { IfOk result (λ l. AreOnce (served_bios l.trace.events)) }
    ensures failed { IfErr result (IsLoadSettingsFault sched amounts) }
{
    let scheduler = match made {
        Ok(scheduler) => scheduler,
        Err(fault) => return Err(Unsettled::Sched(fault)),
    };
    match load(rt, clock, alloc, amounts, scheduler) {
        Ok(loaded) => Ok(loaded),
        Err(fault) => Err(Unsettled::Load(fault.told())),
    }
}

/// Runs a load under a scheduler by its settings. Refused as `Range` where a number of it is out of its range, then as the scheduler is
/// where it isn't made, and as [`load`] tells that is refused.
fn load_under<R: Threads + Wait + Sync>(
    rt: &R,
    clock: HostRuntime,
    alloc: Global,
    sched: Sched,
    amounts: Load,
) -> Result<Loaded, Unsettled>
    ensures range { OnOk result (IsLoad amounts) }
    ensures settled { IfOk result (λ l. IsSettled amounts l.trace l.settled) }
    ensures ran { IfOk result (RanUnder sched amounts.depth) }
    ensures once { IfOk result (λ l. AreOnce (served_bios l.trace.events)) }
    ensures failed { IfErr result (IsLoadSettingsFault sched amounts) }
{
    if !amounts.is_in_range() {
        return Err(Unsettled::Range);
    }
    let depth = amounts.depth;
    with_made!(sched, alloc, depth, (sched, made) => load_by(rt, clock, alloc, sched, made, amounts))
}

/// Loads over a layer whose submitters and workers are threads of the runtime.
#[derive(Clone, Copy)]
pub struct OnThreads {
    /// What the devices of a load sleep by.
    pub clock: HostRuntime,
}

impl Loads for OnThreads {
    ghost use Rattle.std.specs.Prelude.{IfOk};
    ghost use Rattle.blk_load.specs.Inside.Ran.{RanUnder};

    ghost ends_as = { λ sched load result. IfOk result (RanUnder sched load.depth) };

    fn run<R: Threads + Wait + Sync>(
        &self,
        rt: &R,
        alloc: Global,
        sched: Sched,
        load: Load,
    ) -> Result<Loaded, Unsettled> {
        load_under(rt, self.clock, alloc, sched, load)
    }
}
