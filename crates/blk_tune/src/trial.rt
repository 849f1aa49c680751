//! The runs of a script under some settings, side by side.

ghost use Rattle.std.specs.Prelude.{◌<◌, IfOk, IfErr, All, length, slice_index_or};
ghost use Rattle.blk_schedulers.specs.Made.{IsMade};
ghost use Rattle.blk_schedulers.specs.declared.sched.Sched.{Sched};
ghost use Rattle.blk_text.specs.Script.{IsScript, scripted};
ghost use Rattle.blk_runs.specs.Firsts.{AreUnrun};
ghost use Rattle.blk_tune.specs.Row.{AreRowsUnder};
ghost use Rattle.blk_tune.specs.Inside.Row.{IsRunAnswer};

use crate::row::{TrialRow, row_under};
use blk_runs::RunFault;
use blk_schedulers::Sched;
use blk_text::Script;
use std::alloc::Global;
use std::thread::Threads;
use turns::{Progress, Stopped, in_turn};

/// The rows of a script under each of these settings, in their order.
pub fn tried<T: Threads + Sync, P: Progress>(
    rt: &T,
    alloc: Global,
    scheds: &[Sched],
    threads: Option<u64>,
    script: &Script,
    progress: &mut P,
) -> Result<Vec<TrialRow>, RunFault>
    requires script { IsScript (scripted script.now) }
    requires made { All IsMade scheds.now }
    ensures rows { IfOk result (λ rows. AreRowsUnder scheds.now (scripted script.now) rows.items) }
    ensures unrun { IfErr result (AreUnrun scheds.now (scripted script.now)) }
{
    let run = |place: usize| -> Result<TrialRow, RunFault>
        requires { (place < length scheds.now) × IsScript (scripted script.now) }
        ensures { (d : Sched) → IsRunAnswer (scripted script.entry.now) (slice_index_or scheds.entry.now place d) result }
    { row_under(alloc, scheds[place], script) };
    match in_turn(rt, alloc, scheds.len(), threads, &run, progress) {
        Ok(rows) => Ok(rows),
        Err(stopped) => match stopped {
            Stopped::Refused(fault) => Err(fault),
            Stopped::Memory => Err(RunFault::Memory),
        },
    }
}
