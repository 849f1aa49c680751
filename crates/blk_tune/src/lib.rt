//! A script tried under a grid of settings: a row for each, the best first.
//!
//! The runs go side by side on threads, which take turns at the settings: the rows are the same for any number of threads.
#![tactic(auto)]

ghost use Rattle.std.specs.Prelude.{IfOk, IfErr};
ghost use Rattle.blk_text.specs.Script.{IsScript, scripted};
ghost use Rattle.blk_schedulers.specs.Wanted.{as_wanted};
ghost use Rattle.blk_runs.specs.Firsts.{AreUnrun};
ghost use Rattle.blk_tune.specs.Tuned.{AreTuned};

mod answers;
mod order;
mod row;
mod trial;

pub use crate::answers::trial_answer;
use crate::order::best_first;
pub use crate::row::TrialRow;
use crate::trial::tried;
use blk_runs::{RunFault, unmade};
use blk_schedulers::TrialAsked;
use blk_text::Script;
use std::alloc::Global;
use std::thread::Threads;
use turns::Progress;

/// The rows of a script under each setting of a grid, the best first. All of them run, and are answered: `top` is about the answer alone.
///
/// Refused, by the first of these that applies: as the first scheduler is that isn't made of its settings, before any step; as the run
/// of the first one in the grid's order that refuses a step, with its record and its reason, whichever thread found it first. Out of
/// memory may come in place of any of them.
pub fn rows<T: Threads + Sync, P: Progress>(
    rt: &T,
    alloc: Global,
    asked: &TrialAsked,
    script: &Script,
    progress: &mut P,
) -> Result<Vec<TrialRow>, RunFault>
    requires { IsScript (scripted script.now) }
    ensures rows { IfOk result (λ rows. AreTuned (as_wanted asked.now) (scripted script.now) rows.items) }
    ensures unrun { IfErr result (AreUnrun (as_wanted asked.now).grid (scripted script.now)) }
{
    match unmade(asked.grid.as_slice()) {
        Some(fault) => return Err(RunFault::Sched(fault)),
        None => {}
    }
    let mut rows = match tried(
        rt,
        alloc,
        asked.grid.as_slice(),
        asked.threads,
        script,
        progress,
    ) {
        Ok(rows) => rows,
        Err(fault) => return Err(fault),
    };
    let Ok(()) = best_first(asked.by, &mut rows) else {
        return Err(RunFault::Memory);
    };
    Ok(rows)
}
