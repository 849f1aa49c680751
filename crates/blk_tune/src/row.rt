//! A run of a script under one setting, in numbers.

ghost use Rattle.std.specs.Prelude.{◌≡◌, IfOk};
ghost use Rattle.blk_text.specs.Script.{IsScript, scripted};
ghost use Rattle.blk_tune.specs.Row.{IsRowOfTrace};
ghost use Rattle.blk_tune.specs.Inside.Row.{IsRunAnswer};

use blk_report::{Report, Tally, misses, report, services, spread};
use blk_runs::{RunFault, traced};
use blk_schedulers::Sched;
use blk_text::Script;
use blk_trace::Trace;
use std::alloc::{AllocError, Global};

/// What came of a script under a scheduler of some settings.
#[derive(Clone, Copy, Debug, PartialEq, Eq)]
pub struct TrialRow {
    /// The scheduler with its settings.
    pub sched: Sched,
    /// How far its trace fell short.
    pub report: Report,
    /// How many commands were late in it, and how many had to be.
    pub tally: Tally,
    /// Of the reads' waits, in rounds from the release to the Issue, the one that 99 of 100 don't pass; none without reads.
    pub wait_read: Option<i64>,
    /// Of the writes' waits.
    pub wait_write: Option<i64>,
}

/// The numbers of a trace.
fn numbers_of(alloc: Global, sched: Sched, trace: &Trace) -> Result<TrialRow, AllocError>
    ensures sched { IfOk result (λ row. row.sched ≡ sched) }
    ensures row { IfOk result (IsRowOfTrace trace.now) }
{
    let report = report(trace)?;
    let missed = misses(trace)?;
    let services = services(trace)?;
    let spreads = spread(alloc, services.as_slice())?;
    Ok(TrialRow {
        sched,
        report,
        tally: missed.tally,
        wait_read: spreads.wait.reads.p99,
        wait_write: spreads.wait.writes.p99,
    })
}

/// The row of a script under a scheduler, or why it has none.
pub fn row_under(alloc: Global, sched: Sched, script: &Script) -> Result<TrialRow, RunFault>
    requires { IsScript (scripted script.now) }
    ensures { IsRunAnswer (scripted script.now) sched result }
{
    let trace = match traced(alloc, sched, script) {
        Ok(trace) => trace,
        Err(fault) => return Err(fault),
    };
    match numbers_of(alloc, sched, &trace) {
        Ok(row) => Ok(row),
        Err(_) => Err(RunFault::Memory),
    }
}
