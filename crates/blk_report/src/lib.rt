//! How far a trace fell short of the best possible deadlines, and which of several traces is the best.
//!
//! The measure is the greatest lateness (Lmax of Pinedo, Scheduling): the round of a command less the round in which it was
//! due, the greatest of all commands. A trace has one, the oracle finds the least that any legal schedule of the same commands
//! has, and the difference is what the scheduler lost. A window of rounds that had more commands to serve than they carry
//! proves the least.
#![tactic(auto)]

ghost use Rattle.std.specs.Prelude.{IfOk};
ghost use Rattle.blk_report.specs.Shortfall.{IsReport};

mod below;
mod comparison;
mod delays;
mod figures;
mod missing;
mod outstaying;
mod serving;
mod spreading;

pub use crate::comparison::{compare, table_answer};
pub use crate::delays::{LateCommand, late, late_answer};
pub use crate::figures::{Report, report_answer, report_lines};
pub use crate::missing::{Missed, Tally, misses, misses_answer};
pub use crate::serving::{Service, service_of, services};
pub use crate::spreading::{ByDir, Quantiles, Spreads, spread, spread_answer};
use blk_trace::Trace;
use edd_figures::figures_of;
use std::alloc::{AllocError, Allocator};

/// The report of a trace. The least lateness is by the trace's own capacity, the depth of each of its rounds. Fails only when out of
/// memory alone. The time grows as n log n in the number of commands and events.
pub fn report<A: Allocator + Clone>(trace: &Trace<A>) -> Result<Report, AllocError>
    ensures { IfOk result (IsReport trace.now.setup trace.now.events) }
{
    let commands = trace.commands()?;
    let rounds = trace.rounds()?;
    let capacity = trace.capacity()?;
    let alloc = commands.allocator().clone()?;
    let figures = figures_of(alloc, commands.as_slice(), rounds.as_slice(), &capacity)?;
    Ok(Report {
        commands: commands.len() as u64,
        waiting: trace.bios_waiting(),
        depth: trace.setup().depth(),
        figures,
    })
}
