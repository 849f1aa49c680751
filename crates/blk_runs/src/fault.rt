//! Why a script has no trace.

ghost use Rattle.blk_runs.specs.Names.{run_told};

use blk_schedulers::SchedFault;
use blk_sim::SimFault;
use edd_commands::{Fault, Told, told};
use thiserror::Error;

/// Why a script is not run.
#[derive(Clone, Copy, Debug, PartialEq, Eq, Error)]
#[error("{}", self.name())]
pub enum RunFault {
    /// The scheduler is not made of its settings, or memory ran out as it was made.
    Sched(SchedFault),
    /// A step of the script is refused, or memory ran out at it.
    Step(SimFault),
    /// Memory ran out while something was made of the runs. No single run ends so.
    Memory,
}

impl Fault for RunFault {
    ghost told = { run_told };

    fn told(&self) -> Told {
        told!(self: RunFault {
            Sched(fault) by fault,
            Step(fault) by fault,
            Memory => Memory,
        })
    }
}
