//! What a person sets: a scheduler, a row of the table of schedulers, with its settings and the options that give them, grids of
//! these, and how much load there is on a running layer. It also has a load's result and faults, and the trait [`Loads`], so that the
//! command line needs no layer and no threads.
#![tactic(auto)]

ghost use Rattle.std.specs.Prelude.{OnOk, IfOk, IfErr};
ghost use denote.Param.Send.{IsSync};
ghost use Rattle.blk_schedulers.specs.Numbers.{IsLoad};
ghost use Rattle.blk_schedulers.specs.Made.{IsLoadSettingsFault};
ghost use Rattle.blk_schedulers.specs.Names.{unsettled_told};
ghost use Rattle.blk_schedulers.specs.Ran.{IsRunUnder};
ghost use Rattle.blk_schedulers.specs.Settles.{IsSettled, served_bios};
ghost use Rattle.blk_trace.specs.Events.{AreOnce};

pub mod form;
pub mod given;
pub mod grid;
pub mod laws;
pub mod lists;
pub mod numbers;
pub mod options;
pub mod plans;
pub mod positions;
pub mod rows;
pub mod sched;
pub mod setting;
mod settling;
pub mod told;

pub use crate::form::Form;
pub use crate::given::Given;
pub use crate::grid::{RankBy, TrialAsked};
pub use crate::lists::{Complaint, ListFault};
pub use crate::numbers::Load;
pub use crate::options::{OptionRow, OptionValue};
pub use crate::plans::{FifoExpire, Plan, ReplayBy};
pub use crate::rows::SchedKind;
pub use crate::sched::{ComparedScheds, Sched, SchedFault};
pub use crate::setting::{Setting, SettingValue, Settings};
use blk_trace::Trace;
use edd_commands::{Fault, Told, told};
use std::alloc::Global;
use std::sync::Wait;
use std::thread::Threads;
use thiserror::Error;

/// What came of a load, in bios.
#[derive(Clone, Copy, Debug, PartialEq, Eq)]
pub struct Settled {
    /// How many bios were accepted.
    pub accepted: u64,
    /// How many bios are in the commands that are done.
    pub served: u64,
    /// How many bios still wait.
    pub left: u64,
}

/// A load that was run and settled.
#[derive(Drop)]
pub struct Loaded {
    /// What its layer did.
    pub trace: Trace,
    /// What came of it.
    pub settled: Settled,
    /// How long it took, where the clock could be read.
    pub times: Option<LoadTimes>,
}

/// How long a load took by the clock, in microseconds.
#[derive(Clone, Copy, Debug, PartialEq, Eq)]
pub struct LoadTimes {
    /// Its threads, from the start of the first to the end of the last.
    pub serving: u64,
    /// The settling of its accounts, after.
    pub settling: u64,
}

/// Why a load has no result, in the order in which the reasons are looked for.
#[derive(Clone, Copy, Debug, PartialEq, Eq, Error)]
#[error("{}", self.name())]
pub enum Unsettled {
    /// A number of the load is out of its range.
    Range,
    /// The scheduler is not made of its settings.
    Sched(SchedFault),
    /// The load was run and fails, as this tells.
    Load(Told),
}

impl Fault for Unsettled {
    ghost told = { unsettled_told };

    fn told(&self) -> Told {
        told!(self: Unsettled {
            Range,
            Sched(fault) by fault,
            Load(told) by told,
        })
    }
}

/// Whoever runs loads.
pub trait Loads {
    ghost use Rattle.std.specs.Prelude.{Result};
    ghost use Rattle.blk_schedulers.specs.declared.sched.Sched.{Sched};
    ghost use Rattle.blk_schedulers.specs.declared.numbers.Load.{Load};
    ghost use Rattle.blk_schedulers.specs.declared.Loaded.{Loaded};
    ghost use Rattle.blk_schedulers.specs.declared.Unsettled.{Unsettled};

    /// As what a load under this scheduler with these numbers may end here.
    ghost ends_as: { Sched → Load → Result Loaded Unsettled → Type 0 };

    /// Runs a load over a layer of this scheduler, and settles its account.
    ///
    /// Refused, by the first of these that applies: as `Range` where a number of the load is out of its range; as the scheduler is
    /// where it isn't made of its settings; and else as the load tells that fails: `Memory`; `TraceFull` where a worker is refused so;
    /// `Repeated` where a submitter or a worker is; `stalled` where one used up its flushes or its passes; `SeatMissing` or
    /// `Differs` where the layer's accounts can't be settled; and `Unserved` where not all bios were accepted and served.
    fn run<R: Threads + Wait + Sync>(
        &self,
        rt: &R,
        alloc: Global,
        sched: Sched,
        load: Load,
    ) -> Result<Loaded, Unsettled>
        // any thread may use the runtime
        requires shared { IsSync R.row }
        ensures range { OnOk result (IsLoad load) }
        ensures settled { IfOk result (λ l. IsSettled load l.trace l.settled) }
        ensures ran { IfOk result (λ l. IsRunUnder sched load.depth l.trace) }
        ensures once { IfOk result (λ l. AreOnce (served_bios l.trace.events)) }
        ensures unsettled { IfErr result (IsLoadSettingsFault sched load) }
        ensures ends { ends_as sched load result };
}
