//! Why a step of a script is refused.

ghost use Rattle.blk_sim.specs.Names.{reason_told, step_told};

use blk_core::{BackFault, CoreFault, DepthFault, IssueFault, TickFault};
use blk_queues::PlugFault;
use edd_commands::{Beside, Fault, Told, told};
use thiserror::Error;

/// A flush for which a software queue has no room, in requests.
#[derive(Clone, Copy, Debug, PartialEq, Eq)]
pub struct Overflow {
    /// How many the software queue holds.
    pub holds: u64,
    /// How many the plug brings.
    pub brings: u64,
    /// For how many the software queue has room.
    pub room: u64,
}

/// Why a step of a script is refused: of most steps the fault of what they ask.
#[derive(Clone, Copy, Debug, PartialEq, Eq, Error)]
#[error("{}", self.name())]
pub enum SimReason {
    /// The plug doesn't take a bio.
    Plug(PlugFault),
    /// The software queue has no room for a request of the plug.
    SoftFull(Overflow),
    /// The core doesn't take a request of a software queue.
    Release(CoreFault),
    /// The core issues nothing.
    Issue(IssueFault),
    /// Nothing that is in flight under the tag is done.
    NotIssued,
    /// The core requeues nothing.
    Back(BackFault),
    /// The core sets no depth.
    Depth(DepthFault),
    /// The core doesn't end a round.
    Tick(TickFault),
    /// Memory ran out before the first step.
    Memory,
}

impl Fault for SimReason {
    ghost told = { reason_told };

    fn told(&self) -> Told {
        told!(self: SimReason {
            Plug(fault) by fault,
            SoftFull(_),
            Release(fault) by fault,
            Issue(fault) by fault,
            NotIssued,
            Back(fault) by fault,
            Depth(fault) by fault,
            Tick(fault) by fault,
            Memory => Memory,
        })
    }
}

/// A refused step.
#[derive(Clone, Copy, Debug, PartialEq, Eq)]
pub struct SimFault {
    /// Its record in the script's text: the title is record 1, the setup record 2 and the first step record 3. Where
    /// memory ran out before the first step it is 2.
    pub at: u64,
    /// The reason.
    pub why: SimReason,
}

impl Fault for SimFault {
    ghost told = { step_told };

    fn told(&self) -> Told {
        let told = self.why.told();
        match told.beside {
            Beside::Memory => told,
            _ => Told {
                name: told.name,
                beside: Beside::Record(self.at),
            },
        }
    }
}
