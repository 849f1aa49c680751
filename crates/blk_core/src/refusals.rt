//! Why a core refuses a call.

ghost use Rattle.blk_core.specs.Names.{release_told, issue_told, back_told, tick_told, depth_told};

use blk_bio::BioId;
use edd_commands::{Fault, Told, told};
use thiserror::Error;

/// Why a request is not released, in the order in which the reasons are looked for.
#[derive(Clone, Copy, Debug, PartialEq, Eq, Error)]
#[error("{}", self.name())]
pub enum CoreFault {
    /// There is no such hardware queue.
    NoQueue,
    /// The first bio, in the order of their sectors, whose id stands in the trace or earlier in the request.
    Repeated(BioId),
    /// The trace has no place for the event.
    TraceFull,
    /// Memory ran out.
    Memory,
}

impl Fault for CoreFault {
    ghost told = { release_told };

    fn told(&self) -> Told {
        told!(self: CoreFault { NoQueue, Repeated(_), TraceFull, Memory => Memory })
    }
}

/// Why nothing is issued, in the order in which the reasons are looked for.
#[derive(Clone, Copy, Debug, PartialEq, Eq, Error)]
#[error("{}", self.name())]
pub enum IssueFault {
    /// There is no such hardware queue.
    NoQueue,
    /// The tag is not below the depth of this round.
    TagRange,
    /// The tag was issued in this round.
    SlotUsed,
    /// The trace has no places for an Issue and its Done.
    TraceFull,
    /// Memory ran out.
    Memory,
}

impl Fault for IssueFault {
    ghost told = { issue_told };

    fn told(&self) -> Told {
        told!(self: IssueFault { NoQueue, TagRange, SlotUsed, TraceFull, Memory => Memory })
    }
}

/// No command is in flight under the tag.
#[derive(Clone, Copy, Debug, PartialEq, Eq)]
pub struct NotIssued;

/// Why a command is not requeued, in the order in which the reasons are looked for.
#[derive(Clone, Copy, Debug, PartialEq, Eq, Error)]
#[error("{}", self.name())]
pub enum BackFault {
    /// No command is in flight under the tag.
    NotIssued,
    /// Memory ran out.
    Memory,
}

impl Fault for BackFault {
    ghost told = { back_told };

    fn told(&self) -> Told {
        told!(self: BackFault { NotIssued, Memory => Memory })
    }
}

/// Why a round does not end, in the order in which the reasons are looked for.
#[derive(Clone, Copy, Debug, PartialEq, Eq, Error)]
#[error("{}", self.name())]
pub enum TickFault {
    /// This many commands are in flight.
    InFlight(u64),
    /// The trace has no place for the event.
    TraceFull,
    /// Memory ran out.
    Memory,
}

impl Fault for TickFault {
    ghost told = { tick_told };

    fn told(&self) -> Told {
        told!(self: TickFault { InFlight(_), TraceFull, Memory => Memory })
    }
}

/// Why no depth is set, in the order in which the reasons are looked for.
#[derive(Clone, Copy, Debug, PartialEq, Eq, Error)]
#[error("{}", self.name())]
pub enum DepthFault {
    /// The trace has no place for the event.
    TraceFull,
    /// The depth is 0 or above the setup's.
    DepthRange,
    /// Memory ran out.
    Memory,
}

impl Fault for DepthFault {
    ghost told = { depth_told };

    fn told(&self) -> Told {
        told!(self: DepthFault { TraceFull, DepthRange, Memory => Memory })
    }
}
