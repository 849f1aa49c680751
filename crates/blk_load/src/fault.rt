//! Why a load fails.

ghost use Rattle.std.specs.Prelude.{◌≡◌};
ghost use Rattle.blk_load.specs.Inside.Faults.{load_told, fault_rank, IsFirstOfTwo};

use blk_layer::{CloseFault, FlushReason, WorkFault};
use edd_commands::{Fault, Told, told};
use thiserror::Error;

/// Why a load fails. Of several reasons the first is reported: that memory ran out, wherever it did; that the trace is full; that the
/// id of a bio was used before; and then in the order of the others here.
#[derive(Clone, Copy, Debug, PartialEq, Eq, Error)]
#[error("{}", self.name())]
pub enum LoadFault {
    /// Memory ran out.
    Memory,
    /// A worker's work ended early.
    Work(WorkFault),
    /// A flush was refused, for another reason than that the software queue was full.
    Flush(FlushReason),
    /// A submitter used up its flushes, or a worker its passes.
    Stalled,
    /// The layer is not closed.
    Close(CloseFault),
    /// The accounts differ from the trace.
    Differs,
    /// Not all bios were accepted and served.
    Unserved,
}

impl Fault for LoadFault {
    ghost told = { load_told };

    fn told(&self) -> Told {
        told!(self: LoadFault {
            Memory => Memory,
            Work(fault) by fault,
            Flush(reason) by reason,
            Stalled as "stalled",
            Close(fault) by fault,
            Differs,
            Unserved,
        })
    }
}

impl LoadFault {
    /// Its place in their order.
    fn rank(&self) -> u8
        ensures { result ≡ fault_rank self.now }
    {
        match self {
            LoadFault::Memory
            | LoadFault::Work(WorkFault::Memory)
            | LoadFault::Flush(FlushReason::Memory)
            | LoadFault::Close(CloseFault::Memory) => 0,
            LoadFault::Work(WorkFault::TraceFull) => 1,
            LoadFault::Work(WorkFault::Repeated(_)) | LoadFault::Flush(_) => 2,
            LoadFault::Stalled => 3,
            LoadFault::Close(CloseFault::SeatMissing) => 4,
            LoadFault::Differs => 5,
            LoadFault::Unserved => 6,
        }
    }
}

/// Which of two faults is reported, where there are any.
pub(crate) fn first_of(one: Option<LoadFault>, other: Option<LoadFault>) -> Option<LoadFault>
    ensures { IsFirstOfTwo one other result }
{
    match (one, other) {
        (None, _) => other,
        (_, None) => one,
        (Some(a), Some(b)) => { if b.rank() < a.rank() { other } else { one } }
    }
}
