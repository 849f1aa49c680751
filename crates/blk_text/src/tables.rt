//! The rows of the tables of events and of steps, in the one type of all kinds.

ghost use Rattle.std.specs.Prelude.{◌≡◌};
ghost use Rattle.blk_text.specs.EventKinds.{event_table};
ghost use Rattle.blk_text.specs.StepKinds.{step_kinds};

use crate::bios::BIO;
use crate::heads::{BACK, DEPTH, DONE, ISSUE, JOIN, RELEASE, TICK};
use crate::script::{DRAIN, FLUSH, RUN, STEP_ISSUE};
use blk_records::any::AnyKind;

/// The kinds of events of a trace, each by the row of its first record.
pub fn event_kinds() -> [AnyKind; 7]
    ensures { result ≡ event_table }
{
    [
        TICK.any(),
        RELEASE.any(),
        JOIN.any(),
        ISSUE.any(),
        DONE.any(),
        BACK.any(),
        DEPTH.any(),
    ]
}

/// The kinds of steps of a script, whose numbers of hardware queues and of submitters are any here.
pub fn step_kinds() -> [AnyKind; 9]
    ensures { result ≡ step_kinds }
{
    [
        BIO.any(),
        FLUSH.any(),
        DRAIN.any(),
        STEP_ISSUE.any(),
        DONE.any(),
        BACK.any(),
        TICK.any(),
        RUN.any(),
        DEPTH.any(),
    ]
}
