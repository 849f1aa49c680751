//! What came of drawn calls.

use blk_core::{BackFault, DepthFault, IssueFault, NotIssued, TickFault};
use blk_layer::{FlushFault, FlushReason, Flushed, Issued, LayerIssueFault};

/// What came of a call.
#[derive(Clone, Copy, Debug, PartialEq, Eq)]
pub enum CallOutcome {
    /// A flush left the plug empty.
    Flushed,
    /// A flush was refused for a bio of another submitter.
    Foreign,
    /// A flush was refused for an id that was accepted before.
    Repeated,
    /// A flush filled the software queue.
    SoftFull,
    /// A drain moved requests.
    Moved,
    /// A drain found none.
    NoneMoved,
    /// An issue gave a command.
    Issued,
    /// An issue gave none.
    NoneIssued,
    /// An issue found each tag taken.
    NoTag,
    /// An issue met a tag that isn't below the round's depth.
    TagRange,
    /// An issue met a tag that was used in the round.
    SlotUsed,
    /// A command was reported done.
    Done,
    /// A tag that the worker doesn't hold was reported done.
    NotDone,
    /// A command was requeued.
    Back,
    /// A command under a tag that the worker doesn't hold was to be requeued.
    NotBack,
    /// A round ended.
    Ticked,
    /// A round has a command in flight.
    InFlight,
    /// A depth was set.
    Set,
    /// A depth is out of its range.
    DepthRange,
    /// What isn't seen with ample memory and a short trace.
    Other,
}

/// All that is to be seen, each often.
pub const ALL: [CallOutcome; 19] = [
    CallOutcome::Flushed,
    CallOutcome::Foreign,
    CallOutcome::Repeated,
    CallOutcome::SoftFull,
    CallOutcome::Moved,
    CallOutcome::NoneMoved,
    CallOutcome::Issued,
    CallOutcome::NoneIssued,
    CallOutcome::NoTag,
    CallOutcome::TagRange,
    CallOutcome::SlotUsed,
    CallOutcome::Done,
    CallOutcome::NotDone,
    CallOutcome::Back,
    CallOutcome::NotBack,
    CallOutcome::Ticked,
    CallOutcome::InFlight,
    CallOutcome::Set,
    CallOutcome::DepthRange,
];

/// What came of a flush.
pub fn of_flush(answer: &Result<Flushed, FlushFault>) -> CallOutcome {
    match answer {
        Ok(_) => CallOutcome::Flushed,
        Err(fault) => match fault.why {
            FlushReason::Foreign(_) => CallOutcome::Foreign,
            FlushReason::Repeated(_) => CallOutcome::Repeated,
            FlushReason::SoftFull => CallOutcome::SoftFull,
            FlushReason::Memory => CallOutcome::Other,
        },
    }
}

/// What came of an issue.
pub fn of_issue(answer: &Result<Option<Issued>, LayerIssueFault>) -> CallOutcome {
    match answer {
        Ok(Some(_)) => CallOutcome::Issued,
        Ok(None) => CallOutcome::NoneIssued,
        Err(LayerIssueFault::NoTag) => CallOutcome::NoTag,
        Err(LayerIssueFault::Issue(IssueFault::TagRange)) => CallOutcome::TagRange,
        Err(LayerIssueFault::Issue(IssueFault::SlotUsed)) => CallOutcome::SlotUsed,
        Err(LayerIssueFault::Issue(_)) => CallOutcome::Other,
    }
}

/// What came of a command reported done.
pub fn of_done(answer: &Result<(), NotIssued>) -> CallOutcome {
    match answer {
        Ok(()) => CallOutcome::Done,
        Err(NotIssued) => CallOutcome::NotDone,
    }
}

/// What came of a command that was to be requeued.
pub fn of_back(answer: &Result<u64, BackFault>) -> CallOutcome {
    match answer {
        Ok(_) => CallOutcome::Back,
        Err(BackFault::NotIssued) => CallOutcome::NotBack,
        Err(BackFault::Memory) => CallOutcome::Other,
    }
}

/// What came of a tick.
pub fn of_tick(answer: &Result<u64, TickFault>) -> CallOutcome {
    match answer {
        Ok(_) => CallOutcome::Ticked,
        Err(TickFault::InFlight(_)) => CallOutcome::InFlight,
        Err(TickFault::TraceFull | TickFault::Memory) => CallOutcome::Other,
    }
}

/// What came of a depth.
pub fn of_depth(answer: &Result<(), DepthFault>) -> CallOutcome {
    match answer {
        Ok(()) => CallOutcome::Set,
        Err(DepthFault::DepthRange) => CallOutcome::DepthRange,
        Err(DepthFault::TraceFull | DepthFault::Memory) => CallOutcome::Other,
    }
}

/// How often it was seen.
pub fn times(log: &[CallOutcome], seen: CallOutcome) -> usize {
    log.iter().filter(|one| **one == seen).count()
}
