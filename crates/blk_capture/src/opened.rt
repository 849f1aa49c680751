//! Requests, as they were opened and grew.

ghost use Rattle.std.specs.Prelude.{◌≡◌};
ghost use Rattle.blk_capture.specs.Rules.{goes_out_by, is_opened};
ghost use Rattle.blk_capture.specs.Settled.{is_absorbed};

use crate::record::Range;

/// How far a request came.
#[derive(Clone, Copy, Debug)]
pub(crate) enum Stage {
    /// It was opened and not inserted, and waits in a plug, or where it goes out from directly.
    Opened,
    /// It waits in the scheduler.
    Inserted,
    /// It is at the device, by the dispatch of this number.
    InFlight(usize),
    /// It was completed, and went out by the dispatch of this number.
    Completed(usize),
    /// It was merged into another.
    Absorbed,
}

/// A request, as it was opened and grew.
#[derive(Clone, Copy, Debug)]
pub(crate) struct Opened {
    /// All of its sectors.
    pub(crate) range: Range,
    /// The process that opened it.
    pub(crate) pid: u64,
    /// The processor on which that ran then.
    pub(crate) cpu: u64,
    /// When its first bio was queued.
    pub(crate) queued: u64,
    /// When it was opened.
    pub(crate) got: u64,
    /// When it was inserted, if it was.
    pub(crate) inserted: Option<u64>,
    /// When a bio or a request was last merged into it, if any was.
    pub(crate) merged: Option<u64>,
    /// The earliest deadline of the requests that were merged into it, if any was.
    pub(crate) earlier: Option<u64>,
    /// When it was completed, if it was.
    pub(crate) completed: Option<u64>,
    /// How far it came.
    pub(crate) stage: Stage,
    /// The rest of it, which is not completed yet.
    pub(crate) left: Range,
    /// The number of the record that inserted it, or opened it.
    pub(crate) age: u64,
}

impl Opened {
    /// Whether the dispatch of a number is its last one.
    pub(crate) fn goes_out_by(&self, number: usize) -> bool
        ensures { result ≡ goes_out_by number self.now.stage }
    {
        match self.stage {
            Stage::InFlight(last) | Stage::Completed(last) => last == number,
            Stage::Opened | Stage::Inserted | Stage::Absorbed => false,
        }
    }

    /// Whether it was opened and not inserted.
    pub(crate) fn is_opened(&self) -> bool
        ensures { result ≡ is_opened self.now.stage }
    {
        matches!(self.stage, Stage::Opened)
    }

    /// Whether it was merged into another.
    pub(crate) fn is_absorbed(&self) -> bool
        ensures { result ≡ is_absorbed self.now.stage }
    {
        matches!(self.stage, Stage::Absorbed)
    }
}

/// A request that was merged into another.
#[derive(Clone, Copy, Debug)]
pub(crate) struct Absorption {
    /// Its number.
    pub(crate) request: usize,
    /// The other's.
    pub(crate) into: usize,
}
