//! How much load there is.

ghost use Rattle.std.specs.Prelude.{◌↔◌, IsTrue};
ghost use Rattle.blk_schedulers.specs.Numbers.{IsLoad};

use blk_bio::MAX_SOFT_QUEUES;
use edd_commands::MAX_DEPTH;

/// The most submitters: as many as software queues.
pub const MAX_LOAD_SUBMITTERS: u64 = MAX_SOFT_QUEUES;

/// The most workers.
pub const MAX_LOAD_WORKERS: u64 = 16;

/// The most bios of a submitter.
pub const MAX_LOAD_BIOS: u64 = 2000;

/// The most tags.
pub const MAX_LOAD_DEPTH: u64 = MAX_DEPTH;

/// The longest that a device takes for a command, in microseconds.
pub const MAX_LOAD_SERVICE: u64 = 1_000_000;

/// How much load there is, and on what.
#[derive(Clone, Copy, Debug, PartialEq, Eq)]
pub struct Load {
    /// How many submitters there are, 1 to [`MAX_LOAD_SUBMITTERS`].
    pub submitters: u64,
    /// How many workers there are, 1 to [`MAX_LOAD_WORKERS`].
    pub workers: u64,
    /// How many bios each submitter has, 1 to [`MAX_LOAD_BIOS`].
    pub bios: u64,
    /// How many tags there are, 1 to [`MAX_LOAD_DEPTH`]: as many commands as a round may carry.
    pub depth: u64,
    /// Each worker's device is busy at every run whose number, counted from 1, this divides, at every run for 0, never for None.
    pub busy: Option<u64>,
    /// How long each worker's device takes for a command, in microseconds, 0 to [`MAX_LOAD_SERVICE`].
    pub service: u64,
}

impl Load {
    /// Whether its numbers are in their ranges. Any way to be busy is.
    pub fn is_in_range(&self) -> bool
        ensures { IsTrue result ↔ IsLoad self.now }
    {
        self.submitters >= 1
            && self.submitters <= MAX_LOAD_SUBMITTERS
            && self.workers >= 1
            && self.workers <= MAX_LOAD_WORKERS
            && self.bios >= 1
            && self.bios <= MAX_LOAD_BIOS
            && self.depth >= 1
            && self.depth <= MAX_LOAD_DEPTH
            && self.service <= MAX_LOAD_SERVICE
    }
}
