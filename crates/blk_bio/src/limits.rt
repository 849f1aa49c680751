//! How large a request of several bios may be, after `max_sectors` and `max_segments` of Linux's request queue, and how many
//! hardware queues a device has at most, how many software queues stand before them, and how deep those are.

ghost use Rattle.std.specs.Prelude.{◌≡◌};
ghost use Rattle.blk_bio.specs.Limits.{IsLimits, IsLimitsAnswer};

use std::marker::Model;
use thiserror::Error;

/// The greatest number of sectors that may be set as a limit.
pub const MAX_SECTORS: u64 = 65_535;

/// The greatest number of segments that may be set as a limit; each bio is one segment.
pub const MAX_SEGMENTS: u64 = 128;

/// The most hardware queues of a device, at each of which requests enter; they are numbered from 0 on.
pub const MAX_QUEUES: u8 = 16;

/// The most software queues, each of which is one submitter's; they are numbered from 0 on.
pub const MAX_SOFT_QUEUES: u64 = 64;

/// The greatest depth of a software queue, in requests.
pub const MAX_SOFT_DEPTH: u64 = 1024;

/// Why limits are not made, in the order in which the reasons are looked for.
#[derive(Clone, Copy, Debug, PartialEq, Eq, Error)]
#[error("{:?}", self)]
pub enum LimitsFault {
    /// The number of sectors is 0 or above [`MAX_SECTORS`].
    Sectors,
    /// The number of segments is 0 or above [`MAX_SEGMENTS`].
    Segments,
}

/// The most sectors and segments (bios) of a request of two or more bios. A request of one bio is never cut: it may
/// be longer, and then nothing joins it.
#[derive(Clone, Copy, Debug, PartialEq, Eq)]
pub struct Limits {
    max_sectors: u64,
    max_segments: u64,
}

impl Model for Limits {
    ghost use Rattle.blk_bio.specs.Limits.{Limits as LimitsFields, IsLimits};

    ghost Value = { LimitsFields };

    ghost view = { λ l. record { max_sectors = l.max_sectors; max_segments = l.max_segments } };

    ghost invariant = { λ l. IsLimits record { max_sectors = l.max_sectors; max_segments = l.max_segments } };

    ghost inverse = { λ v. record { max_sectors = v.max_sectors; max_segments = v.max_segments } };
}

impl Limits {
    /// Limits of 1 to [`MAX_SECTORS`] sectors and 1 to [`MAX_SEGMENTS`] segments. Refused as `Sectors` where the first number is
    /// out of its range, and then as `Segments` where the second one is.
    pub fn new(max_sectors: u64, max_segments: u64) -> Result<Limits, LimitsFault>
        ensures { IsLimitsAnswer max_sectors max_segments result }
    {
        if max_sectors == 0 || max_sectors > MAX_SECTORS {
            return Err(LimitsFault::Sectors);
        }
        if max_segments == 0 || max_segments > MAX_SEGMENTS {
            return Err(LimitsFault::Segments);
        }
        Ok(Limits {
            max_sectors,
            max_segments,
        })
    }

    /// The most sectors, 1 to [`MAX_SECTORS`].
    pub fn max_sectors(&self) -> u64
        ensures value { result ≡ self.now.max_sectors }
        ensures is_limits { IsLimits self.now }
    {
        self.max_sectors
    }

    /// The most bios, 1 to [`MAX_SEGMENTS`].
    pub fn max_segments(&self) -> u64
        ensures value { result ≡ self.now.max_segments }
        ensures is_limits { IsLimits self.now }
    {
        self.max_segments
    }
}
