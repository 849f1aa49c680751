//! How many requests of each direction may be in flight.

ghost use Rattle.std.specs.Prelude.{◌≡◌, ◌<◌, ◌≤◌};
ghost use Rattle.blk_kyber.specs.Limits.{first_limits, limit_of, missed, limit_then, set_anew};

use blk_bio::Dir;
use blk_sched::MAX_OPEN;
use std::marker::Model;

/// The limits are adjusted every this many rounds.
pub(crate) const ROUNDS_BETWEEN: u64 = 8;

/// The limits of both directions, and which of them had a miss since they were last set.
#[derive(Drop)]
pub(crate) struct DomainLimits {
    depth: u64,
    reads: u64,
    writes: u64,
    missed_reads: bool,
    missed_writes: bool,
}

impl Model for DomainLimits {
    ghost use Rattle.std.specs.Prelude.{◌≤◌};
    ghost use Rattle.blk_kyber.specs.Limits.{DirLimits};
    ghost use Rattle.blk_kyber.specs.Inside.Limits.{dir_limits};
    ghost use Rattle.blk_sched.specs.declared.picks.TheConstants.{MAX_OPEN};

    ghost Value = { DirLimits };

    ghost view = { λ s. dir_limits s.depth s.reads s.writes s.missed_reads s.missed_writes };

    ghost invariant = { λ s. (s.depth ≤ MAX_OPEN) × (1 ≤ s.reads) × (s.reads ≤ s.depth) × (1 ≤ s.writes) × (s.writes ≤ s.depth) };
}

impl DomainLimits {
    /// Both limits at the depth.
    pub fn new(depth: u64) -> DomainLimits
        requires least { 1 ≤ depth }
        requires most { depth ≤ MAX_OPEN }
        ensures { result ≡ first_limits depth }
    {
        DomainLimits {
            depth,
            reads: depth,
            writes: depth,
            missed_reads: false,
            missed_writes: false,
        }
    }

    /// How many requests of a direction may be in flight.
    pub fn of(&self, dir: Dir) -> u64
        ensures value { result ≡ limit_of dir self.now }
        ensures least { 1 ≤ result }
        ensures most { result ≤ self.now.depth }
    {
        match dir {
            Dir::Read => self.reads,
            Dir::Write => self.writes,
        }
    }

    /// A request of a direction waited longer than its target.
    pub fn miss(&mut self, dir: Dir)
        ensures { self.new ≡ missed dir self.old }
    {
        match dir {
            Dir::Read => self.missed_reads = true,
            Dir::Write => self.missed_writes = true,
        }
    }

    /// Sets the limits anew: a miss of either direction halves the other one's limit, and without any miss both rise. The
    /// misses are forgotten.
    pub(crate) fn set_anew(&mut self)
        ensures { self.new ≡ set_anew self.old }
    {
        let (reads, writes) = (self.missed_reads, self.missed_writes);
        self.reads = limit_then(self.reads, self.depth, reads, writes);
        self.writes = limit_then(self.writes, self.depth, writes, reads);
        self.missed_reads = false;
        self.missed_writes = false;
    }
}

/// A limit anew, by whether its own direction and the other one had a miss.
fn limit_then(limit: u64, depth: u64, own: bool, other: bool) -> u64
    requires { limit ≤ MAX_OPEN }
    ensures { result ≡ limit_then own other depth limit }
{
    match (own, other) {
        (_, true) => (limit / 2).max(1),
        (true, false) => limit,
        (false, false) => (limit + 1).min(depth),
    }
}
