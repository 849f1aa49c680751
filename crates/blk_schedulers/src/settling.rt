//! What a load is set up for, and what it comes to by the trace of its layer.

ghost use Rattle.std.specs.Prelude.{◌≡◌, ◌≤◌, IfSome, IfNone, min};
ghost use Rattle.blk_schedulers.specs.Numbers.{IsLoad};
ghost use Rattle.blk_schedulers.specs.Settles.{AreEven, AreEvenIn, IsSettled, load_setup};

use crate::numbers::MAX_LOAD_WORKERS;
use crate::{Load, Settled};
use blk_bio::{Limits, MAX_SEGMENTS};
use blk_trace::{Setup, Trace};

/// After how many rounds a read of a load is due.
pub const LOAD_READ_EXPIRE: u64 = 5;

/// After how many rounds a write of a load is due.
pub const LOAD_WRITE_EXPIRE: u64 = 50;

/// How many sectors a request of several bios of a load may have. It may have as many bios as any, [`MAX_SEGMENTS`].
pub const LOAD_MAX_SECTORS: u64 = 256;

impl Load {
    /// How many hardware queues its layer has: one for each submitter or each worker, whichever are fewer, so 1 to 16.
    pub fn hw_queues(&self) -> u64
        requires { IsLoad self.now }
        ensures value { result ≡ min self.now.submitters self.now.workers }
        ensures some { 1 ≤ result }
        ensures few { result ≤ MAX_LOAD_WORKERS }
    {
        self.submitters.min(self.workers)
    }

    /// What its layer is set up for.
    pub fn setup(&self) -> Setup
        requires { IsLoad self.now }
        ensures { result ≡ load_setup self.now }
    {
        let Ok(limits) = Limits::new(LOAD_MAX_SECTORS, MAX_SEGMENTS) else {
            unreachable!()
        };
        let hw = self.hw_queues() as u8;
        match Setup::new(self.depth, hw, LOAD_READ_EXPIRE, LOAD_WRITE_EXPIRE, limits) {
            Ok(setup) => setup,
            Err(_) => unreachable!(),
        }
    }

    /// What came of the load, by the trace of its layer once that is closed, how many bios its submitters accepted, and how many are
    /// left. None where not all of its bios were accepted and served, or something is in flight, waits or is left.
    pub fn settle(&self, trace: &Trace, accepted: u64, left: u64) -> Option<Settled>
        requires range { IsLoad self.now }
        requires setup { trace.now.setup ≡ load_setup self.now }
        ensures settled { IfSome result (IsSettled self.now trace.now) }
        ensures numbers { IfSome result (λ s. (s.accepted ≡ accepted) × (s.left ≡ left)) }
        ensures none { IfNone result (¬ AreEvenIn self.now trace.now.events accepted left) }
    {
        let waits = trace.bios_waiting();
        let served = trace.bios_entered().saturating_sub(waits);
        self.balanced(accepted, served, trace.unfinished(), waits, left)
    }

    /// The account of these numbers, where they agree.
    fn balanced(
        &self,
        accepted: u64,
        served: u64,
        in_flight: u64,
        waiting: u64,
        left: u64,
    ) -> Option<Settled>
        requires { IsLoad self.now }
        ensures account { IfSome result (λ s. s ≡ record { accepted = accepted; served = served; left = left }) }
        ensures even { IfSome result (λ s. AreEven self.now accepted served in_flight waiting left) }
        ensures none { IfNone result (¬ AreEven self.now accepted served in_flight waiting left) }
    {
        if accepted == self.submitters * self.bios
            && served == accepted
            && in_flight == 0
            && waiting == 0
            && left == 0
        {
            return Some(Settled {
                accepted,
                served,
                left,
            });
        }
        None
    }
}
