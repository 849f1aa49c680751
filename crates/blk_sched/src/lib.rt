//! What a scheduler is: a trait with its laws.
#![tactic(auto)]

ghost use Rattle.std.specs.Prelude.{◌≡◌, ◌<◌, ◌+◌, ◌↔◌, ℕ, List, [], ◌⊎◌, IfOk, OnOk, IfErr, OnErr, IfSome, IfNone, IsTrue, None};
ghost use Rattle.std.specs.FinMap as map;
ghost use Rattle.blk_bio.specs.Extents.{TouchesAt};
ghost use Rattle.blk_sched.specs.Policies.{Policy};
ghost use Rattle.blk_sched.specs.Meaning.{Waiting, Meaning, HasCandidate, HasNoCandidate, Enters, Joins, StandsAt, JoinsAt, ServesNothing, Picks, RequeuesPick, joined_waiting, opened, open_of, requeued_of, unfinished};

mod fits;
mod picks;

pub use crate::fits::side_of_fit;
pub use crate::picks::{MAX_OPEN, MAX_REQUEUED, OpenPicks};
use blk_bio::{Dir, Extent, Limits, MAX_QUEUES, Side};
use std::alloc::{AllocError, Allocator};
use thiserror::Error;

/// A request as it enters a scheduler and leaves it: what a scheduler has to know of it. Its bios stay in the trace, which
/// has to name them for ever.
#[derive(Clone, Copy, Debug, PartialEq, Eq)]
pub struct Queued {
    /// Its id among the requests of a scheduler.
    pub id: u64,
    /// The hardware queue that it entered at, below `MAX_QUEUES`.
    pub hw: u8,
    /// The round in which it was released or last joined.
    pub release: u64,
    /// The round in which it is due.
    pub due: u64,
    /// Its direction, its sectors, and how many bios it has.
    pub extent: Extent,
}

impl Queued {
    /// This request once a newcomer that touches it at the side has joined in the round `now`, which becomes its release.
    #[inline]
    pub fn joined(&self, newcomer: &Extent, side: Side, now: u64) -> Queued
        requires { TouchesAt self.now.extent newcomer.now side }
        ensures { result ≡ joined_waiting side now newcomer.now self.now }
    {
        Queued {
            release: now,
            extent: self.extent.joined(newcomer, side),
            ..*self
        }
    }
}

/// Why a newcomer joined no request, in the order in which the reasons are looked for.
#[derive(Clone, Copy, Debug, PartialEq, Eq, Error)]
#[error("{:?}", self)]
pub enum JoinRefusal {
    /// It fits none of the requests that may be tried.
    NoFit,
    /// Memory ran out.
    Memory,
}

/// A scheduler: requests that wait, which it hands out one by one, in the way of Linux blk-mq's elevators.
/// Its laws are the clauses of its methods. Every hardware queue is below `MAX_QUEUES`, and times are in rounds: as `now` a
/// core passes its round, which rises from tick to tick.
pub trait Scheduler: Drop {
    /// What it, and a core over it, takes memory from.
    type A: Allocator + Clone;

    /// What waits, how many picks of each direction are open or requeued, and whether a newcomer may join at the front.
    ghost meaning: { Self → Meaning };

    /// What it does by its own rules: which requests a pick may take, which it chooses, and what it keeps after a
    /// completion and after a tick.
    ghost policy: { Policy };

    /// What a scheduler keeps beside its meaning, as its turn or its settings, listed as numbers: inserts, joins and
    /// picks of nothing leave it. A scheduler that keeps no more has nothing in the list.
    ghost kept: { Self → List ℕ } = { λ _. [] };

    /// Adds a request, whose id must not be waiting already. It fails only when out of memory: nothing is changed then.
    fn insert(&mut self, queued: Queued) -> Result<(), AllocError>
        requires new { map.get (meaning self.old).pending queued.id ≡ None }
        requires hw { queued.hw < MAX_QUEUES }
        ensures ok { OnOk result (Enters (meaning self.old) (meaning self.new) queued) }
        ensures kept { OnOk result (Self.kept self.new ≡ Self.kept self.old) }
        ensures same { OnErr result (self.new ≡ self.old) };

    /// The request that a newcomer joins, and at which side: the newest that is served for the hardware queue and that it fits.
    /// None exactly where it fits none of them.
    fn candidate(&self, hw: u8, limits: &Limits, newcomer: &Extent) -> Option<(u64, Side)>
        requires { hw < MAX_QUEUES }
        ensures some { IfSome result (λ r. HasCandidate policy.serves hw limits.now newcomer.now (meaning self.now) r.0 r.1) }
        ensures none { IfNone result (HasNoCandidate policy.serves hw limits.now newcomer.now (meaning self.now)) };

    /// Joins a newcomer to the request of an id at a side, which is served for the hardware queue and which it touches
    /// there: `now`, the core's round, becomes that request's release; its id, hardware queue and due round stay. It fails
    /// only when out of memory: nothing is changed then.
    fn join(
        &mut self,
        hw: u8,
        id: u64,
        side: Side,
        now: u64,
        newcomer: &Extent,
    ) -> Result<(), AllocError>
        requires hw { hw < MAX_QUEUES }
        requires stands { StandsAt policy.serves hw newcomer.now (meaning self.old) id side }
        ensures joined { OnOk result (JoinsAt now newcomer.now (meaning self.old) id side (meaning self.new)) }
        ensures kept { OnOk result (Self.kept self.new ≡ Self.kept self.old) }
        ensures same { OnErr result (self.new ≡ self.old) };

    /// Joins a newcomer to the newest request served for the hardware queue that it fits: `now`, the core's round,
    /// becomes that request's release; its id, hardware queue and due round stay. Answers the request's id and the side.
    ///
    /// Refused as `NoFit` exactly where it fits none of them, at the back or, where the scheduler allows it, at the
    /// front; and as `Memory` where it fits one and memory ran out. A refusal changes nothing. `hw` must be below
    /// [`MAX_QUEUES`].
    final fn try_join(
        &mut self,
        hw: u8,
        now: u64,
        limits: &Limits,
        newcomer: &Extent,
    ) -> Result<(u64, Side), JoinRefusal>
        requires hw { hw < MAX_QUEUES }
        ensures joined { IfOk result (λ r. Joins policy.serves hw now limits.now newcomer.now (meaning self.old) r.0 r.1 (meaning self.new)) }
        ensures kept { OnOk result (Self.kept self.new ≡ Self.kept self.old) }
        ensures no_fit { IfErr result (λ why. (why ≡ JoinRefusal.NoFit) ↔ HasNoCandidate policy.serves hw limits.now newcomer.now (meaning self.old)) }
        ensures same { OnErr result (self.new ≡ self.old) }
    {
        let Some((id, side)) = self.candidate(hw, limits, newcomer) else {
            return Err(JoinRefusal::NoFit);
        };
        match self.join(hw, id, side, now, newcomer) {
            Ok(()) => Ok((id, side)),
            Err(_) => Err(JoinRefusal::Memory),
        }
    }

    /// Takes out one request that is served for the hardware queue and opens one pick of its direction: the one that the
    /// scheduler chooses. None only where a pick is open or requeued, of either direction, or no served request waits.
    /// Each request is served at least for the hardware queue that it entered at. `now` is the core's round, and fewer
    /// than [`MAX_OPEN`] picks may be open.
    fn pick(&mut self, hw: u8, now: u64) -> Option<Queued>
        requires hw { hw < MAX_QUEUES }
        requires few { (meaning self.old).open_picks.reads + (meaning self.old).open_picks.writes < MAX_OPEN }
        ensures chosen { policy.chooses (Self.kept self.old) (meaning self.old) hw now result (Self.kept self.new) }
        ensures picked { IfSome result (λ w. Picks policy.serves hw (meaning self.old) w (meaning self.new)) }
        ensures none { IfNone result ((0 < unfinished (meaning self.old).open_picks) ⊎ ServesNothing policy.serves hw (meaning self.old)) }
        ensures same { IfNone result (meaning self.new ≡ meaning self.old) }
        ensures kept { IfNone result (Self.kept self.new ≡ Self.kept self.old) }
        ensures own { (w : Waiting) → IsTrue (policy.serves w.hw w) };

    /// Closes an open pick of a direction, of which one must be open; `wait` is the number of rounds from the release of the request that was picked
    /// to its last issue, and `hw` the hardware queue that it was picked for.
    fn on_done(&mut self, hw: u8, dir: Dir, wait: u64)
        requires hw { hw < MAX_QUEUES }
        requires is_open { 0 < open_of dir (meaning self.old).open_picks }
        ensures done { meaning self.old ≡ record (meaning self.new) { open_picks = opened dir (meaning self.new).open_picks } }
        ensures told { policy.told_done hw dir wait (Self.kept self.old) (Self.kept self.new) };

    /// Requeues an open pick of a direction, of which one must be open: the device was busy. It is no completion. Fewer
    /// than `MAX_REQUEUED` may be requeued.
    fn on_requeue(&mut self, dir: Dir)
        requires is_open { 0 < open_of dir (meaning self.old).open_picks }
        requires few { (meaning self.old).open_picks.requeued_reads + (meaning self.old).open_picks.requeued_writes < MAX_REQUEUED }
        ensures back { RequeuesPick dir (meaning self.old) (meaning self.new) }
        ensures kept { Self.kept self.new ≡ Self.kept self.old };

    /// Opens a requeued pick of a direction again, as its request is dispatched again. Fewer than `MAX_OPEN` picks may be
    /// open.
    fn on_reissue(&mut self, dir: Dir)
        requires is_requeued { 0 < requeued_of dir (meaning self.old).open_picks }
        requires few { (meaning self.old).open_picks.reads + (meaning self.old).open_picks.writes < MAX_OPEN }
        ensures again { RequeuesPick dir (meaning self.new) (meaning self.old) }
        ensures kept { Self.kept self.new ≡ Self.kept self.old };

    /// Begins the round `now`: the core's, which rises from tick to tick. What waits and the picks stay as they are.
    fn on_tick(&mut self, now: u64)
        ensures same { meaning self.new ≡ meaning self.old }
        ensures told { policy.told_tick now (Self.kept self.old) (Self.kept self.new) };

    /// How many requests wait.
    fn pending(&self) -> u64
        ensures { result ≡ map.len (meaning self.now).pending };

    /// How many picks of a direction are open.
    fn picked(&self, dir: Dir) -> u64
        ensures { result ≡ open_of dir (meaning self.now).open_picks };

    /// How many picks of a direction are requeued.
    fn requeued(&self, dir: Dir) -> u64
        ensures { result ≡ requeued_of dir (meaning self.now).open_picks };
}
