//! The scheduler that limits how many requests of each direction are in flight, after Linux's kyber-iosched.
#![tactic(auto)]

ghost use Rattle.std.specs.Prelude.{◌≡◌, ◌≤◌, ◌<◌, ◌+◌, ◌↔◌, ◌⊎◌, true, Option, None, Some, Err, IfOk, IfErr, IfSome, IfNone, IsTrue};
ghost use Rattle.std.specs.FinMap as map;
ghost use Rattle.blk_bio.specs.declared.bio.Dir.{Dir};
ghost use Rattle.blk_sched.specs.Meaning.{Waiting, ServesNothing, Picks, RequeuesPick, at_start, opened, open_of, requeued_of, unfinished};
ghost use Rattle.blk_index.specs.Index.{NoneOf};
ghost use Rattle.blk_index.specs.Inside.Search.{IsIdOf};
ghost use Rattle.blk_kyber.specs.Limits.{Completed, RoundBegan, limit_of, target_of};
ghost use Rattle.blk_kyber.specs.Choice.{serves_own, in_flight, chosen};
ghost use Rattle.blk_kyber.specs.State.{KyberState, state_at_first, choice_for, after_pick, kept_told, Follows, numbers_of, Chooses, IsReported, kyber_policy};
ghost use Rattle.blk_kyber.specs.Names.{kyber_told};
ghost use Rattle.blk_kyber.specs.Shown.{meaning_of, state_of};
ghost use Rattle.blk_kyber.specs.Inside.Parts.{IsTurnChoice, head_in};
ghost use Rattle.blk_index.specs.Queues.{served_of};

mod limits;
mod turn;

use crate::limits::{DomainLimits, ROUNDS_BETWEEN};
use crate::turn::{Turn, cap, other};
use blk_bio::{Dir, Extent, Limits, MAX_QUEUES, Side};
use blk_index::Queues;
use blk_sched::{MAX_OPEN, MAX_REQUEUED, OpenPicks, Queued, Scheduler};
use edd_commands::{Fault, Told, told};
use std::alloc::{AllocError, Allocator, Global};
use thiserror::Error;

/// How many rounds a request may wait from its release to its issue, 1 at least.
#[derive(Clone, Copy, Debug, PartialEq, Eq)]
pub struct Targets {
    /// A read.
    pub read: u64,
    /// A write.
    pub write: u64,
}

impl Targets {
    /// Whether a target is 0, for which there is no scheduler. [`Kyber::new`] asks this, and so may a caller that checks settings before it
    /// makes one.
    pub fn has_zero_target(&self) -> bool
        ensures { IsTrue result ↔ ((self.now.read ≡ 0) ⊎ (self.now.write ≡ 0)) }
    {
        self.read == 0 || self.write == 0
    }

    /// The target of a direction.
    fn of(&self, dir: Dir) -> u64
        ensures { result ≡ target_of dir self.now }
    {
        match dir {
            Dir::Read => self.read,
            Dir::Write => self.write,
        }
    }
}

/// Why a scheduler is not made, in the order in which the reasons are looked for.
#[derive(Clone, Copy, Debug, PartialEq, Eq, Error)]
#[error("{}", self.name())]
pub enum KyberFault {
    /// A target of no round.
    ZeroTarget,
    /// Memory ran out.
    Memory,
}

impl Fault for KyberFault {
    ghost told = { kyber_told };

    fn told(&self) -> Told {
        told!(self: KyberFault {
            ZeroTarget,
            Memory => Memory,
        })
    }
}

/// Requests by turns of reads and writes at each hardware queue, while fewer are in flight than the limits.
#[derive(Drop)]
pub struct Kyber<A: Allocator = Global> {
    queues: Queues<A>,
    targets: Targets,
    limits: DomainLimits,
    turns: [Turn; MAX_QUEUES as usize],
    open_picks: OpenPicks,
}

impl<A: Allocator + Clone> Kyber<A> {
    /// A scheduler for the hardware queues below [`MAX_QUEUES`], in which nothing waits and no pick is open, with both limits at
    /// the depth. Refused as `ZeroTarget` where a target is 0, and as `Memory` where memory runs out.
    pub fn new(alloc: A, targets: Targets, depth: u64) -> Result<Kyber<A>, KyberFault>
        requires least { 1 ≤ depth }
        requires most { depth ≤ MAX_OPEN }
        ensures zero { ((targets.read ≡ 0) ⊎ (targets.write ≡ 0)) ↔ (result ≡ Err KyberFault.ZeroTarget) }
        ensures ok { IfOk result (λ s. meaning_of s ≡ at_start true) }
        ensures kept { IfOk result (λ s. state_of s ≡ state_at_first targets depth) }
        ensures memory { IfErr result (λ e. 0 < targets.read → 0 < targets.write → e ≡ KyberFault.Memory) }
    {
        if targets.has_zero_target() {
            return Err(KyberFault::ZeroTarget);
        }
        let Ok(queues) = Queues::new(alloc) else {
            return Err(KyberFault::Memory);
        };
        Ok(Kyber {
            queues,
            targets,
            limits: DomainLimits::new(depth),
            turns: [Turn::first(); MAX_QUEUES as usize],
            open_picks: OpenPicks::none(),
        })
    }

    /// How many requests of a direction may be in flight, 1 to the depth.
    pub fn limit(&self, dir: Dir) -> u64
        ensures value { result ≡ limit_of dir (state_of self.now).limits }
        ensures least { 1 ≤ result }
        ensures most { result ≤ (state_of self.now).limits.depth }
        // what is kept is known by the numbers that the trait speaks of
        ensures known { (kept other : KyberState) → numbers_of kept ≡ numbers_of other → kept ≡ other }
    {
        self.limits.of(dir)
    }

    /// The oldest request of a direction at a hardware queue, while fewer are in flight than the limit.
    fn head(&self, hw: u8, dir: Dir) -> Option<u64>
        requires { hw < MAX_QUEUES }
        ensures some { IfSome result (IsIdOf (served_of hw self.now.queues) (head_in self.now hw dir)) }
        ensures none { IfNone result (head_in self.now hw dir ≡ None) }
        ensures idle { IfNone result ((0 < in_flight dir self.now.open_picks) ⊎ NoneOf dir (served_of hw self.now.queues)) }
    {
        let limit = self.limits.of(dir);
        let open = self.open_picks.of(dir);
        if open >= limit || self.open_picks.requeued(dir) >= limit - open {
            return None;
        }
        self.queues.oldest(hw, dir)
    }

    /// The choice, by its id, and the turn in which it goes.
    fn choose(&self, hw: u8) -> Option<(u64, Turn)>
        requires { hw < MAX_QUEUES }
        ensures some { IfSome result (IsTurnChoice (served_of hw self.now.queues) (choice_for hw (state_of self.now) (meaning_of self.now))) }
        ensures none { IfNone result (choice_for hw (state_of self.now) (meaning_of self.now) ≡ None) }
        ensures idle { IfNone result ((0 < unfinished self.now.open_picks) ⊎ ServesNothing serves_own hw (meaning_of self.now)) }
    {
        let turn = self.turns[hw as usize];
        let rest = other(turn.dir);
        match (self.head(hw, turn.dir), self.head(hw, rest)) {
            (None, None) => None,
            (None, Some(id)) => Some((id, Turn::of(rest))),
            (Some(id), None) => Some((id, turn.next())),
            (Some(own), Some(id)) => {
                if turn.taken < cap(turn.dir) {
                    Some((own, turn.next()))
                } else {
                    Some((id, Turn::of(rest)))
                }
            }
        }
    }
}

impl<A: Allocator + Clone> Scheduler for Kyber<A> {
    type A = A;

    ghost meaning = { meaning_of };

    ghost policy = { kyber_policy };

    ghost kept = { λ s. numbers_of (state_of s) };

    fn insert(&mut self, queued: Queued) -> Result<(), AllocError> {
        self.queues.insert(queued)
    }

    fn candidate(&self, hw: u8, limits: &Limits, newcomer: &Extent) -> Option<(u64, Side)> {
        self.queues.candidate(hw, newcomer, limits)
    }

    fn join(
        &mut self,
        hw: u8,
        id: u64,
        side: Side,
        now: u64,
        newcomer: &Extent,
    ) -> Result<(), AllocError> {
        self.queues.join_at(hw, id, side, now, newcomer)
    }

    /// Hands out the request that the turn and the limits choose; then the turn is as they say.
    fn pick(&mut self, hw: u8, now: u64) -> Option<Queued>
        requires hw { hw < MAX_QUEUES }
        requires few { (meaning_of self.old).open_picks.reads + (meaning_of self.old).open_picks.writes < MAX_OPEN }
        ensures choice { result ≡ chosen (choice_for hw (state_of self.old) (meaning_of self.old)) }
        ensures turn { state_of self.new ≡ after_pick hw (state_of self.old) (choice_for hw (state_of self.old) (meaning_of self.old)) }
        ensures chosen { Chooses (numbers_of (state_of self.old)) (meaning_of self.old) hw now result (numbers_of (state_of self.new)) }
        ensures picked { IfSome result (λ w. Picks serves_own hw (meaning_of self.old) w (meaning_of self.new)) }
        ensures none { IfNone result ((0 < unfinished (meaning_of self.old).open_picks) ⊎ ServesNothing serves_own hw (meaning_of self.old)) }
        ensures same { IfNone result (meaning_of self.new ≡ meaning_of self.old) }
        ensures kept { IfNone result (numbers_of (state_of self.new) ≡ numbers_of (state_of self.old)) }
        ensures own { (w : Waiting) → IsTrue (serves_own w.hw w) }
    {
        let _ = now;
        let Some((id, turn)) = self.choose(hw) else {
            return None;
        };
        let Some(queued) = self.queues.remove(hw, id) else {
            unreachable!()
        };
        self.open_picks.open(queued.extent.dir());
        self.turns[hw as usize] = turn;
        Some(queued)
    }

    /// Closes a pick. A wait above the target of its direction is a miss.
    fn on_done(&mut self, hw: u8, dir: Dir, wait: u64)
        requires hw { hw < MAX_QUEUES }
        requires is_open { 0 < open_of dir (meaning_of self.old).open_picks }
        ensures limits { state_of self.new ≡ kept_told (Completed dir wait) (state_of self.old) }
        ensures reported { Follows (Completed dir wait) (state_of self.old) (state_of self.new) }
        ensures done { meaning_of self.old ≡ record (meaning_of self.new) { open_picks = opened dir (meaning_of self.new).open_picks } }
        ensures told { IsReported (Completed dir wait) (numbers_of (state_of self.old)) (numbers_of (state_of self.new)) }
    {
        let _ = hw;
        self.open_picks.close(dir);
        if wait > self.targets.of(dir) {
            self.limits.miss(dir);
        }
    }

    /// Requeues a pick, which stays in flight. It is no completion: what is kept stays.
    fn on_requeue(&mut self, dir: Dir)
        requires is_open { 0 < open_of dir (meaning_of self.old).open_picks }
        requires few { (meaning_of self.old).open_picks.requeued_reads + (meaning_of self.old).open_picks.requeued_writes < MAX_REQUEUED }
        ensures stays { state_of self.new ≡ state_of self.old }
        ensures back { RequeuesPick dir (meaning_of self.old) (meaning_of self.new) }
        ensures kept { numbers_of (state_of self.new) ≡ numbers_of (state_of self.old) }
    {
        self.open_picks.requeue(dir);
    }

    /// Opens a requeued pick again. What is kept stays.
    fn on_reissue(&mut self, dir: Dir)
        requires is_requeued { 0 < requeued_of dir (meaning_of self.old).open_picks }
        requires few { (meaning_of self.old).open_picks.reads + (meaning_of self.old).open_picks.writes < MAX_OPEN }
        ensures stays { state_of self.new ≡ state_of self.old }
        ensures again { RequeuesPick dir (meaning_of self.new) (meaning_of self.old) }
        ensures kept { numbers_of (state_of self.new) ≡ numbers_of (state_of self.old) }
    {
        self.open_picks.reopen(dir);
    }

    /// Begins a round. Every [`ROUNDS_BETWEEN`] rounds the limits are set anew.
    fn on_tick(&mut self, now: u64)
        ensures limits { state_of self.new ≡ kept_told (RoundBegan now) (state_of self.old) }
        ensures reported { Follows (RoundBegan now) (state_of self.old) (state_of self.new) }
        ensures same { meaning_of self.new ≡ meaning_of self.old }
        ensures told { IsReported (RoundBegan now) (numbers_of (state_of self.old)) (numbers_of (state_of self.new)) }
    {
        if now % ROUNDS_BETWEEN == 0 {
            self.limits.set_anew();
        }
    }

    fn pending(&self) -> u64 {
        self.queues.len()
    }

    fn picked(&self, dir: Dir) -> u64 {
        self.open_picks.of(dir)
    }

    fn requeued(&self, dir: Dir) -> u64 {
        self.open_picks.requeued(dir)
    }
}
