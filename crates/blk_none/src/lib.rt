//! The scheduler that keeps the order of entry.
#![tactic(auto)]

ghost use Rattle.std.specs.Prelude.{◌≡◌, ◌<◌, ◌+◌, IfOk, IfSome, IfNone, IsTrue, None, true, []};
ghost use Rattle.std.specs.FinMap as map;
ghost use Rattle.blk_sched.specs.Meaning.{Waiting, Meaning, ServesNothing, Picks, at_start};
ghost use Rattle.blk_none.specs.Choice.{serves_own, none_choice, none_chooses, none_policy};

use blk_bio::{Dir, Extent, Limits, MAX_QUEUES, Side};
use blk_index::Queues;
use blk_sched::{MAX_OPEN, OpenPicks, Queued, Scheduler};
use std::alloc::{AllocError, Allocator, Global};
use std::marker::Model;

/// Requests in the order in which they entered, for each hardware queue by itself, as under `none` of Linux blk-mq.
#[derive(Drop)]
pub struct NoneSched<A: Allocator = Global> {
    queues: Queues<A>,
    open_picks: OpenPicks,
}

impl<A: Allocator> Model for NoneSched<A> {
    ghost use Rattle.std.specs.Prelude.{true};
    ghost use Rattle.blk_sched.specs.Meaning.{Meaning, meaning_code};

    ghost Value = { Meaning };

    ghost coded = { meaning_code };

    ghost view = { λ s. record {
      pending = s.queues;
      open_picks = s.open_picks;
      front = true;
    } };
}

impl<A: Allocator + Clone> NoneSched<A> {
    /// A scheduler for all hardware queues, in which nothing waits and no pick is open. It is refused only when out of
    /// memory.
    pub fn new(alloc: A) -> Result<NoneSched<A>, AllocError>
        ensures { IfOk result (λ s. s ≡ at_start true) }
    {
        Ok(NoneSched {
            queues: Queues::new(alloc)?,
            open_picks: OpenPicks::none(),
        })
    }
}

impl<A: Allocator + Clone> Scheduler for NoneSched<A> {
    type A = A;

    ghost meaning = { λ s. s };

    ghost policy = { none_policy };

    #[inline(always)]
    fn insert(&mut self, queued: Queued) -> Result<(), AllocError> {
        self.queues.insert(queued)
    }

    #[inline(always)]
    fn candidate(&self, hw: u8, limits: &Limits, newcomer: &Extent) -> Option<(u64, Side)> {
        self.queues.candidate(hw, newcomer, limits)
    }

    fn join(
        &mut self,
        hw: u8,
        id: u64,
        side: Side,
        now: u64,
        newcomer: &Extent,
    ) -> Result<(), AllocError> {
        self.queues.join_at(hw, id, side, now, newcomer)
    }

    /// Hands out the request of the hardware queue that has waited longest: the one with the least id.
    #[inline(always)]
    fn pick(&mut self, hw: u8, now: u64) -> Option<Queued>
        requires hw { hw < MAX_QUEUES }
        requires few { self.old.open_picks.reads + self.old.open_picks.writes < MAX_OPEN }
        ensures chosen { none_chooses [] self.old hw now result [] }
        ensures choice { result ≡ none_choice hw self.old.pending }
        ensures picked { IfSome result (λ w. Picks serves_own hw self.old w self.new) }
        ensures none { IfNone result (ServesNothing serves_own hw self.old) }
        ensures same { IfNone result (self.new ≡ self.old) }
        ensures own { (w : Waiting) → IsTrue (serves_own w.hw w) }
    {
        let _ = now;
        let Some(id) = self.queues.first(hw) else {
            return None;
        };
        let Some(queued) = self.queues.remove(hw, id) else {
            unreachable!()
        };
        self.open_picks.open(queued.extent.dir());
        Some(queued)
    }

    fn on_done(&mut self, hw: u8, dir: Dir, wait: u64) {
        let _ = (hw, wait);
        self.open_picks.close(dir);
    }

    fn on_requeue(&mut self, dir: Dir) {
        self.open_picks.requeue(dir);
    }

    fn on_reissue(&mut self, dir: Dir) {
        self.open_picks.reopen(dir);
    }

    fn on_tick(&mut self, now: u64) {
        let _ = now;
    }

    fn pending(&self) -> u64 {
        self.queues.len()
    }

    fn picked(&self, dir: Dir) -> u64 {
        self.open_picks.of(dir)
    }

    fn requeued(&self, dir: Dir) -> u64 {
        self.open_picks.requeued(dir)
    }
}
