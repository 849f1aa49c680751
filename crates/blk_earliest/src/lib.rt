//! The scheduler that hands out the request that is due first: earliest due date first, decided round by round.
#![tactic(auto)]

ghost use Rattle.std.specs.Prelude.{◌≡◌, ◌<◌, ◌+◌, ℕ, Bool, true, false, List, [], None, Some, IfOk, IfSome, IfNone, IsTrue};
ghost use Rattle.std.specs.FinMap as map;
ghost use Rattle.blk_sched.specs.Meaning.{Waiting, Picks, ServesNothing, at_start};
ghost use Rattle.blk_index.specs.Inside.Search.{IsIdOf};
ghost use Rattle.blk_earliest.specs.Choice.{first_due, on_time, earliest_choice, earliest_chooses, earliest_policy, earliest_kept, IsEarliest, IsFirstOnTime};
ghost use Rattle.blk_sched.specs.Policies.{serves_all};
ghost use Rattle.blk_earliest.specs.Shown.{late_last_of, meaning_of};
ghost use Rattle.blk_earliest.specs.Inside.Shown.{pending_of, setting_of};

use blk_bio::{Dir, Extent, Limits, MAX_QUEUES, Side};
use blk_index::{Due, Sorted};
use blk_sched::{MAX_OPEN, OpenPicks, Queued, Scheduler};
use std::alloc::{AllocError, Allocator, Global};

/// Requests by their due rounds, and of one due round by their ids. All hardware queues share them.
#[derive(Drop)]
pub struct Earliest<A: Allocator = Global> {
    waiting: Sorted<Due, A>,
    late_last: bool,
    open_picks: OpenPicks,
}

impl<A: Allocator + Clone> Earliest<A> {
    /// A scheduler in which nothing waits and no pick is open. With `late_last` a request whose due round is past waits
    /// while any is there that can still be on time. It fails only when out of memory.
    pub fn new(alloc: A, late_last: bool) -> Result<Earliest<A>, AllocError>
        ensures ok { IfOk result (λ s. meaning_of s ≡ at_start true) }
        ensures setting { IfOk result (λ s. late_last_of s ≡ late_last) }
    {
        Ok(Earliest {
            waiting: Sorted::new(alloc)?,
            late_last,
            open_picks: OpenPicks::none(),
        })
    }

    /// The id of the request that is due first.
    #[inline(always)]
    fn first(&self) -> Option<u64>
        ensures some { IfSome result (IsIdOf (map.get self.now.waiting) (first_due (map.values self.now.waiting))) }
        ensures none { IfNone result (first_due (map.values self.now.waiting) ≡ None) }
        ensures all { IfNone result ((k : ℕ) (w : Waiting) → map.get self.now.waiting k ≡ Some w → ⊥) }
    {
        self.waiting.first_from(0)
    }

    /// The id of the request that is due first of those that are due in the round or later.
    #[inline(always)]
    fn first_on_time(&self, now: u64) -> Option<u64>
        ensures some { IfSome result (IsIdOf (map.get self.now.waiting) (first_due (on_time now (map.values self.now.waiting)))) }
        ensures none { IfNone result (first_due (on_time now (map.values self.now.waiting)) ≡ None) }
    {
        self.waiting.first_from(now)
    }

    /// The id of the choice.
    #[inline(always)]
    fn choose(&self, now: u64) -> Option<u64>
        ensures some { IfSome result (IsIdOf (map.get self.now.waiting) (earliest_choice self.now.late_last now (map.values self.now.waiting))) }
        ensures none { IfNone result (earliest_choice self.now.late_last now (map.values self.now.waiting) ≡ None) }
        ensures all { IfNone result ((k : ℕ) (w : Waiting) → map.get self.now.waiting k ≡ Some w → ⊥) }
    {
        if !self.late_last {
            return self.first();
        }
        match self.first_on_time(now) {
            Some(id) => Some(id),
            None => self.first(),
        }
    }
}

/// What the choice is among what waits: the request that comes first by due round and id; with `late_last` the first of those
/// that are due in the round or later, and where there is none of these the first of all. There is none only where nothing
/// waits.
///
/// A theorem: it does nothing at run time, and a caller has its clauses.
pub fn law_of_choices()
    ensures first { (now : ℕ) → (ws : List Waiting) → (w : Waiting) → earliest_choice false now ws ≡ Some w → IsEarliest ws w }
    ensures first_on_time { (now : ℕ) → (ws : List Waiting) → (w : Waiting) → earliest_choice true now ws ≡ Some w → IsFirstOnTime now ws w }
    ensures none { (late_last : Bool) → (now : ℕ) → (ws : List Waiting) → earliest_choice late_last now ws ≡ None → ws ≡ [] }
{}

impl<A: Allocator + Clone> Scheduler for Earliest<A> {
    type A = A;

    ghost meaning = { meaning_of };

    ghost policy = { earliest_policy };

    ghost kept = { λ s. earliest_kept s.late_last };

    #[inline(always)]
    fn insert(&mut self, queued: Queued) -> Result<(), AllocError> {
        self.waiting.insert(queued)
    }

    #[inline(always)]
    fn candidate(&self, hw: u8, limits: &Limits, newcomer: &Extent) -> Option<(u64, Side)> {
        let _ = hw;
        self.waiting.candidate(newcomer, limits, true)
    }

    fn join(
        &mut self,
        hw: u8,
        id: u64,
        side: Side,
        now: u64,
        newcomer: &Extent,
    ) -> Result<(), AllocError> {
        let _ = hw;
        self.waiting.join_at(id, side, now, newcomer)
    }

    /// Picks the request with the least due round, and of several the one with the least id. With `late_last` it looks among
    /// those that can still be on time first.
    #[inline(always)]
    fn pick(&mut self, hw: u8, now: u64) -> Option<Queued>
        requires hw { hw < MAX_QUEUES }
        requires few { (meaning_of self.old).open_picks.reads + (meaning_of self.old).open_picks.writes < MAX_OPEN }
        ensures chosen { earliest_chooses (setting_of self.old) (meaning_of self.old) hw now result (setting_of self.new) }
        ensures choice { result ≡ earliest_choice (late_last_of self.old) now (map.values (pending_of self.old)) }
        ensures setting { late_last_of self.new ≡ late_last_of self.old }
        ensures picked { IfSome result (λ w. Picks serves_all hw (meaning_of self.old) w (meaning_of self.new)) }
        ensures none { IfNone result (ServesNothing serves_all hw (meaning_of self.old)) }
        ensures same { IfNone result (self.new ≡ self.old) }
        ensures own { (w : Waiting) → IsTrue (serves_all w.hw w) }
    {
        let _ = hw;
        let Some(id) = self.choose(now) else {
            return None;
        };
        let Some(queued) = self.waiting.remove(id) else {
            unreachable!()
        };
        self.open_picks.open(queued.extent.dir());
        Some(queued)
    }

    fn on_done(&mut self, hw: u8, dir: Dir, wait: u64) {
        let _ = (hw, wait);
        self.open_picks.close(dir);
    }

    fn on_requeue(&mut self, dir: Dir) {
        self.open_picks.requeue(dir);
    }

    fn on_reissue(&mut self, dir: Dir) {
        self.open_picks.reopen(dir);
    }

    fn on_tick(&mut self, now: u64) {
        let _ = now;
    }

    fn pending(&self) -> u64 {
        self.waiting.len() as u64
    }

    fn picked(&self, dir: Dir) -> u64 {
        self.open_picks.of(dir)
    }

    fn requeued(&self, dir: Dir) -> u64 {
        self.open_picks.requeued(dir)
    }
}
