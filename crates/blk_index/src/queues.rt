//! The requests that wait, those of each hardware queue in an index of their own.

ghost use Rattle.std.specs.Prelude.{◌≡◌, ◌<◌, ◌+◌, ℕ, None, Some, true, length, slice_index_or, IfOk, OnOk, OnErr, IfSome, IfNone};
ghost use Rattle.std.specs.FinMap as map;
ghost use Rattle.blk_sched.specs.Fits.{IsNewestFit, FitsNone, HasTouch};
ghost use Rattle.blk_index.specs.Index.{IsJoined, IsOldest, IsFirst, NoneOf, FindsNothing};
ghost use Rattle.blk_index.specs.Queues.{served_of};

use crate::index::Index;
use blk_bio::{Dir, Extent, Limits, MAX_QUEUES, Side};
use blk_sched::Queued;
use std::alloc::{AllocError, Allocator, Global};
use std::marker::Model;

/// The requests that wait, those of each hardware queue in an index of their own. Seen as the map from ids to requests.
#[derive(Drop)]
pub struct Queues<A: Allocator = Global> {
    queues: Vec<Index<A>, A>,
    waiting: u64,
}

impl<A: Allocator> Model for Queues<A> {
    ghost use Rattle.std.specs.Coded.{coded_ℕ};
    ghost use Rattle.std.specs.FinMap.{code};
    ghost use Rattle.blk_sched.specs.Meaning.{Pending, waiting_code};
    ghost use Rattle.blk_index.specs.Inside.Queues.{all_pending, AreSplit};

    ghost Value = { Pending };

    ghost coded = { code coded_ℕ waiting_code };

    ghost view = { λ s. all_pending s.queues.items };

    ghost invariant = { λ s. AreSplit s.queues.items s.waiting };
}

impl<A: Allocator + Clone> Queues<A> {
    /// No requests, for each hardware queue.
    pub fn new(alloc: A) -> Result<Queues<A>, AllocError>
        ensures { IfOk result (λ s. s ≡ map.empty) }
    {
        Ok(Queues {
            queues: empty_queues(alloc)?,
            waiting: 0,
        })
    }

    /// How many requests wait.
    pub fn len(&self) -> u64
        ensures { result ≡ map.len self.now }
    {
        self.waiting
    }

    /// Adds a request whose id isn't there. It fails only when out of memory: nothing is changed then.
    #[inline(always)]
    pub fn insert(&mut self, queued: Queued) -> Result<(), AllocError>
        requires new { map.get self.old queued.id ≡ None }
        requires hw { queued.hw < MAX_QUEUES }
        ensures ok { OnOk result (self.new ≡ map.insert self.old queued.id queued) }
        ensures same { OnErr result (self.new ≡ self.old) }
    {
        // refused as out of memory is: no memory holds 2^64 requests
        let Some(waiting) = self.waiting.checked_add(1) else {
            return Err(AllocError);
        };
        self.queues[queued.hw as usize].insert(queued)?;
        self.waiting = waiting;
        Ok(())
    }

    /// The newest request of a hardware queue that a newcomer fits, and the side. Only requests that the newcomer touches
    /// are looked at.
    #[inline(always)]
    pub fn candidate(&self, hw: u8, newcomer: &Extent, limits: &Limits) -> Option<(u64, Side)>
        requires { hw < MAX_QUEUES }
        ensures some { IfSome result (λ r. IsNewestFit limits.now true (served_of hw self.now) newcomer.now r.0 r.1) }
        ensures none { IfNone result (FitsNone limits.now true (served_of hw self.now) newcomer.now) }
    {
        self.queues[hw as usize].candidate(newcomer, limits, true)
    }

    /// Joins a newcomer to the request of an id at a hardware queue, which it touches at the side, in the round `now`. It
    /// fails only when out of memory: nothing is changed then.
    pub fn join_at(
        &mut self,
        hw: u8,
        id: u64,
        side: Side,
        now: u64,
        newcomer: &Extent,
    ) -> Result<(), AllocError>
        requires hw { hw < MAX_QUEUES }
        requires touch { HasTouch (served_of hw self.old) newcomer.now id side }
        ensures joined { OnOk result (IsJoined now newcomer.now self.old id side self.new) }
        ensures same { OnErr result (self.new ≡ self.old) }
    {
        self.queues[hw as usize].join_at(id, side, now, newcomer)?;
        Ok(())
    }

    /// The least id of a direction at a hardware queue.
    pub fn oldest(&self, hw: u8, dir: Dir) -> Option<u64>
        requires { hw < MAX_QUEUES }
        ensures some { IfSome result (IsOldest dir (served_of hw self.now)) }
        ensures none { IfNone result (NoneOf dir (served_of hw self.now)) }
    {
        self.queues[hw as usize].oldest(dir)
    }

    /// The least id at a hardware queue.
    #[inline(always)]
    pub fn first(&self, hw: u8) -> Option<u64>
        requires { hw < MAX_QUEUES }
        ensures some { IfSome result (IsFirst (served_of hw self.now)) }
        ensures none { IfNone result (FindsNothing (served_of hw self.now)) }
    {
        self.queues[hw as usize].first()
    }

    /// Takes out the request of an id at a hardware queue. It takes no memory.
    #[inline(always)]
    pub fn remove(&mut self, hw: u8, id: u64) -> Option<Queued>
        requires { hw < MAX_QUEUES }
        ensures value { result ≡ served_of hw self.old id }
        ensures named { IfSome result (λ w. w.id ≡ id) }
        ensures removed { IfSome result (λ w. self.new ≡ map.remove self.old id) }
        ensures same { IfNone result (self.new ≡ self.old) }
    {
        let Some(queued) = self.queues[hw as usize].remove(id) else {
            return None;
        };
        self.waiting -= 1;
        Some(queued)
    }
}

/// An index with no request, for each of the hardware queues.
fn empty_queues<A: Allocator + Clone>(alloc: A) -> Result<Vec<Index<A>, A>, AllocError>
    ensures count { IfOk result (λ queues. length queues.items ≡ MAX_QUEUES) }
    ensures empty { IfOk result (λ queues. (hw : ℕ) → slice_index_or queues.items hw map.empty ≡ map.empty) }
{
    let mut queues = Vec::with_capacity(alloc.clone()?, MAX_QUEUES as usize)?;
    for _ in 0..MAX_QUEUES {
        queues.push(Index::new(alloc.clone()?)?)?;
    }
    Ok(queues)
}
