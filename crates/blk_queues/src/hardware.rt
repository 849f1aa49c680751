//! Hardware queues: which of them serves a software queue, and the requests that were requeued from one.
//!
//! After the hardware dispatch queues of Linux blk-mq (`struct blk_mq_hw_ctx`) and their map from software queues
//! (`blk_mq_queue_map`).

ghost use Rattle.std.specs.Prelude.{◌≡◌, ◌<◌, ◌≤◌, ◌+◌, ◌++◌, ◌∷◌, [], ◌↔◌, ℕ, IsTrue, All, Any, Contains, IfOk, IfErr, OnOk, OnErr, IfSome, IfNone, length, replicate, slice_index, slice_set};
ghost use Rattle.std.specs.Bool.{OnTrue, OnFalse};
ghost use Rattle.blk_queues.specs.Maps.{greatest_hw, IsMap, IsHwCount, IsMapAnswer};
ghost use Rattle.blk_queues.specs.Inside.{IsCountedMap};
ghost use Rattle.blk_queues.specs.Requeued.{requeued_in, TakesFirst};

use blk_bio::{MAX_QUEUES, MAX_SOFT_QUEUES};
use blk_sched::Queued;
use std::alloc::{AllocError, Allocator, Global};
use std::collections::VecDeque;
use std::marker::Model;
use thiserror::Error;

/// Why a map is not made, in the order in which the reasons are looked for.
#[derive(Clone, Copy, Debug, PartialEq, Eq, Error)]
#[error("{:?}", self)]
pub enum MapFault {
    /// It has no entry.
    Empty,
    /// It has more than [`MAX_SOFT_QUEUES`] entries, or one that is not below [`MAX_QUEUES`].
    TooMany,
    /// No entry names this hardware queue, the least such one below the greatest that an entry names.
    #[error("Unserved")]
    Unserved(u8),
}

/// Which hardware queue serves a software queue: the entry at a software queue's number is its hardware queue's number.
/// Each hardware queue from 0 to the greatest that is named serves at least one software queue.
#[derive(Debug, Drop)]
pub struct Map<A: Allocator = Global> {
    entries: Vec<u8, A>,
    hw_count: u8,
}

impl<A: Allocator> Model for Map<A> {
    ghost use Rattle.std.specs.Prelude.{List, ℕ};
    ghost use Rattle.blk_queues.specs.Inside.{IsCountedMap};

    ghost Value = { List ℕ };

    ghost view = { λ m. m.entries.items };

    ghost invariant = { λ m. IsCountedMap m.entries.items m.hw_count };
}

impl<A: Allocator> Map<A> {
    /// A map of 1 to [`MAX_SOFT_QUEUES`] entries below [`MAX_QUEUES`], for software queues from 0 on. Refused, in
    /// this order, as `Empty`, `TooMany` or `Unserved`; the list of entries is gone then. It takes no memory.
    pub fn new(entries: Vec<u8, A>) -> Result<Map<A>, MapFault>
        // the map or the fault
        ensures answer { IsMapAnswer entries.items result }
        ensures ok { IfOk result (λ m. m ≡ entries.items) }
    {
        if entries.is_empty() {
            return Err(MapFault::Empty);
        }
        if entries.len() as u64 > MAX_SOFT_QUEUES
            || names_above(entries.as_slice(), MAX_QUEUES - 1)
        {
            return Err(MapFault::TooMany);
        }
        let hw_count = least_unnamed(entries.as_slice());
        if names_above(entries.as_slice(), hw_count) {
            return Err(MapFault::Unserved(hw_count));
        }
        Ok(Map { entries, hw_count })
    }

    /// How many software queues it has, 1 to [`MAX_SOFT_QUEUES`].
    pub fn soft_count(&self) -> usize
        ensures value { result ≡ length self.now }
        ensures is_map { IsMap self.now }
    {
        self.entries.len()
    }

    /// How many hardware queues it has, 1 to [`MAX_QUEUES`]: its entries name just those below this number.
    pub fn hw_count(&self) -> u8
        ensures value { IsHwCount self.now result }
        ensures some { 0 < result }
        ensures few { result ≤ MAX_QUEUES }
    {
        self.hw_count
    }

    /// The hardware queue that serves a software queue, which is one of this map's.
    pub fn hw_of(&self, soft: usize) -> u8
        requires { soft < length self.now }
        ensures value { result ≡ slice_index self.now soft }
        // it is below the count of hardware queues
        ensures below { (count : ℕ) → IsHwCount self.now count → result < count }
        ensures in_range { result ≤ greatest_hw }
    {
        self.entries[soft]
    }
}

/// Whether an entry is above a number.
fn names_above(entries: &[u8], limit: u8) -> bool
    ensures some { OnTrue result (Any (λ hw. limit < hw) entries.now) }
    ensures none { OnFalse result (All (λ hw. hw ≤ limit) entries.now) }
{
    for hw in entries {
        if *hw > limit {
            return true;
        }
    }
    false
}

/// Whether an entry is a number.
fn names(entries: &[u8], hw: u8) -> bool
    ensures { IsTrue result ↔ Contains entries.now hw }
{
    entries.contains(&hw)
}

/// The least number that is no entry, or [`MAX_QUEUES`] where each one below that is.
fn least_unnamed(entries: &[u8]) -> u8
    ensures named { (hw : ℕ) → hw < result → Contains entries.now hw }
    ensures unnamed { result < MAX_QUEUES → ¬ Contains entries.now result }
    ensures few { result ≤ MAX_QUEUES }
{
    for hw in 0..MAX_QUEUES {
        if !names(entries, hw) {
            return hw;
        }
    }
    MAX_QUEUES
}

/// Requests that the hardware could not take, in the order in which they were requeued: the list `hctx->dispatch` of Linux
/// blk-mq, which is served before the scheduler is asked. It keeps its allocator.
#[derive(Drop)]
pub struct RequeueList<A: Allocator = Global> {
    requests: VecDeque<Queued, A>,
}

impl<A: Allocator> Model for RequeueList<A> {
    ghost use Rattle.std.specs.Prelude.{List};
    ghost use Rattle.blk_sched.specs.Meaning.{Waiting, waiting_code};
    ghost use Rattle.std.specs.Coded.{coded_list};

    ghost Value = { List Waiting };

    ghost coded = { coded_list waiting_code };

    ghost view = { λ l. l.requests.items };
}

impl<A: Allocator + Clone> RequeueList<A> {
    /// A list of no requests. It takes no memory.
    pub fn new(alloc: A) -> RequeueList<A>
        ensures { result ≡ [] }
    {
        RequeueList {
            requests: VecDeque::new(alloc),
        }
    }

    /// Adds a request at the back. Fails only when memory runs out: the list is then as it was.
    pub fn push(&mut self, queued: Queued) -> Result<(), AllocError>
        ensures ok { OnOk result (self.new ≡ self.old ++ queued ∷ []) }
        ensures same { OnErr result (self.new ≡ self.old) }
    {
        match self.requests.push_back(queued) {
            Ok(()) => Ok(()),
            Err(_) => Err(AllocError),
        }
    }

    /// Takes out the request that came first. There is none exactly where the list is empty.
    pub fn take_first(&mut self) -> Option<Queued>
        ensures some { IfSome result (λ first. self.old ≡ first ∷ self.new) }
        ensures none { IfNone result (self.old ≡ []) }
        ensures same { IfNone result (self.new ≡ self.old) }
    {
        self.requests.pop_front()
    }

    /// How many requests it has.
    pub fn len(&self) -> usize
        ensures { result ≡ length self.now }
    {
        self.requests.len()
    }
}

/// A requeue list for each hardware queue: what was requeued from one is dispatched to that one again.
#[derive(Drop)]
pub struct RequeueLists<A: Allocator = Global> {
    lists: Vec<RequeueList<A>, A>,
}

impl<A: Allocator> Model for RequeueLists<A> {
    ghost use Rattle.std.specs.Prelude.{List};
    ghost use Rattle.blk_sched.specs.Meaning.{Waiting, waiting_code};
    ghost use Rattle.std.specs.Coded.{coded_list};

    ghost Value = { List (List Waiting) };

    ghost coded = { coded_list (coded_list waiting_code) };

    ghost view = { λ l. l.lists.items };
}

impl<A: Allocator + Clone> RequeueLists<A> {
    /// Lists of no requests, one for each of `hw_count` hardware queues. Fails only when memory runs out.
    pub fn new(alloc: A, hw_count: u8) -> Result<RequeueLists<A>, AllocError>
        ensures { IfOk result (λ lists. lists ≡ replicate hw_count []) }
    {
        let mut lists = Vec::with_capacity(alloc.clone()?, hw_count as usize)?;
        for _ in 0..hw_count {
            lists.push(RequeueList::new(alloc.clone()?))?;
        }
        Ok(RequeueLists { lists })
    }

    /// Adds a request at the back of the list of a hardware queue, which is one of these. Fails only when memory runs out:
    /// the lists are then as they were.
    pub fn push(&mut self, hw: u8, queued: Queued) -> Result<(), AllocError>
        requires { hw < length self.old }
        ensures ok { OnOk result (self.new ≡ slice_set self.old hw (requeued_in self.old hw ++ queued ∷ [])) }
        ensures same { OnErr result (self.new ≡ self.old) }
    {
        self.lists[hw as usize].push(queued)
    }

    /// Takes out the request that was requeued first from a hardware queue, which is one of these. There is none exactly
    /// where its list is empty.
    pub fn take_first(&mut self, hw: u8) -> Option<Queued>
        requires { hw < length self.old }
        ensures some { IfSome result (λ first. TakesFirst self.old hw first self.new) }
        ensures none { IfNone result (requeued_in self.old hw ≡ []) }
        ensures same { IfNone result (self.new ≡ self.old) }
    {
        self.lists[hw as usize].take_first()
    }
}
