//! The requests that wait, by their ids.

ghost use Rattle.std.specs.Prelude.{◌≡◌, ℕ, None, Some, OnOk, OnErr, IfOk, IfSome, IfNone};
ghost use Rattle.std.specs.Option.{option_copied};
ghost use Rattle.std.specs.FinMap as map;
ghost use Rattle.blk_sched.specs.Meaning.{Waiting};
ghost use Rattle.blk_sched.specs.Fits.{HasTouch};
ghost use Rattle.blk_index.specs.Index.{IsJoined, IsOldest, NoneOf};
ghost use Rattle.blk_index.specs.Inside.Requests.{both, AreApart};

use crate::lane::Lane;
use blk_bio::{Dir, Extent, Side};
use blk_sched::Queued;
use std::alloc::{AllocError, Allocator, Global};
use std::marker::Model;

/// How many places a run may have for each request that waits, so that old requests that stay keep no memory for those that went.
const PLACES_EACH: usize = 16;

/// The requests that wait, those of each direction by their ids. Seen as the map from ids to requests.
#[derive(Drop)]
pub struct Requests<A: Allocator = Global> {
    reads: Lane<A>,
    writes: Lane<A>,
    count: usize,
}

impl<A: Allocator> Model for Requests<A> {
    ghost use Rattle.std.specs.Coded.{coded_ℕ};
    ghost use Rattle.std.specs.FinMap.{code};
    ghost use Rattle.blk_sched.specs.Meaning.{Pending, waiting_code};
    ghost use Rattle.blk_index.specs.Inside.Requests.{both, AreRequests};

    ghost Value = { Pending };

    ghost coded = { code coded_ℕ waiting_code };

    ghost view = { λ s. both s.reads s.writes };

    ghost invariant = { λ s. AreRequests s.reads s.writes s.count };
}

impl<A: Allocator + Clone> Requests<A> {
    /// No requests. It takes no memory but for the allocators.
    pub fn new(alloc: A) -> Result<Requests<A>, AllocError>
        ensures { IfOk result (λ s. s ≡ map.empty) }
    {
        Ok(Requests {
            reads: Lane::new(alloc.clone()?)?,
            writes: Lane::new(alloc)?,
            count: 0,
        })
    }

    /// How many requests wait.
    pub fn len(&self) -> usize
        ensures { result ≡ map.len self.now }
    {
        self.count
    }

    /// The request of an id.
    #[inline(always)]
    pub fn get(&self, id: u64) -> Option<&Queued>
        ensures value { option_copied result ≡ map.get self.now id }
        ensures named { (k : ℕ) (w : Waiting) → map.get self.now k ≡ Some w → w.id ≡ k }
    {
        match self.reads.get(id) {
            Some(queued) => Some(queued),
            None => self.writes.get(id),
        }
    }

    /// The least id of a direction.
    #[inline(always)]
    pub fn oldest(&self, dir: Dir) -> Option<u64>
        ensures some { IfSome result (IsOldest dir (map.get self.now)) }
        ensures none { IfNone result (NoneOf dir (map.get self.now)) }
    {
        match dir {
            Dir::Read => self.reads.first(),
            Dir::Write => self.writes.first(),
        }
    }

    /// Adds a request whose id isn't there. It fails only when out of memory: nothing is changed then.
    #[inline(always)]
    pub fn insert(&mut self, queued: Queued) -> Result<(), AllocError>
        requires { map.get self.old queued.id ≡ None }
        ensures ok { OnOk result (self.new ≡ map.insert self.old queued.id queued) }
        ensures same { OnErr result (self.new ≡ self.old) }
    {
        // refused as out of memory is: no memory holds 2^64 requests
        let Some(count) = self.count.checked_add(1) else {
            return Err(AllocError);
        };
        let most = count.saturating_mul(PLACES_EACH);
        insert_in(&mut self.reads, &mut self.writes, queued, most)?;
        self.count = count;
        Ok(())
    }

    /// Takes out the request of an id. It takes no memory.
    #[inline(always)]
    pub fn remove(&mut self, id: u64) -> Option<Queued>
        ensures value { result ≡ map.get self.old id }
        ensures named { (k : ℕ) (w : Waiting) → map.get self.old k ≡ Some w → w.id ≡ k }
        ensures removed { self.new ≡ map.remove self.old id }
    {
        if let Some(queued) = self.reads.remove(id) {
            self.count -= 1;
            return Some(queued);
        }
        let found = self.writes.remove(id);
        self.count -= found.is_some() as usize;
        found
    }

    /// Joins a newcomer to the request of an id, which it touches at the side, in the round `now`.
    pub fn join(&mut self, id: u64, side: Side, now: u64, newcomer: &Extent)
        requires { HasTouch (map.get self.old) newcomer.now id side }
        ensures { IsJoined now newcomer.now self.old id side self.new }
    {
        let Some(queued) = self.get(id) else {
            unreachable!()
        };
        let after = queued.joined(newcomer, side, now);
        match after.extent.dir() {
            Dir::Read => self.reads.set(&after),
            Dir::Write => self.writes.set(&after),
        }
    }
}

/// Adds a request, whose id isn't there, to those of its direction. A run gets no more places than `most`.
#[inline(always)]
fn insert_in<A: Allocator + Clone>(
    reads: &mut Lane<A>,
    writes: &mut Lane<A>,
    queued: Queued,
    most: usize,
) -> Result<(), AllocError>
    requires { map.get (both reads.old writes.old) queued.id ≡ None }
    ensures ok { OnOk result (both reads.new writes.new ≡ map.insert (both reads.old writes.old) queued.id queued) }
    ensures same { OnErr result (both reads.new writes.new ≡ both reads.old writes.old) }
    ensures apart { AreApart Dir.Read Dir.Write reads.old writes.old → AreApart Dir.Read Dir.Write reads.new writes.new }
{
    match queued.extent.dir() {
        Dir::Read => reads.insert(queued, most),
        Dir::Write => writes.insert(queued, most),
    }
}
