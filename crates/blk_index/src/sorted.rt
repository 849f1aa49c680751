//! The requests that wait, in an index and in the order of a key of each.

ghost use Rattle.std.specs.Prelude.{◌≡◌, ◌<◌, ℕ, Option, None, Some, IfOk, OnOk, OnErr, IfSome, IfNone};
ghost use Rattle.std.specs.Ordering.{nat_cmp};
ghost use Rattle.std.specs.Option.{option_copied};
ghost use Rattle.std.specs.FinMap as map;
ghost use Rattle.ordered.specs.Ordered.{listed, IsLeastFrom, NoneFrom as NoneListed};
ghost use Rattle.blk_sched.specs.Meaning.{Waiting};
ghost use Rattle.blk_sched.specs.Fits.{IsNewestFit, FitsNone, HasTouch};
ghost use Rattle.blk_index.specs.Index.{IsJoined, IsOldest, IsNext, NoneOf, NoNext, IsFirstFrom, NoneFrom};
ghost use Rattle.blk_index.specs.Keys.{keyed_cmp, AreKeyed};
ghost use Rattle.blk_index.specs.Inside.Spots.{begin_of, due_of};

use crate::edges::{is_write, place_at};
use crate::index::Index;
use crate::shapes::Place;
use blk_bio::{Dir, Extent, Limits, Side};
use blk_sched::Queued;
use ordered::Ordered;
use std::alloc::{AllocError, Allocator, Global};
use std::marker::Model;

/// What requests are in the order of; those of one key are by their ids.
pub trait Key: Ord + Copy {
    /// The key of a request that waits.
    ghost key_of: { Waiting → Self };

    /// The key of a request.
    fn of(queued: &Queued) -> Self
        ensures { result ≡ key_of queued.now };
}

/// The direction of a request and where it begins.
impl Key for Place {
    ghost key_of = { begin_of };

    #[inline(always)]
    fn of(queued: &Queued) -> Place {
        place_at(Side::Front, &queued.extent)
    }
}

/// The round in which a request is due.
pub type Due = u64;

impl Key for Due {
    ghost key_of = { due_of };

    #[inline(always)]
    fn of(queued: &Queued) -> Due {
        queued.due
    }
}

/// The requests that wait, in an index and in the order of a key of each. Seen as the map from ids to requests.
#[derive(Drop)]
pub struct Sorted<K: Key, A: Allocator = Global> {
    index: Index<A>,
    order: Ordered<(K, u64), A>,
}

impl<K: Key, A: Allocator> Model for Sorted<K, A> {
    ghost use Rattle.std.specs.Coded.{coded_ℕ};
    ghost use Rattle.std.specs.FinMap.{get, code};
    ghost use Rattle.ordered.specs.Ordered.{listed};
    ghost use Rattle.blk_sched.specs.Meaning.{Pending, waiting_code};
    ghost use Rattle.blk_index.specs.Keys.{keyed_cmp, AreKeyed};

    ghost Value = { Pending };

    ghost coded = { code coded_ℕ waiting_code };

    ghost view = { λ s. s.index };

    ghost invariant = { λ s. AreKeyed K.cmp K.key_of (get s.index) (listed (keyed_cmp K.cmp) s.order) };
}

impl<K: Key, A: Allocator + Clone> Sorted<K, A> {
    /// No requests.
    pub fn new(alloc: A) -> Result<Sorted<K, A>, AllocError>
        ensures { IfOk result (λ s. s ≡ map.empty) }
    {
        Ok(Sorted {
            index: Index::new(alloc.clone()?)?,
            order: Ordered::new(alloc),
        })
    }

    /// How many requests wait.
    pub fn len(&self) -> usize
        ensures { result ≡ map.len self.now }
    {
        self.index.len()
    }

    /// The request of an id.
    pub fn get(&self, id: u64) -> Option<&Queued>
        ensures value { option_copied result ≡ map.get self.now id }
        ensures named { (k : ℕ) (w : Waiting) → map.get self.now k ≡ Some w → w.id ≡ k }
    {
        self.index.get(id)
    }

    /// The keys of the requests with their ids.
    #[inline(always)]
    pub fn order(&self) -> &Ordered<(K, u64), A>
        ensures { AreKeyed K.cmp K.key_of (map.get self.now) (listed (keyed_cmp K.cmp) result.now) }
    {
        &self.order
    }

    /// Adds a request whose id isn't there. It fails only when out of memory: nothing is changed then.
    #[inline(always)]
    pub fn insert(&mut self, queued: Queued) -> Result<(), AllocError>
        requires { map.get self.old queued.id ≡ None }
        ensures ok { OnOk result (self.new ≡ map.insert self.old queued.id queued) }
        ensures same { OnErr result (self.new ≡ self.old) }
    {
        let entry = (K::of(&queued), queued.id);
        self.order.put(entry)?;
        match self.index.insert(queued) {
            Ok(()) => Ok(()),
            Err(why) => {
                self.order.take(entry);
                Err(why)
            }
        }
    }

    /// Takes out the request of an id. It takes no memory.
    #[inline(always)]
    pub fn remove(&mut self, id: u64) -> Option<Queued>
        ensures value { result ≡ map.get self.old id }
        ensures named { (k : ℕ) (w : Waiting) → map.get self.old k ≡ Some w → w.id ≡ k }
        ensures removed { self.new ≡ map.remove self.old id }
    {
        let Some(queued) = self.index.remove(id) else {
            return None;
        };
        self.order.take((K::of(&queued), id));
        Some(queued)
    }

    /// The newest request that a newcomer fits, by its id, and the side. The front is tried only where `front` allows
    /// it. Only requests that the newcomer touches are looked at.
    #[inline(always)]
    pub fn candidate(&self, newcomer: &Extent, limits: &Limits, front: bool) -> Option<(u64, Side)>
        ensures some { IfSome result (λ r. IsNewestFit limits.now front (map.get self.now) newcomer.now r.0 r.1) }
        ensures none { IfNone result (FitsNone limits.now front (map.get self.now) newcomer.now) }
    {
        self.index.candidate(newcomer, limits, front)
    }

    /// The least id of a direction.
    pub fn oldest(&self, dir: Dir) -> Option<u64>
        ensures some { IfSome result (IsOldest dir (map.get self.now)) }
        ensures none { IfNone result (NoneOf dir (map.get self.now)) }
    {
        self.index.oldest(dir)
    }

    /// Joins a newcomer to the request of an id, which it touches at the side, in the round `now`. It fails only when out
    /// of memory: nothing is changed then.
    pub fn join_at(
        &mut self,
        id: u64,
        side: Side,
        now: u64,
        newcomer: &Extent,
    ) -> Result<(), AllocError>
        requires { HasTouch (map.get self.old) newcomer.now id side }
        ensures joined { OnOk result (IsJoined now newcomer.now self.old id side self.new) }
        ensures same { OnErr result (self.new ≡ self.old) }
    {
        let Some(queued) = self.index.get(id) else {
            unreachable!()
        };
        let before = K::of(queued);
        let after = K::of(&queued.joined(newcomer, side, now));
        if before.cmp(&after).is_eq() {
            return self.index.join_at(id, side, now, newcomer);
        }
        self.order.put((after, id))?;
        match self.index.join_at(id, side, now, newcomer) {
            Ok(()) => {
                self.order.take((before, id));
                Ok(())
            }
            Err(why) => {
                self.order.take((after, id));
                Err(why)
            }
        }
    }
}

impl<A: Allocator + Clone> Sorted<Place, A> {
    /// Of a direction's requests with their first sectors and ids the least that is above `first` and `last`.
    #[inline(always)]
    pub fn next(&self, dir: Dir, first: u64, last: u64) -> Option<u64>
        ensures some { IfSome result (IsNext dir first last (map.get self.now)) }
        ensures none { IfNone result (NoNext dir first last (map.get self.now)) }
        ensures named { (k : ℕ) (w : Waiting) → map.get self.now k ≡ Some w → w.id ≡ k }
    {
        // for the proof alone: each request has its id
        let _ = self.index.len();
        let write = is_write(dir);
        let ((found, _), id) = self.order().above(((write, first), last))?;
        if found == write { Some(id) } else { None }
    }
}

impl<A: Allocator + Clone> Sorted<Due, A> {
    /// The id of the request with the least due round from `due` on, of several the least id.
    #[inline(always)]
    pub fn first_from(&self, due: u64) -> Option<u64>
        ensures some { IfSome result (IsFirstFrom due (map.get self.now)) }
        ensures none { IfNone result (NoneFrom due (map.get self.now)) }
        ensures named { (k : ℕ) (w : Waiting) → map.get self.now k ≡ Some w → w.id ≡ k }
    {
        // for the proof alone: each request has its id
        let _ = self.index.len();
        let (_, id) = least_from(self.order(), due)?;
        Some(id)
    }
}

/// The least due round and id of those of this round and later ones.
#[inline(always)]
fn least_from<A: Allocator + Clone>(order: &Ordered<(u64, u64), A>, due: u64) -> Option<(u64, u64)>
    ensures some { IfSome result (IsLeastFrom (keyed_cmp nat_cmp) (listed (keyed_cmp nat_cmp) order.now) (due, 0)) }
    ensures none { IfNone result (NoneListed (keyed_cmp nat_cmp) (listed (keyed_cmp nat_cmp) order.now) (due, 0)) }
{
    if due == 0 {
        return order.first();
    }
    order.from((due, 0))
}
