//! The requests that wait, found by their ids and by where they begin and end.

ghost use Rattle.std.specs.Prelude.{◌≡◌, ◌<◌, ◌≤◌, ◌^◌, ◌+◌, ◌-◌, ℕ, Option, None, Some, false, IfOk, OnOk, OnErr, IfSome, IfNone, IsTrue};
ghost use Rattle.std.specs.Option.{OnSome, option_copied};
ghost use Rattle.std.specs.FinMap as map;
ghost use Rattle.blk_bio.specs.declared.request.Side.{Side};
ghost use Rattle.blk_sched.specs.Meaning.{Waiting};
ghost use Rattle.blk_sched.specs.Fits.{IsNewestFit, FitsNone, HasTouch};
ghost use Rattle.blk_bio.specs.Extents.{FitAt};
ghost use Rattle.std.specs.Bool.{OnTrue, OnFalse};
ghost use Rattle.blk_index.specs.Inside.Edges.{IsEdge};
ghost use Rattle.blk_index.specs.Inside.Spots.{at_of, opposite_of};
ghost use Rattle.blk_index.specs.Index.{IsJoined, IsOldest, IsFirst, NoneOf, FindsNothing};
ghost use Rattle.blk_index.specs.Inside.Search.{IsNewestBy, FitsNoneBy, FitsBy, newer_of};

use crate::edges::{Edge, Edges, opposite_of, place_at};
use crate::ids::lesser;
use crate::requests::Requests;
use blk_bio::{Dir, Extent, Limits, Side};
use blk_sched::Queued;
use std::alloc::{AllocError, Allocator, Global};
use std::marker::Model;

/// Requests that wait, found by their ids, by where they begin and by where they end.
#[derive(Drop)]
pub struct Index<A: Allocator = Global> {
    waiting: Requests<A>,
    edges: Edges<A>,
}

impl<A: Allocator> Model for Index<A> {
    ghost use Rattle.std.specs.Coded.{coded_ℕ};
    ghost use Rattle.std.specs.FinMap.{get, code};
    ghost use Rattle.blk_sched.specs.Meaning.{Pending, waiting_code};
    ghost use Rattle.blk_index.specs.Inside.Edges.{IsEdges};
    ghost use Rattle.blk_index.specs.Inside.Search.{IsNamed};

    ghost Value = { Pending };

    ghost coded = { code coded_ℕ waiting_code };

    ghost view = { λ s. s.waiting };

    ghost invariant = { λ s. IsNamed (get s.waiting) × IsEdges (get s.waiting) s.edges };
}

impl<A: Allocator + Clone> Index<A> {
    /// No requests.
    pub fn new(alloc: A) -> Result<Index<A>, AllocError>
        ensures { IfOk result (λ s. s ≡ map.empty) }
    {
        Ok(Index {
            waiting: Requests::new(alloc.clone()?)?,
            edges: Edges::new(alloc)?,
        })
    }

    /// How many requests wait.
    pub fn len(&self) -> usize
        ensures len { result ≡ map.len self.now }
        ensures named { (k : ℕ) (w : Waiting) → map.get self.now k ≡ Some w → w.id ≡ k }
    {
        self.waiting.len()
    }

    /// The request of an id.
    pub fn get(&self, id: u64) -> Option<&Queued>
        ensures value { option_copied result ≡ map.get self.now id }
        ensures named { (k : ℕ) (w : Waiting) → map.get self.now k ≡ Some w → w.id ≡ k }
    {
        self.waiting.get(id)
    }

    /// Adds a request whose id isn't there. It fails only when out of memory: nothing is changed then.
    #[inline(always)]
    pub fn insert(&mut self, queued: Queued) -> Result<(), AllocError>
        requires { map.get self.old queued.id ≡ None }
        ensures ok { OnOk result (self.new ≡ map.insert self.old queued.id queued) }
        ensures same { OnErr result (self.new ≡ self.old) }
    {
        self.edges.add(&queued.extent, queued.id)?;
        match self.waiting.insert(queued) {
            Ok(()) => Ok(()),
            Err(why) => {
                self.edges.del(&queued.extent, queued.id);
                Err(why)
            }
        }
    }

    /// Takes out the request of an id. It takes no memory.
    #[inline(always)]
    pub fn remove(&mut self, id: u64) -> Option<Queued>
        ensures value { result ≡ map.get self.old id }
        ensures named { (k : ℕ) (w : Waiting) → map.get self.old k ≡ Some w → w.id ≡ k }
        ensures removed { self.new ≡ map.remove self.old id }
    {
        let Some(queued) = self.waiting.remove(id) else {
            return None;
        };
        self.edges.del(&queued.extent, id);
        Some(queued)
    }

    /// The newest request that a newcomer fits, by its id, and the side. The front is tried only where `front` allows
    /// it. Of the requests that the newcomer touches at a side, at most two are looked at.
    #[inline(always)]
    pub fn candidate(&self, newcomer: &Extent, limits: &Limits, front: bool) -> Option<(u64, Side)>
        ensures some { IfSome result (λ r. IsNewestFit limits.now front (map.get self.now) newcomer.now r.0 r.1) }
        ensures none { IfNone result (FitsNone limits.now front (map.get self.now) newcomer.now) }
    {
        let back = newest_of(
            &self.waiting,
            &self.edges.back,
            Side::Back,
            newcomer,
            limits,
        );
        let ahead = newest_ahead(&self.waiting, &self.edges.front, front, newcomer, limits);
        newer(back, ahead)
    }

    /// The least id of a direction.
    #[inline(always)]
    pub fn oldest(&self, dir: Dir) -> Option<u64>
        ensures some { IfSome result (IsOldest dir (map.get self.now)) }
        ensures none { IfNone result (NoneOf dir (map.get self.now)) }
    {
        self.waiting.oldest(dir)
    }

    /// The least id of both directions.
    #[inline(always)]
    pub fn first(&self) -> Option<u64>
        ensures some { IfSome result (IsFirst (map.get self.now)) }
        ensures none { IfNone result (FindsNothing (map.get self.now)) }
    {
        lesser(self.oldest(Dir::Read), self.oldest(Dir::Write))
    }

    /// Joins a newcomer to the request of an id, which it touches at the side, in the round `now`. It fails only when out
    /// of memory: nothing is changed then.
    pub fn join_at(
        &mut self,
        id: u64,
        side: Side,
        now: u64,
        newcomer: &Extent,
    ) -> Result<(), AllocError>
        requires { HasTouch (map.get self.old) newcomer.now id side }
        ensures joined { OnOk result (IsJoined now newcomer.now self.old id side self.new) }
        ensures same { OnErr result (self.new ≡ self.old) }
    {
        let Edges { front, back } = &mut self.edges;
        let waiting = &mut self.waiting;
        match side {
            Side::Back => join_in(waiting, back, front, id, side, now, newcomer),
            Side::Front => join_in(waiting, front, back, id, side, now, newcomer),
        }
    }
}

/// How many sectors, and how many bios, a request may have at most for a newcomer to fit it.
fn room_beside(newcomer: &Extent, limits: &Limits) -> (u64, u64)
    ensures wide { limits.now.max_sectors ≤ result.0 + (newcomer.now.end - newcomer.now.first) }
    ensures wide_bios { limits.now.max_segments ≤ result.1 + newcomer.now.bios }
    ensures few { result.0 < 65535 }
    ensures few_bios { result.1 < 2 ^ 63 }
{
    (
        limits.max_sectors().saturating_sub(newcomer.sectors()),
        limits.max_segments().saturating_sub(newcomer.bios()),
    )
}

/// Whether a newcomer fits the request of an id at a side.
fn fits_by<A: Allocator + Clone>(
    waiting: &Requests<A>,
    id: u64,
    side: Side,
    newcomer: &Extent,
    limits: &Limits,
) -> bool
    ensures yes { OnTrue result (FitsBy limits.now (map.get waiting.now id) newcomer.now side) }
    ensures no { OnFalse result ((w : Waiting) → map.get waiting.now id ≡ Some w → FitAt limits.now w.extent newcomer.now side → ⊥) }
{
    let Some(queued) = waiting.get(id) else {
        return false;
    };
    match queued.extent.fits(newcomer, limits) {
        Some(found) => found == side,
        None => false,
    }
}

/// The newest request that a newcomer fits at a side, where `edge` lists the requests at that side. More than one of those by themselves, or of
/// those that share the place, is looked at only where memory was refused as one of them grew.
#[inline(always)]
fn newest_of<A: Allocator + Clone>(
    waiting: &Requests<A>,
    edge: &Edge<A>,
    side: Side,
    newcomer: &Extent,
    limits: &Limits,
) -> Option<u64>
    requires { IsEdge (at_of side) (map.get waiting.now) edge.now }
    ensures some { IfSome result (IsNewestBy limits.now (map.get waiting.now) newcomer.now side) }
    ensures none { IfNone result (FitsNoneBy limits.now (map.get waiting.now) newcomer.now side) }
{
    let place = place_at(opposite_of(side), newcomer);
    let (room, room_bios) = room_beside(newcomer, limits);
    let mut below = None;
    while let Some(id) = edge.newest(place, room, room_bios, below) {
        if fits_by(waiting, id, side, newcomer, limits) {
            return Some(id);
        }
        below = Some(id);
    }
    None
}

/// The same at the front, where that is allowed.
#[inline(always)]
fn newest_ahead<A: Allocator + Clone>(
    waiting: &Requests<A>,
    edge: &Edge<A>,
    front: bool,
    newcomer: &Extent,
    limits: &Limits,
) -> Option<u64>
    requires { IsEdge (at_of Side.Front) (map.get waiting.now) edge.now }
    ensures some { IfSome result (IsNewestBy limits.now (map.get waiting.now) newcomer.now Side.Front) }
    ensures tried { OnSome result (IsTrue front) }
    ensures none { IfNone result (IsTrue front → FitsNoneBy limits.now (map.get waiting.now) newcomer.now Side.Front) }
{
    if !front {
        return None;
    }
    newest_of(waiting, edge, Side::Front, newcomer, limits)
}

/// Of a fit at the back and one at the front the newer.
fn newer(back: Option<u64>, ahead: Option<u64>) -> Option<(u64, Side)>
    ensures { result ≡ newer_of back ahead }
{
    match (back, ahead) {
        (None, None) => None,
        (Some(id), None) => Some((id, Side::Back)),
        (None, Some(id)) => Some((id, Side::Front)),
        (Some(older), Some(id)) => {
            if older < id {
                Some((id, Side::Front))
            } else {
                Some((older, Side::Back))
            }
        }
    }
}

/// Joins a newcomer to the request of an id, where `edge` lists the requests at the side, and `other` at the other one.
fn join_in<A: Allocator + Clone>(
    waiting: &mut Requests<A>,
    edge: &mut Edge<A>,
    other: &mut Edge<A>,
    id: u64,
    side: Side,
    now: u64,
    newcomer: &Extent,
) -> Result<(), AllocError>
    requires touch { HasTouch (map.get waiting.old) newcomer.now id side }
    requires edge { IsEdge (at_of side) (map.get waiting.old) edge.old }
    requires other { IsEdge (at_of (opposite_of side)) (map.get waiting.old) other.old }
    ensures edge { IsEdge (at_of side) (map.get waiting.new) edge.new }
    ensures other { IsEdge (at_of (opposite_of side)) (map.get waiting.new) other.new }
    ensures joined { OnOk result (IsJoined now newcomer.now waiting.old id side waiting.new) }
    ensures same { OnErr result (waiting.new ≡ waiting.old) }
{
    // for the proof alone: the newcomer has sectors
    let _ = newcomer.sectors();
    let Some(queued) = waiting.get(id) else {
        unreachable!()
    };
    let before = queued.extent;
    let after = before.joined(newcomer, side);
    edge.put((place_at(side, &after), id), &after)?;
    waiting.join(id, side, now, newcomer);
    edge.take((place_at(side, &before), id), &before);
    let spot = (place_at(opposite_of(side), &before), id);
    other.relist(spot, &before, &after);
    Ok(())
}
