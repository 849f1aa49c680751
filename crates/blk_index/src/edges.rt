//! Where requests begin and end.

ghost use Rattle.std.specs.Prelude.{◌≡◌, ◌<◌, ◌≤◌, ◌^◌, ◌-◌, ℕ, true, Option, None, OnOk, OnErr, IfOk, IfSome};
ghost use Rattle.ordered.specs.Ordered.{listed};
ghost use Rattle.blk_bio.specs.Extents.{IsExtent};
ghost use Rattle.blk_index.specs.Keys.{keyed_cmp};
ghost use Rattle.blk_index.specs.Inside.Spots.{place_cmp, is_write, at_of, opposite_of, IsBelow};
ghost use Rattle.blk_index.specs.Inside.Shapes.{StandsBetween, upper_of};
ghost use Rattle.blk_index.specs.Inside.Edges.{IsListedAt, IsListedAs, KeepsBut, KeepsOwn, IsEdges, AddsEdges, DropsEdges};
ghost use Rattle.blk_sched.specs.Meaning.{Waiting};

use crate::ids::greater;
use crate::shapes::{Place, Shape, Shapes, is_place};
use blk_bio::{Dir, Extent, Side};
use ordered::Ordered;
use std::alloc::{AllocError, Allocator, Global};

/// A direction, as whether it writes, and a sector; and the id of a request.
pub type Spot = (Place, u64);

/// Whether a direction writes.
pub fn is_write(dir: Dir) -> bool
    ensures { result ≡ is_write dir }
{
    match dir {
        Dir::Read => false,
        Dir::Write => true,
    }
}

/// Where a request lies at a side: its first sector at the front, its end at the back.
pub fn place_at(side: Side, extent: &Extent) -> Place
    ensures value { result ≡ at_of side extent.now }
    ensures in_range { result.1 < 2 ^ 63 }
    ensures is_extent { IsExtent extent.now }
{
    let sector = match side {
        Side::Back => extent.end(),
        Side::Front => extent.first(),
    };
    (is_write(extent.dir()), sector)
}

/// The other side.
pub fn opposite_of(side: Side) -> Side
    ensures { result ≡ opposite_of side }
{
    match side {
        Side::Back => Side::Front,
        Side::Front => Side::Back,
    }
}

/// Requests found by where they begin, or by where they end: the one that came first to each place by itself, and others there by how many bios and
/// sectors they have.
#[derive(Drop)]
pub struct Edge<A: Allocator = Global> {
    /// One of each place.
    pub ones: Ordered<Spot, A>,
    /// The others.
    pub others: Shapes<A>,
}

impl<A: Allocator + Clone> Edge<A> {
    /// No requests. It takes no memory but for the allocators.
    pub fn new(alloc: A) -> Result<Edge<A>, AllocError> {
        Ok(Edge {
            ones: Ordered::new(alloc.clone()?),
            others: Shapes::new(alloc),
        })
    }

    /// The newest request at a place that may have no more sectors and bios than these, by its id, below a bound if there is one.
    #[inline(always)]
    pub fn newest(&self, place: Place, sectors: u64, bios: u64, below: Option<u64>) -> Option<u64>
        requires place { place.1 < 2 ^ 63 }
        requires sectors { sectors < 65535 }
        requires bios { bios < 2 ^ 63 }
        ensures low { IfSome result (IsBelow below) }
        ensures newest { (k s b : ℕ) → StandsBetween below result k → IsListedAt self.now place k s b → s ≤ sectors → b ≤ bios → ⊥ }
    {
        let one = newest_one(&self.ones, place, below);
        if self.others.is_empty() {
            return one;
        }
        greater(one, self.others.newest(place, sectors, bios, below))
    }

    /// Lists a request. It fails only when out of memory: no other request is lost then.
    #[inline(always)]
    pub fn put(&mut self, spot: Spot, extent: &Extent) -> Result<(), AllocError>
        requires { spot.0.1 < 2 ^ 63 }
        ensures ok { OnOk result (IsListedAs self.new spot extent.now) }
        ensures kept { KeepsBut spot self.old self.new }
    {
        if newest_one(&self.ones, spot.0, None).is_some() {
            return self.put_among(spot, extent);
        }
        self.ones.put(spot)
    }

    /// The same where the place has one.
    #[cold]
    #[inline(never)]
    fn put_among(&mut self, spot: Spot, extent: &Extent) -> Result<(), AllocError>
        ensures ok { OnOk result (IsListedAs self.new spot extent.now) }
        ensures kept { KeepsBut spot self.old self.new }
    {
        let (place, id) = spot;
        let shape = shape_of(extent);
        match self.others.put(place, shape, id) {
            Ok(()) => Ok(()),
            Err(why) => {
                self.others.take(place, shape, id, None);
                Err(why)
            }
        }
    }

    /// Takes out a request. It takes no memory.
    #[inline(always)]
    pub fn take(&mut self, spot: Spot, extent: &Extent)
        ensures { KeepsBut spot self.old self.new }
    {
        self.ones.take(spot);
        if !self.others.is_empty() {
            self.others.take(spot.0, shape_of(extent), spot.1, None);
        }
    }

    /// Lists a request with more bios than before. Where memory is refused, it stays as it was listed.
    #[inline(always)]
    pub fn relist(&mut self, spot: Spot, before: &Extent, after: &Extent)
        requires { spot.0.1 < 2 ^ 63 }
        ensures kept { KeepsBut spot self.old self.new }
        ensures own { KeepsOwn spot after.now self.old self.new }
    {
        if self.others.is_empty() {
            return;
        }
        self.relist_among(spot, before, after);
    }

    /// The same where a place may have several.
    #[cold]
    #[inline(never)]
    fn relist_among(&mut self, spot: Spot, before: &Extent, after: &Extent)
        requires { spot.0.1 < 2 ^ 63 }
        ensures kept { KeepsBut spot self.old self.new }
        ensures own { KeepsOwn spot after.now self.old self.new }
    {
        let (place, id) = spot;
        if newest_one(&self.ones, place, None) == Some(id) {
            return;
        }
        let shape = shape_of(after);
        let Ok(()) = self.others.put(place, shape, id) else {
            return;
        };
        self.others.take(place, shape_of(before), id, Some(shape));
    }
}

/// How many bios and how many sectors a request has.
fn shape_of(extent: &Extent) -> Shape
    ensures { result ≡ (extent.now.bios, extent.now.end - extent.now.first) }
{
    (extent.bios(), extent.sectors())
}

/// The newest of a place, by its id, below a bound if there is one.
#[inline(always)]
fn newest_one<A: Allocator + Clone>(
    ones: &Ordered<Spot, A>,
    place: Place,
    below: Option<u64>,
) -> Option<u64>
    requires { place.1 < 2 ^ 63 }
    ensures low { IfSome result (IsBelow below) }
    ensures newest { (k : ℕ) → StandsBetween below result k → listed (keyed_cmp place_cmp) ones.now (place, k) ≡ true → ⊥ }
{
    let (found, id) = ones.below(upper_at(place, below))?;
    if is_place(found, place) {
        Some(id)
    } else {
        None
    }
}

/// What is above all of a place whose ids are below a bound, if there is one.
fn upper_at(place: Place, below: Option<u64>) -> Spot
    requires { place.1 < 2 ^ 63 }
    ensures { result ≡ upper_of place below }
{
    match below {
        Some(id) => (place, id),
        None => ((place.0, place.1 + 1), 0),
    }
}

/// The requests by both sides: where they begin, for front merges, and where they end, for back merges.
#[derive(Drop)]
pub struct Edges<A: Allocator = Global> {
    /// Where they begin.
    pub front: Edge<A>,
    /// Where they end.
    pub back: Edge<A>,
}

impl<A: Allocator + Clone> Edges<A> {
    /// No requests. It takes no memory but for the allocators.
    pub fn new(alloc: A) -> Result<Edges<A>, AllocError>
        ensures { IfOk result (λ e. (found : ℕ → Option Waiting) → ((k : ℕ) → found k ≡ None) → IsEdges found e) }
    {
        Ok(Edges {
            front: Edge::new(alloc.clone()?)?,
            back: Edge::new(alloc)?,
        })
    }

    /// Lists a request that isn't there at both sides. It fails only when out of memory: no other request is lost then.
    #[inline(always)]
    pub fn add(&mut self, extent: &Extent, id: u64) -> Result<(), AllocError>
        ensures ok { OnOk result (AddsEdges extent.now id self.old self.new) }
        ensures same { OnErr result ((old : ℕ → Option Waiting) → IsEdges old self.old → old id ≡ None → IsEdges old self.new) }
    {
        let first = (place_at(Side::Front, extent), id);
        self.front.put(first, extent)?;
        let end = (place_at(Side::Back, extent), id);
        match self.back.put(end, extent) {
            Ok(()) => Ok(()),
            Err(why) => {
                self.front.take(first, extent);
                Err(why)
            }
        }
    }

    /// Takes a request out at both sides. It takes no memory.
    #[inline(always)]
    pub fn del(&mut self, extent: &Extent, id: u64)
        ensures { DropsEdges extent.now id self.old self.new }
    {
        self.front.take((place_at(Side::Front, extent), id), extent);
        self.back.take((place_at(Side::Back, extent), id), extent);
    }
}
