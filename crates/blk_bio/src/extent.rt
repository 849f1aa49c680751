//! What of a request decides whether another may join it: the rule of a join.

ghost use Rattle.std.specs.Prelude.{◌≡◌, ◌↔◌, ◌-◌, ◌<◌, IsTrue, IfSome, IfNone};
ghost use Rattle.blk_bio.specs.declared.request.Side.{Side};
ghost use Rattle.blk_bio.specs.Extents.{IsExtent, TouchesAt, WithinTogether, extent_joined, FitAt, FitOnlyAt, FitNowhere};

use crate::bio::Dir;
use crate::limits::Limits;
use crate::request::Side;
use std::marker::Model;

/// The direction and the range of a request, and how many bios fill it: at least one, each of a sector or more, up to
/// [`crate::MAX_END`]. It is what decides whether another may join.
#[derive(Clone, Copy, Debug, PartialEq, Eq)]
pub struct Extent {
    dir: Dir,
    first: u64,
    end: u64,
    bios: u64,
}

impl Model for Extent {
    ghost use Rattle.blk_bio.specs.Extents.{Extent as ExtentFields, IsExtent};

    ghost Value = { ExtentFields };

    ghost view = { λ e. record { dir = e.dir; first = e.first; end = e.end; bios = e.bios } };

    ghost invariant = { λ e. IsExtent record { dir = e.dir; first = e.first; end = e.end; bios = e.bios } };

    ghost inverse = { λ v. record { dir = v.dir; first = v.first; end = v.end; bios = v.bios } };
}

impl Extent {
    /// The range from `first` up to `end`, filled by so many bios.
    pub(crate) fn of(dir: Dir, first: u64, end: u64, bios: u64) -> Extent
        requires { IsExtent record { dir = dir; first = first; end = end; bios = bios } }
        ensures { result ≡ record { dir = dir; first = first; end = end; bios = bios } }
    {
        Extent {
            dir,
            first,
            end,
            bios,
        }
    }

    /// The way that its data goes.
    #[inline(always)]
    pub fn dir(&self) -> Dir
        ensures { result ≡ self.now.dir }
    {
        self.dir
    }

    /// Its first sector.
    #[inline(always)]
    pub fn first(&self) -> u64
        ensures value { result ≡ self.now.first }
        ensures is_extent { IsExtent self.now }
    {
        self.first
    }

    /// The sector after its last one.
    #[inline(always)]
    pub fn end(&self) -> u64
        ensures value { result ≡ self.now.end }
        ensures is_extent { IsExtent self.now }
    {
        self.end
    }

    /// How many sectors it has.
    #[inline(always)]
    pub fn sectors(&self) -> u64
        ensures value { result ≡ self.now.end - self.now.first }
        ensures is_extent { IsExtent self.now }
    {
        self.end - self.first
    }

    /// How many bios it has.
    #[inline(always)]
    pub fn bios(&self) -> u64
        ensures value { result ≡ self.now.bios }
        ensures is_extent { IsExtent self.now }
    {
        self.bios
    }

    /// The side at which a newcomer would stand, by ranges alone: the back where it begins at this end, the front where
    /// it ends at this beginning.
    #[inline]
    pub fn touches(&self, newcomer: &Extent) -> Option<Side>
        ensures some { IfSome result (TouchesAt self.now newcomer.now) }
        ensures none { IfNone result ((side : Side) → TouchesAt self.now newcomer.now side → ⊥) }
    {
        if newcomer.first == self.end {
            Some(Side::Back)
        } else if newcomer.end == self.first {
            Some(Side::Front)
        } else {
            None
        }
    }

    /// The side at which a newcomer fits: it has the same direction, abuts, and is within the limits together with
    /// this one, as `blk_try_merge` and the limits' checks of Linux ask. There is one such side at most. Most are apart
    /// from a newcomer, so the limits are looked at last.
    #[inline]
    pub fn fits(&self, newcomer: &Extent, limits: &Limits) -> Option<Side>
        ensures some { IfSome result (FitAt limits.now self.now newcomer.now) }
        ensures only { IfSome result (FitOnlyAt limits.now self.now newcomer.now) }
        ensures none { IfNone result (FitNowhere limits.now self.now newcomer.now) }
    {
        if newcomer.dir != self.dir {
            return None;
        }
        let Some(side) = self.touches(newcomer) else {
            return None;
        };
        if self.within(newcomer, limits) {
            Some(side)
        } else {
            None
        }
    }

    /// Whether both together have no more sectors and bios than the limits.
    #[inline]
    pub fn within(&self, newcomer: &Extent, limits: &Limits) -> bool
        ensures { IsTrue result ↔ WithinTogether limits.now self.now newcomer.now }
    {
        self.sectors() + newcomer.sectors() <= limits.max_sectors()
            && self.bios() + newcomer.bios() <= limits.max_segments()
    }

    /// The extent of both, once a newcomer that stands at the side has joined. It asks for no limits.
    #[inline]
    pub fn joined(&self, newcomer: &Extent, side: Side) -> Extent
        requires { TouchesAt self.now newcomer.now side }
        ensures { result ≡ extent_joined self.now newcomer.now side }
    {
        let bios = self.bios() + newcomer.bios();
        match side {
            Side::Back => Extent::of(self.dir, self.first, newcomer.end, bios),
            Side::Front => Extent::of(self.dir, newcomer.first, self.end, bios),
        }
    }
}
