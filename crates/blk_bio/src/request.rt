//! A request: bios of one direction that tile a range, after `struct request` of Linux and its back and front merge.

ghost use Rattle.std.specs.Prelude.{◌≡◌, ◌≤◌, ◌+◌, ◌<◌, ◌∷◌, [], ◌↔◌, IsTrue, ◌++◌, IfOk, IfErr, IfNone, IfSome};
ghost use Rattle.blk_bio.specs.declared.request.Side.{Side};
ghost use Rattle.blk_bio.specs.declared.request.JoinFault.{JoinFault};
ghost use Rattle.blk_bio.specs.declared.bio.TheConstants.{MAX_END};
ghost use Rattle.blk_bio.specs.Requests.{IsRequest, IsWithin, Abuts, Fits, dir_of, first_of, last_of, sectors_of};
ghost use Rattle.blk_bio.specs.Extents.{extent_of};
ghost use Rattle.blk_bio.specs.Answers.{IsJoinAnswer, IsBioPushAnswer};

use crate::bio::{Bio, Dir};
use crate::extent::Extent;
use crate::limits::Limits;
use crate::list::BioList;
use std::alloc::{AllocError, Allocator, Global};
use std::marker::Model;
use std::slice;
use thiserror::Error;

/// The end of a request at which another joins it: `ELEVATOR_BACK_MERGE` and `ELEVATOR_FRONT_MERGE` of Linux.
#[derive(Clone, Copy, Debug, PartialEq, Eq)]
pub enum Side {
    /// The newcomer begins at the request's end.
    Back,
    /// The newcomer ends at the request's beginning.
    Front,
}

/// Why two requests are not joined, in the order in which the reasons are looked for.
#[derive(Clone, Copy, Debug, PartialEq, Eq, Error)]
#[error("{:?}", self)]
pub enum JoinFault {
    /// One reads and the other writes.
    Direction,
    /// Neither begins where the other ends.
    Apart,
    /// Together they have more sectors than [`Limits::max_sectors`].
    Sectors,
    /// Together they have more bios than [`Limits::max_segments`].
    Segments,
    /// Memory ran out.
    Memory,
}

/// Bios of one direction, at least one, each beginning where the one before it ends. It keeps its allocator.
#[derive(Debug, Drop)]
pub struct Request<A: Allocator = Global> {
    bios: BioList<A>,
}

impl<A: Allocator> Model for Request<A> {
    ghost use Rattle.std.specs.Prelude.{List};
    ghost use Rattle.blk_bio.specs.Bios.{Bio as BioFields};

    ghost Value = { List BioFields };

    ghost use Rattle.blk_bio.specs.Requests.{IsRequest};

    ghost view = { λ r. r.bios };

    ghost invariant = { λ r. IsRequest r.bios };
}

impl<A: Allocator + Clone> Request<A> {
    /// A request of one bio, which takes no memory. Where memory is refused, the bio comes back.
    pub fn of(alloc: A, bio: Bio) -> Result<Request<A>, (Bio, AllocError)>
        ensures ok { IfOk result (λ r. r ≡ bio ∷ []) }
        ensures err { IfErr result (λ e. e.0 ≡ bio) }
    {
        Ok(Request {
            bios: BioList::of(alloc, bio),
        })
    }

    /// The direction of all its bios.
    pub fn dir(&self) -> Dir
        ensures { result ≡ dir_of self.now }
    {
        self.bios()[0].dir()
    }

    /// Its first sector: where its first bio begins.
    pub fn first(&self) -> u64
        ensures { result ≡ first_of self.now }
    {
        self.bios()[0].first()
    }

    /// The sector after its last one.
    fn end(&self) -> u64
        ensures value { result ≡ last_of self.now }
        ensures in_range { result ≤ MAX_END }
        ensures above { first_of self.now < result }
    {
        let bios = self.bios();
        let last = bios[bios.len() - 1];
        last.first() + last.sectors()
    }

    /// How many sectors its bios have together, 1 to [`crate::MAX_END`]; they fill its range.
    pub fn sectors(&self) -> u64
        ensures value { result ≡ sectors_of self.now }
        ensures some { 0 < result }
        ensures range { first_of self.now + result ≡ last_of self.now }
        ensures in_range { last_of self.now ≤ MAX_END }
    {
        // brings the prover the list's invariant, by which the request ends after it begins
        let _ = &self.bios;
        self.end() - self.first()
    }

    /// Its bios, in the order of their sectors.
    pub fn bios(&self) -> &[Bio]
        ensures bios { result.now ≡ self.now }
        ensures is_request { IsRequest self.now }
    {
        self.bios.as_slice()
    }

    /// The side of this request at which the other one would stand, by ranges alone: the back where the other begins at
    /// its end, the front where the other ends at its beginning. Neither the directions nor any limits are looked at.
    pub fn abuts(&self, other: &Request<A>) -> Option<Side>
        ensures some { IfSome result (Abuts self.now other.now) }
        ensures only { IfSome result (λ found. (side : Side) → Abuts self.now other.now side → side ≡ found) }
        ensures none { IfNone result ((side : Side) → Abuts self.now other.now side → ⊥) }
    {
        self.extent().touches(&other.extent())
    }

    /// Whether it is one bio, or has no more sectors and bios than the limits.
    pub fn within(&self, limits: &Limits) -> bool
        ensures { IsTrue result ↔ IsWithin limits.now self.now }
    {
        self.bios().len() == 1
            || self.sectors() <= limits.max_sectors()
                && self.bios().len() as u64 <= limits.max_segments()
    }

    /// Its direction and its range, and how many bios it has.
    #[inline]
    pub fn extent(&self) -> Extent
        ensures value { result ≡ extent_of self.now }
        ensures is_request { IsRequest self.now }
    {
        let bios = self.bios().len() as u64;
        Extent::of(self.dir(), self.first(), self.end(), bios)
    }

    /// The side at which the newcomer would join this request: it has the same direction, abuts, and is within the
    /// limits together with it. There is one such side at most, and [`Request::join`] joins there.
    #[inline]
    pub fn fits(&self, newcomer: &Request<A>, limits: &Limits) -> Option<Side>
        ensures some { IfSome result (Fits limits.now self.now newcomer.now) }
        ensures only { IfSome result (λ found. (side : Side) → Fits limits.now self.now newcomer.now side → side ≡ found) }
        ensures none { IfNone result ((side : Side) → Fits limits.now self.now newcomer.now side → ⊥) }
    {
        self.extent().fits(&newcomer.extent(), limits)
    }

    /// The side at which a bio would join this request, as a request of its own.
    #[inline]
    pub fn fits_bio(&self, bio: &Bio, limits: &Limits) -> Option<Side>
        ensures some { IfSome result (Fits limits.now self.now (bio.now ∷ [])) }
        ensures only { IfSome result (λ found. (side : Side) → Fits limits.now self.now (bio.now ∷ []) side → side ≡ found) }
        ensures none { IfNone result ((side : Side) → Fits limits.now self.now (bio.now ∷ []) side → ⊥) }
    {
        self.extent().fits(&bio.extent(), limits)
    }

    /// Joins the other request to this one, at the side at which it abuts, which is the answer: Linux's back or front
    /// merge. Refused, in this order, as `Direction`, `Apart`, `Sectors` or `Segments`, and as `Memory` where the growth
    /// is refused. This request is then as it was and the other one comes back.
    pub fn join(
        &mut self,
        other: Request<A>,
        limits: &Limits,
    ) -> Result<Side, (Request<A>, JoinFault)>
        // the side or the fault, and the request as it stands then
        ensures answer { IsJoinAnswer limits.now self.old other self.new result }
        ensures only { IfOk result (λ found. (side : Side) → Fits limits.now self.old other side → side ≡ found) }
        // what fits is refused only when out of memory
        ensures accepts { (side : Side) → Fits limits.now self.old other side → IfErr result (λ e. e.1 ≡ JoinFault.Memory) }
    {
        if other.dir() != self.dir() {
            return Err((other, JoinFault::Direction));
        }
        let Some(side) = self.abuts(&other) else {
            return Err((other, JoinFault::Apart));
        };
        if self.sectors() + other.sectors() > limits.max_sectors() {
            return Err((other, JoinFault::Sectors));
        }
        if (self.bios().len() + other.bios().len()) as u64 > limits.max_segments() {
            return Err((other, JoinFault::Segments));
        }
        let grown = match side {
            Side::Back => self.append(&other),
            Side::Front => self.prepend(&other),
        };
        if grown.is_err() {
            return Err((other, JoinFault::Memory));
        }
        Ok(side)
    }

    /// Joins a bio to this request at the back, as [`Request::join`] would join a request of that bio alone; none is made. Refused, in
    /// this order, as `Direction`, as `Apart` where it doesn't begin at this request's end, as `Sectors` or `Segments`, and as
    /// `Memory` where the growth is refused. This request is then as it was.
    pub fn push_bio(&mut self, bio: Bio, limits: &Limits) -> Result<(), JoinFault>
        // Ok or the fault, and the request as it stands then
        ensures answer { IsBioPushAnswer limits.now self.old bio self.new result }
        // what fits at the back is refused only when out of memory
        ensures accepts { Fits limits.now self.old (bio ∷ []) Side.Back → IfErr result (λ why. why ≡ JoinFault.Memory) }
    {
        if bio.dir() != self.dir() {
            return Err(JoinFault::Direction);
        }
        if bio.first() != self.end() {
            return Err(JoinFault::Apart);
        }
        if self.sectors() + bio.sectors() > limits.max_sectors() {
            return Err(JoinFault::Sectors);
        }
        if self.bios().len() as u64 + 1 > limits.max_segments() {
            return Err(JoinFault::Segments);
        }
        match self.append_bio(bio) {
            Ok(()) => Ok(()),
            Err(AllocError) => Err(JoinFault::Memory),
        }
    }

    /// Adds a bio that begins where this request ends.
    fn append_bio(&mut self, bio: Bio) -> Result<(), AllocError>
        requires direction { bio.dir ≡ dir_of self.old }
        requires abuts { bio.first ≡ last_of self.old }
        ensures ok { IfOk result (λ _. self.new ≡ self.old ++ bio ∷ []) }
        ensures err { IfErr result (λ _. self.new ≡ self.old) }
    {
        // brings the prover what every bio keeps
        let _ = bio.first();
        self.bios.append(slice::from_ref(&bio))
    }

    /// Adds the bios of a request that begins where this one ends.
    fn append(&mut self, other: &Request<A>) -> Result<(), AllocError>
        requires direction { dir_of other.now ≡ dir_of self.old }
        requires abuts { first_of other.now ≡ last_of self.old }
        ensures ok { IfOk result (λ _. self.new ≡ self.old ++ other.now) }
        ensures err { IfErr result (λ _. self.new ≡ self.old) }
    {
        self.bios.append(other.bios())
    }

    /// Puts the bios of a request that ends where this one begins before this one's.
    fn prepend(&mut self, other: &Request<A>) -> Result<(), AllocError>
        requires direction { dir_of other.now ≡ dir_of self.old }
        requires abuts { last_of other.now ≡ first_of self.old }
        ensures ok { IfOk result (λ _. self.new ≡ other.now ++ self.old) }
        ensures err { IfErr result (λ _. self.new ≡ self.old) }
    {
        self.bios.prepend(other.bios())
    }
}
