//! A plug: requests that a submitter gathers before they are handed on, so that neighbours merge.
//!
//! After `struct blk_plug` of Linux, with its `BLK_MAX_REQUEST_COUNT` of 32 requests and the merge attempt of
//! `blk_attempt_plug_merge`: a bio is tried at the requests from the newest to the oldest, at each at the back before the
//! front, and joins the first that it fits; where it fits none, it becomes a request of its own. Where Linux flushes a full
//! plug by itself, `add` refuses the bio as `Full`, and when to flush is left to the caller.

ghost use Rattle.std.specs.Prelude.{◌≡◌, ◌≤◌, ◌<◌, ◌∷◌, [], ◌++◌, true, length, vec_len, slice_get, Some, IfOk, OnOk, OnErr, IfNone, IfSome, IsPermutation};
ghost use Rattle.std.specs.Option.{option_copied};
ghost use Rattle.blk_bio.specs.Requests.{IsWithin, IsJoinCandidate};
ghost use Rattle.blk_bio.specs.Answers.{IsJoinAnswer};
ghost use Rattle.blk_queues.specs.Plugs.{Plug as PlugFields, IsPlug, bios_plugged, IsJoinedAt};
ghost use Rattle.blk_queues.specs.Answers.{IsAddAnswer};
ghost use Rattle.blk_queues.specs.Names.{plug_told};

use crate::candidate::candidate;
use blk_bio::{Bio, Limits, Request, Side};
use edd_commands::{Fault, Told, told};
use std::alloc::{AllocError, Allocator, Global};
use std::collections::VecDeque;
use std::marker::Model;
use thiserror::Error;

/// The most requests that a plug holds: `BLK_MAX_REQUEST_COUNT` of Linux.
pub const MAX_STAGED: usize = 32;

/// What became of a bio that was added.
#[derive(Clone, Copy, Debug, PartialEq, Eq)]
pub enum Added {
    /// It is a request of its own, the plug's newest.
    New,
    /// It joined a request of the plug at this side.
    Joined(Side),
}

/// Why a bio is not added, in the order in which the reasons are looked for.
#[derive(Clone, Copy, Debug, PartialEq, Eq, Error)]
#[error("{}", self.name())]
pub enum PlugFault {
    /// The plug has [`MAX_STAGED`] requests, and the bio fits none of them.
    Full,
    /// Memory ran out.
    Memory,
}

impl Fault for PlugFault {
    ghost told = { plug_told };

    fn told(&self) -> Told {
        told!(self: PlugFault { Full, Memory => Memory })
    }
}

/// At most [`MAX_STAGED`] requests, in the order in which they were begun, and the limits within which bios join
/// them. It keeps its allocator.
#[derive(Debug, Drop)]
pub struct Plug<A: Allocator = Global> {
    limits: Limits,
    requests: VecDeque<Request<A>, A>,
}

impl<A: Allocator> Model for Plug<A> {
    ghost use Rattle.blk_queues.specs.Plugs.{Plug as PlugFields, IsPlug};

    ghost Value = { PlugFields };

    ghost view = { λ p. record { limits = p.limits; requests = p.requests.items } };

    ghost invariant = { λ p. IsPlug record { limits = p.limits; requests = p.requests.items } };
}

impl<A: Allocator + Clone> Plug<A> {
    /// A plug of no requests, with room for [`MAX_STAGED`]. Fails only when memory runs out.
    pub fn new(alloc: A, limits: Limits) -> Result<Plug<A>, AllocError>
        ensures { IfOk result (λ plug. plug ≡ record { limits = limits; requests = [] }) }
    {
        let requests = VecDeque::with_capacity(alloc, MAX_STAGED)?;
        Ok(Plug { limits, requests })
    }

    /// Adds a bio: it joins the newest request that it fits, at the back where it can, else at the front; where it fits
    /// none it becomes a request, the newest. Refused as `Full` where it fits none and the plug has [`MAX_STAGED`]
    /// requests, and else as `Memory` where a list can't grow. The bio comes back then, and the plug is as it was.
    pub fn add(&mut self, bio: Bio) -> Result<Added, (Bio, PlugFault)>
        // what became of the bio or the fault, and the plug as it stands then
        ensures answer { IsAddAnswer self.old bio self.new result }
        // each bio of the plug stands in it once more as often as it did, and the added one once more
        ensures kept { OnOk result (IsPermutation (bio ∷ bios_plugged self.old) (bios_plugged self.new)) }
    {
        let found = candidate(&self.requests, &bio, &self.limits);
        let Some((place, side)) = found else {
            if self.requests.len() >= MAX_STAGED {
                return Err((bio, PlugFault::Full));
            }
            let Ok(()) = append(&mut self.requests, bio) else {
                return Err((bio, PlugFault::Memory));
            };
            return Ok(Added::New);
        };
        let Ok(()) = join_at(&mut self.requests, place, side, bio, &self.limits) else {
            return Err((bio, PlugFault::Memory));
        };
        Ok(Added::Joined(side))
    }

    /// The limits within which bios join.
    pub fn limits(&self) -> Limits
        ensures { result ≡ self.now.limits }
    {
        self.limits
    }

    /// How many requests it has, 0 to [`MAX_STAGED`].
    pub fn len(&self) -> usize
        ensures value { result ≡ length self.now.requests }
        ensures is_plug { IsPlug self.now }
    {
        self.requests.len()
    }

    /// Its oldest request. There is none exactly where it has no requests. Like each of its requests, it is one bio or
    /// within the limits.
    pub fn first(&self) -> Option<&Request<A>>
        ensures value { option_copied result ≡ slice_get self.now.requests 0 }
        ensures is_plug { IsPlug self.now }
    {
        self.requests.front()
    }

    /// Takes out its oldest request, which is one bio or within the limits. There is none exactly where it has no
    /// requests.
    pub fn take_first(&mut self) -> Option<Request<A>>
        ensures some { IfSome result (λ first. self.old ≡ record { limits = self.new.limits; requests = first ∷ self.new.requests }) }
        ensures within { IfSome result (IsWithin self.old.limits) }
        ensures none { IfNone result (self.old.requests ≡ []) }
        ensures same { IfNone result (self.new ≡ self.old) }
    {
        self.requests.pop_front()
    }
}

/// Adds a request of one bio.
fn append<A: Allocator + Clone>(
    requests: &mut VecDeque<Request<A>, A>,
    bio: Bio,
) -> Result<(), AllocError>
    ensures ok { OnOk result (requests.new.items ≡ requests.old.items ++ (bio ∷ []) ∷ []) }
    ensures err { OnErr result (requests.new.items ≡ requests.old.items) }
{
    let alloc = requests.allocator().clone()?;
    let Ok(request) = Request::of(alloc, bio) else {
        return Err(AllocError);
    };
    let Ok(()) = requests.push_back(request) else {
        return Err(AllocError);
    };
    Ok(())
}

/// Joins a bio to the request that it is to join.
fn join_at<A: Allocator + Clone>(
    requests: &mut VecDeque<Request<A>, A>,
    place: usize,
    side: Side,
    bio: Bio,
    limits: &Limits,
) -> Result<(), AllocError>
    requires { IsJoinCandidate limits.now true requests.old.items (bio ∷ []) place side }
    ensures ok { OnOk result (IsJoinedAt requests.old.items bio place side requests.new.items) }
    ensures err { OnErr result (requests.new.items ≡ requests.old.items) }
{
    let alloc = requests.allocator().clone()?;
    let Ok(newcomer) = Request::of(alloc, bio) else {
        return Err(AllocError);
    };
    let request = &mut requests[place];
    let Ok(_) = request.join(newcomer, limits) else {
        return Err(AllocError);
    };
    Ok(())
}
