//! Bios, and which request each went into.

ghost use Rattle.std.specs.Prelude.{◌≡◌, ◌+◌, ◌++◌, ◌∷◌, [], None, Some, OnOk, IfOk, length, slice_get, slice_set};
ghost use Rattle.blk_capture.specs.Inside.Members.{AreOpened, IsWaitingAt, request_into};

use crate::record::Range;
use std::alloc::{AllocError, Allocator, Global};

/// Where a bio is.
#[derive(Clone, Copy, Debug)]
pub(crate) enum BioStage {
    /// It waits.
    Waiting,
    /// It went into the request of this number.
    Into(usize),
    /// It went into a request that isn't known.
    Unknown,
}

impl BioStage {
    /// The request that it went into, if that is known.
    pub(crate) fn request(self) -> Option<usize>
        ensures { result ≡ request_into self }
    {
        match self {
            BioStage::Into(request) => Some(request),
            BioStage::Waiting | BioStage::Unknown => None,
        }
    }
}

/// A bio, as it was queued or cut from one that was.
#[derive(Clone, Copy, Debug)]
pub(crate) struct QueuedBio {
    /// Its direction and range.
    pub(crate) range: Range,
    /// The process that queued it.
    pub(crate) pid: u64,
    /// When it was queued.
    pub(crate) time: u64,
    /// The number of the record by which it was queued.
    pub(crate) age: u64,
    /// Where it is.
    pub(crate) stage: BioStage,
}

/// Bios with the requests that they went into, and for each request the bio that it was opened for, which went into it. All are known by
/// their numbers.
#[derive(Drop)]
pub(crate) struct Members<A: Allocator = Global> {
    /// The bios.
    pub(crate) bios: Vec<QueuedBio, A>,
    /// By request, the bio that it was opened for.
    pub(crate) openers: Vec<usize, A>,
    ghost opened: { AreOpened bios.items openers.items },
}

impl<A: Allocator + Clone> Members<A> {
    /// None.
    pub(crate) fn new(alloc: A) -> Result<Members<A>, AllocError>
        ensures bios { IfOk result (λ m. m.bios.items ≡ []) }
        ensures openers { IfOk result (λ m. m.openers.items ≡ []) }
    {
        Ok(Members {
            bios: Vec::new(alloc.clone()?),
            openers: Vec::new(alloc),
        })
    }

    /// One more bio, which waits. Answers its number.
    pub(crate) fn queue(&mut self, bio: QueuedBio) -> Result<usize, AllocError>
        requires { request_into bio.stage ≡ None }
        ensures value { IfOk result (λ n. n ≡ length self.old.bios.items) }
        ensures bios { OnOk result (self.new.bios.items ≡ self.old.bios.items ++ bio ∷ []) }
        ensures openers { self.new.openers.items ≡ self.old.openers.items }
    {
        let number = self.bios.len();
        self.bios.push(bio)?;
        Ok(number)
    }

    /// A waiting bio is changed: it waits on with a part of its range, or goes into a request.
    pub(crate) fn change(&mut self, number: usize, bio: QueuedBio)
        requires { IsWaitingAt self.old.bios.items number }
        ensures bios { self.new.bios.items ≡ slice_set self.old.bios.items number bio }
        ensures openers { self.new.openers.items ≡ self.old.openers.items }
    {
        self.bios[number] = bio;
    }

    /// Opens a request for a waiting bio, which goes into it.
    pub(crate) fn open(&mut self, number: usize, bio: QueuedBio) -> Result<(), AllocError>
        requires there { IsWaitingAt self.old.bios.items number }
        requires into { request_into bio.stage ≡ Some (length self.old.openers.items) }
        ensures bios { OnOk result (self.new.bios.items ≡ slice_set self.old.bios.items number bio) }
        ensures openers { OnOk result (self.new.openers.items ≡ self.old.openers.items ++ number ∷ []) }
    {
        self.openers.push(number)?;
        self.bios[number] = bio;
        Ok(())
    }
}
