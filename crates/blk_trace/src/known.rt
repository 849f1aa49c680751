//! What a trace keeps of each request.

ghost use Rattle.std.specs.Prelude.{◌≡◌, ◌<◌, ◌+◌, ◌^◌, IfSome, IfNone};
ghost use Rattle.blk_bio.specs.Requests.{IsRequest};
ghost use Rattle.blk_trace.specs.Waits.{Entered, summary};
ghost use Rattle.blk_trace.specs.Inside.Kept.{JoinsKept, FitsNoKept};

use blk_bio::{Extent, Limits, Request};
use std::alloc::Allocator;

/// A request as its Release and Joins made it, without its bios.
#[derive(Clone, Copy, Debug, PartialEq, Eq)]
pub struct Entry {
    /// Its direction and its range, and how many bios it has.
    pub extent: Extent,
    /// The last round in which bios entered under its id.
    pub release: u64,
    /// The first round in which one of its bios is due.
    pub due: u64,
}

/// How far a request has come.
#[derive(Clone, Copy, Debug, PartialEq, Eq)]
pub enum Stage {
    /// It was never issued.
    Waits,
    /// It was issued, and was not requeued since.
    Gone,
    /// It was issued and requeued, so it waits and nothing joins it.
    Requeued,
}

/// What is kept under an id.
#[derive(Clone, Copy, Debug, PartialEq, Eq)]
pub struct Known {
    /// How far its request has come.
    pub stage: Stage,
    /// Its request.
    pub entry: Entry,
}

impl Entry {
    /// A request that enters in the round, and is due `expire` rounds later.
    pub(crate) fn entered<A: Allocator + Clone>(
        request: &Request<A>,
        round: u64,
        expire: u64,
    ) -> Entry
        requires { round + expire < 2 ^ 64 }
        ensures { result ≡ summary record { release = round; due = round + expire; bios = request.now } }
    {
        Entry {
            extent: request.extent(),
            release: round,
            due: round + expire,
        }
    }

    /// This request once the other has joined it in the round, where it can.
    pub(crate) fn joined<A: Allocator + Clone>(
        &self,
        request: &Request<A>,
        round: u64,
        limits: &Limits,
    ) -> Option<Entry>
        requires { (w : Entered) × (self.now ≡ summary w) × IsRequest w.bios }
        ensures some { IfSome result (JoinsKept limits.now round self.now request.now) }
        ensures none { IfNone result (FitsNoKept limits.now self.now request.now) }
    {
        let newcomer = request.extent();
        let Some(side) = self.extent.fits(&newcomer, limits) else {
            return None;
        };
        let mut new = *self;
        new.extent = self.extent.joined(&newcomer, side);
        new.release = round;
        Some(new)
    }
}
