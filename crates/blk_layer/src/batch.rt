//! Commands that are issued to a worker, and reported by it, under one hold of the core's lock.

ghost use Rattle.std.specs.Prelude.{ℕ, List, ◌≡◌, ◌<◌, ◌≤◌, ◌++◌, ◌∷◌, [], IfErr, length};
ghost use Rattle.std.specs.Bool.{OnTrue, OnFalse};
ghost use Rattle.blk_layer.specs.Inside.Serving.{EndsFirst, EndsBatch, Serves, IsServeFault};
ghost use Rattle.blk_layer.specs.Inside.Next.{pass_end};

use crate::layer::Named;
use crate::locked::LockedCore;
use crate::seats::{NoNext, Worker};
use crate::serving::{Ran, WorkFault};
use blk_core::{IssueFault, NoneIssued, TickFault};
use blk_sched::Scheduler;
use blk_tags::TagSet;
use std::alloc::Allocator;
use std::marker::Model;

/// The most commands that a worker has in its hands at a time.
pub const MAX_BATCH: usize = 8;

/// The tags of the commands in a worker's hands, in the order in which they were issued. They take no memory.
#[derive(Drop)]
pub(crate) struct Batch {
    tags: [u16; MAX_BATCH],
    count: usize,
}

impl Model for Batch {
    ghost use Rattle.std.specs.Prelude.{ℕ, List, take, ◌≤◌};
    ghost use Rattle.blk_layer.specs.declared.batch.TheConstants.{MAX_BATCH};

    ghost Value = { List ℕ };

    ghost view = { λ b. take b.count b.tags };

    ghost invariant = { λ b. b.count ≤ MAX_BATCH };
}

impl Batch {
    /// None.
    pub(crate) fn new() -> Batch
        ensures { result ≡ [] }
    {
        Batch {
            tags: [0; MAX_BATCH],
            count: 0,
        }
    }

    /// How many there are.
    pub(crate) fn len(&self) -> usize
        ensures value { result ≡ length self.now }
        ensures fits { result ≤ MAX_BATCH }
    {
        self.count
    }

    /// All of them.
    pub(crate) fn as_slice(&self) -> &[u16]
        ensures { result.now ≡ self.now }
    {
        &self.tags[..self.count]
    }

    /// Adds one behind the others, where there is room.
    fn push(&mut self, tag: u16)
        requires { length self.old < MAX_BATCH }
        ensures { self.new ≡ self.old ++ tag ∷ [] }
    {
        self.tags[self.count] = tag;
        self.count += 1;
    }

    /// Takes out the first one.
    fn take_first(&mut self) -> u16
        requires { 0 < length self.old }
        ensures { self.old ≡ result ∷ self.new }
    {
        let tag = self.tags[0];
        self.tags.rotate_left(1);
        self.count -= 1;
        tag
    }
}

impl<L: Named, A: Allocator + Clone> Worker<L, A> {
    /// Reports the first command of a batch as the device answered. False where that found no memory; then all is as it was.
    fn end_first<S: Scheduler<A = A>>(
        &mut self,
        core: &mut LockedCore<S, L>,
        tags: &TagSet<A>,
        batch: &mut Batch,
        ran: Ran,
    ) -> bool
        requires set { self.old.tag_set ≡ tags.now }
        requires some { 0 < length batch.old }
        ensures ended { OnTrue result (EndsFirst ran batch.old self.old batch.new self.new) }
        ensures same { OnFalse result ((batch.new ≡ batch.old) × (self.new ≡ self.old)) }
    {
        let tag = batch.as_slice()[0];
        let ended = match ran {
            Ran::Done => self.done(core, tags, tag).is_ok(),
            Ran::Busy => self.back(core, tags, tag).is_ok(),
        };
        if ended {
            let _ = batch.take_first();
        }
        ended
    }

    /// Reports the first `ran` commands of a batch as done, and requeues the next one, if there is one: the device was busy. False where
    /// one can't be reported; it and those after it are left then.
    pub(crate) fn end_all<S: Scheduler<A = A>>(
        &mut self,
        core: &mut LockedCore<S, L>,
        tags: &TagSet<A>,
        batch: &mut Batch,
        ran: usize,
    ) -> bool
        requires set { self.old.tag_set ≡ tags.now }
        requires ran { ran ≤ length batch.old }
        ensures serves { Serves batch.old self.old batch.new self.new }
        ensures ended { OnTrue result (EndsBatch ran batch.old self.old batch.new self.new) }
    {
        let was_busy = ran < batch.len();
        for _ in 0..ran {
            if !self.end_first(core, tags, batch, Ran::Done) {
                return false;
            }
        }
        if was_busy {
            self.end_first(core, tags, batch, Ran::Busy)
        } else {
            true
        }
    }

    /// Issues commands until a batch has `most` or there is no further one. Refused where it has none at all, as the pass is that finds none.
    pub(crate) fn take_some<S: Scheduler<A = A>>(
        &mut self,
        core: &mut LockedCore<S, L>,
        tags: &TagSet<A>,
        batch: &mut Batch,
        most: usize,
    ) -> Result<(), WorkFault>
        requires set { self.old.tag_set ≡ tags.now }
        requires most { most ≤ MAX_BATCH }
        ensures serves { Serves batch.old self.old batch.new self.new }
        ensures taken { (taken : List ℕ) × (batch.new ≡ batch.old ++ taken) }
        ensures ran { self.new.ran ≡ self.old.ran }
        ensures fault { IfErr result (λ why. IsServeFault why batch.new) }
    {
        for _ in batch.len()..most {
            match self.next(core, tags) {
                Ok(issued) => batch.push(issued.tag),
                Err(why) => {
                    return if batch.len() == 0 {
                        pass_end(why)
                    } else {
                        Ok(())
                    };
                }
            }
        }
        Ok(())
    }
}

/// What a pass makes of the reason for which there is no command: it ends, or is refused.
fn pass_end(why: NoNext) -> Result<(), WorkFault>
    ensures { result ≡ pass_end why }
{
    match why {
        NoNext::Tried(NoneIssued::Issue(IssueFault::TraceFull)) => Err(WorkFault::TraceFull),
        NoNext::Tried(NoneIssued::Issue(IssueFault::Memory)) => Err(WorkFault::Memory),
        NoNext::Tried(NoneIssued::Tick(TickFault::TraceFull)) => Err(WorkFault::TraceFull),
        NoNext::Tried(NoneIssued::Tick(TickFault::Memory)) => Err(WorkFault::Memory),
        _ => Ok(()),
    }
}
