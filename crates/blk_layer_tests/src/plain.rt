//! The parts of a layer, called directly: a core, software queues, and seats at a set of tags.

ghost use Rattle.std.specs.Prelude.{◌≡◌};

use blk_bio::{Bio, BioId, Limits, Request};
use blk_core::{BackFault, Core, NotIssued};
use blk_layer::{FlushFault, FlushReason, Flushed, Issued, LayerIssueFault};
use blk_none::NoneSched;
use blk_queues::{Plug, SoftQueue};
use blk_tags::{TagSeat, TagSet};
use std::alloc::Global;
use std::process::Abort;

/// How many requests a software queue has room for.
pub const SOFT_DEPTH: u64 = 4;

/// A worker's part: a seat at a set of tags.
#[derive(Drop)]
pub struct Tags<'a> {
    set: &'a TagSet,
    seat: TagSeat,
    ghost of_set: { seat.of_set ≡ set.now },
}

impl<'a> Tags<'a> {
    /// A seat beside its set.
    pub fn new(set: &'a TagSet, seat: TagSeat) -> Tags<'a>
        requires { seat.of_set ≡ set.now }
    {
        Tags { set, seat }
    }

    /// Gives a tag back where it is held, and says whether it is.
    fn give(&mut self, tag: u16) -> bool {
        if !self.seat.holds(tag) {
            return false;
        }
        self.set.give(&mut self.seat, tag);
        true
    }

    /// What a core issues for a hardware queue under the seat's next tag, which goes back where there is no command.
    pub fn issue(
        &mut self,
        core: &mut Core<NoneSched>,
        hw: u8,
    ) -> Result<Option<Issued>, LayerIssueFault> {
        let Some(tag) = self.set.get(&mut self.seat) else {
            return Err(LayerIssueFault::NoTag);
        };
        let answer = core.issue(hw, tag);
        if !matches!(answer, Ok(Some(_))) {
            self.give(tag);
        }
        match answer {
            Ok(Some(command)) => Ok(Some(Issued { command, tag })),
            Ok(None) => Ok(None),
            Err(why) => Err(LayerIssueFault::Issue(why)),
        }
    }

    /// Reports a tag done, where it is held.
    pub fn done(&mut self, core: &mut Core<NoneSched>, tag: u16) -> Result<(), NotIssued> {
        if !self.seat.holds(tag) {
            return Err(NotIssued);
        }
        core.done(tag)?;
        self.give(tag);
        Ok(())
    }

    /// Requeues a tag's command, where the seat holds the tag.
    pub fn back(&mut self, core: &mut Core<NoneSched>, tag: u16) -> Result<u64, BackFault> {
        if !self.seat.holds(tag) {
            return Err(BackFault::NotIssued);
        }
        let id = core.back(tag)?;
        self.give(tag);
        Ok(id)
    }
}

/// A submitter's part: its software queue, and the bios that went into it.
#[derive(Drop)]
pub struct Store {
    number: u8,
    queue: SoftQueue,
    accepted: Vec<Bio>,
}

impl Store {
    /// An empty software queue of this number.
    pub fn new(rt: &impl Abort, alloc: Global, number: u8, limits: Limits) -> Store {
        Store {
            number,
            queue: SoftQueue::new(alloc, SOFT_DEPTH, limits).expect(rt, "memory"),
            accepted: Vec::new(alloc),
        }
    }

    /// Its number.
    pub fn number(&self) -> u8 {
        self.number
    }

    /// The bios that went into it.
    pub fn accepted(&self) -> &[Bio] {
        self.accepted.as_slice()
    }

    /// Puts a request into the queue, or says why it doesn't go there.
    fn put(&mut self, rt: &impl Abort, request: Request) -> Option<FlushReason> {
        if let Some(id) = first_foreign(self.number, request.bios()) {
            return Some(FlushReason::Foreign(id));
        }
        if let Some(id) = first_repeated(self.accepted.as_slice(), request.bios()) {
            return Some(FlushReason::Repeated(id));
        }
        let before = self.accepted.len();
        self.accepted
            .extend_from_slice(request.bios())
            .expect(rt, "memory");
        assert!(rt; request.within(&self.queue.limits()));
        if self.queue.put(request).is_err() {
            self.accepted.truncate(before);
            return Some(FlushReason::SoftFull);
        }
        None
    }

    /// Puts a plug's requests into the queue, up to the first that doesn't go there.
    pub fn flush(&mut self, rt: &impl Abort, plug: &mut Plug) -> Result<Flushed, FlushFault> {
        let (requests, before) = (plug.len() as u64, self.accepted.len());
        for _ in 0..requests {
            let Some(request) = plug.take_first() else {
                break;
            };
            if let Some(why) = self.put(rt, request) {
                let left = (plug.len() as u64).saturating_add(1);
                return Err(FlushFault { left, why });
            }
        }
        let bios = self.accepted.len().saturating_sub(before) as u64;
        Ok(Flushed { requests, bios })
    }

    /// Releases all that is in the queue to the core, for the hardware queue of the same number, and answers how many requests
    /// these were.
    pub fn drain(&mut self, rt: &impl Abort, core: &mut Core<NoneSched>) -> u64 {
        for moved in 0..SOFT_DEPTH {
            let Some(request) = self.queue.take_first() else {
                return moved;
            };
            release(rt, core, request, self.number);
        }
        SOFT_DEPTH
    }

    /// Takes all out of the queue; its bios go to the end of what is left.
    pub fn leave(&mut self, rt: &impl Abort, left: &mut Vec<Bio>) {
        for _ in 0..SOFT_DEPTH {
            if let Some(request) = self.queue.take_first() {
                left.extend_from_slice(request.bios()).expect(rt, "memory");
            }
        }
    }
}

/// Releases a request for a hardware queue.
fn release(rt: &impl Abort, core: &mut Core<NoneSched>, request: Request, hw: u8) {
    assert!(rt; request.within(&core.trace().setup().limits()));
    assert!(rt; core.release(request, hw).is_ok());
}

/// The id of the first of the bios that another submitter has named.
fn first_foreign(number: u8, bios: &[Bio]) -> Option<BioId> {
    for bio in bios {
        if bio.id().submitter != number {
            return Some(bio.id());
        }
    }
    None
}

/// The id of the first of the bios that was accepted before, or stands earlier among them.
fn first_repeated(accepted: &[Bio], bios: &[Bio]) -> Option<BioId> {
    for (place, bio) in bios.iter().enumerate() {
        if stands_in(accepted, bio.id()) || stands_in(&bios[..place], bio.id()) {
            return Some(bio.id());
        }
    }
    None
}

/// Whether one of the bios has the id.
fn stands_in(bios: &[Bio], id: BioId) -> bool {
    bios.iter().any(|bio| bio.id() == id)
}
