//! The first rule that an event would break.

ghost use Rattle.std.specs.Prelude.{ℕ, ◌≡◌, ◌<◌, ◌≤◌, ◌+◌, ◌++◌, ◌↔◌, IsTrue, Some, IfSome, IfNone, length};
ghost use Rattle.blk_bio.specs.Requests.{IsRequest};
ghost use Rattle.blk_trace.specs.Happened.{Tick, Release, Join, Issue, Depth};
ghost use Rattle.blk_trace.specs.Kinds.{ends};
ghost use Rattle.blk_trace.specs.Legal.{IsLegalTrace};
ghost use Rattle.blk_trace.specs.Rules.{IsFirstBroken, BreaksNoRule};
ghost use Rattle.blk_trace.specs.Events.{entered, open_count, request_of, IsReleased, AreRequeued, IsOpen, IsUsed, AreOnce, IsFirstRepeatedBio};
ghost use Rattle.blk_trace.specs.Inside.Kept.{known_of, has_bio_id};

use crate::event::Event;
use crate::issued::Outcome;
use crate::known::{Known, Stage};
use crate::trace::{MAX_EVENTS, Trace};
use blk_bio::{Bio, BioId, Request, TraceRule};
use std::alloc::Allocator;

impl<A: Allocator + Clone> Trace<A> {
    /// The first rule that the event would break, if it would break any.
    #[inline(always)]
    pub fn first_broken(&self, event: &Event<Request<A>>) -> Option<TraceRule>
        ensures some { IfSome result (IsFirstBroken self.now.setup self.now.events event.now) }
        ensures none { IfNone result (BreaksNoRule self.now.setup self.now.events event.now) }
        ensures legal { IsLegalTrace self.now.setup self.now.events }
    {
        // brings the prover the trace's invariant
        let _ = &self.round;
        match event {
            Event::Tick => self.broken_tick(),
            Event::Release { id, request } => self.broken_release(*id, request),
            Event::Join { id, request } => self.broken_join(*id, request),
            Event::Issue { id, tag } => self.broken_issue(*id, *tag),
            Event::Done { tag } => self.broken_end(event, *tag),
            Event::Back { tag } => self.broken_end(event, *tag),
            Event::Depth { depth } => self.broken_depth(*depth),
        }
    }

    /// The first rule that a Tick would break.
    fn broken_tick(&self) -> Option<TraceRule>
        ensures some { IfSome result (IsFirstBroken self.now.setup self.now.events Tick) }
        ensures none { IfNone result (BreaksNoRule self.now.setup self.now.events Tick) }
    {
        if self.has_open() {
            Some(TraceRule::InFlight)
        } else if !self.has_places(1) {
            Some(TraceRule::TooLong)
        } else {
            None
        }
    }

    /// The first rule that a Release of the request under the id would break.
    fn broken_release(&self, id: u64, request: &Request<A>) -> Option<TraceRule>
        ensures some { IfSome result (IsFirstBroken self.now.setup self.now.events (Release id request.now)) }
        ensures none { IfNone result (BreaksNoRule self.now.setup self.now.events (Release id request.now)) }
    {
        if self.known_at(id).is_some() {
            Some(TraceRule::ReleasedTwice)
        } else if !self.are_new(request) {
            Some(TraceRule::BioTwice)
        } else if !request.within(&self.setup().limits()) {
            Some(TraceRule::Fit)
        } else if !self.has_places(1) {
            Some(TraceRule::TooLong)
        } else {
            None
        }
    }

    /// The first rule that a Join of the request under the id would break.
    fn broken_join(&self, id: u64, request: &Request<A>) -> Option<TraceRule>
        ensures some { IfSome result (IsFirstBroken self.now.setup self.now.events (Join id request.now)) }
        ensures none { IfNone result (BreaksNoRule self.now.setup self.now.events (Join id request.now)) }
    {
        let Some(known) = self.known_at(id) else {
            return Some(TraceRule::Unknown);
        };
        match known.stage {
            Stage::Waits => {}
            Stage::Gone => return Some(TraceRule::AlreadyIssued),
            Stage::Requeued => return Some(TraceRule::AlreadyIssued),
        }
        if !self.are_new(request) {
            Some(TraceRule::BioTwice)
        } else if known
            .entry
            .joined(request, 0, &self.setup().limits())
            .is_none()
        {
            Some(TraceRule::Fit)
        } else if !self.has_places(1) {
            Some(TraceRule::TooLong)
        } else {
            None
        }
    }

    /// The first rule that an Issue of the id under the tag would break.
    fn broken_issue(&self, id: u64, tag: u16) -> Option<TraceRule>
        ensures some { IfSome result (IsFirstBroken self.now.setup self.now.events (Issue id tag)) }
        ensures none { IfNone result (BreaksNoRule self.now.setup self.now.events (Issue id tag)) }
    {
        let Some(known) = self.known_at(id) else {
            return Some(TraceRule::Unknown);
        };
        match known.stage {
            Stage::Gone => Some(TraceRule::AlreadyIssued),
            Stage::Waits => self.broken_tag(id, tag),
            Stage::Requeued => self.broken_tag(id, tag),
        }
    }

    /// The first rule that an Issue under the tag would break, of a request that waits.
    fn broken_tag(&self, id: u64, tag: u16) -> Option<TraceRule>
        requires released { IsReleased self.now.events id }
        requires waits { AreRequeued self.now.events id }
        ensures some { IfSome result (IsFirstBroken self.now.setup self.now.events (Issue id tag)) }
        ensures none { IfNone result (BreaksNoRule self.now.setup self.now.events (Issue id tag)) }
    {
        if tag as u64 >= self.depth_now() {
            Some(TraceRule::TagRange)
        } else if self.is_used(tag) {
            Some(TraceRule::TagUsed)
        } else if !self.has_places(2) {
            Some(TraceRule::TooLong)
        } else {
            None
        }
    }

    /// The first rule that an event would break that ends the Issue of the tag. It takes the place that the Issue reserved,
    /// so there is one.
    fn broken_end(&self, event: &Event<Request<A>>, tag: u16) -> Option<TraceRule>
        requires { ends event.now ≡ Some tag }
        ensures some { IfSome result (IsFirstBroken self.now.setup self.now.events event.now) }
        ensures none { IfNone result (BreaksNoRule self.now.setup self.now.events event.now) }
    {
        // named in the clauses alone
        let _ = event;
        if tag as u64 >= self.depth() {
            Some(TraceRule::NotIssued)
        } else if self.is_open(tag) {
            None
        } else {
            Some(TraceRule::NotIssued)
        }
    }

    /// The first rule that a Depth would break.
    fn broken_depth(&self, depth: u64) -> Option<TraceRule>
        ensures some { IfSome result (IsFirstBroken self.now.setup self.now.events (Depth depth)) }
        ensures none { IfNone result (BreaksNoRule self.now.setup self.now.events (Depth depth)) }
    {
        let tags = self.depth();
        if !self.has_places(1) {
            Some(TraceRule::TooLong)
        } else if !is_depth(depth, tags) {
            Some(TraceRule::DepthRange)
        } else {
            None
        }
    }

    /// What is kept under the id.
    pub(crate) fn known_at(&self, id: u64) -> Option<Known>
        ensures value { result ≡ known_of self.now.setup self.now.events id }
        ensures legal { IsLegalTrace self.now.setup self.now.events }
        ensures request { IsReleased self.now.events id → IsRequest (request_of self.now.events id) }
    {
        // brings the prover the trace's invariant
        let _ = &self.round;
        self.known.get(id)
    }

    /// How many tags there are.
    fn depth(&self) -> u64
        ensures value { result ≡ self.now.setup.depth }
        ensures legal { IsLegalTrace self.now.setup self.now.events }
    {
        self.setup.depth()
    }

    /// Whether a tag below the depth has an Issue in this round.
    fn is_used(&self, tag: u16) -> bool
        requires { tag < self.now.setup.depth }
        ensures { IsTrue result ↔ IsUsed self.now.events tag }
    {
        match self.tags[tag as usize] {
            Some(place) => self.issued[place].round == self.round,
            None => false,
        }
    }

    /// Whether a tag below the depth has an Issue without an end.
    fn is_open(&self, tag: u16) -> bool
        requires { tag < self.now.setup.depth }
        ensures { IsTrue result ↔ IsOpen self.now.events tag }
    {
        let Some(place) = self.tags[tag as usize] else {
            return false;
        };
        match self.issued[place].outcome {
            Outcome::Flying => true,
            Outcome::Done => false,
            Outcome::Back => false,
        }
    }

    /// Whether a tag has an Issue without an end.
    fn has_open(&self) -> bool
        ensures { IsTrue result ↔ ((tag : ℕ) × IsOpen self.now.events tag) }
    {
        self.open > 0
    }

    /// Whether there are places for that number of events more, with an end counted for each open Issue.
    fn has_places(&self, places: u64) -> bool
        requires { places ≤ 2 }
        ensures { IsTrue result ↔ (length self.now.events + open_count self.now.events + places ≤ MAX_EVENTS) }
    {
        self.events.len() as u64 + self.open + places <= MAX_EVENTS
    }

    /// Whether no bio of the request has the id of one that entered, or of another of the request.
    fn are_new(&self, request: &Request<A>) -> bool
        ensures { IsTrue result ↔ AreOnce (entered self.now.events ++ request.now) }
    {
        self.first_repeated(request.bios()).is_none()
    }

    /// The id of the first of the bios, in their order, that has the id of one that entered or of one before it. None
    /// exactly where there is no such.
    #[inline(always)]
    pub fn first_repeated(&self, bios: &[Bio]) -> Option<BioId>
        ensures some { IfSome result (IsFirstRepeatedBio (entered self.now.events) bios.now) }
        ensures none { IfNone result (AreOnce (entered self.now.events ++ bios.now)) }
    {
        // brings the prover the trace's invariant
        let _ = &self.round;
        for (place, bio) in bios.iter().enumerate() {
            let id = bio.id();
            if self.has_bio(id) || has_id(&bios[..place], id) {
                return Some(id);
            }
        }
        None
    }
}

/// Whether a round may carry this many commands, given how many tags there are.
fn is_depth(depth: u64, tags: u64) -> bool
    ensures { IsTrue result ↔ ((0 < depth) × (depth ≤ tags)) }
{
    0 < depth && depth <= tags
}

/// Whether one of the bios has the id.
fn has_id(bios: &[Bio], id: BioId) -> bool
    ensures { result ≡ has_bio_id bios.now id }
{
    bios.iter().any(|bio| bio.id() == id)
}
