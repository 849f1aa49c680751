//! A list of events that is legal, with a setup.

ghost use Rattle.std.specs.Prelude.{ℕ, ◌≡◌, ◌≢◌, ◌↔◌, ◌++◌, ◌+◌, ◌≤◌, ◌<◌, ◌∷◌, [], IsTrue, IfSome, IfNone, IfOk, IfErr, OnOk, OnErr, option_map, length, slice_get};
ghost use Rattle.blk_bio.specs.Requests.{IsRequest};
ghost use Rattle.std.specs.Option.{option_copied};
ghost use Rattle.blk_trace.specs.Legal.{IsLegalTrace};
ghost use Rattle.blk_trace.specs.Rules.{BreaksNoRule};
ghost use Rattle.blk_trace.specs.Events.{round_of, open_count, request_of, IsReleased, IsIssued, IsUsed};
ghost use Rattle.blk_trace.specs.Waits.{entered_at, summary, waits_at};
ghost use Rattle.blk_trace.specs.Depths.{depth_now};
ghost use Rattle.blk_trace.specs.declared.issued.Issued.{Issued};
ghost use Rattle.blk_trace.specs.Issues.{issues_of};
ghost use Rattle.blk_trace.specs.Traces.{wanted, IsPreparedFor, IsPushAnswer, IsLegallyExtended, LacksOnlyMemory, HasBio, prepared_for};
ghost use Rattle.blk_trace.specs.Inside.Kept.{IsReadyFor};

use crate::event::Event;
use crate::issued::Issued;
use crate::known::{Entry, Known, Stage};
use crate::rule::PushFault;
use crate::setup::Setup;
use blk_bio::{BioId, Request};
use blk_ids::{ById, IdSet};
use std::alloc::{AllocError, Allocator, Global};
use std::marker::Model;

mod adding;
mod checking;
mod depths;
mod reading;
mod waiting;

/// The most events of a trace, with an end counted for each open Issue.
pub const MAX_EVENTS: u64 = 1_000_000;

/// What the next push was given room for.
#[derive(Clone, Copy, Debug, PartialEq, Eq)]
pub enum Prepared {
    /// No event but a Done or a Back.
    Nothing,
    /// An Issue, a Tick or a Depth.
    AnIssue,
    /// A Release or a Join of as many bios.
    Bios(u64),
}

/// A legal list of events.
#[derive(Drop)]
pub struct Trace<A: Allocator = Global> {
    /// What it is made for.
    setup: Setup,
    /// The events, with places for the ends of the open Issues.
    events: Vec<Event<Request<A>>, A>,
    /// The Issues.
    issued: Vec<Issued, A>,
    /// What is kept of each request that was released.
    known: ById<Known, A>,
    /// The ids of the bios that entered.
    ids: IdSet<A>,
    /// The place among the Issues of the last one under each tag.
    tags: Vec<Option<usize>, A>,
    /// Tags from this one on had no Issue in the current round.
    unused_from: usize,
    /// The current round.
    round: u64,
    /// How many commands it carries.
    depth: u64,
    /// How many the next round carries, as things stand.
    next_depth: u64,
    /// How many Issues are open.
    open: u64,
    /// What the next event was given room for.
    prepared: Prepared,
}

impl<A: Allocator> Model for Trace<A> {
    ghost use Rattle.blk_trace.specs.Traces.{Traced};

    ghost Value = { Traced };

    ghost use Rattle.blk_trace.specs.Inside.Fields.{AreKeptFields};

    ghost view = { λ t. record { setup = t.setup; events = t.events.items; prepared = t.prepared } };

    ghost invariant = { λ t. AreKeptFields t };
}

impl<A: Allocator + Clone> Trace<A> {
    /// A trace without events. Fails only when out of memory.
    pub fn empty(alloc: A, setup: Setup) -> Result<Trace<A>, AllocError>
        ensures { IfOk result (λ t. t ≡ record { setup = setup; events = []; prepared = Prepared.Nothing }) }
    {
        let events = Vec::new(alloc.clone()?);
        let issued = Vec::new(alloc.clone()?);
        let known = ById::new(alloc.clone()?)?;
        let ids = IdSet::new(alloc.clone()?)?;
        let depth = setup.depth();
        let mut tags = Vec::new(alloc);
        tags.resize(depth as usize, None)?;
        Ok(Trace {
            setup,
            events,
            issued,
            known,
            ids,
            tags,
            unused_from: 0,
            round: 0,
            depth,
            next_depth: depth,
            open: 0,
            prepared: Prepared::Nothing,
        })
    }

    /// Adds the event, where it breaks no rule and there is memory for it. A refused event comes back, with the first
    /// rule that it breaks, or `Memory` where it breaks none; the trace is then as it was.
    ///
    /// Adding a Done or a Back takes no memory, since its Issue reserved the place; nor does adding what was prepared.
    #[inline(always)]
    pub fn push(&mut self, event: Event<Request<A>>) -> Result<(), (Event<Request<A>>, PushFault)>
        ensures answer { IsPushAnswer self.old event self.new result }
        ensures ok { OnOk result (IsLegallyExtended self.old event self.new) }
        ensures err { IfErr result (λ e. (e.0 ≡ event) × (self.new ≡ self.old)) }
        ensures accepts { BreaksNoRule self.old.setup self.old.events event → LacksOnlyMemory result }
        ensures accepts_legal { IsLegalTrace self.old.setup (self.old.events ++ event ∷ []) → LacksOnlyMemory result }
        ensures prepared { IfErr result (λ e. e.1 ≡ PushFault.Memory → IsPreparedFor self.old.prepared event → ⊥) }
    {
        if let Some(rule) = self.first_broken(&event) {
            return Err((event, PushFault::Rule(rule)));
        }
        if self.prepare_for(&event).is_err() {
            return Err((event, PushFault::Memory));
        }
        self.add(event);
        Ok(())
    }

    /// Makes room for the event, where it was not made before.
    #[inline(always)]
    fn prepare_for(&mut self, event: &Event<Request<A>>) -> Result<(), AllocError>
        ensures ok { OnOk result (IsReadyFor event.now self.old self.new) }
        ensures err { OnErr result ((self.new ≡ self.old) × (IsPreparedFor self.old.prepared event.now → ⊥)) }
    {
        if event.ends().is_some() {
            return Ok(());
        }
        self.make_room(match event.enters() {
            None => Prepared::AnIssue,
            Some((_, request)) => Prepared::Bios(request.bios().len() as u64),
        })
    }

    /// Makes room for the next push: of a Release or a Join of a request of as many bios, or of an Issue (or a
    /// Tick or a Depth) where none is given. Fails only when out of memory.
    #[inline(always)]
    pub fn prepare(&mut self, request: Option<&Request<A>>) -> Result<(), AllocError>
        ensures ok { OnOk result (self.new ≡ prepared_for self.old (wanted (option_copied request.entry))) }
        ensures err { OnErr result (self.new ≡ self.old) }
    {
        self.make_room(match request {
            None => Prepared::AnIssue,
            Some(request) => Prepared::Bios(request.bios().len() as u64),
        })
    }

    /// The trace with nothing prepared.
    pub fn unprepared(mut self) -> Trace<A>
        ensures { result ≡ prepared_for self Prepared.Nothing }
    {
        self.prepared = Prepared::Nothing;
        self
    }

    /// Makes room for what is wanted, where it was not made before.
    #[inline(always)]
    fn make_room(&mut self, wanted: Prepared) -> Result<(), AllocError>
        ensures ok { OnOk result (self.new ≡ prepared_for self.old wanted) }
        ensures err { OnErr result ((self.new ≡ self.old) × (self.old.prepared ≢ wanted)) }
    {
        if self.prepared == wanted {
            return Ok(());
        }
        match wanted {
            Prepared::Nothing => {
                self.prepared = wanted;
                Ok(())
            }
            Prepared::AnIssue => self.make_room_to_issue(),
            Prepared::Bios(n) => self.make_room_for_bios(n),
        }
    }

    /// Makes room for an Issue with its end, or for a Tick or a Depth.
    fn make_room_to_issue(&mut self) -> Result<(), AllocError>
        ensures ok { OnOk result (self.new ≡ prepared_for self.old Prepared.AnIssue) }
        ensures err { OnErr result (self.new ≡ self.old) }
    {
        self.events.reserve(self.open as usize + 2)?;
        self.issued.reserve(1)?;
        self.prepared = Prepared::AnIssue;
        Ok(())
    }

    /// Makes room for a Release or a Join of as many bios.
    #[inline(always)]
    fn make_room_for_bios(&mut self, bios: u64) -> Result<(), AllocError>
        ensures ok { OnOk result (self.new ≡ prepared_for self.old (Prepared.Bios bios)) }
        ensures err { OnErr result (self.new ≡ self.old) }
    {
        self.events.reserve(self.open as usize + 1)?;
        self.known.make_room()?;
        self.ids.make_room(bios as usize)?;
        self.prepared = Prepared::Bios(bios);
        Ok(())
    }

    /// Whether a bio of this id was released or joined.
    pub fn has_bio(&self, id: BioId) -> bool
        ensures { IsTrue result ↔ HasBio self.now.events id }
    {
        // brings the prover the trace's invariant
        let _ = &self.round;
        self.ids.contains(id.submitter, id.serial)
    }

    /// The request that was released under the id, as its Release and Joins made it, whether it waits or was issued.
    pub fn request(&self, id: u64) -> Option<Entry>
        ensures some { IfSome result (λ e. IsReleased self.now.events id × (e ≡ summary (entered_at self.now.setup self.now.events id))) }
        ensures none { IfNone result (IsReleased self.now.events id → ⊥) }
        ensures issued { IsIssued self.now.events id → IsReleased self.now.events id }
        ensures is_request { IsReleased self.now.events id → IsRequest (request_of self.now.events id) }
    {
        let Some(known) = self.known_at(id) else {
            return None;
        };
        Some(known.entry)
    }

    /// The request that waits under the id, as its Release and Joins made it: it was not issued, or was requeued.
    pub fn waiting_at(&self, id: u64) -> Option<Entry>
        ensures { result ≡ option_map summary (waits_at self.now.setup self.now.events id) }
    {
        let Some(known) = self.known_at(id) else {
            return None;
        };
        match known.stage {
            Stage::Gone => None,
            Stage::Waits => Some(known.entry),
            Stage::Requeued => Some(known.entry),
        }
    }

    /// What the trace is made for.
    pub fn setup(&self) -> Setup
        ensures { result ≡ self.now.setup }
    {
        self.setup
    }

    /// The events, which are legal.
    pub fn events(&self) -> &[Event<Request<A>>]
        ensures events { result.now ≡ self.now.events }
        ensures legal { IsLegalTrace self.now.setup self.now.events }
    {
        self.events.as_slice()
    }

    /// The Issues in their order, each with what became of it.
    pub fn issues(&self) -> &[Issued]
        ensures issues { result.now ≡ issues_of self.now.events }
        ensures few { length result.now ≤ MAX_EVENTS }
        ensures each { (k : ℕ) (i : Issued) → slice_get result.now k ≡ Some i → IsIssued self.now.events i.id × (i.round ≤ MAX_EVENTS) }
    {
        self.issued.as_slice()
    }

    /// How many events there are.
    pub fn len(&self) -> u64
        ensures value { result ≡ length self.now.events }
        ensures few { result ≤ MAX_EVENTS }
    {
        self.events.len() as u64
    }

    /// The current round: how many Ticks there are.
    pub fn round(&self) -> u64
        ensures value { result ≡ round_of self.now.events }
        ensures few { result ≤ MAX_EVENTS }
    {
        self.round
    }

    /// How many commands the current round carries: as many as the last Depth of a round before it sets, or as there are
    /// tags where there is none.
    pub fn depth_now(&self) -> u64
        ensures value { result ≡ depth_now self.now.setup self.now.events }
        ensures some { 0 < result }
        ensures few { result ≤ self.now.setup.depth }
        ensures legal { IsLegalTrace self.now.setup self.now.events }
    {
        self.depth
    }

    /// The tag after the greatest one that was issued in the current round, or 0 where none was.
    pub fn unused_from(&self) -> u64
        ensures few { result ≤ self.now.setup.depth }
        ensures unused { (tag : ℕ) → result ≤ tag → tag < self.now.setup.depth → IsUsed self.now.events tag → ⊥ }
        ensures used { (tag : ℕ) → result ≡ tag + 1 → IsUsed self.now.events tag }
    {
        self.unused_from as u64
    }

    /// How many Issues have no Done and no Back yet.
    pub fn unfinished(&self) -> u64
        ensures value { result ≡ open_count self.now.events }
        ensures few { result + length self.now.events ≤ MAX_EVENTS }
    {
        self.open
    }
}
