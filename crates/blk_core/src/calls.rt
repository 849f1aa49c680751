//! The core and its calls: a scheduler beside the trace of what was done with it, where one call is one event.

ghost use Rattle.std.specs.Prelude.{◌≡◌, ◌<◌, ◌+◌, ◌++◌, ◌∷◌, [], List, true, None, OnOk, OnErr, IfSome, IfNone, length};
ghost use Rattle.blk_trace.specs.Happened.{Happened};
ghost use Rattle.blk_trace.specs.declared.event.Event.TheVariants.{Tick as Ticked};
ghost use Rattle.blk_trace.specs.declared.trace.Prepared.{Prepared};
ghost use Rattle.blk_bio.specs.declared.bio.Dir.{Dir as Way};
ghost use Rattle.blk_sched.specs.Meaning.{requeued_of};
ghost use Rattle.blk_queues.specs.Requeued.{requeued_in, requeued_count};
ghost use Rattle.blk_core.specs.State.{is_of};
ghost use Rattle.blk_core.specs.Inside.Calls.{Dispatches};
ghost use Rattle.blk_core.specs.Inside.Ties.{MayPickNone};

use crate::refusals::{BackFault, CoreFault, DepthFault, IssueFault, NotIssued, TickFault};
use crate::tags::{TagState, clear, free_tags, requeue};
use blk_bio::{Dir, MAX_QUEUES, Request, Side};
use blk_queues::RequeueLists;
use blk_sched::{MAX_OPEN, Queued, Scheduler};
use blk_trace::{Event, MAX_EVENTS, Setup, Trace};
use edd_commands::Command;
use std::alloc::{AllocError, Allocator};
use std::marker::Model;

/// Where a released request went.
#[derive(Clone, Copy, Debug, PartialEq, Eq)]
pub enum Placed {
    /// It waits by itself under the id: how many Releases there were before it.
    New(u64),
    /// It joined the request that waits under the id, at the side.
    Joined(u64, Side),
}

/// A scheduler and the trace of what was done with it.
#[derive(Drop)]
pub struct Core<S: Scheduler> {
    /// The scheduler.
    scheduler: S,
    /// What was done with it.
    trace: Trace<S::A>,
    /// How each tag stands.
    tags: Vec<TagState, S::A>,
    /// The requests that were requeued, by the hardware queue that they were issued for.
    requeued: RequeueLists<S::A>,
    /// How many requests were released: the next id.
    released: u64,
}

impl<S: Scheduler> Model for Core<S> {
    ghost use Rattle.std.specs.Prelude.{map};
    ghost use Rattle.blk_core.specs.State.{CoreState, core_code, core_of};
    ghost use Rattle.blk_core.specs.Inside.Ties.{IsTied, flight_of};

    ghost Value = { CoreState };

    ghost coded = { core_code };

    ghost view = { λ c. core_of c.trace (S.meaning c.scheduler) (S.kept c.scheduler) (map flight_of c.tags.items) c.requeued };

    ghost invariant = { λ c. IsTied c.trace.setup c.trace.events (S.meaning c.scheduler) c.tags.items c.requeued c.released };
}

impl<S: Scheduler> Core<S> {
    ghost use Rattle.std.specs.Prelude.{◌≡◌, ◌<◌, ◌+◌, ◌↔◌, [], IfOk, OnOk, IfErr, OnErr, IsOk, IfSome, IfNone, IsTrue};
    ghost use Rattle.blk_bio.specs.Requests.{IsWithin};
    ghost use Rattle.blk_bio.specs.Extents.{extent_of};
    ghost use Rattle.blk_trace.specs.Events.{round_of, IsUsed};
    ghost use Rattle.blk_trace.specs.Legal.{IsLegalTrace};
    ghost use Rattle.blk_trace.specs.Laws.{IsScheduled, IsAccounted};
    ghost use Rattle.blk_trace.specs.Waits.{waiting_count};
    ghost use Rattle.blk_core.specs.State.{HoldsWhatWaits, new_core};
    ghost use Rattle.blk_core.specs.Faults.{IsReleaseFault, CanRelease, IsIssueFault, CanIssue, IsBackFault, IsTickFault, CanTick, IsDepthFault, CanSetDepth, IsInFlight};
    ghost use Rattle.blk_core.specs.Calls.{Places, Issues, Completes, RequeuesTag, Ends, SetsDepth};
    ghost use Rattle.blk_sched.specs.Meaning.{HasCandidate, HasNoCandidate, at_start};

    /// A core without events, over a scheduler in which nothing waits and no pick is open or requeued. Fails only when
    /// memory runs out, and hands the scheduler back then.
    pub fn new(alloc: S::A, setup: Setup, scheduler: S) -> Result<Core<S>, (S, AllocError)>
        requires start { S.meaning scheduler ≡ at_start (S.meaning scheduler).front }
        ensures ok { IfOk result (λ c. c ≡ new_core setup (S.meaning scheduler) (S.kept scheduler)) }
        ensures err { IfErr result (λ e. e.0 ≡ scheduler) }
    {
        let Ok(spare) = alloc.clone() else {
            return Err((scheduler, AllocError));
        };
        let Ok(tags) = free_tags(spare, setup.depth()) else {
            return Err((scheduler, AllocError));
        };
        let Ok(spare) = alloc.clone() else {
            return Err((scheduler, AllocError));
        };
        let Ok(requeue_lists) = RequeueLists::new(spare, setup.hw()) else {
            return Err((scheduler, AllocError));
        };
        match Trace::empty(alloc, setup) {
            Ok(trace) => Ok(Core {
                scheduler,
                trace,
                tags,
                requeued: requeue_lists,
                released: 0,
            }),
            Err(_) => Err((scheduler, AllocError)),
        }
    }

    /// Releases a request for a hardware queue, as Linux's blk-mq inserts into an elevator: it joins the newest request
    /// served for the queue that it fits, or waits by itself under the next id, due when its direction's expiry has passed
    /// from this round. The request must be within the setup's limits: one bio, or no more sectors and bios than they allow.
    ///
    /// Refused, by the first of these that applies: as `NoQueue` where `hw` is not below the number of hardware queues;
    /// as `Repeated` with the id of the first bio, in the order of their sectors, whose id stands in the trace or
    /// earlier in the request; as `TraceFull` where the events, with a Done counted for each command in flight, are [`MAX_EVENTS`]
    /// already; and as `Memory`. The request comes back then, and nothing is changed.
    pub fn release(
        &mut self,
        request: Request<S::A>,
        hw: u8,
    ) -> Result<Placed, (Request<S::A>, CoreFault)>
        requires { IsWithin self.old.setup.limits request }
        ensures placed { IfOk result (λ placed. Places S.policy.serves self.old request hw placed self.new) }
        ensures no_fault { OnOk result (CanRelease self.old request hw) }
        ensures fault { IfErr result (λ e. IsReleaseFault self.old request hw e.1) }
        ensures err { IfErr result (λ e. e.0 ≡ request) }
        ensures same { OnErr result (self.new ≡ self.old) }
    {
        if let Some(why) = self.release_fault(&request, hw) {
            return Err((request, why));
        }
        let limits = self.trace.setup().limits();
        match self.scheduler.candidate(hw, &limits, &request.extent()) {
            Some((id, side)) => self.join(request, hw, id, side),
            None => self.insert(request, hw),
        }
    }

    /// Joins a request that may be released to its candidate. Fails only when memory runs out.
    fn join(
        &mut self,
        request: Request<S::A>,
        hw: u8,
        id: u64,
        side: Side,
    ) -> Result<Placed, (Request<S::A>, CoreFault)>
        requires can { CanRelease self.old request hw }
        requires stands { HasCandidate S.policy.serves hw self.old.setup.limits (extent_of request) self.old.meaning id side }
        ensures placed { IfOk result (λ placed. Places S.policy.serves self.old request hw placed self.new) }
        ensures err { IfErr result (λ e. e ≡ (request, CoreFault.Memory)) }
        ensures same { OnErr result (self.new ≡ self.old) }
    {
        let Ok(()) = prepare_bios(&mut self.trace, &request) else {
            return Err((request, CoreFault::Memory));
        };
        let now = self.trace.round();
        let newcomer = request.extent();
        let Ok(()) = self.scheduler.join(hw, id, side, now, &newcomer) else {
            return Err((request, CoreFault::Memory));
        };
        self.trace.add(Event::Join { id, request });
        Ok(Placed::Joined(id, side))
    }

    /// Inserts a request that may be released and has no candidate, under the next id. Fails only when memory runs out.
    fn insert(
        &mut self,
        request: Request<S::A>,
        hw: u8,
    ) -> Result<Placed, (Request<S::A>, CoreFault)>
        requires can { CanRelease self.old request hw }
        requires within { IsWithin self.old.setup.limits request }
        requires alone { HasNoCandidate S.policy.serves hw self.old.setup.limits (extent_of request) self.old.meaning }
        ensures placed { IfOk result (λ placed. Places S.policy.serves self.old request hw placed self.new) }
        ensures err { IfErr result (λ e. e ≡ (request, CoreFault.Memory)) }
        ensures same { OnErr result (self.new ≡ self.old) }
    {
        let Ok(()) = prepare_bios(&mut self.trace, &request) else {
            return Err((request, CoreFault::Memory));
        };
        let id = self.released;
        let release = self.trace.round();
        let extent = request.extent();
        let due = release + self.trace.setup().expire(extent.dir());
        let queued = Queued {
            id,
            hw,
            release,
            due,
            extent,
        };
        let Ok(()) = self.scheduler.insert(queued) else {
            return Err((request, CoreFault::Memory));
        };
        self.trace.add(Event::Release { id, request });
        self.released += 1;
        Ok(Placed::New(id))
    }

    /// The first reason not to release a request for a hardware queue, memory aside, in the order of [`Core::release`]. There
    /// is none exactly where the request may be released.
    fn release_fault(&self, request: &Request<S::A>, hw: u8) -> Option<CoreFault>
        ensures some { IfSome result (IsReleaseFault self.now request.now hw) }
        ensures none { IfNone result (CanRelease self.now request.now hw) }
    {
        if hw >= self.trace.setup().hw() {
            return Some(CoreFault::NoQueue);
        }
        if let Some(id) = self.trace.first_repeated(request.bios()) {
            return Some(CoreFault::Repeated(id));
        }
        if self.trace.len() + self.trace.unfinished() >= MAX_EVENTS {
            return Some(CoreFault::TraceFull);
        }
        None
    }

    /// Issues a request for a hardware queue, under a tag that was not issued in this round, and answers its command: the
    /// first of those that were requeued from this queue, as Linux's blk-mq sends the list `hctx->dispatch`
    /// first, or, where there is none, the one that the scheduler picks. None, and no event, only where the queue's
    /// requeue list is empty, and a command is in flight, another queue's requeue list isn't empty, or the scheduler
    /// serves nothing for this one.
    ///
    /// Refused, by the first of these that applies: as `NoQueue` where `hw` is not below the number of hardware queues;
    /// as `TagRange` where the tag is not below the depth of this round; as `SlotUsed` where the tag was issued in this
    /// round, whether or not its command is done; as `TraceFull` where the Issue and its Done would make more than
    /// [`MAX_EVENTS`] events, with a Done counted for each command in flight; and as `Memory`. These are looked for before
    /// the scheduler is asked, even where nothing waits, and change nothing.
    pub fn issue(&mut self, hw: u8, tag: u16) -> Result<Option<Command>, IssueFault>
        ensures issued { IfOk result (λ found. Issues S.policy.serves S.policy.chooses self.old hw tag found self.new) }
        ensures no_fault { OnOk result (CanIssue self.old hw tag) }
        ensures fault { IfErr result (IsIssueFault self.old hw tag) }
        ensures same { OnErr result (self.new ≡ self.old) }
    {
        if let Some(why) = self.issue_fault(hw, tag) {
            return Err(why);
        }
        let Ok(()) = prepare(&mut self.trace) else {
            return Err(IssueFault::Memory);
        };
        let now = self.trace.round();
        let Some(queued) = dispatch(&mut self.scheduler, &mut self.requeued, hw, now) else {
            return Ok(None);
        };
        let command = Command {
            id: queued.id,
            release: queued.release,
            due: queued.due,
        };
        self.trace.add(Event::Issue {
            id: command.id,
            tag,
        });
        self.tags[tag as usize] = TagState::InFlight { hw, queued };
        Ok(Some(command))
    }

    /// The first reason not to issue, memory aside.
    fn issue_fault(&self, hw: u8, tag: u16) -> Option<IssueFault>
        ensures some { IfSome result (IsIssueFault self.now hw tag) }
        ensures none { IfNone result (CanIssue self.now hw tag) }
    {
        if hw >= self.trace.setup().hw() {
            return Some(IssueFault::NoQueue);
        }
        if tag as u64 >= self.trace.depth_now() {
            return Some(IssueFault::TagRange);
        }
        if self.is_taken(tag) {
            return Some(IssueFault::SlotUsed);
        }
        if self.trace.len() + self.trace.unfinished() + 2 > MAX_EVENTS {
            return Some(IssueFault::TraceFull);
        }
        None
    }

    /// Whether a tag of the core was issued in this round.
    fn is_taken(&self, tag: u16) -> bool
        requires { tag < self.now.setup.depth }
        ensures { IsTrue result ↔ IsUsed self.now.events tag }
    {
        match self.tags[tag as usize] {
            TagState::Free => false,
            TagState::InFlight { .. } => true,
            TagState::Spent(_) => true,
        }
    }

    /// Completes the command in flight under a tag. Refused exactly where there is none; takes and frees no memory.
    pub fn done(&mut self, tag: u16) -> Result<(), NotIssued>
        ensures done { OnOk result (Completes S.policy.told_done self.old tag self.new) }
        ensures accepted { IsOk result ↔ IsInFlight self.old tag }
        ensures same { OnErr result (self.new ≡ self.old) }
    {
        let slot = tag as usize;
        if slot >= self.tags.len() {
            return Err(NotIssued);
        }
        let TagState::InFlight { hw, queued } = self.tags[slot] else {
            return Err(NotIssued);
        };
        let dir = queued.extent.dir();
        let wait = self.trace.round().saturating_sub(queued.release);
        self.trace.add(Event::Done { tag });
        self.tags[slot] = TagState::Spent(dir);
        self.scheduler.on_done(hw, dir, wait);
        Ok(())
    }

    /// Requeues the command in flight under a tag, since the device was busy, and answers its id. Its request waits in the requeue list of the
    /// hardware queue that it was issued for, behind those requeued before, and is issued from there again, under another
    /// tag or in a later round. This is no completion, and no bio joins the request any more.
    ///
    /// Refused, by the first of these that applies: as `NotIssued` exactly where no command is in flight under the tag;
    /// and as `Memory` where the requeue list can't grow. Nothing is changed then.
    pub fn back(&mut self, tag: u16) -> Result<u64, BackFault>
        ensures back { IfOk result (λ id. RequeuesTag self.old tag id self.new) }
        ensures no_fault { OnOk result (IsInFlight self.old tag) }
        ensures fault { IfErr result (IsBackFault self.old tag) }
        ensures same { OnErr result (self.new ≡ self.old) }
    {
        let slot = tag as usize;
        if slot >= self.tags.len() {
            return Err(BackFault::NotIssued);
        }
        let TagState::InFlight { queued, .. } = self.tags[slot] else {
            return Err(BackFault::NotIssued);
        };
        let (id, dir) = (queued.id, queued.extent.dir());
        let Ok(()) = requeue(&mut self.tags[slot], &mut self.requeued) else {
            return Err(BackFault::Memory);
        };
        self.trace.add(Event::Back { tag });
        self.scheduler.on_requeue(dir);
        Ok(id)
    }

    /// Ends the round, and answers the number of the next one: how many Ticks there are then.
    ///
    /// Refused, by the first of these that applies: as `InFlight` with how many commands are in flight, where some are;
    /// as `TraceFull` where the events are [`MAX_EVENTS`] already; and as `Memory`. Nothing is changed then.
    pub fn tick(&mut self) -> Result<u64, TickFault>
        ensures ended { OnOk result (Ends S.policy.told_tick self.old self.new) }
        ensures round { IfOk result (λ round. round ≡ round_of self.new.events) }
        ensures no_fault { OnOk result (CanTick self.old) }
        ensures fault { IfErr result (IsTickFault self.old) }
        ensures same { OnErr result (self.new ≡ self.old) }
    {
        let unfinished = self.trace.unfinished();
        if unfinished > 0 {
            return Err(TickFault::InFlight(unfinished));
        }
        if self.trace.len() >= MAX_EVENTS {
            return Err(TickFault::TraceFull);
        }
        let bound = self.trace.unused_from() as usize;
        let Ok(()) = prepare(&mut self.trace) else {
            return Err(TickFault::Memory);
        };
        self.trace.add(Event::Tick);
        clear(&mut self.tags, bound);
        let now = self.trace.round();
        self.scheduler.on_tick(now);
        Ok(now)
    }

    /// Sets how many commands the rounds after this one carry, until another depth is set: tags below it are issued in
    /// them. The scheduler hears nothing of it.
    ///
    /// Refused, by the first of these that applies: as `TraceFull` where the events, with an end counted for each command
    /// in flight, are [`MAX_EVENTS`] already; as `DepthRange` where the depth is 0 or above the setup's; and as `Memory`.
    /// Nothing is changed then.
    pub fn set_depth(&mut self, depth: u64) -> Result<(), DepthFault>
        ensures set { OnOk result (SetsDepth self.old depth self.new) }
        ensures no_fault { OnOk result (CanSetDepth self.old depth) }
        ensures fault { IfErr result (IsDepthFault self.old depth) }
        ensures same { OnErr result (self.new ≡ self.old) }
    {
        if self.trace.len() + self.trace.unfinished() >= MAX_EVENTS {
            return Err(DepthFault::TraceFull);
        }
        if depth == 0 || depth > self.trace.setup().depth() {
            return Err(DepthFault::DepthRange);
        }
        let Ok(()) = prepare(&mut self.trace) else {
            return Err(DepthFault::Memory);
        };
        self.trace.add(Event::Depth { depth });
        Ok(())
    }

    /// The events so far, which are legal: the commands that they issue, in the rounds in which they do, are a legal
    /// schedule, and each bio that entered stands once in a command or among the requests that wait. The scheduler and
    /// the requeue lists hold exactly these.
    pub fn trace(&self) -> &Trace<S::A>
        ensures setup { result.now.setup ≡ self.now.setup }
        ensures events { result.now.events ≡ self.now.events }
        ensures legal { IsLegalTrace self.now.setup self.now.events }
        ensures schedule { IsScheduled self.now.setup self.now.events }
        ensures accounted { IsAccounted self.now.events }
        ensures holds { HoldsWhatWaits self.now.setup self.now.events self.now.meaning self.now.requeued }
    {
        &self.trace
    }

    /// How many requests wait, the requeued ones among them.
    pub fn pending(&self) -> u64
        ensures { result ≡ waiting_count self.now.events }
    {
        // Reads nothing: the prover gets the invariant, by which the sum is what waits in the trace.
        let _ = &self.trace;
        let requeued = self.scheduler.requeued(Dir::Read) + self.scheduler.requeued(Dir::Write);
        self.scheduler.pending() + requeued
    }

    /// The events, which are legal, without the scheduler; nothing is prepared in the trace.
    pub fn into_trace(self) -> Trace<S::A>
        ensures setup { result.setup ≡ self.setup }
        ensures events { result.events ≡ self.events }
        ensures unprepared { result.prepared ≡ Prepared.Nothing }
        ensures legal { IsLegalTrace self.setup self.events }
        ensures schedule { IsScheduled self.setup self.events }
        ensures accounted { IsAccounted self.events }
    {
        let Core { trace, .. } = self;
        trace.unprepared()
    }
}

/// Takes the request that is dispatched next for a hardware queue: the first that is requeued for it, whose pick is then open
/// again, or else the scheduler's pick.
fn dispatch<S: Scheduler>(
    scheduler: &mut S,
    lists: &mut RequeueLists<S::A>,
    hw: u8,
    now: u64,
) -> Option<Queued>
    requires queue { hw < MAX_QUEUES }
    requires list { hw < length lists.old }
    requires few { (S.meaning scheduler.old).open_picks.reads + (S.meaning scheduler.old).open_picks.writes < MAX_OPEN }
    requires requeued { (dir : Way) → requeued_of dir (S.meaning scheduler.old).open_picks ≡ requeued_count (is_of dir) lists.old }
    ensures some { IfSome result (λ w. Dispatches S.policy S.meaning S.kept hw now scheduler.old lists.old w scheduler.new lists.new) }
    ensures none { IfNone result (requeued_in lists.old hw ≡ []) }
    ensures chosen { IfNone result (S.policy.chooses (S.kept scheduler.old) (S.meaning scheduler.old) hw now None (S.kept scheduler.old)) }
    ensures waits { IfNone result (MayPickNone S.policy.serves hw (S.meaning scheduler.old)) }
    ensures same { IfNone result ((S.meaning scheduler.new ≡ S.meaning scheduler.old) × (S.kept scheduler.new ≡ S.kept scheduler.old)) }
    ensures same_lists { IfNone result (lists.new ≡ lists.old) }
{
    match lists.take_first(hw) {
        Some(queued) => {
            scheduler.on_reissue(queued.extent.dir());
            Some(queued)
        }
        None => scheduler.pick(hw, now),
    }
}

/// Makes room for a Release or a Join of a request.
#[inline(always)]
fn prepare_bios<A: Allocator + Clone>(
    trace: &mut Trace<A>,
    request: &Request<A>,
) -> Result<(), AllocError>
    ensures ok { OnOk result (trace.new ≡ record trace.old { prepared = Prepared.Bios (length request.now) }) }
    ensures err { OnErr result (trace.new ≡ trace.old) }
{
    trace.prepare(Some(request))
}

/// Makes room for an Issue with its end, or for a Tick or a Depth.
fn prepare<'a, A: Allocator + Clone>(trace: &'a mut Trace<A>) -> Result<(), AllocError>
    ensures ok { OnOk result (trace.new ≡ record trace.old { prepared = Prepared.AnIssue }) }
    ensures err { OnErr result (trace.new ≡ trace.old) }
{
    let request: Option<&'a Request<A>> = None;
    trace.prepare(request)
}
