//! How a layer is closed: its accounts are settled, once and for all.

ghost use Rattle.std.specs.Prelude.{ℕ, false, ◌≡◌, ◌<◌, ◌++◌, ◌↔◌, [], List, IsTrue, IfOk, IfErr, OnOk, IfSome, IfNone, Some, IsPermutation, length, slice_get};
ghost use Rattle.std.specs.List.Sorted.{IsSorted};
ghost use Rattle.blk_bio.specs.Bios.{Bio as Transfer};
ghost use Rattle.blk_trace.specs.Events.{AreOnce, HasId, IsIssued, IsReleased};
ghost use Rattle.blk_trace.specs.Kinds.{releases};
ghost use Rattle.blk_core.specs.Runs.{IsRunFrom};
ghost use Rattle.blk_layer.specs.Rounds.{EndsFullRounds};
ghost use Rattle.blk_layer.specs.Runs.{IsLayerRun};
ghost use Rattle.blk_layer.specs.Names.{close_told};
ghost use Rattle.blk_layer.specs.Seats.{SubmitterSeat};
ghost use Rattle.blk_layer.specs.Closing.{AreAllThere, HasNumber, all_accepted, all_ran, issued_bios, command_done, done_commands, done_count, AreSettled, AreCounted, IsBioOf, DiffersAsCommand, Disagrees, IsCloseRefusal};
ghost use Rattle.blk_layer.specs.Inside.Closing.{IsAccountOf};
ghost use Rattle.blk_layer.specs.Inside.Closing.{AllDiffer, all_left, IsExtra, HasEach, DiffersIn, DiffersInCommand};

use crate::checking::{Unchecked, are_over, check_one, is_checked_off};
use crate::layer::{Layer, MAX_WORKERS, Named};
use crate::locked::LockedQueue;
use crate::seats::{Submitter, Worker};
use blk_bio::{Bio, BioId, Request};
use blk_core::Core;
use blk_queues::SoftQueue;
use blk_sched::Scheduler;
use blk_trace::{Entry, Event, Issued, Outcome, Trace};
use edd_commands::{Command, Fault, Told, told};
use std::alloc::{AllocError, Allocator, Global};
use std::cmp::Ordering;
use std::sync::Mutex;
use thiserror::Error;

/// Why a layer is not closed, in the order in which the reasons are looked for.
#[derive(Clone, Copy, Debug, PartialEq, Eq, Error)]
#[error("{}", self.name())]
pub enum CloseFault {
    /// A submitter or a worker of the layer isn't there.
    SeatMissing,
    /// Memory ran out.
    Memory,
}

impl Fault for CloseFault {
    ghost told = { close_told };

    fn told(&self) -> Told {
        told!(self: CloseFault { SeatMissing, Memory => Memory })
    }
}

/// What a closed layer leaves.
#[derive(Drop)]
pub struct Closed<A: Allocator = Global> {
    /// What the layer did.
    pub trace: Trace<A>,
    /// The bios that were accepted and are neither done nor in flight: those of the software queues by rising number, and then
    /// those that wait in the trace.
    pub left: Vec<Bio, A>,
}

/// A layer that was not closed, or whose accounts disagree.
#[derive(Drop)]
pub enum CloseRefused<S: Scheduler, L: Named> {
    /// All comes back as it was.
    Whole {
        /// Why.
        fault: CloseFault,
        /// The layer.
        layer: Layer<S, L>,
        /// The submitters.
        submitters: Vec<Submitter<L, S::A>, S::A>,
        /// The workers.
        workers: Vec<Worker<L, S::A>, S::A>,
    },
    /// The accounts disagree; the layer is spent.
    Differs {
        /// A bio on which they disagree: it was not accepted as often as it was issued and is left, or its command
        /// stands in the workers' accounts more or less often than it was done.
        bio: BioId,
        /// What the layer leaves.
        closed: Closed<S::A>,
        /// The submitters.
        submitters: Vec<Submitter<L, S::A>, S::A>,
        /// The workers.
        workers: Vec<Worker<L, S::A>, S::A>,
    },
}

/// What is left of a layer, and a bio on which its accounts disagree, if they do.
#[derive(Drop)]
struct Settlement<A: Allocator> {
    left: Vec<Bio, A>,
    differs: Option<BioId>,
}

impl<S: Scheduler, L: Named> Layer<S, L> {
    /// Closes the layer, and settles the accounts of its seats, which all come back to it, in any order.
    ///
    /// Ok where they agree: the bios that were accepted are those of the issued requests and those that are left, each once, and the
    /// commands that the workers ran are those that are done. Refused as `Whole`, and all comes back: as `SeatMissing` where
    /// a seat of the layer isn't there, and as `Memory`. Refused as `Differs` where the accounts disagree on a bio; the layer
    /// is spent then. The trace is one that the policy of its scheduler makes, with each request released for the hardware queue of its submitter
    /// and each command issued for that of a worker; and each round of it was full as it ended, unless rounds may be ended by hand.
    pub fn close(
        self,
        alloc: S::A,
        submitters: Vec<Submitter<L, S::A>, S::A>,
        workers: Vec<Worker<L, S::A>, S::A>,
    ) -> Result<Closed<S::A>, CloseRefused<S, L>>
        requires parts { L.parts ≡ MAX_WORKERS }
        ensures there { OnOk result (AreAllThere self.map self.workers submitters.items workers.items) }
        ensures setup { IfOk result (λ c. c.trace.setup ≡ L.setup) }
        ensures ran { IfOk result (λ c. IsRunFrom S.policy L.start c.trace.events) }
        ensures routed { IfOk result (λ c. IsLayerRun S.policy L.map L.queues L.start c.trace.events) }
        ensures full { IfOk result (λ c. L.by_hand ≡ false → EndsFullRounds c.trace.setup c.trace.events) }
        ensures settled { IfOk result (λ c. AreSettled L.setup c.trace.events c.left.items submitters.items workers.items) }
        ensures once { IfOk result (λ c. AreOnce (issued_bios c.trace.events ++ c.left.items)) }
        ensures counted { IfOk result (λ c. AreCounted c.trace.events c.left.items workers.items) }
        ensures refused { IfErr result (IsCloseRefusal L.setup self submitters.items workers.items) }
    {
        if !self.are_all_there(submitters.as_slice(), workers.as_slice()) {
            return Err(CloseRefused::Whole {
                fault: CloseFault::SeatMissing,
                layer: self,
                submitters,
                workers,
            });
        }
        self.close_all(alloc, submitters, workers)
    }

    /// Closes a layer whose seats are all there.
    fn close_all(
        self,
        alloc: S::A,
        submitters: Vec<Submitter<L, S::A>, S::A>,
        mut workers: Vec<Worker<L, S::A>, S::A>,
    ) -> Result<Closed<S::A>, CloseRefused<S, L>>
        requires parts { L.parts ≡ MAX_WORKERS }
        requires there { AreAllThere self.map self.workers submitters.items workers.items }
        ensures setup { IfOk result (λ c. c.trace.setup ≡ L.setup) }
        ensures ran { IfOk result (λ c. IsRunFrom S.policy L.start c.trace.events) }
        ensures routed { IfOk result (λ c. IsLayerRun S.policy L.map L.queues L.start c.trace.events) }
        ensures full { IfOk result (λ c. L.by_hand ≡ false → EndsFullRounds c.trace.setup c.trace.events) }
        ensures settled { IfOk result (λ c. AreSettled L.setup c.trace.events c.left.items submitters.items workers.items) }
        ensures once { IfOk result (λ c. AreOnce (issued_bios c.trace.events ++ c.left.items)) }
        ensures counted { IfOk result (λ c. AreCounted c.trace.events c.left.items workers.items) }
        ensures refused { IfErr result (IsCloseRefusal L.setup self submitters.items workers.items) }
    {
        let Layer {
            core: locked,
            mut queues,
            map,
            tags,
            workers: count,
            finishing,
        } = self;
        let mut locked = locked.into_inner();
        locked.audit(workers.as_mut_slice());
        let settled = settle(
            &alloc,
            &locked.core,
            queues.as_mut_slice(),
            submitters.as_slice(),
            workers.as_slice(),
        );
        let Ok(Settlement { left, differs }) = settled else {
            return Err(CloseRefused::Whole {
                fault: CloseFault::Memory,
                layer: Layer {
                    core: Mutex::new(locked),
                    queues,
                    map,
                    tags,
                    workers: count,
                    finishing,
                },
                submitters,
                workers,
            });
        };
        let trace = locked.into_trace();
        let closed = Closed { trace, left };
        match differs {
            None => Ok(closed),
            Some(bio) => Err(CloseRefused::Differs {
                bio,
                closed,
                submitters,
                workers,
            }),
        }
    }

    /// Whether all seats of the layer are there.
    fn are_all_there(&self, submitters: &[Submitter<L, S::A>], workers: &[Worker<L, S::A>]) -> bool
        ensures { IsTrue result ↔ AreAllThere self.now.map self.now.workers submitters.now workers.now }
    {
        if submitters.len() != self.map.soft_count() {
            return false;
        }
        if !has_each(submitters, submitters.len()) {
            return false;
        }
        workers.len() == self.workers
    }
}

/// Whether each number below the count is that of a submitter.
fn has_each<L: Named, A: Allocator + Clone>(submitters: &[Submitter<L, A>], count: usize) -> bool
    ensures { IsTrue result ↔ ((k : ℕ) → k < count → HasNumber submitters.now k) }
{
    for number in 0..count {
        if !is_there(submitters, number) {
            return false;
        }
    }
    true
}

/// Whether a submitter has the number.
fn is_there<L: Named, A: Allocator + Clone>(submitters: &[Submitter<L, A>], number: usize) -> bool
    ensures { IsTrue result ↔ HasNumber submitters.now number }
{
    for submitter in submitters {
        if usize::from(submitter.number()) == number {
            return true;
        }
    }
    false
}

/// What is left of a layer, and whether its accounts disagree. The workers' accounts have as many commands as are done. Fails
/// only when memory runs out.
fn settle<S: Scheduler, L: Named>(
    alloc: &S::A,
    core: &Core<S>,
    queues: &mut [Mutex<LockedQueue<L, S::A>>],
    submitters: &[Submitter<L, S::A>],
    workers: &[Worker<L, S::A>],
) -> Result<Settlement<S::A>, AllocError>
    requires counted { length (all_ran workers.now) ≡ done_count core.now.events }
    ensures counted { IfOk result (λ s. AreCounted core.now.events s.left.items workers.now) }
    ensures none { IfOk result (λ s. IfNone s.differs (AreSettled core.now.setup core.now.events s.left.items submitters.now workers.now)) }
    ensures once { IfOk result (λ s. IfNone s.differs (AllDiffer submitters.now → AreOnce (issued_bios core.now.events ++ s.left.items))) }
    ensures some { IfOk result (λ s. IfSome s.differs (Disagrees core.now.setup core.now.events s.left.items submitters.now workers.now)) }
{
    let trace = core.trace();
    let mut left = queued(alloc.clone()?, queues)?;
    let mut stored = trace.entered()?;
    stored.extend_from_slice(left.as_slice())?;
    let waiting = trace.waiting()?;
    left.extend_from_slice(waiting.as_slice())?;
    if let Some(bio) = unaccounted_bio(alloc, submitters, stored)? {
        return Ok(Settlement {
            left,
            differs: Some(bio),
        });
    }
    let differs = command_bio(alloc, trace, workers)?;
    Ok(Settlement { left, differs })
}

/// A bio of a command that stands in the workers' accounts more or less often than it was done. The accounts have as many
/// commands as are done. Where each has its own in the order of their Issues, these are gone over once. Fails only when memory runs out.
fn command_bio<L: Named, A: Allocator + Clone>(
    alloc: &A,
    trace: &Trace<A>,
    workers: &[Worker<L, A>],
) -> Result<Option<BioId>, AllocError>
    requires { length (all_ran workers.now) ≡ done_count trace.now.events }
    ensures some { IfOk result (λ f. IfSome f (DiffersAsCommand trace.now.setup trace.now.events workers.now)) }
    ensures none { IfOk result (λ f. IfNone f (IsPermutation (all_ran workers.now) (done_commands trace.now.setup trace.now.events))) }
{
    if are_done(trace, commands_by_seat(alloc, workers)?) {
        return Ok(None);
    }
    let events = trace.events();
    let done = done(alloc, trace)?;
    let ran = ran(alloc.clone()?, workers)?;
    match differing_command(done, ran) {
        Some(command) => Ok(Some(bio_of(events, command.id))),
        None => Ok(None),
    }
}

/// A bio that stands in the submitters' accounts more or less often than in the list. Where the list has the bios of each in the order of
/// its account, as a layer's has, it is gone over once. Fails only when memory runs out.
fn unaccounted_bio<L: Named, A: Allocator + Clone>(
    alloc: &A,
    submitters: &[Submitter<L, A>],
    stored: Vec<Bio, A>,
) -> Result<Option<BioId>, AllocError>
    ensures some { IfOk result (λ found. IfSome found (DiffersIn (all_accepted submitters.now) stored.items)) }
    ensures none { IfOk result (λ found. IfNone found (IsPermutation (all_accepted submitters.now) stored.items)) }
    ensures each { OnOk result ((k : ℕ) (s : SubmitterSeat) → slice_get submitters.now k ≡ Some s → IsAccountOf s) }
{
    if is_checked_off(bios_by_seat(alloc, submitters)?, stored.as_slice()) {
        return Ok(None);
    }
    let accepted = accepted(alloc.clone()?, submitters)?;
    Ok(differing_bio(accepted, stored))
}

/// Whether the accounts have the commands of a trace that are done and no others, each account its own in the order of their Issues.
fn are_done<'a, A: Allocator + Clone>(
    trace: &Trace<A>,
    mut accounts: Vec<Unchecked<'a, Command>, A>,
) -> bool
    ensures { IsTrue result → IsPermutation (all_left accounts.entry.items) (done_commands trace.now.setup trace.now.events) }
{
    let mut from = 0;
    for issue in trace.issues() {
        if let Some(command) = command_done(trace, issue) {
            match check_one(accounts.as_mut_slice(), from, &command) {
                Some(place) => from = place,
                None => return false,
            }
        }
    }
    are_over(accounts.as_slice())
}

/// The bios that each submitter has in its account.
fn bios_by_seat<'a, L: Named, A: Allocator + Clone>(
    alloc: &A,
    submitters: &'a [Submitter<L, A>],
) -> Result<Vec<Unchecked<'a, Bio>, A>, AllocError>
    ensures list { IfOk result (λ v. all_left v.items ≡ all_accepted submitters.now) }
    ensures each { OnOk result ((k : ℕ) (s : SubmitterSeat) → slice_get submitters.now k ≡ Some s → IsAccountOf s) }
{
    let mut accounts = Vec::new(alloc.clone()?);
    for submitter in submitters {
        accounts.push(Unchecked::of(submitter.accepted()))?;
    }
    Ok(accounts)
}

/// The commands that each worker has in its account.
fn commands_by_seat<'a, L: Named, A: Allocator + Clone>(
    alloc: &A,
    workers: &'a [Worker<L, A>],
) -> Result<Vec<Unchecked<'a, Command>, A>, AllocError>
    ensures { IfOk result (λ v. all_left v.items ≡ all_ran workers.now) }
{
    let mut accounts = Vec::new(alloc.clone()?);
    for worker in workers {
        accounts.push(Unchecked::of(worker.ran()))?;
    }
    Ok(accounts)
}

/// The bios that the submitters have in their accounts.
#[tactic(auto, using(crate::proofs::Gathered::accepted_more, crate::proofs::Gathered::no_accepted))]
fn accepted<L: Named, A: Allocator + Clone>(
    alloc: A,
    submitters: &[Submitter<L, A>],
) -> Result<Vec<Bio, A>, AllocError>
    ensures { IfOk result (λ v. v.items ≡ all_accepted submitters.now) }
{
    let mut bios = Vec::new(alloc);
    for submitter in submitters {
        bios.extend_from_slice(submitter.accepted())?;
    }
    Ok(bios)
}

/// The commands that the workers have in their accounts.
#[tactic(auto, using(crate::proofs::Gathered::ran_more, crate::proofs::Gathered::no_ran))]
fn ran<L: Named, A: Allocator + Clone>(
    alloc: A,
    workers: &[Worker<L, A>],
) -> Result<Vec<Command, A>, AllocError>
    ensures { IfOk result (λ v. v.items ≡ all_ran workers.now) }
{
    let mut commands = Vec::new(alloc);
    for worker in workers {
        commands.extend_from_slice(worker.ran())?;
    }
    Ok(commands)
}

/// The bios in the software queues, by rising number, and in each by request.
fn queued<L: Named, A: Allocator + Clone>(
    alloc: A,
    queues: &mut [Mutex<LockedQueue<L, A>>],
) -> Result<Vec<Bio, A>, AllocError> {
    let mut bios = Vec::new(alloc);
    for queue in queues.iter_mut() {
        add_queued(&mut bios, &queue.get_mut().queue)?;
    }
    Ok(bios)
}

/// Adds the bios of a software queue to a list.
fn add_queued<A: Allocator + Clone>(
    bios: &mut Vec<Bio, A>,
    queue: &SoftQueue<A>,
) -> Result<(), AllocError> {
    for place in 0..queue.len() {
        if let Some(request) = queue.get(place) {
            bios.extend_from_slice(request.bios())?;
        }
    }
    Ok(())
}

/// The command of an Issue, if it has completed.
fn command_done<A: Allocator + Clone>(trace: &Trace<A>, issue: &Issued) -> Option<Command>
    requires { IsIssued trace.now.events issue.now.id }
    ensures { result ≡ command_done trace.now.setup trace.now.events issue.now }
{
    match issue.outcome {
        Outcome::Done => {}
        Outcome::Flying | Outcome::Back => return None,
    }
    let Some(Entry { release, due, .. }) = trace.request(issue.id) else {
        unreachable!()
    };
    Some(Command {
        id: issue.id,
        release,
        due,
    })
}

/// The commands of a trace that are done, in the order of their Issues.
fn done<A: Allocator + Clone>(alloc: &A, trace: &Trace<A>) -> Result<Vec<Command, A>, AllocError>
    ensures { IfOk result (λ v. v.items ≡ done_commands trace.now.setup trace.now.events) }
{
    let mut commands = Vec::new(alloc.clone()?);
    for issue in trace.issues() {
        if let Some(command) = command_done(trace, issue) {
            commands.push(command)?;
        }
    }
    Ok(commands)
}

/// A bio of the request that was released under an id.
fn bio_of<A: Allocator + Clone>(events: &[Event<Request<A>>], id: u64) -> BioId
    requires { IsReleased events.now id }
    ensures { IsBioOf events.now id result }
{
    for event in events {
        if let Some(bio) = released_as(event, id) {
            return bio;
        }
    }
    unreachable!()
}

/// The first bio that an event releases under an id.
fn released_as<A: Allocator + Clone>(event: &Event<Request<A>>, id: u64) -> Option<BioId>
    ensures some { IfSome result (λ bio. (q : List Transfer) × (releases event.now ≡ Some (id, q)) × HasId q bio) }
    ensures none { IfNone result ((q : List Transfer) → releases event.now ≡ Some (id, q) → ⊥) }
{
    let Some((released, request)) = event.releases() else {
        return None;
    };
    if released != id {
        return None;
    }
    Some(request.bios()[0].id())
}

/// The id of a bio that stands in the one list more or less often than in the other.
fn differing_bio<A: Allocator>(mut accepted: Vec<Bio, A>, mut stored: Vec<Bio, A>) -> Option<BioId>
    ensures some { IfSome result (DiffersIn accepted.items stored.items) }
    ensures none { IfNone result (IsPermutation accepted.items stored.items) }
{
    accepted.sort_unstable();
    stored.sort_unstable();
    if let Some(bio) = first_extra(accepted.as_slice(), stored.as_slice()) {
        return Some(bio.id());
    }
    match first_extra(stored.as_slice(), accepted.as_slice()) {
        Some(bio) => Some(bio.id()),
        None => None,
    }
}

/// A command that stands among those that are done more often than among those that were run. The two lists are of one length.
fn differing_command<A: Allocator>(
    mut done: Vec<Command, A>,
    mut ran: Vec<Command, A>,
) -> Option<Command>
    requires { length ran.items ≡ length done.items }
    ensures some { IfSome result (DiffersInCommand done.items ran.items) }
    ensures none { IfNone result (IsPermutation ran.items done.items) }
{
    done.sort_unstable();
    ran.sort_unstable();
    first_extra(done.as_slice(), ran.as_slice())
}

/// The least element that stands more times in the list than in the other. Both are sorted, and gone over once, side by side.
fn first_extra<T: Copy + Ord>(list: &[T], other: &[T]) -> Option<T>
    requires list { IsSorted T.cmp list.now }
    requires other { IsSorted T.cmp other.now }
    ensures some { IfSome result (IsExtra T.eq list.now other.now) }
    ensures none { IfNone result (HasEach T.eq other.now list.now) }
{
    let mut place = 0;
    for item in other {
        if place == list.len() {
            return None;
        }
        let element = &list[place];
        match element.cmp(item) {
            Ordering::Less => return Some(*element),
            Ordering::Equal => place += 1,
            Ordering::Greater => {}
        }
    }
    if place == list.len() {
        return None;
    }
    Some(list[place])
}
