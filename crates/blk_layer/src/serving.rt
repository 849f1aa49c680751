//! What a worker does: commands that it is issued and reports, rounds that it ends, and whole passes of these.

ghost use Rattle.std.specs.Prelude.{true, ◌≡◌, ◌≢◌, ◌≤◌, OnOk, OnErr, IfOk, IfErr, None, Some, length};
ghost use Rattle.blk_layer.specs.Names.{work_told};
ghost use Rattle.blk_layer.specs.Serving.{IsIssueAnswer, AccountsFor, LetsGo, IsInHand, IsTickAnswer, IsDepthAnswer, RunsMore, IsWorked, IsWorkFault, IsAfterPass};
ghost use Rattle.blk_layer.specs.Inside.Serving.{Exchanges, Serves, IsServeFault, work_name};

use crate::batch::Batch;
use crate::layer::{Layer, Named};
use crate::seats::Worker;
use blk_bio::BioId;
use blk_core::{BackFault, CoreFault, DepthFault, IssueFault, NotIssued, TickFault};
use blk_sched::Scheduler;
use blk_trace::MAX_EVENTS;
use edd_commands::{Command, Fault, Told, told};
use std::alloc::Allocator;
use std::sync::Wait;
use std::sync::atomic::Ordering;
use std::thread::yield_now;
use thiserror::Error;

/// What became of a command that a device was given.
#[derive(Clone, Copy, Debug, PartialEq, Eq)]
pub enum Ran {
    /// The device ran it.
    Done,
    /// The device was busy, and the command is requeued (`BLK_STS_RESOURCE` of Linux's `queue_rq`).
    Busy,
}

/// What runs commands, one after the other (`queue_rq` of Linux's `struct blk_mq_ops`, which here returns once the command ran).
/// Each worker has a device of its own; a device that waits takes the handle as a part of itself.
pub trait Device {
    /// Runs a command, or is too busy for it.
    fn run(&mut self, command: &Command) -> Ran;
}

/// A command that was issued to a worker.
#[derive(Clone, Copy, Debug, PartialEq, Eq)]
pub struct Issued {
    /// The command.
    pub command: Command,
    /// The tag under which it is in flight.
    pub tag: u16,
}

/// Why nothing is issued to a worker, in the order in which the reasons are looked for; but `Issue(IssueFault::Memory)` for the
/// worker's account comes right after `NoTag`.
#[derive(Clone, Copy, Debug, PartialEq, Eq, Error)]
pub enum LayerIssueFault {
    /// Each tag that was tried is taken.
    #[error("NoTag")]
    NoTag,
    /// The core issues nothing, never as `NoQueue`; or memory for the worker's account ran out.
    #[error(transparent)]
    Issue(IssueFault),
}

/// What a worker did in a call of `Layer::work`.
#[derive(Clone, Copy, Debug, PartialEq, Eq)]
pub struct Worked {
    /// How many passes it made.
    pub passes: u64,
    /// By how many commands its account grew.
    pub ran: u64,
    /// Whether nothing was left to do after `Layer::finish`; otherwise the passes were used up.
    pub finished: bool,
}

/// Why a worker's work ended early: the core's first refusal.
#[derive(Clone, Copy, Debug, PartialEq, Eq, Error)]
#[error("{}", self.name())]
pub enum WorkFault {
    /// The trace has no places for an event.
    TraceFull,
    /// Memory ran out.
    Memory,
    /// A request in a software queue has a bio whose id stands in the trace, or twice in it: the first such, by sector.
    Repeated(BioId),
}

impl Fault for WorkFault {
    ghost told = { work_told };

    fn told(&self) -> Told {
        told!(self: WorkFault { TraceFull, Memory => Memory, Repeated(_) })
    }
}

/// What a pass found.
#[derive(Clone, Copy, Debug, PartialEq, Eq)]
pub struct Passed {
    /// Whether it began after [`Layer::finish`].
    pub finishing: bool,
    /// How many requests it moved.
    pub moved: u64,
    /// How many batches of commands it served.
    pub served: u64,
    /// How many requests waited in the core at its end, where it is finishing.
    pub pending: u64,
}

/// What a worker does after a pass.
#[derive(Clone, Copy, Debug, PartialEq, Eq)]
pub enum After {
    /// It is finished.
    Finish,
    /// It makes the next pass.
    Again,
    /// It lets other threads run first, since it found nothing to do.
    Yield,
}

/// What a worker does after a pass, which found this. It is finished where the pass began after [`Layer::finish`], moved
/// nothing and left nothing waiting; it lets others run first where the pass neither moved nor served anything.
pub fn after_pass(passed: Passed) -> After
    ensures { IsAfterPass passed result }
{
    if passed.moved > 0 {
        return After::Again;
    }
    if passed.finishing && passed.pending == 0 {
        return After::Finish;
    }
    if passed.served > 0 {
        After::Again
    } else {
        After::Yield
    }
}

impl<S: Scheduler, L: Named> Layer<S, L> {
    /// Issues a command to a worker, for its hardware queue: the one that the core gives, or None where that gives none. Without a
    /// command the tag that was taken is given back, and the worker holds what it held; but its next try for a tag may begin at
    /// another one. The seat is one of this layer.
    ///
    /// Refused, by the first of these that applies: as `NoTag` where each tag was found taken when it was tried; as `Memory`
    /// of the core's faults where the worker's account can't be given the room that a completion will need; and then as the core's issue is.
    pub fn issue<R: Wait>(
        &self,
        rt: &R,
        worker: &mut Worker<L, S::A>,
    ) -> Result<Option<Issued>, LayerIssueFault>
        requires { worker.old.tag_set ≡ self.now.tag_set }
        ensures issued { IfOk result (λ found. IsIssueAnswer worker.old found worker.new) }
        ensures there { IfErr result (λ why. why ≢ LayerIssueFault.Issue IssueFault.NoQueue) }
        ensures same { OnErr result (worker.new ≡ worker.old) }
    {
        let Some(tag) = self.tags.get(&mut worker.seat) else {
            return Err(LayerIssueFault::NoTag);
        };
        if worker.ran.reserve(worker.hands.len()).is_err() {
            self.tags.give(&mut worker.seat, tag);
            return Err(LayerIssueFault::Issue(IssueFault::Memory));
        }
        let mut core = self.core.lock(rt);
        let found = core.issue(worker.hw, tag);
        drop(core);
        match found {
            Ok(Some(command)) => {
                worker.hands[usize::from(tag)] = Some(command);
                Ok(Some(Issued { command, tag }))
            }
            Ok(None) => {
                self.tags.give(&mut worker.seat, tag);
                Ok(None)
            }
            Err(why) => {
                self.tags.give(&mut worker.seat, tag);
                Err(LayerIssueFault::Issue(why))
            }
        }
    }

    /// Reports as done the command in the worker's hands under a tag: the one that the worker was last issued with it. It goes
    /// into the worker's account, and the tag is given back. The seat is one of this layer. Takes no memory.
    ///
    /// Refused where the worker has no command under the tag, even if another worker has one; nothing is changed then.
    pub fn done<R: Wait>(
        &self,
        rt: &R,
        worker: &mut Worker<L, S::A>,
        tag: u16,
    ) -> Result<(), NotIssued>
        requires { worker.old.tag_set ≡ self.now.tag_set }
        ensures done { OnOk result (AccountsFor worker.old tag worker.new) }
        ensures same { OnErr result (worker.new ≡ worker.old) }
    {
        let Some(command) = worker.in_hand(tag) else {
            return Err(NotIssued);
        };
        let mut core = self.core.lock(rt);
        core.done(&mut worker.share, tag)?;
        drop(core);
        worker.hands[usize::from(tag)] = None;
        worker.ran.push_reserved(command);
        self.tags.give(&mut worker.seat, tag);
        Ok(())
    }

    /// Requeues the command in the worker's hands under a tag, since the device was busy, and answers its id: the core will issue
    /// it again. The tag is given back, and the worker's account stays. The seat is one of this layer.
    ///
    /// Refused, by the first of these that applies: as `NotIssued` where the worker has no command under the tag, even if another
    /// worker has one; and as the core's `back` is. Nothing is changed then.
    pub fn back<R: Wait>(
        &self,
        rt: &R,
        worker: &mut Worker<L, S::A>,
        tag: u16,
    ) -> Result<u64, BackFault>
        requires { worker.old.tag_set ≡ self.now.tag_set }
        ensures back { IfOk result (λ id. LetsGo worker.old tag id worker.new) }
        ensures fault { IfErr result (λ why. why ≡ BackFault.Memory → IsInHand worker.old tag) }
        ensures same { OnErr result (worker.new ≡ worker.old) }
    {
        let Some(command) = worker.in_hand(tag) else {
            return Err(BackFault::NotIssued);
        };
        let mut core = self.core.lock(rt);
        core.back(tag)?;
        drop(core);
        worker.hands[usize::from(tag)] = None;
        self.tags.give(&mut worker.seat, tag);
        Ok(command.id)
    }

    /// Ends the round, full or not, where the layer's name says that this may be done by hand, and answers the number of the next one: how many
    /// Ticks there are then. Refused as the core's `tick` is, by the first of these that applies: as `InFlight` with how many commands are in flight, as `TraceFull`, and as `Memory`.
    pub fn tick<R: Wait>(&self, rt: &R) -> Result<u64, TickFault>
        requires { L.by_hand ≡ true }
        ensures { IsTickAnswer result }
    {
        self.core.lock(rt).tick()
    }

    /// Sets how many commands the rounds after this one carry, until another depth is set. Refused as the core's `set_depth` is,
    /// by the first of these that applies: as `TraceFull`, as `DepthRange` where the depth is 0 or above the setup's, and as `Memory`.
    pub fn set_depth<R: Wait>(&self, rt: &R, depth: u64) -> Result<(), DepthFault>
        ensures { IsDepthAnswer L.setup.depth depth result }
    {
        self.core.lock(rt).set_depth(depth)
    }

    /// Says that nothing more will be flushed: workers finish once nothing waits.
    pub fn finish(&self) {
        self.finishing.store(true, Ordering::SeqCst);
    }

    /// Works for the worker's hardware queue, in at most `passes` passes. The seat is one of this layer. A pass drains; then commands are
    /// issued to the worker, up to [`MAX_BATCH`] at a time where others wait for the core, and else one. The device runs one after the other
    /// until it is busy. Under one hold of the core's lock those that ran are reported done, the one that found the device busy is
    /// requeued, and the next ones are issued; those behind it are run next. A pass ends where no command is left in the worker's hands
    /// and an issue finds none or no tag, and where the round is full, which it ends unless a command is in flight (`Core::try_issue`).
    /// It has no other bound than the trace, which has places for fewer Issues than [`MAX_EVENTS`]. After a pass that found nothing to
    /// do other threads run first.
    ///
    /// Finished at a pass that began after [`Layer::finish`], moved no request and left none waiting in the core ([`after_pass`]). The
    /// worker's account grows at its end by the commands that ran; else its seat is as it was.
    ///
    /// Refused as `Repeated` where a drain is, and as `TraceFull` and `Memory` where a drain, an issue or the end of a round is, or
    /// as `Memory` where a busy device's command can't be requeued. `Memory` alone may leave commands in the worker's hands, which no
    /// device ran. What was done before stands.
    pub fn work<R: Wait, D: Device>(
        &self,
        rt: &R,
        worker: &mut Worker<L, S::A>,
        device: &mut D,
        passes: u64,
    ) -> Result<Worked, WorkFault>
        requires { worker.old.tag_set ≡ self.now.tag_set }
        ensures worked { IfOk result (λ w. IsWorked passes worker.old w worker.new) }
        ensures fault { IfErr result (λ why. IsWorkFault worker.old why worker.new) }
        ensures tag_set { worker.new.tag_set ≡ worker.old.tag_set }
    {
        let before = worker.ran().len();
        for passed in 0..passes {
            let finishing = self.finishing.load(Ordering::SeqCst);
            let moved = match self.drain(rt, worker) {
                Ok(moved) => moved,
                Err(fault) => return Err(of_release(fault.why)),
            };
            let served = self.serve(rt, worker, device)?;
            let pending = if finishing {
                self.core.lock(rt).core.pending()
            } else {
                0
            };
            match after_pass(Passed {
                finishing,
                moved,
                served,
                pending,
            }) {
                After::Finish => {
                    return Ok(Worked {
                        passes: passed + 1,
                        ran: (worker.ran().len() - before) as u64,
                        finished: true,
                    });
                }
                After::Yield => yield_now(),
                After::Again => {}
            }
        }
        Ok(Worked {
            passes,
            ran: (worker.ran().len() - before) as u64,
            finished: false,
        })
    }

    /// Serves the commands of a pass, a batch after the other, until there is none for the worker, and answers how many batches ran. There
    /// are fewer than [`MAX_EVENTS`], since each has a command that is issued or requeued, which is an event.
    fn serve<R: Wait, D: Device>(
        &self,
        rt: &R,
        worker: &mut Worker<L, S::A>,
        device: &mut D,
    ) -> Result<u64, WorkFault>
        requires { worker.old.tag_set ≡ self.now.tag_set }
        ensures runs { IfOk result (λ _. RunsMore worker.old worker.new) }
        ensures fault { IfErr result (λ why. IsWorkFault worker.old why worker.new) }
        ensures tag_set { worker.new.tag_set ≡ worker.old.tag_set }
    {
        let mut batch = Batch::new();
        let mut ran = 0;
        for served in 0..MAX_EVENTS {
            let exchanged = self.exchange(rt, worker, &mut batch, ran);
            let held = batch.len();
            exchanged?;
            if held == 0 {
                return Ok(served);
            }
            ran = run_all(device, worker, batch.as_slice());
        }
        // can't happen: no trace has places for that many events, but no clause can name what lay under the lock
        Err(WorkFault::Memory)
    }

    /// Reports how the device ran a batch, its first `ran` commands and, where there are more, busy at the next one, and issues the next commands,
    /// all under one hold of the core's lock: one where the lock was free, and else up to the worker's share ([`Layer::share`]). Room in the
    /// account is made before the lock is taken; without it nothing is issued.
    fn exchange<R: Wait>(
        &self,
        rt: &R,
        worker: &mut Worker<L, S::A>,
        batch: &mut Batch,
        ran: usize,
    ) -> Result<(), WorkFault>
        requires set { worker.old.tag_set ≡ self.now.tag_set }
        requires ran { ran ≤ length batch.old }
        ensures serves { Serves batch.old worker.old batch.new worker.new }
        ensures exchanged { OnOk result (Exchanges ran batch.old worker.old batch.new worker.new) }
        ensures fault { IfErr result (λ why. IsServeFault why batch.new) }
    {
        let has_room = worker.make_room().is_ok();
        let (mut core, is_shared) = match self.core.try_lock() {
            Some(core) => (core, false),
            None => (self.lock_core(rt), true),
        };
        if !worker.end_all(&mut *core, &self.tags, batch, ran) || !has_room {
            return Err(WorkFault::Memory);
        }
        let most = if is_shared { self.share(&core.core) } else { 1 };
        worker.take_some(&mut *core, &self.tags, batch, most)
    }
}

/// Runs the commands in a worker's hands under these tags, one after the other, until one finds the device busy, and answers how many ran.
fn run_all<D: Device, L: Named, A: Allocator + Clone>(
    device: &mut D,
    worker: &Worker<L, A>,
    tags: &[u16],
) -> usize
    ensures { result ≤ length tags.now }
{
    for (ran, tag) in tags.iter().enumerate() {
        let done = match worker.in_hand(*tag) {
            Some(command) => device.run(&command),
            None => Ran::Busy,
        };
        if done == Ran::Busy {
            return ran;
        }
    }
    tags.len()
}

/// Why a drain ended, as a fault of `work`. The hardware queue is there.
fn of_release(why: CoreFault) -> WorkFault
    requires { why ≢ CoreFault.NoQueue }
    ensures { work_name why ≡ Some result }
{
    match why {
        CoreFault::NoQueue => unreachable!(),
        CoreFault::Repeated(id) => WorkFault::Repeated(id),
        CoreFault::TraceFull => WorkFault::TraceFull,
        CoreFault::Memory => WorkFault::Memory,
    }
}
