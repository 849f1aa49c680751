//! The steps of a script, each over what it changes: plugs, software queues and the core.

ghost use Rattle.std.specs.Prelude.{◌≡◌, ◌+◌, ◌<◌, ◌≤◌, ℕ, Some, slice_get, OnOk, OnErr, IfOk, IfErr, length};
ghost use Rattle.blk_bio.specs.Requests.{IsWithin};
ghost use Rattle.blk_queues.specs.Queues.{Queue as QueueFields};
ghost use Rattle.blk_core.specs.Calls.{Completes, RequeuesTag, SetsDepth};
ghost use Rattle.blk_core.specs.Faults.{IsInFlight, CanSetDepth};
ghost use Rattle.blk_sim.specs.Moves.{AddsBio, EmptiesPlug, HasSoftRoom, flushed_plug, with_requests, bios_in, EntersCore, EnterInTurn, drained, Drains};
ghost use Rattle.blk_sim.specs.Rounds.{AsksQueue, Ticks};
ghost use Rattle.blk_sim.specs.Refusals.{IsBioRefused, IsFlushRefused, IsOverfull, overflow_of, IsReleaseRefused, IsIssueRefused, IsBackRefused, IsDepthRefused, IsTickRefused, IsMoveRefused, IsDrainRefused};
ghost use Rattle.blk_sim.specs.Simulated.{HaveCome};
ghost use Rattle.blk_sim.specs.Inside.Limits.{ShareLimits};

use crate::refusal::{Overflow, SimReason};
use blk_bio::{Bio, Request};
use blk_core::Core;
use blk_queues::{MAX_BIOS, Plug, SoftQueue};
use blk_sched::Scheduler;
use blk_trace::MAX_EVENTS;
use edd_commands::Command;
use std::alloc::Allocator;

/// Releases a request into the core.
fn release<S: Scheduler>(
    core: &mut Core<S>,
    request: Request<S::A>,
    hw: u8,
) -> Result<(), SimReason>
    requires { IsWithin core.old.setup.limits request }
    ensures entered { OnOk result (EntersCore S.policy hw request core.old core.new) }
    ensures refused { IfErr result (λ w. IsReleaseRefused core.old request hw w) }
{
    match core.release(request, hw) {
        Ok(_) => Ok(()),
        Err((_request, fault)) => Err(SimReason::Release(fault)),
    }
}

/// Asks the core to issue a request under a tag, and answers its command.
pub(crate) fn issue<S: Scheduler>(
    core: &mut Core<S>,
    hw: u8,
    tag: u16,
) -> Result<Option<Command>, SimReason>
    ensures asked { IfOk result (λ found. AsksQueue S.policy hw tag core.old found core.new) }
    ensures refused { IfErr result (λ w. IsIssueRefused core.old hw tag w) }
    ensures same { OnErr result (core.new ≡ core.old) }
{
    match core.issue(hw, tag) {
        Ok(found) => Ok(found),
        Err(fault) => Err(SimReason::Issue(fault)),
    }
}

/// Completes what is in flight under a tag.
pub(crate) fn done<S: Scheduler>(core: &mut Core<S>, tag: u16) -> Result<(), SimReason>
    ensures completed { OnOk result (Completes S.policy.told_done core.old tag core.new) }
    ensures refused { IfErr result (λ w. (w ≡ SimReason.NotIssued) × (IsInFlight core.old tag → ⊥)) }
    ensures same { OnErr result (core.new ≡ core.old) }
{
    match core.done(tag) {
        Ok(()) => Ok(()),
        Err(_) => Err(SimReason::NotIssued),
    }
}

/// Requeues what is in flight under a tag, as a busy device does.
pub(crate) fn back<S: Scheduler>(core: &mut Core<S>, tag: u16) -> Result<(), SimReason>
    ensures back { OnOk result ((id : ℕ) × RequeuesTag core.old tag id core.new) }
    ensures refused { IfErr result (λ w. IsBackRefused core.old tag w) }
{
    match core.back(tag) {
        Ok(_) => Ok(()),
        Err(fault) => Err(SimReason::Back(fault)),
    }
}

/// Sets how many commands the rounds after this one carry.
pub(crate) fn set_depth<S: Scheduler>(core: &mut Core<S>, depth: u64) -> Result<(), SimReason>
    ensures set { OnOk result (CanSetDepth core.old depth × SetsDepth core.old depth core.new) }
    ensures refused { IfErr result (λ w. IsDepthRefused core.old depth w) }
{
    match core.set_depth(depth) {
        Ok(()) => Ok(()),
        Err(fault) => Err(SimReason::Depth(fault)),
    }
}

/// Ends the round.
pub(crate) fn tick<S: Scheduler>(core: &mut Core<S>) -> Result<(), SimReason>
    ensures ticked { OnOk result (Ticks S.policy core.old core.new) }
    ensures refused { IfErr result (λ w. IsTickRefused core.old w) }
{
    prove!(core.trace().len() <= MAX_EVENTS);
    match core.tick() {
        Ok(_) => Ok(()),
        Err(fault) => Err(SimReason::Tick(fault)),
    }
}

/// Moves the requests of a plug, from its first, into a software queue.
fn flush_plug<A: Allocator + Clone>(
    plug: &mut Plug<A>,
    queue: &mut SoftQueue<A>,
) -> Result<(), SimReason>
    requires limits { plug.old.limits ≡ queue.old.limits }
    requires few { queue.old.bios_in + length (bios_in plug.old.requests) ≤ MAX_BIOS }
    ensures emptied { OnOk result (plug.new ≡ flushed_plug plug.old) }
    ensures moved { OnOk result (queue.new ≡ with_requests queue.old plug.old.requests) }
    ensures room { OnOk result (HasSoftRoom queue.old plug.old) }
    ensures refused { IfErr result (λ w. (w ≡ SimReason.SoftFull (overflow_of queue.old plug.old)) × IsOverfull queue.old plug.old) }
{
    prove!(queue.len() as u64 <= queue.depth());
    let overflow = Overflow {
        holds: queue.len() as u64,
        brings: plug.len() as u64,
        room: queue.depth(),
    };
    while let Some(request) = plug.take_first() {
        let Ok(()) = queue.put(request) else {
            return Err(SimReason::SoftFull(overflow));
        };
    }
    Ok(())
}

/// Moves the requests of a software queue, from its first, into the core.
fn drain_queue<S: Scheduler>(
    core: &mut Core<S>,
    queue: &mut SoftQueue<S::A>,
    hw: u8,
) -> Result<(), SimReason>
    requires queue { hw < core.old.setup.hw }
    requires limits { queue.old.limits ≡ core.old.setup.limits }
    ensures emptied { OnOk result (queue.new ≡ drained queue.old) }
    ensures entered { OnOk result (EnterInTurn S.policy hw queue.old.requests core.old core.new) }
    ensures refused { IfErr result (λ w. IsMoveRefused S.policy queue.old.requests core.old hw w) }
{
    if queue.len() == 0 {
        return Ok(());
    }
    while let Some(request) = queue.take_first() {
        release(core, request, hw)?;
    }
    Ok(())
}

/// Moves the requests of a hardware queue's software queues, by their rising number, into the core: of queue `hw` of `count` those
/// of `hw`, `hw + count` and so on, as the map of Linux's blk-mq spreads processors.
pub(crate) fn drain<S: Scheduler>(
    core: &mut Core<S>,
    queues: &mut Vec<SoftQueue<S::A>, S::A>,
    hw: u8,
) -> Result<(), SimReason>
    requires queue { hw < core.old.setup.hw }
    requires limits { (s : ℕ) (queue : QueueFields) → slice_get queues.old.items s ≡ Some queue → queue.limits ≡ core.old.setup.limits }
    ensures drained { OnOk result (Drains S.policy core.old.setup.hw hw queues.old.items core.old queues.new.items core.new) }
    ensures refused { IfErr result (λ w. IsDrainRefused S.policy core.old.setup.hw hw queues.old.items core.old w) }
{
    let count = core.trace().setup().hw() as usize;
    let mut s = hw as usize;
    while s < queues.len() {
        drain_queue(core, &mut queues[s], hw)?;
        s += count;
    }
    Ok(())
}

/// Adds a bio to its submitter's plug.
pub(crate) fn add<A: Allocator + Clone>(
    plugs: &mut Vec<Plug<A>, A>,
    bio: Bio,
) -> Result<(), SimReason>
    requires { bio.id.submitter < length plugs.old.items }
    ensures added { OnOk result (AddsBio plugs.old.items bio plugs.new.items) }
    ensures refused { IfErr result (λ w. IsBioRefused plugs.old.items bio w) }
{
    let plug = &mut plugs[bio.id().submitter as usize];
    match plug.add(bio) {
        Ok(_) => Ok(()),
        Err((_, fault)) => Err(SimReason::Plug(fault)),
    }
}

/// Flushes a submitter's plug into its software queue.
pub(crate) fn flush<A: Allocator + Clone>(
    plugs: &mut Vec<Plug<A>, A>,
    queues: &mut Vec<SoftQueue<A>, A>,
    submitter: u8,
) -> Result<(), SimReason>
    requires submitter { submitter < length plugs.old.items }
    requires counts { length queues.old.items ≡ length plugs.old.items }
    requires limits { ShareLimits plugs.old.items queues.old.items }
    requires few { HaveCome MAX_BIOS plugs.old.items queues.old.items }
    ensures flushed { OnOk result (EmptiesPlug plugs.old.items queues.old.items submitter plugs.new.items queues.new.items) }
    ensures refused { IfErr result (λ w. IsFlushRefused plugs.old.items queues.old.items submitter w) }
{
    let s = submitter as usize;
    flush_plug(&mut plugs[s], &mut queues[s])?;
    Ok(())
}
