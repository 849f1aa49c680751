//! Calls of a core as plain values, each with the answer that it has to give: these tests are lists of them. A call that is refused
//! because memory ran out is made once more.

use blk_bio::{Bio, BioId, Dir, Request};
use blk_core::{BackFault, Core, CoreFault, DepthFault, IssueFault, NotIssued, Placed, TickFault};
use blk_sched::Scheduler;
use edd_commands::Command;
use std::alloc::Allocator;

/// A call of a core, and its answer. Bios are of submitter 0.
#[derive(Clone, Copy)]
pub enum CoreCall<'a> {
    /// Releases a read of a serial number, a first sector and a number of sectors for a hardware queue.
    Read(u64, u64, u64, u8, Result<Placed, CoreFault>),
    /// Releases such a write.
    Write(u64, u64, u64, u8, Result<Placed, CoreFault>),
    /// Releases requests of a direction for a hardware queue, a number of them with ids from this one on, which are their bios' serial
    /// numbers too: 8 sectors, 16 apart.
    Enter(Dir, u8, u64, u64),
    /// Issues for a hardware queue under a tag.
    Issue(u8, u16, Result<Option<Command>, IssueFault>),
    /// Issues for a hardware queue under the tags from this one on requests of these ids.
    Send(u8, u16, &'a [u64]),
    /// Completes what is in flight under a tag.
    Done(u16, Result<(), NotIssued>),
    /// Completes what is in flight under the tags below this one.
    AllDone(u16),
    /// Requeues what is in flight under a tag.
    Back(u16, Result<u64, BackFault>),
    /// Sets the depth of the rounds to come.
    Depth(u64, Result<(), DepthFault>),
    /// Ends the round.
    Tick(Result<u64, TickFault>),
    /// Ends a number of rounds.
    Ticks(u64),
    /// Counts what waits.
    Pending(u64),
    /// Counts the events.
    Len(u64),
    /// Lists the commands.
    Commands(&'a [Command]),
    /// Lists their rounds.
    Rounds(&'a [u64]),
    /// Lists the bios that wait.
    Waiting(&'a [Bio]),
}

/// Makes the calls one after the other, up to the first one whose answer is another: its place, if there is one.
pub fn first_other<S: Scheduler>(
    alloc: &S::A,
    core: &mut Core<S>,
    calls: &[CoreCall<'_>],
) -> Option<usize> {
    for (place, call) in calls.iter().enumerate() {
        if !is_answered(alloc, core, *call) {
            return Some(place);
        }
    }
    None
}

/// Makes a call, and says whether its answer is the wanted one.
fn is_answered<S: Scheduler>(alloc: &S::A, core: &mut Core<S>, call: CoreCall<'_>) -> bool {
    match call {
        CoreCall::Read(serial, first, sectors, hw, answer) => {
            enter(alloc, core, Dir::Read, serial, first, sectors, hw) == Some(answer)
        }
        CoreCall::Write(serial, first, sectors, hw, answer) => {
            enter(alloc, core, Dir::Write, serial, first, sectors, hw) == Some(answer)
        }
        CoreCall::Enter(dir, hw, from, count) => enter_all(alloc, core, dir, hw, from, count),
        CoreCall::Issue(hw, tag, answer) => issue(core, hw, tag) == answer,
        CoreCall::Send(hw, tag, ids) => send_all(core, hw, tag, ids),
        CoreCall::Done(tag, answer) => core.done(tag) == answer,
        CoreCall::AllDone(tags) => are_done(core, tags),
        CoreCall::Back(tag, answer) => back(core, tag) == answer,
        CoreCall::Depth(depth, answer) => set_depth(core, depth) == answer,
        CoreCall::Tick(answer) => tick(core) == answer,
        CoreCall::Ticks(count) => end_all(core, count),
        CoreCall::Pending(count) => core.pending() == count,
        CoreCall::Len(count) => core.trace().len() == count,
        CoreCall::Commands(wanted) => has_commands(core, wanted),
        CoreCall::Rounds(wanted) => has_rounds(core, wanted),
        CoreCall::Waiting(wanted) => has_waiting(core, wanted),
    }
}

/// A request of one bio. There is none where memory was refused twice.
pub fn alone<A: Allocator + Clone>(alloc: &A, bio: Bio) -> Option<Request<A>> {
    match Request::of(alloc.clone().ok()?, bio) {
        Ok(request) => Some(request),
        Err((bio, _)) => match Request::of(alloc.clone().ok()?, bio) {
            Ok(request) => Some(request),
            Err(_) => None,
        },
    }
}

/// Releases a request that is within the limits. There is no answer where it isn't.
pub fn release<S: Scheduler>(
    core: &mut Core<S>,
    request: Request<S::A>,
    hw: u8,
) -> Option<Result<Placed, CoreFault>> {
    let limits = core.trace().setup().limits();
    if !request.within(&limits) {
        return None;
    }
    match core.release(request, hw) {
        Ok(placed) => Some(Ok(placed)),
        Err((request, CoreFault::Memory)) => match core.release(request, hw) {
            Ok(placed) => Some(Ok(placed)),
            Err((_, why)) => Some(Err(why)),
        },
        Err((_, why)) => Some(Err(why)),
    }
}

/// Releases a request of one bio.
fn enter<S: Scheduler>(
    alloc: &S::A,
    core: &mut Core<S>,
    dir: Dir,
    serial: u64,
    first: u64,
    sectors: u64,
    hw: u8,
) -> Option<Result<Placed, CoreFault>> {
    let id = BioId {
        submitter: 0,
        serial,
    };
    let bio = Bio::new(id, dir, first, sectors).ok()?;
    let request = alone(alloc, bio)?;
    release(core, request, hw)
}

/// Releases requests of ids from this one on.
fn enter_all<S: Scheduler>(
    alloc: &S::A,
    core: &mut Core<S>,
    dir: Dir,
    hw: u8,
    from: u64,
    count: u64,
) -> bool {
    for n in 0..count {
        let id = from.wrapping_add(n);
        let first = id.wrapping_mul(16);
        if enter(alloc, core, dir, id, first, 8, hw) != Some(Ok(Placed::New(id))) {
            return false;
        }
    }
    true
}

/// Issues for a hardware queue under a tag.
fn issue<S: Scheduler>(
    core: &mut Core<S>,
    hw: u8,
    tag: u16,
) -> Result<Option<Command>, IssueFault> {
    match core.issue(hw, tag) {
        Err(IssueFault::Memory) => core.issue(hw, tag),
        answer => answer,
    }
}

/// Issues requests of these ids under the tags from this one on.
fn send_all<S: Scheduler>(core: &mut Core<S>, hw: u8, tag: u16, ids: &[u64]) -> bool {
    let mut tag = tag;
    for id in ids {
        let Ok(Some(command)) = issue(core, hw, tag) else {
            return false;
        };
        if command.id != *id {
            return false;
        }
        tag = tag.wrapping_add(1);
    }
    true
}

/// Completes what is in flight under the tags below this one.
fn are_done<S: Scheduler>(core: &mut Core<S>, tags: u16) -> bool {
    for tag in 0..tags {
        if core.done(tag).is_err() {
            return false;
        }
    }
    true
}

/// Requeues what is in flight under a tag.
fn back<S: Scheduler>(core: &mut Core<S>, tag: u16) -> Result<u64, BackFault> {
    match core.back(tag) {
        Err(BackFault::Memory) => core.back(tag),
        answer => answer,
    }
}

/// Sets the depth of the rounds to come.
fn set_depth<S: Scheduler>(core: &mut Core<S>, depth: u64) -> Result<(), DepthFault> {
    match core.set_depth(depth) {
        Err(DepthFault::Memory) => core.set_depth(depth),
        answer => answer,
    }
}

/// Ends the round.
fn tick<S: Scheduler>(core: &mut Core<S>) -> Result<u64, TickFault> {
    match core.tick() {
        Err(TickFault::Memory) => core.tick(),
        answer => answer,
    }
}

/// Ends a number of rounds.
fn end_all<S: Scheduler>(core: &mut Core<S>, count: u64) -> bool {
    for _ in 0..count {
        if tick(core).is_err() {
            return false;
        }
    }
    true
}

/// Whether these are the commands.
fn has_commands<S: Scheduler>(core: &Core<S>, wanted: &[Command]) -> bool {
    match core.trace().commands() {
        Ok(commands) => commands.as_slice() == wanted,
        Err(_) => false,
    }
}

/// Whether these are their rounds.
fn has_rounds<S: Scheduler>(core: &Core<S>, wanted: &[u64]) -> bool {
    match core.trace().rounds() {
        Ok(rounds) => rounds.as_slice() == wanted,
        Err(_) => false,
    }
}

/// Whether these are the bios that wait.
fn has_waiting<S: Scheduler>(core: &Core<S>, wanted: &[Bio]) -> bool {
    match core.trace().waiting() {
        Ok(waiting) => waiting.as_slice() == wanted,
        Err(_) => false,
    }
}
