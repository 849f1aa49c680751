//! What submitters do.

ghost use Rattle.std.specs.Prelude.{◌≡◌, ◌<◌, ◌≤◌, All, length};
ghost use Rattle.blk_schedulers.specs.declared.numbers.TheConstants.{MAX_LOAD_BIOS, MAX_LOAD_SUBMITTERS};
ghost use Rattle.blk_load.specs.Inside.Loads.{nth_bio};

use crate::fault::LoadFault;
use crate::site::Site;
use blk_bio::{Bio, BioId, Dir};
use blk_layer::{FlushReason, Named, Submitter};
use blk_queues::{MAX_STAGED, Plug, PlugFault};
use blk_sched::Scheduler;
use blk_schedulers::Load;
use std::alloc::Global;
use std::sync::Wait;
use std::thread::{Scope, Threads, scope, scope_env, yield_now};

/// How often a submitter flushes its plug at most.
const MAX_FLUSHES: u64 = 10_000_000;

/// How often other threads may run before the next flush, where the software queue has no room.
const RESTS: u64 = 16;

/// How many sectors a bio has.
const SECTORS: u64 = 8;

/// How many sectors from the beginning of one bio to that of the next: no bio touches another.
const STRIDE: u64 = 16;

/// The bio of this number of a submitter. By their sectors the first bios of all submitters come first, then the second ones, and so on;
/// of each submitter's, every second one is a write.
fn nth_bio(submitters: u64, submitter: u8, serial: u64) -> Bio
    requires submitters { submitters ≤ MAX_LOAD_SUBMITTERS }
    requires serial { serial < MAX_LOAD_BIOS }
    ensures { result ≡ nth_bio submitters submitter serial }
{
    let id = BioId { submitter, serial };
    let dir = if serial % 2 == 0 {
        Dir::Read
    } else {
        Dir::Write
    };
    let first = STRIDE * (serial * submitters + u64::from(submitter));
    match Bio::new(id, dir, first, SECTORS) {
        Ok(bio) => bio,
        Err(_) => unreachable!(),
    }
}

/// Adds bios from this number on to a plug, until it is full or there are no more, and answers the number of the next one.
fn fill(plug: &mut Plug, load: &Load, submitter: u8, from: u64) -> Result<u64, LoadFault>
    requires submitters { load.now.submitters ≤ MAX_LOAD_SUBMITTERS }
    requires bios { load.now.bios ≤ MAX_LOAD_BIOS }
    ensures limits { plug.new.limits ≡ plug.old.limits }
{
    for serial in from..load.bios {
        match plug.add(nth_bio(load.submitters, submitter, serial)) {
            Ok(_) => {}
            Err((_, PlugFault::Full)) => return Ok(serial),
            Err((_, PlugFault::Memory)) => return Err(LoadFault::Memory),
        }
    }
    Ok(load.bios)
}

/// A submitter's thread: it fills its plug, flushes it, and tries again where the software queue has no room for all of it. It ends
/// with no fault once all of its bios are flushed, or once another thread has met a fault.
fn submit<R: Wait, S: Scheduler<A = Global>, L: Named>(
    rt: &R,
    site: &Site<S, L>,
    seat: &mut Submitter<L>,
) -> Result<(), LoadFault>
    requires seat { seat.old.number < length site.now.layer.map }
    ensures number { seat.new.number ≡ seat.old.number }
{
    let Ok(mut plug) = Plug::new(site.alloc, site.limits) else {
        return Err(LoadFault::Memory);
    };
    let number = seat.number();
    let mut next = 0;
    for _ in 0..MAX_FLUSHES {
        if site.noted.is_any() {
            return Ok(());
        }
        if plug.len() == 0 {
            if next >= site.load.bios {
                return Ok(());
            }
            next = fill(&mut plug, &site.load, number, next)?;
        }
        flush(rt, site, seat, &mut plug)?;
    }
    Err(LoadFault::Stalled)
}

/// Lets other threads run several times, since each flush that finds no room takes a lock that a worker wants.
fn rest() {
    for _ in 0..RESTS {
        yield_now();
    }
}

/// Flushes a plug, as far as there is room for it; where there isn't, lets other threads run.
fn flush<R: Wait, S: Scheduler<A = Global>, L: Named>(
    rt: &R,
    site: &Site<S, L>,
    seat: &mut Submitter<L>,
    plug: &mut Plug,
) -> Result<(), LoadFault>
    requires seat { seat.old.number < length site.now.layer.map }
    requires limits { plug.old.limits ≡ site.now.limits }
    ensures number { seat.new.number ≡ seat.old.number }
    ensures limits { plug.new.limits ≡ plug.old.limits }
{
    match site.layer.flush(rt, seat, plug) {
        Ok(_) => Ok(()),
        Err(fault) if fault.why == FlushReason::SoftFull => {
            rest();
            Ok(())
        }
        Err(fault) => Err(LoadFault::Flush(fault.why)),
    }
}

/// A submitter's thread, whose fault is noted for the other threads.
fn submit_noted<R: Wait, S: Scheduler<A = Global>, L: Named>(
    rt: &R,
    site: &Site<S, L>,
    seat: &mut Submitter<L>,
)
    requires seat { seat.old.number < length site.now.layer.map }
    ensures number { seat.new.number ≡ seat.old.number }
{
    if let Err(fault) = submit(rt, site, seat) {
        site.noted.note(rt, fault);
    }
}

/// Starts a submitter's thread. Where none can be started, memory ran out, and that is noted for the other threads.
fn start<'s, E, R: Threads + Wait + Sync, S: Scheduler<A = Global> + Send, L: Named + Send + Sync>(
    scope: &'s Scope<'s, E>,
    rt: &'s R,
    site: &'s Site<S, L>,
    seat: &'s mut Submitter<L>,
)
    requires { seat.now.number < length site.now.layer.map }
{
    let started = scope.spawn(
        move ||
            requires { seat.now.number < length site.now.layer.map }
        { submit_noted(rt, site, seat) },
    );
    if started.is_err() {
        site.noted.note(rt, LoadFault::Memory);
    }
}

/// Starts submitters, each in a thread of its own.
fn start_all<
    's,
    E,
    R: Threads + Wait + Sync,
    S: Scheduler<A = Global> + Send,
    L: Named + Send + Sync,
>(scope: &'s Scope<'s, E>, rt: &'s R, site: &'s Site<S, L>, seats: &'s mut [Submitter<L>])
    requires seats { All (λ s. s.number < length site.now.layer.map) seats.now }
{
    for seat in seats.iter_mut() {
        start(scope, rt, site, seat);
    }
}

/// Runs submitters, each in a thread of its own. The layer is finished once all of them have ended.
pub(crate) fn submit_all<
    R: Threads + Wait + Sync,
    S: Scheduler<A = Global> + Send,
    L: Named + Send + Sync,
>(rt: &R, site: &Site<S, L>, seats: &mut [Submitter<L>])
    requires seats { All (λ s. s.number < length site.now.layer.map) seats.old }
{
    let all = &mut *seats;
    scope(
        scope_env(),
        rt,
        move |threads|
            requires { All (λ s. s.number < length site.now.layer.map) all.now }
        { start_all(threads, rt, site, all) },
    );
    site.layer.finish();
}
