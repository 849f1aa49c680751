//! What workers do.

ghost use Rattle.std.specs.Prelude.{◌≡◌, All};

use crate::device::Disk;
use crate::fault::LoadFault;
use crate::site::Site;
use blk_layer::{Named, Worker};
use blk_sched::Scheduler;
use std::alloc::Global;
use std::sync::Wait;
use std::thread::{Scope, Threads};

/// How often a worker calls `work` at most.
const MAX_WORKS: u64 = 1000;

/// How many passes it makes each time at most.
const MAX_PASSES: u64 = 10_000;

/// A worker's thread: it works until the layer says that all is finished. It ends with no fault then, or once another thread has
/// met a fault.
fn serve<R: Wait, S: Scheduler<A = Global>, L: Named>(
    rt: &R,
    site: &Site<S, L>,
    seat: &mut Worker<L>,
) -> Result<(), LoadFault>
    requires seat { seat.old.tag_set ≡ site.now.layer.tag_set }
    ensures seat { seat.new.tag_set ≡ seat.old.tag_set }
{
    let mut disk = Disk::new(site.clock, site.load.service, site.load.busy);
    for _ in 0..MAX_WORKS {
        if site.noted.is_any() {
            return Ok(());
        }
        match site.layer.work(rt, seat, &mut disk, MAX_PASSES) {
            Ok(worked) => {
                if worked.finished {
                    return Ok(());
                }
            }
            Err(fault) => return Err(LoadFault::Work(fault)),
        }
    }
    Err(LoadFault::Stalled)
}

/// A worker's thread, whose fault is noted for the other threads.
fn serve_noted<R: Wait, S: Scheduler<A = Global>, L: Named>(
    rt: &R,
    site: &Site<S, L>,
    seat: &mut Worker<L>,
)
    requires seat { seat.old.tag_set ≡ site.now.layer.tag_set }
    ensures seat { seat.new.tag_set ≡ seat.old.tag_set }
{
    if let Err(fault) = serve(rt, site, seat) {
        site.noted.note(rt, fault);
    }
}

/// Starts a worker's thread. Where none can be started, memory ran out, and that is noted for the other threads.
fn start<'s, E, R: Threads + Wait + Sync, S: Scheduler<A = Global> + Send, L: Named + Send + Sync>(
    scope: &'s Scope<'s, E>,
    rt: &'s R,
    site: &'s Site<S, L>,
    seat: &'s mut Worker<L>,
)
    requires { seat.now.tag_set ≡ site.now.layer.tag_set }
{
    let started = scope.spawn(
        move ||
            requires { seat.now.tag_set ≡ site.now.layer.tag_set }
        { serve_noted(rt, site, seat) },
    );
    if started.is_err() {
        site.noted.note(rt, LoadFault::Memory);
    }
}

/// Starts workers, each in a thread of its own.
pub(crate) fn serve_all<
    's,
    E,
    R: Threads + Wait + Sync,
    S: Scheduler<A = Global> + Send,
    L: Named + Send + Sync,
>(scope: &'s Scope<'s, E>, rt: &'s R, site: &'s Site<S, L>, seats: &'s mut [Worker<L>])
    requires seats { All (λ s. s.tag_set ≡ site.now.layer.tag_set) seats.now }
{
    for seat in seats.iter_mut() {
        start(scope, rt, site, seat);
    }
}
