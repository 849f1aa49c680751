//! What the tests are given.

ghost use Rattle.std.specs.Prelude.{◌≡◌, [], true};
ghost use Rattle.blk_sched.specs.Meaning.{at_start};
ghost use Rattle.blk_trace.specs.Setups.{Setup as Numbers};

use blk_bio::{Bio, BioId, Dir, Limits, Request};
use blk_core::Core;
use blk_none::NoneSched;
use blk_trace::Setup;
use std::alloc::{Allocator, Global};
use std::process::Abort;

/// Requests of up to 256 sectors and of 128 bios.
pub fn limits(rt: &impl Abort) -> Limits {
    Limits::new(256, 128).expect(rt, "limits")
}

/// A setup under which all is due at once.
pub fn setup(rt: &impl Abort, depth: u64, hw: u8, limits: Limits) -> Setup
    ensures { result.limits ≡ limits }
{
    Setup::new(depth, hw, 0, 0, limits).expect(rt, "a setup")
}

/// A scheduler in the order of entry.
fn scheduler<A: Allocator + Clone>(rt: &impl Abort, alloc: A) -> NoneSched<A>
    ensures { result ≡ at_start true }
{
    match NoneSched::new(alloc) {
        Ok(scheduler) => scheduler,
        Err(_) => panic!(rt; "out of memory"),
    }
}

/// A core in the order of entry, without events.
pub fn core<A: Allocator + Clone>(rt: &impl Abort, alloc: A, setup: Setup) -> Core<NoneSched<A>>
    ensures setup { result.setup ≡ setup }
    ensures empty { result.events ≡ [] }
{
    let Ok(other) = alloc.clone() else {
        panic!(rt; "out of memory");
    };
    match Core::new(alloc, setup, scheduler(rt, other)) {
        Ok(core) => core,
        Err(_) => panic!(rt; "out of memory"),
    }
}

/// A read of 8 sectors by a submitter, of a serial number and a first sector.
pub fn bio(rt: &impl Abort, submitter: u8, serial: u64, first: u64) -> Bio {
    let id = BioId { submitter, serial };
    Bio::new(id, Dir::Read, first, 8).expect(rt, "a bio")
}

/// A request of one such read.
pub fn alone(rt: &impl Abort, alloc: Global, bio: Bio) -> Request {
    match Request::of(alloc, bio) {
        Ok(request) => request,
        Err(_) => panic!(rt; "out of memory"),
    }
}
