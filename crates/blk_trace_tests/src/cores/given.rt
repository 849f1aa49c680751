//! What the tests are given: cores, and lists of calls that they follow.

ghost use Rattle.std.specs.Prelude.{◌≡◌, true};
ghost use Rattle.blk_sched.specs.Meaning.{at_start};

use crate::cores::listed::{CoreCall, first_other};
use blk_bio::{Bio, BioId, Dir, Limits, Request};
use blk_core::Core;
use blk_lifo::Lifo;
use blk_none::NoneSched;
use blk_sched::Scheduler;
use blk_trace::Setup;
use edd_commands::Command;
use std::alloc::{Allocator, Global};
use std::process::Abort;

/// A name of submitter 0.
pub fn id_of(serial: u64) -> BioId {
    BioId {
        submitter: 0,
        serial,
    }
}

/// A bio of a serial number.
pub fn bio(rt: &impl Abort, serial: u64, dir: Dir, first: u64, sectors: u64) -> Bio {
    Bio::new(id_of(serial), dir, first, sectors).expect(rt, "a bio")
}

/// Requests of up to this number of sectors, and of 128 bios.
pub fn limits(rt: &impl Abort, max_sectors: u64) -> Limits {
    Limits::new(max_sectors, 128).expect(rt, "limits")
}

/// An allocator once more.
pub fn again<A: Allocator + Clone>(rt: &impl Abort, alloc: &A) -> A {
    let Ok(alloc) = alloc.clone() else {
        panic!(rt; "out of memory");
    };
    alloc
}

/// A request of one bio.
pub fn alone(rt: &impl Abort, alloc: Global, bio: Bio) -> Request {
    crate::cores::listed::alone(&alloc, bio).expect(rt, "memory")
}

/// A setup of 256 sectors and 128 segments, under which reads are due after this number of rounds and writes at once.
pub fn setup(rt: &impl Abort, depth: u64, hw: u8, read_expire: u64) -> Setup {
    Setup::new(depth, hw, read_expire, 0, limits(rt, 256)).expect(rt, "a setup")
}

/// A scheduler in the order of entry.
fn scheduler<A: Allocator + Clone>(rt: &impl Abort, alloc: &A) -> NoneSched<A>
    ensures { result ≡ at_start true }
{
    match NoneSched::new(again(rt, alloc)) {
        Ok(scheduler) => scheduler,
        Err(_) => match NoneSched::new(again(rt, alloc)) {
            Ok(scheduler) => scheduler,
            Err(_) => panic!(rt; "out of memory"),
        },
    }
}

/// A core over a scheduler in which nothing waits.
pub fn core_over<S: Scheduler>(rt: &impl Abort, alloc: &S::A, setup: Setup, scheduler: S) -> Core<S>
    requires start { S.meaning scheduler ≡ at_start (S.meaning scheduler).front }
{
    match Core::new(again(rt, alloc), setup, scheduler) {
        Ok(core) => core,
        Err((scheduler, _)) => match Core::new(again(rt, alloc), setup, scheduler) {
            Ok(core) => core,
            Err(_) => panic!(rt; "out of memory"),
        },
    }
}

/// A core in the order of entry.
pub fn in_order<A: Allocator + Clone>(
    rt: &impl Abort,
    alloc: &A,
    setup: Setup,
) -> Core<NoneSched<A>> {
    core_over(rt, alloc, setup, scheduler(rt, alloc))
}

/// Makes the calls one after the other, each of which has its answer.
pub fn follow<S: Scheduler>(
    rt: &impl Abort,
    alloc: &S::A,
    core: &mut Core<S>,
    calls: &[CoreCall<'_>],
) {
    assert_eq!(rt; first_other(alloc, core, calls), None);
}

/// Makes the calls of a core in the order of entry.
pub fn follows(rt: &impl Abort, alloc: Global, setup: Setup, calls: &[CoreCall<'_>]) {
    let mut core = in_order(rt, &alloc, setup);
    follow(rt, &alloc, &mut core, calls);
}

/// Makes the calls of a core over the scheduler that is last in, first out.
pub fn lifo_follows(rt: &impl Abort, alloc: Global, setup: Setup, calls: &[CoreCall<'_>]) {
    let mut core = core_over(rt, &alloc, setup, Lifo::new(alloc));
    follow(rt, &alloc, &mut core, calls);
}

/// A command of an id, a release and a due round.
pub fn command(id: u64, release: u64, due: u64) -> Command {
    Command { id, release, due }
}
