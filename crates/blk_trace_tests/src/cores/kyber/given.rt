//! What the tests are given: cores over the kyber scheduler.

use crate::cores::given::{again, core_over, follow};
use crate::cores::listed::CoreCall;
use blk_bio::Limits;
use blk_core::Core;
use blk_kyber::{Kyber, Targets};
use blk_trace::Setup;
use std::alloc::{Allocator, Global};
use std::process::Abort;

/// A core over the kyber scheduler.
pub type Under<A> = Core<Kyber<A>>;

/// The targets of reads and of writes.
pub fn targets(read: u64, write: u64) -> Targets {
    Targets { read, write }
}

/// A core of these numbers of tags and hardware queues, under which requests are due when they enter.
pub fn under<A: Allocator + Clone>(
    rt: &impl Abort,
    alloc: &A,
    depth: u64,
    queues: u8,
    targets: Targets,
) -> Under<A> {
    let limits = Limits::new(256, 128).expect(rt, "limits");
    let setup = Setup::new(depth, queues, 0, 0, limits).expect(rt, "a setup");
    assert!(rt; depth >= 1 && depth <= 256);
    let scheduler = match Kyber::new(again(rt, alloc), targets, depth) {
        Ok(scheduler) => scheduler,
        Err(_) => Kyber::new(again(rt, alloc), targets, depth).expect(rt, "a scheduler"),
    };
    core_over(rt, alloc, setup, scheduler)
}

/// Makes the calls of a core of these numbers of tags and hardware queues.
pub fn follows(
    rt: &impl Abort,
    alloc: Global,
    depth: u64,
    queues: u8,
    targets: Targets,
    calls: &[CoreCall<'_>],
) {
    let mut core = under(rt, &alloc, depth, queues, targets);
    follow(rt, &alloc, &mut core, calls);
}
