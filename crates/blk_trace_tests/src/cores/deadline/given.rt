//! What the tests are given: cores over the deadline scheduler.

use crate::cores::given::{again, core_over, follow};
use crate::cores::listed::CoreCall;
use blk_bio::Limits;
use blk_core::Core;
use blk_deadline::{Deadline, Positions, Tunables};
use blk_trace::Setup;
use std::alloc::{Allocator, Global};
use std::process::Abort;

/// A core over the deadline scheduler.
pub type Under<A> = Core<Deadline<A>>;

/// The settings: the batch, how often reads go first, and whether a newcomer may join at the front. There is one position.
pub fn tuned(fifo_batch: u16, writes_starved: u16, front_merges: bool) -> Tunables {
    Tunables {
        fifo_batch,
        writes_starved,
        front_merges,
        positions: Positions::One,
    }
}

/// A core of this number of tags and one hardware queue, under which requests are due after this number of rounds.
pub fn under<A: Allocator + Clone>(
    rt: &impl Abort,
    alloc: &A,
    depth: u64,
    expire: u64,
    tunables: Tunables,
) -> Under<A> {
    let limits = Limits::new(256, 128).expect(rt, "limits");
    let setup = Setup::new(depth, 1, expire, expire, limits).expect(rt, "a setup");
    let scheduler = Deadline::new(again(rt, alloc), tunables).expect(rt, "a scheduler");
    core_over(rt, alloc, setup, scheduler)
}

/// Makes the calls of a core of this number of tags under these settings, under which requests are due after this number of rounds.
pub fn follows(
    rt: &impl Abort,
    alloc: Global,
    depth: u64,
    expire: u64,
    tunables: Tunables,
    calls: &[CoreCall<'_>],
) {
    let mut core = under(rt, &alloc, depth, expire, tunables);
    follow(rt, &alloc, &mut core, calls);
}
