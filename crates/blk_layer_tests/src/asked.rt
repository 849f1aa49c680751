//! What submitters and workers of a layer are asked in the tests.

ghost use Rattle.std.specs.Prelude.{◌≡◌, ◌<◌, All, length};

use crate::given::bio;
use blk_bio::Limits;
use blk_layer::{Closed, Flushed, Layer, MAX_WORKERS, Named, Submitter, Worker};
use blk_none::NoneSched;
use blk_queues::{Added, Plug};
use blk_sched::Scheduler;
use std::alloc::Global;
use std::process::Abort;
use std::sync::Wait;

/// A submitter flushes a request of one bio.
pub fn flush_one<R: Abort + Wait, L: Named>(
    rt: &R,
    alloc: Global,
    layer: &Layer<NoneSched, L>,
    submitter: &mut Submitter<L>,
    limits: Limits,
    serial: u64,
)
    requires seat { submitter.old.number < length layer.now.map }
    requires limits { L.setup.limits ≡ limits }
    ensures { submitter.new.number ≡ submitter.old.number }
{
    let mut plug = Plug::new(alloc, limits).expect(rt, "memory");
    let first = serial.saturating_mul(100) % 1_000_000;
    let Ok(Added::New) = plug.add(bio(rt, submitter.number(), serial, first)) else {
        panic!(rt; "a first request");
    };
    let one = Flushed {
        requests: 1,
        bios: 1,
    };
    assert!(rt; layer.flush(rt, submitter, &mut plug) == Ok(one));
}

/// The last of a layer's workers leaves the list.
pub fn last<S: Scheduler, L: Named>(
    rt: &impl Abort,
    layer: &Layer<S, L>,
    workers: &mut Vec<Worker<L, S::A>, S::A>,
) -> Worker<L, S::A>
    requires { All (λ w. w.tag_set ≡ layer.now.tag_set) workers.old.items }
    ensures rest { All (λ w. w.tag_set ≡ layer.now.tag_set) workers.new.items }
    ensures last { result.tag_set ≡ layer.now.tag_set }
{
    workers.pop().expect(rt, "a worker")
}

/// What is left of a layer that is closed with all of its seats.
pub fn close<L: Named>(
    rt: &impl Abort,
    alloc: Global,
    layer: Layer<NoneSched, L>,
    submitters: Vec<Submitter<L>>,
    workers: Vec<Worker<L>>,
) -> Closed
    requires parts { L.parts ≡ MAX_WORKERS }
{
    match layer.close(alloc, submitters, workers) {
        Ok(closed) => closed,
        Err(_) => panic!(rt; "the accounts agree"),
    }
}
