//! What a new layer has, and why none is made.

ghost use Rattle.std.specs.Prelude.{◌≡◌, []};

use crate::given::{core, limits, setup};
use blk_core::Core;
use blk_layer::{Layer, LayerFault, MAX_WORKERS, Named};
use blk_none::NoneSched;
use blk_queues::Map;
use std::alloc::Global;
use std::marker::Brand;
use std::process::Abort;
use std::sync::ledger::Blank;

/// How many submitters and workers a layer is made with, or why it isn't made; the core comes back then.
fn made<L: Named>(
    alloc: Global,
    blank: Blank,
    core: Core<NoneSched>,
    map: Map,
    soft_depth: u64,
    worker_queues: Vec<u8>,
) -> Result<(usize, usize), (LayerFault, u64)>
    requires name { blank.name ≡ L.name }
    requires parts { (blank.parts ≡ MAX_WORKERS) × (L.parts ≡ MAX_WORKERS) }
    requires setup { core.setup ≡ L.setup }
    requires start { core ≡ L.start }
    requires map { L.map ≡ map }
    requires queues { L.queues ≡ worker_queues.items }
    requires empty { core.events ≡ [] }
{
    match Layer::<NoneSched, L>::new(alloc, blank, core, map, soft_depth, worker_queues) {
        Ok((_, submitters, workers)) => Ok((submitters.len(), workers.len())),
        Err((why, core)) => Err((why, core.trace().setup().depth())),
    }
}

/// What comes of a layer over a core of depth 3 and two hardware queues, and of these numbers.
fn of_two_queues(
    rt: &impl Abort,
    alloc: Global,
    map: &[u8],
    soft_depth: u64,
    worker_queues: &[u8],
) -> Result<(usize, usize), (LayerFault, u64)> {
    let entries = Vec::from_slice(alloc, map).expect(rt, "memory");
    let map = Map::new(entries).expect(rt, "a map");
    let queues = Vec::from_slice(alloc, worker_queues).expect(rt, "memory");
    let core = core(rt, alloc, setup(rt, 3, 2, limits(rt)));
    made::<Brand>(
        alloc,
        Blank::new(MAX_WORKERS),
        core,
        map,
        soft_depth,
        queues,
    )
}

#[test]
fn constructors_refuse(rt: HostRuntime) {
    let alloc = rt.alloc();
    let of = |map: &[u8], soft_depth: u64, queues: &[u8]| {
        of_two_queues(&rt, alloc, map, soft_depth, queues)
    };
    assert_eq!(rt; of(&[0, 1], 1, &[1, 0]), Ok((2, 2)));
    assert_eq!(rt; of(&[0], 0, &[]), Err((LayerFault::Queues, 3)));
    assert_eq!(rt; of(&[0, 1], 0, &[]), Err((LayerFault::SoftDepth, 3)));
    assert_eq!(rt; of(&[0, 1], 1025, &[2]), Err((LayerFault::SoftDepth, 3)));
    assert_eq!(rt; of(&[1, 0, 1], 1024, &[]), Err((LayerFault::Workers, 3)));
    assert_eq!(rt; of(&[0, 1], 1, &[2; 65]), Err((LayerFault::Workers, 3)));
    assert_eq!(rt;
        of(&[0, 1], 1, &[1, 3, 2]),
        Err((LayerFault::WorkerQueue(1), 3))
    );
    assert_eq!(rt; of(&[0, 1, 0], 4, &[1; 64]), Ok((3, 64)));
}
