//! Moves from a software queue into the core.

use crate::given::{alone, bio, core, limits, setup};
use blk_bio::BioId;
use blk_core::CoreFault;
use blk_layer::{DrainFault, Layer};
use blk_none::NoneSched;
use blk_queues::{Map, SoftQueue};
use std::alloc::Global;
use std::marker::Brand;
use std::process::Abort;

type Plain = Layer<NoneSched, Brand>;

#[test]
fn move_first_then_none(rt: HostRuntime) {
    let alloc = rt.alloc();
    let mut core = core(&rt, alloc, setup(&rt, 1, 1, limits(&rt)));
    let map = map_of(&rt, alloc, &[0]);
    let mut queue = queue_of(&rt, alloc, &[7]);
    assert!(rt; queue.limits() == core.trace().setup().limits());
    assert!(rt; Plain::move_first(&mut queue, &mut core, &map) == Ok(true));
    assert!(rt; (queue.len(), core.pending()) == (0, 1));
    assert!(rt; queue.limits() == core.trace().setup().limits());
    assert!(rt; Plain::move_first(&mut queue, &mut core, &map) == Ok(false));
    assert!(rt; core.trace().len() == 1);
}

// A request whose bio's id stands in the trace is refused, and stays first.
#[test]
fn move_first_refused(rt: HostRuntime) {
    let alloc = rt.alloc();
    let mut core = core(&rt, alloc, setup(&rt, 1, 1, limits(&rt)));
    let map = map_of(&rt, alloc, &[0]);
    let mut queue = queue_of(&rt, alloc, &[7, 7]);
    assert!(rt; queue.limits() == core.trace().setup().limits());
    assert!(rt; Plain::move_first(&mut queue, &mut core, &map) == Ok(true));
    assert!(rt; queue.limits() == core.trace().setup().limits());
    let again = CoreFault::Repeated(BioId {
        submitter: 0,
        serial: 7,
    });
    assert!(rt; Plain::move_first(&mut queue, &mut core, &map) == Err(again));
    assert!(rt; (queue.len(), core.pending()) == (1, 1));
}

/// What the move of a request of submitter 1 answers under a map, over a core of two hardware queues, and whether each of them is then
/// issued a command.
fn moved_by(
    rt: &impl Abort,
    alloc: Global,
    entries: &[u8],
) -> (Result<bool, CoreFault>, bool, bool) {
    let limits = limits(rt);
    let mut core = core(rt, alloc, setup(rt, 4, 2, limits));
    let map = map_of(rt, alloc, entries);
    let mut queue = SoftQueue::new(alloc, 4, limits).expect(rt, "memory");
    let request = alone(rt, alloc, bio(rt, 1, 7, 0));
    assert!(rt; request.within(&queue.limits()));
    assert!(rt; queue.put(request).is_ok());
    assert!(rt; queue.limits() == core.trace().setup().limits());
    let moved = Plain::move_first(&mut queue, &mut core, &map);
    let first = core.issue(0, 0).expect(rt, "an issue");
    let second = core.issue(1, 1).expect(rt, "an issue");
    (moved, first.is_some(), second.is_some())
}

// A request goes to the hardware queue that the map has for its submitter. A map without that submitter refuses it, and one that has a
// hardware queue for it that the core hasn't.
#[test]
fn move_first_by_the_map(rt: HostRuntime) {
    let alloc = rt.alloc();
    assert!(rt; moved_by(&rt, alloc, &[0, 1]) == (Ok(true), false, true));
    assert!(rt; moved_by(&rt, alloc, &[1, 0]) == (Ok(true), true, false));
    assert!(rt; moved_by(&rt, alloc, &[0]) == (Err(CoreFault::NoQueue), false, false));
    assert!(rt; moved_by(&rt, alloc, &[0, 2, 1]) == (Err(CoreFault::NoQueue), false, false));
}

/// A queue of reads of submitter 0, of these serial numbers.
fn queue_of(rt: &impl Abort, alloc: Global, serials: &[u64]) -> SoftQueue {
    let limits = limits(rt);
    let mut queue = SoftQueue::new(alloc, 4, limits).expect(rt, "memory");
    for serial in serials {
        let request = alone(rt, alloc, bio(rt, 0, *serial, serial.saturating_mul(100)));
        assert!(rt; request.within(&queue.limits()));
        assert!(rt; queue.put(request).is_ok());
    }
    queue
}

/// A map of software queues to these hardware queues.
fn map_of(rt: &impl Abort, alloc: Global, entries: &[u8]) -> Map {
    let entries = Vec::from_slice(alloc, entries).expect(rt, "memory");
    Map::new(entries).expect(rt, "a map")
}

/// Two requests moved, and the third refused since its bio's id stands in the trace.
fn again_at_the_third() -> DrainFault {
    DrainFault {
        moved: 2,
        why: CoreFault::Repeated(BioId {
            submitter: 0,
            serial: 1,
        }),
    }
}

/// What a move of all answers, and how many requests stay in the queue and wait in the core.
fn all_of(
    rt: &impl Abort,
    alloc: Global,
    serials: &[u64],
) -> (Result<u64, DrainFault>, usize, u64) {
    let limits = limits(rt);
    let mut core = core(rt, alloc, setup(rt, 1, 1, limits));
    let map = map_of(rt, alloc, &[0]);
    let mut queue = queue_of(rt, alloc, serials);
    assert!(rt; queue.limits() == core.trace().setup().limits());
    let answer = Plain::move_all(&mut queue, &mut core, &map);
    (answer, queue.len(), core.pending())
}

// All of them, or those before the first one that is refused.
#[test]
fn move_all_or_to_the_first_refused(rt: HostRuntime) {
    let alloc = rt.alloc();
    let again = again_at_the_third();
    assert!(rt; all_of(&rt, alloc, &[]) == (Ok(0), 0, 0));
    assert!(rt; all_of(&rt, alloc, &[1, 2, 3]) == (Ok(3), 0, 3));
    assert!(rt; all_of(&rt, alloc, &[1, 2, 1, 3]) == (Err(again), 2, 2));
}
