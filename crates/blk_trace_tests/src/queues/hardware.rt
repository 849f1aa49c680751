//! Maps from software queues to hardware queues, and requeue lists.

use crate::queues::given::{Heap, bio};
use blk_bio::Dir;
use blk_queues::{Map, MapFault, RequeueList, RequeueLists};
use blk_sched::Queued;
use refusing::Refusing;
use std::alloc::Global;
use std::process::Abort;

/// What comes of making a map.
fn map(rt: &impl Abort, alloc: Global, entries: &[u8]) -> Result<Map, MapFault> {
    Map::new(Vec::from_slice(alloc, entries).expect(rt, "memory"))
}

#[test]
fn constructors_refuse(rt: HostRuntime) {
    let refused: [(&[u8], MapFault); 5] = [
        (&[], MapFault::Empty),
        (&[1], MapFault::Unserved(0)),
        (&[0, 3, 1], MapFault::Unserved(2)),
        (&[16], MapFault::TooMany),
        (&[0; 65], MapFault::TooMany),
    ];
    for (entries, fault) in refused {
        assert_eq!(rt; map(&rt, rt.alloc(), entries).err(), Some(fault));
    }
    let made: [(&[u8], usize, u8); 3] = [
        (&[0; 64], 64, 1),
        (
            &[0, 1, 2, 3, 4, 5, 6, 7, 8, 9, 10, 11, 12, 13, 14, 15],
            16,
            16,
        ),
        (&[0, 1, 0], 3, 2),
    ];
    for (entries, soft_count, hw_count) in made {
        let map = map(&rt, rt.alloc(), entries).expect(&rt, "a map");
        assert_eq!(rt; (map.soft_count(), map.hw_count()), (soft_count, hw_count));
        for (soft, hw) in entries.iter().enumerate() {
            assert!(rt; soft < map.soft_count());
            assert_eq!(rt; map.hw_of(soft), *hw);
        }
    }
}

/// A read with an id, released in round 1 and due in round 5.
fn queued(rt: &impl Abort, id: u64) -> Queued {
    Queued {
        id,
        hw: 0,
        release: 1,
        due: 5,
        extent: bio(rt, Dir::Read, 0, 1).extent(),
    }
}

/// Requests leave in the order in which they were requeued, which is not that of their ids.
fn holds(rt: &impl Abort, heap: Heap<'_>) {
    let mut requeued = RequeueList::new(heap);
    assert_eq!(rt; requeued.len(), 0);
    for id in 0..20u64 {
        let id = 19 - id;
        let queued = queued(rt, id);
        let armed = heap.is_armed();
        if requeued.push(queued).is_err() {
            assert!(rt; armed && !heap.is_armed());
            assert!(rt; requeued.push(queued).is_ok());
        }
    }
    assert_eq!(rt; requeued.len(), 20);
    for id in 0..20u64 {
        let first = requeued.take_first().expect(rt, "a request");
        assert_eq!(rt;
            (first.id, first.hw, first.release, first.due),
            (19 - id, 0, 1, 5)
        );
    }
    assert!(rt; requeued.take_first().is_none());
}

/// What was requeued from a hardware queue goes out to that one alone, in the order in which it was requeued.
#[test]
fn requeued_by_hardware_queue(rt: HostRuntime) {
    let heap = Refusing::new(rt.alloc());
    let mut requeued = RequeueLists::new(&heap, 3).expect(&rt, "memory");
    assert!(rt; requeued.push(2, queued(&rt, 7)).is_ok());
    assert!(rt; requeued.push(0, queued(&rt, 4)).is_ok());
    assert!(rt; requeued.push(2, queued(&rt, 5)).is_ok());
    assert!(rt; requeued.take_first(1).is_none());
    assert_eq!(rt;
        requeued.take_first(2).expect(&rt, "the first of two").id,
        7
    );
    assert_eq!(rt; requeued.take_first(0).expect(&rt, "the only one").id, 4);
    assert_eq!(rt; requeued.take_first(2).expect(&rt, "the second").id, 5);
    assert!(rt; requeued.take_first(2).is_none());
    assert!(rt; requeued.take_first(0).is_none());
}

#[test]
fn memory_refused(rt: HostRuntime) {
    let heap = Refusing::new(rt.alloc());
    for n in 1..1000u64 {
        heap.refuse(n);
        holds(&rt, &heap);
        if heap.is_armed() {
            assert!(rt; n > 2);
            return;
        }
    }
    panic!(rt; "refused for ever");
}
