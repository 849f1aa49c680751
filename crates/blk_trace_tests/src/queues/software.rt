//! Software queues.

use crate::queues::given::{Heap, bio, limits, request};
use blk_bio::{Dir, Request};
use blk_queues::SoftQueue;
use refusing::Refusing;
use std::process::Abort;

/// A queue of two requests.
fn queue<'a>(rt: &impl Abort, heap: Heap<'a>) -> SoftQueue<Heap<'a>> {
    let limits = limits(rt, 256, 128);
    let armed = heap.is_armed();
    match SoftQueue::new(heap, 2, limits) {
        Ok(queue) => queue,
        Err(_) => {
            assert!(rt; armed && !heap.is_armed());
            SoftQueue::new(heap, 2, limits).expect(rt, "out of memory")
        }
    }
}

/// Puts a read of one sector, and says whether there was room.
fn put<'a>(rt: &impl Abort, heap: Heap<'a>, queue: &mut SoftQueue<Heap<'a>>, first: u64) -> bool {
    let limits = queue.limits();
    let request = request(rt, heap, bio(rt, Dir::Read, first, 1));
    assert!(rt; request.within(&limits));
    match queue.put(request) {
        Ok(()) => true,
        Err(back) => {
            assert_eq!(rt; back.first(), first);
            false
        }
    }
}

/// Puts a request back that was taken.
fn put_first<'a>(rt: &impl Abort, queue: &mut SoftQueue<Heap<'a>>, request: Request<Heap<'a>>) {
    let limits = queue.limits();
    assert!(rt; request.within(&limits));
    assert!(rt; (queue.len() as u64) < queue.depth());
    assert!(rt; request.bios().len() as u64 <= queue.bios_out());
    queue.put_first(request);
}

/// How many requests a queue holds, and how many bios came and went.
fn counts(queue: &SoftQueue<Heap<'_>>) -> (usize, u64, u64) {
    (queue.len(), queue.bios_in(), queue.bios_out())
}

/// Three reads come, for the third of which there is no room, and one is put back.
fn first_in_first_out(rt: &impl Abort, heap: Heap<'_>) {
    let mut queue = queue(rt, heap);
    assert_eq!(rt; queue.limits(), limits(rt, 256, 128));
    assert_eq!(rt; (queue.depth(), counts(&queue)), (2, (0, 0, 0)));
    assert!(rt; queue.take_first().is_none());
    for (first, room) in [(3, true), (5, true), (7, false)] {
        assert_eq!(rt; put(rt, heap, &mut queue, first), room);
    }
    assert_eq!(rt; counts(&queue), (2, 2, 0));
    let taken = queue.take_first().expect(rt, "a request");
    assert_eq!(rt; (taken.first(), counts(&queue)), (3, (1, 2, 1)));
    put_first(rt, &mut queue, taken);
    assert_eq!(rt; counts(&queue), (2, 2, 0));
    for first in [3, 5] {
        let taken = queue.take_first().expect(rt, "a request");
        assert_eq!(rt; taken.first(), first);
    }
    assert!(rt; queue.take_first().is_none());
    assert_eq!(rt; counts(&queue), (0, 2, 2));
}

/// The queue takes memory when it is made, and then no more: one allocation in all, since a request of one bio takes none.
#[test]
fn memory_refused(rt: HostRuntime) {
    let heap = Refusing::new(rt.alloc());
    heap.refuse(1);
    first_in_first_out(&rt, &heap);
    assert!(rt; !heap.is_armed());
    heap.refuse(2);
    first_in_first_out(&rt, &heap);
    assert!(rt; heap.is_armed());
}
