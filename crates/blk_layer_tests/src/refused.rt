//! A layer where allocations are refused: each allocation of a scenario in turn, after which the call is made once more.

use crate::closed::tried;
use crate::given::{bio, core, limits, setup};
use crate::listed::{LayerCall, flushed};
use blk_bio::BioId;
use blk_layer::{FlushFault, FlushReason};
use blk_queues::Map;
use refusing::Refusing;
use std::alloc::Global;
use std::process::Abort;
use std::sync::Wait;

/// The allocator of this test.
type Heap<'a> = &'a Refusing<Global>;

/// Two zeros: the hardware queue of two software queues, or that of two workers.
fn zeros<'a>(rt: &impl Abort, heap: Heap<'a>) -> Vec<u8, Heap<'a>> {
    Vec::from_slice(heap, &[0, 0]).expect(rt, "memory")
}

/// Makes the calls of a layer over an allocator that refuses one from now on, and closes it; whether all is as it has to be. Where memory
/// is refused before there is a layer, one is made under another name.
fn all_of_it<R: Abort + Wait>(rt: &R, heap: Heap<'_>, calls: &[LayerCall], refuse: u64) -> bool {
    let limits = limits(rt);
    let core = core(rt, heap, setup(rt, 1, 1, limits));
    let map = Map::new(zeros(rt, heap)).expect(rt, "a map");
    let other_map = Map::new(zeros(rt, heap)).expect(rt, "a map");
    let (queues, other_queues) = (zeros(rt, heap), zeros(rt, heap));
    let left = [bio(rt, 0, 1, 100)];
    heap.refuse(refuse);
    match tried(rt, &heap, core, map, 1, queues, limits, calls, &left, 8) {
        Ok(other) => other == None,
        Err(core) => {
            let answer = tried(
                rt,
                &heap,
                core,
                other_map,
                1,
                other_queues,
                limits,
                calls,
                &left,
                8,
            );
            matches!(answer, Ok(None))
        }
    }
}

#[test]
fn memory_refused(rt: HostRuntime) {
    let full = FlushFault {
        left: 1,
        why: FlushReason::SoftFull,
    };
    let again = FlushFault {
        left: 2,
        why: FlushReason::Repeated(BioId {
            submitter: 0,
            serial: 0,
        }),
    };
    let calls = [
        LayerCall::Add(0, 0, 0),
        LayerCall::Add(0, 1, 100),
        LayerCall::Flush(0, Err(full)),
        LayerCall::Drain(0, Ok(1)),
        LayerCall::Flush(0, flushed(1)),
        LayerCall::Add(0, 0, 0),
        LayerCall::Add(0, 1, 100),
        LayerCall::Flush(0, Err(again)),
        LayerCall::Issue(0, Ok(Some((0, 0)))),
        LayerCall::Back(0, 0, Ok(0)),
        LayerCall::Depth(1, Ok(())),
        LayerCall::Tick(Ok(1)),
        LayerCall::Issue(1, Ok(Some((0, 0)))),
        LayerCall::Done(1, 0, Ok(())),
        LayerCall::Tick(Ok(2)),
    ];
    let heap = Refusing::new(rt.alloc());
    for n in 1..1000u64 {
        assert!(rt; all_of_it(&rt, &heap, &calls, n), "{n}");
        if heap.is_armed() {
            assert!(rt; n > 20);
            return;
        }
    }
    panic!(rt; "refused for ever");
}
