//! Flushes into a software queue of one request, drains of it, and what is left in both at a close.

use crate::closed::other_than;
use crate::given::bio;
use crate::listed::{LayerCall, flushed};
use blk_bio::BioId;
use blk_layer::{FlushFault, FlushReason, MAX_MOVES};

// The first of two requests fills the software queue; once it is drained, the second one does. The first bio's id is refused from
// then on. The bio in the software queue is left first, and then the one that waits in the core.
#[test]
fn layer_soft_queue_full(rt: HostRuntime) {
    let full = FlushFault {
        left: 1,
        why: FlushReason::SoftFull,
    };
    let again = FlushFault {
        left: 2,
        why: FlushReason::Repeated(BioId {
            submitter: 0,
            serial: 0,
        }),
    };
    let calls = [
        LayerCall::Add(0, 0, 0),
        LayerCall::Add(0, 1, 100),
        LayerCall::Flush(0, Err(full)),
        LayerCall::Accepted(0, 1),
        LayerCall::Drain(0, Ok(1)),
        LayerCall::Flush(0, flushed(1)),
        LayerCall::Accepted(0, 2),
        LayerCall::Add(0, 0, 0),
        LayerCall::Add(0, 1, 100),
        LayerCall::Flush(0, Err(again)),
    ];
    let left = [bio(&rt, 0, 1, 100), bio(&rt, 0, 0, 0)];
    let other = other_than(
        &rt,
        rt.alloc(),
        (1, 1, 1),
        &[0, 0],
        &[0, 0],
        &calls,
        &left,
        1,
    );
    assert_eq!(rt; other, None);
}

// The software queues of one hardware queue are drained by rising number, whichever was filled first.
#[test]
fn layer_drains_by_rising_number(rt: HostRuntime) {
    let calls = [
        LayerCall::Add(1, 0, 100),
        LayerCall::Flush(1, flushed(1)),
        LayerCall::Add(0, 0, 0),
        LayerCall::Add(0, 1, 200),
        LayerCall::Flush(0, flushed(2)),
        LayerCall::Drain(0, Ok(3)),
        LayerCall::Drain(0, Ok(0)),
    ];
    let left = [bio(&rt, 0, 0, 0), bio(&rt, 0, 1, 200), bio(&rt, 1, 0, 100)];
    let other = other_than(
        &rt,
        rt.alloc(),
        (1, 1, 4),
        &[0, 0],
        &[0, 0],
        &calls,
        &left,
        3,
    );
    assert_eq!(rt; other, None);
}

// What a software queue holds when the layer is closed is left in the order in which it came.
#[test]
fn layer_leaves_a_queue_in_order(rt: HostRuntime) {
    let calls = [
        LayerCall::Add(0, 0, 0),
        LayerCall::Add(0, 1, 200),
        LayerCall::Flush(0, flushed(2)),
    ];
    let left = [bio(&rt, 0, 0, 0), bio(&rt, 0, 1, 200)];
    let other = other_than(
        &rt,
        rt.alloc(),
        (1, 1, 4),
        &[0, 0],
        &[0, 0],
        &calls,
        &left,
        0,
    );
    assert_eq!(rt; other, None);
}

// The deepest software queue is filled and drained at once; one request more had no room before.
#[test]
fn layer_soft_queue_of_the_greatest_depth(rt: HostRuntime) {
    let full = FlushFault {
        left: 1,
        why: FlushReason::SoftFull,
    };
    let calls = [
        LayerCall::Fill(0, 0, MAX_MOVES),
        LayerCall::Add(0, MAX_MOVES, 900_000),
        LayerCall::Flush(0, Err(full)),
        LayerCall::Drain(0, Ok(MAX_MOVES)),
        LayerCall::Flush(0, flushed(1)),
        LayerCall::Drain(1, Ok(1)),
        LayerCall::Finish,
        LayerCall::Work(0, 1000, 0, Ok((513, 1025, true)), 1025),
        LayerCall::Ran(0, 1025),
    ];
    let other = other_than(
        &rt,
        rt.alloc(),
        (2, 1, 1024),
        &[0, 0],
        &[0, 0],
        &calls,
        &[],
        3587,
    );
    assert_eq!(rt; other, None);
}

// All requests of a software queue are left at a close, also where they are more than a plug holds.
#[test]
fn layer_leaves_forty(rt: HostRuntime) {
    let mut left = Vec::new(rt.alloc());
    for serial in 0..40u64 {
        left.push(bio(&rt, 0, serial, serial * 100))
            .expect(&rt, "memory");
    }
    let calls = [LayerCall::Fill(0, 0, 40)];
    let other = other_than(
        &rt,
        rt.alloc(),
        (1, 1, 64),
        &[0, 0],
        &[0, 0],
        &calls,
        left.as_slice(),
        0,
    );
    assert_eq!(rt; other, None);
}
