//! Workers that work to the end.

use crate::closed::other_than;
use crate::listed::{LayerCall, flushed};

// Passes that find nothing are no end before it is said that nothing more will be flushed. Three requests at depth 2, the second of
// which the device is too busy for at first: two rounds are used up and end. Two more at depth 1, of which each round carries one. Two
// rounds more are ended by hand, one after each depth.
#[test]
fn work_to_the_end(rt: HostRuntime) {
    let calls = [
        LayerCall::Work(0, 2, 0, Ok((2, 0, false)), 0),
        LayerCall::Add(0, 0, 0),
        LayerCall::Add(0, 1, 100),
        LayerCall::Add(0, 2, 200),
        LayerCall::Flush(0, flushed(3)),
        LayerCall::Work(0, 0, 2, Ok((0, 0, false)), 0),
        LayerCall::Work(0, 1, 2, Ok((1, 1, false)), 2),
        LayerCall::Finish,
        LayerCall::Work(0, 10, 0, Ok((1, 2, true)), 2),
        LayerCall::Work(0, 10, 0, Ok((1, 0, true)), 0),
        LayerCall::Ran(0, 3),
        LayerCall::Tick(Ok(3)),
        LayerCall::Depth(1, Ok(())),
        LayerCall::Tick(Ok(4)),
        LayerCall::Add(0, 3, 300),
        LayerCall::Add(0, 4, 400),
        LayerCall::Flush(0, flushed(2)),
        LayerCall::Work(0, 10, 0, Ok((2, 2, true)), 2),
        LayerCall::Tick(Ok(7)),
    ];
    let other = other_than(
        &rt,
        rt.alloc(),
        (2, 1, 4),
        &[0, 0],
        &[0, 0],
        &calls,
        &[],
        25,
    );
    assert_eq!(rt; other, None);
}

// At depth 1 a pass serves one command and ends the round. Passes that are used up are no end, though nothing more is flushed.
#[test]
fn passes_used_up_twice(rt: HostRuntime) {
    let calls = [
        LayerCall::Add(0, 0, 0),
        LayerCall::Add(0, 1, 100),
        LayerCall::Add(0, 2, 200),
        LayerCall::Add(0, 3, 300),
        LayerCall::Flush(0, flushed(4)),
        LayerCall::Work(0, 1, 0, Ok((1, 1, false)), 1),
        LayerCall::Finish,
        LayerCall::Work(0, 2, 0, Ok((2, 2, false)), 2),
        LayerCall::Work(0, 1, 0, Ok((1, 1, true)), 1),
        LayerCall::Ran(0, 4),
        LayerCall::Tick(Ok(5)),
    ];
    let other = other_than(
        &rt,
        rt.alloc(),
        (1, 1, 4),
        &[0, 0],
        &[0, 0],
        &calls,
        &[],
        17,
    );
    assert_eq!(rt; other, None);
}

// The request of one submitter joins that of the other in the core: one command runs for both. A worker of a hardware queue that nothing
// was flushed for finds nothing.
#[test]
fn joined_and_served_once(rt: HostRuntime) {
    let calls = [
        LayerCall::Add(0, 0, 0),
        LayerCall::Flush(0, flushed(1)),
        LayerCall::Add(1, 0, 8),
        LayerCall::Flush(1, flushed(1)),
        LayerCall::Drain(0, Ok(2)),
        LayerCall::Finish,
        LayerCall::Work(0, 5, 0, Ok((1, 1, true)), 1),
        LayerCall::Ran(0, 1),
    ];
    let other = other_than(&rt, rt.alloc(), (2, 1, 4), &[0, 0], &[0, 0], &calls, &[], 4);
    assert_eq!(rt; other, None);
}
