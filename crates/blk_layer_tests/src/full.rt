//! A layer whose trace is full.

use crate::closed::other_than;
use crate::given::bio;
use crate::listed::{LayerCall, flushed};
use blk_core::{CoreFault, DepthFault, IssueFault, TickFault};
use blk_layer::{DrainFault, LayerIssueFault, WorkFault};

// A trace of nothing but ticks is full: the bio that was flushed stays in its software queue, and is left there.
#[test]
fn layer_full_of_ticks(rt: HostRuntime) {
    let full = DrainFault {
        moved: 0,
        why: CoreFault::TraceFull,
    };
    let calls = [
        LayerCall::Ticks(1_000_000),
        LayerCall::Tick(Err(TickFault::TraceFull)),
        LayerCall::Add(0, 0, 0),
        LayerCall::Flush(0, flushed(1)),
        LayerCall::Drain(0, Err(full)),
    ];
    let other = other_than(
        &rt,
        rt.alloc(),
        (1, 1, 1),
        &[0, 0],
        &[0, 0],
        &calls,
        &[bio(&rt, 0, 0, 0)],
        1_000_000,
    );
    assert_eq!(rt; other, None);
}

// One place is left in the trace, which the request of the first software queue takes; that of the second is refused. A full trace
// refuses an issue, a depth and a worker's work too.
#[test]
fn layer_full_at_a_release(rt: HostRuntime) {
    let moved = DrainFault {
        moved: 1,
        why: CoreFault::TraceFull,
    };
    let none_moved = DrainFault {
        moved: 0,
        why: CoreFault::TraceFull,
    };
    let calls = [
        LayerCall::Ticks(999_999),
        LayerCall::Add(1, 0, 100),
        LayerCall::Flush(1, flushed(1)),
        LayerCall::Add(0, 0, 0),
        LayerCall::Flush(0, flushed(1)),
        LayerCall::Drain(0, Err(moved)),
        LayerCall::Drain(1, Err(none_moved)),
        LayerCall::Issue(0, Err(LayerIssueFault::Issue(IssueFault::TraceFull))),
        LayerCall::Depth(1, Err(DepthFault::TraceFull)),
        LayerCall::Work(0, 1, 0, Err(WorkFault::TraceFull), 0),
    ];
    let other = other_than(
        &rt,
        rt.alloc(),
        (1, 1, 1),
        &[0, 0],
        &[0, 0],
        &calls,
        &[bio(&rt, 1, 0, 100), bio(&rt, 0, 0, 0)],
        1_000_000,
    );
    assert_eq!(rt; other, None);
}

// A worker's work ends where the trace has one place for an Issue and its end.
#[test]
fn layer_full_at_an_issue_of_work(rt: HostRuntime) {
    let calls = [
        LayerCall::Ticks(999_998),
        LayerCall::Fill(0, 0, 1),
        LayerCall::Work(0, 1, 0, Err(WorkFault::TraceFull), 0),
        LayerCall::Ran(0, 0),
    ];
    let other = other_than(
        &rt,
        rt.alloc(),
        (1, 1, 1),
        &[0, 0],
        &[0, 0],
        &calls,
        &[bio(&rt, 0, 0, 0)],
        999_999,
    );
    assert_eq!(rt; other, None);
}

// It ends too where the round is full and the trace has no place for its end; what ran before stands.
#[test]
fn layer_full_at_a_tick_of_work(rt: HostRuntime) {
    let calls = [
        LayerCall::Ticks(999_996),
        LayerCall::Fill(0, 0, 2),
        LayerCall::Work(0, 1, 0, Err(WorkFault::TraceFull), 1),
        LayerCall::Ran(0, 1),
    ];
    let other = other_than(
        &rt,
        rt.alloc(),
        (1, 1, 2),
        &[0, 0],
        &[0, 0],
        &calls,
        &[bio(&rt, 0, 1, 100)],
        1_000_000,
    );
    assert_eq!(rt; other, None);
}
