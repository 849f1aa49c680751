//! Commands that workers are issued, report done and requeue.

use crate::closed::other_than;
use crate::given::bio;
use crate::listed::{LayerCall, flushed};
use blk_core::{BackFault, DepthFault, IssueFault, NotIssued};
use blk_layer::LayerIssueFault;

// Two workers take turns at one tag.
#[test]
fn layer_two_workers_one_tag(rt: HostRuntime) {
    let calls = [
        LayerCall::Add(0, 0, 0),
        LayerCall::Add(0, 1, 100),
        LayerCall::Flush(0, flushed(2)),
        LayerCall::Drain(1, Ok(2)),
        LayerCall::Issue(0, Ok(Some((0, 0)))),
        LayerCall::Issue(1, Err(LayerIssueFault::NoTag)),
        LayerCall::Done(0, 0, Ok(())),
        LayerCall::Issue(1, Err(LayerIssueFault::Issue(IssueFault::SlotUsed))),
        LayerCall::Tick(Ok(1)),
        LayerCall::Issue(1, Ok(Some((1, 0)))),
        LayerCall::Ran(0, 1),
        LayerCall::Ran(1, 0),
    ];
    let other = other_than(&rt, rt.alloc(), (1, 1, 4), &[0, 0], &[0, 0], &calls, &[], 6);
    assert_eq!(rt; other, None);
}

// Each worker is given what was flushed for its own hardware queue.
#[test]
fn layer_two_workers_two_queues(rt: HostRuntime) {
    let calls = [
        LayerCall::Add(1, 0, 0),
        LayerCall::Flush(1, flushed(1)),
        LayerCall::Drain(0, Ok(0)),
        LayerCall::Add(0, 0, 0),
        LayerCall::Flush(0, flushed(1)),
        LayerCall::Drain(1, Ok(1)),
        LayerCall::Issue(0, Ok(None)),
        LayerCall::Issue(1, Ok(Some((0, 0)))),
        LayerCall::Drain(0, Ok(1)),
        LayerCall::Done(0, 0, Err(NotIssued)),
        LayerCall::Issue(0, Ok(Some((1, 1)))),
    ];
    let other = other_than(&rt, rt.alloc(), (2, 2, 4), &[0, 1], &[0, 1], &calls, &[], 4);
    assert_eq!(rt; other, None);
}

// A command that is requeued goes out first; a depth is in force from the next round on, which carries one command then.
#[test]
fn layer_back_and_depth(rt: HostRuntime) {
    let calls = [
        LayerCall::Add(0, 0, 0),
        LayerCall::Add(0, 1, 100),
        LayerCall::Flush(0, flushed(2)),
        LayerCall::Drain(0, Ok(2)),
        LayerCall::Issue(0, Ok(Some((0, 0)))),
        LayerCall::Back(0, 0, Ok(0)),
        LayerCall::Back(0, 0, Err(BackFault::NotIssued)),
        LayerCall::Issue(0, Ok(Some((0, 1)))),
        LayerCall::Done(0, 1, Ok(())),
        LayerCall::Depth(0, Err(DepthFault::DepthRange)),
        LayerCall::Depth(3, Err(DepthFault::DepthRange)),
        LayerCall::Depth(1, Ok(())),
        LayerCall::Tick(Ok(1)),
        LayerCall::Issue(0, Ok(Some((1, 0)))),
        LayerCall::Done(0, 0, Ok(())),
        LayerCall::Issue(0, Err(LayerIssueFault::Issue(IssueFault::TagRange))),
    ];
    let other = other_than(
        &rt,
        rt.alloc(),
        (2, 1, 4),
        &[0, 0],
        &[0, 0],
        &calls,
        &[],
        10,
    );
    assert_eq!(rt; other, None);
}

// A depth of three carries three commands a round, under the tags 0 to 2.
#[test]
fn layer_depth_of_three(rt: HostRuntime) {
    let calls = [
        LayerCall::Fill(0, 0, 4),
        LayerCall::Drain(0, Ok(4)),
        LayerCall::Depth(3, Ok(())),
        LayerCall::Tick(Ok(1)),
        LayerCall::Issue(0, Ok(Some((0, 0)))),
        LayerCall::Issue(0, Ok(Some((1, 1)))),
        LayerCall::Issue(0, Ok(Some((2, 2)))),
        LayerCall::Issue(0, Err(LayerIssueFault::Issue(IssueFault::TagRange))),
    ];
    let other = other_than(
        &rt,
        rt.alloc(),
        (4, 1, 4),
        &[0, 0],
        &[0, 0],
        &calls,
        &[bio(&rt, 0, 3, 300)],
        9,
    );
    assert_eq!(rt; other, None);
}

// A thousand commands and more are issued one by one, each in a round of its own.
#[test]
fn layer_a_thousand_issues(rt: HostRuntime) {
    let calls = [
        LayerCall::Fill(0, 0, 1024),
        LayerCall::Drain(0, Ok(1024)),
        LayerCall::Serve(0, 1024),
        LayerCall::Issue(0, Ok(None)),
        LayerCall::Ran(0, 1024),
        LayerCall::Tick(Ok(1025)),
    ];
    let other = other_than(
        &rt,
        rt.alloc(),
        (1, 1, 1024),
        &[0, 0],
        &[0, 0],
        &calls,
        &[],
        4097,
    );
    assert_eq!(rt; other, None);
}
