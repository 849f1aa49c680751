//! Reports of traces, worked by hand.

use crate::given::{Happening, served, trace_of, unserved};
use blk_report::{Report, report};
use refusing::Refusing;
use std::alloc::Global;
use std::process::Abort;

/// The report of a trace of this depth.
fn reported(rt: &impl Abort, alloc: Global, depth: u64, steps: &[Happening]) -> Report {
    let heap = Refusing::new(alloc);
    let trace = trace_of(rt, &heap, depth, 9, steps);
    report(&trace).expect(rt, "memory")
}

#[test]
fn write_before_read(rt: HostRuntime) {
    // nothing went out
    let steps = [Happening::Write(0), Happening::Read(1)];
    assert_eq!(rt; reported(&rt, rt.alloc(), 1, &steps), unserved(2, 1));
    // the read, due in round 0, went out in round 1, and would not have been late in round 0
    let steps = [
        Happening::Write(0),
        Happening::Read(1),
        Happening::Serve(0),
        Happening::Serve(1),
    ];
    let whole = served((2, 0, 1), 1, 0, 1, (0, 0), 1);
    assert_eq!(rt; reported(&rt, rt.alloc(), 1, &steps), whole);
}

/// Five reads due at once, and a depth that goes from 2 to 1 after round 0: the second round carries one.
#[test]
fn a_depth_that_falls(rt: HostRuntime) {
    let steps = [
        Happening::Reads(5),
        Happening::Depth(1),
        Happening::Both(0, 1),
        Happening::Serve(2),
        Happening::Serve(3),
        Happening::Serve(4),
    ];
    // under depth 2 in each round 2 would be the least
    let whole = served((5, 0, 2), 3, 3, 0, (0, 0), 5);
    assert_eq!(rt; reported(&rt, rt.alloc(), 2, &steps), whole);
}

#[test]
fn three_reads_at_once(rt: HostRuntime) {
    let steps = [
        Happening::Reads(3),
        Happening::Depth(1),
        Happening::Both(0, 1),
        Happening::Serve(2),
    ];
    let whole = served((3, 0, 2), 1, 1, 0, (0, 0), 3);
    assert_eq!(rt; reported(&rt, rt.alloc(), 2, &steps), whole);
}

/// Forty reads, each served in the round in which it is due: 160 events, and none is late.
#[test]
fn many_events(rt: HostRuntime) {
    let mut steps = Vec::new(rt.alloc());
    for id in 0..40u64 {
        assert!(rt; steps.push(Happening::Read(id)).is_ok());
        assert!(rt; steps.push(Happening::Serve(id)).is_ok());
    }
    let told = reported(&rt, rt.alloc(), 1, steps.as_slice());
    assert_eq!(rt; (told.commands, told.waiting), (40, 0));
    assert_eq!(rt; (told.greatest(), told.least()), (Some(0), Some(0)));
}
