//! Late commands and what they waited for, worked by hand.

use crate::given::{Happening, trace_of};
use blk_report::{late, late_answer};
use refusing::Refusing;
use std::alloc::Global;
use std::process::Abort;

/// The lines of the late commands of a trace of this depth.
fn lines(rt: &impl Abort, alloc: Global, depth: u64, steps: &[Happening]) -> Vec<u8> {
    let heap = Refusing::new(alloc);
    let trace = trace_of(rt, &heap, depth, 9, steps);
    let found = late(&trace).expect(rt, "memory");
    let answer = late_answer(alloc, found.as_slice()).expect(rt, "memory");
    answer::lines(alloc, &answer).expect(rt, "memory")
}

/// The read waits a round, of which the one place goes to the write, which was due later.
#[test]
fn write_before_read(rt: HostRuntime) {
    let steps = [
        Happening::Write(0),
        Happening::Read(1),
        Happening::Serve(0),
        Happening::Serve(1),
    ];
    let told =
        b"id,dir,first,sectors,release,due,issue,lateness,sooner,later,idle,verdict,from,until\n1,R,100,8,0,0,1,1,0,1,0,spare,,\n";
    assert_eq!(rt;
        lines(&rt, rt.alloc(), 1, &steps).as_slice(),
        told.as_slice()
    );
}

/// Two places a round. The write has one of round 0 and the other is idle; in round 1 a read that is due then goes first, and the
/// one that is late by a round; the last is late by two.
#[test]
fn sooner_later_and_idle(rt: HostRuntime) {
    let steps = [
        Happening::Write(0),
        Happening::Read(1),
        Happening::Read(2),
        Happening::Serve(0),
        Happening::Read(3),
        Happening::Both(3, 1),
        Happening::Serve(2),
    ];
    let told =
        b"id,dir,first,sectors,release,due,issue,lateness,sooner,later,idle,verdict,from,until\n1,R,100,8,0,0,1,1,0,1,1,spare,,\n2,R,200,8,0,0,2,2,1,2,1,spare,,\n";
    assert_eq!(rt;
        lines(&rt, rt.alloc(), 2, &steps).as_slice(),
        told.as_slice()
    );
}

/// Round 0 has three places and round 1 has one; all are idle.
#[test]
fn changing_depth(rt: HostRuntime) {
    let steps = [
        Happening::Read(1),
        Happening::Depth(1),
        Happening::Tick,
        Happening::Tick,
        Happening::Serve(1),
    ];
    let told =
        b"id,dir,first,sectors,release,due,issue,lateness,sooner,later,idle,verdict,from,until\n1,R,100,8,0,0,2,2,0,0,4,spare,,\n";
    assert_eq!(rt;
        lines(&rt, rt.alloc(), 3, &steps).as_slice(),
        told.as_slice()
    );
}

/// A read that goes out in its due round is not late.
#[test]
fn none_late(rt: HostRuntime) {
    let told =
        b"id,dir,first,sectors,release,due,issue,lateness,sooner,later,idle,verdict,from,until\n";
    assert_eq!(rt; lines(&rt, rt.alloc(), 1, &[]).as_slice(), told.as_slice());
    let steps = [Happening::Read(1), Happening::Serve(1)];
    assert_eq!(rt;
        lines(&rt, rt.alloc(), 1, &steps).as_slice(),
        told.as_slice()
    );
}
