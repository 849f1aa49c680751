//! The commands of traces with their requests, worked by hand.

use crate::given::{Happening, trace_of};
use blk_bio::Dir;
use blk_report::{Service, services};
use refusing::Refusing;
use std::alloc::Global;
use std::process::Abort;

/// Whether these are the commands of a trace of one place a round, in which writes are due after this number of rounds.
fn are_served(
    rt: &impl Abort,
    alloc: Global,
    write_expire: u64,
    steps: &[Happening],
    wanted: &[Service],
) -> bool {
    let heap = Refusing::new(alloc);
    let trace = trace_of(rt, &heap, 1, write_expire, steps);
    let found = services(&trace).expect(rt, "memory");
    found.as_slice() == wanted
}

/// The read, released after the write, goes out after it.
#[test]
fn write_before_read(rt: HostRuntime) {
    let steps = [
        Happening::Write(0),
        Happening::Read(1),
        Happening::Serve(0),
        Happening::Serve(1),
    ];
    let write = Service {
        id: 0,
        dir: Dir::Write,
        first: 0,
        sectors: 8,
        release: 0,
        due: 9,
        issue: 0,
        tag: 0,
        back: false,
    };
    let read = Service {
        id: 1,
        dir: Dir::Read,
        first: 100,
        sectors: 8,
        release: 0,
        due: 0,
        issue: 1,
        tag: 0,
        back: false,
    };
    assert!(rt; are_served(&rt, rt.alloc(), 9, &steps[..2], &[]));
    assert!(rt; are_served(&rt, rt.alloc(), 9, &steps, &[write, read]));
}

/// A write that another joined at the front, in the round after its release, is requeued and served a round later.
#[test]
fn joined_and_handed_back(rt: HostRuntime) {
    let steps = [
        Happening::Write(1),
        Happening::Tick,
        Happening::Join(1, 90, 10),
        Happening::Issue(1, 0),
        Happening::Back(0),
        Happening::Tick,
        Happening::Serve(1),
    ];
    let whole = Service {
        id: 1,
        dir: Dir::Write,
        first: 90,
        sectors: 18,
        release: 1,
        due: 3,
        issue: 2,
        tag: 0,
        back: false,
    };
    assert!(rt; are_served(&rt, rt.alloc(), 3, &steps[..5], &[]));
    assert!(rt; are_served(&rt, rt.alloc(), 3, &steps, &[whole]));
}
