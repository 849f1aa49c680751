//! How many commands were late and how many had to be, worked by hand.

use crate::given::{Happening, trace_of};
use blk_report::{misses, misses_answer};
use refusing::Refusing;
use std::alloc::Global;
use std::process::Abort;

/// The lines of the misses of a trace of this depth.
fn lines(rt: &impl Abort, alloc: Global, depth: u64, steps: &[Happening]) -> Vec<u8> {
    let heap = Refusing::new(alloc);
    let trace = trace_of(rt, &heap, depth, 9, steps);
    let found = misses(&trace).expect(rt, "memory");
    let answer = misses_answer(alloc, &found).expect(rt, "memory");
    answer::lines(alloc, &answer).expect(rt, "memory")
}

/// The read before the write would have been on time, and the write too.
#[test]
fn write_before_read(rt: HostRuntime) {
    let steps = [
        Happening::Write(0),
        Happening::Read(1),
        Happening::Serve(0),
        Happening::Serve(1),
    ];
    let told = b"commands 2\nlate 1\nunavoidable 0\navoidable 1\nspare 1\nwaiting 0\noverdue 0\n";
    assert_eq!(rt;
        lines(&rt, rt.alloc(), 1, &steps).as_slice(),
        told.as_slice()
    );
}

/// Three reads are due in round 0, which carries two; the depth falls after it.
#[test]
fn three_reads_at_once(rt: HostRuntime) {
    let steps = [
        Happening::Reads(3),
        Happening::Depth(1),
        Happening::Both(0, 1),
        Happening::Serve(2),
    ];
    let told =
        b"commands 3\nlate 1\nunavoidable 1\navoidable 0\nspare 0\nwaiting 0\noverdue 0\nwindow 0 0 commands 3 carries 2\n";
    assert_eq!(rt;
        lines(&rt, rt.alloc(), 2, &steps).as_slice(),
        told.as_slice()
    );
}
