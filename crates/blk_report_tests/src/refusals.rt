//! Reports where allocations are refused.

use crate::given::{Happening, Heap, served, trace_of};
use blk_report::{late, misses, report, services, spread};
use blk_trace::Trace;
use refusing::Refusing;
use std::process::Abort;

/// The commands of the two are listed, and their misses and the late ones, or memory is refused once.
fn asked<'a>(rt: &impl Abort, heap: Heap<'a>, trace: &Trace<Heap<'a>>) {
    let armed = heap.is_armed();
    let Ok(found) = services(trace) else {
        assert!(rt; armed && !heap.is_armed());
        return;
    };
    let Ok(spread) = spread(heap, found.as_slice()) else {
        assert!(rt; armed && !heap.is_armed());
        return;
    };
    assert_eq!(rt; spread.wait.all.max, Some(1));
    let Ok(missed) = misses(trace) else {
        assert!(rt; armed && !heap.is_armed());
        return;
    };
    assert_eq!(rt; missed.tally.avoidable, 1);
    let Ok(found) = late(trace) else {
        assert!(rt; armed && !heap.is_armed());
        return;
    };
    assert_eq!(rt; found.len(), 1);
}

/// A trace of two commands is made and reported.
fn all_of_it(rt: &impl Abort, heap: Heap<'_>) {
    let steps = [
        Happening::Write(0),
        Happening::Read(1),
        Happening::Serve(0),
        Happening::Serve(1),
    ];
    let trace = trace_of(rt, heap, 1, 9, &steps);
    let armed = heap.is_armed();
    let whole = served((2, 0, 1), 1, 0, 1, (0, 0), 1);
    match report(&trace) {
        Ok(report) => assert_eq!(rt; report, whole),
        Err(_) => {
            assert!(rt; armed && !heap.is_armed());
            assert_eq!(rt; report(&trace).expect(rt, "memory"), whole);
        }
    }
    asked(rt, heap, &trace);
}

#[test]
fn memory_refused(rt: HostRuntime) {
    let heap = Refusing::new(rt.alloc());
    for n in 1..1000u64 {
        heap.refuse(n);
        all_of_it(&rt, &heap);
        if heap.is_armed() {
            assert!(rt; n > 10);
            return;
        }
    }
    panic!(rt; "refused for ever");
}
