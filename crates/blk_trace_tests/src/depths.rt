//! Traces whose depth changes from round to round.

use crate::given::Happening::{Bare, Read};
use crate::given::{Heap, empty, limits, made};
use crate::looks::{Look, command, first_other};
use blk_trace::{Event, Setup, Trace, TraceFault, TraceRule};
use refusing::Refusing;
use std::process::Abort;

/// One hardware queue and this number of tags; what enters is due at once.
fn of_depth(rt: &impl Abort, depth: u64) -> Setup {
    Setup::new(depth, 1, 0, 0, limits(rt, 256, 128)).expect(rt, "a setup")
}

/// A trace in which this number of reads wait, under the ids from 0 on, none next to another.
fn of_reads<'a>(rt: &impl Abort, heap: Heap<'a>, depth: u64, reads: u8) -> Trace<Heap<'a>> {
    let mut trace = empty(rt, heap, of_depth(rt, depth));
    for read in 0..reads {
        let id = read as u64;
        let enters = [Look::Push(Read(id, 100 * id, 8))];
        assert_eq!(rt; first_other(heap, &mut trace, &enters), None);
    }
    trace
}

/// A depth is in force from the round after the one in which it is set.
#[test]
fn in_force_from_the_next_round(rt: HostRuntime) {
    let heap = Refusing::new(rt.alloc());
    let mut trace = of_reads(&rt, &heap, 2, 4);
    let looks = [
        Look::Fixed(true),
        Look::Carries(0, 2),
        Look::Carries(1, 2),
        Look::Carries(2, 2),
        Look::Push(Bare(Event::Depth { depth: 1 })),
        Look::Push(Bare(Event::Issue { id: 0, tag: 0 })),
        Look::Push(Bare(Event::Issue { id: 1, tag: 1 })),
        Look::Push(Bare(Event::Done { tag: 0 })),
        Look::Push(Bare(Event::Done { tag: 1 })),
        Look::DepthNow(2),
        Look::Push(Bare(Event::Tick)),
        Look::DepthNow(1),
        Look::Breaks(Bare(Event::Issue { id: 2, tag: 1 }), TraceRule::TagRange),
        Look::Push(Bare(Event::Depth { depth: 2 })),
        Look::Breaks(Bare(Event::Issue { id: 2, tag: 1 }), TraceRule::TagRange),
        Look::Push(Bare(Event::Tick)),
        Look::Push(Bare(Event::Issue { id: 2, tag: 1 })),
        Look::DepthNow(2),
        Look::Fixed(false),
        Look::Carries(0, 2),
        Look::Carries(1, 1),
        Look::Carries(2, 2),
        Look::Carries(3, 2),
        Look::Commands(3),
        Look::Ran(0, command(0, 0, 0), 0),
        Look::Ran(1, command(1, 0, 0), 0),
        Look::Ran(2, command(2, 0, 0), 2),
    ];
    assert_eq!(rt; first_other(&heap, &mut trace, &looks), None);
}

/// A tag is in its range by the depth of the round, on both sides, and after the rules that are looked for before.
#[test]
fn tags_by_the_depth_of_the_round(rt: HostRuntime) {
    let heap = Refusing::new(rt.alloc());
    let mut trace = of_reads(&rt, &heap, 4, 4);
    let looks = [
        Look::Push(Bare(Event::Depth { depth: 2 })),
        Look::Push(Bare(Event::Tick)),
        Look::Breaks(Bare(Event::Issue { id: 0, tag: 3 }), TraceRule::TagRange),
        Look::Breaks(Bare(Event::Issue { id: 0, tag: 2 }), TraceRule::TagRange),
        Look::Push(Bare(Event::Issue { id: 0, tag: 1 })),
        Look::Breaks(
            Bare(Event::Issue { id: 0, tag: 3 }),
            TraceRule::AlreadyIssued,
        ),
        Look::Breaks(Bare(Event::Issue { id: 1, tag: 1 }), TraceRule::TagUsed),
        Look::Breaks(Bare(Event::Done { tag: 3 }), TraceRule::NotIssued),
        Look::Breaks(Bare(Event::Back { tag: 2 }), TraceRule::NotIssued),
        Look::Push(Bare(Event::Depth { depth: 3 })),
        Look::Push(Bare(Event::Done { tag: 1 })),
        Look::Push(Bare(Event::Tick)),
        Look::Push(Bare(Event::Issue { id: 1, tag: 2 })),
        Look::Breaks(Bare(Event::Issue { id: 2, tag: 3 }), TraceRule::TagRange),
        Look::Carries(0, 4),
        Look::Carries(1, 2),
        Look::Carries(2, 3),
        Look::Carries(3, 3),
    ];
    assert_eq!(rt; first_other(&heap, &mut trace, &looks), None);
}

/// A depth that is set while commands run leaves the tags of the round used, and the commands under way.
#[test]
fn set_under_way(rt: HostRuntime) {
    let heap = Refusing::new(rt.alloc());
    let mut trace = of_reads(&rt, &heap, 2, 2);
    let looks = [
        Look::Push(Bare(Event::Issue { id: 0, tag: 0 })),
        Look::Push(Bare(Event::Depth { depth: 1 })),
        Look::Stands(4, 0, 1),
        Look::Breaks(Bare(Event::Issue { id: 1, tag: 0 }), TraceRule::TagUsed),
        Look::Breaks(Bare(Event::Tick), TraceRule::InFlight),
        Look::Push(Bare(Event::Issue { id: 1, tag: 1 })),
        Look::Push(Bare(Event::Done { tag: 1 })),
        Look::Push(Bare(Event::Done { tag: 0 })),
        Look::Push(Bare(Event::Tick)),
        Look::Commands(2),
        Look::Ran(0, command(0, 0, 0), 0),
        Look::Ran(1, command(1, 0, 0), 0),
    ];
    assert_eq!(rt; first_other(&heap, &mut trace, &looks), None);
}

/// Of several depths in one round the last stands; where it is the setup's, some were set all the same.
#[test]
fn the_last_of_a_round(rt: HostRuntime) {
    let heap = Refusing::new(rt.alloc());
    let mut trace = empty(&rt, &heap, of_depth(&rt, 256));
    let looks = [
        Look::Push(Bare(Event::Depth { depth: 3 })),
        Look::Push(Bare(Event::Depth { depth: 256 })),
        Look::Fixed(false),
        Look::Carries(0, 256),
        Look::Carries(1, 256),
        Look::Carries(2, 256),
        Look::Push(Bare(Event::Tick)),
        Look::Push(Bare(Event::Tick)),
        Look::Push(Bare(Event::Depth { depth: 7 })),
        Look::Push(Bare(Event::Depth { depth: 1 })),
        Look::Push(Bare(Event::Depth { depth: 5 })),
        Look::Push(Bare(Event::Tick)),
        Look::Push(Bare(Event::Depth { depth: 4 })),
        Look::Carries(0, 256),
        Look::Carries(1, 256),
        Look::Carries(2, 256),
        Look::Carries(3, 5),
        Look::Carries(4, 4),
        Look::Carries(5, 4),
    ];
    assert_eq!(rt; first_other(&heap, &mut trace, &looks), None);
    let capacity = trace.capacity().expect(&rt, "memory");
    assert_eq!(rt; capacity.sum(2, 6), 269);
}

/// At least 1 and no more than the setup's depth.
#[test]
fn out_of_range(rt: HostRuntime) {
    let heap = Refusing::new(rt.alloc());
    for depth in [1, 2, 256] {
        let mut trace = empty(&rt, &heap, of_depth(&rt, depth));
        let looks = [
            Look::Breaks(Bare(Event::Depth { depth: 0 }), TraceRule::DepthRange),
            Look::Breaks(
                Bare(Event::Depth { depth: depth + 1 }),
                TraceRule::DepthRange,
            ),
            Look::Breaks(Bare(Event::Depth { depth: 257 }), TraceRule::DepthRange),
            Look::Breaks(
                Bare(Event::Depth { depth: u64::MAX }),
                TraceRule::DepthRange,
            ),
            Look::Push(Bare(Event::Depth { depth: 1 })),
            Look::Push(Bare(Event::Depth { depth })),
            Look::Carries(0, depth),
            Look::Carries(1, depth),
        ];
        assert_eq!(rt; first_other(&heap, &mut trace, &looks), None);
    }
}

/// A list that breaks no rule, and its capacity.
#[test]
fn of_a_list(rt: HostRuntime) {
    let heap = Refusing::new(rt.alloc());
    let steps = [
        Read(0, 0, 8),
        Bare(Event::Depth { depth: 1 }),
        Bare(Event::Issue { id: 0, tag: 1 }),
        Bare(Event::Done { tag: 1 }),
        Bare(Event::Tick),
    ];
    let Ok(mut trace) = made(&rt, &heap, of_depth(&rt, 2), &steps) else {
        panic!(rt; "refused");
    };
    let looks = [
        Look::Carries(0, 2),
        Look::Carries(1, 1),
        Look::Carries(2, 1),
    ];
    assert_eq!(rt; first_other(&heap, &mut trace, &looks), None);
}

/// The first event of a list that breaks a rule, by its place.
#[test]
fn of_a_list_that_breaks_a_rule(rt: HostRuntime) {
    let heap = Refusing::new(rt.alloc());
    let above = [
        Read(0, 0, 8),
        Bare(Event::Depth { depth: 1 }),
        Bare(Event::Issue { id: 0, tag: 1 }),
        Bare(Event::Done { tag: 1 }),
        Bare(Event::Tick),
        Bare(Event::Depth { depth: 3 }),
    ];
    let rule = TraceRule::DepthRange;
    let answer = made(&rt, &heap, of_depth(&rt, 2), &above);
    assert_eq!(rt; answer.err(), Some(TraceFault::Rule { at: 5, rule }));
    let late = [
        Read(0, 0, 8),
        Bare(Event::Depth { depth: 1 }),
        Bare(Event::Tick),
        Bare(Event::Issue { id: 0, tag: 1 }),
    ];
    let rule = TraceRule::TagRange;
    let answer = made(&rt, &heap, of_depth(&rt, 2), &late);
    assert_eq!(rt; answer.err(), Some(TraceFault::Rule { at: 3, rule }));
}
