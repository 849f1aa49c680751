//! What traces of a few events say: the worked rows.

use crate::given::Happening::{Bare, JoinRead, Read, Write};
use crate::given::{Happening, Heap, empty, has_events, limits, made, setup, standing};
use crate::looks::{Look, command, first_other};
use blk_bio::Dir;
use blk_trace::laws::{depths_by_places, timed_by_the_ticks_before};
use blk_trace::{Event, Setup, SetupFault, Trace, TraceFault, TraceRule};
use refusing::Refusing;
use std::process::Abort;

#[test]
fn constructors_refuse(rt: HostRuntime) {
    let limits = limits(&rt, 256, 128);
    let last = (1u64 << 40) - 1;
    for (depth, hw, read_expire, write_expire, fault) in [
        (0, 1, 0, 9, SetupFault::Depth),
        (257, 0, 0, 9, SetupFault::Depth),
        (1, 0, last + 1, 9, SetupFault::Queues),
        (1, 17, 0, 9, SetupFault::Queues),
        (1, 1, last + 1, 9, SetupFault::Expire),
        (1, 1, 0, last + 1, SetupFault::Expire),
    ] {
        let answer = Setup::new(depth, hw, read_expire, write_expire, limits);
        assert_eq!(rt; answer, Err(fault));
    }
    let setup = Setup::new(256, 16, 7, last, limits).expect(&rt, "a setup");
    assert_eq!(rt; (setup.depth(), setup.hw()), (256, 16));
    assert_eq!(rt; (setup.read_expire(), setup.write_expire()), (7, last));
    assert_eq!(rt; setup.limits(), limits);
    let heap = Refusing::new(rt.alloc());
    let trace = empty(&rt, &heap, setup);
    assert_eq!(rt; trace.setup(), setup);
    assert_eq!(rt; standing(&trace), (0, 0, 0));
}

/// A write released before a read, and issued before it at depth 1.
fn write_then_read() -> [Happening; 8] {
    [
        Write(0, 100, 8),
        Read(1, 200, 8),
        Bare(Event::Issue { id: 0, tag: 0 }),
        Bare(Event::Done { tag: 0 }),
        Bare(Event::Tick),
        Bare(Event::Issue { id: 1, tag: 0 }),
        Bare(Event::Done { tag: 0 }),
        Bare(Event::Tick),
    ]
}

/// What is seen of all of `write_then_read`.
fn seen_of_it() -> [Look; 8] {
    [
        Look::Stands(8, 2, 0),
        Look::HasBio(100, true),
        Look::HasBio(200, true),
        Look::HasBio(0, false),
        Look::Commands(2),
        Look::Ran(0, command(0, 0, 9), 0),
        Look::Ran(1, command(1, 0, 0), 1),
        Look::Waiting(0),
    ]
}

#[test]
fn write_before_read(rt: HostRuntime) {
    let heap = Refusing::new(rt.alloc());
    let setup = setup(&rt, 0, 9, limits(&rt, 256, 128));
    let steps = write_then_read();
    let Ok(mut trace) = made(&rt, &heap, setup, &steps) else {
        panic!(rt; "refused");
    };
    assert!(rt; has_events(&heap, &trace, &steps));
    assert_eq!(rt; first_other(&heap, &mut trace, &seen_of_it()), None);
}

/// The same, event by event.
#[test]
fn write_before_read_in_turn(rt: HostRuntime) {
    let heap = Refusing::new(rt.alloc());
    let mut trace = empty(&rt, &heap, setup(&rt, 0, 9, limits(&rt, 256, 128)));
    let looks = [
        Look::Push(Write(0, 100, 8)),
        Look::Push(Read(1, 200, 8)),
        Look::Waiting(2),
        Look::Waits(0, Dir::Write, 100, 8),
        Look::Waits(1, Dir::Read, 200, 8),
        Look::Push(Bare(Event::Issue { id: 0, tag: 0 })),
        Look::Push(Bare(Event::Done { tag: 0 })),
        Look::Push(Bare(Event::Tick)),
        Look::Push(Bare(Event::Issue { id: 1, tag: 0 })),
        Look::Push(Bare(Event::Done { tag: 0 })),
        Look::Push(Bare(Event::Tick)),
    ];
    assert_eq!(rt; first_other(&heap, &mut trace, &looks), None);
    assert_eq!(rt; first_other(&heap, &mut trace, &seen_of_it()), None);
}

/// Without its first Tick the second Issue has the tag of the first one's round.
#[test]
fn trace_cut_short(rt: HostRuntime) {
    let heap = Refusing::new(rt.alloc());
    let [a, b, c, d, _tick, e, f, g] = write_then_read();
    let setup = setup(&rt, 0, 9, limits(&rt, 256, 128));
    let answer = made(&rt, &heap, setup, &[a, b, c, d, e, f, g]);
    let rule = TraceRule::TagUsed;
    assert_eq!(rt; answer.err(), Some(TraceFault::Rule { at: 4, rule }));
}

#[test]
fn joined_on_entry(rt: HostRuntime) {
    let heap = Refusing::new(rt.alloc());
    let mut trace = empty(&rt, &heap, setup(&rt, 5, 50, limits(&rt, 256, 128)));
    let looks = [
        Look::Push(Read(0, 0, 4)),
        Look::Push(Bare(Event::Tick)),
        Look::Push(Bare(Event::Tick)),
        Look::Push(Bare(Event::Tick)),
        Look::Push(JoinRead(0, 4, 4)),
        Look::Waiting(2),
        Look::Waits(0, Dir::Read, 0, 4),
        Look::Waits(1, Dir::Read, 4, 4),
        Look::Push(Bare(Event::Issue { id: 0, tag: 0 })),
        Look::Commands(1),
        Look::Ran(0, command(0, 3, 5), 3),
    ];
    assert_eq!(rt; first_other(&heap, &mut trace, &looks), None);
}

/// Waiting bios go by the ids of their requests, whatever the order of release, and then by their sectors.
#[test]
fn waiting_by_id_and_sector(rt: HostRuntime) {
    let heap = Refusing::new(rt.alloc());
    let mut trace = empty(&rt, &heap, setup(&rt, 5, 50, limits(&rt, 256, 128)));
    let looks = [
        Look::Push(Read(5, 8, 2)),
        Look::Push(Read(3, 100, 4)),
        Look::Push(JoinRead(5, 6, 2)),
        Look::Push(JoinRead(5, 10, 2)),
        Look::Entered(0, Dir::Read, 8, 2),
        Look::Entered(1, Dir::Read, 100, 4),
        Look::Entered(3, Dir::Read, 10, 2),
        Look::Waiting(4),
        Look::Waits(0, Dir::Read, 100, 4),
        Look::Waits(1, Dir::Read, 6, 2),
        Look::Waits(2, Dir::Read, 8, 2),
        Look::Waits(3, Dir::Read, 10, 2),
        Look::Push(Bare(Event::Issue { id: 3, tag: 0 })),
        Look::Waiting(3),
        Look::Waits(0, Dir::Read, 6, 2),
        Look::Waits(1, Dir::Read, 8, 2),
        Look::Waits(2, Dir::Read, 10, 2),
    ];
    assert_eq!(rt; first_other(&heap, &mut trace, &looks), None);
}

/// The laws say nothing that runs: they can be called.
#[test]
fn laws_hold() {
    timed_by_the_ticks_before();
    depths_by_places();
}
