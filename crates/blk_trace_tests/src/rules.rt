//! The rules that an event may break.

use crate::given::Happening::{Bare, JoinRead, JoinWrite, Read};
use crate::given::{
    Happening, Heap, empty, event, has_events, is_pushed, limits, request, setup, standing,
};
use crate::looks::{Look, command, first_other};
use blk_bio::Dir;
use blk_trace::{Event, MAX_EVENTS, PushFault, Setup, Trace, TraceRule};
use refusing::Refusing;
use std::process::Abort;

/// A read that went out and one that waits.
fn one_of_two_issued() -> [Happening; 3] {
    [
        Read(0, 0, 4),
        Read(1, 100, 4),
        Bare(Event::Issue { id: 0, tag: 0 }),
    ]
}

/// Each rule but those that need a list of their own, with the rules after it broken too.
fn one_broken_each() -> [Look; 17] {
    [
        Look::Breaks(Read(0, 104, 4), TraceRule::ReleasedTwice),
        Look::Breaks(Read(1, 100, 4), TraceRule::ReleasedTwice),
        Look::Breaks(JoinRead(2, 104, 4), TraceRule::Unknown),
        Look::Breaks(Bare(Event::Issue { id: 2, tag: 9 }), TraceRule::Unknown),
        Look::Breaks(JoinRead(0, 104, 4), TraceRule::AlreadyIssued),
        Look::Breaks(
            Bare(Event::Issue { id: 0, tag: 9 }),
            TraceRule::AlreadyIssued,
        ),
        Look::Breaks(Read(2, 0, 4), TraceRule::BioTwice),
        Look::Breaks(JoinRead(1, 0, 4), TraceRule::BioTwice),
        Look::Breaks(JoinWrite(1, 104, 4), TraceRule::Fit),
        Look::Breaks(JoinRead(1, 105, 4), TraceRule::Fit),
        Look::Breaks(JoinRead(1, 104, 5), TraceRule::Fit),
        Look::Breaks(Bare(Event::Issue { id: 1, tag: 1 }), TraceRule::TagRange),
        Look::Breaks(Bare(Event::Issue { id: 1, tag: 0 }), TraceRule::TagUsed),
        Look::Breaks(Bare(Event::Done { tag: 1 }), TraceRule::NotIssued),
        Look::Breaks(Bare(Event::Tick), TraceRule::InFlight),
        Look::Stands(3, 0, 1),
        Look::Fixed(true),
    ]
}

#[test]
fn each_rule_refuses(rt: HostRuntime) {
    let heap = Refusing::new(rt.alloc());
    let mut trace = empty(&rt, &heap, setup(&rt, 5, 50, limits(&rt, 8, 2)));
    let steps = one_of_two_issued();
    for step in &steps {
        assert!(rt; is_pushed(&heap, &mut trace, step));
    }
    assert_eq!(rt; first_other(&heap, &mut trace, &one_broken_each()), None);
    assert!(rt; has_events(&heap, &trace, &steps));
    let done = [
        Look::Push(Bare(Event::Done { tag: 0 })),
        Look::Breaks(Bare(Event::Done { tag: 0 }), TraceRule::NotIssued),
        Look::Breaks(Bare(Event::Issue { id: 1, tag: 0 }), TraceRule::TagUsed),
    ];
    assert_eq!(rt; first_other(&heap, &mut trace, &done), None);
}

/// A request that is requeued waits, nothing joins it, and it goes out again under another tag.
#[test]
fn requeued_and_issued_again(rt: HostRuntime) {
    let heap = Refusing::new(rt.alloc());
    let made = Setup::new(2, 1, 0, 0, limits(&rt, 256, 128)).expect(&rt, "a setup");
    let mut trace = empty(&rt, &heap, made);
    let looks = [
        Look::Push(Read(0, 0, 8)),
        Look::Push(Read(1, 100, 8)),
        Look::Push(Bare(Event::Issue { id: 0, tag: 0 })),
        Look::Push(Bare(Event::Back { tag: 0 })),
        Look::Stands(4, 0, 0),
        Look::Waiting(2),
        Look::Waits(0, Dir::Read, 0, 8),
        Look::Waits(1, Dir::Read, 100, 8),
        Look::Commands(0),
        Look::Breaks(JoinRead(0, 8, 8), TraceRule::AlreadyIssued),
        Look::Breaks(Bare(Event::Issue { id: 0, tag: 0 }), TraceRule::TagUsed),
        Look::Breaks(Bare(Event::Back { tag: 0 }), TraceRule::NotIssued),
        Look::Breaks(Bare(Event::Back { tag: 1 }), TraceRule::NotIssued),
        Look::Push(Bare(Event::Issue { id: 0, tag: 1 })),
        Look::Push(Bare(Event::Done { tag: 1 })),
        Look::Push(Bare(Event::Tick)),
        Look::Push(Bare(Event::Issue { id: 1, tag: 0 })),
        Look::Commands(2),
        Look::Ran(0, command(0, 0, 0), 0),
        Look::Ran(1, command(1, 0, 0), 1),
        Look::Waiting(0),
    ];
    assert_eq!(rt; first_other(&heap, &mut trace, &looks), None);
}

/// The command of a request that is requeued has the round of its last Issue.
#[test]
fn handed_back_in_a_round_before(rt: HostRuntime) {
    let heap = Refusing::new(rt.alloc());
    let mut trace = empty(&rt, &heap, setup(&rt, 0, 0, limits(&rt, 256, 128)));
    let looks = [
        Look::Push(Read(0, 0, 8)),
        Look::Push(Bare(Event::Issue { id: 0, tag: 0 })),
        Look::Push(Bare(Event::Back { tag: 0 })),
        Look::Push(Bare(Event::Tick)),
        Look::Push(Bare(Event::Issue { id: 0, tag: 0 })),
        Look::Push(Bare(Event::Done { tag: 0 })),
        Look::Push(Bare(Event::Tick)),
        Look::Commands(1),
        Look::Ran(0, command(0, 0, 0), 1),
    ];
    assert_eq!(rt; first_other(&heap, &mut trace, &looks), None);
}

/// A request of two bios that has a sector more than the limits of the trace allow.
#[test]
fn longer_than_the_limits(rt: HostRuntime) {
    let heap = Refusing::new(rt.alloc());
    let mut trace = empty(&rt, &heap, setup(&rt, 5, 50, limits(&rt, 8, 2)));
    let mut long = request(&heap, Dir::Read, 200, 8).expect(&rt, "a request");
    let end = request(&heap, Dir::Read, 208, 1).expect(&rt, "a request");
    assert!(rt; long.join(end, &limits(&rt, 9, 2)).is_ok());
    let release = Event::Release {
        id: 2,
        request: long,
    };
    let Err((_, why)) = trace.push(release) else {
        panic!(rt; "pushed");
    };
    assert_eq!(rt; why, PushFault::Rule(TraceRule::Fit));
    assert_eq!(rt; standing(&trace), (0, 0, 0));
}

/// An Issue needs a place for its Done too, and a Depth one, which is asked for before its range.
#[test]
fn too_long(rt: HostRuntime) {
    let heap = Refusing::new(rt.alloc());
    let mut trace = empty(&rt, &heap, setup(&rt, 0, 0, limits(&rt, 256, 128)));
    assert!(rt; is_pushed(&heap, &mut trace, &Read(0, 0, 1)));
    for _ in 2..MAX_EVENTS {
        assert!(rt; is_pushed(&heap, &mut trace, &Bare(Event::Tick)));
    }
    let looks = [
        Look::Stands(999_999, 999_998, 0),
        Look::Breaks(Bare(Event::Issue { id: 0, tag: 0 }), TraceRule::TooLong),
        Look::Breaks(Bare(Event::Depth { depth: 0 }), TraceRule::DepthRange),
        Look::Push(Bare(Event::Depth { depth: 1 })),
        Look::Stands(1_000_000, 999_998, 0),
        Look::Breaks(Bare(Event::Tick), TraceRule::TooLong),
        Look::Breaks(Read(1, 1, 1), TraceRule::TooLong),
        Look::Breaks(JoinRead(0, 1, 1), TraceRule::TooLong),
        Look::Breaks(Bare(Event::Depth { depth: 1 }), TraceRule::TooLong),
        Look::Breaks(Bare(Event::Depth { depth: 0 }), TraceRule::TooLong),
    ];
    assert_eq!(rt; first_other(&heap, &mut trace, &looks), None);
}
