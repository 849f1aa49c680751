//! Traces where allocations are refused.

use crate::given::Happening::{Bare, JoinRead, Read};
use crate::given::{Happening, Heap, empty, event, has_events, is_pushed, limits, made, setup};
use crate::looks::{Look, command, first_other};
use blk_bio::Dir;
use blk_trace::{Event, Trace, TraceFault, TraceRule};
use refusing::Refusing;
use std::process::Abort;

/// How many requests enter and go out.
const REQUESTS: u64 = 4;

/// Makes room for the event of a step, which then takes no memory.
fn is_prepared_and_pushed<'a>(
    heap: Heap<'a>,
    trace: &mut Trace<Heap<'a>>,
    step: &Happening,
) -> bool {
    let Some(event) = event(heap, step) else {
        return false;
    };
    let request = match &event {
        Event::Release { request, .. } | Event::Join { request, .. } => Some(request),
        _ => None,
    };
    (trace.prepare(request).is_ok() || trace.prepare(request).is_ok()) && trace.push(event).is_ok()
}

/// Requests of two bios enter and go out, each in a round of its own and every other one of them after room was made, and
/// one more is left waiting, after a depth was set.
fn come_and_go<'a>(rt: &impl Abort, heap: Heap<'a>) -> Trace<Heap<'a>> {
    let mut trace = empty(rt, heap, setup(rt, 5, 50, limits(rt, 256, 128)));
    for id in 0..REQUESTS {
        for step in &[
            Read(id, 4 * id, 1),
            JoinRead(id, 4 * id + 1, 1),
            Bare(Event::Issue { id, tag: 0 }),
            Bare(Event::Done { tag: 0 }),
            Bare(Event::Tick),
        ] {
            if id % 2 == 0 {
                assert!(rt; is_pushed(heap, &mut trace, step));
            } else {
                assert!(rt; is_prepared_and_pushed(heap, &mut trace, step));
            }
        }
    }
    trace
}

/// A trace of the events of steps that break no rule.
fn remade<'a>(rt: &impl Abort, heap: Heap<'a>, steps: &[Happening]) -> Trace<Heap<'a>> {
    let setup = setup(rt, 5, 50, limits(rt, 256, 128));
    let armed = heap.is_armed();
    match made(rt, heap, setup, steps) {
        Ok(trace) => trace,
        Err(fault) => {
            assert_eq!(rt; fault, TraceFault::Memory);
            assert!(rt; armed && !heap.is_armed());
            let Ok(trace) = made(rt, heap, setup, steps) else {
                panic!(rt; "out of memory");
            };
            trace
        }
    }
}

/// Whether a list of events is no trace for this fault; where memory is refused it says so, and the same list then has the fault.
fn is_no_trace<'a>(
    rt: &impl Abort,
    heap: Heap<'a>,
    steps: &[Happening],
    fault: TraceFault,
) -> bool {
    let setup = setup(rt, 5, 50, limits(rt, 256, 128));
    let armed = heap.is_armed();
    match made(rt, heap, setup, steps) {
        Ok(_) => false,
        Err(TraceFault::Memory) => {
            armed
                && !heap.is_armed()
                && match made(rt, heap, setup, steps) {
                    Ok(_) => false,
                    Err(again) => again == fault,
                }
        }
        Err(first) => first == fault,
    }
}

/// A trace is built event by event and read, another is made of a list, and of a list that uses a tag twice in a round none is.
fn all_of_it(rt: &impl Abort, heap: Heap<'_>) {
    let mut trace = come_and_go(rt, heap);
    let looks = [
        Look::Push(Bare(Event::Depth { depth: 1 })),
        Look::Push(Read(4, 16, 1)),
        Look::Stands(22, 4, 0),
        Look::Commands(4),
        Look::Ran(0, command(0, 0, 5), 0),
        Look::Ran(1, command(1, 1, 6), 1),
        Look::Ran(2, command(2, 2, 7), 2),
        Look::Ran(3, command(3, 3, 8), 3),
        Look::Carries(0, 1),
        Look::Carries(5, 1),
        Look::Entered(8, Dir::Read, 16, 1),
        Look::Waiting(1),
        Look::Waits(0, Dir::Read, 16, 1),
        Look::HasBio(16, true),
        Look::HasBio(17, false),
    ];
    assert_eq!(rt; first_other(heap, &mut trace, &looks), None);
    let steps = [
        Read(0, 16, 1),
        JoinRead(0, 17, 1),
        Bare(Event::Issue { id: 0, tag: 0 }),
    ];
    assert!(rt; has_events(heap, &remade(rt, heap, &steps), &steps));
    let again = [
        Read(0, 16, 1),
        Read(1, 32, 1),
        Bare(Event::Issue { id: 0, tag: 0 }),
        Bare(Event::Done { tag: 0 }),
        Bare(Event::Issue { id: 1, tag: 0 }),
    ];
    let rule = TraceRule::TagUsed;
    assert!(rt; is_no_trace(rt, heap, &again, TraceFault::Rule { at: 4, rule }));
}

#[test]
fn memory_refused(rt: HostRuntime) {
    let heap = Refusing::new(rt.alloc());
    for n in 1..1000u64 {
        heap.refuse(n);
        all_of_it(&rt, &heap);
        if heap.is_armed() {
            assert!(rt; n > 20);
            return;
        }
    }
    panic!(rt; "refused for ever");
}
