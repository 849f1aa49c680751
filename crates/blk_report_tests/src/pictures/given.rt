//! What the tests are given: traces of a few events, and whether a text has a part.

use blk_bio::{Bio, BioId, Dir, Limits, Request};
use blk_trace::{Event, Setup, Trace};
use std::alloc::Global;
use std::process::Abort;

/// What happens in a trace.
#[derive(Drop)]
pub enum Happening {
    /// A read of 8 sectors enters under an id, which is its serial number as well and, times 8, its first sector.
    Read(u64),
    /// Such a write enters.
    Write(u64),
    /// An event by which no request enters.
    Bare(Event<()>),
    /// This number of rounds end.
    Ticks(u64),
}

/// An event is added, which breaks no rule.
fn push(rt: &impl Abort, trace: &mut Trace, event: Event<Request>) {
    assert!(rt; trace.push(event).is_ok());
}

/// A request of one bio enters.
fn enter(rt: &impl Abort, alloc: Global, trace: &mut Trace, id: u64, dir: Dir) {
    let name = BioId {
        submitter: 0,
        serial: id,
    };
    let bio = Bio::new(name, dir, id.wrapping_mul(8), 8).expect(rt, "a bio");
    let request = Request::of(alloc, bio).expect(rt, "memory");
    push(rt, trace, Event::Release { id, request });
}

/// A step's events are added.
fn take(rt: &impl Abort, alloc: Global, trace: &mut Trace, step: &Happening) {
    match step {
        Happening::Read(id) => enter(rt, alloc, trace, *id, Dir::Read),
        Happening::Write(id) => enter(rt, alloc, trace, *id, Dir::Write),
        Happening::Bare(event) => push(rt, trace, event.bare().expect(rt, "no request")),
        Happening::Ticks(count) => {
            for _ in 0..*count {
                push(rt, trace, Event::Tick);
            }
        }
    }
}

/// A trace of this depth with these events. Reads are due at once, writes after 9 rounds.
pub fn trace_of(rt: &impl Abort, alloc: Global, depth: u64, steps: &[Happening]) -> Trace {
    let limits = Limits::new(256, 128).expect(rt, "limits");
    let setup = Setup::new(depth, 1, 0, 9, limits).expect(rt, "a setup");
    let mut trace = Trace::empty(alloc, setup).expect(rt, "memory");
    for step in steps {
        take(rt, alloc, &mut trace, step);
    }
    trace
}

/// How often a text has a part.
pub fn count_of(text: &[u8], part: &[u8]) -> u64 {
    let mut count = 0;
    for at in 0..text.len() {
        if text[at..].starts_with(part) && count < u64::MAX {
            count += 1;
        }
    }
    count
}
