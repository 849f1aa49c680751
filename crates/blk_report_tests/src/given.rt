//! What the tests are given: traces of a few events.

use blk_bio::{Bio, BioId, Dir, Limits, Request};
use blk_report::Report;
use blk_trace::{Event, PushFault, Setup, Trace};
use edd_check::Window;
use edd_figures::Figures;
use refusing::Refusing;
use std::alloc::Global;
use std::process::Abort;

/// The allocator of all these tests. A refusal counts from the call that arms it.
pub type Heap<'a> = &'a Refusing<Global>;

/// A trace without events, of one hardware queue.
fn empty<'a>(rt: &impl Abort, heap: Heap<'a>, depth: u64, write_expire: u64) -> Trace<Heap<'a>> {
    let limits = Limits::new(256, 128).expect(rt, "limits");
    let setup = Setup::new(depth, 1, 0, write_expire, limits).expect(rt, "a setup");
    let armed = heap.is_armed();
    match Trace::empty(heap, setup) {
        Ok(trace) => trace,
        Err(_) => {
            assert!(rt; armed && !heap.is_armed());
            let Ok(trace) = Trace::empty(heap, setup) else {
                panic!(rt; "out of memory");
            };
            trace
        }
    }
}

/// Adds an event that breaks no rule.
fn push<'a>(
    rt: &impl Abort,
    heap: Heap<'a>,
    trace: &mut Trace<Heap<'a>>,
    event: Event<Request<Heap<'a>>>,
) {
    let armed = heap.is_armed();
    if let Err((back, why)) = trace.push(event) {
        assert!(rt; armed && !heap.is_armed());
        assert_eq!(rt; why, PushFault::Memory);
        assert!(rt; trace.push(back).is_ok());
    }
}

/// A bio of 8 sectors enters under an id, which is its serial number as well.
fn enter<'a>(rt: &impl Abort, heap: Heap<'a>, trace: &mut Trace<Heap<'a>>, id: u64, dir: Dir) {
    let name = BioId {
        submitter: 0,
        serial: id,
    };
    let bio = Bio::new(name, dir, id.wrapping_mul(100), 8).expect(rt, "a bio");
    let armed = heap.is_armed();
    let request = match Request::of(heap, bio) {
        Ok(request) => request,
        Err((back, _)) => {
            assert!(rt; armed && !heap.is_armed());
            Request::of(heap, back).expect(rt, "memory")
        }
    };
    push(rt, heap, trace, Event::Release { id, request });
}

/// A write of a first sector and a number of sectors joins the request of an id.
fn join<'a>(
    rt: &impl Abort,
    heap: Heap<'a>,
    trace: &mut Trace<Heap<'a>>,
    id: u64,
    first: u64,
    sectors: u64,
) {
    let name = BioId {
        submitter: 1,
        serial: id,
    };
    let bio = Bio::new(name, Dir::Write, first, sectors).expect(rt, "a bio");
    let Ok(request) = Request::of(heap, bio) else {
        panic!(rt; "out of memory");
    };
    push(rt, heap, trace, Event::Join { id, request });
}

/// A request goes out and comes back done.
fn serve<'a>(rt: &impl Abort, heap: Heap<'a>, trace: &mut Trace<Heap<'a>>, id: u64, tag: u16) {
    push(rt, heap, trace, Event::Issue { id, tag });
    push(rt, heap, trace, Event::Done { tag });
}

/// What happens in a trace.
#[derive(Clone, Copy)]
pub enum Happening {
    /// A read of 8 sectors enters under an id, which is its serial number as well and, times 100, its first sector.
    Read(u64),
    /// Such a write enters.
    Write(u64),
    /// Such reads enter, of the ids below a number.
    Reads(u64),
    /// A write of a first sector and a number of sectors joins the request of an id.
    Join(u64, u64, u64),
    /// A request goes out under a tag.
    Issue(u64, u16),
    /// What went out under a tag is requeued.
    Back(u16),
    /// A request goes out and comes back done, and the round ends.
    Serve(u64),
    /// Two requests go out and come back done, one after the other, and the round ends.
    Both(u64, u64),
    /// The rounds to come have another depth.
    Depth(u64),
    /// The round ends.
    Tick,
}

/// A step's events are added.
fn take<'a>(rt: &impl Abort, heap: Heap<'a>, trace: &mut Trace<Heap<'a>>, step: Happening) {
    match step {
        Happening::Read(id) => enter(rt, heap, trace, id, Dir::Read),
        Happening::Write(id) => enter(rt, heap, trace, id, Dir::Write),
        Happening::Reads(count) => {
            for id in 0..count {
                enter(rt, heap, trace, id, Dir::Read);
            }
        }
        Happening::Join(id, first, sectors) => join(rt, heap, trace, id, first, sectors),
        Happening::Issue(id, tag) => push(rt, heap, trace, Event::Issue { id, tag }),
        Happening::Back(tag) => push(rt, heap, trace, Event::Back { tag }),
        Happening::Serve(id) => {
            serve(rt, heap, trace, id, 0);
            push(rt, heap, trace, Event::Tick);
        }
        Happening::Both(first, second) => {
            serve(rt, heap, trace, first, 0);
            serve(rt, heap, trace, second, 1);
            push(rt, heap, trace, Event::Tick);
        }
        Happening::Depth(depth) => push(rt, heap, trace, Event::Depth { depth }),
        Happening::Tick => push(rt, heap, trace, Event::Tick),
    }
}

/// A trace of one hardware queue with the events of these steps. Reads are due at once, writes after this number of rounds.
pub fn trace_of<'a>(
    rt: &impl Abort,
    heap: Heap<'a>,
    depth: u64,
    write_expire: u64,
    steps: &[Happening],
) -> Trace<Heap<'a>> {
    let mut trace = empty(rt, heap, depth, write_expire);
    for step in steps {
        take(rt, heap, &mut trace, *step);
    }
    trace
}

/// A report with commands.
pub fn served(
    counts: (u64, u64, u64),
    greatest: i64,
    least: i64,
    shortfall: i64,
    window: (u64, u64),
    load: u64,
) -> Report {
    let (commands, waiting, depth) = counts;
    let (from, due) = window;
    Report {
        commands,
        waiting,
        depth,
        figures: Some(Figures {
            greatest,
            least,
            shortfall,
            window: Window { from, due },
            load,
        }),
    }
}

/// A report without commands.
pub fn unserved(waiting: u64, depth: u64) -> Report {
    Report {
        commands: 0,
        waiting,
        depth,
        figures: None,
    }
}
