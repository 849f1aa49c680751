//! What the tests are given: events as plain values, and calls that are made once more where an allocation was refused.

use blk_bio::{Bio, BioId, Dir, Limits, Request};
use blk_trace::{Event, PushFault, Setup, Trace, TraceFault};
use refusing::Refusing;
use std::alloc::Global;
use std::process::Abort;

/// The allocator of all these tests. A refusal counts from the call that arms it.
pub type Heap<'a> = &'a Refusing<Global>;

/// An event, whose request is of one bio: of submitter 0, and its serial number is its first sector.
#[derive(Drop)]
pub enum Happening {
    /// A read of this first sector and length enters under an id.
    Read(u64, u64, u64),
    /// Such a write does.
    Write(u64, u64, u64),
    /// Such a read joins the request of an id.
    JoinRead(u64, u64, u64),
    /// Such a write does.
    JoinWrite(u64, u64, u64),
    /// An event by which no request enters.
    Bare(Event<()>),
}

/// A bio of submitter 0, whose serial number is its first sector, if there may be such a one.
pub fn bio(dir: Dir, first: u64, sectors: u64) -> Option<Bio> {
    let id = BioId {
        submitter: 0,
        serial: first,
    };
    Bio::new(id, dir, first, sectors).ok()
}

/// Requests of at most these numbers of sectors and bios.
pub fn limits(rt: &impl Abort, max_sectors: u64, max_segments: u64) -> Limits {
    Limits::new(max_sectors, max_segments).expect(rt, "limits")
}

/// One hardware queue and depth 1.
pub fn setup(rt: &impl Abort, read_expire: u64, write_expire: u64, limits: Limits) -> Setup {
    Setup::new(1, 1, read_expire, write_expire, limits).expect(rt, "a setup")
}

/// A request of one bio. There is none where memory was refused twice.
pub fn request<'a>(
    heap: Heap<'a>,
    dir: Dir,
    first: u64,
    sectors: u64,
) -> Option<Request<Heap<'a>>> {
    match Request::of(heap, bio(dir, first, sectors)?) {
        Ok(request) => Some(request),
        Err((back, _)) => Request::of(heap, back).ok(),
    }
}

/// The event of a step.
pub fn event<'a>(heap: Heap<'a>, step: &Happening) -> Option<Event<Request<Heap<'a>>>> {
    match step {
        Happening::Read(id, first, sectors) => Some(Event::Release {
            id: *id,
            request: request(heap, Dir::Read, *first, *sectors)?,
        }),
        Happening::Write(id, first, sectors) => Some(Event::Release {
            id: *id,
            request: request(heap, Dir::Write, *first, *sectors)?,
        }),
        Happening::JoinRead(id, first, sectors) => Some(Event::Join {
            id: *id,
            request: request(heap, Dir::Read, *first, *sectors)?,
        }),
        Happening::JoinWrite(id, first, sectors) => Some(Event::Join {
            id: *id,
            request: request(heap, Dir::Write, *first, *sectors)?,
        }),
        Happening::Bare(event) => event.bare(),
    }
}

/// Whether what entered is this bio alone, under this id.
fn is_bio(entered: Option<(u64, &Request<Heap<'_>>)>, id: u64, bio: Option<Bio>) -> bool {
    match (entered, bio) {
        (Some((there, request)), Some(bio)) => there == id && request.bios() == [bio].as_slice(),
        _ => false,
    }
}

/// What `Debug` prints of an event: its kind and its numbers, so that no kind is named here. There is no text where memory was
/// refused twice.
fn printed<'a>(heap: Heap<'a>, event: &Event<()>) -> Option<String<Heap<'a>>> {
    match format!(in heap; "{event:?}") {
        Ok(text) => Some(text),
        Err(_) => format!(in heap; "{event:?}").ok(),
    }
}

/// Whether the first event is the other one, by which no request enters.
fn is_bare<'a>(heap: Heap<'a>, event: &Event<Request<Heap<'a>>>, wanted: &Event<()>) -> bool {
    let Some(bare) = event.bare() else {
        return false;
    };
    match (printed(heap, &bare), printed(heap, wanted)) {
        (Some(text), Some(wanted)) => text.as_str() == wanted.as_str(),
        _ => false,
    }
}

/// Whether the event is the one of the step.
pub fn is_event<'a>(heap: Heap<'a>, event: &Event<Request<Heap<'a>>>, step: &Happening) -> bool {
    match step {
        Happening::Read(id, first, sectors) => {
            is_bio(event.releases(), *id, bio(Dir::Read, *first, *sectors))
        }
        Happening::Write(id, first, sectors) => {
            is_bio(event.releases(), *id, bio(Dir::Write, *first, *sectors))
        }
        Happening::JoinRead(id, first, sectors) => {
            is_bio(event.joins(), *id, bio(Dir::Read, *first, *sectors))
        }
        Happening::JoinWrite(id, first, sectors) => {
            is_bio(event.joins(), *id, bio(Dir::Write, *first, *sectors))
        }
        Happening::Bare(wanted) => is_bare(heap, event, wanted),
    }
}

/// Whether the trace's events are those of the steps.
pub fn has_events<'a>(heap: Heap<'a>, trace: &Trace<Heap<'a>>, steps: &[Happening]) -> bool {
    let events = trace.events();
    if events.len() != steps.len() || trace.len() != steps.len() as u64 {
        return false;
    }
    for i in 0..events.len() {
        if !is_event(heap, &events[i], &steps[i]) {
            return false;
        }
    }
    true
}

/// How many events there are, the round, and how many issues are not done.
pub fn standing(trace: &Trace<Heap<'_>>) -> (u64, u64, u64) {
    (trace.len(), trace.round(), trace.unfinished())
}

/// A trace without events.
pub fn empty<'a>(rt: &impl Abort, heap: Heap<'a>, setup: Setup) -> Trace<Heap<'a>> {
    match Trace::empty(heap, setup) {
        Ok(trace) => trace,
        Err(_) => {
            assert!(rt; !heap.is_armed());
            let Ok(trace) = Trace::empty(heap, setup) else {
                panic!(rt; "out of memory");
            };
            trace
        }
    }
}

/// Pushes the event of a step that breaks no rule; where memory is refused it comes back, nothing is changed, and it is pushed again.
pub fn is_pushed<'a>(heap: Heap<'a>, trace: &mut Trace<Heap<'a>>, step: &Happening) -> bool {
    let Some(event) = event(heap, step) else {
        return false;
    };
    let armed = heap.is_armed();
    let before = standing(trace);
    match trace.push(event) {
        Ok(()) => true,
        Err((back, PushFault::Memory)) => {
            armed
                && !heap.is_armed()
                && is_event(heap, &back, step)
                && standing(trace) == before
                && trace.push(back).is_ok()
        }
        Err((_, PushFault::Rule(_))) => false,
    }
}

/// What comes of a list of the events of the steps.
pub fn made<'a>(
    rt: &impl Abort,
    heap: Heap<'a>,
    setup: Setup,
    steps: &[Happening],
) -> Result<Trace<Heap<'a>>, TraceFault> {
    let mut events = Vec::new(heap);
    for step in steps {
        let Some(event) = event(heap, step) else {
            panic!(rt; "no such event");
        };
        if let Err(refused) = events.push(event) {
            assert!(rt; events.push(refused.value).is_ok());
        }
    }
    Trace::from_events(heap, setup, events)
}
