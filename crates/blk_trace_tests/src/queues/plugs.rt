//! Plugs.

use crate::queues::given::{Heap, bio, limits};
use blk_bio::{Dir, Side};
use blk_queues::{Added, Plug, PlugFault};
use refusing::Refusing;
use std::alloc::Global;
use std::process::Abort;

/// A plug without requests, within limits of 128 segments.
fn plug<'a>(rt: &impl Abort, heap: Heap<'a>, max_sectors: u64) -> Plug<Heap<'a>> {
    let limits = limits(rt, max_sectors, 128);
    let armed = heap.is_armed();
    match Plug::new(heap, limits) {
        Ok(plug) => plug,
        Err(_) => {
            assert!(rt; armed && !heap.is_armed());
            Plug::new(heap, limits).expect(rt, "memory")
        }
    }
}

/// Adds a read that there is room for.
fn add<'a>(
    rt: &impl Abort,
    heap: Heap<'a>,
    plug: &mut Plug<Heap<'a>>,
    first: u64,
    sectors: u64,
) -> Added {
    let read = bio(rt, Dir::Read, first, sectors);
    let armed = heap.is_armed();
    match plug.add(read) {
        Ok(added) => added,
        Err(refused) => {
            assert_eq!(rt; refused, (read, PlugFault::Memory));
            assert!(rt; armed && !heap.is_armed());
            plug.add(read).expect(rt, "memory")
        }
    }
}

/// What is done with a plug, or seen in it.
#[derive(Clone, Copy)]
enum PlugStep {
    /// A read of a first sector and a number of sectors is added.
    Add(u64, u64, Added),
    /// There is no room for such a read, which comes back.
    Full(u64, u64),
    /// The first request is taken, which has this range.
    Take(u64, u64),
    /// The first request has this number of bios.
    Bios(usize),
    /// There are this number of requests, and a first one unless there is none.
    Len(usize),
}

/// The range of the plug's first request, which is taken.
fn take(plug: &mut Plug<Heap<'_>>) -> Option<(u64, u64)> {
    let request = plug.take_first()?;
    Some((request.first(), request.sectors()))
}

/// How many bios the plug's first request has.
fn bios_of_first(plug: &Plug<Heap<'_>>) -> Option<usize> {
    Some(plug.first()?.bios().len())
}

/// Does what is done, and looks at what is seen.
fn make<'a>(rt: &impl Abort, heap: Heap<'a>, plug: &mut Plug<Heap<'a>>, step: PlugStep) {
    match step {
        PlugStep::Add(first, sectors, added) => {
            assert_eq!(rt; add(rt, heap, plug, first, sectors), added, "{first}");
        }
        PlugStep::Full(first, sectors) => {
            let read = bio(rt, Dir::Read, first, sectors);
            assert_eq!(rt; plug.add(read), Err((read, PlugFault::Full)));
        }
        PlugStep::Take(first, sectors) => assert_eq!(rt; take(plug), Some((first, sectors))),
        PlugStep::Bios(count) => assert_eq!(rt; bios_of_first(plug), Some(count)),
        PlugStep::Len(count) => {
            assert_eq!(rt; plug.len(), count);
            assert_eq!(rt; plug.first().is_none(), count == 0);
        }
    }
}

/// Does and sees one after the other.
fn follow<'a>(rt: &impl Abort, heap: Heap<'a>, plug: &mut Plug<Heap<'a>>, steps: &[PlugStep]) {
    for step in steps {
        make(rt, heap, plug, *step);
    }
}

/// Does and sees one after the other with a new plug.
fn follows(rt: &impl Abort, alloc: Global, max_sectors: u64, steps: &[PlugStep]) {
    let heap = Refusing::new(alloc);
    let mut plug = plug(rt, &heap, max_sectors);
    assert_eq!(rt; plug.limits(), limits(rt, max_sectors, 128));
    follow(rt, &heap, &mut plug, steps);
}

#[test]
fn three_reads_become_one(rt: HostRuntime) {
    let steps = [
        PlugStep::Len(0),
        PlugStep::Add(3, 3, Added::New),
        PlugStep::Add(6, 1, Added::Joined(Side::Back)),
        PlugStep::Add(7, 2, Added::Joined(Side::Back)),
        PlugStep::Len(1),
        PlugStep::Bios(3),
        PlugStep::Take(3, 6),
        PlugStep::Len(0),
    ];
    follows(&rt, rt.alloc(), 256, &steps);
}

#[test]
fn limits_refuse_a_join(rt: HostRuntime) {
    let steps = [
        PlugStep::Add(0, 4, Added::New),
        PlugStep::Add(4, 4, Added::Joined(Side::Back)),
        PlugStep::Add(8, 1, Added::New),
        PlugStep::Take(0, 8),
        PlugStep::Take(8, 1),
        PlugStep::Len(0),
    ];
    follows(&rt, rt.alloc(), 8, &steps);
}

/// A plug of 32 reads of 8 sectors, 8 sectors apart.
fn full<'a>(rt: &impl Abort, heap: Heap<'a>) -> Plug<Heap<'a>> {
    let mut plug = plug(rt, heap, 256);
    for k in 0..32u64 {
        follow(rt, heap, &mut plug, &[PlugStep::Add(16 * k, 8, Added::New)]);
    }
    plug
}

#[test]
fn full_plug(rt: HostRuntime) {
    let heap = Refusing::new(rt.alloc());
    let mut plug = full(&rt, &heap);
    let steps = [
        PlugStep::Full(600, 8),
        PlugStep::Add(8, 8, Added::Joined(Side::Front)),
        PlugStep::Len(32),
        PlugStep::Take(0, 8),
        PlugStep::Take(8, 16),
    ];
    follow(&rt, &heap, &mut plug, &steps);
}

/// Where requests have left, the newest that a bio fits is joined all the same.
fn joins_after_some_left(rt: &impl Abort, heap: Heap<'_>) {
    let mut plug = full(rt, heap);
    for k in 0..20u64 {
        follow(rt, heap, &mut plug, &[PlugStep::Take(16 * k, 8)]);
    }
    // sectors at which requests began that have left
    for k in 0..20u64 {
        follow(rt, heap, &mut plug, &[PlugStep::Add(16 * k, 8, Added::New)]);
    }
    let steps = [
        // the newest, an older one, and one of two, the newer of which is joined
        PlugStep::Add(312, 4, Added::Joined(Side::Back)),
        PlugStep::Add(504, 8, Added::Joined(Side::Back)),
        PlugStep::Add(328, 8, Added::Joined(Side::Front)),
        // where the newest ends by now
        PlugStep::Add(316, 2, Added::Joined(Side::Back)),
        PlugStep::Len(32),
        PlugStep::Take(320, 8),
        PlugStep::Take(328, 16),
    ];
    follow(rt, heap, &mut plug, &steps);
}

#[test]
fn memory_refused(rt: HostRuntime) {
    let heap = Refusing::new(rt.alloc());
    for n in 1..1000u64 {
        heap.refuse(n);
        joins_after_some_left(&rt, &heap);
        if heap.is_armed() {
            assert!(rt; n > 4);
            return;
        }
    }
    panic!(rt; "refused for ever");
}
