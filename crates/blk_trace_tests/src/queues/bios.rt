//! Bios, limits and requests.

use crate::queues::given::{Heap, bio, id_of, joined, limits, request};
use blk_bio::{Bio, BioFault, Dir, JoinFault, Limits, LimitsFault, MAX_END, Request, Side};
use refusing::Refusing;
use std::process::Abort;

#[test]
fn constructors_refuse(rt: HostRuntime) {
    let last = bio(&rt, Dir::Write, MAX_END - 1, 1);
    assert_eq!(rt; last.id(), id_of(281_474_976_710_655));
    assert_eq!(rt; (last.dir(), last.sectors()), (Dir::Write, 1));
    assert_eq!(rt; last.first(), 281_474_976_710_655);
    for (first, sectors, fault) in [
        (MAX_END - 1, 2, BioFault::Range),
        (MAX_END, 1, BioFault::Range),
        (0, 0, BioFault::Empty),
    ] {
        assert_eq!(rt; Bio::new(id_of(1), Dir::Read, first, sectors), Err(fault));
    }
    let widest = limits(&rt, 65_535, 128);
    assert_eq!(rt;
        (widest.max_sectors(), widest.max_segments()),
        (65_535, 128)
    );
    for (sectors, segments, fault) in [
        (0, 0, LimitsFault::Sectors),
        (65_536, 128, LimitsFault::Sectors),
        (1, 0, LimitsFault::Segments),
        (1, 129, LimitsFault::Segments),
    ] {
        assert_eq!(rt; Limits::new(sectors, segments), Err(fault));
    }
}

/// The fault of joining a bio, which has to come back.
fn refused<'a>(
    rt: &impl Abort,
    heap: Heap<'a>,
    whole: &mut Request<Heap<'a>>,
    newcomer: Bio,
    limits: &Limits,
) -> JoinFault {
    match whole.join(request(rt, heap, newcomer), limits) {
        Ok(_) => panic!(rt; "joined"),
        Err((back, why)) => {
            assert_eq!(rt; back.bios(), [newcomer].as_slice());
            why
        }
    }
}

#[test]
fn limits_refuse_a_join(rt: HostRuntime) {
    let heap = Refusing::new(rt.alloc());
    let mut whole = request(&rt, &heap, bio(&rt, Dir::Read, 0, 4));
    let (narrow, eight) = (limits(&rt, 256, 1), limits(&rt, 8, 128));
    let next = bio(&rt, Dir::Read, 4, 4);
    let why = refused(&rt, &heap, &mut whole, next, &narrow);
    assert_eq!(rt; why, JoinFault::Segments);
    let side = joined(&rt, &heap, &mut whole, next, &eight);
    assert_eq!(rt; side, Side::Back);
    for (dir, first, fault) in [
        (Dir::Read, 8, JoinFault::Sectors),
        (Dir::Write, 8, JoinFault::Direction),
        (Dir::Read, 9, JoinFault::Apart),
    ] {
        let newcomer = bio(&rt, dir, first, 1);
        assert_eq!(rt; refused(&rt, &heap, &mut whole, newcomer, &eight), fault);
    }
    assert_eq!(rt; (whole.first(), whole.sectors()), (0, 8));
}

#[test]
fn bios_pushed_at_the_back(rt: HostRuntime) {
    let heap = Refusing::new(rt.alloc());
    let eight = limits(&rt, 8, 2);
    let (first, next) = (bio(&rt, Dir::Read, 4, 4), bio(&rt, Dir::Read, 8, 2));
    let mut whole = request(&rt, &heap, first);
    for (dir, begin, sectors, fault) in [
        (Dir::Write, 8, 1, JoinFault::Direction),
        (Dir::Read, 3, 1, JoinFault::Apart),
        (Dir::Read, 8, 5, JoinFault::Sectors),
    ] {
        let newcomer = bio(&rt, dir, begin, sectors);
        assert_eq!(rt; whole.push_bio(newcomer, &eight), Err(fault));
    }
    assert_eq!(rt; whole.push_bio(next, &eight), Ok(()));
    let third = bio(&rt, Dir::Read, 10, 1);
    assert_eq!(rt; whole.push_bio(third, &eight), Err(JoinFault::Segments));
    assert_eq!(rt; whole.bios(), [first, next].as_slice());
}

#[test]
fn bio_pushed_once_more(rt: HostRuntime) {
    let heap = Refusing::new(rt.alloc());
    let eight = limits(&rt, 8, 2);
    let (first, second) = (bio(&rt, Dir::Read, 4, 4), bio(&rt, Dir::Read, 8, 2));
    let mut whole = request(&rt, &heap, first);
    heap.refuse(1);
    let refused = whole.push_bio(second, &eight);
    assert!(rt; !heap.is_armed());
    assert_eq!(rt; refused, Err(JoinFault::Memory));
    assert_eq!(rt; whole.bios(), [first].as_slice());
    assert_eq!(rt; whole.push_bio(second, &eight), Ok(()));
    assert_eq!(rt; whole.bios(), [first, second].as_slice());
}

#[test]
fn front_merge(rt: HostRuntime) {
    let heap = Refusing::new(rt.alloc());
    let narrow = limits(&rt, 8, 2);
    let (read, before) = (bio(&rt, Dir::Read, 10, 2), bio(&rt, Dir::Read, 8, 2));
    let mut pending = request(&rt, &heap, read);
    let newcomer = request(&rt, &heap, before);
    let long = request(&rt, &heap, bio(&rt, Dir::Write, 0, 9));
    assert_eq!(rt; pending.abuts(&newcomer), Some(Side::Front));
    assert_eq!(rt; newcomer.abuts(&pending), Some(Side::Back));
    assert_eq!(rt; pending.abuts(&long), None);
    assert_eq!(rt; pending.fits(&newcomer, &narrow), Some(Side::Front));
    assert_eq!(rt; pending.fits(&newcomer, &limits(&rt, 3, 2)), None);
    let side = joined(&rt, &heap, &mut pending, before, &narrow);
    assert_eq!(rt; side, Side::Front);
    assert_eq!(rt; pending.bios(), [before, read].as_slice());
    assert_eq!(rt; pending.dir(), Dir::Read);
    assert_eq!(rt; (pending.first(), pending.sectors()), (8, 4));
    assert!(rt; pending.within(&narrow) && !pending.within(&limits(&rt, 3, 2)));
    assert!(rt; long.within(&narrow));
}

/// A request that grows by a bio at its front and one at its back in turn.
fn grows(rt: &impl Abort, heap: Heap<'_>) {
    let wide = limits(rt, 256, 128);
    let mut whole = request(rt, heap, bio(rt, Dir::Read, 100, 1));
    for k in 1..20u64 {
        let side = joined(rt, heap, &mut whole, bio(rt, Dir::Read, 100 - k, 1), &wide);
        assert_eq!(rt; side, Side::Front);
        let side = joined(rt, heap, &mut whole, bio(rt, Dir::Read, 100 + k, 1), &wide);
        assert_eq!(rt; side, Side::Back);
    }
    assert_eq!(rt; (whole.first(), whole.sectors()), (81, 39));
    assert_eq!(rt; whole.bios().len(), 39);
}

#[test]
fn memory_refused(rt: HostRuntime) {
    let heap = Refusing::new(rt.alloc());
    for n in 1..1000u64 {
        heap.refuse(n);
        grows(&rt, &heap);
        if heap.is_armed() {
            assert!(rt; n > 5);
            return;
        }
    }
    panic!(rt; "refused for ever");
}
