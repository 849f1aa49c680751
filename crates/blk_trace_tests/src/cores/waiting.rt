//! What schedulers share, and the one of the order of entry called by itself.

ghost use Rattle.std.specs.Prelude.{◌≡◌};

use crate::cores::given::{bio, limits};
use blk_bio::{Dir, Extent, Side};
use blk_index::Index;
use blk_none::NoneSched;
use blk_sched::{Queued, Scheduler, side_of_fit};
use std::process::Abort;

/// The extent of a request of four sectors.
fn four(rt: &impl Abort, dir: Dir, first: u64) -> Extent {
    bio(rt, first, dir, first, 4).extent()
}

/// A request of an id at hardware queue 0, of four sectors, released in round 0 and due in round 6.
fn queued(rt: &impl Abort, id: u64, dir: Dir, first: u64) -> Queued
    ensures id { result.id ≡ id }
    ensures hw { result.hw ≡ 0 }
{
    Queued {
        id,
        hw: 0,
        release: 0,
        due: 6,
        extent: four(rt, dir, first),
    }
}

#[test]
fn front_only_where_it_is_allowed(rt: HostRuntime) {
    let (wide, narrow) = (limits(&rt, 8), limits(&rt, 7));
    let own = four(&rt, Dir::Read, 8);
    for (dir, first, side, behind) in [
        (Dir::Read, 12, Some(Side::Back), Some(Side::Back)),
        (Dir::Read, 4, Some(Side::Front), None),
        (Dir::Read, 13, None, None),
        (Dir::Read, 8, None, None),
        (Dir::Write, 12, None, None),
    ] {
        let newcomer = four(&rt, dir, first);
        assert_eq!(rt; side_of_fit(&own, &newcomer, &wide, true), side);
        assert_eq!(rt; side_of_fit(&own, &newcomer, &wide, false), behind);
        assert_eq!(rt; side_of_fit(&own, &newcomer, &narrow, true), None);
    }
}

/// Puts a request of an id that isn't there into an index.
fn put(rt: &impl Abort, index: &mut Index, id: u64, dir: Dir) {
    assert!(rt; index.get(id).is_none());
    let newcomer = queued(rt, id, dir, id.saturating_mul(10));
    assert!(rt; index.insert(newcomer).is_ok());
}

/// Whatever the order in which they came, and whatever their directions, the request of the least id is the first.
#[test]
fn least_id_is_first(rt: HostRuntime) {
    let mut index = Index::new(rt.alloc()).expect(&rt, "memory");
    put(&rt, &mut index, 7, Dir::Read);
    put(&rt, &mut index, 3, Dir::Write);
    put(&rt, &mut index, 5, Dir::Read);
    assert_eq!(rt; index.len(), 3);
    for id in [3, 5, 7] {
        assert_eq!(rt; index.first(), Some(id));
        let first = index.remove(id).expect(&rt, "a request");
        assert_eq!(rt; first.id, id);
    }
    assert!(rt; index.first().is_none());
}

/// One read waits, is picked in round 1, requeued, issued again and done.
#[test]
fn picks_are_counted(rt: HostRuntime) {
    let Ok(mut scheduler) = NoneSched::new(rt.alloc()) else {
        panic!(rt; "out of memory");
    };
    assert!(rt; scheduler.insert(queued(&rt, 0, Dir::Read, 8)).is_ok());
    scheduler.on_tick(1);
    assert!(rt; scheduler.pending() == 1 && scheduler.picked(Dir::Read) == 0);
    assert!(rt; scheduler.pick(0, 1).is_some());
    assert!(rt; scheduler.pending() == 0 && scheduler.picked(Dir::Read) == 1);
    assert!(rt; scheduler.requeued(Dir::Read) == 0);
    scheduler.on_requeue(Dir::Read);
    assert!(rt; scheduler.picked(Dir::Read) == 0 && scheduler.requeued(Dir::Read) == 1);
    assert!(rt; scheduler.pending() == 0 && scheduler.requeued(Dir::Write) == 0);
    scheduler.on_reissue(Dir::Read);
    assert!(rt; scheduler.picked(Dir::Read) == 1 && scheduler.requeued(Dir::Read) == 0);
    scheduler.on_done(0, Dir::Read, 0);
    assert!(rt; scheduler.picked(Dir::Read) == 0 && scheduler.picked(Dir::Write) == 0);
}
