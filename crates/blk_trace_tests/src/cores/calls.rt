//! The core in the order of entry: lists of calls, each with the answer that it has to give.

use crate::cores::given::{alone, bio, command, follow, follows, id_of, in_order, limits, setup};
use crate::cores::listed::{CoreCall, release};
use blk_bio::{Dir, Request, Side};
use blk_core::{CoreFault, DepthFault, IssueFault, NotIssued, Placed, TickFault};
use std::alloc::Global;
use std::process::Abort;

#[test]
fn core_refusals(rt: HostRuntime) {
    let commands = [command(0, 0, 0), command(1, 0, 0)];
    let calls = [
        CoreCall::Read(0, 0, 8, 0, Ok(Placed::New(0))),
        CoreCall::Read(1, 100, 8, 0, Ok(Placed::New(1))),
        CoreCall::Pending(2),
        CoreCall::Issue(0, 0, Ok(Some(command(0, 0, 0)))),
        CoreCall::Pending(1),
        CoreCall::Tick(Err(TickFault::InFlight(1))),
        CoreCall::Done(0, Ok(())),
        CoreCall::Done(0, Err(NotIssued)),
        CoreCall::Done(1, Err(NotIssued)),
        CoreCall::Issue(0, 0, Err(IssueFault::SlotUsed)),
        CoreCall::Issue(0, 1, Err(IssueFault::TagRange)),
        CoreCall::Issue(1, 0, Err(IssueFault::NoQueue)),
        CoreCall::Issue(1, 1, Err(IssueFault::NoQueue)),
        CoreCall::Tick(Ok(1)),
        CoreCall::Issue(0, 0, Ok(Some(command(1, 0, 0)))),
        CoreCall::Done(0, Ok(())),
        CoreCall::Tick(Ok(2)),
        CoreCall::Issue(0, 0, Ok(None)),
        CoreCall::Pending(0),
        CoreCall::Len(8),
        CoreCall::Commands(&commands),
        CoreCall::Rounds(&[0, 1]),
    ];
    follows(&rt, rt.alloc(), setup(&rt, 1, 1, 0), &calls);
}

#[test]
fn repeated_bio(rt: HostRuntime) {
    let calls = [
        CoreCall::Read(7, 0, 8, 0, Ok(Placed::New(0))),
        CoreCall::Read(7, 100, 8, 0, Err(CoreFault::Repeated(id_of(7)))),
        CoreCall::Read(7, 100, 8, 1, Err(CoreFault::NoQueue)),
        CoreCall::Read(8, 100, 8, 0, Ok(Placed::New(1))),
        CoreCall::Pending(2),
    ];
    follows(&rt, rt.alloc(), setup(&rt, 1, 1, 0), &calls);
}

/// A read of the bios 9, 10, 10 and 7, of 8 sectors each.
fn twice_named(rt: &impl Abort, alloc: Global) -> Request {
    let limits = limits(rt, 256);
    let mut request = alone(rt, alloc, bio(rt, 9, Dir::Read, 200, 8));
    for (serial, first) in [(10, 208), (10, 216), (7, 224)] {
        let next = alone(rt, alloc, bio(rt, serial, Dir::Read, first, 8));
        assert!(rt; request.join(next, &limits).is_ok());
    }
    request
}

/// What a core in which bio 7 waits answers to such a read.
fn refused(rt: &impl Abort, alloc: Global) -> Option<Result<Placed, CoreFault>> {
    let mut core = in_order(rt, &alloc, setup(rt, 1, 1, 0));
    let enters = [CoreCall::Read(7, 0, 8, 0, Ok(Placed::New(0)))];
    follow(rt, &alloc, &mut core, &enters);
    release(&mut core, twice_named(rt, alloc), 0)
}

/// The first bio in the order of the request that stands in it already, or in the trace: 10, and not 7.
#[test]
fn repeated_in_the_request(rt: HostRuntime) {
    let second = Err(CoreFault::Repeated(id_of(10)));
    assert_eq!(rt; refused(&rt, rt.alloc()), Some(second));
}

#[test]
fn joined_on_entry(rt: HostRuntime) {
    let calls = [
        CoreCall::Read(0, 0, 4, 0, Ok(Placed::New(0))),
        CoreCall::Tick(Ok(1)),
        CoreCall::Tick(Ok(2)),
        CoreCall::Tick(Ok(3)),
        CoreCall::Read(1, 4, 4, 0, Ok(Placed::Joined(0, Side::Back))),
        CoreCall::Pending(1),
        CoreCall::Issue(0, 0, Ok(Some(command(0, 3, 5)))),
    ];
    follows(&rt, rt.alloc(), setup(&rt, 1, 1, 5), &calls);
}

#[test]
fn front_merge(rt: HostRuntime) {
    // the bios of the one request, in the order of their sectors: it is (8, 4)
    let tiles = [bio(&rt, 1, Dir::Read, 8, 2), bio(&rt, 0, Dir::Read, 10, 2)];
    let calls = [
        CoreCall::Read(0, 10, 2, 0, Ok(Placed::New(0))),
        CoreCall::Read(1, 8, 2, 0, Ok(Placed::Joined(0, Side::Front))),
        CoreCall::Pending(1),
        CoreCall::Waiting(&tiles),
    ];
    follows(&rt, rt.alloc(), setup(&rt, 1, 1, 0), &calls);
}

/// A newcomer between two requests joins the newer one, and where that is full the older one.
#[test]
fn newest_is_joined(rt: HostRuntime) {
    let calls = [
        CoreCall::Read(0, 0, 4, 0, Ok(Placed::New(0))),
        CoreCall::Read(1, 8, 4, 0, Ok(Placed::New(1))),
        CoreCall::Read(2, 300, 4, 0, Ok(Placed::New(2))),
        CoreCall::Read(3, 6, 2, 0, Ok(Placed::Joined(1, Side::Front))),
        CoreCall::Read(4, 4, 2, 0, Ok(Placed::Joined(1, Side::Front))),
        // request 1 begins at sector 4 and ends at 12: it grows to 256 sectors, and can't take one more
        CoreCall::Read(5, 12, 248, 0, Ok(Placed::Joined(1, Side::Back))),
        CoreCall::Read(6, 260, 4, 0, Ok(Placed::New(3))),
        CoreCall::Read(7, 304, 4, 0, Ok(Placed::Joined(2, Side::Back))),
        CoreCall::Pending(4),
    ];
    follows(&rt, rt.alloc(), setup(&rt, 1, 1, 0), &calls);
}

#[test]
fn older_is_joined_where_the_newer_is_full(rt: HostRuntime) {
    let calls = [
        CoreCall::Read(0, 0, 4, 0, Ok(Placed::New(0))),
        CoreCall::Read(1, 8, 256, 0, Ok(Placed::New(1))),
        CoreCall::Read(2, 4, 4, 0, Ok(Placed::Joined(0, Side::Back))),
        CoreCall::Pending(2),
    ];
    follows(&rt, rt.alloc(), setup(&rt, 1, 1, 0), &calls);
}

#[test]
fn picked_by_queue(rt: HostRuntime) {
    let calls = [
        CoreCall::Read(0, 0, 8, 1, Ok(Placed::New(0))),
        CoreCall::Read(1, 100, 8, 0, Ok(Placed::New(1))),
        CoreCall::Issue(0, 0, Ok(Some(command(1, 0, 0)))),
        CoreCall::Issue(0, 1, Ok(None)),
        CoreCall::Issue(1, 1, Ok(Some(command(0, 0, 0)))),
    ];
    follows(&rt, rt.alloc(), setup(&rt, 2, 2, 0), &calls);
}

/// The requests of two hardware queues lie between one another: each queue gives its own by rising id.
#[test]
fn two_queues_in_turn(rt: HostRuntime) {
    let calls = [
        CoreCall::Read(0, 0, 8, 0, Ok(Placed::New(0))),
        CoreCall::Read(1, 100, 8, 1, Ok(Placed::New(1))),
        CoreCall::Read(2, 200, 8, 0, Ok(Placed::New(2))),
        CoreCall::Read(3, 300, 8, 1, Ok(Placed::New(3))),
        CoreCall::Issue(0, 0, Ok(Some(command(0, 0, 0)))),
        CoreCall::Issue(1, 1, Ok(Some(command(1, 0, 0)))),
        CoreCall::Issue(0, 2, Ok(Some(command(2, 0, 0)))),
        CoreCall::Pending(1),
        CoreCall::Issue(0, 3, Ok(None)),
        CoreCall::Issue(1, 3, Ok(Some(command(3, 0, 0)))),
    ];
    follows(&rt, rt.alloc(), setup(&rt, 4, 2, 0), &calls);
}

#[test]
fn no_join_across_queues(rt: HostRuntime) {
    let calls = [
        CoreCall::Read(0, 0, 4, 0, Ok(Placed::New(0))),
        CoreCall::Read(1, 4, 4, 1, Ok(Placed::New(1))),
        CoreCall::Pending(2),
    ];
    follows(&rt, rt.alloc(), setup(&rt, 2, 2, 0), &calls);
}

#[test]
fn full_trace(rt: HostRuntime) {
    let calls = [
        CoreCall::Read(0, 0, 8, 0, Ok(Placed::New(0))),
        CoreCall::Ticks(999_998),
        CoreCall::Issue(0, 0, Err(IssueFault::TraceFull)),
        CoreCall::Tick(Ok(999_999)),
        CoreCall::Tick(Err(TickFault::TraceFull)),
        CoreCall::Read(1, 100, 8, 0, Err(CoreFault::TraceFull)),
        CoreCall::Depth(0, Err(DepthFault::TraceFull)),
        CoreCall::Pending(1),
        CoreCall::Len(1_000_000),
    ];
    follows(&rt, rt.alloc(), setup(&rt, 1, 1, 0), &calls);
}

#[test]
fn a_tick_counts_what_is_in_flight(rt: HostRuntime) {
    let calls = [
        CoreCall::Read(0, 0, 8, 0, Ok(Placed::New(0))),
        CoreCall::Read(1, 100, 8, 0, Ok(Placed::New(1))),
        CoreCall::Read(2, 200, 8, 0, Ok(Placed::New(2))),
        CoreCall::Issue(0, 2, Ok(Some(command(0, 0, 0)))),
        CoreCall::Issue(0, 0, Ok(Some(command(1, 0, 0)))),
        CoreCall::Tick(Err(TickFault::InFlight(2))),
        CoreCall::Done(2, Ok(())),
        CoreCall::Issue(0, 1, Ok(Some(command(2, 0, 0)))),
        CoreCall::Tick(Err(TickFault::InFlight(2))),
        CoreCall::Done(0, Ok(())),
        CoreCall::Tick(Err(TickFault::InFlight(1))),
        CoreCall::Done(1, Ok(())),
        CoreCall::Tick(Ok(1)),
    ];
    follows(&rt, rt.alloc(), setup(&rt, 3, 1, 0), &calls);
}
