//! The rows of the rule. Requests are named by the order in which they enter.

use crate::cores::deadline::given::{follows, tuned};
use crate::cores::listed::CoreCall;
use blk_bio::Side;
use blk_core::Placed;
use blk_deadline::{Deadline, DeadlineFault};

/// A batch goes on upwards; where nothing lies further on, the oldest begins the next one.
#[test]
fn deadline_batch(rt: HostRuntime) {
    let calls = [
        CoreCall::Read(0, 300, 8, 0, Ok(Placed::New(0))),
        CoreCall::Read(1, 100, 8, 0, Ok(Placed::New(1))),
        CoreCall::Read(2, 200, 8, 0, Ok(Placed::New(2))),
        CoreCall::Send(0, 0, &[0, 1, 2]),
    ];
    follows(&rt, rt.alloc(), 8, 100, tuned(2, 2, true), &calls);
}

/// Reads go first twice while a write waits, and then the write.
#[test]
fn writes_starved(rt: HostRuntime) {
    let calls = [
        CoreCall::Read(0, 100, 8, 0, Ok(Placed::New(0))),
        CoreCall::Read(1, 200, 8, 0, Ok(Placed::New(1))),
        CoreCall::Read(2, 300, 8, 0, Ok(Placed::New(2))),
        CoreCall::Read(3, 400, 8, 0, Ok(Placed::New(3))),
        CoreCall::Write(4, 50, 8, 0, Ok(Placed::New(4))),
        CoreCall::Send(0, 0, &[0, 1, 4, 2, 3]),
    ];
    follows(&rt, rt.alloc(), 8, 100, tuned(1, 2, true), &calls);
}

/// Reads that don't go first at all: the write does.
#[test]
fn write_goes_first(rt: HostRuntime) {
    let calls = [
        CoreCall::Read(0, 100, 8, 0, Ok(Placed::New(0))),
        CoreCall::Write(1, 50, 8, 0, Ok(Placed::New(1))),
        CoreCall::Send(0, 0, &[1, 0]),
    ];
    follows(&rt, rt.alloc(), 8, 100, tuned(1, 0, true), &calls);
}

/// Between batches what is due goes first, and nothing in a batch: four reads that are due in round 5 go out in round 9,
/// and in round 0.
#[test]
fn batches_and_expiry(rt: HostRuntime) {
    for (rounds, ids) in [(9, [0, 2, 1, 3]), (0, [0, 2, 3, 1])] {
        let calls = [
            CoreCall::Read(0, 500, 8, 0, Ok(Placed::New(0))),
            CoreCall::Read(1, 100, 8, 0, Ok(Placed::New(1))),
            CoreCall::Read(2, 600, 8, 0, Ok(Placed::New(2))),
            CoreCall::Read(3, 700, 8, 0, Ok(Placed::New(3))),
            CoreCall::Ticks(rounds),
            CoreCall::Send(0, 0, &ids),
        ];
        follows(&rt, rt.alloc(), 8, 5, tuned(2, 2, true), &calls);
    }
}

/// A newcomer joins at the front where that is allowed, and another at the front of that.
#[test]
fn front_merge(rt: HostRuntime) {
    let joined = Placed::Joined(0, Side::Front);
    for (allowed, second, third, left) in [
        (true, joined, joined, 1),
        (false, Placed::New(1), Placed::New(2), 3),
    ] {
        let calls = [
            CoreCall::Read(0, 10, 2, 0, Ok(Placed::New(0))),
            CoreCall::Read(1, 8, 2, 0, Ok(second)),
            CoreCall::Read(2, 6, 2, 0, Ok(third)),
            CoreCall::Pending(left),
        ];
        follows(&rt, rt.alloc(), 1, 0, tuned(16, 2, allowed), &calls);
    }
}

/// A batch of no request is refused, and told of settings alone.
#[test]
fn constructors_refuse(rt: HostRuntime) {
    assert!(rt; tuned(0, 2, true).has_zero_batch());
    assert!(rt; !tuned(1, 0, false).has_zero_batch());
    let refused = match Deadline::new(rt.alloc(), tuned(0, 2, true)) {
        Ok(_) => None,
        Err(why) => Some(why),
    };
    assert_eq!(rt; refused, Some(DeadlineFault::ZeroBatch));
    assert!(rt; Deadline::new(rt.alloc(), tuned(1, 0, false)).is_ok());
}

/// Two commands go out in one round after two ticks: what is due, the oldest first.
#[test]
fn two_in_one_round(rt: HostRuntime) {
    let calls = [
        CoreCall::Read(0, 50, 8, 0, Ok(Placed::New(0))),
        CoreCall::Read(1, 10, 8, 0, Ok(Placed::New(1))),
        CoreCall::Read(2, 60, 8, 0, Ok(Placed::New(2))),
        CoreCall::Ticks(2),
        CoreCall::Send(0, 0, &[0, 1]),
    ];
    follows(&rt, rt.alloc(), 2, 2, tuned(1, 2, true), &calls);
}

/// A batch goes past a request that is due: the read at 50 is issued three rounds late, where the order of entry would
/// be two rounds late at most.
#[test]
fn later_than_none(rt: HostRuntime) {
    let calls = [
        CoreCall::Read(0, 100, 8, 0, Ok(Placed::New(0))),
        CoreCall::Read(1, 50, 8, 0, Ok(Placed::New(1))),
        CoreCall::Read(2, 200, 8, 0, Ok(Placed::New(2))),
        CoreCall::Send(0, 0, &[0]),
        CoreCall::AllDone(1),
        CoreCall::Ticks(1),
        CoreCall::Read(3, 300, 8, 0, Ok(Placed::New(3))),
        CoreCall::Send(0, 0, &[2]),
        CoreCall::AllDone(1),
        CoreCall::Ticks(1),
        CoreCall::Send(0, 0, &[3]),
        CoreCall::AllDone(1),
        CoreCall::Ticks(1),
        CoreCall::Send(0, 0, &[1]),
    ];
    follows(&rt, rt.alloc(), 1, 0, tuned(16, 2, true), &calls);
}

/// What is requeued goes out first, and the batch goes on from where it was.
#[test]
fn handed_back_in_a_batch(rt: HostRuntime) {
    let calls = [
        CoreCall::Read(0, 300, 8, 0, Ok(Placed::New(0))),
        CoreCall::Read(1, 100, 8, 0, Ok(Placed::New(1))),
        CoreCall::Read(2, 400, 8, 0, Ok(Placed::New(2))),
        CoreCall::Read(3, 500, 8, 0, Ok(Placed::New(3))),
        CoreCall::Send(0, 0, &[0]),
        CoreCall::Back(0, Ok(0)),
        CoreCall::Ticks(1),
        CoreCall::Send(0, 0, &[0, 2, 3, 1]),
    ];
    follows(&rt, rt.alloc(), 4, 100, tuned(3, 2, true), &calls);
}
