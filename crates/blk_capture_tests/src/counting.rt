//! Requests counted in rounds, worked by hand.

use blk_capture::{TimedRequest, are_served, count_rounds};
use edd_commands::Command;
use refusing::Refusing;

/// A request by when it was released, was due and went out.
fn served(release: u64, deadline: u64, dispatch: u64) -> TimedRequest {
    TimedRequest {
        release,
        deadline,
        dispatch,
    }
}

/// The second goes out after its deadline; nothing goes out between the third one's release and its deadline, so that it is due before
/// its release; what goes out at the time of a release is not before it, and at that of a deadline by it.
#[test]
fn three_dispatches(rt: HostRuntime) {
    let heap = Refusing::new(rt.alloc());
    let requests = [
        served(0, 10, 5),
        served(5, 6, 8),
        served(9, 9, 12),
        served(8, 12, 12),
    ];
    let wanted = [(1, 1, 2), (2, 1, 1), (3, 3, 2), (4, 2, 4)];
    assert!(rt; are_served(&requests));
    let Ok(schedule) = count_rounds(&heap, &requests) else {
        panic!(rt; "memory");
    };
    assert_eq!(rt; schedule.commands.len(), 4);
    for (command, (id, release, due)) in schedule.commands.iter().zip(wanted) {
        assert_eq!(rt; *command, Command { id, release, due });
    }
    assert!(rt; schedule.rounds.as_slice() == [1, 2, 3, 4].as_slice());
}

/// Out of order, or out before it was released.
#[test]
fn not_served(rt: HostRuntime) {
    assert!(rt; are_served(&[]));
    assert!(rt; !are_served(&[served(0, 0, 5), served(0, 0, 4)]));
    assert!(rt; !are_served(&[served(6, 0, 5)]));
}
