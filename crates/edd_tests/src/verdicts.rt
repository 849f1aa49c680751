//! Why commands are late.

use crate::made::{command, fixed, window};
use edd_check::is_legal;
use edd_commands::{Capacity, Command};
use edd_oracle::solve;
use edd_verdict::{Verdict, verdicts};
use std::alloc::{Allocator, Global};
use std::process::Abort;

/// The commands that run in these rounds have these verdicts; whether memory was not refused.
pub fn says<A: Allocator + Clone>(
    rt: &impl Abort,
    alloc: Global,
    heap: A,
    commands: &[Command],
    capacity: &Capacity,
    rounds: &[u64],
    wanted: &[Option<Verdict>],
) -> bool {
    assert!(rt; matches!(solve(alloc, commands, capacity), Ok(_)));
    assert!(rt; is_legal(commands, rounds, capacity));
    match verdicts(heap, commands, rounds, capacity) {
        Ok(found) => {
            assert!(rt; found.as_slice() == wanted);
            true
        }
        Err(_) => false,
    }
}

/// Of two late reads behind a write that could have waited each is spare, though only one could have been on time.
#[test]
fn two_spare_one_avoidable(rt: HostRuntime) {
    let one = fixed(&rt, rt.alloc(), 1);
    let commands = [command(0, 0, 9), command(1, 0, 0), command(2, 0, 0)];
    let wanted = [None, Some(Verdict::Spare), Some(Verdict::Spare)];
    assert!(rt;
        says(
            &rt,
            rt.alloc(),
            rt.alloc(),
            &commands,
            &one,
            &[0, 1, 2],
            &wanted
        )
    );
}

/// A command that is released after it is due.
#[test]
fn late_on_arrival(rt: HostRuntime) {
    let one = fixed(&rt, rt.alloc(), 1);
    let commands = [command(0, 0, 0), command(1, 1, 0)];
    let wanted = [None, Some(Verdict::Arrival)];
    assert!(rt;
        says(
            &rt,
            rt.alloc(),
            rt.alloc(),
            &commands,
            &one,
            &[0, 1],
            &wanted
        )
    );
}

/// Two reads due at once and a write that is due a round later: earliest due first has the write late for nothing, and where
/// what can't be on time any more goes last one read is late alone.
#[test]
fn full_and_spare(rt: HostRuntime) {
    let one = fixed(&rt, rt.alloc(), 1);
    let commands = [command(0, 0, 0), command(1, 0, 0), command(2, 0, 1)];
    let full = Some(Verdict::Full(window(0, 0)));
    let earliest = [None, full, Some(Verdict::Spare)];
    assert!(rt;
        says(
            &rt,
            rt.alloc(),
            rt.alloc(),
            &commands,
            &one,
            &[0, 1, 2],
            &earliest
        )
    );
    let late_last = [None, full, None];
    assert!(rt;
        says(
            &rt,
            rt.alloc(),
            rt.alloc(),
            &commands,
            &one,
            &[0, 2, 1],
            &late_last
        )
    );
}

/// Of the windows that end with the due round the one that begins first; and a round with a place left is in none.
#[test]
fn the_window_that_begins_first(rt: HostRuntime) {
    let one = fixed(&rt, rt.alloc(), 1);
    let commands = [command(0, 0, 0), command(1, 1, 1), command(2, 1, 1)];
    let wanted = [None, None, Some(Verdict::Full(window(0, 1)))];
    assert!(rt;
        says(
            &rt,
            rt.alloc(),
            rt.alloc(),
            &commands,
            &one,
            &[0, 1, 2],
            &wanted
        )
    );
    let two = fixed(&rt, rt.alloc(), 2);
    let room = [None, None, Some(Verdict::Spare)];
    assert!(rt;
        says(
            &rt,
            rt.alloc(),
            rt.alloc(),
            &commands,
            &two,
            &[0, 1, 2],
            &room
        )
    );
}
