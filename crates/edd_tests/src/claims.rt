//! Claims of least lateness, good and spoiled.

use crate::made::{checked, command, fixed, steps, window};
use edd_check::{CheckFault, Crowding, greatest_lateness, in_range, is_legal, load};
use edd_commands::{Capacity, MAX_ROUNDS};

/// What the check answers of a window with this load, whose rounds carry this many.
const fn crowded(load: u64, carries: u64) -> Result<Crowding, CheckFault> {
    Ok(Crowding { load, carries })
}

#[test]
fn spoiled_certificates(rt: HostRuntime) {
    let one = fixed(&rt, rt.alloc(), 1);
    let commands = [command(1, 0, 0), command(2, 0, 0), command(3, 0, 0)];
    let good = window(0, 0);
    for (lateness, rounds, window, answer) in [
        (2, [0, 1, 2], good, crowded(3, 2)),
        (1, [0, 1, 2], good, Err(CheckFault::WrongLateness(2))),
        (2, [0, 1, 2], window(1, 0), Err(CheckFault::NotCrowded(0))),
        (2, [0, 0, 1], good, Err(CheckFault::OverDepth(0))),
    ] {
        let own = checked(&rt, rt.alloc(), &one, &commands, lateness, &rounds, window);
        assert_eq!(rt; own, answer);
    }
    let short = checked(&rt, rt.alloc(), &one, &commands, 2, &[0, 1], good);
    assert_eq!(rt; short, Err(CheckFault::Length));
}

#[test]
fn late_on_arrival(rt: HostRuntime) {
    let one = fixed(&rt, rt.alloc(), 1);
    let commands = [command(1, 5, 3)];
    let good = window(5, 3);
    assert!(rt; in_range(&commands, &[5], good));
    assert!(rt; !in_range(&commands, &[MAX_ROUNDS], good));
    assert!(rt; is_legal(&commands, &[5], &one));
    assert!(rt; !is_legal(&commands, &[4], &one));
    assert_eq!(rt; greatest_lateness(&commands, &[5]), Some(2));
    assert_eq!(rt; load(&commands, good), 1);
    assert_eq!(rt;
        checked(&rt, rt.alloc(), &one, &commands, 2, &[5], good),
        crowded(1, 0)
    );
    let early = checked(&rt, rt.alloc(), &one, &commands, 2, &[4], good);
    assert_eq!(rt; early, Err(CheckFault::BeforeRelease(1)));
}

#[test]
fn no_commands(rt: HostRuntime) {
    let one = fixed(&rt, rt.alloc(), 1);
    assert!(rt; is_legal(&[], &[], &one));
    assert_eq!(rt; greatest_lateness(&[], &[]), None);
    let empty = checked(&rt, rt.alloc(), &one, &[], 2, &[], window(0, 0));
    assert_eq!(rt; empty, Err(CheckFault::NotCrowded(0)));
}

/// Of two early commands the first by place is named, and of two over-deep rounds the least.
#[test]
fn first_early_and_least_over_deep(rt: HostRuntime) {
    let one = fixed(&rt, rt.alloc(), 1);
    let commands = [
        command(7, 0, 9),
        command(5, 3, 9),
        command(4, 2, 9),
        command(3, 0, 9),
    ];
    for (rounds, fault) in [
        ([0, 2, 1, 3], CheckFault::BeforeRelease(5)),
        ([8, 8, 6, 6], CheckFault::OverDepth(6)),
    ] {
        let own = checked(&rt, rt.alloc(), &one, &commands, 0, &rounds, window(0, 9));
        assert_eq!(rt; own, Err(fault));
    }
}

/// Rounds of several blocks: legal at depth 2, and not at depth 1, since the last one stands twice.
#[test]
fn scattered_rounds(rt: HostRuntime) {
    let one = fixed(&rt, rt.alloc(), 1);
    let two = fixed(&rt, rt.alloc(), 2);
    let commands = [command(1, 0, 0); 4];
    let rounds = [MAX_ROUNDS - 1, 0, MAX_ROUNDS - 1, 4096];
    assert!(rt; is_legal(&commands, &rounds, &two));
    assert!(rt; !is_legal(&commands, &rounds, &one));
    assert!(rt; !is_legal(&commands, &[0, 1, 2], &one));
}

/// The depth is 2 in round 0 and 1 from round 1 on.
#[test]
fn changing_depth(rt: HostRuntime) {
    let list = steps(&rt, rt.alloc(), &[(0, 2), (1, 1)]);
    let changing = Capacity::new(list).expect(&rt, "a capacity");
    let two = fixed(&rt, rt.alloc(), 2);
    let commands = [command(1, 0, 0); 5];
    let good = [0, 0, 1, 2, 3];
    let flat = [0, 0, 1, 1, 2];
    let whole = window(0, 0);
    for (capacity, lateness, rounds, answer) in [
        (&changing, 3, &good, crowded(5, 4)),
        (&two, 3, &good, Err(CheckFault::NotCrowded(5))),
        (&changing, 2, &flat, Err(CheckFault::OverDepth(1))),
    ] {
        let own = checked(
            &rt,
            rt.alloc(),
            capacity,
            &commands,
            lateness,
            rounds,
            whole,
        );
        assert_eq!(rt; own, answer);
    }
    assert!(rt; is_legal(&commands, &good, &changing));
    assert!(rt; !is_legal(&commands, &flat, &changing));
}
