//! Claims of the greatest number of commands that are on time, good and spoiled.

use crate::made::{command, fixed, steps, window};
use edd_check::{
    OnTimeFault, Window, carried_by, carried_in, check_on_time, cover_in_range, inside,
    law_of_covers, number_on_time, outside,
};
use edd_commands::{Capacity, Command};
use std::alloc::Global;
use std::process::Abort;

/// The claim is good: these are the numbers of commands that its windows carry, and of those that can be on time and lie in none of them.
fn accepted(
    rt: &impl Abort,
    alloc: Global,
    capacity: &Capacity,
    commands: &[Command],
    rounds: &[u64],
    on_time: u64,
    cover: &[Window],
    carried: u64,
    out: u64,
) {
    assert!(rt; cover_in_range(cover));
    let Ok(bound) = check_on_time(alloc, commands, capacity, rounds, on_time, cover) else {
        panic!(rt; "refused");
    };
    assert_eq!(rt; (bound.carries, bound.outside), (carried, out));
    assert_eq!(rt; number_on_time(commands, rounds), on_time);
    assert_eq!(rt; carried_by(capacity, cover), carried);
    assert_eq!(rt; outside(commands, cover), out);
    law_of_covers(commands, capacity, cover);
}

/// The claim is refused for this.
fn refused(
    rt: &impl Abort,
    alloc: Global,
    capacity: &Capacity,
    commands: &[Command],
    rounds: &[u64],
    on_time: u64,
    cover: &[Window],
    fault: OnTimeFault,
) {
    assert!(rt; cover_in_range(cover));
    let own = check_on_time(alloc, commands, capacity, rounds, on_time, cover);
    assert!(rt; matches!(own, Err(it) if it == fault));
}

/// Two that are due in round 0, and one that has time.
fn three() -> [Command; 3] {
    [command(1, 0, 0), command(2, 0, 0), command(3, 0, 5)]
}

#[test]
fn one_can_not_be_on_time(rt: HostRuntime) {
    let one = fixed(&rt, rt.alloc(), 1);
    let (commands, cover) = (three(), [window(0, 0)]);
    accepted(
        &rt,
        rt.alloc(),
        &one,
        &commands,
        &[0, 2, 1],
        2,
        &cover,
        1,
        1,
    );
    assert_eq!(rt; inside(&commands, window(0, 0)), 2);
    assert_eq!(rt; inside(&commands, window(0, 5)), 3);
    let rest = Window { from: 1, due: 5 };
    assert_eq!(rt; inside(&commands, rest), 0);
    assert_eq!(rt; carried_in(&one, rest), 5);
}

#[test]
fn spoiled_covers(rt: HostRuntime) {
    let one = fixed(&rt, rt.alloc(), 1);
    let commands = three();
    let good = [0, 2, 1];
    for (rounds, on_time, fault) in [
        ([0, 0, 1], 2, OnTimeFault::OverDepth(0)),
        (good, 3, OnTimeFault::WrongMet(2)),
        (good, 1, OnTimeFault::WrongMet(2)),
        ([1, 0, 6], 2, OnTimeFault::WrongMet(1)),
    ] {
        let cover = [window(0, 0)];
        refused(
            &rt,
            rt.alloc(),
            &one,
            &commands,
            &rounds,
            on_time,
            &cover,
            fault,
        );
    }
    for (cover, fault) in [
        ([window(1, 0), window(2, 2)], OnTimeFault::Windows(0)),
        ([window(0, 0), window(0, 5)], OnTimeFault::Windows(1)),
        ([window(3, 3), window(0, 0)], OnTimeFault::Windows(1)),
        ([window(0, 0), window(1, 5)], OnTimeFault::Loose(7)),
        ([window(0, 0), window(7, 7)], OnTimeFault::Loose(3)),
    ] {
        refused(&rt, rt.alloc(), &one, &commands, &good, 2, &cover, fault);
    }
    let short = [0, 1];
    refused(
        &rt,
        rt.alloc(),
        &one,
        &commands,
        &short,
        2,
        &[],
        OnTimeFault::Length,
    );
    refused(
        &rt,
        rt.alloc(),
        &one,
        &commands,
        &good,
        2,
        &[],
        OnTimeFault::Loose(3),
    );
}

#[test]
fn released_after_it_is_due(rt: HostRuntime) {
    let one = fixed(&rt, rt.alloc(), 1);
    let late = [command(1, 5, 3)];
    accepted(&rt, rt.alloc(), &one, &late, &[5], 0, &[], 0, 0);
    let early = OnTimeFault::BeforeRelease(1);
    refused(&rt, rt.alloc(), &one, &late, &[4], 0, &[], early);
}

#[test]
fn none_and_all_are_on_time(rt: HostRuntime) {
    let one = fixed(&rt, rt.alloc(), 1);
    accepted(&rt, rt.alloc(), &one, &[], &[], 0, &[], 0, 0);
    let commands = [command(1, 0, 1), command(2, 0, 1), command(3, 2, 2)];
    accepted(&rt, rt.alloc(), &one, &commands, &[0, 1, 2], 3, &[], 0, 3);
}

/// Two windows, each of one round that two commands ask for.
#[test]
fn two_windows(rt: HostRuntime) {
    let one = fixed(&rt, rt.alloc(), 1);
    let commands = [
        command(1, 0, 0),
        command(2, 0, 0),
        command(3, 5, 5),
        command(4, 5, 5),
        command(5, 2, 9),
    ];
    let cover = [window(0, 0), window(5, 5)];
    let rounds = [0, 6, 5, 7, 2];
    accepted(&rt, rt.alloc(), &one, &commands, &rounds, 3, &cover, 2, 1);
}

/// The depth is 2 in round 0 and 1 from round 1 on.
#[test]
fn cover_of_a_changing_depth(rt: HostRuntime) {
    let list = steps(&rt, rt.alloc(), &[(0, 2), (1, 1)]);
    let changing = Capacity::new(list).expect(&rt, "a capacity");
    let commands = [
        command(1, 0, 0),
        command(2, 0, 0),
        command(3, 0, 0),
        command(4, 1, 1),
        command(5, 1, 1),
    ];
    let rounds = [0, 0, 2, 1, 3];
    for cover in [&[window(0, 1)] as &[Window], &[window(0, 0), window(1, 1)]] {
        accepted(
            &rt,
            rt.alloc(),
            &changing,
            &commands,
            &rounds,
            3,
            cover,
            3,
            0,
        );
    }
}
