//! Schedules that have as many commands on time as any can.

use crate::made::{command, fixed, steps, window};
use edd_check::{Window, check_on_time};
use edd_commands::{Capacity, Command};
use edd_oracle::{OracleFault, law_of_on_time_checks, most_on_time, solve};
use std::alloc::Global;
use std::process::Abort;

/// The oracle answers these rounds, this number of commands on time and these windows, and the separate check passes them.
fn answers(
    rt: &impl Abort,
    alloc: Global,
    commands: &[Command],
    capacity: &Capacity,
    rounds: &[u64],
    on_time: u64,
    cover: &[Window],
) {
    let answer = most_on_time(alloc, commands, capacity).expect(rt, "an answer");
    assert_eq!(rt; answer.rounds.as_slice(), rounds);
    assert_eq!(rt; answer.on_time, on_time);
    assert_eq!(rt; answer.cover.as_slice(), cover);
    law_of_on_time_checks(commands, capacity, &answer);
    let rounds = answer.rounds.as_slice();
    let cover = answer.cover.as_slice();
    let passed = check_on_time(alloc, commands, capacity, rounds, answer.on_time, cover);
    assert!(rt; passed.is_ok());
}

#[test]
fn none_and_all_are_on_time(rt: HostRuntime) {
    let one = fixed(&rt, rt.alloc(), 1);
    answers(&rt, rt.alloc(), &[], &one, &[], 0, &[]);
    let commands = [command(1, 0, 1), command(2, 0, 1), command(3, 2, 2)];
    answers(&rt, rt.alloc(), &commands, &one, &[0, 1, 2], 3, &[]);
}

/// What is released after it is due is served after all that is on time, and no window holds it.
#[test]
fn released_after_it_is_due(rt: HostRuntime) {
    let one = fixed(&rt, rt.alloc(), 1);
    let late = [command(1, 5, 3)];
    answers(&rt, rt.alloc(), &late, &one, &[5], 0, &[]);
    let both = [command(1, 0, 7), command(2, 1, 0), command(3, 7, 7)];
    answers(&rt, rt.alloc(), &both, &one, &[0, 8, 7], 2, &[]);
}

#[test]
fn one_can_not_be_on_time(rt: HostRuntime) {
    let one = fixed(&rt, rt.alloc(), 1);
    let commands = [command(1, 0, 0), command(2, 0, 0), command(3, 0, 5)];
    let cover = [window(0, 0)];
    answers(&rt, rt.alloc(), &commands, &one, &[0, 2, 1], 2, &cover);
}

/// Two windows apart, and two that touch and so are one.
#[test]
fn windows_apart_and_joined(rt: HostRuntime) {
    let one = fixed(&rt, rt.alloc(), 1);
    let apart = [
        command(1, 0, 0),
        command(2, 0, 0),
        command(3, 5, 5),
        command(4, 5, 5),
        command(5, 2, 9),
    ];
    let cover = [window(0, 0), window(5, 5)];
    answers(&rt, rt.alloc(), &apart, &one, &[0, 6, 5, 7, 2], 3, &cover);
    let touching = [
        command(4, 0, 0),
        command(3, 0, 0),
        command(2, 1, 1),
        command(1, 1, 1),
    ];
    let cover = [window(0, 1)];
    answers(&rt, rt.alloc(), &touching, &one, &[2, 0, 3, 1], 2, &cover);
}

/// The depth is 2 in round 0 and 1 from round 1 on.
#[test]
fn under_a_changing_depth(rt: HostRuntime) {
    let list = steps(&rt, rt.alloc(), &[(0, 2), (1, 1)]);
    let changing = Capacity::new(list).expect(&rt, "a capacity");
    let commands = [
        command(1, 0, 0),
        command(2, 0, 0),
        command(3, 0, 0),
        command(4, 1, 1),
        command(5, 1, 1),
    ];
    let cover = [window(0, 1)];
    answers(
        &rt,
        rt.alloc(),
        &commands,
        &changing,
        &[0, 0, 2, 1, 3],
        3,
        &cover,
    );
}

/// Rounds that lie far apart are jumped over, and the last ones are below the limit.
#[test]
fn far_apart(rt: HostRuntime) {
    let one = fixed(&rt, rt.alloc(), 1);
    let (release, due) = ((1 << 40) - 1, (1 << 41) - 1);
    let commands = [command(1, release, due), command(2, 0, 0), command(3, 0, 0)];
    answers(
        &rt,
        rt.alloc(),
        &commands,
        &one,
        &[release, 0, release + 1],
        2,
        &[window(0, 0)],
    );
}

#[test]
fn refuses_as_solve_does(rt: HostRuntime) {
    let one = fixed(&rt, rt.alloc(), 1);
    for (commands, fault) in [
        (
            [command(7, 0, 0), command(7, 0, 0)],
            OracleFault::RepeatedId(7),
        ),
        (
            [command(7, 0, 0), command(7, 1 << 40, 0)],
            OracleFault::RoundRange(7),
        ),
    ] {
        let on_time = most_on_time(rt.alloc(), &commands, &one);
        assert!(rt; matches!(on_time, Err(it) if it == fault));
        let solved = solve(rt.alloc(), &commands, &one);
        assert!(rt; matches!(solved, Err(it) if it == fault));
    }
}

/// Whether the commands at the bits of the set can all be on time: where the least greatest lateness is none or not above 0.
fn all_on_time(
    rt: &impl Abort,
    alloc: Global,
    commands: &[Command],
    set: u64,
    capacity: &Capacity,
) -> bool {
    let mut chosen = Vec::new(alloc);
    let mut bits = set;
    for it in commands {
        if bits % 2 == 1 {
            chosen.push(*it).expect(rt, "out of memory");
        }
        bits /= 2;
    }
    match solve(alloc, chosen.as_slice(), capacity).expect(rt, "solved") {
        Some(answer) => answer.lateness <= 0,
        None => true,
    }
}

/// The number is that of the largest of all subsets that can be on time, on drawn lists of five commands under a changing depth.
#[test]
fn no_subset_is_larger(rt: HostRuntime) {
    let list = steps(&rt, rt.alloc(), &[(0, 1), (2, 2), (3, 1)]);
    let changing = Capacity::new(list).expect(&rt, "a capacity");
    let mut drawn = 7u64;
    for _ in 0..40 {
        let mut commands = [command(0, 0, 0); 5];
        for id in 0..5u64 {
            drawn = drawn.wrapping_mul(75).wrapping_add(74) % 65537;
            let release = drawn % 4;
            drawn = drawn.wrapping_mul(75).wrapping_add(74) % 65537;
            commands[id as usize] = command(id, release, drawn % 5);
        }
        let answer = most_on_time(rt.alloc(), &commands, &changing).expect(&rt, "an answer");
        let mut best = 0;
        for set in 0..32u64 {
            if all_on_time(&rt, rt.alloc(), &commands, set, &changing) {
                best = best.max(u64::from(set.count_ones()));
            }
        }
        assert_eq!(rt; answer.on_time, best);
    }
}
