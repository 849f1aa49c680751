//! Schedules of least greatest lateness.

use crate::made::{command, fixed, steps, window};
use edd_check::{
    Window, check, greatest_lateness, in_range, is_legal, law_of_crowded_windows, load,
};
use edd_commands::{Capacity, Command};
use edd_oracle::{Answer, OracleFault, law_of_checks, law_of_one_schedule, solve};
use std::alloc::Global;
use std::process::Abort;

/// The oracle's answer, which the separate check passes and which the laws speak of.
fn solved(rt: &impl Abort, alloc: Global, commands: &[Command], capacity: &Capacity) -> Answer {
    let answer = solve(alloc, commands, capacity)
        .expect(rt, "solved")
        .expect(rt, "an answer");
    law_of_checks(commands, capacity, &answer);
    let rounds = answer.rounds.as_slice();
    let passed = check(
        alloc,
        commands,
        capacity,
        answer.lateness,
        rounds,
        answer.window,
    );
    assert!(rt; passed.is_ok());
    law_of_crowded_windows(commands, capacity, answer.lateness, answer.window);
    law_of_one_schedule(commands, capacity, rounds, rounds);
    answer
}

/// The oracle answers these rounds, this lateness and this window, with this number of commands in it.
fn answers(
    rt: &impl Abort,
    alloc: Global,
    commands: &[Command],
    capacity: &Capacity,
    rounds: &[u64],
    lateness: i64,
    window: Window,
    asked: u64,
) {
    let answer = solved(rt, alloc, commands, capacity);
    assert_eq!(rt; answer.rounds.as_slice(), rounds);
    assert_eq!(rt; answer.lateness, lateness);
    assert_eq!(rt; answer.window, window);
    assert_eq!(rt; load(commands, window), asked);
}

/// Five commands that are released and due in round 0.
fn five() -> [Command; 5] {
    [
        command(1, 0, 0),
        command(2, 0, 0),
        command(3, 0, 0),
        command(4, 0, 0),
        command(5, 0, 0),
    ]
}

#[test]
fn three_at_once(rt: HostRuntime) {
    let one = fixed(&rt, rt.alloc(), 1);
    let commands = [command(1, 0, 0), command(2, 0, 0), command(3, 0, 0)];
    answers(
        &rt,
        rt.alloc(),
        &commands,
        &one,
        &[0, 1, 2],
        2,
        window(0, 0),
        3,
    );
}

#[test]
fn five_at_depth_two(rt: HostRuntime) {
    let two = fixed(&rt, rt.alloc(), 2);
    answers(
        &rt,
        rt.alloc(),
        &five(),
        &two,
        &[0, 0, 1, 1, 2],
        2,
        window(0, 0),
        5,
    );
}

/// The depth is 2 in round 0 and 1 from round 1 on.
#[test]
fn changing_depth(rt: HostRuntime) {
    let list = steps(&rt, rt.alloc(), &[(0, 2), (1, 1)]);
    let changing = Capacity::new(list).expect(&rt, "a capacity");
    answers(
        &rt,
        rt.alloc(),
        &five(),
        &changing,
        &[0, 0, 1, 2, 3],
        3,
        window(0, 0),
        5,
    );
}

#[test]
fn early_one_is_no_excuse(rt: HostRuntime) {
    let one = fixed(&rt, rt.alloc(), 1);
    let commands = [command(1, 0, 10), command(2, 1, 1), command(3, 1, 1)];
    answers(
        &rt,
        rt.alloc(),
        &commands,
        &one,
        &[0, 1, 2],
        1,
        window(1, 1),
        2,
    );
}

#[test]
fn late_on_arrival(rt: HostRuntime) {
    let one = fixed(&rt, rt.alloc(), 1);
    answers(
        &rt,
        rt.alloc(),
        &[command(1, 5, 3)],
        &one,
        &[5],
        2,
        window(5, 3),
        1,
    );
}

#[test]
fn ties_go_by_id(rt: HostRuntime) {
    let one = fixed(&rt, rt.alloc(), 1);
    let commands = [command(9, 0, 1), command(8, 0, 1), command(7, 0, 2)];
    answers(
        &rt,
        rt.alloc(),
        &commands,
        &one,
        &[1, 0, 2],
        0,
        window(0, 1),
        2,
    );
}

#[test]
fn early_and_far(rt: HostRuntime) {
    let one = fixed(&rt, rt.alloc(), 1);
    answers(
        &rt,
        rt.alloc(),
        &[command(1, 0, 5)],
        &one,
        &[0],
        -5,
        window(0, 5),
        1,
    );
    let (last, due) = (1099511627775, 2199023255551);
    let far = [command(1, last, due)];
    answers(
        &rt,
        rt.alloc(),
        &far,
        &one,
        &[last],
        -1099511627776,
        window(last, due),
        1,
    );
    let farther = solve(rt.alloc(), &[command(1, last + 1, due)], &one);
    assert!(rt; matches!(farther, Err(OracleFault::RoundRange(1))));
    let twice = solve(rt.alloc(), &[command(7, 0, 5), command(7, 0, 5)], &one);
    assert!(rt; matches!(twice, Err(OracleFault::RepeatedId(7))));
}

/// The rounds between two commands are jumped over.
#[test]
fn far_apart(rt: HostRuntime) {
    let one = fixed(&rt, rt.alloc(), 1);
    let last = 1099511627775;
    let commands = [command(1, 0, 0), command(2, last, last)];
    answers(
        &rt,
        rt.alloc(),
        &commands,
        &one,
        &[0, last],
        0,
        window(0, 0),
        1,
    );
}

#[test]
fn no_commands(rt: HostRuntime) {
    let one = fixed(&rt, rt.alloc(), 1);
    assert!(rt; matches!(solve(rt.alloc(), &[], &one), Ok(None)));
}

/// A command more than a list may have: refused for that before what is wrong with the commands.
#[test]
fn one_command_too_many(rt: HostRuntime) {
    let alloc = rt.alloc();
    let one = fixed(&rt, alloc, 1);
    let late = command(7, 1099511627776, 0);
    let mut commands = vec![in alloc; late; 1_000_001].expect(&rt, "out of memory");
    assert_eq!(rt; commands.len(), 1_000_001);
    let many = solve(alloc, commands.as_slice(), &one);
    assert!(rt; matches!(many, Err(OracleFault::TooMany)));
    assert!(rt; commands.pop().is_some());
    let most = solve(alloc, commands.as_slice(), &one);
    assert!(rt; matches!(most, Err(OracleFault::RoundRange(7))));
}

/// The least greatest lateness of all schedules in which each command waits at most four rounds.
fn least_of_all(commands: &[Command], capacity: &Capacity, rounds: &mut [u64]) -> Option<i64> {
    let mut least: Option<i64> = None;
    for code in 0..3125u64 {
        let mut waits = code;
        for (round, command) in rounds.iter_mut().zip(commands) {
            *round = command.release.wrapping_add(waits % 5);
            waits /= 5;
        }
        let lateness = lateness_of(commands, capacity, rounds);
        least = match (least, lateness) {
            (Some(a), Some(b)) => Some(a.min(b)),
            (a, None) => a,
            (None, b) => b,
        };
    }
    least
}

/// The greatest lateness of a legal schedule.
fn lateness_of(commands: &[Command], capacity: &Capacity, rounds: &[u64]) -> Option<i64> {
    if in_range(commands, rounds, window(0, 0)) && is_legal(commands, rounds, capacity) {
        greatest_lateness(commands, rounds)
    } else {
        None
    }
}

/// Fifty short lists by a fixed rule, each at three depths and at one that changes: no schedule is less late.
#[test]
fn as_all_schedules_say(rt: HostRuntime) {
    let mut rule = 1u64;
    for list in 0..50u64 {
        let mut commands = [command(0, 0, 0); 5];
        for (i, c) in commands.iter_mut().enumerate() {
            rule = rule
                .wrapping_mul(6364136223846793005)
                .wrapping_add(1442695040888963407);
            *c = command(i as u64, (rule >> 40) % 5, (rule >> 50) % 5);
        }
        let (commands, _) = commands.split_at(list as usize % 5 + 1);
        let mut rounds = [0; 5];
        let (rounds, _) = rounds.split_at_mut(list as usize % 5 + 1);
        for depths in [[1, 1], [2, 2], [3, 3], [2, 1]] {
            let from = [(0, depths[0]), (list % 4 + 1, depths[1])];
            let capacity = Capacity::new(steps(&rt, rt.alloc(), &from)).expect(&rt, "a capacity");
            let answer = solved(&rt, rt.alloc(), commands, &capacity);
            let least = least_of_all(commands, &capacity, rounds);
            assert_eq!(rt; Some(answer.lateness), least);
        }
    }
}
