//! Why requests are late by the clock, and what had to be.

ghost use Rattle.std.specs.Prelude.{◌≡◌, ◌↔◌, IsTrue, length};
ghost use Rattle.edd_blame.specs.Clock.{times_before, times_by, IsByClock, EachByClock, AreByClock};

use crate::made::{command, fixed, window};
use edd_blame::{
    Allowance, Cause, Reasons, StallTime, blame_of, causes, law_of_causes, least_late_at,
    least_late_beside, least_late_marked, most_saved_at,
};
use edd_check::is_legal;
use edd_commands::Command;
use edd_oracle::solve;

/// How many of the times come before `time`.
#[tactic(auto, unfolding(edd_blame::specs::Clock::times_before))]
fn before(times: &[u64], time: u64) -> u64
    ensures { result ≡ times_before times.now time }
{
    times.iter().filter(|x| **x < time).count() as u64
}

/// How many of them come by `time`.
#[tactic(auto, unfolding(edd_blame::specs::Clock::times_by))]
fn by(times: &[u64], time: u64) -> u64
    ensures { result ≡ times_by times.now time }
{
    times.iter().filter(|x| **x <= time).count() as u64
}

/// Whether the command counts the dispatches.
fn is_by_clock(command: Command, allowance: Allowance, dispatches: &[u64]) -> bool
    ensures { IsTrue result ↔ IsByClock dispatches.now allowance command }
{
    command.release > 0
        && command.release - 1 == before(dispatches, allowance.release)
        && command.due == by(dispatches, allowance.deadline)
}

/// Whether each command of two equally long lists does.
fn each_by_clock(commands: &[Command], allowances: &[Allowance], dispatches: &[u64]) -> bool
    requires { length commands.now ≡ length allowances.now }
    ensures { IsTrue result ↔ EachByClock dispatches.now allowances.now commands.now }
{
    commands.iter().zip(allowances).all(|(command, allowance)| is_by_clock(
        *command, *allowance, dispatches,
    ))
}

/// Whether the commands count the dispatches.
fn are_by_clock(commands: &[Command], allowances: &[Allowance], dispatches: &[u64]) -> bool
    ensures { IsTrue result → AreByClock dispatches.now allowances.now commands.now }
{
    allowances.len() == commands.len() && each_by_clock(commands, allowances, dispatches)
}

/// What a request has from its release to its deadline.
fn allowance(release: u64, deadline: u64) -> Allowance {
    Allowance { release, deadline }
}

/// The time that each of six requests has.
fn six_allowances() -> [Allowance; 6] {
    [
        allowance(5, 10),
        allowance(6, 12),
        allowance(15, 55),
        allowance(18, 25),
        allowance(30, 40),
        allowance(45, 44),
    ]
}

/// Their commands.
fn six_commands() -> [Command; 6] {
    [
        command(1, 1, 1),
        command(2, 1, 1),
        command(3, 2, 5),
        command(4, 2, 3),
        command(5, 4, 3),
        command(6, 4, 3),
    ]
}

/// Six requests in the order of their dispatches: one is on time, and one that had to go out then too is full; one is on time though it
/// could wait, and one is spare that couldn't; while nothing went out one stalled; and one came in after its deadline.
#[test]
fn four_causes(rt: HostRuntime) {
    let one = fixed(&rt, rt.alloc(), 1);
    let dispatches = [10, 20, 21, 50, 51, 60];
    let allowances = six_allowances();
    let commands = six_commands();
    let rounds = [1, 2, 3, 4, 5, 6];
    assert!(rt; matches!(solve(rt.alloc(), &commands, &one), Ok(_)));
    assert!(rt; is_legal(&commands, &rounds, &one));
    assert!(rt; are_by_clock(&commands, &allowances, &dispatches));
    law_of_causes(&commands, &rounds, &one, &allowances, &dispatches);
    let found = causes(
        rt.alloc(),
        &commands,
        &rounds,
        &one,
        &allowances,
        &dispatches,
    )
    .expect(&rt, "out of memory");
    let wanted = [
        None,
        Some(Cause::Full(window(1, 1))),
        None,
        Some(Cause::Spare),
        Some(Cause::Stall),
        Some(Cause::Arrival),
    ];
    assert!(rt; found.as_slice() == wanted.as_slice());
    let blame = blame_of(
        rt.alloc(),
        &commands,
        &rounds,
        &one,
        &allowances,
        &dispatches,
    )
    .expect(&rt, "out of memory");
    let reasons = Reasons {
        arrivals: 1,
        stalled: 1,
        crowded: 1,
    };
    assert_eq!(rt; blame.misses.counts.late, 4);
    assert_eq!(rt; blame.misses.counts.unavoidable, 3);
    assert_eq!(rt; blame.reasons, reasons);
    let stall = StallTime {
        after: 3,
        requests: 1,
    };
    assert!(rt; blame.stalls.as_slice() == [stall].as_slice());
}

/// Of two that have to run in the one round one is late, and none of two that haven't; of the second and the fourth only the fourth can be saved
/// beside the first and the third; and where the others keep their best the first and the fifth are late of the marked ones, and else the fifth alone.
#[test]
fn parts_of_six(rt: HostRuntime) {
    let one = fixed(&rt, rt.alloc(), 1);
    let commands = six_commands();
    let rounds = [1, 2, 3, 4, 5, 6];
    assert!(rt; matches!(solve(rt.alloc(), &commands, &one), Ok(_)));
    assert!(rt; is_legal(&commands, &rounds, &one));
    let least = least_late_at(rt.alloc(), &commands, &one, &[0, 1]).expect(&rt, "out of memory");
    assert_eq!(rt; least, 1);
    let none = least_late_at(rt.alloc(), &commands, &one, &[1, 3]).expect(&rt, "out of memory");
    assert_eq!(rt; none, 0);
    let saved = most_saved_at(rt.alloc(), &commands, &rounds, &one, &[1, 3]).expect(
        &rt,
        "out of memory",
    );
    assert_eq!(rt; saved, 1);
    let marks = [true, false, false, true, true, false];
    let beside = least_late_beside(rt.alloc(), &commands, &one, &marks).expect(
        &rt,
        "out of memory",
    );
    assert_eq!(rt; beside, 2);
    let alone = least_late_marked(rt.alloc(), &commands, &one, &marks).expect(&rt, "out of memory");
    assert_eq!(rt; alone, 1);
}
