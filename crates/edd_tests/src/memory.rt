//! Each allocation of a scenario refused in turn.

use crate::made::{checked, command, window};
use crate::verdicts::says;
use edd_check::{CheckFault, Crowding, OnTimeFault, check, check_on_time};
use edd_commands::Capacity;
use edd_oracle::{OracleFault, law_of_checks, law_of_on_time_checks, most_on_time, solve};
use edd_verdict::Verdict;
use refusing::Refusing;
use std::alloc::Global;
use std::process::Abort;

/// Makes a capacity and checks a claim under it.
fn claimed(rt: &impl Abort, heap: &Refusing<Global>) -> Result<Crowding, CheckFault> {
    let Ok(one) = Capacity::fixed(heap, 1) else {
        return Err(CheckFault::Memory);
    };
    let commands = [command(1, 0, 5)];
    checked(rt, heap, &one, &commands, -5, &[0], window(0, 5))
}

#[test]
fn of_a_claim(rt: HostRuntime) {
    let good = Crowding {
        load: 1,
        carries: 0,
    };
    let heap = Refusing::new(rt.alloc());
    for n in 1..3 {
        heap.refuse(n);
        assert_eq!(rt; claimed(&rt, &heap), Err(CheckFault::Memory));
        assert!(rt; !heap.is_armed());
        assert_eq!(rt; claimed(&rt, &heap), Ok(good));
    }
    heap.refuse(3);
    assert_eq!(rt; claimed(&rt, &heap), Ok(good));
    assert!(rt; heap.is_armed());
}

/// Schedules three commands and has the answer checked; whether memory was not refused.
fn scheduled(rt: &impl Abort, alloc: Global, heap: &Refusing<Global>) -> bool {
    let one = Capacity::fixed(alloc, 1).expect(rt, "out of memory");
    // the ids don't rise, so that they are looked at in a sorted copy
    let commands = [command(3, 0, 10), command(1, 1, 1), command(2, 1, 1)];
    match solve(heap, &commands, &one) {
        Ok(answer) => {
            let answer = answer.expect(rt, "an answer");
            assert_eq!(rt; answer.rounds.as_slice(), [0, 1, 2].as_slice());
            law_of_checks(&commands, &one, &answer);
            let rounds = answer.rounds.as_slice();
            match check(
                heap,
                &commands,
                &one,
                answer.lateness,
                rounds,
                answer.window,
            ) {
                Ok(_) => true,
                Err(fault) => {
                    assert!(rt; fault == CheckFault::Memory);
                    false
                }
            }
        }
        Err(fault) => {
            assert!(rt; fault == OracleFault::Memory);
            false
        }
    }
}

#[test]
fn of_a_schedule(rt: HostRuntime) {
    let heap = Refusing::new(rt.alloc());
    let mut failed = false;
    for n in 1..8 {
        heap.refuse(n);
        let fine = scheduled(&rt, rt.alloc(), &heap);
        // it fails only where the refusal was met; a copy of ids goes on where its room was refused
        assert!(rt; fine || !heap.is_armed());
        failed = failed || !fine;
        heap.refuse(1_000);
        assert!(rt; scheduled(&rt, rt.alloc(), &heap));
    }
    assert!(rt; failed);
}

/// Schedules three commands of which one can't be on time and has the answer checked; whether memory was not refused.
fn on_time(rt: &impl Abort, alloc: Global, heap: &Refusing<Global>) -> bool {
    let one = Capacity::fixed(alloc, 1).expect(rt, "out of memory");
    let commands = [command(2, 0, 0), command(3, 0, 0), command(1, 0, 5)];
    match most_on_time(heap, &commands, &one) {
        Ok(answer) => {
            assert_eq!(rt; answer.rounds.as_slice(), [0, 2, 1].as_slice());
            law_of_on_time_checks(&commands, &one, &answer);
            let rounds = answer.rounds.as_slice();
            let cover = answer.cover.as_slice();
            match check_on_time(heap, &commands, &one, rounds, answer.on_time, cover) {
                Ok(_) => true,
                Err(fault) => {
                    assert!(rt; fault == OnTimeFault::Memory);
                    false
                }
            }
        }
        Err(fault) => {
            assert!(rt; fault == OracleFault::Memory);
            false
        }
    }
}

#[test]
fn of_a_greatest_number(rt: HostRuntime) {
    let heap = Refusing::new(rt.alloc());
    let mut failed = false;
    for n in 1..12 {
        heap.refuse(n);
        let fine = on_time(&rt, rt.alloc(), &heap);
        // it fails only where the refusal was met; a copy of ids goes on where its room was refused
        assert!(rt; fine || !heap.is_armed());
        failed = failed || !fine;
        heap.refuse(1_000);
        assert!(rt; on_time(&rt, rt.alloc(), &heap));
    }
    assert!(rt; failed);
}

/// Tells why one command of three is late; whether memory was not refused.
fn told(rt: &impl Abort, alloc: Global, heap: &Refusing<Global>) -> bool {
    let one = Capacity::fixed(alloc, 1).expect(rt, "out of memory");
    let commands = [command(1, 0, 0), command(2, 0, 0), command(3, 0, 5)];
    let wanted = [None, Some(Verdict::Full(window(0, 0))), None];
    says(rt, alloc, heap, &commands, &one, &[0, 2, 1], &wanted)
}

/// It fails only where a refusal was met, and goes through once none is.
#[test]
fn of_verdicts(rt: HostRuntime) {
    let heap = Refusing::new(rt.alloc());
    for n in 1..40 {
        heap.refuse(n);
        let fine = told(&rt, rt.alloc(), &heap);
        assert!(rt; fine || !heap.is_armed());
    }
    assert!(rt; heap.is_armed());
}
