//! Capacities: what they refuse, and how many commands their rounds carry.

use crate::made::{fixed, steps};
use edd_commands::{Capacity, CapacityFault, MAX_ROUNDS, law_of_one_depth};
use std::alloc::Global;
use std::process::Abort;

/// The fault is that of the steps.
fn refused(rt: &impl Abort, alloc: Global, list: &[(u64, u64)], fault: CapacityFault) {
    let made = Capacity::new(steps(rt, alloc, list));
    assert!(rt; matches!(made, Err(own) if own == fault));
}

#[test]
fn constructors_refuse(rt: HostRuntime) {
    let alloc = rt.alloc();
    refused(&rt, alloc, &[], CapacityFault::Start);
    refused(&rt, alloc, &[(1, 0)], CapacityFault::Start);
    refused(&rt, alloc, &[(0, 1), (0, 2)], CapacityFault::Rising(1));
    refused(
        &rt,
        alloc,
        &[(0, 1), (5, 1), (4, 0)],
        CapacityFault::Rising(2),
    );
    refused(&rt, alloc, &[(0, 0), (0, 1)], CapacityFault::Depth(0));
    refused(
        &rt,
        alloc,
        &[(0, 1), (MAX_ROUNDS, 257)],
        CapacityFault::Depth(1),
    );
    refused(
        &rt,
        alloc,
        &[(0, 1), (MAX_ROUNDS, 256)],
        CapacityFault::Round(1),
    );
}

#[test]
fn steps_by_round(rt: HostRuntime) {
    let list = steps(&rt, rt.alloc(), &[(0, 2), (1, 1), (MAX_ROUNDS - 1, 256)]);
    let capacity = Capacity::new(list).expect(&rt, "a capacity");
    for (round, depth) in [
        (0, 2),
        (1, 1),
        (MAX_ROUNDS - 2, 1),
        (MAX_ROUNDS - 1, 256),
        (u64::MAX, 256),
    ] {
        assert_eq!(rt; capacity.at(round), depth);
    }
    for (from, until, sum) in [
        (0, 0, 0),
        (0, 1, 2),
        (0, 3, 4),
        (3, 0, 0),
        (1, 5, 4),
        (MAX_ROUNDS - 3, MAX_ROUNDS + 1, 514),
    ] {
        assert_eq!(rt; capacity.sum(from, until), sum);
    }
}

#[test]
fn one_depth(rt: HostRuntime) {
    let most = fixed(&rt, rt.alloc(), 256);
    assert_eq!(rt; most.at(7), 256);
    assert_eq!(rt; most.sum(5, 8), 768);
    law_of_one_depth();
}
