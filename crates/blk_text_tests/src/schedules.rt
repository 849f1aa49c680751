//! Schedules, by whatever scheduler.

use crate::forms::{TextKind, first_not_itself, first_other};
use blk_records::{Records, TextReason, read_schedule};
use edd_commands::Command;

/// Two commands of round 0, of which the one due there runs second, and one that runs before it is released.
const THREE: &str = "blk-schedule,1,1,3\n7,0,0,1\n5,0,9,0\n18446744073709551615,3,1,2\n";

#[test]
fn a_schedule_is_read(rt: HostRuntime) {
    let records = &mut Records::new(rt.alloc(), THREE.as_bytes());
    let Ok(schedule) = read_schedule(rt.alloc(), records) else {
        panic!(rt; "refused");
    };
    assert_eq!(rt; schedule.depth, 1);
    assert!(rt; schedule.rounds.as_slice() == [1, 0, 2].as_slice());
    assert_eq!(rt; schedule.commands.len(), 3);
    assert_eq!(rt;
        schedule.commands[1],
        Command {
            id: 5,
            release: 0,
            due: 9
        }
    );
}

#[test]
fn schedules_come_back(rt: HostRuntime) {
    let none = "blk-schedule,1,256,0\n";
    let last = "blk-schedule,1,2,1\n0,1099511627775,2199023255551,2199023255551\n";
    assert_eq!(rt;
        first_not_itself(rt.alloc(), TextKind::Schedule, &[THREE, none, last]),
        None
    );
}

#[test]
fn faults_of_a_schedule(rt: HostRuntime) {
    let texts = [
        ("", 1, TextReason::Title),
        ("blk-certificate,1,1,0\n", 1, TextReason::Title),
        ("blk-schedule,2,1,0\n", 1, TextReason::Title),
        ("blk-schedule,1,1\n", 1, TextReason::Fields),
        ("blk-schedule,1,x,0\n", 1, TextReason::Number),
        ("blk-schedule,1,257,0\n", 1, TextReason::Range),
        ("blk-schedule,1,1,1000001\n", 1, TextReason::Range),
        ("blk-schedule,1,1,1\n1,0,0\n", 2, TextReason::Fields),
        ("blk-schedule,1,1,1\n1,0,0,-1\n", 2, TextReason::Number),
        (
            "blk-schedule,1,1,1\n1,1099511627776,0,0\n",
            2,
            TextReason::Range,
        ),
        (
            "blk-schedule,1,1,1\n1,0,2199023255552,0\n",
            2,
            TextReason::Range,
        ),
        (
            "blk-schedule,1,1,1\n1,0,0,2199023255552\n",
            2,
            TextReason::Range,
        ),
        ("blk-schedule,1,1,2\n1,0,0,0\n", 3, TextReason::Count),
        (
            "blk-schedule,1,1,1\n1,0,0,0\n2,0,0,1\n",
            3,
            TextReason::Count,
        ),
    ];
    assert_eq!(rt; first_other(rt.alloc(), TextKind::Schedule, &texts), None);
}

#[test]
fn ids_stand_once(rt: HostRuntime) {
    let texts = [
        (
            "blk-schedule,1,1,3\n1,0,0,0\n2,0,0,1\n1,5,5,5\n",
            4,
            TextReason::RepeatedId,
        ),
        // fewer than announced, and a number that is none, come later
        (
            "blk-schedule,1,1,4\n1,0,0,0\n1,0,0,1\n",
            3,
            TextReason::RepeatedId,
        ),
        (
            "blk-schedule,1,1,3\n1,0,0,0\n1,0,0,1\nx,0,0,2\n",
            3,
            TextReason::RepeatedId,
        ),
        // a record's own fault comes before it
        (
            "blk-schedule,1,1,2\n1,0,0,0\n1,0,0,x\n",
            3,
            TextReason::Number,
        ),
        // and it before one record too many
        (
            "blk-schedule,1,1,1\n1,0,0,0\n1,0,0,1\n",
            3,
            TextReason::RepeatedId,
        ),
    ];
    assert_eq!(rt; first_other(rt.alloc(), TextKind::Schedule, &texts), None);
    assert_eq!(rt; TextReason::RepeatedId.name(), "RepeatedId");
}
