//! Certificates of the greatest number on time, and certificates of either form.

use crate::forms::{TextKind, first_not_itself, first_other};
use blk_records::{Records, TextReason, read_on_time};
use edd_check::Window;

/// Three commands of one round, of which two are due in round 0: one runs in time there, and one later.
const TWO_OF_THREE: &str = "blk-met,1,1,3\nmet,2,1,\nwindow,0,0,\n1,0,0,0\n2,0,0,1\n3,0,5,2\n";

#[test]
fn what_is_on_time_is_read(rt: HostRuntime) {
    let records = &mut Records::new(rt.alloc(), TWO_OF_THREE.as_bytes());
    let Ok(certificate) = read_on_time(rt.alloc(), records) else {
        panic!(rt; "refused");
    };
    assert_eq!(rt; certificate.depth, 1);
    assert_eq!(rt; certificate.on_time, 2);
    assert!(rt; certificate.cover.as_slice() == [Window { from: 0, due: 0 }].as_slice());
    assert!(rt; certificate.rounds.as_slice() == [0, 1, 2].as_slice());
    assert_eq!(rt; certificate.commands.len(), 3);
}

#[test]
fn on_time_certificates_come_back(rt: HostRuntime) {
    let none = "blk-met,1,256,0\nmet,0,0,\n";
    let wide = "blk-met,1,2,1\nmet,1000000,2,\nwindow,9,3,\nwindow,0,2199023255551,\n1,0,0,0\n";
    assert_eq!(rt;
        first_not_itself(rt.alloc(), TextKind::OnTime, &[TWO_OF_THREE, none, wide]),
        None
    );
}

#[test]
fn either_form_comes_back(rt: HostRuntime) {
    let other = "blk-certificate,1,1,1\nbound,0,0,0\n1,0,0,0\n";
    assert_eq!(rt;
        first_not_itself(rt.alloc(), TextKind::Proof, &[TWO_OF_THREE, other]),
        None
    );
}

#[test]
fn faults_of_what_is_on_time(rt: HostRuntime) {
    let texts = [
        ("", 1, TextReason::Title),
        ("blk-certificate,1,1,0\n", 1, TextReason::Title),
        ("blk-met,2,1,0\n", 1, TextReason::Title),
        ("blk-met,1,1\n", 1, TextReason::Fields),
        ("blk-met,1,1,1000001\n", 1, TextReason::Range),
        ("blk-met,1,1,1\n", 2, TextReason::Word),
        ("blk-met,1,1,0\nwindow,0,0,\n", 2, TextReason::Word),
        ("blk-met,1,1,0\nmet,0,0\n", 2, TextReason::Fields),
        ("blk-met,1,1,0\nmet,0,0,0\n", 2, TextReason::Fields),
        ("blk-met,1,1,0\nmet,0,01,\n", 2, TextReason::Number),
        ("blk-met,1,1,0\nmet,1000001,0,\n", 2, TextReason::Range),
        ("blk-met,1,1,0\nmet,0,1000001,\n", 2, TextReason::Range),
        ("blk-met,1,1,0\nmet,0,1,\n", 3, TextReason::Count),
        ("blk-met,1,1,0\nmet,0,1,\nmet,0,0,\n", 3, TextReason::Word),
        (
            "blk-met,1,1,0\nmet,0,1,\nwindow,0,2199023255552,\n",
            3,
            TextReason::Range,
        ),
        (
            "blk-met,1,1,1\nmet,0,1,\nwindow,0,0,\n1,0,0\n",
            4,
            TextReason::Fields,
        ),
        (
            "blk-met,1,1,1\nmet,0,1,\nwindow,0,0,\n",
            4,
            TextReason::Count,
        ),
        ("blk-met,1,1,0\nmet,0,0,\n1,0,0,0\n", 3, TextReason::Count),
    ];
    assert_eq!(rt; first_other(rt.alloc(), TextKind::OnTime, &texts), None);
}

#[test]
fn faults_of_either_form(rt: HostRuntime) {
    let texts = [
        ("", 1, TextReason::Title),
        ("blk-commands,1,1,0\n", 1, TextReason::Title),
        ("blk-met,2,1,0\n", 1, TextReason::Title),
        ("blk-certificate,1,1\n", 1, TextReason::Fields),
        ("blk-met,1,1,1\nbound,0,0,0\n1,0,0,0\n", 2, TextReason::Word),
        ("blk-certificate,1,1,0\nmet,0,0,\n", 2, TextReason::Word),
        ("blk-met,1,1,1\nmet,0,0,\n", 3, TextReason::Count),
        ("blk-certificate,1,1,1\nbound,0,0,0\n", 3, TextReason::Count),
    ];
    assert_eq!(rt; first_other(rt.alloc(), TextKind::Proof, &texts), None);
}
