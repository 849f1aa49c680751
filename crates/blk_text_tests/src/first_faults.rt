//! The faults of texts, each by its record and name. What a user meets of them, and in which order, is shown by the cases
//! of the program.

use crate::forms::{TextKind, first_other};
use blk_bio::{BioFault, TraceRule};
use blk_records::TextReason;

#[test]
fn faults_of_a_command_list(rt: HostRuntime) {
    let texts = [
        ("", 1, TextReason::Title),
        ("blk-commands,1\n", 1, TextReason::Fields),
        ("blk-commands,1,01\n", 1, TextReason::Number),
        ("blk-commands,1,0\n", 1, TextReason::Range),
        ("blk-commands,1,1\n1,0\n", 2, TextReason::Fields),
        (
            "blk-commands,1,1\n1,0,0\n01,99999999999999,0\n",
            3,
            TextReason::Number,
        ),
        (
            "\nblk-commands,1,1\r\n\r\n\n1,0,0\n\n\n1,0,2199023255552",
            3,
            TextReason::Range,
        ),
    ];
    assert_eq!(rt; first_other(rt.alloc(), TextKind::Commands, &texts), None);
}

#[test]
fn faults_of_a_script(rt: HostRuntime) {
    let texts = [
        ("blk-scripts,1,1,1,4,1\n", 1, TextReason::Title),
        ("blk-script,1,1,1,4\n", 1, TextReason::Fields),
        ("blk-script,1,1,x,4,1\n", 1, TextReason::Number),
        ("blk-script,1,1,2,4,1\n", 1, TextReason::Range),
        ("blk-script,1,1,1,4,1\n", 2, TextReason::Word),
        (
            "blk-script,1,1,1,4,1\nsetup,0,9,256,128",
            2,
            TextReason::Fields,
        ),
        (
            "blk-script,1,1,1,4,1\nsetup,0,9,256,129,\n",
            2,
            TextReason::Range,
        ),
        (
            "blk-script,1,1,1,4,1\nsetup,0,9,256,128,\ntick",
            3,
            TextReason::Fields,
        ),
        (
            "blk-script,1,1,1,4,1\nsetup,0,9,256,128,\ntock,,,,,",
            3,
            TextReason::Word,
        ),
        (
            "blk-script,1,1,1,4,1\nsetup,0,9,256,128,\ndone,+1,,,,",
            3,
            TextReason::Number,
        ),
        (
            "blk-script,1,1,1,4,1\nsetup,0,9,256,128,\nrun,0,,,,",
            3,
            TextReason::Range,
        ),
    ];
    assert_eq!(rt; first_other(rt.alloc(), TextKind::Script, &texts), None);
}

#[test]
fn faults_of_versions(rt: HostRuntime) {
    let texts = [
        ("blk-script,3,1,1,4,1\n", 1, TextReason::Title),
        ("blk-script,01,1,1,4,1\n", 1, TextReason::Title),
        ("blk-script,1,65,1,4,1\n", 1, TextReason::Range),
        ("blk-script,2,257,1,4,1\n", 1, TextReason::Range),
        (
            "blk-script,1,1,1,4,1\nsetup,0,9,256,128,\ndepth,1,,,,\n",
            3,
            TextReason::Word,
        ),
        (
            "blk-script,1,1,1,4,1\nsetup,0,9,256,128,\ndepth,1,,,\n",
            3,
            TextReason::Fields,
        ),
        (
            "blk-script,2,1,1,4,1\nsetup,0,9,256,128,\ndepth,1,1,,,\n",
            3,
            TextReason::Fields,
        ),
        (
            "blk-script,2,1,1,4,1\nsetup,0,9,256,128,\ndepth,01,,,,\n",
            3,
            TextReason::Number,
        ),
        (
            "blk-script,1,1,1,4,1\nsetup,0,9,256,128,\nback,65536,,,,\n",
            3,
            TextReason::Range,
        ),
    ];
    assert_eq!(rt; first_other(rt.alloc(), TextKind::Script, &texts), None);
}

#[test]
fn faults_of_a_bio(rt: HostRuntime) {
    let texts = [
        (
            "blk-script,1,1,1,4,1\nsetup,0,9,256,128,\nbio,0,0,R,100,0",
            3,
            TextReason::Bio(BioFault::Empty),
        ),
        (
            "blk-script,1,1,1,4,1\nsetup,0,9,256,128,\nbio,0,0,R,281474976710656,1",
            3,
            TextReason::Bio(BioFault::Range),
        ),
    ];
    assert_eq!(rt; first_other(rt.alloc(), TextKind::Script, &texts), None);
}

#[test]
fn faults_of_a_certificate(rt: HostRuntime) {
    let texts = [
        ("blk-commands,1,1,0\n", 1, TextReason::Title),
        ("blk-certificate,1,1\n", 1, TextReason::Fields),
        ("blk-certificate,1,1,-1\n", 1, TextReason::Number),
        ("blk-certificate,1,1,1000001\n", 1, TextReason::Range),
        (
            "blk-certificate,1,1,0\nbound,-5,0,0\n",
            2,
            TextReason::Range,
        ),
        ("blk-certificate,1,1,1\nbond,0,0,0\n", 2, TextReason::Word),
        (
            "blk-certificate,1,1,1\nbound,-0,0,0\n",
            2,
            TextReason::Number,
        ),
        (
            "blk-certificate,1,1,2\nbound,1,0,0\n1,0,0,0\n",
            4,
            TextReason::Count,
        ),
        (
            "blk-certificate,1,1,1\nbound,1,0,0\n1,0,0,0\n2,0,0,1\n",
            4,
            TextReason::Count,
        ),
    ];
    assert_eq!(rt;
        first_other(rt.alloc(), TextKind::Certificate, &texts),
        None
    );
}

#[test]
fn faults_have_names(rt: HostRuntime) {
    assert_eq!(rt; TextReason::Bio(BioFault::Range).name(), "Range");
    assert_eq!(rt; TextReason::Rule(TraceRule::TagUsed).name(), "TagUsed");
    assert_eq!(rt; TextReason::TooLong.name(), "TooLong");
}
