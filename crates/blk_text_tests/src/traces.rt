//! Traces read: what comes back, and their faults. The program's cases show more of them.

use crate::forms::{TextKind, first_other, first_unlike};
use crate::texts::JOINED;
use blk_bio::BioFault;
use blk_records::TextReason;
use blk_trace::TraceRule;

#[test]
fn both_versions_come_back(rt: HostRuntime) {
    let texts = [
        (JOINED, JOINED),
        (
            "blk-trace,1,1,1,2,\nsetup,0,9,256,128,\nrelease,0,1,,,\nbio,0,0,W,100,8\ntick,,,,,\n",
            "blk-trace,2,1,1,2,\nsetup,0,9,256,128,\nrelease,0,1,,,\nbio,0,0,W,100,8\ntick,,,,,\n",
        ),
        (
            "blk-trace,2,256,1,3,\r\nsetup,0,9,256,128,\r\ndepth,7,,,,\r\ntick,,,,,\r\ndepth,256,,,,",
            "blk-trace,2,256,1,3,\nsetup,0,9,256,128,\ndepth,7,,,,\ntick,,,,,\ndepth,256,,,,\n",
        ),
    ];
    assert_eq!(rt; first_unlike(rt.alloc(), TextKind::Trace, &texts), None);
}

#[test]
fn faults_of_a_trace(rt: HostRuntime) {
    let texts = [
        ("", 1, TextReason::Title),
        ("blk-trace,3,1,1,8,\n", 1, TextReason::Title),
        ("blk-trace,1,65,1,0,\n", 1, TextReason::Range),
        ("blk-trace,2,257,1,0,\n", 1, TextReason::Range),
        ("blk-trace,1,1,1,1000001,\n", 1, TextReason::Range),
        ("blk-trace,1,1,1,0,x\n", 1, TextReason::Fields),
        ("blk-trace,1,1,1,0,\n", 2, TextReason::Word),
        (
            "blk-trace,1,1,1,2,\nsetup,0,9,256,128,\ntick,,,,,\n",
            4,
            TextReason::Count,
        ),
        (
            "blk-trace,1,1,1,1,\nsetup,0,9,256,128,\nbio,0,0,W,100,8\n",
            3,
            TextReason::Word,
        ),
        (
            "blk-trace,1,1,1,1,\nsetup,0,9,256,128,\ndepth,1,,,,\n",
            3,
            TextReason::Word,
        ),
        (
            "blk-trace,2,1,1,1,\nsetup,0,9,256,128,\ndepth,2,,,,\n",
            3,
            TextReason::Rule(TraceRule::DepthRange),
        ),
        (
            "blk-trace,1,1,1,1,\nsetup,0,9,256,128,\nissue,0,00,,,\n",
            3,
            TextReason::Number,
        ),
        (
            "blk-trace,1,1,1,1,\nsetup,0,9,256,128,\nissue,0,0,,,\n",
            3,
            TextReason::Rule(TraceRule::Unknown),
        ),
    ];
    assert_eq!(rt; first_other(rt.alloc(), TextKind::Trace, &texts), None);
}

#[test]
fn faults_of_a_group(rt: HostRuntime) {
    let texts = [
        (
            "blk-trace,1,1,1,1,\nsetup,0,9,256,128,\nrelease,0,129,,,\n",
            3,
            TextReason::Range,
        ),
        (
            "blk-trace,1,1,1,1,\nsetup,0,9,256,128,\nrelease,0,2,,,\nbio,0,0,W,100,8\n",
            5,
            TextReason::Count,
        ),
        (
            "blk-trace,1,1,1,1,\nsetup,0,9,256,128,\nrelease,0,2,,,\nbio,0,0,W,100,8\ntick,,,,,\n",
            5,
            TextReason::Count,
        ),
        (
            "blk-trace,1,1,1,1,\nsetup,0,9,256,128,\nrelease,0,2,,,\nbio,0,0,W,100,8\ntick,x,,,,\n",
            5,
            TextReason::Fields,
        ),
        (
            "blk-trace,1,1,1,1,\nsetup,0,9,256,128,\nrelease,0,2,,,\nbio,0,0,W,100,8\nfoo,,,,,\n",
            5,
            TextReason::Word,
        ),
        (
            "blk-trace,1,1,1,1,\nsetup,0,9,256,128,\njoin,0,2,,,\nbio,0,0,W,100,8\nbio,0,1,R,108,8\n",
            5,
            TextReason::Tile,
        ),
        (
            "blk-trace,1,1,1,1,\nsetup,0,9,256,128,\njoin,0,2,,,\nbio,0,0,W,100,8\nbio,0,1,W,92,8\n",
            5,
            TextReason::Tile,
        ),
        (
            "blk-trace,1,1,1,1,\nsetup,0,9,256,1,\njoin,0,2,,,\nbio,0,0,W,100,8\nbio,0,1,W,108,8\n",
            5,
            TextReason::Tile,
        ),
        (
            "blk-trace,1,1,1,1,\nsetup,0,9,256,128,\njoin,0,1,,,\nbio,0,0,W,100,0\n",
            4,
            TextReason::Bio(BioFault::Empty),
        ),
        (
            "blk-trace,1,1,1,1,\nsetup,0,9,256,128,\njoin,0,1,,,\nbio,0,0,W,100,8\n",
            3,
            TextReason::Rule(TraceRule::Unknown),
        ),
    ];
    assert_eq!(rt; first_other(rt.alloc(), TextKind::Trace, &texts), None);
}

#[test]
fn events_past_the_announced_number(rt: HostRuntime) {
    let texts = [
        (
            "blk-trace,1,1,1,0,\nsetup,0,9,256,128,\ntick,,,,,\n",
            3,
            TextReason::Count,
        ),
        (
            "blk-trace,1,1,1,0,\nsetup,0,9,256,128,\ndone,0,,,,\n",
            3,
            TextReason::Rule(TraceRule::NotIssued),
        ),
        (
            "blk-trace,1,1,1,0,\nsetup,0,9,256,128,\nback,0,,,,\n",
            3,
            TextReason::Rule(TraceRule::NotIssued),
        ),
        (
            "blk-trace,1,1,1,0,\nsetup,0,9,256,128,\njoin,0,1,,,\nbio,x\n",
            3,
            TextReason::Count,
        ),
        (
            "blk-trace,1,1,1,0,\nsetup,0,9,256,128,\njoin,0,0,,,\n",
            3,
            TextReason::Range,
        ),
    ];
    assert_eq!(rt; first_other(rt.alloc(), TextKind::Trace, &texts), None);
}
