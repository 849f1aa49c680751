//! What is read of texts, in all their spellings, and written again.

use crate::forms::{TextKind, first_not_itself, first_unlike};
use blk_bio::{Bio, BioId, Dir, Limits, Request};
use blk_records::{Records, read_certificate};
use blk_text::{Line, read_script, trace_text};
use blk_trace::{Event, Setup, Trace};
use edd_check::Window;
use std::alloc::Global;
use std::process::Abort;

#[test]
fn three_at_once(rt: HostRuntime) {
    let text = "blk-commands,1,1\n1,0,0\n2,0,0\n3,0,0\n";
    let texts = [
        (text, text),
        (
            "\u{feff}blk-commands,1,1\r\n\n1,0,0\r\n\"2\",0,\"0\"\n\n3,0,0",
            text,
        ),
        ("blk-commands,1,1\r1,0,0\r2,0,0\r\"\"3,0,0", text),
        ("\"blk-commands\",1,\"1\"\n1,\"0\",0\n2,0,0\n3,0,\"0", text),
    ];
    assert_eq!(rt; first_unlike(rt.alloc(), TextKind::Commands, &texts), None);
}

#[test]
fn numbers_of_every_length(rt: HostRuntime) {
    let texts = [
        "blk-commands,1,64\n0,9,10\n99,100,101\n999,1000,1099511627775\n",
        "blk-commands,1,9\n9999,10000,10001\n99999,100000,2199023255551\n",
        "blk-commands,1,10\n9999999,10000000,99999999\n100000000,12345678,0\n",
        "blk-commands,1,1\n18446744073709551615,1099511627775,2199023255551\n",
        "blk-commands,1,1\n10000000000000000000,1,1\n9999999999999999999,1,1\n",
    ];
    assert_eq!(rt;
        first_not_itself(rt.alloc(), TextKind::Commands, &texts),
        None
    );
}

#[test]
fn certificates_come_back(rt: HostRuntime) {
    let texts = [
        "blk-certificate,1,1,3\nbound,2,0,0\n1,0,0,0\n2,0,0,1\n3,0,0,2\n",
        "blk-certificate,1,1,0\nbound,none,none,none\n",
        "blk-certificate,1,64,1\nbound,-5,0,9\n18446744073709551615,0,9,4\n",
        "blk-certificate,1,1,1\nbound,-2199023255551,0,2199023255551\n1,0,2199023255551,0\n",
    ];
    assert_eq!(rt;
        first_not_itself(rt.alloc(), TextKind::Certificate, &texts),
        None
    );
}

#[test]
fn a_certificate_in_other_spellings(rt: HostRuntime) {
    let text = "blk-certificate,1,1,3\nbound,-2,0,4\n1,0,4,0\n2,0,4,1\n3,0,4,2\n";
    let texts = [
        (
            "\u{feff}blk-certificate,1,1,3\r\n\nbound,\"-2\",0,4\r\n1,0,4,0\r\n\n2,0,\"4\",1\n3,0,4,2",
            text,
        ),
        (
            "\"blk-certificate\",1,1,\"3\"\r\"bound\",-2,0,4\r1,0,4,0\r\"\"2,0,4,1\r3,0,4,\"2",
            text,
        ),
    ];
    assert_eq!(rt;
        first_unlike(rt.alloc(), TextKind::Certificate, &texts),
        None
    );
}

#[test]
fn all_bytes_of_an_input(rt: HostRuntime) {
    let text = "\u{feff}blk-commands,1,1\r\n\n1,0,\"0";
    let records = &mut Records::new(rt.alloc(), text.as_bytes());
    let bytes = records.bytes(rt.alloc()).expect(&rt, "refused");
    assert!(rt; bytes.as_slice() == text.as_bytes());
}

#[test]
fn fields_of_a_certificate(rt: HostRuntime) {
    let text = "blk-certificate,1,1,1\nbound,-3,1,5\n7,1,5,2\n";
    let records = &mut Records::new(rt.alloc(), text.as_bytes());
    let Ok(certificate) = read_certificate(rt.alloc(), records) else {
        panic!(rt; "refused");
    };
    assert_eq!(rt; certificate.depth, 1);
    assert!(rt; certificate.rounds.as_slice() == [2].as_slice());
    let window = Window { from: 1, due: 5 };
    assert!(rt; certificate.bound == Some((-3, window)));
}

/// A bio of a submitter.
fn bio(rt: &impl Abort, submitter: u8, serial: u64, dir: Dir, first: u64) -> Bio {
    let id = BioId { submitter, serial };
    Bio::new(id, dir, first, 8).expect(rt, "a bio")
}

#[test]
fn a_script_in_other_spellings(rt: HostRuntime) {
    let write = bio(&rt, 0, 7, Dir::Write, 100);
    let steps = [Line::Bio(write), Line::Flush(0), Line::Tick, Line::Run(2)];
    for input in [
        "\u{feff}blk-script,1,1,1,4,1\r\n\nsetup,0,9,256,128,\"\"\r\nbio,0,\"7\",\"W\",100,8\r\n\nflush,0,,,\"\",\r\ntick,,,,,\nrun,2,,,,",
        "\"blk-script\",1,\"1\",1,4,1\r\"setup\",0,9,256,128,\r\"bio\",0,7,W,\"100\",\"8\"\r\"\"flush,\"0\",,,,\rtick,,,,,\r\"run\",\"2\",,,,\"",
    ] {
        let records = &mut Records::new(rt.alloc(), input.as_bytes());
        let Ok(script) = read_script(rt.alloc(), records) else {
            panic!(rt; "{input}");
        };
        assert_eq!(rt; script.setup.write_expire(), 9);
        assert!(rt; script.lines.as_slice() == steps.as_slice());
    }
}

#[test]
fn steps_of_a_script(rt: HostRuntime) {
    let text =
        "blk-script,1,1,2,4,3\nsetup,0,9,256,128,\nbio,2,5,W,100,8\nflush,2,,,,\ndrain,1,,,,\nissue,1,65535,,,\ndone,7,,,,\ntick,,,,,\nrun,1000000,,,,\n";
    let records = &mut Records::new(rt.alloc(), text.as_bytes());
    let Ok(script) = read_script(rt.alloc(), records) else {
        panic!(rt; "refused");
    };
    assert_eq!(rt; (script.setup.hw(), script.setup.write_expire()), (2, 9));
    assert_eq!(rt; script.setup.limits().max_sectors(), 256);
    assert_eq!(rt; (script.soft_depth, script.submitters), (4, 3));
    let steps = [
        Line::Bio(bio(&rt, 2, 5, Dir::Write, 100)),
        Line::Flush(2),
        Line::Drain { hw: 1 },
        Line::Issue { hw: 1, tag: 65_535 },
        Line::Done(7),
        Line::Tick,
        Line::Run(1_000_000),
    ];
    assert!(rt; script.lines.as_slice() == steps.as_slice());
}

#[test]
fn steps_of_version_2(rt: HostRuntime) {
    let text =
        "blk-script,2,64,1,4,1\nsetup,0,9,256,128,\nback,65535,,,,\ndepth,0,,,,\ndepth,18446744073709551615,,,,\n";
    let records = &mut Records::new(rt.alloc(), text.as_bytes());
    let script = read_script(rt.alloc(), records).expect(&rt, "refused");
    assert_eq!(rt; script.setup.depth(), 64);
    let steps = [Line::Back(65_535), Line::Depth(0), Line::Depth(u64::MAX)];
    assert!(rt; script.lines.as_slice() == steps.as_slice());
}

/// A request of one read of submitter 1.
fn read(rt: &impl Abort, alloc: Global, serial: u64, first: u64) -> Request {
    Request::of(alloc, bio(rt, 1, serial, Dir::Read, first)).expect(rt, "memory")
}

/// A trace of a request of two bios that a third joins.
pub fn joined_trace(rt: &impl Abort, alloc: Global) -> Trace {
    let limits = Limits::new(256, 128).expect(rt, "limits");
    let setup = Setup::new(1, 1, 0, 9, limits).expect(rt, "a setup");
    let mut trace = Trace::empty(alloc, setup).expect(rt, "memory");
    let mut request = read(rt, alloc, 100, 100);
    assert!(rt; request.join(read(rt, alloc, 101, 108), &limits).is_ok());
    assert!(rt; trace.push(Event::Release { id: 0, request }).is_ok());
    let request = read(rt, alloc, 116, 116);
    assert!(rt; trace.push(Event::Join { id: 0, request }).is_ok());
    assert!(rt; trace.push(Event::Issue { id: 0, tag: 0 }).is_ok());
    assert!(rt; trace.push(Event::Done { tag: 0 }).is_ok());
    assert!(rt; trace.push(Event::Tick).is_ok());
    trace
}

/// Its text.
pub const JOINED: &str =
    "blk-trace,2,1,1,5,\nsetup,0,9,256,128,\nrelease,0,2,,,\nbio,1,100,R,100,8\nbio,1,101,R,108,8\njoin,0,1,,,\nbio,1,116,R,116,8\nissue,0,0,,,\ndone,0,,,,\ntick,,,,,\n";

#[test]
fn groups_and_joins_are_written(rt: HostRuntime) {
    let trace = joined_trace(&rt, rt.alloc());
    let text = trace_text(rt.alloc(), &trace).expect(&rt, "memory");
    assert!(rt; text.as_slice() == JOINED.as_bytes());
}
