//! Captures as texts: what is read of one, its faults, and the schedule, the table and the summary of one that was worked by hand.

ghost use Rattle.std.specs.Prelude.{length};
ghost use Rattle.blk_capture.specs.Requests.{AreInOrder};

use answer::lines;
use blk_capture::{Action, Entry, Op, Options, Record, summarize};
use blk_capture_text::laws::{
    a_capture_has_one_fault, a_capture_is_spelled_or_has_a_fault, captures_are_spelled_once,
    captures_read_back, law_of_limits, names_of_captures, spelled_captures_have_no_fault,
    wordless_row,
};
use blk_capture_text::{
    ImportAsked, ImportFault, ShownImport, count_fates, import, notice_text, read_capture,
    shown_text, summary_answer,
};
use blk_records::{Records, TextFault, TextReason};
use std::alloc::Global;
use std::io;
use std::io::{ErrorKind, Read};
use std::process::Abort;

/// A read that a plug of process 7 held, which is late, a write, and what is passed over or not matched. Times fall nowhere.
const TEXT: &str = "blk-capture,1,,,,,,\n\
    0,999999990,3,C,0,R,512,8\n\
    0,999999990,0,P,7,N,0,0\n\
    0,999999995,0,Q,7,RS,64,8\n\
    1,000000000,0,G,7,RS,64,8\n\
    1,000000000,0,U,7,N,0,0\n\
    1,000000010,0,I,7,RS,64,8\n\
    1,000000011,1,Q,8,WFS,128,16\n\
    1,000000012,1,G,8,WFS,128,16\n\
    1,000000013,1,I,8,WFS,128,16\n\
    1,000000014,1,D,8,WFS,128,16\n\
    1,000000500,1,UT,8,N,0,0\n\
    1,000001000,0,D,7,RS,64,8\n\
    1,000002000,0,C,0,RS,64,8\n";

/// The records of a text.
fn records_of(rt: &impl Abort, alloc: Global, text: &str) -> Vec<Record>
    ensures { AreInOrder result.items (length result.items) }
{
    let records = &mut Records::new(alloc, text.as_bytes());
    read_capture(alloc, records).expect(rt, "a capture")
}

/// Reads are due 100 after they were inserted, writes 1000.
fn asked() -> ImportAsked {
    ImportAsked {
        options: Options {
            read_expire: 100,
            write_expire: 1000,
            entry: Entry::Insert,
        },
        skip: 0,
        first: 10,
    }
}

#[test]
fn a_capture_is_read(rt: HostRuntime) {
    let records = records_of(&rt, rt.alloc(), TEXT);
    assert_eq!(rt; records.len(), 13);
    let third = Record {
        time: 999_999_995,
        cpu: 0,
        action: Action::Queue,
        pid: 7,
        op: Op::Read,
        first: 64,
        sectors: 8,
    };
    assert_eq!(rt; records[2], third);
    let seventh = Record {
        time: 1_000_000_011,
        cpu: 1,
        action: Action::Queue,
        pid: 8,
        op: Op::Write,
        first: 128,
        sectors: 16,
    };
    assert_eq!(rt; records[6], seventh);
    assert_eq!(rt; records[10].action, Action::Other);
    assert_eq!(rt; records[10].op, Op::Nothing);
    assert_eq!(rt;
        records_of(&rt, rt.alloc(), "blk-capture,1,,,,,,\r\n\r\n").len(),
        0
    );
}

/// The place of the first text that has another fault than the one beside it, if there is one.
fn first_other(alloc: Global, texts: &[(&str, u64, TextReason)]) -> Option<usize> {
    for (place, (text, at, why)) in texts.iter().enumerate() {
        let records = &mut Records::new(alloc, text.as_bytes());
        let fault = TextFault { at: *at, why: *why };
        if read_capture(alloc, records).err() != Some(fault) {
            return Some(place);
        }
    }
    None
}

#[test]
fn faults_of_a_capture(rt: HostRuntime) {
    let texts = [
        ("", 1, TextReason::Title),
        ("blk-schedule,1,1,0\n", 1, TextReason::Title),
        ("blk-capture,2,,,,,,\n", 1, TextReason::Title),
        ("blk-capture,1,,,,,\n", 1, TextReason::Fields),
        ("blk-capture,1,,,,,,0\n", 1, TextReason::Fields),
        (
            "blk-capture,1,,,,,,\n0,000000000,0,Q,1,R,0\n",
            2,
            TextReason::Fields,
        ),
        (
            "blk-capture,1,,,,,,\n00,000000000,0,Q,1,R,0,8\n",
            2,
            TextReason::Number,
        ),
        (
            "blk-capture,1,,,,,,\n0,0,0,Q,1,R,0,8\n",
            2,
            TextReason::Number,
        ),
        (
            "blk-capture,1,,,,,,\n0,00000000x,0,Q,1,R,0,8\n",
            2,
            TextReason::Number,
        ),
        (
            "blk-capture,1,,,,,,\n0,0000000000,0,Q,1,R,0,8\n",
            2,
            TextReason::Number,
        ),
        (
            "blk-capture,1,,,,,,\n0,000000000,0,Q,-1,R,0,8\n",
            2,
            TextReason::Number,
        ),
        (
            "blk-capture,1,,,,,,\n17179869184,000000000,0,Q,1,R,0,8\n",
            2,
            TextReason::Range,
        ),
        // a number that is none comes before one outside its range, wherever it stands
        (
            "blk-capture,1,,,,,,\n17179869184,00000000,0,Q,1,R,0,8\n",
            2,
            TextReason::Number,
        ),
        (
            "blk-capture,1,,,,,,\n17179869184,000000000,0,Q,1,R,0,x\n",
            2,
            TextReason::Number,
        ),
    ];
    assert_eq!(rt; first_other(rt.alloc(), &texts), None);
}

#[test]
fn time_falls(rt: HostRuntime) {
    let texts = [
        (
            "blk-capture,1,,,,,,\n1,000000000,0,m,0,N,0,0\n0,999999999,0,m,0,N,0,0\nx\n",
            3,
            TextReason::Order,
        ),
        // its own fault comes before it, and it stands still at the same time
        (
            "blk-capture,1,,,,,,\n1,000000005,0,m,0,N,0,0\n1,000000005,0,m,0,N,0,0\n0,00,0,m,0,N,0,0\n",
            4,
            TextReason::Number,
        ),
    ];
    assert_eq!(rt; first_other(rt.alloc(), &texts), None);
    assert_eq!(rt; TextReason::Order.name(), "Order");
}

/// A reader that gives a text byte by byte, and then fails.
#[derive(Drop)]
struct Broken<'a> {
    rest: &'a [u8],
}

impl<'a> Read for Broken<'a> {
    fn read(&mut self, buf: &mut [u8]) -> io::Result<usize> {
        match self.rest.split_first() {
            Some((first, rest)) => {
                if buf.is_empty() {
                    return Ok(0);
                }
                buf[0] = *first;
                self.rest = rest;
                Ok(1)
            }
            None => Err(io::Error::from(ErrorKind::Other)),
        }
    }
}

#[test]
fn a_reader_fails(rt: HostRuntime) {
    let reader = Broken {
        rest: "blk-capture,1,,,,,,\n0,000000000,0,Q,1,R,0,8\n".as_bytes(),
    };
    let records = &mut Records::new(rt.alloc(), reader);
    let fault = TextFault {
        at: 3,
        why: TextReason::Read,
    };
    assert_eq!(rt; read_capture(rt.alloc(), records).err(), Some(fault));
}

/// The write goes out first, and both have come in by then. By the read's deadline, at 1.000000110, only the write has gone out; by the
/// write's, at 1.000001013, both.
const SCHEDULE: &str = "blk-schedule,1,1,2\n1,1,2,1\n2,1,1,2\n";

const TABLE: &str = "id,dir,first,sectors,bios,pid,queued,inserted,dispatched,completed,due\n\
    1,W,128,16,1,8,21,23,24,,1023\n\
    2,R,64,8,1,7,5,20,1010,2010,120\n";

const SUMMARY: &str = "records 13\nbios 2\nrequests 2\nmerges 0\nlate-reads 1\nlate-writes 0\n\
    q-to-g 1 5 5\ni-to-d 1 990 990\nd-to-c 1000 1000 1000\nin-flight 2\nleft-out 0\nunmatched 1\n\
    plugs 1\nunplugs 1\nactions 1\ndiscards 0\nerases 0\nflushes 0\nothers 0\nempty 0\npast-end 0\n";

#[test]
fn what_is_not_taken_is_counted(rt: HostRuntime) {
    let records = records_of(&rt, rt.alloc(), TEXT);
    let Ok(matched) = import(rt.alloc(), records.as_slice(), &asked()) else {
        panic!(rt; "memory");
    };
    let counts = count_fates(matched.fates.as_slice());
    let Ok(notice) = notice_text(rt.alloc(), &counts) else {
        panic!(rt; "memory");
    };
    assert!(rt; notice.as_slice() == "blk: passed over 3, unmatched 1\n".as_bytes());
}

#[test]
fn each_text_is_shown(rt: HostRuntime) {
    let records = records_of(&rt, rt.alloc(), TEXT);
    let Ok(matched) = import(rt.alloc(), records.as_slice(), &asked()) else {
        panic!(rt; "memory");
    };
    let wanted = [
        (ShownImport::Schedule, SCHEDULE),
        (ShownImport::Table, TABLE),
    ];
    for (shown, wanted) in wanted {
        let requests = matched.requests.as_slice();
        let Ok(text) = shown_text(rt.alloc(), shown, records.as_slice(), requests) else {
            panic!(rt; "memory");
        };
        assert!(rt; text.as_slice() == wanted.as_bytes());
    }
}

#[test]
fn a_capture_is_put_in_numbers(rt: HostRuntime) {
    let alloc = rt.alloc();
    let records = records_of(&rt, alloc, TEXT);
    let matched = import(alloc, records.as_slice(), &asked()).expect(&rt, "memory");
    let summary = summarize(alloc, records.as_slice(), &matched).expect(&rt, "memory");
    let counts = count_fates(matched.fates.as_slice());
    let answer = summary_answer(alloc, &summary, matched.left_out, &counts).expect(&rt, "memory");
    let text = lines(alloc, &answer).expect(&rt, "memory");
    assert!(rt; text.as_slice() == SUMMARY.as_bytes());
}

/// Each can be called.
#[test]
fn laws_hold(rt: HostRuntime) {
    captures_are_spelled_once();
    captures_read_back();
    a_capture_is_spelled_or_has_a_fault();
    spelled_captures_have_no_fault();
    a_capture_has_one_fault();
    names_of_captures();
    law_of_limits();
    blk_recorders::laws::law_of_limits();
    wordless_row();
    assert!(rt; true);
}

/// From a time on after the first record, and only this number of them.
#[test]
fn a_part_is_taken(rt: HostRuntime) {
    let records = records_of(&rt, rt.alloc(), TEXT);
    let later = ImportAsked {
        skip: 25,
        ..asked()
    };
    let Ok(matched) = import(rt.alloc(), records.as_slice(), &later) else {
        panic!(rt; "memory");
    };
    assert_eq!(rt; matched.requests.len(), 1);
    assert_eq!(rt; matched.requests[0].first, 64);
    assert_eq!(rt; matched.left_out, 1);
    let one = ImportAsked {
        first: 1,
        ..asked()
    };
    let Ok(matched) = import(rt.alloc(), records.as_slice(), &one) else {
        panic!(rt; "memory");
    };
    assert_eq!(rt; matched.requests.len(), 1);
    assert_eq!(rt; matched.requests[0].first, 128);
    assert!(rt; ImportFault::TooMany(1_000_001) != ImportFault::Memory);
}
