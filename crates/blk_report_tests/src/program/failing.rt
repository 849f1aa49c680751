//! The program where its reader or one of its writers fails.

use crate::program::given::{Choking, Failing, status_of};
use std::io::ErrorKind;

/// A write released before a read at depth 1.
const SCRIPT: &str =
    "blk-script,1,1,1,4,1\nsetup,0,9,256,128,\nbio,0,0,W,100,8\nbio,0,1,R,200,8\nflush,0,,,,\ndrain,0,,,,\nrun,2,,,,\n";

/// Its trace: the write goes out in round 0, the read in round 1.
const TRACE: &str =
    "blk-trace,2,1,1,8,\nsetup,0,9,256,128,\nrelease,0,1,,,\nbio,0,0,W,100,8\nrelease,1,1,,,\nbio,0,1,R,200,8\nissue,0,0,,,\ndone,0,,,,\ntick,,,,,\nissue,1,0,,,\ndone,0,,,,\ntick,,,,,\n";

/// The same in version 1.
const OLD_TRACE: &str =
    "blk-trace,1,1,1,8,\nsetup,0,9,256,128,\nrelease,0,1,,,\nbio,0,0,W,100,8\nrelease,1,1,,,\nbio,0,1,R,200,8\nissue,0,0,,,\ndone,0,,,,\ntick,,,,,\nissue,1,0,,,\ndone,0,,,,\ntick,,,,,\n";

/// How far it fell short.
const REPORT: &str =
    "commands 2\nwaiting 0\ndepth 1\ngreatest 1\nleast 0\nshortfall 1\nwindow 0 0\nload 1\n";

/// Its command list.
const LISTED: &str = "blk-commands,1,1\n0,0,9\n1,0,0\n";

/// How far each scheduler falls short over the script: deadline and kyber issue the read first.
const TABLE: &str =
    "sched     commands   waiting  greatest     least shortfall\nnone             2         0         1         0         1\ndeadline         2         0         0         0         0\nkyber            2         0         0         0         0\nbest deadline\n";

/// The script under none alone, which issues the write first: the read is late, and had not to be.
const TRIED: &str =
    "sched,settings,commands,waiting,greatest,least,shortfall,late,unavoidable,avoidable,wait_p99_read,wait_p99_write\nnone,-,2,0,1,0,1,1,0,1,1,0\nbest none -\n";

/// Three commands that are due in the round of their release.
const COMMANDS: &str = "blk-commands,1,1\n1,0,0\n2,0,0\n3,0,0\n";

/// Their certificate.
const CERTIFICATE: &str = "blk-certificate,1,1,3\nbound,2,0,0\n1,0,0,0\n2,0,0,1\n3,0,0,2\n";

/// What it proves, as JSON.
const CHECKED: &str = "{\"lateness\":2,\"load\":3,\"carries\":2}\n";

/// What the commands are as a text.
const EXPLAINED: &str = "blk-commands, version 1, records 4\ntaken by oracle\n";

/// The words of a command line, with an input and its output.
type Run<'a> = (&'a [&'a str], &'a str, &'a str);

/// Each subcommand, with an input and its output.
fn good_runs<'a>() -> [Run<'a>; 10] {
    [
        (&["sim"], SCRIPT, TRACE),
        (&["compare"], SCRIPT, TABLE),
        (&["tune", "--sched", "none"], SCRIPT, TRIED),
        (&["migrate"], OLD_TRACE, TRACE),
        (&["commands"], OLD_TRACE, LISTED),
        (&["oracle"], COMMANDS, CERTIFICATE),
        (&["oracle", "--trace"], TRACE, REPORT),
        (&["check"], CERTIFICATE, "ok lateness 2 load 3 carries 2\n"),
        (&["check", "--json"], CERTIFICATE, CHECKED),
        (&["explain"], COMMANDS, EXPLAINED),
    ]
}

/// A reader of a text that fails after this number of reads.
fn failing(text: &str, reads_left: u64, kind: ErrorKind) -> Failing<'_> {
    Failing {
        text: text.as_bytes(),
        reads_left,
        kind,
    }
}

#[test]
fn failing_reads(rt: HostRuntime) {
    for (words, input, output) in good_runs() {
        let length = input.as_bytes().len() as u64;
        // each byte is a read, and one more finds the end
        for reads_left in 0..length + 2 {
            let (mut out, mut line) = (Vec::new(rt.alloc()), Vec::new(rt.alloc()));
            let reader = failing(input, reads_left, ErrorKind::Other);
            let status = status_of(&rt, rt.alloc(), words, reader, &mut out, &mut line);
            if reads_left > length {
                assert!(rt; status == 0 && line.is_empty());
                assert!(rt; out.as_slice() == output.as_bytes());
            } else {
                assert!(rt; status == 3 && out.is_empty(), "{reads_left}");
                assert!(rt; line.as_slice() == b"blk: read fault\n".as_slice());
            }
        }
    }
}

/// Whatever a reader failed with, being out of memory too, it is the reader's fault and not the program's.
#[test]
fn each_kind_of_read_fault(rt: HostRuntime) {
    let kinds = [
        ErrorKind::Other,
        ErrorKind::OutOfMemory,
        ErrorKind::InvalidData,
        ErrorKind::UnexpectedEof,
        ErrorKind::BrokenPipe,
    ];
    for (words, input, _) in good_runs() {
        for kind in kinds {
            let (mut out, mut line) = (Vec::new(rt.alloc()), Vec::new(rt.alloc()));
            let reader = failing(input, 7, kind);
            let status = status_of(&rt, rt.alloc(), words, reader, &mut out, &mut line);
            assert!(rt; status == 3 && out.is_empty(), "{input}");
            assert!(rt; line.as_slice() == b"blk: read fault\n".as_slice());
        }
    }
}

#[test]
fn failing_writes(rt: HostRuntime) {
    for (words, input, output) in good_runs() {
        let length = output.as_bytes().len() as u64;
        for writes_left in 0..length + 1 {
            let (mut out, mut line) = (Choking { writes_left }, Vec::new(rt.alloc()));
            let reader = input.as_bytes();
            let status = status_of(&rt, rt.alloc(), words, reader, &mut out, &mut line);
            if writes_left == length {
                assert!(rt; status == 0 && line.is_empty());
            } else {
                assert!(rt; status == 3, "{writes_left}");
                assert!(rt; line.as_slice() == b"blk: write fault\n".as_slice());
            }
        }
    }
}

/// Where the line on standard error is lost, the status and the output are what they are with it.
#[test]
fn lost_lines(rt: HostRuntime) {
    let late = "blk-certificate,1,1,1\nbound,1,0,0\n1,0,0,0\n";
    let cases: [(&[&str], &str, u8); 6] = [
        (&["sim"], "", 1),
        (&["oracle"], "blk-commands,1,1\n7,0,0\n7,0,0\n", 1),
        (&["check"], late, 1),
        (&["check", "--bad"], CERTIFICATE, 2),
        (&["--help"], "", 2),
        (&["serve"], "", 2),
    ];
    for (words, input, wanted) in cases {
        for writes_left in 0..3u64 {
            let (mut out, mut line) = (Vec::new(rt.alloc()), Choking { writes_left });
            let reader = input.as_bytes();
            let status = status_of(&rt, rt.alloc(), words, reader, &mut out, &mut line);
            assert!(rt; status == wanted && line.writes_left == 0, "{input}");
            assert!(rt; out.is_empty(), "{input}");
        }
    }
}

/// The same where the reader fails.
#[test]
fn lost_lines_of_reads(rt: HostRuntime) {
    for (words, input, _) in good_runs() {
        for writes_left in 0..3u64 {
            let (mut out, mut line) = (Vec::new(rt.alloc()), Choking { writes_left });
            let reader = failing(input, 7, ErrorKind::Other);
            let status = status_of(&rt, rt.alloc(), words, reader, &mut out, &mut line);
            assert!(rt; status == 3 && line.writes_left == 0);
            assert!(rt; out.is_empty());
        }
    }
}

/// The same where the writer of the output fails too.
#[test]
fn lost_lines_of_writes(rt: HostRuntime) {
    for (words, input, _) in good_runs() {
        for writes_left in 0..3u64 {
            let (mut out, mut line) = (Choking { writes_left }, Choking { writes_left });
            let reader = input.as_bytes();
            let status = status_of(&rt, rt.alloc(), words, reader, &mut out, &mut line);
            assert!(rt; status == 3 && line.writes_left == 0);
            assert!(rt; out.writes_left == 0);
        }
    }
}
