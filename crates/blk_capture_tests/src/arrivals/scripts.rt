//! The script of a capture that was worked by hand, its text, and each fault.

ghost use Rattle.std.specs.Prelude.{length};
ghost use Rattle.blk_capture.specs.Requests.{AreInOrder};

use blk_arrivals::laws::law_of_limits;
use blk_arrivals::{ArrivalsFault, Terms, script_of, script_text};
use blk_capture::Record;
use blk_capture_text::read_capture;
use blk_records::Records;
use blk_text::read_script;
use blk_trace::SetupFault;
use edd_commands::Fault;
use std::alloc::Global;
use std::process::Abort;

/// Two processes in one round, the first of which unplugs; a round in which nothing comes in; and two more bios.
const TEXT: &str = "blk-capture,1,,,,,,\n\
    5,000000000,0,P,40,N,0,0\n\
    5,000010000,0,Q,40,R,100,8\n\
    5,000020000,1,Q,41,WS,900,16\n\
    5,000040000,0,U,40,N,0,0\n\
    5,000050000,0,Q,40,D,300,8\n\
    5,002000000,0,Q,40,R,108,8\n\
    5,002000001,0,C,40,R,108,8\n\
    5,002999999,1,Q,41,W,916,16\n";

/// What comes of it in rounds of a millisecond at depth 2.
const SCRIPT: &str = "blk-script,2,2,1,64,2\n\
    setup,3,1,2560,128,\n\
    bio,0,0,R,100,8\n\
    bio,1,1,W,900,16\n\
    flush,0,,,,\n\
    drain,0,,,,\n\
    flush,1,,,,\n\
    run,2,,,,\n\
    bio,0,2,R,108,8\n\
    bio,1,3,W,916,16\n\
    flush,0,,,,\n\
    flush,1,,,,\n\
    run,4,,,,\n";

/// Rounds of a length, at depth 2, in which reads are due after 3 ms and writes after 1 ms.
fn terms(round: u64) -> Terms {
    Terms {
        round,
        depth: 2,
        read_expire: 3_000_000,
        write_expire: 1_999_999,
    }
}

/// The records of a text.
fn records_of(rt: &impl Abort, alloc: Global, text: &str) -> Vec<Record>
    ensures { AreInOrder result.items (length result.items) }
{
    let records = &mut Records::new(alloc, text.as_bytes());
    read_capture(alloc, records).expect(rt, "a capture")
}

/// The fault of a capture.
fn fault_of(rt: &impl Abort, alloc: Global, text: &str, terms: &Terms) -> Option<ArrivalsFault> {
    let records = records_of(rt, alloc, text);
    script_of(alloc, records.as_slice(), terms).err()
}

#[test]
fn limits_hold() {
    law_of_limits();
}

#[test]
fn a_script_is_made(rt: HostRuntime) {
    let alloc = rt.alloc();
    let records = records_of(&rt, alloc, TEXT);
    let script = script_of(alloc, records.as_slice(), &terms(1_000_000)).expect(&rt, "a script");
    let text = script_text(alloc, &script).expect(&rt, "its text");
    assert_eq!(rt; text.as_slice(), SCRIPT.as_bytes());
    let read = read_script(alloc, &mut Records::new(alloc, SCRIPT.as_bytes())).expect(
        &rt,
        "the same script",
    );
    assert_eq!(rt; read.setup, script.setup);
    assert_eq!(rt; read.lines.as_slice(), script.lines.as_slice());
}

#[test]
fn faults_of_the_terms(rt: HostRuntime) {
    let alloc = rt.alloc();
    assert_eq!(rt;
        fault_of(&rt, alloc, TEXT, &terms(0)),
        Some(ArrivalsFault::Round)
    );
    let deep = Terms {
        depth: 257,
        ..terms(1)
    };
    assert_eq!(rt;
        fault_of(&rt, alloc, TEXT, &deep),
        Some(ArrivalsFault::Setup(SetupFault::Depth))
    );
    let late = Terms {
        read_expire: 1 << 40,
        ..terms(1)
    };
    assert_eq!(rt;
        fault_of(&rt, alloc, TEXT, &late),
        Some(ArrivalsFault::Setup(SetupFault::Expire))
    );
    assert_eq!(rt;
        fault_of(&rt, alloc, TEXT, &terms(2)),
        Some(ArrivalsFault::TraceFull)
    );
    assert_eq!(rt; fault_of(&rt, alloc, TEXT, &terms(3)), None);
}

#[test]
fn names_of_the_faults(rt: HostRuntime) {
    assert_eq!(rt; ArrivalsFault::Round.name(), "Round");
    assert_eq!(rt; ArrivalsFault::Setup(SetupFault::Depth).name(), "Depth");
    assert_eq!(rt; ArrivalsFault::Setup(SetupFault::Expire).name(), "Expire");
    assert_eq!(rt; ArrivalsFault::TooMany.name(), "TooMany");
    assert_eq!(rt; ArrivalsFault::TraceFull.name(), "TraceFull");
    assert_eq!(rt; ArrivalsFault::TooLong.name(), "TooLong");
    assert_eq!(rt; ArrivalsFault::Memory.name(), "Memory");
}
