//! Scripts: the order of their commands, and how far they fall short.

use blk_online_cli::simulate_earliest;
use blk_records::Records;
use blk_report::{misses, report};
use blk_text::read_script;
use blk_trace::Trace;
use std::alloc::Global;
use std::process::Abort;

/// The trace of a script.
fn run(rt: &impl Abort, alloc: Global, late_last: bool, text: &str) -> Trace {
    let records = &mut Records::new(alloc, text.as_bytes());
    let Ok(script) = read_script(alloc, records) else {
        panic!(rt; "refused");
    };
    match simulate_earliest(alloc, &script, late_last) {
        Ok(trace) => trace,
        Err(_) => panic!(rt; "not run"),
    }
}

/// The ids of the commands of a script, in the order in which they went out.
fn order(rt: &impl Abort, alloc: Global, late_last: bool, text: &str) -> Vec<u64> {
    let trace = run(rt, alloc, late_last, text);
    let commands = trace.commands().expect(rt, "memory");
    let Ok(ids) = commands.iter().map(|c| c.id).collect(alloc) else {
        panic!(rt; "out of memory");
    };
    ids
}

/// What comes of a script: by how much it falls short, how many are late, and how many of these are avoidable.
#[derive(Clone, Copy, Debug, PartialEq, Eq)]
struct ScriptFigures {
    shortfall: i64,
    late: u64,
    avoidable: u64,
}

const fn figures(shortfall: i64, late: u64, avoidable: u64) -> ScriptFigures {
    ScriptFigures {
        shortfall,
        late,
        avoidable,
    }
}

fn telling(rt: &impl Abort, alloc: Global, late_last: bool, text: &str) -> ScriptFigures {
    let trace = run(rt, alloc, late_last, text);
    let report = report(&trace).expect(rt, "memory");
    let missed = misses(&trace).expect(rt, "memory");
    ScriptFigures {
        shortfall: report.shortfall().expect(rt, "commands"),
        late: missed.tally.late,
        avoidable: missed.tally.avoidable,
    }
}

/// One script of three bios shows both what due first misses and what late last makes later.
const AB: &str = "blk-script,2,1,1,3,1
setup,0,1,256,128,
bio,0,0,R,0,8
bio,0,1,R,100,8
bio,0,2,W,200,8
flush,0,,,,
run,3,,,,
";

/// One late request makes all later ones late, or waits until the end.
const DOMINO: &str = "blk-script,2,1,1,8,1
setup,0,0,256,128,
bio,0,0,R,0,8
bio,0,1,R,100,8
flush,0,,,,
run,1,,,,
bio,0,2,R,200,8
flush,0,,,,
run,1,,,,
bio,0,3,R,300,8
flush,0,,,,
run,1,,,,
bio,0,4,R,400,8
flush,0,,,,
run,1,,,,
bio,0,5,R,500,8
flush,0,,,,
run,1,,,,
bio,0,6,R,600,8
flush,0,,,,
run,1,,,,
run,1,,,,
";

/// A scheduler that joins less has other commands, of which it is less late.
const BEATEN: &str = "blk-script,2,1,1,2,1
setup,1,1,256,128,
bio,0,0,W,0,8
bio,0,1,R,0,8
flush,0,,,,
run,1,,,,
bio,0,2,W,8,8
bio,0,3,W,8,8
flush,0,,,,
run,3,,,,
";

/// A join that comes after the request that it joins is due.
const ARRIVAL: &str = "blk-script,2,1,1,3,1
setup,0,0,256,128,
bio,0,0,R,100,8
bio,0,1,R,0,8
flush,0,,,,
run,1,,,,
bio,0,2,R,8,8
flush,0,,,,
run,1,,,,
";

/// The second of two hardware queues has what is due first.
const QUEUES: &str = "blk-script,2,1,2,8,2
setup,0,1,256,128,
bio,0,0,W,0,8
bio,1,1,R,100,8
flush,0,,,,
flush,1,,,,
run,2,,,,
";

/// A tick while something waits and a place is free.
const TICK: &str = "blk-script,2,1,1,1,1
setup,0,0,256,128,
bio,0,0,R,0,8
flush,0,,,,
drain,0,,,,
tick,,,,,
run,1,,,,
";

/// An issue, after which something more urgent comes in.
const ISSUE: &str = "blk-script,2,1,1,1,1
setup,0,9,256,128,
bio,0,0,W,0,8
flush,0,,,,
drain,0,,,,
issue,0,0,,,
bio,0,1,R,100,8
flush,0,,,,
run,2,,,,
";

/// A request that is requeued goes out again before a more urgent one.
const BACK: &str = "blk-script,2,1,1,1,1
setup,0,9,256,128,
bio,0,0,W,0,8
flush,0,,,,
drain,0,,,,
issue,0,0,,,
back,0,,,,
run,1,,,,
bio,0,1,R,100,8
flush,0,,,,
run,2,,,,
";

#[test]
fn orders(rt: HostRuntime) {
    assert!(rt; order(&rt, rt.alloc(), false, AB).as_slice() == [0, 1, 2].as_slice());
    assert!(rt; order(&rt, rt.alloc(), true, AB).as_slice() == [0, 2, 1].as_slice());
    assert!(rt; order(&rt, rt.alloc(), false, QUEUES).as_slice() == [1, 0].as_slice());
    assert!(rt; order(&rt, rt.alloc(), false, ARRIVAL).as_slice() == [0, 1].as_slice());
}

#[test]
fn never_short_by_rounds(rt: HostRuntime) {
    assert_eq!(rt; telling(&rt, rt.alloc(), false, AB), figures(0, 2, 1));
    assert_eq!(rt; telling(&rt, rt.alloc(), true, AB), figures(1, 1, 0));
    assert_eq!(rt; telling(&rt, rt.alloc(), false, DOMINO), figures(0, 6, 5));
    assert_eq!(rt; telling(&rt, rt.alloc(), true, DOMINO), figures(5, 1, 0));
    assert_eq!(rt; telling(&rt, rt.alloc(), false, BEATEN), figures(0, 1, 0));
    assert_eq!(rt; telling(&rt, rt.alloc(), false, ARRIVAL), figures(0, 1, 0));
    assert_eq!(rt; telling(&rt, rt.alloc(), false, QUEUES), figures(0, 0, 0));
}

#[test]
fn short_by_hand(rt: HostRuntime) {
    for text in [TICK, ISSUE, BACK] {
        assert_eq!(rt; telling(&rt, rt.alloc(), false, text), figures(1, 1, 1));
        assert_eq!(rt; telling(&rt, rt.alloc(), true, text), figures(1, 1, 1));
    }
}
