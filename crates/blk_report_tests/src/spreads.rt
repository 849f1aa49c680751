//! Waits and latenesses by quantiles, worked by hand.

use crate::given::{Happening, trace_of};
use answer::lines;
use blk_report::{Spreads, services, spread, spread_answer};
use refusing::Refusing;
use std::alloc::Global;
use std::process::Abort;

/// The waits and latenesses of the commands of a trace of one place a round.
fn spread_of(rt: &impl Abort, alloc: Global, steps: &[Happening]) -> Spreads {
    let heap = Refusing::new(alloc);
    let trace = trace_of(rt, &heap, 1, 9, steps);
    let served = services(&trace).expect(rt, "memory");
    spread(alloc, served.as_slice()).expect(rt, "memory")
}

/// The read waits a round and is late by one, the write goes out nine rounds early.
#[test]
fn write_before_read(rt: HostRuntime) {
    let steps = [
        Happening::Write(0),
        Happening::Read(1),
        Happening::Serve(0),
        Happening::Serve(1),
    ];
    let found = spread_of(&rt, rt.alloc(), &steps);
    let answer = spread_answer(rt.alloc(), &found).expect(&rt, "memory");
    let text = lines(rt.alloc(), &answer).expect(&rt, "memory");
    let told =
        b"what,dir,count,p50,p90,p99,p999,max\nwait,R,1,1,1,1,1,1\nwait,W,1,0,0,0,0,0\nwait,all,2,0,1,1,1,1\nlateness,R,1,1,1,1,1,1\nlateness,W,1,-9,-9,-9,-9,-9\nlateness,all,2,-9,1,1,1,1\n";
    assert_eq!(rt; text.as_slice(), told.as_slice());
}

/// Eleven reads at once wait 0 to 10 rounds: the middle one is the sixth, the tenth is the 90th of a hundred.
#[test]
fn eleven_reads(rt: HostRuntime) {
    let steps = [
        Happening::Reads(11),
        Happening::Serve(0),
        Happening::Serve(1),
        Happening::Serve(2),
        Happening::Serve(3),
        Happening::Serve(4),
        Happening::Serve(5),
        Happening::Serve(6),
        Happening::Serve(7),
        Happening::Serve(8),
        Happening::Serve(9),
        Happening::Serve(10),
    ];
    let found = spread_of(&rt, rt.alloc(), &steps);
    let reads = found.wait.reads;
    assert_eq!(rt; reads.count, 11);
    assert_eq!(rt;
        (reads.p50, reads.p90, reads.p99),
        (Some(5), Some(9), Some(10))
    );
    assert_eq!(rt; (reads.p999, reads.max), (Some(10), Some(10)));
    let writes = found.lateness.writes;
    assert_eq!(rt; (writes.count, writes.p50, writes.max), (0, None, None));
}
